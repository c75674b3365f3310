//! The values of names in an instance: those of its static parameters, then those of the constants.

ghost use Rattle.std.specs.Prelude.{◌≡◌, option_map, find};
ghost use Rattle.std.specs.Str.{bytes_eq};
ghost use Rattle.std.specs.List.{zip};

use crate::constants::Constants;
use crate::static_value::{StaticInt, Values};
use lb_syntax::Name;

/// The values of names in an instance of a node.
#[derive(Clone, Copy)]
pub struct InstanceValues<'a> {
    /// The static parameters of the node; one hides a constant of its name.
    pub parameters: &'a [Name],
    /// The values of the static parameters, in the same order.
    pub values: &'a [StaticInt],
    pub constants: &'a Constants<'a>,
}

/// The value of the first static parameter with this name.
fn parameter_value(parameters: &[Name], values: &[StaticInt], name: &str) -> Option<StaticInt>
    ensures { result ≡ option_map (λ v. v.1)
        (find (λ v. bytes_eq v.0 name.now) (zip parameters.now values.now)) }
{
    for (place, parameter) in parameters.iter().enumerate() {
        if parameter.as_str() == name {
            return values.get(place).copied();
        }
    }
    None
}

impl Values for InstanceValues<'_> {
    ghost use Rattle.lb_static.specs.Specialized.{given_by};

    ghost given = { given_by };

    fn get(&self, name: &str) -> Option<StaticInt> {
        match parameter_value(self.parameters, self.values, name) {
            Some(value) => Some(value),
            None => self.constants.get(name),
        }
    }
}
