//! The values of the named constants of a source.
//!
//! A constant may name others that stand before it or after it, in a chain as long as the source,
//! so no call goes along a chain: a walk with its own stack evaluates each constant after those
//! that it names. Of `const a = b + 1; b = 2;` it visits `a` and then `b`, and evaluates `b` and
//! then `a`. A constant that needs itself is evaluated while a value that it needs is not known,
//! and gets none.
//!
//! The order of the walk saves time, and no value depends on it: a value that follows from known
//! values is right, and where no further constant gets a value, all values are known. After the
//! walk one pass over the constants confirms that no further constant gets one.

ghost use Rattle.std.specs.Prelude.{◌≡◌, ◌<◌, ◌≤◌, ◌+◌, ℕ, [], true, false, map, length, IfOk};
ghost use Rattle.std.specs.Prelude.{OnOk, All};
ghost use Rattle.lb_syntax.specs.SourceView.{view_constant};
ghost use Rattle.lb_syntax.specs.View.{view_static};
ghost use Rattle.lb_static.specs.ConstantValues.{names_of, known, read_constants, value_held};
ghost use Rattle.lb_static.specs.ConstantValues.{AreFirst, AreStable, IsStable, IsSound};
ghost use Rattle.lb_static.specs.Tasks.{place_of};
ghost use Rattle.lb_static.specs.Parts.{static_names};
ghost use Rattle.lb_static.specs.StaticValues.{constant_value};

use crate::scope::Scope;
use crate::static_value::{StaticInt, Values, static_value};
use lb_syntax::{Constant, Static};
use std::alloc::{AllocError, Global};

/// The values of the constants of a source.
///
/// In contracts `value_of` is the value of a name, if it has one.
#[derive(Drop)]
pub struct Constants<'s> {
    trees: &'s [Constant],
    names: Scope,
    values: Vec<Option<StaticInt>>,
}

impl Values for Constants<'_> {
    ghost use Rattle.lb_static.specs.HeldValues.{value_of};

    ghost given = { value_of };

    fn get(&self, name: &str) -> Option<StaticInt> {
        let known = Known {
            names: &self.names,
            values: self.values.as_slice(),
        };
        known.get(name)
    }
}

/// The values that are known so far, each at the place of its name.
#[derive(Clone, Copy)]
struct Known<'a> {
    names: &'a Scope,
    values: &'a [Option<StaticInt>],
}

impl Values for Known<'_> {
    ghost use Rattle.lb_static.specs.ConstantValues.{value_held};

    ghost given = { λ k. value_held k.names.now k.values.now };

    fn get(&self, name: &str) -> Option<StaticInt> {
        let place = self.names.place(name)?;
        *self.values.get(place)?
    }
}

/// Evaluates the constant at a place, unless its value is known. Returns whether it got a value,
/// which is so if its value follows from known ones.
fn evaluate(
    constants: &[&Constant],
    names: &Scope,
    values: &mut [Option<StaticInt>],
    place: usize,
) -> bool
    requires same_names { names.now ≡ names_of (read_constants constants.now) }
    requires sound { IsSound (read_constants constants.now) values.old }
    requires within { place < length constants.now }
    ensures sound { IsSound (read_constants constants.now) values.new }
    ensures more { result ≡ true → known values.old < known values.new }
    ensures same { result ≡ false → values.new ≡ values.old }
    ensures stable { result ≡ false →
        IsStable (read_constants constants.now) values.old place }
{
    if values[place].is_some() {
        return false;
    }
    match static_value(&constants[place].value, &Known { names, values }) {
        Some(value) => {
            values[place] = Some(value);
            true
        }
        None => false,
    }
}

/// Evaluates each constant in the order of the source. Returns whether any got a value. If none
/// did, each constant whose value is not known has none.
fn evaluate_all(constants: &[&Constant], names: &Scope, values: &mut [Option<StaticInt>]) -> bool
    requires same_names { names.now ≡ names_of (read_constants constants.now) }
    requires sound { IsSound (read_constants constants.now) values.old }
    ensures sound { IsSound (read_constants constants.now) values.new }
    ensures more { result ≡ true → known values.old < known values.new }
    ensures stable { result ≡ false →
        AreStable (read_constants constants.now) values.new }
{
    let mut is_more = false;
    for place in 0..constants.len() {
        if evaluate(constants, names, values, place) {
            is_more = true;
        }
    }
    is_more
}

/// A task that is left in the walk.
#[derive(Clone, Copy)]
enum Task {
    /// The constant at this place and those that it names, unless it was visited before.
    Visit(usize),
    /// The constant at this place, after those that it names.
    Evaluate(usize),
}

/// Adds a visit of each constant that an expression names to the tasks.
fn visit_names(expression: &Static, names: &Scope, tasks: &mut Vec<Task>) -> Result<(), AllocError>
    requires within { All (λ t. place_of t < length names.now) tasks.old.items }
    ensures within { OnOk result (All (λ t. place_of t < length names.now) tasks.new.items) }
    ensures few { OnOk result (length tasks.new.items
        ≤ length tasks.old.items + length (static_names (view_static expression.now))) }
{
    match expression {
        Static::Whole(_, _) => Ok(()),
        Static::Named(x) => {
            if let Some(place) = names.place(x.as_str()) {
                tasks.push(Task::Visit(place))?;
            }
            Ok(())
        }
        Static::Grouped(inner, _) | Static::Negated(inner, _) => visit_names(inner, names, tasks),
        Static::Combined(_, left, right, _) => {
            visit_names(left, names, tasks)?;
            visit_names(right, names, tasks)
        }
    }
}

/// Visits each constant that was not seen, and evaluates it after those that it names, except those
/// that need it themselves. At the start there is no task.
fn visit_each(
    constants: &[&Constant],
    names: &Scope,
    values: &mut [Option<StaticInt>],
    seen: &mut [bool],
    tasks: &mut Vec<Task>,
) -> Result<(), AllocError>
    requires same_names { names.now ≡ names_of (read_constants constants.now) }
    requires sound { IsSound (read_constants constants.now) values.old }
    requires as_many { length seen.old ≡ length constants.now }
    requires none { tasks.old.items ≡ [] }
    ensures sound { IsSound (read_constants constants.now) values.new }
{
    for place in 0..constants.len() {
        tasks.push(Task::Visit(place))?;
    }
    while let Some(task) = tasks.pop() {
        match task {
            Task::Visit(place) => {
                if !seen[place] {
                    seen[place] = true;
                    tasks.push(Task::Evaluate(place))?;
                    visit_names(&constants[place].value, names, tasks)?;
                }
            }
            Task::Evaluate(place) => {
                evaluate(constants, names, values, place);
            }
        }
    }
    Ok(())
}

/// Evaluates each constant after those that it names, except those that need it themselves.
fn evaluate_in_order(
    alloc: Global,
    constants: &[&Constant],
    names: &Scope,
    values: &mut [Option<StaticInt>],
) -> Result<(), AllocError>
    requires same_names { names.now ≡ names_of (read_constants constants.now) }
    requires sound { IsSound (read_constants constants.now) values.old }
    ensures sound { IsSound (read_constants constants.now) values.new }
{
    let mut seen = vec![in alloc; false; constants.len()]?;
    let mut tasks = Vec::new(alloc);
    visit_each(constants, names, values, &mut seen, &mut tasks)
}

/// Collects the first constant of each name, in the order of the source.
fn first_of_each<'a>(
    alloc: Global,
    constants: &'a [Constant],
    names: &mut Scope,
    firsts: &mut Vec<&'a Constant>,
) -> Result<(), AllocError>
    requires no_name { names.old ≡ [] }
    requires none { firsts.old.items ≡ [] }
    ensures same_names { OnOk result (names.new ≡ names_of (read_constants firsts.new.items)) }
    ensures first { OnOk result
        (AreFirst (read_constants firsts.new.items) (map view_constant constants.now)) }
    ensures few { OnOk result (length firsts.new.items ≤ length constants.now) }
{
    for constant in constants {
        if names.declare(alloc, constant.name.as_str())? {
            firsts.push(constant)?;
        }
    }
    Ok(())
}

/// The value of each of these constants, whose names are distinct.
fn values_of(
    alloc: Global,
    constants: &[&Constant],
    names: &Scope,
) -> Result<Vec<Option<StaticInt>>, AllocError>
    requires { names.now ≡ names_of (read_constants constants.now) }
    ensures sound { IfOk result (λ v. IsSound (read_constants constants.now) v.items) }
    ensures stable { IfOk result (λ v. AreStable (read_constants constants.now) v.items) }
{
    let mut values = vec![in alloc; None; constants.len()]?;
    evaluate_in_order(alloc, constants, names, &mut values)?;
    while evaluate_all(constants, names, &mut values) {}
    Ok(values)
}

/// The values of the constants of a source, with one place for each name.
fn known_values(
    alloc: Global,
    constants: &[Constant],
    names: &mut Scope,
) -> Result<Vec<Option<StaticInt>>, AllocError>
    requires { names.old ≡ [] }
    ensures { IfOk result (λ values. value_held names.new values.items
        ≡ constant_value (map view_constant constants.now) (length constants.now)) }
{
    let mut firsts = Vec::new(alloc);
    first_of_each(alloc, constants, names, &mut firsts)?;
    values_of(alloc, &firsts, names)
}

impl<'s> Constants<'s> {
    ghost use Rattle.lb_static.specs.HeldValues.{value_of};

    /// The values of the constants of a source; of two constants with one name the first counts.
    pub fn new(alloc: Global, constants: &'s [Constant]) -> Result<Constants<'s>, AllocError>
        ensures { IfOk result (λ c.
            value_of c ≡ constant_value (map view_constant constants.now) (length constants.now)) }
    {
        let mut names = Scope::new(alloc);
        let values = known_values(alloc, constants, &mut names)?;
        Ok(Constants {
            trees: constants,
            names,
            values,
        })
    }

    /// The constants of the source.
    pub fn trees(&self) -> &'s [Constant] {
        self.trees
    }
}
