//! The clocks that a node sees: its base clock, and those on which its variables have a sign.

ghost use Rattle.std.specs.Prelude.{◌≡◌, true, option_map};
ghost use Rattle.lb_static.specs.ResolvedNodes.{counts_of, node_of};
ghost use Rattle.lb_static.specs.ResolvedTerms.{is_variable};
ghost use Rattle.lb_check.specs.ClockRules.{is_clock};
ghost use Rattle.lb_check.specs.Clocks as tree;
ghost use Rattle.lb_check.specs.OwnClocks.{HasClocks, clock_in, is_clock_within, name_in};
ghost use Rattle.lb_check.specs.StoredClocks.{clock_above};
ghost use Rattle.lb_check.specs.TermClocks as mirror;
ghost use Rattle.lb_static.specs.declared.resolved.ResolvedNode as resolved;

use lb_static::{ResolvedNode, Sampling, VariableId};

/// A clock of a node. The clock above `On(x, _)` is always the declared clock of `x`, so that two
/// clocks are the same if their variables and signs are.
#[derive(Clone, Copy)]
pub enum Clock {
    /// The base clock of the node.
    Base,
    /// The instants of the declared clock of a variable at which it has this sign.
    On(VariableId, bool),
}

/// The clock of a variable that is declared with this clock.
fn clock_with(clock: Option<Sampling>) -> Clock
    ensures { result ≡ mirror.clock_with clock }
{
    match clock {
        None => Clock::Base,
        Some(clock) => Clock::On(clock.variable, clock.sign),
    }
}

/// The declared clock of a variable.
pub fn declared_clock(node: &ResolvedNode, variable: VariableId) -> Clock
    ensures mirror { result ≡ mirror.declared_in node.now variable }
    ensures same { HasClocks node.now → is_variable (counts_of node.now) variable ≡ true →
        clock_in node.now result
        ≡ tree.declared_clock (node_of node.now) (name_in node.now variable) }
    ensures within { HasClocks node.now → is_variable (counts_of node.now) variable ≡ true →
        is_clock_within node.now result ≡ true }
{
    match node.variables.get(variable.0) {
        Some(declared) => clock_with(declared.clock),
        None => Clock::Base,
    }
}

/// The clock on which the variable of a clock stands; the base clock has none.
pub fn parent(node: &ResolvedNode, clock: Clock) -> Option<Clock>
    ensures mirror { result ≡ clock_above node.now clock }
    ensures same { HasClocks node.now → is_clock_within node.now clock ≡ true →
        option_map (clock_in node.now) result ≡ tree.parent (clock_in node.now clock) }
{
    match clock {
        Clock::Base => None,
        Clock::On(variable, _) => Some(declared_clock(node, variable)),
    }
}

/// Whether two clocks of a node are the same.
pub fn is_same(left: Clock, right: Clock) -> bool
    ensures mirror { result ≡ mirror.is_same left right }
    ensures same { (r : resolved.ResolvedNode) → HasClocks r →
        is_clock_within r left ≡ true → is_clock_within r right ≡ true →
        result ≡ is_clock (clock_in r left) (clock_in r right) }
{
    match (left, right) {
        (Clock::Base, Clock::Base) => true,
        (Clock::On(x, sign), Clock::On(y, other)) => x.0 == y.0 && sign == other,
        _ => false,
    }
}
