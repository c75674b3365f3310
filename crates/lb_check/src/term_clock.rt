//! The clocks that a term accepts, from the clocks that its operands accept (E10).

ghost use Rattle.std.specs.Prelude.{◌≡◌, option_map};
ghost use Rattle.lb_check.specs.StoredClocks.{context_in};
ghost use Rattle.lb_check.specs.TermClocks as mirror;

use crate::call_clock::{call_clock_set, is_base_clocked};
use crate::clock_set::{ClockSet, Operand, together};
use crate::own_clock::{Clock, declared_clock, parent};
use lb_static::{CallId, Reached, ResolvedNode, Term, VariableId};

/// A node whose clocks are judged, among the reached nodes.
#[derive(Clone, Copy)]
pub struct ClockEnv<'a, 's> {
    pub reached: &'a Reached<'s>,
    pub node: &'a ResolvedNode<'s>,
}

impl<'a, 's> ClockEnv<'a, 's> {
    /// The declared clock of a variable.
    #[tactic(auto, unfolding(crate::specs::TermClocks::context_of))]
    pub fn variable(&self, x: VariableId) -> Clock
        ensures { result ≡ (context_in self.now).variable x }
    {
        declared_clock(self.node, x)
    }

    /// The callee of a call.
    #[tactic(auto, unfolding(crate::specs::TermClocks::context_of))]
    pub fn callee(&self, c: CallId) -> Option<&'a ResolvedNode<'s>>
        ensures { option_map (λ n. n.now) result ≡ (context_in self.now).callee c }
    {
        self.reached.callee(self.node, c)
    }

    /// The clocks that `current` of an operand accepts: one clock further up.
    #[tactic(auto, unfolding(crate::specs::TermClocks::context_of))]
    fn raised(&self, clock_set: ClockSet) -> ClockSet
        ensures { result ≡ mirror.raised (context_in self.now) clock_set }
    {
        let ClockSet::OneClock(clock) = clock_set else {
            return ClockSet::NoClock;
        };
        match parent(self.node, clock) {
            Some(above) => ClockSet::OneClock(above),
            None => ClockSet::NoClock,
        }
    }

    /// The clocks that an operand `when` a variable has this sign accepts: the clock of that sign,
    /// where the operand accepts the clock of the variable.
    fn sampled(&self, x: VariableId, sign: bool, clock_set: ClockSet) -> ClockSet
        ensures { result ≡ mirror.sampled (context_in self.now) x sign clock_set }
    {
        if clock_set.accepts_clock(Some(self.variable(x))) {
            ClockSet::OneClock(Clock::On(x, sign))
        } else {
            ClockSet::NoClock
        }
    }
}

/// The clocks that a term with these operands in a row accepts.
pub fn row_clock_set(env: &ClockEnv, term: &Term, operands: &[Operand]) -> ClockSet
    ensures { result ≡ mirror.row_clock_set (context_in env.now) term.now operands.now }
{
    match term {
        Term::Call(call, _) => match env.callee(*call) {
            Some(callee) => call_clock_set(callee, operands),
            None => ClockSet::NoClock,
        },
        Term::IterateNode(_, call, _) => match env.callee(*call) {
            Some(callee) if is_base_clocked(callee) => together(operands),
            _ => ClockSet::NoClock,
        },
        _ => together(operands),
    }
}

/// The clocks that a term with one operand accepts, from those that the operand accepts.
pub fn unary_clock_set(env: &ClockEnv, term: &Term, operand: ClockSet) -> ClockSet
    ensures { result ≡ mirror.unary_clock_set (context_in env.now) term.now operand }
{
    match term {
        Term::Current(_) => env.raised(operand),
        Term::When(_, x, sign) => env.sampled(*x, *sign, operand),
        _ => operand,
    }
}
