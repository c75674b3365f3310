//! The clocks that a term accepts (E10).

ghost use Rattle.std.specs.Prelude.{◌≡◌};
ghost use Rattle.lb_check.specs.TermClocks as mirror;

use crate::own_clock::{Clock, is_same};
use lb_static::VariableId;

/// The clocks that a term accepts.
#[derive(Clone, Copy)]
pub enum ClockSet {
    /// No clock: a rule of clocks is broken in the term.
    NoClock,
    /// Each clock: nothing in the term determines one.
    AnyClock,
    /// This clock alone.
    OneClock(Clock),
}

/// An operand in a row: its clock set, and its variable, if it is one, in parentheses or not.
#[derive(Clone, Copy)]
pub struct Operand {
    pub clock_set: ClockSet,
    pub variable: Option<VariableId>,
}

impl ClockSet {
    /// The clocks that both accept.
    pub fn both(self, other: ClockSet) -> ClockSet
        ensures { result ≡ mirror.both self other }
    {
        match (self, other) {
            (ClockSet::NoClock, _) => ClockSet::NoClock,
            (ClockSet::AnyClock, _) => other,
            (ClockSet::OneClock(_), ClockSet::NoClock) => ClockSet::NoClock,
            (ClockSet::OneClock(_), ClockSet::AnyClock) => self,
            (ClockSet::OneClock(left), ClockSet::OneClock(right)) => {
                if is_same(left, right) {
                    self
                } else {
                    ClockSet::NoClock
                }
            }
        }
    }

    /// Whether the set accepts a clock at all.
    pub fn stands(self) -> bool
        ensures { result ≡ mirror.stands self }
    {
        match self {
            ClockSet::NoClock => false,
            ClockSet::AnyClock | ClockSet::OneClock(_) => true,
        }
    }

    /// Whether the set accepts this clock, if there is one.
    pub fn accepts_clock(self, clock: Option<Clock>) -> bool
        ensures { result ≡ mirror.accepts_clock clock self }
    {
        match (self, clock) {
            (ClockSet::NoClock, _) => false,
            (ClockSet::AnyClock, _) => true,
            (ClockSet::OneClock(own), Some(clock)) => is_same(own, clock),
            (ClockSet::OneClock(_), None) => false,
        }
    }
}

/// The clocks that all of some operands accept.
#[tactic(auto, using(crate::proofs::clocking::ClockSetRows::together_next))]
pub fn together(operands: &[Operand]) -> ClockSet
    ensures { result ≡ mirror.together operands.now }
{
    let mut clock_set = ClockSet::AnyClock;
    for operand in operands {
        clock_set = clock_set.both(operand.clock_set);
    }
    clock_set
}
