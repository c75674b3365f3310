//! The clocks of occurrences of expressions.

ghost use Rattle.lb_syntax.specs.Lists.{Every};
ghost use Rattle.lb_static.specs.Instances.{Program, instances};
ghost use Rattle.lb_check.specs.Acceptance.{IsAccepted};
ghost use Rattle.lb_laws.specs.ClockAssignments.{HasOneAssignment};

/// In the text of each instance of an accepted program, the computed clocks of the occurrences of
/// expressions are the only ones with which the rules of each equation and assertion hold. This is
/// a law, and computes nothing.
pub fn the_clock_of_an_occurrence()
    ensures { (P : Program) → IsAccepted P → Every (HasOneAssignment P) (instances P) }
{}
