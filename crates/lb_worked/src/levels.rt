//! The levels of expressions: which operator binds more tightly.

ghost use Rattle.lb_worked.specs.WorkedLevels.{AreLevels};

/// Each example spells exactly one tree, or none.
pub fn levels()
    ensures { AreLevels }
{}
