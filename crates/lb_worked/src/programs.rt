//! Whole programs.

ghost use Rattle.lb_syntax.specs.Correct.{IsOnlyProgram};
ghost use Rattle.lb_worked.specs.WorkedPrograms.{whole_text, whole_tree};

/// Constants, nodes and functions, with all forms of declarations and of left sides.
pub fn whole_program()
    ensures { IsOnlyProgram whole_tree whole_text }
{}
