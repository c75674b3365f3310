//! A law of flat programs and the programs that they stand for.

ghost use Rattle.std.specs.Prelude.{◌↔◌};
ghost use Rattle.lb_static.specs.Instances.{Program};
ghost use Rattle.lb_check.specs.Solutions.{Inputs, Solves};
ghost use Rattle.lb_check.specs.Streams.{History};
ghost use Rattle.lb_flat.specs.FlatPrograms.{IsFlatOf, IsStreamed};
ghost use Rattle.lb_flat.specs.Judging.{FlatProgram};

/// The histories that solve a program on a trace are exactly those that come from the solutions of
/// a flat program that stands for it. This is a law, and computes nothing.
pub fn histories_are_those_of_streams()
    ensures { (P : Program) → (f : FlatProgram) → IsFlatOf P f → (X : Inputs) → (H : History)
        → Solves P X H ↔ IsStreamed P f X H }
{}
