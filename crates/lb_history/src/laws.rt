//! Laws of the rows of a flat program, for the programs that it stands for.

ghost use Rattle.std.specs.Prelude.{◌≡◌, ◌<◌, ℕ, Some, [], length, slice_get};
ghost use Rattle.lb_static.specs.Instances.{Program};
ghost use Rattle.lb_check.specs.Elements.{program_elements};
ghost use Rattle.lb_check.specs.Needs.{Element};
ghost use Rattle.lb_check.specs.Solutions.{Inputs, Solves};
ghost use Rattle.lb_check.specs.Streams.{History};
ghost use Rattle.lb_flat.specs.FlatPrograms.{IsFlatOf};
ghost use Rattle.lb_flat.specs.Judging.{FlatProgram};
ghost use Rattle.lb_flat.specs.Run.{Ready, cell};
ghost use Rattle.lb_history.specs.Histories.{history_cell};
ghost use Rattle.lb_history.specs.Replaying.{row_at};

/// In the row of an instant, each element of a variable holds what each history that solves the
/// program on the trace has there. This is a law, and computes nothing.
pub fn rows_are_those_of_histories()
    ensures { (P : Program) → (f : FlatProgram) → IsFlatOf P f → Ready f.size [] f.equations
        → (X : Inputs) → (H : History) → Solves P X H → (t i : ℕ) → (e : Element) → t < length X
        → slice_get (program_elements P) i ≡ Some e
        → cell (row_at f X t) i ≡ history_cell H e t }
{}
