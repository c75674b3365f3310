//! Laws of the lanes of a run.

ghost use Rattle.std.specs.Prelude.{◌≡◌, ℕ, ◌<◌, ◌++◌, ◌∷◌, [], true, List};
ghost use Rattle.lb_static.specs.Instances.{Program};
ghost use Rattle.lb_check.specs.Scalars.{Scalar};
ghost use Rattle.lb_check.specs.Solutions.{Inputs as InputRows};
ghost use Rattle.lb_flat.specs.FlatPrograms.{IsFlatOf};
ghost use Rattle.lb_flat.specs.Flattening.{IsTrace};
ghost use Rattle.lb_lanes.specs.Planes.{on};
ghost use Rattle.lb_sim.specs.BatchLaws.{KeepsMemories};
ghost use Rattle.lb_sim.specs.BatchRuns.{flat_of};
ghost use Rattle.lb_sim.specs.Correct.{Stands, StandsForTrace};
ghost use Rattle.lb_sim.specs.SoundMemories.{HoldsNoFault};
ghost use Rattle.lb_sim.specs.declared.batch_run.BatchRun.{BatchRun};

/// A lane that stands for a trace of a flat program also stands for it by the definitions of each
/// program with this flat program: its verdict is the one of the trace, and while it is active its
/// memories are those of the one history that solves the program. This is a law, and computes
/// nothing.
pub fn lanes_stand_for_traces()
    ensures { (P : Program) → (r : BatchRun) → (flat : IsFlatOf P (flat_of r)) → (i : ℕ)
        → (X : InputRows) → IsTrace P X → Stands r i X → StandsForTrace P r flat i X }
{}

/// In a lane that is active, a memory whose clock does not tick keeps its value. This is a law, and
/// computes nothing.
pub fn memories_wait_for_their_clock()
    ensures { (r s : BatchRun) → s.program.now ≡ r.program.now → (i : ℕ) → (X : InputRows)
        → (given : List Scalar) → Stands r i X → Stands s i (X ++ given ∷ [])
        → on r.active.0 i ≡ true → on s.active.0 i ≡ true → KeepsMemories r s i X given }
{}

/// In a lane that is active, no memory is a fault. This is a law, and computes nothing.
pub fn active_memories_are_no_faults()
    ensures { (P : Program) → (r : BatchRun) → (flat : IsFlatOf P (flat_of r)) → (i : ℕ) → i < 64
        → (X : InputRows) → IsTrace P X → Stands r i X → on r.active.0 i ≡ true
        → HoldsNoFault P r flat i }
{}
