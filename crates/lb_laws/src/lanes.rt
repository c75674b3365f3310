//! The lanes of a batch.

ghost use Rattle.std.specs.Prelude.{◌≡◌, ℕ, ◌<◌, ◌≤◌, ◌++◌, ◌∷◌, [], true, List};
ghost use Rattle.lb_static.specs.Instances.{Program};
ghost use Rattle.lb_check.specs.Scalars.{Scalar};
ghost use Rattle.lb_check.specs.Solutions.{Inputs};
ghost use Rattle.lb_flat.specs.FlatPrograms.{IsFlatOf};
ghost use Rattle.lb_flat.specs.Flattening.{IsTrace};
ghost use Rattle.lb_lanes.specs.Planes.{on};
ghost use Rattle.lb_sim.specs.BatchRuns.{flat_of};
ghost use Rattle.lb_sim.specs.Correct.{IsFresh, Stands, StandsForTrace};
ghost use Rattle.lb_sim.specs.declared.batch_run.BatchRun.{BatchRun};
ghost use Rattle.lb_laws.specs.LaneRuns.{ComesBy, Move, trace_of};
ghost use Rattle.lb_laws.specs.MemoryWaits.{WaitsForClocks};

/// From a fresh run of some lanes, by any list of moves, each lane stands for the trace that it was
/// given, by the definitions of each program with these equations: its verdict is the one of that
/// trace, and while it is active its memories are those of the one history that solves the program
/// on it. This is a law, and computes nothing.
pub fn each_lane_stands_for_its_own_trace()
    ensures { (P : Program) → (first run : BatchRun) → (n : ℕ) → n ≤ 64 → IsFresh first n
        → (moves : List Move) → ComesBy first moves run → (flat : IsFlatOf P (flat_of run))
        → (i : ℕ) → i < n → IsTrace P (trace_of i moves)
        → StandsForTrace P run flat i (trace_of i moves) }
{}

/// In an active lane, each memory of an operand stays as it is at an instant at which the clock of
/// the operand does not tick. This is a law, and computes nothing.
pub fn memories_wait_for_the_clocks_of_the_program()
    ensures { (P : Program) → (r s : BatchRun) → s.program.now ≡ r.program.now
        → (flat : IsFlatOf P (flat_of r)) → (i : ℕ) → (X : Inputs) → (given : List Scalar)
        → IsTrace P (X ++ given ∷ []) → Stands r i X → Stands s i (X ++ given ∷ [])
        → on r.active.0 i ≡ true → on s.active.0 i ≡ true → WaitsForClocks P r s flat i X given }
{}
