//! The stages of a flat program: expanded, and put in order.

ghost use Rattle.std.specs.Prelude.{◌≡◌, true, false, replicate};
ghost use Rattle.lb_flat.specs.Bounds.{IsBounded, bounded_props};
ghost use Rattle.lb_flat.specs.GivenOnce.{IsGiven, given_prop};
ghost use Rattle.lb_flat.specs.InOrder.{is_in_order};
ghost use Rattle.lb_flat.specs.Programs.{IsInRange, flat_equations, program_of};
ghost use Rattle.lb_flat.specs.Standing.{StandsForProgram};

use crate::program::FlatProgram;

/// A flat program whose equations stand in no order yet. It stands for a program.
#[derive(Drop)]
pub struct Flat {
    pub program: FlatProgram,
    pub ghost in_range: { IsInRange program },
    pub ghost bounded: { IsBounded program } by { Prim.hlevel bounded_props },
    pub ghost given: { IsGiven (program_of program) } by { given_prop (program_of program) },
    pub ghost stands: { StandsForProgram (program_of program) },
}

/// A flat program whose equations can be computed one after the other. It stands for a program.
#[derive(Drop)]
pub struct Ordered {
    pub program: FlatProgram,
    pub ghost in_range: { IsInRange program },
    pub ghost bounded: { IsBounded program } by { Prim.hlevel bounded_props },
    pub ghost in_order: { is_in_order (replicate program.size false)
        (flat_equations program.clocks.items program.equations.items) ≡ true },
    pub ghost stands: { StandsForProgram (program_of program) },
}
