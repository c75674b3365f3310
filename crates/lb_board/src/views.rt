//! The view of a seat, and the steps that change it. It exists in proofs alone.

ghost use Rattle.std.specs.Prelude.{ℕ};

use atomic_table::{Join, Play, Split, TableRule};
use std::collections::LinkedList;

/// The knowledge of a seat. No value of this type is made.
pub struct View {
    /// The limit of the numbers to draw: they are those below it.
    pub limit: u32,
    /// The shares that the seat has, of 64.
    pub shares: u32,
    /// Whether the seat was told that no number is left.
    pub told: bool,
    /// The numbers that the seat has drawn.
    pub drawn: LinkedList<u32>,
}

/// The law of the claim board.
pub struct Draws;

impl TableRule<u64, View, u32> for Draws {
    ghost use Rattle.lb_board.specs.Claims.{IsLawfulBoard};
    ghost use Rattle.lb_board.specs.Views.{first_view};

    ghost holds = { IsLawfulBoard };

    ghost first = { first_view };
}

/// The step that claims a number.
pub struct Claim;

impl Play<u64, View> for Claim {
    ghost use Rattle.lb_board.specs.Claims.{Claims};

    ghost then = { Claims };
}

/// The step that cuts a seat in two.
pub struct Halve;

impl Split<View> for Halve {
    ghost use Rattle.lb_board.specs.Views.{larger_half, smaller_half};

    ghost left = { larger_half };

    ghost right = { smaller_half };
}

/// The step that puts two seats together.
pub struct Gather;

impl Join<View> for Gather {
    ghost use Rattle.lb_board.specs.Views.{both, spent};

    ghost both = { both };

    ghost spent = { spent };
}
