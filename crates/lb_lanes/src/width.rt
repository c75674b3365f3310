//! The width: the number of lanes that are computed.
//!
//! Lanes are computed in chunks of sixteen. The chunks above the last active lane are left out:
//!
//! ```text
//! lanes     0..15   16..31   32..47   48..63
//! active    ....    ..       -        -          width 32: the first two chunks
//! ```

ghost use Rattle.std.specs.Prelude.{◌≡◌, ℕ, ◌*◌, ◌<◌, ◌≤◌, true};
ghost use Rattle.lb_lanes.specs.Planes.{on};

use crate::planes::Plane;

// The number of low chunks that have all lanes of a plane.
fn chunks_of(lanes: u64) -> usize
    ensures some { 0 < result }
    ensures few { result ≤ 4 }
    ensures within { (i : ℕ) → i < 64 → on lanes i ≡ true → i < 16 * result }
{
    if lanes < 65536 {
        return 1;
    }
    if lanes < 4294967296 {
        return 2;
    }
    if lanes < 281474976710656 {
        return 3;
    }
    4
}

/// The number of lanes that are computed: the first 16, 32, 48 or all 64. Nothing is known of what
/// the other lanes hold afterwards.
#[derive(Clone, Copy)]
pub struct Width {
    pub(crate) chunks: usize,
    pub(crate) ghost some: { 0 < chunks },
    pub(crate) ghost few: { chunks ≤ 4 },
}

impl Width {
    ghost use Rattle.lb_lanes.specs.Kernels.{lanes_in};

    /// All 64 lanes.
    pub fn all() -> Width
        ensures { lanes_in result ≡ 64 }
    {
        Width { chunks: 4 }
    }

    /// The least width with all lanes of a plane.
    pub fn of(lanes: Plane) -> Width
        ensures { (i : ℕ) → i < 64 → on lanes.0 i ≡ true → i < lanes_in result }
    {
        Width {
            chunks: chunks_of(lanes.0),
        }
    }

    // A plane that is true in all lanes of the width.
    pub(crate) fn plane(self) -> u64
        ensures { (i : ℕ) → i < lanes_in self → on result i ≡ true }
    {
        u64::MAX >> (64 - 16 * self.chunks as u64)
    }
}
