//! Columns that stand side by side, sixteen at once.

ghost use Rattle.std.specs.Prelude.{◌≡◌, ◌==◌, ℕ, ◌+◌, ◌<◌, ◌≤◌, IsTrue, get_or, int_le, length};
ghost use Rattle.std.specs.Prelude.{pos};
ghost use Rattle.std.specs.Int.{bit_at};
ghost use Rattle.lb_traces.specs.Traces.{IsInt};

use std::simd::prelude::*;

// The distance of each of sixteen neighbours from the first.
const STEPS: [u32; 16] = [0, 1, 2, 3, 4, 5, 6, 7, 8, 9, 10, 11, 12, 13, 14, 15];

/// Whether the sixteen columns from `first` on stand side by side.
#[inline]
pub(crate) fn are_neighbours(columns: &[u32], first: usize) -> bool
    requires { first + 16 ≤ length columns.now }
    ensures { IsTrue result → (k : ℕ) → k < 16
        → get_or columns.now (first + k) 0 ≡ get_or columns.now first 0 + k }
{
    let start = columns[first];
    if columns[first + 15] < start {
        return false;
    }
    let sixteen = u32x16::from_slice(&columns[first..]);
    let steps = sixteen - u32x16::splat(start);
    steps.simd_eq(u32x16::from_array(STEPS)).to_bitmask() == 65535
}

/// Sixteen cells as bits: 1 where a cell is true.
#[inline]
pub(crate) fn truths_in(cells: &[i32]) -> u64
    requires long { 15 < length cells.now }
    requires ints { (i : ℕ) → i < 16 → IsInt (get_or cells.now i (pos 0)) }
    ensures bits { (i : ℕ) → i < 16
        → (bit_at result i == 1) ≡ int_le (pos 1) (get_or cells.now i (pos 0)) }
    ensures small { result < 65536 }
{
    i32x16::from_slice(cells)
        .simd_ge(i32x16::splat(1))
        .to_bitmask()
}
