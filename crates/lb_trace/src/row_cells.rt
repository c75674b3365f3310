//! The cells of a row, written one after the other.

ghost use Rattle.std.specs.Prelude.{◌≡◌, ◌<◌, ◌≤◌, ◌+◌, ◌++◌, ◌∷◌, [], OnOk, length, take};

use std::alloc::AllocError;

/// Makes a row `count` cells long. Its cells have no meaning yet.
#[inline(always)]
pub(crate) fn make_long(row: &mut Vec<i32>, count: usize) -> Result<(), AllocError>
    ensures { OnOk result (length row.new.items ≡ count) }
{
    if row.len() != count {
        row.clear();
        row.resize(count, 0)?;
    }
    Ok(())
}

/// Writes the cell at place `i`.
#[inline(always)]
pub(crate) fn put_one(cells: &mut [i32], i: usize, value: i32)
    requires { i < length cells.old }
    ensures front { take (i + 1) cells.new ≡ take i cells.old ++ value ∷ [] }
    ensures long { length cells.new ≡ length cells.old }
{
    cells[i] = value;
}

/// Writes four cells from place `i` on.
#[inline(always)]
pub(crate) fn put_four(cells: &mut [i32], i: usize, values: [i32; 4])
    requires { i + 4 ≤ length cells.old }
    ensures front { take (i + 4) cells.new ≡ take i cells.old ++ values }
    ensures long { length cells.new ≡ length cells.old }
{
    let [a, b, c, d] = values;
    cells[i] = a;
    cells[i + 1] = b;
    cells[i + 2] = c;
    cells[i + 3] = d;
}

/// Writes all cells, at most four, by the first of four values.
#[inline(always)]
pub(crate) fn put_first(cells: &mut [i32], values: [i32; 4])
    requires { length cells.old ≤ 4 }
    ensures { cells.new ≡ take (length cells.old) values }
{
    for i in 0..cells.len() {
        put_one(cells, i, values[i]);
    }
}
