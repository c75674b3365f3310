//! The columns of a signature, by their kinds.

ghost use Rattle.std.specs.Prelude.{◌≡◌, ◌<◌, length, get_or, pos, IfOk, All};
ghost use Rattle.lb_static.specs.Signature.{kinds_of};
ghost use Rattle.lb_traces.specs.Packed.{AreColumns, AreTogether};

use lb_static::Signature;
use lb_syntax::Kind;
use std::alloc::{AllocError, Global};

/// The least number of columns side by side that are copied at once.
const LEAST_TOGETHER: usize = 4;

/// The columns of a signature.
#[derive(Drop)]
pub(crate) struct RowColumns {
    /// The columns that hold integers, in the order of the signature.
    pub(crate) integers: Vec<u32>,
    /// How many of them stand side by side, from the first one on: at least four, or else 0.
    pub(crate) together: usize,
    /// The columns that hold Booleans.
    pub(crate) truths: Vec<u32>,
    /// For each column its number among the columns of its kind.
    pub(crate) places: Vec<u32>,
    pub(crate) ghost side_by_side: { AreTogether integers.items together },
}

// How many columns stand side by side, from the first one on.
fn together_in(columns: &[u32]) -> usize
    ensures { AreTogether columns.now result }
{
    for k in 0..columns.len() {
        if columns[k] as usize != columns[0] as usize + k {
            return k;
        }
    }
    columns.len()
}

// `together_in`, or 0 where they are too few for a copy.
fn copied_together(columns: &[u32]) -> usize
    ensures { AreTogether columns.now result }
{
    let count = together_in(columns);
    if count < LEAST_TOGETHER { 0 } else { count }
}

/// The columns of a signature, by their kinds.
pub(crate) fn row_columns(alloc: Global, signature: &Signature) -> Result<RowColumns, AllocError>
    ensures { IfOk result (λ c. AreColumns (kinds_of signature.now) c.integers.items c.truths.items
        c.places.items) }
{
    let mut integers: Vec<u32> = Vec::new(alloc);
    let mut truths: Vec<u32> = Vec::new(alloc);
    let mut places = Vec::new(alloc);
    for j in 0..signature.len() {
        match signature.kind(j) {
            Kind::Bool => {
                places.push(truths.len() as u32)?;
                truths.push(j)?;
            }
            Kind::Int => {
                places.push(integers.len() as u32)?;
                integers.push(j)?;
            }
        }
    }
    let together = copied_together(integers.as_slice());
    Ok(RowColumns {
        integers,
        together,
        truths,
        places,
    })
}

/// The cell of a row in column `c` of `columns`.
pub(crate) fn cell_in(row: &[i32], columns: &[u32], c: usize) -> i32
    requires column { c < length columns.now }
    requires columns { All (λ j. j < length row.now) columns.now }
    ensures { result ≡ get_or row.now (get_or columns.now c (length row.now)) (pos 0) }
{
    row[columns[c] as usize]
}
