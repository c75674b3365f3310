//! The columns of a signature: which hold Booleans, and which hold integers.

ghost use Rattle.std.specs.Prelude.{◌≡◌, length, count_by, IfOk};
ghost use Rattle.std.specs.List.{range_with_len};
ghost use Rattle.lb_sim.specs.InputRows.{is_truth, truth_columns, number_columns};

use lb_syntax::Kind;
use std::alloc::{AllocError, Global};

/// The columns of a signature: a plane for each Boolean and a word for each integer, in the order
/// of the signature.
pub struct Columns {
    /// The kind of each column.
    pub kinds: Vec<Kind>,
    /// The number of Booleans, and the number of integers.
    pub truths: usize,
    pub numbers: usize,
    /// The places of all integers among the integers.
    pub(crate) every_number: Vec<usize>,
    pub(crate) ghost in_order: { every_number.items ≡ range_with_len 0 numbers },
    pub ghost all_truths: { truths ≡ length (truth_columns 0 kinds.items) },
    pub ghost all_numbers: { numbers ≡ length (number_columns 0 kinds.items) },
}

// Not derived, so that a caller drops it in one step.
impl Drop for Columns {
    fn drop(self) {
        let Columns {
            kinds: _,
            truths: _,
            numbers: _,
            every_number: _,
        } = self;
    }
}

// Whether a column holds Booleans.
fn is_truth(kind: &Kind) -> bool
    ensures { result ≡ is_truth kind.now }
{
    match kind {
        Kind::Bool => true,
        Kind::Int => false,
    }
}

// The number of columns that hold Booleans.
fn count_truths(kinds: &[Kind]) -> usize
    ensures { result ≡ count_by is_truth kinds.now }
{
    kinds.iter().filter(|kind| is_truth(kind)).count()
}

// The numbers below `count`, in order.
fn numbers_below(alloc: Global, count: usize) -> Result<Vec<usize>, AllocError>
    ensures { IfOk result (λ v. v.items ≡ range_with_len 0 count) }
{
    let mut numbers = Vec::new(alloc);
    for n in 0..count {
        numbers.push(n)?;
    }
    Ok(numbers)
}

impl Columns {
    /// The columns of these kinds. It fails only where memory was refused (E0).
    pub fn new(alloc: Global, signature: &[Kind]) -> Result<Columns, AllocError>
        ensures { IfOk result (λ x. x.kinds.items ≡ signature.now) }
    {
        let mut kinds = Vec::new(alloc);
        kinds.extend_from_slice(signature)?;
        let truths = count_truths(signature);
        let numbers = signature.len() - truths;
        let every_number = numbers_below(alloc, numbers)?;
        Ok(Columns {
            kinds,
            truths,
            numbers,
            every_number,
        })
    }
}
