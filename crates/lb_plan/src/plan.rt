//! Plans: how the traces of a set are cut into batches.
//!
//! The numbers of all batches stand in one list, batch after batch, so that a batch takes no memory
//! of its own:
//!
//! ```text
//! by length, width 2, traces of 3, 1, 2 and 1 instants:      numbers  1 3 2 0
//!                                                            batches  1 3 | 2 0
//! ```

ghost use Rattle.std.specs.Prelude.{◌≡◌, ◌<◌, ◌≤◌, ◌^◌, ◌++◌, [], length, map, get_or, IfOk};
ghost use Rattle.std.specs.Prelude.{OnOk, vec_len, take, drop, reverse};
ghost use Rattle.std.specs.List.{range_with_len};
ghost use Rattle.std.specs.List.Sorted.{IsPermutation};
ghost use Rattle.lb_plan.specs.Cuts.{measured};
ghost use Rattle.lb_plan.specs.Plans.{numbers_in, length_of, IsPlan, IsLawful, IsByLength};
ghost use Rattle.lb_plan.specs.Plans.{IsForLanes};

use lb_traces::TraceSet;
use std::alloc::{AllocError, Global};
use std::marker::Model;

/// The numbers of some traces in batches of 1 to 64, each number once.
///
/// Contracts see the list of its batches.
#[derive(Drop)]
pub struct Plan {
    /// The numbers of all batches, batch after batch.
    numbers: Vec<u32>,
    /// The size of a batch; the last may be smaller.
    width: u32,
}

impl Model for Plan {
    ghost use Rattle.std.specs.Prelude.{ℕ, List};
    ghost use Rattle.lb_plan.specs.Cuts.{batches_of, IsCut};

    ghost Value = { List (List ℕ) };

    ghost view = { λ p. batches_of p.width p.numbers.items };

    ghost invariant = { λ p. IsCut p.width p.numbers.items };
}

impl Plan {
    /// The numbers below `n` in order, in batches of a width.
    ///
    /// ```text
    /// in_order(alloc, 5, 2)      0 1 | 2 3 | 4
    /// ```
    pub fn in_order(alloc: Global, n: u32, width: u32) -> Result<Plan, AllocError>
        requires width { (0 < width) × (width ≤ 64) }
        ensures plan { IfOk result (IsPlan n width) }
        ensures order { IfOk result (λ p. numbers_in p ≡ range_with_len 0 n) }
    {
        let mut numbers = Vec::with_capacity(alloc, n as usize)?;
        for k in 0..n {
            numbers.push(k)?;
        }
        Ok(Plan::of_numbers(numbers, width))
    }

    /// The traces of a set, the shortest first, in batches of a width. Of two traces of one length
    /// the one with the lower number comes first.
    pub fn by_length(alloc: Global, set: &TraceSet, width: u32) -> Result<Plan, AllocError>
        requires width { (0 < width) × (width ≤ 64) }
        ensures plan { IfOk result (IsPlan (length set.now.traces) width) }
        ensures order { IfOk result (λ p. IsByLength set.now.traces (numbers_in p)) }
    {
        let numbers = numbers_by_length(alloc, set)?;
        Ok(Plan::of_numbers(numbers, width))
    }

    /// The traces of a set as a queue takes them: the longest ones first, one for each lane, the
    /// longest of all in lane 0; and behind them the others, the shortest first, since a lane that
    /// is free takes the last trace that waits.
    ///
    /// ```text
    /// two lanes, traces of 3, 1, 2, 4 and 1 instants:      numbers  3 0 1 4 2
    /// ```
    pub fn for_lanes(alloc: Global, set: &TraceSet, lanes: u32) -> Result<Plan, AllocError>
        requires lanes { (0 < lanes) × (lanes ≤ 64) }
        ensures plan { IfOk result (IsPlan (length set.now.traces) lanes) }
        ensures order { IfOk result (λ p. IsForLanes set.now.traces lanes (numbers_in p)) }
    {
        let by_length = numbers_by_length(alloc, set)?;
        let numbers = last_first(alloc, by_length.as_slice(), lanes as usize)?;
        Ok(Plan::of_numbers(numbers, lanes))
    }

    // Numbers cut into batches of a width.
    fn of_numbers(numbers: Vec<u32>, width: u32) -> Plan
        requires width { (0 < width) × (width ≤ 64) }
        requires few { vec_len numbers < 2 ^ 32 }
        requires each_once { IsPermutation (range_with_len 0 (vec_len numbers)) numbers.items }
        ensures plan { IsPlan (vec_len numbers) width result }
        ensures numbers { numbers_in result ≡ numbers.items }
    {
        Plan { numbers, width }
    }

    /// The numbers of all batches, batch after batch.
    pub fn numbers(&self) -> &[u32]
        ensures { result.now ≡ numbers_in self.now }
    {
        self.numbers.as_slice()
    }

    /// The size of a batch; the last may be smaller.
    pub fn width(&self) -> u32
        ensures bounds { (0 < result) × (result ≤ 64) }
        ensures plan { IsPlan (length (numbers_in self.now)) result self.now }
    {
        self.width
    }

    /// The number of batches.
    pub fn batches(&self) -> u32
        ensures count { result ≡ length self.now }
        ensures lawful { IsLawful self.now }
    {
        let width = self.width as usize;
        ((self.numbers.len() + (width - 1)) / width) as u32
    }

    /// The numbers of a batch.
    pub fn batch(&self, i: u32) -> &[u32]
        requires { i < length self.now }
        ensures numbers { result.now ≡ get_or self.now i [] }
        ensures lawful { IsLawful self.now }
    {
        let width = self.width as usize;
        let start = i as usize * width;
        let numbers = self.numbers.as_slice();
        let end = (start + width).min(numbers.len());
        &numbers[start..end]
    }

    /// The count of the numbers in all batches.
    pub fn traces(&self) -> u32
        ensures count { result ≡ length (numbers_in self.now) }
        ensures lawful { IsLawful self.now }
    {
        self.numbers.len() as u32
    }
}

// The traces of a set, each with its length before its number.
fn measured(alloc: Global, set: &TraceSet) -> Result<Vec<(u32, u32)>, AllocError>
    ensures pairs { IfOk result (λ pairs. pairs.items
        ≡ measured (length_of set.now.traces) (length set.now.traces)) }
    ensures limit { OnOk result (length set.now.traces ≤ 1000000) }
{
    let count = set.len();
    let mut pairs = Vec::with_capacity(alloc, count as usize)?;
    for k in 0..count {
        pairs.push((set.length(k), k))?;
    }
    Ok(pairs)
}

// The second parts of pairs of a length and a number: the numbers.
fn numbers_of(alloc: Global, pairs: &[(u32, u32)]) -> Result<Vec<u32>, AllocError>
    ensures { IfOk result (λ numbers. numbers.items ≡ map (λ pair. pair.1) pairs.now) }
{
    pairs.iter().map(|pair| pair.1).collect(alloc)
}

// The numbers of the traces of a set, by length and then by number.
fn numbers_by_length(alloc: Global, set: &TraceSet) -> Result<Vec<u32>, AllocError>
    ensures count { IfOk result (λ v. vec_len v ≡ length set.now.traces) }
    ensures limit { OnOk result (length set.now.traces ≤ 1000000) }
    ensures each_once { IfOk result (λ v.
        IsPermutation (range_with_len 0 (length set.now.traces)) v.items) }
    ensures order { IfOk result (λ v. IsByLength set.now.traces v.items) }
{
    let mut pairs = measured(alloc, set)?;
    pairs.sort_unstable();
    let numbers = numbers_of(alloc, pairs.as_slice())?;
    Ok(numbers)
}

// The last `count` numbers, the last one first, and behind them the others in their order.
fn last_first(alloc: Global, numbers: &[u32], count: usize) -> Result<Vec<u32>, AllocError>
    ensures each_once { IfOk result (λ v. IsPermutation numbers.now v.items) }
    ensures order { IfOk result (λ v.
        drop count v.items ++ reverse (take count v.items) ≡ numbers.now) }
{
    let others = numbers.len() - count.min(numbers.len());
    let mut moved = Vec::with_capacity(alloc, numbers.len())?;
    for i in 0..numbers.len() - others {
        moved.push(numbers[numbers.len() - 1 - i])?;
    }
    moved.extend_from_slice(&numbers[..others])?;
    Ok(moved)
}
