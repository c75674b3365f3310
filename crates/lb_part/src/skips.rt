//! What a part of a text leaves out, so that places in the part can be told as places in the text.

ghost use Rattle.std.specs.Prelude.{◌≡◌, ◌≤◌, ◌-◌, IfErr, IfOk, drop, length, take};
ghost use Rattle.lb_part.specs.Failures.{IsFailure};
ghost use Rattle.lb_part.specs.Ranges.{OfKnown};
ghost use Rattle.lb_part.specs.Skips.{AreSkipped, newlines_of};

use crate::load::{PartError, STEP, cut, load, load_head};
use crate::part::{MOST_BYTES, Part};
use crate::range::Ranges;
use crate::window::ends_line;
use std::alloc::Global;

/// What stands between the head of a text and the traces of a part of it.
#[derive(Clone, Copy)]
pub struct Skipped {
    /// The number of newlines.
    pub lines: u64,
    /// The number of records.
    pub records: u64,
}

/// The most steps that a count takes.
const MOST_STEPS: u64 = MOST_BYTES / STEP + 1;

/// The number of newlines among some bytes.
fn newlines(bytes: &[u8]) -> u64
    ensures { result ≡ newlines_of bytes.now }
{
    bytes.iter().filter(|b| **b == b'\n').count() as u64
}

/// The number of records that begin among some bytes; `begins` if the byte before them ends a line.
fn records(bytes: &[u8], begins: bool) -> u64 {
    let mut records: u64 = 0;
    let mut begins = begins;
    for b in bytes {
        let ends = ends_line(*b);
        records = records.saturating_add(u64::from(begins && !ends));
        begins = ends;
    }
    records
}

/// Whether the last of some bytes ends a line; `before` where there are none.
fn ends_with_line(bytes: &[u8], before: bool) -> bool {
    match bytes {
        [.., last] => ends_line(*last),
        [] => before,
    }
}

/// The newlines and the records of a text from `from` to `to`, where a record may begin at `from`.
fn count<R: Ranges>(alloc: Global, text: &R, from: u64, to: u64) -> Result<Skipped, PartError>
    requires order { from ≤ to }
    requires most { to ≤ MOST_BYTES }
    ensures lines { IfOk result (λ skipped. OfKnown (R.bytes text.now) (λ all.
        skipped.lines ≡ newlines_of (take (to - from) (drop from all)))) }
    ensures err { IfErr result IsFailure }
{
    let mut skipped = Skipped {
        lines: 0,
        records: 0,
    };
    let mut begins = true;
    let mut at = from;
    for _ in 0..MOST_STEPS {
        if at == to {
            return Ok(skipped);
        }
        let next = at.saturating_add(STEP).min(to);
        let bytes = load(alloc, text, at, next)?;
        skipped.lines += newlines(bytes.as_slice());
        skipped.records = skipped
            .records
            .saturating_add(records(bytes.as_slice(), begins));
        begins = ends_with_line(bytes.as_slice(), begins);
        at = next;
    }
    Err(PartError::Read)
}

/// What a part of a text of traces leaves out behind the head. All of it is read.
pub fn count_skipped<R: Ranges>(alloc: Global, text: &R, part: Part) -> Result<Skipped, PartError>
    ensures lines { IfOk result (λ skipped. OfKnown (R.bytes text.now) (λ all.
        AreSkipped all part skipped.lines)) }
    ensures err { IfErr result IsFailure }
{
    let size = text.size()?;
    if size > MOST_BYTES {
        return Err(PartError::Read);
    }
    let head = load_head(alloc, text, size)?.len() as u64;
    let from = cut(alloc, text, head, size, part.begin(size).max(head))?;
    count(alloc, text, head, from.max(head))
}
