//! Loads a part of a text, and reads little else of it.
//!
//! ```text
//! text    head | a,1 | b,1 | b,0 | c,7 | c,3 | d,1 | d,2 | e,0
//! range                   |-----------------|
//! part    head                   | c,7 | c,3 |
//! ```
//!
//! The text is read about the two places where the range begins and ends, as far as needed to find
//! where a trace begins.

ghost use Rattle.std.specs.Prelude.{◌≡◌, ◌≤◌, ◌+◌, ◌-◌, ℕ, List, false, drop, length, take};
ghost use Rattle.std.specs.Prelude.{true, IfErr, IfOk, IsErrOf, OnOk, vec_len};
ghost use Rattle.lb_part.specs.Cuts.{IsCut};
ghost use Rattle.lb_part.specs.Heads.{has_quote, head_of};
ghost use Rattle.lb_part.specs.Failures.{IsFailure};
ghost use Rattle.lb_part.specs.Parts.{IsPartOf};
ghost use Rattle.lb_part.specs.Ranges.{HasRange, IsExtended, OfKnown};

use crate::head::head_end;
use crate::part::{MOST_BYTES, Part};
use crate::range::{RangeFailed, Ranges};
use crate::window::Window;
use std::alloc::{AllocError, Global};
use thiserror::Error;

/// Why a part of a text is not loaded.
#[derive(Debug, Drop, Error)]
pub enum PartError {
    /// E0: memory ran out.
    #[error("out of memory")]
    Memory,
    /// E21: a read failed, or the text is too long.
    #[error("the text could not be read, or it is too long")]
    Read,
    /// E21: what was read has a quote, so that a line end may stand within a cell.
    #[error("a trace text with a quote can not be read in parts")]
    Quote,
}

impl From<AllocError> for PartError {
    ghost use Rattle.lb_part.specs.declared.load.PartError.TheVariants.{Memory};

    ghost from_gives = { λ _ e. e ≡ Memory };

    fn from(_e: AllocError) -> PartError {
        PartError::Memory
    }
}

impl From<RangeFailed> for PartError {
    ghost use Rattle.lb_part.specs.declared.load.PartError.TheVariants.{Read};

    ghost from_gives = { λ _ e. e ≡ Read };

    fn from(_e: RangeFailed) -> PartError {
        PartError::Read
    }
}

/// The number of bytes to read first, where it is not known how many are needed.
pub(crate) const STEP: u64 = 1 << 16;

/// Appends the bytes of a text from `from` to `to`.
fn extend<R: Ranges>(bytes: &mut Vec<u8>, text: &R, from: u64, to: u64) -> Result<(), PartError>
    requires filled { vec_len bytes.old ≤ MOST_BYTES }
    requires to { to ≤ MOST_BYTES }
    ensures length { OnOk result (vec_len bytes.new ≡ vec_len bytes.old + (to - from)) }
    ensures range { OnOk result (OfKnown (R.bytes text.now) (λ all.
        IsExtended all from (to - from) bytes.old.items bytes.new.items)) }
    ensures err { IfErr result IsFailure }
{
    let filled = bytes.len();
    bytes.resize(filled + to.saturating_sub(from) as usize, 0)?;
    text.read(from, &mut bytes[filled..])?;
    Ok(())
}

/// The bytes of a text from `from` to `to`.
pub(crate) fn load<R: Ranges>(
    alloc: Global,
    text: &R,
    from: u64,
    to: u64,
) -> Result<Vec<u8>, PartError>
    requires { to ≤ MOST_BYTES }
    ensures length { IfOk result (λ bytes. vec_len bytes ≡ to - from) }
    ensures range { IfOk result (λ bytes. OfKnown (R.bytes text.now) (λ all.
        HasRange all from bytes.items)) }
    ensures err { IfErr result IsFailure }
{
    let mut bytes = Vec::new(alloc);
    extend(&mut bytes, text, from, to)?;
    Ok(bytes)
}

/// The head of a text, up to the end of its first record; the whole text where no record ends.
pub(crate) fn load_head<R: Ranges>(alloc: Global, text: &R, size: u64) -> Result<Vec<u8>, PartError>
    requires size { OfKnown (R.bytes text.now) (λ all. size ≡ length all) }
    requires most { size ≤ MOST_BYTES }
    ensures within { IfOk result (λ head. vec_len head ≤ size) }
    ensures head { IfOk result (λ head. OfKnown (R.bytes text.now) (λ all.
        (vec_len head ≡ head_of all) × HasRange all 0 head.items)) }
    ensures err { IfErr result IsFailure }
{
    let mut to = STEP.min(size);
    for _ in 0..64 {
        let mut head = load(alloc, text, 0, to)?;
        if let Some(end) = head_end(head.as_slice(), to == size) {
            head.truncate(end);
            return Ok(head);
        }
        to = to.saturating_mul(2).min(size);
    }
    Err(PartError::Read)
}

/// The first place, at `place` or behind it, where a text with a head of `head` bytes can be cut.
pub(crate) fn cut<R: Ranges>(
    alloc: Global,
    text: &R,
    head: u64,
    size: u64,
    place: u64,
) -> Result<u64, PartError>
    requires size { OfKnown (R.bytes text.now) (λ all. size ≡ length all) }
    requires head { head ≤ place }
    requires place { place ≤ size }
    requires most { size ≤ MOST_BYTES }
    ensures within { IfOk result (λ cut. cut ≤ size) }
    ensures cut { IfOk result (λ cut. OfKnown (R.bytes text.now) (λ all.
        (head ≤ cut) × IsCut (drop head all) (place - head) (cut - head))) }
    ensures err { IfErr result IsFailure }
{
    let mut step = STEP;
    for _ in 0..64 {
        let from = place.saturating_sub(step).max(head);
        let to = place.saturating_add(step).min(size);
        let bytes = load(alloc, text, from, to)?;
        let window = Window {
            bytes: bytes.as_slice(),
            is_first: from == head,
            is_last: to == size,
        };
        if let Some(cut) = window.cut((place - from) as usize) {
            return Ok(from + cut as u64);
        }
        step = step.saturating_mul(2);
    }
    Err(PartError::Read)
}

/// Whether some bytes have a quote.
fn has_quote(bytes: &[u8]) -> bool
    ensures { result ≡ has_quote bytes.now }
{
    bytes.iter().any(|b| *b == b'"')
}

/// The bytes of a part of a text, with quotes or without.
fn load_bytes<R: Ranges>(alloc: Global, text: &R, part: Part) -> Result<Vec<u8>, PartError>
    ensures part { IfOk result (λ bytes. OfKnown (R.bytes text.now) (λ all.
        IsPartOf all part bytes.items)) }
    ensures err { IfErr result IsFailure }
{
    let size = text.size()?;
    if size > MOST_BYTES {
        return Err(PartError::Read);
    }
    let mut bytes = load_head(alloc, text, size)?;
    let head = bytes.len() as u64;
    let from = cut(alloc, text, head, size, part.begin(size).max(head))?;
    let to = cut(alloc, text, head, size, part.end(size).max(head))?;
    extend(&mut bytes, text, from, to)?;
    Ok(bytes)
}

/// A part of a text of traces: its head, and the traces whose first record begins in the range of
/// bytes that the part has. Besides, the text is read about the two places where the range begins
/// and ends.
pub fn load_part<R: Ranges>(alloc: Global, text: &R, part: Part) -> Result<Vec<u8>, PartError>
    ensures part { IfOk result (λ bytes. OfKnown (R.bytes text.now) (λ all.
        IsPartOf all part bytes.items)) }
    ensures plain { IfOk result (λ bytes. has_quote bytes.items ≡ false) }
    ensures quote { IsErrOf result PartError.Quote → OfKnown (R.bytes text.now) (λ all.
        (bytes : List ℕ) × IsPartOf all part bytes × (has_quote bytes ≡ true)) }
{
    match load_bytes(alloc, text, part) {
        Ok(bytes) if has_quote(bytes.as_slice()) => Err(PartError::Quote),
        loaded => loaded,
    }
}
