//! Cells that are integers, with many of their ends found at once.
//!
//! One number has a bit for each of the next 32 bytes, set where the byte is no digit. The ends of
//! four cells are read from it, so a cell need not wait for the bytes of the cell before it.

ghost use Rattle.std.specs.Prelude.{◌≡◌, ◌<◌, ◌≤◌, ◌+◌, ◌-◌, ◌==◌, ◌||◌, ◌++◌, IfSome};
ghost use Rattle.std.specs.Prelude.{true, false, IsTrue, List, drop, get_or, length, map, replicate};
ghost use Rattle.std.specs.Prelude.{take};
ghost use lib.Lanes.{mask_l};
ghost use Rattle.lb_trace.specs.Fronts.{bytes_of, others};
ghost use Rattle.lb_trace.specs.Numbers.{AreEnds, AreIntegers, AreLastWords, IsCellIn, IsLowest};
ghost use Rattle.lb_trace.specs.Numbers.{IsShortCell, IsWhole};
ghost use Rattle.lb_trace.specs.TruthCells.{GoesOn};

use crate::fast_cells::is_bit;
use crate::front::first_eight;
use crate::header::Column;
use crate::scan::ends_line;
use crate::words::values_of;
use lb_syntax::Kind;
use std::simd::prelude::*;

/// The values of four cells, and the text after them.
#[derive(Clone, Copy)]
pub(crate) struct FourNumbers<'t> {
    pub(crate) values: [i32; 4],
    pub(crate) rest: &'t [u8],
}

/// The values of the first four cells, where their columns are integers, each is short, and a comma
/// stands after each. None says nothing of the text.
#[inline(always)]
pub(crate) fn four_numbers<'t>(columns: &[Column], text: &'t [u8]) -> Option<FourNumbers<'t>>
    ensures { IfSome result (λ found. (3 < length columns.now)
        × GoesOn columns.now text.now found.values (drop 4 columns.now) found.rest.now) }
{
    if !are_integers(columns) {
        return None;
    }
    four_in(text)
}

/// `four_numbers` for any four columns of integers.
#[inline(always)]
pub(crate) fn four_in<'t>(text: &'t [u8]) -> Option<FourNumbers<'t>>
    ensures { IfSome result (λ found. (columns : List Column) → AreIntegers columns
        → GoesOn columns text.now found.values (drop 4 columns) found.rest.now) }
{
    if text.len() < 64 {
        return None;
    }
    let a = inner_cell(Kind::Int, text, ends_in(text), 0)?;
    let b = inner_cell(Kind::Int, text, a.others, a.end + 1)?;
    let c = inner_cell(Kind::Int, text, b.others, b.end + 1)?;
    let d = inner_cell(Kind::Int, text, c.others, c.end + 1)?;
    let values = values_of(u64x4::from_array([a.word, b.word, c.word, d.word]));
    Some(FourNumbers {
        values,
        rest: &text[d.end + 1..],
    })
}

/// The values of the last cells of a record, one to four, and the text after it, where each is a
/// short number or the digit of a Boolean. Behind them the values are 0. None says nothing of the
/// text.
#[inline(always)]
pub(crate) fn last_numbers<'t>(columns: &[Column], text: &'t [u8]) -> Option<FourNumbers<'t>>
    ensures { IfSome result (λ found. (length columns.now ≤ 4) × IsWhole columns.now text.now
        (take (length columns.now) found.values) found.rest.now) }
{
    if text.len() < 64 {
        return None;
    }
    let last = last_words(columns, text)?;
    let values = values_of(u64x4::from_array(last.words));
    Some(FourNumbers {
        values,
        rest: &text[last.end + 1..],
    })
}

// The words of the last cells of a record, and the place at which it ends.
#[derive(Clone, Copy)]
struct LastWords {
    words: [u64; 4],
    end: usize,
}

// The words of the last cells of a record, one to four; 0 behind them.
#[inline(always)]
fn last_words(columns: &[Column], text: &[u8]) -> Option<LastWords>
    requires { 63 < length text.now }
    ensures { IfSome result (λ last. AreLastWords columns.now text.now last.words last.end) }
{
    let ends = ends_in(text);
    match columns {
        [p] => {
            let a = last_cell(p.kind, text, ends, 0)?;
            Some(LastWords {
                words: [a.word, 0, 0, 0],
                end: a.end,
            })
        }
        [p, q] => {
            let a = inner_cell(p.kind, text, ends, 0)?;
            let b = last_cell(q.kind, text, a.others, a.end + 1)?;
            Some(LastWords {
                words: [a.word, b.word, 0, 0],
                end: b.end,
            })
        }
        [p, q, r] => {
            let a = inner_cell(p.kind, text, ends, 0)?;
            let b = inner_cell(q.kind, text, a.others, a.end + 1)?;
            let c = last_cell(r.kind, text, b.others, b.end + 1)?;
            Some(LastWords {
                words: [a.word, b.word, c.word, 0],
                end: c.end,
            })
        }
        [p, q, r, s] => {
            let a = inner_cell(p.kind, text, ends, 0)?;
            let b = inner_cell(q.kind, text, a.others, a.end + 1)?;
            let c = inner_cell(r.kind, text, b.others, b.end + 1)?;
            let d = last_cell(s.kind, text, c.others, c.end + 1)?;
            Some(LastWords {
                words: [a.word, b.word, c.word, d.word],
                end: d.end,
            })
        }
        _ => None,
    }
}

/// Whether there are at least four columns, and the first four hold integers.
#[inline(always)]
pub(crate) fn are_integers(columns: &[Column]) -> bool
    ensures { IsTrue result → AreIntegers columns.now }
{
    let [a, b, c, d, ..] = columns else {
        return false;
    };
    is_int(a.kind) && is_int(b.kind) && is_int(c.kind) && is_int(d.kind)
}

// The bytes of a cell as the highest bytes of a word, the place at which it ends, and the ends
// behind that place.
#[derive(Clone, Copy)]
struct CellWord {
    word: u64,
    end: usize,
    others: u64,
}

// The cell from `start` on, where it has one to eight bytes; `ends` are the ends from there on.
#[inline(always)]
fn short_cell(kind: Kind, text: &[u8], ends: u64, start: usize) -> Option<CellWord>
    requires long { 63 < length text.now }
    requires ends { AreEnds text.now ends start }
    ensures cell { IfSome result (λ c. IsShortCell kind text.now start c.word c.end) }
    ensures others { IfSome result (λ c. AreEnds text.now c.others (c.end + 1)) }
{
    let next = next_end(ends)?;
    let end = next.place;
    if !is_short(start, end) || !is_of(kind, text, start, end) {
        return None;
    }
    Some(CellWord {
        word: word_of(text, start, end),
        end,
        others: next.others,
    })
}

// `short_cell` where a comma stands after it.
#[inline(always)]
fn inner_cell(kind: Kind, text: &[u8], ends: u64, start: usize) -> Option<CellWord>
    requires long { 63 < length text.now }
    requires ends { AreEnds text.now ends start }
    ensures cell { IfSome result (λ c. IsCellIn kind text.now start c.word c.end false) }
    ensures others { IfSome result (λ c. AreEnds text.now c.others (c.end + 1)) }
{
    let cell = short_cell(kind, text, ends, start)?;
    if text[cell.end] != b',' {
        return None;
    }
    Some(cell)
}

// `short_cell` where its record ends.
#[inline(always)]
fn last_cell(kind: Kind, text: &[u8], ends: u64, start: usize) -> Option<CellWord>
    requires long { 63 < length text.now }
    requires ends { AreEnds text.now ends start }
    ensures cell { IfSome result (λ c. IsCellIn kind text.now start c.word c.end true) }
    ensures others { IfSome result (λ c. AreEnds text.now c.others (c.end + 1)) }
{
    let cell = short_cell(kind, text, ends, start)?;
    if !ends_line(text[cell.end]) {
        return None;
    }
    Some(cell)
}

// Whether a cell may stand in a column of a kind: a Boolean is a digit 0 or 1.
#[inline(always)]
fn is_of(kind: Kind, text: &[u8], start: usize, end: usize) -> bool
    requires order { start ≤ end }
    requires within { start < length text.now }
    ensures { IsTrue result → kind ≡ Kind.Bool → (end ≡ start + 1)
        × (((get_or text.now start 0 == 48) || (get_or text.now start 0 == 49)) ≡ true) }
{
    match kind {
        Kind::Int => true,
        Kind::Bool => end - start == 1 && is_bit(text[start]),
    }
}

// The first 32 bytes as bits: 1 where a byte ends a number, or stands in none. That is each byte
// that is no digit, but for a minus sign before a digit and after no digit.
#[inline(always)]
fn ends_in(text: &[u8]) -> u64
    requires { 31 < length text.now }
    ensures { AreEnds text.now result 0 }
{
    let others = others_in(text);
    let minus = minus_in(text);
    others ^ (minus & (2 * others + 1) & !(others / 2))
}

// The first 32 bytes as bits: 1 where a byte is a minus sign.
#[inline(always)]
fn minus_in(text: &[u8]) -> u64
    requires { 31 < length text.now }
    ensures { result ≡ mask_l (map (λ b. b == 45) (take 32 text.now)) }
{
    u8x32::from_slice(text)
        .simd_eq(u8x32::splat(b'-'))
        .to_bitmask()
}

// The place of the lowest bit that is set, and the bits above it.
#[derive(Clone, Copy)]
struct NextEnd {
    place: usize,
    others: u64,
}

#[inline(always)]
fn next_end(bits: u64) -> Option<NextEnd>
    ensures { IfSome result (λ next. IsLowest bits next.place next.others) }
{
    if bits == 0 {
        return None;
    }
    Some(NextEnd {
        place: bits.trailing_zeros() as usize,
        others: bits & (bits - 1),
    })
}

// Whether a cell has one to eight bytes.
#[inline(always)]
fn is_short(start: usize, end: usize) -> bool
    requires { start ≤ end }
    ensures { IsTrue result → (start < end) × (end ≤ start + 8) }
{
    (end - start).wrapping_sub(1) < 8
}

// The bytes of a cell as the highest bytes of a word.
#[inline(always)]
fn word_of(text: &[u8], start: usize, end: usize) -> u64
    requires long { 63 < length text.now }
    requires within { end < 32 }
    requires some { start < end }
    requires short { end ≤ start + 8 }
    ensures { bytes_of result
        ≡ replicate (8 - (end - start)) 0 ++ take (end - start) (drop start text.now) }
{
    first_eight(&text[start..]) << (64 - 8 * (end - start))
}

// Whether columns of a kind hold integers.
#[inline(always)]
fn is_int(kind: Kind) -> bool
    ensures { IsTrue result → kind ≡ Kind.Int }
{
    match kind {
        Kind::Int => true,
        Kind::Bool => false,
    }
}

// The first 32 bytes as bits: bit i is 1 where byte i is no digit.
#[inline(always)]
fn others_in(text: &[u8]) -> u64
    requires { 31 < length text.now }
    ensures { result ≡ others (take 32 text.now) }
{
    let from_zero = u8x32::from_slice(text) - u8x32::splat(b'0');
    from_zero.simd_ge(u8x32::splat(10)).to_bitmask()
}
