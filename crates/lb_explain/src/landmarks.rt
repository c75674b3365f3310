//! Landmarks of a source: words that begin or end a part of it, comments, and static brackets.
//! Between two landmarks only a `;` changes the context of a place. So the bytes between them are
//! looked at 32 at a time, and no tokens are made of them.

ghost use Rattle.std.specs.Prelude.{◌<◌, length};

use crate::bytes::{part, rest};
use lb_places::{BLOCK, places_of};
use std::simd::prelude::*;

/// The number of bytes among 32 that have two more of them behind.
const STRIDE: usize = 30;

/// A bit for each of the first `STRIDE` bytes.
const STRIDE_BITS: u64 = 0x3FFF_FFFF;

/// A stretch of a source without landmarks.
#[derive(Clone, Copy)]
pub struct Passed {
    /// Its end: the first byte that may begin a landmark, or a place less than 32 bytes before the
    /// end of the search.
    pub end: usize,
    /// The place behind its last `;`, if it has one.
    pub statement: Option<usize>,
}

/// The landmarks, semicolons and letters among 32 bytes, as bits.
#[derive(Clone, Copy)]
struct Marks {
    /// The bytes at which landmarks may begin.
    landmarks: u64,
    semicolons: u64,
    /// Letters and `_`.
    letters: u64,
}

/// A bit for each of the first 32 bytes: set where the byte is a letter.
#[inline(always)]
fn letters_of(block: &[u8]) -> u64
    requires { 31 < length block.now }
{
    let small = u8x32::from_slice(block) | u8x32::splat(b' ');
    let from_a = small - u8x32::splat(b'a');
    from_a.simd_lt(u8x32::splat(26)).to_bitmask()
}

/// The bytes among 32 at which `let`, `tel`, `nod`, `con` and `fun` begin, as bits.
#[inline(always)]
fn words_of(block: &[u8]) -> u64
    requires { 31 < length block.now }
{
    let e = places_of(block, b'e') >> 1;
    let o = places_of(block, b'o') >> 1;
    let u = places_of(block, b'u') >> 1;
    let l = places_of(block, b'l');
    let n = places_of(block, b'n');
    let t = places_of(block, b't');
    let ends = l & t >> 2 | t & l >> 2;
    let node = n & places_of(block, b'd') >> 2;
    let constant = places_of(block, b'c') & n >> 2;
    let function = places_of(block, b'f') & n >> 2;
    e & ends | o & (node | constant) | u & function
}

/// The bytes among 32 at which comments begin, as bits.
#[inline(always)]
fn comments_of(block: &[u8]) -> u64
    requires { 31 < length block.now }
{
    let dashes = places_of(block, b'-');
    let stars = places_of(block, b'*') >> 1;
    dashes & dashes >> 1 | stars & (places_of(block, b'(') | places_of(block, b'/'))
}

/// The bytes among 32 at which static brackets may begin, as bits.
#[inline(always)]
fn brackets_of(block: &[u8]) -> u64
    requires { 31 < length block.now }
{
    let opening = places_of(block, b'<');
    let closing = places_of(block, b'>');
    opening & opening >> 1 | closing & closing >> 1
}

/// The marks of 32 bytes; `within` is 1 where a letter or `_` stands before them, else 0.
#[inline(always)]
fn marks_of(block: &[u8], within: u64) -> Marks
    requires { 31 < length block.now }
{
    let letters = letters_of(block) | places_of(block, b'_');
    let words = words_of(block) & !(letters << 1 | within);
    let landmarks = words | comments_of(block) | brackets_of(block);
    Marks {
        landmarks: landmarks & STRIDE_BITS,
        semicolons: places_of(block, b';') & STRIDE_BITS,
        letters,
    }
}

impl Passed {
    /// Extends the stretch to the first landmark of 32 bytes, or over the first 30 of them.
    #[inline(always)]
    fn with(&self, marks: &Marks) -> Passed {
        let before = !marks.landmarks & marks.landmarks.wrapping_sub(1);
        let semicolons = marks.semicolons & before;
        let statement = match semicolons {
            0 => self.statement,
            _ => {
                let length = 64usize.saturating_sub(semicolons.leading_zeros() as usize);
                Some(self.end.saturating_add(length))
            }
        };
        let length = (marks.landmarks.trailing_zeros() as usize).min(STRIDE);
        Passed {
            end: self.end.saturating_add(length),
            statement,
        }
    }
}

/// The stretch without landmarks from `from` on, up to `to` at most.
pub fn pass(text: &[u8], from: usize, to: usize) -> Passed {
    let mut passed = Passed {
        end: from,
        statement: None,
    };
    let mut within: u64 = 0;
    let mut left = part(text, from, to);
    for _turn in 0..left.len() {
        if left.len() < BLOCK {
            return passed;
        }
        let marks = marks_of(left, within);
        passed = passed.with(&marks);
        if marks.landmarks != 0 {
            return passed;
        }
        within = marks.letters >> (STRIDE - 1) & 1;
        left = rest(left, STRIDE);
    }
    passed
}
