//! The cells of a record that are Booleans of one digit, as the bits of a word.
//!
//! A cell and the comma after it are two bytes, which are read as one number of 16 bits. A vector
//! has sixteen of these numbers.

ghost use Rattle.std.specs.Prelude.{◌≡◌, ◌<◌, ◌≤◌, ◌^◌, IfSome, length};
ghost use Rattle.lb_trace.specs.Lines.{after_line};
ghost use Rattle.lb_trace.specs.TruthBits.{HasBits, SpellsBits, ones_in, truths_in};

use crate::fast_cells::is_bit;
use crate::scan::ends_line;
use std::simd::prelude::*;

/// The Booleans of a record as bits, the first one the lowest, and the text after the record.
#[derive(Clone, Copy)]
pub(crate) struct Truths<'t> {
    pub(crate) bits: u64,
    pub(crate) rest: &'t [u8],
}

/// Reads the cells of a record that are `count` digits 0 or 1. None says nothing of the text.
pub(crate) fn read_truths<'t>(text: &'t [u8], count: usize) -> Option<Truths<'t>>
    requires some { 0 < count }
    requires few { count ≤ 64 }
    ensures { IfSome result (λ truths. SpellsBits text.now count truths.bits
        × (truths.bits < 2 ^ count) × (truths.rest.now ≡ after_line text.now)) }
{
    let last = count - 1;
    let mut bits = 0u64;
    let mut rest = text;
    let mut done = 0;
    while done < last {
        let more = (last - done).min(16);
        let Some(group) = inner_bits(rest, more) else {
            return None;
        };
        bits += group << done;
        rest = &rest[2 * more..];
        done += more;
    }
    let [digit, end, after @ ..] = rest else {
        return None;
    };
    if !is_bit(*digit) || !ends_line(*end) {
        return None;
    }
    let one = u64::from(*digit - b'0');
    Some(Truths {
        bits: bits + (one << last),
        rest: after,
    })
}

/// The bits of the first `count` cells of a text, where each is a digit 0 or 1 before a comma. None
/// says nothing of the text.
#[inline(always)]
pub(crate) fn inner_bits(text: &[u8], count: usize) -> Option<u64>
    requires { count ≤ 16 }
    ensures { IfSome result (λ bits. HasBits text.now count bits) }
{
    if text.len() < 32 {
        return None;
    }
    let past = 1u64 << count;
    if truths_in(text) % past != past - 1 {
        return None;
    }
    Some(ones_in(text) % past)
}

// A digit 0 and the comma after it.
const ZERO: u16 = 0x2C30;

// The first sixteen pairs of bytes, as bits: 1 where a pair is a digit 0 or 1 and a comma.
#[inline(always)]
fn truths_in(text: &[u8]) -> u64
    requires { 31 < length text.now }
    ensures { result ≡ truths_in text.now }
{
    let pairs = u16x16::from_le_bytes(u8x32::from_slice(text));
    let from_zero = pairs - u16x16::splat(ZERO);
    from_zero.simd_le(u16x16::splat(1)).to_bitmask()
}

// The first sixteen pairs of bytes, as bits: 1 where a pair is a digit 1 and a comma.
#[inline(always)]
fn ones_in(text: &[u8]) -> u64
    requires { 31 < length text.now }
    ensures { result ≡ ones_in text.now }
{
    let pairs = u16x16::from_le_bytes(u8x32::from_slice(text));
    let from_zero = pairs - u16x16::splat(ZERO);
    from_zero.simd_eq(u16x16::splat(1)).to_bitmask()
}
