//! The digits at the front of a text, counted at once and added up by pairs without a branch.
//!
//! A processor guesses badly how many digits the next number has, so no branch here depends on it.
//! The digits after a sign are counted from the sign on, so the next number need not wait for the
//! test of the sign.

ghost use Rattle.std.specs.Prelude.{◌≡◌, ◌<◌, ◌/◌, ◌≤◌, ◌^◌, true, if◌then◌else◌, length, take};
ghost use Rattle.std.specs.Prelude.{All};
ghost use Rattle.std.specs.Char.{is_ascii_digit};
ghost use Rattle.std.specs.List.{list_all};
ghost use Rattle.lb_trace.specs.Cells.{decimal};
ghost use Rattle.lb_trace.specs.Fronts.{CountsDigits, bytes_of, joined, lone, number_of, others};

use std::simd::prelude::*;

/// The number of digits at the front of a text, after its sign if it has one, among its first
/// eight bytes; more than 7 where they do not end there.
#[inline(always)]
pub(crate) fn count_after(is_negative: bool, text: &[u8]) -> usize
    requires { 7 < length text.now }
    ensures { CountsDigits is_negative text.now result }
{
    let others = without_sign(is_negative, others(text));
    if others == 0 {
        return 8;
    }
    others.trailing_zeros() as usize
}

// The first eight bytes as bits: bit i is 1 where byte i is no digit.
#[inline(always)]
fn others(text: &[u8]) -> u64
    requires { 7 < length text.now }
    ensures { result ≡ others (take 8 text.now) }
{
    let from_zero = u8x8::from_slice(text) - u8x8::splat(b'0');
    from_zero.simd_ge(u8x8::splat(10)).to_bitmask()
}

// The bits of `others` from the byte after the sign on, if there is a sign.
#[inline(always)]
fn without_sign(is_negative: bool, others: u64) -> u64
    ensures { result ≡ (if is_negative then others / 2 else others) }
{
    if is_negative { others / 2 } else { others }
}

/// The number that the first `count` digits of a text spell.
#[inline(always)]
pub(crate) fn value_of(text: &[u8], count: usize) -> u32
    requires room { 7 < length text.now }
    requires some { 0 < count }
    requires few { count ≤ 7 }
    requires digits { list_all is_ascii_digit (take count text.now) ≡ true }
    ensures spelled { result ≡ decimal (take count text.now) }
    ensures small { result < 10 ^ count }
{
    joined(lone(text, count))
}

// The ASCII bytes of eight digits 0.
const ZEROS: u64 = 0x3030_3030_3030_3030;

// The first `count` digits of a text as the highest bytes of a number, the last digit the highest.
#[inline(always)]
fn lone(text: &[u8], count: usize) -> u64
    requires room { 7 < length text.now }
    requires some { 0 < count }
    requires few { count ≤ 7 }
    requires digits { list_all is_ascii_digit (take count text.now) ≡ true }
    ensures { bytes_of result ≡ lone count text.now }
{
    let others = 64 - 8 * count;
    (first_eight(text) << others) - (ZEROS << others)
}

// The number whose bytes are the first eight of a text, the first one the lowest.
#[inline(always)]
pub(crate) fn first_eight(text: &[u8]) -> u64
    requires { 7 < length text.now }
    ensures { result ≡ number_of (take 8 text.now) }
{
    u64::from_le_bytes([
        text[0], text[1], text[2], text[3], text[4], text[5], text[6], text[7],
    ])
}

// The bytes 0 and 4 of a number.
const PAIRS: u64 = 0x0000_00FF_0000_00FF;

// The weights of the pairs of digits at these bytes, by which the sum stands from bit 32 on: of the
// first and the third pair of four, and of the second and the fourth.
const OUTER: u64 = 0x000F_4240_0000_0064;

const INNER: u64 = 0x0000_2710_0000_0001;

// The number that eight digits spell, which are the bytes of a number, the first one the lowest.
#[inline(always)]
fn joined(digits: u64) -> u32
    requires { All (λ digit. digit < 10) (bytes_of digits) }
    ensures { result ≡ joined (bytes_of digits) }
{
    let pairs = digits * 10 + digits / 0x100;
    let outer = (pairs & PAIRS).wrapping_mul(OUTER);
    let inner = (pairs / 0x1_0000 & PAIRS).wrapping_mul(INNER);
    ((outer + inner) / 0x1_0000_0000) as u32
}
