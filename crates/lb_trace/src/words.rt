//! The values of four numbers at once, each of at most eight bytes, which are the highest bytes of
//! a word.
//!
//! ```text
//! -12  |  0 0 0 0 0 - 1 2
//! 345  |  0 0 0 0 0 3 4 5
//! ```
//!
//! The digits of each become one number in three steps. Eight digits, for example:
//!
//! ```text
//! digits  |  1  2  3  4  5  6  7  8
//! pairs   |  12    34    56    78
//! fours   |  1234        5678
//! eights  |  12345678
//! ```
//!
//! Each step makes one number of two neighbours: the first times 10, 100 or 10,000, plus the other.
//! So it leaves half as many lanes.

ghost use Rattle.std.specs.Prelude.{◌≡◌, ℕ, ◌+◌, ◌-◌, ◌*◌, ◌<◌, ◌==◌, All, not, drop, get_or};
ghost use Rattle.std.specs.Prelude.{length, map, take};
ghost use Rattle.std.specs.List.{list_any};
ghost use lib.Lanes.{zip2};
ghost use Rattle.lb_trace.specs.Fronts.{bytes_of};
ghost use Rattle.lb_trace.specs.WordValues.{signed_by, turned, value_in};

use std::simd::prelude::*;

/// The values of four words.
#[inline(always)]
pub(crate) fn values_of(words: u64x4) -> [i32; 4]
    requires { All (λ w. All (λ b. b - 48 < 10) (bytes_of w)) words }
    ensures { result ≡ map value_in words }
{
    let bytes = words.to_le_bytes();
    let eights = eights_of(fours_of(pairs_of(digits_of(bytes))));
    signed(minus_of(bytes), eights)
}

// The values of the digits; 0 for a minus sign, and where there is no digit.
#[inline(always)]
fn digits_of(bytes: u8x32) -> u8x32
    requires { length bytes ≡ 32 }
    ensures long { length result ≡ 32 }
    ensures digits { result ≡ map (λ b. b - 48) bytes }
{
    bytes.saturating_sub(u8x32::splat(b'0'))
}

// The number that each two digits make: the higher byte of 2561 times the two bytes.
#[inline(always)]
fn pairs_of(digits: u8x32) -> u8x16
    requires long { length digits ≡ 32 }
    requires small { All (λ d. d < 10) digits }
    ensures long { length result ≡ 16 }
    ensures pairs { (j : ℕ) → j < 16
        → get_or result j 0 ≡ get_or digits (2 * j) 0 * 10 + get_or digits (2 * j + 1) 0 }
    ensures small { All (λ p. p < 100) result }
{
    let products = u16x16::from_le_bytes(digits) * u16x16::splat(2561);
    products.to_le_bytes().swizzle([1, 3, 5, 7, 9, 11, 13, 15, 17, 19, 21, 23, 25, 27, 29, 31])
}

// The number that each two pairs make.
#[inline(always)]
fn fours_of(pairs: u8x16) -> u16x8
    requires long { length pairs ≡ 16 }
    requires small { All (λ p. p < 100) pairs }
    ensures long { length result ≡ 8 }
    ensures fours { (j : ℕ) → j < 8
        → get_or result j 0 ≡ get_or pairs (2 * j) 0 * 100 + get_or pairs (2 * j + 1) 0 }
    ensures small { All (λ f. f < 10000) result }
{
    let both = u16x8::from_le_bytes(pairs);
    (both & u16x8::splat(0xFF)) * u16x8::splat(100) + (both >> u16x8::splat(8))
}

// The number that each two fours make.
#[inline(always)]
fn eights_of(fours: u16x8) -> u32x4
    requires long { length fours ≡ 8 }
    requires small { All (λ f. f < 10000) fours }
    ensures long { length result ≡ 4 }
    ensures eights { (j : ℕ) → j < 4
        → get_or result j 0 ≡ get_or fours (2 * j) 0 * 10000 + get_or fours (2 * j + 1) 0 }
    ensures small { All (λ n. n < 100000000) result }
{
    let both = u32x4::from_le_bytes(fours.to_le_bytes());
    (both & u32x4::splat(0xFFFF)) * u32x4::splat(10_000) + (both >> u32x4::splat(16))
}

// For each word, 1 where it has a minus sign, else 0.
#[inline(always)]
fn minus_of(bytes: u8x32) -> u32x4
    requires { length bytes ≡ 32 }
    ensures long { length result ≡ 4 }
    ensures minus { (j : ℕ) → j < 4 → (get_or result j 0 == 0)
        ≡ not (list_any (λ b. b == 45) (take 8 (drop (8 * j) bytes))) }
{
    let hits = bytes
        .simd_eq(u8x32::splat(b'-'))
        .select(u8x32::splat(255), u8x32::splat(0));
    let has_hit = u64x4::from_le_bytes(hits).simd_ne(u64x4::splat(0));
    has_hit
        .select(u64x4::splat(1), u64x4::splat(0))
        .cast::<u32>()
}

// Each number `n`, or 2^32 - n in 32 bits where its word has a minus sign.
#[inline(always)]
fn turned_of(minus: u32x4, numbers: u32x4) -> u32x4
    requires long { length numbers ≡ 4 }
    requires minus { length minus ≡ 4 }
    requires small { All (λ n. n < 100000000) numbers }
    ensures long { length result ≡ 4 }
    ensures lanes { (j : ℕ) → j < 4
        → get_or result j 0 ≡ turned (get_or minus j 0) (get_or numbers j 0) }
    ensures small { All (λ n. n < 4294967296) result }
{
    let is_negative = minus.simd_ne(u32x4::splat(0));
    is_negative.select(u32x4::splat(0) - numbers, numbers)
}

// The numbers with their signs: negative where the word has a minus sign.
#[inline(always)]
fn signed(minus: u32x4, numbers: u32x4) -> [i32; 4]
    requires long { length numbers ≡ 4 }
    requires minus { length minus ≡ 4 }
    requires small { All (λ n. n < 100000000) numbers }
    ensures { result ≡ zip2 (λ m n. signed_by (not (m == 0)) n) minus numbers }
{
    let turned = turned_of(minus, numbers);
    let mut values = [0; 4];
    i32x4::from_le_bytes(turned.to_le_bytes()).copy_to_slice(&mut values);
    values
}
