//! Tests of 32 bytes at a time.

ghost use Rattle.std.specs.Prelude.{◌≡◌, ◌<◌, ◌==◌, length, map, take};
ghost use Rattle.std.specs.Simd.Lanes.{mask_l};

use std::simd::prelude::*;

/// The number of bytes that are looked at together.
pub const BLOCK: usize = 32;

/// A bit for each of the first 32 bytes, the lowest for the first: set where the byte is `byte`.
#[inline(always)]
pub fn places_of(block: &[u8], byte: u8) -> u64
    requires { 31 < length block.now }
    ensures { result ≡ mask_l (map (λ b. b == byte) (take 32 block.now)) }
{
    u8x32::from_slice(block)
        .simd_eq(u8x32::splat(byte))
        .to_bitmask()
}
