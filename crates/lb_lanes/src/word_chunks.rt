//! Sixteen words of 32 bits at a time: four registers of the lowest processor level.
//!
//! A chunk takes sixteen bits of a plane. Bit i of them stands in word i alone, so that a
//! comparison turns the bits into a mask of whole words:
//!
//! ```text
//! plane       ..0 1 1          the word 3, in each lane
//! bits         4  2  1         lane 2, 1, 0
//! plane & bits 0  2  1
//! == bits     no yes yes
//! ```

ghost use Rattle.std.specs.Prelude.{◌≡◌, ℕ, ◌+◌, ◌<◌, ◌≤◌, length, slice_index, if◌then◌else◌};
ghost use Rattle.lb_lanes.specs.Planes.{on};

use std::simd::prelude::*;

// For each lane of a chunk, the bit of a plane that stands for it.
const BITS: [u32; 16] = [
    1, 2, 4, 8, 16, 32, 64, 128, 256, 512, 1024, 2048, 4096, 8192, 16384, 32768,
];

// The sixteen words from `at` on.
pub(crate) fn load16(words: &[u32], at: usize) -> u32x16
    requires { at + 16 ≤ length words.now }
    ensures { (i : ℕ) → i < 16 → slice_index result i ≡ slice_index words.now (at + i) }
{
    u32x16::from_slice(&words[at..])
}

// Puts `lanes` into the sixteen words from `at` on.
pub(crate) fn store16(words: &mut [u32], at: usize, lanes: u32x16)
    requires { at + 16 ≤ length words.old }
    ensures len { length words.new ≡ length words.old }
    ensures inside { (i : ℕ) → i < 16 → slice_index words.new (at + i) ≡ slice_index lanes i }
    ensures below { (k : ℕ) → k < at → slice_index words.new k ≡ slice_index words.old k }
    ensures above { (k : ℕ) → at + 16 ≤ k → slice_index words.new k ≡ slice_index words.old k }
{
    lanes.copy_to_slice(&mut words[at..]);
}

// The lanes of `a` where the mask is true, else those of `b`.
pub(crate) fn blended16(mask: u64, a: u32x16, b: u32x16) -> u32x16
    ensures { (i : ℕ) → i < 16
        → slice_index result i ≡ (if on mask i then slice_index a i else slice_index b i) }
{
    let bits = u32x16::from_array(BITS);
    (u32x16::splat((mask % 4294967296) as u32) & bits)
        .simd_eq(bits)
        .select(a, b)
}

// The lanes whose top bit is set.
pub(crate) fn tops16(x: u32x16) -> u64
    ensures lanes { (i : ℕ) → i < 16 → on result i ≡ on (slice_index x i) 31 }
    ensures within { result < 65536 }
{
    u32x16::splat(2147483648).simd_le(x).to_bitmask()
}
