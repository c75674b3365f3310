//! Eight 64-bit words at a time, the shape of vector that is fast at every processor level.

ghost use Rattle.std.specs.Prelude.{◌≡◌, ℕ, ◌+◌, ◌<◌, ◌≤◌, length, slice_index};

use std::simd::prelude::*;

// The eight words from `at` on.
pub(crate) fn load8(words: &[u64], at: usize) -> u64x8
    requires { at + 8 ≤ length words.now }
    ensures { (i : ℕ) → i < 8 → slice_index result i ≡ slice_index words.now (at + i) }
{
    u64x8::from_slice(&words[at..])
}

// Puts `eight` into the words from `at` on.
pub(crate) fn store8(words: &mut [u64], at: usize, eight: u64x8)
    requires { at + 8 ≤ length words.old }
    ensures len { length words.new ≡ length words.old }
    ensures inside { (i : ℕ) → i < 8 → slice_index words.new (at + i) ≡ slice_index eight i }
    ensures below { (k : ℕ) → k < at → slice_index words.new k ≡ slice_index words.old k }
    ensures above { (k : ℕ) → at + 8 ≤ k → slice_index words.new k ≡ slice_index words.old k }
{
    eight.copy_to_slice(&mut words[at..]);
}
