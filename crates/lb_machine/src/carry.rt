//! Planes and words that are carried over to the next run of code.

ghost use Rattle.std.specs.Prelude.{◌≡◌, ℕ, ◌<◌, ◌≤◌, ◌+◌, length, slice_index, slice_index_or};
ghost use Rattle.std.specs.Prelude.{[], All};
ghost use Rattle.std.specs.Prelude.{◌≢◌, get_or};
ghost use Rattle.lb_machine.specs.declared.instruction.PlaneId.{PlaneId};
ghost use Rattle.lb_machine.specs.declared.instruction.WordId.{WordId};

use crate::instruction::{PlaneId, WordId};
use lb_lanes::LaneWord;

/// Copies the planes `sources` into the planes from `first` on, which all lie before the sources.
pub fn carry_planes(planes: &mut [u64], first: u32, sources: &[PlaneId])
    requires sources { All (λ s. first + length sources.now ≤ s.0 × s.0 < length planes.old)
        sources.now }
    requires room { first + length sources.now ≤ length planes.old }
    ensures planes { length planes.new ≡ length planes.old }
    ensures carried { (j : ℕ) (s : PlaneId) → j < length sources.now
        → slice_index planes.new (first + j) ≡ slice_index planes.old (get_or sources.now j s).0 }
    ensures below { (k : ℕ) → k < first → slice_index planes.new k ≡ slice_index planes.old k }
    ensures above { (k : ℕ) → first + length sources.now ≤ k
        → slice_index planes.new k ≡ slice_index planes.old k }
{
    for j in 0..sources.len() {
        planes[first as usize + j] = planes[sources[j].0 as usize];
    }
}

// Copies word `from` into word `to`, which lies before it.
fn copy_back(words: &mut [LaneWord], to: usize, from: usize)
    requires order { to < from }
    requires room { from < length words.old }
    ensures words { length words.new ≡ length words.old }
    ensures copied { slice_index_or words.new to [] ≡ slice_index_or words.old from [] }
    ensures others { (k : ℕ) → k ≢ to
        → slice_index_or words.new k [] ≡ slice_index_or words.old k [] }
{
    let (before, after) = words.split_at_mut(from);
    before[to].copy_from(&after[0]);
}

/// Copies the words `sources` into the words from `first` on, which all lie before the sources.
pub fn carry_words(words: &mut [LaneWord], first: u32, sources: &[WordId])
    requires sources { All (λ s. first + length sources.now ≤ s.0 × s.0 < length words.old)
        sources.now }
    requires room { first + length sources.now ≤ length words.old }
    ensures words { length words.new ≡ length words.old }
    ensures carried { (j : ℕ) (s : WordId) → j < length sources.now
        → slice_index_or words.new (first + j) []
        ≡ slice_index_or words.old (get_or sources.now j s).0 [] }
    ensures below { (k : ℕ) → k < first
        → slice_index_or words.new k [] ≡ slice_index_or words.old k [] }
    ensures above { (k : ℕ) → first + length sources.now ≤ k
        → slice_index_or words.new k [] ≡ slice_index_or words.old k [] }
{
    for j in 0..sources.len() {
        copy_back(words, first as usize + j, sources[j].0 as usize);
    }
}
