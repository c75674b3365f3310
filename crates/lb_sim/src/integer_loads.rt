//! The integers of an instant, from recorded traces into words.
//!
//! Each row goes into one lane of the words of its integers: four members at a time, where all four
//! have the instant, and else one by one. Only the integers at `places` are loaded.

ghost use Rattle.std.specs.Prelude.{◌≡◌, ℕ, ◌<◌, ◌≤◌, ◌+◌, true, length, get_or};
ghost use Rattle.std.specs.Prelude.{pos, slice_index, slice_index_or, [], All};
ghost use Rattle.lb_static.specs.Signature.{kinds_of};
ghost use Rattle.lb_traces.specs.Packed.{number_columns};
ghost use Rattle.lb_lanes.specs.Kernels.{lane_of};
ghost use Rattle.lb_lanes.specs.Planes.{on};
ghost use Rattle.lb_sim.specs.InputRows.{member_cell};
ghost use Rattle.lb_sim.specs.Loads.{AreLoaded};

use crate::four_lanes::put_four;
use crate::lane_bits::put_numbers;
use crate::loads::Instant;
use lb_lanes::LaneWord;
use lb_traces::NumberRow;

// The integers of member `i`, whose lane is live.
fn numbers_of<'a>(at: &Instant<'a, '_>, i: usize) -> NumberRow<'a>
    requires member { i < length at.now.members.now }
    requires live { on at.now.live.0 i ≡ true }
    ensures count { length result ≡ length (number_columns 0 (kinds_of at.now.set.now.signature)) }
    ensures numbers { (w : ℕ) → w < length (number_columns 0 (kinds_of at.now.set.now.signature))
        → get_or result w (pos 0)
        ≡ member_cell at.now.set.now at.now.members.now at.now.begins.now at.now.t i
        (get_or (number_columns 0 (kinds_of at.now.set.now.signature)) w 0) }
{
    at.set.numbers(at.members[i], at.t - at.begins[i])
}

// Puts the integers of member `i` into its lane, if the lane is live.
fn put_member(at: &Instant<'_, '_>, places: &[usize], i: usize, words: &mut [LaneWord])
    requires member { i < length at.now.members.now }
    requires room { length words.old
        ≡ length (number_columns 0 (kinds_of at.now.set.now.signature)) }
    requires within { All (λ w. w < length words.old) places.now }
    ensures { AreLoaded at.now.set.now at.now.members.now at.now.begins.now at.now.t at.now.live.0
        (number_columns 0 (kinds_of at.now.set.now.signature)) places.now i (i + 1) words.old
        words.new }
{
    if !at.live.get(i as u32) {
        return;
    }
    put_numbers(words, i as u32, &numbers_of(at, i), places);
}

// Puts the integers of the members from `first` to before `end` into the live lanes, one by one.
fn put_each(
    at: &Instant<'_, '_>,
    places: &[usize],
    first: usize,
    end: usize,
    words: &mut [LaneWord],
)
    requires order { first ≤ end }
    requires members { end ≤ length at.now.members.now }
    requires room { length words.old
        ≡ length (number_columns 0 (kinds_of at.now.set.now.signature)) }
    requires within { All (λ w. w < length words.old) places.now }
    ensures { AreLoaded at.now.set.now at.now.members.now at.now.begins.now at.now.t at.now.live.0
        (number_columns 0 (kinds_of at.now.set.now.signature)) places.now first end words.old
        words.new }
{
    for i in first..end {
        put_member(at, places, i, words);
    }
}

/// Whether the four lanes from `first` on are live.
pub(crate) fn are_live(at: &Instant<'_, '_>, first: u32) -> bool
    requires { first + 4 ≤ 64 }
    ensures { result ≡ true → (i : ℕ) → first ≤ i → i < first + 4
        → on at.now.live.0 i ≡ true }
{
    at.live.get(first) && at.live.get(first + 1) && at.live.get(first + 2) && at.live.get(first + 3)
}

// Puts the integers of four members into their lanes.
fn put_four_members(at: &Instant<'_, '_>, places: &[usize], first: usize, words: &mut [LaneWord])
    requires members { first + 4 ≤ length at.now.members.now }
    requires room { length words.old
        ≡ length (number_columns 0 (kinds_of at.now.set.now.signature)) }
    requires within { All (λ w. w < length words.old) places.now }
    ensures { AreLoaded at.now.set.now at.now.members.now at.now.begins.now at.now.t at.now.live.0
        (number_columns 0 (kinds_of at.now.set.now.signature)) places.now first (first + 4)
        words.old words.new }
{
    if !are_live(at, first as u32) {
        put_each(at, places, first, first + 4, words);
        return;
    }
    put_four(
        words,
        first as u32,
        &numbers_of(at, first),
        &numbers_of(at, first + 1),
        &numbers_of(at, first + 2),
        &numbers_of(at, first + 3),
        places,
    );
}

/// Puts the integers of the signature at `places` into words.
pub(crate) fn load_numbers(at: &Instant<'_, '_>, places: &[usize], words: &mut [LaneWord])
    requires room { length words.old
        ≡ length (number_columns 0 (kinds_of at.now.set.now.signature)) }
    requires within { All (λ w. w < length words.old) places.now }
    ensures words { length words.new ≡ length words.old }
    ensures put { (i k : ℕ) → i < 64 → on at.now.live.0 i ≡ true → k < length places.now
        → lane_of (slice_index_or words.new (slice_index places.now k) []) i
        ≡ member_cell at.now.set.now at.now.members.now at.now.begins.now at.now.t i
        (get_or (number_columns 0 (kinds_of at.now.set.now.signature))
        (slice_index places.now k) 0) }
{
    let count = at.members.len();
    let fours = count / 4;
    for f in 0..fours {
        put_four_members(at, places, 4 * f, words);
    }
    put_each(at, places, 4 * fours, count, words);
}
