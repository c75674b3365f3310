//! Planes and words, lane by lane.

ghost use Rattle.std.specs.Prelude.{◌≡◌, ◌≢◌, ℕ, ◌<◌, ◌≤◌, ◌+◌, ◌*◌, ◌==◌, ◌&&◌, ◌||◌};
ghost use Rattle.std.specs.Prelude.{true, false, length, All};
ghost use Rattle.std.specs.Prelude.{slice_index, slice_index_or, get_or, [], pos, IfOk};
ghost use Rattle.lb_traces.specs.Packed.{words_of_row};
ghost use Rattle.lb_lanes.specs.Kernels.{lane_of};
ghost use Rattle.lb_lanes.specs.Planes.{IsPlaneOf, on};
ghost use Rattle.lb_sim.specs.InputRows.{AreZero};

use lb_lanes::{LaneWord, Plane, transpose};
use lb_traces::NumberRow;
use std::alloc::{AllocError, Global};

/// The plane with one more lane.
pub(crate) fn with_lane(plane: u64, lane: u32) -> u64
    requires { lane < 64 }
    ensures { (i : ℕ) → i < 64 → on result i ≡ ((i == lane) || on plane i) }
{
    plane | (1u64 << lane)
}

/// The first lane of a plane from `from` on, or 64 where there is none.
pub(crate) fn next_lane(plane: u64, from: u32) -> u32
    requires { from ≤ 64 }
    ensures within { (from ≤ result) × (result ≤ 64) }
    ensures none { (i : ℕ) → from ≤ i → i < result → on plane i ≡ false }
    ensures there { result < 64 → on plane result ≡ true }
{
    if from == 64 {
        return 64;
    }
    let rest = plane >> from;
    if rest == 0 {
        64
    } else {
        from + rest.trailing_zeros()
    }
}

/// The number of words that the bits of `columns` columns take.
pub(crate) fn groups_of(columns: usize) -> usize
    ensures all { columns ≤ 64 * result }
    ensures some { (g : ℕ) → g < result → 64 * g < columns }
    ensures words { result ≡ words_of_row columns }
{
    let full = columns / 64;
    if 64 * full < columns { full + 1 } else { full }
}

/// The number of columns, out of `columns`, that have their bits in word `g`.
pub(crate) fn size_of_group(columns: usize, g: usize) -> usize
    requires { 64 * g ≤ columns }
    ensures few { result ≤ 64 }
    ensures within { 64 * g + result ≤ columns }
    ensures all { (c : ℕ) → c < 64 → 64 * g + c < columns → c < result }
{
    let rest = columns - 64 * g;
    if rest < 64 { rest } else { 64 }
}

// The 64 words from `first` on.
fn words_from(rows: &[u64], first: usize) -> [u64; 64]
    requires { first + 64 ≤ length rows.now }
    ensures { (i : ℕ) → i < 64 → slice_index result i ≡ slice_index rows.now (first + i) }
{
    let mut words = [0u64; 64];
    words.copy_from_slice(&rows[first..first + 64]);
    words
}

/// The plane, with `lane` added if `bit` is set.
pub(crate) fn with_bit(plane: u64, lane: u32, bit: bool) -> u64
    requires { lane < 64 }
    ensures { (i : ℕ) → i < 64 → on result i ≡ ((bit && (i == lane)) || on plane i) }
{
    if bit { with_lane(plane, lane) } else { plane }
}

// Column `c` of the 64 words from `from` on.
fn column(rows: &[u64], from: usize, c: u32) -> u64
    requires rows { from + 64 ≤ length rows.now }
    requires column { c < 64 }
    ensures { IsPlaneOf (λ i. on (slice_index rows.now (from + i)) c) result }
{
    let mut plane = 0u64;
    for i in 0..64u32 {
        let bit = Plane(rows[from + i as usize]).get(c);
        let more = with_bit(plane, i, bit);
        plane = more;
    }
    plane
}

// Puts the first `count` columns of the 64 words from `from` on into the planes from `first` on.
fn put_columns(rows: &[u64], from: usize, planes: &mut [u64], first: usize, count: usize)
    requires few { count ≤ 64 }
    requires rows { from + 64 ≤ length rows.now }
    requires room { first + count ≤ length planes.old }
    ensures planes { length planes.new ≡ length planes.old }
    ensures put { (c i : ℕ) → c < count → i < 64
        → on (slice_index planes.new (first + c)) i ≡ on (slice_index rows.now (from + i)) c }
    ensures below { (k : ℕ) → k < first → slice_index planes.new k ≡ slice_index planes.old k }
{
    for c in 0..count {
        let plane = column(rows, from, c as u32);
        planes[first + c] = plane;
    }
}

/// Transposes the 64 words from `from` on, a lane each, into the planes from `first` on.
pub(crate) fn turn_group(rows: &[u64], from: usize, planes: &mut [u64], first: usize, count: usize)
    requires few { count ≤ 64 }
    requires rows { from + 64 ≤ length rows.now }
    requires room { first + count ≤ length planes.old }
    ensures planes { length planes.new ≡ length planes.old }
    ensures put { (c i : ℕ) → c < count → i < 64
        → on (slice_index planes.new (first + c)) i ≡ on (slice_index rows.now (from + i)) c }
    ensures below { (k : ℕ) → k < first → slice_index planes.new k ≡ slice_index planes.old k }
{
    if count < 4 {
        put_columns(rows, from, planes, first, count);
        return;
    }
    let mut words = words_from(rows, from);
    transpose(&mut words);
    put_planes(planes, first, &words, count);
}

// Copies the first `count` words to the planes from `first` on.
fn put_planes(planes: &mut [u64], first: usize, words: &[u64; 64], count: usize)
    requires few { count ≤ 64 }
    requires room { first + count ≤ length planes.old }
    ensures planes { length planes.new ≡ length planes.old }
    ensures put { (c : ℕ) → c < count
        → slice_index planes.new (first + c) ≡ slice_index words.now c }
    ensures below { (k : ℕ) → k < first → slice_index planes.new k ≡ slice_index planes.old k }
    ensures above { (k : ℕ) → first + count ≤ k
        → slice_index planes.new k ≡ slice_index planes.old k }
{
    for c in 0..count {
        planes[first + c] = words[c];
    }
}

/// Puts the integers of a row at `places` into one lane of the words at these places.
pub(crate) fn put_numbers(words: &mut [LaneWord], lane: u32, row: &NumberRow<'_>, places: &[usize])
    requires lane { lane < 64 }
    requires room { length words.old ≡ length row.now }
    requires within { All (λ w. w < length words.old) places.now }
    ensures words { length words.new ≡ length words.old }
    ensures put { (k : ℕ) → k < length places.now
        → lane_of (slice_index_or words.new (slice_index places.now k) []) lane
        ≡ get_or row.now (slice_index places.now k) (pos 0) }
    ensures others { (w i : ℕ) → i < 64 → i ≢ lane
        → lane_of (slice_index_or words.new w []) i ≡ lane_of (slice_index_or words.old w []) i }
{
    for k in 0..places.len() {
        let w = places[k];
        words[w].set(lane, row.get(w));
    }
}

/// Words that are 0 in each lane.
pub(crate) fn zeros(alloc: Global, count: usize) -> Result<Vec<LaneWord>, AllocError>
    ensures count { IfOk result (λ words. length words.items ≡ count) }
    ensures zero { IfOk result (λ words. AreZero words.items) }
{
    let mut words = Vec::new(alloc);
    for _ in 0..count {
        words.push(LaneWord::splat(0))?;
    }
    Ok(words)
}

/// Copies planes to places that lie side by side.
pub(crate) fn copy_planes(planes: &mut [u64], first: usize, from: &[u64])
    requires room { first + length from.now ≤ length planes.old }
    ensures planes { length planes.new ≡ length planes.old }
    ensures put { (c : ℕ) → c < length from.now
        → slice_index planes.new (first + c) ≡ slice_index from.now c }
    ensures below { (k : ℕ) → k < first → slice_index planes.new k ≡ slice_index planes.old k }
    ensures above { (k : ℕ) → first + length from.now ≤ k
        → slice_index planes.new k ≡ slice_index planes.old k }
{
    for c in 0..from.len() {
        planes[first + c] = from[c];
    }
}

/// Copies words to places that lie side by side.
pub(crate) fn copy_words(words: &mut [LaneWord], first: usize, from: &[LaneWord])
    requires room { first + length from.now ≤ length words.old }
    ensures words { length words.new ≡ length words.old }
    ensures put { (c : ℕ) → c < length from.now
        → slice_index_or words.new (first + c) [] ≡ slice_index_or from.now c [] }
    ensures below { (k : ℕ) → k < first
        → slice_index_or words.new k [] ≡ slice_index_or words.old k [] }
    ensures above { (k : ℕ) → first + length from.now ≤ k
        → slice_index_or words.new k [] ≡ slice_index_or words.old k [] }
{
    for c in 0..from.len() {
        words[first + c].copy_from(&from[c]);
    }
}
