//! Integers of four members at a time, into four lanes of words that lie side by side.
//!
//! ```text
//! member 8   1 2 3        word 0, lanes 8 to 11   1 4 7 0
//! member 9   4 5 6    =>  word 1, lanes 8 to 11   2 5 8 0
//! member 10  7 8 9        word 2, lanes 8 to 11   3 6 9 0
//! member 11  0 0 0
//! ```

ghost use Rattle.std.specs.Prelude.{◌≡◌, ◌≢◌, ℕ, ℤ, List, ◌<◌, ◌≤◌, ◌+◌, ◌*◌, ◌⊎◌, length, [], All};
ghost use Rattle.std.specs.Prelude.{slice_index, slice_index_or, get_or, pos};
ghost use Rattle.lb_lanes.specs.Kernels.{lane_of};
ghost use Rattle.lb_sim.specs.Loads.{four_at, one_of_four};

use lb_lanes::LaneWord;
use lb_traces::NumberRow;

// Puts four integers into four lanes of a word that lie side by side.
fn set_four(word: &mut LaneWord, first: u32, a: i32, b: i32, c: i32, d: i32)
    requires { first + 4 ≤ 64 }
    ensures put { (i : ℕ) → first ≤ i → i < first + 4
        → lane_of word.new i ≡ one_of_four first a b c d i }
    ensures others { (i : ℕ) → i < 64 → (i < first) ⊎ (first + 4 ≤ i)
        → lane_of word.new i ≡ lane_of word.old i }
{
    word.set(first, a);
    word.set(first + 1, b);
    word.set(first + 2, c);
    word.set(first + 3, d);
}

/// A row of integers, whatever way it is held.
trait IntegerRow {
    /// The integers of the row.
    ghost integers: { Self → List ℤ };

    // The integer at a place.
    fn at(&self, w: usize) -> i32
        requires { w < length (integers self.now) }
        ensures { result ≡ get_or (integers self.now) w (pos 0) };
}

impl IntegerRow for &[i32] {
    ghost integers = { λ row. row.now };

    #[inline(always)]
    fn at(&self, w: usize) -> i32 {
        self[w]
    }
}

impl IntegerRow for &[i16] {
    ghost integers = { λ row. row.now };

    #[inline(always)]
    fn at(&self, w: usize) -> i32 {
        i32::from(self[w])
    }
}

impl IntegerRow for NumberRow<'_> {
    ghost integers = { λ row. row };

    #[inline(always)]
    fn at(&self, w: usize) -> i32 {
        self.get(w)
    }
}

// Puts the integers of four rows at a place into four lanes of a word that lie side by side.
#[inline(always)]
fn set_four_of<R: IntegerRow>(word: &mut LaneWord, first: u32, a: &R, b: &R, c: &R, d: &R, w: usize)
    requires lanes { first + 4 ≤ 64 }
    requires row_a { w < length (R.integers a.now) }
    requires row_b { w < length (R.integers b.now) }
    requires row_c { w < length (R.integers c.now) }
    requires row_d { w < length (R.integers d.now) }
    ensures put { (i : ℕ) → first ≤ i → i < first + 4
        → lane_of word.new i ≡ four_at first (R.integers a.now) (R.integers b.now)
        (R.integers c.now) (R.integers d.now) w i }
    ensures others { (i : ℕ) → i < 64 → (i < first) ⊎ (first + 4 ≤ i)
        → lane_of word.new i ≡ lane_of word.old i }
{
    set_four(word, first, a.at(w), b.at(w), c.at(w), d.at(w));
}

// Puts the integers of four rows at `places` into four lanes of the words at these places.
fn put_rows<R: IntegerRow>(
    words: &mut [LaneWord],
    first: u32,
    a: &R,
    b: &R,
    c: &R,
    d: &R,
    places: &[usize],
)
    requires lanes { first + 4 ≤ 64 }
    requires row_a { length (R.integers a.now) ≡ length words.old }
    requires row_b { length (R.integers b.now) ≡ length words.old }
    requires row_c { length (R.integers c.now) ≡ length words.old }
    requires row_d { length (R.integers d.now) ≡ length words.old }
    requires within { All (λ w. w < length words.old) places.now }
    ensures words { length words.new ≡ length words.old }
    ensures put { (k i : ℕ) → k < length places.now → first ≤ i → i < first + 4
        → lane_of (slice_index_or words.new (slice_index places.now k) []) i
        ≡ four_at first (R.integers a.now) (R.integers b.now) (R.integers c.now)
        (R.integers d.now) (slice_index places.now k) i }
    ensures others { (w i : ℕ) → i < 64 → (i < first) ⊎ (first + 4 ≤ i)
        → lane_of (slice_index_or words.new w []) i ≡ lane_of (slice_index_or words.old w []) i }
{
    for k in 0..places.len() {
        let w = places[k];
        set_four_of(&mut words[w], first, a, b, c, d, w);
    }
}

/// Puts the integers of four rows at `places` into four lanes of the words at these places, a lane
/// for each row.
pub(crate) fn put_four(
    words: &mut [LaneWord],
    first: u32,
    a: &NumberRow<'_>,
    b: &NumberRow<'_>,
    c: &NumberRow<'_>,
    d: &NumberRow<'_>,
    places: &[usize],
)
    requires lanes { first + 4 ≤ 64 }
    requires row_a { length a.now ≡ length words.old }
    requires row_b { length b.now ≡ length words.old }
    requires row_c { length c.now ≡ length words.old }
    requires row_d { length d.now ≡ length words.old }
    requires within { All (λ w. w < length words.old) places.now }
    ensures words { length words.new ≡ length words.old }
    ensures put { (k i : ℕ) → k < length places.now → first ≤ i → i < first + 4
        → lane_of (slice_index_or words.new (slice_index places.now k) []) i
        ≡ four_at first a.now b.now c.now d.now (slice_index places.now k) i }
    ensures others { (w i : ℕ) → i < 64 → (i < first) ⊎ (first + 4 ≤ i)
        → lane_of (slice_index_or words.new w []) i ≡ lane_of (slice_index_or words.old w []) i }
{
    if let (Some(a), Some(b), Some(c), Some(d)) = (a.wide(), b.wide(), c.wide(), d.wide()) {
        put_rows(words, first, &a, &b, &c, &d, places);
        return;
    }
    if let (Some(a), Some(b), Some(c), Some(d)) = (a.narrow(), b.narrow(), c.narrow(), d.narrow()) {
        put_rows(words, first, &a, &b, &c, &d, places);
        return;
    }
    put_rows(words, first, a, b, c, d, places);
}

// Puts the integers of four rows at `places` into four lanes of the words of an instant. Each place
// has words for 64 instants, and one more word.
fn put_rows_ahead<R: IntegerRow>(
    room: &mut [LaneWord],
    instant: usize,
    first: u32,
    a: &R,
    b: &R,
    c: &R,
    d: &R,
    places: &[usize],
)
    requires instant { instant < 64 }
    requires lanes { first + 4 ≤ 64 }
    requires room { 65 * length places.now ≤ length room.old }
    requires row_a { All (λ w. w < length (R.integers a.now)) places.now }
    requires row_b { length (R.integers b.now) ≡ length (R.integers a.now) }
    requires row_c { length (R.integers c.now) ≡ length (R.integers a.now) }
    requires row_d { length (R.integers d.now) ≡ length (R.integers a.now) }
    ensures room { length room.new ≡ length room.old }
    ensures put { (k i : ℕ) → k < length places.now → first ≤ i → i < first + 4
        → lane_of (slice_index_or room.new (65 * k + instant) []) i
        ≡ four_at first (R.integers a.now) (R.integers b.now) (R.integers c.now)
        (R.integers d.now) (slice_index places.now k) i }
    ensures others { (k e i : ℕ) → e < 64 → i < 64
        → (e ≢ instant) ⊎ ((i < first) ⊎ (first + 4 ≤ i))
        → lane_of (slice_index_or room.new (65 * k + e) []) i
        ≡ lane_of (slice_index_or room.old (65 * k + e) []) i }
{
    for k in 0..places.len() {
        let w = places[k];
        set_four_of(&mut room[65 * k + instant], first, a, b, c, d, w);
    }
}

/// Puts the integers of four rows at `places` into four lanes of the words of an instant, a lane
/// for each row. Each place has words for 64 instants, and one more word.
pub(crate) fn put_four_ahead(
    room: &mut [LaneWord],
    instant: usize,
    first: u32,
    a: &NumberRow<'_>,
    b: &NumberRow<'_>,
    c: &NumberRow<'_>,
    d: &NumberRow<'_>,
    places: &[usize],
)
    requires instant { instant < 64 }
    requires lanes { first + 4 ≤ 64 }
    requires room { 65 * length places.now ≤ length room.old }
    requires row_a { All (λ w. w < length a.now) places.now }
    requires row_b { length b.now ≡ length a.now }
    requires row_c { length c.now ≡ length a.now }
    requires row_d { length d.now ≡ length a.now }
    ensures room { length room.new ≡ length room.old }
    ensures put { (k i : ℕ) → k < length places.now → first ≤ i → i < first + 4
        → lane_of (slice_index_or room.new (65 * k + instant) []) i
        ≡ four_at first a.now b.now c.now d.now (slice_index places.now k) i }
    ensures others { (k e i : ℕ) → e < 64 → i < 64
        → (e ≢ instant) ⊎ ((i < first) ⊎ (first + 4 ≤ i))
        → lane_of (slice_index_or room.new (65 * k + e) []) i
        ≡ lane_of (slice_index_or room.old (65 * k + e) []) i }
{
    if let (Some(a), Some(b), Some(c), Some(d)) = (a.wide(), b.wide(), c.wide(), d.wide()) {
        put_rows_ahead(room, instant, first, &a, &b, &c, &d, places);
        return;
    }
    if let (Some(a), Some(b), Some(c), Some(d)) = (a.narrow(), b.narrow(), c.narrow(), d.narrow()) {
        put_rows_ahead(room, instant, first, &a, &b, &c, &d, places);
        return;
    }
    put_rows_ahead(room, instant, first, a, b, c, d, places);
}
