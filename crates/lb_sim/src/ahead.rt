//! The integers of consecutive instants, loaded together.
//!
//! The rows of one trace lie side by side in memory, far from the rows of another trace. So for
//! each lane the rows of up to 64 instants are read in one go, four lanes at a time. Of a row the
//! integers at `places` are loaded, if the room is large enough for them.
//!
//! The instants are those of the batch. Where the trace of a lane began `b` instants later than the
//! batch, the lane has the row of instant `t - b` at instant `t`.
//!
//! ```text
//! room    place 0: instant 0, instant 1, ... instant 63, and an unused word; then
//!         place 1; each a word of 64 lanes
//! ```
//!
//! Without the unused words, the words of one instant would share few lines of a cache.

ghost use Rattle.std.specs.Prelude.{◌≡◌, ◌≢◌, ℕ, ◌<◌, ◌≤◌, ◌+◌, ◌*◌, ◌⊎◌, true, length, get_or};
ghost use Rattle.std.specs.Prelude.{ℤ, pos, slice_index, slice_index_or, [], All};
ghost use Rattle.lb_static.specs.Signature.{kinds_of};
ghost use Rattle.lb_traces.specs.Packed.{number_columns};
ghost use Rattle.lb_lanes.specs.Kernels.{lane_of};
ghost use Rattle.lb_lanes.specs.Planes.{on};
ghost use Rattle.lb_sim.specs.InputRows.{HaveInstant, member_cell};
ghost use Rattle.lb_sim.specs.Loads.{AreAhead, AreAmong, AreLoadedAhead};

use crate::four_lanes::put_four_ahead;
use crate::integer_loads::{are_live, load_numbers};
use crate::loads::Instant;
use lb_lanes::{LaneWord, Plane};
use lb_traces::NumberRow;

/// An instant of the members of a batch, and the instant before which all live lanes have each
/// instant that follows.
#[derive(Clone, Copy)]
pub(crate) struct InstantRange<'a, 'b> {
    pub(crate) at: Instant<'a, 'b>,
    pub(crate) until: u32,
    pub(crate) ghost later: { at.t < until },
    pub(crate) ghost further: { (s : ℕ) → at.t ≤ s → s < until
        → HaveInstant at.set.now at.members.now at.begins.now s at.live.0 },
}

/// The instants that are loaded, from `first` to before `until`, in some lanes.
#[derive(Clone, Copy)]
pub(crate) struct PrefetchWindow {
    pub(crate) first: u32,
    pub(crate) until: u32,
    pub(crate) lanes: Plane,
}

/// The instants whose integers are loaded, and those whose Booleans are.
#[derive(Clone, Copy)]
pub(crate) struct Loaded {
    pub(crate) numbers: PrefetchWindow,
    pub(crate) truths: PrefetchWindow,
    pub(crate) ghost few: { numbers.until ≤ numbers.first + 64 },
}

/// No instant is loaded.
pub(crate) fn nothing() -> Loaded
    ensures numbers { result.numbers.first + result.numbers.until ≡ 0 }
    ensures truths { result.truths.first + result.truths.until ≡ 0 }
{
    let none = PrefetchWindow {
        first: 0,
        until: 0,
        lanes: Plane(0),
    };
    Loaded {
        numbers: none,
        truths: none,
    }
}

// Puts the integers of a row at `places` into one lane of the words of instant `d`.
fn put_row(row: &NumberRow<'_>, lane: u32, d: usize, places: &[usize], room: &mut [LaneWord])
    requires lane { lane < 64 }
    requires instant { d < 64 }
    requires room { 65 * length places.now ≤ length room.old }
    requires within { All (λ w. w < length row.now) places.now }
    ensures room { length room.new ≡ length room.old }
    ensures put { (k : ℕ) → k < length places.now
        → lane_of (slice_index_or room.new (65 * k + d) []) lane
        ≡ get_or row.now (slice_index places.now k) (pos 0) }
    ensures others { (k e i : ℕ) → e < 64 → i < 64 → (e ≢ d) ⊎ (i ≢ lane)
        → lane_of (slice_index_or room.new (65 * k + e) []) i
        ≡ lane_of (slice_index_or room.old (65 * k + e) []) i }
{
    for k in 0..places.len() {
        room[65 * k + d].set(lane, row.get(places[k]));
    }
}

// The integers of member `i`, whose lane is live, `d` instants later.
fn row_of<'a>(at: &InstantRange<'a, '_>, i: usize, d: usize) -> NumberRow<'a>
    requires member { i < length at.now.at.members.now }
    requires instant { at.now.at.t + d < at.now.until }
    requires live { on at.now.at.live.0 i ≡ true }
    ensures count { length result ≡ length (number_columns 0 (kinds_of at.now.at.set.now.signature)) }
    ensures numbers { (w : ℕ)
        → w < length (number_columns 0 (kinds_of at.now.at.set.now.signature))
        → get_or result w (pos 0)
        ≡ member_cell at.now.at.set.now at.now.at.members.now at.now.at.begins.now (at.now.at.t + d)
        i (get_or (number_columns 0 (kinds_of at.now.at.set.now.signature)) w 0) }
{
    let t = at.at.t - at.at.begins[i] + d as u32;
    at.at.set.numbers(at.at.members[i], t)
}

// Puts the integers of `count` instants of member `i` into its lane, if the lane is live.
fn put_member(
    at: &InstantRange<'_, '_>,
    i: usize,
    count: usize,
    places: &[usize],
    room: &mut [LaneWord],
)
    requires member { i < length at.now.at.members.now }
    requires count { at.now.at.t + count ≤ at.now.until }
    requires few { count ≤ 64 }
    requires room { 65 * length places.now ≤ length room.old }
    requires within { All (λ w. w < length (number_columns 0
        (kinds_of at.now.at.set.now.signature))) places.now }
    ensures { AreLoadedAhead at.now.at.set.now at.now.at.members.now at.now.at.begins.now
        at.now.at.t count at.now.at.live.0
        (number_columns 0 (kinds_of at.now.at.set.now.signature)) places.now i (i + 1)
        room.old room.new }
{
    if !at.at.live.get(i as u32) {
        return;
    }
    for d in 0..count {
        put_row(&row_of(at, i, d), i as u32, d, places, room);
    }
}

// Puts the integers of `count` instants into the live lanes, for the members from `first` on, one
// by one.
fn put_each(
    at: &InstantRange<'_, '_>,
    first: usize,
    end: usize,
    count: usize,
    places: &[usize],
    room: &mut [LaneWord],
)
    requires order { first ≤ end }
    requires members { end ≤ length at.now.at.members.now }
    requires count { at.now.at.t + count ≤ at.now.until }
    requires few { count ≤ 64 }
    requires room { 65 * length places.now ≤ length room.old }
    requires within { All (λ w. w < length (number_columns 0
        (kinds_of at.now.at.set.now.signature))) places.now }
    ensures { AreLoadedAhead at.now.at.set.now at.now.at.members.now at.now.at.begins.now
        at.now.at.t count at.now.at.live.0
        (number_columns 0 (kinds_of at.now.at.set.now.signature)) places.now first end
        room.old room.new }
{
    for i in first..end {
        put_member(at, i, count, places, room);
    }
}

// Puts the integers of `count` instants of four members into their lanes.
fn put_four_members(
    at: &InstantRange<'_, '_>,
    first: usize,
    count: usize,
    places: &[usize],
    room: &mut [LaneWord],
)
    requires members { first + 4 ≤ length at.now.at.members.now }
    requires count { at.now.at.t + count ≤ at.now.until }
    requires few { count ≤ 64 }
    requires room { 65 * length places.now ≤ length room.old }
    requires within { All (λ w. w < length (number_columns 0
        (kinds_of at.now.at.set.now.signature))) places.now }
    ensures { AreLoadedAhead at.now.at.set.now at.now.at.members.now at.now.at.begins.now
        at.now.at.t count at.now.at.live.0
        (number_columns 0 (kinds_of at.now.at.set.now.signature)) places.now first (first + 4)
        room.old room.new }
{
    if !are_live(&at.at, first as u32) {
        put_each(at, first, first + 4, count, places, room);
        return;
    }
    for d in 0..count {
        put_four_ahead(
            room,
            d,
            first as u32,
            &row_of(at, first, d),
            &row_of(at, first + 1, d),
            &row_of(at, first + 2, d),
            &row_of(at, first + 3, d),
            places,
        );
    }
}

// Puts the integers of `count` instants into the live lanes.
fn fill(at: &InstantRange<'_, '_>, count: usize, places: &[usize], room: &mut [LaneWord])
    requires count { at.now.at.t + count ≤ at.now.until }
    requires few { count ≤ 64 }
    requires room { 65 * length places.now ≤ length room.old }
    requires within { All (λ w. w < length (number_columns 0
        (kinds_of at.now.at.set.now.signature))) places.now }
    ensures room { length room.new ≡ length room.old }
    ensures ahead { AreAhead at.now.at.set.now at.now.at.members.now at.now.at.begins.now
        at.now.at.t (at.now.at.t + count) at.now.at.live.0
        (number_columns 0 (kinds_of at.now.at.set.now.signature)) places.now room.new }
{
    let members = at.at.members.len();
    let fours = members / 4;
    for f in 0..fours {
        put_four_members(at, 4 * f, count, places, room);
    }
    put_each(at, 4 * fours, members, count, places, room);
}

// The instants that are loaded once this one is: `last` if it has this instant, else instants from
// this one on.
fn renewed(
    at: &InstantRange<'_, '_>,
    places: &[usize],
    room: &mut [LaneWord],
    last: PrefetchWindow,
) -> PrefetchWindow
    requires room { 65 * length places.now ≤ length room.old }
    requires within { All (λ w. w < length (number_columns 0
        (kinds_of at.now.at.set.now.signature))) places.now }
    requires begun { last.first ≤ at.now.at.t }
    requires few { last.until ≤ last.first + 64 }
    requires last { AreAhead at.now.at.set.now at.now.at.members.now at.now.at.begins.now
        last.first last.until last.lanes.0
        (number_columns 0 (kinds_of at.now.at.set.now.signature)) places.now room.old }
    requires lanes { at.now.at.t < last.until → AreAmong at.now.at.live.0 last.lanes.0 }
    ensures room { length room.new ≡ length room.old }
    ensures begun { result.first ≤ at.now.at.t }
    ensures until { at.now.at.t < result.until }
    ensures few { result.until ≤ result.first + 64 }
    ensures ahead { AreAhead at.now.at.set.now at.now.at.members.now at.now.at.begins.now
        result.first result.until result.lanes.0
        (number_columns 0 (kinds_of at.now.at.set.now.signature)) places.now room.new }
    ensures lanes { AreAmong at.now.at.live.0 result.lanes.0 }
{
    let first = at.at.t;
    if first < last.until {
        return last;
    }
    let count = (at.until - first).min(64);
    fill(at, count as usize, places, room);
    PrefetchWindow {
        first,
        until: first + count,
        lanes: at.at.live,
    }
}

// Copies the integers of a loaded instant to their places.
fn take(room: &[LaneWord], d: usize, places: &[usize], words: &mut [LaneWord])
    requires instant { d < 64 }
    requires room { 65 * length places.now ≤ length room.now }
    requires within { All (λ w. w < length words.old) places.now }
    ensures words { length words.new ≡ length words.old }
    ensures put { (i : ℕ) (value : ℕ → ℤ) → ((k : ℕ) → k < length places.now
        → lane_of (slice_index_or room.now (65 * k + d) []) i ≡ value (slice_index places.now k))
        → (k : ℕ) → k < length places.now
        → lane_of (slice_index_or words.new (slice_index places.now k) []) i
        ≡ value (slice_index places.now k) }
{
    for k in 0..places.len() {
        words[places[k]].copy_from(&room[65 * k + d]);
    }
}

/// Puts the integers of the signature at `places` into words. The instant may be loaded already, as
/// `last` says. The result says what is loaded afterwards.
pub(crate) fn load_ahead(
    at: &InstantRange<'_, '_>,
    places: &[usize],
    room: &mut [LaneWord],
    last: PrefetchWindow,
    words: &mut [LaneWord],
) -> PrefetchWindow
    requires words { length words.old
        ≡ length (number_columns 0 (kinds_of at.now.at.set.now.signature)) }
    requires within { All (λ w. w < length words.old) places.now }
    requires begun { last.first ≤ at.now.at.t }
    requires few { last.until ≤ last.first + 64 }
    requires last { AreAhead at.now.at.set.now at.now.at.members.now at.now.at.begins.now
        last.first last.until last.lanes.0
        (number_columns 0 (kinds_of at.now.at.set.now.signature)) places.now room.old }
    requires lanes { at.now.at.t < last.until → AreAmong at.now.at.live.0 last.lanes.0 }
    ensures words { length words.new ≡ length words.old }
    ensures put { (i k : ℕ) → i < 64 → on at.now.at.live.0 i ≡ true → k < length places.now
        → lane_of (slice_index_or words.new (slice_index places.now k) []) i
        ≡ member_cell at.now.at.set.now at.now.at.members.now at.now.at.begins.now at.now.at.t i
        (get_or (number_columns 0 (kinds_of at.now.at.set.now.signature))
        (slice_index places.now k) 0) }
    ensures begun { result.first ≤ at.now.at.t }
    ensures few { result.until ≤ result.first + 64 }
    ensures ahead { AreAhead at.now.at.set.now at.now.at.members.now at.now.at.begins.now
        result.first result.until result.lanes.0
        (number_columns 0 (kinds_of at.now.at.set.now.signature)) places.now room.new }
    ensures lanes { at.now.at.t < result.until → AreAmong at.now.at.live.0 result.lanes.0 }
{
    if places.is_empty() {
        return last;
    }
    if room.len() / 65 < places.len() {
        load_numbers(&at.at, places, words);
        return last;
    }
    let ahead = renewed(at, places, room, last);
    take(room, (at.at.t - ahead.first) as usize, places, words);
    ahead
}
