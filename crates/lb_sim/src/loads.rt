//! The Booleans of an instant, from recorded traces into planes.
//!
//! A trace set keeps the cells of 64 Boolean columns in a row as the bits of one word. The words of
//! all lanes stand side by side, and a transposition turns them into planes.
//!
//! Each lane is at an instant of its own: where the batch is at instant 7 and the trace of a lane
//! began at instant 5, its cells are those of instant 2.
//!
//! The rows of one trace lie side by side in memory, far from the rows of another trace. So for
//! each lane the words of some instants are read in one go, four lanes at a time.
//!
//! ```text
//! rows    lane 0, lane 1, ... lane 63 of an instant, of the first 64 columns, and 8 unused words;
//!         then the words of the next 64 columns; then the words of the next instant
//! ```
//!
//! Without those 8 words the words of a lane would share few of the lines of a cache.

ghost use Rattle.std.specs.Prelude.{◌≡◌, ◌≢◌, ℕ, ◌<◌, ◌≤◌, ◌+◌, ◌*◌, true, length, All};
ghost use Rattle.std.specs.Prelude.{get_or};
ghost use Rattle.std.specs.Prelude.{pos, int_le, slice_index};
ghost use Rattle.lb_static.specs.Signature.{kinds_of};
ghost use Rattle.lb_traces.specs.Packed.{truth_columns, words_of_row};
ghost use Rattle.lb_lanes.specs.Planes.{on};
ghost use Rattle.lb_sim.specs.InputRows.{HaveInstant, member_cell};
ghost use Rattle.lb_sim.specs.Loads.{AreAmong, AreFourPut, AreTruthsAhead, AreTruthsLoaded};

use crate::ahead::{InstantRange, PrefetchWindow};
use crate::integer_loads::are_live;
use crate::lane_bits::{groups_of, size_of_group, turn_group};
use lb_lanes::Plane;
use lb_traces::TraceSet;

/// An instant of the members of a batch, in the lanes that are live.
#[derive(Clone, Copy)]
pub(crate) struct Instant<'a, 'b> {
    pub(crate) set: &'a TraceSet,
    pub(crate) members: &'b [u32],
    /// The instant of the batch at which the trace of each lane begins.
    pub(crate) begins: &'b [u32],
    pub(crate) t: u32,
    pub(crate) live: Plane,
    pub(crate) ghost within: { All (λ k. k < length set.now.traces) members.now },
    pub(crate) ghost few: { length members.now ≤ 64 },
    pub(crate) ghost begins_room: { length begins.now ≡ 64 },
    pub(crate) ghost there: { HaveInstant set.now members.now begins.now t live.0 },
}

// Puts `bits` into lane `i` of as many words of all lanes.
fn put_words(bits: &[u64], i: usize, rows: &mut [u64])
    requires lane { i < 64 }
    requires room { 72 * length bits.now ≤ length rows.old }
    ensures rows { length rows.new ≡ length rows.old }
    ensures put { (n : ℕ) → n < length bits.now
        → slice_index rows.new (72 * n + i) ≡ slice_index bits.now n }
    ensures others { (n k : ℕ) → k < 64 → k ≢ i
        → slice_index rows.new (72 * n + k) ≡ slice_index rows.old (72 * n + k) }
{
    for n in 0..bits.len() {
        rows[72 * n + i] = bits[n];
    }
}

// Puts `a`, `b`, `c` and `d` into the four lanes from `first` on, of as many words of all lanes.
fn put_four_words(a: &[u64], b: &[u64], c: &[u64], d: &[u64], first: usize, rows: &mut [u64])
    requires lanes { first + 4 ≤ 64 }
    requires words_b { length b.now ≡ length a.now }
    requires words_c { length c.now ≡ length a.now }
    requires words_d { length d.now ≡ length a.now }
    requires room { 72 * length a.now ≤ length rows.old }
    ensures { AreFourPut a.now b.now c.now d.now first rows.old rows.new (length a.now) }
{
    for n in 0..a.len() {
        rows[72 * n + first] = a[n];
        rows[72 * n + (first + 1)] = b[n];
        rows[72 * n + (first + 2)] = c[n];
        rows[72 * n + (first + 3)] = d[n];
    }
}

// The Booleans of `count` instants of member `i`, whose lane is live.
fn bits_of<'a>(at: &Instant<'a, '_>, i: usize, count: u32) -> &'a [u64]
    requires member { i < length at.now.members.now }
    requires live { on at.now.live.0 i ≡ true }
    requires there { (d : ℕ) → d < count
        → HaveInstant at.now.set.now at.now.members.now at.now.begins.now (at.now.t + d)
        at.now.live.0 }
    ensures words { length result.now ≡ count
        * words_of_row (length (truth_columns 0 (kinds_of at.now.set.now.signature))) }
    ensures bits { (d g c : ℕ) → d < count → c < 64
        → 64 * g + c < length (truth_columns 0 (kinds_of at.now.set.now.signature))
        → on (slice_index result.now (d
        * words_of_row (length (truth_columns 0 (kinds_of at.now.set.now.signature))) + g)) c
        ≡ int_le (pos 1)
        (member_cell at.now.set.now at.now.members.now at.now.begins.now (at.now.t + d) i
        (get_or (truth_columns 0 (kinds_of at.now.set.now.signature)) (64 * g + c) 0)) }
{
    at.set.bits(at.members[i], at.t - at.begins[i], count)
}

// Puts the Booleans of `count` instants of member `i` into the words of its lane, if the lane is
// live.
fn put_bits(at: &Instant<'_, '_>, i: usize, count: u32, rows: &mut [u64])
    requires member { i < length at.now.members.now }
    requires there { (d : ℕ) → d < count
        → HaveInstant at.now.set.now at.now.members.now at.now.begins.now (at.now.t + d)
        at.now.live.0 }
    requires room { 72 * (count
        * words_of_row (length (truth_columns 0 (kinds_of at.now.set.now.signature))))
        ≤ length rows.old }
    ensures { AreTruthsLoaded at.now.set.now at.now.members.now at.now.begins.now at.now.t count
        at.now.live.0 (truth_columns 0 (kinds_of at.now.set.now.signature)) i (i + 1)
        rows.old rows.new }
{
    if !at.live.get(i as u32) {
        return;
    }
    put_words(bits_of(at, i, count), i, rows);
}

// Puts the Booleans of the members from `first` to before `end` into the words of their lanes, one
// by one.
fn put_each(at: &Instant<'_, '_>, first: usize, end: usize, count: u32, rows: &mut [u64])
    requires order { first ≤ end }
    requires members { end ≤ length at.now.members.now }
    requires there { (d : ℕ) → d < count
        → HaveInstant at.now.set.now at.now.members.now at.now.begins.now (at.now.t + d)
        at.now.live.0 }
    requires room { 72 * (count
        * words_of_row (length (truth_columns 0 (kinds_of at.now.set.now.signature))))
        ≤ length rows.old }
    ensures { AreTruthsLoaded at.now.set.now at.now.members.now at.now.begins.now at.now.t count
        at.now.live.0 (truth_columns 0 (kinds_of at.now.set.now.signature)) first end
        rows.old rows.new }
{
    for i in first..end {
        put_bits(at, i, count, rows);
    }
}

// Puts the Booleans of the four members from `first` on into the words of their lanes.
fn put_four_members(at: &Instant<'_, '_>, first: usize, count: u32, rows: &mut [u64])
    requires members { first + 4 ≤ length at.now.members.now }
    requires there { (d : ℕ) → d < count
        → HaveInstant at.now.set.now at.now.members.now at.now.begins.now (at.now.t + d)
        at.now.live.0 }
    requires room { 72 * (count
        * words_of_row (length (truth_columns 0 (kinds_of at.now.set.now.signature))))
        ≤ length rows.old }
    ensures { AreTruthsLoaded at.now.set.now at.now.members.now at.now.begins.now at.now.t count
        at.now.live.0 (truth_columns 0 (kinds_of at.now.set.now.signature)) first (first + 4)
        rows.old rows.new }
{
    if !are_live(at, first as u32) {
        put_each(at, first, first + 4, count, rows);
        return;
    }
    put_four_words(
        bits_of(at, first, count),
        bits_of(at, first + 1, count),
        bits_of(at, first + 2, count),
        bits_of(at, first + 3, count),
        first,
        rows,
    );
}

// Puts the Booleans of `count` instants of all members into the words of the live lanes.
fn gather(at: &Instant<'_, '_>, count: u32, rows: &mut [u64])
    requires there { (d : ℕ) → d < count
        → HaveInstant at.now.set.now at.now.members.now at.now.begins.now (at.now.t + d)
        at.now.live.0 }
    requires room { 72 * (count
        * words_of_row (length (truth_columns 0 (kinds_of at.now.set.now.signature))))
        ≤ length rows.old }
    ensures rows { length rows.new ≡ length rows.old }
    ensures put { AreTruthsAhead at.now.set.now at.now.members.now at.now.begins.now at.now.t
        (at.now.t + count) at.now.live.0
        (truth_columns 0 (kinds_of at.now.set.now.signature)) rows.new }
{
    let members = at.members.len();
    let fours = members / 4;
    for f in 0..fours {
        put_four_members(at, 4 * f, count, rows);
    }
    put_each(at, 4 * fours, members, count, rows);
}

// Transposes the words of all lanes for an instant into planes.
fn turn(rows: &[u64], d: usize, planes: &mut [u64])
    requires { 72 * (d * words_of_row (length planes.old) + words_of_row (length planes.old))
        ≤ length rows.now }
    ensures planes { length planes.new ≡ length planes.old }
    ensures put { (g c i : ℕ) → c < 64 → i < 64 → 64 * g + c < length planes.old
        → on (slice_index planes.new (64 * g + c)) i
        ≡ on (slice_index rows.now (72 * (d * words_of_row (length planes.old) + g) + i)) c }
{
    let width = groups_of(planes.len());
    for g in 0..width {
        let count = size_of_group(planes.len(), g);
        turn_group(rows, 72 * (d * width + g), planes, 64 * g, count);
    }
}

/// Puts the Booleans of the signature into planes.
pub(crate) fn load_truths(at: &Instant<'_, '_>, rows: &mut [u64], planes: &mut [u64])
    requires rows_room { 72 * words_of_row (length planes.old) ≤ length rows.old }
    requires room { length planes.old
        ≡ length (truth_columns 0 (kinds_of at.now.set.now.signature)) }
    ensures rows { length rows.new ≡ length rows.old }
    ensures planes { length planes.new ≡ length planes.old }
    ensures put { (i b : ℕ) → i < 64 → on at.now.live.0 i ≡ true
        → b < length (truth_columns 0 (kinds_of at.now.set.now.signature))
        → on (slice_index planes.new b) i ≡ int_le (pos 1)
        (member_cell at.now.set.now at.now.members.now at.now.begins.now at.now.t i
        (get_or (truth_columns 0 (kinds_of at.now.set.now.signature)) b 0)) }
{
    let _t = at.t;
    gather(at, 1, rows);
    turn(rows, 0, planes);
}

// The instants that are loaded once this one is: `last` if it has this instant, else up to `reach`
// instants from this one on.
fn renewed(
    at: &InstantRange<'_, '_>,
    reach: u32,
    rows: &mut [u64],
    last: PrefetchWindow,
) -> PrefetchWindow
    requires some { 0 < reach }
    requires room { 72 * (reach
        * words_of_row (length (truth_columns 0 (kinds_of at.now.at.set.now.signature))))
        ≤ length rows.old }
    requires begun { last.first ≤ at.now.at.t }
    requires last { AreTruthsAhead at.now.at.set.now at.now.at.members.now at.now.at.begins.now
        last.first last.until last.lanes.0
        (truth_columns 0 (kinds_of at.now.at.set.now.signature)) rows.old }
    requires lanes { at.now.at.t < last.until → AreAmong at.now.at.live.0 last.lanes.0 }
    ensures rows { length rows.new ≡ length rows.old }
    ensures begun { result.first ≤ at.now.at.t }
    ensures until { at.now.at.t < result.until }
    ensures ahead { AreTruthsAhead at.now.at.set.now at.now.at.members.now at.now.at.begins.now
        result.first result.until result.lanes.0
        (truth_columns 0 (kinds_of at.now.at.set.now.signature)) rows.new }
    ensures lanes { AreAmong at.now.at.live.0 result.lanes.0 }
{
    let first = at.at.t;
    if first < last.until {
        return last;
    }
    let count = (at.until - first).min(reach);
    gather(&at.at, count, rows);
    PrefetchWindow {
        first,
        until: first + count,
        lanes: at.at.live,
    }
}

/// Puts the Booleans of the signature into planes, if they are wanted. The instant may be loaded
/// already, as `last` says. The result says what is loaded afterwards. `rows` has room for `reach`
/// instants.
pub(crate) fn load_truths_ahead(
    at: &InstantRange<'_, '_>,
    wanted: bool,
    reach: u32,
    rows: &mut [u64],
    last: PrefetchWindow,
    planes: &mut [u64],
) -> PrefetchWindow
    requires some { 0 < reach }
    requires rows_room { 72 * (reach * words_of_row (length planes.old)) ≤ length rows.old }
    requires room { length planes.old
        ≡ length (truth_columns 0 (kinds_of at.now.at.set.now.signature)) }
    requires begun { last.first ≤ at.now.at.t }
    requires last { AreTruthsAhead at.now.at.set.now at.now.at.members.now at.now.at.begins.now
        last.first last.until last.lanes.0
        (truth_columns 0 (kinds_of at.now.at.set.now.signature)) rows.old }
    requires lanes { at.now.at.t < last.until → AreAmong at.now.at.live.0 last.lanes.0 }
    ensures rows { length rows.new ≡ length rows.old }
    ensures planes { length planes.new ≡ length planes.old }
    ensures put { wanted ≡ true → (i b : ℕ) → i < 64 → on at.now.at.live.0 i ≡ true
        → b < length (truth_columns 0 (kinds_of at.now.at.set.now.signature))
        → on (slice_index planes.new b) i ≡ int_le (pos 1)
        (member_cell at.now.at.set.now at.now.at.members.now at.now.at.begins.now at.now.at.t i
        (get_or (truth_columns 0 (kinds_of at.now.at.set.now.signature)) b 0)) }
    ensures begun { result.first ≤ at.now.at.t }
    ensures ahead { AreTruthsAhead at.now.at.set.now at.now.at.members.now at.now.at.begins.now
        result.first result.until result.lanes.0
        (truth_columns 0 (kinds_of at.now.at.set.now.signature)) rows.new }
    ensures lanes { at.now.at.t < result.until → AreAmong at.now.at.live.0 result.lanes.0 }
{
    if !wanted {
        return last;
    }
    let ahead = renewed(at, reach, rows, last);
    turn(rows, (at.at.t - ahead.first) as usize, planes);
    ahead
}
