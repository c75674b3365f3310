//! The inputs of an instant, lane by lane.

ghost use Rattle.std.specs.Prelude.{◌≡◌, ℕ, ◌<◌, ◌≤◌, ◌+◌, ◌*◌, true, length, map, All, get_or};
ghost use Rattle.std.specs.Prelude.{IfOk, [], slice_index, slice_index_or};
ghost use Rattle.lb_static.specs.Signature.{kinds_of};
ghost use Rattle.lb_flat.specs.Inputs.{inputs_of};
ghost use Rattle.lb_traces.specs.Packed.{words_of_row};
ghost use Rattle.lb_lanes.specs.Planes.{on};
ghost use Rattle.lb_machine.specs.Meaning.{lane_at};
ghost use Rattle.lb_sim.specs.InputRows.{HaveInstant, instant_in, number_columns, places_of};
ghost use Rattle.lb_sim.specs.InputRows.{zero_of};
ghost use Rattle.lb_sim.specs.ReadInputs.{AreAlike};
ghost use Rattle.lb_sim.specs.Showing.{value_at};

use crate::ahead::{InstantRange, Loaded, load_ahead};
use crate::columns::Columns;
use crate::integer_loads::load_numbers;
use crate::lane_bits::{copy_planes, copy_words, groups_of, zeros};
use crate::loads::{Instant, load_truths, load_truths_ahead};
use crate::program::LaneProgram;
use crate::read_inputs::ReadInputs;
use lb_lanes::{LaneWord, Plane};
use lb_syntax::Kind;
use lb_traces::TraceSet;
use std::alloc::{AllocError, Global};

// The most integers of a row that are loaded for some instants together.
const MOST_AHEAD: usize = 16;

/// A row of inputs for each lane: a plane for each Boolean of the signature, and a word for each
/// integer, in the order of the signature.
pub struct Inputs {
    pub columns: Columns,
    pub planes: Vec<u64>,
    pub words: Vec<LaneWord>,
    /// The Booleans of each lane at some instants, a word for 64 of them; see `loads`.
    pub rows: Vec<u64>,
    // The number of instants whose Booleans have room there.
    pub(crate) reach: u32,
    // The integers of consecutive instants; see `ahead`.
    pub(crate) room: Vec<LaneWord>,
    pub ghost planes_room: { length planes.items ≡ columns.truths },
    pub ghost words_room: { length words.items ≡ columns.numbers },
    pub(crate) ghost some: { 0 < reach },
    pub ghost rows_room: { 72 * (reach * words_of_row columns.truths) ≤ length rows.items },
}

// Not derived, so that a caller drops it in one step.
impl Drop for Inputs {
    fn drop(self) {
        let Inputs {
            columns: _,
            planes: _,
            words: _,
            rows: _,
            reach: _,
            room: _,
        } = self;
    }
}

// The number of instants whose Booleans are read in one go, where one instant takes `width` words.
// The fewer words, the more instants, since the next words are in the cache already.
fn reach_of(width: usize) -> u32
    ensures some { 0 < result }
    ensures room { result * width ≤ 8 * width + 248 }
{
    match width {
        0 | 1 => 256,
        2..=4 => 64,
        _ => 8,
    }
}

impl Inputs {
    ghost use Rattle.lb_sim.specs.Inputs.{inputs_row, IsAhead};

    /// Rows of 0 and false for the inputs of a program.
    pub fn new(alloc: Global, program: &LaneProgram<'_>) -> Result<Inputs, AllocError>
        ensures kinds { IfOk result (λ x.
            x.columns.kinds.items ≡ program.now.program.now.inputs.items) }
        ensures zero { IfOk result (λ x. (i : ℕ) → i < 64
            → inputs_row x i ≡ map zero_of program.now.program.now.inputs.items) }
    {
        Inputs::of_kinds(alloc, program.program.inputs.as_slice())
    }

    // Rows of 0 and false for inputs of these kinds.
    pub(crate) fn of_kinds(alloc: Global, kinds: &[Kind]) -> Result<Inputs, AllocError>
        ensures kinds { IfOk result (λ x. x.columns.kinds.items ≡ kinds.now) }
        ensures zero { IfOk result (λ x.
            (i : ℕ) → i < 64 → inputs_row x i ≡ map zero_of kinds.now) }
    {
        let columns = Columns::new(alloc, kinds)?;
        let planes = vec![in alloc; 0u64; columns.truths]?;
        let words = zeros(alloc, columns.numbers)?;
        let width = groups_of(columns.truths);
        let reach = reach_of(width);
        let rows = vec![in alloc; 0u64; 72 * (reach as usize * width)]?;
        let room = zeros(alloc, 65 * columns.numbers.min(MOST_AHEAD))?;
        Ok(Inputs {
            columns,
            planes,
            words,
            rows,
            reach,
            room,
        })
    }

    /// Loads the cells of instant `t`: for each live lane `i` the cells of trace `members[i]`.
    pub fn load(&mut self, set: &TraceSet, members: &[u32], t: u32, live: Plane)
        requires kinds { kinds_of set.now.signature ≡ self.old.columns.kinds.items }
        requires members { All (λ k. k < length set.now.traces) members.now }
        requires few { length members.now ≤ 64 }
        requires live { HaveInstant set.now members.now [] t live.0 }
        ensures rows { (i : ℕ) → i < 64 → on live.0 i ≡ true
            → inputs_row self.new i ≡ get_or (inputs_of set.now (get_or members.now i 0)) t [] }
        ensures kinds { self.new.columns ≡ self.old.columns }
    {
        let _ = set.signature();
        let begins = [0u32; 64];
        let at = Instant {
            set,
            members,
            begins: &begins,
            t,
            live,
        };
        load_truths(&at, self.rows.as_mut_slice(), self.planes.as_mut_slice());
        let columns = &self.columns;
        let places = columns.every_number.as_slice();
        load_numbers(&at, places, self.words.as_mut_slice());
    }

    // Loads the cells of an instant that a program reads; other inputs of the rows may be anything.
    // The instant may be loaded already. The result says what is loaded afterwards.
    pub(crate) fn load_read(
        &mut self,
        read: &ReadInputs,
        at: &InstantRange<'_, '_>,
        last: Loaded,
    ) -> Loaded
        requires kinds { kinds_of at.now.at.set.now.signature ≡ self.old.columns.kinds.items }
        requires within { All (λ w. w < length (number_columns 0 self.old.columns.kinds.items))
            read.now.numbers.items }
        requires last { IsAhead at.now.at.set.now at.now.at.members.now at.now.at.begins.now
            read.now.numbers.items self.old at.now.at.t at.now.at.live.0 last }
        ensures rows { (i : ℕ) → i < 64 → on at.now.at.live.0 i ≡ true
            → AreAlike (places_of 2 1 self.old.columns.kinds.items) read.now.numbers.items
            read.now.truths (inputs_row self.new i)
            (get_or (inputs_of at.now.at.set.now (get_or at.now.at.members.now i 0))
            (instant_in at.now.at.begins.now at.now.at.t i) []) }
        ensures kinds { self.new.columns ≡ self.old.columns }
        ensures ahead { IsAhead at.now.at.set.now at.now.at.members.now at.now.at.begins.now
            read.now.numbers.items self.new at.now.at.t at.now.at.live.0 result }
    {
        let _ = at.at.set.signature();
        let reach = self.reach;
        let (rows, planes) = (self.rows.as_mut_slice(), self.planes.as_mut_slice());
        let truths = load_truths_ahead(at, read.truths, reach, rows, last.truths, planes);
        let (room, words) = (self.room.as_mut_slice(), self.words.as_mut_slice());
        let places = read.numbers.as_slice();
        let numbers = load_ahead(at, places, room, last.numbers, words);
        Loaded { numbers, truths }
    }

    // Copies the rows to the inputs of a lane program, behind the places that are the same
    // everywhere.
    pub(crate) fn put_instant(&self, planes: &mut [u64], words: &mut [LaneWord])
        requires planes_room { 2 + length self.now.planes.items ≤ length planes.old }
        requires words_room { 1 + length self.now.words.items ≤ length words.old }
        ensures planes { length planes.new ≡ length planes.old }
        ensures words { length words.new ≡ length words.old }
        ensures rows { (i : ℕ) → i < 64
            → map (value_at (lane_at planes.new words.new i))
            (places_of 2 1 self.now.columns.kinds.items) ≡ inputs_row self.now i }
        ensures first_planes { (k : ℕ) → k < 2
            → slice_index planes.new k ≡ slice_index planes.old k }
        ensures first_words { (k : ℕ) → k < 1
            → slice_index_or words.new k [] ≡ slice_index_or words.old k [] }
        ensures other_planes { (k : ℕ) → 2 + length self.now.planes.items ≤ k
            → slice_index planes.new k ≡ slice_index planes.old k }
        ensures other_words { (k : ℕ) → 1 + length self.now.words.items ≤ k
            → slice_index_or words.new k [] ≡ slice_index_or words.old k [] }
    {
        copy_planes(planes, 2, self.planes.as_slice());
        copy_words(words, 1, self.words.as_slice());
    }
}
