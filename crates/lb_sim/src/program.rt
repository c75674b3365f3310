//! Lane programs.

ghost use Rattle.std.specs.Prelude.{◌≡◌, ◌<◌, [], true, false, length, replicate, All};
ghost use Rattle.lb_flat.specs.InOrder.{is_in_order};
ghost use Rattle.lb_flat.specs.Programs.{flat_equations, program_of, IsInRange};
ghost use Rattle.lb_sim.specs.Codes.{IsCodeOf};
ghost use Rattle.lb_sim.specs.InputRows.{number_columns, places_of};
ghost use Rattle.lb_sim.specs.ReadInputs.{LoadsReads};

use crate::place::{Holding, Place, Value, Watched};
use crate::read_inputs::ReadInputs;
use lb_flat::FlatProgram;
use lb_machine::{Code, PlaneId, WordId};

/// The code of an instant, the place of each element, the planes that the instant is judged by, and
/// what memories take over after it.
///
/// It stands for the program in each lane in which some planes of memories are false and some true.
pub struct LaneCode {
    pub code: Code,
    /// The place of each element.
    pub places: Vec<Place>,
    pub watched: Watched,
    /// The planes and words that the memories take over after an instant.
    pub plane_sources: Vec<PlaneId>,
    pub word_sources: Vec<WordId>,
    /// The planes of memories that the code takes to be false, and those that it takes to be true.
    pub clear: Vec<PlaneId>,
    pub set: Vec<PlaneId>,
}

// Not derived, so that a caller drops it in one step.
impl Drop for LaneCode {
    fn drop(self) {
        let LaneCode {
            code: _,
            places: _,
            watched: _,
            plane_sources: _,
            word_sources: _,
            clear: _,
            set: _,
        } = self;
    }
}

/// A flat program as code over planes and words, for up to 64 traces at once.
///
/// Planes and words stand in this order: the places that are the same everywhere, the inputs, the
/// constants, the memories, and then what the code writes.
pub struct LaneProgram<'a> {
    pub program: &'a FlatProgram,
    /// Code for any instant, which takes nothing for granted.
    pub general: LaneCode,
    /// Code for instants at which each first tick is over and no memory is nil.
    pub steady: LaneCode,
    /// The number of planes and of words that a run needs.
    pub planes: u32,
    pub words: u32,
    /// The value of each input of the signature.
    pub inputs: Vec<Value>,
    /// The holding of the memory of each element that has one.
    pub kept: Vec<Holding>,
    /// The planes and words before the code, as they are before the first instant, in each lane.
    pub start_planes: Vec<u64>,
    pub start_words: Vec<i32>,
    /// The first word of the constants, and the first plane and the first word of the memories.
    pub constant_word: u32,
    pub memory_plane: u32,
    pub memory_word: u32,
    /// The inputs that the program reads.
    pub(crate) read: ReadInputs,
    pub(crate) ghost read_within: { All (λ w. w < length (number_columns 0
        program.now.inputs.items)) read.numbers.items },
    pub(crate) ghost read_law: { ∥ LoadsReads (program_of program.now)
        (places_of 2 1 program.now.inputs.items) read.numbers.items read.truths ∥₁ },
    pub ghost in_range: { IsInRange program.now },
    pub ghost in_order: { is_in_order (replicate program.now.size false)
        (flat_equations program.now.clocks.items program.now.equations.items) ≡ true },
    pub ghost general_law: { ∥ IsCodeOf (program_of program.now) inputs.items kept.items
        start_planes.items start_words.items constant_word memory_plane memory_word planes words
        general ∥₁ },
    pub ghost steady_law: { ∥ IsCodeOf (program_of program.now) inputs.items kept.items
        start_planes.items start_words.items constant_word memory_plane memory_word planes words
        steady ∥₁ },
    pub ghost general_clear: { general.clear.items ≡ [] },
    pub ghost general_set: { general.set.items ≡ [] },
}

// Not derived, so that a caller drops it in one step.
impl Drop for LaneProgram<'_> {
    fn drop(self) {
        let LaneProgram {
            program: _,
            general: _,
            steady: _,
            planes: _,
            words: _,
            inputs: _,
            kept: _,
            start_planes: _,
            start_words: _,
            constant_word: _,
            memory_plane: _,
            memory_word: _,
            read: _,
        } = self;
    }
}
