//! Code that has been put together.

ghost use Rattle.std.specs.Prelude.{◌≤◌};
ghost use Rattle.lb_machine.specs.Listed.{listed};
ghost use Rattle.lb_machine.specs.Straight.{IsStraight, straight_prop};

use crate::instructions::Instructions;

/// Instructions, each of which writes the next plane or the next word, or one of each.
///
/// The first planes and words are there before the code runs; of these the first plane is false in
/// each lane, the second is true, and the first word is 0.
#[derive(Drop)]
pub struct Code {
    pub first_plane: u32,
    pub first_word: u32,
    /// The numbers of planes and of words once the code has run.
    pub planes: u32,
    pub words: u32,
    pub instructions: Instructions,
    pub ghost straight: { IsStraight first_plane first_word (listed instructions)
        planes words } by { straight_prop first_plane first_word (listed instructions)
            planes words },
    pub ghost constants: { 2 ≤ first_plane },
    pub ghost zero: { 1 ≤ first_word },
    pub ghost more_planes: { first_plane ≤ planes },
    pub ghost more_words: { first_word ≤ words },
}
