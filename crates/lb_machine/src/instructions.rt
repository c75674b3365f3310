//! Instructions as they lie in memory: mostly choices between planes, side by side.
//!
//! ```text
//! 7 := if 4 then 5 else 6     block    first 7  choices  4 5 6, 7 2 6
//! 8 := if 7 then 2 else 6              last     Operate(Add, 1, 2, 0, 0, 0, 3, 9)
//! word 3 := 1 + 2
//! 10 := if 9 then 8 else 7    first 10  choices  9 8 7
//! ```
//!
//! The choices of a row write planes that follow one another. A choice takes 12 bytes, any other
//! instruction 32; and a row of choices runs without a look at the kind of each instruction.

ghost use Rattle.std.specs.Prelude.{◌≡◌, ℕ, [], ◌∷◌, ◌++◌, ◌⊎◌, true, false, length};
ghost use Rattle.std.specs.Prelude.{◌<◌, IfOk, IfSome, OnOk, OnErr};
ghost use Rattle.std.specs.List.{AllByRecursion};
ghost use Rattle.lb_machine.specs.Listed.{before_last, listed, select_at, unpacked, EndsWith};
ghost use Rattle.lb_machine.specs.Meaning.{IsDone, Lane};
ghost use Rattle.lb_machine.specs.declared.instruction.Instruction.TheVariants.{Compare};

use crate::instruction::{Comparison, Instruction, PlaneId, WordId};
use std::alloc::{AllocError, Global};
use std::mem::replace;

// The number of last choices among which an equal one is searched.
const LAST_CHOICES: usize = 64;

/// [`Instruction::Select`] alone, without the plane that is written.
#[derive(Clone, Copy)]
pub struct Choice {
    pub mask: PlaneId,
    pub a: PlaneId,
    pub b: PlaneId,
}

// Whether two choices are the same, but for the planes that they write.
fn are_same(x: Choice, y: Choice) -> bool
    ensures { result ≡ true → (s : Lane) (out : ℕ) → IsDone s (select_at out x)
        → IsDone s (select_at out y) }
{
    x.mask.0 == y.mask.0 && x.a.0 == y.a.0 && x.b.0 == y.b.0
}

/// Choices, which write the planes from a first one on, and an instruction after them.
#[derive(Drop)]
pub struct Block {
    pub first: u32,
    pub choices: Vec<Choice>,
    pub last: Instruction,
}

/// Instructions in their order.
#[derive(Drop)]
pub struct Instructions {
    pub blocks: Vec<Block>,
    /// The choices behind the last block, and the plane that the first of them writes.
    pub first: u32,
    pub choices: Vec<Choice>,
}

// Replaces the last instruction of the last block by `i`.
fn put_behind(blocks: &mut [Block], i: Instruction)
    requires { 0 < length blocks.old }
    ensures { (first : ℕ) → unpacked blocks.new first [] ≡ before_last blocks.old ++ i ∷ [] }
{
    let at = blocks.len() - 1;
    blocks[at].last = i;
}

impl Instructions {
    /// No instructions.
    pub(crate) fn new(alloc: Global) -> Instructions
        ensures { listed result ≡ [] }
    {
        Instructions {
            blocks: Vec::new(alloc),
            first: 0,
            choices: Vec::new(alloc),
        }
    }

    // The plane that the first choice behind the last block writes, once a choice that writes
    // `out` is pushed.
    fn first_with(&self, out: PlaneId) -> u32
        ensures { (length self.now.choices.items ≡ 0) ⊎ (result ≡ self.now.first) }
    {
        if self.choices.len() == 0 {
            out.0
        } else {
            self.first
        }
    }

    // Appends a choice to the row behind the last block, if `out` is the next plane of the row.
    fn push_choice(&mut self, c: Choice, out: PlaneId) -> Result<bool, AllocError>
        ensures pushed { IfOk result (λ done. done ≡ true
            → listed self.new ≡ listed self.old ++ select_at out.0 c ∷ []) }
        ensures other { IfOk result (λ done. done ≡ false → listed self.new ≡ listed self.old) }
        ensures same { OnErr result (listed self.new ≡ listed self.old) }
    {
        let first = self.first_with(out);
        if first as usize + self.choices.len() != out.0 as usize {
            return Ok(false);
        }
        self.choices.push(c)?;
        self.first = first;
        Ok(true)
    }

    // Appends an instruction that ends the row of choices, and with it makes a block.
    fn push_last(&mut self, last: Instruction) -> Result<(), AllocError>
        ensures items { OnOk result (listed self.new ≡ listed self.old ++ last ∷ []) }
        ensures same { OnErr result (listed self.new ≡ listed self.old) }
    {
        self.blocks.reserve(1)?;
        let alloc = *self.choices.allocator();
        let choices = replace(&mut self.choices, Vec::new(alloc));
        let first = self.first;
        self.blocks.push_reserved(Block {
            first,
            choices,
            last,
        });
        Ok(())
    }

    /// The plane of a choice equal to `c`, if one is among the last choices behind the last block.
    pub(crate) fn last_choice(&self, c: Choice) -> Option<PlaneId>
        ensures { IfSome result (λ p. (s : Lane) → AllByRecursion (IsDone s) (listed self.now)
            → IsDone s (select_at p.0 c)) }
    {
        let count = self.choices.len();
        for j in 0..count.min(LAST_CHOICES) {
            let k = count - 1 - j;
            let out = self.first as usize + k;
            if are_same(self.choices[k], c) && out < 4294967296 {
                return Some(PlaneId(out as u32));
            }
        }
        None
    }

    /// The comparison and the words of the last instruction, if it is a test that writes `passed`.
    pub(crate) fn last_test(&self, passed: PlaneId) -> Option<(Comparison, WordId, WordId)>
        ensures { IfSome result (λ t. EndsWith self.now (Compare t.0 t.1 t.2 passed)) }
    {
        let count = self.blocks.len();
        if count == 0 || self.choices.len() != 0 {
            return None;
        }
        match self.blocks[count - 1].last {
            Instruction::Compare(c, x, y, out) if out.0 == passed.0 => Some((c, x, y)),
            _ => None,
        }
    }

    /// Replaces the last instruction, which ends a block, by `i`.
    pub(crate) fn put_last(&mut self, i: Instruction)
        requires no_choice { length self.old.choices.items ≡ 0 }
        requires some { 0 < length self.old.blocks.items }
        ensures { listed self.new ≡ before_last self.old.blocks.items ++ i ∷ [] }
    {
        put_behind(self.blocks.as_mut_slice(), i);
    }

    /// Appends an instruction.
    pub(crate) fn push(&mut self, i: Instruction) -> Result<(), AllocError>
        ensures items { OnOk result (listed self.new ≡ listed self.old ++ i ∷ []) }
        ensures same { OnErr result (listed self.new ≡ listed self.old) }
    {
        if let Instruction::Select(mask, a, b, out) = i {
            if self.push_choice(Choice { mask, a, b }, out)? {
                return Ok(());
            }
        }
        self.push_last(i)
    }
}
