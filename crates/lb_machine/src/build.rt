//! Building code: each call returns the plane or the word of a result, and adds an instruction
//! where one is needed.

ghost use Rattle.std.specs.Prelude.{◌≡◌, ◌<◌, ◌≤◌, ◌+◌, ◌++◌, [], ◌∷◌, IfOk, IfSome, OnOk};
ghost use Rattle.std.specs.Prelude.{if◌then◌else◌};
ghost use Rattle.lb_lanes.specs.Operators.{result_of};
ghost use Rattle.lb_machine.specs.Listed.{listed, EndsWith};
ghost use Rattle.lb_machine.specs.Meaning.{combined, compared};
ghost use Rattle.lb_machine.specs.Straight.{planes_after, words_after, IsNext};
ghost use Rattle.lb_machine.specs.declared.instruction.Instruction.TheVariants.{Compare};
ghost use Rattle.lb_machine.specs.declared.instruction.PlaneOperator.TheVariants.{Xor};

use crate::code::Code;
use crate::instruction::{
    Comparison, FALSE_PLANE, Instruction, PlaneId, PlaneOperator, TRUE_PLANE, WordId,
};
use crate::instructions::{Choice, Instructions};
use crate::known::{known_blend, known_choice};
use lb_lanes::IntOperator;
use std::alloc::{AllocError, Global};

impl Code {
    ghost use Rattle.lb_machine.specs.Correct.{AddsAtMost, AreResultsFor, HasRoom};
    ghost use Rattle.lb_machine.specs.Correct.{IsGrown, IsPlaneFor, IsWordFor};

    /// Code without instructions, over planes and words that are there before it runs.
    pub fn new(alloc: Global, first_plane: u32, first_word: u32) -> Code
        requires constants { 2 ≤ first_plane }
        requires zero { 1 ≤ first_word }
        ensures first_plane { result.first_plane ≡ first_plane }
        ensures first_word { result.first_word ≡ first_word }
        ensures planes { result.planes ≡ first_plane }
        ensures words { result.words ≡ first_word }
        ensures none { listed result.instructions ≡ [] }
    {
        Code {
            first_plane,
            first_word,
            planes: first_plane,
            words: first_word,
            instructions: Instructions::new(alloc),
        }
    }

    // Appends an instruction that writes the next plane.
    fn push_plane(&mut self, i: Instruction) -> Result<(), AllocError>
        requires next { IsNext self.old.planes self.old.words i }
        requires plane { planes_after self.old.planes i ≡ self.old.planes + 1 }
        requires no_word { words_after self.old.words i ≡ self.old.words }
        requires room { HasRoom self.old 1 }
        ensures first_plane { self.new.first_plane ≡ self.old.first_plane }
        ensures first_word { self.new.first_word ≡ self.old.first_word }
        ensures planes { OnOk result (self.new.planes ≡ self.old.planes + 1) }
        ensures words { self.new.words ≡ self.old.words }
        ensures last { OnOk result (listed self.new.instructions
            ≡ listed self.old.instructions ++ i ∷ []) }
    {
        self.instructions.push(i)?;
        self.planes += 1;
        Ok(())
    }

    // Appends an instruction that writes the next word.
    fn push_word(&mut self, i: Instruction) -> Result<(), AllocError>
        requires next { IsNext self.old.planes self.old.words i }
        requires no_plane { planes_after self.old.planes i ≡ self.old.planes }
        requires word { words_after self.old.words i ≡ self.old.words + 1 }
        requires room { HasRoom self.old 1 }
        ensures first_plane { self.new.first_plane ≡ self.old.first_plane }
        ensures first_word { self.new.first_word ≡ self.old.first_word }
        ensures planes { self.new.planes ≡ self.old.planes }
        ensures words { OnOk result (self.new.words ≡ self.old.words + 1) }
        ensures last { OnOk result (listed self.new.instructions
            ≡ listed self.old.instructions ++ i ∷ []) }
    {
        self.instructions.push(i)?;
        self.words += 1;
        Ok(())
    }

    /// A plane that holds the result of an operator on two planes.
    pub fn combine(
        &mut self,
        op: PlaneOperator,
        a: PlaneId,
        b: PlaneId,
    ) -> Result<PlaneId, AllocError>
        requires left { a.0 < self.old.planes }
        requires right { b.0 < self.old.planes }
        requires room { HasRoom self.old 2 }
        ensures grown { OnOk result (IsGrown self.old self.new) }
        ensures few { OnOk result (AddsAtMost self.old self.new 2) }
        ensures plane { IfOk result (IsPlaneFor self.new
            (λ s. combined op (s.bits a.0) (s.bits b.0))) }
    {
        let plane = match op {
            PlaneOperator::And => self.select(a, b, FALSE_PLANE)?,
            PlaneOperator::Or => self.select(a, TRUE_PLANE, b)?,
            PlaneOperator::AndNot => self.select(b, FALSE_PLANE, a)?,
            PlaneOperator::Xor => self.differ(a, b)?,
        };
        Ok(plane)
    }

    // A plane that is true where two planes differ.
    fn differ(&mut self, a: PlaneId, b: PlaneId) -> Result<PlaneId, AllocError>
        requires left { a.0 < self.old.planes }
        requires right { b.0 < self.old.planes }
        requires room { HasRoom self.old 2 }
        ensures grown { OnOk result (IsGrown self.old self.new) }
        ensures few { OnOk result (AddsAtMost self.old self.new 2) }
        ensures plane { IfOk result (IsPlaneFor self.new
            (λ s. combined Xor (s.bits a.0) (s.bits b.0))) }
    {
        let other = self.select(b, FALSE_PLANE, TRUE_PLANE)?;
        let plane = self.select(a, other, b)?;
        Ok(plane)
    }

    // A plane that is known to hold `a` where the mask is true, and `b` elsewhere.
    fn known_select(&self, mask: PlaneId, a: PlaneId, b: PlaneId) -> Option<PlaneId>
        ensures { IfSome result (λ p. p.0 < self.now.planes
            → IsPlaneFor self.now (λ s. if s.bits mask.0 then s.bits a.0 else s.bits b.0) p) }
    {
        if let Some(known) = known_choice(mask, a, b) {
            return Some(known);
        }
        self.instructions.last_choice(Choice { mask, a, b })
    }

    /// A plane that holds `a` where the mask is true, and `b` elsewhere.
    pub fn select(&mut self, mask: PlaneId, a: PlaneId, b: PlaneId) -> Result<PlaneId, AllocError>
        requires mask { mask.0 < self.old.planes }
        requires left { a.0 < self.old.planes }
        requires right { b.0 < self.old.planes }
        requires room { HasRoom self.old 1 }
        ensures grown { OnOk result (IsGrown self.old self.new) }
        ensures few { OnOk result (AddsAtMost self.old self.new 1) }
        ensures plane { IfOk result (IsPlaneFor self.new
            (λ s. if s.bits mask.0 then s.bits a.0 else s.bits b.0)) }
    {
        if let Some(known) = self.known_select(mask, a, b) {
            if known.0 < self.planes {
                return Ok(known);
            }
        }
        let out = PlaneId(self.planes);
        self.push_plane(Instruction::Select(mask, a, b, out))?;
        Ok(out)
    }

    /// A plane that is true where a test of two words passes.
    pub fn compare(&mut self, c: Comparison, a: WordId, b: WordId) -> Result<PlaneId, AllocError>
        requires left { a.0 < self.old.words }
        requires right { b.0 < self.old.words }
        requires room { HasRoom self.old 1 }
        ensures grown { OnOk result (IsGrown self.old self.new) }
        ensures few { OnOk result (AddsAtMost self.old self.new 1) }
        ensures plane { IfOk result (IsPlaneFor self.new
            (λ s. compared c (s.ints a.0) (s.ints b.0))) }
    {
        let out = PlaneId(self.planes);
        self.push_plane(Instruction::Compare(c, a, b, out))?;
        Ok(out)
    }

    /// A word that holds `a` where the mask is true, and `b` elsewhere.
    pub fn blend(&mut self, mask: PlaneId, a: WordId, b: WordId) -> Result<WordId, AllocError>
        requires mask { mask.0 < self.old.planes }
        requires left { a.0 < self.old.words }
        requires right { b.0 < self.old.words }
        requires room { HasRoom self.old 1 }
        ensures grown { OnOk result (IsGrown self.old self.new) }
        ensures few { OnOk result (AddsAtMost self.old self.new 1) }
        ensures word { IfOk result (IsWordFor self.new
            (λ s. if s.bits mask.0 then s.ints a.0 else s.ints b.0)) }
    {
        if let Some(known) = known_blend(mask, a, b) {
            return Ok(known);
        }
        let out = WordId(self.words);
        if let Some(test) = self.instructions.last_test(mask) {
            self.choose_by(test, mask, a, b, out);
            return Ok(out);
        }
        self.push_word(Instruction::Blend(mask, a, b, out))?;
        Ok(out)
    }

    // Replaces the last instruction, a test that writes `mask`, by a test that also writes `out`.
    fn choose_by(
        &mut self,
        test: (Comparison, WordId, WordId),
        mask: PlaneId,
        a: WordId,
        b: WordId,
        out: WordId,
    )
        requires ends { EndsWith self.old.instructions (Compare test.0 test.1 test.2 mask) }
        requires left { a.0 < self.old.words }
        requires right { b.0 < self.old.words }
        requires next { out.0 ≡ self.old.words }
        requires room { HasRoom self.old 1 }
        ensures grown { IsGrown self.old self.new }
        ensures few { AddsAtMost self.old self.new 1 }
        ensures word { IsWordFor self.new (λ s. if s.bits mask.0 then s.ints a.0 else s.ints b.0)
            out }
    {
        let choose = Instruction::Choose(test.0, test.1, test.2, a, b, mask, out);
        self.instructions.put_last(choose);
        self.words += 1;
    }

    /// A word that holds the result of an operator on two words in the lanes where none of the
    /// three planes is true, and a plane that is true where `left` or `right` is, or where the
    /// operator has a fault. `left` and `right` are the planes of the operands' faults.
    pub fn operate(
        &mut self,
        op: IntOperator,
        a: WordId,
        b: WordId,
        idle: PlaneId,
        left: PlaneId,
        right: PlaneId,
    ) -> Result<(WordId, PlaneId), AllocError>
        requires a { a.0 < self.old.words }
        requires b { b.0 < self.old.words }
        requires idle { idle.0 < self.old.planes }
        requires left { left.0 < self.old.planes }
        requires right { right.0 < self.old.planes }
        requires room { HasRoom self.old 2 }
        ensures grown { OnOk result (IsGrown self.old self.new) }
        ensures few { OnOk result (AddsAtMost self.old self.new 2) }
        ensures results { IfOk result (λ r. AreResultsFor self.new
            (λ s. result_of op (s.ints a.0) (s.ints b.0)) idle left right r.0 r.1) }
    {
        let out = WordId(self.words);
        let faults = PlaneId(self.planes);
        let operate = Instruction::Operate(op, a, b, idle, left, right, out, faults);
        self.instructions.push(operate)?;
        self.planes += 1;
        self.words += 1;
        Ok((out, faults))
    }

    /// A copy of plane `a`, among the planes that the code itself writes.
    pub fn copy_plane(&mut self, a: PlaneId) -> Result<PlaneId, AllocError>
        requires plane { a.0 < self.old.planes }
        requires room { HasRoom self.old 1 }
        ensures grown { OnOk result (IsGrown self.old self.new) }
        ensures few { OnOk result (AddsAtMost self.old self.new 1) }
        ensures plane { IfOk result (IsPlaneFor self.new (λ s. s.bits a.0)) }
        ensures own { IfOk result (λ p. self.new.first_plane ≤ p.0) }
    {
        let out = PlaneId(self.planes);
        self.push_plane(Instruction::Select(TRUE_PLANE, a, a, out))?;
        Ok(out)
    }

    /// A copy of word `a`, among the words that the code itself writes.
    pub fn copy_word(&mut self, a: WordId) -> Result<WordId, AllocError>
        requires word { a.0 < self.old.words }
        requires room { HasRoom self.old 1 }
        ensures grown { OnOk result (IsGrown self.old self.new) }
        ensures few { OnOk result (AddsAtMost self.old self.new 1) }
        ensures word { IfOk result (IsWordFor self.new (λ s. s.ints a.0)) }
        ensures own { IfOk result (λ w. self.new.first_word ≤ w.0) }
    {
        let out = WordId(self.words);
        self.push_word(Instruction::Blend(FALSE_PLANE, a, a, out))?;
        Ok(out)
    }
}
