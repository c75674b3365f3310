//! Planes that are within others: where the inner plane is true, the outer one is.
//!
//! ```text
//! word 3 := 1 + 2, with the faults of 7 and 8 in 9     7 and 8 are within 9
//! 10 := if 9 then everywhere else 6                    9 and 6 are within 10
//! ```

ghost use Rattle.std.specs.Prelude.{◌≡◌, ◌⊎◌, ℕ, true, false, slice_index_or};
ghost use Rattle.std.specs.List.{AllByRecursion};
ghost use Rattle.lb_machine.specs.Listed.{listed, select_at, selects_from};
ghost use Rattle.lb_machine.specs.Meaning.{Lane, HasConstants, HasRun, IsDone};
ghost use Rattle.lb_machine.specs.Within.{AreUnder};

use crate::code::Code;
use crate::instruction::{Instruction, PlaneId, TRUE_PLANE};
use crate::instructions::{Block, Choice};

// Whether the plane of a number is marked.
fn is_marked(marked: &[bool], p: usize) -> bool
    ensures { result ≡ true → slice_index_or marked.now p false ≡ true }
{
    p < marked.len() && marked[p]
}

// Marks a plane, where there is room for it.
fn mark(marked: &mut [bool], p: PlaneId)
    ensures { (k : ℕ) → slice_index_or marked.new k false ≡ true
        → (k ≡ p.0) ⊎ (slice_index_or marked.old k false ≡ true) }
{
    let at = p.0 as usize;
    if at < marked.len() {
        marked[at] = true;
    }
}

// Marks in `inner` planes `a` and `b`, which are within `p`, if `p` is marked in either list.
fn mark_both(outer: &[bool], inner: &mut [bool], p: usize, a: PlaneId, b: PlaneId)
    ensures { (s : Lane) (q : ℕ) → (s.bits a.0 ≡ true → s.bits p ≡ true)
        → (s.bits b.0 ≡ true → s.bits p ≡ true) → AreUnder s outer.now q
        → AreUnder s inner.old q → AreUnder s inner.new q }
{
    if is_marked(outer, p) || is_marked(inner, p) {
        mark(inner, a);
        mark(inner, b);
    }
}

// Marks planes that are within the plane of a choice, if that plane is marked.
fn mark_choice(outer: &[bool], inner: &mut [bool], c: Choice, out: usize)
    ensures { (s : Lane) (q : ℕ) → HasConstants s → IsDone s (select_at out c)
        → AreUnder s outer.now q → AreUnder s inner.old q → AreUnder s inner.new q }
{
    if c.a.0 == TRUE_PLANE.0 {
        mark_both(outer, inner, out, c.mask, c.b);
    }
}

// Marks the planes of an operator's operand faults, if the plane of its own faults is marked.
fn mark_operands(outer: &[bool], inner: &mut [bool], i: Instruction)
    ensures { (s : Lane) (q : ℕ) → IsDone s i → AreUnder s outer.now q
        → AreUnder s inner.old q → AreUnder s inner.new q }
{
    if let Instruction::Operate(_, _, _, _, left, right, _, faults) = i {
        mark_both(outer, inner, faults.0 as usize, left, right);
    }
}

// `mark_choice` for each of the choices, which write the planes from `first` on.
fn mark_choices(outer: &[bool], inner: &mut [bool], first: u32, choices: &[Choice])
    ensures { (s : Lane) (q : ℕ) → HasConstants s
        → AllByRecursion (IsDone s) (selects_from first choices.now)
        → AreUnder s outer.now q → AreUnder s inner.old q → AreUnder s inner.new q }
{
    for j in 0..choices.len() {
        let k = choices.len() - 1 - j;
        mark_choice(outer, inner, choices[k], first as usize + k);
    }
}

// Whether plane `inner` is within the plane that a choice writes.
fn joins(c: Choice, inner: PlaneId) -> bool
    ensures { result ≡ true → (s : Lane) (out : ℕ) → HasConstants s
        → IsDone s (select_at out c) → s.bits inner.0 ≡ true → s.bits out ≡ true }
{
    c.a.0 == TRUE_PLANE.0 && (c.mask.0 == inner.0 || c.b.0 == inner.0)
}

// Whether a choice of the block writes plane `outer`, and plane `inner` is within it.
fn is_joined(block: &Block, inner: PlaneId, outer: PlaneId) -> bool
    ensures { result ≡ true → (s : Lane) → HasConstants s
        → AllByRecursion (IsDone s) (selects_from block.now.first block.now.choices.items)
        → s.bits inner.0 ≡ true → s.bits outer.0 ≡ true }
{
    if outer.0 < block.first {
        return false;
    }
    let at = (outer.0 - block.first) as usize;
    at < block.choices.len() && joins(block.choices[at], inner)
}

impl Code {
    /// Whether the last block shows that plane `inner` is within plane `outer`: a choice of that
    /// block writes `outer`.
    pub fn is_within(&self, inner: PlaneId, outer: PlaneId) -> bool
        ensures { result ≡ true → (s : Lane) → HasRun (listed self.now.instructions) s
            → s.bits inner.0 ≡ true → s.bits outer.0 ≡ true }
    {
        let count = self.instructions.blocks.len();
        count > 0 && is_joined(&self.instructions.blocks[count - 1], inner, outer)
    }

    /// Marks in `inner` planes that are within a plane marked in either list: the faults of
    /// operands, and planes that are joined by `or`.
    pub fn mark_within(&self, outer: &[bool], inner: &mut [bool])
        ensures { (s : Lane) (q : ℕ) → HasRun (listed self.now.instructions) s
            → AreUnder s outer.now q → AreUnder s inner.old q → AreUnder s inner.new q }
    {
        let is = &self.instructions;
        mark_choices(outer, inner, is.first, is.choices.as_slice());
        for j in 0..is.blocks.len() {
            let block = &is.blocks[is.blocks.len() - 1 - j];
            mark_operands(outer, inner, block.last);
            mark_choices(outer, inner, block.first, block.choices.as_slice());
        }
    }
}
