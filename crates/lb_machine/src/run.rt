//! The run of code in many lanes at once.

ghost use Rattle.std.specs.Prelude.{◌≡◌, ◌≢◌, ℕ, ◌<◌, ◌≤◌, length, slice_index, slice_index_or, []};
ghost use Rattle.lb_lanes.specs.Kernels.{IsBlendBelow, IsKernelBelow, lane_of, lanes_in};
ghost use Rattle.lb_lanes.specs.Operators.{result_of};
ghost use Rattle.lb_lanes.specs.Planes.{IsPlaneBelow, on};
ghost use Rattle.lb_machine.specs.Listed.{listed, select_at};
ghost use Rattle.lb_machine.specs.Meaning.{compared, lane_at, IsDone};
ghost use Rattle.lb_machine.specs.Straight.{IsFit, KeepsPlane, KeepsWord};

use crate::code::Code;
use crate::instruction::{Comparison, Instruction, PlaneId, WordId};
use crate::instructions::Choice;
use lb_lanes::{IntOperator, LaneWord, Plane, Width};

// A plane by its number.
fn plane(planes: &[u64], p: PlaneId) -> Plane
    requires { p.0 < length planes.now }
    ensures { result.0 ≡ slice_index planes.now p.0 }
{
    Plane(planes[p.0 as usize])
}

fn compared(c: Comparison, a: &LaneWord, b: &LaneWord, width: Width) -> Plane
    ensures { IsPlaneBelow (lanes_in width)
        (λ i. compared c (lane_of a.now i) (lane_of b.now i)) result.0 }
{
    match c {
        Comparison::Equal => a.eq(b, width),
        Comparison::Below => a.lt(b, width),
        Comparison::AtMost => a.le(b, width),
    }
}

// Writes the result of an operator to word `out` behind its operands, and returns its faults.
fn operate(
    op: IntOperator,
    a: WordId,
    b: WordId,
    active: Plane,
    width: Width,
    out: WordId,
    words: &mut [LaneWord],
) -> Plane
    requires left { a.0 < out.0 }
    requires right { b.0 < out.0 }
    requires room { out.0 < length words.old }
    ensures words { length words.new ≡ length words.old }
    ensures lanes { IsKernelBelow (lanes_in width) (result_of op)
        (lane_of (slice_index_or words.old a.0 [])) (lane_of (slice_index_or words.old b.0 []))
        active.0 (lane_of (slice_index_or words.new out.0 [])) result.0 }
    ensures others { (k : ℕ) → k ≢ out.0
        → slice_index_or words.new k [] ≡ slice_index_or words.old k [] }
{
    let (before, after) = words.split_at_mut(out.0 as usize);
    before[a.0 as usize].operate(op, &before[b.0 as usize], active, width, &mut after[0])
}

// Blends words `a` and `b` into word `out`, which lies behind them.
fn blend(mask: Plane, a: WordId, b: WordId, width: Width, out: WordId, words: &mut [LaneWord])
    requires left { a.0 < out.0 }
    requires right { b.0 < out.0 }
    requires room { out.0 < length words.old }
    ensures words { length words.new ≡ length words.old }
    ensures lanes { IsBlendBelow (lanes_in width) mask.0
        (lane_of (slice_index_or words.old a.0 [])) (lane_of (slice_index_or words.old b.0 []))
        (lane_of (slice_index_or words.new out.0 [])) }
    ensures others { (k : ℕ) → k ≢ out.0
        → slice_index_or words.new k [] ≡ slice_index_or words.old k [] }
{
    let (before, after) = words.split_at_mut(out.0 as usize);
    after[0].set_blend(mask, &before[a.0 as usize], &before[b.0 as usize], width);
}

// Writes to word `out`, lane by lane, `a` where a test of `x` and `y` passes and `b` elsewhere, and
// returns the lanes that pass. `out` lies behind the other words.
fn choose_word(
    c: Comparison,
    x: WordId,
    y: WordId,
    a: WordId,
    b: WordId,
    width: Width,
    out: WordId,
    words: &mut [LaneWord],
) -> Plane
    requires first { x.0 < out.0 }
    requires second { y.0 < out.0 }
    requires left { a.0 < out.0 }
    requires right { b.0 < out.0 }
    requires room { out.0 < length words.old }
    ensures words { length words.new ≡ length words.old }
    ensures plane { IsPlaneBelow (lanes_in width)
        (λ i. compared c (lane_of (slice_index_or words.old x.0 []) i)
        (lane_of (slice_index_or words.old y.0 []) i)) result.0 }
    ensures lanes { IsBlendBelow (lanes_in width) result.0
        (lane_of (slice_index_or words.old a.0 [])) (lane_of (slice_index_or words.old b.0 []))
        (lane_of (slice_index_or words.new out.0 [])) }
    ensures others { (k : ℕ) → k ≢ out.0
        → slice_index_or words.new k [] ≡ slice_index_or words.old k [] }
{
    let (before, after) = words.split_at_mut(out.0 as usize);
    let (x, y) = (&before[x.0 as usize], &before[y.0 as usize]);
    let (a, b) = (&before[a.0 as usize], &before[b.0 as usize]);
    match c {
        Comparison::Equal => after[0].set_where_eq(x, y, a, b, width),
        Comparison::Below => after[0].set_where_lt(x, y, a, b, width),
        Comparison::AtMost => after[0].set_where_le(x, y, a, b, width),
    }
}

// Does a choice in all lanes.
fn choose(c: Choice, out: usize, planes: &mut [u64])
    requires { IsFit (length planes.old) 0 (select_at out c) }
    ensures planes { length planes.new ≡ length planes.old }
    ensures done { (lane : ℕ) → lane < 64 → IsDone (lane_at planes.new [] lane) (select_at out c) }
    ensures other_planes { (k : ℕ) → k ≢ out
        → slice_index planes.new k ≡ slice_index planes.old k }
{
    let made = Plane::select(
        plane(planes, c.mask),
        plane(planes, c.a),
        plane(planes, c.b),
    );
    planes[out] = made.0;
}

// Does one instruction in the lanes of a width.
fn execute(i: Instruction, width: Width, planes: &mut [u64], words: &mut [LaneWord])
    requires { IsFit (length planes.old) (length words.old) i }
    ensures planes { length planes.new ≡ length planes.old }
    ensures words { length words.new ≡ length words.old }
    ensures done { (lane : ℕ) → lane < lanes_in width
        → IsDone (lane_at planes.new words.new lane) i }
    ensures other_planes { (k : ℕ) → KeepsPlane i k
        → slice_index planes.new k ≡ slice_index planes.old k }
    ensures other_words { (k : ℕ) → KeepsWord i k
        → slice_index_or words.new k [] ≡ slice_index_or words.old k [] }
{
    match i {
        Instruction::Select(mask, a, b, out) => {
            choose(Choice { mask, a, b }, out.0 as usize, planes);
        }
        Instruction::Compare(c, a, b, out) => {
            let made = compared(c, &words[a.0 as usize], &words[b.0 as usize], width);
            planes[out.0 as usize] = made.0;
        }
        Instruction::Operate(op, a, b, idle, left, right, out, faults) => {
            let before = plane(planes, left).or(plane(planes, right));
            let active = plane(planes, idle).or(before).not();
            let made = before.or(operate(op, a, b, active, width, out, words));
            planes[faults.0 as usize] = made.0;
        }
        Instruction::Blend(mask, a, b, out) => blend(plane(planes, mask), a, b, width, out, words),
        Instruction::Choose(c, x, y, a, b, passed, out) => {
            let made = choose_word(c, x, y, a, b, width, out, words);
            planes[passed.0 as usize] = made.0;
        }
    }
}

impl Code {
    ghost use Rattle.lb_machine.specs.Correct.{AreDoneInLanes};

    /// Runs the code in the lanes of `width`: afterwards each instruction is done in each of them,
    /// and the planes and words before the code's own are as they were. The slices may be longer
    /// than the code needs.
    pub fn run(&self, planes: &mut [u64], words: &mut [LaneWord], width: Width)
        requires planes { self.now.planes ≤ length planes.old }
        requires words { self.now.words ≤ length words.old }
        ensures planes { length planes.new ≡ length planes.old }
        ensures words { length words.new ≡ length words.old }
        ensures done { AreDoneInLanes (lanes_in width) (listed self.now.instructions) planes.new
            words.new }
        ensures first_planes { (k : ℕ) → k < self.now.first_plane
            → slice_index planes.new k ≡ slice_index planes.old k }
        ensures first_words { (k : ℕ) → k < self.now.first_word
            → slice_index_or words.new k [] ≡ slice_index_or words.old k [] }
    {
        'outer: for j in 0..self.instructions.blocks.len() {
            let block = &self.instructions.blocks[j];
            let first = block.first as usize;
            let row = block.choices.as_slice();
            'choices: for k in 0..row.len() {
                choose(row[k], first + k, planes);
            }
            execute(block.last, width, planes, words);
        }
        let start = self.instructions.first as usize;
        let behind = self.instructions.choices.as_slice();
        'rest: for k in 0..behind.len() {
            choose(behind[k], start + k, planes);
        }
    }
}
