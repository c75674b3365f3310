//! The parts of an instant of a batch: its start, the run of its code, its verdicts, and the
//! memories of the next instant.

ghost use Rattle.std.specs.Prelude.{◌≡◌, ℕ, ◌<◌, ◌≤◌, true, false, not, ◌&&◌, [], length, get_or};
ghost use Rattle.std.specs.Prelude.{nat_lt, pos, slice_index, slice_index_or};
ghost use Rattle.std.specs.Prelude.{if◌then◌else◌};
ghost use Rattle.lb_check.specs.declared.verdict.Verdict.TheVariants.{Passed};
ghost use Rattle.lb_lanes.specs.Kernels.{lane_of};
ghost use Rattle.lb_lanes.specs.Planes.{IsPlaneOf, on};
ghost use Rattle.lb_machine.specs.Meaning.{HasConstants, lane_at};
ghost use Rattle.lb_sim.specs.Compiled.{HasConstantWords};
ghost use Rattle.lb_sim.specs.InputRows.{begin_of, instant_in};
ghost use Rattle.lb_sim.specs.Inputs.{inputs_row};
ghost use Rattle.lb_sim.specs.LaneMoves.{IsMovedOn};
ghost use Rattle.lb_sim.specs.LaneStates.{IsCodeIn, IsComputed, is_passed};
ghost use Rattle.lb_sim.specs.States.{IsCarriedOver};
ghost use Rattle.lb_sim.specs.Watching.{lane_judged};

use crate::choice::code_for;
use crate::inputs::Inputs;
use crate::lane_bits::with_lane;
use crate::place::Watched;
use crate::program::{LaneCode, LaneProgram};
use lb_check::Verdict;
use lb_lanes::{LaneWord, Plane, Width};
use lb_machine::{PlaneId, carry_planes, carry_words};

// The first `lanes` lanes.
pub(crate) fn first_lanes(lanes: u32) -> Plane
    requires few { lanes ≤ 64 }
    ensures { IsPlaneOf (λ i. nat_lt i lanes) result.0 }
{
    let mut plane = 0u64;
    for lane in 0..lanes {
        plane = with_lane(plane, lane);
    }
    Plane(plane)
}

// Puts each number of `start` into the word at its place, in these lanes.
fn put_start_in(words: &mut [LaneWord], start: &[i32], lanes: Plane)
    requires room { length start.now ≤ length words.old }
    ensures words { length words.new ≡ length words.old }
    ensures put { (k i : ℕ) → k < length start.now → i < 64 → on lanes.0 i ≡ true
        → lane_of (slice_index_or words.new k []) i ≡ slice_index_or start.now k (pos 0) }
    ensures others { (k i : ℕ) → i < 64 → on lanes.0 i ≡ false
        → lane_of (slice_index_or words.new k []) i ≡ lane_of (slice_index_or words.old k []) i }
{
    for k in 0..start.len() {
        let number = LaneWord::splat(start[k]);
        let mut word = LaneWord::splat(0);
        word.set_blend(lanes, &number, &words[k], Width::all());
        words[k].copy_from(&word);
    }
}

// Copies these lanes of the planes of `from` to the first planes.
fn copy_lanes(planes: &mut [u64], from: &[u64], lanes: Plane)
    requires room { length from.now ≤ length planes.old }
    ensures planes { length planes.new ≡ length planes.old }
    ensures put { (k i : ℕ) → k < length from.now → i < 64 → on lanes.0 i ≡ true
        → on (slice_index planes.new k) i ≡ on (slice_index from.now k) i }
    ensures others { (k i : ℕ) → i < 64 → on lanes.0 i ≡ false
        → on (slice_index planes.new k) i ≡ on (slice_index planes.old k) i }
{
    for k in 0..from.len() {
        planes[k] = Plane::select(lanes, Plane(from[k]), Plane(planes[k])).0;
    }
}

// Puts what a program starts with into the first planes and words, in these lanes.
pub(crate) fn start_lanes(
    program: &LaneProgram,
    planes: &mut [u64],
    words: &mut [LaneWord],
    lanes: Plane,
)
    requires planes { length planes.old ≡ program.now.planes }
    requires words { length words.old ≡ program.now.words }
    ensures planes { length planes.new ≡ length planes.old }
    ensures words { length words.new ≡ length words.old }
    ensures first_planes { (k i : ℕ) → k < length program.now.start_planes.items → i < 64
        → on lanes.0 i ≡ true
        → on (slice_index planes.new k) i ≡ on (slice_index program.now.start_planes.items k) i }
    ensures first_words { (k i : ℕ) → k < length program.now.start_words.items → i < 64
        → on lanes.0 i ≡ true → lane_of (slice_index_or words.new k []) i
        ≡ slice_index_or program.now.start_words.items k (pos 0) }
    ensures other_planes { (k i : ℕ) → i < 64 → on lanes.0 i ≡ false
        → on (slice_index planes.new k) i ≡ on (slice_index planes.old k) i }
    ensures other_words { (k i : ℕ) → i < 64 → on lanes.0 i ≡ false
        → lane_of (slice_index_or words.new k []) i ≡ lane_of (slice_index_or words.old k []) i }
{
    copy_lanes(planes, program.start_planes.as_slice(), lanes);
    put_start_in(words, program.start_words.as_slice(), lanes);
}

// Resets the verdicts of these lanes; their traces begin at instant `t`.
pub(crate) fn begin_again(verdicts: &mut [Verdict], begins: &mut [u32], lanes: Plane, t: u32)
    requires verdicts { length verdicts.old ≡ 64 }
    requires begins { length begins.old ≡ 64 }
    ensures verdicts { length verdicts.new ≡ 64 }
    ensures begins { length begins.new ≡ 64 }
    ensures passed { (i : ℕ) → i < 64 → get_or verdicts.new i Passed
        ≡ (if on lanes.0 i then Passed else get_or verdicts.old i Passed) }
    ensures begun { (i : ℕ) → i < 64 → begin_of begins.new i
        ≡ (if on lanes.0 i then t else begin_of begins.old i) }
{
    for lane in 0..64u32 {
        if lanes.get(lane) {
            verdicts[lane as usize] = Verdict::Passed;
            begins[lane as usize] = t;
        }
    }
}

// Copies the inputs of an instant to their places, and runs code of the program in some lanes.
fn compute(
    program: &LaneProgram,
    code: &LaneCode,
    inputs: &Inputs,
    planes: &mut [u64],
    words: &mut [LaneWord],
    lanes: Plane,
)
    requires law { IsCodeIn program.now code.now }
    requires planes { length planes.old ≡ program.now.planes }
    requires words { length words.old ≡ program.now.words }
    requires signature { inputs.now.columns.kinds.items ≡ program.now.program.now.inputs.items }
    requires constants { (i : ℕ) → i < 64 → HasConstants (lane_at planes.old words.old i) }
    requires constant_words { (i : ℕ) → i < 64 → HasConstantWords program.now.constant_word
        program.now.memory_word program.now.start_words.items
        (lane_at planes.old words.old i) }
    ensures planes { length planes.new ≡ length planes.old }
    ensures words { length words.new ≡ length words.old }
    ensures computed { (i : ℕ) → i < 64 → IsComputed program.now code.now (inputs_row inputs.now i)
        (on lanes.0 i) (lane_at planes.old words.old i) (lane_at planes.new words.new i) }
{
    inputs.put_instant(planes, words);
    code.code.run(planes, words, Width::of(lanes));
}

// Whether a plane has a lane.
fn has(planes: &[u64], p: PlaneId, lane: u32) -> bool
    requires within { p.0 < length planes.now }
    requires lane { lane < 64 }
    ensures { result ≡ on (slice_index planes.now p.0) lane }
{
    Plane(planes[p.0 as usize]).get(lane)
}

// The verdict of a lane at instant `t`.
fn decided(planes: &[u64], watched: Watched, lane: u32, t: u32) -> Verdict
    requires faults { watched.faults.0 < length planes.now }
    requires undefined { watched.undefined.0 < length planes.now }
    requires failed { watched.failed.0 < length planes.now }
    requires violated { watched.violated.0 < length planes.now }
    requires lane { lane < 64 }
    ensures { result ≡ lane_judged watched t (lane_at planes.now [] lane) }
{
    if has(planes, watched.faults, lane) {
        Verdict::Fault(t)
    } else if has(planes, watched.undefined, lane) {
        Verdict::Undefined(t)
    } else if has(planes, watched.failed, lane) {
        Verdict::Assertion(t)
    } else if has(planes, watched.violated, lane) {
        Verdict::False(t)
    } else {
        Verdict::Passed
    }
}

// The lanes of `going` that pass the instant.
fn passing(planes: &[u64], watched: Watched, going: Plane) -> Plane
    requires faults { watched.faults.0 < length planes.now }
    requires undefined { watched.undefined.0 < length planes.now }
    requires failed { watched.failed.0 < length planes.now }
    requires violated { watched.violated.0 < length planes.now }
    ensures { (t : ℕ) → IsPlaneOf (λ i. on going.0 i
        && is_passed (lane_judged watched t (lane_at planes.now [] i))) result.0 }
{
    let faults = Plane(planes[watched.faults.0 as usize]);
    let undefined = Plane(planes[watched.undefined.0 as usize]);
    let failed = Plane(planes[watched.failed.0 as usize]);
    let violated = Plane(planes[watched.violated.0 as usize]);
    going.and(faults.or(undefined).or(failed.or(violated)).not())
}

// Puts the verdicts of the lanes that an instant of the batch decides.
fn give_verdicts(
    verdicts: &mut [Verdict],
    planes: &[u64],
    watched: Watched,
    lanes: Plane,
    begins: &[u32],
    t: u32,
)
    requires verdicts { length verdicts.old ≡ 64 }
    requires begins { length begins.now ≡ 64 }
    requires begun { (i : ℕ) → i < 64 → begin_of begins.now i ≤ t }
    requires faults { watched.faults.0 < length planes.now }
    requires undefined { watched.undefined.0 < length planes.now }
    requires failed { watched.failed.0 < length planes.now }
    requires violated { watched.violated.0 < length planes.now }
    ensures verdicts { length verdicts.new ≡ 64 }
    ensures put { (i : ℕ) → i < 64 → get_or verdicts.new i Passed
        ≡ (if on lanes.0 i
        then lane_judged watched (instant_in begins.now t i) (lane_at planes.now [] i)
        else get_or verdicts.old i Passed) }
{
    for lane in 0..64u32 {
        if lanes.get(lane) {
            let at = t - begins[lane as usize];
            verdicts[lane as usize] = decided(planes, watched, lane, at);
        }
    }
}

// Puts the verdicts of the lanes of `going` that do not pass the instant, and returns those that
// do.
fn judge(
    code: &LaneCode,
    planes: &[u64],
    verdicts: &mut [Verdict],
    going: Plane,
    begins: &[u32],
    t: u32,
) -> Plane
    requires faults { code.now.watched.faults.0 < length planes.now }
    requires undefined { code.now.watched.undefined.0 < length planes.now }
    requires failed { code.now.watched.failed.0 < length planes.now }
    requires violated { code.now.watched.violated.0 < length planes.now }
    requires verdicts { length verdicts.old ≡ 64 }
    requires begins { length begins.now ≡ 64 }
    requires begun { (i : ℕ) → i < 64 → begin_of begins.now i ≤ t }
    ensures verdicts { length verdicts.new ≡ 64 }
    ensures passed { IsPlaneOf (λ i. on going.0 i
        && is_passed (lane_judged code.now.watched (instant_in begins.now t i)
        (lane_at planes.now [] i))) result.0 }
    ensures put { (i : ℕ) → i < 64 → get_or verdicts.new i Passed
        ≡ (if on going.0 i && not (on result.0 i)
        then lane_judged code.now.watched (instant_in begins.now t i) (lane_at planes.now [] i)
        else get_or verdicts.old i Passed) }
{
    let passed = passing(planes, code.watched, going);
    let decided = going.and(passed.not());
    if decided.0 != 0 {
        give_verdicts(verdicts, planes, code.watched, decided, begins, t);
    }
    passed
}

// Copies the sources of the memories to the memories.
fn commit(program: &LaneProgram, code: &LaneCode, planes: &mut [u64], words: &mut [LaneWord])
    requires law { IsCodeIn program.now code.now }
    requires planes { length planes.old ≡ program.now.planes }
    requires words { length words.old ≡ program.now.words }
    ensures planes { length planes.new ≡ length planes.old }
    ensures words { length words.new ≡ length words.old }
    ensures carried { (i : ℕ) → IsCarriedOver program.now.memory_plane program.now.memory_word
        code.now.plane_sources.items code.now.word_sources.items
        (lane_at planes.old words.old i) (lane_at planes.new words.new i) }
{
    carry_planes(planes, program.memory_plane, code.plane_sources.as_slice());
    carry_words(words, program.memory_word, code.word_sources.as_slice());
}

// Runs an instant of the live lanes, and returns those of them that were active and pass it.
pub(crate) fn advance(
    program: &LaneProgram,
    inputs: &Inputs,
    planes: &mut [u64],
    words: &mut [LaneWord],
    verdicts: &mut [Verdict],
    active: Plane,
    live: Plane,
    begins: &[u32],
    t: u32,
) -> Plane
    requires planes { length planes.old ≡ program.now.planes }
    requires words { length words.old ≡ program.now.words }
    requires verdicts { length verdicts.old ≡ 64 }
    requires begins { length begins.now ≡ 64 }
    requires begun { (i : ℕ) → i < 64 → begin_of begins.now i ≤ t }
    requires signature { inputs.now.columns.kinds.items ≡ program.now.program.now.inputs.items }
    requires constants { (i : ℕ) → i < 64 → HasConstants (lane_at planes.old words.old i) }
    requires constant_words { (i : ℕ) → i < 64 → HasConstantWords program.now.constant_word
        program.now.memory_word program.now.start_words.items
        (lane_at planes.old words.old i) }
    ensures planes { length planes.new ≡ length planes.old }
    ensures words { length words.new ≡ length words.old }
    ensures verdicts { length verdicts.new ≡ 64 }
    ensures moved { (i : ℕ) → i < 64 → IsMovedOn program.now (inputs_row inputs.now i)
        (lane_at planes.old words.old i) (lane_at planes.new words.new i)
        (get_or verdicts.old i Passed) (get_or verdicts.new i Passed)
        (on active.0 i) (on live.0 i) (on result.0 i) (instant_in begins.now t i) }
{
    let going = active.and(live);
    let code = code_for(program, planes, going);
    compute(program, code, inputs, planes, words, going);
    let passed = judge(code, planes, verdicts, going, begins, t);
    commit(program, code, planes, words);
    passed
}
