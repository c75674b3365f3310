//! The sources of memories: what they take over after an instant.

ghost use Rattle.std.specs.Prelude.{◌≡◌, ℕ, ◌≤◌, ◌<◌, ◌+◌, ◌*◌, length, All, IfOk, OnOk};
ghost use Rattle.std.specs.Prelude.{if◌then◌else◌};
ghost use Rattle.lb_flat.specs.Programs.{program_of, IsInRange};
ghost use Rattle.lb_flat.specs.TemporaryKinds.{kind_among};
ghost use Rattle.lb_flat.specs.Run.{keeps, reads};
ghost use Rattle.lb_flat.specs.Values.{operation_of};
ghost use Rattle.lb_machine.specs.Correct.{AddsAtMost, HasRoom, IsGrown};
ghost use Rattle.lb_sim.specs.Holdings.{IsFor, IsIn, IsPlaceIn};
ghost use Rattle.lb_sim.specs.Homes.{word_in};
ghost use Rattle.lb_sim.specs.Passing.{AreCopies, AreSources, AreTaken, IsNextOf, IsPlaneSource};
ghost use Rattle.lb_sim.specs.Passing.{IsTaken};
ghost use Rattle.lb_sim.specs.Passing.{IsNextFlag, IsWordSource};
ghost use Rattle.lb_sim.specs.Presets.{AreMemories};
ghost use Rattle.lb_sim.specs.Showing.{kind_of, scalar_at, IsPlain};
ghost use Rattle.lb_sim.specs.States.{holding_of};
ghost use Rattle.lb_sim.specs.Steady.{AreHeldFor};

use crate::allotted::Allotted;
use crate::picks::pick;
use crate::place::{Holding, Place, Value, plane_of};
use crate::truths::not_plane;
use lb_flat::{FlatProgram, Operation};
use lb_machine::{Code, FALSE_PLANE, PlaneId, PlaneOperator, TRUE_PLANE, WordId, ZERO};
use std::alloc::{AllocError, Global};

// The word that a value takes, or 0.
fn word_of(v: Value) -> WordId
    ensures { result.0 ≡ word_in v }
{
    match v {
        Value::Truth(_) | Value::Negated(_) => ZERO,
        Value::Number(w) => w,
    }
}

/// A plane that is false everywhere and one that is true everywhere, which the code writes. All
/// constant sources share them.
#[derive(Clone, Copy)]
pub(crate) struct Copies {
    pub(crate) nowhere: PlaneId,
    pub(crate) everywhere: PlaneId,
}

// Writes the two planes.
#[tactic(auto, using(crate::proofs::Growth::grown_then, crate::proofs::Growth::grown_none))]
fn make_copies(code: &mut Code) -> Result<Copies, AllocError>
    requires { HasRoom code.old 2 }
    ensures grown { OnOk result (IsGrown code.old code.new) }
    ensures few { OnOk result (AddsAtMost code.old code.new 2) }
    ensures copies { IfOk result (AreCopies code.new) }
{
    let nowhere = code.copy_plane(FALSE_PLANE)?;
    let everywhere = code.copy_plane(TRUE_PLANE)?;
    Ok(Copies {
        nowhere,
        everywhere,
    })
}

// A plane that the code writes and that equals plane `p`.
#[tactic(auto, using(crate::proofs::Growth::grown_then, crate::proofs::Growth::grown_none))]
fn own_plane(code: &mut Code, p: PlaneId, copies: Copies) -> Result<PlaneId, AllocError>
    requires plane { p.0 < code.old.planes }
    requires copies { AreCopies code.old copies }
    requires room { HasRoom code.old 1 }
    ensures grown { OnOk result (IsGrown code.old code.new) }
    ensures few { OnOk result (AddsAtMost code.old code.new 1) }
    ensures source { IfOk result (IsPlaneSource code.new p.0) }
{
    if p.0 == FALSE_PLANE.0 {
        return Ok(copies.nowhere);
    }
    if p.0 == TRUE_PLANE.0 {
        return Ok(copies.everywhere);
    }
    if p.0 < code.first_plane {
        let copied = code.copy_plane(p)?;
        return Ok(copied);
    }
    Ok(p)
}

// A word that the code writes and that equals word `w`.
#[tactic(auto, using(crate::proofs::Growth::grown_then, crate::proofs::Growth::grown_none))]
fn own_word(code: &mut Code, w: WordId) -> Result<WordId, AllocError>
    requires word { w.0 < code.old.words }
    requires room { HasRoom code.old 1 }
    ensures grown { OnOk result (IsGrown code.old code.new) }
    ensures few { OnOk result (AddsAtMost code.old code.new 1) }
    ensures source { IfOk result (IsWordSource code.new w.0) }
{
    if w.0 < code.first_word {
        let copied = code.copy_word(w)?;
        return Ok(copied);
    }
    Ok(w)
}

// Adds the source of a plane of a memory, if the memory has that plane.
#[tactic(auto, using(crate::proofs::Growth::grown_then, crate::proofs::Growth::grown_none))]
fn take_plane(
    code: &mut Code,
    home: PlaneId,
    next: PlaneId,
    copies: Copies,
    sources: &mut Vec<PlaneId>,
) -> Result<(), AllocError>
    requires next { next.0 < code.old.planes }
    requires copies { AreCopies code.old copies }
    requires room { HasRoom code.old 1 }
    ensures grown { OnOk result (IsGrown code.old code.new) }
    ensures few { OnOk result (AddsAtMost code.old code.new 1) }
    ensures taken { OnOk result (IsTaken (IsPlaneSource code.new next.0) home.0
        sources.old.items sources.new.items) }
{
    if home.0 == FALSE_PLANE.0 {
        return Ok(());
    }
    let source = own_plane(code, next, copies)?;
    sources.push(source)?;
    Ok(())
}

// Adds the source of a word of a memory, if the memory has that word.
#[tactic(auto, using(crate::proofs::Growth::grown_then, crate::proofs::Growth::grown_none))]
fn take_word(
    code: &mut Code,
    home: WordId,
    next: WordId,
    sources: &mut Vec<WordId>,
) -> Result<(), AllocError>
    requires next { next.0 < code.old.words }
    requires room { HasRoom code.old 1 }
    ensures grown { OnOk result (IsGrown code.old code.new) }
    ensures few { OnOk result (AddsAtMost code.old code.new 1) }
    ensures taken { OnOk result (IsTaken (IsWordSource code.new next.0) home.0
        sources.old.items sources.new.items) }
{
    if home.0 == ZERO.0 {
        return Ok(());
    }
    let source = own_word(code, next)?;
    sources.push(source)?;
    Ok(())
}

// Adds the sources of a memory, in the order in which its places were given.
#[tactic(auto, using(crate::proofs::Growth::grown_then, crate::proofs::Growth::grown_none))]
fn push_sources(
    code: &mut Code,
    home: Holding,
    next: Holding,
    copies: Copies,
    planes: &mut Vec<PlaneId>,
    words: &mut Vec<WordId>,
) -> Result<(), AllocError>
    requires next { IsIn code.old next }
    requires copies { AreCopies code.old copies }
    requires room { HasRoom code.old 4 }
    ensures grown { OnOk result (IsGrown code.old code.new) }
    ensures few { OnOk result (AddsAtMost code.old code.new 4) }
    ensures taken { OnOk result (AreTaken code.new home next planes.old.items planes.new.items
        words.old.items words.new.items) }
{
    let home_plane = plane_of(home.value);
    let next_plane = plane_of(next.value);
    let home_word = word_of(home.value);
    let next_word = word_of(next.value);
    take_plane(code, home_plane, next_plane, copies, planes)?;
    take_plane(code, home.nil, next.nil, copies, planes)?;
    take_plane(code, home.bad, next.bad, copies, planes)?;
    take_word(code, home_word, next_word, words)?;
    Ok(())
}

// The flag of `->` after the instant: whether a first tick is over.
#[tactic(auto, using(crate::proofs::Growth::grown_then, crate::proofs::Growth::grown_none))]
fn next_flag(code: &mut Code, held: Holding, present: PlaneId) -> Result<Holding, AllocError>
    requires held { IsIn code.old held }
    requires present { present.0 < code.old.planes }
    requires room { HasRoom code.old 2 }
    ensures grown { OnOk result (IsGrown code.old code.new) }
    ensures few { OnOk result (AddsAtMost code.old code.new 2) }
    ensures within { IfOk result (IsIn code.new) }
    ensures next { IfOk result (IsNextFlag code.new held present.0) }
{
    let started = plane_of(held.value);
    let value = code.combine(PlaneOperator::Or, started, present)?;
    Ok(Holding {
        value: Value::Truth(value),
        nil: FALSE_PLANE,
        bad: FALSE_PLANE,
    })
}

// A holding that shows the same scalars, and whose value is no negation.
#[tactic(auto, using(crate::proofs::Growth::grown_then, crate::proofs::Growth::grown_none))]
fn plain(code: &mut Code, h: Holding) -> Result<Holding, AllocError>
    requires holding { IsIn code.old h }
    requires room { HasRoom code.old 1 }
    ensures grown { OnOk result (IsGrown code.old code.new) }
    ensures few { OnOk result (AddsAtMost code.old code.new 1) }
    ensures within { IfOk result (IsIn code.new) }
    ensures plain { IfOk result (λ g. IsPlain g.value) }
    ensures same { IfOk result (IsFor code.new (kind_of h) (λ s. scalar_at s h)) }
{
    let Value::Negated(p) = h.value else {
        return Ok(h);
    };
    let plane = not_plane(code, p)?;
    Ok(Holding {
        value: Value::Truth(plane),
        nil: h.nil,
        bad: h.bad,
    })
}

// The cell of a memory after the instant: the scalar of a place where it is present, and `held`
// elsewhere.
#[tactic(auto, using(crate::proofs::Growth::grown_then, crate::proofs::Growth::grown_none))]
fn next_cell(code: &mut Code, place: Place, held: Holding) -> Result<Holding, AllocError>
    requires place { IsPlaceIn code.old place }
    requires held { IsIn code.old held }
    requires room { HasRoom code.old 5 }
    ensures grown { OnOk result (IsGrown code.old code.new) }
    ensures few { OnOk result (AddsAtMost code.old code.new 5) }
    ensures within { IfOk result (IsIn code.new) }
    ensures plain { IfOk result (λ g. IsPlain g.value) }
    ensures next { IfOk result (λ g. kind_of place.holding ≡ kind_of held →
        IsFor code.new (kind_of place.holding)
        (λ s. if s.bits place.present.0 then scalar_at s place.holding else scalar_at s held) g) }
{
    let picked = pick(code, place.present, place.holding, held)?;
    plain(code, picked)
}

// The holding of a memory after the instant, where `held` shows the memory now.
#[tactic(auto, using(crate::proofs::Growth::grown_then, crate::proofs::Growth::grown_none))]
fn next_holding(
    code: &mut Code,
    places: &[Place],
    held: Holding,
    operation: &Operation,
) -> Result<Holding, AllocError>
    requires places { All (IsPlaceIn code.old) places.now }
    requires held { IsIn code.old held }
    requires reads { All (λ i. i < length places.now) (reads (operation_of operation.now)) }
    requires keeps { All (λ i. i < length places.now) (keeps (operation_of operation.now)) }
    requires room { HasRoom code.old 5 }
    ensures grown { OnOk result (IsGrown code.old code.new) }
    ensures few { OnOk result (AddsAtMost code.old code.new 5) }
    ensures within { IfOk result (IsIn code.new) }
    ensures next { IfOk result (IsNextOf code.new places.now held
        (operation_of operation.now)) }
{
    match operation {
        Operation::FirstThen(_, a, _) => {
            let next = next_flag(code, held, places[a.0 as usize].present)?;
            Ok(next)
        }
        Operation::Previous(_, a) | Operation::Latest(_, a) => {
            let place = places[a.0 as usize];
            next_cell(code, place, held)
        }
        _ => Ok(held),
    }
}

/// The sources of all planes, and of all words, of memories.
#[derive(Drop)]
pub(crate) struct Sources {
    pub(crate) planes: Vec<PlaneId>,
    pub(crate) words: Vec<WordId>,
}

/// The sources of all memories, in the order of the equations, where `held` shows the memories now.
pub(crate) fn all_sources(
    alloc: Global,
    code: &mut Code,
    program: &FlatProgram,
    places: &[Place],
    allotted: &Allotted,
    held: &[Holding],
) -> Result<Sources, AllocError>
    requires in_range { IsInRange program.now }
    requires elements { length places.now ≡ program.now.size }
    requires places { All (IsPlaceIn code.old) places.now }
    requires kinds { (e : ℕ) → e < program.now.size
        → kind_of (holding_of places.now e) ≡ kind_among program.now.kinds.items e }
    requires memories { AreMemories (program_of program.now) allotted.now.memory_plane
        allotted.now.memory_word allotted.now.preset allotted.now.kept.items }
    requires first_plane { code.old.first_plane ≡ length allotted.now.preset.planes.items }
    requires first_word { code.old.first_word ≡ length allotted.now.preset.words.items }
    requires behind_planes { 2 ≤ allotted.now.memory_plane }
    requires behind_words { 1 ≤ allotted.now.memory_word }
    requires all_held { length held.now ≡ program.now.size }
    requires held { All (IsIn code.old) held.now }
    requires held_for { AreHeldFor allotted.now.kept.items held.now
        (program_of program.now).equations }
    requires room { HasRoom code.old (9 * length program.now.equations.items + 2) }
    ensures grown { OnOk result (IsGrown code.old code.new) }
    ensures few { OnOk result (AddsAtMost code.old code.new
        (9 * length program.now.equations.items + 2)) }
    ensures sources { IfOk result (λ r. AreSources (program_of program.now) code.new places.now
        allotted.now.kept.items held.now allotted.now.memory_plane allotted.now.memory_word
        r.planes.items r.words.items) }
{
    let mut planes = Vec::new(alloc);
    let mut words = Vec::new(alloc);
    let copies = make_copies(code)?;
    for i in 0..program.equations.len() {
        let q = program.equations[i];
        let home = allotted.kept[q.element.0 as usize];
        let shown = held[q.element.0 as usize];
        let next = next_holding(code, places, shown, &q.operation)?;
        push_sources(code, home, next, copies, &mut planes, &mut words)?;
    }
    Ok(Sources { planes, words })
}
