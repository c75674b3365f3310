//! Places that are known before the code: those of inputs, constants and memories.

ghost use Rattle.std.specs.Prelude.{◌≡◌, ℕ, ◌+◌, ◌<◌, ◌≤◌, ◌≢◌, ◌⊎◌, true, false, length, All};
ghost use Rattle.std.specs.Prelude.{IfOk};
ghost use Rattle.std.specs.Prelude.{◌||◌, OnOk, get_or, [], ◌∷◌, slice_index};
ghost use Rattle.lb_check.specs.Scalars as scalars;
ghost use Rattle.lb_flat.specs.Run.{keeps, reads};
ghost use Rattle.lb_flat.specs.Values.{operation_of, scalar_of};
ghost use Rattle.lb_lanes.specs.Planes.{on};
ghost use Rattle.lb_machine.specs.Meaning.{Lane};
ghost use Rattle.lb_sim.specs.Compiled.{HasConstantWords};
ghost use Rattle.lb_sim.specs.Homes.{is_nil_scalar, is_bad_scalar, IsRow, plane_in, word_in};
ghost use Rattle.lb_sim.specs.Showing.{value_kind};
ghost use Rattle.lb_sim.specs.InputRows.{places_of, truth_columns, number_columns};
ghost use Rattle.lb_sim.specs.Presets.{IsFirstHolding, IsFirstMemory, IsFirstValue, IsConstant};
ghost use Rattle.lb_sim.specs.Presets.{IsConstantAt, IsFixed, IsMore};

use crate::place::{Holding, Value};
use crate::preset::Preset;
use lb_flat::{Operation, Scalar};
use lb_machine::{FALSE_PLANE, PlaneId, TRUE_PLANE, WordId, ZERO};
use lb_syntax::Kind;
use std::alloc::{AllocError, Global};

/// The holding of nothing.
pub(crate) const NOTHING: Holding = Holding {
    value: Value::Truth(FALSE_PLANE),
    nil: FALSE_PLANE,
    bad: FALSE_PLANE,
};

/// The value of each input, behind the places that are the same everywhere.
pub(crate) fn input_values(
    alloc: Global,
    preset: &mut Preset,
    kinds: &[Kind],
) -> Result<Vec<Value>, AllocError>
    requires planes { length preset.old.planes.items ≡ 2 }
    requires words { length preset.old.words.items ≡ 1 }
    requires few { length kinds.now ≤ 65536 }
    ensures values { IfOk result (λ v. v.items ≡ places_of 2 1 kinds.now) }
    ensures planes { OnOk result (length preset.new.planes.items
        ≡ 2 + length (truth_columns 0 kinds.now)) }
    ensures words { OnOk result (length preset.new.words.items
        ≡ 1 + length (number_columns 0 kinds.now)) }
{
    let mut values = Vec::new(alloc);
    for j in 0..kinds.len() {
        match kinds[j] {
            Kind::Bool => {
                let plane = preset.plane(false)?;
                values.push(Value::Truth(plane))?;
            }
            Kind::Int => {
                let word = preset.word(0)?;
                values.push(Value::Number(word))?;
            }
        }
    }
    Ok(values)
}

fn is_nil(v: Scalar) -> bool
    ensures { result ≡ is_nil_scalar (scalar_of v) }
{
    match v {
        Scalar::Nil => true,
        _ => false,
    }
}

fn is_bad(v: Scalar) -> bool
    ensures { result ≡ is_bad_scalar (scalar_of v) }
{
    match v {
        Scalar::Bad => true,
        _ => false,
    }
}

// A value of a kind, for a scalar that is nil or a fault.
fn empty_value(preset: &mut Preset, kind: Kind) -> Result<Value, AllocError>
    requires planes { length preset.old.planes.items < 4294967295 }
    requires words { length preset.old.words.items < 4294967295 }
    ensures more { OnOk result (IsMore preset.old preset.new) }
    ensures value { IfOk result (λ x. (v : scalars.Scalar)
        → (is_nil_scalar v || is_bad_scalar v) ≡ true
        → IsFirstValue preset.old preset.new kind v x) }
{
    match kind {
        Kind::Bool => {
            let plane = preset.plane(false)?;
            Ok(Value::Truth(plane))
        }
        Kind::Int => {
            let word = preset.word(0)?;
            Ok(Value::Number(word))
        }
    }
}

// A value that holds a scalar; for nil or a fault, any value of the kind.
fn first_value(preset: &mut Preset, v: Scalar, kind: Kind) -> Result<Value, AllocError>
    requires planes { length preset.old.planes.items < 4294967295 }
    requires words { length preset.old.words.items < 4294967295 }
    ensures more { OnOk result (IsMore preset.old preset.new) }
    ensures value { IfOk result (IsFirstValue preset.old preset.new kind (scalar_of v)) }
{
    match v {
        Scalar::Integer(z) => {
            let word = preset.word(z)?;
            Ok(Value::Number(word))
        }
        Scalar::Boolean(b) => {
            let plane = preset.plane(b)?;
            Ok(Value::Truth(plane))
        }
        Scalar::Nil | Scalar::Bad => empty_value(preset, kind),
    }
}

// A plane of faults, if the operand is not watched for faults or the first value is one.
fn bad_place(preset: &mut Preset, v: Scalar, watched: bool) -> Result<PlaneId, AllocError>
    requires { length preset.old.planes.items < 4294967295 }
    ensures more { OnOk result (IsMore preset.old preset.new) }
    ensures words { preset.new.words.items ≡ preset.old.words.items }
    ensures row { IfOk result (λ p. IsRow (length preset.old.planes.items) (p.0 ∷ [])
        (length preset.new.planes.items)) }
    ensures watched { IfOk result (λ p. (p.0 ≢ 0) ⊎ ((p.0 ≡ 0) × (watched ≡ true))) }
    ensures value { IfOk result (λ p. (i : ℕ) → i < 64
        → on (slice_index preset.new.planes.items p.0) i ≡ is_bad_scalar (scalar_of v)) }
{
    let bad = is_bad(v);
    if !bad && watched {
        return Ok(FALSE_PLANE);
    }
    let plane = preset.plane(bad)?;
    Ok(plane)
}

// The memory of `pre` and of `current`: a value and its nil plane; a plane of faults only where it
// is needed.
fn memory(preset: &mut Preset, v: Scalar, kind: Kind, watched: bool) -> Result<Holding, AllocError>
    requires planes { length preset.old.planes.items + 2 < 4294967295 }
    requires words { length preset.old.words.items < 4294967295 }
    ensures more { OnOk result (IsMore preset.old preset.new) }
    ensures memory { IfOk result (IsFirstHolding preset.old preset.new kind (watched ≡ true)
        (scalar_of v)) }
{
    let value = first_value(preset, v, kind)?;
    let nil = preset.plane(is_nil(v))?;
    let bad = bad_place(preset, v, watched)?;
    Ok(Holding { value, nil, bad })
}

/// The holding of the memory of an operation, or the holding of nothing; `watched` marks the
/// elements at which a fault counts.
pub(crate) fn first_memory(
    preset: &mut Preset,
    operation: &Operation,
    kind: Kind,
    watched: &[bool],
) -> Result<Holding, AllocError>
    requires planes { length preset.old.planes.items + 2 < 4294967295 }
    requires words { length preset.old.words.items < 4294967295 }
    requires reads { All (λ i. i < length watched.now) (reads (operation_of operation.now)) }
    requires keeps { All (λ i. i < length watched.now) (keeps (operation_of operation.now)) }
    ensures more { OnOk result (IsMore preset.old preset.new) }
    ensures memory { IfOk result (IsFirstMemory preset.old preset.new kind
        (λ a. get_or watched.now a false ≡ true) (operation_of operation.now)) }
{
    match operation {
        Operation::FirstThen(started, _, _) => {
            let plane = preset.plane(*started)?;
            Ok(Holding {
                value: Value::Truth(plane),
                nil: FALSE_PLANE,
                bad: FALSE_PLANE,
            })
        }
        Operation::Previous(v, a) => {
            let held = memory(preset, *v, kind, watched[a.0 as usize])?;
            Ok(held)
        }
        Operation::Latest(v, a) => {
            let held = memory(preset, *v, kind, watched[a.0 as usize])?;
            Ok(held)
        }
        _ => Ok(NOTHING),
    }
}

// A value of a kind that takes no place.
fn no_value(kind: Kind) -> Value
    ensures kind { value_kind result ≡ kind }
    ensures plane { plane_in result ≡ 0 }
    ensures word { word_in result ≡ 0 }
{
    match kind {
        Kind::Bool => Value::Truth(FALSE_PLANE),
        Kind::Int => Value::Number(ZERO),
    }
}

// The word of a number among those from `first` on, or a new word.
fn number_word(preset: &mut Preset, first: u32, value: i32) -> Result<WordId, AllocError>
    requires first { first ≤ length preset.old.words.items }
    requires room { length preset.old.words.items < 4294967295 }
    ensures more { OnOk result (IsMore preset.old preset.new) }
    ensures planes { preset.new.planes.items ≡ preset.old.planes.items }
    ensures few { OnOk result (length preset.new.words.items
        ≤ length preset.old.words.items + 1) }
    ensures within { IfOk result (λ w. w.0 < length preset.new.words.items) }
    ensures number { IfOk result (λ w. (s : Lane) → HasConstantWords first
        (length preset.new.words.items) preset.new.words.items s → s.ints w.0 ≡ value) }
{
    if let Some(word) = preset.word_among(first, value) {
        return Ok(word);
    }
    let word = preset.word(value)?;
    Ok(word)
}

// The holding of a constant scalar. Equal integers share one word.
fn held_constant(
    preset: &mut Preset,
    first: u32,
    v: Scalar,
    kind: Kind,
) -> Result<Holding, AllocError>
    requires first { first ≤ length preset.old.words.items }
    requires room { length preset.old.words.items < 4294967295 }
    ensures more { OnOk result (IsMore preset.old preset.new) }
    ensures planes { preset.new.planes.items ≡ preset.old.planes.items }
    ensures few { OnOk result (length preset.new.words.items
        ≤ length preset.old.words.items + 1) }
    ensures fixed { IfOk result (IsFixed (length preset.new.words.items)) }
    ensures constant { IfOk result (IsConstantAt first (length preset.new.words.items)
        preset.new.words.items kind (scalar_of v)) }
{
    match v {
        Scalar::Integer(z) => {
            let word = number_word(preset, first, z)?;
            Ok(Holding {
                value: Value::Number(word),
                nil: FALSE_PLANE,
                bad: FALSE_PLANE,
            })
        }
        Scalar::Boolean(b) => Ok(Holding {
            value: Value::Truth(if b { TRUE_PLANE } else { FALSE_PLANE }),
            nil: FALSE_PLANE,
            bad: FALSE_PLANE,
        }),
        Scalar::Nil => Ok(Holding {
            value: no_value(kind),
            nil: TRUE_PLANE,
            bad: FALSE_PLANE,
        }),
        Scalar::Bad => Ok(Holding {
            value: no_value(kind),
            nil: FALSE_PLANE,
            bad: TRUE_PLANE,
        }),
    }
}

/// The holding of a constant, in the words from `first` on, or the holding of nothing for any other
/// operation.
pub(crate) fn constant(
    preset: &mut Preset,
    first: u32,
    operation: &Operation,
    kind: Kind,
) -> Result<Holding, AllocError>
    requires first { first ≤ length preset.old.words.items }
    requires room { length preset.old.words.items < 4294967295 }
    ensures more { OnOk result (IsMore preset.old preset.new) }
    ensures planes { preset.new.planes.items ≡ preset.old.planes.items }
    ensures few { OnOk result (length preset.new.words.items
        ≤ length preset.old.words.items + 1) }
    ensures fixed { IfOk result (IsFixed (length preset.new.words.items)) }
    ensures constant { IfOk result (IsConstant first (length preset.new.words.items)
        preset.new.words.items kind (operation_of operation.now)) }
{
    match operation {
        Operation::Constant(v) => held_constant(preset, first, *v, kind),
        _ => Ok(NOTHING),
    }
}
