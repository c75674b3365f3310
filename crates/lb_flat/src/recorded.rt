//! Recorded traces, ready to be read by the evaluator.

ghost use Rattle.std.specs.Prelude.{◌≡◌, ◌<◌, [], length, map, get_or, slice_get, All, IfOk};
ghost use Rattle.lb_static.specs.Signature.{kinds_of};
ghost use Rattle.lb_flat.specs.Inputs.{inputs_of};
ghost use Rattle.lb_flat.specs.Prepared.{place_equation};
ghost use Rattle.lb_flat.specs.Run.{filled};
ghost use Rattle.lb_traces.specs.Traces.{trace_at};
ghost use Rattle.lb_flat.specs.Values.{cell_of};

use crate::cell::Cell;
use crate::equation::{InputId, InputPlace};
use crate::evaluate::Instants;
use lb_static::Signature;
use lb_syntax::Kind;
use lb_traces::TraceSet;
use std::alloc::{AllocError, Global};

/// The cell of an input at an instant of a trace. It is absent where the input is past the end of
/// the signature. `kinds` are the kinds of the columns.
pub fn input_at(set: &TraceSet, kinds: &[Kind], k: u32, t: u32, input: InputId) -> Cell
    requires kinds { kinds.now ≡ kinds_of set.now.signature }
    requires trace { k < length set.now.traces }
    requires instant { t < length (trace_at set.now.traces k).1 }
    ensures { cell_of result ≡ slice_get (get_or (inputs_of set.now k) t []) input.0 }
{
    let _ = set.signature();
    let j = input.0 as usize;
    if j < kinds.len() {
        match kinds[j] {
            Kind::Int => Cell::Integer(set.int_at(k, t, input.0)),
            Kind::Bool => Cell::Boolean(set.bool_at(k, t, input.0)),
        }
    } else {
        Cell::Absent
    }
}

// Reads an instant of a trace into the elements that hold inputs.
fn read_row(set: &TraceSet, kinds: &[Kind], k: u32, t: u32, inputs: &[InputPlace], row: &mut [Cell])
    requires kinds { kinds.now ≡ kinds_of set.now.signature }
    requires trace { k < length set.now.traces }
    requires instant { t < length (trace_at set.now.traces k).1 }
    requires elements { All (λ p. p.element.0 < length row.old) inputs.now }
    ensures elements { length row.new ≡ length row.old }
    ensures read { map cell_of row.new
        ≡ filled (get_or (inputs_of set.now k) t []) (map cell_of row.old)
        (map place_equation inputs.now) }
{
    for i in 0..inputs.len() {
        let place = inputs[i];
        row[place.element.0 as usize] = input_at(set, kinds, k, t, place.input);
    }
}

/// The kind of each column.
pub fn kinds_of(alloc: Global, signature: &Signature) -> Result<Vec<Kind>, AllocError>
    ensures { IfOk result (λ kinds. kinds.items ≡ kinds_of signature.now) }
{
    let mut kinds = Vec::new(alloc);
    for i in 0..signature.len() {
        kinds.push(signature.kind(i))?;
    }
    Ok(kinds)
}

/// Recorded traces, and the kind of each of their columns, looked up once for all traces.
#[derive(Drop)]
pub struct Recorded<'a> {
    pub(crate) set: &'a TraceSet,
    pub(crate) kinds: Vec<Kind>,
    pub(crate) ghost columns: { kinds.items ≡ kinds_of set.now.signature },
}

impl<'a> Recorded<'a> {
    ghost use Rattle.lb_flat.specs.PreparedParts.{recording_in};

    /// The traces of `set`, ready to be read.
    pub fn new(alloc: Global, set: &'a TraceSet) -> Result<Recorded<'a>, AllocError>
        ensures { IfOk result (λ r. recording_in r ≡ set.now) }
    {
        let kinds = kinds_of(alloc, set.signature())?;
        Ok(Recorded { set, kinds })
    }

    /// How many traces there are.
    pub fn len(&self) -> u32
        ensures count { result ≡ length (recording_in self.now).traces }
    {
        self.set.len()
    }
}

/// One of these traces.
#[derive(Clone, Copy)]
pub(crate) struct RecordedTrace<'a> {
    pub(crate) set: &'a TraceSet,
    pub(crate) kinds: &'a [Kind],
    pub(crate) k: u32,
    pub(crate) ghost recorded: { k < length set.now.traces },
    pub(crate) ghost columns: { kinds.now ≡ kinds_of set.now.signature },
}

impl Instants for RecordedTrace<'_> {
    ghost rows = { λ r. inputs_of r.set.now r.k };

    fn count(&self) -> u32 {
        self.set.length(self.k)
    }

    fn read(&self, t: u32, inputs: &[InputPlace], row: &mut [Cell]) {
        read_row(self.set, self.kinds, self.k, t, inputs, row);
    }
}
