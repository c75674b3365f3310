//! The types that a term with a row of operands takes and gives. Each type is made when it is asked
//! for, and none is kept.
//!
//! ```text
//! map<<f, 3>>(x, y)    takes int^3 and bool^3, gives int^3
//! where f              takes int and bool,     gives int
//! ```

ghost use Rattle.std.specs.Prelude.{◌≡◌, ◌&&◌, ◌==◌, Some, length, map, nat_le, option_map, IfOk};
ghost use Rattle.std.specs.List.{list_all, zip};
ghost use Rattle.lb_syntax.specs.Lists as lists;
ghost use Rattle.lb_syntax.specs.Lists.{all_some};
ghost use Rattle.lb_static.specs.StoredTypes.{declared_type, view_type};
ghost use Rattle.lb_check.specs.StoredTypes.{context_in};
ghost use Rattle.lb_check.specs.TermSignatures as mirror;
ghost use Rattle.lb_check.specs.Types as types;

use crate::array_types::{array_of, is_length};
use crate::operand_types::are_one;
use crate::type_env::TypeEnv;
use lb_static::{CallId, DataType, ResolvedNode, StaticInt, Term, Variable, part_of};
use lb_syntax::{ArrayIterator, BinaryOperator, Kind, OperatorClass};
use std::alloc::{AllocError, Global};

/// Types in a row.
#[derive(Clone, Copy)]
pub enum Elements<'a> {
    /// A number of scalars of one kind.
    Scalars(Kind, usize),
    /// The types of variables, by the values of the static expressions of their node.
    Declared(&'a [Variable], &'a [StaticInt]),
}

/// The types of a row that stand for arrays of them, of this length.
#[derive(Clone, Copy)]
pub enum Arrays {
    No,
    All(u64),
    /// All but the first.
    Rest(u64),
}

/// Types in a row, or arrays of them.
#[derive(Clone, Copy)]
pub struct TypeRow<'a> {
    pub elements: Elements<'a>,
    pub arrays: Arrays,
}

/// The types that a callee takes and gives.
#[derive(Clone, Copy)]
pub struct Called<'a> {
    pub takes: Elements<'a>,
    pub gives: Elements<'a>,
    /// Whether the callee is there, and may be called or iterated.
    pub stands: bool,
}

/// The types that a term takes and gives.
#[derive(Clone, Copy)]
pub struct Signature<'a> {
    pub takes: TypeRow<'a>,
    pub gives: TypeRow<'a>,
    /// Whether the callee is there, and may be called or iterated.
    pub stands: bool,
}

/// The type of a scalar, if `place` is one of a row of `count` scalars.
fn scalar_at(alloc: Global, kind: Kind, count: usize, place: usize) -> Option<DataType>
    ensures { option_map view_type result
        ≡ mirror.type_at (mirror.elements_in (Elements.Scalars kind count)) place }
{
    if place < count {
        Some(DataType::scalar(alloc, kind))
    } else {
        None
    }
}

/// The type of the variable at a place, if there is one.
fn declared_at(
    alloc: Global,
    variables: &[Variable],
    statics: &[StaticInt],
    place: usize,
) -> Result<Option<DataType>, AllocError>
    ensures { IfOk result (λ o. option_map view_type o
        ≡ mirror.type_at (map (declared_type statics.now) variables.now) place) }
{
    match variables.get(place) {
        Some(variable) => DataType::of(alloc, variable, statics),
        None => Ok(None),
    }
}

/// Whether `value` is the size `size`.
fn is_size(value: StaticInt, size: u64) -> bool
    ensures { result ≡ mirror.is_size value size }
{
    match value.natural() {
        Some(number) => number == size,
        None => false,
    }
}

/// Whether each value is the size at its place, as far as both go.
fn all_sizes(values: &[StaticInt], sizes: &[u64]) -> bool
    ensures { result ≡ list_all (λ p. mirror.is_size p.0 p.1) (zip values.now sizes.now) }
{
    values
        .iter()
        .zip(sizes.iter())
        .all(|(value, size)| is_size(*value, *size))
}

/// Whether the values are the sizes, place by place.
fn are_sizes(values: &[StaticInt], sizes: &[u64]) -> bool
    ensures { result ≡ mirror.are_sizes values.now sizes.now }
{
    all_sizes(values, sizes) && values.len() == sizes.len()
}

/// Whether the type with `values` as its sizes is the one with `sizes`, the outermost last in both.
fn is_type_of(own: Kind, values: &[StaticInt], kind: Kind, sizes: &[u64]) -> bool
    ensures { result ≡ mirror.is_type_with (mirror.type_with own values.now) kind sizes.now }
{
    own == kind && are_sizes(values, sizes)
}

/// Whether a type is an array of length `size`, by its outermost size, and by whether its elements
/// are those that are wanted.
fn is_array_of(size: u64, outermost: u64, has_elements: bool) -> bool
    ensures { result
        ≡ ((size == outermost) && ((nat_le 1 size && nat_le size 4096) && has_elements)) }
{
    size == outermost && (is_length(size) && has_elements)
}

impl Elements<'_> {
    /// The number of types.
    fn len(&self) -> usize
        ensures { result ≡ length (mirror.elements_in self.now) }
    {
        match self {
            Elements::Scalars(_, count) => *count,
            Elements::Declared(variables, _) => variables.len(),
        }
    }

    /// The type at a place, if there is one.
    fn get(&self, alloc: Global, place: usize) -> Result<Option<DataType>, AllocError>
        ensures { IfOk result (λ o.
            option_map view_type o ≡ mirror.type_at (mirror.elements_in self.now) place) }
    {
        match self {
            Elements::Scalars(kind, count) => Ok(scalar_at(alloc, *kind, *count, place)),
            Elements::Declared(variables, statics) => {
                declared_at(alloc, variables, statics, place)
            }
        }
    }

    /// Whether the type at a place is the one with these sizes, the outermost last.
    fn is_at(&self, place: usize, kind: Kind, sizes: &[u64]) -> bool
        ensures { result ≡ mirror.is_type_with
            (mirror.type_at (mirror.elements_in self.now) place) kind sizes.now }
    {
        match self {
            Elements::Scalars(own, count) => place < *count && is_type_of(*own, &[], kind, sizes),
            Elements::Declared(variables, statics) => match variables.get(place) {
                Some(variable) => {
                    let values = part_of(statics, variable.first_size.0, variable.sizes);
                    is_type_of(variable.kind, values, kind, sizes)
                }
                None => false,
            },
        }
    }

    /// Whether the array of this length with elements of the type at a place is the given one.
    fn is_array_at(&self, size: u64, place: usize, given: &DataType) -> bool
        ensures { result ≡ mirror.are_one
            (mirror.arrays size (mirror.type_at (mirror.elements_in self.now) place))
            (Some (view_type given.now)) }
    {
        match given.sizes.split_last() {
            Some((outermost, sizes)) => {
                is_array_of(size, *outermost, self.is_at(place, given.kind, sizes))
            }
            None => false,
        }
    }
}

/// An array of this length with elements of this type, if there is one.
pub fn array_type(size: u64, element: Option<DataType>) -> Result<Option<DataType>, AllocError>
    ensures { IfOk result (λ o.
        option_map view_type o ≡ mirror.arrays size (option_map view_type element)) }
{
    match element {
        Some(element) => array_of(size, element),
        None => Ok(None),
    }
}

impl TypeRow<'_> {
    /// The number of types.
    pub fn len(&self) -> usize
        ensures { result ≡ length (mirror.row_in self.now) }
    {
        self.elements.len()
    }

    /// The type at a place, if there is one.
    pub fn get(&self, alloc: Global, place: usize) -> Result<Option<DataType>, AllocError>
        ensures { IfOk result (λ o.
            option_map view_type o ≡ mirror.type_at (mirror.row_in self.now) place) }
    {
        let element = self.elements.get(alloc, place)?;
        match self.arrays {
            Arrays::No => Ok(element),
            Arrays::All(size) => array_type(size, element),
            Arrays::Rest(size) => {
                if place == 0 {
                    Ok(element)
                } else {
                    array_type(size, element)
                }
            }
        }
    }

    /// Whether the type at a place is the given one.
    pub fn is_at(&self, place: usize, given: &DataType) -> bool
        ensures { result ≡ mirror.are_one (mirror.type_at (mirror.row_in self.now) place)
            (Some (view_type given.now)) }
    {
        let elements = &self.elements;
        match self.arrays {
            Arrays::No => elements.is_at(place, given.kind, &given.sizes),
            Arrays::All(size) => elements.is_array_at(size, place, given),
            Arrays::Rest(size) => {
                if place == 0 {
                    elements.is_at(place, given.kind, &given.sizes)
                } else {
                    elements.is_array_at(size, place, given)
                }
            }
        }
    }
}

/// A callee that takes `count` scalars of one kind, and gives one.
fn scalars<'a>(kind: Kind, count: usize, stands: bool) -> Called<'a>
    ensures { mirror.called_in result ≡ mirror.scalars kind count stands }
{
    Called {
        takes: Elements::Scalars(kind, count),
        gives: Elements::Scalars(kind, 1),
        stands,
    }
}

/// A callee that is not there: it takes and gives nothing.
fn nothing<'a>() -> Called<'a>
    ensures { mirror.called_in result ≡ mirror.nothing }
{
    Called {
        takes: Elements::Scalars(Kind::Int, 0),
        gives: Elements::Scalars(Kind::Int, 0),
        stands: false,
    }
}

/// The inputs and the outputs of a node under these static values.
fn declared<'a>(node: &'a ResolvedNode, statics: &'a [StaticInt]) -> Called<'a>
    ensures { mirror.called_in result ≡ mirror.declared_signature statics.now node.now }
{
    Called {
        takes: Elements::Declared(part_of(&node.variables, 0, node.inputs), statics),
        gives: Elements::Declared(part_of(&node.variables, node.inputs, node.outputs), statics),
        stands: true,
    }
}

/// The inputs and the outputs of the callee of a call.
fn callee<'a>(env: &TypeEnv<'a, '_>, call: CallId) -> Called<'a>
    ensures { mirror.called_in result ≡ mirror.calls_in env.now call }
{
    match env.table.called(env.specialization, call) {
        Some(callee) => match env.reached.nodes.get(callee.node.0) {
            Some(node) => declared(node, &callee.statics),
            None => nothing(),
        },
        None => nothing(),
    }
}

/// The types that an iterated data operator takes and gives.
fn symbol<'a>(op: BinaryOperator) -> Called<'a>
    ensures { mirror.called_in result ≡ mirror.symbol_signature op }
{
    match op.class() {
        OperatorClass::Arithmetic => scalars(Kind::Int, 2, true),
        OperatorClass::Logical => scalars(Kind::Bool, 2, true),
        OperatorClass::Equality | OperatorClass::Order => scalars(Kind::Bool, 2, false),
    }
}

/// The signature of a callee, with arrays for the types that `takes` and `gives` name.
fn spread<'a>(called: &Called<'a>, takes: Arrays, gives: Arrays, stands: bool) -> Signature<'a>
    ensures { mirror.signature_in result
        ≡ mirror.spread (mirror.called_in called.now) takes gives stands }
{
    Signature {
        takes: TypeRow {
            elements: called.takes,
            arrays: takes,
        },
        gives: TypeRow {
            elements: called.gives,
            arrays: gives,
        },
        stands,
    }
}

/// The signature of a callee that is called once.
fn plain<'a>(called: &Called<'a>) -> Signature<'a>
    ensures { mirror.signature_in result ≡ mirror.called_in called.now }
{
    spread(called, Arrays::No, Arrays::No, called.stands)
}

/// Whether the first type that is given is the first that is taken.
fn is_accumulated(alloc: Global, called: &Called) -> Result<bool, AllocError>
    ensures { IfOk result (λ b. b ≡ mirror.is_accumulated (mirror.called_in called.now)) }
{
    let taken = called.takes.get(alloc, 0)?;
    let given = called.gives.get(alloc, 0)?;
    Ok(are_one(&taken, &given))
}

/// The signature of a callee with an accumulator, if the numbers of its types fit (`fits`).
fn accumulated<'a>(
    alloc: Global,
    called: &Called<'a>,
    takes: Arrays,
    gives: Arrays,
    fits: bool,
) -> Result<Signature<'a>, AllocError>
    ensures { IfOk result (λ s. mirror.signature_in s
        ≡ mirror.accumulated (mirror.called_in called.now) takes gives fits) }
{
    let is_accumulated = is_accumulated(alloc, called)?;
    Ok(spread(
        called,
        takes,
        gives,
        called.stands && (fits && is_accumulated),
    ))
}

/// The signature of a callee that is iterated over arrays of this length, if that is known: `map`
/// takes and gives arrays, `red` takes arrays beside an accumulator and gives the accumulator
/// alone, `fill` takes the accumulator alone and gives arrays beside it.
fn iterated<'a>(
    alloc: Global,
    iterator: ArrayIterator,
    size: Option<u64>,
    called: &Called<'a>,
) -> Result<Signature<'a>, AllocError>
    ensures { IfOk result (λ s. mirror.signature_in s
        ≡ mirror.iterated iterator size (mirror.called_in called.now)) }
{
    let Some(size) = size else {
        return Ok(plain(&nothing()));
    };
    let (all, rest) = (Arrays::All(size), Arrays::Rest(size));
    match iterator {
        ArrayIterator::Map => Ok(spread(called, all, all, called.stands)),
        ArrayIterator::Red => {
            let fits = called.gives.len() == 1;
            accumulated(alloc, called, rest, Arrays::No, fits)
        }
        ArrayIterator::Fill => {
            let fits = called.takes.len() == 1 && 1 < called.gives.len();
            accumulated(alloc, called, Arrays::No, rest, fits)
        }
    }
}

/// The signature of a term with this number of operands in a row, a list apart.
pub fn signature_of<'a>(
    alloc: Global,
    env: &TypeEnv<'a, '_>,
    term: &Term,
    count: usize,
) -> Result<Signature<'a>, AllocError>
    ensures { IfOk result (λ s. mirror.signature_in s
        ≡ mirror.signature (mirror.calls_in env.now) (context_in env.now) term.now count) }
{
    match term {
        Term::AtMostOne(_) | Term::Nor(_) => Ok(plain(&scalars(Kind::Bool, count, true))),
        Term::Call(call, _) => Ok(plain(&callee(env, *call))),
        Term::IterateNode(iterator, call, _) => {
            iterated(alloc, *iterator, env.repeats(*call), &callee(env, *call))
        }
        Term::IterateSymbol(iterator, op, size, _) => {
            iterated(alloc, *iterator, env.count(*size), &symbol(*op))
        }
        _ => Ok(plain(&nothing())),
    }
}

/// Whether a type, if there is one, is the one that is wanted at a place. The wanted type is not
/// made.
pub fn is_wanted(wanted: &TypeRow, place: usize, given: &Option<DataType>) -> bool
    ensures { result ≡ mirror.are_one
        (mirror.type_at (mirror.row_in wanted.now) place) (option_map view_type given.now) }
{
    match given {
        Some(given) => wanted.is_at(place, given),
        None => false,
    }
}

/// The type of a row with one type.
fn only_type(alloc: Global, row: &TypeRow) -> Result<Option<DataType>, AllocError>
    ensures { IfOk result (λ o. option_map view_type o
        ≡ lists.◌>>=◌ (all_some (mirror.row_in row.now)) types.only) }
{
    if row.len() == 1 {
        row.get(alloc, 0)
    } else {
        Ok(None)
    }
}

/// The one type of a row that is given, where it has one and no more.
pub fn only_given(alloc: Global, given: &Option<TypeRow>) -> Result<Option<DataType>, AllocError>
    ensures { IfOk result (λ o. option_map view_type o ≡ lists.◌>>=◌ (lists.◌>>=◌
        (option_map mirror.row_in given.now) all_some) types.only) }
{
    match given {
        Some(row) => only_type(alloc, row),
        None => Ok(None),
    }
}
