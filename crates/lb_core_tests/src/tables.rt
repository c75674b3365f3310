//! The tables of text.

use crate::{
    batches, check_causes, cycles, elaboration, flat_causes, lane_words, lanes, machine, offsets,
    readings, source_places, source_texts, sources, static_causes,
};
use lb_test_support::rows::{BATCHES, LINES, OFFSETS, PLACES, TEXTS, Table, first_wrong};
use lb_test_support::texts::{Said, expect};
use std::test::Fail;
use std::thread::Threads;

/// A question that the rows of a table ask.
enum Asks<'a> {
    /// A source: its text, or its node under test.
    Sources,
    /// A source: its fault against a rule of names, static values and instances.
    StaticCauses,
    /// The text behind this front: the place at which the whole is refused as E2.
    Places(&'a str),
    /// A text: the offsets of its names and forms.
    Offsets,
    /// A source: its fault against a rule of types, clocks or definitions, and the place.
    CheckCauses,
    /// A source with this observer: the cause for which it is too large, or has no order.
    FlatCauses(&'a str),
    /// A source: its cycle of elements.
    Cycles,
    /// A trace text under the signature `x: int, c: bool`.
    Readings,
    /// A trace text under the signature `x: int, y: int, c: bool`.
    Orders,
    /// The kinds of columns, and records: the bits of their Booleans.
    Bits,
    /// The kinds of columns, and records: their traces.
    Kinds,
    /// A trace text under the signature `x: int, c: bool`, by any number of workers.
    Parted,
    /// A case with counted records, in lanes.
    Batches,
    /// A kernel on integers, and its operands.
    Ints,
    /// A kernel on words of 64 integers, and its operands.
    Words,
    /// A kernel on words of 64 integers, its operands, and the lanes of a width.
    NarrowWords,
    /// A kernel on planes, and its operands.
    Planes,
    /// The rows of a matrix of bits.
    Matrices,
    /// Planes and words, and code over them.
    Codes,
    /// Planes, or words, and those that are carried to the front.
    Carries,
}

/// The answer to the question of a table on a row.
fn push_answer<R: AllocGlobal + Threads + Sync>(
    rt: &R,
    asks: &Asks<'_>,
    asked: &str,
    said: &mut Said,
) {
    let alloc = rt.alloc();
    match asks {
        Asks::Sources => sources::push_answer(alloc, asked, said),
        Asks::StaticCauses => static_causes::push_answer(alloc, asked, said),
        Asks::Places(front) => sources::push_place(alloc, front, asked, said),
        Asks::Offsets => offsets::push_offsets(alloc, asked, said),
        Asks::CheckCauses => check_causes::push_answer(alloc, asked, said),
        Asks::FlatCauses(observer) => flat_causes::push_cause(alloc, observer, asked, said),
        Asks::Cycles => cycles::push_answer(alloc, asked, said),
        Asks::Readings => readings::push_answer(alloc, asked, said),
        Asks::Orders => readings::push_three(alloc, asked, said),
        Asks::Bits => readings::push_bits(alloc, asked, said),
        Asks::Kinds => readings::push_kinds(alloc, asked, said),
        Asks::Parted => readings::push_by_workers(rt, alloc, asked, said),
        Asks::Batches => batches::push_lanes_of(alloc, asked, said),
        Asks::Ints => lanes::push_ints(asked, said),
        Asks::Words => lane_words::push_words(asked, said),
        Asks::NarrowWords => lane_words::push_narrow(asked, said),
        Asks::Planes => lanes::push_plane(asked, said),
        Asks::Matrices => lanes::push_transposed(asked, said),
        Asks::Codes => machine::push_results(alloc, asked, said),
        Asks::Carries => machine::push_carried(asked, said),
    }
}

/// Texts: their programs, and the places of their refusals.
static TEXT_TABLES: [Table<Asks<'static>>; 6] = [
    (Asks::Sources, TEXTS, source_texts::CASES),
    (Asks::Places(""), PLACES, source_places::PARTS),
    (
        Asks::Places(source_places::BODY),
        PLACES,
        source_places::STATEMENTS,
    ),
    (
        Asks::Places(source_places::TERM),
        PLACES,
        source_places::EXPRESSIONS,
    ),
    (
        Asks::Places(source_places::CONSTANT),
        PLACES,
        source_places::STATICS,
    ),
    (Asks::Sources, TEXTS, elaboration::CASES),
];

/// Sources: the offsets of their names and forms, and the causes of refusals.
static CAUSE_TABLES: [Table<Asks<'static>>; 10] = [
    (Asks::Offsets, OFFSETS, offsets::OFFSETS),
    (Asks::FlatCauses(""), OFFSETS, flat_causes::CAUSES),
    (Asks::FlatCauses("watch"), OFFSETS, flat_causes::OBSERVED),
    (Asks::StaticCauses, TEXTS, static_causes::NAMES),
    (Asks::StaticCauses, TEXTS, static_causes::VALUES),
    (Asks::StaticCauses, TEXTS, static_causes::RANGES),
    (Asks::StaticCauses, TEXTS, static_causes::RECURSIONS),
    (Asks::StaticCauses, TEXTS, static_causes::ROOTS),
    (Asks::StaticCauses, TEXTS, static_causes::LIMITS),
    (Asks::CheckCauses, TEXTS, check_causes::CASES),
];

/// Kernels, code, batches and cycles.
static LANE_TABLES: [Table<Asks<'static>>; 9] = [
    (Asks::Ints, LINES, lanes::INTEGERS),
    (Asks::Planes, LINES, lanes::PLANES),
    (Asks::Matrices, LINES, lanes::MATRICES),
    (Asks::Words, LINES, lane_words::WORDS),
    (Asks::NarrowWords, LINES, lane_words::NARROW),
    (Asks::Codes, LINES, machine::CODES),
    (Asks::Carries, LINES, machine::CARRIES),
    (Asks::Batches, BATCHES, batches::BATCHES),
    (Asks::Cycles, LINES, cycles::CYCLES),
];

/// Trace texts.
static TRACE_TABLES: [Table<Asks<'static>>; 6] = [
    (Asks::Readings, LINES, readings::READINGS),
    (Asks::Orders, LINES, readings::ORDERS),
    (Asks::Bits, LINES, readings::BITS),
    (Asks::Bits, LINES, readings::TRUTHS),
    (Asks::Kinds, LINES, readings::GROUPS),
    (Asks::Parted, LINES, readings::PARTS),
];

/// The first row of some tables with a wrong answer, behind that answer. Nothing where there is
/// none.
fn wrong_row<R: AllocGlobal + Threads + Sync>(rt: &R, tables: &[Table<Asks<'_>>]) -> Said {
    first_wrong(
        rt.alloc(),
        tables,
        |asks, asked, said| push_answer(rt, asks, asked, said),
    )
}

#[test]
fn text_tables(rt: HostRuntime) -> Result<(), Fail> {
    expect(&wrong_row(&rt, &TEXT_TABLES), "")
}

#[test]
fn cause_tables(rt: HostRuntime) -> Result<(), Fail> {
    expect(&wrong_row(&rt, &CAUSE_TABLES), "")
}

#[test]
fn lane_tables(rt: HostRuntime) -> Result<(), Fail> {
    expect(&wrong_row(&rt, &LANE_TABLES), "")
}

#[test]
fn trace_tables(rt: HostRuntime) -> Result<(), Fail> {
    expect(&wrong_row(&rt, &TRACE_TABLES), "")
}
