//! The tables of text.

use crate::{answers, hostile, pool, programs, refusals, reports, rounds, sections};
use lb_test_support::rows::{CASES, LINES, SPREADS, TEXTS, Table, first_wrong};
use lb_test_support::texts::{Said, expect};
use lb_test_support::{forms, random, runs};
use std::test::Fail;
use std::thread::Threads;

/// A question that the rows of a table ask.
enum Asks<'a> {
    /// The two parts of a case text.
    Parts,
    /// The plan of a width and the lengths of traces.
    Plans,
    /// The numbers that two seats of a board claim in turn.
    Claims,
    /// The shares of two seats that give to one another.
    Shares,
    /// A case text.
    Cases,
    /// The end of a program, behind some nodes and this front.
    Programs(&'a str),
    /// A case with counted records, by any number of workers and lanes.
    Spreads,
    /// A trace text for the node `SUM`, in rounds, cut at each byte.
    Cuts,
    /// A trace text for the node `SUM`, as a file in sections, by reads of any length.
    Files,
}

/// The answer to the question of a table on a row.
fn push_answer<R: AllocGlobal + Threads + Sync>(
    rt: &R,
    asks: &Asks<'_>,
    asked: &str,
    said: &mut Said,
) {
    match asks {
        Asks::Parts => reports::push_parts(asked, said),
        Asks::Plans => pool::push_plan(rt.alloc(), asked, said),
        Asks::Claims => pool::push_claims(rt.alloc(), asked, said),
        Asks::Shares => pool::push_shares(rt.alloc(), asked, said),
        Asks::Cases => answers::push_case(rt, asked, said),
        Asks::Programs(front) => programs::push_answer(rt, front, asked, said),
        Asks::Spreads => pool::push_spread(rt, asked, said),
        Asks::Cuts => rounds::push_cut(rt, asked, said),
        Asks::Files => sections::push_sections(rt, asked, said),
    }
}

/// Plans, claims and shares.
static BOARD_TABLES: [Table<Asks<'static>>; 3] = [
    (Asks::Plans, LINES, pool::PLANS),
    (Asks::Claims, LINES, pool::CLAIMS),
    (Asks::Shares, LINES, pool::SHARES),
];

/// Cases: their parts, and their reports or refusals.
static CASE_TABLES: [Table<Asks<'static>>; 9] = [
    (Asks::Parts, TEXTS, reports::CASES),
    (Asks::Programs(programs::MAIN), LINES, programs::RULES),
    (
        Asks::Programs(programs::CLOCKED),
        LINES,
        programs::STATEMENTS,
    ),
    (Asks::Programs(programs::PLAIN), TEXTS, programs::TRACES),
    (Asks::Cases, CASES, runs::REPORTS),
    (Asks::Cases, CASES, refusals::REFUSALS),
    (Asks::Cases, CASES, forms::FORMS),
    (Asks::Cases, CASES, random::PROGRAMS),
    (Asks::Spreads, SPREADS, pool::SPREADS),
];

/// Cases at the limits of size and number.
static LIMIT_TABLES: [Table<Asks<'static>>; 1] = [(Asks::Cases, CASES, hostile::LIMITS)];

/// Traces that are judged round by round.
static ROUND_TABLES: [Table<Asks<'static>>; 2] = [
    (Asks::Cuts, LINES, rounds::CUTS),
    (Asks::Files, LINES, sections::FILES),
];

/// The first row of some tables with a wrong answer, behind that answer. Nothing where there is
/// none.
fn wrong_row<R: AllocGlobal + Threads + Sync>(rt: &R, tables: &[Table<Asks<'_>>]) -> Said {
    first_wrong(
        rt.alloc(),
        tables,
        |asks, asked, said| push_answer(rt, asks, asked, said),
    )
}

#[test]
fn board_tables(rt: HostRuntime) -> Result<(), Fail> {
    expect(&wrong_row(&rt, &BOARD_TABLES), "")
}

#[test]
fn case_tables(rt: HostRuntime) -> Result<(), Fail> {
    expect(&wrong_row(&rt, &CASE_TABLES), "")
}

#[test]
fn limit_tables(rt: HostRuntime) -> Result<(), Fail> {
    expect(&wrong_row(&rt, &LIMIT_TABLES), "")
}

#[test]
fn round_tables(rt: HostRuntime) -> Result<(), Fail> {
    expect(&wrong_row(&rt, &ROUND_TABLES), "")
}
