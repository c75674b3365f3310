//! The tables of text, and the loop over their rows.
//!
//! A row has the words of a command line in its first line, then the input, and behind a mark the
//! wanted answer. The input `as above` is that of the row above. `{3 a}` in a row stands for `aaa`,
//! and `{1..2 x@ @, }` for `x1 1, x2 2, `.

use crate::command_lines::{Run, expect};
use crate::{
    commands, controllers, formats, helps, mistakes, program_helps, programs, random_values,
    reasons, shown, texts, trace_mistakes,
};
use lb_test_support::rows::write_out;
use lb_test_support::texts::{Said, is_same};
use std::alloc::AllocError;
use std::fs::Files;
use std::os::unix::fs::FileExt;
use std::sync::Wait;
use std::test::Fail;
use std::thread::Threads;
use std::time::Clock;

/// The part of a run that the rows of a table ask for.
#[derive(Clone, Copy)]
enum Asks {
    /// The errors that are printed, and the status.
    Errors,
    /// The errors that are printed, the status, and whether there is output.
    Answers,
    /// All that is printed, and the status.
    Prints,
}

/// A table: the part of a run that it asks for, the mark before the wanted answer, and the rows.
type Table = (Asks, &'static str, &'static str);

const TEXTS: Table = (Asks::Errors, " => ", texts::TEXTS);

const PROGRAMS: Table = (Asks::Errors, " => ", programs::PROGRAMS);

const HELPS: Table = (Asks::Errors, " => ", helps::HELPS);

const PROGRAM_HELPS: Table = (Asks::Errors, " => ", program_helps::PROGRAM_HELPS);

const MISTAKES: Table = (Asks::Errors, " => ", mistakes::MISTAKES);

const TRACE_MISTAKES: Table = (Asks::Errors, " => ", trace_mistakes::TRACE_MISTAKES);

const RUNS: Table = (Asks::Answers, " => ", commands::RUNS);

const SHOWN: Table = (Asks::Prints, "\n=>\n", shown::SHOWN);

const FORMATS: Table = (Asks::Prints, "\n=>\n", formats::FORMATS);

const RANDOM_VALUES: Table = (Asks::Prints, "\n=>\n", random_values::RANDOM_VALUES);

const REASONS: Table = (Asks::Prints, "\n=>\n", reasons::REASONS);

const CONTROLLERS: Table = (Asks::Prints, "\n=>\n", controllers::CONTROLLERS);

/// The answer of a run of a command line on an input.
fn push_answer<R: Files + AllocGlobal + Threads + Wait + Clock + Sync>(
    rt: &R,
    asks: Asks,
    line: &str,
    input: &str,
    said: &mut String,
) -> Result<(), AllocError>
where
    R::File: FileExt + Sync + Send,
{
    let run = Run::on(rt, line, input)?;
    match asks {
        Asks::Errors => run.push_errors(said),
        Asks::Answers => run.push_answer(said),
        Asks::Prints => run.push_printed(said),
    }
}

/// Whether `said`, the answer to a row, is the wanted one. A row without the mark has no wanted
/// answer. The input of the row stays in `input`, for the row below.
fn is_right<R: Files + AllocGlobal + Threads + Wait + Clock + Sync>(
    rt: &R,
    table: Table,
    row: &str,
    input: &mut String,
    said: &mut String,
) -> Result<bool, AllocError>
where
    R::File: FileExt + Sync + Send,
{
    let (asks, mark, _) = table;
    said.clear();
    let Some((asked, wanted)) = row.rsplit_once(mark) else {
        return Ok(false);
    };
    let (line, own) = asked.split_once('\n').unwrap_or((asked, ""));
    if !is_same(own, "as above") {
        input.clear();
        input.push_str(own)?;
    }
    push_answer(rt, asks, line, input.as_str(), said)?;
    Ok(is_same(said.as_str(), wanted))
}

/// Whether each row of a table has the wanted answer. The first that has not stays in `row`, with
/// its answer in `said`. A row with a brace without a number of turns is wrong too.
fn is_answered<R: Files + AllocGlobal + Threads + Wait + Clock + Sync>(
    rt: &R,
    table: Table,
    row: &mut Said,
    said: &mut String,
) -> Result<bool, AllocError>
where
    R::File: FileExt + Sync + Send,
{
    let (_, _, rows) = table;
    let mut input = String::new(rt.alloc());
    for short in rows.split("\n----\n") {
        if !write_out(row, short) || !is_right(rt, table, row.whole()?, &mut input, said)? {
            return Ok(false);
        }
    }
    Ok(true)
}

/// The first row of a table with a wrong answer, and that answer. Nothing where there is none.
fn first_wrong<R: Files + AllocGlobal + Threads + Wait + Clock + Sync>(
    rt: &R,
    table: Table,
) -> Result<String, AllocError>
where
    R::File: FileExt + Sync + Send,
{
    let mut row = Said::new(rt.alloc());
    let mut said = String::new(rt.alloc());
    if is_answered(rt, table, &mut row, &mut said)? {
        return Ok(String::new(rt.alloc()));
    }
    format!(in rt.alloc(); "{}, and not: {said}", row.as_str())
}

#[test]
fn explained_texts(rt: HostRuntime) -> Result<(), Fail> {
    expect(&first_wrong(&rt, TEXTS), "")
}

#[test]
fn explained_programs(rt: HostRuntime) -> Result<(), Fail> {
    expect(&first_wrong(&rt, PROGRAMS), "")
}

#[test]
fn explained_mistakes(rt: HostRuntime) -> Result<(), Fail> {
    expect(&first_wrong(&rt, HELPS), "")
}

#[test]
fn explained_program_mistakes(rt: HostRuntime) -> Result<(), Fail> {
    expect(&first_wrong(&rt, PROGRAM_HELPS), "")
}

#[test]
fn mistakes_in_sources(rt: HostRuntime) -> Result<(), Fail> {
    expect(&first_wrong(&rt, MISTAKES), "")
}

#[test]
fn mistakes_in_traces(rt: HostRuntime) -> Result<(), Fail> {
    expect(&first_wrong(&rt, TRACE_MISTAKES), "")
}

#[test]
fn runs(rt: HostRuntime) -> Result<(), Fail> {
    expect(&first_wrong(&rt, RUNS), "")
}

#[test]
fn shown_values(rt: HostRuntime) -> Result<(), Fail> {
    expect(&first_wrong(&rt, SHOWN), "")
}

#[test]
fn shown_formats(rt: HostRuntime) -> Result<(), Fail> {
    expect(&first_wrong(&rt, FORMATS), "")
}

#[test]
fn values_of_random_programs(rt: HostRuntime) -> Result<(), Fail> {
    expect(&first_wrong(&rt, RANDOM_VALUES), "")
}

#[test]
fn explained_reports(rt: HostRuntime) -> Result<(), Fail> {
    expect(&first_wrong(&rt, REASONS), "")
}

#[test]
fn explained_controllers(rt: HostRuntime) -> Result<(), Fail> {
    expect(&first_wrong(&rt, CONTROLLERS), "")
}
