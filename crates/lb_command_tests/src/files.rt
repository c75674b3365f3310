//! Runs of the program on files.
//!
//! The files of a test stand in the folder for temporary files, and are removed when it ends. `@`
//! in a text stands for that folder and for the first letters of the names of the files.

use crate::command_lines::{Run, expect};
use std::alloc::{AllocError, Global};
use std::fs::Files;
use std::os::unix::fs::FileExt;
use std::sync::Wait;
use std::test::Fail;
use std::thread::Threads;
use std::time::Clock;
use std::{env, fs};

// ## Files

/// A text with the folder, and the first letters of the names, in place of each `@`.
fn in_folder(alloc: Global, folder: &str, text: &str) -> Result<String, AllocError> {
    let mut written = String::new(alloc);
    let mut pieces = text.split('@');
    written.push_str(pieces.next().unwrap_or(""))?;
    for piece in pieces {
        write!(written, "{folder}/lb_tests_{piece}")?;
    }
    Ok(written)
}

fn write_file<R: Files + AllocGlobal>(
    rt: &R,
    folder: &str,
    name: &str,
    bytes: &[u8],
) -> Result<(), Fail> {
    let path = in_folder(rt.alloc(), folder, name)?;
    fs::write(rt, path.as_str(), bytes)?;
    Ok(())
}

fn remove_file<R: Files + AllocGlobal>(rt: &R, folder: &str, name: &str) -> Result<(), AllocError> {
    let path = in_folder(rt.alloc(), folder, name)?;
    let _ = fs::remove_file(rt, path.as_str());
    Ok(())
}

/// Writes files: their names and their texts.
fn write_files<R: Files + AllocGlobal>(
    rt: &R,
    folder: &str,
    files: &[(&str, &str)],
) -> Result<(), Fail> {
    for (name, text) in files {
        write_file(rt, folder, *name, text.as_bytes())?;
    }
    Ok(())
}

fn remove_files<R: Files + AllocGlobal>(
    rt: &R,
    folder: &str,
    files: &[(&str, &str)],
) -> Result<(), AllocError> {
    for (name, _) in files {
        remove_file(rt, folder, *name)?;
    }
    Ok(())
}

// ## Runs

/// A run of a command line on an input.
fn run_in<R: Files + AllocGlobal + Threads + Wait + Clock + Sync>(
    rt: &R,
    folder: &str,
    line: &str,
    input: &str,
) -> Result<Run, AllocError>
where
    R::File: FileExt + Sync + Send,
{
    let line = in_folder(rt.alloc(), folder, line)?;
    Run::on(rt, line.as_str(), input)
}

/// The output, the errors and the status of each run: its command line and its input.
fn push_runs<R: Files + AllocGlobal + Threads + Wait + Clock + Sync>(
    rt: &R,
    folder: &str,
    runs: &[(&str, &str)],
    said: &mut String,
) -> Result<(), AllocError>
where
    R::File: FileExt + Sync + Send,
{
    for (line, input) in runs {
        run_in(rt, folder, *line, *input)?.push_apart(said)?;
    }
    Ok(())
}

/// Files, runs on them, and what these are to print.
struct Case {
    files: &'static [(&'static str, &'static str)],
    runs: &'static [(&'static str, &'static str)],
    wanted: &'static str,
}

/// The answer on a case: what its runs print.
fn answer<R: Files + AllocGlobal + Threads + Wait + Clock + Sync>(
    rt: &R,
    folder: &str,
    case: &Case,
) -> Result<String, Fail>
where
    R::File: FileExt + Sync + Send,
{
    let mut said = String::new(rt.alloc());
    write_files(rt, folder, case.files)?;
    let pushed = push_runs(rt, folder, case.runs, &mut said);
    remove_files(rt, folder, case.files)?;
    pushed?;
    Ok(said)
}

/// Fails a test unless the answer on a case is the wanted one.
fn expect_answer<R: Files + AllocGlobal + Threads + Wait + Clock + Sync>(
    rt: &R,
    folder: &str,
    case: &Case,
) -> Result<(), Fail>
where
    R::File: FileExt + Sync + Send,
{
    let wanted = in_folder(rt.alloc(), folder, case.wanted)?;
    let said = answer(rt, folder, case)?;
    expect(&Ok(said), wanted.as_str())
}

// ## Cases

/// A node that does not judge itself, and one that judges it.
const SOURCE: &str = "\
node plant(x: int) returns (y: int); let y = 0 -> pre y + x; tel
node small(x, y: int) returns (ok: bool); let ok = y < 5; tel
";

const TRACES: &str = "trace,x\na,3\na,4\na,4\nb,5\n";

/// The traces at a path, and in the standard input.
static PATHS: Case = Case {
    files: &[("@source", SOURCE), ("@traces", TRACES)],
    runs: &[
        ("lbench --node plant --observe small @source @traces", ""),
        ("lbench --node plant --observe small @source", TRACES),
    ],
    wanted: "\
a false 2
b passed
total 2 passed 1 fault 0 undefined 0 assertion 0 false 1
||1
a false 2
b passed
total 2 passed 1 fault 0 undefined 0 assertion 0 false 1
||1
",
};

#[test]
fn paths(rt: HostRuntime) -> Result<(), Fail> {
    let folder = env::temp_dir(&rt)?;
    expect_answer(&rt, folder.as_str(), &PATHS)
}

/// The reports on two parts, merged as XML; then the first of them twice.
static MERGED: Case = Case {
    files: &[
        (
            "@part_1",
            "a passed\ntotal 1 passed 1 fault 0 undefined 0 assertion 0 false 0\n",
        ),
        (
            "@part_2",
            "b false 2\ntotal 1 passed 0 fault 0 undefined 0 assertion 0 false 1\n",
        ),
    ],
    runs: &[
        ("lbench --format junit --merge @part_1 @part_2", ""),
        ("lbench --format junit --merge @part_1 @part_1", ""),
    ],
    wanted: "\
<?xml version='1.0' encoding='UTF-8'?>
<testsuites>
<testsuite name='main' tests='2' failures='1' errors='0' skipped='0'>
<testcase classname='main' name='a'/>
<testcase classname='main' name='b'><failure type='false' message='false 2'/></testcase>
</testsuite>
</testsuites>
||1
|refused: E17 trace at 1:1
|2
",
};

#[test]
fn merged_files(rt: HostRuntime) -> Result<(), Fail> {
    let folder = env::temp_dir(&rt)?;
    expect_answer(&rt, folder.as_str(), &MERGED)
}

/// An earlier report: one of its traces passed and is false now, and one is gone.
static COMPARED: Case = Case {
    files: &[(
        "@earlier",
        "a passed\nc passed\ntotal 2 passed 2 fault 0 undefined 0 assertion 0 false 0\n",
    )],
    runs: &[(
        "lbench --node plant --observe small --baseline @earlier",
        "\
node plant(x: int) returns (y: int); let y = 0 -> pre y + x; tel
node small(x, y: int) returns (ok: bool); let ok = y < 5; tel
%traces
trace,x
a,3
a,4
a,4
b,5
",
    )],
    wanted: "\
a false 2
b passed
total 2 passed 1 fault 0 undefined 0 assertion 0 false 1
|changed: a passed -> false 2
new: b passed
gone: c passed
baseline: same 0 changed 1 new 1 gone 1
|1
",
};

#[test]
fn compared_with_a_file(rt: HostRuntime) -> Result<(), Fail> {
    let folder = env::temp_dir(&rt)?;
    expect_answer(&rt, folder.as_str(), &COMPARED)
}

/// A text with a quote, in parts.
static QUOTED: Case = Case {
    files: &[
        ("@quoted.lus", SOURCE),
        ("@quoted.csv", "trace,x\na,3\n\"b\",5\n"),
    ],
    runs: &[(
        "lbench --explain --node plant --observe small --part 1/1 @quoted.lus @quoted.csv",
        "",
    )],
    wanted: "\
|refused: E21 read
lbench: error: `@quoted.csv` can not be read: a text with quotes has no parts; leave `--part` out
|3
",
};

#[test]
fn part_with_a_quote(rt: HostRuntime) -> Result<(), Fail> {
    let folder = env::temp_dir(&rt)?;
    expect_answer(&rt, folder.as_str(), &QUOTED)
}

/// A cell in the second of two parts that is no number. Lines and records are those of the file.
static REFUSED_PART: Case = Case {
    files: &[
        ("@cells.lus", SOURCE),
        ("@cells.csv", "trace,x\na,3\nb,5\nc,1\nd,x\n"),
    ],
    runs: &[(
        "lbench --explain --node plant --observe small --part 2/2 @cells.lus @cells.csv",
        "",
    )],
    wanted: "\
|refused: E16 cell
@cells.csv:5:3: error: column `x` is int, and `x` is no value of it
    5 | d,x
      |   ^
help: write at most 20 digits, with or without a `-` before them
in trace `d`, instant 0, record 4
in part 2/2
|2
",
};

#[test]
fn part_with_a_bad_cell(rt: HostRuntime) -> Result<(), Fail> {
    let folder = env::temp_dir(&rt)?;
    expect_answer(&rt, folder.as_str(), &REFUSED_PART)
}

/// A bad cell with which the second part begins. Lines end with a carriage return and a newline, and
/// one line is empty.
static REFUSED_LINES: Case = Case {
    files: &[
        ("@lines.lus", SOURCE),
        ("@lines.csv", "trace,x\r\na,3\r\n\r\nb,x\r\nc,1\r\nd,2\r\n"),
    ],
    runs: &[(
        "lbench --explain --node plant --observe small --part 2/2 @lines.lus @lines.csv",
        "",
    )],
    wanted: "\
|refused: E16 cell
@lines.csv:4:3: error: column `x` is int, and `x` is no value of it
    4 | b,x
      |   ^
help: write at most 20 digits, with or without a `-` before them
in trace `b`, instant 0, record 2
in part 2/2
|2
",
};

#[test]
fn part_with_other_lines(rt: HostRuntime) -> Result<(), Fail> {
    let folder = env::temp_dir(&rt)?;
    expect_answer(&rt, folder.as_str(), &REFUSED_LINES)
}

/// A trace that comes back, and then a header that lacks an input, both in the second of two parts.
static REFUSED_RECORDS: Case = Case {
    files: &[
        ("@back.lus", SOURCE),
        ("@back.csv", "trace,x\na,3\nb,5\nc,1\nd,2\nc,4\n"),
        ("@head.csv", "trace,y\na,3\nb,5\n"),
    ],
    runs: &[
        (
            "lbench --explain --node plant --observe small --part 2/2 @back.lus @back.csv",
            "",
        ),
        (
            "lbench --explain --node plant --observe small --part 2/2 @back.lus @head.csv",
            "",
        ),
    ],
    wanted: "\
|refused: E17 trace
@back.csv:6:1: error: trace `c` comes back after a record of another trace
    6 | c,4
      | ^
@back.csv:4:1: note: it began here; the records of a trace stand together
in record 5
in part 2/2
|2
|refused: E14 header
@head.csv:1:7: error: no input of the node under test is `y`
    1 | trace,y
      |       ^
missing: x
unknown: `y`
wanted: trace,x, the inputs in any order
in part 2/2
|2
",
};

#[test]
fn part_with_bad_records(rt: HostRuntime) -> Result<(), Fail> {
    let folder = env::temp_dir(&rt)?;
    expect_answer(&rt, folder.as_str(), &REFUSED_RECORDS)
}

// ## Parts that are merged

/// The source, and twenty records of seven traces, with a blank line and both ends of lines.
const TWENTY: [(&str, &str); 2] = [
    ("@twenty.lus", SOURCE),
    (
        "@twenty.csv",
        "\
trace,x
a,3
a,4
a,1
b,5

b,2
c,4\r
c,4\r
d,1
d,1
d,9
d,2
d,3
d,1
e,0
f,1
f,2
g,6
g,4
g,3
g,2
",
    ),
];

/// The report on all seven traces.
const ALL: &str = "\
a false 2
b passed
c passed
d false 2
e passed
f passed
g false 2
total 7 passed 4 fault 0 undefined 0 assertion 0 false 3
||1
";

/// Judges a part of the traces, and writes the report on it.
fn write_part<R: Files + AllocGlobal + Threads + Wait + Clock + Sync>(
    rt: &R,
    folder: &str,
    report: &str,
    part: &str,
) -> Result<(), Fail>
where
    R::File: FileExt + Sync + Send,
{
    let line = format!(in rt.alloc();
        "lbench --node plant --observe small --part {part} @twenty.lus @twenty.csv"
    )?;
    let run = run_in(rt, folder, line.as_str(), "")?;
    write_file(rt, folder, report, run.output.as_slice())
}

/// Judges each of `parts` parts. Adds the names of their reports to a command line.
fn write_parts<R: Files + AllocGlobal + Threads + Wait + Clock + Sync>(
    rt: &R,
    folder: &str,
    parts: u32,
    line: &mut String,
) -> Result<(), Fail>
where
    R::File: FileExt + Sync + Send,
{
    for number in 1..=parts {
        let report = format!(in rt.alloc(); "@twenty_{number}")?;
        let part = format!(in rt.alloc(); "{number}/{parts}")?;
        write_part(rt, folder, report.as_str(), part.as_str())?;
        write!(line, " {report}")?;
    }
    Ok(())
}

fn remove_parts<R: Files + AllocGlobal>(
    rt: &R,
    folder: &str,
    parts: u32,
) -> Result<(), AllocError> {
    for number in 1..=parts {
        let report = format!(in rt.alloc(); "@twenty_{number}")?;
        remove_file(rt, folder, report.as_str())?;
    }
    Ok(())
}

/// What is printed when the reports on `parts` parts are merged.
fn merged<R: Files + AllocGlobal + Threads + Wait + Clock + Sync>(
    rt: &R,
    folder: &str,
    parts: u32,
) -> Result<String, Fail>
where
    R::File: FileExt + Sync + Send,
{
    let mut line = String::from_str(rt.alloc(), "lbench --merge")?;
    let mut said = String::new(rt.alloc());
    write_parts(rt, folder, parts, &mut line)?;
    push_runs(rt, folder, &[(line.as_str(), "")], &mut said)?;
    remove_parts(rt, folder, parts)?;
    Ok(said)
}

/// Fails a test unless merging the reports on 1 to 25 parts gives the report on all traces.
fn expect_merged<R: Files + AllocGlobal + Threads + Wait + Clock + Sync>(
    rt: &R,
    folder: &str,
) -> Result<(), Fail>
where
    R::File: FileExt + Sync + Send,
{
    for parts in 1..=25u32 {
        let said = merged(rt, folder, parts)?;
        expect(&Ok(said), ALL)?;
    }
    Ok(())
}

#[test]
fn parts(rt: HostRuntime) -> Result<(), Fail> {
    let folder = env::temp_dir(&rt)?;
    write_files(&rt, folder.as_str(), &TWENTY)?;
    let merged = expect_merged(&rt, folder.as_str());
    let removed = remove_files(&rt, folder.as_str(), &TWENTY);
    merged?;
    removed?;
    Ok(())
}
