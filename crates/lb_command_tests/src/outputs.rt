//! E19: an output that takes some bytes, and then fails.

use crate::command_lines::{expect, words_of};
use lb_command::command;
use std::alloc::AllocError;
use std::fs::Files;
use std::os::unix::fs::FileExt;
use std::sync::Wait;
use std::test::Fail;
use std::thread::Threads;
use std::time::Clock;

/// A case: a source, and two traces. Its report has 9, 10 and 57 bytes in three lines.
const CASE: &str = "node main(open: bool) returns (ok: bool);
let ok = open; tel
%traces
trace,open
w,1
x,0
";

/// A source whose header has 11 bytes.
const SOURCE: &str = "node main(open: bool) returns (ok: bool);
let ok = open; tel
";

/// The errors that are printed, and the status, where the output goes to `room`, which may be
/// short.
pub fn answer_within<R: Files + AllocGlobal + Threads + Wait + Clock + Sync>(
    rt: &R,
    line: &str,
    input: &str,
    mut room: &mut [u8],
) -> Result<String, AllocError>
where
    R::File: FileExt + Sync + Send,
{
    let words = words_of(rt.alloc(), line)?;
    let mut errors: Vec<u8> = Vec::new(rt.alloc());
    let status = command(
        rt,
        words.as_slice(),
        &mut input.as_bytes(),
        &mut room,
        &mut errors,
    );
    let printed = std::str::from_utf8(errors.as_slice()).unwrap_or("no text");
    format!(in rt.alloc(); "{printed}status {status}")
}

#[test]
fn explained_report(rt: HostRuntime) -> Result<(), Fail> {
    let mut room = [0u8; 20];
    let said = answer_within(&rt, "lbench --explain", CASE, room.as_mut_slice());
    let wanted = "refused: E19 write
lbench: error: the output failed after 20 of 76 bytes; what went out is not the whole report
status 3";
    expect(&said, wanted)
}

#[test]
fn explained_live_report(rt: HostRuntime) -> Result<(), Fail> {
    let mut room = [0u8; 10];
    let line = "lbench --explain --follow";
    let said = answer_within(&rt, line, CASE, room.as_mut_slice());
    let wanted = "refused: E19 write
lbench: error: the output failed after 10 bytes; what went out is not the whole report
status 3";
    expect(&said, wanted)
}

#[test]
fn explained_header(rt: HostRuntime) -> Result<(), Fail> {
    let mut room = [0u8; 4];
    let line = "lbench --explain --header";
    let said = answer_within(&rt, line, SOURCE, room.as_mut_slice());
    let wanted = "refused: E19 write
lbench: error: the output failed after 4 of 11 bytes; what went out is not the whole report
status 3";
    expect(&said, wanted)
}

/// The first bytes of the explanation where the help went out in part. The length of the help is
/// left out.
const FAILED_HELP: &str = "refused: E19 write
lbench: error: the output failed after 9 of ";

#[test]
fn explained_help(rt: HostRuntime) -> Result<(), Fail> {
    let mut room = [0u8; 9];
    let said = answer_within(&rt, "lbench --help --explain", "", room.as_mut_slice())?;
    assert!(rt; said.as_str().starts_with(FAILED_HELP));
    Ok(())
}
