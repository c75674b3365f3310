//! The program: one node over many recorded traces, one verdict for each.
#![tactic(auto)]

use lb_command::{Painted, Refusal, announce, command, refuse};
use lb_report::Writer;
use std::alloc::Global;
use std::env;
use std::io::{self, ErrorKind, IsTerminal, Stderr, Stdin, Write};
use std::os::unix::fs::FileExt;
use std::process::ExitCode;
use std::rt::Runtime;
use std::sync::Wait;
use std::thread::{Builder, Threads};

/// The words of the command line, the program's name first.
fn words<R: Runtime + AllocGlobal>(rt: &R) -> Result<Vec<String>, Refusal> {
    match env::args(rt) {
        Ok(words) => Ok(words.collect(rt.alloc())?),
        Err(cause) if cause.kind() == ErrorKind::OutOfMemory => Err(Refusal::MEMORY),
        Err(_) => Err(Refusal::USAGE),
    }
}

/// Says that traces are awaited, where these words ask for them and standard input is a terminal.
fn say_awaited<E: Write>(alloc: Global, words: &[String], stdin: Stdin, errors: &mut E) {
    if stdin.is_terminal() {
        let _ = announce(alloc, words, &mut Writer::new(errors));
    }
}

/// Runs the program on the words of the command line and these streams, and returns its exit
/// status.
fn run<R, E>(rt: &R, mut stdin: Stdin, errors: &mut E) -> u8
where
    R: Runtime + AllocGlobal + Threads + Wait + Sync,
    R::File: FileExt + Sync + Send,
    E: Write,
{
    let words = match words(rt) {
        Ok(words) => words,
        Err(refusal) => return refuse(&refusal, &mut Writer::new(errors)),
    };
    say_awaited(rt.alloc(), words.as_slice(), stdin, errors);
    command(
        rt,
        words.as_slice(),
        &mut stdin,
        &mut io::writer(rt),
        errors,
    )
}

/// Whether explanations are in colour: standard error is a terminal, and the environment has no
/// `NO_COLOR`, or an empty one.
fn is_coloured<R: Runtime + AllocGlobal>(rt: &R, stderr: &Stderr) -> bool {
    if !stderr.is_terminal() {
        return false;
    }
    match env::var(rt, "NO_COLOR") {
        Ok(value) => value.is_empty(),
        Err(_) => true,
    }
}

/// Runs the program on the standard streams, and returns its exit status.
fn run_on_streams<R>(rt: &R, stdin: Stdin, stderr: Stderr) -> u8
where
    R: Runtime + AllocGlobal + Threads + Wait + Sync,
    R::File: FileExt + Sync + Send,
{
    let mut errors = io::writer(&stderr);
    if is_coloured(rt, &stderr) {
        run(rt, stdin, &mut Painted::new(rt.alloc(), errors))
    } else {
        run(rt, stdin, &mut errors)
    }
}

/// The stack of a run, in bytes: more than the deepest accepted texts need.
const STACK: usize = 2 << 20;

/// Runs the program in a thread with that stack; where no thread can be made, in the thread that it
/// has.
fn main(rt: HostRuntime) -> ExitCode {
    let builder = Builder::new().stack_size(STACK);
    let status = match builder.spawn(&rt, move || run_on_streams(&rt, rt.stdin(), rt.stderr())) {
        Ok(thread) => thread.join(&rt),
        Err(_) => run_on_streams(&rt, rt.stdin(), rt.stderr()),
    };
    ExitCode::from(status)
}
