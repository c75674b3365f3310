//! A run on a reader and writers of std.

ghost use Rattle.std.specs.Prelude.{◌≡◌, ◌<◌, map, string_bytes};
ghost use Rattle.lb_command.specs.Correct.{IsRun};
ghost use Rattle.lb_command.specs.StreamRuns.{IsStreamRun};
ghost use Rattle.lb_command.specs.Streams.{change, input};

use crate::run::run_command;
use lb_report::{Feed, Reader, Sink, Writer};
use std::fs::Files;
use std::io::{Read, Write};
use std::os::unix::fs::FileExt;
use std::sync::Wait;
use std::thread::Threads;
use std::time::Clock;

/// Runs the program on these words, a feed and the sinks of two writers, and returns its exit
/// status. Behind the run the sinks still lend their bytes to the same writers.
fn run_on<'o, 'e, R, F, O, E>(
    rt: &R,
    words: &[String],
    reader: &mut F,
    output: &mut Writer<'o, O>,
    errors: &mut Writer<'e, E>,
) -> u8
where
    R: Files + AllocGlobal + Threads + Wait + Clock + Sync,
    R::File: FileExt + Sync + Send,
    F: Feed + Send,
    O: Write,
    E: Write,
    requires reader { F.failures reader.old < u64.MAX }
    requires output { ⟦<Writer<'o, O> as Sink>⟧.failures output.old < u64.MAX }
    requires errors { ⟦<Writer<'e, E> as Sink>⟧.failures errors.old < u64.MAX }
    ensures output { output.new.writer.ghost_name ≡ output.old.writer.ghost_name }
    ensures errors { errors.new.writer.ghost_name ≡ errors.old.writer.ghost_name }
    ensures run { IsRun (map string_bytes words.now)
        (input (F.coming reader.old) (F.given reader.old) (F.given reader.new)
        (F.failures reader.old) (F.failures reader.new)) result
        (change (⟦<Writer<'o, O> as Sink>⟧.taken output.old)
        (⟦<Writer<'o, O> as Sink>⟧.taken output.new)
        (⟦<Writer<'o, O> as Sink>⟧.failures output.old)
        (⟦<Writer<'o, O> as Sink>⟧.failures output.new))
        (change (⟦<Writer<'e, E> as Sink>⟧.taken errors.old)
        (⟦<Writer<'e, E> as Sink>⟧.taken errors.new)
        (⟦<Writer<'e, E> as Sink>⟧.failures errors.old)
        (⟦<Writer<'e, E> as Sink>⟧.failures errors.new)) }
{
    run_command(rt, words, reader, output, errors)
}

/// Runs the program on these words, the program's name first, and returns its exit status.
///
/// | Status | When |
/// |---|---|
/// | 0 | a report in which no trace fails |
/// | 0 | with `--follow`: the whole report went out |
/// | 0 | with `--show`: the values went out |
/// | 0 | with `--check` and `--header`: the source is accepted |
/// | 0 | `--help`, `--version` |
/// | 1 | a report in which some trace fails: it has a fault, is undefined or false; with `--strict`
///        also one that broke an assumption, and a report on no trace; with `--baseline` only one
///        that passed in the earlier report, or is new |
/// | 2 | refused: E1 to E18, E20 |
/// | 3 | E0, E19, E21 |
pub fn command<R, I, O, E>(
    rt: &R,
    words: &[String],
    reader: &mut I,
    writer: &mut O,
    errors: &mut E,
) -> u8
where
    R: Files + AllocGlobal + Threads + Wait + Clock + Sync,
    R::File: FileExt + Sync + Send,
    I: Read + Send,
    O: Write,
    E: Write,
    ensures { IsStreamRun (map string_bytes words.now) (I.remaining reader.old) result
        (O.contents writer.old) (O.contents writer.new)
        (E.contents errors.old) (E.contents errors.new) }
{
    let mut output = Writer::new(writer);
    let mut messages = Writer::new(errors);
    run_on(
        rt,
        words,
        &mut Reader::new(reader),
        &mut output,
        &mut messages,
    )
}
