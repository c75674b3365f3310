//! A note for a person at a terminal: that the traces are awaited from there.

ghost use Rattle.std.specs.Prelude.{◌≡◌, ◌+◌, ◌<◌, ◌≤◌, IfErr, OnErr, OnOk, map, string_bytes};
ghost use Rattle.lb_command.specs.Announcements as spec;
ghost use Rattle.lb_command.specs.Correct.{IsRefusal};
ghost use Rattle.lb_command.specs.Streams.{IsUntouched, change};

use crate::delivery::warn;
use crate::refusal::Refusal;
use lb_report::Sink;
use lb_words::{Aim, Request, Task, read_words};
use std::alloc::Global;

/// The note where traces are awaited.
const NOTE: &str = "lbench: the traces are read from standard input\n";

/// Whether a task reads a source at a path and then the traces from standard input.
fn awaits_traces(task: &Task<'_>) -> bool
    ensures { result ≡ spec.awaits_traces task.now }
{
    match task.aim {
        Aim::Report | Aim::LiveReport | Aim::OneTrace => task.source.is_some()
            && task.traces.is_none(),
        Aim::Check | Aim::Header | Aim::Merge => false,
    }
}

/// Writes the note where a task awaits traces. Where standard error fails nothing else changes.
fn note<E: Sink>(task: &Task<'_>, errors: &mut E)
    requires { E.failures errors.old < u64.MAX }
    ensures noted { spec.IsNotedBy (spec.awaits_traces task.now)
        (change (E.taken errors.old) (E.taken errors.new)
        (E.failures errors.old) (E.failures errors.new)) }
    ensures failures { E.failures errors.new ≤ E.failures errors.old + 1 }
{
    if awaits_traces(task) {
        warn(errors, NOTE.as_bytes());
    }
}

/// Says on standard error that the traces are read from standard input, where these words ask for
/// that and name a source: a person might else wait for a report while the program waits for
/// traces. The errors are E0 and E20. Where standard error fails nothing else changes.
pub fn announce<E: Sink>(alloc: Global, words: &[String], errors: &mut E) -> Result<(), Refusal>
    requires { E.failures errors.old < u64.MAX }
    ensures ok { OnOk result (spec.IsAnnounced (map string_bytes words.now)
        (change (E.taken errors.old) (E.taken errors.new)
        (E.failures errors.old) (E.failures errors.new))) }
    ensures err { IfErr result (λ refusal. IsRefusal (map string_bytes words.now) refusal) }
    ensures untouched { OnErr result (IsUntouched
        (change (E.taken errors.old) (E.taken errors.new)
        (E.failures errors.old) (E.failures errors.new))) }
    ensures failures { E.failures errors.new ≤ E.failures errors.old + 1 }
{
    match read_words(alloc, words) {
        Ok(request) => match request {
            Request::Help(_text) => Ok(()),
            Request::Version => Ok(()),
            Request::Run(task) => {
                note(&task, errors);
                Ok(())
            }
        },
        Err(cause) => Err(Refusal::from(cause)),
    }
}
