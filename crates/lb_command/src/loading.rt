//! The texts that a run is about, from the files and the input that its task names.

ghost use Rattle.std.specs.Prelude.{◌≡◌, ◌<◌, IfErr, IfOk};
ghost use Rattle.lb_command.specs.Outcomes as spec;
ghost use Rattle.lb_command.specs.Streams.{input};

use crate::refusal::{Refusal, Texts};
use lb_part::{FileRanges, Part, PartError, load_part};
use lb_report::{Feed, Reader, load};
use lb_words::Task;
use std::alloc::Global;
use std::fs::{File, Files, OpenFile};
use std::io::{self, Read};
use std::os::unix::fs::FileExt;

/// The texts of a report, as they are loaded.
#[derive(Drop)]
pub enum Loaded<'a, F> {
    /// Two texts.
    Texts(Texts),
    /// A source, and the file of its traces, which is open.
    Open {
        source: Vec<u8>,
        path: &'a str,
        file: F,
    },
}

/// The cause for a file that was opened and could not be read to its end.
const UNREAD: &str = "it is a folder, a read failed, or it is longer than 1100000000 bytes";

/// The cause for a file whose parts could not be read.
const NO_FILE: &str = "it is no regular file, or a read failed";

/// The cause for a file that has no parts.
const QUOTED: &str = "a text with quotes has no parts; leave `--part` out";

/// The bytes of an input. The errors are E0 and E21.
#[tactic(auto, using(crate::proofs::Outcomes::load_unread))]
fn load_input<F: Feed>(alloc: Global, feed: &mut F) -> Result<Vec<u8>, Refusal>
    requires { F.failures feed.old < u64.MAX }
    ensures ok { IfOk result (λ bytes. spec.IsInput (F.coming feed.old) bytes.items) }
    ensures err { IfErr result spec.IsUnread }
    ensures read { spec.HasRead ⊥
        (input (F.coming feed.old) (F.given feed.old) (F.given feed.new)
        (F.failures feed.old) (F.failures feed.new)) result }
{
    Ok(load(alloc, feed)?)
}

/// The bytes of the file at a path, which is open. The errors are E0 and E21.
pub fn load_open<F: Read>(alloc: Global, path: &str, file: &mut F) -> Result<Vec<u8>, Refusal>
    ensures ok { IfOk result (λ bytes. spec.IsInput (F.remaining file.old) bytes.items) }
    ensures err { IfErr result spec.IsUnread }
{
    match load_input(alloc, &mut Reader::new(file)) {
        Err(refusal) if refusal.number == 21 => Err(Refusal::unread(alloc, path, UNREAD)),
        loaded => loaded,
    }
}

/// The refusal of a file that the system does not open.
fn unopened(alloc: Global, path: &str, cause: &io::Error) -> Refusal
    ensures { result.number ≡ 21 }
{
    match format!(in alloc; "{cause}") {
        Ok(why) => Refusal::unread(alloc, path, why.as_str()),
        Err(_) => Refusal::READ,
    }
}

/// The file at a path. The error is E21.
fn open_file<R: Files + AllocGlobal>(rt: &R, path: &str) -> Result<R::File, Refusal>
    ensures { IfErr result (λ refusal. refusal.number ≡ 21) }
{
    match File::open(rt, path) {
        Ok(file) => Ok(file),
        Err(cause) => Err(unopened(rt.alloc(), path, &cause)),
    }
}

/// The bytes of the file at a path. The errors are E0 and E21.
pub fn load_file<R: Files + AllocGlobal>(rt: &R, path: &str) -> Result<Vec<u8>, Refusal>
    ensures { IfErr result spec.IsUnread }
{
    match open_file(rt, path) {
        Ok(mut file) => load_open(rt.alloc(), path, &mut file),
        Err(refusal) => Err(refusal),
    }
}

/// A part of the file of traces at a path, which is open. The errors are E0 and E21.
fn load_part_of<F: OpenFile + FileExt>(
    alloc: Global,
    path: &str,
    file: &F,
    part: Part,
) -> Result<Vec<u8>, Refusal>
    ensures { IfErr result spec.IsUnread }
{
    match load_part(alloc, &FileRanges::new(file), part) {
        Ok(traces) => Ok(traces),
        Err(PartError::Memory) => Err(Refusal::MEMORY),
        Err(PartError::Read) => Err(Refusal::unread(alloc, path, NO_FILE)),
        Err(PartError::Quote) => Err(Refusal::unread(alloc, path, QUOTED)),
    }
}

/// The texts for the report of a task; the source is read before the traces. A file of traces is
/// opened once: a second opening of a named pipe would lose the bytes that the first one was given.
/// The errors are E0 and E21.
pub fn load_texts<'a, R, F>(
    rt: &R,
    task: &Task<'a>,
    reader: &mut F,
) -> Result<Loaded<'a, R::File>, Refusal>
where
    R: Files + AllocGlobal,
    R::File: FileExt,
    F: Feed,
    requires { F.failures reader.old < u64.MAX }
    ensures ok { IfOk result (spec.IsLoaded task.now (F.coming reader.old)) }
    ensures err { IfErr result spec.IsUnread }
    ensures read { spec.HasRead (spec.HasPath task.now)
        (input (F.coming reader.old) (F.given reader.old) (F.given reader.new)
        (F.failures reader.old) (F.failures reader.new)) result }
{
    let Some(path) = task.source else {
        let case = load_input(rt.alloc(), reader)?;
        return Ok(Loaded::Texts(Texts::Case(case)));
    };
    let source = load_file(rt, path)?;
    match task.traces {
        None => {
            let traces = load_input(rt.alloc(), reader)?;
            Ok(Loaded::Texts(Texts::Two { source, traces }))
        }
        Some(path) => {
            let file = open_file(rt, path)?;
            let Some(part) = task.part else {
                return Ok(Loaded::Open { source, path, file });
            };
            let traces = load_part_of(rt.alloc(), path, &file, part)?;
            Ok(Loaded::Texts(Texts::Two { source, traces }))
        }
    }
}

/// The source of a task: alone where it has a path, else with the traces, which the input holds
/// too. The errors are E0 and E21.
pub fn load_source<R, F>(rt: &R, task: &Task<'_>, reader: &mut F) -> Result<Texts, Refusal>
where
    R: Files + AllocGlobal,
    F: Feed,
    requires { F.failures reader.old < u64.MAX }
    ensures ok { IfOk result (λ texts.
        spec.IsSource task.now (F.coming reader.old) (spec.source_in texts)) }
    ensures err { IfErr result spec.IsUnread }
    ensures read { spec.HasRead (spec.HasPath task.now)
        (input (F.coming reader.old) (F.given reader.old) (F.given reader.new)
        (F.failures reader.old) (F.failures reader.new)) result }
{
    let alloc = rt.alloc();
    let Some(path) = task.source else {
        let case = load_input(alloc, reader)?;
        return Ok(Texts::Case(case));
    };
    let source = load_file(rt, path)?;
    let traces = Vec::new(alloc);
    Ok(Texts::Two { source, traces })
}
