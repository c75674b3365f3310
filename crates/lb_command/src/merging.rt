//! A run that merges several reports into one.

ghost use Rattle.std.specs.Prelude.{◌≡◌, ◌<◌, ◌++◌, ◌∷◌, [], ℕ, List, IfErr, IfOk, IsSome, OnOk};
ghost use Rattle.std.specs.Prelude.{length, map, string_bytes};
ghost use Rattle.lb_command.specs.Conclusions.{IsBaseline};
ghost use Rattle.lb_command.specs.Merging as spec;
ghost use Rattle.lb_command.specs.Outcomes.{IsUnread};
ghost use Rattle.lb_command.specs.Streams.{change};
ghost use Rattle.lb_listing.specs.Merged.{IsMerged, texts_of};

use crate::answer::{Answer, Warned};
use crate::conclusion::{conclude_text, load_baseline, read_baseline};
use crate::delivery::deliver;
use crate::explanation::tell;
use crate::loading::load_file;
use crate::refusal::Refusal;
use lb_listing::{Listing, MergeError, merge};
use lb_report::{Report, Sink};
use lb_words::Task;
use std::alloc::{AllocError, Global};
use std::fs::Files;
use std::os::unix::fs::FileExt;

/// Adds a text.
fn keep(texts: &mut Vec<Vec<u8>>, text: Vec<u8>) -> Result<(), AllocError>
    ensures { OnOk result (texts.new.items ≡ texts.old.items ++ text ∷ []) }
{
    texts.push(text)?;
    Ok(())
}

/// The reports at some paths, a text for each. The errors are E0 and E21.
fn load_reports<R: Files + AllocGlobal>(rt: &R, paths: &[&str]) -> Result<Vec<Vec<u8>>, Refusal>
    ensures ok { IfOk result (λ texts. length texts.items ≡ length paths.now) }
    ensures err { IfErr result IsUnread }
{
    let mut texts = Vec::new(rt.alloc());
    for path in paths {
        let text = load_file(rt, path)?;
        keep(&mut texts, text)?;
    }
    Ok(texts)
}

/// Path number `file`, or `-` where there is none.
fn path_of<'a>(paths: &[&'a str], file: usize) -> &'a str {
    match paths.get(file) {
        Some(path) => path,
        None => "-",
    }
}

/// The one report that `texts` are merged into. The errors are E0, E17 and E20.
fn merge_texts(alloc: Global, paths: &[&str], texts: &[Vec<u8>]) -> Result<Vec<u8>, Refusal>
    ensures ok { IfOk result (λ text. IsMerged (texts_of texts.now) text.items) }
    ensures err { IfErr result (spec.AreNotMerged (texts_of texts.now)) }
{
    match merge(alloc, texts) {
        Ok(text) => Ok(text),
        Err(MergeError::Memory(_)) => Err(Refusal::MEMORY),
        Err(MergeError::Fault { file, line }) => {
            Err(Refusal::no_report(alloc, path_of(paths, file), line))
        }
        Err(MergeError::Twice { file, line }) => {
            Err(Refusal::twice(alloc, path_of(paths, file), line))
        }
    }
}

/// The one report that those at `paths` are merged into. The errors are E0, E17, E20 and E21.
fn merge_files<R: Files + AllocGlobal>(rt: &R, paths: &[&str]) -> Result<Vec<u8>, Refusal>
    ensures ok { IfOk result (λ text. (texts : List (List ℕ))
        × ((length texts ≡ length paths.now) × IsMerged texts text.items)) }
    ensures err { IfErr result (spec.IsMergeRefused (length paths.now)) }
{
    let texts = load_reports(rt, paths)?;
    match merge_texts(rt.alloc(), paths, texts.as_slice()) {
        Ok(text) => Ok(text),
        Err(refusal) => Err(refusal),
    }
}

/// The output for the reports that a task names.
fn conclude_merge<R: Files + AllocGlobal>(
    rt: &R,
    task: &Task<'_>,
    baseline: Option<&Listing<'_>>,
) -> Result<Warned<Report>, Refusal>
    requires { IsBaseline task.now.terms baseline }
    ensures ok { IfOk result (λ told. spec.IsMergeTold task.now told.value told.warnings.items) }
    ensures err { IfErr result (spec.IsMergeRefused (length task.now.reports.items)) }
{
    let report = merge_files(rt, task.reports.as_slice())?;
    let node = task.options.node.as_str();
    let told = conclude_text(
        rt.alloc(),
        &task.terms,
        node,
        &[],
        report.as_slice(),
        baseline,
    )?;
    Ok(told.into_warned())
}

/// Runs a task that merges reports, and returns the exit status; `baseline` is the earlier report
/// that the terms name.
fn run_measured<R, W, E>(
    rt: &R,
    words: &[String],
    task: &Task<'_>,
    baseline: Option<&Listing<'_>>,
    writer: &mut W,
    errors: &mut E,
) -> u8
where
    R: Files + AllocGlobal,
    R::File: FileExt,
    W: Sink,
    E: Sink,
    requires baseline { IsBaseline task.now.terms baseline }
    requires writer { W.failures writer.old < u64.MAX }
    requires errors { E.failures errors.old < u64.MAX }
    ensures { spec.IsMergeRun (map string_bytes words.now) task.now result
        (change (W.taken writer.old) (W.taken writer.new)
        (W.failures writer.old) (W.failures writer.new))
        (change (E.taken errors.old) (E.taken errors.new)
        (E.failures errors.old) (E.failures errors.new)) }
{
    match conclude_merge(rt, task, baseline) {
        Ok(told) => {
            let Warned { value, warnings } = told;
            let answer = Answer::OfTraces(value);
            deliver(rt, words, &answer, warnings.as_slice(), writer, errors)
        }
        Err(refusal) => tell(rt, words, Some(task), &refusal, errors),
    }
}

/// Runs a task that merges reports and compares the merged report with an earlier one, and returns
/// the exit status; `earlier` is the text of the earlier report.
fn run_compared<R, W, E>(
    rt: &R,
    words: &[String],
    task: &Task<'_>,
    earlier: &[u8],
    writer: &mut W,
    errors: &mut E,
) -> u8
where
    R: Files + AllocGlobal,
    R::File: FileExt,
    W: Sink,
    E: Sink,
    requires baseline { IsSome task.now.terms.baseline }
    requires writer { W.failures writer.old < u64.MAX }
    requires errors { E.failures errors.old < u64.MAX }
    ensures { spec.IsMergeRun (map string_bytes words.now) task.now result
        (change (W.taken writer.old) (W.taken writer.new)
        (W.failures writer.old) (W.failures writer.new))
        (change (E.taken errors.old) (E.taken errors.new)
        (E.failures errors.old) (E.failures errors.new)) }
{
    match read_baseline(rt.alloc(), &task.terms, earlier) {
        Ok(before) => run_measured(rt, words, task, Some(&before), writer, errors),
        Err(refusal) => tell(rt, words, Some(task), &refusal, errors),
    }
}

/// Runs a task that merges reports, and returns the exit status. An earlier report is read before
/// them.
pub fn run_merge<R, W, E>(
    rt: &R,
    words: &[String],
    task: &Task<'_>,
    writer: &mut W,
    errors: &mut E,
) -> u8
where
    R: Files + AllocGlobal,
    R::File: FileExt,
    W: Sink,
    E: Sink,
    requires writer { W.failures writer.old < u64.MAX }
    requires errors { E.failures errors.old < u64.MAX }
    ensures { spec.IsMergeRun (map string_bytes words.now) task.now result
        (change (W.taken writer.old) (W.taken writer.new)
        (W.failures writer.old) (W.failures writer.new))
        (change (E.taken errors.old) (E.taken errors.new)
        (E.failures errors.old) (E.failures errors.new)) }
{
    match load_baseline(rt, &task.terms) {
        Ok(earlier) => match earlier {
            None => run_measured(rt, words, task, None, writer, errors),
            Some(text) => run_compared(rt, words, task, text.as_slice(), writer, errors),
        },
        Err(refusal) => tell(rt, words, Some(task), &refusal, errors),
    }
}
