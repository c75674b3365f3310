//! The request that the words of the command line make.

ghost use Rattle.std.specs.Prelude.{◌≡◌, ◌≢◌, ◌<◌, ◌≤◌, ◌==◌, ◌⊎◌, ℕ, true, false};
ghost use Rattle.std.specs.Prelude.{IfOk, IfErr, OnOk, OnErr};
ghost use Rattle.std.specs.Prelude.{[], None, map, option_map, slice_index, string_bytes};
ghost use Rattle.clap.specs.Words.{IsAmong, app_of, first_of, found_of, kind_of, rows_of, rule_of};
ghost use Rattle.lb_words.specs.Terms.{are_usual};
ghost use Rattle.lb_words.specs.ValuesWords.{names_trace};
ghost use Rattle.lb_words.specs.WordValues as given;
ghost use Rattle.lb_words.specs.Words as spec;

use crate::error::WordsError;
use crate::modes::{with_merging, with_modes, with_parts, with_terms};
use crate::terms::{Terms, terms_of};
use crate::values_request::{Values, values_of, with_values};
use clap::error::ErrorKind;
use clap::{Arg, ArgAction, ArgMatches, Command, Error};
use lb_part::Part;
use lb_refusal::Options;
use std::alloc::{AllocError, Global};

/// The request that the words make.
#[derive(Drop)]
pub enum Request<'a> {
    /// The help text, to be printed.
    Help(String),
    /// The program's name and its version.
    Version,
    /// A run.
    Run(Task<'a>),
}

/// The aim of a run: what it is to give.
#[derive(Clone, Copy)]
pub enum Aim {
    /// The report on the traces, at once.
    Report,
    /// The report on the traces, line by line.
    LiveReport,
    /// The values of one trace, in place of the report.
    OneTrace,
    /// Whether the source is accepted. No traces are read.
    Check,
    /// The header that the traces must have, if the source is accepted. No traces are read.
    Header,
    /// One report in place of several. Neither a source nor traces are read.
    Merge,
}

/// A run: its options, its aim, its terms, and the paths of its inputs. An input without a path
/// comes from standard input.
#[derive(Drop)]
pub struct Task<'a> {
    pub options: Options,
    pub aim: Aim,
    pub terms: Terms<'a>,
    pub source: Option<&'a str>,
    pub traces: Option<&'a str>,
    /// The values that are shown, where those of one trace are asked for.
    pub values: Values<'a>,
    /// The paths of the reports that are merged.
    pub reports: Vec<&'a str>,
    /// The part of the traces that is judged; all where there is none.
    pub part: Option<Part>,
}

/// An option with a value; the help text calls the value `value`, and says `help` of the option.
pub fn named_argument<'a>(alloc: Global, name: &'a str, value: &'a str, help: &'a str) -> Arg<'a>
    ensures rule { rule_of result ≡ given.named name.entry.now }
    ensures global { result.global ≡ false }
{
    Arg::new(alloc, name)
        .long(name)
        .value_name(value)
        .help(help)
}

/// An argument that is known by its place; the help text calls it `value`, and says `help` of it.
fn placed_argument<'a>(alloc: Global, name: &'a str, value: &'a str, help: &'a str) -> Arg<'a>
    ensures rule { rule_of result ≡ given.placed name.entry.now }
    ensures global { result.global ≡ false }
{
    Arg::new(alloc, name).value_name(value).help(help)
}

/// An option without a value.
pub fn switch_argument<'a>(alloc: Global, name: &'a str, help: &'a str) -> Arg<'a>
    ensures rule { rule_of result ≡ given.switch name.entry.now }
    ensures global { result.global ≡ false }
{
    Arg::new(alloc, name)
        .long(name)
        .action(ArgAction::SetTrue)
        .help(help)
}

/// Adds the options that name a node.
fn with_nodes<'a>(alloc: Global, command: Command<'a>) -> Result<Command<'a>, AllocError>
    ensures { IfOk result (λ c. app_of c ≡ spec.with_nodes (app_of command.entry)) }
{
    let node = named_argument(alloc, "node", "NAME", "the node under test");
    let command = command.arg(node.default_value("main"))?;
    let help = "the node that judges it; without one it judges itself";
    command.arg(named_argument(alloc, "observe", "NAME", help))
}

/// Adds the options for workers and batches.
fn with_numbers<'a>(alloc: Global, command: Command<'a>) -> Result<Command<'a>, AllocError>
    ensures { IfOk result (λ c. app_of c ≡ spec.with_numbers (app_of command.entry)) }
{
    let help = "how many workers run the batches, up to 64; 0: one for each processor";
    let workers = named_argument(alloc, "workers", "N", help);
    let command = command.arg(workers.default_value("1"))?;
    let help = "how many traces are in a batch at most, 1 to 64";
    let batch = named_argument(alloc, "batch", "N", help);
    command.arg(batch.default_value("64"))
}

/// Adds the options without a value.
fn with_switches<'a>(alloc: Global, command: Command<'a>) -> Result<Command<'a>, AllocError>
    ensures { IfOk result (λ c. app_of c ≡ spec.with_switches (app_of command.entry)) }
{
    let help = "with --follow, puts traces of like length into one batch";
    let command = command.arg(switch_argument(alloc, "by-length", help))?;
    let help = "writes each line as soon as it and all before it are known";
    command.arg(switch_argument(alloc, "follow", help))
}

/// Adds the options for how the work is spread, and for a live report.
fn with_spread<'a>(alloc: Global, command: Command<'a>) -> Result<Command<'a>, AllocError>
    ensures { IfOk result (λ c. app_of c ≡ spec.with_spread (app_of command.entry)) }
{
    let command = with_numbers(alloc, command)?;
    with_switches(alloc, command)
}

/// Adds the inputs.
fn with_inputs<'a>(alloc: Global, command: Command<'a>) -> Result<Command<'a>, AllocError>
    ensures { IfOk result (λ c. app_of c ≡ spec.with_inputs (app_of command.entry)) }
{
    let help = "the source; without it standard input holds source and traces";
    let command = command.arg(placed_argument(alloc, "source", "SOURCE", help))?;
    let help = "the traces; without it standard input holds them";
    command.arg(placed_argument(alloc, "traces", "TRACES", help))
}

/// The command line that the program knows.
fn command_line<'a>(alloc: Global) -> Result<Command<'a>, AllocError>
    ensures { IfOk result (λ c. app_of c ≡ spec.command_line) }
{
    let about = "Runs one node of a Lustre V6 source over recorded traces.";
    let command = with_nodes(alloc, Command::new(alloc, "lbench").about(about))?;
    let command = with_spread(alloc, command)?;
    let command = with_values(alloc, command)?;
    let command = with_modes(alloc, command)?;
    let command = with_terms(alloc, command)?;
    let command = with_parts(alloc, command)?;
    let command = with_merging(alloc, command)?;
    with_inputs(alloc, command)
}

/// The value that the words give for the argument `id`, or its default.
pub fn text_of<'a>(matches: &ArgMatches<'a>, id: &str) -> Option<&'a str>
    ensures { option_map (λ s. s.now) result ≡ first_of id.now (rows_of (found_of matches.now)) }
{
    matches.get_str(id)
}

/// Whether a text has a plus in front.
fn has_plus(text: &str) -> bool
    ensures { result ≡ (slice_index text.now 0 == 43) }
{
    match text.as_bytes() {
        [first, ..] => *first == b'+',
        [] => false,
    }
}

/// The number that ASCII digits spell, if it is from `least` to `most`.
fn number(text: &str, least: u32, most: u32) -> Result<u32, WordsError>
    ensures ok { IfOk result (given.IsNumber text.now least most) }
    ensures unlawful { IfErr result (λ error. error ≡ WordsError.Unlawful) }
    ensures err { OnErr result ((n : ℕ) → given.IsNumber text.now least most n → ⊥) }
{
    if has_plus(text) {
        return Err(WordsError::Unlawful);
    }
    match text.parse::<u32>() {
        Ok(n) if least <= n && n <= most => Ok(n),
        _ => Err(WordsError::Unlawful),
    }
}

/// A number that the words give.
pub fn number_of(
    matches: &ArgMatches<'_>,
    id: &str,
    default: &str,
    least: u32,
    most: u32,
) -> Result<u32, WordsError>
    ensures ok { IfOk result (given.HasNumber (rows_of (found_of matches.now)) id.now default.now
        least most) }
    ensures unlawful { IfErr result (λ error. error ≡ WordsError.Unlawful) }
    ensures err { OnErr result ((n : ℕ) →
        given.HasNumber (rows_of (found_of matches.now)) id.now default.now least most n → ⊥) }
{
    number(text_of(matches, id).unwrap_or(default), least, most)
}

/// Whether the words give an option that has no value.
pub fn is_given(matches: &ArgMatches<'_>, id: &str) -> bool
    ensures { result ≡ given.is_given (first_of id.now (rows_of (found_of matches.now))) }
{
    match text_of(matches, id) {
        Some(text) => text == "true",
        None => false,
    }
}

/// The options that the words give.
fn options(alloc: Global, matches: &ArgMatches<'_>) -> Result<Options, WordsError>
    ensures ok { IfOk result (spec.IsOptions (rows_of (found_of matches.now))) }
    ensures err { IfErr result (spec.AreRefused (rows_of (found_of matches.now))) }
{
    let workers = number_of(matches, "workers", "1", 0, 64)?;
    let batch = number_of(matches, "batch", "64", 1, 64)?;
    let by_length = is_given(matches, "by-length");
    let node = String::from_str(alloc, text_of(matches, "node").unwrap_or("main"))?;
    let observer = match text_of(matches, "observe") {
        Some(name) => Some(String::from_str(alloc, name)?),
        None => None,
    };
    Ok(Options::new(node, observer, workers, batch, by_length))
}

/// Whether the words name a trace whose values are shown.
pub fn names_trace(matches: &ArgMatches<'_>) -> bool
    ensures { result ≡ names_trace (rows_of (found_of matches.now)) }
{
    text_of(matches, "show").is_some()
}

/// The aim of the run that the words ask for. `--header` comes before `--check`: a header says too
/// that the source is accepted.
fn aim_of(matches: &ArgMatches<'_>) -> Aim
    ensures { result ≡ spec.aim_of (rows_of (found_of matches.now)) }
{
    if text_of(matches, "merge").is_some() {
        Aim::Merge
    } else if is_given(matches, "header") {
        Aim::Header
    } else if is_given(matches, "check") {
        Aim::Check
    } else if names_trace(matches) {
        Aim::OneTrace
    } else if is_given(matches, "follow") {
        Aim::LiveReport
    } else {
        Aim::Report
    }
}

/// A copy of some paths.
fn copied<'a>(alloc: Global, paths: &[&'a str]) -> Result<Vec<&'a str>, AllocError>
    ensures { IfOk result (λ copy. copy.items ≡ paths.now) }
{
    let mut copy = Vec::new(alloc);
    copy.extend_from_slice(paths)?;
    Ok(copy)
}

/// The reports that the words name.
fn reports_of<'a>(alloc: Global, matches: &ArgMatches<'a>) -> Result<Vec<&'a str>, AllocError>
    ensures { IfOk result (λ paths. map (λ s. s.now) paths.items
        ≡ spec.reports_of (rows_of (found_of matches.now))) }
{
    match matches.get_strs("merge") {
        Some(paths) => copied(alloc, paths),
        None => Ok(Vec::new(alloc)),
    }
}

/// Whether a live report has no worker or other terms than the usual ones, or a merge has a source.
fn is_stray(aim: Aim, workers: u32, terms: &Terms<'_>, source: Option<&str>) -> bool
    ensures stray { result ≡ true → spec.IsStray aim workers terms.now source.entry }
    ensures worker { result ≡ false → aim ≡ Aim.LiveReport → 0 < workers }
    ensures usual { result ≡ false → aim ≡ Aim.LiveReport → are_usual terms.now ≡ true }
    ensures no_source { result ≡ false → aim ≡ Aim.Merge → source.entry ≡ None }
{
    match aim {
        Aim::LiveReport => workers == 0 || !terms.are_usual(),
        Aim::Merge => source.is_some(),
        _ => false,
    }
}

/// The part of the file of traces that the words name, if they name one.
fn part_of_file(matches: &ArgMatches<'_>) -> Result<Option<Part>, WordsError>
    ensures part { IfOk result (spec.IsPartOf (rows_of (found_of matches.now))) }
    ensures file { IfOk result (spec.HasFile (rows_of (found_of matches.now))) }
    ensures err { IfErr result (λ error. (error ≡ WordsError.Unlawful)
        × spec.IsWrongValue (rows_of (found_of matches.now))) }
{
    let Some(text) = text_of(matches, "part") else {
        return Ok(None);
    };
    let Some(part) = Part::named(text) else {
        return Err(WordsError::Unlawful);
    };
    match text_of(matches, "traces") {
        Some(_) => Ok(Some(part)),
        None => Err(WordsError::Unlawful),
    }
}

/// The run that the words ask for, with these options.
fn task_with<'a>(
    alloc: Global,
    matches: &ArgMatches<'a>,
    options: Options,
) -> Result<Task<'a>, WordsError>
    requires { spec.IsOptions (rows_of (found_of matches.now)) options }
    ensures ok { IfOk result (spec.IsTask (rows_of (found_of matches.now))) }
    ensures err { IfErr result (spec.AreRefused (rows_of (found_of matches.now))) }
{
    let aim = aim_of(matches);
    let terms = terms_of(matches)?;
    let source = text_of(matches, "source");
    if is_stray(aim, options.workers, &terms, source) {
        return Err(WordsError::Unlawful);
    }
    let part = part_of_file(matches)?;
    let values = values_of(matches)?;
    let reports = reports_of(alloc, matches)?;
    Ok(Task {
        options,
        aim,
        terms,
        source,
        traces: text_of(matches, "traces"),
        values,
        reports,
        part,
    })
}

/// The run that the words ask for. A live report takes at least one worker, and the usual terms; a
/// merge has no source; a part has a file of traces.
fn read_task<'a>(alloc: Global, matches: &ArgMatches<'a>) -> Result<Task<'a>, WordsError>
    ensures ok { IfOk result (spec.IsTask (rows_of (found_of matches.now))) }
    ensures err { IfErr result (spec.AreRefused (rows_of (found_of matches.now))) }
{
    match options(alloc, matches) {
        Ok(options) => task_with(alloc, matches, options),
        Err(error) => Err(error),
    }
}

/// The help text, if the error of a command line is that it asks for help.
fn help(alloc: Global, error: &Error) -> Result<String, WordsError>
    ensures ok { OnOk result (kind_of error.now ≡ ErrorKind.DisplayHelp) }
    ensures err { IfErr result (λ cause. (cause ≡ WordsError.Memory)
        ⊎ ((cause ≡ WordsError.Unlawful) × (kind_of error.now ≢ ErrorKind.DisplayHelp)
        × (kind_of error.now ≢ ErrorKind.OutOfMemory))) }
{
    match error.kind() {
        ErrorKind::DisplayHelp => Ok(format!(in alloc; "{error}")?),
        ErrorKind::OutOfMemory => Err(WordsError::Memory),
        _ => Err(WordsError::Unlawful),
    }
}

/// The values that the parser finds in the words.
fn parse<'a>(command: Command<'a>, words: &'a [String]) -> Result<ArgMatches<'a>, Error>
    requires { app_of command ≡ spec.command_line }
    ensures ok { IfOk result (λ matches.
        rows_of (found_of matches) ≡ spec.values_of (map string_bytes words.entry.now)) }
    ensures lawful { OnOk result (spec.faults_of (map string_bytes words.entry.now) ≡ []) }
    ensures err { IfErr result (λ error. kind_of error ≢ ErrorKind.OutOfMemory →
        IsAmong (kind_of error) (spec.faults_of (map string_bytes words.entry.now))) }
{
    command.try_get_matches_from(words)
}

/// The request that lawful words make.
fn request_of<'a>(alloc: Global, matches: &ArgMatches<'a>) -> Result<Request<'a>, WordsError>
    ensures ok { IfOk result (spec.IsRequestOf (rows_of (found_of matches.now))) }
    ensures err { IfErr result (spec.AreRefused (rows_of (found_of matches.now))) }
{
    if is_given(matches, "version") {
        return Ok(Request::Version);
    }
    Ok(Request::Run(read_task(alloc, matches)?))
}

/// The request that the words make; the first word is the program's name. The errors are E0 and
/// E20.
// Out of line, so that the parts of the command line do not stay on the stack of a whole run.
#[inline(never)]
#[tactic(auto, using(crate::proofs::Words::asks_for_help))]
pub fn read_words(alloc: Global, words: &[String]) -> Result<Request<'_>, WordsError>
    ensures ok { IfOk result (spec.IsRequest (map string_bytes words.now)) }
    ensures err { IfErr result (spec.IsRefused (map string_bytes words.now)) }
{
    let command = command_line(alloc)?;
    match parse(command, words) {
        Ok(matches) => request_of(alloc, &matches),
        Err(error) => Ok(Request::Help(help(alloc, &error)?)),
    }
}
