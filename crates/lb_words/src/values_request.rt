//! The options that ask for the values of one trace.

ghost use Rattle.std.specs.Prelude.{◌≡◌, IfErr, IfOk, OnErr};
ghost use Rattle.clap.specs.Words.{app_of, found_of, rows_of};
ghost use Rattle.lb_words.specs.ValuesWords as spec;
ghost use Rattle.lb_words.specs.Words.{IsWrongValue};

use crate::error::WordsError;
use crate::request::{is_given, named_argument, names_trace, number_of, switch_argument, text_of};
use clap::{ArgMatches, Command};
use lb_show::Format;
use std::alloc::{AllocError, Global};

/// The greatest number that `--last` takes.
const MOST_INSTANTS: u32 = 1_000_000_000;

/// The values that are shown, and their format.
#[derive(Clone, Copy)]
pub struct Values<'a> {
    /// The name of the trace.
    pub trace: &'a str,
    pub format: Format,
    /// The number of last instants that are shown; 0 for all of them, and in a picture for 200.
    pub last: u32,
    /// Whether the variables of every instance are shown.
    pub is_whole: bool,
    /// The names of the variables that are shown, separated by commas, if only some are.
    pub names: Option<&'a str>,
}

/// Adds the options that name a trace and a format.
fn with_trace<'a>(alloc: Global, command: Command<'a>) -> Result<Command<'a>, AllocError>
    ensures { IfOk result (λ c. app_of c ≡ spec.with_trace (app_of command.entry)) }
{
    let help = "writes the values of one trace in place of the report";
    let command = command.arg(named_argument(alloc, "show", "TRACE", help))?;
    let help = "how it is written: lines or junit; with --show: table, csv, vcd or svg";
    command.arg(named_argument(alloc, "format", "FORMAT", help))
}

/// Adds the options that choose among the values.
fn with_choice<'a>(alloc: Global, command: Command<'a>) -> Result<Command<'a>, AllocError>
    ensures { IfOk result (λ c. app_of c ≡ spec.with_choice (app_of command.entry)) }
{
    let help = "shows the last N instants; 0 for all";
    let last = named_argument(alloc, "last", "N", help);
    let command = command.arg(last.default_value("0"))?;
    let help = "shows these variables, separated by commas";
    command.arg(named_argument(alloc, "vars", "NAMES", help))
}

/// Adds the option that shows every instance.
fn with_instances<'a>(alloc: Global, command: Command<'a>) -> Result<Command<'a>, AllocError>
    ensures { IfOk result (λ c. app_of c ≡ spec.with_instances (app_of command.entry)) }
{
    let help = "shows the variables of every instance";
    command.arg(switch_argument(alloc, "all", help))
}

/// Adds the options that ask for the values of one trace.
pub fn with_values<'a>(alloc: Global, command: Command<'a>) -> Result<Command<'a>, AllocError>
    ensures { IfOk result (λ c. app_of c ≡ spec.with_values (app_of command.entry)) }
{
    let command = with_trace(alloc, command)?;
    let command = with_choice(alloc, command)?;
    with_instances(alloc, command)
}

/// The format with a name.
fn format_named(name: &str) -> Option<Format>
    ensures { result ≡ spec.format_named name.now }
{
    if name == "table" {
        Some(Format::Table)
    } else if name == "csv" {
        Some(Format::Csv)
    } else if name == "vcd" {
        Some(Format::Vcd)
    } else if name == "svg" {
        Some(Format::Svg)
    } else {
        None
    }
}

/// The format of the values that the words give.
fn format_of(matches: &ArgMatches<'_>) -> Result<Format, WordsError>
    ensures ok { IfOk result (λ format.
        spec.format_in (rows_of (found_of matches.now)) ≡ Some format) }
    ensures unlawful { IfErr result (λ error. error ≡ WordsError.Unlawful) }
    ensures err { OnErr result (spec.format_in (rows_of (found_of matches.now)) ≡ None) }
{
    if !names_trace(matches) {
        return Ok(Format::Table);
    }
    match format_named(text_of(matches, "format").unwrap_or("table")) {
        Some(format) => Ok(format),
        None => Err(WordsError::Unlawful),
    }
}

/// The values that the words ask for.
pub fn values_of<'a>(matches: &ArgMatches<'a>) -> Result<Values<'a>, WordsError>
    ensures ok { IfOk result (spec.AreValues (rows_of (found_of matches.now))) }
    ensures unlawful { IfErr result (λ error. error ≡ WordsError.Unlawful) }
    ensures err { OnErr result (IsWrongValue (rows_of (found_of matches.now))) }
{
    let format = format_of(matches)?;
    let last = number_of(matches, "last", "0", 0, MOST_INSTANTS)?;
    Ok(Values {
        trace: text_of(matches, "show").unwrap_or(""),
        format,
        last,
        is_whole: is_given(matches, "all"),
        names: text_of(matches, "vars"),
    })
}
