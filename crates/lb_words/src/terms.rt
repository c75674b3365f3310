//! The terms of a run: its measure, an earlier report, and the format of its report.

ghost use Rattle.std.specs.Prelude.{◌≡◌, IfErr, IfOk, None, OnErr, Some, option_map};
ghost use Rattle.clap.specs.Words.{first_of, found_of, rows_of};
ghost use Rattle.lb_words.specs.Terms as spec;

use crate::error::WordsError;
use crate::request::{is_given, names_trace, text_of};
use clap::ArgMatches;

/// The format of a report.
#[derive(Clone, Copy)]
pub enum Format {
    /// A line for each trace, and a last line that counts.
    Lines,
    /// JUnit XML.
    Junit,
}

/// The terms of a run: its measure, an earlier report, and the format of its report.
#[derive(Clone, Copy)]
pub struct Terms<'a> {
    /// Whether the measure is strict.
    pub is_strict: bool,
    /// The path of an earlier report.
    pub baseline: Option<&'a str>,
    pub format: Format,
}

impl Terms<'_> {
    /// Whether these are the usual terms: the run is asked for nothing but its report.
    pub fn are_usual(&self) -> bool
        ensures { result ≡ spec.are_usual self.now }
    {
        match self.format {
            Format::Lines => !self.is_strict && self.baseline.is_none(),
            Format::Junit => false,
        }
    }
}

/// The format with a name.
fn format_named(name: &str) -> Option<Format>
    ensures { result ≡ spec.format_named name.now }
{
    if name == "lines" {
        Some(Format::Lines)
    } else if name == "junit" {
        Some(Format::Junit)
    } else {
        None
    }
}

/// The format of the report that the words give.
fn format_of(matches: &ArgMatches<'_>) -> Result<Format, WordsError>
    ensures ok { IfOk result (λ format.
        spec.format_in (rows_of (found_of matches.now)) ≡ Some format) }
    ensures unlawful { IfErr result (λ error. error ≡ WordsError.Unlawful) }
    ensures err { OnErr result (spec.format_in (rows_of (found_of matches.now)) ≡ None) }
{
    if names_trace(matches) {
        return Ok(Format::Lines);
    }
    match format_named(text_of(matches, "format").unwrap_or("lines")) {
        Some(format) => Ok(format),
        None => Err(WordsError::Unlawful),
    }
}

/// The terms that the words give.
pub fn terms_of<'a>(matches: &ArgMatches<'a>) -> Result<Terms<'a>, WordsError>
    ensures ok { IfOk result (spec.IsTerms (rows_of (found_of matches.now))) }
    ensures unlawful { IfErr result (λ error. error ≡ WordsError.Unlawful) }
    ensures err { OnErr result (spec.format_in (rows_of (found_of matches.now)) ≡ None) }
{
    let format = format_of(matches)?;
    Ok(Terms {
        is_strict: is_given(matches, "strict"),
        baseline: text_of(matches, "baseline"),
        format,
    })
}
