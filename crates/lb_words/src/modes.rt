//! The options that ask for more than a report, or for something else.

ghost use Rattle.std.specs.Prelude.{◌≡◌, IfOk, false};
ghost use Rattle.clap.specs.Words.{app_of, rule_of};
ghost use Rattle.lb_words.specs.WordValues as given;
ghost use Rattle.lb_words.specs.Words as spec;

use crate::request::{named_argument, switch_argument};
use clap::{Arg, Command};
use std::alloc::{AllocError, Global};

/// Adds the option that asks for explanations.
fn with_explanations<'a>(alloc: Global, command: Command<'a>) -> Result<Command<'a>, AllocError>
    ensures { IfOk result (λ c. app_of c ≡ spec.with_explanations (app_of command.entry)) }
{
    let help = "tells why a text is refused, or why traces do not pass (the first 20)";
    let command = command.arg(switch_argument(alloc, "explain", help))?;
    let help = "the same for all traces that do not pass";
    command.arg(switch_argument(alloc, "explain-all", help))
}

/// Adds the options that ask about the source alone.
fn with_judging<'a>(alloc: Global, command: Command<'a>) -> Result<Command<'a>, AllocError>
    ensures { IfOk result (λ c. app_of c ≡ spec.with_judging (app_of command.entry)) }
{
    let help = "judges the source alone, and reads no traces";
    let command = command.arg(switch_argument(alloc, "check", help))?;
    let help = "prints the header that the traces must have, and reads none";
    command.arg(switch_argument(alloc, "header", help))
}

/// The option that asks for the version.
fn version_argument<'a>(alloc: Global) -> Arg<'a>
    ensures rule { rule_of result ≡ spec.version_switch }
    ensures global { result.global ≡ false }
{
    let help = "prints the program's name, its version and its toolchain";
    switch_argument(alloc, "version", help).short('V')
}

/// Adds the option that asks for the version.
fn with_version<'a>(alloc: Global, command: Command<'a>) -> Result<Command<'a>, AllocError>
    ensures { IfOk result (λ c. app_of c ≡ spec.with_version (app_of command.entry)) }
{
    command.arg(version_argument(alloc))
}

/// Adds the options that ask for more than a report, or for something else.
pub fn with_modes<'a>(alloc: Global, command: Command<'a>) -> Result<Command<'a>, AllocError>
    ensures { IfOk result (λ c. app_of c ≡ spec.with_modes (app_of command.entry)) }
{
    let command = with_explanations(alloc, command)?;
    let command = with_judging(alloc, command)?;
    with_version(alloc, command)
}

/// Adds the options for the measure and the earlier report of a run.
pub fn with_terms<'a>(alloc: Global, command: Command<'a>) -> Result<Command<'a>, AllocError>
    ensures { IfOk result (λ c. app_of c ≡ spec.with_terms (app_of command.entry)) }
{
    let help = "fails also where a trace broke an assumption, and where there is none";
    let command = command.arg(switch_argument(alloc, "strict", help))?;
    let help = "an earlier report; fails only where a trace that passed in it, or is new, fails";
    command.arg(named_argument(alloc, "baseline", "FILE", help))
}

/// Adds the option that names a part of the traces.
pub fn with_parts<'a>(alloc: Global, command: Command<'a>) -> Result<Command<'a>, AllocError>
    ensures { IfOk result (λ c. app_of c ≡ spec.with_parts (app_of command.entry)) }
{
    let help = "judges the K-th of N parts of the traces";
    command.arg(named_argument(alloc, "part", "K/N", help))
}

/// An option with one value or more.
fn several_argument<'a>(alloc: Global, name: &'a str, value: &'a str, help: &'a str) -> Arg<'a>
    ensures rule { rule_of result ≡ given.several name.entry.now }
    ensures global { result.global ≡ false }
{
    named_argument(alloc, name, value, help).num_args(1..)
}

/// Adds the option that makes one report of several.
pub fn with_merging<'a>(alloc: Global, command: Command<'a>) -> Result<Command<'a>, AllocError>
    ensures { IfOk result (λ c. app_of c ≡ spec.with_merging (app_of command.entry)) }
{
    let help = "joins reports to one, and reads no source and no traces";
    command.arg(several_argument(alloc, "merge", "FILE", help))
}
