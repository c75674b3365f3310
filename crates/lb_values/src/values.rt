//! The values of one trace, from the texts.

ghost use Rattle.std.specs.Prelude.{◌<◌};
ghost use Rattle.lb_syntax.specs.Correct.{IsOnlyProgram};
ghost use Rattle.lb_syntax.specs.SourceView.{view_source};
ghost use Rattle.lb_syntax.specs.Tokens.{Text};
ghost use Rattle.lb_syntax.specs.Tree.{Source};
ghost use Rattle.lb_report.specs.Bench.{program_of};
ghost use Rattle.lb_refusal.specs.declared.options.Options.{Options as Asking};
ghost use Rattle.lb_values.specs.Programs.{IsCase};
ghost use Rattle.lb_values.specs.Values.{IsFaultOf, IsValuesAnswer};

use crate::case::Case;
use crate::sending::send_values;
use lb_output::{FollowError, Sink};
use lb_report::{BenchError, Options};
use lb_show::{Show, ShowError, ShowOptions};
use lb_syntax::{Source as Tree, parse};
use std::alloc::Global;
use thiserror::Error;

/// Why values did not go out whole.
#[derive(Debug, Drop, Error)]
pub enum ValuesFault {
    /// E0 to E18: what refuses the texts, or memory ran out. No byte went out.
    #[error(transparent)]
    Refused(BenchError),
    /// E20: no trace has the name. No byte went out.
    #[error("no trace has the name")]
    UnknownTrace,
    /// E20: no variable has the name at this place of the selection. No byte went out.
    #[error("no variable has the name at place {0}")]
    UnknownVariable(usize),
    /// E0 or E19: memory was refused, or the sink failed, after the first bytes.
    #[error(transparent)]
    Stopped(FollowError),
}

impl From<BenchError> for ValuesFault {
    ghost use Rattle.std.specs.Prelude.{◌≡◌};
    ghost use Rattle.lb_values.specs.declared.values.ValuesFault.TheVariants.{Refused};

    ghost from_gives = { λ cause e. e ≡ Refused cause };

    fn from(cause: BenchError) -> ValuesFault {
        ValuesFault::Refused(cause)
    }
}

/// Why values can not be shown.
fn fault_of(error: ShowError) -> ValuesFault
    ensures { IsFaultOf error result }
{
    match error {
        ShowError::Memory => ValuesFault::Refused(BenchError::Memory),
        ShowError::UnknownTrace => ValuesFault::UnknownTrace,
        ShowError::UnknownVariable(place) => ValuesFault::UnknownVariable(place),
    }
}

/// Writes the values of one trace of a case to a sink.
fn show_case<S: Sink>(
    alloc: Global,
    source: &[u8],
    case: &Case<'_>,
    asked: &ShowOptions<'_>,
    sink: &mut S,
) -> Result<(), ValuesFault>
    requires { S.failures sink.old < u64.MAX }
    ensures { (tree : Source) → (traces : Text) → (options : Asking) →
        IsOnlyProgram tree source.now → IsCase (program_of tree options) traces case.now →
        IsValuesAnswer source.now traces options asked.now (S.taken sink.old) (S.taken sink.new)
        (S.failures sink.old) (S.failures sink.new) result }
{
    let program = &case.program;
    match Show::new(
        alloc,
        source,
        &program.checked,
        &program.ordered,
        &case.set,
        asked,
    ) {
        Ok(shown) => {
            let mut show = shown;
            match send_values(alloc, &mut show, sink) {
                Ok(()) => Ok(()),
                Err(cause) => Err(ValuesFault::Stopped(cause)),
            }
        }
        Err(error) => Err(fault_of(error)),
    }
}

/// Writes the values of one trace of the program of a tree to a sink.
fn show_tree<S: Sink>(
    alloc: Global,
    source: &[u8],
    tree: &Tree,
    traces: &[u8],
    options: &Options,
    asked: &ShowOptions<'_>,
    sink: &mut S,
) -> Result<(), ValuesFault>
    requires failures { S.failures sink.old < u64.MAX }
    requires tree { IsOnlyProgram (view_source tree.now) source.now }
    ensures { IsValuesAnswer source.now traces.now options.now asked.now (S.taken sink.old)
        (S.taken sink.new) (S.failures sink.old) (S.failures sink.new) result }
{
    match Case::of_tree(alloc, tree, traces, options) {
        Ok(case) => show_case(alloc, source, &case, asked, sink),
        Err(error) => Err(ValuesFault::Refused(error)),
    }
}

/// Writes the values of one trace to a sink, instant by instant up to the one that decides its
/// verdict, or to the end where it passed.
///
/// The options name the node under test and the observer; `asked` says what is shown, and how.
/// The memory taken is that of the texts and of one instant; a picture takes memory for all that it
/// shows.
pub fn show_values<S: Sink>(
    alloc: Global,
    source: &[u8],
    traces: &[u8],
    options: &Options,
    asked: &ShowOptions<'_>,
    sink: &mut S,
) -> Result<(), ValuesFault>
    requires { S.failures sink.old < u64.MAX }
    ensures { IsValuesAnswer source.now traces.now options.now asked.now (S.taken sink.old)
        (S.taken sink.new) (S.failures sink.old) (S.failures sink.new) result }
{
    match parse(alloc, source) {
        Ok(tree) => show_tree(alloc, source, &tree, traces, options, asked, sink),
        Err(cause) => Err(ValuesFault::Refused(BenchError::Syntax(cause))),
    }
}
