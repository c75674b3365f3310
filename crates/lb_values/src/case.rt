//! A program and recorded traces of it.

ghost use Rattle.std.specs.Prelude.{IfOk, IfErr};
ghost use Rattle.lb_syntax.specs.Correct.{IsOnlyProgram};
ghost use Rattle.lb_syntax.specs.SourceView.{view_source};
ghost use Rattle.lb_syntax.specs.Tokens.{Text};
ghost use Rattle.lb_report.specs.Bench.{IsRefused, program_of};
ghost use Rattle.lb_values.specs.Programs.{IsCase};

use lb_report::{BenchError, Options, Program};
use lb_syntax::Source;
use lb_trace::read_traces;
use lb_traces::TraceSet;
use std::alloc::Global;

/// A program and recorded traces of it.
#[derive(Drop)]
pub(crate) struct Case<'s> {
    pub(crate) program: Program<'s>,
    pub(crate) set: TraceSet,
}

impl<'s> Case<'s> {
    /// The program of a tree and the traces of a text.
    pub(crate) fn of_tree(
        alloc: Global,
        tree: &'s Source,
        traces: &[u8],
        options: &'s Options,
    ) -> Result<Case<'s>, BenchError>
        ensures ok { IfOk result (λ case.
            IsCase (program_of (view_source tree.now) options.now) traces.now case) }
        ensures err { (source : Text) → IsOnlyProgram (view_source tree.now) source →
            IfErr result (IsRefused source traces.now options.now) }
    {
        let program = Program::of_tree(alloc, tree, options)?;
        let set = read_traces(alloc, program.checked.signature(), traces)?;
        Ok(Case { program, set })
    }
}
