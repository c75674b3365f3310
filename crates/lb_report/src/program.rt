//! A program, from its tree to its equations.

ghost use Rattle.std.specs.Prelude.{IfOk, IfErr};
ghost use Rattle.lb_syntax.specs.Correct.{IsOnlyProgram};
ghost use Rattle.lb_syntax.specs.SourceView.{view_source};
ghost use Rattle.lb_syntax.specs.Tokens.{Text};
ghost use Rattle.lb_report.specs.AcceptedPrograms.{IsProgram};
ghost use Rattle.lb_report.specs.Bench.{IsRefused, program_of};

use lb_cause::check_with_cause;
use lb_check::Checked;
use lb_expand::{expand, with_places};
use lb_flat::{Ordered, order};
use lb_refusal::{BenchError, Options};
use lb_static::elaborate;
use lb_syntax::Source;
use std::alloc::Global;

/// A program that keeps all rules, with its equations in order.
#[derive(Drop)]
pub struct Program<'s> {
    pub checked: Checked<'s>,
    pub ordered: Ordered,
}

impl<'s> Program<'s> {
    /// The program of a tree, with the node under test and the observer that the options name. An
    /// error is the first refusal of the tree: E4 to E13, or E0 where memory ran out.
    pub fn of_tree(
        alloc: Global,
        tree: &'s Source,
        options: &'s Options,
    ) -> Result<Program<'s>, BenchError>
        ensures ok { IfOk result (λ p. IsProgram p
            (program_of (view_source tree.now) options.now)) }
        ensures err { (source traces : Text) → IsOnlyProgram (view_source tree.now) source →
            IfErr result (IsRefused source traces options.now) }
    {
        let elab = elaborate(alloc, tree, options.node.as_str(), options.observer_name())?;
        let checked = check_with_cause(alloc, elab)?;
        let flat = expand(alloc, &checked)?;
        match order(alloc, flat) {
            Ok(ordered) => {
                let _ = checked.signature();
                Ok(Program { checked, ordered })
            }
            Err(cause) => Err(BenchError::Order(with_places(alloc, &checked, cause))),
        }
    }
}
