//! The variables of a node that serve as clocks: some declared clock or some `when` names them.

ghost use Rattle.std.specs.Prelude.{◌≡◌, ◌++◌, false, flat_map, length, replicate, OnOk};
ghost use Rattle.std.specs.Prelude.{IfOk};
ghost use Rattle.lb_expand.specs.ClockUses as mirror;

use lb_static::{ResolvedNode, ResolvedStatement, Term, Variable};
use std::alloc::{AllocError, Global};

/// Adds the variables that some `when` in a term names.
#[cycle(clock_uses)]
fn push_term(names: &mut Vec<usize>, term: &Term) -> Result<(), AllocError>
    ensures { OnOk result (names.new.items ≡ names.old.items ++ mirror.whens_in term.now) }
{
    match term {
        Term::Literal(_) | Term::Truth(_) | Term::Variable(_) | Term::Value(_) => Ok(()),
        Term::Group(e) => push_term(names, e),
        Term::When(e, x, _) => {
            names.push(x.0)?;
            push_term(names, e)
        }
        Term::Unary(_, e)
        | Term::Pre(e)
        | Term::Current(e)
        | Term::Replicate(e, _)
        | Term::Index(e, _)
        | Term::Slice(e, _, _) => push_term(names, e),
        Term::Binary(_, a, b) | Term::Arrow(a, b) | Term::Fby(a, b) | Term::Join(a, b) => {
            push_term(names, a)?;
            push_term(names, b)
        }
        Term::If(c, a, b) => {
            push_term(names, c)?;
            push_term(names, a)?;
            push_term(names, b)
        }
        Term::Array(es)
        | Term::AtMostOne(es)
        | Term::Nor(es)
        | Term::Call(_, es)
        | Term::IterateNode(_, _, es)
        | Term::IterateSymbol(_, _, _, es) => push_terms(names, es),
    }
}

/// Adds the variables that some `when` in a list of terms names.
#[cycle(clock_uses)]
fn push_terms(names: &mut Vec<usize>, terms: &[Term]) -> Result<(), AllocError>
    ensures { OnOk result (names.new.items ≡ names.old.items ++ mirror.whens_in_all terms.now) }
{
    for term in terms {
        push_term(names, term)?;
    }
    Ok(())
}

/// Adds the variables that some `when` in a statement names.
fn push_statement(names: &mut Vec<usize>, statement: &ResolvedStatement) -> Result<(), AllocError>
    ensures { OnOk result (names.new.items
        ≡ names.old.items ++ mirror.statement_whens statement.now) }
{
    match statement {
        ResolvedStatement::Equation(_, e) => push_term(names, e),
        ResolvedStatement::Assertion(e) => push_term(names, e),
    }
}

/// Adds the variable that the declared clock of a variable waits for.
fn push_declared(names: &mut Vec<usize>, variable: &Variable) -> Result<(), AllocError>
    ensures { OnOk result (names.new.items
        ≡ names.old.items ++ mirror.declared_when variable.now) }
{
    match variable.clock {
        Some(sampling) => {
            names.push(sampling.variable.0)?;
            Ok(())
        }
        None => Ok(()),
    }
}

/// Adds the variables that the declared clocks of some variables wait for.
#[tactic(auto, using(crate::proofs::numbering::RowInstances::piece_added))]
fn push_variables(names: &mut Vec<usize>, variables: &[Variable]) -> Result<(), AllocError>
    ensures { OnOk result (names.new.items
        ≡ names.old.items ++ flat_map mirror.declared_when variables.now) }
{
    for variable in variables {
        push_declared(names, variable)?;
    }
    Ok(())
}

/// Adds the variables that some `when` in a list of statements names.
#[tactic(auto, using(crate::proofs::numbering::RowInstances::piece_added))]
fn push_statements(
    names: &mut Vec<usize>,
    statements: &[ResolvedStatement],
) -> Result<(), AllocError>
    ensures { OnOk result (names.new.items
        ≡ names.old.items ++ flat_map mirror.statement_whens statements.now) }
{
    for statement in statements {
        push_statement(names, statement)?;
    }
    Ok(())
}

/// The variables that a declared clock or a `when` of a node names.
fn clocks_named(alloc: Global, node: &ResolvedNode) -> Result<Vec<usize>, AllocError>
    ensures { IfOk result (λ names. names.items ≡ mirror.clocks_named node.now) }
{
    let mut names = Vec::new(alloc);
    push_variables(&mut names, &node.variables)?;
    push_statements(&mut names, &node.body)?;
    Ok(names)
}

/// Sets the flags of the variables `names`; no flag is set before.
#[tactic(auto, using(crate::proofs::clock_tables::ServingClocks::marks))]
fn mark(flags: &mut [bool], names: &[usize])
    requires { flags.old ≡ replicate (length flags.old) false }
    ensures { mirror.HasFlags (length flags.old) names.now flags.new }
{
    for name in names {
        let place = *name;
        if place < flags.len() {
            flags[place] = true;
        }
    }
}

/// A flag for each variable of a node: whether it serves as a clock.
pub(crate) fn clock_flags(alloc: Global, node: &ResolvedNode) -> Result<Vec<bool>, AllocError>
    ensures { IfOk result (λ flags. mirror.HasFlags (length node.now.variables.items)
        (mirror.clocks_named node.now) flags.items) }
{
    let names = clocks_named(alloc, node)?;
    let mut flags: Vec<bool> = vec![in alloc; false; node.variables.len()]?;
    mark(flags.as_mut_slice(), names.as_slice());
    Ok(flags)
}
