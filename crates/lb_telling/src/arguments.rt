//! The arguments of calls, as they stand in the expressions of a caller.

use crate::site::Site;
use lb_static::{CallId, Term};
use lb_syntax::Expr;
use std::alloc::{AllocError, Global};

/// The most expressions that are looked at for a call.
const MOST_SITES: usize = 1_000_000;

/// Adds some parts of an expression to those that are open: still to be looked at.
fn open_all<'a>(
    open: &mut Vec<Site<'a>>,
    site: Site<'a>,
    terms: &'a [Term],
    exprs: &'a [Expr],
) -> Result<(), AllocError> {
    for (term, expr) in terms.iter().zip(exprs.iter()) {
        open.push(site.at(term, expr))?;
    }
    Ok(())
}

/// Opens the parts of a form that has a list of them.
fn open_list<'a>(open: &mut Vec<Site<'a>>, site: Site<'a>) -> Result<(), AllocError> {
    match (site.term, site.expr) {
        (Term::Array(terms), Expr::Array(exprs, _))
        | (Term::AtMostOne(terms), Expr::AtMostOne(exprs, _))
        | (Term::Nor(terms), Expr::Nor(exprs, _))
        | (Term::Call(_, terms), Expr::Call(_, _, exprs))
        | (Term::IterateNode(_, _, terms), Expr::Iterate(_, _, _, exprs, _))
        | (Term::IterateSymbol(_, _, _, terms), Expr::Iterate(_, _, _, exprs, _)) => {
            open_all(open, site, terms.as_slice(), exprs.as_slice())
        }
        _ => Ok(()),
    }
}

/// Opens the parts of an expression.
pub(crate) fn open_parts<'a>(open: &mut Vec<Site<'a>>, site: Site<'a>) -> Result<(), AllocError> {
    for part in site.parts() {
        if let Some(part) = part {
            open.push(part)?;
        }
    }
    open_list(open, site)
}

/// The argument at a place of a call, if an expression is that call.
fn argument_of<'a>(site: Site<'a>, call: CallId, place: usize) -> Option<Site<'a>> {
    match (site.term, site.expr) {
        (Term::Call(own, terms), Expr::Call(_, _, exprs))
        | (Term::IterateNode(_, own, terms), Expr::Iterate(_, _, _, exprs, _)) => {
            if own.0 == call.0 {
                Some(site.at(terms.get(place)?, exprs.get(place)?))
            } else {
                None
            }
        }
        _ => None,
    }
}

/// The argument at a place of a call that stands in an expression.
pub(crate) fn argument_in<'a>(
    alloc: Global,
    whole: Site<'a>,
    call: CallId,
    place: usize,
) -> Result<Option<Site<'a>>, AllocError> {
    let mut open = Vec::new(alloc);
    open.push(whole)?;
    for _ in 0..MOST_SITES {
        let Some(site) = open.pop() else {
            return Ok(None);
        };
        if let Some(argument) = argument_of(site, call, place) {
            return Ok(Some(argument));
        }
        open_parts(&mut open, site)?;
    }
    Ok(None)
}
