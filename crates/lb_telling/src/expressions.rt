//! Expressions as they stand in the text of a source.

use lb_show::Page;
use lb_syntax::{Expr, Static, UnaryOperator};

/// The most characters of an expression that are written; `..` stands for the rest.
const MOST: usize = 60;

/// A depth of forms within one another that no text reaches.
const DEEPEST: usize = 1_000_000;

/// The end of a form, without the brackets that close behind it.
#[derive(Clone, Copy)]
struct Ending {
    /// The end of its last name or number.
    at: usize,
    /// The number of brackets that close behind that.
    brackets: usize,
}

/// The byte of a text at a place.
fn byte_at(text: &[u8], at: usize) -> u8 {
    text.get(at).copied().unwrap_or(0)
}

/// The end of the digits or letters that begin at a place.
fn word_end(text: &[u8], start: usize) -> usize {
    for at in start..text.len() {
        let b = byte_at(text, at);
        if !b.is_ascii_alphanumeric() && b != b'_' {
            return at;
        }
    }
    text.len()
}

/// The end of a static expression.
fn static_end(text: &[u8], written: &Static, brackets: usize) -> Ending {
    let mut brackets = brackets;
    let mut inner = written;
    for _ in 0..DEEPEST {
        match inner {
            Static::Whole(_, at) => {
                let at = word_end(text, *at as usize);
                return Ending { at, brackets };
            }
            Static::Named(name) => {
                let at = word_end(text, name.offset as usize);
                return Ending { at, brackets };
            }
            Static::Negated(e, _) | Static::Combined(_, _, e, _) => inner = e,
            Static::Grouped(e, _) => {
                brackets = brackets.saturating_add(1);
                inner = e;
            }
        }
    }
    Ending { at: 0, brackets }
}

/// The last of some operands; where there is none, the end of the word that begins at `at`.
fn last_of<'e>(
    text: &[u8],
    list: &'e [Expr],
    at: u32,
    brackets: usize,
) -> Result<&'e Expr, Ending> {
    match list.last() {
        Some(last) => Ok(last),
        None => Err(Ending {
            at: word_end(text, at as usize),
            brackets,
        }),
    }
}

/// The last form within a form, or the end of the form where it has none; and the number of
/// brackets that close behind it, where `brackets` close behind the form.
fn last_form<'e>(
    text: &[u8],
    expr: &'e Expr,
    brackets: usize,
) -> (Result<&'e Expr, Ending>, usize) {
    let more = brackets.saturating_add(1);
    match expr {
        Expr::Literal(_, at) | Expr::Truth(_, at) => {
            let at = word_end(text, *at as usize);
            (Err(Ending { at, brackets }), brackets)
        }
        Expr::Variable(name) | Expr::When(_, name, _, _) => {
            let at = word_end(text, name.offset as usize);
            (Err(Ending { at, brackets }), brackets)
        }
        Expr::Unary(_, e, _) | Expr::Pre(e, _) | Expr::Current(e, _) => (Ok(&**e), brackets),
        Expr::Binary(_, _, e, _) | Expr::If(_, _, e, _) => (Ok(&**e), brackets),
        Expr::Arrow(_, e, _) | Expr::Fby(_, e, _) | Expr::Join(_, e, _) => (Ok(&**e), brackets),
        Expr::Group(e, _) => (Ok(&**e), more),
        Expr::Replicate(_, n, _) => (Err(static_end(text, n, brackets)), brackets),
        Expr::Index(_, i, _) | Expr::Slice(_, _, i, _) => (Err(static_end(text, i, more)), more),
        Expr::Array(list, at) | Expr::AtMostOne(list, at) | Expr::Nor(list, at) => {
            (last_of(text, list, *at, more), more)
        }
        Expr::Call(name, _, list) => (last_of(text, list, name.offset, more), more),
        Expr::Iterate(_, _, _, list, at) => (last_of(text, list, *at, more), more),
    }
}

/// The end of the comment that begins at a place; the place itself where none does.
fn comment_end(text: &[u8], at: usize) -> usize {
    if byte_at(text, at) != b'-' || byte_at(text, at.saturating_add(1)) != b'-' {
        return at;
    }
    for end in at..text.len() {
        if byte_at(text, end) == b'\n' {
            return end;
        }
    }
    text.len()
}

/// The place behind the brackets that close behind an ending.
fn closed(text: &[u8], ending: Ending) -> usize {
    let mut at = ending.at;
    let mut left = ending.brackets;
    for _ in ending.at..text.len() {
        if left == 0 {
            return at;
        }
        let end = comment_end(text, at);
        if end > at {
            at = end;
            continue;
        }
        if byte_at(text, at) == b')' || byte_at(text, at) == b']' {
            left = left.saturating_sub(1);
        }
        at = at.saturating_add(1);
    }
    at
}

/// The end of an expression in the text of its source.
fn end_of(text: &[u8], expr: &Expr) -> usize {
    let mut brackets = 0;
    let mut inner = expr;
    for _ in 0..DEEPEST {
        let (form, more) = last_form(text, inner, brackets);
        brackets = more;
        match form {
            Ok(last) => inner = last,
            Err(ending) => return closed(text, ending),
        }
    }
    text.len()
}

/// Adds an expression to a page as it stands in the text of its source, in one line and without
/// comments.
pub(crate) fn push_expression(page: &mut Page, text: &[u8], expr: &Expr) {
    let start = expr.offset() as usize;
    let end = end_of(text, expr).min(text.len());
    let mut at = start;
    let mut count: usize = 0;
    let mut is_spaced = false;
    for _ in start..end {
        at = comment_end(text, at);
        if at >= end || count >= MOST {
            break;
        }
        let b = byte_at(text, at);
        // Blanks are written as one space, once something follows them.
        let is_blank = b <= b' ';
        if is_spaced && !is_blank {
            page.push(" ");
        }
        if !is_blank {
            page.push_byte(b);
        }
        if !is_blank || !is_spaced {
            count = count.saturating_add(1);
        }
        is_spaced = is_blank;
        at = at.saturating_add(1);
    }
    if at < end {
        page.push(" ..");
    }
}

/// The expression without the parentheses round it.
pub(crate) fn ungrouped(expr: &Expr) -> &Expr {
    let mut inner = expr;
    for _ in 0..DEEPEST {
        match inner {
            Expr::Group(e, _) => inner = &**e,
            _ => return inner,
        }
    }
    inner
}

/// Whether an expression is a truth or a number, perhaps with a sign.
pub(crate) fn is_literal(expr: &Expr) -> bool {
    match ungrouped(expr) {
        Expr::Unary(UnaryOperator::Negate, e, _) => matches!(&**e, Expr::Literal(_, _)),
        Expr::Literal(_, _) | Expr::Truth(_, _) => true,
        _ => false,
    }
}

/// Whether an expression is short: a variable or a number, perhaps with one sign.
pub(crate) fn is_short(expr: &Expr) -> bool {
    match ungrouped(expr) {
        Expr::Unary(_, e, _) | Expr::Pre(e, _) | Expr::Index(e, _, _) => {
            matches!(&**e, Expr::Variable(_))
        }
        Expr::Variable(_) | Expr::Literal(_, _) | Expr::Truth(_, _) => true,
        _ => false,
    }
}
