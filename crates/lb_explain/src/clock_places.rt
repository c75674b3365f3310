//! The places that give clocks in a node: declarations of variables, and `when`.

use crate::declared::node_named;
use crate::lexeme::{Lexeme, Sort, token_at};
use lb_cause::SourceClock;

/// A `when` and the variable behind it; `sign` is false for `when not`.
#[derive(Clone, Copy)]
struct Waiting {
    word: Lexeme,
    variable: Lexeme,
    sign: bool,
}

/// The place that gives a part of a statement its clock.
#[derive(Clone, Copy)]
pub enum ClockPlace {
    /// The declaration of a variable, by its name there.
    Declaration(Lexeme),
    /// A `when`.
    When(Lexeme),
}

/// A node of a text; its heading goes on at `heading`, behind its name.
#[derive(Clone, Copy)]
pub struct NodeText<'t> {
    text: &'t [u8],
    heading: usize,
}

impl<'t> NodeText<'t> {
    /// The node with a name.
    pub fn named(text: &'t [u8], node: &str) -> NodeText<'t> {
        NodeText {
            text,
            heading: node_named(text, node.as_bytes()).unwrap_or(text.len()),
        }
    }
}

/// The `when` at a token, and the variable behind it.
fn waiting_at(text: &[u8], word: Lexeme) -> Waiting {
    let first = token_at(text, word.end);
    let is_negated = first.is(text, b"not".as_slice());
    let second = if is_negated {
        token_at(text, first.end)
    } else {
        first
    };
    let variable = if second.is(text, b"(".as_slice()) {
        token_at(text, second.end)
    } else {
        second
    };
    Waiting {
        word,
        variable,
        sign: !is_negated,
    }
}

/// The name of a variable where the node declares it.
pub fn declaration_of(node: &NodeText<'_>, name: &[u8]) -> Option<Lexeme> {
    let text = node.text;
    let mut at = node.heading;
    for _turn in node.heading..text.len() {
        let token = token_at(text, at);
        if token.sort == Sort::End || token.is(text, b"let".as_slice()) {
            return None;
        }
        if token.sort == Sort::Name && token.of(text) == name {
            let next = token_at(text, token.end);
            if next.is(text, b",".as_slice()) || next.is(text, b":".as_slice()) {
                return Some(token);
            }
        }
        at = token.end;
    }
    None
}

/// Whether a token ends a declaration of variables; `nested` parentheses are open before it.
fn ends_declaration(text: &[u8], token: &Lexeme, nested: usize) -> bool {
    token.sort == Sort::End || nested == 0 && token.is_among(text, &[b";", b")", b"let"])
}

/// The number of parentheses that are open behind a token; `nested` are open before it.
fn nested_after(text: &[u8], token: &Lexeme, nested: usize) -> usize {
    if token.is(text, b"(".as_slice()) {
        return nested.saturating_add(1);
    }
    if token.is(text, b")".as_slice()) {
        return nested.saturating_sub(1);
    }
    nested
}

/// The `when` of a declaration, from a place in it on; none where it is on the base clock.
fn declared_clock(text: &[u8], from: usize) -> Option<Waiting> {
    let mut nested: usize = 0;
    let mut at = from;
    for _turn in from..text.len() {
        let token = token_at(text, at);
        if ends_declaration(text, &token, nested) {
            return None;
        }
        if token.is(text, b"when".as_slice()) {
            return Some(waiting_at(text, token));
        }
        nested = nested_after(text, &token, nested);
        at = token.end;
    }
    None
}

/// Whether a clock ends with this `when`.
fn gives(text: &[u8], waiting: &Waiting, clock: &SourceClock) -> bool {
    match clock.signs.last() {
        Some(last) => {
            last.sign == waiting.sign && last.variable.as_bytes() == waiting.variable.of(text)
        }
        None => false,
    }
}

/// The declaration of a variable, if its clock is `clock`.
fn declared_on(node: &NodeText<'_>, name: &[u8], clock: &SourceClock) -> Option<Lexeme> {
    let declaration = declaration_of(node, name)?;
    let is_right = match declared_clock(node.text, declaration.end) {
        Some(waiting) => gives(node.text, &waiting, clock),
        None => clock.signs.is_empty(),
    };
    if is_right { Some(declaration) } else { None }
}

/// The declaration of the variable at a place, if its clock is `clock`.
pub fn place_of_variable(
    node: &NodeText<'_>,
    at: usize,
    clock: &SourceClock,
) -> Option<ClockPlace> {
    let token = token_at(node.text, at);
    let declaration = declared_on(node, token.of(node.text), clock)?;
    Some(ClockPlace::Declaration(declaration))
}

/// The declaration of the variable of the `when` at a place, if its clock is `clock`.
pub fn place_of_waited(node: &NodeText<'_>, at: usize, clock: &SourceClock) -> Option<ClockPlace> {
    let waiting = waiting_at(node.text, token_at(node.text, at));
    let declaration = declared_on(node, waiting.variable.of(node.text), clock)?;
    Some(ClockPlace::Declaration(declaration))
}

/// The place that gives `clock`, if `token` gives it, and the offset at which the search goes on.
fn place_at(
    node: &NodeText<'_>,
    token: Lexeme,
    clock: &SourceClock,
) -> (Option<ClockPlace>, usize) {
    let text = node.text;
    if token.is(text, b"when".as_slice()) {
        let waiting = waiting_at(text, token);
        let is_right = gives(text, &waiting, clock);
        let found = if is_right {
            Some(ClockPlace::When(waiting.word))
        } else {
            None
        };
        return (found, waiting.variable.end);
    }
    if token.sort != Sort::Name {
        return (None, token.end);
    }
    match declared_on(node, token.of(text), clock) {
        Some(declaration) => (Some(ClockPlace::Declaration(declaration)), token.end),
        None => (None, token.end),
    }
}

/// The first place in the rest of a statement that gives a clock.
pub fn place_after(node: &NodeText<'_>, from: usize, clock: &SourceClock) -> Option<ClockPlace> {
    let text = node.text;
    let mut at = from;
    for _turn in from..text.len() {
        let token = token_at(text, at);
        if token.sort == Sort::End || token.is(text, b";".as_slice()) {
            return None;
        }
        let (found, next) = place_at(node, token, clock);
        if found.is_some() {
            return found;
        }
        at = next;
    }
    None
}

/// The last place between `from` and `to` that gives a clock.
pub fn place_before(
    node: &NodeText<'_>,
    from: usize,
    to: usize,
    clock: &SourceClock,
) -> Option<ClockPlace> {
    let mut last = None;
    let mut at = from;
    for _turn in from..to {
        let token = token_at(node.text, at);
        if token.start >= to {
            return last;
        }
        let (found, next) = place_at(node, token, clock);
        last = found.or(last);
        at = next;
    }
    last
}
