//! The answers on a source: on its text, or on its node under test and its observer.
//!
//! The last line has the question: `text`, or a node under test, perhaps with its observer after a
//! comma. The answer on a text is the number of its constants and nodes. The answer on a program is
//! the number of its instances and specializations, the nodes that are reached, and the scalar
//! inputs.

use lb_static::{Elab, StaticError, elaborate};
use lb_syntax::{Source, SyntaxError, parse};
use lb_test_support::texts::{Said, around, is_same, last_line, named};
use std::alloc::Global;

/// `7 of 4: main f g | x: Int`
fn push_program(elab: &Elab, said: &mut Said) {
    let instances = elab.table().instances.len();
    let specializations = elab.table().specializations.len();
    write!(said, "{instances} of {specializations}:");
    for node in &elab.reached().nodes {
        write!(said, " {}", node.tree.name.as_str());
    }
    said.push_str(" |");
    let inputs = elab.signature();
    for i in 0..inputs.len() {
        write!(said, " {}: {:?}", inputs.name(i), inputs.kind(i));
    }
}

/// The program of a node under test and its observer, or the refusal.
fn push_elaborated(said: &mut Said, elaborated: &Result<Elab, StaticError>) {
    match elaborated {
        Ok(elab) => push_program(elab, said),
        Err(error) => write!(said, "{error}"),
    }
}

/// The answer on a tree.
fn push_about(alloc: Global, source: &Source, word: &str, said: &mut Said) {
    if is_same(word, "text") {
        let constants = source.constants.len();
        return write!(said, "{constants} constants, {} nodes", source.nodes.len());
    }
    let (node, observer) = around(word, ", ");
    push_elaborated(said, &elaborate(alloc, source, node, named(observer)));
}

/// The answer on a text that was parsed.
fn push_parsed(alloc: Global, parsed: &Result<Source, SyntaxError>, word: &str, said: &mut Said) {
    match parsed {
        Ok(source) => push_about(alloc, source, word, said),
        Err(error) => write!(said, "{error}"),
    }
}

/// The place at which a text is refused as E2, as `2:9`.
fn push_refused(parsed: &Result<Source, SyntaxError>, said: &mut Said) {
    match parsed {
        Err(SyntaxError::Syntax { line, column }) => write!(said, "{line}:{column}"),
        _ => said.push_str("no place"),
    }
}

/// The place at which the text of a front and an end is refused as E2.
pub fn push_place(alloc: Global, front: &str, end: &str, said: &mut Said) {
    let mut text = Said::new(alloc);
    text.push_str(front);
    text.push_str(end);
    match text.whole() {
        Ok(text) => push_refused(&parse(alloc, text.as_bytes()), said),
        Err(_) => said.cut(),
    }
}

/// The answer on a text, to the question in its last line.
pub fn push_answer(alloc: Global, asked: &str, said: &mut Said) {
    let (text, word) = last_line(asked);
    push_parsed(alloc, &parse(alloc, text.as_bytes()), word, said);
}
