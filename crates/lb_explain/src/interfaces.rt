//! The inputs and outputs of a node, found in the tokens of its heading.

use crate::bytes::part;
use crate::declared::node_named;
use crate::lexeme::{Lexeme, Sort, token_at};
use crate::page::Page;
use std::alloc::Global;

/// An input or an output: its name, and the start and the end of its type.
#[derive(Clone, Copy)]
pub struct Parameter {
    pub name: Lexeme,
    pub type_start: usize,
    pub type_end: usize,
}

impl Parameter {
    /// Its type, as it is written.
    pub fn type_of<'t>(&self, text: &'t [u8]) -> &'t [u8] {
        part(text, self.type_start, self.type_end)
    }
}

/// The inputs and outputs of a node.
pub struct Interface {
    pub inputs: Vec<Parameter>,
    pub outputs: Vec<Parameter>,
}

// Not derived, so that it is dropped in one step.
impl Drop for Interface {
    fn drop(self) {
        let Interface {
            inputs: _,
            outputs: _,
        } = self;
    }
}

/// A list of variables that is being read.
#[derive(Drop)]
struct List {
    found: Vec<Parameter>,
    /// The number of variables that have their types.
    typed: usize,
    /// Whether a type or a clock is being read, and how many parentheses are open in it.
    in_type: bool,
    nested: usize,
    /// Whether the type has ended, and its clock is being read.
    in_clock: bool,
    /// Whether memory ran out, so that variables are missing.
    is_cut: bool,
}

impl List {
    /// An empty list.
    fn new(alloc: Global) -> List {
        List {
            found: Vec::new(alloc),
            typed: 0,
            in_type: false,
            nested: 0,
            in_clock: false,
            is_cut: false,
        }
    }

    /// Adds a variable, whose type is not read yet.
    fn push(&mut self, name: &Lexeme) {
        let added = self.found.push(Parameter {
            name: *name,
            type_start: 0,
            type_end: 0,
        });
        self.is_cut |= added.is_err();
    }

    /// Extends the type of the variables whose type is being read.
    fn extend_type(&mut self, start: usize, end: usize) {
        for place in self.typed..self.found.len() {
            if let Some(parameter) = self.found.get_mut(place) {
                if parameter.type_end == 0 {
                    parameter.type_start = start;
                }
                parameter.type_end = end;
            }
        }
    }

    /// Ends a type.
    fn end_type(&mut self) {
        self.typed = self.found.len();
        self.in_type = false;
        self.in_clock = false;
    }

    /// Takes a token of a type or a clock.
    fn take_inner(&mut self, text: &[u8], token: &Lexeme) {
        match token.of(text) {
            b"when" => self.in_clock = true,
            b"(" => self.nested = self.nested.saturating_add(1),
            b")" => self.nested = self.nested.saturating_sub(1),
            _ => {}
        }
        if !self.in_clock {
            self.extend_type(token.start, token.end);
        }
    }

    /// Takes a token of the list.
    fn take(&mut self, text: &[u8], token: &Lexeme) {
        if self.in_type {
            if self.nested == 0 && token.is(text, b";".as_slice()) {
                self.end_type();
            } else {
                self.take_inner(text, token);
            }
        } else if token.sort == Sort::Name {
            self.push(token);
        } else if token.is(text, b":".as_slice()) {
            self.in_type = true;
        }
    }
}

/// The place behind the first `(` from a place on; static parameters are passed over.
fn opening(text: &[u8], from: usize) -> usize {
    let mut at = from;
    for _turn in from..text.len() {
        let token = token_at(text, at);
        if token.sort == Sort::End || token.is(text, b"(".as_slice()) {
            return token.end;
        }
        at = token.end;
    }
    at
}

/// Reads the list that begins at a place, and returns the place behind its `)`.
fn read_list(text: &[u8], from: usize, list: &mut List) -> usize {
    let mut at = from;
    for _turn in from..text.len() {
        let token = token_at(text, at);
        at = token.end;
        let ends = list.nested == 0 && token.is(text, b")".as_slice());
        if ends || token.sort == Sort::End {
            return at;
        }
        list.take(text, &token);
    }
    at
}

/// The list behind the first `(` from a place on, and the place behind it. Where memory runs out
/// the page is cut.
fn list_behind(page: &mut Page, text: &[u8], from: usize) -> (Vec<Parameter>, usize) {
    let mut list = List::new(page.alloc());
    let end = read_list(text, opening(text, from), &mut list);
    page.cut_if(list.is_cut);
    (list.found, end)
}

/// The inputs and outputs of the node with a name, if there is one. Where memory runs out the page
/// is cut.
pub fn interface_of(page: &mut Page, text: &[u8], name: &[u8]) -> Option<Interface> {
    let start = node_named(text, name)?;
    let (inputs, after) = list_behind(page, text, start);
    let (outputs, _end) = list_behind(page, text, after);
    Some(Interface { inputs, outputs })
}

/// The parameter of the node under test that is wired to input `place` of an observer: the inputs
/// of the node come first, and then its outputs.
pub fn observed(interface: &Interface, place: usize) -> Option<Parameter> {
    match interface.inputs.get(place) {
        Some(input) => Some(*input),
        None => {
            let place = place.saturating_sub(interface.inputs.len());
            interface.outputs.get(place).copied()
        }
    }
}
