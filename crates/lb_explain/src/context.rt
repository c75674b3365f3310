//! The part of a source, and the node, that a place lies in.

use crate::landmarks::{Passed, pass};
use crate::lexeme::{Lexeme, Sort, piece_at, run_start};
use std::cmp::Ordering;

/// A part of a source.
#[derive(Clone, Copy, PartialEq, Eq)]
pub enum Section {
    /// Between constants, nodes and functions.
    Top,
    /// After `const`.
    Constants,
    /// From `node` or `function` to `let`.
    Heading,
    /// From `let` to `tel`.
    Body,
}

/// The part of a source that a place lies in.
#[derive(Clone, Copy)]
pub struct Context {
    pub part: Section,
    /// The start of the heading, the statement or the constant that the place lies in.
    pub start: usize,
    /// The start of the last `node` or `function`, or of the `const` behind it.
    pub node: usize,
    /// The number of open static brackets.
    depth: usize,
}

impl Context {
    /// The context at the start of a text.
    const START: Context = Context {
        part: Section::Top,
        start: 0,
        node: 0,
        depth: 0,
    };

    /// The context of part `part` of the same node, which begins at `start`.
    fn at(&self, part: Section, start: usize) -> Context {
        Context {
            part,
            start,
            node: self.node,
            depth: 0,
        }
    }

    /// This context with `depth` open static brackets.
    fn with_depth(&self, depth: usize) -> Context {
        Context {
            part: self.part,
            start: self.start,
            node: self.node,
            depth,
        }
    }

    /// The context after a reserved word.
    fn after_word(&self, text: &[u8], token: &Lexeme) -> Context {
        let inner = self.part == Section::Heading || self.part == Section::Body;
        match token.word(text) {
            "node" | "function" => Context {
                part: Section::Heading,
                start: token.start,
                node: token.start,
                depth: 0,
            },
            "const" if !inner => Context {
                part: Section::Constants,
                start: token.end,
                node: token.start,
                depth: 0,
            },
            "let" => self.at(Section::Body, token.end),
            "tel" => self.at(Section::Top, token.end),
            _ => *self,
        }
    }

    /// The context after a symbol.
    fn after_symbol(&self, text: &[u8], token: &Lexeme) -> Context {
        match token.of(text) {
            b"<<" => self.with_depth(self.depth.saturating_add(1)),
            b">>" => self.with_depth(self.depth.saturating_sub(1)),
            b";" => self.after_semicolon(token.end),
            _ => *self,
        }
    }

    /// The context after a `;` that ends at `end`.
    fn after_semicolon(&self, end: usize) -> Context {
        if self.depth > 0 || self.part == Section::Heading {
            return *self;
        }
        self.at(self.part, end)
    }

    /// The context after a token.
    fn after(&self, text: &[u8], token: &Lexeme) -> Context {
        if token.sort != Sort::Mark {
            return *self;
        }
        match token.end.saturating_sub(token.start).cmp(&3) {
            Ordering::Less => self.after_symbol(text, token),
            _ => self.after_word(text, token),
        }
    }
}

/// A place between two tokens, and its context.
#[derive(Clone, Copy)]
struct Reached {
    context: Context,
    at: usize,
}

impl Reached {
    /// The context after a stretch without landmarks.
    fn past(&self, passed: &Passed) -> Context {
        match passed.statement {
            Some(end) => self.context.after_semicolon(end),
            None => self.context,
        }
    }

    /// The place after the next token, and its context.
    fn step(&self, text: &[u8]) -> Reached {
        let token = piece_at(text, self.at);
        Reached {
            context: self.context.after(text, &token),
            at: token.end,
        }
    }

    /// The place after the next landmark, or after some more tokens where none comes before
    /// `place`.
    fn advance(&self, text: &[u8], place: usize) -> Reached {
        let passed = pass(text, self.at, place);
        let mut reached = Reached {
            context: self.past(&passed),
            at: run_start(text, self.at, passed.end),
        };
        for _token in reached.at..passed.end.saturating_add(1) {
            if reached.at > passed.end {
                return reached;
            }
            reached = reached.step(text);
        }
        reached
    }
}

/// The context of a place.
pub fn context_of(text: &[u8], place: usize) -> Context {
    let mut reached = Reached {
        context: Context::START,
        at: 0,
    };
    for _turn in 0..place {
        if reached.at >= place {
            return reached.context;
        }
        reached = reached.advance(text, place);
    }
    reached.context
}
