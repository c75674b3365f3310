//! The refusals of a source text.

use thiserror::Error;

/// The reason why a source text is refused, and the place.
///
/// This layer judges the shape of a text alone. An unknown name, a constant without a value, a type
/// that does not fit and a program without a node under test all pass: later layers refuse them.
///
/// Lines and columns are counted from 1 and in bytes; the newline alone ends a line, and a tab is
/// one column.
#[derive(Debug, Drop, Error)]
pub enum SyntaxError {
    /// E0: memory ran out.
    #[error("out of memory")]
    Memory,
    /// E1: a byte that begins no token, or a comment without an end, at its first byte.
    #[error("no token begins at {line}:{column}")]
    Character {
        /// From 1.
        line: u32,
        /// In bytes, from 1.
        column: u32,
    },
    /// E2: no tree spells the tokens. The place is that of the first token such that no accepted
    /// text begins with the tokens up to it, or the end of the text.
    #[error("no tree fits the tokens up to {line}:{column}")]
    Syntax {
        /// From 1.
        line: u32,
        /// In bytes, from 1.
        column: u32,
    },
    /// E3: a name, a literal or a statement over its limit, at the name, the literal or the 501st
    /// counted token; or, at 1:1, a text over its limit.
    #[error("over its limit at {line}:{column}")]
    Size {
        /// From 1.
        line: u32,
        /// In bytes, from 1.
        column: u32,
    },
}
