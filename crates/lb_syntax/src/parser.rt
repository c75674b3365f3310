//! From a text to the one tree that it spells.
//!
//! The text is judged in this order: its length, whether it has tokens, the limits of its names,
//! literals and statements, and whether a tree spells the tokens. The first that fails decides.

ghost use Rattle.std.specs.Prelude.{◌≡◌, ◌<◌, ◌^◌, ◌⊎◌, Contains, length};
ghost use Rattle.lb_syntax.specs.Correct.{Parses};

use crate::error::SyntaxError;
use crate::place::{LineColumn, line_column};
use crate::program::program;
use crate::read::read_tokens;
use crate::reader::ReadError;
use crate::tree::{Offset, Source};
use std::alloc::Global;

/// The offset of the first of the last `left` tokens, or of the end of the text where none is left.
fn offset_of(text: &[u8], starts: &[Offset], left: usize) -> Offset
    requires { length text.now < 2 ^ 32 }
    ensures { Contains starts.now result ⊎ (result ≡ length text.now) }
{
    match starts.get(starts.len().saturating_sub(left)) {
        Some(start) => *start,
        None => text.len() as u32,
    }
}

/// The program that the text spells.
///
/// The errors are E1 for a byte that begins no token or a comment without an end, E2 where no tree
/// spells the tokens, and E3 for a text, a name, a literal or a statement over its limit. Names,
/// types and clocks are not judged here.
///
/// `parse(alloc, b"node f(x: int) returns (y: int); let y = x + 1; tel")` is a source with no
/// constant and one node.
pub fn parse(alloc: Global, text: &[u8]) -> Result<Source, SyntaxError>
    ensures { Parses text.now result }
{
    let found = read_tokens(alloc, text)?;
    match program(alloc, &found.tokens) {
        Ok(source) => Ok(source),
        Err(ReadError::Memory) => Err(SyntaxError::Memory),
        Err(ReadError::Syntax(left)) => {
            let offset = offset_of(text, &found.starts, left);
            let LineColumn { line, column } = line_column(text, offset);
            Err(SyntaxError::Syntax { line, column })
        }
    }
}
