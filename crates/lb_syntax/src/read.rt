//! The tokens of a text that keeps its limits, or the first refusal before any tree is looked for.

ghost use Rattle.lb_syntax.specs.Texts.{Reads};

use crate::error::SyntaxError;
use crate::lex::{LexError, Tokens, lex};
use crate::limits::{MAX_TEXT, over_limit};
use crate::place::{LineColumn, line_column};
use std::alloc::Global;

/// The tokens of a text.
///
/// The length of the text is judged first (E3, at 1:1), then its bytes (E1), then the names, the
/// literals and the statements among its tokens (E3, at the first that is over its limit). Whether
/// a tree spells the tokens is not judged here.
pub fn read_tokens(alloc: Global, text: &[u8]) -> Result<Tokens, SyntaxError>
    ensures { Reads text.now result }
{
    if text.len() > MAX_TEXT {
        return Err(SyntaxError::Size { line: 1, column: 1 });
    }
    let found = match lex(alloc, text) {
        Ok(found) => found,
        Err(LexError::Memory) => return Err(SyntaxError::Memory),
        Err(LexError::Character(offset)) => {
            let LineColumn { line, column } = line_column(text, offset);
            return Err(SyntaxError::Character { line, column });
        }
    };
    match over_limit(&found.tokens) {
        Some(index) => {
            let LineColumn { line, column } = line_column(text, found.starts[index]);
            Err(SyntaxError::Size { line, column })
        }
        None => Ok(found),
    }
}
