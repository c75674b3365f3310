//! Words and symbols by themselves, for readers of a text that spells no program.

ghost use Rattle.std.specs.Prelude.{◌≡◌, is_some};
ghost use Rattle.lb_syntax.specs.Operators as operators;
ghost use Rattle.lb_syntax.specs.Tokens as tokens;

use crate::level::form_of;
use crate::lex::{symbol_mark, word_mark};
use crate::limits::is_counted_mark;
use crate::token::Mark;

/// Whether a word is reserved.
pub fn is_reserved(word: &[u8]) -> bool
    ensures { result ≡ is_some (tokens.lookup tokens.words word.now) }
{
    word_mark(word).is_some()
}

/// The mark of a reserved word or a symbol.
fn mark_of(text: &[u8]) -> Option<Mark>
    ensures { result ≡ operators.mark_of text.now }
{
    match word_mark(text) {
        Some(mark) => Some(mark),
        None => symbol_mark(text),
    }
}

/// Whether a word or a symbol is the sign of an infix or postfix form: `and`, `+`, `when`, `[`.
pub fn is_sign(text: &[u8]) -> bool
    ensures { result ≡ is_some (operators.form_by text.now) }
{
    match mark_of(text) {
        Some(mark) => form_of(mark).is_some(),
        None => false,
    }
}

/// Whether the limit of a statement counts a word or a symbol: an operator, or a bracket that
/// nests.
pub fn is_counted(text: &[u8]) -> bool
    ensures { result ≡ operators.is_counted_text text.now }
{
    match mark_of(text) {
        Some(mark) => is_counted_mark(mark),
        None => false,
    }
}
