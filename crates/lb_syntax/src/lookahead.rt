//! Tests of the next token.

ghost use Rattle.std.specs.Prelude.{◌≡◌, Some, None, IfNone, IfSome};
ghost use Rattle.lb_syntax.specs.ListReading as reading;

use crate::reader::after;
use crate::token::{Mark, PlacedToken, Token};

/// The tokens after this mark, or all of them if it does not come next.
pub fn skip(mark: Mark, tokens: &[PlacedToken]) -> &[PlacedToken]
    ensures { result.now ≡ reading.skip mark tokens.now }
{
    match after(mark, tokens) {
        Some(rest) => rest,
        None => tokens,
    }
}

/// The tokens, if a name comes next.
pub fn at_name(tokens: &[PlacedToken]) -> Option<&[PlacedToken]>
    ensures none { IfNone result (reading.at_name tokens.now ≡ None) }
    ensures some { IfSome result (λ rest. reading.at_name tokens.now ≡ Some rest.now) }
{
    let [first, ..] = tokens else {
        return None;
    };
    match first.token() {
        Token::Name(_) => Some(tokens),
        _ => None,
    }
}
