//! The limits of names, literals and statements.
//!
//! The number of tokens of a statement that nest or join is limited, so that its tree is not too
//! deep for the layers that walk over it.

ghost use Rattle.std.specs.Prelude.{◌≡◌, ◌<◌, ◌≤◌, ◌+◌, ◌&&◌, ◌↔◌, length, IsNone, IfSome, IsTrue};
ghost use Rattle.lb_syntax.specs.Limits as spec;
ghost use Rattle.lb_syntax.specs.TokenCounts as token_counts;
ghost use Rattle.lb_syntax.specs.declared.token.Token.TheVariants.{Mark as Mark'};

use crate::level::form_of;
use crate::token::{Mark, PlacedToken, Token};

/// The greatest number of bytes of a text.
pub const MAX_TEXT: usize = 1_000_000;

/// The greatest number of bytes of a name.
pub const MAX_NAME: usize = 64;

/// The greatest value of a literal.
pub const MAX_LITERAL: u32 = 2_147_483_647;

/// The greatest number of counted tokens of a statement.
pub const MAX_COUNTED: usize = 500;

/// Whether a name or a literal keeps its limit.
fn fits(token: &Token) -> bool
    ensures { result ≡ (spec.is_short_name token.now && spec.is_small_literal token.now) }
{
    match token {
        Token::Name(name) => name.as_bytes().len() <= MAX_NAME,
        Token::Literal(value) => *value <= MAX_LITERAL,
        Token::Mark(_) => true,
    }
}

/// The number of static brackets that are open after a token.
fn depth_after(depth: usize, token: &Token) -> usize
    requires { depth < usize.MAX }
    ensures { result ≡ spec.depth_after depth token.now }
{
    match token {
        Token::Mark(Mark::Let | Mark::Tel) => 0,
        Token::Mark(Mark::OpenStatic) => depth + 1,
        Token::Mark(Mark::CloseStatic) => depth.saturating_sub(1),
        _ => depth,
    }
}

/// Whether a token separates statements.
fn is_separator(depth: usize, token: &Token) -> bool
    ensures { result ≡ spec.is_separator depth token.now }
{
    match token {
        Token::Mark(Mark::Let | Mark::Tel) => true,
        Token::Mark(Mark::Semicolon) => depth == 0,
        _ => false,
    }
}

/// Whether a mark is a prefix operator, or a bracket that nests in front of an operand.
fn opens(mark: Mark) -> bool
    ensures { result ≡ spec.opens mark }
{
    match mark {
        Mark::If | Mark::Not | Mark::Pre | Mark::Current | Mark::Hash | Mark::Nor => true,
        Mark::Open | Mark::OpenStatic => true,
        _ => false,
    }
}

/// Whether a mark is an operator, or a bracket that nests.
pub fn is_counted_mark(mark: Mark) -> bool
    ensures { result ≡ spec.is_counted (Mark' mark) }
{
    opens(mark) || form_of(mark).is_some()
}

/// Whether a token is an operator, or a bracket that nests.
fn is_counted(token: &Token) -> bool
    ensures { result ≡ spec.is_counted token.now }
{
    match token {
        Token::Mark(mark) => is_counted_mark(*mark),
        _ => false,
    }
}

/// The number of counted tokens of the statement once `token` is read, or none where it breaks a
/// limit.
fn counted_after(depth: usize, counted: usize, token: &Token) -> Option<usize>
    requires { counted ≤ 500 }
    ensures value { result ≡ token_counts.counted_after depth counted token.now }
    ensures few { IfSome result (λ n. n ≤ 500) }
{
    if !fits(token) {
        return None;
    }
    if is_separator(depth, token) {
        return Some(0);
    }
    let counted = if is_counted(token) {
        counted + 1
    } else {
        counted
    };
    if counted <= MAX_COUNTED {
        Some(counted)
    } else {
        None
    }
}

/// The index of the first token that breaks a limit: a name, a literal, or the 501st counted token
/// of its statement.
pub fn over_limit(tokens: &[PlacedToken]) -> Option<usize>
    ensures kept { IsNone result ↔ IsTrue (spec.keeps_limits tokens.now) }
    ensures first { IfSome result (spec.IsFirstOver tokens.now) }
{
    let mut depth = 0;
    let mut counted = 0;
    for (index, token) in tokens.iter().enumerate() {
        match counted_after(depth, counted, token.token()) {
            Some(n) => counted = n,
            None => return Some(index),
        }
        depth = depth_after(depth, token.token());
    }
    None
}
