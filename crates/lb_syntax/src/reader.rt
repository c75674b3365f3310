//! Reading from the front of a slice of tokens: what all parts of the parser share.

ghost use Rattle.std.specs.Prelude.{◌≡◌, Some, None, IfNone, IfSome};
ghost use Rattle.lb_syntax.specs.Readers as reading;
ghost use Rattle.lb_syntax.specs.Readers.{Gives, GoesOn};

use crate::token::{Mark, PlacedToken, Token};
use crate::tree::{Name, Offset};
use std::alloc::{AllocError, AllocFailed, Global};

/// The reason why nothing was read.
#[derive(Drop)]
pub enum ReadError {
    /// Memory ran out.
    Memory,
    /// The tokens fit no form; the number of tokens from the first that does not fit to the end.
    Syntax(usize),
}

impl From<AllocError> for ReadError {
    ghost use Rattle.std.specs.Prelude.{◌≡◌};
    ghost use Rattle.lb_syntax.specs.declared.reader.ReadError.TheVariants.{Memory};

    ghost from_gives = { λ _ e. e ≡ Memory };

    fn from(_e: AllocError) -> ReadError {
        ReadError::Memory
    }
}

impl<T: Drop> From<AllocFailed<T>> for ReadError {
    ghost use Rattle.std.specs.Prelude.{◌≡◌};
    ghost use Rattle.lb_syntax.specs.declared.reader.ReadError.TheVariants.{Memory};

    ghost from_gives = { λ _ e. e ≡ Memory };

    fn from(_e: AllocFailed<T>) -> ReadError {
        ReadError::Memory
    }
}

/// Whether a token is this mark.
pub fn is_mark(mark: Mark, token: &Token) -> bool
    ensures { result ≡ reading.is_mark mark token.now }
{
    match token {
        Token::Mark(k) => *k == mark,
        _ => false,
    }
}

/// The offset of the first token, or 0 where there is none.
pub fn start_of(tokens: &[PlacedToken]) -> Offset {
    match tokens {
        [first, ..] => first.start(),
        [] => 0,
    }
}

/// The tokens after this mark, if it comes next.
#[tactic(auto, unfolding(crate::specs::Readers::expect))]
pub fn after(mark: Mark, tokens: &[PlacedToken]) -> Option<&[PlacedToken]>
    ensures none { IfNone result (reading.expect mark tokens.now ≡ None) }
    ensures some { IfSome result (λ rest. reading.expect mark tokens.now ≡ Some rest.now) }
{
    match tokens {
        [first, rest @ ..] if is_mark(mark, first.token()) => Some(rest),
        _ => None,
    }
}

/// The tokens after this mark, which has to come next.
pub fn expect(mark: Mark, tokens: &[PlacedToken]) -> Result<&[PlacedToken], ReadError>
    ensures { Gives (λ rest. rest.now) result (reading.expect mark tokens.now) }
{
    match after(mark, tokens) {
        Some(rest) => Ok(rest),
        None => Err(ReadError::Syntax(tokens.len())),
    }
}

/// A thing that was read, where this mark comes next, and the tokens after the mark.
///
/// Errors: the one in `read`, and `Syntax` where the mark does not come next.
#[inline(never)]
pub fn terminated<'t, T: Drop>(
    read: Result<(T, &'t [PlacedToken]), ReadError>,
    mark: Mark,
) -> Result<(T, &'t [PlacedToken]), ReadError>
    ensures { GoesOn (λ y. (y.0, y.1.now)) read.entry
        (λ x. reading.before mark x.0 x.1.now) result }
{
    let (found, rest) = read?;
    let rest = expect(mark, rest)?;
    Ok((found, rest))
}

/// The tokens after this mark, where it comes next after what was read.
///
/// Errors: those of `terminated`.
#[inline(never)]
pub fn then_expect<'t>(
    read: Result<&'t [PlacedToken], ReadError>,
    mark: Mark,
) -> Result<&'t [PlacedToken], ReadError>
    ensures { GoesOn (λ rest. rest.now) read.entry (λ ts. reading.expect mark ts.now) result }
{
    expect(mark, read?)
}

/// A name, and the tokens after it.
#[tactic(auto, unfolding(crate::specs::Readers::name_at))]
pub fn name_at(alloc: Global, tokens: &[PlacedToken]) -> Result<(Name, &[PlacedToken]), ReadError>
    ensures { Gives (λ x. (x.0, x.1.now)) result (reading.name_at tokens.now) }
{
    let [first, rest @ ..] = tokens else {
        return Err(ReadError::Syntax(tokens.len()));
    };
    match first.token() {
        Token::Name(x) => Ok((x.copy(alloc)?, rest)),
        _ => Err(ReadError::Syntax(tokens.len())),
    }
}
