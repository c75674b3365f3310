//! Trees that grow: an operand, and then each form that takes the tree so far as its left operand.

ghost use Rattle.std.specs.Prelude.{◌≡◌, ℕ, List};
ghost use Rattle.lb_syntax.specs.declared.token.Token.{Token as AToken};
ghost use Rattle.lb_syntax.specs.Growths.{Grows, Step};
ghost use Rattle.lb_syntax.specs.Reading as reading;
ghost use Rattle.lb_syntax.specs.Readers.{Gives};

use crate::reader::ReadError;
use crate::token::PlacedToken;

/// The outcome of a step on a tree.
#[derive(Drop)]
pub enum Growth<'t, T> {
    /// The tree is whole.
    Stop(T),
    /// A longer tree, and the tokens after it.
    More(T, &'t [PlacedToken]),
}

/// A reader of the forms that may follow a tree.
pub trait Grower {
    /// A tree as it is stored.
    type Tree: Drop;

    // The plain tree, and the plain tree that a stored tree stands for.
    ghost Plain: { Type 0 };

    ghost view: { Self.Tree → Plain };

    // Whether the reader may be called.
    ghost can_grow: { Self → Type 0 };

    // The outcome of a step on a plain tree, where at least a level is wanted.
    ghost step_at: { Self → ℕ → Plain → List AToken → Step Plain };

    /// One step on the tree `left`, where at least level `least` is wanted.
    fn step<'t>(
        &self,
        least: u8,
        left: Self::Tree,
        tokens: &'t [PlacedToken],
    ) -> Result<Growth<'t, Self::Tree>, ReadError>
        requires { can_grow self.now }
        ensures { Grows view (view left) result (step_at self.now least (view left) tokens.now) };
}

/// The tree that grows from `first` by at most `turns` steps, and the tokens after it: from `1`
/// before `- 2 - 3`, the tree of `(1 - 2) - 3`.
///
/// Errors: those of a step.
#[tactic(auto, unfolding(crate::specs::Reading::climb))]
pub fn climb<'t, G: Grower>(
    grower: &G,
    least: u8,
    turns: usize,
    first: G::Tree,
    tokens: &'t [PlacedToken],
) -> Result<(G::Tree, &'t [PlacedToken]), ReadError>
    requires { G.can_grow grower.now }
    ensures { Gives (λ x. (G.view x.0, x.1.now)) result
        (reading.climb (G.step_at grower.now least) turns (G.view first) tokens.now) }
{
    let mut left = first;
    let mut rest = tokens;
    for _turn in 0..turns {
        match grower.step(least, left, rest)? {
            Growth::Stop(whole) => return Ok((whole, rest)),
            Growth::More(longer, after) => {
                left = longer;
                rest = after;
            }
        }
    }
    Ok((left, rest))
}
