//! Lists of one item or more, with separators between.

ghost use Rattle.std.specs.Prelude.{◌≡◌, List, Option, Some, None, map, length, IfNone, IfSome};
ghost use Rattle.lb_syntax.specs.declared.token.Token.{Token as AToken};
ghost use Rattle.lb_syntax.specs.ListReading as lists;
ghost use Rattle.lb_syntax.specs.Reading as reading;
ghost use Rattle.lb_syntax.specs.Readers.{Gives, GoesOn, Reader};

use crate::reader::ReadError;
use crate::token::PlacedToken;
use std::alloc::Global;

/// A reader of the items of a list and of the separators between them.
pub trait Items {
    /// An item as it is stored.
    type Item: Drop;

    // The plain item.
    ghost Plain: { Type 0 };

    // The plain item that an item stands for.
    ghost view: { Self.Item → Plain };

    // Whether the reader may be called.
    ghost can_read: { Self → Type 0 };

    // The plain readers of an item and of a separator.
    ghost item_at: { Self → Reader Plain };

    ghost separator_at: { Self → List AToken → Option (List AToken) };

    /// An item, and the tokens after it.
    fn item<'t>(
        &self,
        tokens: &'t [PlacedToken],
    ) -> Result<(Self::Item, &'t [PlacedToken]), ReadError>
        requires { can_read self.now }
        ensures { Gives (λ x. (view x.0, x.1.now)) result (item_at self.now tokens.now) };

    /// Reads an item, pushes it onto `found`, and returns the tokens after it.
    fn push_item<'t>(
        &self,
        found: &mut Vec<Self::Item>,
        tokens: &'t [PlacedToken],
    ) -> Result<&'t [PlacedToken], ReadError>
        requires { can_read self.now }
        ensures { Gives (λ rest. (map view found.new.items, rest.now)) result
            (lists.pushed (map view found.old.items) (item_at self.now tokens.now)) }
    {
        let (item, rest) = self.item(tokens)?;
        found.push(item)?;
        Ok(rest)
    }

    /// The tokens after a separator, if one comes next.
    fn separator<'t>(&self, tokens: &'t [PlacedToken]) -> Option<&'t [PlacedToken]>
        ensures none { IfNone result (separator_at self.now tokens.now ≡ None) }
        ensures some { IfSome result (λ rest. separator_at self.now tokens.now ≡ Some rest.now) };
}

/// One item or more with a separator between two, and the tokens after them.
///
/// Errors: those of the reader of an item, and `Memory`.
#[inline(always)]
#[tactic(auto, using(crate::proofs::Fronts::id))]
pub fn list<'t, I: Items>(
    alloc: Global,
    items: &I,
    tokens: &'t [PlacedToken],
) -> Result<(Vec<I::Item>, &'t [PlacedToken]), ReadError>
    requires { I.can_read items.now }
    ensures { Gives (λ x. (map I.view x.0.items, x.1.now)) result
        (reading.list_at (I.separator_at items.now) (I.item_at items.now) tokens.now) }
{
    let mut found = Vec::new(alloc);
    let end = list_onto(items, &mut found, tokens);
    finish_list(found, end)
}

/// The list `found` and the tokens after it, or the error that was met before its end. It stays out
/// of line, so that dropping the items after an error takes no stack while they are read.
#[inline(never)]
pub fn finish_list<'t, T: Drop>(
    found: Vec<T>,
    end: Result<&'t [PlacedToken], ReadError>,
) -> Result<(Vec<T>, &'t [PlacedToken]), ReadError>
    ensures { GoesOn (λ y. (y.0.items, y.1.now)) end.entry
        (λ rest. lists.beside found.items rest.now) result }
{
    let rest = end?;
    Ok((found, rest))
}

/// Reads one item or more, with a separator between two, pushes them onto `found`, and returns the
/// tokens after them.
///
/// Errors: those of the reader of an item, and `Memory`.
#[inline(always)]
pub fn list_onto<'t, I: Items>(
    items: &I,
    found: &mut Vec<I::Item>,
    tokens: &'t [PlacedToken],
) -> Result<&'t [PlacedToken], ReadError>
    requires { I.can_read items.now }
    ensures { Gives (λ rest. (map I.view found.new.items, rest.now)) result
        (reading.with_front (map I.view found.old.items) (reading.list_at
        (I.separator_at items.now) (I.item_at items.now) tokens.now)) }
{
    let rest = items.push_item(found, tokens)?;
    tail(items, found, rest)
}

/// Reads further items, each after a separator, pushes them onto `found`, and returns the tokens
/// after them.
#[inline(always)]
fn tail<'t, I: Items>(
    items: &I,
    found: &mut Vec<I::Item>,
    tokens: &'t [PlacedToken],
) -> Result<&'t [PlacedToken], ReadError>
    requires { I.can_read items.now }
    ensures { Gives (λ rest. (map I.view found.new.items, rest.now)) result
        (reading.with_front (map I.view found.old.items) (reading.tail_at
        (I.separator_at items.now) (I.item_at items.now) (length tokens.now) tokens.now)) }
{
    let mut rest = tokens;
    for _turn in 0..tokens.len() {
        match items.separator(rest) {
            None => return Ok(rest),
            Some(next) => rest = items.push_item(found, next)?,
        }
    }
    Ok(rest)
}

/// Any number of items, each after a separator, and the tokens after them.
#[tactic(auto, unfolding(crate::specs::ListReading::any_at), using(crate::proofs::Fronts::id))]
pub fn any<'t, I: Items>(
    alloc: Global,
    items: &I,
    tokens: &'t [PlacedToken],
) -> Result<(Vec<I::Item>, &'t [PlacedToken]), ReadError>
    requires { I.can_read items.now }
    ensures { Gives (λ x. (map I.view x.0.items, x.1.now)) result
        (lists.any_at (I.separator_at items.now) (I.item_at items.now) tokens.now) }
{
    let mut found = Vec::new(alloc);
    let end = tail(items, &mut found, tokens);
    finish_list(found, end)
}
