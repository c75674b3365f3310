//! The static expressions of a node, in order.
//!
//! Equal static expressions, which have the same role and are written alike, are kept once where
//! they stand in expressions. That saves values: each specialization of a node holds one value for
//! each static expression that is kept. The sizes of a declaration, and the static arguments of a
//! call, stand one after another, so each of them is kept.
//!
//! ```text
//! a ^ n ^ n, b[0], c[0], d[n - 1]      kept: n, a size; 0, an index; n - 1, an index
//! ```

ghost use Rattle.std.specs.Prelude.{◌≡◌, ◌++◌, ◌∷◌, [], length, map, OnOk, OnErr, IfOk, Some, None};
ghost use Rattle.lb_static.specs.PartKeys.{key_of, has_key};
ghost use Rattle.lb_static.specs.StaticParts.{part_of};
ghost use Rattle.lb_static.specs.SharedParts.{is_held_at, place_of, with_static, first_with};
ghost use Rattle.lb_static.specs.SharedParts.{ArePartsPlaced, HasNoNewKey};

use crate::part_keys::{is_same_part, key_of};
use crate::resolved::{StaticId, StaticPart};
use std::alloc::{AllocError, Global};
use std::collections::BTreeMap;

/// The static expressions of a node so far, in order.
#[derive(Drop)]
pub struct StaticParts<'s> {
    parts: Vec<StaticPart<'s>>,
    /// The first place of each key.
    places: BTreeMap<u64, usize>,
    ghost placed: { ArePartsPlaced (map part_of parts.items) places },
}

impl<'s> StaticParts<'s> {
    /// A list with no static expression yet.
    pub fn new(alloc: Global) -> StaticParts<'s>
        ensures { result.parts.items ≡ [] }
    {
        StaticParts {
            parts: Vec::new(alloc),
            places: BTreeMap::new(alloc),
        }
    }

    /// The number of static expressions.
    pub fn len(&self) -> usize
        ensures { result ≡ length self.now.parts.items }
    {
        self.parts.len()
    }

    /// Whether the static expression at `place` is equal to `part`.
    fn is_held_at(&self, place: usize, part: StaticPart<'s>) -> bool
        ensures { result
            ≡ is_held_at (map part_of self.now.parts.items) (part_of part.entry) place }
    {
        match self.parts.get(place) {
            Some(found) => is_same_part(*found, part),
            None => false,
        }
    }

    /// Adds a static expression at the end, whose key, if it has one, is there already.
    fn append(&mut self, part: StaticPart<'s>) -> Result<StaticId, AllocError>
        requires { HasNoNewKey (map part_of self.old.parts.items) (part_of part) }
        ensures after { OnOk result
            (self.new.parts.items ≡ self.old.parts.items ++ part.entry ∷ []) }
        ensures place { IfOk result (λ id. id.0 ≡ length self.old.parts.items) }
        ensures err { OnErr result (self.new.parts.items ≡ self.old.parts.items) }
    {
        let place = self.parts.len();
        self.parts.push(part)?;
        Ok(StaticId(place))
    }

    /// Adds a static expression at the end, whose key is new.
    fn add(&mut self, key: u64, part: StaticPart<'s>) -> Result<StaticId, AllocError>
        requires key { key_of (part_of part) ≡ Some key }
        requires fresh { first_with (has_key key) (map part_of self.old.parts.items) ≡ None }
        ensures after { OnOk result
            (self.new.parts.items ≡ self.old.parts.items ++ part.entry ∷ []) }
        ensures place { IfOk result (λ id. id.0 ≡ length self.old.parts.items) }
        ensures err { OnErr result (self.new.parts.items ≡ self.old.parts.items) }
    {
        let place = self.parts.len();
        self.parts.push(part)?;
        let Ok(_) = self.places.insert(key, place) else {
            self.parts.pop();
            return Err(AllocError);
        };
        Ok(StaticId(place))
    }

    /// Keeps a static expression and returns its place: that of an equal one, if one is found, or
    /// else a new place at the end. Where memory is refused nothing is added.
    pub fn push(&mut self, part: StaticPart<'s>) -> Result<StaticId, AllocError>
        ensures after { IfOk result (λ _.
            self.new.parts.items ≡ with_static self.old.parts.items part.entry) }
        ensures place { IfOk result (λ id.
            id.0 ≡ place_of (map part_of self.old.parts.items) (part_of part.entry)) }
        ensures err { OnErr result (self.new.parts.items ≡ self.old.parts.items) }
    {
        let Some(key) = key_of(part) else {
            return self.append(part);
        };
        match self.places.get(&key).copied() {
            Some(place) if self.is_held_at(place, part) => Ok(StaticId(place)),
            Some(_) => self.append(part),
            None => self.add(key, part),
        }
    }

    /// The static expressions, in their order.
    pub fn into_vec(self) -> Vec<StaticPart<'s>>
        ensures { result.items ≡ self.entry.parts.items }
    {
        let StaticParts {
            parts,
            places: _places,
        } = self;
        parts
    }
}
