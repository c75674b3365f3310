//! Declared names, each of them once, in order.

ghost use Rattle.std.specs.Prelude.{◌≡◌, ◌++◌, ◌∷◌, [], not, true, position, length, OnErr, IfOk};
ghost use Rattle.std.specs.Prelude.{IfSome, ◌<◌};
ghost use Rattle.std.specs.Str.{bytes_eq};
ghost use Rattle.lb_static.specs.Parts.{among};
ghost use Rattle.lb_static.specs.Names.{are_distinct};
ghost use Rattle.lb_static.specs.Scopes.{declared_after};

use std::alloc::{AllocError, Global};
use std::collections::BTreeMap;
use std::marker::Model;

/// Names in the order of their declarations, each of them once.
///
/// An ordered map finds them. Its search is fast for any names, even if the writer of a source
/// picks them to make it slow.
///
/// Contracts see a list of names (as bytes).
#[derive(Drop)]
pub struct Scope {
    names: Vec<String>,
    /// The place of each name.
    places: BTreeMap<String, usize>,
}

impl Model for Scope {
    ghost use Rattle.std.specs.Prelude.{map, List, string_bytes};
    ghost use Rattle.lb_syntax.specs.Tree.{Name};
    ghost use Rattle.lb_static.specs.Scopes.{ArePlaced};

    ghost Value = { List Name };

    ghost view = { λ s. map string_bytes s.names.items };

    ghost invariant = { λ s. ArePlaced (map string_bytes s.names.items) s.places };
}

impl Scope {
    /// A scope with no name yet.
    pub fn new(alloc: Global) -> Scope
        ensures { result ≡ [] }
    {
        Scope {
            names: Vec::new(alloc),
            places: BTreeMap::new(alloc),
        }
    }

    /// Declares a name after the others, unless it is declared already, and returns whether it is
    /// new. Where memory is refused the scope stays as it was.
    pub fn declare(&mut self, alloc: Global, name: &str) -> Result<bool, AllocError>
        ensures fresh { IfOk result (λ fresh. fresh ≡ not (among name.now self.old)) }
        ensures after { IfOk result (λ _. self.new ≡ declared_after self.old name.now) }
        ensures err { OnErr result (self.new ≡ self.old) }
    {
        if self.places.get(name).is_some() {
            return Ok(false);
        }
        let key = String::from_str(alloc, name)?;
        let place = self.names.len();
        self.names.push(String::from_str(alloc, name)?)?;
        let Ok(_) = self.places.insert(key, place) else {
            self.names.pop();
            return Err(AllocError);
        };
        Ok(true)
    }

    /// The place of a name among those that are declared, from 0.
    pub fn place(&self, name: &str) -> Option<usize>
        ensures value { result ≡ position (bytes_eq name.now) self.now }
        ensures within { IfSome result (λ i. i < length self.now) }
        ensures once { are_distinct self.now ≡ true }
    {
        self.places.get(name).copied()
    }

    /// The number of declared names.
    pub fn len(&self) -> usize
        ensures count { result ≡ length self.now }
        ensures once { are_distinct self.now ≡ true }
    {
        self.names.len()
    }
}
