//! The specializations that instantiation has entered.

ghost use Rattle.std.specs.Prelude.{◌≡◌, ◌<◌, ◌^◌, [], length, option_map, slice_get, Some, IfOk};
ghost use Rattle.std.specs.Prelude.{IfSome, OnErr};
ghost use Rattle.lb_static.specs.KeyedSpecializations.{IsFound, IsAdded};

use crate::reachable::NodeId;
use crate::static_value::StaticInt;
use crate::table::{Specialization, SpecializationId};
use indexmap::IndexMap;
use std::alloc::{AllocError, Global};
use std::marker::Model;

/// The key of a specialization: its node and the values of its static parameters.
#[derive(Drop, PartialEq, Eq, Hash)]
struct Key {
    node: NodeId,
    values: Vec<i64>,
}

/// The key of a node with values of its static parameters.
fn key_of(alloc: Global, node: NodeId, values: &[StaticInt]) -> Result<Key, AllocError>
    ensures { IfOk result (λ k. (k.node ≡ node) × (k.values.items ≡ values.now)) }
{
    let mut numbers = Vec::new(alloc);
    for value in values {
        numbers.push(value.get())?;
    }
    Ok(Key {
        node,
        values: numbers,
    })
}

/// Specializations in the order in which they were entered, each of them once.
///
/// Contracts see the list of specializations.
#[derive(Drop)]
pub struct Specializations {
    keyed: IndexMap<Key, Specialization>,
}

impl Model for Specializations {
    ghost use Rattle.std.specs.Prelude.{List, map};
    ghost use Rattle.lb_static.specs.KeyedSpecializations.{AreKeyed};
    ghost use Rattle.lb_static.specs.declared.table.Specialization.{Specialization};

    ghost Value = { List Specialization };

    ghost view = { λ s. map (λ e. e.1) s.keyed.entries };

    ghost invariant = { λ s. AreKeyed s.keyed.entries };
}

impl Specializations {
    /// A table with no specialization yet.
    pub fn new(alloc: Global) -> Specializations
        ensures { result ≡ [] }
    {
        Specializations {
            keyed: IndexMap::new(alloc),
        }
    }

    /// The specialization of a node with these values of its static parameters, and its place, if
    /// it was entered.
    pub fn find(
        &self,
        alloc: Global,
        node: NodeId,
        values: &[StaticInt],
    ) -> Result<Option<(SpecializationId, &Specialization)>, AllocError>
        requires few { length self.now < 2 ^ 32 }
        ensures found { IfOk result (λ found.
            IsFound self.now node values.now (option_map (λ f. f.0) found)) }
        ensures there { IfOk result (λ found. IfSome found (λ f.
            slice_get self.now f.0.0 ≡ Some f.1.now)) }
    {
        let key = key_of(alloc, node, values)?;
        match self.keyed.get_full(&key) {
            Some((place, _, specialization)) => {
                Ok(Some((SpecializationId(place as u32), specialization)))
            }
            None => Ok(None),
        }
    }

    /// Adds a specialization after the others and returns its place. If its node was entered with
    /// equal values, that specialization stays, and its place is returned. Where memory is refused
    /// nothing is added.
    pub fn add(
        &mut self,
        alloc: Global,
        specialization: Specialization,
    ) -> Result<SpecializationId, AllocError>
        requires few { length self.old < 2 ^ 32 }
        ensures added { IfOk result (IsAdded self.old specialization self.new) }
        ensures err { OnErr result (self.new ≡ self.old) }
    {
        let key = key_of(alloc, specialization.node, &specialization.values)?;
        if let Some(place) = self.keyed.get_index_of(&key) {
            return Ok(SpecializationId(place as u32));
        }
        let (place, _) = self.keyed.insert_full(key, specialization)?;
        Ok(SpecializationId(place as u32))
    }

    /// The specializations, in their order.
    pub fn into_vec(self, alloc: Global) -> Result<Vec<Specialization>, AllocError>
        ensures { IfOk result (λ v. v.items ≡ self) }
    {
        self.keyed.into_values().collect(alloc)
    }
}
