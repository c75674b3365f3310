//! Places that come up in a walk, each of them once. The walk goes along the list while it grows.

ghost use Rattle.std.specs.Prelude.{◌≡◌, ◌<◌, ◌≤◌, [], OnOk, IfOk, IfSome, length, slice_get};
ghost use Rattle.lb_static.specs.WorkLists.{HasTurns, visited_after};

use std::alloc::{AllocError, Global};
use std::marker::Model;

/// Places of a list of `count` items, in the order in which they came up.
#[derive(Drop)]
pub struct WorkList {
    order: Vec<usize>,
    /// For each place the turn at which it came up, if it did.
    turns: Vec<Option<usize>>,
}

impl Model for WorkList {
    ghost use Rattle.std.specs.Prelude.{length};
    ghost use Rattle.lb_static.specs.WorkLists.{Visited, HasTurns};

    ghost Value = { Visited };

    ghost view = { λ v. record { order = v.order.items; count = length v.turns.items } };

    ghost invariant = { λ v. HasTurns v.order.items v.turns.items };
}

impl WorkList {
    /// A work list for the places of a list of `count` items; no place has come up yet.
    pub fn new(alloc: Global, count: usize) -> Result<WorkList, AllocError>
        ensures order { IfOk result (λ v. v.order ≡ []) }
        ensures count { IfOk result (λ v. v.count ≡ count) }
    {
        let turns = vec![in alloc; None; count]?;
        let order = Vec::new(alloc);
        Ok(WorkList { order, turns })
    }

    /// Visits a place and returns the turn at which it first came up.
    pub fn visit(&mut self, place: usize) -> Result<usize, AllocError>
        requires { place < self.old.count }
        ensures order { OnOk result (self.new.order ≡ visited_after self.old.order place) }
        ensures count { OnOk result (self.new.count ≡ self.old.count) }
        ensures turn { IfOk result (λ turn. slice_get self.new.order turn ≡ Some place) }
    {
        if let Some(turn) = self.turns[place] {
            return Ok(turn);
        }
        let turn = self.order.len();
        self.order.push(place)?;
        self.turns[place] = Some(turn);
        Ok(turn)
    }

    /// The place that came up at a turn, or none if no place did.
    pub fn place(&self, turn: usize) -> Option<usize>
        ensures value { result ≡ slice_get self.now.order turn }
        ensures within { IfSome result (λ place. place < self.now.count) }
        ensures early { IfSome result (λ _. turn < self.now.count) }
        ensures few { length self.now.order ≤ self.now.count }
    {
        self.order.get(turn).copied()
    }

    /// For each place the turn at which it came up, if it did.
    pub fn turns(&self) -> &[Option<usize>]
        ensures turns { HasTurns self.now.order result.now }
        ensures count { length result.now ≡ self.now.count }
    {
        &self.turns
    }
}
