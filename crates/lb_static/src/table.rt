//! The instances of a program as a flat table.
//!
//! A node that is called with the same static values in many places is one specialization. It is
//! judged once, and the instances only point to it.
//!
//! ```text
//! node two(x: int) ..          specializations   0: count   1: two, calls 0, 0   2: main, calls 1
//! two calls count and count,   instances         0: main (2), under test
//! main calls two                                 1: two (1), call 0 of 0
//!                                                2: count (0), call 0 of 1
//!                                                3: count (0), call 1 of 1
//! ```

ghost use Rattle.std.specs.Prelude.{◌≡◌, option_map};
ghost use Rattle.lb_static.specs.CalledSpecializations.{called_by};

use crate::reachable::NodeId;
use crate::resolved::CallId;
use crate::static_value::StaticInt;

/// The place of a specialization in the table.
#[derive(Clone, Copy)]
pub struct SpecializationId(pub u32);

/// The place of an instance in the table.
#[derive(Clone, Copy)]
pub struct InstanceId(pub u32);

/// A node with the values of its static parameters.
#[derive(Drop)]
pub struct Specialization {
    pub node: NodeId,
    /// The values of its static parameters, in their order.
    pub values: Vec<StaticInt>,
    /// The value of each static expression of the node.
    pub statics: Vec<StaticInt>,
    /// The callee of each call and of each iterated node of the node.
    pub callees: Vec<SpecializationId>,
}

/// The place of an instance among the calls of the program.
#[derive(Clone, Copy)]
pub enum Origin {
    /// The node under test.
    UnderTest,
    /// The observer.
    Observer,
    /// A call of another instance, at an index of its iterator (0 for a call).
    Called {
        caller: InstanceId,
        call: CallId,
        index: u32,
    },
}

/// An instance: its specialization and its place among the calls.
#[derive(Clone, Copy)]
pub struct Instance {
    pub specialization: SpecializationId,
    pub origin: Origin,
}

/// The instances of a program, in the order of instantiation: those of the node under test, then
/// those of the observer, each before those that it calls.
#[derive(Drop)]
pub struct Table {
    pub specializations: Vec<Specialization>,
    pub instances: Vec<Instance>,
    /// The specialization of the node under test.
    pub root: SpecializationId,
    /// The specialization of the observer, if there is one.
    pub observer: Option<SpecializationId>,
}

impl Table {
    /// The callee of a call of a specialization.
    pub fn called(&self, specialization: &Specialization, call: CallId) -> Option<&Specialization>
        ensures { option_map (λ s. s.now) result ≡ called_by self.now specialization.now call }
    {
        let id = specialization.callees.get(call.0)?;
        self.specializations.get(id.0 as usize)
    }
}
