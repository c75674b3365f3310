//! Why the equations of a program are not put in order, and where.
//!
//! Each place is a byte offset in the text of the source.

ghost use Rattle.std.specs.Prelude.{◌≡◌};

use crate::equation::ElementId;
use lb_static::CallPath;
use std::alloc::{AllocError, AllocFailed, Global};

/// An element of a cycle, and where it is defined.
#[derive(Debug, Drop)]
pub struct CyclePlace {
    /// Its name, as users write it: `x`, or `a[2]` where the variable is an array.
    pub name: String,
    /// The offset of the equation that defines its variable; for an input of a called node, the
    /// offset of the name of the node in the call.
    pub offset: u32,
    /// The number of the instance in which it stands, among those of the cycle.
    pub instance: usize,
}

/// Elements of variables, each of which needs the next one at the same instant, and the last of
/// which needs the first (E13).
#[derive(Debug, Drop)]
pub struct Cycle {
    pub elements: Vec<ElementId>,
    /// The place of each element, in their order; none before `with_places` has found them.
    pub places: Vec<CyclePlace>,
    /// The ways to the instances in which they stand, each of them once.
    pub instances: Vec<CallPath>,
}

impl Cycle {
    /// A cycle of some elements, of which no place is found yet.
    pub(crate) fn new(alloc: Global, elements: Vec<ElementId>) -> Cycle
        ensures { result.elements ≡ elements }
    {
        Cycle {
            elements,
            places: Vec::new(alloc),
            instances: Vec::new(alloc),
        }
    }
}

/// Why the equations of a program are not put in order.
#[derive(Debug, Drop, thiserror::Error)]
pub enum OrderError {
    /// Memory ran out (E0).
    #[error("memory ran out")]
    Memory,
    /// An element needs itself at the same instant (E13).
    #[error("an element needs itself at the same instant")]
    Cycle(Box<Cycle>),
}

impl From<AllocError> for OrderError {
    ghost use Rattle.lb_flat.specs.declared.error.OrderError.TheVariants.{Memory};

    ghost from_gives = { λ _ e. e ≡ Memory };

    fn from(_e: AllocError) -> OrderError {
        OrderError::Memory
    }
}

impl<T: Drop> From<AllocFailed<T>> for OrderError {
    ghost use Rattle.lb_flat.specs.declared.error.OrderError.TheVariants.{Memory};

    ghost from_gives = { λ _ e. e ≡ Memory };

    fn from(_e: AllocFailed<T>) -> OrderError {
        OrderError::Memory
    }
}
