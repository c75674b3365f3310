//! The refusals of this crate.

use crate::causes::{CallCycle, LimitFault, NameFault, RangeFault, RootFault, ValueFault};
use std::alloc::{AllocError, AllocFailed};
use std::fmt;

/// The first rule of names, static values and instances that a program breaks, and what breaks it.
///
/// The text was judged before, by `lb_syntax`. Types, clocks and definitions are judged later, by
/// `lb_check`.
#[derive(Drop, thiserror::Error)]
pub enum StaticError {
    /// Memory ran out (E0).
    #[error("memory ran out")]
    Memory,
    /// A name is unknown or doubled, or a call has another number of static arguments than its node
    /// has parameters (E4).
    #[error("the name {} is unknown or doubled", .0.name)]
    Name(Box<NameFault>),
    /// A node reaches itself by its calls (E7).
    #[error("the node {} reaches itself by its calls", .0.first())]
    Recursion(Box<CallCycle>),
    /// The node under test or the observer has an interface that it may not have (E8).
    #[error("the node that is run, or its observer, has an interface that it may not have")]
    Root(Box<RootFault>),
    /// A static expression has no value (E5).
    #[error("a static expression of the node {} has no value", .0.node)]
    Value(Box<ValueFault>),
    /// A size, an index or a slice is out of its range (E6).
    #[error("a size, an index or a slice of the node {} is out of its range", .0.node)]
    Range(Box<RangeFault>),
    /// There are more than 4,096 instances or 64 levels of them (E12).
    #[error("there are more than 4096 instances or 64 levels of them")]
    Instances(Box<LimitFault>),
}

impl fmt::Debug for StaticError {
    fn fmt<W: fmt::Write>(&self, f: &mut fmt::Formatter<W>) -> Result<(), fmt::Error> {
        fmt::Display::fmt(self, f)
    }
}

impl From<AllocError> for StaticError {
    ghost use Rattle.std.specs.Prelude.{◌≡◌};
    ghost use Rattle.lb_static.specs.declared.error.StaticError.TheVariants.{Memory};

    ghost from_gives = { λ _ e. e ≡ Memory };

    fn from(_e: AllocError) -> StaticError {
        StaticError::Memory
    }
}

impl<T: Drop> From<AllocFailed<T>> for StaticError {
    ghost use Rattle.std.specs.Prelude.{◌≡◌};
    ghost use Rattle.lb_static.specs.declared.error.StaticError.TheVariants.{Memory};

    ghost from_gives = { λ _ e. e ≡ Memory };

    fn from(_e: AllocFailed<T>) -> StaticError {
        StaticError::Memory
    }
}
