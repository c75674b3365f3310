//! Flat equations, as the evaluator and the lane compiler read them.
//!
//! ```text
//! node counter(up: bool) returns (n: int);      element 0: up, 1: n
//! let n = (0 -> pre n) + if up then 1 else 0; tel
//!
//! 2 := 0                5 := 1          8 := 4 + 7
//! 3 := pre 1            6 := 0          1 := 8
//! 4 := 2 -> 3           7 := if 0 then 5 else 6
//! ```

use crate::scalar::Scalar;
use lb_syntax::{BinaryOperator, UnaryOperator};

/// An element of a flat program, by its number.
#[derive(Clone, Copy, Debug, PartialEq, Eq)]
pub struct ElementId(pub u32);

/// A clock of a flat program, by its place in the table of its clocks.
#[derive(Clone, Copy, PartialEq, Eq)]
pub struct ClockId(pub u32);

/// An input of the node under test, by its place in the signature.
#[derive(Clone, Copy)]
pub struct InputId(pub u32);

/// A clock: the instants of its parent at which its element has its sign. The parent is another
/// clock, or the base clock where there is none.
#[derive(Clone, Copy)]
pub struct Clock {
    pub parent: Option<ClockId>,
    pub element: ElementId,
    pub sign: bool,
}

/// The operation that gives an element from others. The content of a memory is part of it.
#[derive(Clone, Copy)]
pub enum Operation {
    /// A scalar of the trace.
    Input(InputId),
    /// A literal or a constant.
    Constant(Scalar),
    /// A copy of another element.
    Copy(ElementId),
    /// `not a`, `- a`
    ApplyUnary(UnaryOperator, ElementId),
    /// `a + b` and the other tables
    ApplyBinary(BinaryOperator, ElementId, ElementId),
    /// `if c then a else b`
    Choose(ElementId, ElementId, ElementId),
    /// `a -> b`, and whether its first tick is over
    FirstThen(bool, ElementId, ElementId),
    /// `pre a`, and the value of `a` one tick before
    Previous(Scalar, ElementId),
    /// `current a`, and the latest value of `a`
    Latest(Scalar, ElementId),
    /// `a when c`, on the clock of the equation
    Sample(ElementId),
}

/// An element, the clock that it is on (none is the base clock), and the operation that gives it.
#[derive(Clone, Copy)]
pub struct Equation {
    pub element: ElementId,
    pub clock: Option<ClockId>,
    pub operation: Operation,
}

/// An element that holds an input.
#[derive(Clone, Copy)]
pub struct InputPlace {
    pub element: ElementId,
    pub input: InputId,
}
