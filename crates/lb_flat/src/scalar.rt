//! Scalars.

/// The value of a scalar element that is present.
#[derive(Clone, Copy, PartialEq, Eq)]
pub enum Scalar {
    /// An `int`.
    Integer(i32),
    /// A `bool`.
    Boolean(bool),
    /// The undefined value, which a memory holds before its first tick.
    Nil,
    /// The value of a fault.
    Bad,
}
