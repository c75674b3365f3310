//! The operators on two integers, as data.

/// An operator on two integers.
#[derive(Clone, Copy, Debug, PartialEq, Eq)]
pub enum IntOperator {
    Add,
    Sub,
    Mul,
    /// The quotient, truncated toward zero.
    Div,
    /// The remainder, with the dividend's sign.
    Rem,
}
