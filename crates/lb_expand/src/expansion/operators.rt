//! Operations whose operands are still to come.

ghost use Rattle.std.specs.Prelude.{◌≡◌, ℕ, ◌<◌};
ghost use Rattle.lb_expand.specs.Emissions.{AreBelow};
ghost use Rattle.lb_expand.specs.Operators.{unary_of, pair_of, IsPairBelow};
ghost use Rattle.lb_flat.specs.Values.{operation_of};

use lb_flat::{ElementId, Operation, Scalar};
use lb_syntax::{BinaryOperator, UnaryOperator};

/// An operation whose one operand is still to come.
#[derive(Clone, Copy)]
pub(crate) enum Unary {
    Data(UnaryOperator),
    Previous,
    Latest,
    Sample,
}

/// An operation whose two operands are still to come.
#[derive(Clone, Copy)]
pub(crate) enum Pair {
    Data(BinaryOperator),
    FirstThen,
    Choose(ElementId),
}

impl Unary {
    /// The operation on this operand.
    pub(crate) fn on(self, a: ElementId) -> Operation
        ensures operation { operation_of result ≡ unary_of self a.0 }
        ensures below { (n : ℕ) → a.0 < n → AreBelow n result }
    {
        match self {
            Unary::Data(op) => Operation::ApplyUnary(op, a),
            Unary::Previous => Operation::Previous(Scalar::Nil, a),
            Unary::Latest => Operation::Latest(Scalar::Nil, a),
            Unary::Sample => Operation::Sample(a),
        }
    }
}

impl Pair {
    /// The operation on these operands.
    pub(crate) fn on(self, a: ElementId, b: ElementId) -> Operation
        ensures operation { operation_of result ≡ pair_of self a.0 b.0 }
        ensures below { (n : ℕ) → IsPairBelow n self → a.0 < n → b.0 < n → AreBelow n result }
    {
        match self {
            Pair::Data(op) => Operation::ApplyBinary(op, a, b),
            Pair::FirstThen => Operation::FirstThen(false, a, b),
            Pair::Choose(c) => Operation::Choose(c, a, b),
        }
    }
}
