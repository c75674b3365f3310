//! The exact arithmetic of `int`.

ghost use Rattle.std.specs.Prelude.{◌≡◌};
ghost use Rattle.lb_static.specs.Arithmetic.{arithmetic, is_divisible, negated};

use lb_syntax::BinaryOperator;

/// Whether `a` has a quotient by `b`.
fn is_divisible(a: i32, b: i32) -> bool
    ensures { result ≡ is_divisible a b }
{
    b != 0 && !(a == i32::MIN && b == -1)
}

/// The exact result of an operator of arithmetic, or none where it is outside the range of `int`. A
/// quotient is cut off toward zero. No other operator has a result.
pub fn arithmetic(op: BinaryOperator, a: i32, b: i32) -> Option<i32>
    ensures { result ≡ arithmetic op a b }
{
    match op {
        BinaryOperator::Plus => a.checked_add(b),
        BinaryOperator::Minus => a.checked_sub(b),
        BinaryOperator::Times => a.checked_mul(b),
        BinaryOperator::Divide if is_divisible(a, b) => Some(a / b),
        BinaryOperator::Modulo if is_divisible(a, b) => Some(a % b),
        _ => None,
    }
}

/// The exact result of unary minus, or none where it is outside the range of `int`.
pub fn negated(a: i32) -> Option<i32>
    ensures { result ≡ negated a }
{
    a.checked_neg()
}
