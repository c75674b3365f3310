//! The two results of a division of integers: the quotient, and the remainder.

ghost use Rattle.std.specs.Prelude.{◌≡◌, ℤ, IsTrue, int_div, int_rem};
ghost use Rattle.std.specs.Int.{cast_signed, w32};
ghost use Rattle.lb_lanes.specs.Operators.{can_divide};

/// A quotient or a remainder of two integers.
pub(crate) trait Division {
    /// The result, where the two can be divided.
    ghost divided: { ℤ → ℤ → ℤ };

    // The result.
    fn divide(x: i32, y: i32) -> i32
        requires { IsTrue (can_divide x y) }
        ensures { result ≡ divided x y };

    // The result, computed from the quotient of the two.
    fn from_quotient(x: u32, divisor: u32, quotient: u32) -> u32
        requires divisible { IsTrue (can_divide (cast_signed w32 x) (cast_signed w32 divisor)) }
        requires quotient { cast_signed w32 quotient
            ≡ int_div (cast_signed w32 x) (cast_signed w32 divisor) }
        ensures { cast_signed w32 result
            ≡ divided (cast_signed w32 x) (cast_signed w32 divisor) };
}

/// The quotient, truncated toward zero.
pub(crate) struct Quotient;

impl Division for Quotient {
    ghost divided = { int_div };

    fn divide(x: i32, y: i32) -> i32 {
        x / y
    }

    fn from_quotient(x: u32, divisor: u32, quotient: u32) -> u32 {
        let _ = (x, divisor);
        quotient
    }
}

/// The remainder, with the dividend's sign.
pub(crate) struct Remainder;

impl Division for Remainder {
    ghost divided = { int_rem };

    fn divide(x: i32, y: i32) -> i32 {
        x % y
    }

    fn from_quotient(x: u32, divisor: u32, quotient: u32) -> u32 {
        x.wrapping_sub(quotient.wrapping_mul(divisor))
    }
}
