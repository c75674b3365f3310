//! Division of 32 bits by a multiplication and a shift, for a divisor that serves many lanes.
//!
//! The reciprocal of a divisor d is 2 ^ s / d rounded up. Where d is no power of 2, there is a
//! shift s for which the reciprocal fits a word, and its product with a number n up to 2 ^ 31,
//! shifted down by s, is the quotient n / d:
//!
//! ```text
//! d = 10    s = 35    2 ^ 35 / 10 = 3435973836.8    rounded up 3435973837
//! 57 * 3435973837 = 195850508709 = 5 * 2 ^ 35 + 24051816869      57 / 10 = 5
//! ```
//!
//! That the quotient is right for each number and each divisor is proved, not tried.

ghost use Rattle.std.specs.Prelude.{◌*◌, ◌≡◌, ◌<◌, ◌≤◌, ◌/◌, ◌^◌, IsTrue, int_div, unsigned_abs};
ghost use Rattle.std.specs.Int.{cast_signed, w32};
ghost use Rattle.lb_lanes.specs.Operators.{can_divide};
ghost use Rattle.lb_lanes.specs.Planes.{differ};
ghost use Rattle.lb_lanes.specs.Reciprocals.{IsReciprocal, is_below_zero};

// The reciprocal of a divisor between 2 ^ `log` and the next power of 2: the multiplier, and the
// shift.
pub(crate) fn reciprocal(d: u32, log: u32) -> (u32, u32)
    requires above { 2 ^ log < d }
    requires below { d < 2 * 2 ^ log }
    requires bound { d ≤ 2147483648 }
    requires short { log < 32 }
    ensures { IsReciprocal d result.0 result.1 }
{
    let shift = 32 + log;
    let factor = ((1u64 << shift) - 1) / u64::from(d) + 1;
    (factor as u32, shift)
}

// The quotient of `n`, a number up to 2 ^ 31, and `d`, by the reciprocal of `d`.
fn size_divided(n: u32, d: u32, factor: u32, shift: u32) -> u32
    requires bound { n ≤ 2147483648 }
    requires reciprocal { IsReciprocal d factor shift }
    ensures { result ≡ n / d }
{
    let _divisor = d;
    ((u64::from(n) * u64::from(factor)) >> shift) as u32
}

// Whether just one of the two integers is below 0.
fn differs_in_sign(x: u32, y: u32) -> bool
    ensures { result
        ≡ differ (is_below_zero (cast_signed w32 x)) (is_below_zero (cast_signed w32 y)) }
{
    if x < 2147483648 {
        y >= 2147483648
    } else {
        y < 2147483648
    }
}

// The quotient of `x` and `divisor`, by its size.
pub(crate) fn signed(x: u32, divisor: u32, size: u32) -> u32
    requires size { size
        ≡ unsigned_abs (cast_signed w32 x) / unsigned_abs (cast_signed w32 divisor) }
    requires divisible { IsTrue (can_divide (cast_signed w32 x) (cast_signed w32 divisor)) }
    ensures { cast_signed w32 result ≡ int_div (cast_signed w32 x) (cast_signed w32 divisor) }
{
    if differs_in_sign(x, divisor) {
        0u32.wrapping_sub(size)
    } else {
        size
    }
}

// The quotient of the integers of two words, where the size of the divisor is 2 ^ `shift`.
pub(crate) fn word_shifted(x: u32, divisor: u32, shift: u32) -> u32
    requires short { shift < 32 }
    requires power { unsigned_abs (cast_signed w32 divisor) ≡ 2 ^ shift }
    requires divisible { IsTrue (can_divide (cast_signed w32 x) (cast_signed w32 divisor)) }
    ensures { cast_signed w32 result ≡ int_div (cast_signed w32 x) (cast_signed w32 divisor) }
{
    signed(x, divisor, x.cast_signed().unsigned_abs() >> shift)
}

// The quotient of the integers of two words, by the reciprocal of the divisor's size.
pub(crate) fn word_divided(x: u32, divisor: u32, factor: u32, shift: u32) -> u32
    requires reciprocal { IsReciprocal (unsigned_abs (cast_signed w32 divisor)) factor shift }
    requires divisible { IsTrue (can_divide (cast_signed w32 x) (cast_signed w32 divisor)) }
    ensures { cast_signed w32 result ≡ int_div (cast_signed w32 x) (cast_signed w32 divisor) }
{
    let size = size_divided(
        x.cast_signed().unsigned_abs(),
        divisor.cast_signed().unsigned_abs(),
        factor,
        shift,
    );
    signed(x, divisor, size)
}
