//! The cells of a trace text.
//!
//! The bytes of a cell are read once, from the left; no text is made of them.

ghost use Rattle.std.specs.Prelude.{◌≡◌, ◌<◌, ◌≤◌, length, min, option_map, IfSome};
ghost use Rattle.std.specs.Option.{option_and_then};
ghost use Rattle.lb_trace.specs.Cells.{bool_of, cell_value, int_of, natural_of, signed};

use lb_syntax::Kind;

// More than any number that an `int` cell may spell.
const TOO_LARGE: u64 = 1 << 32;

/// The value that a cell of this kind spells, a Boolean as 0 or 1; None where it spells none.
pub fn cell_value(kind: Kind, cell: &[u8]) -> Option<i32>
    ensures { result ≡ cell_value kind cell.now }
{
    match kind {
        Kind::Int => int_of(cell),
        Kind::Bool => bool_of(cell),
    }
}

// The integer that a cell spells: an optional `-` and 1 to 20 digits.
fn int_of(cell: &[u8]) -> Option<i32>
    ensures { result ≡ int_of cell.now }
{
    let (is_negative, digits) = match cell {
        [b'-', digits @ ..] => (true, digits),
        _ => (false, cell),
    };
    if !digits.is_empty() && digits.len() <= 3 {
        let n = few_digits(digits)?.cast_signed();
        return Some(if is_negative { 0 - n } else { n });
    }
    signed(is_negative, digits)
}

// The integer that a sign and 1 to 20 digits spell. It stays a call, so that the loop over the
// cells of a record keeps its registers for short ones.
#[inline(never)]
fn signed(is_negative: bool, digits: &[u8]) -> Option<i32>
    ensures { result ≡ option_and_then (signed is_negative) (natural_of digits.now) }
{
    let n = natural_of(digits)?;
    if is_negative && n <= 2147483648 {
        Some((0 - n as i64) as i32)
    } else if !is_negative && n <= 2147483647 {
        Some(n as i32)
    } else {
        None
    }
}

// The ASCII byte of the digit 0.
const ZERO: u32 = 48;

// The weights of the first and the middle digit, for each number of digits; the last one has weight
// 1. Where two of the three are the same digit, one of the two has weight 0.
static WEIGHTS: [[u32; 2]; 4] = [[0, 0], [0, 0], [10, 0], [100, 10]];

// The number that 1 to 3 digits spell. No branch depends on how many there are.
fn few_digits(digits: &[u8]) -> Option<u32>
    requires some { 0 < length digits.now }
    requires few { length digits.now ≤ 3 }
    ensures value { result ≡ natural_of digits.now }
    ensures small { IfSome result (λ n. n < 1000) }
{
    let count = digits.len();
    let first = u32::from(digits[0]).wrapping_sub(ZERO);
    let middle = u32::from(digits[count / 2]).wrapping_sub(ZERO);
    let last = u32::from(digits[count - 1]).wrapping_sub(ZERO);
    if first > 9 || middle > 9 || last > 9 {
        return None;
    }
    let [hundred, ten] = WEIGHTS[count];
    Some(first * hundred + middle * ten + last)
}

// The number that 1 to 20 digits spell, or `TOO_LARGE` where it is greater.
fn natural_of(digits: &[u8]) -> Option<u64>
    ensures { result ≡ option_map (λ n. min n TOO_LARGE) (natural_of digits.now) }
{
    if digits.is_empty() || digits.len() > 20 {
        return None;
    }
    if digits.len() > 18 {
        return many_digits(digits);
    }
    let mut n: u64 = 0;
    for digit in digits {
        if !digit.is_ascii_digit() {
            return None;
        }
        n = n * 10 + u64::from(*digit - b'0');
    }
    Some(n.min(TOO_LARGE))
}

// `natural_of` for 19 or 20 digits, whose number may be too large for 64 bits.
fn many_digits(digits: &[u8]) -> Option<u64>
    requires some { 0 < length digits.now }
    requires limit { length digits.now ≤ 20 }
    ensures { result ≡ option_map (λ n. min n TOO_LARGE) (natural_of digits.now) }
{
    let mut n: u64 = 0;
    for digit in digits {
        if !digit.is_ascii_digit() {
            return None;
        }
        n = (n * 10 + u64::from(*digit - b'0')).min(TOO_LARGE);
    }
    Some(n)
}

// The Boolean that a cell spells: `0`, `1`, `true` or `false`.
fn bool_of(cell: &[u8]) -> Option<i32>
    ensures { result ≡ bool_of cell.now }
{
    if cell == b"1".as_slice() || cell == b"true".as_slice() {
        Some(1)
    } else if cell == b"0".as_slice() || cell == b"false".as_slice() {
        Some(0)
    } else {
        None
    }
}
