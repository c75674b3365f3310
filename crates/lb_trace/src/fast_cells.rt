//! Cells that are small numbers, read in one pass over their bytes.

ghost use Rattle.std.specs.Prelude.{true, ◌≡◌, ◌<◌, ◌==◌, ◌||◌, if◌then◌else◌, pos, IfSome, drop};
ghost use Rattle.lb_trace.specs.Cells.{signed};
ghost use Rattle.lb_trace.specs.Plain.{ends_line};
ghost use Rattle.lb_trace.specs.Fronts.{past_sign};
ghost use Rattle.lb_trace.specs.PlainRows.{BeginsWith, BeginsWithNumber};
ghost use Rattle.lb_trace.specs.Scan.{ends_cell};

use crate::front::{count_after, value_of};
use crate::scan::end_of;
use lb_syntax::Kind;

/// The value of a cell, the text after it, and whether it is the last one of its record.
#[derive(Clone, Copy)]
pub(crate) struct Value<'t> {
    pub(crate) value: i32,
    pub(crate) rest: &'t [u8],
    pub(crate) is_last: bool,
}

// `Value` for a number without a sign.
#[derive(Clone, Copy)]
struct Number<'t> {
    value: u32,
    rest: &'t [u8],
    is_last: bool,
}

/// The value of the first cell, where it is a number of at most nine digits or a Boolean of one
/// digit, and its end stands in the text. An `inner` cell ends in a comma, and has at most seven
/// digits. None says nothing of the text.
#[inline(always)]
pub(crate) fn small_cell<'t>(kind: Kind, text: &'t [u8], inner: bool) -> Option<Value<'t>>
    ensures { IfSome result (λ v. BeginsWith kind text.now v.value v.rest.now v.is_last) }
{
    match kind {
        Kind::Int => small_int(text, inner),
        Kind::Bool => small_bool(text, inner),
    }
}

/// Whether a byte that ends a cell ends its record too; an `inner` cell ends in a comma. None says
/// nothing of the byte.
#[inline(always)]
pub(crate) fn cell_end(b: u8, inner: bool) -> Option<bool>
    ensures { IfSome result (λ last. (ends_cell b ≡ true) × (last ≡ ends_line b)) }
{
    if b == b',' {
        Some(false)
    } else if inner {
        None
    } else {
        end_of(b)
    }
}

#[inline(always)]
fn small_int<'t>(text: &'t [u8], inner: bool) -> Option<Value<'t>>
    ensures { IfSome result (λ v. BeginsWith Kind.Int text.now v.value v.rest.now v.is_last) }
{
    let [first, rest @ ..] = text else {
        return None;
    };
    let is_negative = *first == b'-';
    let digits = after_sign(is_negative, text, rest);
    let number = any_number(is_negative, text, digits, inner)?;
    Some(Value {
        value: signed(is_negative, number.value),
        rest: number.rest,
        is_last: number.is_last,
    })
}

// The text after its sign, if it has one. No branch depends on the sign.
#[inline(always)]
fn after_sign<'t>(is_negative: bool, text: &'t [u8], rest: &'t [u8]) -> &'t [u8]
    ensures { result.now ≡ (if is_negative then rest.now else text.now) }
{
    if is_negative { rest } else { text }
}

/// A number with its sign.
#[inline(always)]
pub(crate) fn signed(is_negative: bool, n: u32) -> i32
    requires { n < 1000000000 }
    ensures { signed is_negative n ≡ Some result }
{
    let n = n.cast_signed();
    if is_negative { 0 - n } else { n }
}

#[inline(always)]
fn any_number<'t>(
    is_negative: bool,
    text: &[u8],
    digits: &'t [u8],
    inner: bool,
) -> Option<Number<'t>>
    requires { digits.now ≡ past_sign is_negative text.now }
    ensures { IfSome result (λ n. BeginsWithNumber digits.now n.value n.rest.now n.is_last) }
{
    if let Some(number) = long_number(is_negative, text, digits, inner) {
        return Some(number);
    }
    // A loop over inner cells leaves all other numbers to a call of its own.
    if inner {
        return None;
    }
    small_number(digits)
}

// A number of at most seven digits, which stand after the sign of a text. No branch depends on
// their number, which a processor guesses badly.
#[inline(always)]
fn long_number<'t>(
    is_negative: bool,
    text: &[u8],
    digits: &'t [u8],
    inner: bool,
) -> Option<Number<'t>>
    requires { digits.now ≡ past_sign is_negative text.now }
    ensures { IfSome result (λ n. BeginsWithNumber digits.now n.value n.rest.now n.is_last) }
{
    // The digits are at least eight bytes, after a sign too.
    if text.len() < 9 {
        return None;
    }
    let count = count_after(is_negative, text);
    if count == 0 {
        return None;
    }
    if count > 7 {
        return None;
    }
    let is_last = cell_end(digits[count], inner)?;
    Some(Number {
        value: value_of(digits, count),
        rest: &digits[count + 1..],
        is_last,
    })
}

// A number of at most nine digits. It stays a call, since few numbers are so long or so near to the
// end of a text.
#[inline(never)]
fn small_number<'t>(text: &'t [u8]) -> Option<Number<'t>>
    ensures { IfSome result (λ n. BeginsWithNumber text.now n.value n.rest.now n.is_last) }
{
    let mut n: u32 = 0;
    for (i, b) in text.iter().enumerate() {
        if !b.is_ascii_digit() {
            if i == 0 {
                return None;
            }
            let is_last = end_of(*b)?;
            return Some(Number {
                value: n,
                rest: &text[i + 1..],
                is_last,
            });
        }
        if i == 9 {
            return None;
        }
        n = n * 10 + u32::from(*b - b'0');
    }
    None
}

/// The value of the first cell, where it is the digit 0 or 1; the text after it begins two bytes
/// on. An `inner` cell ends in a comma. None says nothing of the text.
#[inline(always)]
pub(crate) fn small_bool<'t>(text: &'t [u8], inner: bool) -> Option<Value<'t>>
    ensures begins { IfSome result
        (λ v. BeginsWith Kind.Bool text.now v.value v.rest.now v.is_last) }
    ensures rest { IfSome result (λ v. v.rest.now ≡ drop 2 text.now) }
{
    let [first, end, rest @ ..] = text else {
        return None;
    };
    if !is_bit(*first) {
        return None;
    }
    let is_last = cell_end(*end, inner)?;
    Some(Value {
        value: bit_of(*first),
        rest,
        is_last,
    })
}

/// Whether a byte is a digit 0 or 1.
#[inline(always)]
pub(crate) fn is_bit(b: u8) -> bool
    ensures { result ≡ ((b == 48) || (b == 49)) }
{
    b == b'0' || b == b'1'
}

/// The value of a digit 0 or 1.
#[inline(always)]
pub(crate) fn bit_of(b: u8) -> i32
    ensures { result ≡ (if b == 49 then pos 1 else pos 0) }
{
    if b == b'1' { 1 } else { 0 }
}
