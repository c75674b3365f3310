//! E5 and E6: static expressions without a value, and values out of their range.

use crate::excerpt::put_bytes;
use crate::marking::{put_marked, token_of, word_of};
use crate::page::Page;
use crate::paths::put_path;
use lb_places::Text;
use lb_static::{RangeFault, RangeRole, ValueFault, ValueRule};

/// Whether an operator divides.
fn divides(sign: &[u8]) -> bool {
    matches!(sign, b"/" | b"div" | b"mod")
}

/// Puts why an operator gives no value of its operands.
fn put_operator(page: &mut Page, sign: &[u8], left: i64, right: i64) {
    page.put_integer_in("`", left, " ");
    put_bytes(page, sign);
    page.put_integer_in(" ", right, "` ");
    page.put(if right == 0 && divides(sign) {
        "has no value: the divisor is 0\n"
    } else {
        "is out of the range of int, -2147483648 to 2147483647\n"
    });
}

/// Puts why a static expression has no value.
fn put_value_rule(page: &mut Page, text: &Text<'_>, fault: &ValueFault) {
    match &fault.rule {
        ValueRule::Operator { left, right, .. } => {
            put_operator(page, word_of(text, fault.offset), *left, *right);
        }
        ValueRule::Negation { operand } => {
            let end = "` is out of the range of int, -2147483648 to 2147483647\n";
            page.put_integer_in("`- ", *operand, end);
        }
        ValueRule::Constant { name } => {
            page.put_in("the value of constant `", name.as_str(), "` needs itself\n");
        }
    }
}

/// Explains E5.
pub fn explain_value(page: &mut Page, text: &Text<'_>, fault: &ValueFault) {
    put_value_rule(page, text, fault);
    put_marked(page, text, fault.offset);
    put_path(page, text, &fault.path);
}

/// The use of a value, in words.
fn role_word(role: RangeRole) -> &'static str {
    match role {
        RangeRole::Size => "the size is ",
        RangeRole::Index => "the index is ",
        RangeRole::SliceStart => "the slice begins at ",
        RangeRole::SliceEnd => "the slice ends at ",
        RangeRole::Elements => "the elements are ",
    }
}

/// Puts a value, and the range that it is out of.
fn put_range(page: &mut Page, text: &Text<'_>, fault: &RangeFault) {
    if fault.role == RangeRole::Elements {
        page.put("`");
        put_bytes(page, token_of(text, fault.offset).of(text.bytes));
        page.put_integer_in("` has more than ", fault.most, " elements\n");
    } else {
        page.put_integer_in(role_word(fault.role), fault.value, ", and may be from ");
        page.put_integer_in("", fault.least, " to ");
        page.put_integer_in("", fault.most, "\n");
    }
}

/// Explains E6.
pub fn explain_range(page: &mut Page, text: &Text<'_>, fault: &RangeFault) {
    put_range(page, text, fault);
    put_marked(page, text, fault.offset);
    put_path(page, text, &fault.path);
}
