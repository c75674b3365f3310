//! E9: an expression, an argument or a left side of a wrong type.

use crate::counts::put_count;
use crate::excerpt::put_bytes;
use crate::lexeme::{Sort, last_before, piece_at, token_at};
use crate::marking::{put_marked, token_of, word_of};
use crate::page::Page;
use crate::paths::put_path;
use lb_cause::{SourceType, TypeFault, TypeRule};
use lb_places::Text;
use lb_syntax::Kind;

/// Puts a type between two texts.
fn put_type_in(page: &mut Page, front: &str, shown: &SourceType, end: &str) {
    page.put(front);
    write!(page, "{shown}");
    page.put(end);
}

/// Puts the types that were found, as `this is int` or `this has 2 results`.
fn put_found(page: &mut Page, found: &[SourceType]) {
    match found {
        [] => page.put("this has no type\n"),
        [one] => put_type_in(page, "this is ", one, "\n"),
        several => {
            page.put("this has ");
            put_count(page, several.len(), "result");
            page.put("\n");
        }
    }
}

/// Puts the type that is wanted and the type that was found.
fn put_types(page: &mut Page, fault: &TypeFault) {
    match &fault.wanted {
        Some(wanted) => put_type_in(page, "", wanted, " is wanted, "),
        None => page.put("another type is wanted, "),
    }
    put_found(page, fault.found.as_slice());
}

/// The types that an operator wants, in words, where it wants one of several.
fn wanted_by(sign: &[u8]) -> &'static str {
    match sign {
        b"[" => "an array",
        b"|" => "arrays of one type",
        _ => "int or bool",
    }
}

/// Puts what an operator wants, and what its operand is.
fn put_operand(page: &mut Page, text: &Text<'_>, fault: &TypeFault) {
    let Some(offset) = fault.sign_offset else {
        return put_types(page, fault);
    };
    let sign = word_of(text, offset);
    page.put("`");
    put_bytes(page, sign);
    match &fault.wanted {
        Some(wanted) => put_type_in(page, "` wants ", wanted, ", "),
        None => page.put_in("` wants ", wanted_by(sign), ", "),
    }
    put_found(page, fault.found.as_slice());
}

/// Puts how a left variable and the right side differ.
fn put_left(page: &mut Page, fault: &TypeFault) {
    match &fault.wanted {
        Some(wanted) => put_type_in(page, "this is ", wanted, ", and the right side "),
        None => page.put("this is of another type, and the right side "),
    }
    match fault.found.as_slice() {
        [one] => put_type_in(page, "is ", one, "\n"),
        _ => page.put("is not\n"),
    }
}

/// Puts how many arguments there are, and how many are wanted.
fn put_arguments(page: &mut Page, found: usize, wanted: usize) {
    put_count(page, found, "argument");
    page.put(if found == 1 {
        " is given, "
    } else {
        " are given, "
    });
    let end = if wanted == 1 {
        " is wanted\n"
    } else {
        " are wanted\n"
    };
    page.put_number_in("", wanted as u64, end);
}

/// Puts how many variables stand on the left, and how many results on the right.
fn put_results(page: &mut Page, found: usize, wanted: usize) {
    put_count(page, found, "variable");
    page.put(" on the left, ");
    put_count(page, wanted, "result");
    page.put(" on the right\n");
}

/// Puts the rule that is broken.
fn put_rule(page: &mut Page, text: &Text<'_>, fault: &TypeFault) {
    match fault.rule {
        TypeRule::Operand(_) => put_operand(page, text, fault),
        TypeRule::Argument(place) => {
            page.put_number_in("argument ", place as u64, ": ");
            put_types(page, fault);
        }
        TypeRule::ArgumentCount { found, wanted } => put_arguments(page, found, wanted),
        TypeRule::Left(_) => put_left(page, fault),
        TypeRule::LeftCount { found, wanted } => put_results(page, found, wanted),
        TypeRule::Index => put_array(page, fault),
        rule => put_further_rule(page, rule, fault.found.as_slice()),
    }
}

/// Puts that an index or the ends of a slice are outside of an array.
fn put_array(page: &mut Page, fault: &TypeFault) {
    page.put("the index is outside of the array");
    match fault.found.as_slice() {
        [array] => put_type_in(page, ", which is ", array, "\n"),
        _ => page.put("\n"),
    }
}

/// Puts the rule that is broken, for the rules of numbers, calls, arrays, assertions and clocks.
fn put_further_rule(page: &mut Page, rule: TypeRule, found: &[SourceType]) {
    page.put(match rule {
        TypeRule::Number => "this value is out of the range of int\n",
        TypeRule::IteratedNode => "this node does not fit its iterator\n",
        TypeRule::Length => "this array would have no element, or more than 4096\n",
        TypeRule::ResultCount => "one result is wanted, ",
        TypeRule::Assertion => "an assertion is bool, ",
        TypeRule::ClockVariable => "the variable of a clock is bool, ",
        _ => "",
    });
    let is_told = matches!(
        rule,
        TypeRule::Number | TypeRule::IteratedNode | TypeRule::Length
    );
    if !is_told {
        put_found(page, found);
    }
}

/// Puts how a comparison after `not` was read.
fn put_reading(page: &mut Page, text: &Text<'_>, fault: &TypeFault) {
    const COMPARISONS: [&[u8]; 6] = [b"=", b"<>", b"<", b"<=", b">", b">="];
    let bytes = text.bytes;
    let operand = token_of(text, fault.offset);
    let before = last_before(bytes, fault.part_offset as usize, operand.start);
    let after = token_at(bytes, operand.end);
    let is_single = operand.sort == Sort::Name || operand.sort == Sort::Number;
    if is_single && before.is(bytes, b"not".as_slice()) && after.is_among(bytes, &COMPARISONS) {
        page.put("help: this is read as `(not ");
        put_bytes(page, operand.of(bytes));
        page.put(") ");
        put_bytes(page, after.of(bytes));
        page.put(" ..`; write parentheses round the comparison\n");
    }
}

/// Whether an array stands where a power is meant, as `x` of `x ^ 2 > 9`.
fn is_power(text: &[u8], fault: &TypeFault) -> bool {
    let wants_int = match &fault.wanted {
        Some(wanted) => wanted.sizes.is_empty() && matches!(wanted.kind, Kind::Int),
        None => false,
    };
    let operand = piece_at(text, fault.offset as usize);
    wants_int && token_at(text, operand.end).is(text, b"^".as_slice())
}

/// What an iterator wants of its node; empty for other words.
fn iterator_mend(iterator: &[u8]) -> &'static str {
    match iterator {
        b"red" => "help: `red` wants one output, of the type of the first input\n",
        b"fill" => "help: `fill` wants one input, an output of its type, and further outputs\n",
        _ => "",
    }
}

/// Puts how to mend it, for common mistakes.
fn put_mend(page: &mut Page, text: &Text<'_>, fault: &TypeFault) {
    match fault.rule {
        TypeRule::IteratedNode => page.put(iterator_mend(word_of(text, fault.offset))),
        TypeRule::ClockVariable => {
            page.put(
                "help: give the condition a variable of its own: `c = ..`, and then `when c`\n",
            );
        }
        TypeRule::Operand(_) if is_power(text.bytes, fault) => {
            page.put("help: `^` makes an array; a power is written as a product, `x * x`\n");
        }
        _ => put_reading(page, text, fault),
    }
}

/// Explains E9.
pub fn explain_type(page: &mut Page, text: &Text<'_>, fault: &TypeFault) {
    put_rule(page, text, fault);
    put_marked(page, text, fault.offset);
    put_mend(page, text, fault);
    put_path(page, text, &fault.path);
}
