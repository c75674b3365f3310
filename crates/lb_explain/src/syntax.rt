//! E2: tokens that spell no tree.

use crate::bytes::{byte_at, part};
use crate::context::{Context, Section, context_of};
use crate::excerpt::{put_bytes, put_excerpt, put_place};
use crate::headings::{InConstant, constant_at, expected_in_heading};
use crate::lexeme::{Lexeme, Sort, last_before, piece_at, token_at};
use crate::mistakes::{Refused, does_not_group, mend_of};
use crate::page::Page;
use crate::statements::{expected_in_body, expected_in_value};
use crate::texts::{Stretch, line_at, offset_of, spot};
use lb_places::Text;

/// The most bytes of a token that are shown.
const SHOWN: usize = 40;

/// The tokens that are expected at a place among constants.
fn expected_in_constants(
    page: &mut Page,
    text: &[u8],
    context: &Context,
    place: usize,
) -> &'static str {
    let is_first = token_at(text, context.node).end == context.start;
    match constant_at(text, context.start, place, is_first) {
        InConstant::Before(expected) => expected,
        InConstant::Value(start) => expected_in_value(page, text, start, place),
    }
}

/// The tokens that are expected at a place between nodes.
fn expected_at_top(last: &Lexeme, text: &[u8]) -> &'static str {
    if last.is(text, b"tel".as_slice()) {
        return "`;`, `.`, `const`, `node`, `function` or the end of the text";
    }
    "`const`, `node`, `function` or the end of the text"
}

/// The tokens that are expected at a place; empty where they are not known. Where memory runs out
/// the page is cut.
fn expected_at(
    page: &mut Page,
    text: &[u8],
    context: &Context,
    last: &Lexeme,
    place: usize,
) -> &'static str {
    match context.part {
        Section::Top => expected_at_top(last, text),
        Section::Constants => expected_in_constants(page, text, context, place),
        Section::Heading => expected_in_heading(text, context.node, place),
        Section::Body => expected_in_body(page, text, context.start, place),
    }
}

/// The place from which tokens are read to find the last token before a place in this context.
fn window_start(text: &[u8], context: &Context) -> usize {
    if context.part == Section::Top {
        return context.start.saturating_sub(3);
    }
    if token_at(text, context.node).end == context.start {
        return context.node;
    }
    context.start
}

/// Puts the tokens that are expected. An operator that does not group with the one before it is
/// refused where another operator could stand.
fn put_expected(page: &mut Page, refused: &Refused<'_>) {
    page.put("expected ");
    match refused.expected.strip_suffix("an operator") {
        Some(front) if does_not_group(refused) => page.put_in("", front, "another operator"),
        _ => page.put(refused.expected),
    }
    page.put(", ");
}

/// Puts the tokens that are expected, and the token that was found.
fn put_found(page: &mut Page, refused: &Refused<'_>) {
    let (text, found) = (refused.text, refused.found);
    if !refused.expected.is_empty() {
        put_expected(page, refused);
    }
    if found.sort == Sort::End {
        return page.put("found the end of the text\n");
    }
    let end = found.end.min(found.start.saturating_add(SHOWN));
    page.put("found `");
    put_bytes(page, part(text, found.start, end));
    page.put("`\n");
}

/// Puts the line of a place with marks, unless it is empty.
fn put_line(page: &mut Page, text: &Text<'_>, place: &Stretch) {
    if !line_at(text.bytes, place.line_start).is_empty() {
        put_excerpt(page, text, place);
    }
}

/// Puts the name of a node, from the end of its `node` or `function` on.
fn put_node_name(page: &mut Page, text: &[u8], from: usize) {
    let name = token_at(text, from);
    if name.sort == Sort::Name {
        page.put(" ");
        put_bytes(page, name.of(text));
    }
    page.put(", which begins here\n");
}

/// Puts the start of the node that a place lies in, if it lies in one.
fn put_open_node(page: &mut Page, text: &Text<'_>, context: &Context) {
    if context.part != Section::Heading && context.part != Section::Body {
        return;
    }
    let word = token_at(text.bytes, context.node);
    put_place(page, text, &spot(text, word.start, word.end), "note");
    page.put("in ");
    put_bytes(page, word.of(text.bytes));
    put_node_name(page, text.bytes, word.end);
}

/// The token at a place; the end of the text where the place is at the end or the byte there is 0.
fn found_at(text: &[u8], at: usize) -> Lexeme {
    if byte_at(text, at) == 0 {
        return piece_at(text, text.len());
    }
    piece_at(text, at)
}

/// Explains E2 at a line and a column.
pub fn explain_syntax(page: &mut Page, text: &Text<'_>, line: u32, column: u32) {
    let bytes = text.bytes;
    let at = offset_of(bytes, line, column);
    let context = context_of(bytes, at);
    let found = found_at(bytes, at);
    let from = window_start(bytes, &context);
    let last = last_before(bytes, from, at);
    let expected = expected_at(page, bytes, &context, &last, at);
    let refused = Refused {
        text: bytes,
        from,
        last,
        found,
        expected,
    };
    put_found(page, &refused);
    put_line(page, text, &spot(text, found.start, found.end));
    put_open_node(page, text, &context);
    let mend = mend_of(&refused);
    if !mend.is_empty() {
        page.put_in("help: ", mend, "\n");
    }
}
