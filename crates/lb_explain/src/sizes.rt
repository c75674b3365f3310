//! E3: a text, a name, a number or a statement over its limit.

use crate::bytes::byte_at;
use crate::context::context_of;
use crate::counts::put_past;
use crate::excerpt::put_excerpt;
use crate::lexeme::{Lexeme, Sort, token_at};
use crate::page::Page;
use crate::texts::{offset_of, spot};
use lb_places::Text;

/// The limits: bytes of a text, bytes of a name, the greatest number, and operators and opening
/// brackets of a statement.
const MOST_TEXT: u64 = 1_000_000;

const MOST_NAME: u64 = 64;

const MOST_NUMBER: u64 = 2_147_483_647;

const MOST_SIGNS: u64 = 500;

/// Whether a token is an operator or an opening bracket.
fn is_counted(text: &[u8], token: &Lexeme) -> bool {
    token.sort == Sort::Mark && lb_syntax::is_counted(token.of(text))
}

/// The number of static brackets that are open behind a token; `depth` are open before it.
fn depth_after(text: &[u8], depth: usize, token: &Lexeme) -> usize {
    if token.is(text, b"<<".as_slice()) {
        return depth.saturating_add(1);
    }
    if token.is(text, b">>".as_slice()) {
        return depth.saturating_sub(1);
    }
    depth
}

/// Whether a token ends a statement.
fn ends_statement(text: &[u8], depth: usize, token: &Lexeme) -> bool {
    if token.sort == Sort::End {
        return true;
    }
    if depth == 0 && token.is(text, b";".as_slice()) {
        return true;
    }
    token.is(text, b"let".as_slice()) || token.is(text, b"tel".as_slice())
}

/// The number of operators and opening brackets of the statement that begins at a place.
fn signs_from(text: &[u8], start: usize) -> usize {
    let mut signs: usize = 0;
    let mut depth: usize = 0;
    let mut at = start;
    for _turn in start..text.len() {
        let token = token_at(text, at);
        if ends_statement(text, depth, &token) {
            return signs;
        }
        signs = signs.saturating_add(usize::from(is_counted(text, &token)));
        depth = depth_after(text, depth, &token);
        at = token.end;
    }
    signs
}

/// The start of the statement that a place lies in.
fn statement_start(text: &[u8], place: usize) -> usize {
    let context = context_of(text, place);
    let mut start = context.start;
    let mut at = context.start;
    let mut depth: usize = 0;
    for _turn in context.start..place {
        let token = token_at(text, at);
        if token.start >= place {
            return start;
        }
        if ends_statement(text, depth, &token) {
            start = token.end;
        }
        depth = depth_after(text, depth, &token);
        at = token.end;
    }
    start
}

/// Puts how many operators and opening brackets the statement of a place has.
fn put_signs(page: &mut Page, text: &[u8], at: usize) {
    let found = signs_from(text, statement_start(text, at)) as u64;
    let signs = " operators and opening brackets";
    put_past(page, "this statement has ", found, signs, MOST_SIGNS);
}

/// Puts the limit that is broken at a token.
fn put_limit(page: &mut Page, text: &[u8], token: &Lexeme) {
    let length = token.end.saturating_sub(token.start) as u64;
    match token.sort {
        Sort::Name if length > MOST_NAME => {
            put_past(page, "this name has ", length, " bytes", MOST_NAME);
        }
        Sort::Number => {
            page.put_number_in(
                "this number is greater than ",
                MOST_NUMBER,
                ", the greatest int\n",
            );
        }
        _ => put_signs(page, text, token.start),
    }
}

/// How to mend it; empty where that is not known. The least int is written in another way: so a `-`
/// right before a number counts.
fn mend_of(text: &[u8], token: &Lexeme) -> &'static str {
    match token.sort {
        Sort::Name => "",
        Sort::Number if token.start == 0 => "",
        Sort::Number if byte_at(text, token.start.saturating_sub(1)) == b'-' => {
            "help: the least int is written `-2147483647 - 1`\n"
        }
        Sort::Number => "",
        _ => "help: give parts of it to variables of their own\n",
    }
}

/// Explains E3 at a line and a column.
pub fn explain_size(page: &mut Page, text: &Text<'_>, line: u32, column: u32) {
    let length = text.bytes.len() as u64;
    if length > MOST_TEXT {
        put_past(page, "the source has ", length, " bytes", MOST_TEXT);
        page.put("help: split the source; a node that is not used can be left out\n");
        return;
    }
    let token = token_at(text.bytes, offset_of(text.bytes, line, column));
    put_limit(page, text.bytes, &token);
    put_excerpt(page, text, &spot(text, token.start, token.end));
    page.put(mend_of(text.bytes, &token));
}
