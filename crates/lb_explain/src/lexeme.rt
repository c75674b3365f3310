//! Tokens of a source, read one after the other; none is kept.
//!
//! The parser has refused the text already. So nothing is judged here: a byte that begins no token
//! is a lexeme by itself.

use crate::bytes::{byte_at, find, part};
use lb_syntax::is_reserved;

/// The sort of a lexeme.
#[derive(Clone, Copy, PartialEq, Eq)]
pub enum Sort {
    Name,
    Number,
    /// A reserved word or a symbol.
    Mark,
    /// White space, or a comment.
    Blank,
    /// The text ends here.
    End,
}

/// A piece of a text.
#[derive(Clone, Copy)]
pub struct Lexeme {
    pub sort: Sort,
    pub start: usize,
    pub end: usize,
}

impl Lexeme {
    /// Its bytes.
    pub fn of<'t>(&self, text: &'t [u8]) -> &'t [u8] {
        part(text, self.start, self.end)
    }

    /// Its text; empty where its bytes are no UTF-8.
    pub fn word<'t>(&self, text: &'t [u8]) -> &'t str {
        std::str::from_utf8(self.of(text)).unwrap_or("")
    }

    /// Whether it is the reserved word or symbol `mark`.
    pub fn is(&self, text: &[u8], mark: &[u8]) -> bool {
        self.sort == Sort::Mark && self.of(text) == mark
    }

    /// Whether it is one of the reserved words or symbols `marks`.
    pub fn is_among(&self, text: &[u8], marks: &[&[u8]]) -> bool {
        for mark in marks {
            if self.is(text, *mark) {
                return true;
            }
        }
        false
    }
}

/// Whether a byte is white space.
fn is_space(b: u8) -> bool {
    b == b' ' || b == b'\t' || b == b'\r' || b == b'\n' || b == 12
}

/// Whether a byte may stand in a name.
fn is_of_name(b: u8) -> bool {
    b.is_ascii_alphanumeric() || b == b'_'
}

/// The end of the white space that begins at a place.
fn end_of_space(text: &[u8], from: usize) -> usize {
    for at in from..text.len() {
        if !is_space(text[at]) {
            return at;
        }
    }
    text.len()
}

/// The end of the name that begins at a place.
fn end_of_name(text: &[u8], from: usize) -> usize {
    for at in from..text.len() {
        if !is_of_name(text[at]) {
            return at;
        }
    }
    text.len()
}

/// The end of the number that begins at a place.
fn end_of_number(text: &[u8], from: usize) -> usize {
    for at in from..text.len() {
        if !text[at].is_ascii_digit() {
            return at;
        }
    }
    text.len()
}

/// The end of the comment whose inner text begins at `from`; `first` and `second` close it.
fn end_of_comment(text: &[u8], from: usize, first: u8, second: u8) -> usize {
    for at in from..text.len() {
        if text[at] == first && byte_at(text, at.saturating_add(1)) == second {
            return at.saturating_add(2);
        }
    }
    text.len()
}

/// The length of the symbol that begins with two bytes.
fn symbol_length(first: u8, second: u8) -> usize {
    match (first, second) {
        (b'-' | b'=', b'>') => 2,
        (b'<', b'>' | b'=' | b'<') => 2,
        (b'>', b'=' | b'>') => 2,
        (b'.', b'.') => 2,
        _ => 1,
    }
}

/// Whether a byte may stand in a symbol of two bytes.
fn is_of_pair(b: u8) -> bool {
    b == b'-' || b == b'=' || b == b'<' || b == b'>' || b == b'.'
}

/// The start of the run of letters and digits, or of symbols, that holds the byte at `at`. A token
/// begins there. The run goes back to `from` at most: a token begins there too, and no comment
/// stands behind it.
pub fn run_start(text: &[u8], from: usize, at: usize) -> usize {
    for back in 0..at.saturating_sub(from) {
        let start = at.saturating_sub(back);
        let last = byte_at(text, start.saturating_sub(1));
        let next = byte_at(text, start);
        let goes_on = is_of_name(last) && is_of_name(next) || is_of_pair(last) && is_of_pair(next);
        if !goes_on {
            return start;
        }
    }
    from
}

/// A piece of a text from one place to another.
fn piece(sort: Sort, start: usize, end: usize) -> Lexeme {
    Lexeme { sort, start, end }
}

/// The name or the reserved word at a place.
fn word_at(text: &[u8], at: usize) -> Lexeme {
    let end = end_of_name(text, at);
    let sort = if is_reserved(part(text, at, end)) {
        Sort::Mark
    } else {
        Sort::Name
    };
    piece(sort, at, end)
}

/// The comment at a place, if one begins there.
fn comment_at(text: &[u8], at: usize, first: u8, second: u8) -> Option<Lexeme> {
    let inner = at.saturating_add(2);
    let end = match (first, second) {
        (b'-', b'-') => find(text, inner, b'\n'),
        (b'(', b'*') => end_of_comment(text, inner, b'*', b')'),
        (b'/', b'*') => end_of_comment(text, inner, b'*', b'/'),
        _ => return None,
    };
    Some(piece(Sort::Blank, at, end))
}

/// The lexeme at a place.
pub fn piece_at(text: &[u8], at: usize) -> Lexeme {
    if at >= text.len() {
        return piece(Sort::End, text.len(), text.len());
    }
    let first = text[at];
    if is_space(first) {
        return piece(Sort::Blank, at, end_of_space(text, at));
    }
    if first.is_ascii_alphabetic() || first == b'_' {
        return word_at(text, at);
    }
    if first.is_ascii_digit() {
        return piece(Sort::Number, at, end_of_number(text, at));
    }
    let second = byte_at(text, at.saturating_add(1));
    if let Some(comment) = comment_at(text, at, first, second) {
        return comment;
    }
    let length = symbol_length(first, second);
    piece(Sort::Mark, at, at.saturating_add(length))
}

/// The first token from a place on.
pub fn token_at(text: &[u8], from: usize) -> Lexeme {
    let mut at = from;
    for _turn in from..text.len() {
        let found = piece_at(text, at);
        if found.sort != Sort::Blank {
            return found;
        }
        at = found.end;
    }
    piece_at(text, at)
}

/// The last token from `from` on that begins before `place`; the end of the text where there is
/// none.
pub fn last_before(text: &[u8], from: usize, place: usize) -> Lexeme {
    let mut last = piece_at(text, text.len());
    let mut at = from;
    for _turn in from..place {
        let token = token_at(text, at);
        if token.start >= place {
            return last;
        }
        last = token;
        at = token.end;
    }
    last
}
