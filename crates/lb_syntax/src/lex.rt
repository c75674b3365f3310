//! Cuts a text into tokens.
//!
//! At each place `cut` decides from two bytes which piece stands there, and finds its end. `lex`
//! goes from piece to piece, so the time is proportional to the text. A word is looked up among the
//! reserved words of its length alone. A new word or symbol has to be added here and in the tables
//! of the definition.

ghost use Rattle.std.specs.Str.{IsUtf8};
ghost use Rattle.std.specs.Prelude.{◌≡◌, ◌<◌, ◌≤◌, ◌≢◌, ◌+◌, ◌^◌, ◌==◌, [], ◌∷◌, length, map};
ghost use Rattle.std.specs.Prelude.{filter, slice_index, take_while, IfSome, IfOk, true, drop};
ghost use Rattle.lb_syntax.specs.Tokens as spec;
ghost use Rattle.lb_syntax.specs.Lexed.{passes, piece_of, IsWithin, Lexes};

use crate::token::{Mark, PlacedToken, Token};
use crate::tree::{Name, Offset};
use std::alloc::{AllocError, AllocFailed, Global};

/// The tokens of a text, and where each begins.
#[derive(Drop)]
pub struct Tokens {
    /// In text order.
    pub tokens: Vec<PlacedToken>,
    /// The offset of each token's first byte, in text order.
    pub starts: Vec<Offset>,
}

/// The reason why a text was not cut into tokens. Nothing else is judged here: a name or a literal
/// of any length passes, and so do tokens in any order.
#[derive(Drop)]
pub enum LexError {
    /// Memory ran out.
    Memory,
    /// The byte at this offset begins no token, or a comment without an end.
    Character(Offset),
}

impl From<AllocError> for LexError {
    ghost use Rattle.std.specs.Prelude.{◌≡◌};
    ghost use Rattle.lb_syntax.specs.declared.lex.LexError.TheVariants.{Memory};

    ghost from_gives = { λ _ e. e ≡ Memory };

    fn from(_e: AllocError) -> LexError {
        LexError::Memory
    }
}

impl<T: Drop> From<AllocFailed<T>> for LexError {
    ghost use Rattle.std.specs.Prelude.{◌≡◌};
    ghost use Rattle.lb_syntax.specs.declared.lex.LexError.TheVariants.{Memory};

    ghost from_gives = { λ _ e. e ≡ Memory };

    fn from(_e: AllocFailed<T>) -> LexError {
        LexError::Memory
    }
}

/// A class of bytes.
#[derive(Clone, Copy)]
enum Class {
    /// All but the newline.
    Line,
    /// Letters, digits and `_`.
    Name,
    /// Digits.
    Digit,
}

/// Whether a byte is of the class.
fn is_in(class: Class, b: u8) -> bool
    ensures { result ≡ passes class b }
{
    match class {
        Class::Line => b != b'\n',
        Class::Name => b.is_ascii_alphanumeric() || b == b'_',
        Class::Digit => b.is_ascii_digit(),
    }
}

/// Whether a byte is white space.
fn is_space(b: u8) -> bool
    ensures { result ≡ spec.is_space b }
{
    const FORM_FEED: u8 = 12;
    b == b' ' || b == b'\t' || b == b'\r' || b == b'\n' || b == FORM_FEED
}

/// Whether a byte is a letter or `_`.
fn begins_name(b: u8) -> bool
    ensures { result ≡ spec.begins_name b }
{
    b.is_ascii_alphabetic() || b == b'_'
}

/// The byte at an index, or 0 past the end, which begins and continues no token.
fn byte_at(text: &[u8], at: usize) -> u8
    ensures value { result ≡ slice_index text.now at }
    ensures within { result ≢ 0 → at < length text.now }
{
    if at < text.len() { text[at] } else { 0 }
}

/// The longest run of bytes of the class at the front of a text.
fn run(class: Class, text: &[u8]) -> &[u8]
    ensures value { result.now ≡ take_while (passes class) text.now }
    ensures within { length result.now ≤ length text.now }
    ensures moves { 0 < length text.now → passes class (slice_index text.now 0) ≡ true →
        0 < length result.now }
{
    let mut end = 0;
    while end < text.len() && is_in(class, text[end]) {
        end += 1;
    }
    &text[..end]
}

/// Whether a text begins with two bytes.
fn begins(text: &[u8], first: u8, second: u8) -> bool
    ensures value { result ≡ spec.begins text.now (first ∷ second ∷ []) }
    ensures within { result ≡ true → 2 ≤ length text.now }
{
    text.len() >= 2 && text[0] == first && text[1] == second
}

/// The number of bytes of a text through the first place where `first` and `second` stand.
fn through(first: u8, second: u8, text: &[u8]) -> Option<usize>
    ensures value { result ≡ spec.through (first ∷ second ∷ []) text.now }
    ensures within { IfSome result (λ n. n ≤ length text.now) }
{
    for at in 0..text.len() {
        if begins(text.split_at(at).1, first, second) {
            return Some(at + 2);
        }
    }
    None
}

/// The value of some digits, or one more than the greatest value of a literal where it is greater.
#[tactic(auto, using(crate::proofs::Words::value_laws))]
fn value_of(digits: &[u8]) -> u32
    ensures { result ≡ spec.value_of digits.now }
{
    let mut value = 0u32;
    for digit in digits {
        let next = 10 * u64::from(value) + u64::from(digit.saturating_sub(b'0'));
        value = next.min(2_147_483_648) as u32;
    }
    value
}

const WORDS_OF_2: [(&[u8], Mark); 2] = [(b"if", Mark::If), (b"or", Mark::Or)];

const WORDS_OF_3: [(&[u8], Mark); 12] = [
    (b"and", Mark::And),
    (b"div", Mark::Div),
    (b"fby", Mark::Fby),
    (b"int", Mark::Int),
    (b"let", Mark::Let),
    (b"mod", Mark::Mod),
    (b"nor", Mark::Nor),
    (b"not", Mark::Not),
    (b"pre", Mark::Pre),
    (b"tel", Mark::Tel),
    (b"var", Mark::Var),
    (b"xor", Mark::Xor),
];

const WORDS_OF_4: [(&[u8], Mark); 6] = [
    (b"bool", Mark::Bool),
    (b"else", Mark::Else),
    (b"node", Mark::Node),
    (b"then", Mark::Then),
    (b"true", Mark::True),
    (b"when", Mark::When),
];

const WORDS_OF_5: [(&[u8], Mark); 2] = [(b"const", Mark::Const), (b"false", Mark::False)];

const WORDS_OF_6: [(&[u8], Mark); 1] = [(b"assert", Mark::Assert)];

const WORDS_OF_7: [(&[u8], Mark); 2] = [(b"current", Mark::Current), (b"returns", Mark::Returns)];

const WORDS_OF_8: [(&[u8], Mark); 1] = [(b"function", Mark::Function)];

/// The reserved words of a length.
fn words_of(len: usize) -> &'static [(&'static [u8], Mark)]
    ensures { map (λ entry. (entry.0.now, entry.1)) result.now ≡
        filter (λ entry. length entry.0 == len) spec.words }
{
    match len {
        2 => &WORDS_OF_2,
        3 => &WORDS_OF_3,
        4 => &WORDS_OF_4,
        5 => &WORDS_OF_5,
        6 => &WORDS_OF_6,
        7 => &WORDS_OF_7,
        8 => &WORDS_OF_8,
        _ => &[],
    }
}

/// The mark of a whole word in a table.
fn lookup(mut table: &[(&[u8], Mark)], text: &[u8]) -> Option<Mark>
    ensures { result ≡
        spec.lookup (map (λ entry. (entry.0.now, entry.1)) table.entry.now) text.now }
{
    while let [entry, rest @ ..] = table {
        if entry.0 == text {
            return Some(entry.1);
        }
        table = rest;
    }
    None
}

/// The mark of a reserved word.
pub fn word_mark(text: &[u8]) -> Option<Mark>
    ensures { result ≡ spec.lookup spec.words text.now }
{
    lookup(words_of(text.len()), text)
}

/// The token of the whole word `text`, which stands at the offset `at`.
#[tactic(auto, unfolding(crate::specs::Tokens::word))]
fn word(alloc: Global, text: &[u8], at: Offset) -> Result<Token, AllocError>
    requires { IsUtf8 text.now }
    ensures { IfOk result (λ t. t ≡ spec.word text.now) }
{
    match word_mark(text) {
        Some(mark) => Ok(Token::Mark(mark)),
        None => Ok(Token::Name(Name::new(alloc, text, at)?)),
    }
}

/// The symbol of two bytes.
fn pair(first: u8, second: u8) -> Option<Mark>
    ensures { result ≡ spec.lookup spec.pairs (first ∷ second ∷ []) }
{
    match (first, second) {
        (b'-', b'>') => Some(Mark::Arrow),
        (b'=', b'>') => Some(Mark::Implies),
        (b'<', b'>') => Some(Mark::Unequal),
        (b'<', b'=') => Some(Mark::AtMost),
        (b'>', b'=') => Some(Mark::AtLeast),
        (b'<', b'<') => Some(Mark::OpenStatic),
        (b'>', b'>') => Some(Mark::CloseStatic),
        (b'.', b'.') => Some(Mark::DotDot),
        _ => None,
    }
}

/// The symbol of one byte.
fn single(b: u8) -> Option<Mark>
    ensures { result ≡ spec.lookup spec.singles (b ∷ []) }
{
    match b {
        b'.' => Some(Mark::Dot),
        b';' => Some(Mark::Semicolon),
        b':' => Some(Mark::Colon),
        b',' => Some(Mark::Comma),
        b'(' => Some(Mark::Open),
        b')' => Some(Mark::Close),
        b'[' => Some(Mark::OpenBracket),
        b']' => Some(Mark::CloseBracket),
        b'=' => Some(Mark::Equal),
        b'<' => Some(Mark::Less),
        b'>' => Some(Mark::Greater),
        b'+' => Some(Mark::Plus),
        b'-' => Some(Mark::Minus),
        b'*' => Some(Mark::Star),
        b'/' => Some(Mark::Slash),
        b'^' => Some(Mark::Caret),
        b'|' => Some(Mark::Bar),
        b'#' => Some(Mark::Hash),
        _ => None,
    }
}

/// The mark of a symbol.
pub fn symbol_mark(text: &[u8]) -> Option<Mark>
    ensures { result ≡ spec.lookup spec.symbols text.now }
{
    match text.len() {
        1 => single(text[0]),
        2 => pair(text[0], text[1]),
        _ => None,
    }
}

/// A piece at the front of a text, with its length in bytes.
#[derive(Drop)]
enum Front {
    /// White space or a comment.
    Blank(usize),
    Lexeme(Token, usize),
    /// A byte that begins no token, or a comment without an end.
    Wrong,
}

/// The longest symbol at the front of a text.
fn symbol(text: &[u8]) -> Front
    requires { 0 < length text.now }
    ensures value { piece_of result ≡ spec.symbol_of spec.symbols text.now }
    ensures within { IsWithin text.now result }
{
    let first = text[0];
    if let Some(mark) = pair(first, byte_at(text, 1)) {
        return Front::Lexeme(Token::Mark(mark), 2);
    }
    match single(first) {
        Some(mark) => Front::Lexeme(Token::Mark(mark), 1),
        None => Front::Wrong,
    }
}

/// A comment of two opening bytes that ends at the first `first` and `second` after them.
fn comment(first: u8, second: u8, text: &[u8]) -> Front
    requires { 2 ≤ length text.now }
    ensures value { piece_of result ≡
        spec.comment (spec.through (first ∷ second ∷ []) (drop 2 text.now)) }
    ensures within { IsWithin text.now result }
{
    match through(first, second, &text[2..]) {
        Some(n) => Front::Blank(n + 2),
        None => Front::Wrong,
    }
}

/// The piece at the front of `text`, which itself stands at the offset `at`.
#[tactic(auto, unfolding(crate::specs::Tokens::piece))]
fn cut(alloc: Global, text: &[u8], at: Offset) -> Result<Front, AllocError>
    requires { 0 < length text.now }
    ensures value { IfOk result (λ piece. piece_of piece ≡ spec.piece text.now) }
    ensures within { IfOk result (IsWithin text.now) }
{
    let first = text[0];
    if is_space(first) {
        return Ok(Front::Blank(1));
    }
    if begins(text, b'-', b'-') {
        return Ok(Front::Blank(run(Class::Line, text).len()));
    }
    if begins(text, b'(', b'*') {
        return Ok(comment(b'*', b')', text));
    }
    if begins(text, b'/', b'*') {
        return Ok(comment(b'*', b'/', text));
    }
    if begins_name(first) {
        let name = run(Class::Name, text);
        return Ok(Front::Lexeme(word(alloc, name, at)?, name.len()));
    }
    if first.is_ascii_digit() {
        let digits = run(Class::Digit, text);
        return Ok(Front::Lexeme(Token::Literal(value_of(digits)), digits.len()));
    }
    Ok(symbol(text))
}

/// The tokens of a text, or the place of the first byte that begins none.
pub fn lex(alloc: Global, text: &[u8]) -> Result<Tokens, LexError>
    requires { length text.now < 2 ^ 32 }
    ensures { Lexes text.now result }
{
    let mut tokens = Vec::new(alloc);
    let mut starts = Vec::new(alloc);
    let mut at = 0;
    while at < text.len() {
        let start = at as u32;
        match cut(alloc, text.split_at(at).1, start)? {
            Front::Blank(n) => at += n,
            Front::Lexeme(token, n) => {
                tokens.push(PlacedToken::new(token, start))?;
                starts.push(start)?;
                at += n;
            }
            Front::Wrong => return Err(LexError::Character(start)),
        }
    }
    Ok(Tokens { tokens, starts })
}
