//! Places that errors hold, as offsets of tokens in the source.

use crate::excerpt::{put_excerpt, put_place, put_spot};
use crate::lexeme::{Lexeme, piece_at};
use crate::page::Page;
use crate::texts::{Stretch, spot};
use lb_places::Text;

/// The token at an offset.
pub fn token_of(text: &Text<'_>, offset: u32) -> Lexeme {
    piece_at(text.bytes, offset as usize)
}

/// The bytes of the token at an offset.
pub fn word_of<'t>(text: &Text<'t>, offset: u32) -> &'t [u8] {
    token_of(text, offset).of(text.bytes)
}

/// The place of the token at an offset.
pub fn token_spot(text: &Text<'_>, offset: u32) -> Stretch {
    let token = token_of(text, offset);
    spot(text, token.start, token.end)
}

/// Puts `pump.lus:14:13: note: ` for the token at an offset.
pub fn put_note(page: &mut Page, text: &Text<'_>, offset: u32) {
    put_place(page, text, &token_spot(text, offset), "note");
}

/// Puts the line of the token at an offset, with marks below the token.
pub fn put_marked(page: &mut Page, text: &Text<'_>, offset: u32) {
    put_excerpt(page, text, &token_spot(text, offset));
}

/// Puts the place of the token at an offset, as `pump.lus:14:13`.
pub fn put_where(page: &mut Page, text: &Text<'_>, offset: u32) {
    put_spot(page, text, &token_spot(text, offset));
}
