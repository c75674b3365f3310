//! Parts of texts. A place may lie past the end of a text.

/// The byte at a place, or 0 past the end.
pub fn byte_at(text: &[u8], at: usize) -> u8 {
    if at < text.len() { text[at] } else { 0 }
}

/// The bytes from `from` to `to`, as far as the text has them.
pub fn part(text: &[u8], from: usize, to: usize) -> &[u8] {
    let end = to.min(text.len());
    let start = from.min(end);
    &text[start..end]
}

/// The bytes from a place on.
pub fn rest(text: &[u8], from: usize) -> &[u8] {
    &text[from.min(text.len())..]
}

/// The first place of a byte, from `from` on; the end of the text where there is none.
pub fn find(text: &[u8], from: usize, byte: u8) -> usize {
    for at in from..text.len() {
        if text[at] == byte {
            return at;
        }
    }
    text.len()
}

/// The number of times that a text has `byte`.
pub fn count(text: &[u8], byte: u8) -> usize {
    let mut count: usize = 0;
    for b in text {
        count = count.saturating_add(usize::from(*b == byte));
    }
    count
}

/// Whether a byte is the second or a later one of a UTF-8 character.
pub fn continues(b: u8) -> bool {
    (0x80..0xC0).contains(&b)
}
