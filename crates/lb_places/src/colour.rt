//! Explanations in colour, for a person at a terminal.
//!
//! ```text
//! pump.csv:4:7: error: column `open` is bool, and `TRUE` is no value of it
//!               ------
//!     4 | storm,TRUE,4
//!       |       ^^^^
//!               ----
//! help: write `true`, in small letters, or 1
//! -----
//! ```
//! What is underlined here is painted; no other byte changes.

ghost use Rattle.std.specs.Prelude.{◌≡◌};

use std::alloc::{AllocError, Global};
use std::io::{self, Write};
use std::str;

/// Bold red, yellow and cyan, and no colour again, as terminals know them.
const RED: &str = "\x1b[1;31m";

const YELLOW: &str = "\x1b[1;33m";

const CYAN: &str = "\x1b[1;36m";

const PLAIN: &str = "\x1b[0m";

/// Puts a stretch in colour.
fn put_painted(page: &mut String, colour: &str, stretch: &str) -> Result<(), AllocError> {
    page.push_str(colour)?;
    page.push_str(stretch)?;
    page.push_str(PLAIN)
}

/// Whether these are the marks under a line of a text: nothing but `^`, behind blanks.
fn are_marks(text: &str) -> bool {
    let marks = text.trim_start_matches(' ');
    !marks.is_empty() && marks.trim_start_matches('^').is_empty()
}

/// Puts a line that begins with a blank: one of a text, or the marks under it.
fn put_excerpt(page: &mut String, line: &str) -> Result<(), AllocError> {
    match line.split_once('|') {
        Some((margin, marks)) if are_marks(marks) => {
            page.push_str(margin)?;
            page.push('|')?;
            put_painted(page, RED, marks)
        }
        _ => page.push_str(line),
    }
}

/// Puts a line in colour.
fn put_line(page: &mut String, line: &str) -> Result<(), AllocError> {
    if line.starts_with(' ') {
        return put_excerpt(page, line);
    }
    if let Some(rest) = line.strip_prefix("help:") {
        put_painted(page, CYAN, "help:")?;
        return page.push_str(rest);
    }
    if let Some(rest) = line.strip_prefix("warning:") {
        put_painted(page, YELLOW, "warning:")?;
        return page.push_str(rest);
    }
    let Some((place, message)) = line.split_once(": error: ") else {
        return page.push_str(line);
    };
    page.push_str(place)?;
    page.push_str(": ")?;
    put_painted(page, RED, "error:")?;
    page.push(' ')?;
    page.push_str(message)
}

/// A text in colour.
fn paint(alloc: Global, text: &str) -> Result<String, AllocError> {
    let mut page = String::new(alloc);
    for (place, line) in text.split('\n').enumerate() {
        if place > 0 {
            page.push('\n')?;
        }
        put_line(&mut page, line)?;
    }
    Ok(page)
}

/// These bytes in colour, where they are UTF-8 and there is memory for it.
fn in_colour(alloc: Global, bytes: &[u8]) -> Option<String> {
    let Ok(text) = str::from_utf8(bytes) else {
        return None;
    };
    paint(alloc, text).ok()
}

/// A writer that writes explanations to another writer in colour. Bytes that are not UTF-8 stay
/// plain, and so do all bytes where memory runs out. `write` returns the number of bytes that it
/// was given, without those of the colours.
#[derive(Drop)]
pub struct Painted<W> {
    writer: W,
    alloc: Global,
}

impl<W: Write> Painted<W> {
    /// A writer in colour, over `writer`.
    pub fn new(alloc: Global, writer: W) -> Painted<W>
        ensures { result.writer ≡ writer }
    {
        Painted { writer, alloc }
    }
}

impl<W: Write> Write for Painted<W> {
    fn write(&mut self, bytes: &[u8]) -> io::Result<usize> {
        match in_colour(self.alloc, bytes) {
            Some(page) => {
                self.writer.write_all(page.as_bytes())?;
                Ok(bytes.len())
            }
            None => self.writer.write(bytes),
        }
    }

    fn flush(&mut self) -> io::Result<()> {
        self.writer.flush()
    }
}
