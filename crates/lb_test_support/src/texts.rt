//! Parts of texts, and the comparison of an answer with the wanted one.

use std::alloc::{AllocError, Global};
use std::fmt::Display;
use std::test::Fail;

/// A text that is written piece by piece. It keeps whether memory ran out on the way, so that its
/// writers go on and its reader asks once.
#[derive(Drop)]
pub struct Said {
    text: String,
    is_cut: bool,
}

impl Said {
    /// An empty text.
    pub fn new(alloc: Global) -> Said {
        Said {
            text: String::new(alloc),
            is_cut: false,
        }
    }

    /// Adds a text.
    pub fn push_str(&mut self, text: &str) {
        let added = self.text.push_str(text);
        self.is_cut |= added.is_err();
    }

    /// Adds a letter.
    pub fn push(&mut self, letter: char) {
        let added = self.text.push(letter);
        self.is_cut |= added.is_err();
    }

    /// What `write!` calls.
    pub fn write_fmt<D: Display + Drop>(&mut self, value: D) {
        let added = self.text.write_fmt(value);
        self.is_cut |= added.is_err();
    }

    /// Adds another text.
    pub fn push_said(&mut self, other: &Said) {
        self.push_str(other.as_str());
        self.cut_with(other);
    }

    /// Ends the text here: memory ran out.
    pub fn cut(&mut self) {
        self.is_cut = true;
    }

    /// Ends the text here if the other one was cut.
    pub fn cut_with(&mut self, other: &Said) {
        self.is_cut |= other.is_cut;
    }

    /// Takes all of the text away. A text that was cut stays so.
    pub fn clear(&mut self) {
        self.text.clear();
    }

    /// The text so far.
    pub fn as_str(&self) -> &str {
        self.text.as_str()
    }

    /// The whole text, unless memory ran out.
    pub fn whole(&self) -> Result<&str, AllocError> {
        if self.is_cut {
            return Err(AllocError);
        }
        Ok(self.text.as_str())
    }
}

/// The text before the first mark, and the text behind it: all and nothing where there is no mark.
pub fn around<'t>(text: &'t str, mark: &str) -> (&'t str, &'t str) {
    text.split_once(mark).unwrap_or((text, ""))
}

/// The first line, and the text behind it: nothing and all where there is one line.
pub fn first_line(text: &str) -> (&str, &str) {
    text.split_once('\n').unwrap_or(("", text))
}

/// The text before the last line, and that line: nothing and all where there is one line.
pub fn last_line(text: &str) -> (&str, &str) {
    text.rsplit_once('\n').unwrap_or(("", text))
}

/// A name, or none where it is empty.
pub fn named(name: &str) -> Option<&str> {
    if name.is_empty() { None } else { Some(name) }
}

/// Adds the text that a row stands for: `/` is a line feed, `\` a carriage return, `'` the byte `"`,
/// and `^` the byte order mark.
pub fn push_text(short: &str, text: &mut Said) {
    for letter in short.chars() {
        match letter {
            '/' => text.push('\n'),
            '\\' => text.push('\r'),
            '\'' => text.push('"'),
            '^' => text.push('\u{feff}'),
            _ => text.push(letter),
        }
    }
}

/// Whether two texts are the same.
pub fn is_same(one: &str, other: &str) -> bool {
    one == other
}

/// Adds an answer that is not `wanted`, with the number of its run and of its workers.
pub fn push_unlike(wanted: &str, answer: &Said, workers: u32, number: usize, unlike: &mut Said) {
    match answer.whole() {
        Ok(answer) if is_same(answer, wanted) => {}
        Ok(answer) => write!(unlike, "; run {number} by {workers} workers: {answer}"),
        Err(_) => unlike.cut(),
    }
}

/// Fails a test unless `said` is `wanted`. The failure shows `said`.
pub fn expect(said: &Said, wanted: &str) -> Result<(), Fail> {
    match said.whole() {
        Ok(said) if is_same(said, wanted) => Ok(()),
        Ok(said) => Err(Fail::new(said)),
        Err(_) => Err(Fail::new("no memory")),
    }
}
