//! The page that an explanation is written on.

use std::alloc::{AllocError, Global};
use std::fmt::Display;

/// A text that is written piece by piece. It keeps whether memory ran out on the way, so that its
/// writers go on and its reader asks once.
#[derive(Drop)]
pub struct Page {
    alloc: Global,
    text: String,
    is_cut: bool,
}

impl Page {
    /// An empty page.
    pub fn new(alloc: Global) -> Page {
        Page {
            alloc,
            text: String::new(alloc),
            is_cut: false,
        }
    }

    /// The allocator of the page, for what its writers keep meanwhile.
    pub fn alloc(&self) -> Global {
        self.alloc
    }

    /// Ends the page here where memory ran out.
    pub fn cut_if(&mut self, is_out: bool) {
        self.is_cut |= is_out;
    }

    /// Adds a text.
    pub fn put(&mut self, text: &str) {
        let added = self.text.push_str(text);
        self.cut_if(added.is_err());
    }

    /// Adds a letter.
    pub fn put_letter(&mut self, letter: char) {
        let added = self.text.push(letter);
        self.cut_if(added.is_err());
    }

    /// Adds a number.
    pub fn put_number(&mut self, number: u64) {
        let added = write!(self.text, "{number}");
        self.cut_if(added.is_err());
    }

    /// Adds a text between two others, as the name in `node pump reaches itself`.
    pub fn put_in(&mut self, front: &str, inner: &str, end: &str) {
        self.put(front);
        self.put(inner);
        self.put(end);
    }

    /// Adds a number between two texts, as in `and 3 calls more`.
    pub fn put_number_in(&mut self, front: &str, number: u64, end: &str) {
        self.put(front);
        self.put_number(number);
        self.put(end);
    }

    /// Adds an integer between two texts.
    pub fn put_integer_in(&mut self, front: &str, integer: i64, end: &str) {
        self.put(front);
        write!(self, "{integer}");
        self.put(end);
    }

    /// What `write!` calls.
    pub fn write_fmt<D: Display + Drop>(&mut self, value: D) {
        let added = self.text.write_fmt(value);
        self.cut_if(added.is_err());
    }

    /// The whole text, unless memory ran out.
    pub fn whole(&self) -> Result<&[u8], AllocError> {
        if self.is_cut {
            return Err(AllocError);
        }
        Ok(self.text.as_bytes())
    }
}
