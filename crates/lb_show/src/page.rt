//! The page to which a text is written.

use lb_csv::{CHUNK, push, push_cell, push_integer, push_number};
use lb_history::Cell;
use std::alloc::AllocError;

/// A text that is written piece by piece. It keeps whether memory ran out on the way, so that its
/// writers go on and its reader asks once.
#[derive(Drop)]
pub struct Page {
    text: Vec<u8>,
    is_cut: bool,
}

impl Page {
    /// A page that begins with a text.
    pub fn of(text: Vec<u8>) -> Page {
        Page {
            text,
            is_cut: false,
        }
    }

    /// Ends the page here if memory ran out.
    pub fn cut_if(&mut self, is_cut: bool) {
        self.is_cut |= is_cut;
    }

    /// Whether a part of a text ends here.
    pub(crate) fn is_full(&self) -> bool {
        self.is_cut || self.text.len() >= CHUNK
    }

    /// The whole text, unless memory ran out.
    pub fn whole(self) -> Result<Vec<u8>, AllocError> {
        if self.is_cut {
            return Err(AllocError);
        }
        Ok(self.text)
    }

    /// Adds a text.
    pub fn push(&mut self, more: &str) {
        let added = push(&mut self.text, more);
        self.is_cut |= added.is_err();
    }

    /// Adds a byte.
    pub fn push_byte(&mut self, byte: u8) {
        let added = self.text.push(byte);
        self.is_cut |= added.is_err();
    }

    /// Adds a number.
    pub fn push_number(&mut self, n: u64) {
        let added = push_number(&mut self.text, n);
        self.is_cut |= added.is_err();
    }

    /// Adds an `int`.
    pub fn push_integer(&mut self, n: i32) {
        let added = push_integer(&mut self.text, n);
        self.is_cut |= added.is_err();
    }

    /// Adds a cell as comma-separated values have it.
    pub(crate) fn push_cell(&mut self, cell: Cell) {
        let added = push_cell(&mut self.text, cell);
        self.is_cut |= added.is_err();
    }

    /// Adds `count` spaces.
    pub(crate) fn push_spaces(&mut self, count: usize) {
        for _ in 0..count {
            self.push_byte(b' ');
        }
    }
}
