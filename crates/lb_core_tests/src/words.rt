//! The words of a row.

use lb_lanes::Plane;
use lb_test_support::texts::around;

/// The words of a row, read one after the other. It keeps whether a number was missing, so that its
/// reader goes on and asks once.
#[derive(Drop)]
pub struct Words<'t> {
    rest: &'t str,
    lacks_number: bool,
}

impl<'t> Words<'t> {
    /// The words of `text`, each behind a space but for the first.
    pub fn new(text: &'t str) -> Words<'t> {
        Words {
            rest: text,
            lacks_number: false,
        }
    }

    /// The next word. Behind the last one this is the empty word.
    pub fn word(&mut self) -> &'t str {
        let (word, rest) = around(self.rest, " ");
        self.rest = rest;
        word
    }

    /// The number that the next word spells, or 0 where it spells none.
    pub fn number(&mut self) -> i32 {
        match self.word().parse::<i32>() {
            Ok(number) => number,
            Err(_) => {
                self.lacks_number = true;
                0
            }
        }
    }

    /// The next number, without a sign.
    pub fn place(&mut self) -> u32 {
        self.number().unsigned_abs()
    }

    /// The plane whose bits are those of the next number.
    pub fn plane(&mut self) -> Plane {
        Plane(u64::from(self.place()))
    }

    /// Whether a word that was to be a number spelled none.
    pub fn lacks_number(&self) -> bool {
        self.lacks_number
    }
}
