//! A text in memory, as a feed.

ghost use Rattle.std.specs.Prelude.{◌≡◌};

use crate::feed::{Feed, FeedFailed};

/// A text in memory, as a feed.
#[derive(Drop)]
pub struct TextFeed<'t> {
    rest: &'t [u8],
    given: u64,
}

impl<'t> TextFeed<'t> {
    ghost use Rattle.std.specs.Prelude.{Some};

    /// A feed that has given nothing.
    pub fn new(text: &'t [u8]) -> TextFeed<'t>
        ensures coming { ⟦<TextFeed<'t> as Feed>⟧.coming result ≡ Some text.now }
        ensures failures { ⟦<TextFeed<'t> as Feed>⟧.failures result ≡ 0 }
        ensures given { ⟦<TextFeed<'t> as Feed>⟧.given result ≡ 0 }
    {
        TextFeed {
            rest: text,
            given: 0,
        }
    }
}

impl Feed for TextFeed<'_> {
    ghost use Rattle.std.specs.Prelude.{Some};

    ghost coming = { λ feed. Some feed.rest.now };

    ghost failures = { λ _. 0 };

    ghost given = { λ feed. feed.given };

    fn read(&mut self, buffer: &mut [u8]) -> Result<usize, FeedFailed> {
        let count = self.rest.len().min(buffer.len());
        buffer[..count].copy_from_slice(&self.rest[..count]);
        self.rest = &self.rest[count..];
        self.given = self.given.saturating_add(count as u64);
        Ok(count)
    }

    fn failures(&self) -> u64 {
        0
    }
}
