//! The bytes of a file between two places, as a feed.

ghost use Rattle.std.specs.Prelude.{◌≡◌, ◌<◌, ◌≤◌, true};
ghost use Rattle.lb_feed.specs.PlacedFiles.{told_between};

use crate::feed::{Feed, FeedFailed};
use crate::placed::PlacedFile;

/// The bytes of a file between two places, as a feed. The bytes given are counted from the begin of
/// the file. The feed fails only where a read of such a file may fail.
#[derive(Drop)]
pub struct RangeFeed<'f, F: PlacedFile> {
    file: &'f F,
    at: u64,
    past: u64,
    failures: u64,
    ghost ordered: { at ≤ past },
    ghost short: { past ≤ 1073741824 },
    ghost failed: { 0 < failures → F.may_fail ≡ true },
}

impl<'f, F: PlacedFile> RangeFeed<'f, F> {
    /// A feed that has given nothing and has not failed yet.
    pub fn new(file: &'f F, at: u64, past: u64) -> RangeFeed<'f, F>
        requires ordered { at ≤ past }
        requires short { past ≤ 1073741824 }
        ensures coming { ⟦<RangeFeed<'f, F> as Feed>⟧.coming result
            ≡ told_between at past (F.bytes file.now) }
        ensures failures { ⟦<RangeFeed<'f, F> as Feed>⟧.failures result ≡ 0 }
        ensures given { ⟦<RangeFeed<'f, F> as Feed>⟧.given result ≡ at }
    {
        RangeFeed {
            file,
            at,
            past,
            failures: 0,
        }
    }

    /// The place of the next byte in the file.
    pub fn at(&self) -> u64
        ensures { result ≡ self.now.at }
    {
        self.at
    }
}

impl<F: PlacedFile> Feed for RangeFeed<'_, F> {
    ghost use Rattle.lb_feed.specs.PlacedFiles.{told_between};

    ghost coming = { λ feed. told_between feed.at feed.past (F.bytes feed.file.now) };

    ghost failures = { λ feed. feed.failures };

    ghost given = { λ feed. feed.at };

    fn read(&mut self, buffer: &mut [u8]) -> Result<usize, FeedFailed> {
        let left = (self.past - self.at).min(buffer.len() as u64) as usize;
        match self.file.read_at(&mut buffer[..left], self.at) {
            Ok(count) => {
                self.at += count as u64;
                Ok(count)
            }
            Err(cause) => {
                self.failures += 1;
                Err(cause)
            }
        }
    }

    fn failures(&self) -> u64 {
        self.failures
    }
}
