//! Feeds, which give the bytes of inputs, and reading a feed to its end.

ghost use Rattle.std.specs.Prelude.{◌≡◌, ℕ, List, Option, None, ◌⊎◌, ◌+◌, ◌<◌, ◌≤◌, length, take};
ghost use Rattle.std.specs.Prelude.{drop, vec_len, IfOk, OnOk, OnErr, IfSome, IsErrOf};
ghost use Rattle.std.specs.Io.KnownBytes.{Consumes, IsAtEnd};
ghost use Rattle.lb_feed.specs.Counts.{count_more};
ghost use Rattle.lb_feed.specs.Feeds.{IsTooLong};

use std::alloc::{AllocError, Global};
use std::io::Read;
use thiserror::Error;

/// A read failed. Nobody knows how much of the input is left.
#[derive(Clone, Copy, Debug, Error)]
#[error("the input could not be read")]
pub struct FeedFailed;

/// A feed, which gives the bytes of an input.
pub trait Feed {
    /// The bytes still to come, where the feed tells them.
    ghost coming: { Self → Option (List ℕ) } = { λ _. None };

    /// How often it has failed.
    ghost failures: { Self → ℕ };

    /// How many bytes it has given, or `u64.MAX` where they are more.
    ghost given: { Self → ℕ };

    /// Reads the next bytes into the front of `buffer`, and returns how many they are. 0 into a
    /// buffer that is not empty is the end.
    fn read(&mut self, buffer: &mut [u8]) -> Result<usize, FeedFailed>
        requires { failures self.old < u64.MAX }

        // `Ok`: the number of bytes, which are at the front of `buffer`.
        ensures within { IfOk result (λ n. n ≤ length buffer.new) }
        ensures next { IfOk result (λ n.
            Consumes (coming self.old) (coming self.new) (take n buffer.new)) }
        ensures end { IfOk result (λ n.
            n ≡ 0 → 0 < length buffer.new → IsAtEnd (coming self.new)) }
        ensures counted { IfOk result (λ n. given self.new ≡ count_more (given self.old) n) }
        ensures ok { OnOk result (failures self.new ≡ failures self.old) }

        // Each failure is counted, and gives nothing.
        ensures err { OnErr result (failures self.new ≡ failures self.old + 1) }
        ensures kept { OnErr result (given self.new ≡ given self.old) };

    /// How often it has failed.
    fn failures(&self) -> u64
        ensures { result ≡ failures self.now };
}

/// One of std's readers, as a feed.
#[derive(Drop)]
pub struct Reader<R> {
    reader: R,
    failures: u64,
    given: u64,
}

impl<R: Read> Reader<R> {
    /// A feed that has not failed yet, and has given nothing.
    pub fn new(reader: R) -> Reader<R>
        ensures coming { ⟦<Reader<R> as Feed>⟧.coming result ≡ R.remaining reader }
        ensures failures { ⟦<Reader<R> as Feed>⟧.failures result ≡ 0 }
        ensures given { ⟦<Reader<R> as Feed>⟧.given result ≡ 0 }
    {
        Reader {
            reader,
            failures: 0,
            given: 0,
        }
    }
}

impl<R: Read> Feed for Reader<R> {
    ghost coming = { λ feed. R.remaining feed.reader };

    ghost failures = { λ feed. feed.failures };

    ghost given = { λ feed. feed.given };

    fn read(&mut self, buffer: &mut [u8]) -> Result<usize, FeedFailed> {
        match self.reader.read(buffer) {
            Ok(count) => {
                self.given = self.given.saturating_add(count as u64);
                Ok(count)
            }
            Err(_) => {
                self.failures += 1;
                Err(FeedFailed)
            }
        }
    }

    fn failures(&self) -> u64 {
        self.failures
    }
}

/// Why an input is refused.
#[derive(Debug, Drop, Error)]
pub enum LoadError {
    /// E0: memory ran out.
    #[error("out of memory")]
    Memory,
    /// E21: a read failed, or there are more than 1,100,000,000 bytes.
    #[error("the input could not be read, or it is too long")]
    Read,
}

impl From<AllocError> for LoadError {
    ghost use Rattle.lb_feed.specs.declared.feed.LoadError.TheVariants.{Memory};

    ghost from_gives = { λ _ e. e ≡ Memory };

    fn from(_e: AllocError) -> LoadError {
        LoadError::Memory
    }
}

impl From<FeedFailed> for LoadError {
    ghost use Rattle.lb_feed.specs.declared.feed.LoadError.TheVariants.{Read};

    ghost from_gives = { λ _ e. e ≡ Read };

    fn from(_e: FeedFailed) -> LoadError {
        LoadError::Read
    }
}

/// The most bytes that an input may have.
pub const INPUT_LIMIT: usize = 1_100_000_000;

/// How much room is made at a time.
const PIECE: usize = 1 << 20;

/// Reads once, into `bytes` behind the first `filled`, which were read before. Returns how many
/// bytes came.
fn read_piece<F: Feed>(feed: &mut F, bytes: &mut Vec<u8>, filled: usize) -> Result<usize, LoadError>
    requires filled { filled ≤ vec_len bytes.old }
    requires limit { filled ≤ INPUT_LIMIT }
    requires failures { F.failures feed.old < u64.MAX }

    // `Ok`: the number of bytes, which stand behind the first `filled`.
    ensures within { IfOk result (λ n. filled + n ≤ vec_len bytes.new) }
    ensures front { OnOk result (take filled bytes.new.items ≡ take filled bytes.old.items) }
    ensures next { IfOk result (λ n.
        Consumes (F.coming feed.old) (F.coming feed.new) (take n (drop filled bytes.new.items))) }
    ensures end { IfOk result (λ n. n ≡ 0 → IsAtEnd (F.coming feed.new)) }
    ensures counted { IfOk result (λ n.
        F.given feed.new ≡ count_more (F.given feed.old) n) }
    ensures ok { OnOk result (F.failures feed.new ≡ F.failures feed.old) }

    // `Read`: the feed failed. `Memory`: memory ran out, and the feed did not fail.
    ensures read { IsErrOf result LoadError.Read → F.failures feed.old < F.failures feed.new }
    ensures memory { IsErrOf result LoadError.Memory → F.failures feed.new ≡ F.failures feed.old }
{
    if filled == bytes.len() {
        bytes.resize(filled + PIECE, 0)?;
    }
    let count = feed.read(&mut bytes[filled..])?;
    Ok(count)
}

/// Reads an input to its end.
pub fn load<F: Feed>(alloc: Global, feed: &mut F) -> Result<Vec<u8>, LoadError>
    requires { F.failures feed.old < u64.MAX }

    // `Ok`: all bytes.
    ensures all { IfOk result (λ bytes.
        IfSome (F.coming feed.old) (λ coming. bytes.items ≡ coming)) }
    ensures end { OnOk result (IsAtEnd (F.coming feed.new)) }
    ensures limit { IfOk result (λ bytes. vec_len bytes ≤ INPUT_LIMIT) }
    ensures counted { IfOk result (λ bytes.
        F.given feed.new ≡ count_more (F.given feed.old) (vec_len bytes)) }
    ensures ok { OnOk result (F.failures feed.new ≡ F.failures feed.old) }

    // `Read`: the feed failed, or it gave too many bytes.
    ensures read { IsErrOf result LoadError.Read → (F.failures feed.old < F.failures feed.new)
        ⊎ IsTooLong (F.coming feed.old) (F.given feed.old) (F.given feed.new) }

    // `Memory`: memory ran out, and no read failed.
    ensures memory { IsErrOf result LoadError.Memory → F.failures feed.new ≡ F.failures feed.old }
{
    let mut bytes = Vec::new(alloc);
    let mut filled = 0;
    loop {
        let count = read_piece(feed, &mut bytes, filled)?;
        if count == 0 {
            bytes.truncate(filled);
            return Ok(bytes);
        }
        filled += count;
        if filled > INPUT_LIMIT {
            return Err(LoadError::Read);
        }
    }
}
