//! The window of a feed: the part of its text that is in memory.
//!
//! ```text
//! bytes   . . . . a , 1 | b , 0 | b , . . .
//!                 start               end
//! ```

ghost use Rattle.std.specs.Prelude.{◌≡◌, ◌<◌, ◌≤◌, ◌+◌, ◌-◌, ◌⊎◌, [], drop, false, true};
ghost use Rattle.std.specs.Prelude.{length, IfOk, OnOk, vec_len};
ghost use Rattle.lb_feed.specs.Windows.{ended_by};

use crate::feed::{Feed, INPUT_LIMIT, LoadError};
use std::alloc::{AllocError, Global};

/// The bytes of a feed that have been read and are not yet dropped.
#[derive(Drop)]
pub struct Window {
    bytes: Vec<u8>,
    start: usize,
    end: usize,
    /// How many bytes the feed has given.
    read: usize,
    /// Whether the feed has no more bytes.
    is_over: bool,
    /// Whether the last byte that the feed has given ends a line.
    is_ended: bool,
}

// Whether a text with `more` at its end ends a line; `before` is the answer without `more`.
fn ends_by(before: bool, more: &[u8]) -> bool
    ensures { result ≡ ended_by before more.now }
{
    if more.is_empty() {
        return before;
    }
    let last = more[more.len() - 1];
    last == b'\r' || last == b'\n'
}

impl Window {
    ghost use Rattle.std.specs.Prelude.{IfErr};
    ghost use Rattle.lb_feed.specs.Windows.{HasRead, HasTaken, IsLoadFault, IsWindow};
    ghost use Rattle.lb_feed.specs.Windows.{IsWithin, left, text_in};

    /// An empty window with room for `size` bytes. It can grow to eight times that without a copy.
    pub fn new(alloc: Global, size: usize) -> Result<Window, AllocError>
        ensures window { IfOk result IsWindow }
        ensures empty { IfOk result (λ w. text_in w ≡ []) }
        ensures begun { IfOk result (λ w.
            (w.read ≡ 0) × (w.is_over ≡ false) × (w.is_ended ≡ false)) }
    {
        let mut bytes = Vec::with_capacity(alloc, size.saturating_mul(8))?;
        bytes.resize(size, 0)?;
        Ok(Window {
            bytes,
            start: 0,
            end: 0,
            read: 0,
            is_over: false,
            is_ended: false,
        })
    }

    /// The bytes in the window.
    pub fn text(&self) -> &[u8]
        requires { IsWindow self.now }
        ensures { result.now ≡ text_in self.now }
    {
        &self.bytes[self.start..self.end]
    }

    /// Drops the first `count` bytes.
    pub fn let_go(&mut self, count: usize)
        requires window { IsWindow self.old }
        requires count { count ≤ self.old.end - self.old.start }
        ensures window { IsWindow self.new }
        ensures rest { text_in self.new ≡ drop count (text_in self.old) }
        ensures read { self.new.read ≡ self.old.read }
        ensures over { self.new.is_over ≡ self.old.is_over }
        ensures ended { self.new.is_ended ≡ self.old.is_ended }
    {
        self.start += count;
    }

    // Moves the bytes to the front, and makes room behind them.
    fn make_room(&mut self) -> Result<(), AllocError>
        requires { IsWindow self.old }
        ensures window { OnOk result (IsWindow self.new) }
        ensures text { OnOk result (text_in self.new ≡ text_in self.old) }
        ensures front { OnOk result (self.new.start ≡ 0) }
        ensures room { OnOk result (self.new.end < vec_len self.new.bytes) }
        ensures read { self.new.read ≡ self.old.read }
        ensures over { self.new.is_over ≡ self.old.is_over }
        ensures ended { self.new.is_ended ≡ self.old.is_ended }
    {
        let size = self.bytes.len();
        let count = self.end - self.start;
        if self.start > 0 {
            self.bytes
                .as_mut_slice()
                .copy_within(self.start..self.end, 0);
        }
        self.start = 0;
        self.end = count;
        if count == size {
            self.bytes
                .resize(size.saturating_add((size / 4).max(1)), 0)?;
        }
        Ok(())
    }

    // Reads once from the feed, into the room behind the bytes.
    fn read_more<F: Feed>(&mut self, feed: &mut F) -> Result<(), LoadError>
        requires window { IsWindow self.old }
        requires front { self.old.start ≡ 0 }
        requires room { self.old.end < vec_len self.old.bytes }
        requires more { self.old.is_over ≡ false }
        requires failures { F.failures feed.old < u64.MAX }
        ensures window { OnOk result (IsWindow self.new) }
        ensures front { OnOk result (self.new.start ≡ 0) }
        ensures taken { OnOk result (HasTaken self.old self.new
            (left (F.coming feed.old) (F.given feed.old) (F.failures feed.old))
            (left (F.coming feed.new) (F.given feed.new) (F.failures feed.new))) }
        ensures goes { OnOk result
            ((self.new.is_over ≡ true) ⊎ (self.old.read < self.new.read)) }
        ensures err { IfErr result (IsLoadFault self.old
            (left (F.coming feed.old) (F.given feed.old) (F.failures feed.old))
            (left (F.coming feed.new) (F.given feed.new) (F.failures feed.new))) }
    {
        let count = feed.read(&mut self.bytes[self.end..])?;
        self.is_over = count == 0;
        self.is_ended = ends_by(self.is_ended, &self.bytes[self.end..self.end + count]);
        self.end += count;
        self.read += count;
        if self.read > INPUT_LIMIT {
            return Err(LoadError::Read);
        }
        Ok(())
    }

    /// Reads until the window is full or the feed is over. A window that is full already is first
    /// made a quarter larger.
    pub fn fill<F: Feed>(&mut self, feed: &mut F) -> Result<(), LoadError>
        requires window { IsWindow self.old }
        requires failures { F.failures feed.old < u64.MAX }
        ensures window { OnOk result (IsWindow self.new) }
        ensures taken { OnOk result (HasTaken self.old self.new
            (left (F.coming feed.old) (F.given feed.old) (F.failures feed.old))
            (left (F.coming feed.new) (F.given feed.new) (F.failures feed.new))) }
        ensures goes { OnOk result
            ((self.new.is_over ≡ true) ⊎ (self.old.read < self.new.read)) }
        ensures err { IfErr result (IsLoadFault self.old
            (left (F.coming feed.old) (F.given feed.old) (F.failures feed.old))
            (left (F.coming feed.new) (F.given feed.new) (F.failures feed.new))) }
    {
        self.make_room()?;
        'reads: while self.end < self.bytes.len() && !self.is_over {
            self.read_more(feed)?;
        }
        Ok(())
    }

    /// Reads until the feed is over.
    pub fn fill_all<F: Feed>(&mut self, feed: &mut F) -> Result<(), LoadError>
        requires window { IsWindow self.old }
        requires failures { F.failures feed.old < u64.MAX }
        ensures window { OnOk result (IsWindow self.new) }
        ensures taken { OnOk result (HasTaken self.old self.new
            (left (F.coming feed.old) (F.given feed.old) (F.failures feed.old))
            (left (F.coming feed.new) (F.given feed.new) (F.failures feed.new))) }
        ensures over { OnOk result (self.new.is_over ≡ true) }
        ensures err { IfErr result (IsLoadFault self.old
            (left (F.coming feed.old) (F.given feed.old) (F.failures feed.old))
            (left (F.coming feed.new) (F.given feed.new) (F.failures feed.new))) }
    {
        'reads: while !self.is_over {
            self.fill(feed)?;
        }
        Ok(())
    }

    /// Whether the feed has no more bytes.
    pub fn is_over(&self) -> bool
        ensures { result ≡ self.now.is_over }
    {
        self.is_over
    }

    /// Whether the last byte that the feed has given ends a line.
    pub fn is_ended(&self) -> bool
        ensures { result ≡ self.now.is_ended }
    {
        self.is_ended
    }

    /// Whether the window is empty and the feed has no more bytes.
    pub fn is_done(&self) -> bool
        requires { IsWindow self.now }
        ensures over { result ≡ true → self.now.is_over ≡ true }
        ensures nothing { result ≡ true → text_in self.now ≡ [] }
        ensures left { result ≡ false → self.now.is_over ≡ true → 0 < length (text_in self.now) }
    {
        self.is_over && self.start == self.end
    }

    /// How many bytes the window has room for.
    pub fn size(&self) -> usize
        ensures { result ≡ vec_len self.now.bytes }
    {
        self.bytes.len()
    }

    /// How many bytes the feed has given.
    pub fn read(&self) -> usize
        ensures { result ≡ self.now.read }
    {
        self.read
    }

    /// Reads the rest of the feed and drops it.
    pub fn drain<F: Feed>(&mut self, feed: &mut F) -> Result<(), LoadError>
        requires within { IsWithin self.old }
        requires failures { F.failures feed.old < u64.MAX }
        ensures read { OnOk result (HasRead self.old self.new
            (left (F.coming feed.old) (F.given feed.old) (F.failures feed.old))
            (left (F.coming feed.new) (F.given feed.new) (F.failures feed.new))) }
        ensures over { OnOk result (self.new.is_over ≡ true) }
        ensures err { IfErr result (IsLoadFault self.old
            (left (F.coming feed.old) (F.given feed.old) (F.failures feed.old))
            (left (F.coming feed.new) (F.given feed.new) (F.failures feed.new))) }
    {
        'reads: while !self.is_over {
            self.let_go_all();
            self.fill(feed)?;
        }
        Ok(())
    }

    // Drops all bytes.
    fn let_go_all(&mut self)
        requires { IsWithin self.old }
        ensures window { IsWindow self.new }
        ensures read { self.new.read ≡ self.old.read }
        ensures over { self.new.is_over ≡ self.old.is_over }
        ensures ended { self.new.is_ended ≡ self.old.is_ended }
    {
        self.start = 0;
        self.end = 0;
    }
}
