//! Files that are read at places.

ghost use Rattle.std.specs.Prelude.{◌≡◌, ℕ, List, Option, None, ◌+◌, ◌<◌, ◌≤◌, IfOk, IfSome};
ghost use Rattle.std.specs.Prelude.{Bool, OnErr, OnOk, Some, drop, false, length, take, true};
ghost use Rattle.std.specs.Prelude.{vec_len};
ghost use Rattle.std.specs.Io.KnownBytes.{Consumes, IsAtEnd};
ghost use Rattle.lb_feed.specs.PlacedFiles.{between, told_from};

use crate::feed::FeedFailed;
use std::alloc::Global;
use std::fs::OpenFile;
use std::os::unix::fs::FileExt;

/// A file that is read at places, from several threads side by side.
pub trait PlacedFile {
    /// Its bytes, where it tells them. They stay the same.
    ghost bytes: { Self → Option (List ℕ) } = { λ _. None };

    /// Whether a read of such a file may fail.
    ghost may_fail: { Bool } = { true };

    /// How many bytes it has; 0 where that is not known.
    fn size(&self) -> u64
        ensures { IfSome (bytes self.now) (λ bytes. result ≡ length bytes) };

    /// Reads the bytes from `place` on into the front of `buffer`, and returns how many they are. 0
    /// into a buffer that is not empty is the end.
    fn read_at(&self, buffer: &mut [u8], place: u64) -> Result<usize, FeedFailed>
        ensures within { IfOk result (λ n. n ≤ length buffer.new) }
        ensures next { IfOk result (λ n. Consumes (told_from place (bytes self.now))
            (told_from (place + n) (bytes self.now)) (take n buffer.new)) }
        ensures end { IfOk result (λ n.
            n ≡ 0 → 0 < length buffer.new → IsAtEnd (told_from place (bytes self.now))) }
        ensures err { OnErr result (may_fail ≡ true) };
}

/// One of std's files, which is read at places. It does not tell its bytes: they may change. A read
/// of it may fail.
#[derive(Drop)]
pub struct FilePlaces<'f, F> {
    file: &'f F,
}

impl<'f, F: OpenFile + FileExt> FilePlaces<'f, F> {
    /// The places of an open file.
    pub fn new(file: &'f F) -> FilePlaces<'f, F>
        ensures { result.file.now ≡ file.now }
    {
        FilePlaces { file }
    }
}

/// The number of bytes of a regular file; 0 where that is not known.
fn size_of<F: OpenFile>(file: &F) -> u64 {
    match file.metadata() {
        Ok(found) if found.is_file() => found.len(),
        _ => 0,
    }
}

impl<F: OpenFile + FileExt> PlacedFile for FilePlaces<'_, F> {
    fn size(&self) -> u64 {
        size_of(self.file)
    }

    fn read_at(&self, buffer: &mut [u8], place: u64) -> Result<usize, FeedFailed> {
        match self.file.read_at(buffer, place) {
            Ok(count) => Ok(count),
            Err(_) => Err(FeedFailed),
        }
    }
}

/// A text in memory, which is read at places as a file is. It tells its bytes, and no read of it
/// fails.
#[derive(Clone, Copy)]
pub struct TextPlaces<'t> {
    pub text: &'t [u8],
}

impl PlacedFile for TextPlaces<'_> {
    ghost bytes = { λ places. Some places.text.now };

    ghost may_fail = { false };

    fn size(&self) -> u64 {
        self.text.len() as u64
    }

    fn read_at(&self, buffer: &mut [u8], place: u64) -> Result<usize, FeedFailed> {
        if place >= self.text.len() as u64 {
            return Ok(0);
        }
        let rest = &self.text[place as usize..];
        let count = rest.len().min(buffer.len());
        buffer[..count].copy_from_slice(&rest[..count]);
        Ok(count)
    }
}

/// Reads once from `place + filled` of a file, into `bytes` behind the first `filled`. Returns how
/// many bytes came.
fn read_behind<F: PlacedFile>(
    file: &F,
    bytes: &mut Vec<u8>,
    filled: usize,
    place: u64,
) -> Result<usize, FeedFailed>
    requires filled { filled ≤ vec_len bytes.old }
    requires place { place + filled ≤ u64.MAX }
    ensures long { vec_len bytes.new ≡ vec_len bytes.old }
    ensures within { IfOk result (λ n. filled + n ≤ vec_len bytes.new) }
    ensures front { OnOk result (take filled bytes.new.items ≡ take filled bytes.old.items) }
    ensures next { IfOk result (λ n. Consumes (told_from (place + filled) (F.bytes file.now))
        (told_from (place + filled + n) (F.bytes file.now))
        (take n (drop filled bytes.new.items))) }
{
    file.read_at(&mut bytes[filled..], place + filled as u64)
}

/// The bytes of a file from `place` on, at most `most`. None where a read or memory failed.
pub fn bytes_from<F: PlacedFile>(
    alloc: Global,
    file: &F,
    place: u64,
    most: usize,
) -> Option<Vec<u8>>
    requires { place + most ≤ u64.MAX }
    ensures within { IfSome result (λ bytes. vec_len bytes ≤ most) }
    ensures next { IfSome result (λ bytes. Consumes (told_from place (F.bytes file.now))
        (told_from (place + vec_len bytes) (F.bytes file.now)) bytes.items) }
{
    let mut bytes = Vec::new(alloc);
    let Ok(()) = bytes.resize(most, 0) else {
        return None;
    };
    let mut filled = 0;
    'reads: while filled < bytes.len() {
        let Ok(count) = read_behind(file, &mut bytes, filled, place) else {
            return None;
        };
        if count == 0 {
            break;
        }
        filled += count;
    }
    bytes.truncate(filled);
    Some(bytes)
}

/// The bytes of a file from `start` to `past`. None where a read or memory failed, and where the
/// file ends before `past`.
pub(crate) fn bytes_between<F: PlacedFile>(
    alloc: Global,
    file: &F,
    start: u64,
    past: u64,
) -> Option<Vec<u8>>
    ensures { IfSome result (λ bytes.
        IfSome (F.bytes file.now) (λ all. bytes.items ≡ between start past all)) }
{
    let count = past.saturating_sub(start) as usize;
    let bytes = bytes_from(alloc, file, start, count)?;
    if bytes.len() < count {
        return None;
    }
    Some(bytes)
}
