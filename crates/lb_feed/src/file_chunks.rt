//! A file in chunks of whole lines, each loaded by itself.
//!
//! ```text
//! file    trace,x | a,1 | a,5 | b,0 | c,7
//! chunk   0 ......... | 1 ....... | 2 ...
//! ```

ghost use Rattle.std.specs.Prelude.{◌≡◌, ◌≤◌, ◌<◌, IfOk, IfSome, length};
ghost use Rattle.std.specs.List.{range_with_len};
ghost use Rattle.lb_feed.specs.FileChunks.{AreChunks, IsChunkAt};
ghost use Rattle.lb_feed.specs.SectionEnds.{AreEnds};

use crate::feed::INPUT_LIMIT;
use crate::placed::{PlacedFile, bytes_between};
use crate::section_ends::start_at;
use std::alloc::{AllocError, Global};

/// The least size, in bytes, of a file that several threads read.
const LEAST: u64 = 1 << 21;

/// The size of a chunk in bytes, about: small enough to stay in the processor's cache.
const CHUNK: u64 = 1 << 18;

/// The size of the first chunk in bytes, about. It is read before the others.
const FIRST: u64 = 1 << 16;

/// How many bytes are searched for the end of a line.
const PROBE: usize = 4096;

/// The place behind the first line end that is found from `from` on. None where none is found
/// within `PROBE` bytes.
// Not inlined, so that its buffer is not on the stack of a whole run.
#[inline(never)]
fn line_start<F: PlacedFile>(file: &F, from: u64) -> Option<u64> {
    let mut probe = [0u8; PROBE];
    let Ok(count) = file.read_at(&mut probe, from) else {
        return None;
    };
    let found = probe[..count].iter().position(|b| *b == b'\n')?;
    from.checked_add(found as u64 + 1)
}

/// The places where the chunks of a file end, each behind a line. The last one ends at `size`, the
/// end of the file.
fn chunk_ends<F: PlacedFile>(alloc: Global, file: &F, size: u64) -> Result<Vec<u64>, AllocError>
    requires { size ≤ INPUT_LIMIT }
    ensures { IfOk result (λ ends. AreEnds 0 size ends.items) }
{
    let mut ends = Vec::new(alloc);
    let mut last = 0;
    'chunks: for k in 0..size / CHUNK {
        if let Some(end) = line_start(file, FIRST + CHUNK * k)
            && end > last
            && end < size
        {
            ends.push(end)?;
            last = end;
        }
    }
    ends.push(size)?;
    Ok(ends)
}

/// The numbers from 1 to `count`.
fn numbers_to(alloc: Global, count: usize) -> Result<Vec<usize>, AllocError>
    ensures { IfOk result (λ numbers. numbers.items ≡ range_with_len 1 count) }
{
    let mut numbers = Vec::new(alloc);
    for k in 0..count {
        numbers.push(k + 1)?;
    }
    Ok(numbers)
}

/// A large file in chunks, with the first one loaded.
#[derive(Drop)]
pub struct FileChunks<'f, F> {
    file: &'f F,
    /// The places where the chunks end.
    ends: Vec<u64>,
    pub first: Vec<u8>,
    /// The numbers of the other chunks.
    pub numbers: Vec<usize>,
}

impl<'f, F: PlacedFile> FileChunks<'f, F> {
    /// The chunks of a file; None where it is not large, does not end with a line, or could not be
    /// read.
    pub fn of_file(alloc: Global, file: &'f F) -> Option<FileChunks<'f, F>>
        ensures file { IfSome result (λ chunks. chunks.file.now ≡ file.now) }
        ensures chunks { IfSome result (λ chunks. AreChunks (F.bytes file.now)
            chunks.ends.items chunks.first.items chunks.numbers.items) }
    {
        let size = file.size();
        if size < LEAST || size > INPUT_LIMIT as u64 || line_start(file, size - 1).is_none() {
            return None;
        }
        let Ok(ends) = chunk_ends(alloc, file, size) else {
            return None;
        };
        let Ok(numbers) = numbers_to(alloc, ends.len() - 1) else {
            return None;
        };
        let first = bytes_between(alloc, file, 0, ends[0])?;
        Some(FileChunks {
            file,
            ends,
            first,
            numbers,
        })
    }

    /// The bytes of chunk `k`. None where there is no such chunk, or where a read or memory failed.
    pub fn load(&self, alloc: Global, k: usize) -> Option<Vec<u8>>
        ensures { IfSome result (λ chunk.
            IsChunkAt (F.bytes self.now.file.now) self.now.ends.items k chunk.items) }
    {
        let ends = self.ends.as_slice();
        if k >= ends.len() {
            return None;
        }
        bytes_between(alloc, self.file, start_at(0, ends, k), ends[k])
    }
}
