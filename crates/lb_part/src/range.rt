//! Texts whose ranges of bytes can be read.

ghost use Rattle.std.specs.Prelude.{◌≡◌, ◌+◌, ℕ, List, Option, None, Some, IfOk, OnOk, length};
ghost use Rattle.lb_part.specs.Ranges.{HasRange, OfKnown};

use std::fs::OpenFile;
use std::os::unix::fs::FileExt;
use thiserror::Error;

/// A range could not be read.
#[derive(Clone, Copy, Debug, Error)]
#[error("the text could not be read")]
pub struct RangeFailed;

/// A text that can be read by ranges of its bytes.
pub trait Ranges {
    /// Its bytes, where they are known: those of a file are not.
    ghost bytes: { Self → Option (List ℕ) } = { λ _. None };

    /// The number of its bytes.
    fn size(&self) -> Result<u64, RangeFailed>
        ensures { IfOk result (λ size. OfKnown (bytes self.now) (λ all. size ≡ length all)) };

    /// Fills the buffer with the bytes from `from` on.
    fn read(&self, from: u64, buffer: &mut [u8]) -> Result<(), RangeFailed>
        ensures { OnOk result (OfKnown (bytes self.now) (λ all. HasRange all from buffer.new)) };
}

/// A regular file that is open.
#[derive(Drop)]
pub struct FileRanges<'f, F> {
    file: &'f F,
}

impl<'f, F: OpenFile + FileExt> FileRanges<'f, F> {
    /// The ranges of a file.
    pub fn new(file: &'f F) -> FileRanges<'f, F> {
        FileRanges { file }
    }
}

impl<F: OpenFile + FileExt> Ranges for FileRanges<'_, F> {
    fn size(&self) -> Result<u64, RangeFailed> {
        match self.file.metadata() {
            Ok(found) if found.is_file() => Ok(found.len()),
            _ => Err(RangeFailed),
        }
    }

    fn read(&self, from: u64, buffer: &mut [u8]) -> Result<(), RangeFailed> {
        match self.file.read_exact_at(buffer, from) {
            Ok(()) => Ok(()),
            Err(_) => Err(RangeFailed),
        }
    }
}

/// A text in memory.
#[derive(Clone, Copy)]
pub struct TextRanges<'t> {
    pub text: &'t [u8],
}

impl Ranges for TextRanges<'_> {
    ghost bytes = { λ ranges. Some ranges.text.now };

    fn size(&self) -> Result<u64, RangeFailed> {
        Ok(self.text.len() as u64)
    }

    fn read(&self, from: u64, buffer: &mut [u8]) -> Result<(), RangeFailed> {
        let from = from as usize;
        if from > self.text.len() || buffer.len() > self.text.len() - from {
            return Err(RangeFailed);
        }
        buffer.copy_from_slice(&self.text[from..from + buffer.len()]);
        Ok(())
    }
}
