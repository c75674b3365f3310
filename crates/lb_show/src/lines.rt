//! The lines of a text, by which places in it are found fast.

use std::alloc::{AllocError, Global};

/// A place in a text: a line and a column, both from 1. Columns count bytes.
#[derive(Clone, Copy, PartialEq, Eq)]
pub struct Spot {
    pub line: usize,
    pub column: usize,
}

/// The offsets at which the lines of a text begin.
#[derive(Drop)]
pub struct Lines {
    starts: Vec<usize>,
}

impl Lines {
    /// The lines of a text.
    pub fn of(alloc: Global, text: &[u8]) -> Result<Lines, AllocError> {
        let mut starts = Vec::new(alloc);
        starts.push(0)?;
        for (at, b) in text.iter().enumerate() {
            if *b == b'\n' {
                starts.push(at.saturating_add(1))?;
            }
        }
        Ok(Lines { starts })
    }

    /// The place of the byte at an offset.
    pub fn spot(&self, offset: usize) -> Spot {
        let line = self.starts.partition_point(|start| *start <= offset);
        let start = self
            .starts
            .get(line.saturating_sub(1))
            .copied()
            .unwrap_or(0);
        Spot {
            line,
            column: offset.saturating_sub(start).saturating_add(1),
        }
    }
}
