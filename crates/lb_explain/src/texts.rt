//! Places in texts.

use crate::bytes::{byte_at, count, find, part};
use lb_places::Text;

/// A stretch of a line.
#[derive(Clone, Copy)]
pub struct Stretch {
    /// From 1, in the file.
    pub line: u64,
    /// In bytes, from 1.
    pub column: usize,
    /// The offset of the start of the line in the text.
    pub line_start: usize,
    /// The offsets of the start and the end of the stretch in the text.
    pub start: usize,
    pub end: usize,
}

/// The stretch from `start` to `end`, in a line that begins at `line_start`, behind `lines` lines.
pub fn spot_in(
    text: &Text<'_>,
    lines: u64,
    line_start: usize,
    start: usize,
    end: usize,
) -> Stretch {
    Stretch {
        line: text.lines_before.saturating_add(lines).saturating_add(1),
        column: start.saturating_sub(line_start).saturating_add(1),
        line_start,
        start,
        end,
    }
}

/// The start of the line that a place is in.
pub fn line_start(bytes: &[u8], at: usize) -> usize {
    let at = at.min(bytes.len());
    for back in 0..at {
        let start = at.saturating_sub(back);
        if byte_at(bytes, start.saturating_sub(1)) == b'\n' {
            return start;
        }
    }
    0
}

/// The start of the line that a place in a part of a file is in. The part leaves out bytes behind
/// the header: so a carriage return may stand there, whose newline is left out.
fn part_line_start(bytes: &[u8], at: usize) -> usize {
    let at = at.min(bytes.len());
    for back in 0..at {
        let start = at.saturating_sub(back);
        let last = byte_at(bytes, start.saturating_sub(1));
        if last == b'\n' || last == b'\r' && byte_at(bytes, start) != b'\n' {
            return start;
        }
    }
    0
}

/// The start of the line of traces that a place is in.
pub fn record_line(text: &Text<'_>, at: usize) -> usize {
    if text.lines_before > 0 {
        return part_line_start(text.bytes, at);
    }
    line_start(text.bytes, at)
}

/// The stretch of a text from `start` to `end`.
pub fn spot(text: &Text<'_>, start: usize, end: usize) -> Stretch {
    let begin = line_start(text.bytes, start);
    let lines = count(part(text.bytes, 0, begin), b'\n') as u64;
    spot_in(text, lines, begin, start, end)
}

/// The start of the line with this number, from 1 on.
fn start_of_line(bytes: &[u8], line: u32) -> usize {
    let mut start = 0;
    for _line in 1..line {
        start = find(bytes, start, b'\n').saturating_add(1);
    }
    start.min(bytes.len())
}

/// The offset of a line and a column, which both count from 1.
pub fn offset_of(bytes: &[u8], line: u32, column: u32) -> usize {
    let start = start_of_line(bytes, line);
    start
        .saturating_add(column.saturating_sub(1) as usize)
        .min(bytes.len())
}

/// The bytes of the line that begins at a place, without its line end.
pub fn line_at(bytes: &[u8], start: usize) -> &[u8] {
    let end = find(bytes, start, b'\n');
    let line = part(bytes, start, end);
    match line {
        [front @ .., b'\r'] => front,
        _ => line,
    }
}
