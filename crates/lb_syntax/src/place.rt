//! Lines and columns.

ghost use Rattle.std.specs.Prelude.{◌≡◌, ◌<◌, ◌^◌, length};
ghost use Rattle.lb_syntax.specs.Places.{IsPlace};

use crate::tree::Offset;

/// A place in a text.
#[derive(Clone, Copy, PartialEq, Eq, Debug)]
pub struct LineColumn {
    /// From 1; the newline alone ends a line.
    pub line: u32,
    /// In bytes, from 1; a tab is one column.
    pub column: u32,
}

/// The line and the column of the byte at an offset. An offset past the end stands for the place
/// after the last byte.
pub fn line_column(text: &[u8], offset: Offset) -> LineColumn
    requires { length text.now < u32.MAX }
    ensures { IsPlace text.now offset result.line result.column }
{
    let before = text.split_at(text.len().min(offset as usize)).0;
    let mut place = LineColumn { line: 1, column: 1 };
    for b in before {
        if *b == b'\n' {
            place.line += 1;
            place.column = 1;
        } else {
            place.column += 1;
        }
    }
    place
}
