//! Adding to a text.

ghost use Rattle.std.specs.Prelude.{◌≡◌, ◌++◌, decimal, OnOk};
ghost use Rattle.std.specs.Fmt.{signed_decimal};
ghost use Rattle.lb_flat.specs.Values.{cell_of};
ghost use Rattle.lb_csv.specs.CsvTexts.{cell_text};

use itoa::Buffer;
use lb_history::Cell;
use std::alloc::AllocError;

/// The number of bytes after which a part of a text ends.
pub const CHUNK: usize = 65536;

/// Adds a text.
pub fn push(text: &mut Vec<u8>, more: &str) -> Result<(), AllocError>
    ensures { OnOk result (text.new.items ≡ text.old.items ++ more.now) }
{
    text.extend_from_slice(more.as_bytes())
}

/// Adds a number.
pub fn push_number(text: &mut Vec<u8>, n: u64) -> Result<(), AllocError>
    ensures { OnOk result (text.new.items ≡ text.old.items ++ decimal n) }
{
    text.extend_from_slice(Buffer::new().format(n).as_bytes())
}

/// Adds an `int`.
pub fn push_integer(text: &mut Vec<u8>, n: i32) -> Result<(), AllocError>
    ensures { OnOk result (text.new.items ≡ text.old.items ++ signed_decimal n) }
{
    text.extend_from_slice(Buffer::new().format(n).as_bytes())
}

/// Adds a cell: a number, or 0 or 1; nothing where it is absent, `?` where it is nil, and `!` where
/// it is the value of a fault.
pub fn push_cell(text: &mut Vec<u8>, cell: Cell) -> Result<(), AllocError>
    ensures { OnOk result (text.new.items ≡ text.old.items ++ cell_text (cell_of cell)) }
{
    match cell {
        Cell::Absent => Ok(()),
        Cell::Nil => push(text, "?"),
        Cell::Bad => push(text, "!"),
        Cell::Integer(z) => push_integer(text, z),
        Cell::Boolean(false) => push(text, "0"),
        Cell::Boolean(true) => push(text, "1"),
    }
}
