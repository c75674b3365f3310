//! The cells of a record after its first one.

ghost use Rattle.std.specs.Prelude.{◌≡◌, get_or, length, []};
ghost use Rattle.csv.specs.Records.{fields_of};
ghost use Rattle.lb_trace.specs.Spelling.{after_first};

use csv::ByteRecord;

/// The number of cells after the first one.
pub(crate) fn width(entry: &ByteRecord) -> usize
    ensures { result ≡ length (after_first (fields_of entry.now)) }
{
    entry.len().saturating_sub(1)
}

/// The cell at this place after the first one, or an empty one past the end.
pub(crate) fn cell(entry: &ByteRecord, i: usize) -> &[u8]
    ensures { result.now ≡ get_or (after_first (fields_of entry.now)) i [] }
{
    match entry.get(i.saturating_add(1)) {
        Some(cell) => cell,
        None => b"".as_slice(),
    }
}
