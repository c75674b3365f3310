//! The first cell of a record, which is the name of its trace.

use crate::cell_states::CellState;

/// Whether a byte ends a line.
pub fn ends_line(b: u8) -> bool {
    b == b'\n' || b == b'\r'
}

/// Whether a name is the value of the first cell of a record, which may be quoted.
fn quoted_is(record: &[u8], name: &[u8]) -> bool {
    let mut state = CellState::Cell;
    let mut left = name;
    for b in record {
        let next = state.after(*b);
        if next == CellState::Record || next == CellState::Cell {
            return left.is_empty();
        }
        if let Some(byte) = state.emitted(*b) {
            match left {
                [first, behind @ ..] if *first == byte => left = behind,
                _ => return false,
            }
        }
        state = next;
    }
    left.is_empty()
}

/// Whether a name is the value of the first cell of the record that begins at a place.
pub fn first_cell_is(text: &[u8], start: usize, name: &[u8]) -> bool {
    let record = &text[start.min(text.len())..];
    match record {
        [b'"', ..] => quoted_is(record, name),
        _ => match record.strip_prefix(name) {
            Some([]) => true,
            Some([b, ..]) => *b == b',' || ends_line(*b),
            None => false,
        },
    }
}
