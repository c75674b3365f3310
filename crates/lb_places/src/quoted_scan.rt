//! Records of a text that may have quotes, byte by byte.

ghost use Rattle.std.specs.Prelude.{IfSome};
ghost use Rattle.lb_places.specs.Found.{IsNumbered};

use crate::cell_states::CellState;
use crate::first_cells::ends_line;
use crate::records::{Cursor, Goal, is_goal};

/// The record that `goal` looks for, from a place between records on.
pub fn next_quoted(text: &[u8], from: &Cursor, goal: &Goal<'_>) -> Option<Cursor>
    ensures { IfSome result (λ found. IsNumbered goal.now found.records) }
{
    let mut state = CellState::Record;
    let mut records = from.records;
    let mut lines = from.lines;
    for at in from.at..text.len() {
        let b = text[at];
        if state == CellState::Record && !ends_line(b) {
            if is_goal(goal, text, records, at) {
                return Some(Cursor {
                    at,
                    records,
                    lines,
                    has_quote: true,
                });
            }
            records = records.saturating_add(1);
        }
        state = state.after(b);
        lines = lines.saturating_add(u64::from(b == b'\n'));
    }
    None
}
