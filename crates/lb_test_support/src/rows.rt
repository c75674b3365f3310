//! The loop over the rows of tables of text.
//!
//! A row has a question and, behind a mark, mostly ` => `, the wanted answer.
//!
//! ```text
//! node f() returns (y: int) let tel
//! text => 0 constants, 1 nodes
//! ----
//! node main({2 x@, }y: bool) returns (ok: bool); let ok = y; tel
//! main => 1 of 1: main | x0: Bool x1: Bool y: Bool
//! ```
//!
//! `{2 x@, }` stands for `x0, x1, `, `{3 a}` for `aaa`, and `{1..2 x@ @, }` for `x1 1, x2 2, `.

use crate::texts::{Said, is_same};
use std::alloc::Global;

/// The form of a table.
#[derive(Clone, Copy)]
pub struct Form {
    /// The mark between two rows.
    pub between: &'static str,
    /// The mark in a row between the question and the wanted answer.
    pub mark: &'static str,
}

/// A row in each line.
pub const LINES: Form = Form {
    between: "\n",
    mark: " => ",
};

/// A row in each line, with the wanted place at its end.
pub const PLACES: Form = Form {
    between: "\n",
    mark: " at ",
};

/// A line of dashes between two rows.
pub const TEXTS: Form = Form {
    between: "\n----\n",
    mark: " => ",
};

/// A line of dashes between two rows, and the wanted answer in lines of its own.
pub const OFFSETS: Form = Form {
    between: "\n----\n",
    mark: "\n=>",
};

/// Cases whose answers end with a line end.
pub const BATCHES: Form = Form {
    between: "%case\n",
    mark: "%answer\n",
};

/// Cases whose answers end without a line end.
pub const SPREADS: Form = Form {
    between: "\n%case\n",
    mark: "%answer\n",
};

/// Cases whose answers end without a line end, each with its observer in the line of `%case`.
pub const CASES: Form = Form {
    between: "\n%case",
    mark: "%answer\n",
};
/// A table: the question and the form of its rows, and the rows.
pub type Table<Q> = (Q, Form, &'static str);

/// The text `turn` once for each number from `first` up to `end`, with the number for each `@`.
fn push_turns(row: &mut Said, first: u32, end: u32, turn: &str) {
    for number in first..end {
        let mut pieces = turn.split('@');
        row.push_str(pieces.next().unwrap_or(""));
        for piece in pieces {
            write!(row, "{number}{piece}");
        }
    }
}

/// The first number and the end of a range: 0 and 3 for `3`, 1 and 4 for `1..3`.
fn numbers(text: &str) -> Option<(u32, u32)> {
    let (first, last) = match text.split_once("..") {
        Some((first, last)) => (first, last),
        None => return Some((0, text.parse::<u32>().ok()?)),
    };
    let last = last.parse::<u32>().ok()?;
    Some((first.parse::<u32>().ok()?, last.saturating_add(1)))
}

/// The parts of `3 a@}` and a rest: the range of `3`, the turn `a@`, and the rest.
fn repeated(piece: &str) -> Option<((u32, u32), &str, &str)> {
    let (repeated, rest) = piece.split_once('}')?;
    let (count, turn) = repeated.split_once(' ')?;
    Some((numbers(count)?, turn, rest))
}

/// Writes `short` to `row` with all turns written out. Returns whether each brace has a number of
/// turns.
pub fn write_out(row: &mut Said, short: &str) -> bool {
    let mut pieces = short.split('{');
    row.clear();
    row.push_str(pieces.next().unwrap_or(""));
    for piece in pieces {
        let Some(((first, end), turn, rest)) = repeated(piece) else {
            return false;
        };
        push_turns(row, first, end, turn);
        row.push_str(rest);
    }
    true
}

/// Whether `said`, the answer to a row, is the wanted one. A row without the mark has no wanted
/// answer.
fn is_right<Q, F: Fn(&Q, &str, &mut Said)>(
    question: &Q,
    form: Form,
    answer: &F,
    row: &str,
    said: &mut Said,
) -> bool
    requires { F.IsAlwaysCallable answer.now }
{
    said.clear();
    let Some((asked, wanted)) = row.rsplit_once(form.mark) else {
        return false;
    };
    answer(question, asked, said);
    is_same(said.as_str(), wanted)
}

/// Whether each row of a table has the wanted answer. The first that has not stays in `row`, with
/// its answer in `said`. A row with a brace without a number of turns is wrong too.
fn is_answered<Q, F: Fn(&Q, &str, &mut Said)>(
    table: &Table<Q>,
    answer: &F,
    row: &mut Said,
    said: &mut Said,
) -> bool
    requires { F.IsAlwaysCallable answer.now }
{
    let (question, form, rows) = table;
    for short in rows.split(form.between) {
        if !write_out(row, short) || !is_right(question, *form, answer, row.as_str(), said) {
            return false;
        }
    }
    true
}

/// The first row of some tables with a wrong answer, behind that answer. Nothing where there is
/// none. `answer` adds the answer to the question of a table on the text of a row.
pub fn first_wrong<Q, F: Fn(&Q, &str, &mut Said)>(
    alloc: Global,
    tables: &[Table<Q>],
    answer: F,
) -> Said
    requires { F.IsAlwaysCallable answer }
{
    let mut row = Said::new(alloc);
    let mut said = Said::new(alloc);
    for table in tables {
        if !is_answered(table, &answer, &mut row, &mut said) {
            write!(said, ", and not: {}", row.as_str());
            return said;
        }
    }
    said.clear();
    said.cut_with(&row);
    said
}
