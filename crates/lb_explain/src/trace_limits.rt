//! E18: a trace text over a limit.

use crate::cells::{cell_of, put_record, stretch_of};
use crate::counts::put_past;
use crate::excerpt::put_place;
use crate::instants::instant_of;
use crate::page::Page;
use crate::quoted::width;
use crate::texts::spot;
use lb_places::{Cursor, Text, header_and_record};

/// The limits: bytes of a text, instants of a trace, and cells of a text.
const MOST_BYTES: u64 = 1_073_741_824;

const MOST_INSTANTS: u64 = 1_000_000;

const MOST_CELLS: u64 = 67_108_864;

/// A limit that a record can go past.
#[derive(Clone, Copy)]
enum Limit {
    /// The instants of one trace.
    Instants,
    /// The cells of all records, and their number.
    Cells(u64),
    Traces,
}

/// How to mend a text that is too long, or has too many traces or cells.
const IN_PARTS: &str = "help: `--part 1/16` judges the first of 16 parts of a file of traces\n";

/// The number of instants that the trace of a record has, up to and with that record.
fn instants(page: &mut Page, text: &[u8], record: &Cursor) -> u64 {
    let name = cell_of(page, text, record.at, 0);
    instant_of(text, record, name.as_slice()).saturating_add(1)
}

/// The limit that a record goes past, in a trace that has `instants` up to it.
fn limit_of(record: &Cursor, columns: u64, instants: u64) -> Limit {
    let cells = record.records.saturating_mul(columns);
    if instants > MOST_INSTANTS {
        Limit::Instants
    } else if cells > MOST_CELLS {
        Limit::Cells(cells)
    } else {
        Limit::Traces
    }
}

/// Puts the limit that a record goes past, and how to keep within it.
fn put_limit(page: &mut Page, limit: Limit) {
    match limit {
        Limit::Instants => {
            put_past(
                page,
                "this is instant ",
                MOST_INSTANTS,
                " of its trace",
                MOST_INSTANTS,
            );
            page.put("help: split the traces into several files, and run each\n");
        }
        Limit::Cells(cells) => {
            put_past(page, "up to here there are ", cells, " cells", MOST_CELLS);
            page.put(IN_PARTS);
        }
        Limit::Traces => {
            page.put("this is trace 1000001; at most 1000000 are read\n");
            page.put(IN_PARTS);
        }
    }
}

/// Explains E18 for the length of a text, or for the record with a number.
pub fn explain_limit(page: &mut Page, text: &Text<'_>, number: Option<u64>) {
    match number {
        Some(record) => explain_record(page, text, record),
        None => explain_long(page, text),
    }
}

/// Explains a text that is too long.
fn explain_long(page: &mut Page, text: &Text<'_>) {
    let length = text.bytes.len() as u64;
    if length <= MOST_BYTES {
        return;
    }
    put_place(page, text, &spot(text, 0, 0), "error");
    put_past(
        page,
        "the text of the traces has ",
        length,
        " bytes",
        MOST_BYTES,
    );
    page.put(IN_PARTS);
}

/// Explains a record that goes past a limit.
fn explain_record(page: &mut Page, text: &Text<'_>, number: u64) {
    let bytes = text.bytes;
    let Some((header, record)) = header_and_record(bytes, number) else {
        return;
    };
    let columns = width(bytes, header.at).saturating_sub(1).max(1) as u64;
    put_place(
        page,
        text,
        &stretch_of(text, &record, record.at, record.at),
        "error",
    );
    let instants = instants(page, bytes, &record);
    put_limit(page, limit_of(&record, columns, instants));
    put_record(page, text, &record);
}
