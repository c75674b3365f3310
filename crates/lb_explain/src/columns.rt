//! E14: a header that does not name the inputs.

use crate::bytes::{count, part};
use crate::cells::{
    NO_COMMENTS, cell_of, is_padded, put_cell, put_help, separator_mend, stretch_of,
};
use crate::excerpt::{put_excerpt, put_place};
use crate::near::{Nearest, differ_in_case};
use crate::page::Page;
use crate::quoted::{CellPlace, cell_at, end_of_record, width};
use crate::texts::spot;
use lb_places::{Cursor, Goal, Text, find_record, input_named};
use lb_static::Signature;

/// The most names of a list that are shown.
const MOST: usize = 6;

/// The most inputs that the wanted header shows.
const MOST_WANTED: u32 = 12;

/// The header of a text: its first cell, and the cells behind that.
struct Header {
    start: Cursor,
    /// The names behind the first cell.
    names: Vec<Vec<u8>>,
    first: Vec<u8>,
}

// Not derived, so that it is dropped in one step.
impl Drop for Header {
    fn drop(self) {
        let Header {
            start: _,
            names: _,
            first: _,
        } = self;
    }
}

impl Header {
    /// The name of a column, from 0 on for the first cell; empty where there is none.
    fn name_at(&self, column: usize) -> &[u8] {
        if column == 0 {
            return self.first.as_slice();
        }
        match self.names.get(column.saturating_sub(1)) {
            Some(name) => name.as_slice(),
            None => b"",
        }
    }

    /// Whether one of the columns has this name, the first one too.
    fn has(&self, name: &[u8]) -> bool {
        self.first.as_slice() == name || has_name(self.names.as_slice(), name)
    }
}

/// The header of a text that begins at `start`. Where memory runs out the page is cut.
fn header_at(page: &mut Page, text: &[u8], start: Cursor) -> Header {
    let mut names = Vec::new(page.alloc());
    for place in 1..width(text, start.at) {
        let name = cell_of(page, text, start.at, place);
        page.cut_if(names.push(name).is_err());
    }
    let first = cell_of(page, text, start.at, 0);
    Header {
        start,
        names,
        first,
    }
}

/// Whether one of the names is this one.
fn has_name(names: &[Vec<u8>], name: &[u8]) -> bool {
    for other in names {
        if other.as_slice() == name {
            return true;
        }
    }
    false
}

/// A fault of a header at some column.
#[derive(Clone, Copy, PartialEq, Eq)]
enum Fault {
    /// The first cell is not `trace`.
    First,
    /// A name that is no input, and a name that an earlier column has.
    Unknown,
    Doubled,
}

/// The first wrong column, counted from 0, and its fault.
fn first_fault(signature: &Signature, header: &Header) -> Option<(usize, Fault)> {
    if header.first.as_slice() != b"trace".as_slice() {
        return Some((0, Fault::First));
    }
    for (place, name) in header.names.iter().enumerate() {
        if input_named(signature, name.as_slice()).is_none() {
            return Some((place.saturating_add(1), Fault::Unknown));
        }
        if has_name(&header.names.as_slice()[..place], name.as_slice()) {
            return Some((place.saturating_add(1), Fault::Doubled));
        }
    }
    None
}

/// Puts the names of inputs that no column has, if there are any.
fn put_missing(page: &mut Page, signature: &Signature, header: &Header) {
    let mut found: usize = 0;
    for i in 0..signature.len() {
        let name = signature.name(i);
        if !header.has(name.as_bytes()) {
            page.put(part_of_list("missing: ", found));
            if found < MOST {
                page.put(name);
            }
            found = found.saturating_add(1);
        }
    }
    end_list(page, found);
}

/// What stands before the next name of a list, which has `found` names so far: `word` before the
/// first one, and nothing where the list is full.
fn part_of_list(word: &'static str, found: usize) -> &'static str {
    if found == 0 {
        word
    } else if found < MOST {
        ", "
    } else {
        ""
    }
}

/// Ends the line of a list of `found` names, with the number of names that it does not show.
fn end_list(page: &mut Page, found: usize) {
    if found > MOST {
        let more = found.saturating_sub(MOST);
        page.put_number_in(" and ", more as u64, " more");
    }
    page.put(if found > 0 { "\n" } else { "" });
}

/// Puts the names of columns that are no inputs, if there are any.
fn put_unknown(page: &mut Page, signature: &Signature, header: &Header) {
    let mut found: usize = 0;
    for name in &header.names {
        if input_named(signature, name.as_slice()).is_none() {
            page.put(part_of_list("unknown: ", found));
            if found < MOST {
                put_cell(page, name.as_slice());
            }
            found = found.saturating_add(1);
        }
    }
    end_list(page, found);
}

/// Puts that an input is similar to the name of an unknown column.
fn put_similar(page: &mut Page, name: &[u8], other: &[u8]) {
    page.put("help: a similar input is ");
    put_cell(page, other);
    page.put(if differ_in_case(name, other) {
        "; case counts\n"
    } else {
        "\n"
    });
}

/// Whether an element of an array with this name is an input.
fn is_array(signature: &Signature, name: &[u8]) -> bool {
    for i in 0..signature.len() {
        if let Some([b'[', ..]) = signature.name(i).as_bytes().strip_prefix(name) {
            return true;
        }
    }
    false
}

/// Whether each input has a column.
fn is_complete(signature: &Signature, header: &Header) -> bool {
    for i in 0..signature.len() {
        if !header.has(signature.name(i).as_bytes()) {
            return false;
        }
    }
    true
}

/// Puts the input that an unknown column may be meant for, or what else may be meant.
fn put_unknown_mend(page: &mut Page, signature: &Signature, header: &Header, name: &[u8]) {
    let mut nearest = Nearest::to(name);
    for i in 0..signature.len() {
        nearest.offer(name, signature.name(i).as_bytes());
    }
    if is_array(signature, name) {
        return page.put("help: an array has a column for each of its elements\n");
    }
    match nearest.name {
        Some(other) => put_similar(page, name, other),
        None if is_complete(signature, header) => {
            page.put("help: leave out each column that is no input\n");
        }
        None => {}
    }
}

/// The mend of a first cell that is not `trace`.
fn first_mend(name: &[u8]) -> &'static str {
    if differ_in_case(name, b"trace") {
        return "case counts";
    }
    if name.starts_with(b"#".as_slice()) {
        return NO_COMMENTS;
    }
    if name.starts_with(b"sep=".as_slice()) {
        return "leave out the line that names the separator";
    }
    if count(name, 0) > 0 {
        return "save the file as UTF-8, not as UTF-16";
    }
    "the first cell of each record names its trace"
}

/// The mend of a wrong column that is none of an unknown name; empty where there is none.
fn plain_mend(line: &[u8], fault: Fault, name: &[u8]) -> &'static str {
    if is_padded(name) {
        return "no space may stand beside a name";
    }
    let separator = separator_mend(line);
    match fault {
        Fault::First if separator.is_empty() || name.starts_with(b"sep=".as_slice()) => {
            first_mend(name)
        }
        _ => separator,
    }
}

/// Puts how to mend a wrong column of the header in a line.
fn put_mend(
    page: &mut Page,
    signature: &Signature,
    header: &Header,
    line: &[u8],
    fault: (usize, Fault),
) {
    let (column, fault) = fault;
    let name = header.name_at(column);
    let mend = plain_mend(line, fault, name);
    if mend.is_empty() && fault == Fault::Unknown {
        put_unknown_mend(page, signature, header, name);
    } else {
        put_help(page, mend);
    }
}

/// Puts what is wrong with a column.
fn put_fault(page: &mut Page, fault: Fault, name: &[u8]) {
    page.put(match fault {
        Fault::First => "the first column has to be `trace`, and is ",
        Fault::Unknown => "no input of the node under test is ",
        Fault::Doubled => "two columns are ",
    });
    put_cell(page, name);
    page.put("\n");
}

/// The bytes to mark: the cell of the wrong column, or the whole header where there is none.
fn marked(text: &[u8], header: &Header, fault: Option<(usize, Fault)>) -> CellPlace {
    let whole = CellPlace {
        start: header.start.at,
        end: end_of_record(text, header.start.at),
    };
    match fault {
        Some((column, _)) => cell_at(text, header.start.at, column).unwrap_or(whole),
        None => whole,
    }
}

/// Puts what is wrong with a header, and its line with marks.
fn put_header(page: &mut Page, text: &Text<'_>, header: &Header, fault: Option<(usize, Fault)>) {
    let found = marked(text.bytes, header, fault);
    let place = stretch_of(text, &header.start, found.start, found.end);
    put_place(page, text, &place, "error");
    match fault {
        Some((column, fault)) => put_fault(page, fault, header.name_at(column)),
        None => page.put("the header lacks an input\n"),
    }
    put_excerpt(page, text, &place);
}

/// Puts the missing and the unknown names, and how to mend the header.
fn put_lists(
    page: &mut Page,
    text: &[u8],
    signature: &Signature,
    header: &Header,
    fault: Option<(usize, Fault)>,
) {
    put_missing(page, signature, header);
    put_unknown(page, signature, header);
    let end = end_of_record(text, header.start.at);
    if let Some(fault) = fault {
        let line = part(text, header.start.at, end);
        put_mend(page, signature, header, line, fault);
    }
    put_wanted(page, signature);
}

/// Puts a right header, with at most `MOST_WANTED` inputs.
fn put_wanted(page: &mut Page, signature: &Signature) {
    page.put("wanted: trace");
    for i in 0..signature.len().min(MOST_WANTED) {
        page.put_in(",", signature.name(i), "");
    }
    page.put(if signature.len() > MOST_WANTED {
        ",.., the inputs in any order\n"
    } else {
        ", the inputs in any order\n"
    });
}

/// Puts the explanation of E14 for a text that has a header.
fn explain_names(page: &mut Page, text: &Text<'_>, signature: &Signature, header: &Header) {
    let fault = first_fault(signature, header);
    put_header(page, text, header, fault);
    put_lists(page, text.bytes, signature, header, fault);
}

/// Explains E14.
pub fn explain_header(page: &mut Page, text: &Text<'_>, signature: &Signature) {
    match find_record(text.bytes, &Goal::Number(0)) {
        Some(start) => {
            let header = header_at(page, text.bytes, start);
            explain_names(page, text, signature, &header);
        }
        None => {
            put_place(page, text, &spot(text, 0, 0), "error");
            page.put("there is no header: the text of the traces is empty\n");
            put_wanted(page, signature);
        }
    }
}
