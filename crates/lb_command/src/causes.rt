//! Explanations of refusals that are not of the texts: of an input or the output that failed, of a
//! name that nothing has, and of reports.

use crate::refusal::{Unknown, Unread};
use std::alloc::{AllocError, Global};

/// Lines that begin with `lbench: error: `.
fn page_of(alloc: Global) -> Result<String, AllocError> {
    String::from_str(alloc, "lbench: error: ")
}

/// Explains E20 where nothing has a name that is asked for.
pub fn explain_name(alloc: Global, unknown: &Unknown) -> Result<Vec<u8>, AllocError> {
    let name = unknown.name.as_str();
    let mut page = page_of(alloc)?;
    if unknown.is_trace {
        write!(page, "no trace is named `{name}`\n")?;
        page.push_str("help: the report has the names of all traces\n")?;
    } else if name.is_empty() {
        page.push_str("a name in the list of `--vars` is empty\n")?;
    } else {
        write!(page, "no variable is named `{name}`\n")?;
        page.push_str("help: `--format csv --all --last 1` prints the names of all variables\n")?;
    }
    page.as_bytes().to_vec(alloc)
}

/// Explains E19: how much of the output went out.
pub fn explain_output(
    alloc: Global,
    sent: usize,
    all: Option<usize>,
) -> Result<Vec<u8>, AllocError> {
    let mut page = page_of(alloc)?;
    match all {
        Some(all) => write!(page, "the output failed after {sent} of {all} bytes")?,
        None => write!(page, "the output failed after {sent} bytes")?,
    }
    page.push_str("; what went out is not the whole report\n")?;
    page.as_bytes().to_vec(alloc)
}

/// Explains E20 of a file that is no report: its path, and the first line that shows it.
pub fn explain_no_report(alloc: Global, path: &str, line: usize) -> Result<Vec<u8>, AllocError> {
    let mut page = String::from_str(alloc, path)?;
    write!(
        page,
        ":{line}:1: error: a report can not have this line here\n"
    )?;
    page.push_str(
        "help: a report has a line for each trace, no trace twice, and ends with a line ",
    )?;
    page.push_str("that counts them all\n")?;
    page.as_bytes().to_vec(alloc)
}

/// Explains E17 of a report that is merged: its path, and the line of the trace.
pub fn explain_twice(alloc: Global, path: &str, line: usize) -> Result<Vec<u8>, AllocError> {
    let mut page = String::from_str(alloc, path)?;
    write!(
        page,
        ":{line}:1: error: this trace is in an earlier report too\n"
    )?;
    page.as_bytes().to_vec(alloc)
}

/// Explains E21: the path of the file that can not be read, and the system's cause.
pub fn explain_input(alloc: Global, unread: Option<&Unread>) -> Result<Vec<u8>, AllocError> {
    let mut page = page_of(alloc)?;
    match unread {
        Some(Unread { path, why }) => {
            let (path, why) = (path.as_str(), why.as_str());
            write!(page, "`{path}` can not be read: {why}\n")?;
        }
        None => {
            page.push_str("an input can not be read: a read failed, or it is longer than ")?;
            page.push_str("1100000000 bytes\n")?;
        }
    }
    page.as_bytes().to_vec(alloc)
}
