//! The reasons why the traces of a report do not pass.

ghost use Rattle.std.specs.Prelude.{◌≤◌, length};

use crate::site::Subject;
use crate::told::{Recorded, put_reason};
use lb_check::Checked;
use lb_flat::Ordered;
use lb_show::{Lines, Page, signals_of};
use lb_traces::TraceSet;
use std::alloc::{AllocError, Global};

/// A program and recorded traces of it, with the source text of the program.
#[derive(Clone, Copy)]
pub struct Explained<'a, 's> {
    /// The name of the file.
    pub file: &'a str,
    pub source: &'a [u8],
    pub checked: &'a Checked<'s>,
    pub ordered: &'a Ordered,
    pub set: &'a TraceSet,
}

/// The reasons why the traces with these numbers do not pass. Each has a line with its name, its
/// verdict and what decides that; where the property or an assertion is false, the steps behind it
/// follow.
pub fn explain_traces(
    alloc: Global,
    explained: Explained<'_, '_>,
    numbers: &[u32],
) -> Result<Vec<u8>, AllocError> {
    let Explained {
        file,
        source,
        checked,
        ordered,
        set,
    } = explained;
    let lines = Lines::of(alloc, source)?;
    let signals = signals_of(alloc, source, checked.elab())?;
    let subject = Subject {
        file,
        source,
        lines: &lines,
        checked,
        elab: checked.elab(),
        program: &ordered.program,
        signals: &signals,
    };
    let mut page = Page::of(Vec::new(alloc));
    for k in numbers {
        if *k < set.len() {
            let recorded = Recorded {
                ordered,
                set,
                k: *k,
            };
            let put = put_reason(alloc, &mut page, subject, recorded);
            page.cut_if(put.is_err());
        }
    }
    page.whole()
}
