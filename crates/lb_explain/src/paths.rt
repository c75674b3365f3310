//! The path of calls that leads to an instance.

use crate::marking::put_where;
use crate::page::Page;
use lb_places::Text;
use lb_static::{CallPath, CallStep, Start};

/// The most calls that are shown.
const MOST: usize = 4;

/// Puts one call, as `in node pump, called at pump.lus:31:8`.
fn put_step(page: &mut Page, text: &Text<'_>, step: &CallStep) {
    page.put_in("in node ", step.node.as_str(), ", called at ");
    put_where(page, text, step.offset);
    if let Some(index) = step.index {
        page.put_number_in(" for index ", u64::from(index), "");
    }
    page.put("\n");
}

/// Puts the node under test or the observer, to which no call leads.
fn put_start(page: &mut Page, path: &CallPath) {
    let end = match path.start {
        Start::UnderTest => "\n",
        Start::Observer => ", the observer\n",
    };
    page.put_in("in node ", path.node.as_str(), end);
}

/// Puts the path to an instance, the innermost call first.
pub fn put_path(page: &mut Page, text: &Text<'_>, path: &CallPath) {
    if path.steps.is_empty() {
        return put_start(page, path);
    }
    for (place, step) in path.steps.iter().rev().enumerate() {
        if place < MOST {
            put_step(page, text, step);
        }
    }
    let more = path.steps.len().saturating_sub(MOST);
    if more > 0 {
        page.put_number_in("and ", more as u64, " calls above\n");
    }
}
