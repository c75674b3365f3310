//! E7 and E12: nodes that call themselves, and instances that are too many or too deeply nested.

use crate::excerpt::{put_bytes, put_place};
use crate::marking::{put_marked, put_note, token_spot, word_of};
use crate::page::Page;
use crate::paths::put_path;
use lb_places::Text;
use lb_static::{CallCycle, CycleCall, Limit, LimitFault};

/// The most calls that are shown.
const MOST: usize = 8;

/// Puts that a node calls another.
fn put_call(page: &mut Page, text: &Text<'_>, call: &CycleCall) {
    page.put_in("", call.node.as_str(), " calls ");
    put_bytes(page, word_of(text, call.offset));
    page.put("\n");
}

/// Puts the calls of a cycle after the first one.
fn put_calls(page: &mut Page, text: &Text<'_>, cycle: &CallCycle) {
    for (place, call) in cycle.calls.iter().enumerate() {
        if place > 0 && place < MOST {
            put_note(page, text, call.offset);
            put_call(page, text, call);
        }
    }
    let more = cycle.calls.len().saturating_sub(MOST);
    if more > 0 {
        page.put_number_in("and ", more as u64, " calls more\n");
    }
}

/// Explains E7.
pub fn explain_cycle_of_calls(page: &mut Page, text: &Text<'_>, cycle: &CallCycle) {
    if let Some(first) = cycle.calls.first() {
        page.put_in("node ", first.node.as_str(), " reaches itself: ");
        put_call(page, text, first);
        put_marked(page, text, first.offset);
        put_calls(page, text, cycle);
    }
}

/// Explains E12 for instances.
pub fn explain_instances(page: &mut Page, text: &Text<'_>, fault: &LimitFault) {
    let offset = match fault.path.steps.last() {
        Some(step) => step.offset,
        None => 0,
    };
    put_place(page, text, &token_spot(text, offset), "error");
    page.put(match fault.limit {
        Limit::Instances => "this is instance 4097; at most 4096 are built\n",
        Limit::Levels => "this instance is at level 65; at most 64 are built\n",
    });
    put_marked(page, text, offset);
    put_path(page, text, &fault.path);
}
