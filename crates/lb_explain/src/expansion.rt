//! E12: a program that is too large after its expansion.

use crate::counts::put_count;
use crate::declared::node_named;
use crate::excerpt::{put_excerpt, put_place};
use crate::page::Page;
use crate::texts::{Stretch, spot};
use lb_expand::SizeFault;
use lb_places::Text;

/// The place of the name of a node, or else the start of the text.
fn node_spot(text: &Text<'_>, node: &str) -> Stretch {
    match node_named(text.bytes, node.as_bytes()) {
        Some(end) => spot(text, end.saturating_sub(node.len()), end),
        None => spot(text, 0, 0),
    }
}

/// Puts how large a program is.
fn put_size(page: &mut Page, fault: &SizeFault) {
    page.put(if fault.is_least {
        "expanded, the program has at least "
    } else {
        "expanded, the program has "
    });
    put_count(page, fault.size as usize, "scalar element");
    page.put_number_in("; at most ", u64::from(fault.limit), " are run\n");
}

/// Explains E12 for the size of the program of a node under test.
pub fn explain_large(page: &mut Page, text: &Text<'_>, node: &str, fault: &SizeFault) {
    let place = node_spot(text, node);
    put_place(page, text, &place, "error");
    put_size(page, fault);
    put_excerpt(page, text, &place);
    page.put("help: each instance counts each variable and each expression, with all elements\n");
}
