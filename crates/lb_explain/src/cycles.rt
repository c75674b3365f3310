//! E13: elements that need themselves at the same instant.

use crate::marking::{put_marked, token_spot};
use crate::page::Page;
use crate::paths::put_path;
use lb_flat::{Cycle, CyclePlace};
use lb_places::Text;

/// The most elements that are shown, and the number of them in one line.
const MOST: usize = 27;

const IN_LINE: usize = 3;

/// The words between element `place` of a cycle and the element before it.
fn joint(place: usize) -> &'static str {
    match place {
        0 => "",
        1 => " needs ",
        _ if place % IN_LINE == 0 => ",\nwhich needs ",
        _ => ", which needs ",
    }
}

/// Puts an element and its place, as `x (12:3)`.
fn put_element(page: &mut Page, text: &Text<'_>, element: &CyclePlace) {
    let place = token_spot(text, element.offset);
    page.put(element.name.as_str());
    page.put_number_in(" (", place.line, ":");
    page.put_number_in("", place.column as u64, ")");
}

/// Puts that the last element needs the first, or how many elements are not shown.
fn put_closing(page: &mut Page, cycle: &Cycle, first: &str) {
    let more = cycle.places.len().saturating_sub(MOST);
    if more > 0 {
        page.put_number_in(",\nand so on over ", more as u64, " more to ");
    } else {
        page.put(joint(cycle.places.len()));
    }
    page.put_in("", first, "\n");
}

/// Puts each element with what it needs, as `x (12:3) needs y (13:3), which needs x`.
fn put_elements(page: &mut Page, text: &Text<'_>, cycle: &Cycle, first: &str) {
    for (place, element) in cycle.places.iter().enumerate() {
        if place < MOST {
            page.put(joint(place));
            put_element(page, text, element);
        }
    }
    put_closing(page, cycle, first);
}

/// Explains E13.
pub fn explain_cycle(page: &mut Page, text: &Text<'_>, cycle: &Cycle) {
    let Some(first) = cycle.places.first() else {
        return;
    };
    let name = first.name.as_str();
    page.put_in("`", name, "` needs itself at the same instant\n");
    put_marked(page, text, first.offset);
    put_elements(page, text, cycle, name);
    page.put("help: `pre` or `fby` takes a value of the instant before\n");
    if let Some(path) = cycle.instances.get(first.instance) {
        put_path(page, text, path);
    }
}
