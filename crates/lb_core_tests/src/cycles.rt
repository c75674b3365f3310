//! The cycles of elements by which `order` refuses a program.
//!
//! Elements are numbered as variables are declared, those of arrays one after the other. Each of a
//! cycle needs the next one at the same instant, and the last one the first.

use lb_expand::expand;
use lb_flat::{ElementId, OrderError, order};
use lb_syntax::parse;
use lb_test_support::cases::checked_of;
use lb_test_support::texts::Said;
use std::alloc::Global;

// The cycle of a source; none if it has an order or is refused sooner.
fn cycle_of(alloc: Global, source: &str) -> Option<Vec<ElementId>> {
    let tree = parse(alloc, source.as_bytes()).ok()?;
    let checked = checked_of(alloc, &tree, "")?;
    match order(alloc, expand(alloc, &checked).ok()?) {
        Err(OrderError::Cycle(cycle)) => Some(Box::into_inner(cycle).elements),
        _ => None,
    }
}

/// The place of the least number of a cycle.
pub fn least_of(cycle: &[ElementId]) -> usize {
    let mut least = 0;
    for (k, element) in cycle.iter().enumerate() {
        if cycle.get(least).is_some_and(|other| element.0 < other.0) {
            least = k;
        }
    }
    least
}

// A cycle from its least number on.
fn push_cycle(cycle: &[ElementId], said: &mut Said) {
    let least = least_of(cycle);
    said.push_str("cycle");
    for element in cycle.iter().skip(least).chain(cycle.iter().take(least)) {
        write!(said, " {}", element.0);
    }
}

/// The cycle of a source.
pub fn push_answer(alloc: Global, asked: &str, said: &mut Said) {
    match &cycle_of(alloc, asked) {
        Some(cycle) => push_cycle(cycle.as_slice(), said),
        None => said.push_str("no cycle"),
    }
}

// Sources, and the numbers of the elements of their cycles. The input and the output come first.
pub const CYCLES: &str = "\
node main(c: bool) returns (ok: bool); var x: int; let x = x; ok = c; tel => cycle 2
node main(c: bool) returns (ok: bool); let ok = not ok; tel => cycle 1
node main(c: bool) returns (ok: bool); var x, y: int; let x = y; y = x; ok = c; tel => cycle 2 3
node main(c: bool) returns (ok: bool); var z, y, x: int; \
let x = y + 1; y = z; z = if c then x else 0; ok = c; tel => cycle 2 4 3
node main(c: bool) returns (ok: bool); var a: int^3; \
let a = [1, a[2], a[1]]; ok = c; tel => cycle 3 4
node main(c: bool) returns (ok: bool); var x: int; let x = 0 -> pre x; ok = c; tel => no cycle";
