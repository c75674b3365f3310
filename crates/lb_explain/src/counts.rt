//! Numbers of things, in words.

use crate::page::Page;

/// Puts a number of things, as `1 cell` or `3 cells`.
pub fn put_count(page: &mut Page, count: usize, thing: &str) {
    page.put_number_in("", count as u64, " ");
    page.put(thing);
    if count != 1 {
        page.put("s");
    }
}

/// Puts a number that is past a limit, as `this name has 70 bytes; at most 64 are read`.
pub fn put_past(page: &mut Page, front: &str, found: u64, what: &str, most: u64) {
    page.put_number_in(front, found, what);
    page.put_number_in("; at most ", most, " are read\n");
}
