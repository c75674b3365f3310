//! The columns of a text in groups that are read at once.
//!
//! ```text
//! columns   i i i i i i i i b b b b b i i b        i: of integers, b: of Booleans
//! groups    4...... 4...... 5........              the last columns, three here, are in no group
//! ```

ghost use Rattle.std.specs.Prelude.{◌≡◌, ◌<◌, ◌≤◌, IfOk, IfSome, length};
ghost use Rattle.lb_trace.specs.Groups.{AllGroups, AreBooleans, IsGroup, width_of};

use crate::header::Column;
use crate::numbers::are_integers;
use crate::truths::is_bool;
use std::alloc::{AllocError, Global};

/// Columns that are read at once.
#[derive(Clone, Copy)]
pub(crate) enum Group {
    /// Four columns of integers.
    Numbers,
    /// So many columns of Booleans, 1 to 16.
    Truths(usize),
}

/// The most columns of a group of Booleans.
const MOST_TRUTHS: usize = 16;

// How many of the first columns, at most sixteen, hold Booleans.
fn truths_ahead(columns: &[Column]) -> usize
    ensures few { result ≤ 16 }
    ensures within { result ≤ length columns.now }
    ensures booleans { AreBooleans result columns.now }
{
    let most = columns.len().min(MOST_TRUTHS);
    for i in 0..most {
        if !is_bool(columns[i].kind) {
            return i;
        }
    }
    most
}

// The first group of some columns, behind which at least one is left. None where they have none.
fn next_group(columns: &[Column]) -> Option<Group>
    requires { 4 < length columns.now }
    ensures group { IfSome result (λ g. IsGroup g columns.now) }
    ensures left { IfSome result (λ g. width_of g < length columns.now) }
{
    let truths = truths_ahead(columns).min(columns.len() - 1);
    if truths > 0 {
        return Some(Group::Truths(truths));
    }
    if are_integers(columns) {
        Some(Group::Numbers)
    } else {
        None
    }
}

// How many columns a group has.
fn width(group: Group) -> usize
    ensures { result ≡ width_of group }
{
    match group {
        Group::Numbers => 4,
        Group::Truths(count) => count,
    }
}

/// The groups of some columns, but for the last one to four. None where they are in no groups.
pub(crate) fn groups_of(alloc: Global, columns: &[Column]) -> Result<Option<Vec<Group>>, AllocError>
    ensures { IfOk result (λ found. IfSome found (λ groups. AllGroups groups.items columns.now)) }
{
    let mut groups = Vec::new(alloc);
    let mut done = 0;
    while columns.len() - done > 4 {
        let Some(group) = next_group(&columns[done..]) else {
            return Ok(None);
        };
        groups.push(group)?;
        done += width(group);
    }
    Ok(Some(groups))
}
