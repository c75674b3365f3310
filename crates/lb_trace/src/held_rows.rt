//! The row of a record as it is held in memory: its integers one after the other, and its Booleans
//! as the bits of a word.
//!
//! ```text
//! columns   x: int  b: bool  y: int  c: bool
//! record    7,1,-2,1
//! numbers   7 -2                              x and y
//! bits      11                                b is the lowest bit
//! ```
//!
//! Where a record does not fit, because a cell is long or spelled out, nothing is said of it, and it
//! is read cell by cell.

ghost use Rattle.std.specs.Prelude.{◌≡◌, ◌<◌, ◌≤◌, ◌+◌, IfOk, IfSome, drop, length, take};
ghost use Rattle.lb_trace.specs.Groups.{AllGroups, AreBooleans};
ghost use Rattle.lb_trace.specs.HeldLines.{IsFront, IsHeldLine};
ghost use Rattle.lb_trace.specs.Numbers.{AreIntegers};

use crate::groups::Group;
use crate::header::Column;
use crate::numbers::{four_in, last_numbers};
use crate::row_cells::{make_long, put_four};
use crate::table::ColumnTable;
use crate::truth_bits::inner_bits;
use lb_syntax::Kind;
use std::alloc::AllocError;

/// The Booleans of a record as bits, how many integers it has, and the place behind it.
#[derive(Clone, Copy)]
pub(crate) struct HeldLine {
    pub(crate) bits: u64,
    pub(crate) count: usize,
    pub(crate) past: usize,
}

// The cells of the first `i` columns of a record: `at` integers, and `truths` Booleans, which are
// the bits of `bits`. `rest` is the text after them.
#[derive(Clone, Copy)]
struct Front<'t> {
    i: usize,
    at: usize,
    truths: usize,
    bits: u64,
    rest: &'t [u8],
}

/// Reads the cells of a record by a table, if its columns are in groups. The integers are written to
/// the first places of `numbers`. None says nothing of the text.
#[inline(always)]
pub(crate) fn read_held(
    table: &ColumnTable,
    text: &[u8],
    numbers: &mut Vec<i32>,
) -> Result<Option<HeldLine>, AllocError>
    requires { IfSome table.now.groups (λ gs. AllGroups gs.items table.now.columns.items) }
    ensures { IfOk result (λ found. IfSome found (λ line.
        (line.count ≤ length numbers.new.items)
        × IsHeldLine table.now.columns.items text.now (take line.count numbers.new.items)
        line.bits line.past)) }
{
    let Some(groups) = &table.groups else {
        return Ok(None);
    };
    make_long(numbers, table.columns.len())?;
    Ok(held_line(groups, &table.columns, text, numbers.as_mut_slice()))
}

// `read_held` by the groups of the columns; `numbers` has a place for each column.
#[inline(never)]
fn held_line(
    groups: &[Group],
    columns: &[Column],
    text: &[u8],
    numbers: &mut [i32],
) -> Option<HeldLine>
    requires groups { AllGroups groups.now columns.now }
    requires room { length numbers.old ≡ length columns.now }
    ensures { IfSome result (λ line. (line.count ≤ length numbers.new)
        × IsHeldLine columns.now text.now (take line.count numbers.new) line.bits line.past) }
{
    let mut front = Front {
        i: 0,
        at: 0,
        truths: 0,
        bits: 0,
        rest: text,
    };
    for j in 0..groups.len() {
        match groups[j] {
            Group::Numbers => {
                front = with_numbers(columns, text, front, numbers)?;
                continue;
            }
            Group::Truths(count) => {
                front = with_truths(columns, text, front, count, numbers)?;
            }
        }
    }
    last_parts(columns, text, front, numbers)
}

// Reads the cells of four columns of integers.
#[inline(always)]
fn with_numbers<'t>(
    columns: &[Column],
    text: &[u8],
    front: Front<'t>,
    numbers: &mut [i32],
) -> Option<Front<'t>>
    requires front { IsFront columns.now text.now numbers.old front.i front.at front.truths
        front.bits front.rest.now }
    requires integers { AreIntegers (drop front.i columns.now) }
    requires room { length numbers.old ≡ length columns.now }
    ensures front { IfSome result (λ next. IsFront columns.now text.now numbers.new next.i next.at
        next.truths next.bits next.rest.now) }
    ensures place { IfSome result (λ next. next.i ≡ front.entry.i + 4) }
    ensures room { length numbers.new ≡ length numbers.old }
{
    let four = four_in(front.rest)?;
    let values = four.values;
    put_four(numbers, front.at, values);
    Some(Front {
        i: front.i + 4,
        at: front.at + 4,
        truths: front.truths,
        bits: front.bits,
        rest: four.rest,
    })
}

// Reads the cells of `count` columns of Booleans.
#[inline(always)]
fn with_truths<'t>(
    columns: &[Column],
    text: &[u8],
    front: Front<'t>,
    count: usize,
    numbers: &[i32],
) -> Option<Front<'t>>
    requires front { IsFront columns.now text.now numbers.now front.i front.at front.truths
        front.bits front.rest.now }
    requires some { 0 < count }
    requires few { count ≤ 16 }
    requires within { front.i + count ≤ length columns.now }
    requires booleans { AreBooleans count (drop front.i columns.now) }
    requires room { length numbers.now ≡ length columns.now }
    ensures front { IfSome result (λ next. IsFront columns.now text.now numbers.now next.i next.at
        next.truths next.bits next.rest.now) }
    ensures place { IfSome result (λ next. next.i ≡ front.entry.i + count) }
{
    if front.truths + count > 64 {
        return None;
    }
    let group = inner_bits(front.rest, count)?;
    Some(Front {
        i: front.i + count,
        at: front.at,
        truths: front.truths + count,
        bits: front.bits + (group << front.truths),
        rest: &front.rest[2 * count..],
    })
}

// Reads the last cells of a record, one to four.
#[inline(always)]
fn last_parts(
    columns: &[Column],
    text: &[u8],
    front: Front<'_>,
    numbers: &mut [i32],
) -> Option<HeldLine>
    requires front { IsFront columns.now text.now numbers.old front.i front.at front.truths
        front.bits front.rest.now }
    requires room { length numbers.old ≡ length columns.now }
    ensures { IfSome result (λ line. (line.count ≤ length numbers.new)
        × IsHeldLine columns.now text.now (take line.count numbers.new) line.bits line.past) }
{
    let last = last_numbers(&columns[front.i..], front.rest)?;
    let values = last.values;
    let (mut at, mut truths, mut bits) = (front.at, front.truths, front.bits);
    for k in 0..columns.len() - front.i {
        match columns[front.i + k].kind {
            Kind::Int => {
                numbers[at] = values[k];
                at += 1;
                continue;
            }
            Kind::Bool => {
                if truths >= 64 {
                    return None;
                }
                bits += u64::from(values[k] == 1) << truths;
                truths += 1;
            }
        }
    }
    Some(HeldLine {
        bits,
        count: at,
        past: text.len() - last.rest.len(),
    })
}
