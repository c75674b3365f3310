//! Integers in memory, as narrow as they allow.
//!
//! ```text
//! rows      1 2    3 70000    5 6    7 8
//! packed    1 2    3 *                       16 bits each, and 70000 beside them
//! tail                        5 6    7 8     32 bits each, until they are many
//! ```

ghost use Rattle.std.specs.Prelude.{◌≡◌, ◌<◌, ◌≤◌, ◌+◌, ◌-◌, ◌*◌, [], ◌++◌, length, get_or, take};
ghost use Rattle.std.specs.Prelude.{drop, pos, vec_len, vec_capacity, OnErr, OnOk, IfSome, All};
ghost use Rattle.std.specs.Prelude.{true};
ghost use Rattle.lb_traces.specs.Packed.{numbers_in, AreTogether};

use crate::narrow_numbers::{ELSEWHERE, NarrowNumbers, are_integers};
use crate::neighbours::are_neighbours;
use crate::row_columns::cell_in;
use std::alloc::{AllocError, Global};
use std::marker::Model;

/// How many integers are packed at once, about.
const BLOCK: usize = 4096;

/// So many integers that do not fit are no reason to stop packing: a few traces may be full of them.
const BURST: usize = 4096;

/// A list of integers, to which rows are added.
///
/// Contracts see the integers, and for how many more there is room.
#[derive(Drop)]
pub(crate) struct Numbers {
    /// The first integers, most of them in 16 bits each.
    packed: NarrowNumbers,
    /// The others, in 32 bits each.
    tail: Vec<i32>,
    /// The tail is packed once it is long, as long as at most one integer in this many does not
    /// fit; 0 where none is packed.
    one_in: usize,
    /// Whether that was so for all integers so far.
    packs: bool,
}

impl Model for Numbers {
    ghost use Rattle.std.specs.Prelude.{◌-◌, ◌++◌, vec_len, vec_capacity};
    ghost use Rattle.lb_traces.specs.Narrow.{Integers};

    ghost Value = { Integers };

    ghost view = { λ n. record {
      items = n.packed.items ++ n.tail.items;
      room = vec_capacity n.tail - vec_len n.tail;
    } };
}

/// How the integers of a row are held.
#[derive(Drop)]
pub(crate) enum RowCells<'a> {
    /// In 16 bits each: their cells, and all integers with the place of the first one.
    Narrow(&'a [i16], &'a NarrowNumbers, usize),
    Wide(&'a [i32]),
    /// Partly in the one way and partly in the other: all integers, and the place of the first one
    /// and their number.
    Mixed(&'a Numbers, usize, usize),
}

/// The integers of a row.
///
/// Contracts see a list of integers.
#[derive(Drop)]
pub struct NumberRow<'a> {
    cells: RowCells<'a>,
}

impl<'a> Model for NumberRow<'a> {
    ghost use Rattle.std.specs.Prelude.{List, ℤ};

    ghost Value = { List ℤ };

    ghost use Rattle.lb_traces.specs.NumberRows.{row_items, IsRowHeld};

    ghost view = { λ r. row_items r.cells };

    ghost invariant = { λ r. IsRowHeld r.cells };
}

// An integer of which the cell tells nothing.
#[cold]
#[inline(never)]
fn elsewhere(numbers: &NarrowNumbers, i: usize) -> i32
    requires { i < length numbers.now.items }
    ensures { result ≡ get_or numbers.now.items i (pos 0) }
{
    numbers.get(i)
}

impl<'a> NumberRow<'a> {
    /// The integers of the row as they stand in memory, if they have 32 bits each there.
    #[inline]
    pub fn wide(&self) -> Option<&'a [i32]>
        ensures { IfSome result (λ cells. cells.now ≡ self.now) }
    {
        match &self.cells {
            RowCells::Wide(cells) => Some(*cells),
            _ => None,
        }
    }

    /// The integers of the row as they stand in memory, if they have 16 bits each there.
    #[inline]
    pub fn narrow(&self) -> Option<&'a [i16]>
        ensures { IfSome result (λ cells. cells.now ≡ self.now) }
    {
        match &self.cells {
            RowCells::Narrow(cells, _, _) if are_integers(*cells) => Some(*cells),
            _ => None,
        }
    }

    /// The integer at a place of the row.
    #[inline]
    pub fn get(&self, w: usize) -> i32
        requires { w < length self.now }
        ensures { result ≡ get_or self.now w (pos 0) }
    {
        match &self.cells {
            RowCells::Narrow(cells, numbers, start) => {
                let cell = cells[w];
                if cell > ELSEWHERE {
                    i32::from(cell)
                } else {
                    elsewhere(numbers, *start + w)
                }
            }
            RowCells::Wide(cells) => cells[w],
            RowCells::Mixed(numbers, start, _) => numbers.get(*start + w),
        }
    }
}

// Adds the integers of the first columns of a row, which stand side by side.
#[inline]
fn push_together(numbers: &mut Vec<i32>, row: &[i32], columns: &[u32], together: usize)
    requires room { vec_len numbers.old + length columns.now ≤ vec_capacity numbers.old }
    requires columns { All (λ j. j < length row.now) columns.now }
    requires together { AreTogether columns.now together }
    ensures items { numbers.new.items
        ≡ numbers.old.items ++ numbers_in row.now (take together columns.now) }
    ensures room { vec_len numbers.new + (length columns.now - together)
        ≤ vec_capacity numbers.new }
{
    if together == 0 {
        return;
    }
    let start = columns[0] as usize;
    let _ = numbers.extend_from_slice(&row[start..start + together]);
}

// Adds the integers of one more row, for which there is room.
fn push_numbers(numbers: &mut Vec<i32>, row: &[i32], columns: &[u32], together: usize)
    requires room { vec_len numbers.old + length columns.now ≤ vec_capacity numbers.old }
    requires columns { All (λ j. j < length row.now) columns.now }
    requires together { AreTogether columns.now together }
    ensures { numbers.new.items ≡ numbers.old.items ++ numbers_in row.now columns.now }
{
    push_together(numbers, row, columns, together);
    let mut w = together;
    while w < columns.len() {
        if columns.len() - w >= 16 && are_neighbours(columns, w) {
            let start = columns[w] as usize;
            let _ = numbers.extend_from_slice(&row[start..start + 16]);
            w += 16;
        } else {
            numbers.push_reserved(cell_in(row, columns, w));
            w += 1;
        }
    }
}

impl Numbers {
    /// No integers; they will have 32 bits each.
    pub(crate) fn new(alloc: Global) -> Numbers
        ensures { result.items ≡ [] }
    {
        Numbers {
            packed: NarrowNumbers::new(alloc),
            tail: Vec::new(alloc),
            one_in: 0,
            packs: false,
        }
    }

    /// Says that integers are packed from now on, as long as at most one in `one_in` does not fit;
    /// with 0 none is packed. It changes no integer.
    pub(crate) fn set_packing(&mut self, one_in: usize)
        ensures { self.new ≡ self.old }
    {
        self.one_in = one_in;
        self.packs = one_in > 0;
    }

    /// How many bytes the integers take.
    pub(crate) fn bytes(&self) -> usize
        requires { length self.now.items ≤ 4294967296 }
        ensures { result ≤ 10 * length self.now.items }
    {
        self.packed.bytes() + 4 * self.tail.len()
    }

    /// The integer at a place.
    #[inline]
    pub(crate) fn get(&self, i: usize) -> i32
        requires { i < length self.now.items }
        ensures { result ≡ get_or self.now.items i (pos 0) }
    {
        let packed = self.packed.len();
        if i < packed {
            self.packed.get(i)
        } else {
            self.tail[i - packed]
        }
    }

    /// The `count` integers from place `start` on.
    #[inline]
    pub(crate) fn row(&self, start: usize, count: usize) -> NumberRow<'_>
        requires within { start + count ≤ length self.now.items }
        requires few { start + count ≤ 4294967296 }
        ensures { result ≡ take count (drop start self.now.items) }
    {
        let packed = self.packed.len();
        if packed <= start {
            let first = start - packed;
            return NumberRow {
                cells: RowCells::Wide(&self.tail.as_slice()[first..first + count]),
            };
        }
        if start + count <= packed {
            let cells = self.packed.cells(start, count);
            return NumberRow {
                cells: RowCells::Narrow(cells, &self.packed, start),
            };
        }
        NumberRow {
            cells: RowCells::Mixed(self, start, count),
        }
    }

    /// Makes room for `count` more integers, if most of them fit.
    pub(crate) fn reserve(&mut self, count: usize) -> Result<(), AllocError>
        ensures { self.new.items ≡ self.old.items }
    {
        if self.packs {
            self.packed.reserve_cells(count)
        } else {
            self.tail.reserve(count)
        }
    }

    // Packs the tail. Where memory is refused, the integers stay as they were.
    fn pack(&mut self) -> Result<(), AllocError>
        requires { length self.old.items ≤ 4294967296 }
        ensures { self.new.items ≡ self.old.items }
    {
        self.packed.reserve(self.tail.len())?;
        self.packed.push_all(self.tail.as_slice());
        self.tail.clear();
        Ok(())
    }

    // Whether the tail is long enough to be packed.
    fn is_long(&self) -> bool {
        self.packs && self.tail.len() >= BLOCK
    }

    // Whether there is room for `count` more integers.
    fn has_room(&self, count: usize) -> bool
        ensures { result ≡ true → count ≤ self.now.room }
    {
        self.tail.capacity() - self.tail.len() >= count
    }

    // Whether more than one packed integer in `one_in` does not fit. Behind the first block a burst
    // is left out.
    fn is_crowded(&self) -> bool {
        let all = self.packed.len();
        let burst = if all < 2 * BLOCK { 0 } else { BURST };
        let large = self.packed.large().saturating_sub(burst);
        large.saturating_mul(self.one_in) > all
    }

    // Packs the tail. No more are packed where too many do not fit.
    #[inline(never)]
    fn tidy(&mut self) -> Result<(), AllocError>
        requires { length self.old.items ≤ 4294967296 }
        ensures { self.new.items ≡ self.old.items }
    {
        self.pack()?;
        self.packs = !self.is_crowded();
        Ok(())
    }

    // Makes room for a row of `count` integers.
    fn reserve_row(&mut self, count: usize) -> Result<(), AllocError>
        requires { length self.old.items ≤ 4294967296 }
        ensures ok { OnOk result (count ≤ self.new.room) }
        ensures items { self.new.items ≡ self.old.items }
    {
        if self.is_long() {
            self.tidy()?;
        }
        self.tail.reserve(count)
    }

    /// Makes room for one more row of `count` integers. It takes few steps where there is room.
    #[inline]
    pub(crate) fn reserve_next(&mut self, count: usize) -> Result<(), AllocError>
        requires { length self.old.items ≤ 4294967296 }
        ensures ok { OnOk result (count ≤ self.new.room) }
        ensures items { self.new.items ≡ self.old.items }
    {
        if self.has_room(count) && !self.is_long() {
            return Ok(());
        }
        self.reserve_row(count)
    }

    /// Adds the integers of one more row, for which there is room. The first `together` columns
    /// stand side by side.
    pub(crate) fn push_row(&mut self, row: &[i32], columns: &[u32], together: usize)
        requires room { length columns.now ≤ self.old.room }
        requires columns { All (λ j. j < length row.now) columns.now }
        requires together { AreTogether columns.now together }
        ensures { self.new.items ≡ self.old.items ++ numbers_in row.now columns.now }
    {
        push_numbers(&mut self.tail, row, columns, together);
    }

    /// Adds integers, for which there is room.
    pub(crate) fn push_all(&mut self, numbers: &[i32])
        requires { length numbers.now ≤ self.old.room }
        ensures { self.new.items ≡ self.old.items ++ numbers.now }
    {
        let _ = self.tail.extend_from_slice(numbers);
    }

    // Adds the integers of another list from `start` to before `end`, one by one.
    fn extend_each(&mut self, from: &Numbers, start: usize, end: usize) -> Result<(), AllocError>
        requires order { start ≤ end }
        requires within { end ≤ length from.now.items }
        ensures ok { OnOk result (self.new.items
            ≡ self.old.items ++ take (end - start) (drop start from.now.items)) }
        ensures err { OnErr result (self.new.items ≡ self.old.items) }
    {
        self.tail.reserve(end - start)?;
        for i in start..end {
            self.tail.push_reserved(from.get(i));
        }
        Ok(())
    }

    /// Adds the integers of another list from `start` to before `end`. Where memory is refused, the
    /// integers stay as they were.
    pub(crate) fn extend(
        &mut self,
        from: &Numbers,
        start: usize,
        end: usize,
    ) -> Result<(), AllocError>
        requires order { start ≤ end }
        requires within { end ≤ length from.now.items }
        ensures ok { OnOk result (self.new.items
            ≡ self.old.items ++ take (end - start) (drop start from.now.items)) }
        ensures err { OnErr result (self.new.items ≡ self.old.items) }
    {
        let packed = from.packed.len();
        if start < packed {
            return self.extend_each(from, start, end);
        }
        let more = &from.tail.as_slice()[start - packed..end - packed];
        self.tail.extend_from_slice(more)?;
        Ok(())
    }

    /// Drops all integers, and keeps their memory for others.
    pub(crate) fn clear(&mut self)
        ensures { self.new.items ≡ [] }
    {
        self.packs = self.one_in > 0;
        self.packed.clear();
        self.tail.clear();
    }
}
