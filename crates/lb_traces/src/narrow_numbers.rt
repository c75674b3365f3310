//! Integers of which most fit 16 bits.
//!
//! ```text
//! integers   5  -7  70000  -32768  9      cells    5 -7 * * 9     `*` is -32768
//!                                         places   2 3            of those that stand elsewhere
//!                                         values   70000 -32768
//! ```

ghost use Rattle.std.specs.Prelude.{◌≡◌, ℕ, ◌<◌, ◌≤◌, ◌+◌, ◌*◌, [], ◌∷◌, ◌++◌, length, get_or};
ghost use Rattle.std.specs.Prelude.{true, false, pos, negsuc, int_le, OnOk};
ghost use Rattle.lb_traces.specs.Narrow.{value_at, AreCells, IsTold};

use std::alloc::{AllocError, Global};
use std::marker::Model;

/// The cell of an integer that stands elsewhere.
pub(crate) const ELSEWHERE: i16 = -32768;

/// How many integers are looked at together.
const CHUNK: usize = 64;

/// Integers, most of which take 16 bits.
///
/// Contracts see the integers, and for how many more there is room.
#[derive(Drop)]
pub(crate) struct NarrowNumbers {
    /// The integers, or `ELSEWHERE` where they do not fit or are this very integer.
    cells: Vec<i16>,
    /// The places of those that stand elsewhere, ascending.
    places: Vec<u32>,
    /// What stands at these places.
    values: Vec<i32>,
}

impl Model for NarrowNumbers {
    ghost use Rattle.std.specs.Prelude.{◌-◌, min, vec_len, vec_capacity};
    ghost use Rattle.lb_traces.specs.Narrow.{Integers, integers_of, IsNarrow};

    ghost Value = { Integers };

    ghost view = { λ n. record {
      items = integers_of n.cells.items n.places.items n.values.items;
      room = min (vec_capacity n.cells - vec_len n.cells)
          (min (vec_capacity n.places - vec_len n.places)
          (vec_capacity n.values - vec_len n.values));
    } };

    ghost invariant = { λ n. IsNarrow n.cells.items n.places.items n.values.items };
}

// Whether an integer fits 16 bits, and is not the least of them.
fn is_told(number: i32) -> bool
    ensures { result ≡ true → IsTold number }
{
    number > -32768 && number <= 32767
}

// What stands at a place elsewhere, or 0.
#[cold]
#[inline(never)]
fn elsewhere(places: &[u32], values: &[i32], place: u32) -> i32
    requires paired { length places.now ≡ length values.now }
    requires ascend { (i j : ℕ) → i < j → j < length places.now
        → get_or places.now i 0 < get_or places.now j 0 }
    ensures { result ≡ value_at places.now values.now place }
{
    match places.binary_search(&place) {
        Ok(k) => values[k],
        Err(_) => 0,
    }
}

// Whether cells tell all these integers.
fn are_told(numbers: &[i32]) -> bool
    ensures { result ≡ true → (i : ℕ) → i < length numbers.now
        → IsTold (get_or numbers.now i (pos 0)) }
{
    let mut all = true;
    for number in numbers {
        all = is_told(*number) && all;
    }
    all
}

/// Whether each of some cells is an integer itself, and none tells that it stands elsewhere.
pub(crate) fn are_integers(cells: &[i16]) -> bool
    ensures { result ≡ true → (w : ℕ) → w < length cells.now
        → int_le (get_or cells.now w (pos 0)) (negsuc 32767) ≡ false }
{
    let mut all = true;
    for cell in cells {
        all = *cell > ELSEWHERE && all;
    }
    all
}

// The cells of at most 64 integers, and 0 behind them.
fn cells_of(numbers: &[i32]) -> [i16; CHUNK]
    requires few { length numbers.now ≤ 64 }
    requires told { (i : ℕ) → i < length numbers.now → IsTold (get_or numbers.now i (pos 0)) }
    ensures { (i : ℕ) → i < length numbers.now
        → get_or result i (pos 0) ≡ get_or numbers.now i (pos 0) }
{
    let mut cells = [0i16; CHUNK];
    for i in 0..numbers.len() {
        cells[i] = numbers[i] as i16;
    }
    cells
}

impl NarrowNumbers {
    /// No integers.
    pub(crate) fn new(alloc: Global) -> NarrowNumbers
        ensures { result.items ≡ [] }
    {
        NarrowNumbers {
            cells: Vec::new(alloc),
            places: Vec::new(alloc),
            values: Vec::new(alloc),
        }
    }

    /// The number of integers.
    #[inline]
    pub(crate) fn len(&self) -> usize
        ensures count { result ≡ length self.now.items }
        ensures limit { result ≤ 4294967296 }
    {
        self.cells.len()
    }

    /// How many bytes the integers take.
    pub(crate) fn bytes(&self) -> usize
        ensures { result ≤ 10 * length self.now.items }
    {
        2 * self.cells.len() + 8 * self.places.len()
    }

    /// How many integers stand elsewhere.
    pub(crate) fn large(&self) -> usize {
        self.places.len()
    }

    /// The integer at a place.
    #[inline]
    pub(crate) fn get(&self, i: usize) -> i32
        requires { i < length self.now.items }
        ensures { result ≡ get_or self.now.items i (pos 0) }
    {
        let cell = self.cells[i];
        if cell > ELSEWHERE {
            i32::from(cell)
        } else {
            elsewhere(&self.places, &self.values, i as u32)
        }
    }

    /// The cells of `count` integers from place `start` on: each is the integer itself, or the
    /// least of 16 bits.
    #[inline]
    pub(crate) fn cells(&self, start: usize, count: usize) -> &[i16]
        requires { start + count ≤ length self.now.items }
        ensures cells { AreCells result.now self.now.items start }
        ensures count { length result.now ≡ count }
    {
        &self.cells.as_slice()[start..start + count]
    }

    /// Makes room for the cells of `count` more integers.
    pub(crate) fn reserve_cells(&mut self, count: usize) -> Result<(), AllocError>
        ensures { self.new.items ≡ self.old.items }
    {
        self.cells.reserve(count)
    }

    /// Makes room for `count` more integers, wherever they stand.
    pub(crate) fn reserve(&mut self, count: usize) -> Result<(), AllocError>
        ensures ok { OnOk result (count ≤ self.new.room) }
        ensures items { self.new.items ≡ self.old.items }
    {
        self.places.reserve(count)?;
        self.values.reserve(count)?;
        self.cells.reserve(count)
    }

    // Adds an integer, for which there is room.
    fn push(&mut self, number: i32)
        requires room { 0 < self.old.room }
        requires few { length self.old.items < 4294967296 }
        ensures items { self.new.items ≡ self.old.items ++ number ∷ [] }
        ensures room { self.old.room ≤ self.new.room + 1 }
    {
        if is_told(number) {
            self.cells.push_reserved(number as i16);
        } else {
            self.places.push_reserved(self.cells.len() as u32);
            self.values.push_reserved(number);
            self.cells.push_reserved(ELSEWHERE);
        }
    }

    // Adds at most 64 integers that cells tell, for which there is room.
    fn push_cells(&mut self, numbers: &[i32])
        requires count { length numbers.now ≤ 64 }
        requires told { (i : ℕ) → i < length numbers.now → IsTold (get_or numbers.now i (pos 0)) }
        requires room { length numbers.now ≤ self.old.room }
        requires few { length self.old.items + length numbers.now ≤ 4294967296 }
        ensures items { self.new.items ≡ self.old.items ++ numbers.now }
        ensures room { self.old.room ≤ self.new.room + length numbers.now }
    {
        let cells = cells_of(numbers);
        let _ = self.cells.extend_from_slice(&cells[..numbers.len()]);
    }

    // Adds at most 64 integers, for which there is room.
    fn push_chunk(&mut self, numbers: &[i32])
        requires count { length numbers.now ≤ 64 }
        requires room { length numbers.now ≤ self.old.room }
        requires few { length self.old.items + length numbers.now ≤ 4294967296 }
        ensures items { self.new.items ≡ self.old.items ++ numbers.now }
        ensures room { self.old.room ≤ self.new.room + length numbers.now }
    {
        if are_told(numbers) {
            self.push_cells(numbers);
            return;
        }
        for number in numbers {
            self.push(*number);
        }
    }

    /// Adds integers, for which there is room.
    pub(crate) fn push_all(&mut self, numbers: &[i32])
        requires room { length numbers.now ≤ self.old.room }
        requires few { length self.old.items + length numbers.now ≤ 4294967296 }
        ensures { self.new.items ≡ self.old.items ++ numbers.now }
    {
        let mut done = 0;
        while done < numbers.len() {
            let count = (numbers.len() - done).min(CHUNK);
            self.push_chunk(&numbers[done..done + count]);
            done += count;
        }
    }

    /// Drops all integers, and keeps their memory for others.
    pub(crate) fn clear(&mut self)
        ensures { self.new.items ≡ [] }
    {
        self.cells.clear();
        self.places.clear();
        self.values.clear();
    }
}
