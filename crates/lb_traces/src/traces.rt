//! Recorded traces, as flat rows.
//!
//! All integers stand in one list, row after row, so that an instant takes no memory of its own.
//! The Booleans of a row are the bits of words, which stand in a list of their own:
//!
//! ```text
//! trace a: (1, true, 5), (2, false, 6)      names     a b
//! trace b: (7, true, 8)                     numbers   1 5 2 6 7 8
//!                                           words     1 0 1
//!                                           row ends  0 2 3
//! ```

ghost use Rattle.std.specs.Prelude.{◌≡◌, ◌≢◌, ◌==◌, ℕ, ◌<◌, ◌≤◌, ◌+◌, ◌*◌, ◌^◌, ◌||◌, ◌↔◌};
ghost use Rattle.std.specs.Prelude.{IsTrue, false, [], ◌∷◌, ◌++◌, length, get_or, slice_get};
ghost use Rattle.std.specs.Prelude.{◌-◌, set, take, vec_len};
ghost use Rattle.std.specs.Prelude.{vec_capacity, Some, IfOk, OnOk, OnErr, pos, int_le, All};
ghost use Rattle.std.specs.Int.{bit_at};
ghost use Rattle.std.specs.List.{Contains};
ghost use Rattle.lb_static.specs.Signature.{kinds_of};
ghost use Rattle.lb_syntax.specs.declared.tree.Kind.TheVariants.{Int, Bool};
ghost use Rattle.lb_traces.specs.Traces.{trace_at, cell_at, instants_of, trace_names, IsTraceName};
ghost use Rattle.lb_traces.specs.Traces.{IsRow, HasRoom, HasRoomFor, last_rows, with_row};
ghost use Rattle.lb_traces.specs.Traces.{with_trace, with_rows, rows_from, IsRecording, IsInt};
ghost use Rattle.lb_traces.specs.Packed.{truth_columns, number_columns, words_of_row, bit_in};
ghost use Rattle.lb_traces.specs.Packed.{truth_in, numbers_in, numbers_of, row_held, HasPushed};
ghost use Rattle.lb_traces.specs.BitRows.{AreTruths, row_of_bits};
ghost use Rattle.lb_traces.specs.Ledger.{IsLedger, last_place};

use crate::names::Names;
pub use crate::names::is_trace_name;
use crate::neighbours::{are_neighbours, truths_in};
use crate::numbers::{NumberRow, Numbers};
use crate::row_columns::{RowColumns, cell_in, row_columns};
use lb_static::Signature;
use lb_syntax::Kind;
use std::alloc::{AllocError, Global};
use std::marker::Model;

/// Recorded traces and the signature that their rows follow.
///
/// Contracts see the signature and a list of names and rows.
pub struct TraceSet {
    signature: Signature,
    names: Names,
    /// The integers of all rows, one row after the other.
    numbers: Numbers,
    /// The Booleans of all rows as the bits of words, `words_of_row` words for each row.
    words: Vec<u64>,
    /// 0, and for each trace the number of rows up to its end.
    row_ends: Vec<u32>,
    columns: RowColumns,
}

// Not derived, so that a caller drops it in one step.
impl Drop for TraceSet {
    fn drop(self) {
        let TraceSet {
            signature: _,
            names: _,
            numbers: _,
            words: _,
            row_ends: _,
            columns: _,
        } = self;
    }
}

impl Model for TraceSet {
    ghost use Rattle.lb_traces.specs.Traces.{Recording};
    ghost use Rattle.lb_traces.specs.Stored.{stored};
    ghost use Rattle.lb_traces.specs.Packed.{IsSet, cells_of};

    ghost Value = { Recording };

    ghost view = { λ s. stored s.signature s.names
        (cells_of s.signature s.numbers.items s.words.items s.row_ends.items) s.row_ends.items };

    ghost invariant = { λ s. IsSet s.signature s.names s.numbers.items s.words.items
        s.row_ends.items s.columns.integers.items s.columns.truths.items s.columns.places.items };
}

// The number of words that hold this number of Booleans.
fn words_of_row(booleans: usize) -> usize
    ensures { result ≡ words_of_row booleans }
{
    if booleans % 64 == 0 {
        booleans / 64
    } else {
        booleans / 64 + 1
    }
}

// Whether a bit of a word is set.
fn has_bit(word: u64, i: usize) -> bool
    requires { i < 64 }
    ensures { result ≡ (bit_at word i == 1) }
{
    (word >> i) % 2 == 1
}

// The word, with bit `i` set where `b` is true.
fn with_bit(word: u64, i: usize, b: bool) -> u64
    requires { i < 64 }
    ensures here { (bit_at result i == 1) ≡ (b || (bit_at word i == 1)) }
    ensures others { (j : ℕ) → j ≢ i → bit_at result j ≡ bit_at word j }
{
    if b { word | (1u64 << i) } else { word }
}

// Up to 64 Booleans of a row, from number `first` on, as the bits of a word.
fn packed(row: &[i32], columns: &[u32], first: usize) -> u64
    requires first { first ≤ length columns.now }
    requires columns { All (λ j. j < length row.now) columns.now }
    requires ints { All IsInt row.now }
    ensures { (i : ℕ) → i < 64
        → (bit_at result i == 1) ≡ truth_in row.now columns.now (first + i) }
{
    let mut word = 0u64;
    let count = (columns.len() - first).min(64);
    let mut i = 0;
    while i < count {
        if count - i >= 16 && are_neighbours(columns, first + i) {
            let start = columns[first + i] as usize;
            word |= truths_in(&row[start..]) << i;
            i += 16;
        } else {
            let b = cell_in(row, columns, first + i) >= 1;
            word = with_bit(word, i, b);
            i += 1;
        }
    }
    word
}

// Adds the words of one more row, for which there is room.
fn push_words(words: &mut Vec<u64>, row: &[i32], columns: &[u32])
    requires room { vec_len words.old + words_of_row (length columns.now) ≤ vec_capacity words.old }
    requires columns { All (λ j. j < length row.now) columns.now }
    requires ints { All IsInt row.now }
    ensures { HasPushed words.old.items row.now columns.now words.new.items }
{
    for g in 0..words_of_row(columns.len()) {
        words.push_reserved(packed(row, columns, 64 * g));
    }
}

// Adds the word of one more row, for which there is room, if the row has Booleans.
#[inline]
fn push_word(words: &mut Vec<u64>, columns: &[u32], word: u64)
    requires { vec_len words.old + 1 ≤ vec_capacity words.old }
    ensures { words.new.items ≡ words.old.items ++ take (length columns.now) (word ∷ []) }
{
    if columns.len() > 0 {
        words.push_reserved(word);
    }
}

// Counts `added` more rows of the last trace.
#[inline]
fn count_rows(row_ends: &mut Vec<u32>, added: u32)
    requires ledger { IsLedger row_ends.old.items }
    requires room { last_place row_ends.old.items + added ≤ u32.MAX }
    ensures { row_ends.new.items ≡ set row_ends.old.items (length row_ends.old.items - 1)
        (last_place row_ends.old.items + added) }
{
    let last = row_ends.len() - 1;
    row_ends[last] += added;
}

// Tells proofs that a number of 32 bits is an integer.
#[inline]
fn is_int(v: i32)
    ensures { IsInt v }
{}

// Tells proofs that numbers of 32 bits are integers. Compiled, it has no steps.
#[inline]
fn are_ints(numbers: &[i32])
    ensures { All IsInt numbers.now }
{
    for v in numbers {
        is_int(*v);
    }
}

impl TraceSet {
    /// The signature that the rows follow.
    pub fn signature(&self) -> &Signature
        ensures elements { result.now ≡ self.now.signature }
        ensures lawful { IsRecording self.now }
    {
        &self.signature
    }

    /// The number of traces.
    pub fn len(&self) -> u32
        ensures count { result ≡ length self.now.traces }
        ensures limit { result ≤ 1000000 }
    {
        self.names.len()
    }

    /// How many bytes the rows take.
    pub fn bytes(&self) -> usize {
        self.numbers.bytes() + 8 * self.words.len()
    }

    /// The number of instants of all traces together.
    pub fn instants(&self) -> u32
        ensures count { result ≡ instants_of self.now.traces }
        ensures limit { result ≤ 67108864 }
    {
        self.row_ends[self.names.len() as usize]
    }

    /// The name of a trace.
    pub fn name(&self, k: u32) -> &str
        requires { k < length self.now.traces }
        ensures { result.now ≡ (trace_at self.now.traces k).0 }
    {
        self.names.get(k)
    }

    /// The number of instants of a trace, 1 to 1,000,000.
    pub fn length(&self, k: u32) -> u32
        requires { k < length self.now.traces }
        ensures instants { result ≡ length (trace_at self.now.traces k).1 }
        ensures started { 0 < result }
        ensures limit { result ≤ 1000000 }
    {
        self.row_ends[k as usize + 1] - self.row_ends[k as usize]
    }

    /// The integer of a trace at an instant, in a column of the signature.
    pub fn int_at(&self, k: u32, t: u32, column: u32) -> i32
        requires trace { k < length self.now.traces }
        requires instant { t < length (trace_at self.now.traces k).1 }
        requires kind { slice_get (kinds_of self.now.signature) column ≡ Some Int }
        ensures { result ≡ cell_at self.now.traces k t column }
    {
        let row = self.row_ends[k as usize] as usize + t as usize;
        let w = self.columns.places[column as usize] as usize;
        self.numbers.get(row * self.columns.integers.len() + w)
    }

    /// The Boolean of a trace at an instant, in a column of the signature.
    pub fn bool_at(&self, k: u32, t: u32, column: u32) -> bool
        requires trace { k < length self.now.traces }
        requires instant { t < length (trace_at self.now.traces k).1 }
        requires kind { slice_get (kinds_of self.now.signature) column ≡ Some Bool }
        ensures { IsTrue result ↔ (cell_at self.now.traces k t column ≡ pos 1) }
    {
        let row = self.row_ends[k as usize] as usize + t as usize;
        let b = self.columns.places[column as usize] as usize;
        let word = self.words[row * words_of_row(self.columns.truths.len()) + b / 64];
        has_bit(word, b % 64)
    }

    /// The integers of a trace at an instant, in the order of the signature.
    pub fn numbers(&self, k: u32, t: u32) -> NumberRow<'_>
        requires trace { k < length self.now.traces }
        requires instant { t < length (trace_at self.now.traces k).1 }
        ensures count { length result ≡ length (number_columns 0 (kinds_of self.now.signature)) }
        ensures numbers { (w : ℕ) → w < length (number_columns 0 (kinds_of self.now.signature))
            → get_or result w (pos 0) ≡ cell_at self.now.traces k t
            (get_or (number_columns 0 (kinds_of self.now.signature)) w 0) }
    {
        let width = self.columns.integers.len();
        let start = (self.row_ends[k as usize] as usize + t as usize) * width;
        self.numbers.row(start, width)
    }

    /// The Booleans of a trace at `count` instants from `t` on, in the order of the signature, as
    /// the bits of words. Each instant has as many words as its Booleans take: Boolean number b is
    /// bit b % 64 of word b / 64 of its instant. The bits past the last Boolean are 0.
    pub fn bits(&self, k: u32, t: u32, count: u32) -> &[u64]
        requires trace { k < length self.now.traces }
        requires instants { t + count ≤ length (trace_at self.now.traces k).1 }
        ensures words { length result.now
            ≡ count * words_of_row (length (truth_columns 0 (kinds_of self.now.signature))) }
        ensures bits { (d b : ℕ) → d < count
            → b < length (truth_columns 0 (kinds_of self.now.signature))
            → bit_in result.now (64
            * (d * words_of_row (length (truth_columns 0 (kinds_of self.now.signature)))) + b)
            ≡ int_le (pos 1) (cell_at self.now.traces k (t + d)
            (get_or (truth_columns 0 (kinds_of self.now.signature)) b 0)) }
        ensures past { (d b : ℕ) → d < count
            → length (truth_columns 0 (kinds_of self.now.signature)) ≤ b
            → b < 64 * words_of_row (length (truth_columns 0 (kinds_of self.now.signature)))
            → bit_in result.now (64
            * (d * words_of_row (length (truth_columns 0 (kinds_of self.now.signature)))) + b)
            ≡ false }
    {
        let width = words_of_row(self.columns.truths.len());
        let first = self.row_ends[k as usize] as usize + t as usize;
        let past = first + count as usize;
        &self.words.as_slice()[first * width..past * width]
    }

    /// Appends to `row` the cells of a trace at an instant, in the order of the signature; a
    /// Boolean is 0 or 1. Where memory is refused the row stays as it was.
    pub fn copy_row(&self, k: u32, t: u32, row: &mut Vec<i32>) -> Result<(), AllocError>
        requires trace { k < length self.now.traces }
        requires instant { t < length (trace_at self.now.traces k).1 }
        ensures ok { OnOk result (row.new.items
            ≡ row.old.items ++ get_or (trace_at self.now.traces k).1 t []) }
        ensures err { OnErr result (row.new.items ≡ row.old.items) }
    {
        row.reserve(self.signature.len() as usize)?;
        for column in 0..self.signature.len() {
            let cell = match self.signature.kind(column) {
                Kind::Int => self.int_at(k, t, column),
                Kind::Bool => i32::from(self.bool_at(k, t, column)),
            };
            row.push_reserved(cell);
        }
        Ok(())
    }

    // Makes room for the integers and the words of `cells` more cells.
    fn reserve(&mut self, cells: usize) -> Result<(), AllocError>
        ensures { self.new ≡ self.old }
    {
        let rows = cells / (self.signature.len() as usize).max(1);
        self.numbers
            .reserve(rows.saturating_mul(self.columns.integers.len()))?;
        self.words.reserve(rows.saturating_mul(words_of_row(self.columns.truths.len())))
    }

    // Says how integers are packed from now on.
    fn set_packing(&mut self, one_in: usize)
        ensures { self.new ≡ self.old }
    {
        self.numbers.set_packing(one_in);
    }

    // Drops all traces.
    fn clear(&mut self)
        ensures { self.new ≡ record self.old { traces = [] } }
    {
        self.names.clear();
        self.numbers.clear();
        self.words.clear();
        self.row_ends.clear();
        self.row_ends.push_reserved(0);
    }

    // Adds one more trace, with its first row.
    fn start(&mut self, name: &str, row: &[i32]) -> Result<(), AllocError>
        requires name { IsTraceName name.now }
        requires fresh { ¬ (Contains (trace_names self.old.traces) name.now) }
        requires row { IsRow self.old.signature row.now }
        requires count { length self.old.traces < 1000000 }
        requires room { HasRoom self.old }
        ensures ok { OnOk result
            (self.new ≡ record self.old { traces = with_trace self.old.traces name.now row.now }) }
        ensures err { OnErr result (self.new ≡ self.old) }
    {
        self.numbers.reserve_next(self.columns.integers.len())?;
        self.row_ends.reserve(1)?;
        self.words.reserve(words_of_row(self.columns.truths.len()))?;
        self.names.push(name)?;
        let columns = &self.columns;
        self.numbers
            .push_row(row, columns.integers.as_slice(), columns.together);
        push_words(&mut self.words, row, columns.truths.as_slice());
        let rows = self.row_ends[self.row_ends.len() - 1];
        let _ = self.row_ends.push(rows + 1);
        Ok(())
    }

    // Adds one more row to the last trace.
    fn push(&mut self, row: &[i32]) -> Result<(), AllocError>
        requires started { 0 < length self.old.traces }
        requires row { IsRow self.old.signature row.now }
        requires instants { length (last_rows self.old.traces) < 1000000 }
        requires room { HasRoom self.old }
        ensures ok { OnOk result
            (self.new ≡ record self.old { traces = with_row self.old.traces row.now }) }
        ensures err { OnErr result (self.new ≡ self.old) }
    {
        self.words.reserve(words_of_row(self.columns.truths.len()))?;
        self.numbers.reserve_next(self.columns.integers.len())?;
        let columns = &self.columns;
        self.numbers
            .push_row(row, columns.integers.as_slice(), columns.together);
        push_words(&mut self.words, row, columns.truths.as_slice());
        count_rows(&mut self.row_ends, 1);
        Ok(())
    }

    // Adds one more row to the last trace: its integers, and its Booleans as the bits of a word.
    fn push_held(&mut self, numbers: &[i32], word: u64) -> Result<(), AllocError>
        requires started { 0 < length self.old.traces }
        requires numbers { length numbers.now ≡ numbers_of (kinds_of self.old.signature) }
        requires truths { length (truth_columns 0 (kinds_of self.old.signature)) ≤ 64 }
        requires small { word < 2 ^ length (truth_columns 0 (kinds_of self.old.signature)) }
        requires instants { length (last_rows self.old.traces) < 1000000 }
        requires room { HasRoom self.old }
        ensures ok { OnOk result (self.new ≡ record self.old {
          traces = with_row self.old.traces
              (row_held (kinds_of self.old.signature) numbers.now (word ∷ []));
        }) }
        ensures err { OnErr result (self.new ≡ self.old) }
    {
        are_ints(numbers);
        self.words.reserve(1)?;
        self.numbers.reserve_next(numbers.len())?;
        self.numbers.push_all(numbers);
        push_word(&mut self.words, self.columns.truths.as_slice(), word);
        count_rows(&mut self.row_ends, 1);
        Ok(())
    }

    // Adds one more row to the last trace; all its cells are Booleans, the bits of a word.
    fn push_bits(&mut self, word: u64) -> Result<(), AllocError>
        requires started { 0 < length self.old.traces }
        requires truths { AreTruths self.old.signature }
        requires small { word < 2 ^ length self.old.signature }
        requires instants { length (last_rows self.old.traces) < 1000000 }
        requires room { HasRoom self.old }
        ensures ok { OnOk result (self.new ≡ record self.old {
          traces = with_row self.old.traces (row_of_bits (length self.old.signature) word);
        }) }
        ensures err { OnErr result (self.new ≡ self.old) }
    {
        self.words.push(word)?;
        count_rows(&mut self.row_ends, 1);
        Ok(())
    }

    // Adds the rows of trace `k` of another set, from row `from` on, to the last trace.
    fn extend(&mut self, set: &TraceSet, k: u32, from: u32) -> Result<(), AllocError>
        requires started { 0 < length self.old.traces }
        requires trace { k < length set.now.traces }
        requires from { from ≤ length (trace_at set.now.traces k).1 }
        requires signature { set.now.signature ≡ self.old.signature }
        requires instants { length (last_rows self.old.traces)
            + length (rows_from set.now.traces k from) ≤ 1000000 }
        requires room { HasRoomFor self.old (length (rows_from set.now.traces k from)) }
        ensures ok { OnOk result (self.new ≡ record self.old {
          traces = with_rows self.old.traces (rows_from set.now.traces k from);
        }) }
        ensures err { OnErr result (self.new ≡ self.old) }
    {
        let added = set.length(k) - from;
        let first = set.row_ends[k as usize] as usize + from as usize;
        let past = first + added as usize;
        let width = set.columns.integers.len();
        let count = words_of_row(set.columns.truths.len());
        let words = &set.words.as_slice()[first * count..past * count];
        self.words.reserve(words.len())?;
        self.numbers
            .extend(&set.numbers, first * width, past * width)?;
        let _ = self.words.extend_from_slice(words);
        count_rows(&mut self.row_ends, added);
        Ok(())
    }
}

/// Traces that are put together, row after row.
///
/// Contracts see the traces so far, as those of a [`TraceSet`].
///
/// ```text
/// let mut rows = TraceRows::new(alloc, &signature)?;
/// rows.start("a", &[1, 5])?;
/// rows.push(&[2, 6])?;
/// rows.start("b", &[7, 8])?;
/// let set = rows.into_set();
/// ```
#[derive(Drop)]
pub struct TraceRows {
    set: TraceSet,
}

impl Model for TraceRows {
    ghost use Rattle.lb_traces.specs.Traces.{Recording};

    ghost Value = { Recording };

    ghost view = { λ r. r.set };
}

impl TraceRows {
    /// No trace yet.
    pub fn new(alloc: Global, signature: &Signature) -> Result<TraceRows, AllocError>
        ensures { IfOk result (λ rows. rows ≡ record { signature = signature.now; traces = [] }) }
    {
        let mut row_ends = Vec::new(alloc);
        row_ends.push(0)?;
        let columns = row_columns(alloc, signature)?;
        Ok(TraceRows {
            set: TraceSet {
                signature: signature.copy(alloc)?,
                names: Names::new(alloc)?,
                numbers: Numbers::new(alloc),
                words: Vec::new(alloc),
                row_ends,
                columns,
            },
        })
    }

    /// Makes room for `cells` more cells, which the next rows take. The traces stay as they are,
    /// also where memory is refused.
    pub fn reserve(&mut self, cells: usize) -> Result<(), AllocError>
        ensures { self.new ≡ self.old }
    {
        self.set.reserve(cells)
    }

    /// Says that the integers of rows are packed from now on: they take 16 bits each, as long as at
    /// most one in `one_in` does not fit, some thousands left out; those behind take 32 bits, until
    /// `clear`. With 0 none is packed, as at first.
    pub fn set_packing(&mut self, one_in: usize)
        ensures { self.new ≡ self.old }
    {
        self.set.set_packing(one_in);
    }

    /// Drops all traces, and keeps their memory for others.
    pub fn clear(&mut self)
        ensures { self.new ≡ record self.old { traces = [] } }
    {
        self.set.clear();
    }

    /// Adds one more trace, with its first row: its cells in the order of the signature, a Boolean
    /// as 0 or 1. Where memory is refused the traces stay as they were.
    pub fn start(&mut self, name: &str, row: &[i32]) -> Result<(), AllocError>
        requires name { IsTraceName name.now }
        requires fresh { ¬ (Contains (trace_names self.old.traces) name.now) }
        requires row { IsRow self.old.signature row.now }
        requires count { length self.old.traces < 1000000 }
        requires room { HasRoom self.old }
        ensures ok { OnOk result
            (self.new ≡ record self.old { traces = with_trace self.old.traces name.now row.now }) }
        ensures err { OnErr result (self.new ≡ self.old) }
    {
        self.set.start(name, row)
    }

    /// Adds one more row to the last trace. Where memory is refused the traces stay as they were.
    pub fn push(&mut self, row: &[i32]) -> Result<(), AllocError>
        requires started { 0 < length self.old.traces }
        requires row { IsRow self.old.signature row.now }
        requires instants { length (last_rows self.old.traces) < 1000000 }
        requires room { HasRoom self.old }
        ensures ok { OnOk result
            (self.new ≡ record self.old { traces = with_row self.old.traces row.now }) }
        ensures err { OnErr result (self.new ≡ self.old) }
    {
        self.set.push(row)
    }

    /// Adds one more row to the last trace, as it lies in memory: its integers, in the order of the
    /// signature, and its Booleans, at most 64, as the bits of `word`. The first one is the lowest
    /// bit, and no bit past the last one is set. Where memory is refused the traces stay as they
    /// were.
    pub fn push_held(&mut self, numbers: &[i32], word: u64) -> Result<(), AllocError>
        requires started { 0 < length self.old.traces }
        requires numbers { length numbers.now ≡ numbers_of (kinds_of self.old.signature) }
        requires truths { length (truth_columns 0 (kinds_of self.old.signature)) ≤ 64 }
        requires small { word < 2 ^ length (truth_columns 0 (kinds_of self.old.signature)) }
        requires instants { length (last_rows self.old.traces) < 1000000 }
        requires room { HasRoom self.old }
        ensures ok { OnOk result (self.new ≡ record self.old {
          traces = with_row self.old.traces
              (row_held (kinds_of self.old.signature) numbers.now (word ∷ []));
        }) }
        ensures err { OnErr result (self.new ≡ self.old) }
    {
        self.set.push_held(numbers, word)
    }

    /// Adds one more row to the last trace. Its cells are at most 64 Booleans, the bits of `word`:
    /// the first one of the signature is the lowest bit, and no bit past the last one is set. Where
    /// memory is refused the traces stay as they were.
    pub fn push_bits(&mut self, word: u64) -> Result<(), AllocError>
        requires started { 0 < length self.old.traces }
        requires truths { AreTruths self.old.signature }
        requires small { word < 2 ^ length self.old.signature }
        requires instants { length (last_rows self.old.traces) < 1000000 }
        requires room { HasRoom self.old }
        ensures ok { OnOk result (self.new ≡ record self.old {
          traces = with_row self.old.traces (row_of_bits (length self.old.signature) word);
        }) }
        ensures err { OnErr result (self.new ≡ self.old) }
    {
        self.set.push_bits(word)
    }

    /// Adds the rows of trace `k` of another set under the same signature, from row `from` on, to
    /// the last trace. Where memory is refused the traces stay as they were.
    pub fn extend(&mut self, set: &TraceSet, k: u32, from: u32) -> Result<(), AllocError>
        requires started { 0 < length self.old.traces }
        requires trace { k < length set.now.traces }
        requires from { from ≤ length (trace_at set.now.traces k).1 }
        requires signature { set.now.signature ≡ self.old.signature }
        requires instants { length (last_rows self.old.traces)
            + length (rows_from set.now.traces k from) ≤ 1000000 }
        requires room { HasRoomFor self.old (length (rows_from set.now.traces k from)) }
        ensures ok { OnOk result (self.new ≡ record self.old {
          traces = with_rows self.old.traces (rows_from set.now.traces k from);
        }) }
        ensures err { OnErr result (self.new ≡ self.old) }
    {
        self.set.extend(set, k, from)
    }

    /// The traces so far.
    pub fn set(&self) -> &TraceSet
        ensures { result.now ≡ self.now }
    {
        &self.set
    }

    /// The traces, as a set. It takes no memory.
    pub fn into_set(self) -> TraceSet
        ensures { result ≡ self }
    {
        let TraceRows { set } = self;
        set
    }
}
