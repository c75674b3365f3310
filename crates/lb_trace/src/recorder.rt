//! The traces of the records that have been read.

ghost use Rattle.std.specs.Prelude.{◌≡◌, ◌<◌, ◌≤◌, ◌+◌, ◌*◌, ◌^◌, nat_le, nat_lt, [], ◌∷◌, length};
ghost use Rattle.std.specs.Prelude.{map, ◌&&◌};
ghost use Rattle.std.specs.Prelude.{Ok, IfOk, IfErr, OnErr, OnOk, IsTrue, IfSome, None, Some};
ghost use Rattle.std.specs.List.{Contains};
ghost use Rattle.csv.specs.Records.{fields_of};
ghost use Rattle.lb_static.specs.Signature.{kinds_of};
ghost use Rattle.lb_traces.specs.BitRows.{AreTruths, row_of_bits};
ghost use Rattle.lb_traces.specs.Packed.{numbers_of, row_held, truth_columns};
ghost use Rattle.lb_traces.specs.Traces.{IsRecording, IsTraceName, cells_of_instant, instants_of};
ghost use Rattle.lb_traces.specs.Traces.{IsRow, last_rows, trace_names};
ghost use Rattle.lb_trace.specs.Errors.{IsRefusal};
ghost use Rattle.lb_trace.specs.Groups.{AllGroups};
ghost use Rattle.lb_trace.specs.HeldLines.{kinds_in};
ghost use Rattle.lb_trace.specs.Mirrors.{RowsFollow, add_by, go_on_by, knows, record_by, row_by};
ghost use Rattle.lb_trace.specs.Lines.{after_line, record_of};
ghost use Rattle.lb_trace.specs.Mirrors.{start_by, start_cells};
ghost use Rattle.lb_trace.specs.Nexts.{HasName};
ghost use Rattle.lb_trace.specs.PlainRows.{AreInOrder, ArePlaced};
ghost use Rattle.lb_trace.specs.Refusals.{is_last};
ghost use Rattle.lb_trace.specs.Refusals.{has_room};
ghost use Rattle.lb_trace.specs.Spelling.{after_first};
ghost use Rattle.lb_trace.specs.TruthBits.{AreTruthTable};

use crate::copied::copy_record;
use crate::error::TraceError;
use crate::header::Column;
use crate::held_rows::read_held;
use crate::placed_rows::read_cells;
use crate::record::width;
use crate::record_name::{RecordName, name_of};
use crate::rows::read_row;
use crate::seen_names::SeenNames;
use crate::table::ColumnTable;
use crate::truth_bits::read_truths;
use csv::ByteRecord;
use lb_static::Signature;
use lb_traces::{TraceRows, TraceSet};
use std::alloc::{AllocError, Global};

/// The most cells of all traces together.
const MOST_CELLS: usize = 67_108_864;

/// The traces so far, their names, and room for a row and for the cells of a record.
#[derive(Drop)]
pub(crate) struct Recorder {
    pub(crate) rows: TraceRows,
    pub(crate) names: SeenNames,
    pub(crate) row: Vec<i32>,
    values: Vec<i32>,
}

/// Whether the last trace has this name.
pub(crate) fn is_last(set: &TraceSet, name: &[u8]) -> bool
    ensures { result ≡ is_last name.now set.now.traces }
{
    let count = set.len();
    count > 0 && name == set.name(count - 1).as_bytes()
}

// Whether the limit of cells has room for one more instant.
fn has_cells(set: &TraceSet) -> bool
    ensures { result ≡ nat_le
        ((instants_of set.now.traces + 1) * cells_of_instant set.now.signature) 67108864 }
{
    let cells = u64::from(set.signature().len().max(1));
    (u64::from(set.instants()) + 1) * cells <= 67_108_864
}

// Whether the limit of traces has room for one more.
fn has_traces(set: &TraceSet) -> bool
    ensures { result ≡ nat_lt (length set.now.traces) 1000000 }
{
    set.len() < 1_000_000
}

// Whether the last trace has room for one more instant.
fn has_instants(set: &TraceSet) -> bool
    requires { 0 < length set.now.traces }
    ensures { result ≡ nat_lt (length (last_rows set.now.traces)) 1000000 }
{
    set.length(set.len() - 1) < 1_000_000
}

// Whether the limits have room for one more instant of the last trace.
#[inline]
fn has_room_in_last(set: &TraceSet) -> bool
    requires { 0 < length set.now.traces }
    ensures { result ≡ (nat_lt (length (last_rows set.now.traces)) 1000000
        && nat_le ((instants_of set.now.traces + 1) * cells_of_instant set.now.signature) 67108864) }
{
    has_instants(set) && has_cells(set)
}

/// Adds one more row to the last trace, where the limits have room for it.
#[inline(always)]
pub(crate) fn push_to(rows: &mut TraceRows, row: &[i32], number: u64) -> Result<(), TraceError>
    requires started { 0 < length rows.old.traces }
    requires row { IsRow rows.old.signature row.now }
    ensures ok { OnOk result
        (go_on_by rows.old.signature rows.old.traces (Some row.now) ≡ Ok rows.new.traces) }
    ensures signature { OnOk result (rows.new.signature ≡ rows.old.signature) }
    ensures err { IfErr result (IsRefusal
        (go_on_by rows.old.signature rows.old.traces (Some row.now))) }
    ensures kept { OnErr result (rows.new ≡ rows.old) }
{
    if !has_room_in_last(rows.set()) {
        return Err(TraceError::Limit {
            record: Some(number),
        });
    }
    rows.push(row).map_err(TraceError::Memory)
}

// Adds one more row to the last trace, where the limits have room for it: its integers, and its
// Booleans as the bits of a word.
#[inline(always)]
fn push_held_to(
    rows: &mut TraceRows,
    numbers: &[i32],
    bits: u64,
    number: u64,
) -> Result<(), TraceError>
    requires started { 0 < length rows.old.traces }
    requires numbers { length numbers.now ≡ numbers_of (kinds_of rows.old.signature) }
    requires truths { length (truth_columns 0 (kinds_of rows.old.signature)) ≤ 64 }
    requires small { bits < 2 ^ length (truth_columns 0 (kinds_of rows.old.signature)) }
    ensures ok { OnOk result (go_on_by rows.old.signature rows.old.traces
        (Some (row_held (kinds_of rows.old.signature) numbers.now (bits ∷ [])))
        ≡ Ok rows.new.traces) }
    ensures signature { OnOk result (rows.new.signature ≡ rows.old.signature) }
    ensures err { IfErr result (IsRefusal (go_on_by rows.old.signature rows.old.traces
        (Some (row_held (kinds_of rows.old.signature) numbers.now (bits ∷ []))))) }
    ensures kept { OnErr result (rows.new ≡ rows.old) }
{
    if !has_room_in_last(rows.set()) {
        return Err(TraceError::Limit {
            record: Some(number),
        });
    }
    rows.push_held(numbers, bits).map_err(TraceError::Memory)
}

// Adds one more row to the last trace, where the limits have room for it; all its cells are
// Booleans, the bits of a word.
#[inline]
fn push_bits_to(rows: &mut TraceRows, bits: u64, number: u64) -> Result<(), TraceError>
    requires started { 0 < length rows.old.traces }
    requires truths { AreTruths rows.old.signature }
    requires small { bits < 2 ^ length rows.old.signature }
    ensures ok { OnOk result (go_on_by rows.old.signature rows.old.traces
        (Some (row_of_bits (length rows.old.signature) bits)) ≡ Ok rows.new.traces) }
    ensures signature { OnOk result (rows.new.signature ≡ rows.old.signature) }
    ensures err { IfErr result (IsRefusal (go_on_by rows.old.signature rows.old.traces
        (Some (row_of_bits (length rows.old.signature) bits)))) }
    ensures kept { OnErr result (rows.new ≡ rows.old) }
{
    if !has_room_in_last(rows.set()) {
        return Err(TraceError::Limit {
            record: Some(number),
        });
    }
    rows.push_bits(bits).map_err(TraceError::Memory)
}

impl Recorder {
    /// No trace yet.
    pub(crate) fn new(alloc: Global, signature: &Signature) -> Result<Recorder, AllocError>
        ensures rows { IfOk result
            (λ r. r.rows ≡ record { signature = signature.now; traces = [] }) }
        ensures names { IfOk result (λ r. knows r.names r.rows.traces) }
    {
        Ok(Recorder {
            rows: TraceRows::new(alloc, signature)?,
            names: SeenNames::new(alloc),
            row: Vec::new(alloc),
            values: Vec::new(alloc),
        })
    }

    /// No trace yet, with room for the cells of a text of `bytes` bytes.
    pub(crate) fn with_room(
        alloc: Global,
        signature: &Signature,
        bytes: usize,
    ) -> Result<Recorder, AllocError>
        ensures rows { IfOk result
            (λ r. r.rows ≡ record { signature = signature.now; traces = [] }) }
        ensures names { IfOk result (λ r. knows r.names r.rows.traces) }
    {
        let mut recorder = Recorder::new(alloc, signature)?;
        recorder.make_room(bytes);
        Ok(recorder)
    }

    /// Makes room for the cells of a text of `bytes` bytes.
    pub(crate) fn make_room(&mut self, bytes: usize)
        ensures { self.new ≡ self.old }
    {
        // A cell and its end take two bytes at least. Where there is no such room at once, each row
        // makes its own.
        let _ = self.rows.reserve((bytes / 2 + 1).min(MOST_CELLS));
    }

    /// Says that the integers of rows are packed from now on, as long as at most one in `one_in`
    /// does not fit 16 bits; with 0 none is packed.
    pub(crate) fn set_packing(&mut self, one_in: usize)
        ensures { self.new ≡ self.old }
    {
        self.rows.set_packing(one_in);
    }

    /// Drops all traces, and keeps their memory for others.
    pub(crate) fn clear(&mut self)
        ensures rows { self.new.rows ≡ record self.old.rows { traces = [] } }
        ensures names { knows self.new.names [] }
    {
        self.rows.clear();
        self.names.clear();
    }

    /// Adds record number `number` of a text whose header has `columns` columns.
    pub(crate) fn add(
        &mut self,
        alloc: Global,
        table: &[Column],
        columns: usize,
        entry: &ByteRecord,
        number: u64,
    ) -> Result<(), TraceError>
        requires names { knows self.old.names self.old.rows.traces }
        requires lawful { IsRecording self.old.rows }
        requires kinds { RowsFollow table.now self.old.rows.signature }
        ensures ok { OnOk result
            (record_by self.old.rows.signature table.now columns self.old.rows.traces
            (fields_of entry.now) ≡ Ok self.new.rows.traces) }
        ensures names { OnOk result (knows self.new.names self.new.rows.traces) }
        ensures signature { OnOk result (self.new.rows.signature ≡ self.old.rows.signature) }
        ensures err { IfErr result (IsRefusal
            (record_by self.old.rows.signature table.now columns self.old.rows.traces
            (fields_of entry.now))) }
        ensures kept { OnErr result (self.new.rows ≡ self.old.rows) }
    {
        let cells = width(entry);
        let Some(name) = entry.get(0) else {
            return Err(TraceError::Record {
                record: number,
                cells,
                columns,
            });
        };
        if cells != columns {
            return Err(TraceError::Record {
                record: number,
                cells,
                columns,
            });
        }
        if is_last(self.rows.set(), name) {
            self.go_on(table, entry, number)
        } else {
            self.start(alloc, name, table, entry, number)
        }
    }

    /// `add` for the first record of a text without quotes; it returns the text after the record. A
    /// record whose cells spell a row is read in one pass; `entry` is room for any other.
    #[inline(always)]
    pub(crate) fn add_line<'t>(
        &mut self,
        alloc: Global,
        table: &ColumnTable,
        text: &'t [u8],
        entry: &mut ByteRecord,
        number: u64,
    ) -> Result<&'t [u8], TraceError>
        requires names { knows self.old.names self.old.rows.traces }
        requires lawful { IsRecording self.old.rows }
        requires kinds { RowsFollow table.now.columns.items self.old.rows.signature }
        requires order { IsTrue table.now.in_order
            → (length table.now.columns.items ≡ table.now.count)
            × AreInOrder 0 table.now.columns.items }
        requires placed { IsTrue table.now.is_placed
            → (length table.now.placed.items ≡ table.now.count)
            × ArePlaced table.now.placed.items table.now.columns.items }
        requires truths { IsTrue table.now.are_truths
            → AreTruthTable self.old.rows.signature table.now.columns.items table.now.count }
        requires groups { IfSome table.now.groups
            (λ gs. AllGroups gs.items table.now.columns.items) }
        requires same_kinds { kinds_in table.now.columns.items
            ≡ kinds_of self.old.rows.signature }
        ensures ok { IfOk result (λ rest. record_by self.old.rows.signature table.now.columns.items
            table.now.count self.old.rows.traces (record_of text.now) ≡ Ok self.new.rows.traces) }
        ensures after { IfOk result (λ rest. rest.now ≡ after_line text.now) }
        ensures names { IfOk result (λ rest. knows self.new.names self.new.rows.traces) }
        ensures signature { IfOk result
            (λ rest. self.new.rows.signature ≡ self.old.rows.signature) }
        ensures err { IfErr result (IsRefusal (record_by self.old.rows.signature
            table.now.columns.items table.now.count self.old.rows.traces (record_of text.now))) }
        ensures kept { OnErr result (self.new.rows ≡ self.old.rows) }
    {
        if let Some(rest) = self.add_row(alloc, table, text, number)? {
            return Ok(rest);
        }
        let Ok(rest) = copy_record(text, entry) else {
            return Err(TraceError::Memory(AllocError));
        };
        self.add(alloc, &table.columns, table.count, entry, number)?;
        Ok(rest)
    }

    // Adds the first record of a text in one pass, and returns the text after it; None where it has
    // to be read otherwise, as where its cells spell no row.
    #[inline(always)]
    fn add_row<'t>(
        &mut self,
        alloc: Global,
        table: &ColumnTable,
        text: &'t [u8],
        number: u64,
    ) -> Result<Option<&'t [u8]>, TraceError>
        requires names { knows self.old.names self.old.rows.traces }
        requires lawful { IsRecording self.old.rows }
        requires kinds { RowsFollow table.now.columns.items self.old.rows.signature }
        requires order { IsTrue table.now.in_order
            → (length table.now.columns.items ≡ table.now.count)
            × AreInOrder 0 table.now.columns.items }
        requires placed { IsTrue table.now.is_placed
            → (length table.now.placed.items ≡ table.now.count)
            × ArePlaced table.now.placed.items table.now.columns.items }
        requires truths { IsTrue table.now.are_truths
            → AreTruthTable self.old.rows.signature table.now.columns.items table.now.count }
        requires groups { IfSome table.now.groups
            (λ gs. AllGroups gs.items table.now.columns.items) }
        requires same_kinds { kinds_in table.now.columns.items
            ≡ kinds_of self.old.rows.signature }
        ensures ok { IfOk result (λ found. IfSome found (λ rest.
            record_by self.old.rows.signature table.now.columns.items table.now.count
            self.old.rows.traces (record_of text.now) ≡ Ok self.new.rows.traces)) }
        ensures after { IfOk result
            (λ found. IfSome found (λ rest. rest.now ≡ after_line text.now)) }
        ensures names { IfOk result (λ found. knows self.new.names self.new.rows.traces) }
        ensures rows { IfOk result (λ found. found ≡ None → self.new.rows ≡ self.old.rows) }
        ensures signature { IfOk result
            (λ found. self.new.rows.signature ≡ self.old.rows.signature) }
        ensures err { IfErr result (IsRefusal (record_by self.old.rows.signature
            table.now.columns.items table.now.count self.old.rows.traces (record_of text.now))) }
        ensures kept { OnErr result (self.new.rows ≡ self.old.rows) }
    {
        let name = name_of(self.rows.set(), text);
        if name.is_last {
            return Ok(None);
        }
        if name.is_same && table.are_truths {
            if let Some(truths) = read_truths(name.rest, table.count) {
                push_bits_to(&mut self.rows, truths.bits, number)?;
                return Ok(Some(truths.rest));
            }
        }
        self.add_cells(alloc, table, text, name, number)
    }

    // `add_row` for a record with the name `name`, whose other cells stand after it.
    #[inline(always)]
    fn add_cells<'t>(
        &mut self,
        alloc: Global,
        table: &ColumnTable,
        text: &[u8],
        name: RecordName<'t>,
        number: u64,
    ) -> Result<Option<&'t [u8]>, TraceError>
        requires names { knows self.old.names self.old.rows.traces }
        requires lawful { IsRecording self.old.rows }
        requires kinds { RowsFollow table.now.columns.items self.old.rows.signature }
        requires order { IsTrue table.now.in_order
            → (length table.now.columns.items ≡ table.now.count)
            × AreInOrder 0 table.now.columns.items }
        requires placed { IsTrue table.now.is_placed
            → (length table.now.placed.items ≡ table.now.count)
            × ArePlaced table.now.placed.items table.now.columns.items }
        requires groups { IfSome table.now.groups
            (λ gs. AllGroups gs.items table.now.columns.items) }
        requires same_kinds { kinds_in table.now.columns.items
            ≡ kinds_of self.old.rows.signature }
        requires first { HasName text.now name.bytes.now name.rest.now }
        requires same { name.is_same ≡ is_last name.bytes.now self.old.rows.traces }
        ensures ok { IfOk result (λ found. IfSome found (λ rest.
            record_by self.old.rows.signature table.now.columns.items table.now.count
            self.old.rows.traces (record_of text.now) ≡ Ok self.new.rows.traces)) }
        ensures after { IfOk result
            (λ found. IfSome found (λ rest. rest.now ≡ after_line text.now)) }
        ensures names { IfOk result (λ found. knows self.new.names self.new.rows.traces) }
        ensures rows { IfOk result (λ found. found ≡ None → self.new.rows ≡ self.old.rows) }
        ensures signature { IfOk result
            (λ found. self.new.rows.signature ≡ self.old.rows.signature) }
        ensures err { IfErr result (IsRefusal (record_by self.old.rows.signature
            table.now.columns.items table.now.count self.old.rows.traces (record_of text.now))) }
        ensures kept { OnErr result (self.new.rows ≡ self.old.rows) }
    {
        if name.is_same && table.in_order {
            if let Ok(Some(line)) = read_held(table, name.rest, &mut self.values) {
                let numbers = &self.values.as_slice()[..line.count];
                push_held_to(&mut self.rows, numbers, line.bits, number)?;
                return Ok(Some(&name.rest[line.past..]));
            }
        }
        let Ok(line) = read_cells(table, name.rest, &mut self.values, &mut self.row) else {
            return Err(TraceError::Memory(AllocError));
        };
        let Some(past) = line else {
            return Ok(None);
        };
        self.add_named(alloc, name.bytes, name.is_same, number)?;
        Ok(Some(&name.rest[past..]))
    }

    /// Adds the row that was read as one more instant of the trace with this name.
    pub(crate) fn add_read(
        &mut self,
        alloc: Global,
        name: &[u8],
        number: u64,
    ) -> Result<(), TraceError>
        requires names { knows self.old.names self.old.rows.traces }
        requires lawful { IsRecording self.old.rows }
        requires row { IsRow self.old.rows.signature self.old.row.items }
        ensures ok { OnOk result
            (add_by self.old.rows.signature name.now self.old.rows.traces
            (Some self.old.row.items) ≡ Ok self.new.rows.traces) }
        ensures names { OnOk result (knows self.new.names self.new.rows.traces) }
        ensures signature { OnOk result (self.new.rows.signature ≡ self.old.rows.signature) }
        ensures err { IfErr result (IsRefusal
            (add_by self.old.rows.signature name.now self.old.rows.traces
            (Some self.old.row.items))) }
        ensures kept { OnErr result (self.new.rows ≡ self.old.rows) }
    {
        let is_same = is_last(self.rows.set(), name);
        self.add_named(alloc, name, is_same, number)
    }

    // `add_read` where `is_same` says whether the last trace has the name.
    #[inline(always)]
    fn add_named(
        &mut self,
        alloc: Global,
        name: &[u8],
        is_same: bool,
        number: u64,
    ) -> Result<(), TraceError>
        requires names { knows self.old.names self.old.rows.traces }
        requires lawful { IsRecording self.old.rows }
        requires same { is_same ≡ is_last name.now self.old.rows.traces }
        requires row { IsRow self.old.rows.signature self.old.row.items }
        ensures ok { OnOk result
            (add_by self.old.rows.signature name.now self.old.rows.traces
            (Some self.old.row.items) ≡ Ok self.new.rows.traces) }
        ensures names { OnOk result (knows self.new.names self.new.rows.traces) }
        ensures signature { OnOk result (self.new.rows.signature ≡ self.old.rows.signature) }
        ensures err { IfErr result (IsRefusal
            (add_by self.old.rows.signature name.now self.old.rows.traces
            (Some self.old.row.items))) }
        ensures kept { OnErr result (self.new.rows ≡ self.old.rows) }
    {
        if is_same {
            self.push_row(number)
        } else {
            self.start_row(alloc, name, number)
        }
    }

    // Adds one more trace with the row that was read, where its name is lawful and new.
    fn start_row(&mut self, alloc: Global, name: &[u8], number: u64) -> Result<(), TraceError>
        requires names { knows self.old.names self.old.rows.traces }
        requires row { IsRow self.old.rows.signature self.old.row.items }
        ensures ok { OnOk result
            (start_by self.old.rows.signature name.now self.old.rows.traces
            (Some self.old.row.items) ≡ Ok self.new.rows.traces) }
        ensures names { OnOk result (knows self.new.names self.new.rows.traces) }
        ensures signature { OnOk result (self.new.rows.signature ≡ self.old.rows.signature) }
        ensures err { IfErr result (IsRefusal
            (start_by self.old.rows.signature name.now self.old.rows.traces
            (Some self.old.row.items))) }
        ensures kept { OnErr result (self.new.rows ≡ self.old.rows) }
    {
        let Some(text) = self.names.take(alloc, self.rows.set(), name)? else {
            return Err(TraceError::Trace { record: number });
        };
        self.begin_row(text, number)
    }

    // Adds the row that was read as one more instant of the last trace.
    #[inline(always)]
    fn push_row(&mut self, number: u64) -> Result<(), TraceError>
        requires started { 0 < length self.old.rows.traces }
        requires row { IsRow self.old.rows.signature self.old.row.items }
        ensures ok { OnOk result
            (go_on_by self.old.rows.signature self.old.rows.traces (Some self.old.row.items)
            ≡ Ok self.new.rows.traces) }
        ensures names { self.new.names ≡ self.old.names }
        ensures signature { OnOk result (self.new.rows.signature ≡ self.old.rows.signature) }
        ensures err { IfErr result (IsRefusal
            (go_on_by self.old.rows.signature self.old.rows.traces (Some self.old.row.items))) }
        ensures kept { OnErr result (self.new.rows ≡ self.old.rows) }
    {
        push_to(&mut self.rows, &self.row, number)
    }

    // Adds the row of `entry` as one more instant of the last trace.
    fn go_on(&mut self, table: &[Column], entry: &ByteRecord, number: u64) -> Result<(), TraceError>
        requires started { 0 < length self.old.rows.traces }
        requires kinds { RowsFollow table.now self.old.rows.signature }
        ensures ok { OnOk result
            (go_on_by self.old.rows.signature self.old.rows.traces
            (row_by table.now (after_first (fields_of entry.now))) ≡ Ok self.new.rows.traces) }
        ensures names { self.new.names ≡ self.old.names }
        ensures signature { OnOk result (self.new.rows.signature ≡ self.old.rows.signature) }
        ensures err { IfErr result (IsRefusal
            (go_on_by self.old.rows.signature self.old.rows.traces
            (row_by table.now (after_first (fields_of entry.now))))) }
        ensures kept { OnErr result (self.new.rows ≡ self.old.rows) }
    {
        let bad = read_row(table, entry, &mut self.row).map_err(TraceError::Memory)?;
        if let Some(column) = bad {
            return Err(TraceError::Cell {
                record: number,
                column,
            });
        }
        self.push_row(number)
    }

    // Adds one more trace with the row of `entry`, where its name is lawful and new.
    fn start(
        &mut self,
        alloc: Global,
        name: &[u8],
        table: &[Column],
        entry: &ByteRecord,
        number: u64,
    ) -> Result<(), TraceError>
        requires names { knows self.old.names self.old.rows.traces }
        requires kinds { RowsFollow table.now self.old.rows.signature }
        ensures ok { OnOk result
            (start_by self.old.rows.signature name.now self.old.rows.traces
            (row_by table.now (after_first (fields_of entry.now))) ≡ Ok self.new.rows.traces) }
        ensures names { OnOk result (knows self.new.names self.new.rows.traces) }
        ensures signature { OnOk result (self.new.rows.signature ≡ self.old.rows.signature) }
        ensures err { IfErr result (IsRefusal
            (start_by self.old.rows.signature name.now self.old.rows.traces
            (row_by table.now (after_first (fields_of entry.now))))) }
        ensures kept { OnErr result (self.new.rows ≡ self.old.rows) }
    {
        let Some(text) = self.names.take(alloc, self.rows.set(), name)? else {
            return Err(TraceError::Trace { record: number });
        };
        self.begin(text, table, entry, number)
    }

    // Adds one more trace with the row of `entry`; its name is lawful and new.
    fn begin(
        &mut self,
        name: &str,
        table: &[Column],
        entry: &ByteRecord,
        number: u64,
    ) -> Result<(), TraceError>
        requires name { IsTraceName name.now }
        requires fresh { ¬ (Contains (trace_names self.old.rows.traces) name.now) }
        requires kinds { RowsFollow table.now self.old.rows.signature }
        ensures ok { OnOk result
            (start_cells self.old.rows.signature name.now self.old.rows.traces
            (row_by table.now (after_first (fields_of entry.now))) ≡ Ok self.new.rows.traces) }
        ensures names { self.new.names ≡ self.old.names }
        ensures signature { OnOk result (self.new.rows.signature ≡ self.old.rows.signature) }
        ensures err { IfErr result (IsRefusal
            (start_cells self.old.rows.signature name.now self.old.rows.traces
            (row_by table.now (after_first (fields_of entry.now))))) }
        ensures kept { OnErr result (self.new.rows ≡ self.old.rows) }
    {
        let bad = read_row(table, entry, &mut self.row).map_err(TraceError::Memory)?;
        if let Some(column) = bad {
            return Err(TraceError::Cell {
                record: number,
                column,
            });
        }
        self.begin_row(name, number)
    }

    // Adds one more trace with the row that was read; its name is lawful and new.
    fn begin_row(&mut self, name: &str, number: u64) -> Result<(), TraceError>
        requires name { IsTraceName name.now }
        requires fresh { ¬ (Contains (trace_names self.old.rows.traces) name.now) }
        requires row { IsRow self.old.rows.signature self.old.row.items }
        ensures ok { OnOk result
            (start_cells self.old.rows.signature name.now self.old.rows.traces
            (Some self.old.row.items) ≡ Ok self.new.rows.traces) }
        ensures names { self.new.names ≡ self.old.names }
        ensures signature { OnOk result (self.new.rows.signature ≡ self.old.rows.signature) }
        ensures err { IfErr result (IsRefusal
            (start_cells self.old.rows.signature name.now self.old.rows.traces
            (Some self.old.row.items))) }
        ensures kept { OnErr result (self.new.rows ≡ self.old.rows) }
    {
        let set = self.rows.set();
        if !has_traces(set) || !has_cells(set) {
            return Err(TraceError::Limit {
                record: Some(number),
            });
        }
        self.rows.start(name, &self.row).map_err(TraceError::Memory)
    }
}
