//! The names and lengths of traces whose rows have been dropped.
//!
//! The meaning of further records of a text depends on no more than these: the names, the number of
//! instants of the last trace, and the number of instants of all traces together.

ghost use Rattle.std.specs.Prelude.{◌≡◌, ◌<◌, ◌≤◌, ◌+◌, ◌-◌, ◌*◌, nat_le, nat_lt, length};
ghost use Rattle.std.specs.Prelude.{IfOk, OnOk, [], get_or, true, false};
ghost use Rattle.csv.specs.Records.{fields_of};
ghost use Rattle.lb_traces.specs.Traces.{IsTraceName};
ghost use Rattle.lb_trace.specs.Errors.{IsRefusal, error_number};
ghost use Rattle.lb_trace.specs.Mirrors.{row_by};
ghost use Rattle.lb_trace.specs.Refusals.{is_last};
ghost use Rattle.lb_trace.specs.Spelling.{after_first};
ghost use Rattle.lb_trace.specs.RowRefusals.{room_by};

use crate::copied::copy_record;
use crate::error::TraceError;
use crate::record::width;
use crate::recorder::is_last;
use crate::rows::read_row;
use crate::seen_names::SeenNames;
use crate::table::ColumnTable;
use csv::ByteRecord;
use lb_static::Signature;
use lb_traces::{TraceRows, TraceSet};
use std::alloc::{AllocError, Global};

/// The most cells of all traces together.
const MOST_CELLS: u64 = 67_108_864;

/// The most traces.
const MOST_TRACES: u32 = 1_000_000;

/// The most instants of a trace.
const MOST_INSTANTS: u32 = 1_000_000;

/// The names of traces, one after the other, and the number of instants of each.
pub struct Roll {
    /// The traces with one row each, without cells.
    pub(crate) names: TraceRows,
    pub(crate) known: SeenNames,
    pub(crate) lengths: Vec<u32>,
    /// The number of instants of all traces together.
    pub(crate) instants: u64,
    /// The number of cells of an instant, at least one.
    pub(crate) cells: u64,
}

// Not derived, so that a caller drops it in one step.
impl Drop for Roll {
    fn drop(self) {
        let Roll {
            names: _,
            known: _,
            lengths: _,
            instants: _,
            cells: _,
        } = self;
    }
}

// The number of the first record past the limit of cells, where each record has `cells` cells.
fn first_past_cells(cells: u64) -> u64
    requires { 0 < cells }
{
    MOST_CELLS / cells + 1
}

// The refusal of the cells of a record; `has_room` says whether there is room for one more instant.
// It is E0 where nothing is wrong with them.
fn refusal_of_cells(
    alloc: Global,
    table: &ColumnTable,
    entry: &ByteRecord,
    record: u64,
    has_room: bool,
) -> TraceError
    ensures { IsRefusal (room_by has_room
        (row_by table.now.columns.items (after_first (fields_of entry.now)))) result }
{
    let mut row = Vec::new(alloc);
    match read_row(&table.columns, entry, &mut row) {
        Ok(Some(column)) => TraceError::Cell { record, column },
        Ok(None) if !has_room => TraceError::Limit {
            record: Some(record),
        },
        _ => TraceError::Memory(AllocError),
    }
}

// The refusal of a trace whose name is known. The name of the last trace is no cause of refusal:
// for it the error is E0.
fn refusal_of_name(names: &TraceSet, name: &str, record: u64) -> TraceError
    ensures last { is_last name.now names.now.traces ≡ true → error_number result ≡ 0 }
    ensures other { is_last name.now names.now.traces ≡ false → error_number result ≡ 17 }
{
    if is_last(names, name.as_bytes()) {
        TraceError::Memory(AllocError)
    } else {
        TraceError::Trace { record }
    }
}

impl Roll {
    ghost use Rattle.std.specs.Prelude.{ℕ, List, ◌++◌, ◌∷◌, IfErr, map};
    ghost use Rattle.std.specs.List.{AllZip};
    ghost use Rattle.lb_static.specs.Signature.{Elements};
    ghost use Rattle.lb_traces.specs.Traces.{IsTrace, Trace, Traces};
    ghost use Rattle.lb_trace.specs.Lines.{record_of};
    ghost use Rattle.lb_trace.specs.Mirrors.{go_on_by, start_by};
    ghost use Rattle.lb_trace.specs.Refusals.{with_record};
    ghost use Rattle.lb_trace.specs.Rolls.{IsRoll, IsRollOf, RefusesRoll, RefusesRows};
    ghost use Rattle.lb_trace.specs.Rolls.{RefusesTrace, TakesTrace, room_for_another};
    ghost use Rattle.lb_trace.specs.Rolls.{room_in_last};
    ghost use Rattle.lb_trace.specs.Tables.{IsColumnTable, columns_in};

    /// No trace yet, of this signature.
    pub fn new(alloc: Global, signature: &Signature) -> Result<Roll, AllocError>
        ensures { IfOk result (λ roll. IsRollOf signature.now roll []) }
    {
        let none = Signature::new(alloc);
        Ok(Roll {
            names: TraceRows::new(alloc, &none)?,
            known: SeenNames::new(alloc),
            lengths: Vec::new(alloc),
            instants: 0,
            cells: u64::from(signature.len().max(1)),
        })
    }

    /// The names, as those of traces with one row each.
    pub fn names(&self) -> &TraceSet
        ensures { result.now ≡ self.now.names }
    {
        self.names.set()
    }

    /// Appends the traces of a set. An error is the first refusal of their records behind the roll.
    pub fn append(self, alloc: Global, set: &TraceSet) -> Result<Roll, TraceError>
        requires roll { IsRoll self }
        ensures roll { IfOk result IsRoll }
        ensures ok { IfOk result (λ next. (traces : Traces) → IsRollOf set.now.signature self traces
            → IsRollOf set.now.signature next (traces ++ set.now.traces)) }
        ensures err { IfErr result (RefusesRows self set.now) }
    {
        let _ = set.signature();
        let mut roll = self;
        for k in 0..set.len() {
            roll.append_trace(alloc, set.name(k), set.length(k))?;
        }
        Ok(roll)
    }

    /// Appends the traces of another roll. An error is the first refusal of their records behind
    /// this roll.
    pub fn append_roll(self, alloc: Global, other: &Roll) -> Result<Roll, TraceError>
        requires roll { IsRoll self }
        requires other { IsRoll other.now }
        ensures roll { IfOk result IsRoll }
        ensures ok { IfOk result (λ next. (elements : Elements) → (traces others : Traces)
            → IsRollOf elements self traces → IsRollOf elements other.now others
            → IsRollOf elements next (traces ++ others)) }
        ensures err { IfErr result (RefusesRoll self other.now) }
    {
        let set = other.names.set();
        let _ = set.signature();
        let mut roll = self;
        for k in 0..set.len() {
            let length = other.lengths[k as usize];
            roll.append_trace(alloc, set.name(k), length)?;
        }
        Ok(roll)
    }

    // Appends a trace of `length` instants, where no trace has its name. After an error the roll is
    // of no use.
    fn append_trace(&mut self, alloc: Global, name: &str, length: u32) -> Result<(), TraceError>
        requires roll { IsRoll self.old }
        requires name { IsTraceName name.now }
        ensures roll { OnOk result (IsRoll self.new) }
        ensures ok { OnOk result (TakesTrace self.old name.now length self.new) }
        ensures err { IfErr result (RefusesTrace self.old name.now length) }
    {
        let number = self.instants + 1;
        let names = self.names.set();
        let Ok(is_new) = self.known.takes(alloc, names, name) else {
            return Err(TraceError::Memory(AllocError));
        };
        if !is_new {
            return Err(refusal_of_name(names, name, number));
        }
        if names.len() >= MOST_TRACES {
            return Err(TraceError::Limit {
                record: Some(number),
            });
        }
        let count = u64::from(length);
        let all = self.instants + count;
        if all * self.cells > MOST_CELLS {
            return Err(TraceError::Limit {
                record: Some(first_past_cells(self.cells)),
            });
        }
        let Ok(()) = self.lengths.push(length) else {
            return Err(TraceError::Memory(AllocError));
        };
        let Ok(()) = self.names.start(name, &[]) else {
            return Err(TraceError::Memory(AllocError));
        };
        self.instants = all;
        Ok(())
    }

    /// The refusal of the first record of a text without quotes behind these traces; E0 where it is
    /// not refused.
    pub fn refusal_of_line(self, alloc: Global, table: &ColumnTable, text: &[u8]) -> TraceError
        requires { IsRoll self }
        ensures { (elements : Elements) → (traces : Traces) → IsRollOf elements self traces
            → IsColumnTable elements table.now
            → IsRefusal (with_record elements (columns_in table.now) traces (record_of text.now))
            result }
    {
        let mut entry = ByteRecord::new(alloc);
        match copy_record(text, &mut entry) {
            Ok(_) => self.refusal_of(alloc, table, &entry),
            Err(_) => TraceError::Memory(AllocError),
        }
    }

    /// The refusal of a record behind these traces; E0 where it is not refused.
    pub fn refusal_of(self, alloc: Global, table: &ColumnTable, entry: &ByteRecord) -> TraceError
        requires { IsRoll self }
        ensures { (elements : Elements) → (traces : Traces) → IsRollOf elements self traces
            → IsColumnTable elements table.now
            → IsRefusal (with_record elements (columns_in table.now) traces (fields_of entry.now))
            result }
    {
        let record = self.instants + 1;
        let cells = width(entry);
        let columns = table.count;
        let Some(name) = entry.get(0) else {
            return TraceError::Record {
                record,
                cells,
                columns,
            };
        };
        if cells != columns {
            return TraceError::Record {
                record,
                cells,
                columns,
            };
        }
        if is_last(self.names.set(), name) {
            self.refusal_of_more(alloc, table, entry)
        } else {
            self.refusal_of_first(alloc, name, table, entry)
        }
    }

    // `refusal_of` for a record of the last trace, with a cell for each column.
    fn refusal_of_more(self, alloc: Global, table: &ColumnTable, entry: &ByteRecord) -> TraceError
        requires roll { IsRoll self }
        requires started { 0 < length self.names.traces }
        ensures { (elements : Elements) → (traces : Traces) → IsRollOf elements self traces
            → IsRefusal (go_on_by elements traces
            (row_by table.now.columns.items (after_first (fields_of entry.now)))) result }
    {
        let has_room = self.has_room_in_last();
        refusal_of_cells(alloc, table, entry, self.instants + 1, has_room)
    }

    // `refusal_of` for a record of another trace, with a cell for each column.
    fn refusal_of_first(
        self,
        alloc: Global,
        name: &[u8],
        table: &ColumnTable,
        entry: &ByteRecord,
    ) -> TraceError
        requires { IsRoll self }
        ensures { (elements : Elements) → (traces : Traces) → IsRollOf elements self traces
            → IsRefusal (start_by elements name.now traces
            (row_by table.now.columns.items (after_first (fields_of entry.now)))) result }
    {
        let record = self.instants + 1;
        let has_room = self.has_room_for_another();
        let Roll {
            names,
            mut known,
            lengths: _,
            instants: _,
            cells: _,
        } = self;
        match known.take(alloc, names.set(), name) {
            Ok(None) => TraceError::Trace { record },
            Ok(Some(_)) => refusal_of_cells(alloc, table, entry, record, has_room),
            Err(cause) => cause,
        }
    }

    // Whether the limits have room for one more instant of the last trace.
    fn has_room_in_last(&self) -> bool
        requires roll { IsRoll self.now }
        requires started { 0 < length self.now.names.traces }
        ensures { result ≡ room_in_last self.now }
    {
        self.lengths[self.lengths.len() - 1] < MOST_INSTANTS && self.has_cells()
    }

    // Whether the limits have room for the first instant of one more trace.
    fn has_room_for_another(&self) -> bool
        requires { IsRoll self.now }
        ensures { result ≡ room_for_another self.now }
    {
        self.names.set().len() < MOST_TRACES && self.has_cells()
    }

    // Whether the limit of cells has room for one more instant.
    fn has_cells(&self) -> bool
        requires { IsRoll self.now }
        ensures { result ≡ nat_le ((self.now.instants + 1) * self.now.cells) 67108864 }
    {
        (self.instants + 1) * self.cells <= MOST_CELLS
    }
}
