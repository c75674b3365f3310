//! The traces of a part of a text that is read piece by piece.

ghost use Rattle.std.specs.Prelude.{◌≡◌, [], IfErr, IfOk, Ok, OnErr, OnOk};
ghost use Rattle.csv.specs.Records.{fields_of};
ghost use Rattle.lb_trace.specs.Errors.{IsRefusal};
ghost use Rattle.lb_trace.specs.Lines.{record_of};
ghost use Rattle.lb_trace.specs.Mirrors.{knows};
ghost use Rattle.lb_trace.specs.Plain.{plain_records};
ghost use Rattle.lb_trace.specs.Refusals.{with_record, with_records};
ghost use Rattle.lb_trace.specs.Rounds.{StopsAt};
ghost use Rattle.lb_trace.specs.Tables.{IsColumnTable, columns_in};

use crate::error::TraceError;
use crate::recorder::{Recorder, is_last};
use crate::table::ColumnTable;
use csv::ByteRecord;
use lb_static::Signature;
use lb_traces::TraceSet;
use std::alloc::{AllocError, Global};

/// The stop of a reading: its cause, and the text from the record on that was not added.
#[derive(Drop)]
pub struct Stopped<'t> {
    pub cause: TraceError,
    pub rest: &'t [u8],
}

/// The traces of some records of a text, which follow a header.
pub struct RoundReader {
    pub(crate) recorder: Recorder,
    entry: ByteRecord,
}

// Not derived, so that a caller drops it in one step.
impl Drop for RoundReader {
    fn drop(self) {
        let RoundReader {
            recorder: _,
            entry: _,
        } = self;
    }
}

impl RoundReader {
    ghost use Rattle.lb_trace.specs.RoundReaders.{IsRound, goes_on};

    /// No trace yet, with room for `cells` cells. The integers of rows take 16 bits each, as long as
    /// at most one in `one_in` does not fit; with 0 they take 32.
    pub fn new(
        alloc: Global,
        signature: &Signature,
        cells: usize,
        one_in: usize,
    ) -> Result<RoundReader, AllocError>
        ensures { IfOk result (IsRound signature.now []) }
    {
        let mut recorder = Recorder::new(alloc, signature)?;
        recorder.set_packing(one_in);
        recorder.make_room(cells.saturating_mul(2));
        Ok(RoundReader {
            recorder,
            entry: ByteRecord::new(alloc),
        })
    }

    /// Drops all traces, and keeps their memory for others.
    pub fn clear(&mut self)
        ensures { IsRound self.old.recorder.rows.signature [] self.new }
    {
        self.recorder.clear();
    }

    /// The traces.
    pub fn set(&self) -> &TraceSet
        ensures { result.now ≡ self.now.recorder.rows }
    {
        self.recorder.rows.set()
    }

    /// Adds the records of a text without quotes up to the first one that is refused.
    pub fn add_lines<'t>(
        &mut self,
        alloc: Global,
        table: &ColumnTable,
        text: &'t [u8],
    ) -> Result<(), Stopped<'t>>
        requires names { knows self.old.recorder.names self.old.recorder.rows.traces }
        requires table { IsColumnTable self.old.recorder.rows.signature table.now }
        ensures ok { OnOk result (with_records self.old.recorder.rows.signature
            (columns_in table.now) self.old.recorder.rows.traces (plain_records text.now)
            ≡ Ok self.new.recorder.rows.traces) }
        ensures names { OnOk result
            (knows self.new.recorder.names self.new.recorder.rows.traces) }
        ensures signature { self.new.recorder.rows.signature ≡ self.old.recorder.rows.signature }
        ensures err { IfErr result (λ stopped.
            StopsAt self.old.recorder.rows.signature (columns_in table.now)
            self.old.recorder.rows.traces self.new.recorder.rows.traces text.now
            stopped.rest.now) }
        ensures cause { IfErr result (λ stopped. IsRefusal
            (with_record self.old.recorder.rows.signature (columns_in table.now)
            self.new.recorder.rows.traces (record_of stopped.rest.now)) stopped.cause) }
    {
        self.recorder.add_until(alloc, table, text, &mut self.entry)
    }

    /// Adds a record. Where it is refused the traces stay as they were.
    pub fn add_record(
        &mut self,
        alloc: Global,
        table: &ColumnTable,
        entry: &ByteRecord,
    ) -> Result<(), TraceError>
        requires names { knows self.old.recorder.names self.old.recorder.rows.traces }
        requires table { IsColumnTable self.old.recorder.rows.signature table.now }
        ensures ok { OnOk result (with_record self.old.recorder.rows.signature
            (columns_in table.now) self.old.recorder.rows.traces (fields_of entry.now)
            ≡ Ok self.new.recorder.rows.traces) }
        ensures names { OnOk result
            (knows self.new.recorder.names self.new.recorder.rows.traces) }
        ensures signature { self.new.recorder.rows.signature ≡ self.old.recorder.rows.signature }
        ensures err { IfErr result (IsRefusal (with_record self.old.recorder.rows.signature
            (columns_in table.now) self.old.recorder.rows.traces (fields_of entry.now))) }
        ensures kept { OnErr result (self.new.recorder.rows ≡ self.old.recorder.rows) }
    {
        let set = self.recorder.rows.set();
        let _ = set.signature();
        let number = u64::from(set.instants()) + 1;
        self.recorder
            .add(alloc, &table.columns, table.count, entry, number)
    }

    /// Whether a record is one of the last trace, or has no name.
    pub fn goes_on(&self, entry: &ByteRecord) -> bool
        ensures { result ≡ goes_on (fields_of entry.now) self.now.recorder.rows.traces }
    {
        match entry.get(0) {
            Some(name) => is_last(self.set(), name),
            None => true,
        }
    }
}
