//! The records of a text without quotes, one after the other.

ghost use Rattle.std.specs.Prelude.{◌≡◌, Ok, OnOk, IfErr};
ghost use Rattle.lb_trace.specs.Errors.{IsRefusal};
ghost use Rattle.lb_trace.specs.Lines.{record_of};
ghost use Rattle.lb_trace.specs.Mirrors.{knows};
ghost use Rattle.lb_trace.specs.Plain.{plain_records};
ghost use Rattle.lb_trace.specs.Refusals.{with_record, with_records};
ghost use Rattle.lb_trace.specs.Rounds.{StopsAt};
ghost use Rattle.lb_trace.specs.Tables.{IsColumnTable, columns_in};

use crate::error::TraceError;
use crate::recorder::Recorder;
use crate::round::Stopped;
use crate::scan::skip_line_ends;
use crate::table::ColumnTable;
use csv::ByteRecord;
use std::alloc::Global;

impl Recorder {
    /// Adds all records of a text without quotes; `entry` is room for a record.
    pub(crate) fn add_lines(
        &mut self,
        alloc: Global,
        table: &ColumnTable,
        text: &[u8],
        entry: &mut ByteRecord,
    ) -> Result<(), TraceError>
        requires names { knows self.old.names self.old.rows.traces }
        requires table { IsColumnTable self.old.rows.signature table.now }
        ensures ok { OnOk result
            (with_records self.old.rows.signature (columns_in table.now) self.old.rows.traces
            (plain_records text.now) ≡ Ok self.new.rows.traces) }
        ensures names { OnOk result (knows self.new.names self.new.rows.traces) }
        ensures signature { OnOk result (self.new.rows.signature ≡ self.old.rows.signature) }
        ensures err { IfErr result (IsRefusal
            (with_records self.old.rows.signature (columns_in table.now) self.old.rows.traces
            (plain_records text.now))) }
    {
        let read = u64::from(self.rows.set().instants());
        let mut rest = text;
        for number in read + 1..u64::MAX {
            let begun = skip_line_ends(rest);
            if begun.is_empty() {
                return Ok(());
            }
            let _ = self.rows.set().signature();
            rest = self.add_line(alloc, table, begun, entry, number)?;
        }
        let _ = self.rows.set().instants();
        unreachable!()
    }

    /// Adds the records of a text without quotes up to the first one that is refused.
    pub(crate) fn add_until<'t>(
        &mut self,
        alloc: Global,
        table: &ColumnTable,
        text: &'t [u8],
        entry: &mut ByteRecord,
    ) -> Result<(), Stopped<'t>>
        requires names { knows self.old.names self.old.rows.traces }
        requires table { IsColumnTable self.old.rows.signature table.now }
        ensures ok { OnOk result
            (with_records self.old.rows.signature (columns_in table.now) self.old.rows.traces
            (plain_records text.now) ≡ Ok self.new.rows.traces) }
        ensures names { OnOk result (knows self.new.names self.new.rows.traces) }
        ensures signature { self.new.rows.signature ≡ self.old.rows.signature }
        ensures err { IfErr result (λ stopped.
            StopsAt self.old.rows.signature (columns_in table.now) self.old.rows.traces
            self.new.rows.traces text.now stopped.rest.now) }
        ensures cause { IfErr result (λ stopped. IsRefusal
            (with_record self.old.rows.signature (columns_in table.now) self.new.rows.traces
            (record_of stopped.rest.now)) stopped.cause) }
    {
        let read = u64::from(self.rows.set().instants());
        let mut rest = text;
        'records: for number in read + 1..u64::MAX {
            let begun = skip_line_ends(rest);
            if begun.is_empty() {
                return Ok(());
            }
            let _ = self.rows.set().signature();
            match self.add_line(alloc, table, begun, entry, number) {
                Ok(after) => rest = after,
                Err(cause) => return Err(Stopped { cause, rest: begun }),
            }
        }
        let _ = self.rows.set().instants();
        unreachable!()
    }
}
