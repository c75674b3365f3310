//! The elements of the variables that serve as clocks, row after row.

ghost use Rattle.std.specs.Prelude.{◌≡◌, ◌≤◌, flat_map, OnOk};
ghost use Rattle.lb_expand.specs.ClockUses.{flagged};
ghost use Rattle.lb_expand.specs.Emit.{gives};
ghost use Rattle.lb_expand.specs.EmitRows.{HasRow, HasRows};
ghost use Rattle.lb_expand.specs.EmitWhole as mirror;
ghost use Rattle.lb_flat.specs.Programs.{numbers_of};
ghost use Rattle.lb_expand.specs.TermEmissions.{state_of, emitted_of, onto};

use crate::clocks::node_at;
use crate::expansion::clock_uses::clock_flags;
use crate::expansion::frame::{Frame, TableFrame};
use crate::expansion::term_emission::TermEmission;
use lb_static::{Instance, Reached, Table, VariableId};
use std::alloc::{AllocError, Global};

impl TermEmission {
    /// Pushes the elements of the variables whose flag is set.
    fn put_flagged<F: Frame>(&mut self, frame: &F, flags: &[bool]) -> Result<(), AllocError>
        requires variables { F.variables frame.now ≤ self.old.next }
        ensures emitted { OnOk result (emitted_of self.new
            ≡ onto (numbers_of self.old.found.items) (gives (state_of self.old)
            (flat_map (F.context frame.now).places (flagged flags.now)))) }
        ensures next { OnOk result (self.new.next ≡ self.old.next) }
        ensures clocks { OnOk result (self.new.clocks ≡ self.old.clocks) }
    {
        for x in 0..flags.len() {
            if flags[x] {
                self.put(frame.places(VariableId(x)))?;
            }
        }
        Ok(())
    }

    /// Pushes the elements of the variables of a row that serve as clocks.
    fn put_row_clocks<F: TableFrame>(
        &mut self,
        alloc: Global,
        frame: &mut F,
        reached: &Reached,
        table: &Table,
        number: usize,
        row: &Instance,
    ) -> Result<(), AllocError>
        requires variables { F.variables frame.old ≤ self.old.next }
        requires there { HasRow reached.now table.now (F.is_row frame.old) number row.now }
        ensures emitted { OnOk result (emitted_of self.new
            ≡ onto (numbers_of self.old.found.items) (gives (state_of self.old)
            (mirror.clocks_in (F.contexts frame.old) reached.now table.now number row.now))) }
        ensures next { OnOk result (self.new.next ≡ self.old.next) }
        ensures clocks { OnOk result (self.new.clocks ≡ self.old.clocks) }
        ensures rows { F.is_row frame.new ≡ F.is_row frame.old }
        ensures contexts { F.contexts frame.new ≡ F.contexts frame.old }
        ensures table { F.clocks frame.new ≡ F.clocks frame.old }
        ensures variables { F.variables frame.new ≡ F.variables frame.old }
    {
        match node_at(reached, table, row) {
            Some(node) => {
                let flags = clock_flags(alloc, node)?;
                frame.enter(number);
                self.put_flagged(&*frame, &flags)
            }
            None => Ok(()),
        }
    }

    /// Pushes the elements of the variables of all rows that serve as clocks.
    pub(crate) fn put_clocks<F: TableFrame>(
        &mut self,
        alloc: Global,
        frame: &mut F,
        reached: &Reached,
        table: &Table,
    ) -> Result<(), AllocError>
        requires variables { F.variables frame.old ≤ self.old.next }
        requires there { HasRows reached.now table.now (F.is_row frame.old) }
        ensures emitted { OnOk result (emitted_of self.new
            ≡ onto (numbers_of self.old.found.items) (gives (state_of self.old)
            (mirror.row_clocks reached.now table.now (F.contexts frame.old) 0
            table.now.instances.items))) }
        ensures next { OnOk result (self.new.next ≡ self.old.next) }
        ensures clocks { OnOk result (self.new.clocks ≡ self.old.clocks) }
        ensures rows { OnOk result (F.is_row frame.new ≡ F.is_row frame.old) }
        ensures contexts { OnOk result (F.contexts frame.new ≡ F.contexts frame.old) }
        ensures table { OnOk result (F.clocks frame.new ≡ F.clocks frame.old) }
        ensures variables { OnOk result (F.variables frame.new ≡ F.variables frame.old) }
    {
        for number in 0..table.instances.len() {
            let instance = table.instances[number];
            self.put_row_clocks(alloc, frame, reached, table, number, &instance)?;
        }
        Ok(())
    }
}
