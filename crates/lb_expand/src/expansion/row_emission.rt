//! The emission of the rows of the table of instances, one row after another.

ghost use Rattle.std.specs.Prelude.{◌≡◌, ◌<◌, ◌≤◌, ◌^◌, length, OnOk};
ghost use Rattle.lb_syntax.specs.Lists.{Every};
ghost use Rattle.lb_expand.specs.EmitRows.{body_in, bodies, IsCounted};
ghost use Rattle.lb_expand.specs.EmitRows.{HasRow, HasRows};
ghost use Rattle.lb_expand.specs.EmitTerms as mirror;
ghost use Rattle.lb_expand.specs.Frames.{HasPlaces};
ghost use Rattle.lb_flat.specs.Programs.{numbers_of};
ghost use Rattle.lb_expand.specs.TermEmissions.{state_of};

use crate::clocks::node_at;
use crate::expansion::frame::{Cursor, Frame, TableFrame};
use crate::expansion::term_emission::TermEmission;
use lb_static::{Instance, Reached, ResolvedStatement, Table};
use std::alloc::AllocError;

impl TermEmission {
    /// Emits the statements of a node.
    fn statements<F: Frame>(
        &mut self,
        frame: &F,
        statements: &[ResolvedStatement],
    ) -> Result<(), AllocError>
        requires clocks { F.clocks frame.now ≡ self.old.clocks.items }
        requires variables { F.variables frame.now ≤ self.old.next }
        requires elements { (mirror.emit_statements (F.context frame.now) mirror.first_place
            (state_of self.old) statements.now).state.next < 2 ^ 32 }
        requires places { HasPlaces (mirror.emit_statements (F.context frame.now)
            mirror.first_place (state_of self.old) statements.now).place }
        ensures state { OnOk result (state_of self.new
            ≡ (mirror.emit_statements (F.context frame.now) mirror.first_place
            (state_of self.old) statements.now).state) }
        ensures found { OnOk result (numbers_of self.new.found.items
            ≡ numbers_of self.old.found.items) }
        ensures clocks { OnOk result (self.new.clocks ≡ self.old.clocks) }
    {
        let mut at = Cursor { term: 0, call: 0 };
        for statement in statements {
            at = self.statement(frame, statement, at)?;
        }
        Ok(())
    }

    /// Emits the statements of row `number`.
    fn row<F: TableFrame>(
        &mut self,
        frame: &mut F,
        reached: &Reached,
        table: &Table,
        number: usize,
        row: &Instance,
    ) -> Result<(), AllocError>
        requires clocks { F.clocks frame.old ≡ self.old.clocks.items }
        requires variables { F.variables frame.old ≤ self.old.next }
        requires elements { (mirror.emit_rows (state_of self.old) (body_in reached.now table.now
            (F.contexts frame.old) number row.now)).next < 2 ^ 32 }
        requires places { Every IsCounted (body_in reached.now table.now
            (F.contexts frame.old) number row.now) }
        requires there { HasRow reached.now table.now (F.is_row frame.old) number row.now }
        ensures state { OnOk result (state_of self.new
            ≡ mirror.emit_rows (state_of self.old) (body_in reached.now table.now
            (F.contexts frame.old) number row.now)) }
        ensures found { OnOk result (numbers_of self.new.found.items
            ≡ numbers_of self.old.found.items) }
        ensures clocks { OnOk result (self.new.clocks ≡ self.old.clocks) }
        ensures rows { F.is_row frame.new ≡ F.is_row frame.old }
        ensures contexts { F.contexts frame.new ≡ F.contexts frame.old }
        ensures table { F.clocks frame.new ≡ F.clocks frame.old }
        ensures variables { F.variables frame.new ≡ F.variables frame.old }
    {
        match node_at(reached, table, row) {
            Some(node) => {
                frame.enter(number);
                self.statements(&*frame, &node.body)
            }
            None => Ok(()),
        }
    }

    /// Emits the statements of all rows.
    pub(crate) fn rows<F: TableFrame>(
        &mut self,
        frame: &mut F,
        reached: &Reached,
        table: &Table,
    ) -> Result<(), AllocError>
        requires clocks { F.clocks frame.old ≡ self.old.clocks.items }
        requires variables { F.variables frame.old ≤ self.old.next }
        requires elements { (mirror.emit_rows (state_of self.old) (bodies reached.now table.now
            (F.contexts frame.old) 0 table.now.instances.items)).next < 2 ^ 32 }
        requires places { Every IsCounted (bodies reached.now table.now
            (F.contexts frame.old) 0 table.now.instances.items) }
        requires there { HasRows reached.now table.now (F.is_row frame.old) }
        ensures state { OnOk result (state_of self.new
            ≡ mirror.emit_rows (state_of self.old) (bodies reached.now table.now
            (F.contexts frame.old) 0 table.now.instances.items)) }
        ensures found { OnOk result (numbers_of self.new.found.items
            ≡ numbers_of self.old.found.items) }
        ensures clocks { OnOk result (self.new.clocks ≡ self.old.clocks) }
        ensures rows { OnOk result (F.is_row frame.new ≡ F.is_row frame.old) }
        ensures contexts { OnOk result (F.contexts frame.new ≡ F.contexts frame.old) }
        ensures table { OnOk result (F.clocks frame.new ≡ F.clocks frame.old) }
        ensures variables { OnOk result (F.variables frame.new ≡ F.variables frame.old) }
    {
        for number in 0..table.instances.len() {
            let instance = table.instances[number];
            self.row(frame, reached, table, number, &instance)?;
        }
        Ok(())
    }
}
