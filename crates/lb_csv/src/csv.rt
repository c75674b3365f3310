//! Comma-separated values: a record for each instant.
//!
//! ```text
//! instant,main.x,main.A[0],safe.ok
//! 0,1,-7,1
//! 1,,?,0
//! ```
//!
//! An absent cell is empty, a nil cell is `?`, and the value of a fault is `!`.

ghost use Rattle.std.specs.Prelude.{◌≡◌, ◌++◌, map, OnOk};
ghost use Rattle.lb_flat.specs.Values.{cell_of};
ghost use Rattle.lb_csv.specs.CsvTexts.{cell_field, field, header, record_text};
ghost use Rattle.lb_csv.specs.Shown.{names_of};

use crate::column::Column;
use crate::player::Player;
use crate::write::{CHUNK, push, push_cell, push_number};
use lb_history::Cell;
use std::alloc::{AllocError, Global};

/// Comma-separated values of a trace, part by part.
#[derive(Drop)]
pub struct CsvText<'a> {
    player: Player<'a>,
    columns: Vec<Column>,
    /// The cells of the latest instant.
    cells: Vec<Cell>,
    /// Whether the header was written.
    is_begun: bool,
}

/// Adds a comma and a name.
fn push_name(text: &mut Vec<u8>, name: &str) -> Result<(), AllocError>
    ensures { OnOk result (text.new.items ≡ text.old.items ++ field name.now) }
{
    text.push(b',')?;
    push(text, name)
}

/// Adds a comma and a cell.
fn push_field(text: &mut Vec<u8>, cell: Cell) -> Result<(), AllocError>
    ensures { OnOk result (text.new.items ≡ text.old.items ++ cell_field (cell_of cell)) }
{
    text.push(b',')?;
    push_cell(text, cell)
}

/// Adds the header.
fn push_header(text: &mut Vec<u8>, columns: &[Column]) -> Result<(), AllocError>
    ensures { OnOk result (text.new.items ≡ text.old.items ++ header (names_of columns.now)) }
{
    push(text, "instant")?;
    for column in columns {
        push_name(text, column.name.as_str())?;
    }
    push(text, "\n")?;
    Ok(())
}

/// Adds the record of an instant.
fn push_record(text: &mut Vec<u8>, t: u32, cells: &[Cell]) -> Result<(), AllocError>
    ensures { OnOk result (text.new.items
        ≡ text.old.items ++ record_text t (map cell_of cells.now)) }
{
    push_number(text, u64::from(t))?;
    for cell in cells {
        push_field(text, *cell)?;
    }
    push(text, "\n")?;
    Ok(())
}

impl<'a> CsvText<'a> {
    ghost use Rattle.std.specs.Prelude.{[], ◌<◌, ◌+◌, true, false, Ok};
    ghost use Rattle.lb_csv.specs.Csv.{parts_in, rest_in};
    ghost use Rattle.lb_csv.specs.CsvTexts.{records};
    ghost use Rattle.lb_csv.specs.Players.{program_played, inputs_played, next_played};
    ghost use Rattle.lb_csv.specs.Shown.{numbers_of};

    /// The values of some elements at the instants of a player. Nothing is written yet.
    pub fn new(alloc: Global, player: Player<'a>, columns: Vec<Column>) -> CsvText<'a>
        ensures player { result.player ≡ player.entry }
        ensures columns { result.columns ≡ columns }
        ensures begun { result.is_begun ≡ false }
    {
        CsvText {
            player,
            columns,
            cells: Vec::new(alloc),
            is_begun: false,
        }
    }

    /// Adds the header, which was not written before.
    fn begin(&mut self, text: &mut Vec<u8>) -> Result<(), AllocError>
        requires { self.old.is_begun ≡ false }
        ensures text { OnOk result (text.old.items ++ rest_in self.old
            ≡ text.new.items ++ rest_in self.new) }
        ensures begun { OnOk result (self.new.is_begun ≡ true) }
        ensures same { OnOk result (self.new.player ≡ self.old.player) }
    {
        push_header(text, self.columns.as_slice())?;
        self.is_begun = true;
        Ok(())
    }

    /// Adds the record of the next instant.
    fn write_record(&mut self, text: &mut Vec<u8>) -> Result<(), AllocError>
        requires next { next_played self.old.player < self.old.player.end }
        requires begun { self.old.is_begun ≡ true }
        ensures text { OnOk result (text.old.items ++ rest_in self.old
            ≡ text.new.items ++ rest_in self.new) }
        ensures end { OnOk result (self.new.player.end ≡ self.old.player.end) }
        ensures begun { OnOk result (self.new.is_begun ≡ true) }
        ensures next { OnOk result (next_played self.new.player ≡ next_played self.old.player + 1) }
    {
        let t = self.player.next();
        self.player.advance();
        self.player.read(self.columns.as_slice(), &mut self.cells)?;
        push_record(text, t, self.cells.as_slice())?;
        Ok(())
    }

    /// Adds records until a part is full, at least one.
    fn write_records(&mut self, text: &mut Vec<u8>) -> Result<(), AllocError>
        requires next { next_played self.old.player < self.old.player.end }
        requires begun { self.old.is_begun ≡ true }
        ensures text { OnOk result (text.old.items ++ rest_in self.old
            ≡ text.new.items ++ rest_in self.new) }
        ensures fewer { OnOk result (parts_in self.new < parts_in self.old) }
    {
        self.write_record(text)?;
        'records: while self.player.has_next() && text.len() < CHUNK {
            self.write_record(text)?;
        }
        Ok(())
    }

    /// Adds the next part of the text, and returns whether there was one: first the header, and
    /// then records.
    pub fn write(&mut self, text: &mut Vec<u8>) -> Result<bool, AllocError>
        ensures text { OnOk result (text.old.items ++ rest_in self.old
            ≡ text.new.items ++ rest_in self.new) }
        ensures all { result ≡ Ok false → rest_in self.new ≡ [] }
        ensures fewer { result ≡ Ok true → parts_in self.new < parts_in self.old }
    {
        if !self.is_begun {
            self.begin(text)?;
            return Ok(true);
        }
        if !self.player.has_next() {
            return Ok(false);
        }
        self.write_records(text)?;
        Ok(true)
    }
}
