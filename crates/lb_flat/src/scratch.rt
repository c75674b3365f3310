//! The room in which a worker computes instants.

ghost use Rattle.std.specs.Prelude.{◌≡◌, IfOk};

use crate::cell::Cell;
use crate::equation::Equation;
use crate::prepared::Prepared;
use std::alloc::{AllocError, Global};

/// The steps with their memories, and the row of an instant. A worker makes it once; its contents
/// from one trace do not affect the next.
#[derive(Drop)]
pub struct Scratch {
    pub(crate) steps: Vec<Equation>,
    pub(crate) row: Vec<Cell>,
}

impl Scratch {
    ghost use Rattle.lb_flat.specs.PreparedParts.{IsRoomFor};

    /// Room for a program.
    pub fn new(alloc: Global, prepared: &Prepared<'_>) -> Result<Scratch, AllocError>
        ensures { IfOk result (IsRoomFor prepared.now) }
    {
        let mut steps = Vec::new(alloc);
        steps.extend_from_slice(prepared.steps.as_slice())?;
        let mut row = Vec::new(alloc);
        row.extend_from_slice(prepared.row.as_slice())?;
        Ok(Scratch { steps, row })
    }

    // Resets the memories and the row to their state before instant 0.
    pub(crate) fn restart(&mut self, prepared: &Prepared<'_>)
        requires { IsRoomFor prepared.now self.old }
        ensures steps { self.new.steps.items ≡ prepared.now.steps.items }
        ensures row { self.new.row.items ≡ prepared.now.row.items }
    {
        self.steps
            .as_mut_slice()
            .copy_from_slice(prepared.steps.as_slice());
        self.row
            .as_mut_slice()
            .copy_from_slice(prepared.row.as_slice());
    }
}
