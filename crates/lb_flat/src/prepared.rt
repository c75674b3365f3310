//! Programs made ready to run, once for all traces and all workers.

ghost use Rattle.std.specs.Prelude.{◌≡◌, true, false, replicate, IfOk};
ghost use Rattle.lb_flat.specs.InOrder.{is_in_order};
ghost use Rattle.lb_flat.specs.PreparedPrograms.{IsPrepared, prepared_props};
ghost use Rattle.lb_flat.specs.Programs.{flat_equations, IsInRange};

use crate::cell::Cell;
use crate::equation::{Equation, InputPlace};
use crate::flat::Ordered;
use crate::prepare::{put_apart, set_constants};
use crate::program::FlatProgram;
use std::alloc::{AllocError, Global};

/// A program, and what is known of it before the instants of any trace. Nothing in it changes while
/// traces run, so all workers share one.
///
/// ```text
/// let prepared = Prepared::new(alloc, &ordered)?;
/// ```
#[derive(Drop)]
pub struct Prepared<'a> {
    pub(crate) program: &'a FlatProgram,
    /// The elements that hold inputs.
    pub(crate) inputs: Vec<InputPlace>,
    /// The equations that are computed at each instant, with the memories before instant 0.
    pub(crate) steps: Vec<Equation>,
    /// The places of the steps that have a memory.
    pub(crate) memories: Vec<usize>,
    /// A row that holds the constants, and nothing else.
    pub(crate) row: Vec<Cell>,
    pub(crate) ghost in_range: { IsInRange program.now },
    pub(crate) ghost in_order: { is_in_order (replicate program.now.size false)
        (flat_equations program.now.clocks.items program.now.equations.items) ≡ true },
    pub(crate) ghost prepared: { IsPrepared program.now inputs.items steps.items memories.items
        row.items } by { Prim.hlevel prepared_props },
}

impl<'a> Prepared<'a> {
    ghost use Rattle.lb_flat.specs.PreparedParts.{program_in};

    /// A program in order, made ready to run. It takes memory once, however many traces run.
    pub fn new(alloc: Global, ordered: &'a Ordered) -> Result<Prepared<'a>, AllocError>
        ensures { IfOk result (λ p. program_in p ≡ ordered.now.program) }
    {
        let program = &ordered.program;
        let equations = program.equations.as_slice();
        let clocks = program.clocks.as_slice();
        let mut inputs = Vec::new(alloc);
        let mut steps = Vec::new(alloc);
        let mut memories = Vec::new(alloc);
        put_apart(
            equations,
            program.size,
            clocks,
            &mut inputs,
            &mut steps,
            &mut memories,
        )?;
        let mut row = vec![in alloc; Cell::Absent; program.size as usize]?;
        set_constants(row.as_mut_slice(), equations, clocks);
        Ok(Prepared {
            program,
            inputs,
            steps,
            memories,
            row,
        })
    }
}
