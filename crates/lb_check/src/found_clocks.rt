//! The clocks that are found of the terms and calls of a node.

ghost use Rattle.std.specs.Prelude.{◌≡◌, OnOk};
ghost use Rattle.lb_check.specs.PlacedClocks as placed_mirror;

use crate::own_clock::Clock;
use lb_static::VariableId;
use std::alloc::{AllocError, Global};

/// A variable of a callee, and the variable of its caller that stands for it.
#[derive(Clone, Copy)]
pub struct GivenVariable {
    pub callee: VariableId,
    pub caller: VariableId,
}

/// The clock of a call, and the variables that it gives for clock parameters.
#[derive(Drop)]
pub struct CallClock {
    /// The clock on which the instances of the call run.
    pub runs: Clock,
    /// The variables that stand for the clock parameters of the callee.
    pub given: Vec<GivenVariable>,
}

/// The clocks of the terms and calls of a node, in text order.
#[derive(Drop)]
pub struct NodeClocks {
    /// The clock on which each term stands.
    pub terms: Vec<Clock>,
    /// The clock of each call, with the variables that it gives.
    pub calls: Vec<CallClock>,
}

impl NodeClocks {
    /// The clocks of no term.
    pub(crate) fn new(alloc: Global) -> NodeClocks
        ensures { placed_mirror.found_in result ≡ placed_mirror.nothing_found }
    {
        NodeClocks {
            terms: Vec::new(alloc),
            calls: Vec::new(alloc),
        }
    }

    /// Notes the clock of a term that is no call.
    pub(crate) fn note(&mut self, clock: Clock) -> Result<(), AllocError>
        ensures { OnOk result (placed_mirror.found_in self.new
            ≡ placed_mirror.with_term (placed_mirror.found_in self.old)
            (placed_mirror.part clock)) }
    {
        self.terms.push(clock)?;
        Ok(())
    }

    /// Notes the clock of a call, and its `CallClock`.
    pub(crate) fn note_call(&mut self, clock: Clock, call: CallClock) -> Result<(), AllocError>
        ensures { OnOk result (placed_mirror.found_in self.new
            ≡ placed_mirror.with_term (placed_mirror.found_in self.old)
            (placed_mirror.called clock (placed_mirror.call_in call))) }
    {
        self.terms.push(clock)?;
        self.calls.push(call)?;
        Ok(())
    }
}
