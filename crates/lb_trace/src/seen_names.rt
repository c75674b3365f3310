//! The names of the traces so far.
//!
//! Recorded traces are mostly numbered, so that each name is longer than the one before it, or as
//! long and greater:
//!
//! ```text
//! t8, t9, t10, t11
//! ```
//!
//! While names rise so, a name that rises above the last one is new. At the first name that does
//! not rise, all of them are put into a table.

ghost use Rattle.std.specs.Prelude.{◌≡◌, ◌&&◌, not, ℕ, List, [], IfOk, IfErr, OnOk, MatchOption};
ghost use Rattle.std.specs.Prelude.{false, true};
ghost use Rattle.std.specs.List.{list_any};
ghost use Rattle.std.specs.Str.{bytes_eq};
ghost use Rattle.lb_traces.specs.Traces.{IsTraceName, Row, trace_names, with_trace};
ghost use Rattle.lb_trace.specs.Errors.{error_number};
ghost use Rattle.lb_trace.specs.Mirrors.{is_below, knows, rises_to, IsTableOf};
ghost use Rattle.lb_trace.specs.Refusals.{is_trace_name as lawful_name};

use crate::error::TraceError;
use crate::name_table::NameTable;
use lb_traces::{TraceSet, is_trace_name};
use std::alloc::{AllocError, Global};

/// The known names, by which a name is new or not.
pub(crate) struct SeenNames {
    /// Whether each name rises above the one before; the table is not in use then.
    pub(crate) rising: bool,
    /// All names.
    pub(crate) table: NameTable,
}

// Not derived, so that a caller drops it in one step.
impl Drop for SeenNames {
    fn drop(self) {
        let SeenNames {
            rising: _,
            table: _,
        } = self;
    }
}

// Whether a name is shorter than another, or as long and smaller.
fn is_below(name: &str, other: &str) -> bool
    ensures { result ≡ is_below name.now other.now }
{
    name.len().cmp(&other.len()).then(name.cmp(other)).is_lt()
}

// Whether a name rises above the name of the last trace.
fn rises_to(traces: &TraceSet, name: &str) -> bool
    ensures { result ≡ rises_to traces.now.traces name.now }
{
    let count = traces.len();
    if count == 0 {
        return true;
    }
    is_below(traces.name(count - 1), name)
}

impl SeenNames {
    /// No name yet.
    pub(crate) fn new(alloc: Global) -> SeenNames
        ensures { knows result [] }
    {
        SeenNames {
            rising: true,
            table: NameTable::new(alloc),
        }
    }

    /// Drops all names.
    pub(crate) fn clear(&mut self)
        ensures { knows self.new [] }
    {
        self.rising = true;
    }

    /// Adds a name to those of `traces` and returns it; None where it is not lawful or not new.
    pub(crate) fn take<'a>(
        &mut self,
        alloc: Global,
        traces: &TraceSet,
        name: &'a [u8],
    ) -> Result<Option<&'a str>, TraceError>
        requires { knows self.old traces.now.traces }
        ensures found { IfOk result (λ found. MatchOption found
            ((lawful_name name.now
            && not (list_any (λ t. bytes_eq name.now t.0) traces.now.traces)) ≡ false)
            (λ text. (text.now ≡ name.now) × IsTraceName name.now
            × (list_any (λ t. bytes_eq name.now t.0) traces.now.traces ≡ false)
            × ((row : Row) → knows self.new (with_trace traces.now.traces name.now row)))) }
        ensures memory { IfErr result (λ e. error_number e ≡ 0) }
    {
        if !is_trace_name(name) {
            return Ok(None);
        }
        let Ok(text) = str::from_utf8(name) else {
            return Ok(None);
        };
        let Ok(is_new) = self.takes(alloc, traces, text) else {
            return Err(TraceError::Memory(AllocError));
        };
        if !is_new {
            return Ok(None);
        }
        Ok(Some(text))
    }

    /// Adds a lawful name to those of `traces` where it is new, and returns whether it is.
    #[inline]
    pub(crate) fn takes(
        &mut self,
        alloc: Global,
        traces: &TraceSet,
        name: &str,
    ) -> Result<bool, AllocError>
        requires { knows self.old traces.now.traces }
        ensures new { IfOk result (λ is_new. is_new
            ≡ not (list_any (λ t. bytes_eq name.now t.0) traces.now.traces)) }
        ensures known { IfOk result (λ is_new. is_new ≡ true
            → (row : Row) → knows self.new (with_trace traces.now.traces name.now row)) }
    {
        if self.is_above(traces, name) {
            return Ok(true);
        }
        self.takes_below(alloc, traces, name)
    }

    // `takes` where the names do not rise, or `name` does not rise above the last one.
    #[inline(never)]
    fn takes_below(
        &mut self,
        alloc: Global,
        traces: &TraceSet,
        name: &str,
    ) -> Result<bool, AllocError>
        requires { knows self.old traces.now.traces }
        ensures new { IfOk result (λ is_new. is_new
            ≡ not (list_any (λ t. bytes_eq name.now t.0) traces.now.traces)) }
        ensures known { IfOk result (λ is_new. is_new ≡ true
            → (row : Row) → knows self.new (with_trace traces.now.traces name.now row)) }
    {
        self.gather(alloc, traces)?;
        if self.table.has(traces, name) {
            return Ok(false);
        }
        self.table.put(alloc, name, traces.len())?;
        Ok(true)
    }

    // Whether the names rise, and this one rises above the last of them.
    fn is_above(&self, traces: &TraceSet, name: &str) -> bool
        ensures { result ≡ (self.now.rising && rises_to traces.now.traces name.now) }
    {
        if !self.rising {
            return false;
        }
        rises_to(traces, name)
    }

    // Puts all names into the table, if they are not there yet, and makes room for more.
    fn gather(&mut self, alloc: Global, traces: &TraceSet) -> Result<(), AllocError>
        requires { knows self.old traces.now.traces }
        ensures risen { OnOk result (self.new.rising ≡ false) }
        ensures table { OnOk result (IsTableOf self.new.table (trace_names traces.now.traces)) }
    {
        if !self.rising {
            return self.table.grow(alloc, traces);
        }
        self.table = NameTable::new(alloc);
        self.table.fill(alloc, traces)?;
        self.rising = false;
        Ok(())
    }
}
