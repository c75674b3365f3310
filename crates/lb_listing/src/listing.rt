//! The list of a report, with its traces by their names.

ghost use Rattle.std.specs.Prelude.{◌≡◌, ◌∷◌, ◌++◌, [], IfOk, OnErr, false, true, not, is_some};
ghost use Rattle.std.specs.Prelude.{map};
ghost use Rattle.lb_listing.specs.Indexed as indexed;
ghost use Rattle.lb_listing.specs.Listings as spec;

use crate::entry::Entry;
use lb_check::Verdict;
use std::alloc::{AllocError, Global};
use std::collections::BTreeMap;

/// The list of a report: a line for each trace, in order.
#[derive(Drop)]
pub struct Listing<'a> {
    pub entries: Vec<Entry<'a>>,
    by_name: BTreeMap<&'a str, Verdict>,
}

impl<'a> Listing<'a> {
    /// A list without a trace.
    pub(crate) fn new(alloc: Global) -> Listing<'a>
        ensures empty { result.entries.items ≡ [] }
        ensures indexed { indexed.IsIndexed result }
    {
        Listing {
            entries: Vec::new(alloc),
            by_name: BTreeMap::new(alloc),
        }
    }

    /// The verdict of the trace with a name.
    pub(crate) fn verdict_of(&self, name: &str) -> Option<Verdict>
        requires { indexed.IsIndexed self.now }
        ensures { result ≡ spec.verdict_in name.now (indexed.listed self.now) }
    {
        self.by_name.get(name).copied()
    }

    /// Adds a trace, unless there is one with its name, and returns whether it was added.
    pub(crate) fn push(&mut self, entry: Entry<'a>) -> Result<bool, AllocError>
        requires { indexed.IsIndexed self.old }
        ensures fresh { IfOk result (λ fresh. let name = entry.entry.name.now in
            fresh ≡ not (is_some (spec.verdict_in name (indexed.listed self.old)))) }
        ensures pushed { IfOk result (λ fresh. fresh ≡ true →
            self.new.entries.items ≡ self.old.entries.items ++ entry.entry ∷ []) }
        ensures indexed { IfOk result (λ fresh. fresh ≡ true → indexed.IsIndexed self.new) }
        ensures kept { IfOk result (λ fresh. fresh ≡ false → self.new ≡ self.old) }
    {
        if self.verdict_of(entry.name).is_some() {
            return Ok(false);
        }
        self.by_name.insert(entry.name, entry.verdict)?;
        self.entries.push(entry)?;
        Ok(true)
    }
}
