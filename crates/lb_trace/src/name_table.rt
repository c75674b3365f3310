//! The names of traces by their hashes.
//!
//! Each name has two places in a table, which its two hashes give. A name whose places are both
//! taken by other names is put into an ordered set. Few names are, and even names that are chosen
//! for their hashes take no longer than a search in that set.

ghost use Rattle.std.specs.Prelude.{◌≡◌, ℕ, ◌+◌, ◌*◌, ◌/◌, ◌%◌, ◌^◌, ◌<◌, ◌≤◌, List, [], length};
ghost use Rattle.std.specs.Prelude.{true, false, get_or, OnOk};
ghost use Rattle.std.specs.BTreeSet.{contains_text};
ghost use Rattle.std.specs.List.{list_any};
ghost use Rattle.std.specs.Str.{bytes_eq};
ghost use Rattle.lb_traces.specs.Traces.{trace_names};
ghost use Rattle.lb_trace.specs.NamePlaces.{at_first, at_second, first_hash, second_hash};
ghost use Rattle.lb_trace.specs.NamePlaces.{place_among, HavePlaces};
ghost use Rattle.lb_trace.specs.Mirrors.{IsTableOf};

use lb_traces::TraceSet;
use std::alloc::{AllocError, Global};
use std::collections::BTreeSet;
use std::hash::{FoldHasher, Hasher};

/// The table of the names of traces.
#[derive(Drop)]
pub(crate) struct NameTable {
    /// At each place the number of the trace whose name stands there, counted from 1, or 0.
    pub(crate) places: Vec<u32>,
    /// The names whose places are taken by other names.
    pub(crate) others: BTreeSet<String>,
}

// The hash that gives a name its first place.
fn first_hash(name: &str) -> u64
    ensures { result ≡ first_hash name.now }
{
    let mut hasher = FoldHasher::default();
    hasher.write(name.as_bytes());
    hasher.finish()
}

// The hash that gives a name its second place. Names that are chosen for equal first hashes do not
// thereby have equal second hashes.
fn second_hash(name: &str) -> u64
    ensures { result ≡ second_hash name.now }
{
    let mut hasher = FoldHasher::default();
    hasher.write(b"second");
    hasher.write(name.as_bytes());
    hasher.finish()
}

// The place, of `count` places, that a hash gives.
fn place_among(hash: u64, count: u32) -> usize
    requires { 0 < count }
    ensures place { result ≡ place_among count hash }
    ensures within { result < count }
{
    ((hash >> 32) * count as u64 >> 32) as usize
}

impl NameTable {
    /// A table with no place.
    pub(crate) fn new(alloc: Global) -> NameTable
        ensures places { result.places.items ≡ [] }
        ensures others { (q : List ℕ) → contains_text result.others q ≡ false }
    {
        NameTable {
            places: Vec::new(alloc),
            others: BTreeSet::new(alloc),
        }
    }

    /// Whether a name is the name of one of `traces`.
    pub(crate) fn has(&self, traces: &TraceSet, name: &str) -> bool
        requires { IsTableOf self.now (trace_names traces.now.traces) }
        ensures { result ≡ list_any (λ t. bytes_eq name.now t.0) traces.now.traces }
    {
        let first = self.first(name);
        if first == 0 {
            return false;
        }
        if traces.name(first - 1) == name {
            return true;
        }
        let second = self.second(name);
        if second == 0 {
            return false;
        }
        if traces.name(second - 1) == name {
            return true;
        }
        self.others.contains(name)
    }

    /// Makes room for more names than those of `traces`, where few places are free.
    pub(crate) fn grow(&mut self, alloc: Global, traces: &TraceSet) -> Result<(), AllocError>
        requires { IsTableOf self.old (trace_names traces.now.traces) }
        ensures { OnOk result (IsTableOf self.new (trace_names traces.now.traces)) }
    {
        if 4 * (traces.len() as usize) < self.places.len() {
            return Ok(());
        }
        self.fill(alloc, traces)
    }

    /// Makes room for more names than those of `traces`, and puts the names of `traces` there.
    pub(crate) fn fill(&mut self, alloc: Global, traces: &TraceSet) -> Result<(), AllocError>
        requires { (q : List ℕ) → contains_text self.old.others q ≡ true
            → list_any (bytes_eq q) (trace_names traces.now.traces) ≡ true }
        ensures { OnOk result (IsTableOf self.new (trace_names traces.now.traces)) }
    {
        self.places = vec![in alloc; 0u32; 16 * (traces.len() as usize) + 64]?;
        for k in 0..traces.len() {
            self.put(alloc, traces.name(k), k)?;
        }
        Ok(())
    }

    // The number at the first place of a name: that of a trace, counted from 1, or 0.
    fn first(&self, name: &str) -> u32
        requires { (0 < length self.now.places.items)
            × (length self.now.places.items < 4294967296) }
        ensures { result ≡ at_first self.now.places.items name.now }
    {
        self.places[place_among(first_hash(name), self.places.len() as u32)]
    }

    // The number at the second place of a name: that of a trace, counted from 1, or 0.
    fn second(&self, name: &str) -> u32
        requires { (0 < length self.now.places.items)
            × (length self.now.places.items < 4294967296) }
        ensures { result ≡ at_second self.now.places.items name.now }
    {
        self.places[place_among(second_hash(name), self.places.len() as u32)]
    }

    /// Puts the next name, which has `before` names before it.
    pub(crate) fn put(&mut self, alloc: Global, name: &str, before: u32) -> Result<(), AllocError>
        requires few { before ≤ 1000000 }
        requires room { (0 < length self.old.places.items)
            × (length self.old.places.items < 4294967296) }
        ensures room { OnOk result (length self.new.places.items
            ≡ length self.old.places.items) }
        ensures put { OnOk result ((names : List (List ℕ)) → get_or names before [] ≡ name.now
            → before < length names
            → HavePlaces self.old.places.items (contains_text self.old.others) names before
            → HavePlaces self.new.places.items (contains_text self.new.others) names
            (before + 1)) }
    {
        let count = self.places.len() as u32;
        let first = place_among(first_hash(name), count);
        if self.places[first] == 0 {
            self.places[first] = before + 1;
            return Ok(());
        }
        let second = place_among(second_hash(name), count);
        if self.places[second] == 0 {
            self.places[second] = before + 1;
            return Ok(());
        }
        let Ok(key) = String::from_str(alloc, name) else {
            return Err(AllocError);
        };
        let Ok(_) = self.others.insert(key) else {
            return Err(AllocError);
        };
        Ok(())
    }
}
