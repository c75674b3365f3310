//! The planes and words before the code runs.

ghost use Rattle.std.specs.Prelude.{◌≡◌, ℕ, ◌+◌, ◌<◌, ◌≤◌, pos, length, IfOk, IfSome, OnOk};
ghost use Rattle.std.specs.Prelude.{slice_index, slice_index_or};
ghost use Rattle.lb_lanes.specs.Planes.{on};

use lb_machine::{PlaneId, WordId};
use std::alloc::{AllocError, Global};

/// The planes and words before the first instant, alike in all lanes: the first plane is false, the
/// second is true, and the first word is 0.
#[derive(Drop)]
pub(crate) struct Preset {
    pub(crate) planes: Vec<u64>,
    pub(crate) words: Vec<i32>,
    pub(crate) ghost nowhere: { slice_index planes.items 0 ≡ 0 },
    pub(crate) ghost everywhere: { slice_index planes.items 1 ≡ 18446744073709551615 },
    pub(crate) ghost zero: { slice_index_or words.items 0 (pos 0) ≡ pos 0 },
    pub(crate) ghost two_planes: { 2 ≤ length planes.items },
    pub(crate) ghost one_word: { 1 ≤ length words.items },
    pub(crate) ghost few_planes: { length planes.items ≤ 4294967295 },
    pub(crate) ghost few_words: { length words.items ≤ 4294967295 },
}

impl Preset {
    ghost use Rattle.lb_sim.specs.Presets.{IsMore};

    /// The plane that is false everywhere, the one that is true everywhere, and the word 0.
    pub(crate) fn new(alloc: Global) -> Result<Preset, AllocError>
        ensures planes { IfOk result (λ p. length p.planes.items ≡ 2) }
        ensures words { IfOk result (λ p. length p.words.items ≡ 1) }
    {
        let mut planes = Vec::new(alloc);
        planes.push(0u64)?;
        planes.push(u64::MAX)?;
        let mut words = Vec::new(alloc);
        words.push(0i32)?;
        Ok(Preset { planes, words })
    }

    /// Adds a plane that is `value` in each lane.
    pub(crate) fn plane(&mut self, value: bool) -> Result<PlaneId, AllocError>
        requires { length self.old.planes.items < 4294967295 }
        ensures more { OnOk result (IsMore self.old self.new) }
        ensures place { IfOk result (λ p. p.0 ≡ length self.old.planes.items) }
        ensures planes { OnOk result (length self.new.planes.items
            ≡ length self.old.planes.items + 1) }
        ensures words { self.new.words.items ≡ self.old.words.items }
        ensures value { IfOk result (λ p. (i : ℕ) → i < 64
            → on (slice_index self.new.planes.items p.0) i ≡ value) }
    {
        let id = self.planes.len();
        self.planes.push(if value { u64::MAX } else { 0 })?;
        Ok(PlaneId(id as u32))
    }

    /// A word that holds `value` among the first 64 words from `first` on, if there is one.
    pub(crate) fn word_among(&self, first: u32, value: i32) -> Option<WordId>
        ensures { IfSome result (λ w. (first ≤ w.0) × (w.0 < length self.now.words.items)
            × (slice_index_or self.now.words.items w.0 (pos 0) ≡ value)) }
    {
        let first = first as usize;
        let last = self.words.len().min(first + 64);
        for k in first..last {
            if self.words[k] == value {
                return Some(WordId(k as u32));
            }
        }
        None
    }

    /// Adds a word that is `value` in each lane.
    pub(crate) fn word(&mut self, value: i32) -> Result<WordId, AllocError>
        requires { length self.old.words.items < 4294967295 }
        ensures more { OnOk result (IsMore self.old self.new) }
        ensures place { IfOk result (λ w. w.0 ≡ length self.old.words.items) }
        ensures planes { self.new.planes.items ≡ self.old.planes.items }
        ensures words { OnOk result (length self.new.words.items
            ≡ length self.old.words.items + 1) }
        ensures value { IfOk result (λ w.
            slice_index_or self.new.words.items w.0 (pos 0) ≡ value) }
    {
        let id = self.words.len();
        self.words.push(value)?;
        Ok(WordId(id as u32))
    }
}
