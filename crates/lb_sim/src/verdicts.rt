//! Receivers of the verdicts of a queue.

ghost use Rattle.std.specs.Prelude.{◌≡◌, ◌≢◌, ℕ, ◌<◌, length, get_or};
ghost use Rattle.lb_check.specs.declared.verdict.Verdict.{Verdict};
ghost use Rattle.lb_check.specs.declared.verdict.Verdict.TheVariants.{Passed};

use lb_check::Verdict;

/// A receiver of the verdict of each member of a queue, as soon as its trace has one or has ended.
/// Examples: a list of verdicts; a board that shows them while the rest of the queue still runs.
pub trait Verdicts {
    /// Whether it takes this verdict of the member at a place.
    ghost takes: { Self → ℕ → Verdict → Type 0 };

    /// Whether it has this verdict of the member at a place.
    ghost has: { Self → ℕ → Verdict → Type 0 };

    /// Whether the first state may become the second as verdicts are kept.
    ghost becomes: { Self → Self → Type 0 };

    /// Keeps the verdict of the member at a place of the queue.
    fn keep(&mut self, place: u32, verdict: Verdict)
        requires { takes self.old place verdict }
        ensures kept { has self.new place verdict }
        ensures others { (k : ℕ) (v : Verdict) → k ≢ place
            → has self.old k v → has self.new k v }
        ensures becomes { becomes self.old self.new };

    ghost becomes_itself: { (s : Self) → becomes s s };

    ghost becomes_further: { (s t u : Self) → becomes s t → becomes t u → becomes s u };

    ghost takes_still: { (s t : Self) (k : ℕ) (v : Verdict) → becomes s t
        → takes s k v → takes t k v };
}

/// A slice with a verdict for each member, in the order of the members.
#[derive(Drop)]
pub(crate) struct InOrder<'a> {
    pub(crate) verdicts: &'a mut [Verdict],
}

impl Verdicts for InOrder<'_> {
    ghost use Rattle.std.proofs.Common.{rules, refl, ◌∙◌};

    ghost takes = { λ s k v. k < length s.verdicts.now };

    ghost has = { λ s k v. get_or s.verdicts.now k Passed ≡ v };

    ghost becomes = { λ s t. (t.verdicts.ghost_name ≡ s.verdicts.ghost_name)
        × (length t.verdicts.now ≡ length s.verdicts.now) };

    fn keep(&mut self, place: u32, verdict: Verdict) {
        self.verdicts[place as usize] = verdict;
    }

    ghost becomes_itself = { λ s. (refl, refl) };

    ghost becomes_further = { λ s t u a b. (b.0 ∙ a.0, b.1 ∙ a.1) };

    ghost takes_still = { Prim.search rules };
}
