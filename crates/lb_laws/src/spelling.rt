//! The traces that a text spells.

ghost use Rattle.std.specs.Prelude.{◌≡◌, ℕ, List};
ghost use Rattle.lb_static.specs.Signature.{Elements};
ghost use Rattle.lb_traces.specs.Traces.{Traces};
ghost use Rattle.lb_trace.specs.Spelling.{Spells};

/// A text spells at most one list of traces under a signature. So the list that a reading promises
/// is the only one. This is a law, and computes nothing.
pub fn one_list_of_traces_is_spelled()
    ensures { (elements : Elements) → (text : List ℕ) → (traces other : Traces)
        → Spells elements text traces → Spells elements text other → other ≡ traces }
{}
