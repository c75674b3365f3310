//! Stretches of a trace text.

ghost use Rattle.std.specs.Prelude.{◌≡◌, ◌++◌, ℕ, List, false};
ghost use Rattle.lb_static.specs.Signature.{Elements};
ghost use Rattle.lb_traces.specs.Traces.{Traces};
ghost use Rattle.lb_trace.specs.Plain.{has_quote};
ghost use Rattle.lb_trace.specs.Spelling.{Spells};
ghost use Rattle.lb_part_laws.specs.Stretches.{AreSpelled, AreStretches, IsHead};

/// A text without quotes that spells traces may be cut where traces begin. Then each stretch,
/// behind the head of the text, spells some of them: the traces of the text are those of the
/// stretches, one after the other. This is a law, and computes nothing.
pub fn stretches_of_a_text_spell_its_traces()
    ensures { (elements : Elements) → (head body : List ℕ) → (stretches : List (List ℕ))
        → (traces : Traces) → IsHead head → has_quote (head ++ body) ≡ false
        → AreStretches body stretches → Spells elements (head ++ body) traces
        → AreSpelled elements head stretches traces }
{}
