//! All parts of a trace text.

ghost use Rattle.std.specs.Prelude.{ℕ, List};
ghost use Rattle.lb_static.specs.Signature.{Elements};
ghost use Rattle.lb_traces.specs.Traces.{Traces};
ghost use Rattle.lb_trace.specs.Spelling.{Spells};
ghost use Rattle.lb_part_laws.specs.PartTexts.{AreParts, SpellTogether};

/// Where a text spells traces, each of its parts spells some of them: the traces of the text are
/// those of its parts, part by part. This is a law, and computes nothing.
pub fn parts_of_a_text_spell_its_traces()
    ensures { (elements : Elements) → (all : List ℕ) → (texts : List (List ℕ))
        → (traces : Traces) → AreParts all texts → Spells elements all traces
        → SpellTogether elements texts traces }
{}
