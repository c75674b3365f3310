//! The reports on the parts of a trace text.

ghost use Rattle.std.specs.Prelude.{◌≡◌, ℕ, List};
ghost use Rattle.lb_syntax.specs.Tokens.{Text};
ghost use Rattle.lb_output.specs.declared.text.Report.{Report};
ghost use Rattle.lb_listing.specs.Merged.{IsMerged};
ghost use Rattle.lb_report.specs.Bench.{IsBenchReport};
ghost use Rattle.lb_refusal.specs.declared.options.Options.{Options};
ghost use Rattle.lb_part_laws.specs.PartTexts.{AreParts};
ghost use Rattle.lb_part_laws.specs.Reported.{AreReportsOn, texts_in};

/// The merged reports on the parts of a trace text are the report on all of it, byte for byte. This
/// is a law, and computes nothing.
pub fn reports_on_parts_are_merged_to_the_report_on_all()
    ensures { (source all : Text) → (options : Options) → (texts : List Text)
        → (reports : List Report) → (whole : Report) → (merged : List ℕ) → AreParts all texts
        → AreReportsOn source options texts reports → IsBenchReport source all options whole
        → IsMerged (texts_in reports) merged → merged ≡ whole.text.items }
{}
