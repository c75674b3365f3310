//! The law of the first refusal of two texts.

ghost use Rattle.std.specs.Prelude.{Option};
ghost use Rattle.lb_syntax.specs.Tokens.{Text};
ghost use Rattle.lb_syntax.specs.Tree.{Name};
ghost use Rattle.lb_report.specs.FirstRefusals.{IsOnlyFirstRefusal, first_refusal};

/// The computed first refusal is the only one that the relation `IsFirstRefusal` allows: so there
/// is one, or none, and never two. This is a law, and computes nothing.
pub fn first_refusal_is_computed()
    ensures { (source traces : Text) → (node : Name) → (observer : Option Name)
        → IsOnlyFirstRefusal source traces node observer
        (first_refusal source traces node observer) }
{}
