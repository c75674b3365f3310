//! The ends of the steps of a reason.

ghost use Rattle.std.specs.Prelude.{◌≡◌, ℕ, List, true};
ghost use Rattle.lb_flat.specs.Flat.{FlatEquation};
ghost use Rattle.lb_flat.specs.Run.{Row, cell};
ghost use Rattle.lb_reason.specs.Deciding.{is_bad, is_nil};
ghost use Rattle.lb_reason.specs.Ends.{HasEnd, IsFollowed};

/// Steps go on until no element decides the last one. Where the first element is a fault, each step
/// is one too, and the operation of the last step takes no operand that is a fault. The law for nil
/// is alike. This is a law, and computes nothing.
pub fn reasons_lead_to_where_they_arise()
    ensures end { (Q : List FlatEquation) → (row : Row) → (first : ℕ) → HasEnd Q row first }
    ensures fault { (Q : List FlatEquation) → (row : Row) → (first : ℕ)
        → is_bad (cell row first) ≡ true → IsFollowed is_bad Q row first }
    ensures nil { (Q : List FlatEquation) → (row : Row) → (first : ℕ)
        → is_nil (cell row first) ≡ true → IsFollowed is_nil Q row first }
{}
