//! One node, without clocks or arrays.

ghost use Rattle.std.specs.Prelude.{List, [], false, negsuc, pos, true, ◌∷◌, ◌≡◌};
ghost use Rattle.lb_syntax.specs.Lists.{Every};
ghost use Rattle.lb_check.specs.Scalars.{Integer, Boolean};
ghost use Rattle.lb_check.specs.Acceptance.{IsAccepted};
ghost use Rattle.lb_check.specs.Verdicts.{HasVerdict};
ghost use Rattle.lb_check.specs.declared.verdict.Verdict.TheVariants.{Passed, Fault, Undefined};
ghost use Rattle.lb_check.specs.declared.verdict.Verdict.TheVariants.{Assertion as Assertion_fails};
ghost use Rattle.lb_check.specs.declared.verdict.Verdict.TheVariants.{False};
ghost use Rattle.lb_worked.specs.WorkedSamples.{trace};
ghost use Rattle.lb_worked.specs.WorkedScalars.{counter, assuming_counter, increment};
ghost use Rattle.lb_worked.specs.WorkedScalars.{quotient_by_minus_one, remainder_by_minus_one};
ghost use Rattle.lb_worked.specs.WorkedScalars.{negation, quotients, literal_quotients, each_sign};
ghost use Rattle.lb_worked.specs.WorkedScalars.{chosen_branch, other_branch, strict_and, strict_or};
ghost use Rattle.lb_worked.specs.WorkedScalars.{strict_implies, strict_count, all_three};
ghost use Rattle.lb_worked.specs.WorkedScalars.{without_a_fault, property_alone, assumed, logic};
ghost use Rattle.lb_worked.specs.WorkedScalars.{equality_of_truths, comparisons, counting};
ghost use Rattle.lb_worked.specs.WorkedScalars.{logic_table, equality_table, comparison_table};
ghost use Rattle.lb_worked.specs.WorkedScalars.{first_then, followed, before_the_first};
ghost use Rattle.lb_worked.specs.WorkedScalars.{truth_before_the_first, guarded_truth};
ghost use Rattle.lb_worked.specs.WorkedScalars.{two_instants_before, unused_operand};
ghost use Rattle.lb_worked.specs.WorkedScalars.{unused_operand_of_fby, unused_operand_of_current};
ghost use Rattle.lb_worked.specs.WorkedScalars.{unused_side, nil_by_zero, one_by_nil};
ghost use Rattle.lb_worked.specs.WorkedScalars.{fault_beside_nil, nil_under_or, nil_counted};
ghost use Rattle.lb_worked.specs.WorkedScalars.{nil_under_nor, nil_condition, nil_branch};
ghost use Rattle.lb_worked.specs.WorkedScalars.{nil_assertion, nil_beside_an_assertion};
ghost use Rattle.lb_worked.specs.WorkedScalars.{nil_beside_a_fault};

/// The notation of traces below: instants parted by semicolons, cells by spaces.
pub fn how_traces_are_written()
    ensures two_instants { trace "1 t; -5 f" ≡
        ((Integer (pos 1) ∷ Boolean true ∷ [])
        ∷ (Integer (negsuc 4) ∷ Boolean false ∷ []) ∷ []) }
    ensures two_instants_without_inputs { trace ";" ≡ ([] ∷ [] ∷ []) }
{}

/// The property: the sum of the inputs after the first stays below ten.
pub fn the_counter_of_the_first_run()
    ensures accepted { Every IsAccepted (counter ∷ assuming_counter ∷ []) }
    ensures false_where_the_sum_is_eleven { HasVerdict counter (trace "1; 5; 6") (False 2) }
    ensures passes_on_one_instant { HasVerdict counter (trace "0") Passed }
    ensures assertion_first { HasVerdict assuming_counter (trace "1; 5; 6") (Assertion_fails 2) }
{}

/// A result out of the range of `int` is a fault; one at the bound is not.
pub fn overflow_at_the_bound()
    ensures accepted { IsAccepted increment }
    ensures fault_past_the_greatest { HasVerdict increment (trace "0; 2147483647") (Fault 1) }
    ensures greatest_is_reached { HasVerdict increment (trace "2147483646") Passed }
{}

/// The least integer has no quotient, remainder or negation in range.
pub fn the_least_integer_by_minus_one()
    ensures accepted { Every IsAccepted (quotient_by_minus_one ∷ remainder_by_minus_one ∷ negation
        ∷ []) }
    ensures divided { HasVerdict quotient_by_minus_one (trace "-2147483648") (Fault 0) }
    ensures remainder { HasVerdict remainder_by_minus_one (trace "-2147483648") (Fault 0) }
    ensures negated { HasVerdict negation (trace "-2147483648") (Fault 0) }
    ensures negation_of_the_greatest { HasVerdict negation (trace "2147483647") Passed }
{}

/// A quotient is cut off toward zero, and a remainder has the sign of the dividend.
pub fn division_cuts_off_toward_zero()
    ensures accepted { Every IsAccepted (quotients ∷ literal_quotients ∷ []) }
    ensures each_sign { HasVerdict quotients each_sign Passed }
    ensures of_literals { HasVerdict literal_quotients (trace "0") Passed }
{}

/// `if` gives the chosen branch alone; `and`, `or`, `=>` and `#` are strict.
pub fn a_fault_in_what_is_not_needed()
    ensures accepted { Every IsAccepted (chosen_branch ∷ other_branch ∷ strict_and ∷ strict_or
        ∷ strict_implies ∷ strict_count ∷ []) }
    ensures branch_not_chosen { HasVerdict chosen_branch (trace "5 0") Passed }
    ensures other_branch_not_chosen { HasVerdict other_branch (trace "5 0") Passed }
    ensures under_and { HasVerdict strict_and (trace "5 0") (Fault 0) }
    ensures under_or { HasVerdict strict_or (trace "5 0") (Fault 0) }
    ensures under_implies { HasVerdict strict_implies (trace "5 0") (Fault 0) }
    ensures under_at_most_one { HasVerdict strict_count (trace "5 0") (Fault 0) }
{}

/// At one instant a fault counts first, then an undefined value, then a failed assertion, then the
/// property.
pub fn the_order_at_one_instant()
    ensures accepted { Every IsAccepted (all_three ∷ without_a_fault ∷ property_alone
        ∷ nil_beside_a_fault ∷ nil_beside_an_assertion ∷ []) }
    ensures fault_first { HasVerdict all_three (trace "0") (Fault 0) }
    ensures fault_before_nil { HasVerdict nil_beside_a_fault (trace "t") (Fault 0) }
    ensures nil_before_assertion { HasVerdict nil_beside_an_assertion (trace "t") (Undefined 0) }
    ensures assertion_next { HasVerdict without_a_fault (trace "0") (Assertion_fails 0) }
    ensures property_last { HasVerdict property_alone (trace "0") (False 0) }
{}

/// The first instant at which the assertion or the property fails decides.
pub fn the_first_instant_decides()
    ensures accepted { IsAccepted assumed }
    ensures assertion_first { HasVerdict assumed (trace "t t; f t; t t; t f") (Assertion_fails 1) }
    ensures property_first { HasVerdict assumed (trace "t t; t f; t t; f t") (False 1) }
{}

/// The tables of the Boolean operators, of the comparisons, and of `#` and `nor`.
pub fn operators_of_data()
    ensures accepted { Every IsAccepted
        (logic ∷ equality_of_truths ∷ comparisons ∷ counting ∷ []) }
    ensures tables_of_logic { HasVerdict logic logic_table Passed }
    ensures equal_truths { HasVerdict equality_of_truths equality_table Passed }
    ensures comparisons_of_integers { HasVerdict comparisons comparison_table Passed }
    ensures one_of_three_but_not_two { HasVerdict counting (trace "t f f; t t f") (False 1) }
    ensures none_is_at_most_one_too { HasVerdict counting (trace "f t f; f f f") (False 1) }
    ensures three_are_too_many { HasVerdict counting (trace "f f t; t t t") (False 1) }
{}

/// At the first instant `->` and `fby` give their first operand, and `pre` is nil.
pub fn first_instants()
    ensures accepted { Every IsAccepted (first_then ∷ followed ∷ before_the_first
        ∷ truth_before_the_first ∷ guarded_truth ∷ two_instants_before ∷ []) }
    ensures arrow { HasVerdict first_then (trace "f 7; t 1; f 5") Passed }
    ensures fby { HasVerdict followed (trace "1 5; 2 1; 3 2") Passed }
    ensures pre_of_an_int_is_nil { HasVerdict before_the_first (trace "2 4; 2 4") Passed }
    ensures pre_of_a_bool_is_nil { HasVerdict truth_before_the_first (trace "t") (Undefined 0) }
    ensures guarded_by_an_arrow { HasVerdict guarded_truth (trace "t; t") Passed }
    ensures one_arrow_for_two_pre { HasVerdict two_instants_before (trace "t; t") (Undefined 1) }
{}

/// A data operator with a nil operand gives nil, and no fault; a faulty operand makes a fault.
pub fn nil_in_operators_of_data()
    ensures accepted { Every IsAccepted (nil_by_zero ∷ one_by_nil ∷ fault_beside_nil ∷ nil_under_or
        ∷ nil_counted ∷ nil_under_nor ∷ []) }
    ensures nil_divided_by_zero { HasVerdict nil_by_zero (trace "2; 2") (Fault 1) }
    ensures one_divided_by_nil { HasVerdict one_by_nil (trace "0; 0") (Fault 1) }
    ensures fault_comes_before_nil { HasVerdict fault_beside_nil (trace "0") (Fault 0) }
    ensures sum_with_nil { HasVerdict fault_beside_nil (trace "1; 1") Passed }
    ensures true_or_nil { HasVerdict nil_under_or (trace "t") (Undefined 0) }
    ensures two_true_and_nil { HasVerdict nil_counted (trace "t") (Undefined 0) }
    ensures one_true_and_nil { HasVerdict nil_under_nor (trace "t") (Undefined 0) }
{}

/// `if` with a nil condition is nil; with one that is true or false it is the chosen branch alone.
pub fn nil_in_if()
    ensures accepted { Every IsAccepted (nil_condition ∷ nil_branch ∷ []) }
    ensures nil_condition { HasVerdict nil_condition (trace "t") (Undefined 0) }
    ensures nil_in_the_other_branch { HasVerdict nil_branch (trace "t") Passed }
    ensures nil_in_the_chosen_branch { HasVerdict nil_branch (trace "f") (Undefined 0) }
{}

/// An assertion that is nil makes the verdict undefined, whatever the property is.
pub fn nil_in_an_assertion()
    ensures accepted { IsAccepted nil_assertion }
    ensures before_a_false_property { HasVerdict nil_assertion (trace "f") (Undefined 0) }
    ensures beside_a_true_property { HasVerdict nil_assertion (trace "t; t") (Undefined 0) }
{}

/// A fault counts where `pre`, `fby` or `current` keeps it; in an unused side of `->` it does not.
pub fn the_operand_of_a_memory_is_a_named_place()
    ensures accepted { Every IsAccepted (unused_operand ∷ unused_operand_of_fby
        ∷ unused_operand_of_current ∷ unused_side ∷ []) }
    ensures operand_of_pre { HasVerdict unused_operand (trace "0") (Fault 0) }
    ensures operand_of_fby { HasVerdict unused_operand_of_fby (trace "0") (Fault 0) }
    ensures operand_of_current { HasVerdict unused_operand_of_current
        (trace "t f 0; t t 1; t t 0") (Fault 2) }
    ensures unused_side_of_arrow { HasVerdict unused_side (trace "0; 1") Passed }
{}
