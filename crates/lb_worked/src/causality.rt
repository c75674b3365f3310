//! Programs with an element that needs itself, and similar ones without.

ghost use Rattle.std.specs.Prelude.{Some, ◌≡◌};
ghost use Rattle.lb_check.specs.Acceptance.{IsFirst};
ghost use Rattle.lb_syntax.specs.Refusals.{E13};
ghost use Rattle.lb_check.specs.Acceptance.{IsAccepted};
ghost use Rattle.lb_check.specs.Verdicts.{HasVerdict};
ghost use Rattle.lb_check.specs.declared.verdict.Verdict.TheVariants.{Passed};
ghost use Rattle.lb_worked.specs.WorkedSamples.{trace};
ghost use Rattle.lb_worked.specs.WorkedCausality.{each_other, itself, clock_of_itself};
ghost use Rattle.lb_worked.specs.WorkedCausality.{clock_of_a_memory, both_branches, both_sides};
ghost use Rattle.lb_worked.specs.WorkedCausality.{first_side_of_fby, unused_by_product};
ghost use Rattle.lb_worked.specs.WorkedCausality.{crossed_results, through_the_observer};
ghost use Rattle.lb_worked.specs.WorkedCausality.{one_after_the_other, through_pre, through_fby};
ghost use Rattle.lb_worked.specs.WorkedCausality.{elements_of_one_array, running_sums};
ghost use Rattle.lb_worked.specs.WorkedCausality.{one_array_in_a_circle, iterated_array};
ghost use Rattle.lb_worked.specs.WorkedCausality.{slower_loop};

/// E13: the elements listed in the proof each need the next, and the last needs the first.
pub fn an_element_that_needs_itself()
    ensures each_other { IsFirst each_other (Some E13) }
    ensures itself { IsFirst itself (Some E13) }
    ensures clock_variable_and_what_it_clocks { IsFirst clock_of_itself (Some E13) }
    ensures clock_variable_that_brings_back_a_memory { IsFirst clock_of_a_memory (Some E13) }
    ensures both_branches_of_if { IsFirst both_branches (Some E13) }
    ensures later_side_of_arrow { IsFirst both_sides (Some E13) }
    ensures first_side_of_fby { IsFirst first_side_of_fby (Some E13) }
    ensures operand_that_does_not_matter { IsFirst unused_by_product (Some E13) }
    ensures crossed_results { IsFirst crossed_results (Some E13) }
    ensures with_an_observer { IsFirst through_the_observer (Some E13) }
{}

/// Needs are between scalar elements; none passes through `pre` or the second side of `fby`.
pub fn elements_that_do_not_need_themselves()
    ensures result_as_an_argument { IsAccepted one_after_the_other }
    ensures through_pre { IsAccepted through_pre }
    ensures through_fby { IsAccepted through_fby }
    ensures elements_of_one_array { IsAccepted elements_of_one_array }
    ensures they_have_values { HasVerdict elements_of_one_array (trace "f") Passed }
    ensures running_sums { IsAccepted running_sums }
    ensures sums_so_far { HasVerdict running_sums (trace "1 2 3 6") Passed }
    ensures two_elements_in_a_circle { IsFirst one_array_in_a_circle (Some E13) }
    ensures iterated_array { IsAccepted iterated_array }
    ensures loop_on_a_slower_clock { IsAccepted slower_loop }
{}
