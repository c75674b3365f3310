//! Arrays, iterators, calls with several results, and observers.

ghost use Rattle.std.specs.Prelude.{List, [], ◌∷◌, ◌≡◌};
ghost use Rattle.lb_syntax.specs.Lists.{Every};
ghost use Rattle.lb_check.specs.Acceptance.{IsAccepted};
ghost use Rattle.lb_check.specs.Verdicts.{HasVerdict};
ghost use Rattle.lb_check.specs.declared.verdict.Verdict.TheVariants.{Passed, Fault};
ghost use Rattle.lb_check.specs.declared.verdict.Verdict.TheVariants.{Assertion as Assertion_fails};
ghost use Rattle.lb_check.specs.declared.verdict.Verdict.TheVariants.{False};
ghost use Rattle.lb_worked.specs.WorkedSamples.{trace};
ghost use Rattle.lb_worked.specs.WorkedArrays.{counters, digits, differences, pairs, unrolled};
ghost use Rattle.lb_worked.specs.WorkedArrays.{two_maps, far_steps, sliced, matrix, matrix_row};
ghost use Rattle.lb_worked.specs.WorkedArrays.{chosen_array, whole_choice_faults, array_memory};
ghost use Rattle.lb_worked.specs.WorkedArrays.{nil_in_arrays, copied, size_by_a_constant};
ghost use Rattle.lb_worked.specs.WorkedArrays.{static_parameter};
ghost use Rattle.lb_worked.specs.WorkedArrays.{unused_input, assertion_with_a_fault};
ghost use Rattle.lb_worked.specs.WorkedArrays.{element_not_taken, value_not_sampled};
ghost use Rattle.lb_worked.specs.WorkedArrays.{call_not_chosen, symbol_not_chosen, two_results};
ghost use Rattle.lb_worked.specs.WorkedArrays.{loop_through_pre, exchanged, observed};

/// `map` has an instance for each element; `red` and `fill` run from the first element on.
pub fn iterators()
    ensures accepted { Every IsAccepted (counters ∷ digits ∷ differences ∷ pairs ∷ unrolled
        ∷ two_maps ∷ []) }
    ensures counters_of_their_own { HasVerdict counters (trace "1 10 100 111; 1 0 0 112") Passed }
    ensures digits_from_the_left { HasVerdict digits (trace "1 2 3 123") Passed }
    ensures digits_not_from_the_right { HasVerdict digits (trace "1 2 3 321") (False 0) }
    ensures a_symbol_from_the_left { HasVerdict differences (trace "1 2 3 4") Passed }
    ensures each_step_is_in_range { HasVerdict differences far_steps (Fault 1) }
    ensures map_of_a_symbol { HasVerdict pairs (trace "2 3 4 5 8 15") Passed }
    ensures fill_from_the_first { HasVerdict unrolled (trace "0") Passed }
    ensures map_with_two_results { HasVerdict two_maps (trace "3 4 5486") Passed }
{}

/// Copies, lists, indexes, slices and joins; arrays in memories and branches; static parameters.
pub fn forms_of_arrays()
    ensures accepted { Every IsAccepted (sliced ∷ matrix ∷ matrix_row ∷ chosen_array
        ∷ whole_choice_faults ∷ array_memory ∷ copied ∷ size_by_a_constant ∷ static_parameter
        ∷ []) }
    ensures slice_and_join { HasVerdict sliced (trace "4 5 6 7 567") Passed }
    ensures element_of_a_matrix { HasVerdict matrix (trace "1 2 3 4 5 6 6") Passed }
    ensures row_and_slice_of_a_matrix { HasVerdict matrix_row (trace "1 2 3 4 5 6 17") Passed }
    ensures chosen_array { HasVerdict chosen_array (trace "t 1 2 4; f 1 2 5") Passed }
    ensures faulty_condition { HasVerdict whole_choice_faults (trace "0 1 2") (Fault 0) }
    ensures memory_of_an_array { HasVerdict array_memory (trace "1 2 78; 3 4 12") Passed }
    ensures copies_of_copies { HasVerdict copied (trace "5 5") Passed }
    ensures size_by_a_constant { HasVerdict size_by_a_constant (trace "3 3; 3 4") (False 1) }
    ensures static_parameter_of_each_call { HasVerdict static_parameter (trace "1 304") Passed }
{}

/// At the first instant `pre` of an array is nil in every element.
pub fn nil_in_every_element()
    ensures accepted { IsAccepted nil_in_arrays }
    ensures sums_of_nil { HasVerdict nil_in_arrays (trace "1 2 0; 3 4 10") Passed }
{}

/// A fault counts in a variable, an input of a call and an assertion; not in a value left out.
pub fn where_a_fault_counts()
    ensures accepted { Every IsAccepted (unused_input ∷ assertion_with_a_fault ∷ element_not_taken
        ∷ value_not_sampled ∷ []) }
    ensures input_that_is_not_used { HasVerdict unused_input (trace "5 0") (Fault 0) }
    ensures assertion { HasVerdict assertion_with_a_fault (trace "5 0") (Fault 0) }
    ensures element_that_is_not_taken { HasVerdict element_not_taken (trace "5 0") Passed }
    ensures value_that_is_not_sampled { HasVerdict value_not_sampled (trace "f 0; t 1; t 0")
        (Fault 2) }
{}

/// A call runs in a branch that is not chosen, and its faults count; those of an operator do not.
pub fn what_runs_in_a_branch_that_is_not_chosen()
    ensures accepted { Every IsAccepted (call_not_chosen ∷ symbol_not_chosen ∷ []) }
    ensures fault_of_a_call { HasVerdict call_not_chosen (trace "t 0") (Fault 0) }
    ensures fault_of_a_symbol { HasVerdict symbol_not_chosen (trace "t 2147483647 1") Passed }
{}

/// A result may be an argument of its own call if no element needs itself.
pub fn several_results()
    ensures accepted { Every IsAccepted (two_results ∷ loop_through_pre ∷ exchanged ∷ []) }
    ensures second_from_first { HasVerdict two_results (trace "3 8") Passed }
    ensures no_inputs_and_five_instants { HasVerdict loop_through_pre (trace ";;;;") (False 3) }
    ensures no_inputs_and_one_instant { HasVerdict loop_through_pre (trace "") Passed }
    ensures order_of_equations_is_free { HasVerdict exchanged (trace "1; 5; 6") (False 2) }
{}

/// The observer reads inputs and outputs; its output is the property, its assertions count.
pub fn an_observer()
    ensures accepted { IsAccepted observed }
    ensures property_fails { HasVerdict observed (trace "1; 3") (False 1) }
    ensures assertion_fails { HasVerdict observed (trace "-1; 3") (Assertion_fails 0) }
    ensures passes { HasVerdict observed (trace "1") Passed }
{}
