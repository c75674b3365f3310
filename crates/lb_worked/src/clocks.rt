//! Slower clocks: `when`, `current`, clocked declarations and clocked parameters.

ghost use Rattle.std.specs.Prelude.{List, Some, [], ◌∷◌, ◌≡◌};
ghost use Rattle.lb_syntax.specs.Lists.{Every};
ghost use Rattle.lb_syntax.specs.Refusals.{E8, E9, E10};
ghost use Rattle.lb_check.specs.Acceptance.{refusal, IsAccepted};
ghost use Rattle.lb_check.specs.Verdicts.{HasVerdict};
ghost use Rattle.lb_check.specs.declared.verdict.Verdict.TheVariants.{Passed, Fault, Undefined};
ghost use Rattle.lb_check.specs.declared.verdict.Verdict.TheVariants.{Assertion as Assertion_fails};
ghost use Rattle.lb_check.specs.declared.verdict.Verdict.TheVariants.{False};
ghost use Rattle.lb_worked.specs.WorkedSamples.{trace};
ghost use Rattle.lb_worked.specs.WorkedClocks.{slower_counter, slow_memory, absent_clock};
ghost use Rattle.lb_worked.specs.WorkedClocks.{unguarded_counter, known_counter, nil_clock};
ghost use Rattle.lb_worked.specs.WorkedClocks.{guarded_clock};
ghost use Rattle.lb_worked.specs.WorkedClocks.{faulty_clock, both_signs_absent, clocked_result};
ghost use Rattle.lb_worked.specs.WorkedClocks.{current_of_a_result, truth_for_a_clock};
ghost use Rattle.lb_worked.specs.WorkedClocks.{expression_for_a_clock, other_clock_for_an_argument};
ghost use Rattle.lb_worked.specs.WorkedClocks.{clock_among_results, result_on_another_clock};
ghost use Rattle.lb_worked.specs.WorkedClocks.{one_variable_for_two, two_parameters_are_two_clocks};
ghost use Rattle.lb_worked.specs.WorkedClocks.{literal_for_a_clocked_input};
ghost use Rattle.lb_worked.specs.WorkedClocks.{any_expression_for_an_inner_clock};
ghost use Rattle.lb_worked.specs.WorkedClocks.{slower_call_without_arguments};
ghost use Rattle.lb_worked.specs.WorkedClocks.{current_of_a_call_without_arguments};
ghost use Rattle.lb_worked.specs.WorkedClocks.{slower_results_of_literals, slower_literals};
ghost use Rattle.lb_worked.specs.WorkedClocks.{slower_arrays, current_of_a_literal};
ghost use Rattle.lb_worked.specs.WorkedClocks.{current_on_the_base_clock, two_clocks, two_signs};
ghost use Rattle.lb_worked.specs.WorkedClocks.{equal_variables_are_two_clocks, when_of_an_int};
ghost use Rattle.lb_worked.specs.WorkedClocks.{clocks_in_a_circle, circle_of_literals};
ghost use Rattle.lb_worked.specs.WorkedClocks.{input_clocked_by_a_local, iterated_clocked_node};
ghost use Rattle.lb_worked.specs.WorkedClocks.{clocked_root, slow_assertion, asserted_call};

/// The counter runs where `c` is true; elsewhere it waits, and `current` holds its last value.
pub fn a_counter_on_a_slower_clock()
    ensures accepted { IsAccepted slower_counter }
    ensures latest_value { HasVerdict slower_counter (trace "f 1 0; t 1 1; f 1 1; t 1 2") Passed }
    ensures ticks_count { HasVerdict slower_counter (trace "f 7 0; t 1 1; f 9 1; t 1 2") Passed }
    ensures no_tick_no_change { HasVerdict slower_counter (trace "f 1 0; t 1 1; f 1 2") (False 2) }
{}

/// Before the first tick `current` is nil. An arrow guards the first instant alone; a Boolean that
/// remembers the first tick guards every instant.
pub fn current_before_the_first_tick()
    ensures accepted { Every IsAccepted (unguarded_counter ∷ known_counter ∷ []) }
    ensures nil_is_undefined { HasVerdict unguarded_counter (trace "f 1 0; t 1 1") (Undefined 0) }
    ensures tick_at_once { HasVerdict unguarded_counter (trace "t 1 1; f 1 1") Passed }
    ensures arrow_for_one_instant { HasVerdict slower_counter (trace "f 1 0; f 1 0") (Undefined 1) }
    ensures remembered { HasVerdict known_counter (trace "f 1; f 1; t 1; f 1") Passed }
{}

/// A clock variable that is nil ticks for neither sign, and makes the verdict undefined.
pub fn nil_in_a_clock()
    ensures accepted { Every IsAccepted (nil_clock ∷ guarded_clock ∷ []) }
    ensures nil_is_undefined { HasVerdict nil_clock (trace "t 1; t 2") (Undefined 0) }
    ensures guarded { HasVerdict guarded_clock (trace "t 1; t 2") Passed }
{}

/// `->` and `pre` count the ticks of their clock; `not c` ticks where `c` is present and false.
pub fn memories_on_a_slower_clock()
    ensures accepted { Every IsAccepted (slow_memory ∷ absent_clock ∷ faulty_clock
        ∷ both_signs_absent ∷ []) }
    ensures by_ticks { HasVerdict slow_memory (trace "f 5 0; t 3 0; f 9 0; t 4 3; t 6 4") Passed }
    ensures not_c_while_c_is_absent { HasVerdict absent_clock (trace "t f 1; f f 1; t f 2") Passed }
    ensures fault_of_a_clock_variable { HasVerdict faulty_clock (trace "0") (Fault 0) }
    ensures both_signs_are_absent { HasVerdict both_signs_absent (trace "1; 0") (Fault 1) }
{}

/// A variable of the caller stands for a clock parameter, in parentheses or not.
pub fn calls_with_clocked_parameters()
    ensures result_on_the_clock_of_the_caller { IsAccepted clocked_result }
    ensures clocked_result { HasVerdict clocked_result (trace "t 3; f 4") Passed }
    ensures current_of_a_result { IsAccepted current_of_a_result }
    ensures current_of_it { HasVerdict current_of_a_result (trace "t 2 2; f 4 2; t 3 3") Passed }
    ensures truth_for_a_clock_parameter { refusal truth_for_a_clock ≡ Some E10 }
    ensures expression_for_a_clock_parameter { refusal expression_for_a_clock ≡ Some E10 }
    ensures argument_on_another_clock { refusal other_clock_for_an_argument ≡ Some E10 }
    ensures output_that_is_the_clock_of_another { IsAccepted clock_among_results }
    ensures clock_among_results { HasVerdict clock_among_results (trace "4 4; -3 4; 5 5") Passed }
    ensures result_on_a_clock_of_its_own { refusal result_on_another_clock ≡ Some E10 }
{}

/// Two parameters are two clocks; a literal fits a clocked input; an inner clock may be anything.
pub fn what_stands_for_a_clock_parameter()
    ensures one_variable_for_two { IsAccepted one_variable_for_two }
    ensures two_parameters_are_two_clocks { refusal two_parameters_are_two_clocks ≡ Some E10 }
    ensures literal_for_a_clocked_input { IsAccepted literal_for_a_clocked_input }
    ensures at_its_ticks { HasVerdict literal_for_a_clocked_input (trace "t 3; f 3") Passed }
    ensures any_expression_for_an_inner_clock { IsAccepted any_expression_for_an_inner_clock }
    ensures a_clock_inside { HasVerdict any_expression_for_an_inner_clock
        (trace "5 5; -1 5") Passed }
{}

/// A call whose arguments determine no clock runs on the clock of the place where it stands.
pub fn calls_whose_arguments_determine_no_clock()
    ensures accepted { IsAccepted slower_call_without_arguments }
    ensures no_arguments { HasVerdict slower_call_without_arguments (trace "t 1; f 1; t 2") Passed }
    ensures current_of_it { refusal current_of_a_call_without_arguments ≡ Some E10 }
    ensures two_results_of_literals { IsAccepted slower_results_of_literals }
    ensures two_results { HasVerdict slower_results_of_literals (trace "t 48; f 48") Passed }
{}

/// Literals and constants are on every clock; operands share one; two variables are two clocks.
pub fn what_clock_an_expression_is_on()
    ensures literals_on_a_slower_clock { IsAccepted slower_literals }
    ensures slower_literals { HasVerdict slower_literals (trace "t 0 7; f 0 7") Passed }
    ensures arrays_on_a_slower_clock { IsAccepted slower_arrays }
    ensures slower_arrays { HasVerdict slower_arrays (trace "t 3 4 78; f 5 6 78; t 1 2 12") Passed }
    ensures current_of_a_literal { refusal current_of_a_literal ≡ Some E10 }
    ensures current_on_the_base_clock { refusal current_on_the_base_clock ≡ Some E10 }
    ensures operands_on_two_clocks { refusal two_clocks ≡ Some E10 }
    ensures operands_on_both_signs { refusal two_signs ≡ Some E10 }
    ensures equal_variables_are_two_clocks { refusal equal_variables_are_two_clocks ≡ Some E10 }
    ensures when_of_an_int { refusal when_of_an_int ≡ Some E9 }
    ensures declared_clocks_in_a_circle { refusal clocks_in_a_circle ≡ Some E10 }
    ensures circle_though_literals_fit { refusal circle_of_literals ≡ Some E10 }
    ensures input_clocked_by_a_local { refusal input_clocked_by_a_local ≡ Some E10 }
    ensures iterated_node_with_a_clocked_parameter { refusal iterated_clocked_node ≡ Some E10 }
    ensures clocked_input_of_the_node_under_test { refusal clocked_root ≡ Some E8 }
{}

/// An assertion is judged where it is present, in every instance.
pub fn assertions_count_at_the_ticks_of_their_clock()
    ensures accepted { Every IsAccepted (slow_assertion ∷ asserted_call ∷ []) }
    ensures ticks_alone { HasVerdict slow_assertion (trace "f -1; t 2; t 0") (Assertion_fails 2) }
    ensures assertion_by_a_call_holds { HasVerdict asserted_call (trace "1; 3") (False 1) }
    ensures assertion_by_a_call_fails { HasVerdict asserted_call (trace "0") (Assertion_fails 0) }
{}
