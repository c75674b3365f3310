//! Programs that are refused for one reason, similar accepted ones, and the order of refusals.

ghost use Rattle.std.specs.Prelude.{Some, ◌≡◌};
ghost use Rattle.lb_syntax.specs.Refusals.{E4, E5, E6, E7, E8, E9, E10, E11};
ghost use Rattle.lb_check.specs.Acceptance.{refusal, IsAccepted};
ghost use Rattle.lb_worked.specs.WorkedRefusals.{nothing_wrong, unknown_name, unknown_node};
ghost use Rattle.lb_worked.specs.WorkedRefusals.{unknown_left_name, unknown_clock_name};
ghost use Rattle.lb_worked.specs.WorkedRefusals.{constant_for_a_clock_name, unknown_static_name};
ghost use Rattle.lb_worked.specs.WorkedRefusals.{variable_in_a_static_expression};
ghost use Rattle.lb_worked.specs.WorkedRefusals.{variable_hides_a_constant, doubled_variable};
ghost use Rattle.lb_worked.specs.WorkedRefusals.{doubled_unreached_nodes, constant_named_as_a_node};
ghost use Rattle.lb_worked.specs.WorkedRefusals.{static_argument_too_many, static_argument_missing};
ghost use Rattle.lb_worked.specs.WorkedRefusals.{unknown_name_unreached, no_node_under_test};
ghost use Rattle.lb_worked.specs.WorkedRefusals.{no_observer, constant_without_a_value};
ghost use Rattle.lb_worked.specs.WorkedRefusals.{constants_in_a_circle, constant_out_of_range};
ghost use Rattle.lb_worked.specs.WorkedRefusals.{constant_in_an_expression, unreached_constant};
ghost use Rattle.lb_worked.specs.WorkedRefusals.{size_of_zero, negative_size, size_above_4096};
ghost use Rattle.lb_worked.specs.WorkedRefusals.{index_above_4095, slice_backwards};
ghost use Rattle.lb_worked.specs.WorkedRefusals.{type_of_65792_elements, calls_itself};
ghost use Rattle.lb_worked.specs.WorkedRefusals.{calls_in_a_circle, unreached_recursion};
ghost use Rattle.lb_worked.specs.WorkedRefusals.{output_is_an_int, two_outputs};
ghost use Rattle.lb_worked.specs.WorkedRefusals.{parameter_of_the_start, observer_of_other_types};
ghost use Rattle.lb_worked.specs.WorkedRefusals.{observer_of_an_int, functions_under_test};
ghost use Rattle.lb_worked.specs.WorkedRefusals.{int_for_a_truth, truths_in_order};
ghost use Rattle.lb_worked.specs.WorkedRefusals.{branches_of_two_types, index_past_the_end};
ghost use Rattle.lb_worked.specs.WorkedRefusals.{slice_past_the_end, equal_arrays};
ghost use Rattle.lb_worked.specs.WorkedRefusals.{joined_past_4096, two_results_inside};
ghost use Rattle.lb_worked.specs.WorkedRefusals.{two_results_in_parentheses, assertion_of_an_int};
ghost use Rattle.lb_worked.specs.WorkedRefusals.{map_of_other_length, red_without_arrays};
ghost use Rattle.lb_worked.specs.WorkedRefusals.{fill_of_one_output, local_without_a_definition};
ghost use Rattle.lb_worked.specs.WorkedRefusals.{two_equations, two_left_sides_of_one_name};
ghost use Rattle.lb_worked.specs.WorkedRefusals.{input_on_the_left, function_with_a_memory};
ghost use Rattle.lb_worked.specs.WorkedRefusals.{function_that_calls_a_node};
ghost use Rattle.lb_worked.specs.WorkedRefusals.{function_that_iterates_a_node};
ghost use Rattle.lb_worked.specs.WorkedRefusals.{unreached_function_with_a_memory};
ghost use Rattle.lb_worked.specs.WorkedRefusals.{call_before_its_arguments};
ghost use Rattle.lb_worked.specs.WorkedRefusals.{arguments_after_their_call, value_before_range};
ghost use Rattle.lb_worked.specs.WorkedRefusals.{one_value_of_a_parameter, name_before_recursion};
ghost use Rattle.lb_worked.specs.WorkedRefusals.{recursion_before_parameters};
ghost use Rattle.lb_worked.specs.WorkedRefusals.{parameters_before_the_instantiation};
ghost use Rattle.lb_worked.specs.WorkedRefusals.{instantiation_before_the_interface};
ghost use Rattle.lb_worked.specs.WorkedRefusals.{interface_before_types, types_before_clocks};
ghost use Rattle.lb_worked.specs.WorkedRefusals.{clocks_before_definitions};

/// E4: every name has one meaning. In text that is not reached, only doubled names count.
pub fn names()
    ensures nothing_wrong { IsAccepted nothing_wrong }
    ensures unknown_name { refusal unknown_name ≡ Some E4 }
    ensures unknown_node { refusal unknown_node ≡ Some E4 }
    ensures unknown_left_name { refusal unknown_left_name ≡ Some E4 }
    ensures unknown_clock_name { refusal unknown_clock_name ≡ Some E4 }
    ensures constant_for_a_clock_name { refusal constant_for_a_clock_name ≡ Some E4 }
    ensures unknown_static_name { refusal unknown_static_name ≡ Some E4 }
    ensures variable_in_a_static_expression { refusal variable_in_a_static_expression ≡ Some E4 }
    ensures variable_hides_a_constant { IsAccepted variable_hides_a_constant }
    ensures doubled_variable { refusal doubled_variable ≡ Some E4 }
    ensures doubled_unreached_nodes { refusal doubled_unreached_nodes ≡ Some E4 }
    ensures constant_named_as_a_node { refusal constant_named_as_a_node ≡ Some E4 }
    ensures static_argument_too_many { refusal static_argument_too_many ≡ Some E4 }
    ensures static_argument_missing { refusal static_argument_missing ≡ Some E4 }
    ensures unknown_name_unreached { IsAccepted unknown_name_unreached }
    ensures no_node_under_test { refusal no_node_under_test ≡ Some E4 }
    ensures no_observer { refusal no_observer ≡ Some E4 }
{}

/// E5: no value; E6: a size, index or slice out of range; E7: a node that reaches itself.
pub fn static_values_and_ranges()
    ensures constant_without_a_value { refusal constant_without_a_value ≡ Some E5 }
    ensures constants_in_a_circle { refusal constants_in_a_circle ≡ Some E5 }
    ensures constant_out_of_range { refusal constant_out_of_range ≡ Some E5 }
    ensures constant_in_an_expression { refusal constant_in_an_expression ≡ Some E5 }
    ensures unreached_constant { IsAccepted unreached_constant }
    ensures size_of_zero { refusal size_of_zero ≡ Some E6 }
    ensures negative_size { refusal negative_size ≡ Some E6 }
    ensures size_above_4096 { refusal size_above_4096 ≡ Some E6 }
    ensures index_above_4095 { refusal index_above_4095 ≡ Some E6 }
    ensures slice_backwards { refusal slice_backwards ≡ Some E6 }
    ensures type_of_65792_elements { refusal type_of_65792_elements ≡ Some E6 }
    ensures calls_itself { refusal calls_itself ≡ Some E7 }
    ensures calls_in_a_circle { refusal calls_in_a_circle ≡ Some E7 }
    ensures unreached_recursion { IsAccepted unreached_recursion }
{}

/// E8: the node under test has one `bool` output, or an observer that fits it.
pub fn the_interface_of_the_starts()
    ensures output_is_an_int { refusal output_is_an_int ≡ Some E8 }
    ensures two_outputs { refusal two_outputs ≡ Some E8 }
    ensures parameter_of_the_start { refusal parameter_of_the_start ≡ Some E8 }
    ensures observer_of_other_types { refusal observer_of_other_types ≡ Some E8 }
    ensures observer_of_an_int { refusal observer_of_an_int ≡ Some E8 }
    ensures functions_under_test { IsAccepted functions_under_test }
{}

/// E9: each expression has the type that its place asks for.
pub fn types()
    ensures int_for_a_truth { refusal int_for_a_truth ≡ Some E9 }
    ensures truths_in_order { refusal truths_in_order ≡ Some E9 }
    ensures branches_of_two_types { refusal branches_of_two_types ≡ Some E9 }
    ensures index_past_the_end { refusal index_past_the_end ≡ Some E9 }
    ensures slice_past_the_end { refusal slice_past_the_end ≡ Some E9 }
    ensures equal_arrays { refusal equal_arrays ≡ Some E9 }
    ensures joined_past_4096 { refusal joined_past_4096 ≡ Some E9 }
    ensures two_results_inside { refusal two_results_inside ≡ Some E9 }
    ensures two_results_in_parentheses { IsAccepted two_results_in_parentheses }
    ensures assertion_of_an_int { refusal assertion_of_an_int ≡ Some E9 }
    ensures map_of_other_length { refusal map_of_other_length ≡ Some E9 }
    ensures red_without_arrays { IsAccepted red_without_arrays }
    ensures fill_of_one_output { refusal fill_of_one_output ≡ Some E9 }
{}

/// E11: each output and local is defined once, an input never; a function has no memory.
pub fn definitions()
    ensures local_without_a_definition { refusal local_without_a_definition ≡ Some E11 }
    ensures two_equations { refusal two_equations ≡ Some E11 }
    ensures two_left_sides_of_one_name { refusal two_left_sides_of_one_name ≡ Some E11 }
    ensures input_on_the_left { refusal input_on_the_left ≡ Some E11 }
    ensures function_with_a_memory { refusal function_with_a_memory ≡ Some E11 }
    ensures function_that_calls_a_node { refusal function_that_calls_a_node ≡ Some E11 }
    ensures function_that_iterates_a_node { refusal function_that_iterates_a_node ≡ Some E11 }
    ensures unreached_function_with_a_memory { IsAccepted unreached_function_with_a_memory }
{}

/// Names, recursion, parameters, the walk by instances, interface, types, clocks, definitions.
pub fn the_order_of_refusals()
    ensures call_before_its_arguments { refusal call_before_its_arguments ≡ Some E6 }
    ensures arguments_after_their_call { refusal arguments_after_their_call ≡ Some E5 }
    ensures value_before_range_in_one_instance { refusal value_before_range ≡ Some E5 }
    ensures one_value_of_a_parameter_alone { refusal one_value_of_a_parameter ≡ Some E6 }
    ensures name_before_recursion { refusal name_before_recursion ≡ Some E4 }
    ensures recursion_before_parameters { refusal recursion_before_parameters ≡ Some E7 }
    ensures parameters_before_the_instantiation { refusal parameters_before_the_instantiation
        ≡ Some E8 }
    ensures instantiation_before_the_interface { refusal instantiation_before_the_interface
        ≡ Some E5 }
    ensures interface_before_types { refusal interface_before_types ≡ Some E8 }
    ensures types_of_all_before_clocks_of_any { refusal types_before_clocks ≡ Some E9 }
    ensures clocks_of_all_before_definitions_of_any { refusal clocks_before_definitions ≡ Some E10 }
{}
