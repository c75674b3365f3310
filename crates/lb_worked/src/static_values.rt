//! Static values, signatures, instances and reached names.

ghost use Rattle.std.specs.Prelude.{List, None, Some, [], codes, length, negsuc, pos, slice_get};
ghost use Rattle.std.specs.Prelude.{◌∷◌, ◌≡◌};
ghost use Rattle.lb_static.specs.Instances.{Root, Observer, Child};
ghost use Rattle.lb_static.specs.DataTypes.{input_kinds, signature};
ghost use Rattle.lb_static.specs.StaticValues.{value_under};
ghost use Rattle.lb_static.specs.WorkedTrees.{names};
ghost use Rattle.lb_syntax.specs.declared.tree.Kind.TheVariants.{Int, Bool};
ghost use Rattle.lb_worked.specs.WorkedStatics.{given, reached_names, values, value_of, callees};
ghost use Rattle.lb_worked.specs.WorkedStatics.{reached_constant_names, input_names, paths};
ghost use Rattle.lb_worked.specs.WorkedStatics.{plain_value, five_by_two, seven_modulo_two};
ghost use Rattle.lb_worked.specs.WorkedStatics.{seven_by_two, past_the_greatest, the_least};
ghost use Rattle.lb_worked.specs.WorkedStatics.{minus_the_least, the_least_by_minus_one, by_zero};
ghost use Rattle.lb_worked.specs.WorkedStatics.{left_to_right, half_of_a_name, constants};
ghost use Rattle.lb_worked.specs.WorkedStatics.{matrix_and_scalar, size_by_a_constant};
ghost use Rattle.lb_worked.specs.WorkedStatics.{nested_calls, parameters, with_an_observer};
ghost use Rattle.lb_worked.specs.WorkedStatics.{partly_reached};

/// The value of a static expression; none where an operator faults.
pub fn static_expressions()
    ensures cut_off_toward_zero { plain_value five_by_two ≡ Some (pos 2) }
    ensures sign_of_the_dividend { plain_value seven_modulo_two ≡ Some (negsuc 0) }
    ensures negative_quotient { plain_value seven_by_two ≡ Some (negsuc 2) }
    ensures no_value_past_the_greatest { plain_value past_the_greatest ≡ None }
    ensures the_least { plain_value the_least ≡ Some (negsuc 2147483647) }
    ensures no_negation_of_the_least { plain_value minus_the_least ≡ None }
    ensures no_quotient_of_the_least_by_minus_one { plain_value the_least_by_minus_one ≡ None }
    ensures no_remainder_by_zero { plain_value by_zero ≡ None }
    ensures left_to_right { plain_value left_to_right ≡ Some (negsuc 0) }
    ensures of_a_name { value_under (λ x. Some (pos 7)) half_of_a_name ≡ Some (pos 3) }
    ensures of_an_unknown_name { plain_value half_of_a_name ≡ None }
{}

/// A constant may name others in any order; one that needs itself has no value.
pub fn constants_of_a_program()
    ensures named_before { value_of constants "a" ≡ Some (pos 5) }
    ensures whole_number { value_of constants "b" ≡ Some (pos 4) }
    ensures in_a_circle { value_of constants "c" ≡ None }
    ensures past_the_greatest { value_of constants "e" ≡ None }
{}

/// The scalar inputs of the node under test; in an array the first index changes slowest.
pub fn signatures()
    ensures elements_of_a_matrix { input_names matrix_and_scalar ≡
        names "m[0][0] m[0][1] m[0][2] m[1][0] m[1][1] m[1][2] e" }
    ensures length_of_it { length (signature matrix_and_scalar) ≡ 7 }
    ensures number_5 { slice_get (input_names matrix_and_scalar) 5 ≡ Some (codes "m[1][2]") }
    ensures number_6 { slice_get (input_names matrix_and_scalar) 6 ≡ Some (codes "e") }
    ensures size_by_a_constant { input_names size_by_a_constant ≡ names "A[0] A[1] c" }
    ensures kinds { input_kinds size_by_a_constant ≡ (Int ∷ Int ∷ Bool ∷ []) }
{}

/// Each instance comes before those below it, a call before its arguments, the observer last.
pub fn instances_in_order()
    ensures nodes { callees nested_calls ≡ names "main f g g f g f g" }
    ensures places { paths nested_calls ≡
        (Root
        ∷ Child Root 0 0 ∷ Child (Child Root 0 0) 0 0
        ∷ Child Root 1 0
        ∷ Child Root 2 0 ∷ Child (Child Root 2 0) 0 0
        ∷ Child Root 2 1 ∷ Child (Child Root 2 1) 0 0 ∷ []) }
    ensures parameter_values { values parameters ≡
        ([]
        ∷ (given "n" 3 ∷ given "k" 1 ∷ []) ∷ (given "k" 2 ∷ [])
        ∷ (given "n" 7 ∷ given "k" 3 ∷ []) ∷ (given "k" 4 ∷ []) ∷ []) }
    ensures with_an_observer { paths with_an_observer ≡
        (Root ∷ Child Root 0 0 ∷ Observer ∷ Child Observer 0 0 ∷ []) }
{}

/// The node under test is reached, and so is what reached nodes and constants name. A variable
/// hides a constant.
pub fn what_is_reached_by_name()
    ensures nodes { reached_names partly_reached ≡ names "near far2 main" }
    ensures constants { reached_constant_names partly_reached ≡ names "a b e" }
{}
