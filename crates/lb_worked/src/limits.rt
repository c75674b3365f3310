//! Limits of levels, instances and size.

ghost use Rattle.std.specs.Prelude.{None, Some, ◌≡◌};
ghost use Rattle.lb_check.specs.Acceptance.{refusal};
ghost use Rattle.lb_check.specs.TypeRules.{size};
ghost use Rattle.lb_check.specs.Verdicts.{HasVerdict};
ghost use Rattle.lb_check.specs.declared.verdict.Verdict.TheVariants.{Passed};
ghost use Rattle.lb_worked.specs.WorkedArrays.{two_results};
ghost use Rattle.lb_worked.specs.WorkedClocks.{unguarded_counter};
ghost use Rattle.lb_worked.specs.WorkedSamples.{trace};
ghost use Rattle.lb_worked.specs.WorkedScalars.{followed};
ghost use Rattle.lb_static.specs.Instances.{instances};
ghost use Rattle.lb_static.specs.Instantiation.{instantiation_refusal};
ghost use Rattle.lb_syntax.specs.Refusals.{E12};
ghost use Rattle.lb_worked.specs.WorkedLimits.{chain, mapped, long_array};

/// There are at most 64 levels: a chain of 64 nodes passes the walk, one of 65 is refused.
pub fn levels()
    ensures chain_of_64_nodes { instantiation_refusal (chain 62) 0 (instances (chain 62)) ≡ None }
    ensures chain_of_65_nodes { instantiation_refusal (chain 63) 0 (instances (chain 63))
        ≡ Some E12 }
{}

/// There are at most 4,096 instances.
pub fn instances_of_a_program()
    ensures of_4096 { refusal (mapped 4095 4094) ≡ None }
    ensures of_4097 { refusal (mapped 4096 4095) ≡ Some E12 }
{}

/// The size counts variables and expressions, and is at most 65,536; `a[i]` counts all of `a`.
pub fn the_size_of_a_program()
    ensures size_of_one_comparison { size (long_array 0) ≡ 12294 }
    ensures size_of_thirteen { size (long_array 12) ≡ 61494 }
    ensures size_of_fourteen { size (long_array 13) ≡ 65594 }
    ensures of_two_results { size two_results ≡ 22 }
    ensures of_current_and_when { size unguarded_counter ≡ 20 }
    ensures of_fby { size followed ≡ 10 }
    ensures thirteen_are_small_enough { refusal (long_array 12) ≡ None }
    ensures fourteen_are_too_many { refusal (long_array 13) ≡ Some E12 }
    ensures thirteen_pass { HasVerdict (long_array 12) (trace "1") Passed }
{}
