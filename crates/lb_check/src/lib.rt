//! Types, clocks and definitions, and the meaning of a program: streams, solutions and verdicts.
#![tactic(auto)]

mod array_types;
mod call_clock;
mod checked;
mod checker;
mod clock;
mod clock_rules;
mod clock_set;
mod definition_rules;
mod found_clocks;
mod found_types;
mod given_variables;
mod judged_types;
mod nodes;
mod operand_types;
mod own_clock;
mod part;
mod part_types;
mod placed_clock;
mod refused;
mod shared;
mod signature;
mod term_clock;
mod type_env;
mod type_rules;
mod types;
mod used_nodes;
mod verdict;
mod walked_clocks;

pub use checked::Checked;
pub use checker::check;
pub use found_clocks::{CallClock, GivenVariable};
pub use found_types::{NodeTypes, TermType};
pub use own_clock::{Clock, declared_clock};
pub use part::{IllFormed, Part};
pub use refused::{Broken, Refused};
pub use verdict::Verdict;

// The types of the parts of a term, for `lb_cause`.
pub use array_types::array_of;
pub use judged_types::IllTyped;
pub use operand_types::{common_type, when_truth};
pub use part_types::PartTypes;
pub use signature::{TypeRow, only_given, signature_of};
pub use type_env::TypeEnv;
pub use types::{SideTypes, given_where, has_arity, leaf_type, one_type, side_types, two_types};

// The clocks of the parts of a term, and the definitions of a node, for `lb_cause`.
pub use call_clock::{
    Given, base_clock, expected, inputs_of, is_base_clocked, is_given, left_operands, outputs_of,
    parameters, result_base, variable_of,
};
pub use clock_set::{ClockSet, Operand};
pub use definition_rules::calls_function;
pub use term_clock::{ClockEnv, row_clock_set, unary_clock_set};
