//! Names, static values and instances: the part of a source that is judged before any type.
#![tactic(auto)]

mod causes;
mod check_interface;
mod check_recursion;
mod constant_names;
mod constants;
mod cycle;
mod data_type;
mod elab;
mod elaboration;
mod element_names;
mod error;
mod fault_texts;
mod globals;
mod instance_paths;
mod instance_values;
mod instantiate;
mod int_arithmetic;
mod interface;
mod name_faults;
mod node_builder;
mod node_scope;
mod part_keys;
mod range_faults;
mod reachable;
mod resolve_names;
mod resolve_reachable;
mod resolved;
mod resolving_nodes;
mod resolving_parts;
mod resolving_statements;
mod resolving_terms;
mod resolving_variables;
mod root_faults;
mod scope;
mod signature;
mod slices;
mod specializations;
mod specialize;
mod static_parts;
mod static_value;
mod table;
mod value_faults;
mod valued_node;
mod work_list;

pub use causes::{
    CallCycle, CallPath, CallStep, CycleCall, Limit, LimitFault, NameFault, NameRule, RangeFault,
    RangeRole, RootFault, RootRule, Sought, Start, ValueFault, ValueRule,
};
pub use data_type::{DataType, are_same, data_types, element_count, is_one_truth, size_product};
pub use elab::Elab;
pub use elaboration::elaborate;
pub use error::StaticError;
pub use instance_paths::call_path;
pub use int_arithmetic::{arithmetic, negated};
pub use reachable::{NodeId, Reached};
pub use resolved::{
    CallId, CallSite, ResolvedNode, ResolvedStatement, Sampling, StaticId, Term, Variable,
    VariableId,
};
pub use signature::{Kind, Signature};
pub use slices::part_of;
pub use specialize::elements_of;
pub use static_value::StaticInt;
pub use table::{Instance, InstanceId, Origin, Specialization, SpecializationId, Table};
