//! E4 to E13: refusals of the program.

use crate::calls::{explain_cycle_of_calls, explain_instances};
use crate::clocks::explain_clock;
use crate::cycles::explain_cycle;
use crate::definitions::explain_definition;
use crate::expansion::explain_large;
use crate::names::explain_name;
use crate::page::Page;
use crate::roots::explain_root;
use crate::types::explain_type;
use crate::values::{explain_range, explain_value};
use lb_cause::CheckError;
use lb_expand::FlatError;
use lb_flat::OrderError;
use lb_places::Text;
use lb_refusal::{BenchError, Options};
use lb_static::StaticError;

/// Explains E4 to E8, and E12 for instances.
fn explain_static_error(page: &mut Page, text: &Text<'_>, options: &Options, error: &StaticError) {
    match error {
        StaticError::Memory => {}
        StaticError::Name(fault) => explain_name(page, text, fault),
        StaticError::Recursion(cycle) => explain_cycle_of_calls(page, text, cycle),
        StaticError::Root(fault) => explain_root(page, text, fault, options.node.as_str()),
        StaticError::Value(fault) => explain_value(page, text, fault),
        StaticError::Range(fault) => explain_range(page, text, fault),
        StaticError::Instances(fault) => explain_instances(page, text, fault),
    }
}

/// Explains E9 to E11.
fn explain_check_error(page: &mut Page, text: &Text<'_>, error: &CheckError) {
    match error {
        CheckError::Memory => {}
        CheckError::Type(fault) => explain_type(page, text, fault),
        CheckError::Clock(fault) => explain_clock(page, text, fault),
        CheckError::Definition(fault) => explain_definition(page, text, fault),
    }
}

/// Explains E4 to E13.
pub fn explain_program(page: &mut Page, text: &Text<'_>, options: &Options, error: &BenchError) {
    match error {
        BenchError::Static(cause) => explain_static_error(page, text, options, cause),
        BenchError::Check(cause) => explain_check_error(page, text, cause),
        BenchError::Flat(FlatError::Large(fault)) => {
            explain_large(page, text, options.node.as_str(), fault);
        }
        BenchError::Order(OrderError::Cycle(cycle)) => explain_cycle(page, text, cycle),
        _ => {}
    }
}
