//! The part of a node that breaks a rule.

use lb_static::{NodeId, VariableId};

/// The part of a node that breaks a rule.
#[derive(Clone, Copy)]
pub enum Part {
    /// The declaration of a variable, by its place among the inputs, outputs and locals.
    Variable(VariableId),
    /// A statement, by its place in the body, from 0.
    Statement(usize),
}

/// A part of a reached node that breaks a rule of clocks or of definitions.
#[derive(Clone, Copy)]
pub struct IllFormed {
    pub node: NodeId,
    pub part: Part,
}
