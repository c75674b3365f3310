//! The inputs and outputs of an instance.

ghost use Rattle.std.specs.Prelude.{◌≡◌, ◌≤◌, map, min, not, length, is_some, IfOk};
ghost use Rattle.std.specs.List.{list_all};
ghost use Rattle.lb_syntax.specs.SourceView.{view_node};

use crate::causes::Start;
use crate::data_type::{DataType, are_same, data_types, element_count, is_one_truth};
use crate::element_names::elements;
use crate::error::StaticError;
use crate::resolved::{ResolvedNode, Variable};
use crate::root_faults::type_fault;
use crate::signature::Signature;
use crate::static_value::StaticInt;
use crate::valued_node::interface_variables;
use lb_syntax::{Name, Node};
use std::alloc::{AllocError, Global};

/// Whether none of these variables is declared on a clock.
fn have_no_clocks(variables: &[Variable]) -> bool
    ensures { result ≡ list_all (λ v. not (is_some v.clock)) variables.now }
{
    for variable in variables {
        if variable.clock.is_some() {
            return false;
        }
    }
    true
}

/// The types of the inputs and outputs of an instance.
#[derive(Drop)]
pub struct Interface<'s> {
    /// The node.
    pub tree: &'s Node,
    /// The number of inputs, whose types come first.
    pub inputs: usize,
    /// The types of the inputs, then those of the outputs.
    pub data_types: Vec<DataType>,
    /// Whether all inputs and outputs are on the base clock.
    pub is_plain: bool,
    pub ghost inputs_fit: { inputs ≤ length data_types.items },
}

impl<'s> Interface<'s> {
    ghost use Rattle.lb_static.specs.Interfaces.{
      Answers,
      interface_under,
      view_interface,
      inputs_of,
      outputs_of,
      observes,
      is_one_truth_in,
      elements_named,
    };
    ghost use Rattle.lb_static.specs.DataTypes.{total};
    ghost use Rattle.lb_static.specs.StoredTypes.{view_type};

    /// The inputs and outputs of the node under test or the observer. Where a size is no number
    /// there are no types, and the error is `Root`.
    pub fn new(
        alloc: Global,
        start: Start,
        node: &ResolvedNode<'s>,
        statics: &[StaticInt],
    ) -> Result<Interface<'s>, StaticError>
        ensures { Answers view_interface (interface_under node.now statics.now) result }
    {
        let tree = node.tree;
        let Some(variables) = interface_variables(node) else {
            return Err(type_fault(alloc, start, tree));
        };
        let Some(data_types) = data_types(alloc, variables, statics)? else {
            return Err(type_fault(alloc, start, tree));
        };
        Ok(Interface {
            tree,
            inputs: node.inputs,
            data_types,
            is_plain: have_no_clocks(variables),
        })
    }

    /// The types of the inputs.
    pub fn inputs(&self) -> &[DataType]
        ensures { map view_type result.now ≡ inputs_of (view_interface self.now) }
    {
        &self.data_types[..self.inputs]
    }

    /// The types of the outputs.
    pub fn outputs(&self) -> &[DataType]
        ensures { map view_type result.now ≡ outputs_of (view_interface self.now) }
    {
        &self.data_types[self.inputs..]
    }

    /// Whether there is one output, a scalar `bool`.
    pub fn has_property(&self) -> bool
        ensures { result ≡ is_one_truth_in (outputs_of (view_interface self.now)) }
    {
        is_one_truth(self.outputs())
    }

    /// Whether the instance may observe another node: its inputs have the types of that node's
    /// inputs and outputs, its one output is a scalar `bool`, and all are on the base clock.
    pub fn observes(&self, root: &Interface) -> bool
        ensures { result ≡ observes (view_interface self.now) (view_interface root.now) }
    {
        self.is_plain && are_same(self.inputs(), &root.data_types) && self.has_property()
    }

    /// The number of scalar inputs, or 65,537 for more than 65,536.
    pub fn scalar_inputs(&self) -> u32
        ensures { result ≡ min (total (inputs_of (view_interface self.now))) 65537 }
    {
        element_count(self.inputs())
    }

    /// The scalar elements of the inputs, in order.
    pub fn signature(&self, alloc: Global) -> Result<Signature, AllocError>
        requires { total (inputs_of (view_interface self.now)) ≤ 1023 }
        ensures { IfOk result (λ signature. signature ≡ elements_named
            (map (λ d. d.name) (view_interface self.now).node.inputs)
            (inputs_of (view_interface self.now))) }
    {
        let names = input_names(alloc, self.tree)?;
        elements(alloc, &names, self.inputs())
    }
}

/// The names of the inputs of a node, in order.
fn input_names<'t>(alloc: Global, node: &'t Node) -> Result<Vec<&'t Name>, AllocError>
    ensures { IfOk result (λ names.
        map (λ x. x.now) names.items ≡ map (λ d. d.name) (view_node node.now).inputs) }
{
    let mut names = Vec::new(alloc);
    for group in &node.inputs {
        for name in &group.names {
            names.push(name)?;
        }
    }
    Ok(names)
}
