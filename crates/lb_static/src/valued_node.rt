//! The nodes of specializations.

ghost use Rattle.std.specs.Prelude.{◌≡◌, option_map};
ghost use Rattle.lb_static.specs.Interfaces.{interface_variables, valued_node_in};

use crate::reachable::Reached;
use crate::resolved::{ResolvedNode, Variable};
use crate::static_value::StaticInt;
use crate::table::{SpecializationId, Table};

/// A node with the values of its static expressions.
#[derive(Clone, Copy)]
pub struct ValuedNode<'t, 's> {
    pub node: &'t ResolvedNode<'s>,
    pub statics: &'t [StaticInt],
}

/// The node of a specialization, with the values of its static expressions.
pub fn valued_node<'t, 's>(
    reached: &'t Reached<'s>,
    table: &'t Table,
    id: SpecializationId,
) -> Option<ValuedNode<'t, 's>>
    ensures { option_map (λ s. (s.node.now, s.statics.now)) result
        ≡ valued_node_in reached.now table.now id }
{
    let specialization = table.specializations.get(id.0 as usize)?;
    let node = reached.nodes.get(specialization.node.0)?;
    Some(ValuedNode {
        node,
        statics: specialization.statics.as_slice(),
    })
}

/// The inputs and outputs among the variables of a node.
pub fn interface_variables<'t>(node: &'t ResolvedNode) -> Option<&'t [Variable]>
    ensures { option_map (λ variables. variables.now) result ≡ interface_variables node.now }
{
    let count = node.inputs.checked_add(node.outputs)?;
    node.variables.get(..count)
}
