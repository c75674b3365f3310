//! Nodes whose names are resolved.

ghost use Rattle.std.specs.Prelude.{◌≡◌, [], true, map, length, OnOk, IfOk, IfErr};
ghost use Rattle.lb_syntax.specs.SourceView.{view_node, view_source};
ghost use Rattle.lb_static.specs.SourceNames.{names_in_source};
ghost use Rattle.lb_static.specs.NameFaults.{IsNameFault, named_in, told_in};
ghost use Rattle.lb_static.specs.NodeProgress.{StatementsStand, after_node, node_fits, node_told};
ghost use Rattle.lb_static.specs.Progressed.{progress};
ghost use Rattle.lb_static.specs.ResolvedNodes.{IsResolved};

use crate::error::StaticError;
use crate::globals::Globals;
use crate::node_builder::NodeBuilder;
use crate::node_scope::NodeScope;
use crate::resolved::{ResolvedNode, ResolvedStatement};
use crate::resolving_statements::resolve_statements;
use crate::resolving_variables::resolve_groups;
use lb_syntax::{Node, Source};
use std::alloc::Global;

/// The resolved parts of a node that the builder does not hold.
#[derive(Drop)]
struct NodeParts {
    /// The number of inputs among the variables.
    inputs: usize,
    /// The number of outputs among the variables.
    outputs: usize,
    /// The statements, in text order.
    body: Vec<ResolvedStatement>,
}

/// Resolves the parts of a node. Nothing of it is resolved yet.
fn resolve_parts<'s>(
    alloc: Global,
    here: &mut NodeBuilder<'_, 's>,
    node: &'s Node,
) -> Result<NodeParts, StaticError>
    requires { (progress here.old).declared ≡ [] }
    ensures found { OnOk result
        (progress here.new ≡ after_node (progress here.old) node.now) }
    ensures stand { IfOk result (λ parts.
        StatementsStand (progress here.new) (view_node node.now).body parts.body.items) }
    ensures fit { OnOk result (node_fits (progress here.old) (view_node node.now) ≡ true) }
    ensures inputs { IfOk result (λ parts. parts.inputs ≡ length (view_node node.now).inputs) }
    ensures outputs { IfOk result (λ parts. parts.outputs ≡ length (view_node node.now).outputs) }
    ensures err { IfErr result (λ e.
        IsNameFault e (node_told e (progress here.old) (view_node node.now))) }
{
    resolve_groups(alloc, here, &node.inputs)?;
    let inputs = here.variable_count();
    resolve_groups(alloc, here, &node.outputs)?;
    let outputs = here.variable_count() - inputs;
    resolve_groups(alloc, here, &node.locals)?;
    let body = resolve_statements(alloc, here, &node.body)?;
    Ok(NodeParts {
        inputs,
        outputs,
        body,
    })
}

/// A node with its names resolved. A name that has no meaning is refused.
pub fn resolve_node<'s>(
    alloc: Global,
    globals: &Globals,
    source: &Source,
    node: &'s Node,
) -> Result<ResolvedNode<'s>, StaticError>
    requires names { globals.now.names ≡ names_in_source (view_source source.now) }
    requires constants { globals.now.constants ≡ length source.now.constants.items }
    ensures tree { IfOk result (λ r. r.tree.now ≡ node.now) }
    ensures resolved { IfOk result
        (IsResolved (map (λ n. n.name) (view_source source.now).nodes)) }
    ensures named { IfOk result (λ _.
        named_in (view_source source.now) (view_node node.now) ≡ true) }
    ensures err { IfErr result (λ e.
        IsNameFault e (told_in e (view_source source.now) (view_node node.now))) }
{
    let node_scope = NodeScope::new(alloc, globals, source, node)?;
    let mut here = NodeBuilder::new(alloc, node_scope);
    let parts = resolve_parts(alloc, &mut here, node)?;
    Ok(here.finish(node, parts.inputs, parts.outputs, parts.body))
}
