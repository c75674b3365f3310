//! The interface of the node under test and of the observer.

ghost use Rattle.std.specs.Prelude.{◌≡◌, true, false, None, OnOk, IfErr};
ghost use Rattle.std.specs.List.{list_all};
ghost use Rattle.lb_static.specs.Instances.{Program, instances};
ghost use Rattle.lb_static.specs.InstanceTable.{HasStarts};
ghost use Rattle.lb_static.specs.Interfaces.{Answers, IsRootFault, view_interface, property_in};
ghost use Rattle.lb_syntax.specs.Lists.{either_or};
ghost use Rattle.lb_static.specs.Names.{keeps_names};
ghost use Rattle.lb_static.specs.ReachedNodes.{IsReached};
ghost use Rattle.lb_static.specs.RootAnswers.{IsRootAnswer, has_no_parameters_at, signature_in};
ghost use Rattle.lb_static.specs.Instantiation.{has_no_parameters, instantiation_refusal};

use crate::causes::Start;
use crate::error::StaticError;
use crate::interface::Interface;
use crate::reachable::{NodeId, Reached};
use crate::root_faults::{input_rule, missing_fault, observer_rule, output_rule, root_fault};
use crate::signature::Signature;
use crate::table::Table;
use crate::valued_node::valued_node;
use std::alloc::Global;

/// Whether a reached node has no static parameters.
pub fn has_no_parameters(reached: &Reached, id: NodeId) -> bool
    ensures { result ≡ has_no_parameters_at reached.now id }
{
    match reached.nodes.get(id.0) {
        Some(node) => node.tree.parameters.is_empty(),
        None => true,
    }
}

/// Whether the node under test and the observer have no static parameters.
pub fn have_no_parameters(reached: &Reached) -> bool
    ensures { (P : Program) → IsReached P reached.now → result ≡ has_no_parameters P }
{
    has_no_parameters(reached, reached.root)
        && match reached.observer {
            Some(id) => has_no_parameters(reached, id),
            None => true,
        }
}

/// Judges that the property is one output: the output of the observer, if there is one, and then
/// the observer has to fit the node under test; or else the output of the node under test.
fn check_property(
    alloc: Global,
    reached: &Reached,
    table: &Table,
    root: &Interface,
) -> Result<(), StaticError>
    ensures ok { OnOk result
        (property_in reached.now table.now (view_interface root.now) ≡ Some true) }
    ensures err { IfErr result (IsRootFault
        (either_or (property_in reached.now table.now (view_interface root.now)) false ≡ false)) }
{
    let observer = match table.observer {
        Some(id) => valued_node(reached, table, id),
        None => None,
    };
    match observer {
        Some(found) => {
            let observer = Interface::new(alloc, Start::Observer, found.node, found.statics)?;
            if observer.observes(root) {
                Ok(())
            } else {
                let broken = observer_rule(&observer, root);
                Err(root_fault(alloc, Start::Observer, observer.tree, broken))
            }
        }
        None if root.has_property() => Ok(()),
        None => Err(root_fault(alloc, Start::UnderTest, root.tree, output_rule(root))),
    }
}

/// The scalar inputs of the node under test. It is refused unless its interface, and that of the
/// observer, are lawful.
fn interface_signature(
    alloc: Global,
    reached: &Reached,
    table: &Table,
    root: &Interface,
) -> Result<Signature, StaticError>
    ensures { Answers (λ s. s)
        (signature_in reached.now table.now (view_interface root.now)) result }
{
    if !root.is_plain || root.scalar_inputs() > Signature::MOST {
        return Err(root_fault(alloc, Start::UnderTest, root.tree, input_rule(root)));
    }
    check_property(alloc, reached, table, root)?;
    Ok(root.signature(alloc)?)
}

/// The scalar inputs of the node under test, if it and the observer have lawful interfaces.
///
/// All inputs and outputs of both are on the base clock, and there are at most 1,023 scalar
/// inputs. The property is the one output of the node under test, a `bool`. With an observer, its
/// inputs have the types of that node's inputs and then of its outputs, and its one output, a
/// `bool`, is the property.
pub fn check_interface(
    alloc: Global,
    reached: &Reached,
    table: &Table,
) -> Result<Signature, StaticError>
    ensures { (P : Program) → keeps_names P ≡ true → IsReached P reached.now
        → HasStarts P reached.now table.now → instantiation_refusal P 0 (instances P) ≡ None
        → IsRootAnswer P result }
{
    let Some(found) = valued_node(reached, table, table.root) else {
        return Err(missing_fault(alloc, Start::UnderTest));
    };
    let root = Interface::new(alloc, Start::UnderTest, found.node, found.statics)?;
    interface_signature(alloc, reached, table, &root)
}
