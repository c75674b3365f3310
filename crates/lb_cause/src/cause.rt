//! The parts of all causes: the name of a node, the way to an instance, and the offsets of the
//! parts of a node.

ghost use Rattle.std.specs.Prelude.{◌≡◌, IfOk, string_bytes};
ghost use Rattle.lb_syntax.specs.Lists.{listed};
ghost use Rattle.lb_static.specs.ReachedNodes.{tree_at};

use lb_check::{IllFormed, Part};
use lb_static::{
    CallPath, NodeId, Origin, Reached, SpecializationId, Table, VariableId, call_path,
};
use lb_syntax::{Declarations, Name, Node, Sampling};
use std::alloc::{AllocError, Global};

/// A copy of the name of a node; an empty one where there is no such node.
fn name_of(alloc: Global, reached: &Reached, id: NodeId) -> Result<String, AllocError>
    ensures { IfOk result (λ name.
        string_bytes name ≡ listed (λ n. n.name) (tree_at reached.now id)) }
{
    match reached.nodes.get(id.0) {
        Some(node) => String::from_str(alloc, node.tree.name.as_str()),
        None => Ok(String::new(alloc)),
    }
}

/// Whether a specialization is the one at this place, or, without a place, one of this node.
fn is_sought(
    table: &Table,
    specialization: SpecializationId,
    id: NodeId,
    place: Option<usize>,
) -> bool {
    let own = specialization.0 as usize;
    match (place, table.specializations.get(own)) {
        (Some(place), _) => own == place,
        (None, Some(specialization)) => specialization.node.0 == id.0,
        (None, None) => false,
    }
}

/// The way to the first instance of a node, or of its specialization at a place.
fn path_to(
    alloc: Global,
    reached: &Reached,
    table: &Table,
    id: NodeId,
    place: Option<usize>,
) -> Result<CallPath, AllocError> {
    let mut origin = Origin::UnderTest;
    for instance in &table.instances {
        if is_sought(table, instance.specialization, id, place) {
            origin = instance.origin;
            break;
        }
    }
    call_path(alloc, reached, &table.instances, origin)
}

/// A variable as it is declared in the text.
#[derive(Clone, Copy)]
pub struct DeclaredVariable<'t> {
    pub name: &'t Name,
    pub clock: Option<&'t Sampling>,
}

/// The variable at a place among some declarations. Where there is none, `place` is counted from
/// their end on.
fn declared_among<'t>(
    declarations: &'t [Declarations],
    place: &mut usize,
) -> Option<DeclaredVariable<'t>> {
    for group in declarations {
        if let Some(name) = group.names.get(*place) {
            return Some(DeclaredVariable {
                name,
                clock: group.clock.as_ref(),
            });
        }
        *place = place.saturating_sub(group.names.len());
    }
    None
}

/// A variable of a node as it is declared.
pub fn declared_variable<'t>(node: &'t Node, variable: VariableId) -> Option<DeclaredVariable<'t>> {
    let mut place = variable.0;
    if let Some(declared) = declared_among(&node.inputs, &mut place) {
        return Some(declared);
    }
    if let Some(declared) = declared_among(&node.outputs, &mut place) {
        return Some(declared);
    }
    declared_among(&node.locals, &mut place)
}

/// Adds the names of some declarations.
fn add_names<'t>(
    names: &mut Vec<&'t Name>,
    declarations: &'t [Declarations],
) -> Result<(), AllocError> {
    for group in declarations {
        for name in &group.names {
            names.push(name)?;
        }
    }
    Ok(())
}

/// Adds the names of the variables of a node, by their places.
pub fn add_variable_names<'t>(node: &'t Node, names: &mut Vec<&'t Name>) -> Result<(), AllocError> {
    add_names(names, &node.inputs)?;
    add_names(names, &node.outputs)?;
    add_names(names, &node.locals)
}

/// The offset of the variable of a declared clock.
pub fn clock_offset(node: &Node, variable: VariableId) -> u32 {
    let Some(declared) = declared_variable(node, variable) else {
        return 0;
    };
    let name = match declared.clock {
        Some(clock) => &clock.variable,
        None => declared.name,
    };
    name.offset
}

/// The offset at which a part of a node begins.
fn part_offset(reached: &Reached, found: IllFormed) -> u32 {
    let Some(node) = reached.nodes.get(found.node.0) else {
        return 0;
    };
    match found.part {
        Part::Variable(variable) => match declared_variable(node.tree, variable) {
            Some(declared) => {
                let name = declared.name;
                name.offset
            }
            None => 0,
        },
        Part::Statement(place) => match node.tree.body.get(place) {
            Some(statement) => statement.offset(),
            None => 0,
        },
    }
}

/// A part of a node that breaks a rule, as an error names it.
pub struct FaultyPart {
    /// The name of the node.
    pub node: String,
    pub part: Part,
    /// The offset at which the part begins.
    pub offset: u32,
    /// The calls by which an instance of the node is reached.
    pub path: CallPath,
}

/// The part that is found to break a rule, with the way to the first instance of its node, or of
/// the specialization at a place.
pub fn faulty_part(
    alloc: Global,
    reached: &Reached,
    table: &Table,
    found: IllFormed,
    place: Option<usize>,
) -> Result<FaultyPart, AllocError>
    ensures node { IfOk result (λ faulty. string_bytes faulty.node
        ≡ listed (λ n. n.name) (tree_at reached.now found.node)) }
    ensures part { IfOk result (λ faulty. faulty.part ≡ found.part) }
{
    let node = name_of(alloc, reached, found.node)?;
    Ok(FaultyPart {
        node,
        part: found.part,
        offset: part_offset(reached, found),
        path: path_to(alloc, reached, table, found.node, place)?,
    })
}
