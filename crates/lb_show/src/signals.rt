//! The scalar elements of the variables of a program, with their names.
//!
//! ```text
//! main.x    safe.ok    main.A[0]    main.f@12:7.x    main.f@12:7[2].x
//! ```
//!
//! The name of a deeper instance has the place of the call behind the name of its node. For an
//! iterated node the index stands behind that.

use crate::lines::{Lines, Spot};
use lb_flat::ElementId;
use lb_static::{
    CallSite, Elab, Instance, Origin, Reached, ResolvedNode, Specialization, StaticInt, Table,
    VariableId, elements_of, part_of,
};
use lb_syntax::{Declarations, Kind, Name};
use std::alloc::{AllocError, Global};

/// An instance.
#[derive(Drop)]
pub struct Scope {
    /// The own name of the instance: `main`, `f@12:7`, `f@12:7[2]`.
    pub label: String,
    /// The name of the instance behind those of its callers.
    pub name: String,
    /// The scope of the caller.
    pub parent: Option<usize>,
    /// Whether the instance is the node under test or the observer.
    pub is_start: bool,
}

/// A scalar element of a variable.
#[derive(Drop)]
pub struct Signal {
    /// The name of the element in its instance: `x`, `A[0]`.
    pub label: String,
    /// The length of the name of the variable, with which the label begins.
    pub variable: usize,
    /// The place of the instance among the scopes.
    pub scope: usize,
    /// The variable, by its place among those of the node.
    pub id: VariableId,
    pub kind: Kind,
    pub element: ElementId,
}

/// The instances of a program and the elements of their variables, in their order.
pub struct Signals {
    pub scopes: Vec<Scope>,
    pub signals: Vec<Signal>,
}

// Not derived, so that a caller drops it in one step.
impl Drop for Signals {
    fn drop(self) {
        let Signals {
            scopes: _,
            signals: _,
        } = self;
    }
}

/// Adds the names that are declared in some groups.
fn push_names<'s>(names: &mut Vec<&'s Name>, groups: &'s [Declarations]) -> Result<(), AllocError> {
    for group in groups {
        for name in &group.names {
            names.push(name)?;
        }
    }
    Ok(())
}

/// The names of the variables of a node: the inputs, then the outputs, then the locals.
fn variable_names<'s>(alloc: Global, node: &ResolvedNode<'s>) -> Result<Vec<&'s Name>, AllocError> {
    let tree = node.tree;
    let mut names = Vec::new(alloc);
    push_names(&mut names, tree.inputs.as_slice())?;
    push_names(&mut names, tree.outputs.as_slice())?;
    push_names(&mut names, tree.locals.as_slice())?;
    Ok(names)
}

/// The name of an element of a variable: `x`, or `a[2][0]` where the variable has sizes. The last
/// size is the outermost.
fn element_label(
    alloc: Global,
    variable: &str,
    sizes: &[StaticInt],
    width: u32,
    index: u32,
) -> Result<String, AllocError> {
    let mut label = String::from_str(alloc, variable)?;
    let mut inner = u64::from(width);
    let mut rest = u64::from(index);
    for size in sizes.iter().rev() {
        inner = (inner / size.natural().unwrap_or(1).max(1)).max(1);
        write!(label, "[{}]", rest / inner)?;
        rest %= inner;
    }
    Ok(label)
}

/// The data from which the names of a program are made.
#[derive(Clone, Copy)]
struct Names<'a, 's> {
    alloc: Global,
    /// The lines of the source.
    lines: &'a Lines,
    reached: &'a Reached<'s>,
    table: &'a Table,
}

impl<'a, 's> Names<'a, 's> {
    /// The specialization of an instance, and its node.
    fn node_of(&self, instance: &Instance) -> Option<(&'a Specialization, &'a ResolvedNode<'s>)> {
        let id = instance.specialization.0 as usize;
        let specialization = self.table.specializations.get(id)?;
        let node = self.reached.nodes.get(specialization.node.0)?;
        Some((specialization, node))
    }

    /// The call by which an instance is reached, in the node of its caller; none for the node under
    /// test and the observer.
    fn call_of(&self, origin: Origin) -> Option<(&'a CallSite, u32)> {
        let Origin::Called {
            caller,
            call,
            index,
        } = origin
        else {
            return None;
        };
        let row = self.table.instances.get(caller.0 as usize)?;
        let (_, calling) = self.node_of(row)?;
        Some((calling.calls.get(call.0)?, index))
    }

    /// The own name of an instance of a node.
    fn label(&self, node: &ResolvedNode<'s>, origin: Origin) -> Result<String, AllocError> {
        let name = node.tree.name.as_str();
        let Some((site, index)) = self.call_of(origin) else {
            return String::from_str(self.alloc, name);
        };
        let Spot { line, column } = self.lines.spot(site.offset as usize);
        if site.count.is_some() {
            format!(in self.alloc; "{name}@{line}:{column}[{index}]")
        } else {
            format!(in self.alloc; "{name}@{line}:{column}")
        }
    }

    /// The name of an instance behind those of its callers, where the scopes of the instances
    /// before it are known.
    fn name(
        &self,
        label: &str,
        parent: Option<usize>,
        before: &[Scope],
    ) -> Result<String, AllocError> {
        if let Some(place) = parent {
            if let Some(above) = before.get(place) {
                let caller = above.name.as_str();
                return format!(in self.alloc; "{caller}.{label}");
            }
        }
        String::from_str(self.alloc, label)
    }

    /// The scope of an instance, where the scopes of the instances before it are known.
    fn scope(
        &self,
        node: &ResolvedNode<'s>,
        origin: Origin,
        before: &[Scope],
    ) -> Result<Scope, AllocError> {
        let parent = match origin {
            Origin::Called { caller, .. } => Some(caller.0 as usize),
            _ => None,
        };
        let label = self.label(node, origin)?;
        Ok(Scope {
            name: self.name(label.as_str(), parent, before)?,
            label,
            parent,
            is_start: parent.is_none(),
        })
    }

    /// Adds the elements of the variables of an instance, numbered from this number on, and returns
    /// the number behind the last.
    fn push_signals(
        &self,
        found: (&Specialization, &ResolvedNode<'s>),
        scope: usize,
        first: u32,
        signals: &mut Vec<Signal>,
    ) -> Result<u32, AllocError> {
        let (specialization, node) = found;
        let names = variable_names(self.alloc, node)?;
        let mut next = first;
        for (place, (variable, name)) in node.variables.iter().zip(names.iter()).enumerate() {
            let sizes = part_of(
                &specialization.statics,
                variable.first_size.0,
                variable.sizes,
            );
            let width = elements_of(sizes) as u32;
            for index in 0..width {
                signals.push(Signal {
                    label: element_label(self.alloc, name.as_str(), sizes, width, index)?,
                    variable: name.as_str().len(),
                    scope,
                    id: VariableId(place),
                    kind: variable.kind,
                    element: ElementId(next.saturating_add(index)),
                })?;
            }
            next = next.saturating_add(width);
        }
        Ok(next)
    }
}

/// The instances of an elaborated program whose text is `source`, and the elements of their
/// variables.
pub fn signals_of(alloc: Global, source: &[u8], elab: &Elab) -> Result<Signals, AllocError> {
    let reached = elab.reached();
    let table = elab.table();
    let lines = Lines::of(alloc, source)?;
    let names = Names {
        alloc,
        lines: &lines,
        reached,
        table,
    };
    let mut scopes: Vec<Scope> = Vec::new(alloc);
    let mut signals = Vec::new(alloc);
    let mut next = 0;
    for instance in &table.instances {
        if let Some(found) = names.node_of(instance) {
            let scope = names.scope(found.1, instance.origin, scopes.as_slice())?;
            scopes.push(scope)?;
            let place = scopes.len().saturating_sub(1);
            next = names.push_signals(found, place, next, &mut signals)?;
        }
    }
    Ok(Signals { scopes, signals })
}
