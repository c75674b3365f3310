//! The places at which the elements of a cycle are defined.
//!
//! No place is kept while a program is put in order: the places are read from the trees once an
//! order is refused.

ghost use Rattle.std.specs.Prelude.{◌≡◌, ◌+◌, length, IfOk, OnOk};
ghost use Rattle.lb_expand.specs.Correct.{IsPlaced};

use crate::clocks::node_at;
use crate::layout::{ElementPlace, Layout};
use lb_check::Checked;
use lb_flat::{Cycle, CyclePlace, ElementId, OrderError};
use lb_static::{
    CallPath, Origin, Reached, ResolvedNode, ResolvedStatement, Specialization, StaticInt, Table,
    call_path, part_of,
};
use lb_syntax::{Declarations, Name, Node, Statement};
use std::alloc::{AllocError, Global};

/// A variable of a node: its name, and the offset of its equation, if there is one.
#[derive(Clone, Copy)]
struct Definition<'s> {
    name: &'s Name,
    equation: Option<u32>,
}

/// The data from which the places of elements are read.
#[derive(Clone, Copy)]
struct Places<'a, 's> {
    reached: &'a Reached<'s>,
    table: &'a Table,
    layout: &'a Layout,
    /// The variables of each node that is reached: the inputs, then the outputs, then the locals.
    definitions: &'a [Vec<Definition<'s>>],
}

/// Adds the variables that are declared in some groups, without their equations.
fn push_declared<'s>(
    variables: &mut Vec<Definition<'s>>,
    groups: &'s [Declarations],
) -> Result<(), AllocError> {
    for group in groups {
        for name in &group.names {
            variables.push(Definition {
                name,
                equation: None,
            })?;
        }
    }
    Ok(())
}

/// Adds the variables of a node, without their equations.
fn push_variables<'s>(
    variables: &mut Vec<Definition<'s>>,
    tree: &'s Node,
) -> Result<(), AllocError> {
    push_declared(variables, tree.inputs.as_slice())?;
    push_declared(variables, tree.outputs.as_slice())?;
    push_declared(variables, tree.locals.as_slice())
}

/// Puts the offset of an equation to the variables on its left side.
fn put_equation(variables: &mut [Definition<'_>], statement: &ResolvedStatement, offset: u32) {
    if let ResolvedStatement::Equation(lefts, _) = statement {
        for left in lefts {
            if left.0 < variables.len() {
                variables[left.0].equation = Some(offset);
            }
        }
    }
}

/// Puts the offsets of the equations of a node to the variables.
fn put_equations(
    variables: &mut [Definition<'_>],
    statements: &[ResolvedStatement],
    written: &[Statement],
) {
    for i in 0..statements.len().min(written.len()) {
        put_equation(variables, &statements[i], written[i].offset());
    }
}

/// The variables of a node.
fn definitions_of<'s>(
    alloc: Global,
    node: &ResolvedNode<'s>,
) -> Result<Vec<Definition<'s>>, AllocError> {
    let mut variables = Vec::new(alloc);
    push_variables(&mut variables, node.tree)?;
    put_equations(variables.as_mut_slice(), &node.body, &node.tree.body);
    Ok(variables)
}

/// The variables of each node that is reached.
fn all_definitions<'s>(
    alloc: Global,
    reached: &Reached<'s>,
) -> Result<Vec<Vec<Definition<'s>>>, AllocError> {
    let mut all = Vec::new(alloc);
    for node in &reached.nodes {
        all.push(definitions_of(alloc, node)?)?;
    }
    Ok(all)
}

/// How many elements an array of these sizes has, at most the greatest `u64`.
fn product(sizes: &[StaticInt]) -> u64 {
    let mut product: u64 = 1;
    for size in sizes {
        product = product.saturating_mul(size.natural().unwrap_or(1));
    }
    product
}

/// The name of an element of a variable, as users write it: `x`, or `a[2][0]` where the variable
/// has sizes; the last of `sizes` is the outermost.
fn element_name(
    alloc: Global,
    variable: &str,
    sizes: &[StaticInt],
    index: u32,
) -> Result<String, AllocError> {
    let mut name = String::from_str(alloc, variable)?;
    let mut inner = product(sizes);
    let mut rest = u64::from(index);
    for size in sizes.iter().rev() {
        inner = (inner / size.natural().unwrap_or(1).max(1)).max(1);
        write!(name, "[{}]", rest / inner)?;
        rest %= inner;
    }
    Ok(name)
}

/// A variable, and where it is defined.
#[derive(Clone, Copy)]
struct Defined<'a> {
    name: &'a str,
    /// Its sizes, the outermost last.
    sizes: &'a [StaticInt],
    offset: u32,
}

impl<'a, 's> Places<'a, 's> {
    /// The offset of the call that reaches a row; 0 for the node under test and the observer.
    fn call_offset(&self, origin: Origin) -> u32 {
        let Origin::Called { caller, call, .. } = origin else {
            return 0;
        };
        let Some(row) = self.table.instances.get(caller.0 as usize) else {
            return 0;
        };
        let Some(node) = node_at(self.reached, self.table, row) else {
            return 0;
        };
        match node.calls.get(call.0) {
            Some(site) => site.offset,
            None => 0,
        }
    }

    /// The sizes of a variable under the static values of its row, the outermost last.
    fn sizes(
        &self,
        specialization: &'a Specialization,
        variable: usize,
    ) -> Option<&'a [StaticInt]> {
        let node = self.reached.nodes.get(specialization.node.0)?;
        let variable = node.variables.get(variable)?;
        Some(part_of(
            &specialization.statics,
            variable.first_size.0,
            variable.sizes,
        ))
    }

    /// The variable at a place; an equation defines it, or the call of its node if it is an input.
    fn defined(&self, at: ElementPlace) -> Option<Defined<'a>> {
        let row = self.table.instances.get(at.row)?;
        let specialization = self
            .table
            .specializations
            .get(row.specialization.0 as usize)?;
        let definitions = self.definitions.get(specialization.node.0)?;
        let definition = definitions.get(at.variable)?;
        let sizes = self.sizes(specialization, at.variable)?;
        let offset = match definition.equation {
            Some(equation) => equation,
            None => self.call_offset(row.origin),
        };
        Some(Defined {
            name: definition.name.as_str(),
            sizes,
            offset,
        })
    }

    /// The place of an element, whose row is reached by way number `instance`.
    fn place(
        &self,
        alloc: Global,
        at: ElementPlace,
        instance: usize,
    ) -> Result<CyclePlace, AllocError> {
        let found = match self.defined(at) {
            Some(found) => found,
            None => Defined {
                name: "",
                sizes: &[],
                offset: 0,
            },
        };
        let name = element_name(alloc, found.name, found.sizes, at.index)?;
        Ok(CyclePlace {
            name,
            offset: found.offset,
            instance,
        })
    }

    /// The number of the way to a row among `instances`; adds the way if it is not known yet.
    fn instance(
        &self,
        alloc: Global,
        row: usize,
        numbers: &mut [Option<usize>],
        instances: &mut Vec<CallPath>,
    ) -> Result<usize, AllocError> {
        if let Some(Some(number)) = numbers.get(row) {
            return Ok(*number);
        }
        let rows = self.table.instances.as_slice();
        let origin = match rows.get(row) {
            Some(instance) => instance.origin,
            None => Origin::UnderTest,
        };
        let number = instances.len();
        instances.push(call_path(alloc, self.reached, rows, origin)?)?;
        if let Some(entry) = numbers.get_mut(row) {
            *entry = Some(number);
        }
        Ok(number)
    }

    /// Adds the place of an element, and the way to its row if it is not known yet.
    fn push_place(
        &self,
        alloc: Global,
        element: ElementId,
        numbers: &mut [Option<usize>],
        instances: &mut Vec<CallPath>,
        places: &mut Vec<CyclePlace>,
    ) -> Result<(), AllocError>
        ensures { OnOk result (length places.new.items ≡ length places.old.items + 1) }
    {
        let at = self.layout.place_of(element);
        let instance = self.instance(alloc, at.row, numbers, instances)?;
        places.push(self.place(alloc, at, instance)?)?;
        Ok(())
    }

    /// The cycle of some elements, with the place of each.
    fn cycle(&self, alloc: Global, elements: Vec<ElementId>) -> Result<Cycle, AllocError>
        ensures { IfOk result (λ cycle. (cycle.elements.items ≡ elements.items)
            × (length cycle.places.items ≡ length elements.items)) }
    {
        let mut numbers = vec![in alloc; None; self.table.instances.len()]?;
        let mut instances = Vec::new(alloc);
        let mut places = Vec::new(alloc);
        for element in &elements {
            self.push_place(alloc, *element, &mut numbers, &mut instances, &mut places)?;
        }
        Ok(Cycle {
            elements,
            places,
            instances,
        })
    }
}

/// The cycle of some elements of a checked program, with the place of each.
fn placed_cycle(
    alloc: Global,
    checked: &Checked,
    elements: Vec<ElementId>,
) -> Result<Cycle, OrderError>
    ensures { IfOk result (λ cycle. (cycle.elements.items ≡ elements.items)
        × (length cycle.places.items ≡ length elements.items)) }
{
    let elab = checked.elab();
    let reached = elab.reached();
    let table = elab.table();
    let Ok(layout) = Layout::new(alloc, reached, table) else {
        return Err(OrderError::Memory);
    };
    let definitions = all_definitions(alloc, reached)?;
    let places = Places {
        reached,
        table,
        layout: &layout,
        definitions: &definitions,
    };
    Ok(places.cycle(alloc, elements)?)
}

/// Why a program has no order, with the places of the elements of a cycle: `order` reports the
/// elements alone. `checked` is the program that `expand` expanded and `order` refused. It takes
/// memory; where that runs out, the answer is `OrderError::Memory`.
///
/// ```text
/// let ordered = match order(alloc, expand(alloc, &checked)?) {
///     Err(cause) => return Err(with_places(alloc, &checked, cause)),
///     Ok(ordered) => ordered,
/// };
/// ```
pub fn with_places(alloc: Global, checked: &Checked, cause: OrderError) -> OrderError
    ensures { IsPlaced cause result }
{
    let OrderError::Cycle(cycle) = cause else {
        return OrderError::Memory;
    };
    let Cycle { elements, .. } = Box::into_inner(cycle);
    match placed_cycle(alloc, checked, elements) {
        Ok(placed) => match Box::new(alloc, placed) {
            Ok(placed) => OrderError::Cycle(placed),
            Err(_) => OrderError::Memory,
        },
        Err(_) => OrderError::Memory,
    }
}
