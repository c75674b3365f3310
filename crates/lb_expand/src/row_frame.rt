//! The meaning of the numbers in the text of a row's node.

ghost use Rattle.std.specs.Prelude.{◌≡◌, ◌<◌, ◌+◌, ◌^◌};
ghost use Rattle.std.specs.Option.{ForSome};
ghost use Rattle.lb_expand.specs.Frames.{elements_of, AreBefore};
ghost use Rattle.lb_expand.specs.RowContexts.{size_at, times_at};
ghost use Rattle.lb_expand.specs.RowFrames as mirror;
ghost use Rattle.lb_expand.specs.Rows.{numbers_at};
ghost use Rattle.lb_flat.specs.Values.{clock_of, scalar_of};
ghost use Rattle.lb_flat.specs.Within.{IsClock};

use crate::children::Children;
use crate::clocks::{Clocks, node_at};
use crate::expansion::frame::{Callee, Elements, Frame, TableFrame};
use crate::layout::Layout;
use lb_check::{Checked, NodeTypes, declared_clock};
use lb_flat::{ClockId, Scalar};
use lb_static::{
    CallId, InstanceId, ResolvedNode, Specialization, StaticId, StaticInt, VariableId,
};

/// A row of the table of instances, with what is known of all rows.
#[derive(Clone, Copy)]
pub(crate) struct RowFrame<'a, 's> {
    pub(crate) checked: &'a Checked<'s>,
    pub(crate) layout: &'a Layout,
    pub(crate) children: &'a Children,
    pub(crate) clocks: &'a Clocks,
    pub(crate) row: InstanceId,
    pub(crate) node: &'a ResolvedNode<'s>,
    pub(crate) specialization: &'a Specialization,
    /// The clock on which each term of the node stands.
    pub(crate) term_clocks: &'a [lb_check::Clock],
    /// The types of the terms, where the program is not too large for them.
    pub(crate) types: Option<&'a NodeTypes>,
}

/// A static value as an operand.
fn int_value(value: StaticInt) -> Scalar
    ensures { scalar_of result ≡ mirror.int_value value }
{
    let number = value.get();
    if i64::from(i32::MIN) <= number && number <= i64::from(i32::MAX) {
        Scalar::Integer(number as i32)
    } else {
        Scalar::Bad
    }
}

/// The static value at a place as an operand.
fn value_at(statics: &[StaticInt], place: StaticId) -> Scalar
    ensures { scalar_of result ≡ mirror.held_value statics.now place.0 }
{
    match statics.get(place.0) {
        Some(value) => int_value(*value),
        None => Scalar::Bad,
    }
}

/// The static value at a place as a size or an index; 0 where it is none.
fn size_at(statics: &[StaticInt], place: StaticId) -> u32
    ensures { result ≡ size_at statics.now place.0 }
{
    match statics.get(place.0) {
        Some(value) => {
            let number = value.get();
            if number < 0 { 0 } else { number as u32 }
        }
        None => 0,
    }
}

/// How often a call is iterated; 0 where it is not.
fn times_at(node: &ResolvedNode, specialization: &Specialization, call: usize) -> u32
    ensures { result ≡ times_at node.now specialization.now call }
{
    match node.calls.get(call) {
        Some(site) => match site.count {
            Some(count) => size_at(&specialization.statics, count),
            None => 0,
        },
        None => 0,
    }
}

/// How many inputs and outputs a node has, where they are among its variables.
fn parameters(node: &ResolvedNode) -> Option<Callee>
    ensures callee { result ≡ mirror.held_callee node.now }
    ensures room { ForSome result (λ callee. callee.inputs + callee.outputs + 1 < 2 ^ 64) }
{
    let variables = node.variables.len();
    if node.inputs > variables || node.outputs > variables - node.inputs {
        return None;
    }
    Some(Callee {
        inputs: node.inputs,
        outputs: node.outputs,
    })
}

/// The elements of a variable of a row; none where they are not below the layout's count.
#[tactic(auto, using(crate::proofs::frames::FramedContexts::held))]
fn elements_at(layout: &Layout, row: InstanceId, x: VariableId) -> Elements
    ensures places { elements_of result ≡ mirror.held_below layout.now.count
        (numbers_at layout.now.variables.items layout.now.starts.items row.0 x.0) }
    ensures within { AreBefore layout.now.count result }
{
    let range = layout.elements(row, x);
    if range.start < range.end && range.end <= layout.count {
        Elements {
            first: range.start,
            count: range.end - range.start,
        }
    } else {
        Elements { first: 0, count: 0 }
    }
}

impl<'a, 's> RowFrame<'a, 's> {
    ghost use Rattle.std.specs.Prelude.{None, true};
    ghost use Rattle.std.specs.Option.{MatchOption};

    /// The frame of a row, if there is such a row.
    pub(crate) fn new(
        checked: &'a Checked<'s>,
        layout: &'a Layout,
        children: &'a Children,
        clocks: &'a Clocks,
        row: InstanceId,
    ) -> Option<RowFrame<'a, 's>>
        ensures { MatchOption result (mirror.found_row checked.now row.0 ≡ None)
            (λ f. mirror.IsFrameOf checked.now layout.now children.now clocks.now row.0
            (mirror.read_of f)) }
    {
        let reached = checked.elab().reached();
        let table = checked.elab().table();
        let instance = table.instances.get(row.0 as usize)?;
        let specialization = table
            .specializations
            .get(instance.specialization.0 as usize)?;
        let node = reached.nodes.get(specialization.node.0)?;
        Some(RowFrame {
            checked,
            layout,
            children,
            clocks,
            row,
            node,
            specialization,
            term_clocks: checked.term_clocks(specialization.node),
            types: checked.term_types(instance.specialization),
        })
    }

    /// The frame of another row; this one where there is no such row.
    fn entered(&self, row: usize) -> RowFrame<'a, 's>
        requires there { mirror.is_row_of self.now row ≡ true }
        ensures { mirror.IsFrameOf self.now.checked.now self.now.layout.now self.now.children.now
            self.now.clocks.now row (mirror.read_of result) }
    {
        if row >= self.checked.elab().table().instances.len() {
            return *self;
        }
        let row = InstanceId(row as u32);
        match RowFrame::new(self.checked, self.layout, self.children, self.clocks, row) {
            Some(entered) => entered,
            None => *self,
        }
    }

    /// A clock of the table, or the base clock where there is none at this place.
    #[tactic(auto, using(crate::proofs::frames::FramedContexts::past_clock))]
    fn held(&self, clock: Option<ClockId>) -> Option<ClockId>
        ensures clock { clock_of self.now.clocks.now.table.items result
            ≡ clock_of self.now.clocks.now.table.items clock }
        ensures within { IsClock self.now.clocks.now.table.items result }
    {
        let place = clock?;
        if (place.0 as usize) < self.clocks.table.len() {
            Some(place)
        } else {
            None
        }
    }

    /// The place of a clock of a row.
    fn id(&self, row: InstanceId, clock: lb_check::Clock) -> Option<ClockId>
        ensures { result ≡ mirror.read_id (mirror.read_of self.now) row.0 clock }
    {
        self.clocks.of(self.layout, row, clock)
    }

    /// The place of the clock of a variable of a called row.
    fn input_id(&self, call: usize, index: u32, variable: usize) -> Option<ClockId>
        ensures { result ≡ mirror.input_id (mirror.read_of self.now) call index variable }
    {
        let child = self.children.get(self.row, CallId(call), index)?;
        let elab = self.checked.elab();
        let row = elab.table().instances.get(child.0 as usize)?;
        let node = node_at(elab.reached(), elab.table(), row)?;
        self.id(child, declared_clock(node, VariableId(variable)))
    }
}

impl Frame for RowFrame<'_, '_> {
    ghost use Rattle.lb_expand.specs.RowFrames.{frame_context};

    ghost clocks = { λ f. f.clocks.now.table.items };

    ghost variables = { λ f. f.layout.now.count };

    ghost context = { frame_context };

    fn places(&self, variable: VariableId) -> Elements {
        elements_at(self.layout, self.row, variable)
    }

    fn declared(&self, variable: VariableId) -> Option<ClockId> {
        self.held(self.id(self.row, declared_clock(self.node, variable)))
    }

    fn sampled(&self, variable: VariableId, sign: bool) -> Option<ClockId> {
        self.held(self.id(self.row, lb_check::Clock::On(variable, sign)))
    }

    fn value(&self, value: StaticId) -> Scalar {
        value_at(&self.specialization.statics, value)
    }

    fn count(&self, size: StaticId) -> u32 {
        size_at(&self.specialization.statics, size)
    }

    fn clock(&self, term: usize) -> Option<ClockId> {
        let clock = self
            .term_clocks
            .get(term)
            .copied()
            .unwrap_or(lb_check::Clock::Base);
        self.held(self.id(self.row, clock))
    }

    fn parts(&self, term: usize) -> u32 {
        match self.types {
            Some(types) => types.part_count(term),
            None => 0,
        }
    }

    fn callee(&self, call: usize) -> Option<Callee> {
        let reached = self.checked.elab().reached();
        parameters(reached.callee(self.node, CallId(call))?)
    }

    fn repeats(&self, call: usize) -> u32 {
        times_at(self.node, self.specialization, call)
    }

    fn child(&self, call: usize, index: u32, variable: usize) -> Elements {
        match self.children.get(self.row, CallId(call), index) {
            Some(row) => elements_at(self.layout, row, VariableId(variable)),
            None => Elements { first: 0, count: 0 },
        }
    }

    fn input(&self, call: usize, index: u32, variable: usize) -> Option<ClockId> {
        self.held(self.input_id(call, index, variable))
    }
}

impl TableFrame for RowFrame<'_, '_> {
    ghost use Rattle.lb_expand.specs.RowFrames.{contexts_of, is_row_of};

    ghost is_row = { is_row_of };

    ghost contexts = { contexts_of };

    fn enter(&mut self, row: usize) {
        *self = self.entered(row);
    }
}
