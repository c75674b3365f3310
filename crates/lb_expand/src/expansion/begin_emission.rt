//! The equations that begin a flat program, and the elements of it that are watched.

ghost use Rattle.std.specs.Prelude.{◌≡◌, ◌<◌, ◌≤◌, true, false, get_or, All, OnOk, IfOk};
ghost use Rattle.std.specs.Option.{ForSome};
ghost use Rattle.lb_syntax.specs.Lists.{or_else};
ghost use Rattle.lb_expand.specs.Emit.{gives};
ghost use Rattle.lb_expand.specs.EmitRows.{HasRows};
ghost use Rattle.lb_expand.specs.EmitWhole as mirror;
ghost use Rattle.lb_expand.specs.Frames.{with_copies};
ghost use Rattle.lb_flat.specs.Programs.{numbers_of, flat_equations};
ghost use Rattle.lb_expand.specs.TermEmissions.{state_of, emitted_of, onto};
ghost use Rattle.lb_flat.specs.Within.{IsWithin};

use crate::expansion::frame::TableFrame;
use crate::expansion::start::Start;
use crate::expansion::term_emission::TermEmission;
use crate::expansion::whole_emission::start_in;
use lb_flat::{Clock, ElementId, Equation};
use lb_static::{Reached, Table};
use std::alloc::{AllocError, Global};

/// The equations that begin a flat program, the elements that serve as clocks, and the element of
/// the property.
#[derive(Drop)]
pub(crate) struct Beginning {
    pub(crate) copies: Vec<Equation>,
    pub(crate) clock_elements: Vec<ElementId>,
    pub(crate) property: ElementId,
}

/// The row whose first output is the property.
fn watched(root: Option<Start>, observer: Option<Start>) -> Option<Start>
    ensures { result ≡ or_else observer root }
{
    match observer {
        Some(start) => Some(start),
        None => root,
    }
}

impl TermEmission {
    /// Emits the inputs of the node under test as those of the trace, and the inputs of the
    /// observer as copies of the inputs and outputs of the node under test.
    fn begin<F: TableFrame>(
        &mut self,
        frame: &mut F,
        root: Option<Start>,
        observer: Option<Start>,
    ) -> Result<(), AllocError>
        requires clocks { F.clocks frame.old ≡ self.old.clocks.items }
        requires variables { F.variables frame.old ≤ self.old.next }
        requires root_ready { ForSome root
            (mirror.IsReady (F.contexts frame.old) (F.is_row frame.old)) }
        requires observer_ready { ForSome observer
            (mirror.IsReady (F.contexts frame.old) (F.is_row frame.old)) }
        ensures state { OnOk result (state_of self.new ≡ with_copies (state_of self.old)
            (mirror.begun_at (F.contexts frame.old) root observer)) }
        ensures found { OnOk result (numbers_of self.new.found.items
            ≡ numbers_of self.old.found.items) }
        ensures next { OnOk result (self.new.next ≡ self.old.next) }
        ensures clocks { OnOk result (self.new.clocks ≡ self.old.clocks) }
        ensures rows { F.is_row frame.new ≡ F.is_row frame.old }
        ensures contexts { F.contexts frame.new ≡ F.contexts frame.old }
        ensures table { F.clocks frame.new ≡ F.clocks frame.old }
        ensures variables { F.variables frame.new ≡ F.variables frame.old }
    {
        match root {
            None => Ok(()),
            Some(root) => {
                frame.enter(root.row);
                self.given(&*frame, root.inputs)?;
                match observer {
                    None => Ok(()),
                    Some(observer) => self.observe(frame, root, observer),
                }
            }
        }
    }

    /// Pushes the elements of the outputs of a row that starts.
    fn put_start<F: TableFrame>(
        &mut self,
        frame: &mut F,
        start: Option<Start>,
    ) -> Result<(), AllocError>
        requires variables { F.variables frame.old ≤ self.old.next }
        requires ready { ForSome start
            (mirror.IsReady (F.contexts frame.old) (F.is_row frame.old)) }
        ensures emitted { OnOk result (emitted_of self.new
            ≡ onto (numbers_of self.old.found.items) (gives (state_of self.old)
            (mirror.outputs_at (F.contexts frame.old) start))) }
        ensures next { OnOk result (self.new.next ≡ self.old.next) }
        ensures clocks { OnOk result (self.new.clocks ≡ self.old.clocks) }
        ensures rows { F.is_row frame.new ≡ F.is_row frame.old }
        ensures contexts { F.contexts frame.new ≡ F.contexts frame.old }
        ensures table { F.clocks frame.new ≡ F.clocks frame.old }
        ensures variables { F.variables frame.new ≡ F.variables frame.old }
    {
        match start {
            None => Ok(()),
            Some(start) => {
                frame.enter(start.row);
                self.put_parameters(&*frame, start.inputs, start.inputs + start.outputs)
            }
        }
    }

    /// The first element of the outputs of a row that starts; element 0 where there is none.
    fn property<F: TableFrame>(
        &mut self,
        frame: &mut F,
        start: Option<Start>,
    ) -> Result<ElementId, AllocError>
        requires variables { F.variables frame.old ≤ self.old.next }
        requires positive { 0 < self.old.next }
        requires ready { ForSome start
            (mirror.IsReady (F.contexts frame.old) (F.is_row frame.old)) }
        ensures property { IfOk result (λ a. a.0
            ≡ get_or (mirror.outputs_at (F.contexts frame.old) start) 0 0) }
        ensures within { IfOk result (λ a. a.0 < self.old.next) }
        ensures emitted { OnOk result (emitted_of self.new ≡ emitted_of self.old) }
        ensures next { OnOk result (self.new.next ≡ self.old.next) }
        ensures clocks { OnOk result (self.new.clocks ≡ self.old.clocks) }
        ensures rows { F.is_row frame.new ≡ F.is_row frame.old }
        ensures contexts { F.contexts frame.new ≡ F.contexts frame.old }
        ensures table { F.clocks frame.new ≡ F.clocks frame.old }
        ensures variables { F.variables frame.new ≡ F.variables frame.old }
    {
        let from = self.found.len();
        self.put_start(frame, start)?;
        let property = if from < self.found.len() {
            self.found[from]
        } else {
            ElementId(0)
        };
        self.cut(from);
        Ok(property)
    }
}

impl Beginning {
    /// The beginning of the flat program of a table of instances, with these clocks and `variables`
    /// elements of variables.
    pub(crate) fn new<F: TableFrame>(
        alloc: Global,
        frame: &mut F,
        reached: &Reached,
        table: &Table,
        clocks: &[Clock],
        variables: u32,
    ) -> Result<Beginning, AllocError>
        requires table { F.clocks frame.old ≡ clocks.now }
        requires variables { F.variables frame.old ≡ variables }
        requires positive { 0 < variables }
        requires there { HasRows reached.now table.now (F.is_row frame.old) }
        requires root { ForSome (mirror.start_in reached.now table.now false)
            (mirror.IsReady (F.contexts frame.old) (F.is_row frame.old)) }
        requires observer { ForSome (mirror.start_in reached.now table.now true)
            (mirror.IsReady (F.contexts frame.old) (F.is_row frame.old)) }
        ensures copies { IfOk result (λ b. flat_equations clocks.now b.copies.items
            ≡ mirror.begun_at (F.contexts frame.old)
            (mirror.start_in reached.now table.now false)
            (mirror.start_in reached.now table.now true)) }
        ensures copies_within { IfOk result (λ b.
            All (IsWithin variables clocks.now) b.copies.items) }
        ensures clock_elements { IfOk result (λ b. numbers_of b.clock_elements.items
            ≡ mirror.row_clocks reached.now table.now (F.contexts frame.old) 0
            table.now.instances.items) }
        ensures clocks_within { IfOk result (λ b.
            All (λ a. a.0 < variables) b.clock_elements.items) }
        ensures property { IfOk result (λ b. b.property.0
            ≡ get_or (mirror.outputs_at (F.contexts frame.old)
            (or_else (mirror.start_in reached.now table.now true)
            (mirror.start_in reached.now table.now false))) 0 0) }
        ensures property_within { IfOk result (λ b. b.property.0 < variables) }
        ensures rows { OnOk result (F.is_row frame.new ≡ F.is_row frame.old) }
        ensures contexts { OnOk result (F.contexts frame.new ≡ F.contexts frame.old) }
        ensures table { OnOk result (F.clocks frame.new ≡ F.clocks frame.old) }
        ensures variables { OnOk result (F.variables frame.new ≡ F.variables frame.old) }
    {
        let root = start_in(reached, table, false);
        let observer = start_in(reached, table, true);
        let known = Vec::from_slice(alloc, clocks)?;
        let mut emission = TermEmission::new(alloc, known, variables);
        emission.begin(frame, root, observer)?;
        let property = emission.property(frame, watched(root, observer))?;
        emission.put_clocks(alloc, frame, reached, table)?;
        let (copies, clock_elements) = emission.into_copies_and_found();
        Ok(Beginning {
            copies,
            clock_elements,
            property,
        })
    }
}
