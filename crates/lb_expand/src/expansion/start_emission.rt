//! The emission of the instances that start: the inputs of the node under test are those of the
//! trace, and the observer receives the inputs and outputs of the node under test.

ghost use Rattle.std.specs.Prelude.{◌≡◌, ◌<◌, ◌≤◌, ◌+◌, ◌-◌, ◌^◌, [], ◌∷◌, drop, flat_map, length};
ghost use Rattle.std.specs.Prelude.{OnOk, IfOk};
ghost use Rattle.std.specs.List.{range_with_len};
ghost use Rattle.lb_expand.specs.Emit.{gives, copied, from_inputs};
ghost use Rattle.lb_expand.specs.EmitWhole.{input_of, parameter_targets, places_from};
ghost use Rattle.lb_expand.specs.Frames.{elements_of, targets_of, with_copies, AreBefore};
ghost use Rattle.lb_flat.specs.Programs.{numbers_of};
ghost use Rattle.lb_expand.specs.TermEmissions.{state_of, emitted_of, onto};
ghost use Rattle.lb_flat.specs.Values.{clock_of};
ghost use Rattle.lb_flat.specs.Within.{IsClock};

use crate::expansion::frame::{Elements, Frame};
use crate::expansion::term_emission::TermEmission;
use lb_flat::{ClockId, ElementId, Equation, InputId, Operation};
use lb_static::VariableId;
use std::alloc::AllocError;

impl TermEmission {
    /// Emits an element of a variable as the scalar of the trace with number `input`.
    #[tactic(auto, using(crate::proofs::emission::EmittedCalls::copies))]
    fn give_one(
        &mut self,
        element: ElementId,
        clock: Option<ClockId>,
        input: u32,
    ) -> Result<(), AllocError>
        requires element { element.0 < self.old.next }
        requires clock { IsClock self.old.clocks.items clock }
        ensures state { OnOk result (state_of self.new
            ≡ with_copies (state_of self.old) (input_of (clock_of self.old.clocks.items clock)
            element.0 input ∷ [])) }
        ensures found { self.new.found ≡ self.old.found }
        ensures next { self.new.next ≡ self.old.next }
        ensures clocks { self.new.clocks ≡ self.old.clocks }
    {
        self.copies.push(Equation {
            element,
            clock,
            operation: Operation::Input(InputId(input)),
        })?;
        Ok(())
    }

    /// Emits elements of a variable as scalars of the trace from `input` on; returns the next
    /// number.
    fn give(
        &mut self,
        targets: Elements,
        clock: Option<ClockId>,
        input: u32,
    ) -> Result<u32, AllocError>
        requires targets { AreBefore self.old.next targets }
        requires clock { IsClock self.old.clocks.items clock }
        requires room { input + targets.count < 2 ^ 32 }
        ensures state { OnOk result (state_of self.new
            ≡ with_copies (state_of self.old) (from_inputs input
            (targets_of (clock_of self.old.clocks.items clock) (elements_of targets)))) }
        ensures next_input { IfOk result (λ n. n ≡ input + targets.count) }
        ensures found { OnOk result (self.new.found ≡ self.old.found) }
        ensures next { OnOk result (self.new.next ≡ self.old.next) }
        ensures clocks { OnOk result (self.new.clocks ≡ self.old.clocks) }
    {
        for i in 0..targets.count {
            self.give_one(ElementId(targets.first + i), clock, input + i)?;
        }
        Ok(input + targets.count)
    }

    /// Emits the elements of the first `inputs` variables as the scalars of the trace.
    pub(crate) fn given<F: Frame>(&mut self, frame: &F, inputs: usize) -> Result<(), AllocError>
        requires clocks { F.clocks frame.now ≡ self.old.clocks.items }
        requires variables { F.variables frame.now ≤ self.old.next }
        requires room { length (parameter_targets (F.context frame.now) inputs) < 2 ^ 32 }
        ensures state { OnOk result (state_of self.new ≡ with_copies (state_of self.old)
            (from_inputs 0 (parameter_targets (F.context frame.now) inputs))) }
        ensures found { OnOk result (self.new.found ≡ self.old.found) }
        ensures next { OnOk result (self.new.next ≡ self.old.next) }
        ensures clocks { OnOk result (self.new.clocks ≡ self.old.clocks) }
    {
        let mut input = 0;
        for x in 0..inputs {
            let variable = VariableId(x);
            input = self.give(frame.places(variable), frame.declared(variable), input)?;
        }
        Ok(())
    }

    /// Emits the elements of the first `inputs` variables as copies of those from place `from` on.
    pub(crate) fn copy_parameters<F: Frame>(
        &mut self,
        frame: &F,
        inputs: usize,
        from: usize,
    ) -> Result<(), AllocError>
        requires clocks { F.clocks frame.now ≡ self.old.clocks.items }
        requires variables { F.variables frame.now ≤ self.old.next }
        requires from { from ≤ length self.old.found.items }
        ensures state { OnOk result (state_of self.new
            ≡ with_copies (state_of self.old) (copied
            (parameter_targets (F.context frame.now) inputs)
            (drop from (numbers_of self.old.found.items)))) }
        ensures found { OnOk result (self.new.found ≡ self.old.found) }
        ensures next { OnOk result (self.new.next ≡ self.old.next) }
        ensures clocks { OnOk result (self.new.clocks ≡ self.old.clocks) }
    {
        let mut at = from;
        for x in 0..inputs {
            let variable = VariableId(x);
            at = self.copy(frame.places(variable), frame.declared(variable), at)?;
        }
        Ok(())
    }

    /// Pushes the elements of the variables from `first` to before `end`.
    pub(crate) fn put_parameters<F: Frame>(
        &mut self,
        frame: &F,
        first: usize,
        end: usize,
    ) -> Result<(), AllocError>
        requires variables { F.variables frame.now ≤ self.old.next }
        ensures emitted { OnOk result (emitted_of self.new
            ≡ onto (numbers_of self.old.found.items) (gives (state_of self.old)
            (places_from (F.context frame.now) first (end - first)))) }
        ensures next { OnOk result (self.new.next ≡ self.old.next) }
        ensures clocks { OnOk result (self.new.clocks ≡ self.old.clocks) }
    {
        for x in first..end {
            self.put(frame.places(VariableId(x)))?;
        }
        Ok(())
    }
}
