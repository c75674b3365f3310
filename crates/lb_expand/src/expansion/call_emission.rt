//! The emission of a call: its inputs are copies of the operands, and its outputs are pushed.

ghost use Rattle.std.specs.Prelude.{◌≡◌, ◌<◌, ◌≤◌, ℕ, ◌+◌, ◌-◌, ◌*◌, ◌^◌, [], ◌∷◌, drop, flat_map};
ghost use Rattle.std.specs.Prelude.{length, min, OnOk, IfOk};
ghost use Rattle.std.specs.List.{range_with_len};
ghost use Rattle.lb_syntax.specs.declared.tree.ArrayIterator.TheVariants.{Red};
ghost use Rattle.lb_expand.specs.Emit.{gives, copied};
ghost use Rattle.lb_expand.specs.EmitTerms as mirror;
ghost use Rattle.lb_expand.specs.Frames.{elements_of, targets_of, copy_of, with_copies, AreBefore};
ghost use Rattle.lb_flat.specs.Programs.{numbers_of};
ghost use Rattle.lb_expand.specs.TermEmissions.{state_of, emitted_of, onto, on_top};
ghost use Rattle.lb_flat.specs.Values.{clock_of};
ghost use Rattle.lb_flat.specs.Within.{IsClock};

use crate::expansion::frame::{Callee, Elements, Frame};
use crate::expansion::term_emission::TermEmission;
use lb_flat::{ClockId, ElementId, Equation, Operation};
use lb_syntax::ArrayIterator;
use std::alloc::AllocError;

impl TermEmission {
    /// Pushes an element on the stack.
    #[tactic(auto, using(crate::proofs::emission::EmittedCalls::puts))]
    fn put_one(&mut self, element: ElementId) -> Result<(), AllocError>
        requires element { element.0 < self.old.next }
        ensures emitted { OnOk result (emitted_of self.new
            ≡ onto (numbers_of self.old.found.items)
            (gives (state_of self.old) (element.0 ∷ []))) }
        ensures next { self.new.next ≡ self.old.next }
        ensures clocks { self.new.clocks ≡ self.old.clocks }
    {
        self.found.push(element)?;
        Ok(())
    }

    /// Pushes elements on the stack.
    pub(crate) fn put(&mut self, elements: Elements) -> Result<(), AllocError>
        requires elements { AreBefore self.old.next elements }
        ensures emitted { OnOk result (emitted_of self.new
            ≡ onto (numbers_of self.old.found.items)
            (gives (state_of self.old) (elements_of elements))) }
        ensures next { self.new.next ≡ self.old.next }
        ensures clocks { self.new.clocks ≡ self.old.clocks }
    {
        for i in 0..elements.count {
            self.put_one(ElementId(elements.first + i))?;
        }
        Ok(())
    }

    /// Emits an element of a variable as a copy of `operand`.
    #[tactic(auto, using(crate::proofs::emission::EmittedCalls::copies))]
    fn copy_one(
        &mut self,
        element: ElementId,
        clock: Option<ClockId>,
        operand: ElementId,
    ) -> Result<(), AllocError>
        requires element { element.0 < self.old.next }
        requires clock { IsClock self.old.clocks.items clock }
        requires operand { operand.0 < self.old.next }
        ensures state { OnOk result (state_of self.new
            ≡ with_copies (state_of self.old) (copy_of (clock_of self.old.clocks.items clock)
            element.0 operand.0 ∷ [])) }
        ensures found { self.new.found ≡ self.old.found }
        ensures next { self.new.next ≡ self.old.next }
        ensures clocks { self.new.clocks ≡ self.old.clocks }
    {
        self.copies.push(Equation {
            element,
            clock,
            operation: Operation::Copy(operand),
        })?;
        Ok(())
    }

    /// Emits elements of a variable as copies of those of the stack from place `from` on; returns
    /// the place after the copied ones.
    pub(crate) fn copy(
        &mut self,
        targets: Elements,
        clock: Option<ClockId>,
        from: usize,
    ) -> Result<usize, AllocError>
        requires targets { AreBefore self.old.next targets }
        requires clock { IsClock self.old.clocks.items clock }
        requires from { from ≤ length self.old.found.items }
        ensures state { OnOk result (state_of self.new
            ≡ with_copies (state_of self.old) (copied
            (targets_of (clock_of self.old.clocks.items clock) (elements_of targets))
            (drop from (numbers_of self.old.found.items)))) }
        ensures place { IfOk result (λ to.
            to ≡ from + min targets.count (length self.old.found.items - from)) }
        ensures found { OnOk result (self.new.found ≡ self.old.found) }
        ensures next { OnOk result (self.new.next ≡ self.old.next) }
        ensures clocks { OnOk result (self.new.clocks ≡ self.old.clocks) }
    {
        let count = (targets.count as usize).min(self.found.len() - from);
        for i in 0..count {
            let element = ElementId(targets.first + i as u32);
            let operand = self.found[from + i];
            self.copy_one(element, clock, operand)?;
        }
        Ok(from + count)
    }

    /// Emits the elements `targets` of a variable as copies of `elements`.
    fn copy_elements(
        &mut self,
        targets: Elements,
        clock: Option<ClockId>,
        elements: Elements,
    ) -> Result<(), AllocError>
        requires targets { AreBefore self.old.next targets }
        requires clock { IsClock self.old.clocks.items clock }
        requires elements { AreBefore self.old.next elements }
        ensures state { OnOk result (state_of self.new
            ≡ with_copies (state_of self.old) (copied
            (targets_of (clock_of self.old.clocks.items clock) (elements_of targets))
            (elements_of elements))) }
        ensures found { OnOk result (self.new.found ≡ self.old.found) }
        ensures next { OnOk result (self.new.next ≡ self.old.next) }
        ensures clocks { OnOk result (self.new.clocks ≡ self.old.clocks) }
    {
        for i in 0..targets.count.min(elements.count) {
            let element = ElementId(targets.first + i);
            self.copy_one(element, clock, ElementId(elements.first + i))?;
        }
        Ok(())
    }

    /// Emits an input of the instance that a call calls at an index as a copy of the elements of
    /// the stack from place `from` on; returns the place after the copied ones.
    fn copy_child<F: Frame>(
        &mut self,
        frame: &F,
        call: usize,
        index: u32,
        variable: usize,
        from: usize,
    ) -> Result<usize, AllocError>
        requires clocks { F.clocks frame.now ≡ self.old.clocks.items }
        requires variables { F.variables frame.now ≤ self.old.next }
        requires from { from ≤ length self.old.found.items }
        ensures state { OnOk result (state_of self.new
            ≡ with_copies (state_of self.old) (copied
            (mirror.input_targets (F.context frame.now) call index variable)
            (drop from (numbers_of self.old.found.items)))) }
        ensures place { IfOk result (λ to.
            to ≡ from + min (length ((F.context frame.now).child call index variable))
            (length self.old.found.items - from)) }
        ensures found { OnOk result (self.new.found ≡ self.old.found) }
        ensures next { OnOk result (self.new.next ≡ self.old.next) }
        ensures clocks { OnOk result (self.new.clocks ≡ self.old.clocks) }
    {
        let targets = frame.child(call, index, variable);
        self.copy(targets, frame.input(call, index, variable), from)
    }

    /// Emits the `inputs` inputs of a called node as copies of the elements of the stack from place
    /// `from` on.
    fn copy_inputs<F: Frame>(
        &mut self,
        frame: &F,
        call: usize,
        inputs: usize,
        from: usize,
    ) -> Result<(), AllocError>
        requires clocks { F.clocks frame.now ≡ self.old.clocks.items }
        requires variables { F.variables frame.now ≤ self.old.next }
        requires from { from ≤ length self.old.found.items }
        ensures state { OnOk result (state_of self.new
            ≡ with_copies (state_of self.old) (copied
            (flat_map (mirror.input_targets (F.context frame.now) call 0)
            (range_with_len 0 inputs)) (drop from (numbers_of self.old.found.items)))) }
        ensures found { OnOk result (self.new.found ≡ self.old.found) }
        ensures next { OnOk result (self.new.next ≡ self.old.next) }
        ensures clocks { OnOk result (self.new.clocks ≡ self.old.clocks) }
    {
        let mut at = from;
        for x in 0..inputs {
            at = self.copy_child(frame, call, 0, x, at)?;
        }
        Ok(())
    }

    /// Emits the inputs from `first` to before `inputs` of the instance at `index` as copies of its
    /// parts of the elements of the stack from place `from` on.
    fn copy_parts<F: Frame>(
        &mut self,
        frame: &F,
        call: usize,
        index: u32,
        first: usize,
        inputs: usize,
        from: usize,
    ) -> Result<(), AllocError>
        requires clocks { F.clocks frame.now ≡ self.old.clocks.items }
        requires variables { F.variables frame.now ≤ self.old.next }
        requires from { from ≤ length self.old.found.items }
        ensures state { OnOk result (state_of self.new
            ≡ with_copies (state_of self.old) (mirror.part_copies (F.context frame.now) call
            ((F.context frame.now).repeats call) index (range_with_len first (inputs - first))
            (drop from (numbers_of self.old.found.items)))) }
        ensures found { OnOk result (self.new.found ≡ self.old.found) }
        ensures next { OnOk result (self.new.next ≡ self.old.next) }
        ensures clocks { OnOk result (self.new.clocks ≡ self.old.clocks) }
    {
        let top = self.found.len();
        let repeats = frame.repeats(call) as usize;
        let mut at = from;
        for x in first..inputs {
            let count = frame.child(call, index, x).count as usize;
            let skipped = (count * index as usize).min(top - at);
            self.copy_child(frame, call, index, x, at + skipped)?;
            let taken = (count * repeats).min(top - at);
            at += taken;
        }
        Ok(())
    }

    /// Emits the accumulator of the instance at `index`: a copy of the elements of the stack from
    /// place `from` on for the first instance, and of the first output of the instance before for
    /// the others.
    fn copy_accumulator<F: Frame>(
        &mut self,
        frame: &F,
        call: usize,
        index: u32,
        callee: Callee,
        from: usize,
    ) -> Result<(), AllocError>
        requires clocks { F.clocks frame.now ≡ self.old.clocks.items }
        requires variables { F.variables frame.now ≤ self.old.next }
        requires from { from ≤ length self.old.found.items }
        ensures state { OnOk result (state_of self.new
            ≡ with_copies (state_of self.old) (copied
            (mirror.input_targets (F.context frame.now) call index 0)
            (mirror.accumulator (F.context frame.now) call callee index
            (drop from (numbers_of self.old.found.items))))) }
        ensures found { OnOk result (self.new.found ≡ self.old.found) }
        ensures next { OnOk result (self.new.next ≡ self.old.next) }
        ensures clocks { OnOk result (self.new.clocks ≡ self.old.clocks) }
    {
        if index == 0 {
            self.copy_child(frame, call, index, 0, from)?;
        } else {
            let targets = frame.child(call, index, 0);
            let before = frame.child(call, index - 1, callee.inputs);
            self.copy_elements(targets, frame.input(call, index, 0), before)?;
        }
        Ok(())
    }

    /// Emits the inputs of the instance at `index`: for `red`, its accumulator and then its parts.
    fn copy_index<F: Frame>(
        &mut self,
        frame: &F,
        call: usize,
        iterator: ArrayIterator,
        index: u32,
        callee: Callee,
        from: usize,
    ) -> Result<(), AllocError>
        requires clocks { F.clocks frame.now ≡ self.old.clocks.items }
        requires variables { F.variables frame.now ≤ self.old.next }
        requires from { from ≤ length self.old.found.items }
        ensures state { OnOk result (state_of self.new
            ≡ with_copies (state_of self.old) (mirror.index_copies (F.context frame.now) call
            ((F.context frame.now).repeats call) iterator callee
            (drop from (numbers_of self.old.found.items)) index)) }
        ensures found { OnOk result (self.new.found ≡ self.old.found) }
        ensures next { OnOk result (self.new.next ≡ self.old.next) }
        ensures clocks { OnOk result (self.new.clocks ≡ self.old.clocks) }
    {
        match iterator {
            ArrayIterator::Map => self.copy_parts(frame, call, index, 0, callee.inputs, from),
            ArrayIterator::Red => {
                self.copy_accumulator(frame, call, index, callee, from)?;
                let count = frame.child(call, index, 0).count as usize;
                let taken = count.min(self.found.len() - from);
                self.copy_parts(frame, call, index, 1, callee.inputs, from + taken)
            }
            ArrayIterator::Fill => self.copy_accumulator(frame, call, index, callee, from),
        }
    }

    /// Emits the inputs of all instances of an iterated node.
    fn copy_all<F: Frame>(
        &mut self,
        frame: &F,
        call: usize,
        iterator: ArrayIterator,
        callee: Callee,
        from: usize,
    ) -> Result<(), AllocError>
        requires clocks { F.clocks frame.now ≡ self.old.clocks.items }
        requires variables { F.variables frame.now ≤ self.old.next }
        requires from { from ≤ length self.old.found.items }
        ensures state { OnOk result (state_of self.new
            ≡ with_copies (state_of self.old) (flat_map
            (mirror.index_copies (F.context frame.now) call
            ((F.context frame.now).repeats call) iterator callee
            (drop from (numbers_of self.old.found.items)))
            (range_with_len 0 ((F.context frame.now).repeats call)))) }
        ensures found { OnOk result (self.new.found ≡ self.old.found) }
        ensures next { OnOk result (self.new.next ≡ self.old.next) }
        ensures clocks { OnOk result (self.new.clocks ≡ self.old.clocks) }
    {
        for index in 0..frame.repeats(call) {
            self.copy_index(frame, call, iterator, index, callee, from)?;
        }
        Ok(())
    }

    /// Pushes the elements of a variable of all instances of a call.
    fn put_each<F: Frame>(
        &mut self,
        frame: &F,
        call: usize,
        repeats: u32,
        variable: usize,
    ) -> Result<(), AllocError>
        requires variables { F.variables frame.now ≤ self.old.next }
        ensures emitted { OnOk result (emitted_of self.new
            ≡ onto (numbers_of self.old.found.items) (gives (state_of self.old)
            (flat_map (λ i. (F.context frame.now).child call i variable)
            (range_with_len 0 repeats)))) }
        ensures next { OnOk result (self.new.next ≡ self.old.next) }
        ensures clocks { OnOk result (self.new.clocks ≡ self.old.clocks) }
    {
        for index in 0..repeats {
            self.put(frame.child(call, index, variable))?;
        }
        Ok(())
    }

    /// Pushes the elements of some variables of all instances of a call.
    fn put_gathered<F: Frame>(
        &mut self,
        frame: &F,
        call: usize,
        repeats: u32,
        first: usize,
        end: usize,
    ) -> Result<(), AllocError>
        requires variables { F.variables frame.now ≤ self.old.next }
        ensures emitted { OnOk result (emitted_of self.new
            ≡ onto (numbers_of self.old.found.items) (gives (state_of self.old)
            (mirror.gathered_at (F.context frame.now) call repeats
            (range_with_len first (end - first))))) }
        ensures next { OnOk result (self.new.next ≡ self.old.next) }
        ensures clocks { OnOk result (self.new.clocks ≡ self.old.clocks) }
    {
        for x in first..end {
            self.put_each(frame, call, repeats, x)?;
        }
        Ok(())
    }

    /// Pushes the elements of the outputs of an iterated node.
    fn put_outputs<F: Frame>(
        &mut self,
        frame: &F,
        call: usize,
        iterator: ArrayIterator,
        callee: Callee,
    ) -> Result<(), AllocError>
        requires variables { F.variables frame.now ≤ self.old.next }
        requires outputs { callee.inputs + callee.outputs + 1 < 2 ^ 64 }
        ensures emitted { OnOk result (emitted_of self.new
            ≡ onto (numbers_of self.old.found.items) (gives (state_of self.old)
            (mirror.index_outputs (F.context frame.now) call
            ((F.context frame.now).repeats call) iterator callee))) }
        ensures next { OnOk result (self.new.next ≡ self.old.next) }
        ensures clocks { OnOk result (self.new.clocks ≡ self.old.clocks) }
    {
        let repeats = frame.repeats(call);
        let first = callee.inputs;
        let end = first + callee.outputs;
        match iterator {
            ArrayIterator::Map => self.put_gathered(frame, call, repeats, first, end),
            ArrayIterator::Red => self.put(frame.child(call, repeats.saturating_sub(1), first)),
            ArrayIterator::Fill => {
                self.put(frame.child(call, repeats.saturating_sub(1), first))?;
                self.put_gathered(frame, call, repeats, first + 1, end)
            }
        }
    }

    /// Emits a call whose operands are the elements of the stack from place `from` on.
    pub(crate) fn call<F: Frame>(
        &mut self,
        frame: &F,
        call: usize,
        from: usize,
    ) -> Result<(), AllocError>
        requires clocks { F.clocks frame.now ≡ self.old.clocks.items }
        requires variables { F.variables frame.now ≤ self.old.next }
        requires from { from ≤ length self.old.found.items }
        ensures emitted { OnOk result (emitted_of self.new
            ≡ on_top from (mirror.call (F.context frame.now) call) (emitted_of self.old)) }
        ensures clocks { OnOk result (self.new.clocks ≡ self.old.clocks) }
    {
        match frame.callee(call) {
            Some(callee) => {
                let end = callee.inputs + callee.outputs;
                self.copy_inputs(frame, call, callee.inputs, from)?;
                self.cut(from);
                self.put_gathered(frame, call, 1, callee.inputs, end)
            }
            None => {
                self.cut(from);
                Ok(())
            }
        }
    }

    /// Emits an iterated node whose operands are the elements of the stack from place `from` on.
    pub(crate) fn iterate<F: Frame>(
        &mut self,
        frame: &F,
        call: usize,
        iterator: ArrayIterator,
        from: usize,
    ) -> Result<(), AllocError>
        requires clocks { F.clocks frame.now ≡ self.old.clocks.items }
        requires variables { F.variables frame.now ≤ self.old.next }
        requires from { from ≤ length self.old.found.items }
        ensures emitted { OnOk result (emitted_of self.new
            ≡ on_top from (mirror.iterate (F.context frame.now) call iterator)
            (emitted_of self.old)) }
        ensures clocks { OnOk result (self.new.clocks ≡ self.old.clocks) }
    {
        match frame.callee(call) {
            Some(callee) => {
                self.copy_all(frame, call, iterator, callee, from)?;
                self.cut(from);
                self.put_outputs(frame, call, iterator, callee)
            }
            None => {
                self.cut(from);
                Ok(())
            }
        }
    }
}
