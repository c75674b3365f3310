//! The state of emission, and the functions that emit terms of all forms.

ghost use Rattle.std.specs.Prelude.{◌≡◌, ◌<◌, ◌≤◌, All};
ghost use Rattle.lb_flat.specs.Within.{IsWithin};

mod program_emission;

use crate::expansion::operators::{Pair, Unary};
use lb_flat::{Clock, ClockId, ElementId, Equation, Operation, Scalar};
use lb_syntax::{ArrayIterator, BinaryOperator, UnaryOperator};
use std::alloc::{AllocError, Global};

/// The state of emission, with a stack of the elements that hold results.
pub(crate) struct TermEmission {
    /// The clocks of the program.
    pub(crate) clocks: Vec<Clock>,
    /// The equations of temporaries.
    pub(crate) equations: Vec<Equation>,
    /// The equations of elements of variables.
    pub(crate) copies: Vec<Equation>,
    /// The next free element.
    pub(crate) next: u32,
    /// The elements that hold operands of memories.
    pub(crate) memory_operands: Vec<ElementId>,
    /// The elements that hold assertions.
    pub(crate) asserted: Vec<ElementId>,
    /// The elements that hold the operands of the term at hand.
    pub(crate) found: Vec<ElementId>,
    pub ghost equations_within: { All (IsWithin next clocks.items) equations.items },
    pub ghost copies_within: { All (IsWithin next clocks.items) copies.items },
    pub ghost memory_operands_within: { All (λ a. a.0 < next) memory_operands.items },
    pub ghost asserted_within: { All (λ a. a.0 < next) asserted.items },
    pub ghost found_within: { All (λ a. a.0 < next) found.items },
}

// Not derived, so that a caller drops it in one step.
impl Drop for TermEmission {
    fn drop(self) {
        let TermEmission {
            clocks: _,
            equations: _,
            copies: _,
            next: _,
            memory_operands: _,
            asserted: _,
            found: _,
        } = self;
    }
}

impl TermEmission {
    ghost use Rattle.std.specs.Prelude.{ℕ, ◌+◌, ◌-◌, ◌*◌, ◌^◌, [], ◌∷◌, length, take, drop, min};
    ghost use Rattle.std.specs.Prelude.{OnOk, IfOk};
    ghost use Rattle.std.specs.List.{slice_range};
    ghost use Rattle.lb_syntax.specs.Lists.{copies};
    ghost use Rattle.lb_expand.specs.Emissions.{CanPush};
    ghost use Rattle.lb_expand.specs.Emit.{before_instances};
    ghost use Rattle.lb_expand.specs.Emit as emit;
    ghost use Rattle.lb_expand.specs.EmitTerms as mirror;
    ghost use Rattle.lb_expand.specs.Operators.{unary_of, pair_of, IsPairBelow};
    ghost use Rattle.lb_flat.specs.Programs.{numbers_of};
    ghost use Rattle.lb_expand.specs.TermEmissions.{state_of, emitted_of, held, kept, with_kept};
    ghost use Rattle.lb_expand.specs.TermEmissions.{above, onto, on_top, on_two, on_three, pushed};
    ghost use Rattle.lb_expand.specs.TermEmissions.{without};
    ghost use Rattle.lb_flat.specs.Values.{clock_of, operation_of};
    ghost use Rattle.lb_flat.specs.Within.{IsClock};

    /// The state before any emission; the first `variables` elements are those of variables.
    pub(crate) fn new(alloc: Global, clocks: Vec<Clock>, variables: u32) -> TermEmission
        ensures state { state_of result ≡ before_instances variables }
        ensures found { result.found.items ≡ [] }
        ensures clocks { result.clocks ≡ clocks }
    {
        TermEmission {
            clocks,
            equations: Vec::new(alloc),
            copies: Vec::new(alloc),
            next: variables,
            memory_operands: Vec::new(alloc),
            asserted: Vec::new(alloc),
            found: Vec::new(alloc),
        }
    }

    /// Emits a new element on a clock, which `operation` gives.
    #[tactic(auto, using(crate::proofs::emission::EmittedStacks::pushes))]
    fn push(
        &mut self,
        clock: Option<ClockId>,
        operation: Operation,
    ) -> Result<ElementId, AllocError>
        requires can { CanPush self.old.next operation }
        requires clock { IsClock self.old.clocks.items clock }
        ensures state { OnOk result (state_of self.new
            ≡ emit.push (clock_of self.old.clocks.items clock) (state_of self.old)
            (operation_of operation)) }
        ensures element { IfOk result (λ a. a.0 ≡ self.old.next) }
        ensures next { OnOk result (self.new.next ≡ self.old.next + 1) }
        ensures found { self.new.found ≡ self.old.found }
        ensures clocks { self.new.clocks ≡ self.old.clocks }
    {
        let element = ElementId(self.next);
        self.equations.push(Equation {
            element,
            clock,
            operation,
        })?;
        self.next += 1;
        Ok(element)
    }

    /// Emits a new element, and pushes it on the stack.
    #[tactic(auto, using(crate::proofs::emission::EmittedStacks::pushes))]
    pub(crate) fn push_found(
        &mut self,
        clock: Option<ClockId>,
        operation: Operation,
    ) -> Result<(), AllocError>
        requires can { CanPush self.old.next operation }
        requires clock { IsClock self.old.clocks.items clock }
        ensures emitted { OnOk result (emitted_of self.new
            ≡ pushed (clock_of self.old.clocks.items clock) (operation_of operation)
            (emitted_of self.old)) }
        ensures next { OnOk result (self.new.next ≡ self.old.next + 1) }
        ensures clocks { self.new.clocks ≡ self.old.clocks }
    {
        let element = self.push(clock, operation)?;
        self.found.push(element)?;
        Ok(())
    }

    /// Removes the elements between two places of the stack.
    #[tactic(auto, using(crate::proofs::emission::EmittedStacks::removes))]
    fn remove(&mut self, from: usize, to: usize)
        requires from { from ≤ to }
        requires to { to ≤ length self.old.found.items }
        ensures emitted { emitted_of self.new ≡ without from to (emitted_of self.old) }
        ensures next { self.new.next ≡ self.old.next }
        ensures clocks { self.new.clocks ≡ self.old.clocks }
    {
        self.found.drain(from..to);
    }

    /// Emits an operation on each of the elements of the stack from place `from` on.
    pub(crate) fn each(
        &mut self,
        clock: Option<ClockId>,
        operator: Unary,
        from: usize,
    ) -> Result<(), AllocError>
        requires clock { IsClock self.old.clocks.items clock }
        requires from { from ≤ length self.old.found.items }
        requires room { self.old.next + (length self.old.found.items - from) < 2 ^ 32 }
        ensures emitted { OnOk result (emitted_of self.new
            ≡ on_top from (mirror.each (clock_of self.old.clocks.items clock) (unary_of operator))
            (emitted_of self.old)) }
        ensures clocks { OnOk result (self.new.clocks ≡ self.old.clocks) }
    {
        let top = self.found.len();
        for i in from..top {
            let a = self.found[i];
            let operation = operator.on(a);
            self.push_found(clock, operation)?;
        }
        self.remove(from, top);
        Ok(())
    }

    /// Emits an operation on each pair of the elements from place `from` on and those from `middle`
    /// on.
    pub(crate) fn pairs(
        &mut self,
        clock: Option<ClockId>,
        operator: Pair,
        from: usize,
        middle: usize,
    ) -> Result<(), AllocError>
        requires clock { IsClock self.old.clocks.items clock }
        requires operator { IsPairBelow self.old.next operator }
        requires from { from ≤ middle }
        requires middle { middle ≤ length self.old.found.items }
        requires room { self.old.next + min (middle - from)
            (length self.old.found.items - middle) < 2 ^ 32 }
        ensures emitted { OnOk result (emitted_of self.new
            ≡ on_two from middle
            (mirror.pairs (clock_of self.old.clocks.items clock) (pair_of operator))
            (emitted_of self.old)) }
        ensures clocks { OnOk result (self.new.clocks ≡ self.old.clocks) }
    {
        let top = self.found.len();
        let count = (middle - from).min(top - middle);
        for i in 0..count {
            let a = self.found[from + i];
            let b = self.found[middle + i];
            let operation = operator.on(a, b);
            self.push_found(clock, operation)?;
        }
        self.remove(from, top);
        Ok(())
    }

    /// Adds an element to those that memories keep.
    #[tactic(auto, using(crate::proofs::emission::EmittedChains::keeps))]
    fn keep_one(&mut self, element: ElementId) -> Result<(), AllocError>
        requires element { element.0 < self.old.next }
        ensures emitted { OnOk result (emitted_of self.new
            ≡ with_kept (emitted_of self.old) (element.0 ∷ [])) }
        ensures next { self.new.next ≡ self.old.next }
        ensures found { self.new.found ≡ self.old.found }
        ensures clocks { self.new.clocks ≡ self.old.clocks }
    {
        self.memory_operands.push(element)?;
        Ok(())
    }

    /// Adds the elements of the stack from place `from` on to those that memories keep.
    fn keep(&mut self, from: usize) -> Result<(), AllocError>
        requires from { from ≤ length self.old.found.items }
        ensures emitted { OnOk result
            (emitted_of self.new ≡ kept from (emitted_of self.old)) }
        ensures next { self.new.next ≡ self.old.next }
        ensures found { self.new.found ≡ self.old.found }
        ensures clocks { self.new.clocks ≡ self.old.clocks }
    {
        for i in from..self.found.len() {
            let a = self.found[i];
            self.keep_one(a)?;
        }
        Ok(())
    }

    /// Emits an operation on each of the elements from place `from` on, which memories keep.
    pub(crate) fn memory(
        &mut self,
        clock: Option<ClockId>,
        operator: Unary,
        from: usize,
    ) -> Result<(), AllocError>
        requires clock { IsClock self.old.clocks.items clock }
        requires from { from ≤ length self.old.found.items }
        requires room { self.old.next + (length self.old.found.items - from) < 2 ^ 32 }
        ensures emitted { OnOk result (emitted_of self.new
            ≡ on_top from
            (mirror.memory (clock_of self.old.clocks.items clock) (unary_of operator))
            (emitted_of self.old)) }
        ensures clocks { OnOk result (self.new.clocks ≡ self.old.clocks) }
    {
        self.keep(from)?;
        self.each(clock, operator, from)
    }

    /// Replaces the elements of the stack from place `from` on by `element`.
    #[tactic(auto, using(crate::proofs::emission::EmittedChains::replaces))]
    fn replace(&mut self, from: usize, element: ElementId) -> Result<(), AllocError>
        requires element { element.0 < self.old.next }
        ensures emitted { OnOk result (emitted_of self.new
            ≡ on_top from (λ x. emit.gives x.state (element.0 ∷ [])) (emitted_of self.old)) }
        ensures next { self.new.next ≡ self.old.next }
        ensures clocks { self.new.clocks ≡ self.old.clocks }
    {
        self.found.truncate(from);
        self.found.push(element)?;
        Ok(())
    }

    /// Emits `operator` from `init` over the elements from place `from` on; each result is the left
    /// operand of the next.
    fn chain(
        &mut self,
        clock: Option<ClockId>,
        operator: BinaryOperator,
        init: ElementId,
        from: usize,
    ) -> Result<ElementId, AllocError>
        requires clock { IsClock self.old.clocks.items clock }
        requires init { init.0 < self.old.next }
        requires from { from ≤ length self.old.found.items }
        requires room { self.old.next + (length self.old.found.items - from) < 2 ^ 32 }
        ensures chained { IfOk result (λ a. held self.new a
            ≡ emit.chained (clock_of self.old.clocks.items clock) operator (state_of self.old)
            init.0 (drop from (numbers_of self.old.found.items))) }
        ensures next { OnOk result (self.new.next + from
            ≡ self.old.next + length self.old.found.items) }
        ensures element { IfOk result (λ a. a.0 < self.new.next) }
        ensures found { OnOk result (self.new.found ≡ self.old.found) }
        ensures clocks { OnOk result (self.new.clocks ≡ self.old.clocks) }
    {
        let mut last = init;
        for i in from..self.found.len() {
            let a = self.found[i];
            let operation = Operation::ApplyBinary(operator, last, a);
            last = self.push(clock, operation)?;
        }
        Ok(last)
    }

    /// Emits whether two of the elements from place `from` on are true; `no` is a false element.
    fn two_true(
        &mut self,
        clock: Option<ClockId>,
        no: ElementId,
        from: usize,
    ) -> Result<ElementId, AllocError>
        requires clock { IsClock self.old.clocks.items clock }
        requires no { no.0 < self.old.next }
        requires from { from ≤ length self.old.found.items }
        requires room { self.old.next + 3 * (length self.old.found.items - from) < 2 ^ 32 }
        ensures twice { IfOk result (λ a. held self.new a
            ≡ emit.twice (clock_of self.old.clocks.items clock) (state_of self.old) no.0 no.0
            (drop from (numbers_of self.old.found.items))) }
        ensures next { OnOk result (self.new.next + 3 * from
            ≡ self.old.next + 3 * length self.old.found.items) }
        ensures element { IfOk result (λ a. a.0 < self.new.next) }
        ensures found { OnOk result (self.new.found ≡ self.old.found) }
        ensures clocks { OnOk result (self.new.clocks ≡ self.old.clocks) }
    {
        let mut any = no;
        let mut two = no;
        for i in from..self.found.len() {
            let a = self.found[i];
            let and = Operation::ApplyBinary(BinaryOperator::And, any, a);
            let both = self.push(clock, and)?;
            let or = Operation::ApplyBinary(BinaryOperator::Or, two, both);
            two = self.push(clock, or)?;
            let or = Operation::ApplyBinary(BinaryOperator::Or, any, a);
            any = self.push(clock, or)?;
        }
        Ok(two)
    }

    /// Emits `nor`: whether none of the elements of the stack from place `from` on is true.
    pub(crate) fn nor(&mut self, clock: Option<ClockId>, from: usize) -> Result<(), AllocError>
        requires clock { IsClock self.old.clocks.items clock }
        requires from { from ≤ length self.old.found.items }
        requires room { self.old.next + 2 + (length self.old.found.items - from) < 2 ^ 32 }
        ensures emitted { OnOk result (emitted_of self.new
            ≡ on_top from
            (λ x. emit.emit_nor (clock_of self.old.clocks.items clock) x.state x.found)
            (emitted_of self.old)) }
        ensures clocks { OnOk result (self.new.clocks ≡ self.old.clocks) }
    {
        let no = self.push(clock, Operation::Constant(Scalar::Boolean(false)))?;
        let any = self.chain(clock, BinaryOperator::Or, no, from)?;
        let none = self.push(clock, Operation::ApplyUnary(UnaryOperator::Not, any))?;
        self.replace(from, none)
    }

    /// Emits `#`: whether at most one of the elements of the stack from place `from` on is true.
    pub(crate) fn at_most_one(
        &mut self,
        clock: Option<ClockId>,
        from: usize,
    ) -> Result<(), AllocError>
        requires clock { IsClock self.old.clocks.items clock }
        requires from { from ≤ length self.old.found.items }
        requires room { self.old.next + 2 + 3 * (length self.old.found.items - from) < 2 ^ 32 }
        ensures emitted { OnOk result (emitted_of self.new
            ≡ on_top from
            (λ x. emit.emit_at_most_one (clock_of self.old.clocks.items clock) x.state x.found)
            (emitted_of self.old)) }
        ensures clocks { OnOk result (self.new.clocks ≡ self.old.clocks) }
    {
        let no = self.push(clock, Operation::Constant(Scalar::Boolean(false)))?;
        let two = self.two_true(clock, no, from)?;
        let one = self.push(clock, Operation::ApplyUnary(UnaryOperator::Not, two))?;
        self.replace(from, one)
    }

    /// Emits `operator` from the element of the stack at place `from` over those after it.
    fn red(
        &mut self,
        clock: Option<ClockId>,
        operator: BinaryOperator,
        from: usize,
    ) -> Result<(), AllocError>
        requires clock { IsClock self.old.clocks.items clock }
        requires from { from ≤ length self.old.found.items }
        requires room { self.old.next + (length self.old.found.items - (from + 1)) < 2 ^ 32 }
        ensures emitted { OnOk result (emitted_of self.new
            ≡ on_top from
            (λ x. mirror.red (clock_of self.old.clocks.items clock) operator x.state x.found)
            (emitted_of self.old)) }
        ensures clocks { OnOk result (self.new.clocks ≡ self.old.clocks) }
    {
        if from < self.found.len() {
            let init = self.found[from];
            let last = self.chain(clock, operator, init, from + 1)?;
            self.replace(from, last)?;
        }
        Ok(())
    }

    /// Keeps only the first `to` elements of the stack.
    #[tactic(auto, using(crate::proofs::emission::EmittedCuts::cuts))]
    pub(crate) fn cut(&mut self, to: usize)
        ensures emitted { emitted_of self.new
            ≡ emit.gives (state_of self.old) (take to (numbers_of self.old.found.items)) }
        ensures next { self.new.next ≡ self.old.next }
        ensures clocks { self.new.clocks ≡ self.old.clocks }
    {
        self.found.truncate(to);
    }

    /// Pushes the elements of the stack from place `from` to before `to` once more.
    #[tactic(auto, using(crate::proofs::emission::EmittedCuts::cuts))]
    fn repeat(&mut self, from: usize, to: usize) -> Result<(), AllocError>
        requires from { from ≤ to }
        requires to { to ≤ length self.old.found.items }
        ensures emitted { OnOk result (emitted_of self.new
            ≡ onto (numbers_of self.old.found.items) (emit.gives (state_of self.old)
            (slice_range (numbers_of self.old.found.items) from to))) }
        ensures length { OnOk result (length self.old.found.items
            ≤ length self.new.found.items) }
        ensures next { self.new.next ≡ self.old.next }
        ensures clocks { self.new.clocks ≡ self.old.clocks }
    {
        self.found.extend_from_within(from..to)?;
        Ok(())
    }

    /// Keeps, of the elements of the stack from place `from` on, `count` from number `start` on.
    pub(crate) fn pick(&mut self, from: usize, start: usize, count: usize)
        requires from { from ≤ length self.old.found.items }
        ensures emitted { emitted_of self.new
            ≡ on_top from (mirror.picked start count) (emitted_of self.old) }
        ensures next { self.new.next ≡ self.old.next }
        ensures clocks { self.new.clocks ≡ self.old.clocks }
    {
        let above = self.found.len() - from;
        let skipped = start.min(above);
        self.remove(from, from + skipped);
        self.cut(from + count.min(above - skipped));
    }

    /// Replaces the elements of the stack from place `from` on by `count` copies of them.
    pub(crate) fn copies(&mut self, from: usize, count: u32) -> Result<(), AllocError>
        requires from { from ≤ length self.old.found.items }
        ensures emitted { OnOk result (emitted_of self.new
            ≡ on_top from (λ x. emit.gives x.state (copies count x.found))
            (emitted_of self.old)) }
        ensures next { self.new.next ≡ self.old.next }
        ensures clocks { self.new.clocks ≡ self.old.clocks }
    {
        let top = self.found.len();
        for i in 0..count {
            self.repeat(from, top)?;
        }
        self.remove(from, top);
        Ok(())
    }

    /// Emits `if`: the condition is the element of the stack at place `from`, and the branches are
    /// the elements from place `second` on and from place `third` on.
    pub(crate) fn choose(
        &mut self,
        clock: Option<ClockId>,
        from: usize,
        second: usize,
        third: usize,
    ) -> Result<(), AllocError>
        requires clock { IsClock self.old.clocks.items clock }
        requires from { from ≤ second }
        requires second { second ≤ third }
        requires third { third ≤ length self.old.found.items }
        requires room { (mirror.choose (clock_of self.old.clocks.items clock)
            (slice_range (numbers_of self.old.found.items) from second)
            (slice_range (numbers_of self.old.found.items) second third)
            (above third (emitted_of self.old))).state.next < 2 ^ 32 }
        ensures emitted { OnOk result (emitted_of self.new
            ≡ on_three from second third (mirror.choose (clock_of self.old.clocks.items clock))
            (emitted_of self.old)) }
        ensures clocks { OnOk result (self.new.clocks ≡ self.old.clocks) }
    {
        if from < second {
            let condition = self.found[from];
            self.pairs(clock, Pair::Choose(condition), second, third)?;
            self.remove(from, second);
        } else {
            self.cut(from);
        }
        Ok(())
    }

    /// Emits an iterated symbol over the elements of the stack from place `from` on.
    pub(crate) fn symbol(
        &mut self,
        clock: Option<ClockId>,
        operator: BinaryOperator,
        count: u32,
        iterator: ArrayIterator,
        from: usize,
    ) -> Result<(), AllocError>
        requires clock { IsClock self.old.clocks.items clock }
        requires from { from ≤ length self.old.found.items }
        requires room { (mirror.symbol (clock_of self.old.clocks.items clock) operator count
            iterator (above from (emitted_of self.old))).state.next < 2 ^ 32 }
        ensures emitted { OnOk result (emitted_of self.new
            ≡ on_top from
            (mirror.symbol (clock_of self.old.clocks.items clock) operator count iterator)
            (emitted_of self.old)) }
        ensures clocks { OnOk result (self.new.clocks ≡ self.old.clocks) }
    {
        match iterator {
            ArrayIterator::Map => {
                let middle = from + (count as usize).min(self.found.len() - from);
                self.pairs(clock, Pair::Data(operator), from, middle)
            }
            ArrayIterator::Red => self.red(clock, operator, from),
            ArrayIterator::Fill => {
                self.cut(from);
                Ok(())
            }
        }
    }
}
