//! The flat program that is put together from the emitted equations.

ghost use Rattle.std.specs.Prelude.{◌≡◌, ◌<◌, ◌≤◌, IfOk, length, All};
ghost use Rattle.lb_expand.specs.AssembledPrograms.{equations_behind, assembled};
ghost use Rattle.lb_flat.specs.Programs.{numbers_of, flat_equations, program_of, IsInRange};
ghost use Rattle.lb_expand.specs.TermEmissions.{state_of};
ghost use Rattle.lb_flat.specs.Within.{AreClocks, IsWithin};

use crate::expansion::term_emission::TermEmission;
use lb_flat::{ElementId, Equation, FlatProgram};
use lb_syntax::Kind;
use std::alloc::AllocError;

impl TermEmission {
    /// The equations of elements of variables, and the elements on the stack.
    pub(crate) fn into_copies_and_found(self) -> (Vec<Equation>, Vec<ElementId>)
        ensures copies { result.0 ≡ self.copies }
        ensures found { result.1 ≡ self.found }
    {
        let TermEmission {
            clocks: _,
            equations: _,
            copies,
            next: _,
            memory_operands: _,
            asserted: _,
            found,
        } = self;
        (copies, found)
    }

    /// The equations `before`, with all equations of this state behind them.
    #[tactic(auto, using(crate::proofs::emission::EmittedProgram::joined))]
    pub(crate) fn equations_behind(
        &self,
        before: Vec<Equation>,
    ) -> Result<Vec<Equation>, AllocError>
        requires within { All (IsWithin self.now.next self.now.clocks.items) before.items }
        ensures equations { IfOk result (λ all. flat_equations self.now.clocks.items all.items
            ≡ equations_behind (flat_equations self.now.clocks.items before.items)
            (state_of self.now)) }
        ensures within { IfOk result (λ all.
            All (IsWithin self.now.next self.now.clocks.items) all.items) }
    {
        let mut all = before;
        all.extend_from_slice(&self.copies)?;
        all.extend_from_slice(&self.equations)?;
        Ok(all)
    }

    /// The flat program of this state, with its equations, the kinds of its inputs and of its
    /// elements, the number of elements of variables, the elements that serve as clocks, and the
    /// element of the property.
    pub(crate) fn into_program(
        self,
        equations: Vec<Equation>,
        inputs: Vec<Kind>,
        kinds: Vec<Kind>,
        variables: u32,
        clock_elements: Vec<ElementId>,
        property: ElementId,
    ) -> FlatProgram
        requires clocks { AreClocks self.next self.clocks.items }
        requires equations { All (IsWithin self.next self.clocks.items) equations.items }
        requires kinds { length kinds.items ≡ self.next }
        requires variables { variables ≤ self.next }
        requires clock_elements { All (λ a. a.0 < self.next) clock_elements.items }
        requires property { property.0 < self.next }
        ensures program { program_of result ≡ assembled (state_of self)
            (flat_equations self.clocks.items equations.items) inputs.items kinds.items variables
            (numbers_of clock_elements.items) property.0 }
        ensures in_range { IsInRange result }
        ensures clocks { result.clocks ≡ self.clocks }
    {
        let TermEmission {
            clocks,
            equations: _,
            copies: _,
            next,
            memory_operands,
            asserted,
            found: _,
        } = self;
        FlatProgram {
            inputs,
            kinds,
            equations,
            clocks,
            size: next,
            variables,
            memory_operands,
            clock_elements,
            asserted,
            property,
        }
    }
}
