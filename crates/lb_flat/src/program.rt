//! Flat programs.

use crate::equation::{Clock, ElementId, Equation};
use lb_syntax::Kind;

/// A program expanded into equations on scalar elements.
///
/// The first elements are those of variables, instance by instance; the others hold the values
/// inside expressions.
pub struct FlatProgram {
    /// The kinds of the inputs, in the order of the signature.
    pub inputs: Vec<Kind>,
    /// The kind of each element.
    pub kinds: Vec<Kind>,
    /// One equation for each element.
    pub equations: Vec<Equation>,
    /// The clocks that equations are on.
    pub clocks: Vec<Clock>,
    /// How many elements there are.
    pub size: u32,
    /// How many of them are elements of variables.
    pub variables: u32,
    /// The elements that hold operands of `pre`, `fby` and `current`.
    pub memory_operands: Vec<ElementId>,
    /// The elements of variables that serve as clocks.
    pub clock_elements: Vec<ElementId>,
    /// The elements that hold assertions.
    pub asserted: Vec<ElementId>,
    /// The element that holds the property.
    pub property: ElementId,
}

// Not derived, so that a caller drops it in one step.
impl Drop for FlatProgram {
    fn drop(self) {
        let FlatProgram {
            inputs: _,
            kinds: _,
            equations: _,
            clocks: _,
            size: _,
            variables: _,
            memory_operands: _,
            clock_elements: _,
            asserted: _,
            property: _,
        } = self;
    }
}
