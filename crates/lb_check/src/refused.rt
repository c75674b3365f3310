//! The refusal of a program that breaks a rule of types, clocks or definitions.

use crate::judged_types::IllTyped;
use crate::part::IllFormed;
use lb_static::Elab;

/// The first of the rules of types, clocks and definitions that a program breaks, with the part of
/// a node that breaks it.
#[derive(Clone, Copy)]
pub enum Broken {
    /// A rule of types (E9).
    Types(IllTyped),
    /// A rule of clocks (E10).
    Clocks(IllFormed),
    /// A rule of definitions or of functions (E11).
    Definitions(IllFormed),
}

/// An elaborated program that breaks a rule. The program is kept, so that the cause can be looked
/// for.
#[derive(Drop)]
pub struct Refused<'s> {
    pub elab: Elab<'s>,
    pub broken: Broken,
}
