//! A checked program, as the layer above reads it.

ghost use Rattle.std.specs.Prelude.{◌≡◌, option_map, slice_get};
ghost use Rattle.lb_syntax.specs.Lists as lists;
ghost use Rattle.lb_syntax.specs.Lists.{listed};
ghost use Rattle.lb_check.specs.LawfulPrograms.{IsChecked};

use crate::found_clocks::{CallClock, NodeClocks};
use crate::found_types::NodeTypes;
use crate::own_clock::Clock;
use lb_static::{Elab, NodeId, Signature, SpecializationId};
use std::marker::Model;

/// A program that keeps the rules of types, clocks and definitions, and what is found of it.
#[derive(Drop)]
pub struct Checking<'s> {
    /// The program, elaborated.
    pub elab: Elab<'s>,
    /// What is found of each reached node: the clock of each term and what is found of each call.
    pub clocks: Vec<NodeClocks>,
    /// What is found of each specialization: the types of its terms; none where the terms of all of
    /// them together have more than 65,536 scalar elements, so that the program is too large.
    pub types: Option<Vec<NodeTypes>>,
}

/// An elaborated program that keeps the rules of types, clocks and definitions.
///
/// Contracts see it as a `Checking`: the program, and what is found of it. Each `Checked` keeps the
/// rules, and what is found is true of its program; the read calls say so.
pub struct Checked<'s> {
    checking: Checking<'s>,
}

// Not derived, so that a caller drops it in one step.
impl Drop for Checked<'_> {
    fn drop(self) {
        let Checked { checking: _ } = self;
    }
}

impl<'s> Model for Checked<'s> {
    ghost use mir.Syntax.{named};
    ghost use Rattle.std.specs.Prelude.{[]};
    ghost use Rattle.lb_check.specs.contracts.checked.Checking.{the_row};
    ghost use Rattle.lb_check.specs.declared.checked.Checking.{Checking as CheckingValue};
    ghost use Rattle.lb_check.specs.LawfulPrograms.{IsChecked};

    ghost Value = { CheckingValue };

    ghost coded = { (the_row (record { mir = named 0; lft = [] })).coded };

    ghost view = { λ c. c.checking };

    ghost invariant = { λ c. IsChecked c.checking };
}

impl<'s> Checked<'s> {
    /// A program that keeps the rules.
    pub(crate) fn new(checking: Checking<'s>) -> Checked<'s>
        requires { IsChecked checking }
        ensures { result ≡ checking.entry }
    {
        Checked { checking }
    }

    /// The program, elaborated.
    pub fn elab(&self) -> &Elab<'s>
        ensures value { result.now ≡ self.now.elab }
        ensures lawful { IsChecked self.now }
    {
        &self.checking.elab
    }

    /// The clocks on which the terms of a node stand, in text order; none for a node that is not
    /// reached.
    pub fn term_clocks(&self, node: NodeId) -> &[Clock]
        ensures value { result.now
            ≡ listed (λ f. f.terms.items) (slice_get self.now.clocks.items node.0) }
        ensures lawful { IsChecked self.now }
    {
        match self.checking.clocks.get(node.0) {
            Some(found) => &found.terms,
            None => &[],
        }
    }

    /// What is found of the calls of a node, in text order; none for a node that is not reached.
    pub fn call_clocks(&self, node: NodeId) -> &[CallClock]
        ensures value { result.now
            ≡ listed (λ f. f.calls.items) (slice_get self.now.clocks.items node.0) }
        ensures lawful { IsChecked self.now }
    {
        match self.checking.clocks.get(node.0) {
            Some(found) => &found.calls,
            None => &[],
        }
    }

    /// The types of the terms of a specialization, in text order; none where the terms of all
    /// specializations together have more than 65,536 scalar elements.
    pub fn term_types(&self, specialization: SpecializationId) -> Option<&NodeTypes>
        ensures value { option_map (λ f. f.now) result
            ≡ lists.◌>>=◌ self.now.types (λ all. slice_get all.items specialization.0) }
        ensures lawful { IsChecked self.now }
    {
        match &self.checking.types {
            Some(all) => all.get(specialization.0 as usize),
            None => None,
        }
    }

    /// The scalar input elements of the node under test, in order.
    pub fn signature(&self) -> &Signature
        ensures value { result.now ≡ self.now.elab.signature }
        ensures lawful { IsChecked self.now }
    {
        self.checking.elab.signature()
    }

    /// The scalar input elements of the node under test, with nothing else kept.
    pub fn into_signature(self) -> Signature
        ensures value { result ≡ self.entry.elab.signature }
        ensures lawful { IsChecked self.entry }
    {
        let Checked { checking } = self;
        checking.elab.into_signature()
    }
}
