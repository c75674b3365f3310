//! An elaborated program, as the layer above reads it.

ghost use Rattle.std.specs.Prelude.{◌≡◌};
ghost use Rattle.lb_static.specs.Elaborated.{IsLawful};

use crate::reachable::Reached;
use crate::signature::Signature;
use crate::table::Table;
use lb_syntax::Source;
use std::marker::Model;

/// A program, by its source and the names of its node under test and its observer, and the results
/// of its elaboration.
#[derive(Drop)]
pub struct Elaboration<'s> {
    pub source: &'s Source,
    /// The name of the node under test.
    pub node: &'s str,
    /// The name of the observer, if there is one.
    pub observer: Option<&'s str>,
    /// The nodes that are reached, with their names resolved.
    pub reached: Reached<'s>,
    /// The instances, with their static values.
    pub table: Table,
    /// The scalar input elements of the node under test, in order.
    pub signature: Signature,
}

/// A program whose names, static values and instances are judged: it breaks no rule of these, and
/// the results of its elaboration are true of it.
///
/// Contracts see the elaboration, which names the program. Each `Elab` is true of its program; the
/// contracts of the functions that read it state that.
pub struct Elab<'s> {
    elaboration: Elaboration<'s>,
}

// Not derived, so that a caller drops it in one step.
impl Drop for Elab<'_> {
    fn drop(self) {
        let Elab { elaboration: _ } = self;
    }
}

impl<'s> Model for Elab<'s> {
    ghost use mir.Syntax.{named};
    ghost use Rattle.std.specs.Prelude.{[]};
    ghost use Rattle.lb_static.specs.contracts.elab.Elaboration.{the_row};
    ghost use Rattle.lb_static.specs.declared.elab.Elaboration.{Elaboration as ElaborationValue};
    ghost use Rattle.lb_static.specs.Elaborated.{IsLawful};

    ghost Value = { ElaborationValue };

    ghost coded = { (the_row (record { mir = named 0; lft = [] })).coded };

    ghost view = { λ e. e.elaboration };

    ghost invariant = { λ e. IsLawful e.elaboration };
}

impl<'s> Elab<'s> {
    /// An elaboration that is true of its program.
    pub(crate) fn new(elaboration: Elaboration<'s>) -> Elab<'s>
        requires { IsLawful elaboration }
        ensures { result ≡ elaboration.entry }
    {
        Elab { elaboration }
    }

    /// The nodes that are reached, with their names resolved.
    pub fn reached(&self) -> &Reached<'s>
        ensures value { result.now ≡ self.now.reached }
        ensures lawful { IsLawful self.now }
    {
        &self.elaboration.reached
    }

    /// The instances, with their static values.
    pub fn table(&self) -> &Table
        ensures value { result.now ≡ self.now.table }
        ensures lawful { IsLawful self.now }
    {
        &self.elaboration.table
    }

    /// The scalar input elements of the node under test, in order.
    pub fn signature(&self) -> &Signature
        ensures value { result.now ≡ self.now.signature }
        ensures lawful { IsLawful self.now }
    {
        &self.elaboration.signature
    }

    /// The scalar input elements of the node under test; the rest is dropped.
    pub fn into_signature(self) -> Signature
        ensures value { result ≡ self.entry.signature }
        ensures lawful { IsLawful self.entry }
    {
        let Elab { elaboration } = self;
        elaboration.signature
    }
}
