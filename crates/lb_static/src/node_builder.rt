//! The resolved part of a node while it grows.

ghost use Rattle.std.specs.Prelude.{◌≡◌, ◌∷◌, ◌<◌, [], true, length, IfOk, IfErr};
ghost use Rattle.lb_syntax.specs.SourceView.{view_source};
ghost use Rattle.lb_static.specs.NameFaults.{IsNameFault, alone};
ghost use Rattle.lb_static.specs.NodeNames.{node_in, program_in};
ghost use Rattle.lb_static.specs.NodeProgress.{IsKept};
ghost use Rattle.lb_static.specs.Parts.{variable_names};
ghost use Rattle.lb_static.specs.StaticParts.{part_of};
ghost use Rattle.lb_static.specs.ResolvedTerms.{declaration_of, is_declared_within, is_site_within};
ghost use Rattle.lb_static.specs.ResolvedTerms.{site_of, static_of};

use crate::error::StaticError;
use crate::node_scope::NodeScope;
use crate::resolved::{
    CallId, CallSite, ResolvedNode, ResolvedStatement, StaticId, StaticPart, Variable,
};
use crate::static_parts::StaticParts;
use lb_syntax::Node;
use std::alloc::Global;

/// The resolved part of a node so far: its static expressions, its calls and its variables.
///
/// Contracts see by `progress` the texts that these stand for.
#[derive(Drop)]
pub struct NodeBuilder<'a, 's> {
    node_scope: NodeScope<'a, 's>,
    statics: StaticParts<'s>,
    calls: Vec<CallSite>,
    variables: Vec<Variable>,
    ghost sound: { IsKept node_scope statics.parts.items calls.items variables.items },
}

impl<'a, 's> NodeBuilder<'a, 's> {
    ghost use Rattle.lb_static.specs.NodeProgress.{texts, counts_in, callees, grown, with_variable};
    ghost use Rattle.lb_static.specs.NodeProgress.{program_of, StaticStands};
    ghost use Rattle.lb_static.specs.Progressed.{progress, IsFinished};

    /// A builder for the node of `node_scope`; nothing is resolved yet.
    pub fn new(alloc: Global, node_scope: NodeScope<'a, 's>) -> NodeBuilder<'a, 's>
        ensures { progress result ≡ record {
          source = view_source node_scope.entry.source.now;
          node = node_in node_scope.entry;
          declared = [];
          parts = [];
          calls = [];
        } }
    {
        NodeBuilder {
            node_scope,
            statics: StaticParts::new(alloc),
            calls: Vec::new(alloc),
            variables: Vec::new(alloc),
        }
    }

    /// The scope of the names of the node.
    pub fn node_scope(&self) -> &NodeScope<'a, 's>
        ensures node { node_in result.now ≡ (progress self.now).node }
        ensures source { program_in result.now ≡ program_of (progress self.now) }
    {
        &self.node_scope
    }

    /// The number of the next static expression.
    pub fn next_static(&self) -> StaticId
        ensures { result.0 ≡ length (progress self.now).parts }
    {
        StaticId(self.statics.len())
    }

    /// Keeps a static expression and returns its number: that of an equal one, if equal ones are
    /// kept once, or else the next number.
    pub fn push_static(&mut self, part: StaticPart<'s>) -> Result<StaticId, StaticError>
        ensures after { IfOk result (λ _.
            progress self.new ≡ grown (progress self.old) (part_of part.entry ∷ []) []) }
        ensures stands { IfOk result (StaticStands (progress self.new) (static_of part.entry.text)) }
        ensures err { IfErr result (λ e. IsNameFault e true) }
    {
        Ok(self.statics.push(part)?)
    }

    /// Adds a call and returns its number.
    pub fn push_call(&mut self, site: CallSite) -> Result<CallId, StaticError>
        requires { is_site_within (length (callees (progress self.old)))
            (counts_in (texts (progress self.old))) site ≡ true }
        ensures after { IfOk result (λ _. progress self.new ≡ grown (progress self.old) []
            (site_of (callees (progress self.old)) (texts (progress self.old)).statics site ∷ [])) }
        ensures id { IfOk result (λ id. id.0 ≡ length (progress self.old).calls) }
        ensures err { IfErr result (λ e. IsNameFault e true) }
    {
        let id = CallId(self.calls.len());
        self.calls.push(site)?;
        Ok(id)
    }

    /// Adds a variable.
    pub fn push_variable(&mut self, variable: Variable) -> Result<(), StaticError>
        requires { is_declared_within (counts_in (texts (progress self.old))) variable ≡ true }
        ensures after { IfOk result (λ _. progress self.new ≡ with_variable (progress self.old)
            (declaration_of (variable_names (progress self.old).node)
            (texts (progress self.old)).statics [] variable)) }
        ensures err { IfErr result (λ e. IsNameFault e true) }
    {
        self.variables.push(variable)?;
        Ok(())
    }

    /// The number of variables so far.
    pub fn variable_count(&self) -> usize
        ensures { result ≡ length (progress self.now).declared }
    {
        self.variables.len()
    }

    /// The resolved node of `tree`, with this body and with `inputs` inputs and `outputs` outputs.
    pub fn finish(
        self,
        tree: &'s Node,
        inputs: usize,
        outputs: usize,
        body: Vec<ResolvedStatement>,
    ) -> ResolvedNode<'s>
        ensures { IsFinished self.entry tree.now inputs outputs body result }
    {
        let NodeBuilder {
            node_scope: _node_scope,
            statics,
            calls,
            variables,
        } = self;
        ResolvedNode {
            tree,
            variables,
            inputs,
            outputs,
            body,
            calls,
            statics: statics.into_vec(),
        }
    }
}
