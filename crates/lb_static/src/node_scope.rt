//! The scope of the names of a node.

ghost use Rattle.std.specs.Prelude.{◌≡◌, ◌++◌, [], length, OnOk, IfOk, IfErr};
ghost use Rattle.lb_syntax.specs.Grammar.{declared as declarations_in};
ghost use Rattle.lb_syntax.specs.SourceView.{view_groups, view_node, view_source};
ghost use Rattle.lb_syntax.specs.View.{view_static};
ghost use Rattle.lb_static.specs.SourceNames.{names_in, names_in_source};
ghost use Rattle.lb_static.specs.NameFaults.{IsNameFault, is_told};
ghost use Rattle.lb_static.specs.CountedNames.{Declares, are_once};
ghost use Rattle.lb_static.specs.Names.{are_distinct};
ghost use Rattle.lb_static.specs.Parts.{declared_names, variable_names};

use crate::causes::Sought;
use crate::error::StaticError;
use crate::globals::{Globals, declare_new};
use crate::name_faults::{Declaring, other_arguments, unknown_name};
use crate::resolved::{NodePlace, VariableId};
use crate::scope::Scope;
use lb_syntax::{Declarations, Name, Node, Source, Static};
use std::alloc::Global;

/// The scope of the names of a node: its variables, its static parameters, and the global names.
///
/// A static parameter hides a constant of its name; a variable hides both.
#[derive(Drop)]
pub struct NodeScope<'a, 's> {
    pub tree: &'s Node,
    pub source: &'a Source,
    globals: &'a Globals,
    /// The variables, in their order, and then the static parameters.
    declared: Scope,
    /// The number of variables among the names.
    variables: usize,
    pub ghost names_are: { declared ≡ declared_names (view_node tree.now) },
    pub ghost variables_are: { variables ≡ length (variable_names (view_node tree.now)) },
    pub ghost globals_are: { globals.now.names ≡ names_in_source (view_source source.now) },
    pub ghost constants_are: { globals.now.constants ≡ length source.now.constants.items },
}

/// Declares names after those that are declared; a doubled one is refused.
fn declare_names(
    alloc: Global,
    declared: &mut Scope,
    names: &[Name],
    tree: &Node,
) -> Result<(), StaticError>
    ensures ok { OnOk result (declared.new ≡ declared.old ++ names.now) }
    ensures err { IfErr result (λ e. IsNameFault e
        (are_once (is_told e Declares) (declared.old ++ names.now))) }
{
    for name in names {
        declare_new(alloc, declared, name, Declaring::Node(tree))?;
    }
    Ok(())
}

/// Declares the variables of some groups after those that are declared.
fn declare_groups(
    alloc: Global,
    declared: &mut Scope,
    groups: &[Declarations],
    tree: &Node,
) -> Result<(), StaticError>
    ensures ok { OnOk result (
        declared.new ≡ declared.old ++ names_in (declarations_in (view_groups groups.now))) }
    ensures err { IfErr result (λ e. IsNameFault e (are_once (is_told e Declares)
        (declared.old ++ names_in (declarations_in (view_groups groups.now))))) }
{
    for group in groups {
        declare_names(alloc, declared, &group.names, tree)?;
    }
    Ok(())
}

/// Declares the variables of a node, in their order, and then its static parameters. Returns the
/// number of variables.
fn declare_all(alloc: Global, declared: &mut Scope, tree: &Node) -> Result<usize, StaticError>
    requires { declared.old ≡ [] }
    ensures ok { OnOk result (declared.new ≡ declared_names (view_node tree.now)) }
    ensures variables { IfOk result (λ n. n ≡ length (variable_names (view_node tree.now))) }
    ensures err { IfErr result (λ e.
        IsNameFault e (are_once (is_told e Declares) (declared_names (view_node tree.now)))) }
{
    declare_groups(alloc, declared, &tree.inputs, tree)?;
    declare_groups(alloc, declared, &tree.outputs, tree)?;
    declare_groups(alloc, declared, &tree.locals, tree)?;
    let variables = declared.len();
    declare_names(alloc, declared, &tree.parameters, tree)?;
    Ok(variables)
}

impl<'a, 's> NodeScope<'a, 's> {
    ghost use Rattle.std.specs.Prelude.{true, is_some, IfSome};
    ghost use Rattle.lb_static.specs.Names.{is_static_name, is_variable};
    ghost use Rattle.lb_static.specs.NodeNames.{node_in, program_in, static_passes, takes};
    ghost use Rattle.lb_static.specs.NodeNames.{static_passes_where};
    ghost use Rattle.lb_static.specs.CountedNames.{Calls, counted};
    ghost use Rattle.lb_static.specs.NodeNames.{IsVariableAt, IsCallee};

    /// The scope of a node. A variable or a static parameter that is declared twice is refused.
    pub fn new(
        alloc: Global,
        globals: &'a Globals,
        source: &'a Source,
        tree: &'s Node,
    ) -> Result<NodeScope<'a, 's>, StaticError>
        requires names { globals.now.names ≡ names_in_source (view_source source.now) }
        requires constants { globals.now.constants ≡ length source.now.constants.items }
        ensures tree { IfOk result (λ node_scope. node_scope.tree.now ≡ tree.now) }
        ensures source { IfOk result (λ node_scope. node_scope.source.now ≡ source.now) }
        ensures distinct { IfOk result (λ _.
            are_distinct (declared_names (view_node tree.now)) ≡ true) }
        ensures err { IfErr result (λ e.
            IsNameFault e (are_once (is_told e Declares) (declared_names (view_node tree.now)))) }
    {
        let mut declared = Scope::new(alloc);
        let variables = declare_all(alloc, &mut declared, tree)?;
        Ok(NodeScope {
            tree,
            source,
            globals,
            declared,
            variables,
        })
    }

    /// The place of the variable with this name.
    pub fn place(&self, name: &Name) -> Option<VariableId>
        ensures found { IfSome result (IsVariableAt (node_in self.now) name.now) }
        ensures is_declared { is_some result
            ≡ is_variable (program_in self.now) (node_in self.now) name.now }
    {
        match self.declared.place(name.as_str()) {
            Some(place) if place < self.variables => Some(VariableId(place)),
            _ => None,
        }
    }

    /// Whether a name is that of a static parameter or a constant, and not that of a variable.
    pub fn is_static(&self, name: &Name) -> bool
        ensures { result ≡ is_static_name (program_in self.now) (node_in self.now) name.now }
    {
        match self.declared.place(name.as_str()) {
            Some(place) => place >= self.variables,
            None => self.globals.is_constant(name.as_str()),
        }
    }

    /// Judges the names in a static expression: each has to be a static parameter or a constant.
    pub fn check_static(&self, alloc: Global, text: &Static) -> Result<(), StaticError>
        ensures ok { OnOk result
            (static_passes (program_in self.now) (node_in self.now) (view_static text.now) ≡ true) }
        ensures err { IfErr result (λ e. IsNameFault e
            (static_passes_where (is_told e) (program_in self.now) (node_in self.now)
            (view_static text.now))) }
    {
        match text {
            Static::Whole(_, _) => Ok(()),
            Static::Named(name) if self.is_static(name) => Ok(()),
            Static::Named(name) => {
                Err(unknown_name(alloc, name, Sought::Constant, Some(self.tree)))
            }
            Static::Negated(inner, _) | Static::Grouped(inner, _) => self.check_static(
                alloc, inner,
            ),
            Static::Combined(_, first, second, _) => {
                self.check_static(alloc, first)?;
                self.check_static(alloc, second)
            }
        }
    }

    /// The place of the node or function with this name, which has to have `arguments` static
    /// parameters.
    pub fn callee(
        &self,
        alloc: Global,
        name: &Name,
        arguments: usize,
    ) -> Result<NodePlace, StaticError>
        ensures ok { IfOk result (IsCallee (program_in self.now) name.now arguments) }
        ensures err { IfErr result (λ e.
            IsNameFault e (counted (is_told e Calls)
            (λ x. takes (program_in self.now) x arguments) name.now)) }
    {
        let Some(place) = self.globals.node_place(name.as_str()) else {
            return Err(unknown_name(alloc, name, Sought::Node, Some(self.tree)));
        };
        let wanted = self.source.nodes[place].parameters.len();
        if wanted != arguments {
            return Err(other_arguments(alloc, name, wanted, arguments, self.tree));
        }
        Ok(NodePlace(place))
    }
}
