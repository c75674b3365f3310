//! Resolving names, static expressions and calls of a node.

ghost use Rattle.std.specs.Prelude.{◌≡◌, true, map, option_map, None, IfOk, IfErr};
ghost use Rattle.lb_syntax.specs.Tree as tree;
ghost use Rattle.lb_syntax.specs.View.{view_static, view_statics};
ghost use Rattle.lb_static.specs.CountedNames.{counted, use_of};
ghost use Rattle.lb_static.specs.NameFaults.{IsNameFault, is_told};
ghost use Rattle.lb_static.specs.Names.{is_variable};
ghost use Rattle.lb_static.specs.NodeNames.{IsVariableAt};
ghost use Rattle.lb_static.specs.NodeProgress.{ResolvesTerm, ResolvesStatic, ResolvesStatics};
ghost use Rattle.lb_static.specs.NodeProgress.{ResolvesCall, texts, counts_in, program_of};
ghost use Rattle.lb_static.specs.PartKeys.{letter_of};
ghost use Rattle.lb_static.specs.Progressed.{progress};
ghost use Rattle.lb_static.specs.ResolvedTerms.{static_at, is_count_within};
ghost use Rattle.lb_static.specs.StaticParts.{purpose_of};

use crate::causes::Sought;
use crate::error::StaticError;
use crate::name_faults::unknown_name;
use crate::node_builder::NodeBuilder;
use crate::resolved::{CallId, CallSite, Role, StaticId, StaticPart, StaticText, Term, VariableId};
use lb_syntax::{Name, Static};
use std::alloc::Global;

/// The place of the variable with this name. `sought` says where the name stands: on a left side or
/// as a clock.
pub fn variable(
    alloc: Global,
    here: &NodeBuilder,
    name: &Name,
    sought: Sought,
) -> Result<VariableId, StaticError>
    ensures found { IfOk result (IsVariableAt (progress here.now).node name.now) }
    ensures is_declared { IfOk result (λ _.
        is_variable (program_of (progress here.now)) (progress here.now).node name.now ≡ true) }
    ensures err { IfErr result (λ e. IsNameFault e (counted (is_told e (use_of sought))
        (is_variable (program_of (progress here.now)) (progress here.now).node) name.now)) }
{
    match here.node_scope().place(name) {
        Some(place) => Ok(place),
        None => Err(unknown_name(alloc, name, sought, Some(here.node_scope().tree))),
    }
}

/// The term of a name in an expression: a variable, a static parameter or a constant.
#[inline(always)]
pub fn named<'s>(
    alloc: Global,
    here: &mut NodeBuilder<'_, 's>,
    name: &'s Name,
) -> Result<Term, StaticError>
    ensures { ResolvesTerm (progress here.old) (progress here.new) (tree.Variable name.now) result }
{
    if let Some(place) = here.node_scope().place(name) {
        return Ok(Term::Variable(place));
    }
    if !here.node_scope().is_static(name) {
        return Err(unknown_name(alloc, name, Sought::Value, Some(here.node_scope().tree)));
    }
    let part = StaticPart {
        role: Role::Value,
        text: StaticText::Named(name),
    };
    Ok(Term::Value(here.push_static(part)?))
}

/// The number of a static expression, with its names judged.
#[inline(always)]
pub fn one_static<'s>(
    alloc: Global,
    here: &mut NodeBuilder<'_, 's>,
    role: Role<'s>,
    text: &'s Static,
) -> Result<StaticId, StaticError>
    ensures { ResolvesStatic (progress here.old) (progress here.new) (purpose_of role.entry)
        (view_static text.now) result }
{
    here.node_scope().check_static(alloc, text)?;
    let part = StaticPart {
        role,
        text: StaticText::Written(text),
    };
    here.push_static(part)
}

/// The number of the first of some static expressions that stand one after another, and their
/// count. The role has to be one of which each static expression is kept.
pub fn all_statics<'s>(
    alloc: Global,
    here: &mut NodeBuilder<'_, 's>,
    role: Role<'s>,
    texts: &'s [Static],
) -> Result<(StaticId, usize), StaticError>
    requires { letter_of (purpose_of role) ≡ None }
    ensures { ResolvesStatics (progress here.old) (progress here.new) (purpose_of role.entry)
        (view_statics texts.now) result }
{
    let first = here.next_static();
    for text in texts {
        one_static(alloc, here, role, text)?;
    }
    Ok((first, here.next_static().0 - first.0))
}

/// The number of a call (`count` is none), or of an iterated node that is called `count` times.
#[inline(always)]
pub fn call<'s>(
    alloc: Global,
    here: &mut NodeBuilder<'_, 's>,
    name: &'s Name,
    arguments: &'s [Static],
    count: Option<StaticId>,
) -> Result<CallId, StaticError>
    requires { is_count_within (counts_in (texts (progress here.old))) count ≡ true }
    ensures { ResolvesCall (progress here.old) (progress here.new) (record {
      callee = name.now;
      arguments = view_statics arguments.now;
      count = option_map (static_at (texts (progress here.old)).statics) count;
    }) result }
{
    let callee = here.node_scope().callee(alloc, name, arguments.len())?;
    let (first_argument, arguments) = all_statics(alloc, here, Role::Argument, arguments)?;
    here.push_call(CallSite {
        callee,
        offset: name.offset,
        first_argument,
        arguments,
        count,
    })
}
