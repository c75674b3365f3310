//! The types of terms (E9), each found once from the types of its operands.

ghost use Rattle.std.specs.Prelude.{◌≡◌, ◌<◌, ◌↔◌, ◌&&◌, option_map};
ghost use Rattle.std.specs.Prelude.{IfOk, IsTrue, OnOk};
ghost use Rattle.lb_syntax.specs.Lists as lists;
ghost use Rattle.lb_static.specs.StoredTypes.{view_type};
ghost use Rattle.lb_static.specs.declared.resolved.Term.{size-Term};
ghost use Rattle.lb_check.specs.PlacedTypes as placed_mirror;
ghost use Rattle.lb_check.specs.StoredTypes.{context_in};
ghost use Rattle.lb_check.specs.TermOperands.{HasBranches, HasElements, HasOperand, HasOperands};
ghost use Rattle.lb_check.specs.TermOperands.{HasRow, IsLeaf};
ghost use Rattle.lb_check.specs.TermSignatures as signatures;
ghost use Rattle.lb_check.specs.TermTypes as mirror;
ghost use Rattle.lb_check.specs.Types as types;

use crate::array_types::{element_type, is_array, part_type, replicate_type};
use crate::operand_types::{
    common_type, joined, literal_type, of_operands, unary_type, when_truth,
};
use crate::part_types::PartTypes;
use crate::signature::{Signature, TypeRow, array_type, is_wanted, signature_of};
use crate::type_env::TypeEnv;
use lb_static::{DataType, Term};
use lb_syntax::Kind;
use std::alloc::{AllocError, Global};

/// The type of a term without operands.
pub fn leaf_type(alloc: Global, env: &TypeEnv, term: &Term) -> Result<Option<DataType>, AllocError>
    ensures { IfOk result (λ o.
        option_map view_type o ≡ mirror.leaf_type (context_in env.now) term.now) }
{
    match term {
        Term::Literal(n) => Ok(literal_type(alloc, *n)),
        Term::Value(i) => Ok(env.constant(alloc, *i)),
        Term::Truth(_) => Ok(Some(DataType::scalar(alloc, Kind::Bool))),
        Term::Variable(x) => env.variable(alloc, *x),
        _ => Ok(None),
    }
}

/// The type of a term with one operand of this type.
#[inline(always)]
pub fn one_type(
    alloc: Global,
    env: &TypeEnv,
    term: &Term,
    operand: DataType,
) -> Result<Option<DataType>, AllocError>
    ensures { IfOk result (λ o. option_map view_type o
        ≡ mirror.one_type (context_in env.now) term.now (view_type operand)) }
{
    match term {
        Term::Unary(op, _) => Ok(unary_type(alloc, *op, operand)),
        Term::When(_, x, _) => Ok(when_truth(env.variable(alloc, *x)?, Some(operand))),
        Term::Replicate(_, n) => replicate_type(env.count(*n), operand),
        Term::Index(_, i) => Ok(element_type(env.count(*i), operand)),
        Term::Slice(_, i, j) => part_type(env.count(*i), env.count(*j), operand),
        _ => Ok(Some(operand)),
    }
}

/// The type of a term with one operand of this type, if it has one.
fn single_type(
    alloc: Global,
    env: &TypeEnv,
    term: &Term,
    operand: Option<DataType>,
) -> Result<Option<DataType>, AllocError>
    ensures { IfOk result (λ o. option_map view_type o
        ≡ lists.◌>>=◌ (option_map view_type operand)
        (mirror.one_type (context_in env.now) term.now)) }
{
    match operand {
        Some(operand) => one_type(alloc, env, term, operand),
        None => Ok(None),
    }
}

/// The type of a term whose two operands have these types.
#[inline(always)]
pub fn two_types(
    alloc: Global,
    term: &Term,
    left: Option<DataType>,
    right: Option<DataType>,
) -> Result<Option<DataType>, AllocError>
    ensures { IfOk result (λ o. option_map view_type o
        ≡ mirror.two_types term.now (option_map view_type left) (option_map view_type right)) }
{
    match term {
        Term::Binary(op, _, _) => Ok(of_operands(alloc, *op, left, right)),
        Term::Join(_, _) => joined(left, right),
        _ => Ok(common_type(left, right)),
    }
}

/// Notes a term with one result, and returns its type.
#[inline(always)]
fn note_one(
    alloc: Global,
    own: Option<DataType>,
    parts: &mut PartTypes,
) -> Result<Option<DataType>, AllocError>
    ensures same { IfOk result (λ o. option_map view_type o ≡ option_map view_type own) }
    ensures noted { OnOk result (placed_mirror.kept_in parts.new
        ≡ placed_mirror.noted (placed_mirror.kept_in parts.old)
        (types.singly (option_map view_type own))) }
{
    parts.note_one(alloc, &own)?;
    Ok(own)
}

/// Notes a term without operands, and returns its type.
fn walk_leaf(
    alloc: Global,
    env: &TypeEnv,
    term: &Term,
    parts: &mut PartTypes,
) -> Result<Option<DataType>, AllocError>
    requires { IsLeaf term.now }
    ensures { IfOk result (λ o. placed_mirror.IsWalked (context_in env.now) term.now
        (placed_mirror.kept_in parts.old) (placed_mirror.kept_in parts.new)
        (option_map view_type o)) }
{
    let own = leaf_type(alloc, env, term)?;
    note_one(alloc, own, parts)
}

/// The type of the elements of a list: `own` of one, together with `later` of the `seen` ones
/// behind it.
fn like_later(seen: usize, own: Option<DataType>, later: Option<DataType>) -> Option<DataType>
    ensures { option_map view_type result ≡ signatures.like_later seen
        (option_map view_type own) (option_map view_type later) }
{
    if seen == 0 {
        own
    } else {
        common_type(own, later)
    }
}

/// Whether an operand has the type that is wanted at its place, and those behind it fit (`fits`).
fn fits_too(fits: bool, wanted: &TypeRow, place: usize, own: &Option<DataType>) -> bool
    ensures { result ≡ (fits && signatures.are_one
        (signatures.type_at (signatures.row_in wanted.now) place) (option_map view_type own.now)) }
{
    fits && is_wanted(wanted, place, own)
}

/// Whether a signature takes this number of operands.
pub fn has_arity(signature: &Signature, count: usize) -> bool
    ensures { result ≡ signatures.has_arity (signatures.signature_in signature.now) count }
{
    signature.stands && signature.takes.len() == count
}

/// The types `given`, where the operands fit.
pub fn given_where<'a>(fits: bool, given: TypeRow<'a>) -> Option<TypeRow<'a>>
    ensures { option_map signatures.row_in result
        ≡ lists.where_true fits (signatures.row_in given.entry) }
{
    if fits { Some(given) } else { None }
}

/// Whether the operands that were walked, such as the last two of `[a, b, c]`, decide about their
/// row: they do not fit, and no part is kept any more.
fn is_decided(seen: usize, fit: bool, parts: &PartTypes) -> bool
    ensures { IsTrue result ↔ placed_mirror.IsDecided seen fit parts.now.left }
{
    seen > 0 && !fit && parts.left == 0
}

/// Notes the parts of the elements of a list, the last one first, and returns the type of the list.
#[cycle(walking)]
fn walk_list(
    alloc: Global,
    env: &TypeEnv,
    terms: &[Term],
    parts: &mut PartTypes,
) -> Result<Option<DataType>, AllocError>
    ensures { IfOk result (λ o. placed_mirror.IsRowWalked (context_in env.now) terms.now
        (placed_mirror.kept_in parts.old) (placed_mirror.kept_in parts.new)
        (option_map view_type o) signatures.list_of) }
{
    let size = terms.len() as u64;
    let mut element = None;
    for seen in 0..terms.len() {
        if is_decided(seen, is_array(size, &element), parts) {
            return Ok(None);
        }
        let own = walk(alloc, env, &terms[terms.len() - 1 - seen], parts)?;
        element = like_later(seen, own, element);
    }
    array_type(size, element)
}

/// Notes the parts of the operands of a term in a row, the last one first, and returns the types
/// that the term gives.
#[cycle(walking)]
fn walk_row<'a>(
    alloc: Global,
    env: &TypeEnv<'a, '_>,
    terms: &[Term],
    term: &Term,
    parts: &mut PartTypes,
) -> Result<Option<TypeRow<'a>>, AllocError>
    ensures { IfOk result (λ o. placed_mirror.IsRowWalked (context_in env.now) terms.now
        (placed_mirror.kept_in parts.old) (placed_mirror.kept_in parts.new)
        (option_map signatures.row_in o)
        (signatures.given_of (signatures.calls_in env.now) (context_in env.now) term.now)) }
{
    let signature = signature_of(alloc, env, term, terms.len())?;
    let mut fits = has_arity(&signature, terms.len());
    for seen in 0..terms.len() {
        if is_decided(seen, fits, parts) {
            return Ok(None);
        }
        let place = terms.len() - 1 - seen;
        let own = walk(alloc, env, &terms[place], parts)?;
        fits = fits_too(fits, &signature.takes, place, &own);
    }
    Ok(given_where(fits, signature.gives))
}

/// Notes the elements of a list, and then the list, and returns its type.
#[cycle(walking)]
fn walk_array(
    alloc: Global,
    env: &TypeEnv,
    terms: &[Term],
    term: &Term,
    parts: &mut PartTypes,
) -> Result<Option<DataType>, AllocError>
    ensures { HasElements term.now terms.now → IfOk result (λ o.
        placed_mirror.IsWalked (context_in env.now) term.now
        (placed_mirror.kept_in parts.old) (placed_mirror.kept_in parts.new)
        (option_map view_type o)) }
{
    let own = walk_list(alloc, env, terms, parts)?;
    note_one(alloc, own, parts)
}

/// Notes the operands of a term with a row of them, a list apart, and then the term, and returns
/// its one type.
#[cycle(walking)]
fn walk_given(
    alloc: Global,
    env: &TypeEnv,
    terms: &[Term],
    term: &Term,
    parts: &mut PartTypes,
) -> Result<Option<DataType>, AllocError>
    ensures { HasRow term.now terms.now → IfOk result (λ o.
        placed_mirror.IsWalked (context_in env.now) term.now
        (placed_mirror.kept_in parts.old) (placed_mirror.kept_in parts.new)
        (option_map view_type o)) }
{
    let given = walk_row(alloc, env, terms, term, parts)?;
    parts.note_given(alloc, &given)
}

/// Notes the operand of a term with one, and then the term, and returns its type.
#[cycle(walking)]
fn walk_single(
    alloc: Global,
    env: &TypeEnv,
    term: &Term,
    operand: &Term,
    parts: &mut PartTypes,
) -> Result<Option<DataType>, AllocError>
    requires { size-Term operand.now < size-Term term.now }
    ensures { HasOperand term.now operand.now → IfOk result (λ o.
        placed_mirror.IsWalked (context_in env.now) term.now
        (placed_mirror.kept_in parts.old) (placed_mirror.kept_in parts.new)
        (option_map view_type o)) }
{
    let operand = walk(alloc, env, operand, parts)?;
    let own = single_type(alloc, env, term, operand)?;
    note_one(alloc, own, parts)
}

/// Notes the operands of a term with two, the right one first, and then the term, and returns its
/// type.
#[cycle(walking)]
fn walk_pair(
    alloc: Global,
    env: &TypeEnv,
    term: &Term,
    left: &Term,
    right: &Term,
    parts: &mut PartTypes,
) -> Result<Option<DataType>, AllocError>
    requires left_smaller { size-Term left.now < size-Term term.now }
    requires right_smaller { size-Term right.now < size-Term term.now }
    ensures { HasOperands term.now left.now right.now → IfOk result (λ o.
        placed_mirror.IsWalked (context_in env.now) term.now
        (placed_mirror.kept_in parts.old) (placed_mirror.kept_in parts.new)
        (option_map view_type o)) }
{
    let right = walk(alloc, env, right, parts)?;
    let left = walk(alloc, env, left, parts)?;
    let own = two_types(alloc, term, left, right)?;
    note_one(alloc, own, parts)
}

/// Notes the operands of a choice, its condition last, and then the choice, and returns its type.
#[cycle(walking)]
fn walk_choice(
    alloc: Global,
    env: &TypeEnv,
    term: &Term,
    condition: &Term,
    left: &Term,
    right: &Term,
    parts: &mut PartTypes,
) -> Result<Option<DataType>, AllocError>
    requires condition_smaller { size-Term condition.now < size-Term term.now }
    requires left_smaller { size-Term left.now < size-Term term.now }
    requires right_smaller { size-Term right.now < size-Term term.now }
    ensures { HasBranches term.now condition.now left.now right.now → IfOk result (λ o.
        placed_mirror.IsWalked (context_in env.now) term.now
        (placed_mirror.kept_in parts.old) (placed_mirror.kept_in parts.new)
        (option_map view_type o)) }
{
    let right = walk(alloc, env, right, parts)?;
    let left = walk(alloc, env, left, parts)?;
    let condition = walk(alloc, env, condition, parts)?;
    let own = when_truth(condition, common_type(left, right));
    note_one(alloc, own, parts)
}

/// Notes the parts of a term against the order of the text, each after its operands, and returns
/// the one type of the term, or none where a rule of types is broken.
#[cycle(walking)]
pub fn walk(
    alloc: Global,
    env: &TypeEnv,
    term: &Term,
    parts: &mut PartTypes,
) -> Result<Option<DataType>, AllocError>
    ensures { IfOk result (λ o. placed_mirror.IsWalked (context_in env.now) term.now
        (placed_mirror.kept_in parts.old) (placed_mirror.kept_in parts.new)
        (option_map view_type o)) }
{
    match term {
        Term::Group(e) => walk(alloc, env, e, parts),
        Term::Literal(_) | Term::Truth(_) | Term::Value(_) | Term::Variable(_) => {
            walk_leaf(alloc, env, term, parts)
        }
        Term::Unary(_, e)
        | Term::Pre(e)
        | Term::Current(e)
        | Term::When(e, _, _)
        | Term::Replicate(e, _)
        | Term::Index(e, _)
        | Term::Slice(e, _, _) => walk_single(alloc, env, term, e, parts),
        Term::Binary(_, a, b) | Term::Arrow(a, b) | Term::Fby(a, b) | Term::Join(a, b) => {
            walk_pair(alloc, env, term, a, b, parts)
        }
        Term::If(c, a, b) => walk_choice(alloc, env, term, c, a, b, parts),
        Term::Array(terms) => walk_array(alloc, env, terms, term, parts),
        Term::AtMostOne(terms)
        | Term::Nor(terms)
        | Term::Call(_, terms)
        | Term::IterateNode(_, _, terms)
        | Term::IterateSymbol(_, _, _, terms) => walk_given(alloc, env, terms, term, parts),
    }
}

/// The types of the results of a right side.
#[derive(Drop)]
pub enum SideTypes<'a> {
    /// One result of this type, if it has one.
    Single(Option<DataType>),
    /// The results of a term with a row of operands, if they fit.
    Several(Option<TypeRow<'a>>),
}

/// Notes the parts of a right side, and then the right side, and returns the types of its results: a
/// call or an iterator may have several.
#[tactic(auto, unfolding(crate::specs::TermTypes::results))]
pub fn side_types<'a>(
    alloc: Global,
    env: &TypeEnv<'a, '_>,
    term: &Term,
    parts: &mut PartTypes,
) -> Result<SideTypes<'a>, AllocError>
    ensures { IfOk result (λ given. placed_mirror.IsSideWalked (context_in env.now) term.now
        (placed_mirror.kept_in parts.old) (placed_mirror.kept_in parts.new)
        (signatures.results_in given)) }
{
    match term {
        Term::Group(e) => side_types(alloc, env, e, parts),
        Term::AtMostOne(terms)
        | Term::Nor(terms)
        | Term::Call(_, terms)
        | Term::IterateNode(_, _, terms)
        | Term::IterateSymbol(_, _, _, terms) => {
            let given = walk_row(alloc, env, terms, term, parts)?;
            parts.note_given(alloc, &given)?;
            Ok(SideTypes::Several(given))
        }
        Term::Array(terms) => {
            let own = walk_array(alloc, env, terms, term, parts)?;
            Ok(SideTypes::Single(own))
        }
        _ => Ok(SideTypes::Single(walk(alloc, env, term, parts)?)),
    }
}
