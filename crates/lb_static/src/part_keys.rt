//! The keys by which static expressions are found, and when two of them are equal.
//!
//! A key is a number that stands for a static expression, with its role. Equal ones have the same
//! key; others may have it too.

ghost use Rattle.std.specs.Prelude.{◌≡◌};
ghost use Rattle.lb_syntax.specs.Tree as tree;
ghost use Rattle.lb_syntax.specs.View.{view_static};
ghost use Rattle.lb_static.specs.PartKeys.{is_same_static, is_same_purpose, is_same_part};
ghost use Rattle.lb_static.specs.PartKeys.{key_with, name_key, role_key, sign_of, static_key};
ghost use Rattle.lb_static.specs.PartKeys.{key_of};
ghost use Rattle.lb_static.specs.StaticParts.{part_of};
ghost use Rattle.lb_static.specs.ResolvedTerms.{static_of};
ghost use Rattle.lb_static.specs.StaticParts.{purpose_of};

use crate::resolved::{Role, StaticPart, StaticText};
use lb_syntax::{BinaryOperator, Name, Static};

/// The factor of a key that gets one more number: large and odd, so that few keys fall together.
const FACTOR: u64 = 6_364_136_223_846_793_005;

/// Stands before a name: the letter `n`.
const NAME: u64 = 110;

/// Stands before what is in brackets: `(`.
const GROUPED: u64 = 40;

/// Stands before what is negated: `-`.
const NEGATED: u64 = 45;

/// Whether two static expressions are written alike.
fn is_same_static(one: &Static, other: &Static) -> bool
    ensures { result ≡ is_same_static (view_static one.now) (view_static other.now) }
{
    match (one, other) {
        (Static::Whole(m, _), Static::Whole(n, _)) => m == n,
        (Static::Named(x), Static::Named(y)) => x.as_str() == y.as_str(),
        (Static::Grouped(a, _), Static::Grouped(b, _)) => is_same_static(a, b),
        (Static::Negated(a, _), Static::Negated(b, _)) => is_same_static(a, b),
        (Static::Combined(op, a, b, _), Static::Combined(other, c, d, _)) => {
            *op == *other && is_same_static(a, c) && is_same_static(b, d)
        }
        _ => false,
    }
}

/// Whether a static expression is this name.
fn is_named(text: &Static, name: &Name) -> bool
    ensures { result ≡ is_same_static (view_static text.now) (tree.Named name.now) }
{
    match text {
        Static::Named(x) => x.as_str() == name.as_str(),
        _ => false,
    }
}

/// Whether two static expressions, each as it is written or a name, are written alike.
#[tactic(auto, using(crate::proofs::SharedParts::same_either_way))]
fn is_same_text(one: StaticText, other: StaticText) -> bool
    ensures { result ≡ is_same_static (static_of one.entry) (static_of other.entry) }
{
    match one {
        StaticText::Written(text) => match other {
            StaticText::Written(other) => is_same_static(text, other),
            StaticText::Named(name) => is_named(text, name),
        },
        StaticText::Named(name) => match other {
            StaticText::Written(text) => is_named(text, name),
            StaticText::Named(other) => name.as_str() == other.as_str(),
        },
    }
}

/// Whether two roles are equal and are such that equal static expressions are kept once.
fn is_same_role(one: Role, other: Role) -> bool
    ensures { result ≡ is_same_purpose (purpose_of one.entry) (purpose_of other.entry) }
{
    match (one, other) {
        (Role::Size, Role::Size)
        | (Role::Index, Role::Index)
        | (Role::SliceStart, Role::SliceStart)
        | (Role::Value, Role::Value) => true,
        (Role::SliceEnd(start), Role::SliceEnd(other)) => is_same_static(start, other),
        _ => false,
    }
}

/// Whether two static expressions have equal roles and are written alike.
pub fn is_same_part(one: StaticPart, other: StaticPart) -> bool
    ensures { result ≡ is_same_part (part_of one.entry) (part_of other.entry) }
{
    is_same_role(one.role, other.role) && is_same_text(one.text, other.text)
}

/// A key with one more number in it.
fn key_with(key: u64, number: u64) -> u64
    ensures { result ≡ key_with key number }
{
    key.wrapping_mul(FACTOR).wrapping_add(number)
}

/// A key with a name in it: `NAME`, and then the bytes of the name.
fn name_key(key: u64, name: &Name) -> u64
    ensures { result ≡ name_key key name.now }
{
    let mut longer = key_with(key, NAME);
    let bytes = name.as_str().as_bytes();
    for byte in bytes {
        longer = key_with(longer, u64::from(*byte));
    }
    longer
}

/// The sign of an operator of arithmetic, as its ASCII number; 63, a `?`, for any other operator.
fn sign_of(op: BinaryOperator) -> u64
    ensures { result ≡ sign_of op }
{
    match op {
        BinaryOperator::Plus => 43,
        BinaryOperator::Minus => 45,
        BinaryOperator::Times => 42,
        BinaryOperator::Divide => 47,
        BinaryOperator::Modulo => 37,
        _ => 63,
    }
}

/// A key with a static expression in it, each operator before its operands.
fn static_key(key: u64, text: &Static) -> u64
    ensures { result ≡ static_key key (view_static text.now) }
{
    match text {
        Static::Whole(number, _) => key_with(key, u64::from(*number)),
        Static::Named(name) => name_key(key, name),
        Static::Grouped(inner, _) => static_key(key_with(key, GROUPED), inner),
        Static::Negated(inner, _) => static_key(key_with(key, NEGATED), inner),
        Static::Combined(op, left, right, _) => {
            let longer = static_key(key_with(key, sign_of(*op)), left);
            static_key(longer, right)
        }
    }
}

/// A key with a static expression in it, as it is written or a name.
fn text_key(key: u64, text: StaticText) -> u64
    ensures { result ≡ static_key key (static_of text.entry) }
{
    match text {
        StaticText::Written(text) => static_key(key, text),
        StaticText::Named(name) => name_key(key, name),
    }
}

/// The key of a role whose static expressions are kept once: the ASCII number of its letter, with
/// the first end of a slice where the role is that of a last end; none for other roles.
fn role_key(role: Role) -> Option<u64>
    ensures { result ≡ role_key (purpose_of role.entry) }
{
    match role {
        Role::Size => Some(115),
        Role::Index => Some(105),
        Role::SliceStart => Some(97),
        Role::SliceEnd(start) => Some(static_key(101, start)),
        Role::Value => Some(118),
        Role::Dimension | Role::Argument => None,
    }
}

/// The key of a static expression, if it may be kept once.
pub fn key_of(part: StaticPart) -> Option<u64>
    ensures { result ≡ key_of (part_of part.entry) }
{
    let key = role_key(part.role)?;
    Some(text_key(key, part.text))
}
