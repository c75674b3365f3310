//! The levels of the forms, in one table, and the marks of the table.
//!
//! A form of a higher level binds more tightly. A form with an operand on its left takes there a
//! tree of at least the level `left` of its row, and on its right a tree of at least the level
//! `right`, or a prefix form: `1 + 2 * 3` is `1 + (2 * 3)`, and `1 - 2 - 3` is `(1 - 2) - 3`.

ghost use Rattle.std.specs.Prelude.{◌≡◌, ◌<◌};
ghost use Rattle.lb_syntax.specs.Levels as levels;
ghost use Rattle.lb_syntax.specs.declared.level.Form.TheVariants.{Data};

use crate::token::Mark;
use crate::tree::{BinaryOperator, UnaryOperator};

/// The least level: where it is wanted, every form may stand.
pub const ANY_LEVEL: u8 = 1;

/// The level of `if c then a else b`.
pub const CHOICE_LEVEL: u8 = 2;

/// The level of `pre e` and `current e`.
pub const MEMORY_LEVEL: u8 = 12;

/// The level of a tree that is no infix, prefix or postfix form.
pub const ATOM_LEVEL: u8 = 14;

/// An infix or postfix form, which is known by the mark after its left operand.
#[derive(Clone, Copy)]
pub enum Form {
    /// `a + b` and the other data operators with two operands
    Data(BinaryOperator),
    /// `a -> b`
    Arrow,
    /// `a fby b`
    Fby,
    /// `a | b`
    Join,
    /// `e when c`
    When,
    /// `e ^ n`
    Replicate,
    /// `e[i]`, `e[i..j]`
    Element,
}

/// The level of a form, and the least levels of its operands.
#[derive(Clone, Copy)]
pub struct Row {
    /// The level of the form itself.
    pub level: u8,
    /// The least level of its left operand.
    pub left: u8,
    /// The least level of its right operand, if it has one.
    pub right: u8,
}

/// The row of a form that groups to the left, as `a - b - c` is `(a - b) - c`.
const fn to_left(level: u8) -> Row
    requires { level < 255 }
    ensures { result ≡ levels.to_left level }
{
    Row {
        level,
        left: level,
        right: level + 1,
    }
}

/// The row of a form that groups to the right.
const fn to_right(level: u8) -> Row
    requires { level < 255 }
    ensures { result ≡ levels.to_right level }
{
    Row {
        level,
        left: level + 1,
        right: level,
    }
}

/// The row of a form that groups to no side.
const fn to_none(level: u8) -> Row
    requires { level < 255 }
    ensures { result ≡ levels.to_none level }
{
    Row {
        level,
        left: level + 1,
        right: level + 1,
    }
}

/// The row of a form in the table of levels.
pub fn row_of(form: Form) -> Row
    ensures { result ≡ levels.row_of form }
{
    match form {
        Form::Join => to_left(1),
        Form::Arrow | Form::Fby => to_right(3),
        Form::Data(op) => data_row(op),
        Form::When => to_left(11),
        Form::Replicate | Form::Element => to_left(13),
    }
}

fn data_row(op: BinaryOperator) -> Row
    ensures { result ≡ levels.row_of (Data op) }
{
    match op {
        BinaryOperator::Implies => to_right(4),
        BinaryOperator::Or | BinaryOperator::Xor => to_left(5),
        BinaryOperator::And => to_left(6),
        BinaryOperator::Equal | BinaryOperator::Unequal => to_none(7),
        BinaryOperator::Less | BinaryOperator::AtMost => to_none(7),
        BinaryOperator::Greater | BinaryOperator::AtLeast => to_none(7),
        BinaryOperator::Plus | BinaryOperator::Minus => to_left(9),
        BinaryOperator::Times | BinaryOperator::Divide | BinaryOperator::Modulo => to_left(10),
    }
}

/// The level of a prefix operator.
pub fn unary_level(op: UnaryOperator) -> u8
    ensures { result ≡ levels.unary_level op }
{
    match op {
        UnaryOperator::Not => 8,
        UnaryOperator::Negate => 12,
    }
}

/// The operator of static expressions that a mark stands for.
pub fn arithmetic_of(mark: Mark) -> Option<BinaryOperator>
    ensures { result ≡ levels.arithmetic_of mark }
{
    match mark {
        Mark::Plus => Some(BinaryOperator::Plus),
        Mark::Minus => Some(BinaryOperator::Minus),
        Mark::Star => Some(BinaryOperator::Times),
        Mark::Slash | Mark::Div => Some(BinaryOperator::Divide),
        Mark::Mod => Some(BinaryOperator::Modulo),
        _ => None,
    }
}

/// The infix or postfix form that a mark stands for, where it follows an operand.
pub fn form_of(mark: Mark) -> Option<Form>
    ensures { result ≡ levels.form_of mark }
{
    match mark {
        Mark::Bar => Some(Form::Join),
        Mark::Arrow => Some(Form::Arrow),
        Mark::Fby => Some(Form::Fby),
        Mark::Implies => Some(Form::Data(BinaryOperator::Implies)),
        Mark::Or => Some(Form::Data(BinaryOperator::Or)),
        Mark::Xor => Some(Form::Data(BinaryOperator::Xor)),
        Mark::And => Some(Form::Data(BinaryOperator::And)),
        Mark::Equal => Some(Form::Data(BinaryOperator::Equal)),
        Mark::Unequal => Some(Form::Data(BinaryOperator::Unequal)),
        Mark::Less => Some(Form::Data(BinaryOperator::Less)),
        Mark::AtMost => Some(Form::Data(BinaryOperator::AtMost)),
        Mark::Greater => Some(Form::Data(BinaryOperator::Greater)),
        Mark::AtLeast => Some(Form::Data(BinaryOperator::AtLeast)),
        Mark::When => Some(Form::When),
        Mark::Caret => Some(Form::Replicate),
        Mark::OpenBracket => Some(Form::Element),
        _ => match arithmetic_of(mark) {
            Some(op) => Some(Form::Data(op)),
            None => None,
        },
    }
}
