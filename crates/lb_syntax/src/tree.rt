//! Trees of a source text: their shape, names and literals alone, and their offsets.
//!
//! A tree says what stands in the text and judges nothing: names may be unknown and types may not
//! fit. Each variant's line shows how it is spelled. Definitions of the language see no offset, and
//! a contract sees no offset of a name.

ghost use Rattle.std.specs.Prelude.{◌≡◌, IfOk, IfSome};
ghost use Rattle.std.specs.Str.{IsUtf8};
ghost use Rattle.lb_syntax.specs.Offsets.{expr_offset, expr_sign, static_offset, static_sign};
ghost use Rattle.lb_syntax.specs.Offsets.{statement_offset};
ghost use Rattle.lb_syntax.specs.Operators.{class_of, IsSignOf};

use std::alloc::{AllocError, Global};
use std::marker::Model;

/// The place of a byte in the source text: how many bytes stand before it.
pub type Offset = u32;

/// A name of the source: its bytes, which are text, and its offset.
#[derive(Drop)]
pub struct Name {
    text: String,
    /// The offset of its first byte.
    pub offset: Offset,
}

impl Model for Name {
    ghost use Rattle.std.specs.Prelude.{List, ℕ, string_bytes};

    ghost Value = { List ℕ };

    ghost view = { λ n. string_bytes n.text };
}

impl Name {
    /// The name with the bytes `bytes`, the first of which stands at `offset`.
    pub fn new(alloc: Global, bytes: &[u8], offset: Offset) -> Result<Name, AllocError>
        requires { IsUtf8 bytes.now }
        ensures { IfOk result (λ n. n ≡ bytes.now) }
    {
        let text = String::from_utf8(Vec::from_slice(alloc, bytes)?).unwrap();
        Ok(Name { text, offset })
    }

    /// A copy of the name, with the same offset.
    pub fn copy(&self, alloc: Global) -> Result<Name, AllocError>
        ensures { IfOk result (λ n. n ≡ self.now) }
    {
        let text = String::from_str(alloc, self.text.as_str())?;
        Ok(Name {
            text,
            offset: self.offset,
        })
    }

    /// The name as text.
    pub fn as_str(&self) -> &str
        ensures { result.now ≡ self.now }
    {
        self.text.as_str()
    }

    /// The bytes of the name.
    pub fn as_bytes(&self) -> &[u8]
        ensures { result.now ≡ self.now }
    {
        self.text.as_bytes()
    }
}

/// An operator with one operand.
#[derive(Clone, Copy, PartialEq, Eq)]
pub enum UnaryOperator {
    /// `not a`
    Not,
    /// `- a`
    Negate,
}

/// A data operator with two operands.
#[derive(Clone, Copy, PartialEq, Eq)]
pub enum BinaryOperator {
    /// `a or b`
    Or,
    /// `a xor b`
    Xor,
    /// `a and b`
    And,
    /// `a => b`
    Implies,
    /// `a = b`
    Equal,
    /// `a <> b`
    Unequal,
    /// `a < b`
    Less,
    /// `a <= b`
    AtMost,
    /// `a > b`
    Greater,
    /// `a >= b`
    AtLeast,
    /// `a + b`
    Plus,
    /// `a - b`
    Minus,
    /// `a * b`
    Times,
    /// `a / b`, `a div b`
    Divide,
    /// `a mod b`
    Modulo,
}

/// What a data operator with two operands takes and gives.
#[derive(Clone, Copy, PartialEq, Eq)]
pub enum OperatorClass {
    /// Two truths give a truth: `a and b`.
    Logical,
    /// Two numbers, or two truths, give a truth: `a = b`.
    Equality,
    /// Two numbers give a truth: `a < b`.
    Order,
    /// Two numbers give a number: `a + b`.
    Arithmetic,
}

impl BinaryOperator {
    /// The class of the operator.
    pub fn class(self) -> OperatorClass
        ensures { result ≡ class_of self }
    {
        match self {
            BinaryOperator::Or | BinaryOperator::Xor => OperatorClass::Logical,
            BinaryOperator::And | BinaryOperator::Implies => OperatorClass::Logical,
            BinaryOperator::Equal | BinaryOperator::Unequal => OperatorClass::Equality,
            BinaryOperator::Less | BinaryOperator::AtMost => OperatorClass::Order,
            BinaryOperator::Greater | BinaryOperator::AtLeast => OperatorClass::Order,
            BinaryOperator::Plus | BinaryOperator::Minus => OperatorClass::Arithmetic,
            BinaryOperator::Times => OperatorClass::Arithmetic,
            BinaryOperator::Divide | BinaryOperator::Modulo => OperatorClass::Arithmetic,
        }
    }

    /// A word or symbol that spells the operator: `/` for division, which `div` spells too.
    pub fn sign(self) -> &'static str
        ensures { IsSignOf self result.now }
    {
        match self {
            BinaryOperator::Or => "or",
            BinaryOperator::Xor => "xor",
            BinaryOperator::And => "and",
            BinaryOperator::Implies => "=>",
            BinaryOperator::Equal => "=",
            BinaryOperator::Unequal => "<>",
            BinaryOperator::Less => "<",
            BinaryOperator::AtMost => "<=",
            BinaryOperator::Greater => ">",
            BinaryOperator::AtLeast => ">=",
            BinaryOperator::Plus => "+",
            BinaryOperator::Minus => "-",
            BinaryOperator::Times => "*",
            BinaryOperator::Divide => "/",
            BinaryOperator::Modulo => "mod",
        }
    }
}

/// The kind of a scalar.
#[derive(Clone, Copy, PartialEq, Eq, Debug)]
pub enum Kind {
    /// `int`
    Int,
    /// `bool`
    Bool,
}

/// An iterator over arrays.
#[derive(Clone, Copy)]
pub enum ArrayIterator {
    /// `map`
    Map,
    /// `red`
    Red,
    /// `fill`
    Fill,
}

/// A static expression, which stands for a whole number before the run.
///
/// The offset that a variant ends with is that of its first token, or of its sign where it begins
/// with an operand.
#[derive(Drop)]
pub enum Static {
    /// `17`
    Whole(u32, Offset),
    /// `n`
    Named(Name),
    /// `- s`
    Negated(Box<Static>, Offset),
    /// `s + t`, and `-`, `*`, `/`, `div`, `mod`
    Combined(BinaryOperator, Box<Static>, Box<Static>, Offset),
    /// `(s)`
    Grouped(Box<Static>, Offset),
}

impl Static {
    /// The offset of its first token.
    pub fn offset(&self) -> Offset
        ensures { IfSome (static_offset self.now) (λ at. result ≡ at) }
    {
        match self {
            Static::Whole(_, at) | Static::Negated(_, at) | Static::Grouped(_, at) => *at,
            Static::Named(name) => name.offset,
            Static::Combined(_, left, _, _) => left.offset(),
        }
    }

    /// The offset of the sign between its two operands, if it has two.
    pub fn sign_offset(&self) -> Option<Offset>
        ensures { result ≡ static_sign self.now }
    {
        match self {
            Static::Combined(_, _, _, at) => Some(*at),
            Static::Whole(_, _) | Static::Named(_) => None,
            Static::Negated(_, _) | Static::Grouped(_, _) => None,
        }
    }
}

/// The node or operator that an iterator applies.
#[derive(Drop)]
pub enum Operator {
    /// `f`, `f<<s, t>>`
    Node(Name, Vec<Static>),
    /// one of `+ - * and or xor`
    Symbol(BinaryOperator),
}

/// An expression.
///
/// The offset that a variant ends with is that of its first token, or of its sign where it begins
/// with an operand.
#[derive(Drop)]
pub enum Expr {
    /// `17`
    Literal(u32, Offset),
    /// `true`, `false`
    Truth(bool, Offset),
    /// `x`
    Variable(Name),
    /// `(e)`
    Group(Box<Expr>, Offset),
    /// `not e`, `- e`
    Unary(UnaryOperator, Box<Expr>, Offset),
    /// `a + b` and the other data operators with two operands
    Binary(BinaryOperator, Box<Expr>, Box<Expr>, Offset),
    /// `if c then a else b`
    If(Box<Expr>, Box<Expr>, Box<Expr>, Offset),
    /// `a -> b`
    Arrow(Box<Expr>, Box<Expr>, Offset),
    /// `a fby b`
    Fby(Box<Expr>, Box<Expr>, Offset),
    /// `pre e`
    Pre(Box<Expr>, Offset),
    /// `current e`
    Current(Box<Expr>, Offset),
    /// `e when c` (true), `e when not c` (false)
    When(Box<Expr>, Name, bool, Offset),
    /// `e ^ n`
    Replicate(Box<Expr>, Static, Offset),
    /// `e[i]`
    Index(Box<Expr>, Static, Offset),
    /// `e[i..j]`
    Slice(Box<Expr>, Static, Static, Offset),
    /// `a | b`
    Join(Box<Expr>, Box<Expr>, Offset),
    /// `[a, b, c]`
    Array(Vec<Expr>, Offset),
    /// `#(a, b, c)`
    AtMostOne(Vec<Expr>, Offset),
    /// `nor(a, b, c)`
    Nor(Vec<Expr>, Offset),
    /// `f(a, b)`, `f<<s, t>>(a, b)`
    Call(Name, Vec<Static>, Vec<Expr>),
    /// `map<<f, n>>(a, b)`, and `red`, `fill`; its operator is boxed, since that is large
    Iterate(ArrayIterator, Box<Operator>, Static, Vec<Expr>, Offset),
}

// If `Expr` were larger, the compiler that is written in Rattle would take eight times the stack
// for each level of nesting.
const _: () = prove!(size_of::<Expr>() <= 128);

impl Expr {
    /// The offset of its first token.
    pub fn offset(&self) -> Offset
        ensures { IfSome (expr_offset self.now) (λ at. result ≡ at) }
    {
        match self {
            Expr::Literal(_, at) | Expr::Truth(_, at) => *at,
            Expr::Variable(name) | Expr::Call(name, _, _) => name.offset,
            Expr::Group(_, at) | Expr::Unary(_, _, at) | Expr::If(_, _, _, at) => *at,
            Expr::Pre(_, at) | Expr::Current(_, at) => *at,
            Expr::Binary(_, left, _, _) | Expr::Arrow(left, _, _) => left.offset(),
            Expr::Fby(left, _, _) | Expr::Join(left, _, _) => left.offset(),
            Expr::When(left, _, _, _) | Expr::Replicate(left, _, _) => left.offset(),
            Expr::Index(left, _, _) | Expr::Slice(left, _, _, _) => left.offset(),
            Expr::Array(_, at) | Expr::AtMostOne(_, at) | Expr::Nor(_, at) => *at,
            Expr::Iterate(_, _, _, _, at) => *at,
        }
    }

    /// The offset of the sign that follows its left operand, if it has one: of `a + b` that of `+`,
    /// and of `e[i]` that of `[`.
    pub fn sign_offset(&self) -> Option<Offset>
        ensures { result ≡ expr_sign self.now }
    {
        match self {
            Expr::Binary(_, _, _, at) | Expr::Arrow(_, _, at) | Expr::Fby(_, _, at) => Some(*at),
            Expr::When(_, _, _, at) | Expr::Replicate(_, _, at) => Some(*at),
            Expr::Index(_, _, at) | Expr::Slice(_, _, _, at) | Expr::Join(_, _, at) => Some(*at),
            Expr::Literal(_, _) | Expr::Truth(_, _) | Expr::Variable(_) => None,
            Expr::Group(_, _) | Expr::Unary(_, _, _) | Expr::If(_, _, _, _) => None,
            Expr::Pre(_, _) | Expr::Current(_, _) | Expr::Array(_, _) => None,
            Expr::AtMostOne(_, _) | Expr::Nor(_, _) => None,
            Expr::Call(_, _, _) | Expr::Iterate(_, _, _, _, _) => None,
        }
    }
}

/// A clock as it is written.
#[derive(Drop)]
pub struct Sampling {
    /// The variable that is waited for.
    pub variable: Name,
    /// `when c` waits for true, `when not c` for false.
    pub sign: bool,
}

/// Variables of one type and clock: `a, b: int^n when c`.
#[derive(Drop)]
pub struct Declarations {
    pub names: Vec<Name>,
    pub kind: Kind,
    /// The sizes as they are written, the innermost first.
    pub sizes: Vec<Static>,
    pub clock: Option<Sampling>,
}

/// A statement of a node. Each variant ends with the offset of its first token.
#[derive(Drop)]
pub enum Statement {
    /// `x = e;`, `(x, y) = e;`
    Equation(Vec<Name>, Expr, Offset),
    /// `assert e;`
    Assertion(Expr, Offset),
}

impl Statement {
    /// The offset of its first token.
    pub fn offset(&self) -> Offset
        ensures { result ≡ statement_offset self.now }
    {
        match self {
            Statement::Equation(_, _, at) | Statement::Assertion(_, at) => *at,
        }
    }
}

/// A node or a function.
#[derive(Drop)]
pub struct Node {
    /// The offset of the word `node` or `function`.
    pub offset: Offset,
    pub name: Name,
    /// `function` in place of `node`.
    pub is_function: bool,
    /// The static parameters.
    pub parameters: Vec<Name>,
    pub inputs: Vec<Declarations>,
    pub outputs: Vec<Declarations>,
    pub locals: Vec<Declarations>,
    pub body: Vec<Statement>,
}

/// A named constant.
#[derive(Drop)]
pub struct Constant {
    pub name: Name,
    pub value: Static,
}

/// The constants, and the nodes and functions, each in text order.
#[derive(Drop)]
pub struct Source {
    pub constants: Vec<Constant>,
    pub nodes: Vec<Node>,
}
