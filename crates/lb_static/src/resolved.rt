//! Nodes whose names are resolved.
//!
//! A variable, a call and a static expression are numbers here, so that no layer above compares
//! names: a variable is its place among the inputs, outputs and locals of its node, a call its
//! place among the calls and iterated nodes in the text of its node, and a static expression its
//! place among those of its node. The lists behind the numbers are kept beside the node's body, and
//! its tree stays at hand.

use lb_syntax::{ArrayIterator, BinaryOperator, Kind, Name, Node, Static, UnaryOperator};

/// The place of a variable among the inputs, outputs and locals of its node, in this order.
#[derive(Clone, Copy, PartialEq, Eq)]
pub struct VariableId(pub usize);

/// The place of a static expression among those of its node.
#[derive(Clone, Copy)]
pub struct StaticId(pub usize);

/// The number of a call or an iterated node: its place among those in the text of its node.
#[derive(Clone, Copy)]
pub struct CallId(pub usize);

/// The place of a node among those of the source.
#[derive(Clone, Copy)]
pub struct NodePlace(pub usize);

/// An expression whose names are resolved.
#[derive(Drop)]
pub enum Term {
    /// `17`
    Literal(u32),
    /// `true`, `false`
    Truth(bool),
    /// `x`, a variable
    Variable(VariableId),
    /// `n`, a static parameter or a constant
    Value(StaticId),
    /// `(e)`
    Group(Box<Term>),
    /// `not e`, `- e`
    Unary(UnaryOperator, Box<Term>),
    /// `a + b` and the other infix forms of data
    Binary(BinaryOperator, Box<Term>, Box<Term>),
    /// `if c then a else b`
    If(Box<Term>, Box<Term>, Box<Term>),
    /// `a -> b`
    Arrow(Box<Term>, Box<Term>),
    /// `a fby b`
    Fby(Box<Term>, Box<Term>),
    /// `pre e`
    Pre(Box<Term>),
    /// `current e`
    Current(Box<Term>),
    /// `e when c` (true), `e when not c` (false)
    When(Box<Term>, VariableId, bool),
    /// `e ^ n`
    Replicate(Box<Term>, StaticId),
    /// `e[i]`
    Index(Box<Term>, StaticId),
    /// `e[i..j]`
    Slice(Box<Term>, StaticId, StaticId),
    /// `a | b`
    Join(Box<Term>, Box<Term>),
    /// `[a, b, c]`
    Array(Vec<Term>),
    /// `#(a, b, c)`
    AtMostOne(Vec<Term>),
    /// `nor(a, b, c)`
    Nor(Vec<Term>),
    /// `f(a, b)`, `f<<s, t>>(a, b)`
    Call(CallId, Vec<Term>),
    /// `map<<f, n>>(a, b)`, and `red`, `fill`, over a node
    IterateNode(ArrayIterator, CallId, Vec<Term>),
    /// `map<<+, n>>(a, b)`, and `red`, `fill`, over an operator
    IterateSymbol(ArrayIterator, BinaryOperator, StaticId, Vec<Term>),
}

/// A statement whose names are resolved.
#[derive(Drop)]
pub enum ResolvedStatement {
    /// `x = e;`, `(x, y) = e;`
    Equation(Vec<VariableId>, Term),
    /// `assert e;`
    Assertion(Term),
}

/// A clock as it is declared: a variable, and the value of it (`sign`) at which the clock ticks.
#[derive(Clone, Copy)]
pub struct Sampling {
    pub variable: VariableId,
    pub sign: bool,
}

/// A variable as it is declared. The variables of one group share the places of their sizes.
#[derive(Clone, Copy)]
pub struct Variable {
    pub kind: Kind,
    /// The first of its sizes, which stand one after another, the innermost first.
    pub first_size: StaticId,
    /// The number of its sizes.
    pub sizes: usize,
    pub clock: Option<Sampling>,
}

/// A call or an iterated node.
#[derive(Clone, Copy)]
pub struct CallSite {
    pub callee: NodePlace,
    /// The byte offset of the called name in the text of the source.
    pub offset: u32,
    /// The first of its static arguments, which stand one after another.
    pub first_argument: StaticId,
    /// The number of its static arguments.
    pub arguments: usize,
    /// The number of times that an iterated node is called; none for a call.
    pub count: Option<StaticId>,
}

/// The purpose of a static expression.
#[derive(Clone, Copy)]
pub enum Role<'s> {
    /// The size of `e ^ n` or of an iterator.
    Size,
    /// An index.
    Index,
    /// The first end of a slice.
    SliceStart,
    /// The last end of a slice with this first end.
    SliceEnd(&'s Static),
    /// A size of a declared type.
    Dimension,
    /// A static argument of a call or an iterated node.
    Argument,
    /// A static parameter or a constant that an expression names.
    Value,
}

/// A static expression as it is written, or a name that is an expression by itself.
#[derive(Clone, Copy)]
pub enum StaticText<'s> {
    Written(&'s Static),
    Named(&'s Name),
}

/// A static expression of a node, and its purpose.
#[derive(Clone, Copy)]
pub struct StaticPart<'s> {
    pub role: Role<'s>,
    pub text: StaticText<'s>,
}

/// A node or function whose names are resolved.
#[derive(Drop)]
pub struct ResolvedNode<'s> {
    pub tree: &'s Node,
    /// The inputs, then the outputs, then the locals.
    pub variables: Vec<Variable>,
    /// The number of inputs among the variables.
    pub inputs: usize,
    /// The number of outputs among the variables.
    pub outputs: usize,
    /// The statements, in text order.
    pub body: Vec<ResolvedStatement>,
    /// The calls and iterated nodes, in text order, each before those in its arguments.
    pub calls: Vec<CallSite>,
    /// The static expressions: those of declarations first, then those of the body in text order.
    /// Of equal ones in expressions only the first is kept.
    pub statics: Vec<StaticPart<'s>>,
}
