//! The causes of refusals: which rule of names, static values and instances is broken, and where.
//!
//! Each place is a byte offset in the text of the source.

use lb_syntax::BinaryOperator;
use std::fmt;

/// The sort of thing that an unknown name had to be.
#[derive(Clone, Copy)]
pub enum Sought {
    /// A node or function: the node under test, the observer, or one that is called or iterated.
    Node,
    /// A variable, on a left side.
    Variable,
    /// A variable, as a clock.
    Clock,
    /// A variable, a static parameter or a constant, in an expression.
    Value,
    /// A static parameter or a constant, in a static expression.
    Constant,
}

/// The rule of names that a name breaks.
#[derive(Clone, Copy)]
pub enum NameRule {
    /// Nothing of this sort has the name.
    Unknown(Sought),
    /// It was declared before, at this offset.
    Doubled { first: u32 },
    /// The name is that of a node with `wanted` static parameters, called with `given` arguments.
    Arguments { wanted: usize, given: usize },
}

/// A name that breaks a rule of names (E4).
#[derive(Drop)]
pub struct NameFault {
    pub name: String,
    pub rule: NameRule,
    /// The offset of the name, or none for the name of the node under test or of the observer,
    /// which is not part of the source.
    pub offset: Option<u32>,
    /// The node in which the name stands; none for a global name, a name in the value of a
    /// constant, the node under test and the observer.
    pub node: Option<String>,
}

/// A start of a program: the node under test or the observer.
#[derive(Clone, Copy, PartialEq, Eq)]
pub enum Start {
    /// The node under test.
    UnderTest,
    /// The observer.
    Observer,
}

/// A call on the way to an instance.
#[derive(Drop)]
pub struct CallStep {
    /// The name of the called node.
    pub node: String,
    /// The offset of the name of the node in the call.
    pub offset: u32,
    /// The index of the call of an iterated node, from 0; none for a plain call.
    pub index: Option<u32>,
}

/// The path to an instance.
#[derive(Drop)]
pub struct CallPath {
    pub start: Start,
    /// The name of the node under test or of the observer.
    pub node: String,
    /// The calls, the outermost first; an empty list for the start itself.
    pub steps: Vec<CallStep>,
}

/// Shows the name of the start alone.
impl fmt::Debug for CallPath {
    fn fmt<W: fmt::Write>(&self, f: &mut fmt::Formatter<W>) -> Result<(), fmt::Error> {
        f.write_str(self.node.as_str())
    }
}

/// The rule of values that a static expression breaks.
#[derive(Drop)]
pub enum ValueRule {
    /// The result of the operator is outside the range of `int`, or its divisor is 0.
    Operator {
        operator: BinaryOperator,
        left: i64,
        right: i64,
    },
    /// The result of `-` is outside the range of `int`.
    Negation {
        operand: i64,
    },
    /// A constant needs its own value.
    Constant {
        name: String,
    },
}

/// A static expression with no value (E5).
#[derive(Drop)]
pub struct ValueFault {
    pub rule: ValueRule,
    /// The offset of the sign of the operator, or of the name of the constant in its declaration.
    /// It may be in the value of a constant that the node names.
    pub offset: u32,
    /// The node in which the static expression stands, or from which the constant is named.
    pub node: String,
    /// The path to the instance.
    pub path: CallPath,
}

/// The purpose of a value that is out of its range.
#[derive(Clone, Copy, PartialEq, Eq)]
pub enum RangeRole {
    /// The size of a declared type, of `e ^ n` or of an iterator: from 1 to 4096.
    Size,
    /// An index: from 0 to 4095.
    Index,
    /// The first end of a slice: from 0 to 4095.
    SliceStart,
    /// The last end of a slice: from the first end to 4095.
    SliceEnd,
    /// The number of elements of a variable: at most 65,536.
    Elements,
}

/// A value that is out of its range (E6).
#[derive(Drop)]
pub struct RangeFault {
    pub role: RangeRole,
    /// The offset of the static expression, or of the name of the variable with too many elements.
    pub offset: u32,
    /// The value; a number of elements above 2 ^ 63 - 1 is given as 2 ^ 63 - 1.
    pub value: i64,
    /// The least value that is in range.
    pub least: i64,
    /// The greatest value that is in range.
    pub most: i64,
    /// The node in which the static expression or the variable stands.
    pub node: String,
    /// The path to the instance.
    pub path: CallPath,
}

/// A call on a cycle of calls.
#[derive(Drop)]
pub struct CycleCall {
    /// The name of the node that calls the next one of the cycle; the last one calls the first.
    pub node: String,
    /// The offset of the name of the called node in the call.
    pub offset: u32,
}

/// A cycle of calls: each node calls the next one, and the last one calls the first (E7).
#[derive(Drop)]
pub struct CallCycle {
    pub calls: Vec<CycleCall>,
}

impl CallCycle {
    /// The name of the first node.
    pub fn first(&self) -> &str {
        match self.calls.first() {
            Some(call) => call.node.as_str(),
            None => "",
        }
    }
}

/// The rule that the node under test or the observer breaks. A variant states what ought to hold.
#[derive(Clone, Copy, PartialEq, Eq)]
pub enum RootRule {
    /// It has no static parameters.
    NoParameters,
    /// Each size of its inputs and outputs is a number.
    SizedTypes,
    /// Its inputs and outputs are on the base clock.
    BaseClock,
    /// There are at most 1,023 scalar inputs.
    FewInputs,
    /// It has one output.
    OneOutput,
    /// Its output is a scalar `bool`.
    TruthOutput,
    /// An observer has as many inputs as the node under test has inputs and outputs.
    AsManyInputs,
    /// An input of an observer has the type of the input or output that it observes.
    SameType,
}

/// The node under test or an observer whose interface is not lawful (E8).
#[derive(Drop)]
pub struct RootFault {
    pub rule: RootRule,
    pub start: Start,
    /// The name of the node.
    pub node: String,
    /// The parameter, input or output that breaks the rule; the node itself where none does.
    pub name: String,
    /// The offset of the declaration of that name.
    pub offset: u32,
}

/// A limit of instances.
#[derive(Clone, Copy)]
pub enum Limit {
    /// At most 4,096 instances.
    Instances,
    /// At most 64 levels of them.
    Levels,
}

/// An instance that is past a limit (E12).
#[derive(Drop)]
pub struct LimitFault {
    pub limit: Limit,
    /// The path to the instance.
    pub path: CallPath,
}
