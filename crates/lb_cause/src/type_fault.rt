//! A fault of types, and its place (E9).

use lb_check::Part;
use lb_static::CallPath;
use lb_syntax::Kind;
use std::fmt;

/// A type as it is written, such as `int^3^2`.
#[derive(Drop)]
pub struct SourceType {
    pub kind: Kind,
    /// The sizes of an array, the outermost last; a scalar has none.
    pub sizes: Vec<u64>,
}

impl fmt::Display for SourceType {
    fn fmt<W: fmt::Write>(&self, f: &mut fmt::Formatter<W>) -> fmt::Result {
        f.write_str(match self.kind {
            Kind::Int => "int",
            Kind::Bool => "bool",
        })?;
        for size in &self.sizes {
            write!(f, "^{size}")?;
        }
        Ok(())
    }
}

/// The rule of types that is broken. Operands, arguments and left variables count from 1.
#[derive(Clone, Copy, Debug)]
pub enum TypeRule {
    /// A number, a constant or a static parameter outside the range of `int`.
    Number,
    /// An operand of an operator: of `if` the condition counts first, then the two branches.
    Operand(usize),
    /// An argument of a call or of an iterator.
    Argument(usize),
    /// A call or an iterator that takes another number of arguments.
    ArgumentCount { found: usize, wanted: usize },
    /// A call with no result or with several, where one is wanted.
    ResultCount,
    /// An iterator over a node that cannot be iterated so: the accumulator is no input, or is not
    /// of the type of the first output, or there are too few or too many outputs.
    IteratedNode,
    /// An array with no element, or with more than 4,096.
    Length,
    /// An index or the ends of a slice, outside the array.
    Index,
    /// A left variable of an equation.
    Left(usize),
    /// An equation that has another number of left variables than its right side has results.
    LeftCount { found: usize, wanted: usize },
    /// The expression of an assertion.
    Assertion,
    /// The variable of a declared clock or of `when`.
    ClockVariable,
}

/// A rule of types that is broken (E9), and where. Places are offsets in the source text, in bytes.
pub struct TypeFault {
    /// The name of the node in which it is.
    pub node: String,
    /// The statement that breaks the rule, or the variable whose declared clock does.
    pub part: Part,
    /// The offset of that part.
    pub part_offset: u32,
    /// The rule that is broken.
    pub rule: TypeRule,
    /// The offset of what is at fault.
    pub offset: u32,
    /// The offset of the sign of the operator whose operand is at fault, if it has one between its
    /// operands.
    pub sign_offset: Option<u32>,
    /// The types of what is at fault: none where it has none, several of a call with several
    /// results. Of a left variable it is the type of the result for it.
    pub found: Vec<SourceType>,
    /// The type that would be right, where only one would be.
    pub wanted: Option<SourceType>,
    /// The calls by which an instance of the node is reached that breaks the rule.
    pub path: CallPath,
}

// Not derived, so that a caller drops it in one step.
impl Drop for TypeFault {
    fn drop(self) {
        let TypeFault {
            node: _,
            part: _,
            part_offset: _,
            rule: _,
            offset: _,
            sign_offset: _,
            found: _,
            wanted: _,
            path: _,
        } = self;
    }
}

impl fmt::Display for TypeFault {
    fn fmt<W: fmt::Write>(&self, f: &mut fmt::Formatter<W>) -> fmt::Result {
        let node = self.node.as_str();
        write!(
            f,
            "an expression, a left side or an assertion has the wrong type in the node {node}"
        )
    }
}
