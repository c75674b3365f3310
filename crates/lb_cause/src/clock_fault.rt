//! A fault of clocks, and its place (E10).

use lb_check::Part;
use lb_static::CallPath;
use std::fmt;

/// A variable that is waited for, and whether for true or for false.
#[derive(Drop)]
pub struct ClockSign {
    pub variable: String,
    pub sign: bool,
}

/// A clock of a node. Without signs it is the base clock; else the last variable has its sign where
/// the variables before it have theirs.
#[derive(Drop)]
pub struct SourceClock {
    pub signs: Vec<ClockSign>,
}

impl fmt::Display for ClockSign {
    fn fmt<W: fmt::Write>(&self, f: &mut fmt::Formatter<W>) -> fmt::Result {
        let word = if self.sign { "when" } else { "when not" };
        write!(f, "{word} {}", self.variable)
    }
}

impl fmt::Display for SourceClock {
    fn fmt<W: fmt::Write>(&self, f: &mut fmt::Formatter<W>) -> fmt::Result {
        f.write_str("base")?;
        for sign in &self.signs {
            write!(f, " {sign}")?;
        }
        Ok(())
    }
}

/// The rule of clocks that is broken. Operands, arguments and left variables count from 1.
#[derive(Clone, Copy, Debug)]
pub enum ClockRule {
    /// An operand of an operator, which is on another clock than those before it: of `if` the two
    /// branches come first, then the condition.
    Operand(usize),
    /// An argument of a call or of an iterator, which is on another clock than its parameter.
    Argument(usize),
    /// An argument that is no variable, though a parameter waits for its input.
    ClockArgument(usize),
    /// An operand of `when`, which is on another clock than the variable.
    When,
    /// An operand of `current`, which is on the base clock, or on a clock that nothing determines.
    Current,
    /// An iterated node, of which a parameter has a clock of its own.
    IteratedNode,
    /// A left variable of an equation, which is on another clock than the right side.
    Left(usize),
    /// The variable of the declared clock of an input, which is no input, or of an output, which is
    /// a local.
    Interface,
    /// A declared clock that leads in a circle.
    Circle,
}

/// A rule of clocks that is broken (E10), and where. Places are offsets in the source text, in
/// bytes.
pub struct ClockFault {
    /// The name of the node in which it is.
    pub node: String,
    /// The statement that breaks the rule, or the variable whose declared clock does.
    pub part: Part,
    /// The offset of that part.
    pub part_offset: u32,
    /// The rule that is broken.
    pub rule: ClockRule,
    /// The offset of what is at fault.
    pub offset: u32,
    /// The offset of the sign of the operator whose operand is at fault, if it has one between its
    /// operands.
    pub sign_offset: Option<u32>,
    /// The clock of what is at fault: none where nothing determines it.
    pub found: Option<SourceClock>,
    /// The clock that would be right, where there is one.
    pub wanted: Option<SourceClock>,
    /// The calls by which an instance of the node is reached.
    pub path: CallPath,
}

// Not derived, so that a caller drops it in one step.
impl Drop for ClockFault {
    fn drop(self) {
        let ClockFault {
            node: _,
            part: _,
            part_offset: _,
            rule: _,
            offset: _,
            sign_offset: _,
            found: _,
            wanted: _,
            path: _,
        } = self;
    }
}

impl fmt::Display for ClockFault {
    fn fmt<W: fmt::Write>(&self, f: &mut fmt::Formatter<W>) -> fmt::Result {
        let node = self.node.as_str();
        write!(
            f,
            "an expression, a call or a declared clock breaks a rule of clocks in the node {node}"
        )
    }
}
