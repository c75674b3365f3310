//! A fault of definitions or of functions, and its place (E11).

use lb_check::Part;
use lb_static::CallPath;
use std::fmt;

/// The rule of definitions or of functions that is broken.
#[derive(Clone, Copy, Debug)]
pub enum DefinitionRule {
    /// An output or a local that stands on no left side.
    Undefined,
    /// An output or a local that stands on left sides more than once.
    Doubled,
    /// An input that stands on a left side.
    DefinedInput,
    /// An operator with memory in a function: `->`, `fby`, `pre` or `current`.
    Memory,
    /// A call of a node in a function.
    NodeCall,
}

/// A rule of definitions or of functions that is broken (E11), and where. Places are offsets in the
/// source text, in bytes.
pub struct DefinitionFault {
    /// The name of the node or function in which it is.
    pub node: String,
    /// The variable with too few or too many definitions, or the statement with memory.
    pub part: Part,
    /// The offset of that part: of the name in the declaration of a variable.
    pub part_offset: u32,
    /// The rule that is broken.
    pub rule: DefinitionRule,
    /// The name of the variable, or of the node that is called; empty for an operator.
    pub name: String,
    /// The offset of what is at fault: the declaration of the variable, the operator (its sign, if
    /// that stands between its operands) or the call.
    pub offset: u32,
    /// The offsets at which the variable stands on left sides.
    pub definitions: Vec<u32>,
    /// The calls by which an instance of the node is reached.
    pub path: CallPath,
}

// Not derived, so that a caller drops it in one step.
impl Drop for DefinitionFault {
    fn drop(self) {
        let DefinitionFault {
            node: _,
            part: _,
            part_offset: _,
            rule: _,
            name: _,
            offset: _,
            definitions: _,
            path: _,
        } = self;
    }
}

impl fmt::Display for DefinitionFault {
    fn fmt<W: fmt::Write>(&self, f: &mut fmt::Formatter<W>) -> fmt::Result {
        let node = self.node.as_str();
        write!(
            f,
            "a variable has not exactly one definition, or a function has memory, in {node}"
        )
    }
}
