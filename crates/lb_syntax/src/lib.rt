//! The syntax of the language: tokens, trees, and the parser from a text to the one tree that it
//! spells.
#![tactic(auto)]

mod climb;
mod declaration;
mod error;
mod expression;
mod forms;
mod level;
mod lex;
mod lexicon;
mod limits;
mod list;
mod lookahead;
mod node;
mod parser;
mod place;
mod program;
mod read;
mod reader;
mod statement;
mod statics;
mod token;
mod tree;

pub use error::SyntaxError;
pub use lexicon::{is_counted, is_reserved, is_sign};
pub use parser::parse;
pub use place::{LineColumn, line_column};
pub use tree::{
    ArrayIterator, BinaryOperator, Constant, Declarations, Expr, Kind, Name, Node, Offset,
    Operator, OperatorClass, Sampling, Source, Statement, Static, UnaryOperator,
};
