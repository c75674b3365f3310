//! Tokens.

ghost use Rattle.std.specs.Prelude.{◌≡◌};

use crate::tree::{Name, Offset};
use std::marker::Model;

/// A reserved word or a symbol.
#[derive(Clone, Copy, PartialEq, Eq)]
pub enum Mark {
    /// `and`
    And,
    /// `assert`
    Assert,
    /// `bool`
    Bool,
    /// `const`
    Const,
    /// `current`
    Current,
    /// `div`
    Div,
    /// `else`
    Else,
    /// `false`
    False,
    /// `fby`
    Fby,
    /// `function`
    Function,
    /// `if`
    If,
    /// `int`
    Int,
    /// `let`
    Let,
    /// `mod`
    Mod,
    /// `node`
    Node,
    /// `nor`
    Nor,
    /// `not`
    Not,
    /// `or`
    Or,
    /// `pre`
    Pre,
    /// `returns`
    Returns,
    /// `tel`
    Tel,
    /// `then`
    Then,
    /// `true`
    True,
    /// `var`
    Var,
    /// `when`
    When,
    /// `xor`
    Xor,
    /// `->`
    Arrow,
    /// `=>`
    Implies,
    /// `<>`
    Unequal,
    /// `<=`
    AtMost,
    /// `>=`
    AtLeast,
    /// `<<`
    OpenStatic,
    /// `>>`
    CloseStatic,
    /// `..`
    DotDot,
    /// `.`
    Dot,
    /// `;`
    Semicolon,
    /// `:`
    Colon,
    /// `,`
    Comma,
    /// `(`
    Open,
    /// `)`
    Close,
    /// `[`
    OpenBracket,
    /// `]`
    CloseBracket,
    /// `=`
    Equal,
    /// `<`
    Less,
    /// `>`
    Greater,
    /// `+`
    Plus,
    /// `-`
    Minus,
    /// `*`
    Star,
    /// `/`
    Slash,
    /// `^`
    Caret,
    /// `|`
    Bar,
    /// `#`
    Hash,
}

/// A token of a source text.
#[derive(Drop)]
pub enum Token {
    /// A letter or `_`, then letters, digits and `_`, that is no reserved word.
    Name(Name),
    /// The value of some digits, or 2147483648 where they stand for more than 2147483647.
    Literal(u32),
    /// A reserved word or a symbol.
    Mark(Mark),
}

/// A token with the offset at which it begins. In contracts it is the token alone.
#[derive(Drop)]
pub struct PlacedToken {
    token: Token,
    start: Offset,
}

impl Model for PlacedToken {
    ghost use Rattle.lb_syntax.specs.declared.token.Token.{Token as AToken};

    ghost Value = { AToken };

    ghost view = { λ t. t.token };
}

impl PlacedToken {
    /// The token `token`, whose first byte stands at the offset `start`.
    pub fn new(token: Token, start: Offset) -> PlacedToken
        ensures { result ≡ token }
    {
        PlacedToken { token, start }
    }

    /// The token itself.
    pub fn token(&self) -> &Token
        ensures { result.now ≡ self.now }
    {
        &self.token
    }

    /// The offset of its first byte.
    pub fn start(&self) -> Offset {
        self.start
    }
}
