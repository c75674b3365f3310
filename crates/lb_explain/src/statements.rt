//! The tokens that are expected at a place in a statement or in a constant's value, by the tokens
//! before it.

use crate::lexeme::{Lexeme, Sort, token_at};
use crate::page::Page;

/// A bracket, an `if` or a `then` that is open at a place of an expression.
#[derive(Clone, Copy, PartialEq, Eq)]
enum Open {
    /// Parentheses: of a call where a name or `>>` stands before them.
    Group,
    Call,
    /// Parentheses round the variable of a `when`, and within a static expression.
    Clock,
    StaticGroup,
    /// The brackets of an array, and those of an index.
    Array,
    Index,
    Static,
    /// `<<` after `map`, `red` or `fill`.
    Iterator,
    /// After `if`, and after `then`.
    Condition,
    Choice,
}

/// The kind of the last token.
#[derive(Clone, Copy, PartialEq, Eq)]
enum Last {
    /// None: a statement begins.
    Start,
    /// A name, and the end of another operand.
    Name,
    Operand,
    /// `>>`, behind which arguments stand.
    Arguments,
    When,
    /// `not` after `when`.
    WhenNot,
    Caret,
    /// `#` or `nor`.
    Counted,
    /// `<<` after `map`, `red` or `fill`, then the name behind it, or the whole that is applied.
    Applied,
    AppliedName,
    Iterated,
    /// `(` of a call.
    Call,
    /// A token that an operand follows.
    Operator,
}

/// The state behind the tokens of a statement that were read so far.
#[derive(Drop)]
struct Reading {
    opened: Vec<Open>,
    last: Last,
    /// Whether the `=` of an equation, or `assert`, has come.
    is_right: bool,
    /// Whether the last name is one of the iterators.
    is_iterator: bool,
    /// Whether memory ran out, so that what is open is not known.
    is_cut: bool,
}

impl Reading {
    /// The bracket, `if` or `then` that is open innermost.
    fn innermost(&self) -> Option<Open> {
        match self.opened.as_slice() {
            [.., last] => Some(*last),
            [] => None,
        }
    }

    /// Whether a static expression is open innermost.
    fn is_static(&self) -> bool {
        matches!(
            self.innermost(),
            Some(Open::Static | Open::Iterator | Open::Index | Open::StaticGroup)
        )
    }

    /// Closes the innermost bracket, and the `if` and `then` that are open in it.
    fn close(&mut self) {
        for _turn in 0..self.opened.len() {
            match self.opened.pop() {
                Some(Open::Condition | Open::Choice) => {}
                _ => return,
            }
        }
    }

    /// Opens `open`, by a token of kind `last`.
    fn put(&mut self, open: Open, last: Last) {
        self.last = last;
        self.is_cut |= self.opened.push(open).is_err();
    }

    /// Opens a parenthesis.
    fn open_group(&mut self) {
        match self.last {
            Last::Name | Last::Arguments => self.put(Open::Call, Last::Call),
            Last::Counted => self.put(Open::Call, Last::Operator),
            Last::When | Last::WhenNot => self.put(Open::Clock, Last::Operator),
            Last::Caret => self.put(Open::StaticGroup, Last::Operator),
            _ if self.is_static() => self.put(Open::StaticGroup, Last::Operator),
            _ => self.put(Open::Group, Last::Operator),
        }
    }

    /// Opens a bracket.
    fn open_bracket(&mut self) {
        match self.last {
            Last::Name | Last::Operand => self.put(Open::Index, Last::Operator),
            _ => self.put(Open::Array, Last::Operator),
        }
    }

    /// Opens static brackets.
    fn open_static(&mut self) {
        if self.is_iterator {
            self.put(Open::Iterator, Last::Applied);
        } else {
            self.put(Open::Static, Last::Operator);
        }
    }

    /// Ends the condition or the choice that is open innermost.
    fn end_innermost(&mut self) {
        let _before = self.opened.pop();
        self.last = Last::Operator;
    }

    /// Ends the condition at `then`, and begins the choice.
    fn choose(&mut self) {
        self.end_innermost();
        self.put(Open::Choice, Last::Operator);
    }

    /// Takes `assert`, or an equals sign: that of the equation, or an operator.
    fn equal(&mut self) {
        self.last = Last::Operator;
        self.is_right = true;
    }

    /// Takes an operator: in an expression, or the one that an iterator applies.
    fn operator(&mut self) {
        self.last = if self.last == Last::Applied {
            Last::Iterated
        } else {
            Last::Operator
        };
    }

    /// Closes static brackets.
    fn close_static(&mut self) {
        self.close();
        self.last = match self.innermost() {
            Some(Open::Iterator) => Last::Iterated,
            _ => Last::Arguments,
        };
    }

    /// Takes a name.
    fn name(&mut self, word: &str) {
        let is_applied = self.last == Last::Applied;
        self.is_iterator = !is_applied && matches!(word, "map" | "red" | "fill");
        self.last = if is_applied {
            Last::AppliedName
        } else {
            Last::Name
        };
    }

    /// Closes a bracket, by a token of kind `last`.
    fn closed(&mut self, last: Last) {
        self.close();
        self.last = last;
    }

    /// Takes a bracket or an operator.
    fn bracket(&mut self, word: &str) {
        match word {
            "(" => self.open_group(),
            "[" => self.open_bracket(),
            "<<" => self.open_static(),
            ">>" => self.close_static(),
            ")" | "]" => self.closed(Last::Operand),
            _ => self.operator(),
        }
    }

    /// Takes a reserved word or a symbol.
    fn mark(&mut self, word: &str) {
        match word {
            "if" => self.put(Open::Condition, Last::Operator),
            "then" => self.choose(),
            "else" => self.end_innermost(),
            "=" | "assert" => self.equal(),
            "true" | "false" => self.last = Last::Operand,
            "when" => self.last = Last::When,
            "^" => self.last = Last::Caret,
            "#" | "nor" => self.last = Last::Counted,
            "not" if self.last == Last::When => self.last = Last::WhenNot,
            "," | ";" => self.last = Last::Operator,
            _ => self.bracket(word),
        }
    }

    /// Takes a token.
    fn take(&mut self, text: &[u8], token: &Lexeme) {
        let word = token.word(text);
        match token.sort {
            Sort::Mark => self.mark(word),
            Sort::Name => self.name(word),
            _ => self.last = Last::Operand,
        }
    }

    /// The tokens that are expected where an operand begins.
    fn operand(&self) -> &'static str {
        match self.innermost() {
            Some(Open::Clock) => "a name",
            _ if self.is_static() => "a number, a name, `-` or `(`",
            _ => "an expression",
        }
    }

    /// The tokens that are expected where an operand ends.
    fn after_operand(&self) -> &'static str {
        match self.innermost() {
            Some(Open::Group) => "`)` or an operator",
            Some(Open::Call) => "`,`, `)` or an operator",
            Some(Open::Clock) => "`)`",
            Some(Open::StaticGroup) => "`)` or an operator of static expressions",
            Some(Open::Array) => "`,`, `]` or an operator",
            Some(Open::Index) => "`]`, `..` or an operator of static expressions",
            Some(Open::Static) => "`,`, `;`, `>>` or an operator of static expressions",
            Some(Open::Iterator) => "`>>` or an operator of static expressions",
            Some(Open::Condition) => "`then` or an operator",
            Some(Open::Choice) => "`else` or an operator",
            None => "`;` or an operator",
        }
    }

    /// The tokens that are expected on the right side.
    fn right(&self) -> &'static str {
        match self.last {
            Last::Name | Last::Operand => self.after_operand(),
            Last::Arguments | Last::Counted => "`(`",
            Last::When => "`not`, a name or `(`",
            Last::WhenNot => "a name or `(`",
            Last::Caret => "a number, a name or `(`",
            Last::Applied => "a name, `+`, `-`, `*`, `and`, `or` or `xor`",
            Last::AppliedName => "`<<`, `,` or `;`",
            Last::Iterated => "`,` or `;`",
            Last::Call => "an expression or `)`",
            _ => self.operand(),
        }
    }

    /// The tokens that are expected on the left side.
    fn left(&self) -> &'static str {
        match (self.last, self.innermost()) {
            (Last::Start, _) => "a name, `(`, `assert` or `tel`",
            (Last::Name, None) => "`,` or `=`",
            (Last::Name, Some(_)) => "`,` or `)`",
            (Last::Operand, _) => "`=`",
            _ => "a name",
        }
    }

    /// The tokens that are expected in a statement.
    fn in_body(&self) -> &'static str {
        if self.is_right {
            self.right()
        } else {
            self.left()
        }
    }

    /// The tokens that are expected in a static expression that ends at a `;`.
    fn in_value(&self) -> &'static str {
        match (self.last, self.innermost()) {
            (Last::Name | Last::Operand, Some(_)) => "`)` or an operator of static expressions",
            (Last::Name | Last::Operand, None) => "`;` or an operator of static expressions",
            _ => "a number, a name, `-` or `(`",
        }
    }
}

/// Reads the tokens from `start` to `place`.
fn read(text: &[u8], start: usize, place: usize, reading: &mut Reading) {
    let mut at = start;
    for _turn in start..place {
        let token = token_at(text, at);
        if token.start >= place {
            return;
        }
        reading.take(text, &token);
        at = token.end;
    }
}

/// The state behind the tokens from `start` to `place`, of a statement or, where `is_right` is
/// true, of a right side. Where memory runs out the page is cut.
fn reading_of(page: &mut Page, text: &[u8], start: usize, place: usize, is_right: bool) -> Reading {
    let mut reading = Reading {
        opened: Vec::new(page.alloc()),
        last: if is_right {
            Last::Operator
        } else {
            Last::Start
        },
        is_right,
        is_iterator: false,
        is_cut: false,
    };
    read(text, start, place, &mut reading);
    page.cut_if(reading.is_cut);
    reading
}

/// The tokens that are expected at a place of the statement that begins at `start`.
pub fn expected_in_body(page: &mut Page, text: &[u8], start: usize, place: usize) -> &'static str {
    reading_of(page, text, start, place, false).in_body()
}

/// The tokens that are expected at a place of the static expression from `start` to its `;`.
pub fn expected_in_value(page: &mut Page, text: &[u8], start: usize, place: usize) -> &'static str {
    reading_of(page, text, start, place, true).in_value()
}
