//! The tokens that are expected at a place in the heading of a node or among constants, by the
//! tokens before it.

use crate::lexeme::{Lexeme, Sort, token_at};

/// A list of variables, or of static parameters.
#[derive(Clone, Copy, PartialEq, Eq)]
enum List {
    Parameters,
    Inputs,
    Outputs,
    Locals,
}

/// A step of a heading: what comes next in it.
#[derive(Clone, Copy, PartialEq, Eq)]
enum Step {
    /// The name of the node, and what follows it.
    Node,
    AfterNode,
    /// `const`, the name, `:` and `int` of a static parameter, and what follows.
    Const,
    Parameter,
    ParameterColon,
    ParameterType,
    AfterParameter,
    /// `(` of the inputs, `returns`, `(` of the outputs.
    Inputs,
    Returns,
    Outputs,
    /// A variable of a list, and what follows its name, its `:` and its type.
    Variable,
    NextVariable,
    AfterVariable,
    Type,
    AfterType,
    Size,
    Clock,
    AfterClock,
    /// After the outputs, and after the `;` that may follow them or locals.
    AfterOutputs,
    Sections,
}

/// A place of a heading.
#[derive(Clone, Copy)]
struct Place {
    step: Step,
    list: List,
    /// The number of open parentheses within a size or round a clock.
    nested: usize,
}

impl Place {
    /// The place at `step` of the same list.
    fn to(&self, step: Step) -> Place {
        Place {
            step,
            list: self.list,
            nested: 0,
        }
    }

    /// The place at `step` of `list`.
    fn into(&self, list: List, step: Step) -> Place {
        Place {
            step,
            list,
            nested: 0,
        }
    }

    /// This place with `nested` open parentheses.
    fn nest(&self, nested: usize) -> Place {
        Place {
            step: self.step,
            list: self.list,
            nested,
        }
    }

    /// The place after the `)` of a list.
    fn after_list(&self) -> Place {
        match self.list {
            List::Outputs => self.to(Step::AfterOutputs),
            _ => self.to(Step::Returns),
        }
    }

    /// The place after a `;` of a list.
    fn after_semicolon(&self) -> Place {
        match self.list {
            List::Locals => self.to(Step::Sections),
            _ => self.to(Step::NextVariable),
        }
    }

    /// The place after a token of a size or a clock.
    fn inner(&self, word: &str) -> Place {
        match word {
            "(" => self.nest(self.nested.saturating_add(1)),
            ")" if self.nested > 1 => self.nest(self.nested.saturating_sub(1)),
            ")" => self.after_inner(),
            "not" => *self,
            _ if self.nested > 0 => *self,
            _ => self.after_inner(),
        }
    }

    /// The place after a size or a clock.
    fn after_inner(&self) -> Place {
        match self.step {
            Step::Clock => self.to(Step::AfterClock),
            _ => self.to(Step::AfterType),
        }
    }

    /// The place after the token that stands behind a type, a clock or a name.
    fn ended(&self, word: &str) -> Place {
        match word {
            "^" => self.to(Step::Size),
            "when" => self.to(Step::Clock),
            ";" => self.after_semicolon(),
            ")" => self.after_list(),
            ":" => self.to(Step::Type),
            _ => self.to(Step::Variable),
        }
    }

    /// The place after a token of the static parameters.
    fn parameter(&self, word: &str) -> Place {
        match self.step {
            Step::Const => self.to(Step::Parameter),
            Step::Parameter => self.to(Step::ParameterColon),
            Step::ParameterColon => self.to(Step::ParameterType),
            Step::ParameterType => self.to(Step::AfterParameter),
            _ if word == ">>" => self.to(Step::Inputs),
            _ => self.to(Step::Const),
        }
    }

    /// The place after a token between the lists.
    fn between(&self, word: &str) -> Place {
        match word {
            "<<" => self.into(List::Parameters, Step::Const),
            "(" if self.step == Step::Outputs => self.into(List::Outputs, Step::Variable),
            "(" => self.into(List::Inputs, Step::NextVariable),
            "returns" => self.to(Step::Outputs),
            "var" => self.into(List::Locals, Step::Variable),
            ";" => self.to(Step::Sections),
            _ => self.to(Step::AfterVariable),
        }
    }

    /// The place after a token.
    fn after(&self, word: &str) -> Place {
        match self.step {
            Step::Node => self.to(Step::AfterNode),
            Step::Const | Step::Parameter | Step::ParameterColon => self.parameter(word),
            Step::ParameterType | Step::AfterParameter => self.parameter(word),
            Step::Variable => self.to(Step::AfterVariable),
            Step::NextVariable if word == ")" => self.after_list(),
            Step::NextVariable => self.to(Step::AfterVariable),
            Step::Type => self.to(Step::AfterType),
            Step::AfterVariable | Step::AfterType | Step::AfterClock => self.ended(word),
            Step::Size | Step::Clock => self.inner(word),
            _ => self.between(word),
        }
    }

    /// The tokens that are expected behind a type of the list, or behind a clock.
    fn ends(&self, after_type: bool) -> &'static str {
        match (self.list, after_type) {
            (List::Locals, true) => "`^`, `when` or `;`",
            (List::Locals, false) => "`;`",
            (_, true) => "`^`, `when`, `;` or `)`",
            (_, false) => "`;` or `)`",
        }
    }

    /// The tokens that are expected here, in the lists.
    fn in_lists(&self) -> &'static str {
        match self.step {
            Step::Variable => "a name",
            Step::NextVariable => "a name or `)`",
            Step::AfterVariable => "`,` or `:`",
            Step::Type => "`int` or `bool`",
            Step::AfterType => self.ends(true),
            Step::AfterClock => self.ends(false),
            Step::Size if self.nested == 0 => "a number, a name or `(`",
            Step::Clock if self.nested == 0 => "`not`, a name or `(`",
            Step::AfterOutputs => "`;`, `var` or `let`",
            Step::Sections if self.list == List::Locals => "a name, `var` or `let`",
            Step::Sections => "`var` or `let`",
            _ => "",
        }
    }

    /// The tokens that are expected here; empty where they are not known.
    fn expected(&self) -> &'static str {
        match self.step {
            Step::Node | Step::Parameter => "a name",
            Step::AfterNode => "`<<` or `(`",
            Step::Const => "`const`",
            Step::ParameterColon => "`:`",
            Step::ParameterType => "`int`",
            Step::AfterParameter => "`,`, `;` or `>>`",
            Step::Inputs | Step::Outputs => "`(`",
            Step::Returns => "`returns`",
            _ => self.in_lists(),
        }
    }
}

/// The tokens that are expected at a place of the heading whose first word stands at `start`.
pub fn expected_in_heading(text: &[u8], start: usize, place: usize) -> &'static str {
    let word = token_at(text, start);
    let mut here = Place {
        step: Step::Node,
        list: List::Inputs,
        nested: 0,
    };
    let mut at = word.end;
    for _turn in start..place {
        let token = token_at(text, at);
        if token.start >= place {
            return here.expected();
        }
        here = here.after(token.word(text));
        at = token.end;
    }
    here.expected()
}

/// The position of a place in a constant: before its value, with the tokens that are expected
/// there, or in its value, with the start of the value.
pub enum InConstant {
    Before(&'static str),
    Value(usize),
}

/// The tokens that are expected after a token of a constant.
fn after_constant_token(text: &[u8], token: &Lexeme) -> &'static str {
    match token.word(text) {
        ":" => "`int`",
        "int" => "`=`",
        _ if token.sort == Sort::Name => "`:` or `=`",
        _ => "",
    }
}

/// The position of a place in the constant that begins at `start`.
pub fn constant_at(text: &[u8], start: usize, place: usize, is_first: bool) -> InConstant {
    let mut expected = if is_first {
        "a name"
    } else {
        "a name, `const`, `node`, `function` or the end of the text"
    };
    let mut at = start;
    for _turn in start..place {
        let token = token_at(text, at);
        if token.start >= place {
            return InConstant::Before(expected);
        }
        if token.is(text, b"=".as_slice()) {
            return InConstant::Value(token.end);
        }
        expected = after_constant_token(text, &token);
        at = token.end;
    }
    InConstant::Before(expected)
}
