//! Common mistakes for which a source is refused with E2, and how to mend them.

use crate::bytes::{byte_at, count, part};
use crate::lexeme::{Lexeme, Sort, last_before, token_at};
use crate::words::{is_same, mend_of_word};
use lb_syntax::is_sign;

/// A token that is refused.
#[derive(Clone, Copy)]
pub struct Refused<'t> {
    pub text: &'t [u8],
    /// The place from which tokens are read to find those before it.
    pub from: usize,
    /// The token before it; the end of the text where there is none.
    pub last: Lexeme,
    pub found: Lexeme,
    /// The tokens that are expected in its place; empty where they are not known.
    pub expected: &'static str,
}

impl Refused<'_> {
    /// The token that was found, as a word.
    fn found_word(&self) -> &str {
        self.found.word(self.text)
    }

    /// The token before it, as a word.
    fn last_word(&self) -> &str {
        self.last.word(self.text)
    }

    /// The token before another one.
    fn before(&self, token: &Lexeme) -> Lexeme {
        last_before(self.text, self.from, token.start)
    }
}

/// Two texts, and how to mend them where they stand together.
type Mend = (&'static str, &'static str, &'static str);

/// The mend of two texts; empty where the table does not have them.
fn mend_among(mends: &[Mend], first: &str, second: &str) -> &'static str {
    for (one, other, mend) in mends {
        if is_same(*one, first) && is_same(*other, second) {
            return *mend;
        }
    }
    ""
}

/// Two tokens that other languages write together.
static PAIRS: [Mend; 8] = [
    ("|", "|", "disjunction is written `or`"),
    ("=", "=", "equality is written `=`"),
    ("/", "=", "unequal is written `<>`"),
    ("=", ">=", "`=>` is the implication"),
    ("=", "<", "less or equal is written `<=`"),
    ("*", "*", "there is no power; write a product"),
    (
        "and",
        "then",
        "write `and`; both of its sides are evaluated",
    ),
    ("or", "else", "write `or`; both of its sides are evaluated"),
];

/// The help for a comment of another language.
const COMMENT: &str = "a comment is written `-- ..` or `(* .. *)`";

/// Whether two `/` stand together, of which one was found.
fn are_slashes(refused: &Refused<'_>) -> bool {
    let is_next = byte_at(refused.text, refused.found.end) == b'/';
    is_same(refused.found_word(), "/") && (is_next || is_same(refused.last_word(), "/"))
}

/// The mend of what stands right behind a number; empty for what may follow one.
fn mend_of_number(refused: &Refused<'_>) -> &'static str {
    let word = refused.found_word();
    if is_same(word, ".") || is_same(word, "..") {
        return "real numbers are not in the language; scale them to int";
    }
    if refused.found.sort == Sort::Name && refused.found.start == refused.last.end {
        return "a number has decimal digits alone";
    }
    ""
}

/// The mend of two tokens that other languages write together; empty for other tokens.
fn mend_of_pair(refused: &Refused<'_>) -> &'static str {
    if are_slashes(refused) {
        return COMMENT;
    }
    let mend = match refused.last.sort {
        Sort::Number => mend_of_number(refused),
        _ => "",
    };
    if !mend.is_empty() {
        return mend;
    }
    mend_among(&PAIRS, refused.last_word(), refused.found_word())
}

/// Whether an operator is refused where operators could stand: it does not group with those before.
pub fn does_not_group(refused: &Refused<'_>) -> bool {
    let is_infix = refused.found.sort == Sort::Mark && is_sign(refused.found.of(refused.text));
    is_infix && refused.expected.ends_with("or an operator")
}

/// Whether `when` or `when not` stands before a token.
fn is_waited(refused: &Refused<'_>, token: &Lexeme) -> bool {
    let before = refused.before(token);
    let word = if before.is(refused.text, b"not".as_slice()) {
        refused.before(&before)
    } else {
        before
    };
    word.is(refused.text, b"when".as_slice())
}

/// Whether the token before the one that was found is a name behind `when (`.
fn is_waited_in_group(refused: &Refused<'_>) -> bool {
    let before = refused.before(&refused.last);
    before.is(refused.text, b"(".as_slice()) && is_waited(refused, &before)
}

/// Whether a token is refused in the clock behind a `when`, or as a part of it.
fn is_in_clock(refused: &Refused<'_>) -> bool {
    let last = refused.last;
    if is_waited(refused, &refused.found) {
        return true;
    }
    if last.is(refused.text, b"(".as_slice()) {
        return is_waited(refused, &last);
    }
    if last.sort != Sort::Name {
        return false;
    }
    let opens = matches!(refused.found_word(), "(" | "[");
    is_waited_in_group(refused) || opens && is_waited(refused, &last)
}

/// The help for a clock that is no variable.
const CLOCK: &str = "`when` takes a Boolean variable: `x when c`, `x when not c`";

/// The help where an equation is meant.
const EQUATION: &str = "an equation is written `x = e;`";

/// The help where a type stands before its name.
const BEHIND: &str = "a type stands behind the name: `x: int`";

/// The help where `tel`, and where `let` is missing.
const TEL: &str = "the equations of a node end with tel";

const LET: &str = "the equations of a node begin with let";

/// The help for a declaration behind `let`.
const LOCALS: &str = "locals are declared before let: `var x: int;`";

/// The tokens that are expected at a place, and a token that stands there instead. A text that
/// ends is the token ``.
static PLACES: [Mend; 40] = [
    (
        "`const`, `node`, `function` or the end of the text",
        "trace",
        "these are traces; a source comes first, then its traces",
    ),
    ("`,` or `=`", ":", EQUATION),
    ("`,` or `=`", "+", EQUATION),
    ("`,` or `=`", "-", EQUATION),
    ("`,` or `=`", "*", EQUATION),
    ("`,` or `=`", "<", EQUATION),
    (
        "`,` or `=`",
        "[",
        "an equation defines a whole array: `x = [a, b];`",
    ),
    ("`,` or `=`", ".", "structures are not in the language"),
    (
        "a name, `(`, `assert` or `tel`",
        "if",
        "`if` chooses a value: `x = if c then a else b;`",
    ),
    ("a name, `(`, `assert` or `tel`", "var", LOCALS),
    ("a name, `(`, `assert` or `tel`", "int", LOCALS),
    ("a name, `(`, `assert` or `tel`", "bool", LOCALS),
    ("a name, `(`, `assert` or `tel`", "const", OUTSIDE),
    ("a name, `(`, `assert` or `tel`", "node", TEL),
    ("a name, `(`, `assert` or `tel`", "function", TEL),
    ("a name, `(`, `assert` or `tel`", "", TEL),
    (
        "`^`, `when`, `;` or `)`",
        ",",
        "variables of one type are parted by `,`, and others by `;`",
    ),
    (
        "`^`, `when` or `;`",
        "=",
        "a variable has its value from an equation behind let: `x = e;`",
    ),
    ("a name or `)`", "int", BEHIND),
    ("a name or `)`", "bool", BEHIND),
    ("a name", "int", BEHIND),
    ("a name", "bool", BEHIND),
    ("`,` or `:`", "int", BEHIND),
    ("`,` or `:`", "bool", BEHIND),
    ("`,` or `:`", "=", "equations stand between let and tel"),
    ("`var` or `let`", "const", OUTSIDE),
    (
        "`;` or an operator",
        ".",
        "structures are not in the language",
    ),
    (
        "`;` or an operator",
        ">>",
        "there are no shifts; multiply or divide",
    ),
    (
        "`else` or an operator",
        ";",
        "`if` has a value in both cases: `if c then a else b`",
    ),
    (
        "`)` or an operator",
        ",",
        "there are no tuples; write an equation for each value",
    ),
    ("`<<`, `,` or `;`", ">>", ITERATOR),
    ("`,` or `;`", ">>", ITERATOR),
    ("`,` or `;`", "(", ITERATOR),
    ("`int`", "bool", STATIC),
    ("a number, a name, `-` or `(`", "true", STATIC),
    ("a number, a name, `-` or `(`", "false", STATIC),
    (
        "an expression",
        "fby",
        "`fby` stands between two values: `0 fby x`",
    ),
    ("an expression", "+", "a number has no `+` before it"),
    (
        "an expression",
        ".",
        "real numbers are not in the language; scale them to int",
    ),
    (
        "an expression",
        "int",
        "`if b then 1 else 0` makes an int of a bool",
    ),
];

/// The help for an iterator without a size.
const ITERATOR: &str = "an iterator has a size: `map<<f, 3>>(A)`";

/// The help for a constant in a node.
const OUTSIDE: &str = "constants are declared outside of nodes";

/// The help for a constant that is no int.
const STATIC: &str = "constants and static values are int; write `true` or `false` itself";

/// The tokens that are expected at a place, and a word that stands before the one that was found.
static WORDS: [Mend; 5] = [
    (
        "`,` or `=`",
        "return",
        "an output has its value from an equation: `ok = e;`",
    ),
    ("`,` or `=`", "for", LOOP),
    ("`,` or `=`", "while", LOOP),
    ("`,` or `=`", "switch", CHOICE),
    ("`;` or an operator", "case", CHOICE),
];

/// The help for a loop, and for a choice.
const LOOP: &str = "there are no loops; map, red and fill run over arrays";

const CHOICE: &str = "`if` chooses a value: `if c then a else b`";

/// Whether an equation begins where `let` is expected.
fn lacks_let(refused: &Refused<'_>) -> bool {
    let next = token_at(refused.text, refused.found.end);
    refused.found.sort == Sort::Name
        && next.is(refused.text, b"=".as_slice())
        && matches!(refused.expected, "`var` or `let`" | "`;`, `var` or `let`")
}

/// Whether a `;` is expected, to end a statement or a declaration.
fn awaits_end(expected: &str) -> bool {
    matches!(
        expected,
        "`;`"
            | "`;` or an operator"
            | "`^`, `when` or `;`"
            | "`;` or an operator of static expressions"
    )
}

/// Whether a token may begin what stands behind a `;`.
fn begins_next(refused: &Refused<'_>) -> bool {
    const WORDS: [&[u8]; 7] = [
        b"tel",
        b"let",
        b"var",
        b"assert",
        b"const",
        b"node",
        b"function",
    ];
    refused.found.sort == Sort::Name || refused.found.is_among(refused.text, &WORDS)
}

/// Whether a `;` may be missing at the end of a line above the token that was found.
fn lacks_semicolon(refused: &Refused<'_>) -> bool {
    let between = part(refused.text, refused.last.end, refused.found.start);
    awaits_end(refused.expected) && begins_next(refused) && count(between, b'\n') > 0
}

/// The mend of a token by the tokens that are expected in its place; empty where it is no common
/// mistake.
fn mend_of_place(refused: &Refused<'_>) -> &'static str {
    let expected = if refused.expected.starts_with("an expression") {
        "an expression"
    } else {
        refused.expected
    };
    let mend = mend_among(&PLACES, expected, refused.found_word());
    if !mend.is_empty() {
        return mend;
    }
    mend_among(&WORDS, expected, refused.last_word())
}

/// The mend of a token that was found where another one is missing, or that is a word of another
/// language; empty where it is no common mistake.
fn mend_of_words(refused: &Refused<'_>) -> &'static str {
    let word = mend_of_word(refused.found.of(refused.text));
    if !word.is_empty() {
        return word;
    }
    if does_not_group(refused) {
        return "this operator does not group with the one before it; write parentheses";
    }
    if lacks_semicolon(refused) {
        return "a `;` may be missing at the end of the line above";
    }
    if lacks_let(refused) {
        return LET;
    }
    mend_of_word(refused.last.of(refused.text))
}

/// The mend of the token that was found; empty where it is no common mistake.
pub fn mend_of(refused: &Refused<'_>) -> &'static str {
    let pair = mend_of_pair(refused);
    if !pair.is_empty() {
        return pair;
    }
    if is_in_clock(refused) {
        return CLOCK;
    }
    let place = mend_of_place(refused);
    if !place.is_empty() {
        return place;
    }
    mend_of_words(refused)
}
