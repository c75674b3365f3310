//! Words of the language, and words that are not in it.

/// Whether two texts are equal.
pub fn is_same(one: &str, other: &str) -> bool {
    one == other
}

/// Whether a word is one of `words`.
fn is_among(word: &[u8], words: &[&str]) -> bool {
    for other in words {
        if other.as_bytes() == word {
            return true;
        }
    }
    false
}

/// The mends of words of other languages, and of words that this language writes in another way.
static MENDS: [(&[&str], &str); 25] = [
    (
        &["real", "float"],
        "real numbers are not in the language; scale them to int",
    ),
    (
        &["type"],
        "named types are not in the language; write int, bool or an array of them",
    ),
    (
        &["enum"],
        "enumerations are not in the language; use bool or int with constants",
    ),
    (
        &["struct"],
        "structures are not in the language; use several variables, or an array",
    ),
    (
        &["merge"],
        "merge is not in the language; use `if` with `current`",
    ),
    (
        &["elsif", "elseif", "elif"],
        "elsif is not in the language; write `else if`",
    ),
    (
        &["include"],
        "include is not in the language; put the nodes into one file",
    ),
    (
        &["package", "model", "uses"],
        "packages are not in the language",
    ),
    (
        &["extern", "unsafe"],
        "external nodes are not in the language",
    ),
    (
        &["condact"],
        "condact is not in the language; call the node on a clock by `when`",
    ),
    (&["integer"], "write int"),
    (&["boolean"], "write bool"),
    (&["end"], "the equations of a node end with tel"),
    (&["begin"], "the equations of a node begin with let"),
    (&["return"], "write returns"),
    (&["vars"], "write var"),
    (
        &["fold", "fillred", "boolred"],
        "the iterators are map, red and fill",
    ),
    (&["with"], "recursion by with is not in the language"),
    (
        &["activate"],
        "activate is not in the language; call the node on a clock by `when`",
    ),
    (
        &["restart"],
        "restart is not in the language; give the node an input for the reset",
    ),
    (
        &["automaton"],
        "automata are not in the language; keep the state in an int",
    ),
    (
        &["last"],
        "last is not in the language; write `first -> pre x`",
    ),
    (&["implies"], "implication is written `=>`"),
    (&["rem"], "the remainder is written `mod`"),
    (&["fi", "endif"], "no word ends an `if`"),
];

/// The mend of a word that is not in the language; empty for other words.
pub fn mend_of_word(word: &[u8]) -> &'static str {
    for (words, mend) in &MENDS {
        if is_among(word, *words) {
            return *mend;
        }
    }
    ""
}
