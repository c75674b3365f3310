//! Whether the words ask for explanations.

ghost use Rattle.std.specs.Prelude.{◌≡◌, map, string_bytes};
ghost use Rattle.lb_words.specs.Words.{asks_for_all, asks_to_explain};

/// The option that asks for explanations, and the one that asks for those of all traces.
const ASKED: &str = "--explain";

const ASKED_ALL: &str = "--explain-all";

/// Whether one of the words asks for explanations.
pub fn asks_to_explain(mut words: &[String]) -> bool
    ensures { result ≡ asks_to_explain (map string_bytes words.entry.now) }
{
    while let [word, rest @ ..] = words {
        if word.as_str() == ASKED || word.as_str() == ASKED_ALL {
            return true;
        }
        words = rest;
    }
    false
}

/// Whether one of the words asks for the explanations of all traces.
pub fn asks_for_all(mut words: &[String]) -> bool
    ensures { result ≡ asks_for_all (map string_bytes words.entry.now) }
{
    while let [word, rest @ ..] = words {
        if word.as_str() == ASKED_ALL {
            return true;
        }
        words = rest;
    }
    false
}
