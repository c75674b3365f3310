//! Explanations of wrong words.

ghost use Rattle.std.specs.Prelude.{◌<◌, IfOk, length};
ghost use Rattle.lb_words.specs.Words.{IsExplanation};

use lb_part::Part;
use std::alloc::{AllocError, Global};

/// The names of all options.
const NAMES: &str = "--node, --observe, --workers, --batch, --by-length, --follow, --show, \
    --format, --last, --vars, --all, --explain, --explain-all, --strict, --baseline, --part, \
    --merge, --check, --header, --version, --help";

/// Whether there is an option with a name.
fn is_known(name: &str) -> bool {
    for known in NAMES.split(", ") {
        if known == name {
            return true;
        }
    }
    false
}

/// The values that an option takes, in words; empty where it takes none.
fn values_of(name: &str) -> &'static str {
    match name {
        "--node" | "--observe" => "the name of a node",
        "--workers" => "a number from 0 to 64",
        "--batch" => "a number from 1 to 64",
        "--show" => "the name of a trace",
        "--format" => "lines or junit, and with `--show` table, csv, vcd or svg",
        "--last" => "a number from 0 to 1000000000",
        "--vars" => "names of variables, separated by commas",
        "--baseline" => "the path of an earlier report",
        "--part" => "a number, `/` and a number of parts up to 65536, as 3/16",
        "--merge" => "the paths of reports",
        _ => "",
    }
}

/// Whether a word is an option, and no path and no value; `-` alone is none.
fn is_option(word: &str) -> bool {
    word.starts_with('-') && word.len() > 1
}

/// The long name of an option, and the value that is joined to it.
fn parts_of(word: &str) -> (&str, Option<&str>) {
    let (name, joined) = match word.split_once('=') {
        Some((name, value)) => (name, Some(value)),
        None => (word, None),
    };
    match name {
        "-h" => ("--help", joined),
        "-V" => ("--version", joined),
        _ => (name, joined),
    }
}

/// Whether a value is lawful for an option.
fn is_value(name: &str, value: &str) -> bool {
    let (least, most) = match name {
        "--workers" => (0, 64),
        "--batch" => (1, 64),
        "--last" => (0, 1_000_000_000),
        "--format" => return matches!(value, "lines" | "junit" | "table" | "csv" | "vcd" | "svg"),
        "--part" => return Part::named(value).is_some(),
        _ => return true,
    };
    match value.parse::<u32>() {
        Ok(n) => least <= n && n <= most && !value.starts_with('+'),
        Err(_) => false,
    }
}

/// Whether a word that stands where a value belongs is meant as one: it has one `-` in front, as
/// `-1`, and is no option.
fn is_dashed(word: &str) -> bool {
    is_option(word) && !word.starts_with("--") && !is_known(parts_of(word).0)
}

/// A word that is no part of a lawful command line.
#[derive(Clone, Copy)]
enum Wrong<'w> {
    /// There is no such option.
    Unknown(&'w str),
    /// The word, what is wrong with it, and the values that belong there.
    Word(&'w str, &'static str, &'static str),
    /// A value, the option that it is given for, and the values that this one takes.
    Value(&'w str, &'w str, &'static str),
    /// The same for a value that begins with `-`, and would be lawful behind a `=`.
    Dashed(&'w str, &'w str, &'static str),
}

/// What is wrong with a value that begins with `-`, and does not stand behind a `=`.
fn wrong_dashed<'w>(value: &'w str, name: &'w str, values: &'static str) -> Wrong<'w> {
    if is_value(name, value) {
        return Wrong::Dashed(value, name, values);
    }
    Wrong::Value(value, name, values)
}

/// Whether an option takes the word after it, which is `next`. Its value is `joined`, where one is
/// joined to it, else that word.
fn takes_next<'w>(
    name: &'w str,
    joined: Option<&'w str>,
    next: Option<&'w str>,
) -> Result<bool, Wrong<'w>> {
    let values = values_of(name);
    if values.is_empty() {
        return match joined {
            Some(_) => Err(Wrong::Word(name, "takes no value", "")),
            None => Ok(false),
        };
    }
    let value = match joined {
        Some(value) => value,
        None => match next {
            Some(value) if !is_option(value) => value,
            Some(value) if is_dashed(value) => return Err(wrong_dashed(value, name, values)),
            _ => return Err(Wrong::Word(name, "lacks its value, ", values)),
        },
    };
    if is_value(name, value) {
        return Ok(joined.is_none());
    }
    Err(Wrong::Value(value, name, values))
}

/// Whether an option is given among some words, which are all lawful: so no value of an option
/// looks like one.
fn is_given(words: &[String], name: &str) -> bool {
    for word in words {
        if parts_of(word.as_str()).0 == name {
            return true;
        }
    }
    false
}

/// `takes_next` of the option at a place of the words, if the words before it are lawful.
fn option_at(words: &[String], place: usize) -> Result<bool, Wrong<'_>>
    requires { place < length words.now }
{
    let word = words[place].as_str();
    let (name, joined) = parts_of(word);
    if !is_known(name) {
        return Err(Wrong::Unknown(word));
    }
    let next = match words.get(place.saturating_add(1)) {
        Some(next) => Some(next.as_str()),
        None => None,
    };
    let takes_next = takes_next(name, joined, next)?;
    if is_given(&words[..place], name) {
        return Err(Wrong::Word(name, "is given twice", ""));
    }
    Ok(takes_next)
}

/// The first word that is wrong.
fn first_wrong(words: &[String]) -> Result<(), Wrong<'_>> {
    let mut paths = 0usize;
    let mut is_value = false;
    let mut is_list = false;
    for place in 0..words.len() {
        let word = words[place].as_str();
        if is_value {
            is_value = false;
        } else if is_option(word) {
            is_value = option_at(words, place)?;
            // It takes all words up to the next option.
            is_list = word == "--merge";
        } else if !is_list {
            paths = paths.saturating_add(1);
            if paths > 2 {
                let fault = "is a third path; a source and its traces are two";
                return Err(Wrong::Word(word, fault, ""));
            }
        }
    }
    Ok(())
}

/// Tells what is wrong with a word.
fn told_of(alloc: Global, wrong: &Wrong<'_>) -> Result<String, AllocError> {
    match wrong {
        Wrong::Unknown(word) => format!(in alloc;
            "there is no option `{word}`\nhelp: the options are {NAMES}\n"
        ),
        Wrong::Word(word, fault, values) => format!(in alloc; "`{word}` {fault}{values}\n"),
        Wrong::Value(value, name, values) => format!(in alloc;
            "`{value}` is no value of `{name}`, which takes {values}\n"
        ),
        Wrong::Dashed(value, name, values) => format!(in alloc;
            "`{name}` lacks its value, {values}\nhelp: a leading `-` needs `=`: `{name}={value}`\n"
        ),
    }
}

/// What some options ask of the other words, each in a line behind its name.
const RULES: &str = "\
--follow takes a worker, and no `--strict`, `--baseline` or `--format junit`
--format takes lines or junit, and with `--show` table, csv, vcd or svg
--merge takes reports, and no source, traces or `--part`
--part takes a source and a file of traces";

/// Tells that each word is lawful, but not all of them together, and what the options among them
/// ask of others.
fn told_together(alloc: Global, words: &[String]) -> Result<String, AllocError> {
    let mut page = String::from_str(alloc, "these words do not go together\n")?;
    for line in RULES.split('\n') {
        if let Some((name, rule)) = line.split_once(' ')
            && is_given(words, name)
        {
            write!(page, "help: `{name}` {rule}\n")?;
        }
    }
    Ok(page)
}

/// Tells the first word behind the program's name that the command line does not take.
fn told(alloc: Global, words: &[String]) -> Result<String, AllocError> {
    let words = match words {
        [_, words @ ..] => words,
        [] => words,
    };
    match first_wrong(words) {
        Ok(()) => told_together(alloc, words),
        Err(wrong) => told_of(alloc, &wrong),
    }
}

/// Explains E20: the first word that the command line does not take.
pub fn explain_words(alloc: Global, words: &[String]) -> Result<Vec<u8>, AllocError>
    ensures { IfOk result (λ text. IsExplanation text.items) }
{
    let wrong = told(alloc, words)?;
    let mut text = b"lbench: error: ".to_vec(alloc)?;
    text.extend_from_slice(wrong.as_bytes())?;
    Ok(text)
}
