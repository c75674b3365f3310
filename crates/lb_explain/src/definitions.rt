//! E11: a variable that does not have exactly one definition, and a function with memory.

use crate::excerpt::put_bytes;
use crate::marking::{put_marked, put_note, word_of};
use crate::page::Page;
use crate::paths::put_path;
use lb_cause::{DefinitionFault, DefinitionRule};
use lb_places::Text;

/// The most definitions that are shown.
const MOST: usize = 6;

/// The rule that is broken, in words, before and behind the name or the word that it is about.
fn words_of(rule: DefinitionRule) -> (&'static str, &'static str) {
    match rule {
        DefinitionRule::Undefined => ("`", "` is never defined\n"),
        DefinitionRule::Doubled => ("`", "` is defined more than once\n"),
        DefinitionRule::DefinedInput => ("`", "` is an input, and is defined\n"),
        DefinitionRule::NodeCall => ("a function calls functions alone, and `", "` is a node\n"),
        DefinitionRule::Memory => ("a function has no memory, and `", "` has one\n"),
    }
}

/// Puts the rule that is broken.
fn put_rule(page: &mut Page, text: &Text<'_>, fault: &DefinitionFault) {
    let (front, end) = words_of(fault.rule);
    page.put(front);
    match fault.rule {
        DefinitionRule::Memory => put_bytes(page, word_of(text, fault.offset)),
        _ => page.put(fault.name.as_str()),
    }
    page.put(end);
}

/// Puts where a variable is defined.
fn put_definitions(page: &mut Page, text: &Text<'_>, fault: &DefinitionFault) {
    for (place, offset) in fault.definitions.iter().enumerate() {
        if place < MOST {
            put_note(page, text, *offset);
            page.put("it is defined here\n");
        }
    }
}

/// How to mend it, for common mistakes; else empty.
fn mend_of(rule: DefinitionRule) -> &'static str {
    match rule {
        DefinitionRule::Memory | DefinitionRule::NodeCall => {
            "help: declare it by `node` instead of `function`\n"
        }
        _ => "",
    }
}

/// Explains E11.
pub fn explain_definition(page: &mut Page, text: &Text<'_>, fault: &DefinitionFault) {
    put_rule(page, text, fault);
    put_marked(page, text, fault.offset);
    put_definitions(page, text, fault);
    page.put(mend_of(fault.rule));
    put_path(page, text, &fault.path);
}
