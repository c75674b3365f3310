//! E4: a name that is unknown or doubled, or has the wrong number of static arguments.

use crate::clock_places::{NodeText, declaration_of};
use crate::counts::put_count;
use crate::declared::{Sorts, is_constant, nearest_of};
use crate::excerpt::put_bytes;
use crate::marking::{put_marked, put_note};
use crate::page::Page;
use crate::words::mend_of_word;
use lb_places::Text;
use lb_static::{NameFault, NameRule, Sought};

/// The words for what was looked for.
fn sought_word(sought: Sought) -> &'static str {
    match sought {
        Sought::Node => "no node or function is named",
        Sought::Variable | Sought::Clock => "no variable is named",
        Sought::Value => "no variable, static parameter or constant is named",
        Sought::Constant => "no static parameter or constant is named",
    }
}

/// The sorts of declared names that could be meant.
fn sorts_of(sought: Sought) -> Sorts {
    Sorts {
        nodes: matches!(sought, Sought::Node),
        variables: matches!(sought, Sought::Variable | Sought::Clock | Sought::Value),
        constants: matches!(sought, Sought::Value | Sought::Constant),
    }
}

/// The name of the node that a name stands in; empty where it stands in none.
fn node_of(fault: &NameFault) -> &str {
    match &fault.node {
        Some(node) => node.as_str(),
        None => "",
    }
}

/// Whether the node that a name stands in declares a variable of that name.
fn is_variable(text: &[u8], fault: &NameFault) -> bool {
    let node = NodeText::named(text, node_of(fault));
    declaration_of(&node, fault.name.as_bytes()).is_some()
}

/// Puts why a variable is no static value: it may hide a constant.
fn put_hidden(page: &mut Page, text: &[u8], fault: &NameFault) {
    let name = fault.name.as_str();
    page.put_in("help: `", name, "` is a variable of this node");
    if is_constant(text, name.as_bytes()) {
        page.put(", and hides the constant in all of it; give one of them another name\n");
    } else {
        page.put("; a size, an index or a static argument has no variable\n");
    }
}

/// Puts the declared name that is nearest to one that is unknown, or else how to declare a variable
/// that an equation defines.
fn put_nearest(page: &mut Page, text: &[u8], fault: &NameFault, sought: Sought) {
    let (node, name) = (node_of(fault).as_bytes(), fault.name.as_bytes());
    match nearest_of(text, node, name, &sorts_of(sought)) {
        Some(other) => {
            page.put("help: a similar name is `");
            put_bytes(page, other);
            page.put("`\n");
        }
        None if matches!(sought, Sought::Variable) => {
            let end = ": int;` or `: bool;`\n";
            page.put_in(
                "help: a local is declared before let, by `var ",
                fault.name.as_str(),
                end,
            );
        }
        None => {}
    }
}

/// Puts how to mend a name that is unknown, for common mistakes.
fn put_mend(page: &mut Page, text: &[u8], fault: &NameFault, sought: Sought) {
    let name = fault.name.as_bytes();
    let mend = mend_of_word(name);
    if !mend.is_empty() {
        return page.put_in("help: ", mend, "\n");
    }
    if name.eq_ignore_ascii_case(b"true") || name.eq_ignore_ascii_case(b"false") {
        return page.put("help: `true` and `false` are written in small letters\n");
    }
    if matches!(sought, Sought::Constant) && is_variable(text, fault) {
        return put_hidden(page, text, fault);
    }
    put_nearest(page, text, fault, sought);
}

/// Puts the rule that is broken.
fn put_rule(page: &mut Page, fault: &NameFault) {
    let name = fault.name.as_str();
    match fault.rule {
        NameRule::Unknown(sought) => {
            page.put(sought_word(sought));
            page.put_in(" `", name, "`\n");
        }
        NameRule::Doubled { .. } => page.put_in("`", name, "` is declared twice\n"),
        NameRule::Arguments { wanted, given } => {
            page.put_in("`", name, "` takes ");
            put_count(page, wanted, "static argument");
            page.put_number_in(", and is given ", given as u64, "\n");
        }
    }
}

/// Puts how to mend the fault, or the first declaration of the name, and the node.
fn put_further(page: &mut Page, text: &Text<'_>, fault: &NameFault) {
    match fault.rule {
        NameRule::Unknown(sought) => put_mend(page, text.bytes, fault, sought),
        NameRule::Doubled { first } => {
            put_note(page, text, first);
            page.put("it is declared here first\n");
        }
        NameRule::Arguments { .. } => {}
    }
    if let Some(node) = &fault.node {
        page.put_in("in node ", node.as_str(), "\n");
    }
}

/// Explains E4.
pub fn explain_name(page: &mut Page, text: &Text<'_>, fault: &NameFault) {
    put_rule(page, fault);
    match fault.offset {
        Some(offset) => put_marked(page, text, offset),
        None => page.put("help: --node names the node under test, --observe the observer\n"),
    }
    put_further(page, text, fault);
}
