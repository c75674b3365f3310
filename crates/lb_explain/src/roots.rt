//! E8: a node under test or an observer whose inputs or outputs are not lawful.

use crate::excerpt::put_bytes;
use crate::interfaces::{Interface, Parameter, interface_of, observed};
use crate::marking::put_marked;
use crate::page::Page;
use lb_places::Text;
use lb_static::{RootFault, RootRule, Start};

/// Puts the name of the node, and what it is.
fn put_node(page: &mut Page, fault: &RootFault) {
    page.put(fault.node.as_str());
    page.put(match fault.start {
        Start::UnderTest => ", the node under test, ",
        Start::Observer => ", the observer, ",
    });
}

/// Puts the rule that is broken.
fn put_rule(page: &mut Page, fault: &RootFault) {
    let name = fault.name.as_str();
    match fault.rule {
        RootRule::NoParameters => {
            page.put_in("has the static parameter `", name, "`, and may have none\n");
        }
        RootRule::SizedTypes => page.put("has a type whose size is no number\n"),
        RootRule::BaseClock => {
            page.put_in(
                "has `",
                name,
                "` on a clock; its inputs and outputs have none\n",
            );
        }
        RootRule::FewInputs => {
            page.put_in(
                "has more than 1023 scalar inputs, counted up to `",
                name,
                "`\n",
            );
        }
        RootRule::OneOutput => page.put("has to have one output, the property\n"),
        RootRule::TruthOutput => {
            page.put_in(
                "has an output `",
                name,
                "` that is no bool, as a property is\n",
            );
        }
        RootRule::AsManyInputs | RootRule::SameType => {}
    }
}

/// Puts a parameter, as `alarm: bool`.
fn put_parameter(page: &mut Page, text: &[u8], parameter: &Parameter) {
    page.put("`");
    put_bytes(page, parameter.name.of(text));
    page.put(": ");
    put_bytes(page, parameter.type_of(text));
    page.put("`");
}

/// The number of the input with a name among the inputs of an observer.
fn place_of(text: &[u8], observer: &Interface, name: &[u8]) -> usize {
    for (place, input) in observer.inputs.iter().enumerate() {
        if input.name.of(text) == name {
            return place;
        }
    }
    observer.inputs.len()
}

/// Puts that an observer lacks an input, or has one too many, with a name.
fn put_number(page: &mut Page, text: &[u8], name: &str, observer: &Interface, tested: &Interface) {
    match observed(tested, observer.inputs.len()) {
        Some(parameter) => {
            page.put("lacks an input for ");
            put_parameter(page, text, &parameter);
            page.put(" of the node under test\n");
        }
        None => page.put_in("has an input `", name, "` to which nothing is wired\n"),
    }
}

/// Puts that the input of an observer with a name has another type than the parameter that is wired
/// to it.
fn put_type(page: &mut Page, text: &[u8], name: &str, observer: &Interface, tested: &Interface) {
    let place = place_of(text, observer, name.as_bytes());
    let (Some(input), Some(other)) = (observer.inputs.get(place), observed(tested, place)) else {
        return page.put("has an input of another type than what it observes\n");
    };
    page.put("has ");
    put_parameter(page, text, input);
    page.put(", to which ");
    put_parameter(page, text, &other);
    page.put(" is wired\n");
}

/// Puts how an observer does not fit the node under test.
fn put_wiring(page: &mut Page, text: &[u8], fault: &RootFault, tested: &str) {
    let observer = interface_of(page, text, fault.node.as_bytes());
    let tested = interface_of(page, text, tested.as_bytes());
    let name = fault.name.as_str();
    match (&observer, &tested) {
        (Some(observer), Some(tested)) if fault.rule == RootRule::AsManyInputs => {
            put_number(page, text, name, observer, tested);
        }
        (Some(observer), Some(tested)) => put_type(page, text, name, observer, tested),
        _ => page.put("does not fit the node under test\n"),
    }
}

/// Whether a rule compares an observer with the node under test.
fn is_of_wiring(rule: RootRule) -> bool {
    rule == RootRule::AsManyInputs || rule == RootRule::SameType
}

/// How to mend it, for common mistakes; else empty.
fn mend_of(fault: &RootFault) -> &'static str {
    if is_of_wiring(fault.rule) {
        return "help: an observer takes the inputs and then the outputs of the node under test\n";
    }
    if fault.rule == RootRule::OneOutput && fault.start == Start::UnderTest {
        return "help: --observe names a node that judges its outputs\n";
    }
    ""
}

/// Explains E8; `tested` is the name of the node under test.
pub fn explain_root(page: &mut Page, text: &Text<'_>, fault: &RootFault, tested: &str) {
    put_node(page, fault);
    if is_of_wiring(fault.rule) {
        put_wiring(page, text.bytes, fault, tested);
    } else {
        put_rule(page, fault);
    }
    put_marked(page, text, fault.offset);
    page.put(mend_of(fault));
}
