//! E10: an expression, an argument or a left side on a wrong clock.

use crate::clock_places::{
    ClockPlace, NodeText, place_after, place_before, place_of_variable, place_of_waited,
};
use crate::excerpt::{put_bytes, put_place};
use crate::interfaces::interface_of;
use crate::lexeme::{Lexeme, Sort, token_at};
use crate::marking::{put_marked, word_of};
use crate::page::Page;
use crate::paths::put_path;
use crate::texts::spot;
use lb_cause::{ClockFault, ClockRule, SourceClock};
use lb_places::Text;
use std::alloc::{AllocError, Global};

/// Puts a clock, as `when open`.
fn put_clock(page: &mut Page, clock: &SourceClock) {
    if clock.signs.is_empty() {
        return page.put("the base clock");
    }
    page.put("`");
    for (place, sign) in clock.signs.iter().enumerate() {
        page.put(if place > 0 { " " } else { "" });
        write!(page, "{sign}");
    }
    page.put("`");
}

/// Puts a clock, if one is known.
fn put_known_clock(page: &mut Page, clock: Option<&SourceClock>) {
    match clock {
        Some(clock) => put_clock(page, clock),
        None => page.put("a clock that nothing determines"),
    }
}

/// Puts the clock that was found, and the one that is wanted.
fn put_clocks(page: &mut Page, fault: &ClockFault, wanted: &str) {
    page.put("this is on ");
    put_known_clock(page, fault.found.as_ref());
    if let Some(clock) = &fault.wanted {
        page.put_in(", and ", wanted, " on ");
        put_clock(page, clock);
    }
    page.put("\n");
}

/// Puts the clock of a left variable, and the one of the right side.
fn put_left(page: &mut Page, fault: &ClockFault) {
    page.put("this is on ");
    put_known_clock(page, fault.wanted.as_ref());
    page.put(", and the right side on ");
    put_known_clock(page, fault.found.as_ref());
    page.put("\n");
}

/// Puts the rule that is broken.
fn put_rule(page: &mut Page, text: &Text<'_>, fault: &ClockFault) {
    match fault.rule {
        ClockRule::Operand(_) => put_operand(page, text, fault),
        ClockRule::Argument(place) => {
            page.put_number_in("argument ", place as u64, ": ");
            put_clocks(page, fault, "it has to be");
        }
        ClockRule::ClockArgument(place) => {
            let end = " is the clock of another one, and has to be a variable\n";
            page.put_number_in("argument ", place as u64, end);
        }
        ClockRule::When => put_clocks(page, fault, "the variable after `when`"),
        ClockRule::Left(_) => put_left(page, fault),
        ClockRule::Current => {
            page.put("`current` takes what is on the clock of a variable; ");
            put_clocks(page, fault, "it has to be");
        }
        rule => page.put(words_of(rule)),
    }
}

/// The rule that is broken, for the rules of iterators and declarations.
fn words_of(rule: ClockRule) -> &'static str {
    match rule {
        ClockRule::IteratedNode => "an iterated node has no input or output with a `when`\n",
        ClockRule::Interface => {
            "the clock of an input has to be an input, that of an output an input or an output\n"
        }
        _ => "this declared clock depends on itself\n",
    }
}

/// Puts that an operand is on another clock than those before it.
fn put_operand(page: &mut Page, text: &Text<'_>, fault: &ClockFault) {
    if let Some(sign) = fault.sign_offset {
        page.put("`");
        put_bytes(page, word_of(text, sign));
        page.put("` wants operands on one clock; ");
    }
    put_clocks(page, fault, "another operand");
}

/// Puts the place of a token, as `pump.lus:14:13: note: `.
fn put_token_place(page: &mut Page, text: &Text<'_>, token: &Lexeme) {
    put_place(page, text, &spot(text, token.start, token.end), "note");
}

/// Puts where a variable is declared.
fn put_declaration(page: &mut Page, text: &Text<'_>, name: &Lexeme) {
    put_token_place(page, text, name);
    page.put("`");
    put_bytes(page, name.of(text.bytes));
    page.put("` is declared here, on ");
}

/// Puts where a clock comes from.
fn put_origin(page: &mut Page, text: &Text<'_>, clock: &SourceClock, place: ClockPlace) {
    match place {
        ClockPlace::Declaration(name) => put_declaration(page, text, &name),
        ClockPlace::When(word) => {
            put_token_place(page, text, &word);
            page.put("this `when` puts it on ");
        }
    }
    put_clock(page, clock);
    page.put("\n");
}

/// The declaration or the `when` that gives the clock that was found.
fn found_place(node: &NodeText<'_>, fault: &ClockFault, clock: &SourceClock) -> Option<ClockPlace> {
    let at = fault.offset as usize;
    match fault.rule {
        ClockRule::Left(_) => place_after(node, at, clock),
        _ => place_of_variable(node, at, clock).or(place_after(node, at, clock)),
    }
}

/// The declaration or the `when` that gives the clock that is wanted.
fn wanted_place(
    node: &NodeText<'_>,
    fault: &ClockFault,
    clock: &SourceClock,
) -> Option<ClockPlace> {
    let at = fault.offset as usize;
    match fault.rule {
        ClockRule::Left(_) => place_of_variable(node, at, clock),
        ClockRule::When => place_of_waited(node, fault.sign_offset.unwrap_or(0) as usize, clock),
        ClockRule::Operand(_) => {
            place_before(node, fault.part_offset as usize, at, clock).or(place_after(
                node, at, clock,
            ))
        }
        _ => None,
    }
}

/// The name of the node that is called with the argument at a place.
fn callee_before(
    alloc: Global,
    text: &[u8],
    from: usize,
    place: usize,
) -> Result<Option<Lexeme>, AllocError> {
    let mut opened: Vec<Lexeme> = Vec::new(alloc);
    let mut name = token_at(text, from);
    let mut at = from;
    for _turn in from..place {
        let token = token_at(text, at);
        if token.start >= place {
            return Ok(opened.pop());
        }
        if token.is(text, b"(".as_slice()) {
            opened.push(name)?;
        } else if token.is(text, b")".as_slice()) {
            let _closed = opened.pop();
        } else if token.sort == Sort::Name {
            name = token;
        }
        at = token.end;
    }
    Ok(opened.pop())
}

/// Puts where the node `callee` declares its input for an argument.
fn put_input(page: &mut Page, text: &Text<'_>, callee: &[u8], argument: usize) {
    let interface = interface_of(page, text.bytes, callee);
    if let Some(interface) = &interface {
        if let Some(input) = interface.inputs.get(argument.saturating_sub(1)) {
            put_token_place(page, text, &input.name);
            page.put("the input `");
            put_bytes(page, input.name.of(text.bytes));
            page.put("` of ");
            put_bytes(page, callee);
            page.put(" is declared here\n");
        }
    }
}

/// Puts where the node that is called at the place of a fault declares the input for an argument.
fn put_called_input(page: &mut Page, text: &Text<'_>, fault: &ClockFault, argument: usize) {
    let (from, place) = (fault.part_offset as usize, fault.offset as usize);
    match callee_before(page.alloc(), text.bytes, from, place) {
        Ok(Some(callee)) => put_input(page, text, callee.of(text.bytes), argument),
        Ok(None) => {}
        Err(_) => page.cut_if(true),
    }
}

/// Puts where the clocks come from, as far as that is known.
fn put_origins(page: &mut Page, text: &Text<'_>, fault: &ClockFault) {
    let node = NodeText::named(text.bytes, fault.node.as_str());
    if let Some(clock) = &fault.found {
        if let Some(place) = found_place(&node, fault, clock) {
            put_origin(page, text, clock, place);
        }
    }
    if let Some(clock) = &fault.wanted {
        if let Some(place) = wanted_place(&node, fault, clock) {
            put_origin(page, text, clock, place);
        }
    }
    if let ClockRule::Argument(place) | ClockRule::ClockArgument(place) = fault.rule {
        put_called_input(page, text, fault, place);
    }
}

/// Whether the base clock was found.
fn is_on_base(fault: &ClockFault) -> bool {
    match &fault.found {
        Some(clock) => clock.signs.is_empty(),
        None => false,
    }
}

/// How to mend it, for common mistakes; else empty.
fn mend_of(fault: &ClockFault) -> &'static str {
    match fault.rule {
        ClockRule::Operand(_) | ClockRule::Left(_) | ClockRule::Argument(_) => {
            "help: `e when c` puts e on the clock of c, `current e` takes it off again\n"
        }
        ClockRule::Current if is_on_base(fault) => {
            "help: what is on the base clock has a value at each instant; leave out `current`\n"
        }
        _ => "",
    }
}

/// Explains E10.
pub fn explain_clock(page: &mut Page, text: &Text<'_>, fault: &ClockFault) {
    put_rule(page, text, fault);
    put_marked(page, text, fault.offset);
    put_origins(page, text, fault);
    page.put(mend_of(fault));
    put_path(page, text, &fault.path);
}
