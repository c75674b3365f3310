//! The rules of types, clocks and definitions that programs break, and where. Each place, type and
//! clock was found by hand, since no contract speaks of them.
//!
//! The last line of a source names its node under test, and perhaps its observer after a comma.
//! Places are lines and columns: first that of the statement or declaration, then that of the
//! fault, and in brackets that of a sign.

use lb_cause::{
    CheckError, ClockFault, DefinitionFault, SourceClock, SourceType, TypeFault, TypeRule,
    check_with_cause,
};
use lb_check::{Checked, Part};
use lb_static::{CallPath, CallStep, Start, elaborate};
use lb_syntax::{Source, line_column, parse};
use lb_test_support::texts::{Said, around, last_line, named};
use std::alloc::Global;

/// Sources, each with its node under test, and perhaps an observer, in the last line.
pub const CASES: &str = "node main(x: int) returns (ok: bool); let ok = x + true > 0; tel
main => main statement 0 1:43: Operand(2) 1:52 [ 1:50 ] found bool wanted int by main
----
node main(x: int) returns (ok: bool); let ok = outer(x); tel
node outer(a: int) returns (b: bool); let b = (inner((a), a > 0)); tel
node inner(c: int; d: int) returns (e: bool); let e = c > d; tel
main => outer statement 0 2:43: Argument(2) 2:59 found bool wanted int by main, outer 1:48
----
node main(x: int^2) returns (ok: bool); var y, z: int^2;
let y = map<<f<<2>>, 2>>(x); z = map<<f<<5>>, 2>>(x); ok = y[0] = z[0]; tel
node f<<const n: int>>(a: int) returns (b: int); var v: int^3;
let v = a^3; b = v[n]; tel
main => f statement 1 4:14: Index 4:20 [ 4:19 ] found int^3 by main, f 2:39 #0
----
node main(x: int) returns (y: int); let y = x; tel
node see(x, y: int) returns (ok: bool); let ok = x or y > 0; tel
main, see => see statement 0 2:45: Operand(1) 2:50 [ 2:52 ] found int wanted bool by observer see
----
node main(x: int) returns (ok: bool); -- a comment\r
\tvar p: int; (* one\r
more *) q: bool;\r
let\t(p, q) =\ttwo(x); ok = q; tel\r
node two(a: int) returns (b, c: int); let b = a; c = a; tel
main => main statement 0 4:5: Left(2) 4:9 found int wanted bool by main
----
node main(x: int) returns (ok: bool); let assert (x + 1); ok = true; tel
main => main statement 0 1:43: Assertion 1:50 found int wanted bool by main
----
node main(x: int) returns (ok: bool); var y: int when x; let y = x when x; ok = true; tel
main => main variable 2 1:43: ClockVariable 1:55 found int wanted bool by main
----
node main(x: int) returns (ok: bool); let ok = f(x) > 0; tel
node f(a, b: int) returns (c: int); let c = a + b; tel
main => main statement 0 1:43: ArgumentCount 1 for 2 1:48 found by main
----
node main(x: int) returns (ok: bool); let ok = two(x) > 0; tel
node two(a: int) returns (b, c: int); let b = a; c = a; tel
main => main statement 0 1:43: ResultCount 1:48 found int int by main
----
node main(x: int) returns (ok: bool); let ok = two(x); tel
node two(a: int) returns (b, c: int^2^3); let b = a^2^3; c = b; tel
main => main statement 0 1:43: LeftCount 1 for 2 1:43 found int^2^3 int^2^3 by main
----
node main(x: int) returns (ok: bool); let ok = if x then true else false; tel
main => main statement 0 1:43: Operand(1) 1:51 [ 1:48 ] found int wanted bool by main
----
node main(x: int) returns (ok: bool); let ok = not (x -> true); tel
main => main statement 0 1:43: Operand(2) 1:58 [ 1:55 ] found bool wanted int by main
----
node main(x: int) returns (ok: bool); var v: int^2; let v = [x, x > 0]; ok = true; tel
main => main statement 0 1:57: Operand(2) 1:65 [ 1:61 ] found bool wanted int by main
----
node main(x: int^2) returns (ok: bool); let ok = red<<f, 2>>(true, x); tel
node f(a: bool; b: int) returns (c: int); let c = b; tel
main => main statement 0 1:45: IteratedNode 1:50 found by main
----
node main(x: int^2) returns (ok: bool); let ok = red<<+, 2>>(0, x[0]) > 0; tel
main => main statement 0 1:45: Argument(2) 1:65 found int wanted int^2 by main
----
node main(x: int^2) returns (ok: bool); var y: int^4; let y = (x | x) | x[0..0]; ok = true; tel
main => main statement 0 1:59: Left(1) 1:59 found int^5 wanted int^4 by main
----
node main(x: int; c: bool) returns (ok: bool); let ok = (x when c) > x; tel
main => main statement 0 1:52: Operand(2) 1:70 [ 1:68 ] found base wanted base when c by main
----
node main(x: int; c: bool) returns (ok: bool); var y: int when not c;
let y = x; ok = true; tel
main => main statement 0 2:5: Left(1) 2:5 found base wanted base when not c by main
----
node main(x: int) returns (ok: bool); let ok = mid(x); tel
node mid(x: int) returns (ok: bool); let ok = current (x + 1) > 0; tel
main => mid statement 0 2:42: Current 2:55 [ 2:47 ] found base by main, mid 1:48
----
node main(x: int^2) returns (ok: bool); var y, z: int^2;
let y = map<<good<<1>>, 2>>(x); z = map<<bad<<2>>, 2>>(x); ok = y[0] = z[1]; tel
node good<<const n: int>>(a: int) returns (b: int); let b = a + n; tel
node bad<<const n: int>>(a: int) returns (b: int); var c: bool; let c = a > n; b = a when c; tel
main => bad statement 1 4:80: Left(1) 4:80 found base when c wanted base by main, bad 2:42 #0
----
node main(x: int) returns (c: bool); let c = x > 0; tel
node see(x: int; c: bool) returns (ok: bool); let ok = (true when c) when c; tel
main, see => see statement 0 2:51: When 2:56 [ 2:70 ] found base when c wanted base by observer see
----
(* Columns count bytes. *)\r
node main(x: int; c: bool)\treturns (ok: bool);\r
let -- a call\r
\tok = current f(c, x) > 0;\r
tel
node f(d: bool; y: int when d) returns (z: int when d); let z = y; tel
main => main statement 0 4:2: Argument(2) 4:20 found base wanted base when c by main
----
node main(x: int; c: bool) returns (ok: bool); let ok = current f(not c, x when c) > 0; tel
node f(d: bool; y: int when d) returns (z: int when d); let z = y; tel
main => main statement 0 1:52: ClockArgument(1) 1:67 by main
----
node main(x: int) returns (ok: bool); var d: bool; y: int when d;
let (d, y) = half(x); ok = d; tel
node half(y: int when d) returns (d: bool; z: int when d); let d = true; z = y; tel
main => half variable 0 3:11: Interface 3:23 by main, half 2:14
----
node main(x: int) returns (ok: bool); var p: bool when q; q: bool when p;
let p = q; q = p; ok = true; tel
main => main variable 2 1:43: Circle 1:56 by main
----
node main(x: int; c: bool) returns (ok: bool); var d: bool when c; y: int when d;
let d = true when c; y = (x when c) when d; ok = current (current y) > current y; tel
main => main statement 2 2:45: Operand(2) 2:72 [ 2:70 ] found base when c wanted base by main
----
node main(x: int; c: bool) returns (ok: bool); var y: int when c; z: int;
let (y, z) = two(x); ok = z > 0; tel
node two(a: int) returns (b, c: int); let b = a; c = a; tel
main => main statement 0 2:5: Argument(1) 2:18 found base wanted base when c by main
----
node main(x: int; c: bool) returns (ok: bool); var y: int; z: int when c;
let (y, z) = two(x); ok = y > 0; tel
node two(a: int) returns (b, c: int); let b = a; c = a; tel
main => main statement 0 2:5: Left(2) 2:9 found base wanted base when c by main
----
node main(x: int^2; c: bool^2) returns (ok: bool); var y: int^2;
let y = map<<f, 2>>(c, x); ok = true; tel
node f(d: bool; a: int when d) returns (b: int); let b = current a; tel
main => main statement 0 2:5: IteratedNode 2:9 by main
----
node main(x: int) returns (ok: bool); var y: int; let ok = x > 0; tel
main => main variable 2 1:43: Undefined y 1:43 by main
----
node main(x: int) returns (ok: bool); let ok = two(x); tel
node two(a: int) returns (b: bool); var c: int;
let (b, c) = pair(a); c = a; tel
node pair(a: int) returns (b: bool; c: int); let b = true; c = a; tel
main => two variable 2 2:41: Doubled c 2:41 defined 3:9 defined 3:23 by main, two 1:48
----
node main(x: int^2) returns (ok: bool); var y, z: int^2;
let y = map<<good<<1>>, 2>>(x); z = map<<bad<<2>>, 2>>(x); ok = y[0] = z[1]; tel
node good<<const n: int>>(a: int) returns (b: int); let b = a + n; tel
node bad<<const n: int>>(a: int) returns (b: int); let b = n; a = n; tel
main => bad variable 0 4:26: DefinedInput a 4:26 defined 4:63 by main, bad 2:42 #0
----
node main(x: int) returns (y: int); let y = x; tel
function watch(x, y: int) returns (ok: bool); let ok = x = (y fby x); tel
main, watch => watch statement 0 2:51: Memory 2:63 by observer watch
----
node main(x: int) returns (ok: bool);\r
let\tok = calm(x) > 0;\ttel (* no memory\r
here *) function calm(a: int) returns (b: int);\tvar c: int;\r
let c = a;\t-- nor here\r
\tb = 1 + pre c; tel
main => calm statement 1 5:2: Memory 5:10 by main, calm 2:10
----
node main(x: int^2) returns (ok: bool); let ok = calm(x); tel
function calm(a: int^2) returns (b: bool); var c: int^2;
let c = map<<count, 2>>(a); b = c[0] > 0; tel
node count(a: int) returns (b: int); let b = a -> pre b + 1; tel
main => calm statement 0 3:5: NodeCall count 3:14 by main, calm 1:50
----
function main(x: int) returns (ok: bool); let ok = (x -> pre x) > 0; tel
main => main statement 0 1:47: Memory 1:55 by main
----
node main(x: int) returns (ok: bool); let ok = x > 0; tel
main => accepted";

/// A place as line and column.
fn push_place(text: &str, offset: u32, said: &mut Said) {
    if text.len() >= u32::MAX as usize {
        return said.push_str(" nowhere");
    }
    let place = line_column(text.as_bytes(), offset);
    write!(said, " {}:{}", place.line, place.column);
}

/// The node and its part, with the place of the part.
fn push_part(text: &str, node: &str, part: Part, offset: u32, said: &mut Said) {
    said.push_str(node);
    match part {
        Part::Variable(variable) => write!(said, " variable {}", variable.0),
        Part::Statement(place) => write!(said, " statement {place}"),
    }
    push_place(text, offset, said);
}

/// The place of a sign in brackets, if there is one.
fn push_sign(text: &str, sign: Option<u32>, said: &mut Said) {
    if let Some(offset) = sign {
        said.push_str(" [");
        push_place(text, offset, said);
        said.push_str(" ]");
    }
}

/// `, two 4:5 #1`
fn push_step(text: &str, step: &CallStep, said: &mut Said) {
    said.push_str(", ");
    said.push_str(step.node.as_str());
    push_place(text, step.offset, said);
    if let Some(index) = step.index {
        write!(said, " #{index}");
    }
}

/// ` by main`, or the path from there: ` by main, two 4:5, add 2:9 #1`.
fn push_path(text: &str, path: &CallPath, said: &mut Said) {
    said.push_str(match path.start {
        Start::UnderTest => " by ",
        Start::Observer => " by observer ",
    });
    said.push_str(path.node.as_str());
    for step in &path.steps {
        push_step(text, step, said);
    }
}

/// The types that were found.
fn push_types(types: &[SourceType], said: &mut Said) {
    said.push_str(" found");
    for found in types {
        write!(said, " {found}");
    }
}

/// The rule of types that is broken; for a wrong count, the number found and the number wanted.
fn push_rule(rule: TypeRule, said: &mut Said) {
    match rule {
        TypeRule::ArgumentCount { found, wanted } => {
            write!(said, ": ArgumentCount {found} for {wanted}");
        }
        TypeRule::LeftCount { found, wanted } => write!(said, ": LeftCount {found} for {wanted}"),
        other => write!(said, ": {other:?}"),
    }
}

/// The fault against a rule of types.
fn push_type(text: &str, fault: &TypeFault, said: &mut Said) {
    push_part(
        text,
        fault.node.as_str(),
        fault.part,
        fault.part_offset,
        said,
    );
    push_rule(fault.rule, said);
    push_place(text, fault.offset, said);
    push_sign(text, fault.sign_offset, said);
    push_types(&fault.found, said);
    if let Some(wanted) = &fault.wanted {
        write!(said, " wanted {wanted}");
    }
    push_path(text, &fault.path, said);
}

/// A clock with a word before it, if there is one.
fn push_clock(word: &str, clock: &Option<SourceClock>, said: &mut Said) {
    match clock {
        Some(clock) => write!(said, " {word} {clock}"),
        None => {}
    }
}

/// The fault against a rule of clocks.
fn push_clocks(text: &str, fault: &ClockFault, said: &mut Said) {
    push_part(
        text,
        fault.node.as_str(),
        fault.part,
        fault.part_offset,
        said,
    );
    write!(said, ": {:?}", fault.rule);
    push_place(text, fault.offset, said);
    push_sign(text, fault.sign_offset, said);
    push_clock("found", &fault.found, said);
    push_clock("wanted", &fault.wanted, said);
    push_path(text, &fault.path, said);
}

/// The fault against a rule of definitions.
fn push_definition(text: &str, fault: &DefinitionFault, said: &mut Said) {
    push_part(
        text,
        fault.node.as_str(),
        fault.part,
        fault.part_offset,
        said,
    );
    write!(said, ": {:?}", fault.rule);
    if !fault.name.is_empty() {
        said.push(' ');
        said.push_str(fault.name.as_str());
    }
    push_place(text, fault.offset, said);
    for definition in &fault.definitions {
        said.push_str(" defined");
        push_place(text, *definition, said);
    }
    push_path(text, &fault.path, said);
}

/// The cause of a refusal.
fn push_error(text: &str, error: &CheckError, said: &mut Said) {
    match error {
        CheckError::Memory => said.push_str("no memory"),
        CheckError::Type(fault) => push_type(text, fault, said),
        CheckError::Clock(fault) => push_clocks(text, fault, said),
        CheckError::Definition(fault) => push_definition(text, fault, said),
    }
}

/// `accepted`, or the cause of the refusal.
fn push_checked(text: &str, checked: &Result<Checked, CheckError>, said: &mut Said) {
    match checked {
        Ok(_) => said.push_str("accepted"),
        Err(error) => push_error(text, error, said),
    }
}

/// The answer on a tree with this node under test, and this observer unless it is empty.
fn push_cause(
    alloc: Global,
    text: &str,
    tree: &Source,
    node: &str,
    observer: &str,
    said: &mut Said,
) {
    let Ok(elab) = elaborate(alloc, tree, node, named(observer)) else {
        return said.push_str("no program");
    };
    push_checked(text, &check_with_cause(alloc, elab), said);
}

/// The answer on a source. The last line is no part of the source.
pub fn push_answer(alloc: Global, asked: &str, said: &mut Said) {
    let (text, last) = last_line(asked);
    let (node, observer) = around(last, ",");
    match &parse(alloc, text.as_bytes()) {
        Ok(tree) => push_cause(alloc, text, tree, node.trim(), observer.trim(), said),
        Err(_) => said.push_str("no text"),
    }
}
