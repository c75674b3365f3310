//! The faults against rules of names, static values and instances, and their places.
//!
//! The last line of a row has the node under test, perhaps with its observer after a comma. A place
//! is line and column, counted by hand. A path to an instance is the start and then the calls, with
//! the index of an iterated call: `main > f 5:12[0]`.

use lb_static::{
    CallCycle, CallPath, CallStep, CycleCall, Elab, Limit, LimitFault, NameFault, NameRule,
    RangeFault, RangeRole, RootFault, RootRule, Sought, Start, StaticError, ValueFault, ValueRule,
    elaborate,
};
use lb_syntax::{BinaryOperator, Source, line_column, parse};
use lb_test_support::texts::{Said, around, last_line, named};
use std::alloc::Global;

/// `5:12`, line and column of an offset.
fn push_place(text: &[u8], offset: u32, said: &mut Said) {
    if text.len() >= u32::MAX as usize {
        return said.push_str("in a long text");
    }
    let place = line_column(text, offset);
    write!(said, "{}:{}", place.line, place.column);
}

/// The word for what an unknown name had to be.
fn sought_word(sought: Sought) -> &'static str {
    match sought {
        Sought::Node => "Node",
        Sought::Variable => "Variable",
        Sought::Clock => "Clock",
        Sought::Value => "Value",
        Sought::Constant => "Constant",
    }
}

/// `: unknown Value`
fn push_name_rule(text: &[u8], rule: NameRule, said: &mut Said) {
    match rule {
        NameRule::Unknown(sought) => {
            said.push_str(": unknown ");
            said.push_str(sought_word(sought));
        }
        NameRule::Doubled { first } => {
            said.push_str(": doubled, first ");
            push_place(text, first, said);
        }
        NameRule::Arguments { wanted, given } => write!(said, ": {wanted} wanted, {given} given"),
    }
}

/// `E4 5:12 x in main: unknown Value`
fn push_name(text: &[u8], fault: &NameFault, said: &mut Said) {
    said.push_str("E4 ");
    if let Some(offset) = fault.offset {
        push_place(text, offset, said);
        said.push(' ');
    }
    said.push_str(fault.name.as_str());
    if let Some(node) = &fault.node {
        said.push_str(" in ");
        said.push_str(node.as_str());
    }
    push_name_rule(text, fault.rule, said);
}

/// ` > f 5:12[0]`
fn push_step(text: &[u8], step: &CallStep, said: &mut Said) {
    said.push_str(" > ");
    said.push_str(step.node.as_str());
    said.push(' ');
    push_place(text, step.offset, said);
    if let Some(index) = step.index {
        write!(said, "[{index}]");
    }
}

/// ` | main > f 5:12[0]`
fn push_path(text: &[u8], path: &CallPath, said: &mut Said) {
    said.push_str(match path.start {
        Start::UnderTest => " | ",
        Start::Observer => " | observer ",
    });
    said.push_str(path.node.as_str());
    for step in &path.steps {
        push_step(text, step, said);
    }
}

/// The sign of an operator of static expressions.
fn sign(operator: BinaryOperator) -> &'static str {
    match operator {
        BinaryOperator::Plus => "+",
        BinaryOperator::Minus => "-",
        BinaryOperator::Times => "*",
        BinaryOperator::Divide => "/",
        BinaryOperator::Modulo => "mod",
        _ => "no sign",
    }
}

/// `1 / 0`
fn push_value_rule(rule: &ValueRule, said: &mut Said) {
    match rule {
        ValueRule::Operator {
            operator,
            left,
            right,
        } => write!(said, "{left} {} {right}", sign(*operator)),
        ValueRule::Negation { operand } => write!(said, "- {operand}"),
        ValueRule::Constant { name } => {
            said.push_str(name.as_str());
            said.push_str(" needs itself");
        }
    }
}

/// `E5 5:12 in main: `
fn push_number(text: &[u8], number: &str, offset: u32, node: &str, said: &mut Said) {
    said.push_str(number);
    push_place(text, offset, said);
    said.push_str(" in ");
    said.push_str(node);
    said.push_str(": ");
}

/// `E5 5:12 in main: 1 / 0 | main`
fn push_value(text: &[u8], fault: &ValueFault, said: &mut Said) {
    push_number(text, "E5 ", fault.offset, fault.node.as_str(), said);
    push_value_rule(&fault.rule, said);
    push_path(text, &fault.path, said);
}

/// The word for the purpose of a value.
fn role_word(role: RangeRole) -> &'static str {
    match role {
        RangeRole::Size => "Size",
        RangeRole::Index => "Index",
        RangeRole::SliceStart => "SliceStart",
        RangeRole::SliceEnd => "SliceEnd",
        RangeRole::Elements => "Elements",
    }
}

/// `E6 5:12 in main: Size 0 of 1..4096 | main`
fn push_range(text: &[u8], fault: &RangeFault, said: &mut Said) {
    push_number(text, "E6 ", fault.offset, fault.node.as_str(), said);
    said.push_str(role_word(fault.role));
    write!(said, " {} of {}..{}", fault.value, fault.least, fault.most);
    push_path(text, &fault.path, said);
}

/// ` f 5:12`
fn push_call(text: &[u8], call: &CycleCall, said: &mut Said) {
    said.push(' ');
    said.push_str(call.node.as_str());
    said.push(' ');
    push_place(text, call.offset, said);
}

/// `E7 f 5:12 g 6:12`
fn push_cycle(text: &[u8], cycle: &CallCycle, said: &mut Said) {
    said.push_str("E7");
    for call in &cycle.calls {
        push_call(text, call, said);
    }
}

/// The words for a rule of interfaces, behind the start that breaks it.
fn rule_words(rule: RootRule) -> &'static str {
    match rule {
        RootRule::NoParameters => ": NoParameters",
        RootRule::SizedTypes => ": SizedTypes",
        RootRule::BaseClock => ": BaseClock",
        RootRule::FewInputs => ": FewInputs",
        RootRule::OneOutput => ": OneOutput",
        RootRule::TruthOutput => ": TruthOutput",
        RootRule::AsManyInputs => ": AsManyInputs",
        RootRule::SameType => ": SameType",
    }
}

/// `E8 5:12 x of main, UnderTest: BaseClock`
fn push_root(text: &[u8], fault: &RootFault, said: &mut Said) {
    said.push_str("E8 ");
    push_place(text, fault.offset, said);
    said.push(' ');
    said.push_str(fault.name.as_str());
    said.push_str(" of ");
    said.push_str(fault.node.as_str());
    said.push_str(match fault.start {
        Start::UnderTest => ", UnderTest",
        Start::Observer => ", Observer",
    });
    said.push_str(rule_words(fault.rule));
}

/// `E12 Instances | main > f 5:12[4095]`
fn push_limit(text: &[u8], fault: &LimitFault, said: &mut Said) {
    said.push_str(match fault.limit {
        Limit::Instances => "E12 Instances",
        Limit::Levels => "E12 Levels",
    });
    push_path(text, &fault.path, said);
}

fn push_error(text: &[u8], error: &StaticError, said: &mut Said) {
    match error {
        StaticError::Memory => said.push_str("E0"),
        StaticError::Name(fault) => push_name(text, fault, said),
        StaticError::Value(fault) => push_value(text, fault, said),
        StaticError::Range(fault) => push_range(text, fault, said),
        StaticError::Recursion(cycle) => push_cycle(text, cycle, said),
        StaticError::Root(fault) => push_root(text, fault, said),
        StaticError::Instances(fault) => push_limit(text, fault, said),
    }
}

/// `accepted`, or the fault.
fn push_elaborated(text: &[u8], elaborated: &Result<Elab, StaticError>, said: &mut Said) {
    match elaborated {
        Ok(_) => said.push_str("accepted"),
        Err(error) => push_error(text, error, said),
    }
}

/// The fault of a program on a tree, with a node under test and perhaps an observer.
fn push_fault(alloc: Global, text: &[u8], tree: &Source, word: &str, said: &mut Said) {
    let (node, observer) = around(word, ", ");
    push_elaborated(text, &elaborate(alloc, tree, node, named(observer)), said);
}

/// The fault of a text, with the node under test and the observer of its last line.
pub fn push_answer(alloc: Global, asked: &str, said: &mut Said) {
    let (text, word) = last_line(asked);
    match &parse(alloc, text.as_bytes()) {
        Ok(tree) => push_fault(alloc, text.as_bytes(), tree, word, said),
        Err(_) => said.push_str("no tree"),
    }
}

/// Names.
pub const NAMES: &str = "\
node main(x: int) returns (ok: bool);
let
  ok = y > 0;
tel
main => E4 3:8 y in main: unknown Value
----
node main(x: int) returns (ok: bool);
let
  ok = x > 0;
  z = x;
tel
main => E4 4:3 z in main: unknown Variable
----
node main(x: int) returns (ok: bool);
let ok = f(x); tel
node f(a: int) returns (b: bool);
var c: bool;
let
  c = true;
  b = current (a when k) > 0;
tel
main => E4 7:23 k in f: unknown Clock
----
node main(x: int when k) returns (ok: bool);
let ok = true; tel
main => E4 1:23 k in main: unknown Clock
----
node main(x: int; y, x: bool) returns (ok: bool);
let ok = y; tel
main => E4 1:22 x in main: doubled, first 1:11
----
node main(x: int) returns (ok: bool);
let ok = x > 0; tel
const main = 3;
main => E4 3:7 main: doubled, first 1:6
----
node main(x: int) returns (ok: bool);
let ok = f<<2>>(x); tel
node f<<const n: int>>(n: int) returns (b: bool);
let b = n > 0; tel
main => E4 3:24 n in f: doubled, first 3:15
----
node main(a: int^3) returns (ok: bool);
var b: int^3;
let
  b = map<<g, 3>>(a);
  ok = b[0] > 0;
tel
main => E4 4:12 g in main: unknown Node
----
node main(a: int^3) returns (ok: bool);
var b: int^3;
let
  b = map<<f<<1, 2>>, 3>>(a);
  ok = b[0] > 0;
tel
node f<<const n: int>>(x: int) returns (y: int);
let y = x + n; tel
main => E4 4:12 f in main: 1 wanted, 2 given
----
node main(a: int^3) returns (ok: bool);
let ok = a[k + 1] > 0; tel
main => E4 2:12 k in main: unknown Constant
----
-- first\r
\tconst n = (* c *) q;\r
node main(x: int) returns (ok: bool); let ok = x > n; tel
main => E4 2:20 q: unknown Constant
----
node main(x: int) returns (ok: bool);
let ok = x > 0; tel
node watch(x: int; ok: bool) returns (good: bool);
let good = ok and z; tel
main, watch => E4 4:19 z in watch: unknown Value
----
node other(x: int) returns (ok: bool);
let ok = x > 0; tel
main => E4 main: unknown Node
----
node main(x: int) returns (ok: bool);
let ok = x > 0; tel
main, nobody => E4 nobody: unknown Node";

/// Static values.
pub const VALUES: &str = "\
node main(a: int^(1 / 0)) returns (ok: bool);
let ok = true; tel
main => E5 1:21 in main: 1 / 0 | main
----
const big = 2147483647 + 1;
node main(x: int) returns (ok: bool);
let ok = x < big; tel
main => E5 1:24 in main: 2147483647 + 1 | main
----
const a = b + 1; b = a;
node main(x: int) returns (ok: bool);
let ok = x < a; tel
main => E5 1:7 in main: a needs itself | main
----
const c = a; a = b; b = a;
node main(x: int) returns (ok: bool);
let ok = x < c; tel
main => E5 1:14 in main: a needs itself | main
----
node main(x: int) returns (ok: bool);
let ok = f<<0>>(x); tel
node f<<const n: int>>(x: int) returns (y: bool);
let y = x < g<<10 / n>>(x); tel
node g<<const m: int>>(x: int) returns (y: int);
let y = x + m; tel
main => E5 4:19 in f: 10 / 0 | main > f 2:10
----
node main(a: int^3) returns (ok: bool);
var b, c: int^3;
let
  b = map<<f<<1>>, 3>>(a);
  c = map<<f<<0>>, 3>>(a);
  ok = b[0] > c[0];
tel
node f<<const n: int>>(x: int) returns (y: int);
var t: int^(4 / n);
let t = x ^ (4 / n); y = t[0]; tel
main => E5 9:15 in f: 4 / 0 | main > f 5:12[0]
----
node main(x: int) returns (ok: bool);
let ok = x > 0; tel
node watch(x: int; ok: bool) returns (good: bool);
let good = h<<0 - 2147483647 - 1>>(x); tel
node h<<const n: int>>(x: int) returns (y: bool);
let y = x > k<<-n>>(x); tel
node k<<const m: int>>(x: int) returns (y: int);
let y = x + m; tel
main, watch => E5 6:16 in h: - -2147483648 | observer watch > h 4:12
----
(* a *)\r
\tconst z = -- b\r
\t\t1 mod 0;\r
node main(x: int) returns (ok: bool); let ok = x > z; tel
main => E5 3:5 in main: 1 mod 0 | main";

/// Sizes, indexes and slices.
pub const RANGES: &str = "\
node main(a: int^0) returns (ok: bool);
let ok = true; tel
main => E6 1:18 in main: Size 0 of 1..4096 | main
----
node main(a: int^3) returns (ok: bool);
let ok = a[5000] > 0; tel
main => E6 2:12 in main: Index 5000 of 0..4095 | main
----
node main(a: int^3) returns (ok: bool);
var b: int^1;
let
  b = a[2..1];
  ok = b[0] > 0;
tel
main => E6 4:12 in main: SliceEnd 1 of 2..4095 | main
----
node main(x: int) returns (ok: bool);
let ok = f<<4097>>(x); tel
node f<<const n: int>>(x: int) returns (y: bool);
var t: int^n;
let t = x ^ n; y = t[0] > 0; tel
main => E6 4:12 in f: Size 4097 of 1..4096 | main > f 2:10
----
node main(a: int^3) returns (ok: bool);
var b, c: int^3;
let
  b = map<<f<<2>>, 3>>(a);
  c = map<<f<<-1>>, 3>>(a);
  ok = b[0] > c[0];
tel
node f<<const n: int>>(x: int) returns (y: int);
var t: int^4;
let t = x ^ 4; y = t[n]; tel
main => E6 10:22 in f: Index -1 of 0..4095 | main > f 5:12[0]
----
node main(x: int) returns (ok: bool);
let ok = x > 0; tel
node watch(x: int; ok: bool) returns (good: bool);
var t: int^(0 - 3);
let t = x ^ 2; good = ok; tel
main, watch => E6 4:12 in watch: Size -3 of 1..4096 | observer watch
----
node main(x: int) returns (ok: bool);
var s, t: int^4096^17;
let ok = x > 0; tel
main => E6 2:5 in main: Elements 69632 of 0..65536 | main
----
-- c\r
node main(x: int)\treturns (ok: bool);\r
var\tt: int ^ (* d *)\t0;\r
let ok = x > 0; tel
main => E6 3:22 in main: Size 0 of 1..4096 | main";

/// Cycles of calls.
pub const RECURSIONS: &str = "\
node main(x: int) returns (ok: bool);
let ok = main(x); tel
main => E7 main 2:10
----
node main(x: int) returns (ok: bool);
let ok = f(x); tel
node f(x: int) returns (y: bool);
let y = g(x); tel
node g(x: int) returns (y: bool);
let y = x > 0 and f(x); tel
main => E7 f 4:9 g 6:19
----
node main(a: int^3) returns (ok: bool);
var b: int^3;
let
  b = map<<f<<1>>, 3>>(a);
  ok = b[0] > 0;
tel
node f<<const n: int>>(x: int) returns (y: int);
let y = red<<h<<n>>, 2>>(x, x ^ 2); tel
node h<<const n: int>>(p, q: int) returns (y: int);
let y = f<<n + 1>>(p); tel
main => E7 f 8:14 h 10:9
----
node main(x: int) returns (ok: bool);
let ok = x > 0; tel
node watch(x: int; ok: bool) returns (good: bool);
let good = f(x) and ok; tel
node f(x: int) returns (y: bool);
let y = (if x > 0 then f(x - 1) else true); tel
main, watch => E7 f 6:24
----
node main(x: int) returns (ok: bool);\r
\tlet (* f(x) *) ok = (* main *)\tmain(x); tel
main => E7 main 2:33
----
node main(x: int) returns (ok: bool);
let ok = f(x) and g(x); tel
node f(x: int) returns (y: bool);
let y = x > 0; tel
node g(x: int) returns (y: bool);
let y = f(x) or main(x); tel
main => E7 main 2:19 g 6:17";

/// Interfaces of the node under test and the observer.
pub const ROOTS: &str = "\
node main<<const n: int>>(x: int) returns (ok: bool);
let ok = x > n; tel
main => E8 1:18 n of main, UnderTest: NoParameters
----
node main(c: bool; x: int when c) returns (ok: bool);
let ok = c; tel
main => E8 1:20 x of main, UnderTest: BaseClock
----
node main(a: int^1000; b: int^24) returns (ok: bool);
let ok = true; tel
main => E8 1:24 b of main, UnderTest: FewInputs
----
node main(x: int) returns (ok, no: bool);
let ok = x > 0; no = ok; tel
main => E8 1:32 no of main, UnderTest: OneOutput
----
node main(x: int) returns (n: int);
let n = x; tel
main => E8 1:28 n of main, UnderTest: TruthOutput
----
node main(x: int) returns (ok: bool);
let ok = x > 0; tel
node watch(x: int; ok: int) returns (good: bool);
let good = x > ok; tel
main, watch => E8 3:20 ok of watch, Observer: SameType
----
node main(x: int) returns (ok: bool);
let ok = x > 0; tel
node watch(x: int) returns (good: bool);
let good = x > 0; tel
main, watch => E8 3:6 watch of watch, Observer: AsManyInputs
----
node main(x: int) returns (ok: bool);
let ok = x > 0; tel
node watch(x: int; ok: bool; z: int) returns (good: bool);
let good = x > z; tel
main, watch => E8 3:30 z of watch, Observer: AsManyInputs
----
node\tmain (* n *) (x: int)\r
\treturns (y: int);\r
let y = x; tel
main => E8 2:11 y of main, UnderTest: TruthOutput";

/// Too many instances, and too many levels of them. In the last row each call stands in the line
/// with the number of the node that it calls.
pub const LIMITS: &str = "\
node main(x: int) returns (ok: bool);
var b: int^4096;
let
  b = map<<f, 4096>>(x ^ 4096);
  ok = b[0] > 0;
tel
node f(x: int) returns (y: int);
let y = x; tel
main => E12 Instances | main > f 4:12[4095]
----
node main(x: int) returns (ok: bool);
var b: int^65;
let
  b = map<<f, 65>>(x ^ 65);
  ok = b[0] > 0;
tel
node f(x: int) returns (y: int);
var c: int^63;
let
  c = map<<g, 63>>(x ^ 63);
  y = c[0];
tel
node g(x: int) returns (y: int);
let y = x; tel
main => E12 Instances | main > f 4:12[63] > g 10:12[62]
----
node main(x: int) returns (ok: bool);
let ok = h<<2>>(x) and h<<4096>>(x); tel
node h<<const n: int>>(x: int) returns (y: bool);
var b: int^n;
let b = map<<f, n>>(x ^ n); y = b[0] > 0; tel
node f(x: int) returns (y: int);
let y = x; tel
main => E12 Instances | main > h 2:24 > f 5:14[4091]
----
node main(x: int) returns (ok: bool);
let ok = x > 0; tel
node watch(x: int; ok: bool) returns (good: bool);
var b: int^4095;
let
  b = fill<<f, 4095>>(x);
  good = ok;
tel
node f(x: int) returns (s, y: int);
let s = x; y = x; tel
main, watch => E12 Instances | observer watch > f 6:13[4094]
----
-- a\r
node main(x: int) returns (ok: bool);\r
\tvar b: int^4096; (* c\r
 *) let b = map << (* d *)\tf; 4096 >> (x ^ 4096); ok = b[0] > 0; tel\r
node f(x: int) returns (y: int); let y = x; tel
main => E12 Instances | main > f 4:28[4095]
----
node main(x: int) returns (ok: bool); let ok = a1(x) > 0; tel
node a1(x: int) returns (y: int); let y = a2(x); tel
node a2(x: int) returns (y: int); let y = a3(x); tel
node a3(x: int) returns (y: int); let y = a4(x); tel
node a4(x: int) returns (y: int); let y = a5(x); tel
node a5(x: int) returns (y: int); let y = a6(x); tel
node a6(x: int) returns (y: int); let y = a7(x); tel
node a7(x: int) returns (y: int); let y = a8(x); tel
node a8(x: int) returns (y: int); let y = a9(x); tel
node a9(x: int) returns (y: int); let y = a10(x); tel
node a10(x: int) returns (y: int); let y = a11(x); tel
node a11(x: int) returns (y: int); let y = a12(x); tel
node a12(x: int) returns (y: int); let y = a13(x); tel
node a13(x: int) returns (y: int); let y = a14(x); tel
node a14(x: int) returns (y: int); let y = a15(x); tel
node a15(x: int) returns (y: int); let y = a16(x); tel
node a16(x: int) returns (y: int); let y = a17(x); tel
node a17(x: int) returns (y: int); let y = a18(x); tel
node a18(x: int) returns (y: int); let y = a19(x); tel
node a19(x: int) returns (y: int); let y = a20(x); tel
node a20(x: int) returns (y: int); let y = a21(x); tel
node a21(x: int) returns (y: int); let y = a22(x); tel
node a22(x: int) returns (y: int); let y = a23(x); tel
node a23(x: int) returns (y: int); let y = a24(x); tel
node a24(x: int) returns (y: int); let y = a25(x); tel
node a25(x: int) returns (y: int); let y = a26(x); tel
node a26(x: int) returns (y: int); let y = a27(x); tel
node a27(x: int) returns (y: int); let y = a28(x); tel
node a28(x: int) returns (y: int); let y = a29(x); tel
node a29(x: int) returns (y: int); let y = a30(x); tel
node a30(x: int) returns (y: int); let y = a31(x); tel
node a31(x: int) returns (y: int); let y = a32(x); tel
node a32(x: int) returns (y: int); let y = a33(x); tel
node a33(x: int) returns (y: int); let y = a34(x); tel
node a34(x: int) returns (y: int); let y = a35(x); tel
node a35(x: int) returns (y: int); let y = a36(x); tel
node a36(x: int) returns (y: int); let y = a37(x); tel
node a37(x: int) returns (y: int); let y = a38(x); tel
node a38(x: int) returns (y: int); let y = a39(x); tel
node a39(x: int) returns (y: int); let y = a40(x); tel
node a40(x: int) returns (y: int); let y = a41(x); tel
node a41(x: int) returns (y: int); let y = a42(x); tel
node a42(x: int) returns (y: int); let y = a43(x); tel
node a43(x: int) returns (y: int); let y = a44(x); tel
node a44(x: int) returns (y: int); let y = a45(x); tel
node a45(x: int) returns (y: int); let y = a46(x); tel
node a46(x: int) returns (y: int); let y = a47(x); tel
node a47(x: int) returns (y: int); let y = a48(x); tel
node a48(x: int) returns (y: int); let y = a49(x); tel
node a49(x: int) returns (y: int); let y = a50(x); tel
node a50(x: int) returns (y: int); let y = a51(x); tel
node a51(x: int) returns (y: int); let y = a52(x); tel
node a52(x: int) returns (y: int); let y = a53(x); tel
node a53(x: int) returns (y: int); let y = a54(x); tel
node a54(x: int) returns (y: int); let y = a55(x); tel
node a55(x: int) returns (y: int); let y = a56(x); tel
node a56(x: int) returns (y: int); let y = a57(x); tel
node a57(x: int) returns (y: int); let y = a58(x); tel
node a58(x: int) returns (y: int); let y = a59(x); tel
node a59(x: int) returns (y: int); let y = a60(x); tel
node a60(x: int) returns (y: int); let y = a61(x); tel
node a61(x: int) returns (y: int); let y = a62(x); tel
node a62(x: int) returns (y: int); let y = a63(x); tel
node a63(x: int) returns (y: int); let y = a64(x); tel
node a64(x: int) returns (y: int); let y = x; tel
main => E12 Levels | main > a1 1:48{2..10  > a@ @:43}{11..64  > a@ @:44}";
