//! The offsets of the names and the forms of a tree in its text.
//!
//! Each constant, node, group of declarations and statement has a line of its own. A form is shown
//! by the token at its offset: `if@40`. A form with an operand on its left is shown by its sign,
//! with the offset of its first token: `+@14 from 10`. The parts of a form follow it. A name is
//! written out if other bytes stand at its offset.

use lb_syntax::{
    Constant, Declarations, Expr, Name, Node, Offset, Operator, Source, Statement, Static, parse,
};
use lb_test_support::texts::Said;
use std::alloc::Global;

/// The text from an offset on.
fn text_from(text: &[u8], at: Offset) -> &[u8] {
    text.split_at(text.len().min(at as usize)).1
}

/// ` x@12`: the token at an offset, a word or a number as long as it goes, or else its first byte.
fn push_token(text: &[u8], at: Offset, said: &mut Said) {
    said.push(' ');
    for (index, byte) in text_from(text, at).iter().enumerate() {
        let is_word = byte.is_ascii_alphanumeric() || *byte == b'_';
        if index == 0 || is_word {
            said.push(char::from(*byte));
        }
        if !is_word {
            break;
        }
    }
    write!(said, "@{at}");
}

/// The bytes of a name, if others stand at its offset.
fn push_other(text: &[u8], name: &Name, said: &mut Said) {
    if text_from(text, name.offset).starts_with(name.as_bytes()) {
        return;
    }
    write!(said, " and not {}", name.as_str());
}

fn push_name(text: &[u8], name: &Name, said: &mut Said) {
    push_token(text, name.offset, said);
    push_other(text, name, said);
}

fn push_names(text: &[u8], names: &[Name], said: &mut Said) {
    for name in names {
        push_name(text, name, said);
    }
}

/// ` if@40`, or ` +@14 from 10`.
fn push_form(text: &[u8], at: Offset, sign: Option<Offset>, said: &mut Said) {
    match sign {
        None => push_token(text, at, said),
        Some(sign) => {
            push_token(text, sign, said);
            write!(said, " from {at}");
        }
    }
}

fn push_static(text: &[u8], s: &Static, said: &mut Said) {
    push_form(text, s.offset(), s.sign_offset(), said);
    match s {
        Static::Whole(..) => {}
        Static::Named(name) => push_other(text, name, said),
        Static::Negated(inner, _) | Static::Grouped(inner, _) => push_static(text, inner, said),
        Static::Combined(_, left, right, _) => {
            push_static(text, left, said);
            push_static(text, right, said);
        }
    }
}

fn push_statics(text: &[u8], statics: &[Static], said: &mut Said) {
    for s in statics {
        push_static(text, s, said);
    }
}

fn push_operator(text: &[u8], operator: &Operator, said: &mut Said) {
    match operator {
        Operator::Node(name, statics) => {
            push_name(text, name, said);
            push_statics(text, statics, said);
        }
        Operator::Symbol(_) => {}
    }
}

#[cycle(expressions)]
fn push_exprs(text: &[u8], es: &[Expr], said: &mut Said) {
    for e in es {
        push_expr(text, e, said);
    }
}

#[cycle(expressions)]
fn push_expr(text: &[u8], e: &Expr, said: &mut Said) {
    push_form(text, e.offset(), e.sign_offset(), said);
    match e {
        Expr::Literal(..) | Expr::Truth(..) => {}
        Expr::Variable(name) => push_other(text, name, said),
        Expr::Group(a, _) | Expr::Unary(_, a, _) => push_expr(text, a, said),
        Expr::Pre(a, _) | Expr::Current(a, _) => push_expr(text, a, said),
        Expr::Binary(_, a, b, _)
        | Expr::Arrow(a, b, _)
        | Expr::Fby(a, b, _)
        | Expr::Join(a, b, _) => {
            push_expr(text, a, said);
            push_expr(text, b, said);
        }
        Expr::If(c, a, b, _) => {
            push_expr(text, c, said);
            push_expr(text, a, said);
            push_expr(text, b, said);
        }
        Expr::When(a, name, _, _) => {
            push_expr(text, a, said);
            push_name(text, name, said);
        }
        Expr::Replicate(a, s, _) | Expr::Index(a, s, _) => {
            push_expr(text, a, said);
            push_static(text, s, said);
        }
        Expr::Slice(a, first, last, _) => {
            push_expr(text, a, said);
            push_static(text, first, said);
            push_static(text, last, said);
        }
        Expr::Array(es, _) | Expr::AtMostOne(es, _) | Expr::Nor(es, _) => {
            push_exprs(text, es, said);
        }
        Expr::Call(name, statics, es) => {
            push_other(text, name, said);
            push_statics(text, statics, said);
            push_exprs(text, es, said);
        }
        Expr::Iterate(_, operator, size, es, _) => {
            push_operator(text, operator, said);
            push_static(text, size, said);
            push_exprs(text, es, said);
        }
    }
}

/// The groups of inputs, outputs or locals of a node, each behind `word`.
fn push_groups(text: &[u8], word: &str, groups: &[Declarations], said: &mut Said) {
    for group in groups {
        write!(said, "\n{word}");
        if let Some(name) = group.names.first() {
            push_token(text, name.offset, said);
        }
        said.push(':');
        push_names(text, &group.names, said);
        push_statics(text, &group.sizes, said);
        if let Some(clock) = &group.clock {
            push_name(text, &clock.variable, said);
        }
    }
}

fn push_statement(text: &[u8], statement: &Statement, said: &mut Said) {
    said.push('\n');
    push_token(text, statement.offset(), said);
    said.push(':');
    match statement {
        Statement::Equation(lefts, e, _) => {
            push_names(text, lefts, said);
            said.push_str(" =");
            push_expr(text, e, said);
        }
        Statement::Assertion(e, _) => push_expr(text, e, said),
    }
}

fn push_node(text: &[u8], node: &Node, said: &mut Said) {
    said.push('\n');
    push_token(text, node.offset, said);
    push_name(text, &node.name, said);
    push_names(text, &node.parameters, said);
    push_groups(text, "input", &node.inputs, said);
    push_groups(text, "output", &node.outputs, said);
    push_groups(text, "local", &node.locals, said);
    for statement in &node.body {
        push_statement(text, statement, said);
    }
}

fn push_constant(text: &[u8], constant: &Constant, said: &mut Said) {
    said.push('\n');
    push_token(text, constant.name.offset, said);
    push_other(text, &constant.name, said);
    said.push_str(" =");
    push_static(text, &constant.value, said);
}

fn push_source(text: &[u8], source: &Source, said: &mut Said) {
    for constant in &source.constants {
        push_constant(text, constant, said);
    }
    for node in &source.nodes {
        push_node(text, node, said);
    }
}

/// The offsets of the names and the forms of a text.
pub fn push_offsets(alloc: Global, text: &str, said: &mut Said) {
    match &parse(alloc, text.as_bytes()) {
        Ok(source) => push_source(text.as_bytes(), source, said),
        Err(error) => write!(said, "\n{error}"),
    }
}

/// Texts, and the offsets of their names and forms.
pub const OFFSETS: &str = "-- sizes\r
const n = 3;\tk: int\t= -(n + 4) * n;\r
/* one
   more */ const m = n div 2 mod k;\r
=>
 n@16 = 3@20
 k@23 = *@41 from 32 -@32 (@33 +@36 from 34 n@34 4@38 n@43
 m@71 = mod@83 from 75 div@77 from 75 n@75 2@81 k@87
----
(* two\tlines\r
 *) node main<<const k: int; const j: int>>(x, y: int^2^(k + 1) when not c; c: bool)\r
\treturns (ok: bool);\r
var\ta: int; b, d: bool when (c);\r
let\r
  ok = true; -- all
\tassert\tx = y; tel
function g() returns (o: bool^n) let (o, p) = g(); tel.
=>
 node@18 main@23 k@35 j@49
input x@58: x@58 y@61 2@68 (@70 +@73 from 71 k@71 1@75 c@87
input c@90: c@90
output ok@110: ok@110
local a@126: a@126
local b@134: b@134 d@137 c@151
 ok@163: ok@163 = true@168
 assert@182: =@191 from 189 x@189 y@193
 function@200 g@209
output o@222: o@222 n@230
 (@237: o@238 p@241 = g@246
----
node f() returns (y: int) let
y = 17;
\ty = false;
  y = x;
-- a
y = (x);
/* b\r
 */ y = not x;
\r
y = -x;
(* c *)y = a + b * c - d;

y = a div b / c mod d;
y = a => b => c;
\ty = a or b and c xor d;
  y = a <> b or not c >= d;
-- a
y = a < b and c <= d;
/* b\r
 */ y = a > b;
\r
y = if c then a else b + 1;
(* c *)y = 0 -> pre a;

y = a fby b fby c;
y = current a;
\ty = a when c;
  y = a when not (c);
-- a
y = (a + b) when c when d;
/* b\r
 */ y = a ^ 3 ^ (n + 1);
\r
y = a[n - 1][k];
(* c *)y = a[0 .. n * 2];

y = a | b | c;
y = [a, -b, 3];
\ty = #(a, b);
  y = nor(a, b or c);
-- a
y = g();
/* b\r
 */ y = g(a, h(b));
\r
y = g<<3, -n; k>>(a);
(* c *)y = map<<+, n>>(a, b);

y = red<<g<<2>>, n + 1>>(0, a);
y = fill << g; 4 >> (0);
(y, (* z *) z) = g(a); tel
=>
 node@0 f@5
output y@18: y@18
 y@30: y@30 = 17@34
 y@39: y@39 = false@43
 y@52: y@52 = x@56
 y@64: y@64 = (@68 x@69
 y@83: y@83 = not@87 x@91
 y@96: y@96 = -@100 x@101
 y@111: y@111 = -@125 from 115 +@117 from 115 a@115 *@121 from 119 b@119 c@123 d@127
 y@131: y@131 = mod@147 from 135 /@143 from 135 div@137 from 135 a@135 b@141 c@145 d@151
 y@154: y@154 = =@160 from 158 a@158 =@165 from 163 b@163 c@168
 y@172: y@172 = xor@189 from 176 or@178 from 176 a@176 and@183 from 181 b@181 c@187 d@193
 y@198: y@198 = or@209 from 202 <@204 from 202 a@202 b@207 >@218 from 212 not@212 c@216 d@221
 y@229: y@229 = and@239 from 233 <@235 from 233 a@233 b@237 <@245 from 243 c@243 d@248
 y@261: y@261 = >@267 from 265 a@265 b@269
 y@274: y@274 = if@278 c@281 a@288 +@297 from 295 b@295 1@299
 y@309: y@309 = -@315 from 313 0@313 pre@318 a@322
 y@326: y@326 = fby@332 from 330 a@330 fby@338 from 336 b@336 c@342
 y@345: y@345 = current@349 a@357
 y@361: y@361 = when@367 from 365 a@365 c@372
 y@377: y@377 = when@383 from 381 a@381 c@393
 y@402: y@402 = when@421 from 406 when@414 from 406 (@406 +@409 from 407 a@407 b@411 c@419 d@426
 y@439: y@439 = ^@449 from 443 ^@445 from 443 a@443 3@447 (@451 +@454 from 452 n@452 1@456
 y@462: y@462 = [@474 from 466 [@467 from 466 a@466 -@470 from 468 n@468 1@472 k@475
 y@486: y@486 = [@491 from 490 a@490 0@492 *@499 from 497 n@497 2@501
 y@506: y@506 = |@516 from 510 |@512 from 510 a@510 b@514 c@518
 y@521: y@521 = [@525 a@526 -@529 b@530 3@533
 y@538: y@538 = #@542 a@544 b@547
 y@553: y@553 = nor@557 a@561 or@566 from 564 b@564 c@569
 y@578: y@578 = g@582
 y@597: y@597 = g@601 a@603 h@606 b@608
 y@615: y@615 = g@619 3@622 -@625 n@626 k@629 a@633
 y@644: y@644 = map@648 n@656 a@660 b@663
 y@668: y@668 = red@672 g@677 2@680 +@687 from 685 n@685 1@689 0@693 a@696
 y@700: y@700 = fill@704 g@712 4@715 0@721
 (@725: y@726 z@737 = g@742 a@744";
