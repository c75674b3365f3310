//! Code over planes and words, and the values of its places after a run. The wanted values were
//! worked out apart.

ghost use Rattle.std.specs.Prelude.{◌≡◌, ◌<◌, ◌≤◌, ◌+◌, IfSome, length};
ghost use Rattle.lb_machine.specs.Correct.{HasRoom};

use crate::lanes::operator;
use crate::words::Words;
use lb_lanes::{IntOperator, LaneWord, Width};
use lb_machine::{
    Code, Comparison, FALSE_PLANE, PlaneId, PlaneOperator, TRUE_PLANE, WordId, carry_planes,
    carry_words,
};
use lb_test_support::texts::{Said, around, is_same};
use std::alloc::{AllocError, Global};

// ## Code

// More planes or words than any line makes.
const MOST: u32 = 1000;

/// The places that a command gives.
#[derive(Clone, Copy)]
enum Made {
    Plane(PlaneId),
    Word(WordId),
    Both(WordId, PlaneId),
    /// Whether a plane is within another one.
    Within(bool),
    /// The planes that are marked, a bit for each of the first 64.
    Marks(u64),
    Nothing,
}

fn combined(code: &mut Code, op: PlaneOperator, a: u32, b: u32) -> Result<Made, AllocError>
    requires { HasRoom code.old 2 }
{
    if a < code.planes && b < code.planes {
        return Ok(Made::Plane(code.combine(op, PlaneId(a), PlaneId(b))?));
    }
    Ok(Made::Nothing)
}

fn selected(code: &mut Code, mask: u32, a: u32, b: u32) -> Result<Made, AllocError>
    requires { HasRoom code.old 1 }
{
    if mask < code.planes && a < code.planes && b < code.planes {
        let made = code.select(PlaneId(mask), PlaneId(a), PlaneId(b))?;
        return Ok(Made::Plane(made));
    }
    Ok(Made::Nothing)
}

fn compared(code: &mut Code, c: Comparison, a: u32, b: u32) -> Result<Made, AllocError>
    requires { HasRoom code.old 1 }
{
    if a < code.words && b < code.words {
        return Ok(Made::Plane(code.compare(c, WordId(a), WordId(b))?));
    }
    Ok(Made::Nothing)
}

fn blended(code: &mut Code, mask: u32, a: u32, b: u32) -> Result<Made, AllocError>
    requires { HasRoom code.old 1 }
{
    if mask < code.planes && a < code.words && b < code.words {
        let made = code.blend(PlaneId(mask), WordId(a), WordId(b))?;
        return Ok(Made::Word(made));
    }
    Ok(Made::Nothing)
}

fn operated(
    code: &mut Code,
    op: IntOperator,
    a: u32,
    b: u32,
    active: u32,
) -> Result<Made, AllocError>
    requires { HasRoom code.old 4 }
{
    if 0 < active && active < code.planes && a < code.words && b < code.words {
        let idle = code.combine(PlaneOperator::AndNot, TRUE_PLANE, PlaneId(active))?;
        let made = code.operate(op, WordId(a), WordId(b), idle, FALSE_PLANE, FALSE_PLANE)?;
        return Ok(Made::Both(made.0, made.1));
    }
    Ok(Made::Nothing)
}

fn copied_plane(code: &mut Code, a: u32) -> Result<Made, AllocError>
    requires { HasRoom code.old 1 }
{
    if a < code.planes {
        return Ok(Made::Plane(code.copy_plane(PlaneId(a))?));
    }
    Ok(Made::Nothing)
}

fn copied_word(code: &mut Code, a: u32) -> Result<Made, AllocError>
    requires { HasRoom code.old 1 }
{
    if a < code.words {
        return Ok(Made::Word(code.copy_word(WordId(a))?));
    }
    Ok(Made::Nothing)
}

// The places that a command makes of the numbers behind it.
fn make(code: &mut Code, letter: u8, a: u32, b: u32, c: u32) -> Result<Made, AllocError>
    requires { HasRoom code.old 4 }
{
    match letter {
        b'&' => combined(code, PlaneOperator::And, a, b),
        b'|' => combined(code, PlaneOperator::Or, a, b),
        b'^' => combined(code, PlaneOperator::Xor, a, b),
        b'~' => combined(code, PlaneOperator::AndNot, a, b),
        b'?' => selected(code, a, b, c),
        b'=' => compared(code, Comparison::Equal, a, b),
        b'<' => compared(code, Comparison::Below, a, b),
        b'l' => compared(code, Comparison::AtMost, a, b),
        b'b' => blended(code, a, b, c),
        b'p' => copied_plane(code, a),
        b'w' => copied_word(code, a),
        sign => operated(code, operator(sign), a, b, c),
    }
}

// The planes that are within plane `outer`, a bit for each of the first 64.
fn marked(alloc: Global, code: &Code, outer: u32) -> Result<Made, AllocError> {
    let count = code.planes as usize;
    let mut from = vec![in alloc; false; count]?;
    if outer < code.planes {
        from[outer as usize] = true;
    }
    let mut inner = vec![in alloc; false; count]?;
    code.mark_within(from.as_slice(), inner.as_mut_slice());
    let mut marks = 0;
    for k in 0..count.min(64) {
        if inner[k] {
            marks |= 1u64 << k;
        }
    }
    Ok(Made::Marks(marks))
}

// The places that a command makes, if the code has at most `MOST` planes and words.
fn make_one(alloc: Global, code: &mut Code, command: &str) -> Result<Made, AllocError> {
    let mut words = Words::new(command);
    let letter = match words.word().as_bytes() {
        [letter, ..] => *letter,
        _ => b'+',
    };
    let a = words.place();
    let b = words.place();
    let c = words.place();
    if code.planes > MOST || code.words > MOST {
        return Ok(Made::Nothing);
    }
    match letter {
        b'i' => Ok(Made::Within(code.is_within(PlaneId(a), PlaneId(b)))),
        b'm' => marked(alloc, code, a),
        _ => make(code, letter, a, b, c),
    }
}

// Adds what some commands make to code, and the places that each makes to `all`.
fn make_all(
    alloc: Global,
    code: &mut Code,
    commands: &str,
    all: &mut Vec<Made>,
) -> Result<(), AllocError> {
    for command in commands.split(", ") {
        let one = make_one(alloc, code, command)?;
        all.push(one)?;
    }
    Ok(())
}

// The two integers in lanes 0 and 1, and 0 elsewhere.
fn pair(first: i32, second: i32) -> LaneWord {
    let mut word = LaneWord::splat(0);
    word.set(0, first);
    word.set(1, second);
    word
}

// Word `k`: the first is 0, two are given by their lanes 0 and 1, and those behind are 0.
fn word_at(k: u32, given: &[i32; 4]) -> LaneWord {
    match k {
        1 => pair(given[0], given[1]),
        2 => pair(given[2], given[3]),
        _ => LaneWord::splat(0),
    }
}

// Plane `k`: the first two are false and true, two are given, and those behind are false.
fn plane_at(k: u32, given: (u32, u32)) -> u64 {
    match k {
        1 => u64::MAX,
        2 => u64::from(given.0),
        3 => u64::from(given.1),
        _ => 0,
    }
}

// The first `count` words.
fn words_for(alloc: Global, given: &[i32; 4], count: u32) -> Result<Vec<LaneWord>, AllocError> {
    let mut words = Vec::new(alloc);
    for k in 0..count {
        words.push(word_at(k, given))?;
    }
    Ok(words)
}

// The first `count` planes.
fn planes_for(alloc: Global, given: (u32, u32), count: u32) -> Result<Vec<u64>, AllocError> {
    let mut planes = Vec::new(alloc);
    for k in 0..count {
        planes.push(plane_at(k, given))?;
    }
    Ok(planes)
}

fn push_plane(planes: &[u64], p: PlaneId, said: &mut Said) {
    match planes.get(p.0 as usize) {
        Some(plane) => write!(said, " {}={plane}", p.0),
        None => write!(said, " no {}", p.0),
    }
}

fn push_word(words: &[LaneWord], w: WordId, said: &mut Said) {
    match words.get(w.0 as usize) {
        Some(word) => {
            write!(
                said,
                " w{}={},{},{}",
                w.0,
                word.get(0),
                word.get(1),
                word.get(2)
            )
        }
        None => write!(said, " no w{}", w.0),
    }
}

// The values of the places that the commands made.
fn push_made(planes: &[u64], words: &[LaneWord], all: &[Made], said: &mut Said) {
    for one in all {
        match *one {
            Made::Plane(p) => push_plane(planes, p, said),
            Made::Word(w) => push_word(words, w, said),
            Made::Both(w, p) => {
                push_word(words, w, said);
                push_plane(planes, p, said);
            }
            Made::Within(is_within) => write!(said, " {is_within}"),
            Made::Marks(marks) => write!(said, " {marks:b}"),
            Made::Nothing => said.push_str(" nothing"),
        }
    }
}

// The number of instructions of code.
fn instructions(code: &Code) -> usize {
    let mut count = code.instructions.choices.len();
    for block in &code.instructions.blocks {
        count = count.saturating_add(block.choices.len()).saturating_add(1);
    }
    count
}

// Runs code, if it has just its room, and reports its number of instructions and the places made.
fn push_run(
    code: &Code,
    planes: &mut [u64],
    words: &mut [LaneWord],
    all: &[Made],
    said: &mut Said,
) {
    if planes.len() != code.planes as usize || words.len() != code.words as usize {
        return said.push_str("no room");
    }
    code.run(planes, words, Width::all());
    write!(said, "{}:", instructions(code));
    push_made(planes, words, all, said);
}

// The two planes and the lanes 0 and 1 of the two words that a text spells.
fn given_by(text: &str) -> ((u32, u32), [i32; 4]) {
    let mut given = Words::new(text);
    let planes = (given.place(), given.place());
    let words = [
        given.number(),
        given.number(),
        given.number(),
        given.number(),
    ];
    (planes, words)
}

// Runs code as `push_run` on two planes and lanes 0 and 1 of two words.
fn push_built(
    alloc: Global,
    code: &Code,
    all: &[Made],
    given: &str,
    said: &mut Said,
) -> Result<(), AllocError> {
    let (given_planes, given_words) = given_by(given);
    let mut planes = planes_for(alloc, given_planes, code.planes)?;
    let mut words = words_for(alloc, &given_words, code.words)?;
    push_run(code, &mut planes, &mut words, all, said);
    Ok(())
}

/// The number of instructions of some commands over four planes and three words, and what each
/// makes, after a run on two planes and lanes 0 and 1 of two words.
pub fn push_results(alloc: Global, asked: &str, said: &mut Said) {
    let (given, commands) = around(asked, " | ");
    let mut code = Code::new(alloc, 4, 3);
    let mut all = Vec::new(alloc);
    let is_made = make_all(alloc, &mut code, commands, &mut all).is_ok();
    if !is_made || push_built(alloc, &code, &all, given, said).is_err() {
        said.cut();
    }
}

// Rows: two planes, lanes 0 and 1 of two words, and commands. Then the number of instructions, and
// the places that the commands give. `~` is "and not", `?` chooses a plane, `l` is "at most", and
// `b` chooses a word. An operator has the plane of its lanes behind its operands, and its faults
// follow its results. What is there already takes no instruction. `^` first makes the negation of
// its second plane, and an operator the plane of the lanes that are not its own. A test and the
// choice of a word by it right behind are one instruction. `i` asks whether a plane is known to be
// within another one, and `m` for all planes that are within one, plane 0 last.
pub const CODES: &str = "\
12 10 0 0 0 0 | & 2 3, | 2 3, ^ 2 3, ~ 2 3, ~ 3 2, ~ 1 2 => \
7: 4=8 5=14 7=6 8=4 9=2 10=18446744073709551603
12 10 0 0 0 0 | & 2 1, & 0 2, | 2 0, | 2 1, ^ 2 0, ^ 3 3, ~ 2 0, ~ 2 2 => \
2: 2=12 0=0 2=12 1=18446744073709551615 2=12 5=0 2=12 0=0
12 10 0 0 0 0 | & 3 3, & 1 2, | 3 3, | 0 3, ^ 0 2, ^ 2 1, ~ 2 1, ~ 0 3 => \
1: 3=10 2=12 3=10 3=10 2=12 4=18446744073709551603 0=0 0=0
5 12 0 0 0 0 | ? 2 3 1, ? 3 2 0, ? 1 2 3, ? 0 2 3, ? 2 3 3 => \
2: 4=18446744073709551614 5=4 2=5 3=12 3=12
5 12 3 -4 3 7 | = 1 2, < 1 2, l 1 2, < 2 1, l 2 1, = 1 1 => \
6: 4=18446744073709551613 5=2 6=18446744073709551615 7=0 8=18446744073709551613 \
9=18446744073709551615
5 12 3 -4 3 7 | < 1 2, b 4 1 2, l 2 1, b 5 1 2, = 1 2, b 6 2 1 => \
3: 4=2 w3=3,-4,0 5=18446744073709551613 w4=3,7,0 6=18446744073709551613 w5=3,-4,0
1 2 3 -4 5 7 | b 2 1 2, b 3 1 2, b 1 1 2, b 0 1 2, b 2 1 1 => \
2: w3=3,7,0 w4=5,-4,0 w1=3,-4,0 w2=5,7,0 w1=3,-4,0
3 1 2147483647 -7 1 2 | + 1 2 2, + 1 2 3, - 1 2 2, * 1 2 2, / 1 2 2, % 1 2 2 => \
12: w3=0,-5,0 5=1 w4=0,0,0 7=1 w5=2147483646,-9,0 9=0 w6=2147483647,-14,0 11=0 \
w7=2147483647,-3,0 13=0 w8=0,-1,0 15=0
3 2 9 -2147483648 0 -1 | / 1 2 2, / 1 2 3, % 1 2 1, - 0 1 2 => \
7: w3=0,0,0 5=3 w4=0,0,0 7=2 w5=0,0,0 8=18446744073709551615 w6=-9,0,0 10=2
6 5 2 3 4 5 | p 2, w 1, p 0, w 0, & 4 3, + 3 2 1 => 6: 4=6 w3=2,3,0 5=0 w4=0,0,0 6=4 w5=6,8,0 7=0
3 0 1 10 2 20 | + 1 2 2, + 3 3 2, < 2 4, & 8 2, b 8 4 0, | 5 7, p 8 => \
9: w3=3,30,0 5=0 w4=6,60,0 7=0 8=3 9=3 w5=6,60,0 10=0 11=3
12 10 0 0 0 0 | | 2 3, ^ 2 3, | 4 6, = 1 2, i 2 4, i 4 2, i 6 7, i 5 7, m 7, m 4, m 6 => \
5: 4=14 6=6 7=14 8=18446744073709551615 true false true false 1011100 1100 0";

// ## Carrying

// Carries two of six planes to the places from `first` on, if they stand behind these.
fn push_planes(first: u32, a: u32, b: u32, said: &mut Said) {
    if first > 4 || a < first + 2 || a > 5 || b < first + 2 || b > 5 {
        return said.push_str("no room");
    }
    let mut planes = [10, 11, 12, 13, 14, 15];
    carry_planes(&mut planes, first, &[PlaneId(a), PlaneId(b)]);
    for plane in &planes {
        write!(said, " {plane}");
    }
}

// Carries two of six words to the places from `first` on, if they stand behind these.
fn push_words(first: u32, a: u32, b: u32, said: &mut Said) {
    if first > 4 || a < first + 2 || a > 5 || b < first + 2 || b > 5 {
        return said.push_str("no room");
    }
    let mut words = [
        pair(10, -10),
        pair(11, -11),
        pair(12, -12),
        pair(13, -13),
        pair(14, -14),
        pair(15, -15),
    ];
    carry_words(&mut words, first, &[WordId(a), WordId(b)]);
    for word in &words {
        write!(said, " {},{}", word.get(0), word.get(1));
    }
}

/// The planes, or the words, after two of them were carried to the first place and the next.
pub fn push_carried(asked: &str, said: &mut Said) {
    let mut words = Words::new(asked);
    let kind = words.word();
    let first = words.place();
    let a = words.place();
    let b = words.place();
    said.push_str("now");
    if is_same(kind, "planes") {
        push_planes(first, a, b, said);
    } else {
        push_words(first, a, b, said);
    }
}

// Rows: the first place, and the two that are carried there and to the next place. Then all six.
pub const CARRIES: &str = "\
planes 0 2 3 => now 12 13 12 13 14 15
planes 0 5 2 => now 15 12 12 13 14 15
planes 1 4 4 => now 10 14 14 13 14 15
planes 3 5 5 => now 10 11 12 15 15 15
words 0 2 3 => now 12,-12 13,-13 12,-12 13,-13 14,-14 15,-15
words 0 5 2 => now 15,-15 12,-12 12,-12 13,-13 14,-14 15,-15
words 1 4 4 => now 10,-10 14,-14 14,-14 13,-13 14,-14 15,-15
words 3 5 5 => now 10,-10 11,-11 12,-12 15,-15 15,-15 15,-15";
