//! Trace texts and the traces that are read of them, however records end and cells are written.

use lb_static::Signature;
use lb_syntax::Kind;
use lb_test_support::texts::{Said, around, is_same, push_text};
use lb_trace::{TraceError, read_loaded, read_traces, read_traces_by};
use lb_traces::TraceSet;
use std::alloc::{AllocError, Global};
use std::thread::Threads;

// The names of the traces, each with the cells of its instants.
fn push_traces(alloc: Global, set: &TraceSet, said: &mut Said) {
    let mut row = Vec::new(alloc);
    for k in 0..set.len() {
        write!(said, "{}:", set.name(k));
        for t in 0..set.length(k) {
            said.push_str(" (");
            row.clear();
            if set.copy_row(k, t, &mut row).is_err() {
                said.cut();
            }
            for cell in row.as_slice() {
                write!(said, " {cell}");
            }
            said.push_str(" )");
        }
        said.push_str(";");
    }
}

// The traces that are read of a text under a signature, or its refusal.
fn push_read(
    alloc: Global,
    signature: &Result<Signature, AllocError>,
    asked: &str,
    said: &mut Said,
) {
    let mut text = Said::new(alloc);
    push_text(asked, &mut text);
    match (signature, text.whole()) {
        (Ok(signature), Ok(text)) => {
            push_outcome(alloc, &read_traces(alloc, signature, text.as_bytes()), said)
        }
        _ => said.cut(),
    }
}

// The signature of an integer `x` and a Boolean `c`.
fn two_columns(alloc: Global) -> Result<Signature, AllocError> {
    let mut signature = Signature::new(alloc);
    signature.push(String::from_str(alloc, "x")?, Kind::Int)?;
    signature.push(String::from_str(alloc, "c")?, Kind::Bool)?;
    Ok(signature)
}

// The signature of integers `x` and `y` and a Boolean `c`.
fn three_columns(alloc: Global) -> Result<Signature, AllocError> {
    let mut signature = Signature::new(alloc);
    signature.push(String::from_str(alloc, "x")?, Kind::Int)?;
    signature.push(String::from_str(alloc, "y")?, Kind::Int)?;
    signature.push(String::from_str(alloc, "c")?, Kind::Bool)?;
    Ok(signature)
}

/// The traces of a text whose columns are an integer `x` and a Boolean `c`, or its refusal.
pub fn push_answer(alloc: Global, asked: &str, said: &mut Said) {
    push_read(alloc, &two_columns(alloc), asked, said);
}

/// `push_answer` for a text whose columns are integers `x` and `y` and a Boolean `c`.
pub fn push_three(alloc: Global, asked: &str, said: &mut Said) {
    push_read(alloc, &three_columns(alloc), asked, said);
}

// The traces that were read, or the refusal.
fn push_outcome(alloc: Global, read: &Result<TraceSet, TraceError>, said: &mut Said) {
    match read {
        Ok(set) => push_traces(alloc, set, said),
        Err(error) => write!(said, "E{} {error}", error.number()),
    }
}

// The place behind the line that begins at `at`, if the line has an end.
fn line_end(text: &[u8], at: usize) -> Option<usize> {
    for (k, b) in text.iter().enumerate() {
        if k >= at && *b == b'\n' {
            return Some(k.saturating_add(1));
        }
    }
    None
}

// Chunk `k` of a text: for 1 the bytes from `at` to `end`, else the bytes from `end` on.
fn chunk_at(alloc: Global, text: &[u8], at: usize, end: usize, k: usize) -> Option<Vec<u8>> {
    let chunk = if k == 1 {
        text.get(at..end)
    } else {
        text.get(end..)
    };
    let Ok(copy) = chunk?.to_vec(alloc) else {
        return None;
    };
    Some(copy)
}

// The traces of a text in three chunks, the second of which is the line at `at`; none if the text
// is not read in chunks.
fn read_at<R: Threads + Sync>(
    rt: &R,
    alloc: Global,
    signature: &Signature,
    body: &[u8],
    at: usize,
) -> Option<TraceSet> {
    let end = line_end(body, at);
    let numbers: &[usize] = if end.is_some() { &[1, 2] } else { &[1] };
    let end = end.unwrap_or(body.len());
    let load = |k: usize| -> Option<Vec<u8>> { chunk_at(alloc, body, at, end, k) };
    read_loaded(rt, alloc, signature, body.get(..at)?, &load, numbers, 2)
}

// The first reading of a text in chunks that differs from `said`. The text is cut at each of its
// places.
fn push_by_chunks<R: Threads + Sync>(
    rt: &R,
    alloc: Global,
    signature: &Signature,
    body: &[u8],
    said: &mut Said,
) {
    let mut other = Said::new(alloc);
    for at in 0..body.len() {
        let Some(set) = &read_at(rt, alloc, signature, body, at) else {
            continue;
        };
        other.clear();
        push_traces(alloc, set, &mut other);
        if !is_same(other.as_str(), said.as_str()) {
            write!(said, " and cut at {at} {}", other.as_str());
            return;
        }
    }
}

// Whether this number of workers read what stands in `said`. If not, what they read is added.
fn is_read_by<R: Threads + Sync>(
    rt: &R,
    alloc: Global,
    signature: &Signature,
    body: &[u8],
    workers: u32,
    said: &mut Said,
) -> bool {
    let mut other = Said::new(alloc);
    let read = read_traces_by(rt, alloc, signature, body, workers);
    push_outcome(alloc, &read, &mut other);
    if is_same(other.as_str(), said.as_str()) {
        return true;
    }
    write!(said, " and with {workers} workers {}", other.as_str());
    false
}

// The traces of a text, or its refusal, and the first reading that differs, by a number of workers
// or in chunks.
fn push_each_reading<R: Threads + Sync>(
    rt: &R,
    alloc: Global,
    signature: &Signature,
    body: &[u8],
    said: &mut Said,
) {
    push_outcome(alloc, &read_traces(alloc, signature, body), said);
    for workers in 0..24u32 {
        if !is_read_by(rt, alloc, signature, body, workers, said) {
            return;
        }
    }
    push_by_chunks(rt, alloc, signature, body, said);
}

/// `push_each_reading` for a text whose columns are an integer `x` and a Boolean `c`.
pub fn push_by_workers<R: Threads + Sync>(rt: &R, alloc: Global, asked: &str, said: &mut Said) {
    let mut text = Said::new(alloc);
    push_text(asked, &mut text);
    match (&two_columns(alloc), text.whole()) {
        (Ok(signature), Ok(text)) => {
            push_each_reading(rt, alloc, signature, text.as_bytes(), said)
        }
        _ => said.cut(),
    }
}

// Records that end in each way, with and without an end of the last; empty lines; a byte order
// mark; a quote in the first, a middle and the last cell, and in the last byte; columns in another
// order; numbers of each length; and refusals, of texts with quotes and without.
pub const READINGS: &str = "\
trace,x,c/a,1,0/a,5,1/b,-7,true/ => a: ( 1 0 ) ( 5 1 );b: ( -7 1 );
trace,x,c/a,1,0/a,5,1/b,-7,true => a: ( 1 0 ) ( 5 1 );b: ( -7 1 );
trace,x,c\\/a,1,0\\/a,5,1\\/b,-7,true\\/ => a: ( 1 0 ) ( 5 1 );b: ( -7 1 );
trace,x,c\\a,1,0\\a,5,1\\b,-7,true\\ => a: ( 1 0 ) ( 5 1 );b: ( -7 1 );
//trace,x,c\\//a,1,0/\\/a,5,1\\\\b,-7,true// => a: ( 1 0 ) ( 5 1 );b: ( -7 1 );
^trace,x,c/a,1,0/a,5,1/b,-7,true/ => a: ( 1 0 ) ( 5 1 );b: ( -7 1 );
'trace',x,c/a,1,0/a,5,1/b,-7,true/ => a: ( 1 0 ) ( 5 1 );b: ( -7 1 );
trace,x,c/a,1,0/a,'5',1/b,-7,true/ => a: ( 1 0 ) ( 5 1 );b: ( -7 1 );
trace,x,c/a,1,0/a,5,1/b,-7,'true' => a: ( 1 0 ) ( 5 1 );b: ( -7 1 );
trace,x,c\\/'a',1,0\\/'a',5,1/'b',-7,'true'/ => a: ( 1 0 ) ( 5 1 );b: ( -7 1 );
trace,c,x/a,0,1/a,1,5/b,true,-7/ => a: ( 1 0 ) ( 5 1 );b: ( -7 1 );
^trace,c,x\\a,0,1\\a,1,'5'\\b,true,-7\\ => a: ( 1 0 ) ( 5 1 );b: ( -7 1 );
trace,x,c => 
^'trace',x,c/ => 
trace,x,c/a,7,0/a,42,1/a,-100,0 => a: ( 7 0 ) ( 42 1 ) ( -100 0 );
trace,x,c/a,0,0/a,007,1/a,1000,0 => a: ( 0 0 ) ( 7 1 ) ( 1000 0 );
trace,x,c/a,1,0/a,999999999,1/a,-999999999,0 => a: ( 1 0 ) ( 999999999 1 ) ( -999999999 0 );
trace,x,c/a,1234,0/a,-12345,1/a,654321,0/a,1,1 => a: ( 1234 0 ) ( -12345 1 ) ( 654321 0 ) ( 1 1 );
trace,x,c/a,-1234567,1/a,87654321,0/a,1,1 => a: ( -1234567 1 ) ( 87654321 0 ) ( 1 1 );
trace,x,c/a,12345,0/a,00123,1/a,12345x,0/ => E16 the cell of record 3 in column 0 is no value of it
trace,x,c/a,1,0/a,2147483647,1/a,-2147483648,0 => a: ( 1 0 ) ( 2147483647 1 ) ( -2147483648 0 );
trace,x,c/a,1,0/a,00000000000000000012,false/a,-0,true => a: ( 1 0 ) ( 12 0 ) ( 0 1 );
 => E14 the first record is not `trace` and the name of each scalar input
/\\/ => E14 the first record is not `trace` and the name of each scalar input
trace,x/a,1 => E14 the first record is not `trace` and the name of each scalar input
trace,x,c/a,1,0/a,1/ => E15 record 2 has 1 cells, and the header 2
trace,x,c/a,1,0/a,1,0,0/ => E15 record 2 has 3 cells, and the header 2
trace,x,c/a,1,0/a,'1'/ => E15 record 2 has 1 cells, and the header 2
trace,x,c/a,1,0/a,2147483648,0/ => E16 the cell of record 2 in column 0 is no value of it
trace,x,c/a,1,0/a,-2147483649,0/ => E16 the cell of record 2 in column 0 is no value of it
trace,x,c/a,1,0/a,1,2/ => E16 the cell of record 2 in column 1 is no value of it
trace,x,c/a,1,0/a,1,'2'/ => E16 the cell of record 2 in column 1 is no value of it
trace,x,c/a,1,0/a,,0/ => E16 the cell of record 2 in column 0 is no value of it
trace,x,c/a,1,0/a,-,0/ => E16 the cell of record 2 in column 0 is no value of it
trace,x,c/a,1,0/a,1 ,0/ => E16 the cell of record 2 in column 0 is no value of it
trace,x,c/a,1,0/b,1,0/a,x,0/ => E17 the trace name of record 3 is ill-formed or comes back
trace,x,c/a,1,0/'b',1,0/a,x,0/ => E17 the trace name of record 3 is ill-formed or comes back
trace,x,c/a,1,0/b,1,0/a,1,0/ => E17 the trace name of record 3 is ill-formed or comes back
trace,x,c/a,1,0/b,1,0/a,1/ => E15 record 3 has 1 cells, and the header 2
trace,x,c/a,1,0/b+,1,0/ => E17 the trace name of record 2 is ill-formed or comes back
trace,x,c/a,1,0/b,1,2/ => E16 the cell of record 2 in column 1 is no value of it
trace,x,c/,1,0/ => E17 the trace name of record 1 is ill-formed or comes back";

// Columns in each of their six orders, with cells of each length and in each place of a trace; and
// refusals where they stand in another order.
pub const ORDERS: &str = "\
trace,x,y,c/a,1,2,0/a,30,-4,1/b,500,6000,true/ => a: ( 1 2 0 ) ( 30 -4 1 );b: ( 500 6000 1 );
trace,x,c,y/a,1,0,2/a,30,1,-4/b,500,true,6000/ => a: ( 1 2 0 ) ( 30 -4 1 );b: ( 500 6000 1 );
trace,y,x,c/a,2,1,0/a,-4,30,1/b,6000,500,true/ => a: ( 1 2 0 ) ( 30 -4 1 );b: ( 500 6000 1 );
trace,y,c,x/a,2,0,1/a,-4,1,30/b,6000,true,500/ => a: ( 1 2 0 ) ( 30 -4 1 );b: ( 500 6000 1 );
trace,c,x,y/a,0,1,2/a,1,30,-4/b,true,500,6000/ => a: ( 1 2 0 ) ( 30 -4 1 );b: ( 500 6000 1 );
trace,c,y,x/a,0,2,1/a,1,-4,30/b,true,6000,500 => a: ( 1 2 0 ) ( 30 -4 1 );b: ( 500 6000 1 );
trace,y,c,x\\a,2,'0',1\\a,-4,1,30\\'b',6,1,5\\ => a: ( 1 2 0 ) ( 30 -4 1 );b: ( 5 6 1 );
trace,y,c,x/a,2,0,1/b,2,1,1/c,2,0,1/ => a: ( 1 2 0 );b: ( 1 2 1 );c: ( 1 2 0 );
trace,c,y,x/a,0,2147483647,-2147483648/ => a: ( -2147483648 2147483647 0 );
trace,c,y,x/a,0,2,1/a,0,2147483648,1/ => E16 the cell of record 2 in column 1 is no value of it
trace,c,y,x/a,0,2,1/a,2,1,1/ => E16 the cell of record 2 in column 0 is no value of it
trace,c,y,x/a,0,2,1/a,0,2/ => E15 record 2 has 2 cells, and the header 3
trace,c,y,x/a,0,2,1/a,0,2,1,1/ => E15 record 2 has 4 cells, and the header 3
trace,c,y,x/a,0,2,1/b,0,2,1/a,0,2,1/ => E17 the trace name of record 3 is ill-formed or comes back
trace,c,x,x/a,0,2,1/ => E14 the first record is not `trace` and the name of each scalar input
trace,c,x/a,0,2/ => E14 the first record is not `trace` and the name of each scalar input
trace,c,y,x,z/a,0,2,1,3/ => E14 the first record is not `trace` and the name of each scalar input";

// ## Booleans as bits

// The words of the Booleans of each instant of each trace.
fn push_words(set: &TraceSet, said: &mut Said) {
    for k in 0..set.len() {
        write!(said, "{}:", set.name(k));
        for t in 0..set.length(k) {
            said.push_str(" (");
            for word in set.bits(k, t, 1) {
                write!(said, " {word}");
            }
            said.push_str(" )");
        }
        said.push_str(";");
    }
}

// Columns `c0`, `c1` and so on, of integers where a letter is `i` and of Booleans elsewhere, and
// the header of their texts.
fn signature_of(alloc: Global, kinds: &str, text: &mut Said) -> Result<Signature, AllocError> {
    let mut signature = Signature::new(alloc);
    text.push_str("trace");
    for letter in kinds.as_bytes() {
        let column = signature.len();
        if column < 1023 {
            let mut name = String::new(alloc);
            write!(name, "c{column}")?;
            let kind = if *letter == b'i' {
                Kind::Int
            } else {
                Kind::Bool
            };
            signature.push(name, kind)?;
            write!(text, ",c{column}");
        }
    }
    Ok(signature)
}

// The traces of some records, which stand behind the kinds of their columns. None where memory is
// refused.
fn read_kinds(alloc: Global, asked: &str, said: &mut Said) -> Option<Result<TraceSet, TraceError>> {
    let (kinds, records) = around(asked, " ");
    let mut text = Said::new(alloc);
    let Ok(signature) = signature_of(alloc, kinds, &mut text) else {
        said.cut();
        return None;
    };
    for record in records.split(' ') {
        write!(text, "\n{record}");
    }
    said.cut_with(&text);
    Some(read_traces(alloc, &signature, text.as_str().as_bytes()))
}

/// The bits that are kept of the Booleans of some records, which stand behind the kinds of their
/// columns.
pub fn push_bits(alloc: Global, asked: &str, said: &mut Said) {
    match &read_kinds(alloc, asked, said) {
        Some(Ok(set)) => push_words(set, said),
        Some(Err(error)) => write!(said, "E{} {error}", error.number()),
        None => {}
    }
}

/// The traces of some records, which stand behind the kinds of their columns.
pub fn push_kinds(alloc: Global, asked: &str, said: &mut Said) {
    if let Some(read) = &read_kinds(alloc, asked, said) {
        push_outcome(alloc, read, said);
    }
}

// The kinds of columns and some records: no Boolean, one, and some among integers; sixty-four,
// sixty-five, and a hundred and thirty.
pub const BITS: &str = "\
i a,5 a,-5 b,0 => a: ( ) ( );b: ( );
b a,1 a,0 b,true => a: ( 1 ) ( 0 );b: ( 1 );
ibib a,7,1,-1,0 a,-7,0,0,1 b,-1,1,-2147483648,1 => a: ( 1 ) ( 2 );b: ( 3 );
bb a,1,0 b,0,1 b,1,1 c,0,0 => a: ( 1 );b: ( 2 ) ( 3 );c: ( 0 );
{32 bb} a{32 ,1,0} a{63 ,0},1 => a: ( 6148914691236517205 ) ( 9223372036854775808 );
{32 bb}ib a{32 ,1,0},-3,1 a{32 ,0,1},9,0 => a: ( 6148914691236517205 1 ) ( 12297829382473034410 0 );
{65 bib} a{65 ,1,-9,0} => a: ( 6148914691236517205 6148914691236517205 1 );
{65 bib} a{64 ,0,5,0},0,5,1 => a: ( 0 0 2 );";

// Booleans in groups of many sizes, each followed by its opposite; one that is spelled out at each
// place of a group; and a cell that is no value, at each place.
pub const TRUTHS: &str = "\
{5 b} a,1,1,1,0,0 a,0,0,0,1,1 bc,1,0,0,0,1 => a: ( 7 ) ( 24 );bc: ( 17 );
{7 b} a,1,0,0,1,1,0,0 a,0,1,1,0,0,1,1 bc,1,0,0,0,0,0,1 => a: ( 25 ) ( 102 );bc: ( 65 );
{8 b} a,0,1,1,0,0,0,0,0 a,1,0,0,1,1,1,1,1 bc,1,0,0,0,0,0,0,1 => a: ( 6 ) ( 249 );bc: ( 129 );
{9 b} a,0,0,0,1,1,1,0,0,1 a,1,1,1,0,0,0,1,1,0 bc,1,0,0,0,0,0,0,0,1 => \
a: ( 312 ) ( 199 );bc: ( 257 );
{12 b} a,1,0,0,1,1,1,0,1,1,0,1,0 a,0,1,1,0,0,0,1,0,0,1,0,1 bc,1,0,0,0,0,0,0,0,0,0,0,1 => \
a: ( 1465 ) ( 2630 );bc: ( 2049 );
{15 b} a,0,0,1,0,1,1,0,0,0,0,0,0,1,1,1 a,1,1,0,1,0,0,1,1,1,1,1,1,0,0,0 \
bc,1,0,0,0,0,0,0,0,0,0,0,0,0,0,1 => \
a: ( 28724 ) ( 4043 );bc: ( 16385 );
{16 b} a,1,0,0,1,1,0,1,1,0,1,0,0,0,0,0,0 a,0,1,1,0,0,1,0,0,1,0,1,1,1,1,1,1 \
bc,1,0,0,0,0,0,0,0,0,0,0,0,0,0,0,1 => \
a: ( 729 ) ( 64806 );bc: ( 32769 );
{17 b} a,1,1,0,0,1,0,0,1,1,0,1,1,0,0,1,1,0 a,0,0,1,1,0,1,1,0,0,1,0,0,1,1,0,0,1 \
bc,1,0,0,0,0,0,0,0,0,0,0,0,0,0,0,0,1 => \
a: ( 52627 ) ( 78444 );bc: ( 65537 );
{16 b} a,true,0,0,0,0,0,0,0,0,0,0,0,0,0,0,0 a,false,1,1,1,1,1,1,1,1,1,1,1,1,1,1,1 => \
a: ( 1 ) ( 65534 );
{16 b} a,0,0,0,true,0,0,0,0,0,0,0,0,0,0,0,0 a,1,1,1,false,1,1,1,1,1,1,1,1,1,1,1,1 => \
a: ( 8 ) ( 65527 );
{16 b} a,0,0,0,0,0,0,0,true,0,0,0,0,0,0,0,0 a,1,1,1,1,1,1,1,false,1,1,1,1,1,1,1,1 => \
a: ( 128 ) ( 65407 );
{16 b} a,0,0,0,0,0,0,0,0,true,0,0,0,0,0,0,0 a,1,1,1,1,1,1,1,1,false,1,1,1,1,1,1,1 => \
a: ( 256 ) ( 65279 );
{16 b} a,0,0,0,0,0,0,0,0,0,0,0,0,0,0,0,true a,1,1,1,1,1,1,1,1,1,1,1,1,1,1,1,false => \
a: ( 32768 ) ( 32767 );
{9 b} a,0,0,0,0,0,0,0,0,0 a,2,1,1,1,1,1,1,1,1 a,1,1,1,1,1,1,1,1,1 => \
E16 the cell of record 2 in column 0 is no value of it
{9 b} a,0,0,0,0,0,0,0,0,0 a,1,1,1,,1,1,1,1,1 a,1,1,1,1,1,1,1,1,1 => \
E16 the cell of record 2 in column 3 is no value of it
{9 b} a,0,0,0,0,0,0,0,0,0 a,1,1,1,1,1,1,01,1,1 a,1,1,1,1,1,1,1,1,1 => \
E16 the cell of record 2 in column 6 is no value of it
{9 b} a,0,0,0,0,0,0,0,0,0 a,1,1,1,1,1,1,1,2,1 a,1,1,1,1,1,1,1,1,1 => \
E16 the cell of record 2 in column 7 is no value of it
{9 b} a,0,0,0,0,0,0,0,0,0 a,1,1,1,1,1,1,1,1,x a,1,1,1,1,1,1,1,1,1 => \
E16 the cell of record 2 in column 8 is no value of it
{9 b} a,0,0,0,0,0,0,0,0,0 a,1,1,1,1,1,1,1,-1,1 a,1,1,1,1,1,1,1,1,1 => \
E16 the cell of record 2 in column 7 is no value of it
{9 b} a,0,0,0,0,0,0,0,0,0 a,1,1,1,1,1,1,1,1_,1 a,1,1,1,1,1,1,1,1,1 => \
E16 the cell of record 2 in column 7 is no value of it
{8 b} a,1,1,1,1,1,1,1,1 a,1,1,1,1,1,1,1 => E15 record 2 has 7 cells, and the header 8
{8 b} a,1,1,1,1,1,1,1,1 a,1,1,1,1,1,1,1,1,1 => E15 record 2 has 9 cells, and the header 8
{8 b}i{8 b} a,1,0,1,1,0,0,1,0,-12,0,1,1,1,0,0,0,1 b,0,0,0,0,0,0,0,1,345678,1,0,0,0,0,0,0,0 => \
a: ( 36429 );b: ( 384 );
bbbi{5 b} a,1,0,1,2147483647,1,1,0,1,0 a,0,1,0,0,0,0,1,0,1 => a: ( 93 ) ( 162 );";

// Integers in groups of four and Booleans in groups of some, with the last cells behind them; a
// cell that is long, or spelled out, within a trace; and records with a fault.
pub const GROUPS: &str = "\
{8 i}iib a,-15109,-60455,3501,70639,-87342,-81011,40479,-75324,-4136,52775,0 \
a,33022,-43718,-90170,-77469,13678,9622,-81687,-36911,-76220,44454,1 \
a,-84504,48231,-67546,-41479,65315,64478,52830,-83783,51285,53497,1 \
b,-87000,-42044,-87788,45927,-65089,-24080,9875,-62184,41738,-69121,1 => \
a: ( -15109 -60455 3501 70639 -87342 -81011 40479 -75324 -4136 52775 0 ) ( 33022 -43718 -90170 \
-77469 13678 9622 -81687 -36911 -76220 44454 1 ) ( -84504 48231 -67546 -41479 65315 64478 52830 \
-83783 51285 53497 1 );b: ( -87000 -42044 -87788 45927 -65089 -24080 9875 -62184 41738 -69121 1 );
{4 i}{5 b}i a,46869,78783,-52623,-72984,0,1,0,0,0,62270 \
a,-46009,30133,78363,-1234567,1,true,1,1,1,-21417 \
a,87654321,-52875,83238,-36011,0,1,1,1,1,-24518 a,59635,-80810,-69049,34201,1,0,1,0,1,0000000012 \
a,-89722,75169,-79652,46297,1,1,1,1,1,-81974 a,-75464,-29237,24283,82726,0,0,1,1,1,87860 => \
a: ( 46869 78783 -52623 -72984 0 1 0 0 0 62270 ) ( -46009 30133 78363 -1234567 1 1 1 1 1 -21417 \
) ( 87654321 -52875 83238 -36011 0 1 1 1 1 -24518 ) ( 59635 -80810 -69049 34201 1 0 1 0 1 12 ) ( \
-89722 75169 -79652 46297 1 1 1 1 1 -81974 ) ( -75464 -29237 24283 82726 0 0 1 1 1 87860 );
{3 b}{4 i}{4 b} a,1,1,0,21031,-6817,-55947,60149,0,1,0,0 a,1,0,0,4307,2486,30157,-78876,0,1,1,1 \
b,0,1,1,85178,8868,-5950,78972,1,0,0,0 b,0,0,0,72627,-38832,-96837,27131,0,1,1,0 \
b,0,1,1,59859,48463,-16477,-67103,0,1,1,1 => \
a: ( 1 1 0 21031 -6817 -55947 60149 0 1 0 0 ) ( 1 0 0 4307 2486 30157 -78876 0 1 1 1 );b: ( 0 1 \
1 85178 8868 -5950 78972 1 0 0 0 ) ( 0 0 0 72627 -38832 -96837 27131 0 1 1 0 ) ( 0 1 1 59859 \
48463 -16477 -67103 0 1 1 1 );
{18 b}{4 i} a,1,1,0,1,1,0,0,0,0,1,0,0,1,0,0,0,0,0,-4681,60888,-93315,-81567 \
a,0,1,0,1,1,1,1,0,0,1,1,1,1,1,0,0,0,1,94079,-30595,25468,81419 \
a,0,0,0,1,0,0,1,0,1,1,0,1,0,1,0,0,0,1,93954,-40561,-47592,35696 \
a,1,1,0,0,1,1,1,0,1,1,1,1,0,0,0,0,1,0,-11464,-46424,26525,63596 => \
a: ( 1 1 0 1 1 0 0 0 0 1 0 0 1 0 0 0 0 0 -4681 60888 -93315 -81567 ) ( 0 1 0 1 1 1 1 0 0 1 1 1 1 \
1 0 0 0 1 94079 -30595 25468 81419 ) ( 0 0 0 1 0 0 1 0 1 1 0 1 0 1 0 0 0 1 93954 -40561 -47592 \
35696 ) ( 1 1 0 0 1 1 1 0 1 1 1 1 0 0 0 0 1 0 -11464 -46424 26525 63596 );
{4 i}{3 b} a,59977,-99499,25692,71175,1,0,0 a,1853,86514,2147483648,-47749,1,0,1 \
a,66683,-12832,-77259,89223,1,1,1 a,94866,-77738,90002,-58356,0,0,0 \
a,-60376,54878,21990,71930,0,1,1 a,-59128,43828,43730,-65663,0,0,0 => \
E16 the cell of record 2 in column 2 is no value of it
{4 i}{3 b} a,38041,96476,-63496,13721,0,0,0 a,-33983,-44221,-23200,31377,0,1,2 \
a,42699,9842,-65639,-84034,1,1,1 a,31505,-65721,39415,-60197,0,1,0 \
a,59529,-98969,-60730,-54820,0,1,0 a,45877,-83811,-14545,78870,1,0,0 => \
E16 the cell of record 2 in column 6 is no value of it
{4 i}{3 b} a,-34858,-49850,-27407,-88937,0,1,0 a,99228,-83388,16195,-14642,0,1,1 \
a,33211,39798,25315,33105,0,1,0,1 a,17317,-64051,9219,-68117,1,1,1 \
a,-80982,75940,-36917,12287,0,0,1 a,-67926,-59512,87727,68679,1,0,1 => \
E15 record 3 has 8 cells, and the header 7
{4 i}{60 b}{4 b}i \
a,-64019,22615,-42436,95739,0,1,1,0,0,0,1,1,1,1,0,1,1,0,1,0,1,1,1,0,1,1,1,0,0,0,0,0,1,1,0,0,1,0,1,\
1,1,0,1,1,0,1,0,0,1,0,1,0,0,1,0,0,0,1,0,1,0,1,1,1,0,0,0,0,-57677 a,-31345,-86793,-52513,-47107,1,\
1,0,1,1,0,1,1,0,1,0,0,0,0,1,0,1,0,1,1,1,1,0,0,1,0,0,1,1,0,0,0,0,1,1,0,0,0,1,1,0,1,0,1,0,0,1,1,0,1,\
1,1,1,0,0,1,0,1,0,0,1,1,0,1,-26880 a,31797,71972,-47314,-34941,0,0,1,0,0,1,0,1,0,1,1,0,0,0,1,1,1,\
0,1,0,0,1,0,0,0,0,0,0,0,1,0,1,1,0,0,0,1,1,0,1,0,0,0,1,1,0,1,0,0,0,1,1,1,0,1,1,0,0,0,0,1,1,1,0,\
-96731 => \
a: ( -64019 22615 -42436 95739 0 1 1 0 0 0 1 1 1 1 0 1 1 0 1 0 1 1 1 0 1 1 1 0 0 0 0 0 1 1 0 0 1 \
0 1 1 1 0 1 1 0 1 0 0 1 0 1 0 0 1 0 0 0 1 0 1 0 1 1 1 0 0 0 0 -57677 ) ( -31345 -86793 -52513 \
-47107 1 1 0 1 1 0 1 1 0 1 0 0 0 0 1 0 1 0 1 1 1 1 0 0 1 0 0 1 1 0 0 0 0 1 1 0 0 0 1 1 0 1 0 1 0 \
0 1 1 0 1 1 1 1 0 0 1 0 1 0 0 1 1 0 1 -26880 ) ( 31797 71972 -47314 -34941 0 0 1 0 0 1 0 1 0 1 1 \
0 0 0 1 1 1 0 1 0 0 1 0 0 0 0 0 0 0 1 0 1 1 0 0 0 1 1 0 1 0 0 0 1 1 0 1 0 0 0 1 1 1 0 1 1 0 0 0 \
0 1 1 1 0 -96731 );";

// Texts of twenty records and of few, in parts that are cut at each of their lines: within a trace,
// between two, before a name that comes back, and within a record with a fault.
pub const PARTS: &str = "\
trace,x,c{19 /a,@,0} => a:{19  ( @ 0 )};
trace,x,c{19 /t@,@,1}/ => {19 t@: ( @ 1 );}
trace,x,c{10 /a,@,0}{9 /b,@,1}\\ => a:{10  ( @ 0 )};b:{9  ( @ 1 )};
trace,x,c{4 /a,@,0}{6 //\\b,@,1}//// => a:{4  ( @ 0 )};b:{6  ( @ 1 )};
trace,x,c{9 /a,@,0}{9 /b,@,1}/a,7,0/ => E17 the trace name of record 19 is ill-formed or comes back
trace,x,c{9 /t@,@,0}/t3,1,0{9 /b,@,1} => E17 the trace name of record 10 is ill-formed or comes back
trace,x,c{9 /a,@,0}/a,x,0{9 /b,@,1} => E16 the cell of record 10 in column 0 is no value of it
trace,x,c{9 /a,@,0}/a,1{9 /b,@,1} => E15 record 10 has 1 cells, and the header 2
trace,x,c{9 /a,@,0}/a,'1',1{9 /b,@,1} => a:{9  ( @ 0 )} ( 1 1 );b:{9  ( @ 1 )};
trace,x,c/a,1,0 => a: ( 1 0 );
trace,x,c => 
trace,c/ => E14 the first record is not `trace` and the name of each scalar input
/ => E14 the first record is not `trace` and the name of each scalar input
 => E14 the first record is not `trace` and the name of each scalar input";
