//! Trace files that several workers read in sections: as they stand, in short reads, and changed
//! between two reads.

use crate::answers::spread;
use crate::rounds::{FAILING, SIZES, SUM, push_found};
use lb_report::{FilePlaces, PlacedFile, Sizes, TextPlaces, bench_ranges};
use lb_test_support::texts::{Said, expect, is_same, push_text, push_unlike};
use std::alloc::Global;
use std::fs::{Metadata, OpenFile};
use std::io::{Error, ErrorKind};
use std::os::unix::fs::FileExt;
use std::sync::atomic::{AtomicU64, Ordering};
use std::test::Fail;
use std::thread::Threads;

/// A file in memory. A read gives at most `most` bytes. After `changes_after` reads the file has
/// the bytes `later`, or cannot be read, but it keeps its first size.
#[derive(Drop)]
struct Held<'t> {
    text: &'t [u8],
    later: Option<&'t [u8]>,
    changes_after: u64,
    most: usize,
    reads: AtomicU64,
}

impl<'t> Held<'t> {
    /// A file that does not change.
    fn new(text: &'t [u8], most: usize) -> Held<'t> {
        Held {
            text,
            later: None,
            changes_after: u64::MAX,
            most,
            reads: AtomicU64::new(0),
        }
    }

    /// A file that changes.
    fn changing(text: &'t [u8], later: Option<&'t [u8]>, changes_after: u64) -> Held<'t> {
        Held {
            text,
            later,
            changes_after,
            most: usize::MAX,
            reads: AtomicU64::new(0),
        }
    }

    /// Whether the file was read more often than before it changed.
    fn has_changed(&self) -> bool {
        self.reads.load(Ordering::SeqCst) > self.changes_after
    }
}

impl OpenFile for Held<'_> {
    fn metadata(&self) -> std::io::Result<Metadata> {
        Ok(Metadata::of_file(self.text.len() as u64))
    }

    fn set_len(&self, _size: u64) -> std::io::Result<()> {
        Err(Error::from(ErrorKind::Unsupported))
    }

    fn sync_all(&self) -> std::io::Result<()> {
        Err(Error::from(ErrorKind::Unsupported))
    }

    fn sync_data(&self) -> std::io::Result<()> {
        Err(Error::from(ErrorKind::Unsupported))
    }
}

impl FileExt for Held<'_> {
    fn read_at(&self, buffer: &mut [u8], place: u64) -> std::io::Result<usize> {
        let reads = self.reads.fetch_add(1, Ordering::SeqCst);
        let text = if reads < self.changes_after {
            Some(self.text)
        } else {
            self.later
        };
        let Some(text) = text else {
            return Err(Error::from(ErrorKind::Unsupported));
        };
        let rest = text.get(place as usize..).unwrap_or(&[]);
        let count = rest.len().min(buffer.len()).min(self.most);
        buffer[..count].copy_from_slice(&rest[..count]);
        Ok(count)
    }

    fn write_at(&self, _bytes: &[u8], _place: u64) -> std::io::Result<usize> {
        Err(Error::from(ErrorKind::Unsupported))
    }
}

/// The numbers of workers that judge.
const WORKERS: [u32; 3] = [0, 2, 7];

/// The answer on a source and a file by `workers` workers, or `as a whole` if the file is not read
/// in sections.
pub fn push_ranges<R, F>(
    rt: &R,
    source: &str,
    file: &F,
    workers: u32,
    sizes: Sizes,
    said: &mut Said,
)
where
    R: AllocGlobal + Threads + Sync,
    F: PlacedFile + Sync,
{
    let Ok(options) = spread(rt.alloc(), workers, 64, false) else {
        return said.cut();
    };
    match bench_ranges(rt, source.as_bytes(), file, &options, sizes) {
        None => said.push_str("as a whole"),
        Some(found) => push_found(said, found),
    }
}

/// The answer on a text by at most `most` bytes a read, if it is not `wanted`. The number of
/// workers and the sizes change with `most`.
pub fn push_unlike_reads<R: AllocGlobal + Threads + Sync>(
    rt: &R,
    text: &[u8],
    most: usize,
    wanted: &str,
    unlike: &mut Said,
) {
    let (workers, sizes) = (WORKERS[most % 3], SIZES[most / 3 % 3]);
    let mut said = Said::new(rt.alloc());
    let file = Held::new(text, most);
    push_ranges(rt, SUM, &FilePlaces::new(&file), workers, sizes, &mut said);
    push_unlike(wanted, &said, workers, most, unlike);
}

/// The answer on a text in memory by two workers, and the answers that differ on a file by reads of
/// each length below fifty.
fn push_reads<R: AllocGlobal + Threads + Sync>(rt: &R, text: &[u8], said: &mut Said) {
    push_ranges(rt, SUM, &TextPlaces { text }, 2, SIZES[0], said);
    let mut unlike = Said::new(rt.alloc());
    for most in 1..50usize {
        push_unlike_reads(rt, text, most, said.as_str(), &mut unlike);
    }
    said.push_said(&unlike);
}

/// `push_reads` for a file whose columns are an integer `x` and a Boolean `c`.
pub fn push_sections<R: AllocGlobal + Threads + Sync>(rt: &R, asked: &str, said: &mut Said) {
    let mut text = Said::new(rt.alloc());
    push_text(asked, &mut text);
    match text.whole() {
        Ok(text) => push_reads(rt, text.as_bytes(), said),
        Err(_) => said.cut(),
    }
}

/// A text of `count` traces of one instant each. Their names are a letter and a number, and all
/// lines are of one length.
fn numbered_text(alloc: Global, letter: char, count: u32) -> Said {
    let mut text = Said::new(alloc);
    text.push_str("trace,x,c\n");
    for k in 0..count {
        write!(text, "{letter}{k:05},{:02},1\n", k % 39);
    }
    text
}

/// The number in a name, behind the letter `a` or `letter`.
fn number_behind(name: &str, letter: char) -> Option<usize> {
    let number = match name.strip_prefix('a') {
        Some(number) => number,
        None => name.strip_prefix(letter)?,
    };
    number.parse::<usize>().ok()
}

/// Whether `said` is a report on `least` traces or more that all passed, named by the letter `a` or
/// `letter` and the numbers from 0 on.
fn is_numbered(said: &str, letter: char, least: usize) -> bool {
    for (k, line) in said.split("; ").enumerate() {
        let Some(name) = line.strip_suffix(" passed") else {
            return k >= least && line.starts_with("total ");
        };
        if number_behind(name, letter) != Some(k) {
            return false;
        }
    }
    false
}

/// Whether the report on a file that changes has each of at least `least` lines once, as it was at
/// some read. There is no report if the file is not read in sections.
fn is_whole_report<R: AllocGlobal + Threads + Sync>(
    rt: &R,
    file: &Held<'_>,
    letter: char,
    least: usize,
    workers: u32,
) -> bool {
    let sizes = Sizes {
        window: 1024,
        round: 1024,
        shared: 1024,
        least: 1,
    };
    let mut said = Said::new(rt.alloc());
    push_ranges(rt, SUM, &FilePlaces::new(file), workers, sizes, &mut said);
    said.whole().is_ok_and(|said| is_same(said, "as a whole") || is_numbered(said, letter, least))
}

/// The number of traces that a file has at first.
const LINES: u32 = 3_000;

/// The files that it becomes: the letter of the traces, and their number.
const LATER: [(char, u32); 4] = [('b', LINES), ('c', 5_000), ('d', 200), ('e', 0)];

/// Whether all reports are whole on a file that becomes `later` after each of some numbers of
/// reads.
fn are_whole_reports<R: AllocGlobal + Threads + Sync>(
    rt: &R,
    text: &[u8],
    letter: char,
    later: &[u8],
    least: usize,
) -> bool {
    for reads in 0..50u64 {
        for workers in [2, 7] {
            let file = Held::changing(text, Some(later), reads);
            if !is_whole_report(rt, &file, letter, least, workers) {
                return false;
            }
        }
    }
    true
}

/// The letters of the files on which a report is not whole.
fn torn_reports<R: AllocGlobal + Threads + Sync>(rt: &R) -> Said {
    let mut said = Said::new(rt.alloc());
    let text = numbered_text(rt.alloc(), 'a', LINES);
    for (letter, count) in LATER {
        let later = numbered_text(rt.alloc(), letter, count);
        let least = count.min(LINES) as usize;
        let (text, later) = (text.as_str().as_bytes(), later.as_str().as_bytes());
        if !are_whole_reports(rt, text, letter, later, least) {
            said.push(letter);
        }
    }
    said
}

/// Files that become another one between two reads: as long, longer, shorter and empty.
#[test]
fn changing_files(rt: HostRuntime) -> Result<(), Fail> {
    expect(&torn_reports(&rt), "")
}

/// Whether a file with a failing read gives no report.
fn is_failure_told<R: AllocGlobal + Threads + Sync>(rt: &R, file: &Held<'_>, workers: u32) -> bool {
    let mut said = Said::new(rt.alloc());
    let places = FilePlaces::new(file);
    push_ranges(rt, SUM, &places, workers, SIZES[1], &mut said);
    match said.whole() {
        Ok("E21" | "as a whole") => true,
        Ok(report) => !report.starts_with("E") && !file.has_changed(),
        Err(_) => false,
    }
}

/// The numbers of reads after which reading fails, but a report is made.
fn not_told<R: AllocGlobal + Threads + Sync>(rt: &R) -> Said {
    let mut said = Said::new(rt.alloc());
    for reads in 0..80u64 {
        for workers in [2, 7] {
            let file = Held::changing(FAILING[0].as_bytes(), None, reads);
            if !is_failure_told(rt, &file, workers) {
                write!(said, "{reads} ");
            }
        }
    }
    said
}

/// Files that cannot be read any more after some reads.
#[test]
fn failing_files(rt: HostRuntime) -> Result<(), Fail> {
    expect(&not_told(&rt), "")
}

// Texts of twenty records, as files. The answer is that of a run as a whole, but for a header that
// is wrong, has a quote, or has nothing behind it.
pub const FILES: &str = "\
trace,x,c{20 /a,@,0} => \
a false 9; total 1 passed 0 fault 0 undefined 0 assertion 0 false 1; status 1
trace,x,c{20 /t@,@,0}/ => \
{20 t@ passed; }total 20 passed 20 fault 0 undefined 0 assertion 0 false 0; status 0
//\\/trace,x,c\\{10 \\/a,@,0//}{10 //\\b,@,0}//// => \
a false 9; b false 9; total 2 passed 0 fault 0 undefined 0 assertion 0 false 2; status 1
^trace,c,x{9 /a,0,@}/b,1,2147483647/b,1,1{9 \\/c,0,9} => a passed; b fault 1; c false 4; \
total 3 passed 1 fault 1 undefined 0 assertion 0 false 1; status 1
'trace',x,c{20 /t@,@,0} => as a whole
trace,x{20 /a,@} => as a whole
trace,x,c => as a whole
trace,x,c/a,,1{19 /b,@,1} => E16 the cell of record 1 in column 0 is no value of it
trace,x,c{9 /a,@,0}{9 /b,@,1}/a,7,0/b,1,1/ => \
E17 the trace name of record 19 is ill-formed or comes back
trace,x,c{18 /t@,@,0}/t17,1,0/b,1,1 => \
{17 t@ passed; }t17 passed; b passed; \
total 19 passed 19 fault 0 undefined 0 assertion 0 false 0; status 0
trace,x,c{18 /t@,@,0}/t16,1,0/b,1,1 => \
E17 the trace name of record 19 is ill-formed or comes back
trace,x,c{19 /t@,@,1}/z,1 => E15 record 20 has 1 cells, and the header 2
trace,x,c{17 /t@,@,1}/'a',1,0/'a',39,0/a,'1',1 => \
{17 t@ passed; }a false 1; total 18 passed 17 fault 0 undefined 0 assertion 0 false 1; status 1
trace,x,c{10 /a,@,1}{9 /'a',@,0}/b,1,1 => \
a false 10; b passed; total 2 passed 1 fault 0 undefined 0 assertion 0 false 1; status 1
trace,x,c{9 /t@,@,1}/q,'1',1{9 /u@,1,1}/t0,1,1 => \
E17 the trace name of record 20 is ill-formed or comes back";
