//! Trace files that are read in sections side by side.

use crate::rounds::push_whole;
use crate::sections::push_ranges;
use lb_report::{FilePlaces, Sizes};
use lb_test_support::texts::{Said, expect, push_unlike};
use std::alloc::Global;
use std::fs::Files;
use std::os::unix::fs::FileExt;
use std::test::Fail;
use std::thread::Threads;
use std::{env, fs};

/// A node that is false where its input is 12 or more.
const SOURCE: &str = "node main(x: int) returns (ok: bool); let ok = x < 12; tel";

/// A trace text of `count` instants. One more instant, with 12, follows each 99th.
fn traces_of(alloc: Global, count: u32) -> Said {
    let mut text = Said::new(alloc);
    text.push_str("trace,x\n");
    for k in 0..count {
        write!(text, "t{},{}\n", k / 7, k % 11);
        if k % 99 == 0 {
            write!(text, "t{},12\n", k / 7);
        }
    }
    text
}

/// The answer on a trace file by `workers` workers, if it is not `wanted`.
fn push_other<R>(rt: &R, path: &str, workers: u32, wanted: &str, said: &mut Said)
where
    R: Files + AllocGlobal + Threads + Sync,
    R::File: FileExt + Sync,
{
    let mut other = Said::new(rt.alloc());
    match &fs::File::open(rt, path) {
        Ok(file) => {
            let (places, sizes) = (FilePlaces::new(file), Sizes::usual(workers));
            push_ranges(rt, SOURCE, &places, workers, sizes, &mut other);
        }
        Err(_) => other.push_str("no file"),
    }
    push_unlike(wanted, &other, workers, 0, said);
}

/// The wrong answers on a large file. Three workers read it in sections and judge it as its text;
/// one worker reads it as a whole.
fn push_large<R>(rt: &R, path: &str, said: &mut Said) -> Result<(), Fail>
where
    R: Files + AllocGlobal + Threads + Sync,
    R::File: FileExt + Sync,
{
    let text = traces_of(rt.alloc(), 320_000);
    fs::write(rt, path, text.whole()?)?;
    let mut whole = Said::new(rt.alloc());
    push_whole(rt, SOURCE, text.as_str().as_bytes(), &mut whole);
    push_other(rt, path, 3, whole.as_str(), said);
    push_other(rt, path, 1, "as a whole", said);
    Ok(())
}

/// The wrong answer on a short file. Four workers leave it to be read as a whole.
fn push_short<R>(rt: &R, path: &str, said: &mut Said) -> Result<(), Fail>
where
    R: Files + AllocGlobal + Threads + Sync,
    R::File: FileExt + Sync,
{
    let text = traces_of(rt.alloc(), 100);
    fs::write(rt, path, text.whole()?)?;
    push_other(rt, path, 4, "as a whole", said);
    Ok(())
}

/// The wrong answers on a large file and on a short one.
fn push_both<R>(rt: &R, path: &str, said: &mut Said) -> Result<(), Fail>
where
    R: Files + AllocGlobal + Threads + Sync,
    R::File: FileExt + Sync,
{
    push_large(rt, path, said)?;
    push_short(rt, path, said)
}

#[test]
fn files(rt: HostRuntime) -> Result<(), Fail> {
    let mut path = String::new(rt.alloc());
    write!(path, "{}/lb_tests_sections", env::temp_dir(&rt)?.as_str())?;
    let mut said = Said::new(rt.alloc());
    let both = push_both(&rt, path.as_str(), &mut said);
    let _ = fs::remove_file(&rt, path.as_str());
    both?;
    push_other(&rt, path.as_str(), 4, "no file", &mut said);
    expect(&said, "")
}
