//! Reading an input and writing an output, where they work and where they fail.

use lb_report::{Feed, LoadError, Reader, Sent, Sink, Writer, load, send};
use lb_test_support::texts::{Said, expect};
use std::alloc::{AllocError, Global};
use std::io::{ErrorKind, Read, Write};
use std::test::Fail;

/// An input that gives three bytes at a time, and is interrupted once it has given `fails_at`
/// bytes.
#[derive(Drop)]
struct FailingInput {
    given: usize,
    fails_at: usize,
}

impl Read for FailingInput {
    fn read(&mut self, buffer: &mut [u8]) -> std::io::Result<usize> {
        let count = buffer
            .len()
            .min(3)
            .min(self.fails_at.saturating_sub(self.given));
        if count == 0 {
            return Err(ErrorKind::Interrupted.into());
        }
        buffer[..count].fill(b'x');
        self.given = self.given.saturating_add(count);
        Ok(count)
    }
}

/// A failure of an output: a signal interrupts it, or it takes nothing.
#[derive(Clone, Copy, PartialEq, Eq)]
enum Fails {
    Interrupted,
    Full,
}

/// An output that takes one byte a write, and fails at write `fails_at`, counted from 1.
#[derive(Drop)]
struct FailingOutput {
    writes: u32,
    fails_at: u32,
    fails: Fails,
}

impl Write for FailingOutput {
    fn write(&mut self, bytes: &[u8]) -> std::io::Result<usize> {
        self.writes = self.writes.saturating_add(1);
        if self.writes != self.fails_at {
            return Ok(bytes.len().min(1));
        }
        match self.fails {
            Fails::Interrupted => Err(ErrorKind::Interrupted.into()),
            Fails::Full => Ok(0),
        }
    }

    fn flush(&mut self) -> std::io::Result<()> {
        Ok(())
    }
}

const LINE: &[u8] = b"total 0 passed 0 fault 0 undefined 0 assertion 0 false 0\n";

/// The lengths of inputs that are read whole, and the lengths after which an input fails.
const WHOLE: [usize; 4] = [0, 1, 1048576, 2500000];

const FAILING: [usize; 4] = [0, 1, 10, 1500000];

/// Whether an input is read whole.
fn is_whole(alloc: Global, text: &[u8]) -> bool {
    match load(alloc, &mut Reader::new(text)) {
        Ok(bytes) => bytes.as_slice() == text,
        Err(_) => false,
    }
}

/// Whether an input that fails is refused, and its failure counted.
fn is_refused(alloc: Global, fails_at: usize) -> bool {
    let mut feed = Reader::new(FailingInput { given: 0, fails_at });
    let is_refused = matches!(load(alloc, &mut feed), Err(LoadError::Read));
    is_refused && feed.failures() == 1
}

/// The lengths of inputs that are not read whole, or that fail and are not refused.
fn first_wrong(alloc: Global) -> Result<Said, AllocError> {
    let mut said = Said::new(alloc);
    for length in WHOLE {
        let text = vec![in alloc; b'x'; length]?;
        if !is_whole(alloc, text.as_slice()) {
            write!(said, "{length} not whole ");
        }
    }
    for length in FAILING {
        if !is_refused(alloc, length) {
            write!(said, "{length} and no more ");
        }
    }
    Ok(said)
}

#[test]
fn inputs(rt: HostRuntime) -> Result<(), Fail> {
    expect(&first_wrong(rt.alloc())?, "")
}

/// The number of bytes that went out before the output failed, or none if all did, and the number
/// of failures.
fn sent(bytes: &[u8], fails_at: u32, fails: Fails) -> (Option<usize>, u64) {
    let mut output = FailingOutput {
        writes: 0,
        fails_at,
        fails,
    };
    let mut sink = Writer::new(&mut output);
    let failed_after = match send(&mut sink, bytes) {
        Ok(()) => None,
        Err(Sent { count }) => Some(count),
    };
    (failed_after, sink.failures())
}

/// The writes whose failure is reported wrongly.
fn untold(alloc: Global) -> Said {
    let mut said = Said::new(alloc);
    for k in 0..LINE.len() {
        for fails in [Fails::Interrupted, Fails::Full] {
            if sent(LINE, k as u32 + 1, fails) != (Some(k), 1) {
                write!(said, "{k} ");
            }
        }
    }
    said
}

#[test]
fn outputs(rt: HostRuntime) -> Result<(), Fail> {
    let mut bytes: Vec<u8> = Vec::new(rt.alloc());
    assert!(rt; send(&mut Writer::new(&mut bytes), LINE).is_ok() && bytes.as_slice() == LINE);
    assert!(rt; sent(LINE, 0, Fails::Interrupted) == (None, 0));
    assert!(rt; sent(b"", 1, Fails::Full) == (None, 0));
    expect(&untold(rt.alloc()), "")
}
