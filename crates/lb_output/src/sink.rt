//! Sinks, to which outputs go, and the writing of a text to its end.

ghost use Rattle.std.specs.Prelude.{◌≡◌, ℕ, [], ◌+◌, ◌<◌, ◌≤◌, length, take};
ghost use Rattle.std.specs.Prelude.{IfOk, IfErr, OnOk, OnErr};
ghost use Rattle.lb_output.specs.Taken.{Taken, Takes, TakesNothing};

use std::io::Write;
use thiserror::Error;

/// A write failed. None of its bytes went out.
#[derive(Clone, Copy, Debug, Error)]
#[error("the output could not be written")]
pub struct SinkFailed;

/// A sink, to which an output goes.
pub trait Sink {
    /// The bytes that it has taken: their count, as far as a `u64` counts; the bytes themselves,
    /// where they are known; and the writer that it lends them to.
    ghost taken: { Self → Taken };

    /// The number of times that it has failed.
    ghost failures: { Self → ℕ };

    /// Writes the first of these bytes, and returns how many they are. The answer 0 is a failure
    /// too, unless there are no bytes.
    fn write(&mut self, bytes: &[u8]) -> Result<usize, SinkFailed>
        requires { failures self.old < u64.MAX }

        // Where the result is `Ok`:
        ensures within { IfOk result (λ n. n ≤ length bytes.now) }
        ensures next { IfOk result (λ n.
            Takes (taken self.old) (taken self.new) (take n bytes.now)) }
        ensures some { IfOk result (λ n. 0 < n → failures self.new ≡ failures self.old) }
        ensures empty { OnOk result (bytes.now ≡ [] → failures self.new ≡ failures self.old) }

        // Each failure is counted, and takes no byte.
        ensures none { IfOk result (λ n.
            n ≡ 0 → 0 < length bytes.now → failures self.new ≡ failures self.old + 1) }
        ensures err { OnErr result (failures self.new ≡ failures self.old + 1) }
        ensures kept { OnErr result (TakesNothing (taken self.old) (taken self.new)) };

    /// Passes on the bytes that it keeps back, if there are any.
    fn flush(&mut self) -> Result<(), SinkFailed>
        requires { failures self.old < u64.MAX }
        ensures ok { OnOk result (failures self.new ≡ failures self.old) }
        ensures kept { TakesNothing (taken self.old) (taken self.new) }

        // Each failure is counted.
        ensures err { OnErr result (failures self.new ≡ failures self.old + 1) }
    {
        Ok(())
    }

    /// The number of times that it has failed.
    fn failures(&self) -> u64
        ensures { result ≡ failures self.now };
}

/// One of std's writers, as a sink.
#[derive(Drop)]
pub struct Writer<'a, W> {
    pub writer: &'a mut W,
    count: u64,
    failures: u64,
}

impl<'a, W: Write> Writer<'a, W> {
    /// A sink that has taken no byte and has not failed yet.
    pub fn new(writer: &'a mut W) -> Writer<'a, W>
        ensures same { result.writer.ghost_name ≡ writer.entry.ghost_name }
        ensures bytes { (⟦<Writer<'a, W> as Sink>⟧.taken result).bytes ≡ W.contents writer.old }
        ensures count { (⟦<Writer<'a, W> as Sink>⟧.taken result).count ≡ 0 }
        ensures failures { ⟦<Writer<'a, W> as Sink>⟧.failures result ≡ 0 }
    {
        Writer {
            writer,
            count: 0,
            failures: 0,
        }
    }
}

impl<W: Write> Sink for Writer<'_, W> {
    ghost taken = { λ sink. record {
      bytes = W.contents sink.writer.now;
      count = sink.count;
      writer = sink.writer.ghost_name;
    } };

    ghost failures = { λ sink. sink.failures };

    fn write(&mut self, bytes: &[u8]) -> Result<usize, SinkFailed> {
        match self.writer.write(bytes) {
            Ok(count) => {
                self.count = self.count.saturating_add(count as u64);
                if count == 0 && !bytes.is_empty() {
                    self.failures += 1;
                }
                Ok(count)
            }
            Err(_) => {
                self.failures += 1;
                Err(SinkFailed)
            }
        }
    }

    fn flush(&mut self) -> Result<(), SinkFailed> {
        match self.writer.flush() {
            Ok(()) => Ok(()),
            Err(_) => {
                self.failures += 1;
                Err(SinkFailed)
            }
        }
    }

    fn failures(&self) -> u64 {
        self.failures
    }
}

/// The sink failed before all bytes went out (E19).
#[derive(Clone, Copy, Debug, Error)]
#[error("the output failed after {count} bytes")]
pub struct Sent {
    /// The number of bytes that went out.
    pub count: usize,
}

/// Writes a text to a sink, all of it unless the sink fails.
pub fn send<S: Sink>(sink: &mut S, bytes: &[u8]) -> Result<(), Sent>
    requires { S.failures sink.old < u64.MAX }
    ensures same { (S.taken sink.new).writer ≡ (S.taken sink.old).writer }

    // Where the result is `Ok`, all bytes went out.
    ensures all { OnOk result (Takes (S.taken sink.old) (S.taken sink.new) bytes.now) }
    ensures ok { OnOk result (S.failures sink.new ≡ S.failures sink.old) }

    // Else exactly the first `count` went out, and the sink failed.
    ensures within { IfErr result (λ sent. sent.count < length bytes.now) }
    ensures first { IfErr result (λ sent.
        Takes (S.taken sink.old) (S.taken sink.new) (take sent.count bytes.now)) }
    ensures failed { OnErr result (S.failures sink.new ≡ S.failures sink.old + 1) }
{
    let mut count = 0;
    while count < bytes.len() {
        match sink.write(&bytes[count..]) {
            Ok(more) if more > 0 => count += more,
            _ => return Err(Sent { count }),
        }
    }
    Ok(())
}
