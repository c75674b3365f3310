//! The text of a live report on its way to a sink.
//!
//! Lines that are known at the same time are kept back, and then go out together.

ghost use Rattle.std.specs.Prelude.{◌≡◌, ◌<◌, ◌≤◌, ◌+◌, ◌^◌, ◌++◌, [], List, ℕ, length, vec_len};
ghost use Rattle.std.specs.Prelude.{IfErr, OnOk};
ghost use Rattle.lb_output.specs.Follows.{Goes, HasCause, sent_of};
ghost use Rattle.lb_output.specs.Reports as spec;

use crate::follow_error::FollowError;
use crate::sink::{Sink, send};
use crate::text::{push_line, push_total};
use lb_check::Verdict;
use std::alloc::Global;

/// The most bytes that are kept back, and one line more, while the next lines are known.
const CHUNK: usize = 1 << 15;

/// The text that is kept back, and the number of bytes that went out before it.
#[derive(Drop)]
pub struct Outgoing {
    /// The text that is kept back.
    pub text: Vec<u8>,
    /// The number of bytes that went out.
    pub count: usize,
    /// Whether some of them went out since the sink was last flushed.
    unflushed: bool,
}

impl Outgoing {
    /// No text is kept back, and no byte went out.
    pub fn new(alloc: Global) -> Outgoing
        ensures text { result.text.items ≡ [] }
        ensures count { result.count ≡ 0 }
    {
        Outgoing {
            text: Vec::new(alloc),
            count: 0,
            unflushed: false,
        }
    }

    /// The error where memory was refused.
    pub fn refused(&self) -> FollowError
        ensures count { sent_of result ≡ self.now.count }
        ensures cause { (n : ℕ) → HasCause result n n }
    {
        FollowError::Memory { count: self.count }
    }

    /// Adds the line of a trace.
    pub fn add_line(&mut self, name: &str, verdict: Verdict) -> Result<(), FollowError>
        ensures text { OnOk result (self.new.text.items
            ≡ self.old.text.items ++ spec.line name.now verdict) }
        ensures short { OnOk result (length self.new.text.items
            ≤ length self.old.text.items + length name.now + 52) }
        ensures count { OnOk result (self.new.count ≡ self.old.count) }
        ensures refused { IfErr result (λ e. (sent_of e ≡ self.old.count)
            × ((n : ℕ) → HasCause e n n)) }
    {
        match push_line(&mut self.text, name, verdict) {
            Ok(()) => Ok(()),
            Err(_) => Err(self.refused()),
        }
    }

    /// Adds the last line.
    pub fn add_total(&mut self, verdicts: &[Verdict]) -> Result<(), FollowError>
        ensures text { OnOk result (self.new.text.items
            ≡ self.old.text.items ++ spec.total verdicts.now) }
        ensures count { OnOk result (self.new.count ≡ self.old.count) }
        ensures refused { IfErr result (λ e. (sent_of e ≡ self.old.count)
            × ((n : ℕ) → HasCause e n n)) }
    {
        match push_total(&mut self.text, verdicts) {
            Ok(()) => Ok(()),
            Err(_) => Err(self.refused()),
        }
    }
}

/// Writes all text that is kept back.
fn send_text<S: Sink>(sink: &mut S, out: &mut Outgoing) -> Result<(), FollowError>
    requires failures { S.failures sink.old < u64.MAX }
    requires room { out.old.count + vec_len out.old.text < 2 ^ 64 }

    // Where the result is `Ok`:
    ensures gone { OnOk result (Goes (S.taken sink.old) (S.taken sink.new)
        out.old.text.items out.new.text.items out.old.count out.new.count) }
    ensures all { OnOk result (out.new.text.items ≡ []) }
    ensures ok { OnOk result (S.failures sink.new ≡ S.failures sink.old) }

    // Else the sink failed after the first bytes.
    ensures first { IfErr result (λ e. (rest : List ℕ) × Goes (S.taken sink.old) (S.taken sink.new)
        out.old.text.items rest out.old.count (sent_of e)) }
    ensures cause { IfErr result (λ e. HasCause e (S.failures sink.old) (S.failures sink.new)) }
{
    if out.text.is_empty() {
        return Ok(());
    }
    match send(sink, out.text.as_slice()) {
        Ok(()) => {
            out.count += out.text.len();
            out.text.clear();
            out.unflushed = true;
            Ok(())
        }
        Err(sent) => Err(FollowError::Write {
            count: out.count + sent.count,
        }),
    }
}

/// Writes all text that is kept back, once it has `CHUNK` bytes or more.
pub fn send_chunk<S: Sink>(sink: &mut S, out: &mut Outgoing) -> Result<(), FollowError>
    requires failures { S.failures sink.old < u64.MAX }
    requires room { out.old.count + vec_len out.old.text < 2 ^ 64 }

    // Where the result is `Ok`:
    ensures gone { OnOk result (Goes (S.taken sink.old) (S.taken sink.new)
        out.old.text.items out.new.text.items out.old.count out.new.count) }
    ensures ok { OnOk result (S.failures sink.new ≡ S.failures sink.old) }

    // Else the sink failed after the first bytes.
    ensures first { IfErr result (λ e. (rest : List ℕ) × Goes (S.taken sink.old) (S.taken sink.new)
        out.old.text.items rest out.old.count (sent_of e)) }
    ensures cause { IfErr result (λ e. HasCause e (S.failures sink.old) (S.failures sink.new)) }
{
    if out.text.len() < CHUNK {
        return Ok(());
    }
    send_text(sink, out)
}

/// Flushes the sink, if bytes went out since the last flush.
fn flush<S: Sink>(sink: &mut S, out: &mut Outgoing) -> Result<(), FollowError>
    requires failures { S.failures sink.old < u64.MAX }
    ensures gone { Goes (S.taken sink.old) (S.taken sink.new) [] [] out.old.count out.old.count }
    ensures text { (out.new.text.items ≡ out.old.text.items) × (out.new.count ≡ out.old.count) }
    ensures ok { OnOk result (S.failures sink.new ≡ S.failures sink.old) }
    ensures count { IfErr result (λ e. sent_of e ≡ out.old.count) }
    ensures cause { IfErr result (λ e. HasCause e (S.failures sink.old) (S.failures sink.new)) }
{
    if !out.unflushed {
        return Ok(());
    }
    match sink.flush() {
        Ok(()) => {
            out.unflushed = false;
            Ok(())
        }
        Err(_) => Err(FollowError::Write { count: out.count }),
    }
}

/// Writes all text that is kept back, and flushes the sink.
pub fn send_all<S: Sink>(sink: &mut S, out: &mut Outgoing) -> Result<(), FollowError>
    requires failures { S.failures sink.old < u64.MAX }
    requires room { out.old.count + vec_len out.old.text < 2 ^ 64 }

    // Where the result is `Ok`:
    ensures gone { OnOk result (Goes (S.taken sink.old) (S.taken sink.new)
        out.old.text.items out.new.text.items out.old.count out.new.count) }
    ensures all { OnOk result (out.new.text.items ≡ []) }
    ensures ok { OnOk result (S.failures sink.new ≡ S.failures sink.old) }

    // Else the sink failed after the first bytes.
    ensures first { IfErr result (λ e. (rest : List ℕ) × Goes (S.taken sink.old) (S.taken sink.new)
        out.old.text.items rest out.old.count (sent_of e)) }
    ensures cause { IfErr result (λ e. HasCause e (S.failures sink.old) (S.failures sink.new)) }
{
    send_text(sink, out)?;
    flush(sink, out)
}
