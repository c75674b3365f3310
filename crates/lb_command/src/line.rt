//! The line that reports a refusal.

ghost use Rattle.std.specs.Prelude.{◌≡◌, ◌<◌, ◌++◌, OnOk, OnErr, decimal};
ghost use Rattle.lb_output.specs.Taken.{Takes};
ghost use Rattle.lb_refusal.specs.Refusals.{word_of};
ghost use Rattle.lb_command.specs.Outcomes.{refusal_status};
ghost use Rattle.lb_command.specs.Lines as spec;
ghost use Rattle.lb_command.specs.Streams.{TookOrFailed, change};

use crate::refusal::Refusal;
use itoa::{Buffer, Integer};
use lb_report::{Sent, Sink, send, word};

/// Writes a number in decimal.
fn send_number<S: Sink>(sink: &mut S, n: u32) -> Result<(), Sent>
    requires { S.failures sink.old < u64.MAX }
    ensures same { (S.taken sink.new).writer ≡ (S.taken sink.old).writer }
    ensures all { OnOk result (Takes (S.taken sink.old) (S.taken sink.new) (decimal n)) }
    ensures ok { OnOk result (S.failures sink.new ≡ S.failures sink.old) }
    ensures failed { OnErr result (S.failures sink.old < S.failures sink.new) }
{
    send(sink, Buffer::new().format(n).as_bytes())
}

/// Writes the word of a refusal.
fn send_word<S: Sink>(sink: &mut S, number: u8) -> Result<(), Sent>
    requires number { number < 22 }
    requires failures { S.failures sink.old < u64.MAX }
    ensures same { (S.taken sink.new).writer ≡ (S.taken sink.old).writer }
    ensures all { OnOk result (Takes (S.taken sink.old) (S.taken sink.new) (word_of number)) }
    ensures ok { OnOk result (S.failures sink.new ≡ S.failures sink.old) }
    ensures failed { OnErr result (S.failures sink.old < S.failures sink.new) }
{
    send(sink, word(number).as_bytes())
}

/// Writes a line and a column.
fn send_place<S: Sink>(sink: &mut S, line: u32, column: u32) -> Result<(), Sent>
    requires { S.failures sink.old < u64.MAX }
    ensures same { (S.taken sink.new).writer ≡ (S.taken sink.old).writer }
    ensures all { OnOk result (Takes (S.taken sink.old) (S.taken sink.new)
        (spec.place_at line column)) }
    ensures ok { OnOk result (S.failures sink.new ≡ S.failures sink.old) }
    ensures failed { OnErr result (S.failures sink.old < S.failures sink.new) }
{
    send(sink, b" at ")?;
    send_number(sink, line)?;
    send(sink, b":")?;
    send_number(sink, column)?;
    Ok(())
}

/// Writes the place of a refusal, if it has one.
#[tactic(auto, using(lb_output::proofs::SinkBytes::takes_no_byte))]
fn send_position<S: Sink>(sink: &mut S, position: Option<(u32, u32)>) -> Result<(), Sent>
    requires { S.failures sink.old < u64.MAX }
    ensures same { (S.taken sink.new).writer ≡ (S.taken sink.old).writer }
    ensures all { OnOk result (Takes (S.taken sink.old) (S.taken sink.new)
        (spec.place position)) }
    ensures ok { OnOk result (S.failures sink.new ≡ S.failures sink.old) }
    ensures failed { OnErr result (S.failures sink.old < S.failures sink.new) }
{
    match position {
        Some((line, column)) => send_place(sink, line, column),
        None => Ok(()),
    }
}

/// Writes the line of a refusal.
fn send_line<S: Sink>(sink: &mut S, refusal: &Refusal) -> Result<(), Sent>
    requires { S.failures sink.old < u64.MAX }
    ensures same { (S.taken sink.new).writer ≡ (S.taken sink.old).writer }
    ensures all { OnOk result (Takes (S.taken sink.old) (S.taken sink.new)
        (spec.line refusal.now.number refusal.now.position)) }
    ensures ok { OnOk result (S.failures sink.new ≡ S.failures sink.old) }
    ensures failed { OnErr result (S.failures sink.old < S.failures sink.new) }
{
    send(sink, b"refused: E")?;
    send_number(sink, refusal.number as u32)?;
    send(sink, b" ")?;
    send_word(sink, refusal.number)?;
    send_position(sink, refusal.position)?;
    send(sink, b"\n")?;
    Ok(())
}

/// Writes the line of a refusal and further lines.
pub fn send_lines<S: Sink>(sink: &mut S, refusal: &Refusal, further: &[u8]) -> Result<(), Sent>
    requires { S.failures sink.old < u64.MAX }
    ensures same { (S.taken sink.new).writer ≡ (S.taken sink.old).writer }
    ensures all { OnOk result (Takes (S.taken sink.old) (S.taken sink.new)
        (spec.line refusal.now.number refusal.now.position ++ further.now)) }
    ensures ok { OnOk result (S.failures sink.new ≡ S.failures sink.old) }
    ensures failed { OnErr result (S.failures sink.old < S.failures sink.new) }
{
    send_line(sink, refusal)?;
    send(sink, further)?;
    Ok(())
}

/// Writes the line of a refusal to standard error, and returns its exit status. Where standard
/// error fails too, the status alone reports the refusal.
pub fn refuse<E: Sink>(refusal: &Refusal, errors: &mut E) -> u8
    requires { E.failures errors.old < u64.MAX }
    ensures status { result ≡ refusal_status refusal.now.number }
    ensures told { TookOrFailed
        (change (E.taken errors.old) (E.taken errors.new)
        (E.failures errors.old) (E.failures errors.new))
        (spec.line refusal.now.number refusal.now.position) }
{
    let _ = send_line(errors, refusal);
    refusal.status()
}
