//! Values go to a sink, part by part.

ghost use Rattle.std.specs.Prelude.{◌≡◌, ◌<◌, ℕ, List, [], Ok, true, false, IfErr, IfOk, OnErr};
ghost use Rattle.std.specs.Prelude.{OnOk};
ghost use Rattle.lb_output.specs.Follows.{HasCause};
ghost use Rattle.lb_output.specs.Taken.{TakesNothing};
ghost use Rattle.lb_show.specs.Shows.{csv_rest, is_csv, parts_left};
ghost use Rattle.lb_values.specs.Sending.{HasSent, IsText};

use lb_output::{FollowError, Sink, send};
use lb_show::Show;
use std::alloc::Global;

/// Writes the next part of some values to a sink, and returns whether more is left. `count` bytes
/// went out before.
fn send_part<S: Sink>(
    show: &mut Show<'_>,
    text: &mut Vec<u8>,
    count: &mut usize,
    sink: &mut S,
) -> Result<bool, FollowError>
    requires { S.failures sink.old < u64.MAX }
    ensures kept { is_csv show.new ≡ is_csv show.old }
    ensures sent { OnOk result (HasSent (is_csv show.old) (S.taken sink.old) (S.taken sink.new)
        (csv_rest show.old) (csv_rest show.new)) }
    ensures all { result ≡ Ok false → is_csv show.old ≡ true → csv_rest show.new ≡ [] }
    ensures fewer { result ≡ Ok true → parts_left show.new < parts_left show.old }
    ensures failures { OnOk result (S.failures sink.new ≡ S.failures sink.old) }
    ensures stopped { OnErr result ((rest : List ℕ) × HasSent (is_csv show.old)
        (S.taken sink.old) (S.taken sink.new) (csv_rest show.old) rest) }
    ensures cause { IfErr result (λ e. HasCause e (S.failures sink.old) (S.failures sink.new)) }
{
    text.clear();
    match show.write(text) {
        Ok(is_more) => match send(sink, text.as_slice()) {
            Ok(()) => {
                *count = count.saturating_add(text.len());
                Ok(is_more)
            }
            Err(sent) => Err(FollowError::Write {
                count: count.saturating_add(sent.count),
            }),
        },
        Err(_) => Err(FollowError::Memory { count: *count }),
    }
}

/// Flushes a sink. `count` bytes went out before, and an error reports them.
fn finish<S: Sink>(count: usize, sink: &mut S) -> Result<(), FollowError>
    requires { S.failures sink.old < u64.MAX }
    ensures kept { TakesNothing (S.taken sink.old) (S.taken sink.new) }
    ensures ok { OnOk result (S.failures sink.new ≡ S.failures sink.old) }
    ensures cause { IfErr result (λ e. HasCause e (S.failures sink.old) (S.failures sink.new)) }
{
    match sink.flush() {
        Ok(()) => Ok(()),
        Err(_) => Err(FollowError::Write { count }),
    }
}

/// Writes what is left of some values to a sink.
pub(crate) fn send_values<S: Sink>(
    alloc: Global,
    show: &mut Show<'_>,
    sink: &mut S,
) -> Result<(), FollowError>
    requires { S.failures sink.old < u64.MAX }
    ensures { IsText (is_csv show.old) (csv_rest show.old) (S.taken sink.old) (S.taken sink.new)
        (S.failures sink.old) (S.failures sink.new) result }
{
    let mut text = Vec::new(alloc);
    let mut count: usize = 0;
    'parts: loop {
        match send_part(show, &mut text, &mut count, sink) {
            Ok(true) => {}
            Ok(false) => return finish(count, sink),
            Err(cause) => return Err(cause),
        }
    }
}
