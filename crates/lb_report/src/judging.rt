//! Judging a source alone.

ghost use Rattle.std.specs.Prelude.{IfOk, IfErr};
ghost use Rattle.lb_report.specs.Judging.{IsAcceptedSource, IsRefusedSource};

use crate::answer::{AcceptedProgram, accept};
use lb_refusal::{BenchError, Options};
use lb_static::Signature;
use std::alloc::Global;

/// Judges a source without traces: the signature that its traces must have, with the node under
/// test and the observer that the options name.
///
/// An error is what [`bench`](crate::bench) would say of the source with any traces: E1 to E13, or
/// E0 where memory ran out.
pub fn judge(alloc: Global, source: &[u8], options: &Options) -> Result<Signature, BenchError>
    ensures ok { IfOk result (λ inputs. IsAcceptedSource source.now options.now inputs) }
    ensures err { IfErr result (λ e. IsRefusedSource source.now options.now e) }
{
    match accept(alloc, source, options) {
        Ok(program) => {
            let AcceptedProgram {
                signature,
                ordered: _ordered,
            } = program;
            Ok(signature)
        }
        Err(error) => Err(error),
    }
}
