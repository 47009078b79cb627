//! Writing a whole text. Clauses cite specs/Sink for what a sink takes, and specs/Fault for the cause of a failure.

ghost use Rattle.std.specs.Prelude.{◌<◌, ◌≤◌, length, take, IfErr, OnErr, OnOk};
ghost use Rattle.mv_io.specs.Fault.{Rose};
ghost use Rattle.mv_io.specs.Sink.{Appends, AppendsFront};

use crate::Sink;
use thiserror::Error;

/// The error of a sink that failed before it had all bytes.
#[derive(Clone, Copy, Debug, PartialEq, Eq, Error)]
#[error("the stream failed after {taken} bytes")]
pub struct Partial {
    /// How many bytes of the text the sink took, from the front.
    pub taken: usize,
}

/// Writes all bytes, piece by piece as the sink takes them. It waits as long as the sink's writes do.
///
/// # Errors
///
/// `Partial` at the first failure, which is not tried again.
///
/// # Examples
///
/// From `crates/mv_program/src/tests/failing_streams.rt`, a sink that failed before it had all bytes, and goes on:
///
/// ```
/// let written = write_all(&mut sink, b"tasks");
/// assert!(rt; matches!(written, Err(Partial { taken: 2 })));
/// assert_count(&rt, sink.faults(), 1, "a sink");
/// assert!(rt; write_all(&mut sink, b"ks").is_ok());
/// ```
pub fn write_all<K: Sink>(sink: &mut K, bytes: &[u8]) -> Result<(), Partial>
    ensures whole { OnOk result (Appends (K.taken sink.old) (K.taken sink.new) bytes.now) }

    ensures partial { IfErr result (λ partial. Appends (K.taken sink.old) (K.taken sink.new) (take partial.taken bytes.now)) }
    ensures short { IfErr result (λ partial. partial.taken < length bytes.now) }
    ensures front { OnErr result (AppendsFront (K.taken sink.old) (K.taken sink.new) bytes.now) }
    ensures failed { OnErr result (Rose (K.faults sink.old) (K.faults sink.new)) }

    ensures count { K.faults sink.old ≤ K.faults sink.new }
{
    let mut taken = 0;
    while taken < bytes.len() {
        match sink.write(&bytes[taken..]) {
            Ok(0) | Err(_) => return Err(Partial { taken }),
            Ok(count) => taken += count,
        }
    }
    Ok(())
}
