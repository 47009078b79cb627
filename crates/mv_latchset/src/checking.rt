//! The state of a request. Clauses cite `LatchCalls.antt` of mv_calls, `Run.antt` of mv_wait, and `specs/Answers.antt`.

ghost use Rattle.std.specs.Prelude.{◌<◌};
ghost use Rattle.mv_wait.specs.Prelude.{check_latch, Serves, MayCall};

use crate::replies::standing_in;
use crate::token::LatchToken;
use mv_calls::Standing;
use mv_latch::LatchOp;
use mv_machine::{Object, Op};
use mv_wait::{Station, Task};
use std::sync::Wait;

/// Returns the present state of a request of the task.
///
/// The call makes one event, a Confirm, which must be left. It does not park; it spins until it gets its turn at the lists. The
/// token's latch must be one of the configuration's. After the answer `Gone`, `Task::standing` no longer counts the request.
///
/// # Examples
///
/// From `crates/mv_runscript/src/serving.rt`, the state of the request that an earlier obtain returned, if it returned one:
///
/// ```
/// match requests[obtain as usize - 1] {
///     Some(token) => standing(check_latch(station, rt, task, token)),
///     None => Answer::NoToken,
/// }
/// ```
pub fn check_latch<R: Wait>(
    station: &Station,
    rt: &R,
    task: &mut Task,
    token: LatchToken,
) -> Standing
    requires task { MayCall station.now 1 task.old }
    requires latch { token.latch < station.now.config.latches }
    ensures served { Serves 1 (check_latch token.latch token.id) result task.old task.new }
{
    let reply = station.event(
        rt,
        task,
        Object::Latches,
        Op::Latch(LatchOp::Confirm {
            latch: token.latch,
            id: token.id,
        }),
    );
    standing_in(reply)
}
