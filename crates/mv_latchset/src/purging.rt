//! Purges of a requestor. Clauses cite `LatchCalls.antt` of mv_calls, `Run.antt` of mv_wait, and `specs/Answers.antt`.

ghost use Rattle.mv_wait.specs.Prelude.{release_cost, purge, Serves, MayCall};

use crate::replies::purged_in;
use crate::waking::post_wakes;
use mv_calls::Purged;
use mv_latch::LatchOp;
use mv_machine::{Object, Op};
use mv_wait::{Station, Task};
use std::sync::Wait;

/// Takes all requests of a requestor out of all latches, whichever tasks made them, as ISGLPRG does.
///
/// After that it posts the blocks of the requests that waited with 1, and those of the requests that this granted with 0, each
/// with its exits; and it wakes the tasks that wait for their requests. Any task may purge any requestor, and is never refused.
/// The call makes at most as many events as `ValidConfig::release_cost` gives; these must be left. It does not park; it spins
/// until it gets its turn at the lists.
///
/// # Examples
///
/// From `crates/mv_task/src/ending.rt`, the end of a job, of which nothing is to be left:
///
/// ```
/// let purged = purge(station, rt, task, requestor);
/// station.post(rt, task, ecb, code);
/// purged
/// ```
pub fn purge<R: Wait>(station: &Station, rt: &R, task: &mut Task, requestor: u64) -> Purged
    requires task { MayCall station.now (release_cost station.now.config) task.old }
    ensures served { Serves (release_cost station.now.config) (purge station.now.config requestor) result task.old task.new }
{
    let reply = station.event(
        rt,
        task,
        Object::Latches,
        Op::Latch(LatchOp::Purge { requestor }),
    );
    let purged = purged_in(reply);
    post_wakes(station, rt, task);
    purged
}
