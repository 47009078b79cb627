//! What follows a release or a purge: for each wake a block is posted, or a task is woken. Clauses cite `specs/Waking.antt`, and
//! `Waking.antt` of mv_machine.

ghost use Rattle.std.specs.Prelude.{◌≡◌, ◌<◌, ◌∷◌, [], length, slice_get, Some};
ghost use Rattle.std.specs.List.{All};
ghost use Rattle.mv_wait.specs.Prelude.{reach, total, IsFairWake, blocks_of, last_of, IsAtRest, MayCall};
ghost use Rattle.mv_latchset.specs.Waking.{PostsWakes};

use mv_latch::Wake;
use mv_wait::{Station, Task};
use std::sync::Wait;

/// Posts the block or wakes the task of each wake of the task's last event on the latch set, in order.
pub(crate) fn post_wakes<R: Wait>(station: &Station, rt: &R, task: &mut Task)
    requires task { MayCall station.now (total (reach station.now.config) (blocks_of task.old.wakes)) task.old }
    requires fair { All (IsFairWake station.now.config) task.old.wakes }
    ensures posted { PostsWakes station.now.config task.old.wakes task.old task.new }
    ensures rest { IsAtRest task.new.log }
{
    let count = task.wakes().len();
    for i in 0..count {
        let wake = wake_at(task, i);
        post_wake(station, rt, task, wake);
    }
}

// The wake at this position.
fn wake_at(task: &Task, i: usize) -> Wake
    requires { i < length (last_of task.now.told) }
    ensures { slice_get (last_of task.now.told) i ≡ Some result }
{
    task.wakes()[i]
}

// Posts the block of a wake, or wakes its task if it has no block.
fn post_wake<R: Wait>(station: &Station, rt: &R, task: &mut Task, wake: Wake)
    requires task { MayCall station.now (total (reach station.now.config) (blocks_of (wake ∷ []))) task.old }
    requires fair { IsFairWake station.now.config wake }
    ensures posted { PostsWakes station.now.config (wake ∷ []) task.old task.new }
    ensures rest { IsAtRest task.new.log }
    ensures told { task.new.told ≡ task.old.told }
{
    match wake.ecb {
        Some(ecb) => {
            station.post(rt, task, ecb, wake.code);
        }
        None => station.wake(wake.caller),
    }
}
