//! A task that waits for an event, and one that completes it. Clauses cite `specs/Told.antt`.

ghost use Rattle.std.specs.Prelude.{◌≡◌, ◌<◌, IfOk};
ghost use Rattle.mv_wait.specs.Prelude.{code_limit, Legal};
ghost use Rattle.mv_completion.specs.Told.{completion_setup, IsTold, HasDone};

use mv_attach::{Work, config_of_blocks, run_tasks};
use mv_wait::{History, NoMemory, Station, Task};
use std::alloc::Global;
use std::sync::Wait;
use std::thread::Threads;
use std::time::Clock;

/// The task that waits; the other one completes the event.
const WAITER: u32 = 0;

/// The block that says that the event is complete.
const EVENT: u32 = 0;

/// The results of a completion.
#[derive(Drop)]
pub struct Completed {
    /// The code that the waiter's wait returned.
    pub told: u32,
    /// All events, as one legal history, with the configuration of the run.
    pub history: History,
}

// The work of the two tasks: one waits, and the other posts this code.
#[derive(Drop)]
struct Completing(u32);

impl Work for Completing {
    type Room = u32;

    ghost can_start = { λ c b k room. (b.config ≡ completion_setup) × (c.0 < code_limit) };

    ghost has_done = { λ c b k old t new. HasDone c.0 k t.log new };

    fn work<R: Wait + Clock>(&self, station: &Station, rt: &R, task: &mut Task, told: &mut u32) {
        if task.number() == WAITER {
            *told = station.wait_one(rt, task, EVENT);
        } else {
            station.post(rt, task, EVENT, self.0);
        }
    }
}

/// Has one task wait for an event, which another task completes with this code of 30 bits.
///
/// # Errors
///
/// `NoMemory` if memory runs out, before any task starts.
pub fn complete<R: Threads + Wait + Clock + Sync>(
    rt: &R,
    alloc: Global,
    code: u32,
) -> Result<Completed, NoMemory>
    requires code { code < code_limit }
    ensures told { IfOk result (λ completed. IsTold code completed.told completed.history.coming) }
    ensures config { IfOk result (λ completed. completed.history.config ≡ completion_setup) }
    ensures legal { IfOk result (λ completed. Legal completed.history.config completed.history.coming) }
{
    let rooms = vec![in alloc; 0, 0]?;
    // A wait is two events, and a post is one. The block is the waiter's.
    let config = config_of_blocks(alloc, &[2, 1], &[WAITER])?;
    let (station, tasks) = Station::open(alloc, config)?;
    let (tasks, told) = run_tasks(rt, alloc, &station, &Completing(code), tasks, rooms)?;
    let closed = station.close(tasks);
    Ok(Completed {
        told: told[0],
        history: closed.history,
    })
}
