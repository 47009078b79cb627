//! The ends of jobs and of tasks. Clauses cite `Endings.antt` and `Services.antt` of mv_calls, `Run.antt` of mv_wait, and
//! `specs/Ending.antt`.

ghost use Rattle.std.specs.Prelude.{◌≡◌, ◌+◌, ◌<◌, true, length, IfSome};
ghost use Rattle.mv_wait.specs.Prelude.{code_limit, reach, release_cost, element_count, element_owner, IsOf, end_of_job, end_of_task};
ghost use Rattle.mv_wait.specs.Prelude.{used_elements, kept_of, IsAtRest, mother_events, MayCall, Serves};
ghost use Rattle.mv_task.specs.Ending.{ClosesOne, ClosesAll, KeepsOthers};

use mv_element::Token;
use mv_latchset::{Purged, purge};
use mv_pause::deallocate;
use mv_wait::{Station, Task};
use std::sync::Wait;

/// Ends a job: purges its requestor of eight bytes, and then posts a block with the code of its end, of 30 bits. Returns what the
/// purge did.
///
/// A task that waits for the block finds the job's latches free. The call makes at most as many events as a purge
/// (`ValidConfig::release_cost`) and a post of the block (`ValidConfig::reach`) together; these must be left. It does not park,
/// wakes the tasks that its purge and its post wake, and is never refused.
///
/// # Examples
///
/// From `crates/mv_work/src/initiator.rt`, the end of a job of the spool; `done` is the block for which other tasks wait:
///
/// ```
/// end_of_job(self.station, rt, task, running.requestor(), done, end);
/// ```
pub fn end_of_job<R: Wait>(
    station: &Station,
    rt: &R,
    task: &mut Task,
    requestor: u64,
    ecb: u32,
    code: u32,
) -> Purged
    requires task { MayCall station.now (release_cost station.now.config + reach station.now.config ecb) task.old }
    requires block { ecb < length station.now.config.owners }
    requires code { code < code_limit }
    ensures served { Serves (release_cost station.now.config + reach station.now.config ecb)
        (end_of_job station.now.config requestor ecb code) result task.old task.new }
{
    let purged = purge(station, rt, task, requestor);
    station.post(rt, task, ecb, code);
    purged
}

/// Ends a task: gives back its elements that are in use, from the lowest on, purges its requestor, and then posts its mother's
/// block with the code of its end, of 30 bits, if there is such a block. Returns what the purge did.
///
/// The tokens of its elements are spent then. The call makes at most one event for each element in use, and those of a purge and
/// of a post of the block; these must be left. It does not park, wakes the tasks that its purge and its post wake, and is never
/// refused.
///
/// # Examples
///
/// From `crates/mv_runscript/src/serving.rt`, an arm of the match over a script's calls:
///
/// ```
/// Call::EndTask {
///     requestor,
///     mother,
///     code,
/// } => purged(end_of_task(station, rt, task, *requestor, *mother, *code)),
/// ```
pub fn end_of_task<R: Wait>(
    station: &Station,
    rt: &R,
    task: &mut Task,
    requestor: u64,
    mother: Option<u32>,
    code: u32,
) -> Purged
    requires task { MayCall station.now (length (used_elements station.now.config (kept_of task.old.number task.old.log))
        + release_cost station.now.config + mother_events station.now.config mother) task.old }
    requires block { IfSome mother (λ ecb. ecb < length station.now.config.owners) }
    requires code { code < code_limit }
    ensures served { Serves (length (used_elements station.now.config (kept_of task.old.number task.old.log))
        + release_cost station.now.config + mother_events station.now.config mother)
        (end_of_task station.now.config requestor mother code) result task.old task.new }
{
    give_back_all(station, rt, task);
    match mother {
        Some(ecb) => end_of_job(station, rt, task, requestor, ecb, code),
        None => purge(station, rt, task, requestor),
    }
}

// Gives back the task's elements that are in use, from the lowest on.
fn give_back_all<R: Wait>(station: &Station, rt: &R, task: &mut Task)
    requires task { MayCall station.now (length (used_elements station.now.config (kept_of task.old.number task.old.log))) task.old }
    ensures closed { ClosesAll station.now.config task.old task.new }
    ensures rest { IsAtRest task.new.log }
{
    for element in station.config().own_elements(task.number()) {
        give_back(station, rt, task, element);
    }
}

// Gives back an element of the task's own, if it is in use.
fn give_back<R: Wait>(station: &Station, rt: &R, task: &mut Task, element: u32)
    requires task { IsOf station.now task.old }
    requires rest { IsAtRest task.old.log }
    requires element { element < element_count station.now.config }
    requires own { element_owner station.now.config element ≡ task.old.number }
    requires left { (kept_of task.old.number task.old.log).in_use element ≡ true → 0 < task.old.left }
    ensures closed { ClosesOne element task.old task.new }
    ensures others { KeepsOthers element task.old task.new }
    ensures rest { IsAtRest task.new.log }
{
    if !task.in_use(element) {
        return;
    }
    let token = Token {
        element,
        generation: task.generation(element),
    };
    let Ok(()) = deallocate(station, rt, task, token) else {
        unreachable!()
    };
}
