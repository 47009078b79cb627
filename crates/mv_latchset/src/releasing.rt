//! Releases of latches. Clauses cite `LatchCalls.antt` of mv_calls, `Run.antt` of mv_wait, and `specs/Answers.antt` and
//! `specs/Releasing.antt`.

ghost use Rattle.std.specs.Prelude.{◌≡◌, ◌<◌};
ghost use Rattle.mv_wait.specs.Prelude.{release_cost, release_latch, IsServed, MayCall};
ghost use Rattle.mv_latchset.specs.Answers.{freed_answer};
ghost use Rattle.mv_latchset.specs.Releasing.{IsReleasedBy};

use crate::replies::released_in;
use crate::token::LatchToken;
use crate::waking::post_wakes;
use mv_latch::LatchOp;
use mv_machine::{Object, Op};
use mv_wait::{Station, Task};
use std::sync::Wait;
use thiserror::Error;

/// The reason for which a release was refused.
#[derive(Clone, Copy, Debug, PartialEq, Eq, Error)]
pub enum ReleaseLatchRefusal {
    /// The latch has no such request of the task.
    #[error("the latch has no such request of the task")]
    Gone,
    /// The request waits, and the release was conditional: the request stays in the list.
    #[error("the request waits, and was left")]
    StillWaiting,
}

/// Takes a request of the task out of its latch, as ISGLREL does, and returns how many other requests this granted.
///
/// A waiting request is taken out only if the release is not conditional. After that the call posts the blocks of the granted
/// requests with 0, each with its exits, and wakes the tasks that wait for their requests. It makes at most as many events as
/// `ValidConfig::release_cost` gives; these must be left. It does not park; it spins until it gets its turn at the lists.
///
/// # Errors
///
/// `Gone` if the latch has no such request of the task, as after a purge; `StillWaiting` if the request waits and the release is
/// conditional. Each is the reply to one event, and posts nothing.
///
/// # Examples
///
/// From `crates/mv_events/src/entering.rt`, which makes events under a latch:
///
/// ```
/// let token = take_latch(station, rt, task, table)?;
/// let answer = enter(station, rt, task, table, index, code);
/// // A purge may have taken the request out: then there is nothing to give back, and the answer is the same.
/// let _ = release_latch(station, rt, task, token, false);
/// answer
/// ```
pub fn release_latch<R: Wait>(
    station: &Station,
    rt: &R,
    task: &mut Task,
    token: LatchToken,
    conditional: bool,
) -> Result<u32, ReleaseLatchRefusal>
    requires task { MayCall station.now (release_cost station.now.config) task.old }
    requires latch { token.latch < station.now.config.latches }
    ensures served { IsServed (release_cost station.now.config)
        (release_latch station.now.config token.latch token.id conditional) (λ a. a ≡ freed_answer result) task.old task.new }
    ensures causes { IsReleasedBy station.now.config token.latch token.id conditional task.old result task.new }
{
    let reply = station.event(
        rt,
        task,
        Object::Latches,
        Op::Latch(LatchOp::Release {
            latch: token.latch,
            id: token.id,
            conditional,
        }),
    );
    let granted = released_in(reply)?;
    post_wakes(station, rt, task);
    Ok(granted)
}
