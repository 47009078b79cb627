//! A task waits on its thread for what it needs. Clauses cite `Meeting.antt` and `Needs.antt` of mv_work.

ghost use Rattle.mv_work.specs.Meeting.{IsMet, MayMeet};
ghost use Rattle.mv_work.specs.Needs.{need_events};
ghost use Rattle.mv_wait.specs.Run.{MayCall};

use arrayvec::ArrayVec;
use mv_latchset::{LatchForm, Obtained, obtain};
use mv_pause::pause;
use mv_wait::{Station, Task, WaitSlot};
use mv_work::{Got, Lost, MOST_BLOCKS, Need};
use std::sync::Wait;
use std::time::Clock;

/// Makes the call for the need, which parks until the need is met, and returns the answer.
///
/// # Errors
///
/// `Lost` if the call was refused or had a reply that the task does not foresee.
pub(crate) fn meet<R: Wait + Clock>(
    station: &Station,
    rt: &R,
    task: &mut Task,
    need: Need,
) -> Result<Got, Lost>
    requires task { MayCall station.now (need_events need) task.old }
    requires need { MayMeet station.now.config task.old.number need }
    ensures met { IsMet station.now.config need task.old result task.new }
{
    match need {
        Need::Blocks(blocks) => {
            let mut found = ArrayVec::from([WaitSlot::Open; MOST_BLOCKS]);
            found.truncate(blocks.ecbs.len());
            station.wait(rt, task, blocks.count, &blocks.ecbs, &mut found)?;
            Ok(Got::Slots(found))
        }
        Need::Block(ecb) => Ok(Got::Code(station.wait_one(rt, task, ecb))),
        Need::Pause(token) => Ok(Got::Given(pause(station, rt, task, token)?)),
        Need::Latch(latch, requestor, mode) => {
            let form = LatchForm::Waiting;
            match obtain(station, rt, task, latch, requestor, mode, form)? {
                Obtained::Granted(token) => Ok(Got::Granted(token)),
                Obtained::Pending(_) => Err(Lost),
            }
        }
    }
}
