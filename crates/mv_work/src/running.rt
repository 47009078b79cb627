//! The steps of a job that an initiator runs. Clauses cite `specs/Steps.antt` and `specs/Initiating.antt`.
//!
//! ```text
//!   a step ─┬─ PRINT, SCAN, COUNT or FREE ──> the next step, after the last the job's end with code 0
//!           ├─ ABEND or RETURN ──> the job's end with its code
//!           └─ USE ──> Latch(running) ── granted ──> the next step
//! ```

ghost use Rattle.std.specs.Prelude.{◌≡◌, ◌<◌, ◌≤◌, ◌+◌, length, IfOk};
ghost use Rattle.mv_wait.specs.Prelude.{IsOf, IsSame, IsAtRest, MayCall};
ghost use Rattle.mv_deck.specs.Operand.{highest_latch};
ghost use Rattle.mv_deck.specs.Weight.{step_events};
ghost use Rattle.mv_plan.specs.Jobs.{job_at};
ghost use Rattle.mv_work.specs.Initiating.{InitiatorComes, IsRunning, initiator_due, initiator_left, step_marks, steps_from};
ghost use Rattle.mv_work.specs.Needs.{Holds};
ghost use Rattle.mv_work.specs.Steps.{AreKept, DoesStep, IsGoodDid, requests_of, step_at};
ghost use Rattle.mv_work.specs.declared.stage.InitiatorStage.TheVariants as stage;

use crate::initiator::Initiator;
use crate::lost::Lost;
use crate::need::Need;
use crate::next::Next;
use crate::records::{InitiatorRecord, Noted};
use crate::spool::Spool;
use crate::stage::{InitiatorStage, Running};
use mv_deck::Step;
use mv_latch::Mode;
use mv_latchset::{LatchToken, release_latch};
use mv_task::Gate;
use mv_wait::Task;
use std::sync::Wait;

/// The end of a job that did all its steps.
const ENDED: u32 = 0;

/// A job that a scheduler's code names.
#[derive(Clone, Copy)]
pub(crate) struct Named {
    /// Its place in the deck, from 0.
    pub job: u32,
    /// Whether it is not to be run.
    pub skipped: bool,
}

/// The outcome of a step.
#[derive(Clone, Copy)]
pub(crate) enum Did {
    /// It was done.
    Went,
    /// The job has ended with this code.
    Ended(u32),
    /// The job asks for this latch in this mode.
    Asks(u32, Mode),
}

impl<G: Gate> Spool<'_, G> {
    /// Does the steps of a job from the next on, up to one that obtains a latch. After the last, ends the job.
    pub(crate) fn run_on<R: Wait>(
        &self,
        rt: &R,
        task: &mut Task,
        me: &mut Initiator,
        running: Running,
    ) -> Result<Next<InitiatorStage>, Lost>
        requires running { IsRunning self.now me.old running }
        requires task { MayCall self.now.board (initiator_due self.now me.old (stage.Latch running)) task.old }
        ensures comes { InitiatorComes self.now me.new
            (steps_from self.now me.old running running.step (requests_of running.requests)) task.old result task.new }
        ensures same { me.new.index ≡ me.old.index }
    {
        for place in running.step..self.step_count(running.job) {
            match self.do_step(rt, task, &mut me.noted, &running, place)? {
                Did::Went => {}
                Did::Ended(end) => return self.end_job(rt, task, me, running, end),
                Did::Asks(latch, mode) => {
                    let mut at = running;
                    at.step = place + 1;
                    at.latch = latch;
                    let requestor = running.requestor();
                    let need = Need::Latch(latch, requestor, mode);
                    return Ok(Next::Wait(InitiatorStage::Latch(at), need));
                }
            }
        }
        self.end_job(rt, task, me, running, ENDED)
    }

    // Does the step of a job at this place, and notes it if it prints or scans. A USE makes no event: its latch is still to be obtained.
    fn do_step<R: Wait>(
        &self,
        rt: &R,
        task: &mut Task,
        noted: &mut InitiatorRecord,
        running: &Running,
        place: usize,
    ) -> Result<Did, Lost>
        requires job { running.now.job < length self.now.jobs }
        requires place { place < length (job_at self.now.jobs running.now.job).steps }
        requires kept { AreKept running.now.requests }
        requires room { step_marks (step_at self.now running.now.job place) ≤ noted.old.room }
        requires task { MayCall self.now.board (step_events (step_at self.now running.now.job place)) task.old }
        ensures does { DoesStep self.now.board.config running.now.job running.now.requests place noted.old.notes
            (step_at self.now running.now.job place) result noted.new.notes task.old task.new }
        ensures jobs { noted.new.jobs ≡ noted.old.jobs }
        ensures room { noted.old.room ≤ noted.new.room + step_marks (step_at self.now running.now.job place) }
        ensures board { IsOf self.now.board task.new }
        ensures rest { IsAtRest task.new.log }
        ensures same { IsSame task.old task.new }
        ensures few { task.old.left ≤ task.new.left + step_events (step_at self.now running.now.job place) }
        ensures end { IfOk result IsGoodDid }
    {
        let step = self.step(running.job, place);
        match step {
            Step::Print(_) => {
                noted.note(Noted::Printed(place));
                Ok(Did::Went)
            }
            Step::Use(latch, mode) => Ok(Did::Asks(*latch, *mode)),
            Step::Free(latch) => {
                let Some(token) = running.requests[*latch as usize] else {
                    return Err(Lost);
                };
                release_latch(self.station, rt, task, token, false)?;
                Ok(Did::Went)
            }
            Step::Count(volume, amount) => {
                let number = self.station.read_volume(task, *volume);
                let Some(sum) = number.checked_add(*amount) else {
                    return Err(Lost);
                };
                self.station.write_volume(rt, task, *volume, sum);
                Ok(Did::Went)
            }
            Step::Scan(volume) => {
                let first = self.station.read_volume(task, *volume);
                let second = self.station.read_volume(task, *volume);
                noted.note(Noted::Scanned {
                    step: place,
                    first,
                    second,
                });
                Ok(Did::Went)
            }
            Step::Abend(code) => Ok(Did::Ended(*code)),
            Step::Return(code) => Ok(Did::Ended(*code)),
        }
    }

    /// The latch was granted: does the steps after the USE that obtained it.
    pub(crate) fn on_granted<R: Wait>(
        &self,
        rt: &R,
        task: &mut Task,
        me: &mut Initiator,
        running: Running,
        token: LatchToken,
    ) -> Result<Next<InitiatorStage>, Lost>
        requires running { IsRunning self.now me.old running }
        requires token { (running.latch ≤ highest_latch) × (token.latch ≡ running.latch) }
        requires task { MayCall self.now.board (initiator_due self.now me.old (stage.Latch running)) task.old }
        ensures comes { InitiatorComes self.now me.new
            (initiator_left self.now me.old (stage.Latch running) (Holds token.id)) task.old result task.new }
        ensures same { me.new.index ≡ me.old.index }
    {
        let mut running = running;
        running.requests[running.latch as usize] = Some(token);
        self.run_on(rt, task, me, running)
    }
}
