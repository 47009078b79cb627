//! The scheduler: hands each job, in the order of the deck, to the lowest initiator that is idle, once the jobs that it waits for
//! have ended; then dismisses the initiators. Clauses cite the plan's `SpoolTasks.antt`, and `specs/Works.antt` and
//! `specs/Scheduling.antt`.
//!
//! ```text
//!   begin ──> Entry(0)
//!   Entry(job) ─┬─ AFTER names jobs ──> Ends(job) ──> Idle(job, skipped)
//!               └─ AFTER names none ────────────────> Idle(job, false)
//!   Idle(job, skipped) ── hands over the job's code ──> Entry(job + 1), after the last job Dismissal(0)
//!   Dismissal(index) ── hands over NO_JOB ──> Dismissal(index + 1), after the last initiator done
//! ```
//!
//! Before it waits for an idle initiator, it sets the exit of `done(job)`, which posts the job's end. If the deck has no job, `begin`
//! leads to `Dismissal(0)`.

ghost use Rattle.std.specs.Prelude.{◌≡◌, ◌<◌, ◌≤◌, ◌+◌, ◌*◌, ◌-◌, [], ◌∷◌, length, MatchResult};
ghost use Rattle.mv_calls.specs.declared.outcomes.WaitSlot.TheVariants.{Complete};
ghost use Rattle.mv_wait.specs.Prelude.{release_limit, Done, Wrong, CallerFace, IsFresh, MayCall};
ghost use Rattle.mv_plan.specs.Prelude.{job_at, scheduler, ends_awaited, hand_over as handed};
ghost use Rattle.mv_work.specs.Needs.{Slots, answer_of};
ghost use Rattle.mv_work.specs.Ran.{Ran};
ghost use Rattle.mv_work.specs.Scheduling.{IsSchedulerAnswer, SchedulerAsks, SchedulerComes, scheduler_due, scheduler_left};
ghost use Rattle.mv_work.specs.Scheduling.{dismissals_from, exit_set, jobs_due, jobs_from, then_jobs};
ghost use Rattle.mv_work.specs.Works.{HasComeAs, ToldAs};
ghost use Rattle.mv_work.specs.declared.stage.SchedulerStage.TheVariants as stage;
ghost use Rattle.mv_work.specs.declared.work.Role.TheVariants as role;

use crate::deciding::{end_blocks, idle_blocks, job_code, some_above};
use crate::finding::first_in;
use crate::initiator::NO_JOB;
use crate::lost::Lost;
use crate::need::{Blocks, Got, Need};
use crate::next::{Next, keep_stage};
use crate::spool::Spool;
use crate::stage::SchedulerStage;
use mv_element::Token;
use mv_pause::release;
use mv_plan::initiator;
use mv_task::{Gate, Point};
use mv_wait::{Task, WaitSlot};
use std::sync::Wait;

impl<G: Gate> Spool<'_, G> {
    /// Begins the scheduler, and returns what it waits for.
    pub(crate) fn begin_scheduler(
        &self,
        stage: &mut Option<SchedulerStage>,
    ) -> Result<Option<Need>, Lost>
        ensures { (t : CallerFace) → IsFresh self.now.board scheduler t → HasComeAs self.now (role.Scheduler stage.new) t result t }
    {
        // Reading a field makes the facts of the spool known here.
        let _ = &self.initiators;
        let next = self.schedule(0);
        keep_stage(stage, Ok(next))
    }

    /// Resumes the scheduler with the answer to its last wait, and returns what it waits for next.
    pub(crate) fn go_on_scheduler<R: Wait>(
        &self,
        rt: &R,
        task: &mut Task,
        stage: &mut Option<SchedulerStage>,
        got: Got,
    ) -> Result<Option<Need>, Lost>
        requires told { (t : CallerFace) × ToldAs self.now (role.Scheduler stage.old) t got task.old }
        ensures { (t : CallerFace) → ToldAs self.now (role.Scheduler stage.old) t got task.old
            → HasComeAs self.now (role.Scheduler stage.new) t result task.new }
    {
        let Some(at) = *stage else { unreachable!() };
        let next = self.resume_scheduler(rt, task, at, got);
        keep_stage(stage, next)
    }

    // Resumes at the stage at which the scheduler waited.
    fn resume_scheduler<R: Wait>(
        &self,
        rt: &R,
        task: &mut Task,
        stage: SchedulerStage,
        got: Got,
    ) -> Result<Next<SchedulerStage>, Lost>
        requires answer { IsSchedulerAnswer self.now stage got }
        requires task { MayCall self.now.board (scheduler_due self.now stage) task.old }
        ensures { SchedulerComes self.now (scheduler_left self.now stage (answer_of got)) task.old result task.new }
    {
        match (stage, got) {
            (SchedulerStage::Entry(job), Got::Code(_)) => self.on_entry(rt, task, job),
            (SchedulerStage::Ends(job), Got::Slots(slots)) => {
                self.on_ends(rt, task, job, &slots)
            }
            (SchedulerStage::Idle(job, skipped), Got::Slots(slots)) => {
                self.on_idle(rt, task, job, skipped, &slots)
            }
            (SchedulerStage::Dismissal(index), Got::Code(generation)) => {
                self.on_dismissal(rt, task, index, generation)
            }
            _ => unreachable!(),
        }
    }

    // Hands out the jobs, in order, from this one on: waits for its entry. After the last, dismisses the initiators.
    fn schedule(&self, job: u32) -> Next<SchedulerStage>
        ensures { SchedulerAsks self.now (jobs_from self.now job) (jobs_due self.now job) result }
    {
        if job >= self.jobs() {
            return self.dismiss(0);
        }
        Next::Wait(SchedulerStage::Entry(job), Need::Block(self.entered(job)))
    }

    // The job was entered: waits for the ends of the jobs that its AFTER names, if there are any.
    fn on_entry<R: Wait>(
        &self,
        rt: &R,
        task: &mut Task,
        job: u32,
    ) -> Result<Next<SchedulerStage>, Lost>
        requires job { job < length self.now.jobs }
        requires task { MayCall self.now.board (scheduler_due self.now (stage.Entry job)) task.old }
        ensures { SchedulerComes self.now (then_jobs self.now job (ends_awaited self.now.board.config (length self.now.jobs)
            (job_at self.now.jobs job).after (exit_set self.now job))) task.old result task.new }
    {
        let after = self.after_of(job);
        if after.is_empty() {
            return self.set_exit(rt, task, job, false);
        }
        Ok(Next::Wait(
            SchedulerStage::Ends(job),
            Need::Blocks(Blocks {
                count: after.len() as u32,
                ecbs: end_blocks(self.jobs(), after),
            }),
        ))
    }

    // The ends were found: decides whether the job is to be run.
    fn on_ends<R: Wait>(
        &self,
        rt: &R,
        task: &mut Task,
        job: u32,
        slots: &[WaitSlot],
    ) -> Result<Next<SchedulerStage>, Lost>
        requires job { job < length self.now.jobs }
        requires slots { length slots.now ≡ length (job_at self.now.jobs job).after }
        requires task { MayCall self.now.board (scheduler_due self.now (stage.Ends job)) task.old }
        ensures { SchedulerComes self.now (scheduler_left self.now (stage.Ends job) (Slots slots.now)) task.old result task.new }
    {
        let skipped = some_above(self.after_of(job), slots);
        self.set_exit(rt, task, job, skipped)
    }

    // Sets the job's exit, and waits for an initiator that is idle.
    fn set_exit<R: Wait>(
        &self,
        rt: &R,
        task: &mut Task,
        job: u32,
        skipped: bool,
    ) -> Result<Next<SchedulerStage>, Lost>
        requires job { job < length self.now.jobs }
        requires task { MayCall self.now.board (scheduler_due self.now (stage.Ends job)) task.old }
        ensures { SchedulerComes self.now (then_jobs self.now job (exit_set self.now job skipped)) task.old result task.new }
    {
        let done = self.done(job);
        self.station.extend(rt, task, done, job + 1)?;
        Ok(Next::Wait(
            SchedulerStage::Idle(job, skipped),
            Need::Blocks(Blocks {
                count: 1,
                ecbs: idle_blocks(self.jobs(), self.initiators),
            }),
        ))
    }

    // Gives the job to the lowest initiator that is idle. The next job follows.
    fn on_idle<R: Wait>(
        &self,
        rt: &R,
        task: &mut Task,
        job: u32,
        skipped: bool,
        slots: &[WaitSlot],
    ) -> Result<Next<SchedulerStage>, Lost>
        requires job { job < length self.now.jobs }
        requires slots { length slots.now ≡ self.now.initiators }
        requires task { MayCall self.now.board (scheduler_due self.now (stage.Idle job skipped)) task.old }
        ensures { SchedulerComes self.now (scheduler_left self.now (stage.Idle job skipped) (Slots slots.now))
            task.old result task.new }
    {
        let found = first_in(slots)?;
        self.pass(rt, task, Point::Dispatched(job));
        let code = job_code(job, skipped);
        let index = found.position as u32;
        self.hand_over(rt, task, code, index, found.code)?;
        Ok(self.schedule(job + 1))
    }

    // Clears an idle initiator's block, and releases its pause, of the generation that it posted, with a code.
    fn hand_over<R: Wait>(
        &self,
        rt: &R,
        task: &mut Task,
        code: u32,
        index: u32,
        generation: u32,
    ) -> Result<(), Lost>
        requires index { index < self.now.initiators }
        requires code { code < release_limit }
        requires task { MayCall self.now.board 2 task.old }
        ensures ran { MatchResult result
            (λ _. Ran (handed self.now.board.config (length self.now.jobs) code index generation) (Done tt) task.old task.new)
            (λ _. Ran (handed self.now.board.config (length self.now.jobs) code index generation) Wrong task.old task.new) }
        ensures few { task.old.left ≤ task.new.left + 2 }
    {
        let idle = self.idle(index);
        let _ = self.station.clear(rt, task, idle)?;
        let token = Token {
            element: initiator(index),
            generation,
        };
        let _ = release(self.station, rt, task, token, code)?;
        Ok(())
    }

    // Dismisses the initiators, in order, from this one on: waits until it is idle.
    fn dismiss(&self, index: u32) -> Next<SchedulerStage>
        ensures { SchedulerAsks self.now (dismissals_from self.now index) (4 * (self.now.initiators - index)) result }
    {
        if index >= self.initiators {
            return Next::Done;
        }
        Next::Wait(
            SchedulerStage::Dismissal(index),
            Need::Block(self.idle(index)),
        )
    }

    // The initiator is idle: dismisses it with `NO_JOB`. The next initiator follows.
    fn on_dismissal<R: Wait>(
        &self,
        rt: &R,
        task: &mut Task,
        index: u32,
        generation: u32,
    ) -> Result<Next<SchedulerStage>, Lost>
        requires index { index < self.now.initiators }
        requires task { MayCall self.now.board (scheduler_due self.now (stage.Dismissal index)) task.old }
        ensures { SchedulerComes self.now (scheduler_left self.now (stage.Dismissal index) (Slots (Complete generation ∷ [])))
            task.old result task.new }
    {
        // Reading a field makes the facts of the spool known here.
        let _ = &self.initiators;
        self.hand_over(rt, task, NO_JOB, index, generation)?;
        Ok(self.dismiss(index + 1))
    }
}
