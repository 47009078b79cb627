//! An initiator: runs the jobs that it is given, and notes what they do. Clauses cite the plan's `SpoolTasks.antt`, and
//! `specs/Works.antt`, `specs/Noting.antt` and `specs/Initiating.antt`.
//!
//! ```text
//!   begin ── allocates an element ──> Pause(0)
//!   Pause(round) ─┬─ a job ──> its steps (running.rt) ──> its end ──> Pause(round + 1)
//!                 └─ NO_JOB ── deallocates the element ──> done
//! ```
//!
//! Before each pause it posts `idle(index)` with the generation that it pauses for. A job that is not to be run has no steps. At the end
//! of a job it purges the job's requestor, posts `done(job)` and notes the end.

ghost use Rattle.std.specs.Prelude.{◌≡◌, ◌<◌, ◌≤◌, ◌+◌, ◌-◌, suc, [], false, length, map, sum_by, Some, None, IfOk, MatchResult};
ghost use Rattle.std.specs.List.{AllByRecursion};
ghost use Rattle.mv_wait.specs.Prelude.{CallerFace, IsFresh, MayCall};
ghost use Rattle.mv_deck.specs.Prelude.{deck_data, job_data, not_run};
ghost use Rattle.mv_plan.specs.Prelude.{job_at, jobs_limit, initiator as plan_initiator, job_named as named_by};
ghost use Rattle.mv_work.specs.Prelude.{InitiatorComes, IsAtJob, IsInitiatorAnswer, IsBetween, IsOwn, initiator_due, initiator_left};
ghost use Rattle.mv_work.specs.Prelude.{job_marks, named_then, marks_left, rounds_after, rounds_due, steps_events, step_marks};
ghost use Rattle.mv_work.specs.Prelude.{steps_marks, steps_then, Gave, answer_of, initiating_noted, record_of, rounds_noted, named_of};
ghost use Rattle.mv_work.specs.Prelude.{HasComeAs, IsNewInitiator, ToldAs};
ghost use Rattle.mv_work.specs.declared.stage.InitiatorStage.TheVariants as stage;
ghost use Rattle.mv_work.specs.declared.work.Role.TheVariants as role;

use crate::lost::Lost;
use crate::need::{Got, Need};
use crate::next::{Next, keep_stage};
use crate::records::InitiatorRecord;
use crate::running::Named;
use crate::spool::Spool;
use crate::stage::{InitiatorStage, Round, Running};
use mv_deck::{Deck, Job, NOT_RUN, Step};
use mv_io::NoMemory;
use mv_pause::{Given, allocate, deallocate};
use mv_task::{Gate, Point, end_of_job};
use mv_wait::Task;
use std::alloc::Global;
use std::sync::Wait;

/// What is added to the code of a job that is not to be run.
pub(crate) const NOT_TO_RUN: u32 = 1 << 23;

/// The code that an initiator is given if no job follows.
pub(crate) const NO_JOB: u32 = 0;

/// An initiator between two waits.
#[derive(Drop)]
pub(crate) struct Initiator {
    /// Its index, from 0.
    pub index: u32,
    /// Which jobs it was given.
    pub given: Vec<bool>,
    /// What it noted of those that it ran.
    pub noted: InitiatorRecord,
}

impl Initiator {
    /// The initiator of this index, with room for the notes of each job of the deck.
    pub(crate) fn with_room(alloc: Global, index: u32, deck: &Deck) -> Result<Initiator, NoMemory>
        ensures index { IfOk result (λ me. me.index ≡ index) }
        ensures given { IfOk result (λ me. AllByRecursion (λ b. b ≡ false) me.given.items) }
        ensures size { IfOk result (λ me. length me.given.items ≡ length (deck_data deck.now)) }
        ensures none { IfOk result (λ me. (me.noted.jobs ≡ []) × (me.noted.notes ≡ [])) }
        ensures room { IfOk result (λ me. marks_left me.given.items (deck_data deck.now) ≤ me.noted.room) }
    {
        let room = marks_of_jobs(&deck.jobs)?;
        Ok(Initiator {
            index,
            given: none_given(alloc, deck.jobs.len())?,
            noted: InitiatorRecord::with_room(alloc, room)?,
        })
    }
}

// How many marks a step leaves.
fn marks_of_step(step: &Step) -> usize
    ensures marks { result ≡ step_marks step.now }
    ensures few { result ≤ 1 }
{
    match step {
        Step::Print(_) => 1,
        Step::Scan(_) => 1,
        Step::Use(..) => 0,
        Step::Free(_) => 0,
        Step::Count(..) => 0,
        Step::Abend(_) => 0,
        Step::Return(_) => 0,
    }
}

// How many marks these steps leave.
fn marks_of(steps: &[Step]) -> usize
    ensures { result ≡ steps_marks steps.now }
{
    let mut marks = 0;
    for k in 0..steps.len() {
        marks += marks_of_step(&steps[k]);
    }
    marks
}

// How many marks these jobs leave: those of their steps, and one for each end. A count that no memory could hold is refused.
fn marks_of_jobs(jobs: &[Job]) -> Result<usize, NoMemory>
    ensures { IfOk result (λ marks. marks ≡ sum_by job_marks (map job_data jobs.now)) }
{
    let mut marks = 0_usize;
    for k in 0..jobs.len() {
        let Some(more) = marks.checked_add(marks_of(&jobs[k].steps)) else {
            return Err(NoMemory);
        };
        let Some(more) = more.checked_add(1) else {
            return Err(NoMemory);
        };
        marks = more;
    }
    Ok(marks)
}

// One flag per job, all false: no job has been handed out yet.
fn none_given(alloc: Global, jobs: usize) -> Result<Vec<bool>, NoMemory>
    ensures none { IfOk result (λ given. AllByRecursion (λ b. b ≡ false) given.items) }
    ensures size { IfOk result (λ given. length given.items ≡ jobs) }
{
    Ok(vec![in alloc; false; jobs]?)
}

impl<G: Gate> Spool<'_, G> {
    /// Begins an initiator that was given no job, and returns what it waits for.
    pub(crate) fn begin_initiator<R: Wait>(
        &self,
        rt: &R,
        task: &mut Task,
        me: &Initiator,
        stage: &mut Option<InitiatorStage>,
    ) -> Result<Option<Need>, Lost>
        requires fresh { IsFresh self.now.board task.old.number task.old }
        requires new { IsNewInitiator self.now.jobs self.now.initiators task.old.number me.now }
        ensures { HasComeAs self.now (role.Initiator me.now stage.new) task.old result task.new }
    {
        // Reading a field makes the facts of the spool known here.
        let _ = &self.initiators;
        let next = self.initiate(rt, task, me);
        keep_stage(stage, next)
    }

    /// Resumes an initiator with the answer to its last wait, and returns what it waits for next.
    pub(crate) fn go_on_initiator<R: Wait>(
        &self,
        rt: &R,
        task: &mut Task,
        me: &mut Initiator,
        stage: &mut Option<InitiatorStage>,
        got: Got,
    ) -> Result<Option<Need>, Lost>
        requires told { (t : CallerFace) × ToldAs self.now (role.Initiator me.old stage.old) t got task.old }
        ensures { (t : CallerFace) → ToldAs self.now (role.Initiator me.old stage.old) t got task.old
            → HasComeAs self.now (role.Initiator me.new stage.new) t result task.new }
    {
        let Some(at) = *stage else { unreachable!() };
        let next = self.resume_initiator(rt, task, me, at, got);
        keep_stage(stage, next)
    }

    // Resumes at the stage at which the initiator waited.
    fn resume_initiator<R: Wait>(
        &self,
        rt: &R,
        task: &mut Task,
        me: &mut Initiator,
        stage: InitiatorStage,
        got: Got,
    ) -> Result<Next<InitiatorStage>, Lost>
        requires answer { IsInitiatorAnswer self.now me.old stage got }
        requires task { MayCall self.now.board (initiator_due self.now me.old stage) task.old }
        ensures comes { InitiatorComes self.now me.new (initiator_left self.now me.old stage (answer_of got)) task.old result task.new }
        ensures same { me.new.index ≡ me.old.index }
    {
        match (stage, got) {
            (InitiatorStage::Pause(round), Got::Given(given)) => {
                self.on_given(rt, task, me, round, given)
            }
            (InitiatorStage::Latch(running), Got::Granted(token)) => {
                self.on_granted(rt, task, me, running, token)
            }
            _ => unreachable!(),
        }
    }

    // Allocates the initiator's element, and begins its first round.
    fn initiate<R: Wait>(
        &self,
        rt: &R,
        task: &mut Task,
        me: &Initiator,
    ) -> Result<Next<InitiatorStage>, Lost>
        requires number { task.old.number ≡ plan_initiator me.now.index }
        requires between { IsBetween self.now me.now 0 }
        requires none { me.now.noted.jobs ≡ [] }
        requires task { MayCall self.now.board (1 + rounds_due self.now me.now 0) task.old }
        ensures { InitiatorComes self.now me.now (initiating_noted self.now.board.config self.now.jobs me.now.index) task.old result task.new }
    {
        let next = allocate(self.station, rt, task)?;
        self.begin_round(rt, task, me, Round { number: 0, next })
    }

    // Posts that the initiator is idle, with the generation of its next pause, and waits for a code.
    fn begin_round<R: Wait>(
        &self,
        rt: &R,
        task: &mut Task,
        me: &Initiator,
        round: Round,
    ) -> Result<Next<InitiatorStage>, Lost>
        requires between { IsBetween self.now me.now round.number }
        requires token { IsOwn me.now round.next }
        requires task { MayCall self.now.board (rounds_due self.now me.now round.number) task.old }
        ensures { InitiatorComes self.now me.now (rounds_noted self.now.board.config self.now.jobs me.now.index
            (suc (length self.now.jobs - round.number)) me.now.noted.jobs round.next) task.old result task.new }
    {
        let idle = self.idle(me.index);
        self.station.post(rt, task, idle, round.next.generation);
        Ok(Next::Wait(InitiatorStage::Pause(round.number), Need::Pause(round.next)))
    }

    // A code was given: begins the job that it names, or deallocates the element if no job follows.
    fn on_given<R: Wait>(
        &self,
        rt: &R,
        task: &mut Task,
        me: &mut Initiator,
        round: u32,
        given: Given,
    ) -> Result<Next<InitiatorStage>, Lost>
        requires between { IsBetween self.now me.old round }
        requires token { IsOwn me.old given.next }
        requires task { MayCall self.now.board (initiator_due self.now me.old (stage.Pause round)) task.old }
        ensures comes { InitiatorComes self.now me.new (initiator_left self.now me.old (stage.Pause round) (Gave given))
            task.old result task.new }
        ensures same { me.new.index ≡ me.old.index }
    {
        if given.code == NO_JOB {
            deallocate(self.station, rt, task, given.next)?;
            return Ok(Next::Done);
        }
        let jobs = self.jobs();
        let named = job_named(jobs, given.code)?;
        // No run hands out more jobs than there are, nor one twice.
        if round == jobs {
            return Err(Lost);
        }
        if me.given[named.job as usize] {
            return Err(Lost);
        }
        me.given[named.job as usize] = true;
        let round = Round {
            number: round,
            next: given.next,
        };
        self.start_job(rt, task, me, round, named)
    }

    // Begins the job that a code named. One that is not to be run ends at once.
    fn start_job<R: Wait>(
        &self,
        rt: &R,
        task: &mut Task,
        me: &mut Initiator,
        round: Round,
        named: Named,
    ) -> Result<Next<InitiatorStage>, Lost>
        requires at { IsAtJob self.now me.old round.number named.job (steps_marks (job_at self.now.jobs named.job).steps) }
        requires none { me.old.noted.notes ≡ [] }
        requires token { IsOwn me.old round.next }
        requires task { MayCall self.now.board (steps_events (job_at self.now.jobs named.job).steps + 4
            + rounds_due self.now me.old (round.number + 1)) task.old }
        ensures comes { InitiatorComes self.now me.new
            (named_then self.now me.old (rounds_after self.now round.number) round.next (named_of named)) task.old result task.new }
        ensures same { me.new.index ≡ me.old.index }
    {
        self.pass(rt, task, Point::Started(named.job));
        let running = Running::new(round, named.job);
        if named.skipped {
            return self.end_job(rt, task, me, running, NOT_RUN);
        }
        self.run_on(rt, task, me, running)
    }

    /// Ends a job: its requestor is purged, and then its end is posted and noted. The next round begins.
    pub(crate) fn end_job<R: Wait>(
        &self,
        rt: &R,
        task: &mut Task,
        me: &mut Initiator,
        running: Running,
        end: u32,
    ) -> Result<Next<InitiatorStage>, Lost>
        requires at { IsAtJob self.now me.old running.round.number running.job 0 }
        requires token { IsOwn me.old running.round.next }
        requires end { end ≤ not_run }
        requires task { MayCall self.now.board (4 + rounds_due self.now me.old (running.round.number + 1)) task.old }
        ensures comes { InitiatorComes self.now me.new
            (steps_then self.now me.old running (record_of running.job end me.old.noted.notes)) task.old result task.new }
        ensures same { me.new.index ≡ me.old.index }
    {
        self.pass(rt, task, Point::Ended(running.job));
        let done = self.done(running.job);
        end_of_job(self.station, rt, task, running.requestor(), done, end);
        me.noted.end(running.job, end);
        self.begin_round(rt, task, me, running.round.after())
    }
}

// The job that a code names, in a deck of this many jobs.
fn job_named(jobs: u32, code: u32) -> Result<Named, Lost>
    requires { jobs ≤ jobs_limit }
    ensures { MatchResult result (λ named. Some (named_of named) ≡ named_by jobs code) (λ _. None ≡ named_by jobs code) }
{
    if 1 <= code && code <= jobs {
        Ok(Named {
            job: code - 1,
            skipped: false,
        })
    } else if 1 + NOT_TO_RUN <= code && code <= jobs + NOT_TO_RUN {
        Ok(Named {
            job: code - (1 + NOT_TO_RUN),
            skipped: true,
        })
    } else {
        Err(Lost)
    }
}
