//! The work of a task of the spool, from one wait to the next: each task plays one role. Clauses cite `specs/Works.antt`.
//!
//! ```text
//!   new ── begin ──> a wait ── go_on, with its answer ──> a wait ── go_on ──> ... ──> Ok(None): done, or Err(Lost)
//! ```
//!
//! The runner of the task makes the waits. At which stages a role waits is in the file of that role.

ghost use Rattle.std.specs.Prelude.{◌<◌, ◌≤◌, ◌+◌, IfOk};
ghost use Rattle.mv_board.specs.Faces.{CallerFace, IsFresh};
ghost use Rattle.mv_deck.specs.Deck.{deck_data};
ghost use Rattle.mv_deck.specs.Weight.{most_initiators};
ghost use Rattle.mv_work.specs.Works.{HasCome, IsNew, IsNewRole, WasTold};

use crate::initiator::Initiator;
use crate::lost::Lost;
use crate::need::{Got, Need};
use crate::spool::Spool;
use crate::stage::{InitiatorStage, SchedulerStage};
use mv_deck::Deck;
use mv_io::NoMemory;
use mv_plan::{FIRST_INITIATOR, READER, SCHEDULER, writer};
use mv_task::Gate;
use mv_wait::Task;
use std::alloc::Global;
use std::sync::Wait;

/// The role of a task, with the fields of that role: where the task waits, once it has begun, and what it brings back.
#[derive(Drop)]
pub(crate) enum Role {
    /// Enters the jobs. It never waits.
    Reader,
    /// Hands out the jobs.
    Scheduler(Option<SchedulerStage>),
    /// Runs the jobs that it is given, and notes what they do.
    Initiator {
        me: Initiator,
        stage: Option<InitiatorStage>,
    },
    /// Keeps the end of each job. It waits for the end of a job.
    Writer {
        ends: Vec<u32>,
        job: Option<u32>,
    },
}

/// The work of one task of the spool, with the room that it needs.
#[derive(Drop)]
pub struct SpoolWork {
    pub(crate) role: Role,
}

impl Role {
    // The role of the task of this number. The tasks are the reader, the scheduler, the initiators and the writer.
    fn new(alloc: Global, deck: &Deck, initiators: u32, number: u32) -> Result<Role, NoMemory>
        requires few { initiators ≤ most_initiators }
        ensures { IfOk result (λ role. IsNewRole (deck_data deck.now) initiators number role) }
    {
        if number == READER {
            return Ok(Role::Reader);
        }
        if number == SCHEDULER {
            return Ok(Role::Scheduler(None));
        }
        if number < writer(initiators) {
            let me = Initiator::with_room(alloc, number - FIRST_INITIATOR, deck)?;
            return Ok(Role::Initiator { me, stage: None });
        }
        let ends = Vec::with_capacity(alloc, deck.jobs.len())?;
        Ok(Role::Writer { ends, job: None })
    }
}

impl SpoolWork {
    /// The work of the task of this number, with all room that it needs.
    ///
    /// # Errors
    ///
    /// `NoMemory` if memory runs out.
    pub fn new(
        alloc: Global,
        deck: &Deck,
        initiators: u32,
        number: u32,
    ) -> Result<SpoolWork, NoMemory>
        requires few { initiators ≤ most_initiators }
        ensures { IfOk result (λ work. IsNew (deck_data deck.now) initiators number work) }
    {
        let role = Role::new(alloc, deck, initiators, number)?;
        Ok(SpoolWork { role })
    }

    /// Begins the work of the task, and returns what it waits for, or `None` if its program is done.
    ///
    /// # Errors
    ///
    /// `Lost` if the task read a reply that its program does not foresee, which happens in no run. It makes no more events then.
    pub fn begin<R: Wait, G: Gate>(
        &mut self,
        rt: &R,
        spool: &Spool<'_, G>,
        task: &mut Task,
    ) -> Result<Option<Need>, Lost>
        requires number { task.old.number < spool.now.initiators + 3 }
        requires fresh { IsFresh spool.now.board task.old.number task.old }
        requires new { IsNew spool.now.jobs spool.now.initiators task.old.number self.old }
        ensures { HasCome spool.now self.new task.old result task.new }
    {
        match &mut self.role {
            Role::Reader => {
                spool.read(rt, task);
                Ok(None)
            }
            Role::Scheduler(stage) => spool.begin_scheduler(stage),
            Role::Initiator { me, stage } => spool.begin_initiator(rt, task, me, stage),
            Role::Writer { job, .. } => spool.begin_writer(job),
        }
    }

    /// Resumes the task with the answer to its last wait, and returns what it waits for next, or `None` if its program is done.
    ///
    /// # Errors
    ///
    /// As `begin`.
    pub fn go_on<R: Wait, G: Gate>(
        &mut self,
        rt: &R,
        spool: &Spool<'_, G>,
        task: &mut Task,
        got: Got,
    ) -> Result<Option<Need>, Lost>
        requires told { (t : CallerFace) × WasTold spool.now self.old t got task.old }
        ensures { (t : CallerFace) → WasTold spool.now self.old t got task.old → HasCome spool.now self.new t result task.new }
    {
        match &mut self.role {
            Role::Reader => unreachable!(),
            Role::Scheduler(stage) => spool.go_on_scheduler(rt, task, stage, got),
            Role::Initiator { me, stage } => spool.go_on_initiator(rt, task, me, stage, got),
            Role::Writer { ends, job } => spool.go_on_writer(rt, task, ends, job, got),
        }
    }
}
