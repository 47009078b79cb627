//! Where the scheduler and an initiator wait. Jobs and initiators are counted from 0. The writer's stage is the number of a job, and the
//! reader never waits.
//!
//! ```text
//!   stage                the task waits for                       need
//!   Entry(job)           the entry of the job                     Block
//!   Ends(job)            the ends of the jobs that AFTER names    Blocks
//!   Idle(job, skipped)   the first initiator that is idle         Blocks
//!   Dismissal(index)     this initiator, to be idle               Block
//!   Pause(round)         a code                                   Pause
//!   Latch(running)       the latch that a USE obtains             Latch
//! ```

ghost use Rattle.std.specs.Prelude.{◌≡◌, ◌+◌, ◌<◌, replicate, None};
ghost use Rattle.mv_deck.specs.Operand.{volume_count};
ghost use Rattle.mv_plan.specs.SpoolSetup.{jobs_limit};

use mv_deck::VOLUME_COUNT;
use mv_element::Token;
use mv_latchset::LatchToken;

/// Where the scheduler waits.
#[derive(Clone, Copy)]
pub(crate) enum SchedulerStage {
    /// For the entry of this job.
    Entry(u32),
    /// For the ends of the jobs that this job waits for.
    Ends(u32),
    /// For an initiator to give this job to, which may be one that is not to be run.
    Idle(u32, bool),
    /// For this initiator, which is to be dismissed.
    Dismissal(u32),
}

/// Where an initiator waits.
#[derive(Clone, Copy)]
pub(crate) enum InitiatorStage {
    /// For a code, in the round of this number.
    Pause(u32),
    /// For a latch, in a job that it runs.
    Latch(Running),
}

/// A round of an initiator.
#[derive(Clone, Copy)]
pub(crate) struct Round {
    /// Its number, from 0.
    pub number: u32,
    /// The token of the initiator's next pause.
    pub next: Token,
}

/// A job that an initiator runs.
#[derive(Clone, Copy)]
pub(crate) struct Running {
    pub round: Round,
    /// The job's place in the deck, from 0.
    pub job: u32,
    /// The place of the next step in the job, from 0.
    pub step: usize,
    /// The latch that it waits for, at the stage `Latch`.
    pub latch: u32,
    /// The requests that the job last had at each latch.
    pub requests: [Option<LatchToken>; VOLUME_COUNT],
}

impl Round {
    /// The round after this one.
    pub(crate) fn after(self) -> Round
        requires { self.number < jobs_limit }
        ensures { result ≡ record { number = self.number + 1; next = self.next } }
    {
        Round {
            number: self.number + 1,
            next: self.next,
        }
    }
}

impl Running {
    /// The job of this number, of which no step was done.
    pub(crate) fn new(round: Round, job: u32) -> Running
        ensures { result ≡ record { round = round; job = job; step = 0; latch = 0; requests = replicate volume_count None } }
    {
        Running {
            round,
            job,
            step: 0,
            latch: 0,
            requests: [None; VOLUME_COUNT],
        }
    }

    /// The requestor that the job's latches are for.
    pub(crate) fn requestor(&self) -> u64
        ensures { result ≡ self.now.job + 1 }
    {
        self.job as u64 + 1
    }
}
