//! What an initiator notes of the jobs that it runs, in room that is taken before it starts. Clauses cite `specs/Records.antt`.
//!
//! ```text
//!   marks:   Step   Step   Ended    Step   Ended    Step
//!            └── one job ──────┘    └ the next ┘    └ the job that runs
//! ```

ghost use Rattle.std.specs.Prelude.{◌≡◌, ◌<◌, ◌≤◌, ◌-◌, ◌++◌, ◌∷◌, [], IfOk};

use mv_io::NoMemory;
use std::alloc::Global;
use std::marker::Model;

/// A note of a step of a job. The steps are counted from 0.
#[derive(Clone, Copy, Debug, PartialEq, Eq)]
pub enum Noted {
    /// The step of this place printed.
    Printed(usize),
    /// The step scanned, and read these two numbers.
    Scanned {
        step: usize,
        first: u32,
        second: u32,
    },
}

/// A note, or the end of the job that the notes since the last end are of.
#[derive(Clone, Copy, Debug)]
pub(crate) enum Mark {
    Step(Noted),
    Ended { job: u32, end: u32 },
}

/// What an initiator has noted of the jobs that it ran.
#[derive(Debug, Drop)]
pub struct InitiatorRecord {
    pub(crate) marks: Vec<Mark>,
}

impl Model for InitiatorRecord {
    ghost use Rattle.mv_work.specs.Records.{Recorded};

    ghost Value = { Recorded };

    ghost use Rattle.mv_work.specs.Inside.{recorded, Fits};

    ghost view = { recorded };

    ghost invariant = { Fits };
}

impl InitiatorRecord {
    /// A record of no job, with room for this many notes and ends.
    ///
    /// # Errors
    ///
    /// `NoMemory` if memory runs out.
    pub fn with_room(alloc: Global, room: usize) -> Result<InitiatorRecord, NoMemory>
        ensures none { IfOk result (λ r. (r.jobs ≡ []) × (r.notes ≡ [])) }
        ensures room { IfOk result (λ r. room ≤ r.room) }
    {
        Ok(InitiatorRecord {
            marks: Vec::with_capacity(alloc, room)?,
        })
    }

    /// Notes a step of the job that runs.
    pub fn note(&mut self, noted: Noted)
        requires room { 0 < self.old.room }
        ensures noted { self.new ≡ record self.old { notes = self.old.notes ++ noted ∷ []; room = self.old.room - 1 } }
    {
        self.marks.push_reserved(Mark::Step(noted));
    }

    /// Notes the end of the job that runs. The notes since the last end are its own.
    pub fn end(&mut self, job: u32, end: u32)
        requires room { 0 < self.old.room }
        ensures ended { self.new ≡ record {
          jobs = self.old.jobs ++ record { job = job; end = end; notes = self.old.notes } ∷ [];
          notes = [];
          room = self.old.room - 1;
        } }
    {
        self.marks.push_reserved(Mark::Ended { job, end });
    }
}
