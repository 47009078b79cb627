//! A spool that runs: what its tasks have in common. Clauses cite `specs/Spool.antt`, `specs/Meeting.antt` and the plan's
//! `SpoolSetup.antt`.
//!
//! What each task does are methods of the spool, in the file of its role: `reader.rt`, `scheduler.rt`, `initiator.rt` with
//! `running.rt`, and `writer.rt`. The methods here name the blocks by which the tasks hand work on:
//!
//! ```text
//!   reader ──────── entered(job) ────────> scheduler
//!   initiator ───── idle(index) ─────────> scheduler ── a code, to its pause ──> initiator
//!   initiator ───── done(job), its exit ─┬─ the job's end ──> scheduler
//!                                        └─ the job's end ──> writer
//! ```

ghost use Rattle.std.specs.Prelude.{◌≡◌, ◌<◌, ◌≤◌, ◌+◌, length};
ghost use Rattle.std.specs.List.{AllByRecursion};
ghost use Rattle.mv_deck.specs.Prelude.{deck_data, most_after, HasGoodNumbers};
ghost use Rattle.mv_config.specs.Reach.{reach, release_cost};
ghost use Rattle.mv_plan.specs.Prelude.{job_at, done, end_for_writer, entered, idle, scheduler, writer};
ghost use Rattle.mv_work.specs.Meeting.{MayMeet};
ghost use Rattle.mv_work.specs.Spool.{IsSpool, spool_of};
ghost use Rattle.mv_work.specs.Steps.{BearsSteps, step_at};
ghost use Rattle.mv_work.specs.declared.need.Need.TheVariants as need;

use mv_deck::{After, Deck, Step};
use mv_plan::{done, end_for_writer, entered, idle};
use mv_task::{Gate, Point};
use mv_wait::{Station, Task};
use std::marker::Model;
use std::sync::Wait;

/// A spool that runs: its station, its deck, how many initiators it has, and the gate that its tasks pass.
#[derive(Drop)]
pub struct Spool<'a, G> {
    pub(crate) station: &'a Station,
    pub(crate) deck: &'a Deck,
    pub(crate) initiators: u32,
    pub(crate) gate: &'a G,
}

impl<'a, G> Model for Spool<'a, G> {
    ghost use Rattle.mv_deck.specs.Deck.{deck_data};
    ghost use Rattle.mv_work.specs.Spool.{IsSpool, SpoolFace, spool_of};

    ghost Value = { SpoolFace };

    ghost view = { λ s. spool_of s.station.now (deck_data s.deck.now) s.initiators };

    ghost invariant = { λ s. IsSpool (spool_of s.station.now (deck_data s.deck.now) s.initiators) };
}

impl<'a, G> Spool<'a, G> {
    /// The spool of a station that is configured for this deck and this many initiators.
    pub fn new(station: &'a Station, deck: &'a Deck, initiators: u32, gate: &'a G) -> Spool<'a, G>
        requires spool { IsSpool (spool_of station.now (deck_data deck.now) initiators) }
        ensures { result ≡ spool_of station.now (deck_data deck.now) initiators }
    {
        Spool {
            station,
            deck,
            initiators,
            gate,
        }
    }

    /// The station that its tasks run on.
    pub fn station(&self) -> &Station
        ensures { result.now ≡ self.now.board }
    {
        self.station
    }

    /// How many jobs the deck has.
    pub(crate) fn jobs(&self) -> u32
        ensures jobs { result ≡ length self.now.jobs }
        ensures spool { IsSpool self.now }
    {
        self.deck.jobs.len() as u32
    }

    /// How many steps a job has.
    pub(crate) fn step_count(&self, job: u32) -> usize
        requires { job < length self.now.jobs }
        ensures { result ≡ length (job_at self.now.jobs job).steps }
    {
        self.deck.jobs[job as usize].steps.len()
    }

    /// The step of a job at this place, from 0. The spool has what it names.
    pub(crate) fn step(&self, job: u32, place: usize) -> &Step
        requires job { job < length self.now.jobs }
        requires place { place < length (job_at self.now.jobs job).steps }
        ensures step { result.now ≡ step_at self.now job place }
        ensures numbers { HasGoodNumbers result.now }
        ensures borne { BearsSteps self.now.board.config }
    {
        &self.deck.jobs[job as usize].steps[place]
    }

    /// The jobs that a job waits for.
    pub(crate) fn after_of(&self, job: u32) -> &[After]
        requires { job < length self.now.jobs }
        ensures parts { result.now ≡ (job_at self.now.jobs job).after }
        ensures few { length (job_at self.now.jobs job).after ≤ most_after }
        ensures earlier { AllByRecursion (λ part. part.job < length self.now.jobs) (job_at self.now.jobs job).after }
    {
        &self.deck.jobs[job as usize].after
    }

    /// The block that says that a job was entered.
    pub(crate) fn entered(&self, job: u32) -> u32
        requires { job < length self.now.jobs }
        ensures block { result ≡ entered job }
        ensures own { MayMeet self.now.board.config scheduler (need.Block result) }
        ensures cost { reach self.now.board.config result ≡ 1 }
    {
        // Reading a field makes the facts of the spool known here; `jobs` reads one.
        let _ = self.jobs();
        entered(job)
    }

    /// The block that says that a job is done.
    pub(crate) fn done(&self, job: u32) -> u32
        requires { job < length self.now.jobs }
        ensures block { result ≡ done (length self.now.jobs) job }
        ensures there { result < length self.now.board.config.owners }
        ensures cost { release_cost self.now.board.config + reach self.now.board.config result ≡ 4 }
    {
        done(self.jobs(), job)
    }

    /// The block with a job's end, for the writer.
    pub(crate) fn end_for_writer(&self, job: u32) -> u32
        requires { job < length self.now.jobs }
        ensures block { result ≡ end_for_writer (length self.now.jobs) job }
        ensures own { MayMeet self.now.board.config (writer self.now.initiators) (need.Block result) }
    {
        end_for_writer(self.jobs(), job)
    }

    /// The block that says that an initiator is idle.
    pub(crate) fn idle(&self, index: u32) -> u32
        requires { index < self.now.initiators }
        ensures block { result ≡ idle (length self.now.jobs) index }
        ensures own { MayMeet self.now.board.config scheduler (need.Block result) }
        ensures cost { reach self.now.board.config result ≡ 1 }
    {
        idle(self.jobs(), index)
    }
}

impl<G: Gate> Spool<'_, G> {
    /// Passes the gate with a task, at this point.
    pub(crate) fn pass<R: Wait>(&self, rt: &R, task: &Task, point: Point)
        ensures spool { IsSpool self.now }
    {
        self.gate.pass(rt, task.number(), point);
    }
}
