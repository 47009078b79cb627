//! The writer: waits for the end of each job, in the order of the deck, and keeps it. Clauses cite `specs/Works.antt` and
//! `specs/Writing.antt`.
//!
//! ```text
//!   begin ──> the end of job 0 ── keep it ──> the end of job 1 ── keep it ──> ... ──> done
//! ```

ghost use Rattle.std.specs.Prelude.{◌≡◌, ◌<◌, ◌≤◌, ◌-◌, ◌*◌, [], ◌∷◌, length, vec_capacity};
ghost use Rattle.mv_calls.specs.declared.outcomes.WaitSlot.TheVariants.{Complete};
ghost use Rattle.mv_wait.specs.Prelude.{CallerFace, IsFresh, MayCall};
ghost use Rattle.mv_plan.specs.SpoolSetup.{writer};
ghost use Rattle.mv_work.specs.Needs.{Slots};
ghost use Rattle.mv_work.specs.Works.{HasComeAs, ToldAs};
ghost use Rattle.mv_work.specs.Writing.{WriterAsks, WriterComes, ends_from, room_in, writer_due, writer_left};
ghost use Rattle.mv_work.specs.declared.work.Role.TheVariants as role;

use crate::lost::Lost;
use crate::need::{Got, Need};
use crate::next::{Next, keep_stage};
use crate::spool::Spool;
use mv_task::{Gate, Point};
use mv_wait::Task;
use std::sync::Wait;

impl<G: Gate> Spool<'_, G> {
    /// Begins the writer, which has no end yet and room for all, and returns what it waits for.
    pub(crate) fn begin_writer(&self, job: &mut Option<u32>) -> Result<Option<Need>, Lost>
        ensures { (t : CallerFace) (ends : _) → IsFresh self.now.board (writer self.now.initiators) t → ends.items ≡ []
            → length self.now.jobs ≤ vec_capacity ends → HasComeAs self.now (role.Writer ends job.new) t result t }
    {
        // Reading a field makes the facts of the spool known here.
        let _ = &self.initiators;
        let next = self.write(0);
        keep_stage(job, Ok(next))
    }

    /// Resumes the writer with the end that it waited for, and returns what it waits for next.
    pub(crate) fn go_on_writer<R: Wait>(
        &self,
        rt: &R,
        task: &mut Task,
        ends: &mut Vec<u32>,
        job: &mut Option<u32>,
        got: Got,
    ) -> Result<Option<Need>, Lost>
        requires told { (t : CallerFace) × ToldAs self.now (role.Writer ends.old job.old) t got task.old }
        ensures { (t : CallerFace) → ToldAs self.now (role.Writer ends.old job.old) t got task.old
            → HasComeAs self.now (role.Writer ends.new job.new) t result task.new }
    {
        let Some(at) = *job else { unreachable!() };
        let Got::Code(end) = got else { unreachable!() };
        let next = self.on_end(rt, task, ends, at, end);
        keep_stage(job, next)
    }

    // Waits for the end of each job, in order, from this one on.
    fn write(&self, job: u32) -> Next<u32>
        ensures { (ends : _) → length self.now.jobs - job ≤ room_in ends
            → WriterAsks self.now ends (ends_from self.now ends.items job) (2 * (length self.now.jobs - job)) result }
    {
        if job >= self.jobs() {
            return Next::Done;
        }
        Next::Wait(job, Need::Block(self.end_for_writer(job)))
    }

    // The end of this job was found: keeps it. The next job follows.
    fn on_end<R: Wait>(
        &self,
        rt: &R,
        task: &mut Task,
        ends: &mut Vec<u32>,
        job: u32,
        end: u32,
    ) -> Result<Next<u32>, Lost>
        requires job { job < length self.now.jobs }
        requires room { length self.now.jobs - job ≤ room_in ends.old }
        requires task { MayCall self.now.board (writer_due self.now job) task.old }
        ensures { WriterComes self.now ends.new (writer_left self.now ends.old.items job (Slots (Complete end ∷ []))) task.old result task.new }
    {
        self.pass(rt, task, Point::Written(job));
        ends.push_reserved(end);
        Ok(self.write(job + 1))
    }
}
