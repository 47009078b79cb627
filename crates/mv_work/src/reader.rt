//! The reader: enters each job, in the order of the deck. Clauses cite `specs/Works.antt`.
//!
//! ```text
//!   begin ──> post entered(0) ──> post entered(1) ──> ... ──> done
//! ```

ghost use Rattle.std.specs.Prelude.{None, Ok};
ghost use Rattle.mv_board.specs.Faces.{IsFresh};
ghost use Rattle.mv_plan.specs.SpoolSetup.{reader};
ghost use Rattle.mv_work.specs.Works.{HasComeAs};
ghost use Rattle.mv_work.specs.declared.work.Role.TheVariants as role;

use crate::spool::Spool;
use mv_task::{Gate, Point};
use mv_wait::Task;
use std::sync::Wait;

impl<G: Gate> Spool<'_, G> {
    /// Enters each job, in order. The reader never waits.
    pub(crate) fn read<R: Wait>(&self, rt: &R, task: &mut Task)
        requires fresh { IsFresh self.now.board reader task.old }
        ensures { HasComeAs self.now role.Reader task.old (Ok None) task.new }
    {
        for job in 0..self.jobs() {
            self.pass(rt, task, Point::Entered(job));
            let entered = self.entered(job);
            self.station.post(rt, task, entered, 0);
        }
    }
}
