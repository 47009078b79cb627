//! What the scheduler decides: the blocks of its waits, whether a job is to be run, and the job's code. Clauses cite the plan's
//! `SpoolTasks.antt` and `specs/Parts.antt`.
//!
//! ```text
//!   the jobs that AFTER names ── end_blocks ──> a wait ── some_above ──> whether the job is skipped ── job_code ──> its code
//!   the initiators ───────────── idle_blocks ─> a wait ── first_in (finding.rt) ──> the initiator that is given the code
//! ```

ghost use Rattle.std.specs.Prelude.{◌≡◌, ◌<◌, ◌≤◌, length, map};
ghost use Rattle.std.specs.List.{AllByRecursion, range_with_len};
ghost use Rattle.mv_wait.specs.Prelude.{release_limit};
ghost use Rattle.mv_deck.specs.Operand.{most_after};
ghost use Rattle.mv_deck.specs.Weight.{most_initiators};
ghost use Rattle.mv_plan.specs.SpoolSetup.{jobs_limit, idle};
ghost use Rattle.mv_plan.specs.SpoolTasks.{code_of, ends_of, some_end_above};
ghost use Rattle.mv_work.specs.Parts.{is_end_above};

use crate::initiator::NOT_TO_RUN;
use crate::need::MOST_BLOCKS;
use arrayvec::ArrayVec;
use mv_deck::After;
use mv_plan::{end_for_scheduler, idle};
use mv_wait::WaitSlot;

/// The scheduler's blocks with the ends of these jobs.
pub(crate) fn end_blocks(jobs: u32, after: &[After]) -> ArrayVec<u32, MOST_BLOCKS>
    requires jobs { (jobs ≤ jobs_limit) × (length after.now ≤ most_after) }
    requires earlier { AllByRecursion (λ part. part.job < jobs) after.now }
    ensures { result.items ≡ ends_of jobs after.now }
{
    let mut blocks = ArrayVec::new();
    for k in 0..after.len() {
        blocks.push(end_for_scheduler(jobs, after[k].job));
    }
    blocks
}

/// Whether one of these ends is above what its part accepts.
pub(crate) fn some_above(after: &[After], slots: &[WaitSlot]) -> bool
    requires { length after.now ≡ length slots.now }
    ensures { result ≡ some_end_above after.now slots.now }
{
    for k in 0..after.len() {
        if is_above(after[k], slots[k]) {
            return true;
        }
    }
    false
}

/// Whether an end was found that is above what a part accepts.
fn is_above(part: After, slot: WaitSlot) -> bool
    ensures { result ≡ is_end_above part slot }
{
    match slot {
        WaitSlot::Complete(end) => part.most < end,
        WaitSlot::Open => false,
    }
}

/// The code that gives a job to an initiator, and says whether the job is to be run.
pub(crate) fn job_code(job: u32, skipped: bool) -> u32
    requires { job ≤ jobs_limit }
    ensures code { result ≡ code_of job skipped }
    ensures few { result < release_limit }
{
    if skipped {
        job + 1 + NOT_TO_RUN
    } else {
        job + 1
    }
}

/// The blocks that initiators post when they are idle.
pub(crate) fn idle_blocks(jobs: u32, initiators: u32) -> ArrayVec<u32, MOST_BLOCKS>
    requires { (jobs ≤ jobs_limit) × (initiators ≤ most_initiators) }
    ensures { result.items ≡ map (idle jobs) (range_with_len 0 initiators) }
{
    let mut blocks = ArrayVec::new();
    for i in 0..initiators {
        blocks.push(idle(jobs, i));
    }
    blocks
}
