//! The numbers of the spool's blocks and callers, with the names of `specs/SpoolSetup.antt`. Jobs and initiators are counted from
//! 0.

ghost use Rattle.std.specs.Prelude.{◌≡◌, ◌<◌, ◌≤◌};
ghost use Rattle.mv_deck.specs.Weight.{most_initiators};
ghost use Rattle.mv_plan.specs.SpoolSetup.{jobs_limit, entered, done, end_for_scheduler, end_for_writer, idle, initiator, writer};

/// The caller number of the reader.
pub const READER: u32 = 0;

/// The caller number of the scheduler.
pub const SCHEDULER: u32 = 1;

/// The caller number of the first initiator.
pub const FIRST_INITIATOR: u32 = 2;

/// Returns the caller number of an initiator.
pub fn initiator(index: u32) -> u32
    requires { index < most_initiators }
    ensures { result ≡ initiator index }
{
    FIRST_INITIATOR + index
}

/// Returns the caller number of the writer, which follows those of the initiators.
pub fn writer(initiators: u32) -> u32
    requires { initiators ≤ most_initiators }
    ensures { result ≡ writer initiators }
{
    FIRST_INITIATOR + initiators
}

/// Returns the block that says that this job was entered.
pub fn entered(job: u32) -> u32
    ensures { result ≡ entered job }
{
    job
}

/// Returns the block that says that this job is done; the deck has `jobs` jobs.
pub fn done(jobs: u32, job: u32) -> u32
    requires { (jobs ≤ jobs_limit) × (job < jobs) }
    ensures { result ≡ done jobs job }
{
    jobs + job
}

/// Returns the block that has the end of this job for the scheduler.
pub fn end_for_scheduler(jobs: u32, job: u32) -> u32
    requires { (jobs ≤ jobs_limit) × (job < jobs) }
    ensures { result ≡ end_for_scheduler jobs job }
{
    2 * jobs + 2 * job
}

/// Returns the block that has the end of this job for the writer.
pub fn end_for_writer(jobs: u32, job: u32) -> u32
    requires { (jobs ≤ jobs_limit) × (job < jobs) }
    ensures { result ≡ end_for_writer jobs job }
{
    2 * jobs + 2 * job + 1
}

/// Returns the block that says that this initiator is idle, which follows the blocks of the jobs.
pub fn idle(jobs: u32, index: u32) -> u32
    requires { (jobs ≤ jobs_limit) × (index < most_initiators) }
    ensures { result ≡ idle jobs index }
{
    4 * jobs + index
}
