//! The configuration of a run of a deck: the callers, blocks, exits and budgets of `specs/SpoolSetup.antt`.

ghost use Rattle.std.specs.Prelude.{◌≡◌, ◌<◌, ◌≤◌, ◌^◌, map, sum_by, IfOk};
ghost use Rattle.std.specs.List.{range_with_len};
ghost use Rattle.mv_config.specs.Config.{exit_of};
ghost use Rattle.mv_deck.specs.Deck.{job_data, deck_data};
ghost use Rattle.mv_deck.specs.Sound.{CanBeRun};
ghost use Rattle.mv_deck.specs.Weight.{step_events as events_of_step, all_events as events_of_jobs, after_parts as parts_of_jobs};
ghost use Rattle.mv_deck.specs.Weight.{heaviest, most_initiators, weight};
ghost use Rattle.mv_plan.specs.SpoolSetup.{jobs_limit, spool_setup, task_budgets, block_owners, end_exit};

use crate::numbers::{SCHEDULER, done, end_for_scheduler, end_for_writer, writer};
use mv_deck::{Deck, Job, Step, VOLUME_COUNT, step_events};
use mv_io::NoMemory;
use mv_machine::{Config, Exit, ValidConfig};
use std::alloc::Global;

// The number of callers besides the initiators: the reader, the scheduler and the writer.
const OTHER_TASKS: u32 = 3;

// How many events the steps of a job make at most.
#[tactic(auto, using(crate::proofs::code::steps_left))]
fn steps_events(steps: &[Step]) -> u32
    requires fits { sum_by events_of_step steps.now < 2 ^ 32 }
    ensures { result ≡ sum_by events_of_step steps.now }
{
    let mut events = 0;
    for step in steps {
        events += step_events(step);
    }
    events
}

// How many events the steps of all jobs make at most.
#[tactic(auto, using(crate::proofs::code::events_left))]
fn all_events(jobs: &[Job]) -> u32
    requires fits { events_of_jobs (map job_data jobs.now) < 2 ^ 32 }
    ensures { result ≡ events_of_jobs (map job_data jobs.now) }
{
    let mut events = 0;
    for job in jobs {
        events += steps_events(&job.steps);
    }
    events
}

// The number of AFTER parts of all jobs.
#[tactic(auto, using(crate::proofs::code::parts_left))]
fn after_parts(jobs: &[Job]) -> u32
    requires fits { parts_of_jobs (map job_data jobs.now) < 2 ^ 32 }
    ensures { result ≡ parts_of_jobs (map job_data jobs.now) }
{
    let mut parts = 0;
    for job in jobs {
        parts += job.after.len() as u32;
    }
    parts
}

// The budgets of the reader, the scheduler, each initiator and the writer, in the order of callers.
fn budgets_of(alloc: Global, deck: &Deck, initiators: u32) -> Result<Vec<u32>, NoMemory>
    requires light { weight (deck_data deck.now) initiators ≤ heaviest }
    requires initiators { (1 ≤ initiators) × (initiators ≤ most_initiators) }
    ensures { IfOk result (λ budgets. budgets.items ≡ task_budgets (deck_data deck.now) initiators) }
{
    let jobs = deck.jobs.len() as u32;
    let events = all_events(&deck.jobs);
    let parts = after_parts(&deck.jobs);
    let mut budgets = Vec::with_capacity(alloc, (initiators + OTHER_TASKS) as usize)?;
    budgets.push(jobs)?;
    budgets.push(5 * jobs + 2 * jobs * initiators + 2 * parts + 4 * initiators)?;
    budgets.resize(writer(initiators) as usize, 5 + 7 * jobs + events)?;
    budgets.push(2 * jobs)?;
    Ok(budgets)
}

// The owner of each block.
fn owners_of(alloc: Global, jobs: u32, initiators: u32) -> Result<Vec<u32>, NoMemory>
    requires few { jobs ≤ jobs_limit }
    requires initiators { initiators ≤ most_initiators }
    ensures { IfOk result (λ owners. owners.items ≡ block_owners jobs initiators) }
{
    let count = jobs as usize;
    let writer = writer(initiators);
    let mut owners = Vec::with_capacity(alloc, 4 * count + initiators as usize)?;
    owners.resize(2 * count, SCHEDULER)?;
    for _ in 0..jobs {
        owners.push(SCHEDULER)?;
        owners.push(writer)?;
    }
    owners.resize(4 * count + initiators as usize, SCHEDULER)?;
    Ok(owners)
}

// The exit of each job's `done` block.
fn exits_of(alloc: Global, jobs: u32) -> Result<Vec<Exit>, NoMemory>
    requires few { jobs ≤ jobs_limit }
    ensures { IfOk result (λ exits. map exit_of exits.items ≡ map (end_exit jobs) (range_with_len 0 jobs)) }
{
    let mut exits = Vec::with_capacity(alloc, jobs as usize)?;
    for job in 0..jobs {
        let ends = [end_for_scheduler(jobs, job), end_for_writer(jobs, job)];
        exits.push(Exit {
            source: done(jobs, job),
            targets: Vec::from_slice(alloc, &ends)?,
        })?;
    }
    Ok(exits)
}

/// Returns the configuration of a run of this deck by 1 to 8 initiators.
///
/// Its callers are the reader, the scheduler, the initiators and the writer, in this order. The time is linear in the deck.
///
/// # Errors
///
/// `NoMemory` if there is not enough memory. A deck that these initiators can run is refused for no other reason.
///
/// # Examples
///
/// From `crates/mv_polledspool/src/spool.rt`:
///
/// ```
/// let config = spool_config(alloc, deck, initiators)?;
/// let results = run_tasks(rt, alloc, config, deck, initiators, order)?;
/// ```
pub fn spool_config(alloc: Global, deck: &Deck, initiators: u32) -> Result<ValidConfig, NoMemory>
    requires runnable { CanBeRun (deck_data deck.now) initiators }
    ensures setup { IfOk result (λ config. config ≡ spool_setup (deck_data deck.now) initiators) }
{
    let jobs = deck.jobs.len() as u32;
    let config = Config {
        callers: initiators + OTHER_TASKS,
        elements_per_caller: 1,
        volumes: VOLUME_COUNT as u32,
        latches: VOLUME_COUNT as u32,
        // A job has at most one request at each latch.
        quota: VOLUME_COUNT as u32,
        posted_quota: 0,
        budgets: budgets_of(alloc, deck, initiators)?,
        owners: owners_of(alloc, jobs, initiators)?,
        exits: exits_of(alloc, jobs)?,
    };
    Ok(ValidConfig::of(alloc, config)?)
}
