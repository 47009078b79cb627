//! The run of a deck. Clauses cite `SpoolRun.antt` of mv_plan, `Outcome.antt` of mv_report, and `Recording.antt` of mv_work.

ghost use Rattle.std.specs.Prelude.{◌≡◌, ◌<◌, ◌≤◌, ◌+◌, ℕ, length, slice_index_or, IfOk};
ghost use Rattle.mv_deck.specs.Deck.{deck_data};
ghost use Rattle.mv_deck.specs.Sound.{CanBeRun};
ghost use Rattle.mv_deck.specs.Weight.{most_initiators};
ghost use Rattle.mv_plan.specs.SpoolSetup.{jobs_limit, spool_setup};
ghost use Rattle.mv_work.specs.Recording.{AreResults, IsRunOf};
ghost use Rattle.mv_work.specs.Works.{IsNew};

use crate::tasks::SpoolTasks;
use mv_attach::run_tasks;
use mv_deck::Deck;
use mv_io::NoMemory;
use mv_machine::ValidConfig;
use mv_plan::spool_config;
use mv_task::Gate;
use mv_wait::Station;
use mv_work::{RunResults, SpoolRun, SpoolWork, results_of, spool_run};
use std::alloc::Global;
use std::sync::Wait;
use std::thread::Threads;
use std::time::Clock;

// Makes the work of each task, none of which was begun.
fn works_of(alloc: Global, deck: &Deck, initiators: u32) -> Result<Vec<SpoolWork>, NoMemory>
    requires { initiators ≤ most_initiators }
    ensures count { IfOk result (λ works. length works.items ≡ initiators + 3) }
    ensures new { IfOk result (λ works. (k : ℕ) (d : _) → k < length works.items
        → IsNew (deck_data deck.now) initiators k (slice_index_or works.items k d)) }
{
    let tasks = initiators + 3;
    let mut works = Vec::with_capacity(alloc, tasks as usize)?;
    for number in 0..tasks {
        works.push_reserved(SpoolWork::new(alloc, deck, initiators, number)?);
    }
    Ok(works)
}

// Opens a station of this configuration, has its tasks do their work, and closes it.
fn run_station<R: Threads + Wait + Clock + Sync, G: Gate + Sync>(
    rt: &R,
    alloc: Global,
    config: ValidConfig,
    deck: &Deck,
    initiators: u32,
    gate: &G,
) -> Result<RunResults, NoMemory>
    requires runnable { CanBeRun (deck_data deck.now) initiators }
    requires few { length (deck_data deck.now) ≤ jobs_limit }
    requires config { config ≡ spool_setup (deck_data deck.now) initiators }
    ensures results { IfOk result (AreResults (deck_data deck.now) initiators) }
{
    let (station, tasks) = Station::open(alloc, config)?;
    let records = Vec::with_capacity(alloc, tasks.len())?;
    let works = works_of(alloc, deck, initiators)?;
    let work = SpoolTasks {
        deck,
        initiators,
        gate,
    };
    let (tasks, works) = run_tasks(rt, alloc, &station, &work, tasks, works)?;
    Ok(results_of(station.close(tasks), works, records))
}

/// Runs a deck by a reader, a scheduler, `initiators` initiators and a writer, each on a thread, and returns the results.
///
/// All memory that the tasks use is taken before the first of them starts. Each task passes the gate at each point of each job;
/// `OpenGate` lets every task pass. The deck must be one that `read_deck` returned for as many initiators, 1 to 8.
///
/// The call returns when all tasks have ended. Nothing promises that they do: if the machine cannot start a thread for a task,
/// the others may wait for that task for ever.
///
/// # Errors
///
/// `NoMemory` if memory runs out, before the tasks start or after all have ended.
///
/// # Examples
///
/// From `crates/mv_program/src/texts.rt`, which runs a deck on threads, or polled on one:
///
/// ```
/// match way {
///     Way::Threads => run_deck(host.rt, host.alloc, deck, initiators, host.gate),
///     Way::Polled(seed) => {
///         let mut order = RoundOrder::new(seed);
///         run_polled(host.rt, host.alloc, deck, initiators, &mut order)
///     }
/// }
/// ```
pub fn run_deck<R: Threads + Wait + Clock + Sync, G: Gate + Sync>(
    rt: &R,
    alloc: Global,
    deck: &Deck,
    initiators: u32,
    gate: &G,
) -> Result<SpoolRun, NoMemory>
    requires runnable { CanBeRun (deck_data deck.now) initiators }
    ensures { IfOk result (IsRunOf (deck_data deck.now) initiators) }
{
    let config = spool_config(alloc, deck, initiators)?;
    let results = run_station(rt, alloc, config, deck, initiators, gate)?;
    let run = spool_run(alloc, deck, initiators, results)?;
    Ok(run)
}
