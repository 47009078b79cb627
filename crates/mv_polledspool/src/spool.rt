//! The polled run of a deck. Clauses cite `SpoolRun.antt` of mv_plan, `Outcome.antt` of mv_report, and `specs/Polled.antt`.

ghost use Rattle.std.specs.Prelude.{◌≡◌, ◌<◌, ◌≤◌, ◌+◌, false, [], length, map, take, slice_index_or, vec_capacity, IfOk};
ghost use Rattle.std.specs.List.{AllByRecursion};
ghost use Rattle.mv_deck.specs.Deck.{deck_data};
ghost use Rattle.mv_deck.specs.Sound.{CanBeRun};
ghost use Rattle.mv_deck.specs.Weight.{most_initiators};
ghost use Rattle.mv_plan.specs.SpoolSetup.{jobs_limit, spool_setup};
ghost use Rattle.mv_polledspool.specs.Polled.{ArePolled, IsPicked, IsUnpolled, is_finished, unfinished};
ghost use Rattle.mv_polledspool.specs.declared.polled.Polled.{Polled as PolledValue};
ghost use Rattle.mv_work.specs.Recording.{AreResults, IsRunOf};
ghost use Rattle.mv_work.specs.Spool.{IsSpool, spool_of};

use crate::order::Order;
use crate::polled::Polled;
use mv_deck::Deck;
use mv_io::NoMemory;
use mv_machine::ValidConfig;
use mv_plan::spool_config;
use mv_task::OpenGate;
use mv_wait::{Station, Task};
use mv_work::{InitiatorRecord, RunResults, Spool, SpoolRun, SpoolWork, results_of, spool_run};
use std::alloc::Global;
use std::sync::Wait;

// Makes a polled task of each of these tasks, none of which was polled.
fn all_polled(
    alloc: Global,
    tasks: Vec<Task>,
    deck: &Deck,
    initiators: u32,
) -> Result<Vec<Polled>, NoMemory>
    requires few { initiators ≤ most_initiators }
    ensures new { IfOk result (λ ps. AllByRecursion (IsUnpolled (deck_data deck.now) initiators) ps.items) }
    ensures tasks { IfOk result (λ ps. map (λ p. p.task) ps.items ≡ tasks.items) }
{
    let mut polled = Vec::with_capacity(alloc, tasks.len())?;
    for task in tasks {
        polled.push_reserved(Polled::new(alloc, task, deck, initiators)?);
    }
    Ok(polled)
}

// Room for the tasks and their works once all are finished, and for what the initiators noted.
#[derive(Drop)]
struct Room {
    tasks: Vec<Task>,
    works: Vec<SpoolWork>,
    records: Vec<InitiatorRecord>,
}

// Makes room for this many tasks.
fn room_for(alloc: Global, count: usize) -> Result<Room, NoMemory>
    ensures tasks { IfOk result (λ room. (room.tasks.items ≡ []) × (count ≤ vec_capacity room.tasks)) }
    ensures works { IfOk result (λ room. (room.works.items ≡ []) × (count ≤ vec_capacity room.works)) }
    ensures records { IfOk result (λ room. (room.records.items ≡ []) × (count ≤ vec_capacity room.records)) }
{
    Ok(Room {
        tasks: Vec::with_capacity(alloc, count)?,
        works: Vec::with_capacity(alloc, count)?,
        records: Vec::with_capacity(alloc, count)?,
    })
}

// Splits the polled tasks into tasks and works, and returns also the room for what the initiators noted.
fn parted(polled: Vec<Polled>, room: Room) -> (Vec<Task>, Vec<SpoolWork>, Vec<InitiatorRecord>)
    requires tasks { (room.tasks.items ≡ []) × (length polled.items ≤ vec_capacity room.tasks) }
    requires works { (room.works.items ≡ []) × (length polled.items ≤ vec_capacity room.works) }
    ensures tasks { result.0.items ≡ map (λ p. p.task) polled.items }
    ensures works { result.1.items ≡ map (λ p. p.work) polled.items }
    ensures records { result.2 ≡ room.records }
{
    let Room {
        mut tasks,
        mut works,
        records,
    } = room;
    for one in polled {
        let Polled { task, work, .. } = one;
        tasks.push_reserved(task);
        works.push_reserved(work);
    }
    (tasks, works, records)
}

// How many tasks are unfinished.
fn count_unfinished(polled: &[Polled]) -> u32
    requires few { length polled.now ≤ most_initiators + 3 }
    ensures { result ≡ length (unfinished polled.now) }
{
    let mut count = 0;
    for one in polled {
        if !one.is_finished() {
            count += 1;
        }
    }
    count
}

// The position of the unfinished task of this number, counted from 0.
fn place_of(polled: &[Polled], number: u32) -> usize
    requires some { number < length (unfinished polled.now) }
    ensures place { result < length polled.now }
    ensures number { length (unfinished (take result polled.now)) ≡ number }
    ensures unfinished { (d : PolledValue) → is_finished (slice_index_or polled.now result d) ≡ false }
{
    let mut left = number;
    for place in 0..polled.len() {
        if !polled[place].is_finished() {
            if left == 0 {
                return place;
            }
            left -= 1;
        }
    }
    unreachable!()
}

// Polls the unfinished task of this number, counted from 0, and no other.
fn poll_picked<R: Wait>(rt: &R, spool: &Spool<'_, OpenGate>, number: u32, tasks: &mut [Polled])
    requires spool { IsSpool spool.now }
    requires some { number < length (unfinished tasks.old) }
    requires count { length tasks.old ≡ spool.now.initiators + 3 }
    requires polled { ArePolled spool.now tasks.old }
    ensures count { length tasks.new ≡ spool.now.initiators + 3 }
    ensures polled { ArePolled spool.now tasks.new }
    ensures picked { IsPicked number tasks.old tasks.new }
{
    let place = place_of(tasks, number);
    tasks[place].poll(rt, spool);
}

// Polls the tasks until all are finished.
fn poll_all<R: Wait, O: Order>(
    rt: &R,
    spool: &Spool<'_, OpenGate>,
    order: &mut O,
    mut tasks: Vec<Polled>,
) -> Vec<Polled>
    requires spool { IsSpool spool.now }
    requires count { length tasks.items ≡ spool.now.initiators + 3 }
    requires polled { ArePolled spool.now tasks.items }
    ensures count { length result.items ≡ spool.now.initiators + 3 }
    ensures polled { ArePolled spool.now result.items }
    ensures finished { unfinished result.items ≡ [] }
{
    for _ in rt.forever() {
        let unfinished = count_unfinished(&tasks);
        if unfinished == 0 {
            break;
        }
        let number = order.pick(unfinished);
        poll_picked(rt, spool, number, &mut tasks);
    }
    tasks
}

// Polls the tasks of a station until all are finished, and closes the station.
fn run_all<R: Wait, O: Order>(
    station: Station,
    rt: &R,
    deck: &Deck,
    initiators: u32,
    order: &mut O,
    tasks: Vec<Polled>,
    room: Room,
) -> RunResults
    requires some { 1 ≤ initiators }
    requires spool { IsSpool (spool_of station (deck_data deck.now) initiators) }
    requires count { length tasks.items ≡ initiators + 3 }
    requires polled { ArePolled (spool_of station (deck_data deck.now) initiators) tasks.items }
    requires tasks { (room.tasks.items ≡ []) × (initiators + 3 ≤ vec_capacity room.tasks) }
    requires works { (room.works.items ≡ []) × (initiators + 3 ≤ vec_capacity room.works) }
    requires records { (room.records.items ≡ []) × (initiators + 3 ≤ vec_capacity room.records) }
    ensures { AreResults (deck_data deck.now) initiators result }
{
    let polled = {
        let spool = Spool::new(&station, deck, initiators, &OpenGate);
        poll_all(rt, &spool, order, tasks)
    };
    let (tasks, works, records) = parted(polled, room);
    results_of(station.close(tasks), works, records)
}

// Opens a station of this configuration, has its tasks do their work, and closes it.
fn run_tasks<R: Wait, O: Order>(
    rt: &R,
    alloc: Global,
    config: ValidConfig,
    deck: &Deck,
    initiators: u32,
    order: &mut O,
) -> Result<RunResults, NoMemory>
    requires runnable { CanBeRun (deck_data deck.now) initiators }
    requires few { length (deck_data deck.now) ≤ jobs_limit }
    requires config { config ≡ spool_setup (deck_data deck.now) initiators }
    ensures results { IfOk result (AreResults (deck_data deck.now) initiators) }
{
    let room = room_for(alloc, initiators as usize + 3)?;
    let (station, tasks) = Station::open(alloc, config)?;
    let polled = all_polled(alloc, tasks, deck, initiators)?;
    Ok(run_all(station, rt, deck, initiators, order, polled, room))
}

/// Runs a deck by a reader, a scheduler, `initiators` initiators and a writer on this one thread, and returns the results.
///
/// Repeatedly the order picks one of the unfinished tasks, which is then polled: it advances until it waits for something that
/// has not happened, or is finished. All memory that the polls use is taken before the first poll. The deck must be one that
/// `read_deck` returned for as many initiators, 1 to 8.
///
/// The call returns when all tasks have ended. Nothing promises that they do: an order that never picks some task may prevent it.
///
/// # Errors
///
/// `NoMemory` if memory runs out, before the first poll or after the last.
///
/// # Examples
///
/// From `crates/mv_tests/src/tests/orders.rt`, whose order polls the tasks from the last to the first:
///
/// ```
/// let mut order = Backwards { left: 0, picks: 0 };
/// let run = run_polled(&rt, rt.alloc(), &deck, 1, &mut order).expect(&rt, "memory for a run");
/// ```
pub fn run_polled<R: Wait, O: Order>(
    rt: &R,
    alloc: Global,
    deck: &Deck,
    initiators: u32,
    order: &mut O,
) -> Result<SpoolRun, NoMemory>
    requires runnable { CanBeRun (deck_data deck.now) initiators }
    ensures { IfOk result (IsRunOf (deck_data deck.now) initiators) }
{
    let config = spool_config(alloc, deck, initiators)?;
    let results = run_tasks(rt, alloc, config, deck, initiators, order)?;
    let run = spool_run(alloc, deck, initiators, results)?;
    Ok(run)
}
