//! Four tasks that count one number up. Clauses cite `specs/Counter.antt`, and definitions of mv_guarded.

ghost use Rattle.std.specs.Prelude.{◌≡◌, ◌≤◌, ◌*◌, ◌+◌, IfOk};
ghost use Rattle.mv_wait.specs.Prelude.{Legal};
ghost use Rattle.mv_counter.specs.Counter.{times_limit, counter_setup, IsReady, IsCounter, HasDone, IsCounted, additions};

use mv_attach::{Work, run_tasks};
use mv_latchset::{LatchForm, Mode, Obtained, obtain, release_latch};
use mv_wait::{Config, History, NoMemory, Station, Task, ValidConfig};
use std::alloc::Global;
use std::sync::Wait;
use std::thread::Threads;
use std::time::Clock;

/// How many tasks there are.
const TASKS: u32 = 4;

/// The volume that has the number, and the latch that guards it.
const NUMBER: u32 = 0;

const LATCH: u32 = 0;

/// The outcome of a run.
#[derive(Drop)]
pub struct Counted {
    /// The number in the end.
    pub number: u32,
    /// All events, as one legal history, with the configuration that it ran with.
    pub history: History,
}

fn configuration(alloc: Global, times: u32) -> Result<ValidConfig, NoMemory>
    requires times { times ≤ times_limit }
    ensures { IfOk result (λ config. config ≡ counter_setup times) }
{
    let budget = 5 * times;
    let config = Config {
        callers: TASKS,
        elements_per_caller: 1,
        volumes: 1,
        latches: 1,
        quota: 1,
        posted_quota: 0,
        budgets: vec![in alloc; budget, budget, budget, budget]?,
        owners: Vec::new(alloc),
        exits: Vec::new(alloc),
    };
    Ok(ValidConfig::of(alloc, config)?)
}

// Adds one to the number, in a section of the latch.
fn add_one<R: Wait + Clock>(station: &Station, rt: &R, task: &mut Task)
    requires ready { IsReady station.now task.old }
    requires left { 5 ≤ task.old.left }
    ensures ready { IsReady station.now task.new }
    ensures left { task.old.left ≤ task.new.left + 5 }
    ensures number { task.new.number ≡ task.old.number }
{
    let requestor = u64::from(task.number());
    let form = LatchForm::Waiting;
    let mode = Mode::Exclusive;
    // An obtain is refused only if its request is purged, and no task purges.
    let Ok(got) = obtain(station, rt, task, LATCH, requestor, mode, form) else {
        return;
    };
    let Obtained::Granted(token) = got else {
        return;
    };
    let number = station.read_volume(task, NUMBER);
    station.write_volume(rt, task, NUMBER, number.wrapping_add(1));
    let _ = release_latch(station, rt, task, token, false);
}

// Adds one this many times.
fn add_all<R: Wait + Clock>(station: &Station, rt: &R, task: &mut Task, times: u32)
    requires ready { IsReady station.now task.old }
    requires left { 5 * times ≤ task.old.left }
    ensures ready { IsReady station.now task.new }
    ensures number { task.new.number ≡ task.old.number }
{
    for added in 0..times {
        add_one(station, rt, task);
    }
}

// What each task does: it adds one this many times.
#[derive(Drop)]
struct Adding(u32);

impl Work for Adding {
    type Room = ();

    ghost can_start = { λ a b k room. IsCounter b a.0 };

    ghost has_done = { λ a b k old t new. HasDone k t.log };

    fn work<R: Wait + Clock>(&self, station: &Station, rt: &R, task: &mut Task, _room: &mut ()) {
        add_all(station, rt, task, self.0);
    }
}

/// Has four tasks add one to a number, this many times each, and returns the number and all events.
///
/// # Errors
///
/// `NoMemory` if memory runs out, before the tasks start.
pub fn count<R: Threads + Wait + Clock + Sync>(
    rt: &R,
    alloc: Global,
    times: u32,
) -> Result<Counted, NoMemory>
    requires times { times ≤ times_limit }
    // At each moment the volume has the number of the additions so far.
    ensures counted { IfOk result (λ counted. IsCounted counted.history.config counted.history.coming) }
    ensures number { IfOk result (λ counted. counted.number ≡ additions counted.history.coming) }
    ensures config { IfOk result (λ counted. counted.history.config ≡ counter_setup times) }
    ensures legal { IfOk result (λ counted. Legal counted.history.config counted.history.coming) }
{
    let rooms = vec![in alloc; (), (), (), ()]?;
    let config = configuration(alloc, times)?;
    let (station, tasks) = Station::open(alloc, config)?;
    let (tasks, _rooms) = run_tasks(rt, alloc, &station, &Adding(times), tasks, rooms)?;
    let closed = station.close(tasks);
    Ok(Counted {
        number: closed.volumes[NUMBER as usize],
        history: closed.history,
    })
}
