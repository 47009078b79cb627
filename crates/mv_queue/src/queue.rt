//! The producers and the consumers. Clauses cite `specs/Setup.antt`, `specs/Queue.antt`, and definitions of mv_ordered and mv_guarded.

ghost use Rattle.std.specs.Prelude.{◌≡◌, ℕ, ◌<◌, ◌≤◌, ◌+◌, ◌*◌, ◌^◌, ◌++◌, ◌∷◌, [], length, slice_index_or, vec_capacity, IfOk};
ghost use Rattle.std.specs.Prelude.{MatchOption, All, if◌then◌else◌};
ghost use Rattle.std.specs.List.{AllByRecursion};
ghost use Rattle.mv_wait.specs.Prelude.{Legal, of, highest_place};
ghost use Rattle.mv_wait.specs.Prelude.mode.{Exclusive};
ghost use Rattle.mv_ordered.specs.Held.{held};
ghost use Rattle.mv_ordered.specs.WaitChain.{HasNoLatchDeadlock};
ghost use Rattle.mv_attach.specs.Rooms.{HasRoom};
ghost use Rattle.mv_guarded.specs.Guarded.{HoldsLatch, AllReleased};
ghost use Rattle.mv_queue.specs.Setup.{room, tries_limit, queue_setup};
ghost use Rattle.mv_queue.specs.Queue.{IsReady, Did, HasEntered, HasSeen, IsOpen, HasDone, IsQueue, AreFirst, AreTheirs, went_in, came_out};

use mv_attach::{Work, run_tasks};
use mv_latchset::{LatchForm, LatchToken, Mode, Obtained, obtain, release_latch};
use mv_wait::{Config, History, NoMemory, Station, Task, ValidConfig};
use std::alloc::Global;
use std::sync::Wait;
use std::thread::Threads;
use std::time::Clock;

/// Two producers, callers 0 and 1, put items in, and two consumers, callers 2 and 3, take them out.
const TASKS: u32 = 4;

const FIRST_PRODUCER: u32 = 0;

const FIRST_CONSUMER: u32 = 2;

/// How many items may be in the queue. Item i is in the volume i % ROOM.
const ROOM: u32 = 3;

/// The volumes after those: one counts the items that were taken out, and one those that were put in.
const TAKEN: u32 = 3;

const PUT: u32 = 4;

/// The latch that guards all of them.
const LATCH: u32 = 0;

/// The code that says that the queue has changed.
const NEWS: u32 = 0;

/// The outcome of a run.
#[derive(Drop)]
pub struct Passed {
    /// What each task took out, in order; the producers took nothing.
    pub taken: Vec<Vec<u32>>,
    /// All events, as one legal history, with the configuration that it ran with.
    pub history: History,
}

fn configuration(alloc: Global, tries: u32) -> Result<ValidConfig, NoMemory>
    requires tries { tries ≤ tries_limit }
    ensures { IfOk result (λ config. config ≡ queue_setup tries) }
{
    let budget = 10 * tries;
    let config = Config {
        callers: TASKS,
        elements_per_caller: 1,
        volumes: ROOM + 2,
        latches: 1,
        quota: 1,
        posted_quota: 0,
        budgets: vec![in alloc; budget, budget, budget, budget]?,
        owners: vec![in alloc; 0, 1, 2, 3]?,
        exits: Vec::new(alloc),
    };
    Ok(ValidConfig::of(alloc, config)?)
}

// ---- the latch

// Obtains the latch exclusively. It is refused only if the request is purged, and that no task purges is known only after the run.
fn take_latch<R: Wait + Clock>(station: &Station, rt: &R, task: &mut Task) -> Option<LatchToken>
    requires ready { IsReady station.now task.old }
    requires bare { held task.old.log ≡ [] }
    requires left { 2 ≤ task.old.left }
    ensures { MatchOption result (Did station.now 2 [] [] [] task.old task.new)
        (λ token. HasEntered station.now token task.old task.new) }
{
    let requestor = u64::from(task.number());
    let form = LatchForm::Waiting;
    let mode = Mode::Exclusive;
    let Ok(got) = obtain(station, rt, task, LATCH, requestor, mode, form) else {
        return None;
    };
    let Obtained::Granted(token) = got else {
        return None;
    };
    Some(token)
}

// Releases it.
fn put_latch<R: Wait>(station: &Station, rt: &R, task: &mut Task, token: LatchToken)
    requires token { token.latch ≡ 0 }
    requires has { held task.old.log ≡ (0, token.id) ∷ [] }
    requires ready { IsReady station.now task.old }
    requires left { 1 ≤ task.old.left }
    ensures { Did station.now 1 [] [] [] task.old task.new }
{
    let _ = release_latch(station, rt, task, token, false);
}

// ---- the queue, under the latch

// Reads how many items were taken out, and how many were put in.
fn look(station: &Station, task: &mut Task) -> (u32, u32)
    requires holds { HoldsLatch 0 Exclusive task.old.number task.old.log }
    requires ready { IsReady station.now task.old }
    requires left { 2 ≤ task.old.left }
    ensures did { Did station.now 2 [] [] (held task.old.log) task.old task.new }
    ensures seen { HasSeen task.new.number result.0 result.1 task.new.log }
{
    let taken = station.read_volume(task, TAKEN);
    let put = station.read_volume(task, PUT);
    (taken, put)
}

// Puts an item in, behind those that are there: writes it into its slot, and counts it.
fn put_in<R: Wait>(station: &Station, rt: &R, task: &mut Task, taken: u32, put: u32, item: u32)
    requires seen { HasSeen task.old.number taken put task.old.log }
    requires free { put < taken + room }
    requires fits { put + 1 < 2 ^ 32 }
    requires ready { IsReady station.now task.old }
    requires left { 2 ≤ task.old.left }
    ensures { Did station.now 2 (item ∷ []) [] (held task.old.log) task.old task.new }
{
    station.write_volume(rt, task, put % ROOM, item);
    station.write_volume(rt, task, PUT, put + 1);
}

// Takes the first item out: reads it, and counts it.
fn take_out<R: Wait>(station: &Station, rt: &R, task: &mut Task, taken: u32, put: u32) -> u32
    requires seen { HasSeen task.old.number taken put task.old.log }
    requires some { taken < put }
    requires ready { IsReady station.now task.old }
    requires left { 2 ≤ task.old.left }
    ensures { Did station.now 2 [] (result ∷ []) (held task.old.log) task.old task.new }
{
    let item = station.read_volume(task, taken % ROOM);
    station.write_volume(rt, task, TAKEN, taken + 1);
    item
}

// Puts an item in, if there is room. Returns whether there was.
fn put_item<R: Wait + Clock>(station: &Station, rt: &R, task: &mut Task, item: u32) -> bool
    requires ready { IsReady station.now task.old }
    requires bare { held task.old.log ≡ [] }
    requires left { 7 ≤ task.old.left }
    ensures { Did station.now 7 (if result then item ∷ [] else []) [] [] task.old task.new }
{
    let Some(token) = take_latch(station, rt, task) else {
        return false;
    };
    let (taken, put) = look(station, task);
    let limit = taken.saturating_add(ROOM);
    if put >= limit {
        put_latch(station, rt, task, token);
        return false;
    }
    put_in(station, rt, task, taken, put, item);
    put_latch(station, rt, task, token);
    true
}

// Takes an item out, if there is one.
fn take_item<R: Wait + Clock>(station: &Station, rt: &R, task: &mut Task) -> Option<u32>
    requires ready { IsReady station.now task.old }
    requires bare { held task.old.log ≡ [] }
    requires left { 7 ≤ task.old.left }
    ensures { MatchOption result (Did station.now 7 [] [] [] task.old task.new)
        (λ item. Did station.now 7 [] (item ∷ []) [] task.old task.new) }
{
    let Some(token) = take_latch(station, rt, task) else {
        return None;
    };
    let (taken, put) = look(station, task);
    if taken >= put {
        put_latch(station, rt, task, token);
        return None;
    }
    let item = take_out(station, rt, task, taken, put);
    put_latch(station, rt, task, token);
    Some(item)
}

// ---- news

// Tells two tasks that the queue has changed.
fn tell<R: Wait>(station: &Station, rt: &R, task: &mut Task, first: u32)
    requires first { first < 3 }
    requires ready { IsReady station.now task.old }
    requires left { 2 ≤ task.old.left }
    ensures { Did station.now 2 [] [] (held task.old.log) task.old task.new }
{
    station.post(rt, task, first, NEWS);
    station.post(rt, task, first + 1, NEWS);
}

// Waits until the queue has changed since the task last waited. A change after that is not lost: it completes the block again, and the task
// looks at the queue only after it has cleared the block.
fn await_news<R: Wait + Clock>(station: &Station, rt: &R, task: &mut Task)
    requires number { task.old.number < 4 }
    requires ready { IsReady station.now task.old }
    requires bare { held task.old.log ≡ [] }
    requires left { 3 ≤ task.old.left }
    ensures { Did station.now 3 [] [] [] task.old task.new }
{
    let block = task.number();
    station.wait_one(rt, task, block);
    let _ = station.clear(rt, task, block);
}

// ---- the tasks

// Tries to put the first of these items in, and waits if there is no room. Returns the items that are still to be put in.
fn put_next<'a, R: Wait + Clock>(
    station: &Station,
    rt: &R,
    task: &mut Task,
    items: &'a [u32],
) -> &'a [u32]
    requires number { task.old.number < 4 }
    requires ready { IsReady station.now task.old }
    requires bare { held task.old.log ≡ [] }
    requires left { 10 ≤ task.old.left }
    ensures put { went_in task.new.log ++ result.now ≡ went_in task.old.log ++ items.now }
    ensures taken { came_out task.new.log ≡ came_out task.old.log }
    ensures ready { IsReady station.now task.new }
    ensures bare { held task.new.log ≡ [] }
    ensures left { task.old.left ≤ task.new.left + 10 }
    ensures number { task.new.number ≡ task.old.number }
{
    let Some((item, later)) = items.split_first() else {
        return items;
    };
    if put_item(station, rt, task, *item) {
        tell(station, rt, task, FIRST_CONSUMER);
        return later;
    }
    await_news(station, rt, task);
    items
}

// A producer: puts these items in, in order, by at most `tries` tries.
fn put_all<R: Wait + Clock>(station: &Station, rt: &R, task: &mut Task, items: &[u32], tries: u32)
    requires number { task.old.number < 4 }
    requires none { went_in task.old.log ≡ [] }
    requires ready { IsReady station.now task.old }
    requires bare { held task.old.log ≡ [] }
    requires left { 10 * tries ≤ task.old.left }
    ensures put { AreFirst (went_in task.new.log) items.now }
    ensures taken { came_out task.new.log ≡ came_out task.old.log }
    ensures ready { IsReady station.now task.new }
    ensures bare { held task.new.log ≡ [] }
    ensures number { task.new.number ≡ task.old.number }
{
    let mut rest = items;
    for tried in 0..tries {
        rest = put_next(station, rt, task, rest);
    }
}

// Tries to take an item out, and waits if there is none.
fn take_next<R: Wait + Clock>(station: &Station, rt: &R, task: &mut Task, got: &mut Vec<u32>)
    requires number { task.old.number < 4 }
    requires space { length got.old.items < vec_capacity got.old }
    requires ready { IsReady station.now task.old }
    requires bare { held task.old.log ≡ [] }
    requires left { 10 ≤ task.old.left }
    requires taken { got.old.items ≡ came_out task.old.log }
    ensures taken { got.new.items ≡ came_out task.new.log }
    ensures capacity { vec_capacity got.new ≡ vec_capacity got.old }
    ensures put { went_in task.new.log ≡ went_in task.old.log }
    ensures ready { IsReady station.now task.new }
    ensures bare { held task.new.log ≡ [] }
    ensures left { task.old.left ≤ task.new.left + 10 }
    ensures number { task.new.number ≡ task.old.number }
{
    let Some(item) = take_item(station, rt, task) else {
        await_news(station, rt, task);
        return;
    };
    tell(station, rt, task, FIRST_PRODUCER);
    got.push_reserved(item);
}

// A consumer: takes `wanted` items out, by at most `tries` tries.
fn take_all<R: Wait + Clock>(
    station: &Station,
    rt: &R,
    task: &mut Task,
    wanted: u32,
    tries: u32,
    got: &mut Vec<u32>,
)
    requires number { task.old.number < 4 }
    requires none { came_out task.old.log ≡ [] }
    requires ready { IsReady station.now task.old }
    requires bare { held task.old.log ≡ [] }
    requires left { 10 * tries ≤ task.old.left }
    requires got { HasRoom wanted got.old }
    ensures taken { got.new.items ≡ came_out task.new.log }
    ensures put { went_in task.new.log ≡ went_in task.old.log }
    ensures ready { IsReady station.now task.new }
    ensures bare { held task.new.log ≡ [] }
    ensures number { task.new.number ≡ task.old.number }
{
    for tried in 0..tries {
        if got.len() >= wanted as usize {
            return;
        }
        take_next(station, rt, task, got);
    }
}

// What the tasks do: each producer puts its items in, and each consumer takes `wanted` items out.
#[derive(Drop)]
struct Passing<'a> {
    first: &'a [u32],
    second: &'a [u32],
    wanted: u32,
    tries: u32,
}

impl Work for Passing<'_> {
    type Room = Vec<u32>;

    ghost can_start = { λ p b k got. IsOpen b p.tries × HasRoom p.wanted got };

    ghost has_done = { λ p b k old t new. HasDone p.first.now p.second.now k t.log new.items };

    fn work<R: Wait + Clock>(
        &self,
        station: &Station,
        rt: &R,
        task: &mut Task,
        got: &mut Vec<u32>,
    ) {
        match task.number() {
            0 => put_all(station, rt, task, self.first, self.tries),
            1 => put_all(station, rt, task, self.second, self.tries),
            _ => take_all(station, rt, task, self.wanted, self.tries, got),
        }
    }
}

// An empty list for each task, with room for what it takes out.
fn rooms_for(alloc: Global, wanted: u32) -> Result<Vec<Vec<u32>>, NoMemory>
    ensures count { IfOk result (λ rooms. length rooms.items ≡ 4) }
    ensures room { IfOk result (λ rooms. AllByRecursion (HasRoom wanted) rooms.items) }
{
    let mut rooms = Vec::new(alloc);
    for made in 0..TASKS {
        rooms.push(Vec::with_capacity(alloc, wanted as usize)?)?;
    }
    Ok(rooms)
}

/// Has two producers put these items into a queue with room for three, while two consumers take `wanted` items each out of it, and returns what
/// each task took out, and all events. A task tries at most `tries` times.
///
/// # Errors
///
/// `NoMemory` if memory runs out, before the tasks start.
pub fn pass<R: Threads + Wait + Clock + Sync>(
    rt: &R,
    alloc: Global,
    first: &[u32],
    second: &[u32],
    wanted: u32,
    tries: u32,
) -> Result<Passed, NoMemory>
    requires tries { tries ≤ tries_limit }
    // At each moment what came out is what went in, in order, and at most three items are inside.
    ensures order { IfOk result (λ passed. IsQueue passed.history.coming) }
    // Each producer put in the first of its items, in order, and no other task put any in.
    ensures put { IfOk result (λ passed. AreTheirs first.now second.now passed.history.coming) }
    // Each task returns what it took out, in order.
    ensures taken { IfOk result (λ passed. (k : ℕ) (d : _) → k < 4
        → (slice_index_or passed.taken.items k d).items ≡ came_out (of k passed.history.coming)) }
    // At each moment a task that waits for the latch leads to one that can continue.
    ensures no_deadlock { IfOk result (λ passed. HasNoLatchDeadlock passed.history.config passed.history.coming) }
    // Each task has released the latch in the end.
    ensures released { IfOk result (λ passed. AllReleased passed.history.config passed.history.coming) }
    ensures config { IfOk result (λ passed. passed.history.config ≡ queue_setup tries) }
    ensures legal { IfOk result (λ passed. Legal passed.history.config passed.history.coming) }
    ensures places { IfOk result (λ passed. All (λ e. e.place ≤ highest_place) passed.history.coming) }
{
    let rooms = rooms_for(alloc, wanted)?;
    let config = configuration(alloc, tries)?;
    let (station, tasks) = Station::open(alloc, config)?;
    let work = Passing {
        first,
        second,
        wanted,
        tries,
    };
    let (tasks, taken) = run_tasks(rt, alloc, &station, &work, tasks, rooms)?;
    let closed = station.close(tasks);
    Ok(Passed {
        taken,
        history: closed.history,
    })
}
