//! The hand-over of items from one task to another. Clauses cite `specs/Setup.antt` and `specs/Ready.antt`.

ghost use Rattle.std.specs.Prelude.{◌≡◌, ℕ, ◌<◌, ◌≤◌, ◌+◌, ◌*◌, [], length, vec_capacity, IfOk, All};
ghost use Rattle.std.specs.List.{AllByRecursion};
ghost use Rattle.mv_wait.specs.Prelude.{code_limit, Legal, of, highest_place};
ghost use Rattle.mv_handover.specs.Ready.{CanHandOver, IsNew, IsOwn, Put, Took, HasPut, HasTaken, CanStart, HasDone, AreRooms};
ghost use Rattle.mv_handover.specs.Setup.{slots, items_limit, slots_setup};
ghost use Rattle.mv_handover.specs.Slots.{posts, takes, part};

use mv_attach::{Work, config_of_blocks, run_tasks};
use mv_wait::{History, NoMemory, Station, Task, ValidConfig};
use std::alloc::Global;
use std::sync::Wait;
use std::thread::Threads;
use std::time::Clock;

/// How many items may be between the two tasks.
const SLOTS: usize = 4;

/// The task that puts items in; the other one takes them out.
const PRODUCER: u32 = 0;

/// The code of a post that says that a slot is free.
const FREE: u32 = 0;

/// The results of a hand-over.
#[derive(Drop)]
pub struct HandedOver {
    /// The items that the consumer took, in order.
    pub taken: Vec<u32>,
    /// All events, as one legal history, with the configuration of the run.
    pub history: History,
}

// Caller 0 puts items in, and caller 1 takes them out. Blocks 0 to 3 say that a slot is full, and blocks 4 to 7 that it is free.
fn configuration(alloc: Global, items: u32) -> Result<ValidConfig, NoMemory>
    requires few { items ≤ items_limit }
    ensures { IfOk result (λ config. config ≡ slots_setup items) }
{
    // For each item a wait, which makes two events, a clear and a post; the consumer begins with a post for each slot.
    let budgets = [4 * items, 4 * items + 4];
    config_of_blocks(alloc, &budgets, &[1, 1, 1, 1, 0, 0, 0, 0])
}

// Waits for a block of the task's own, zeroes it for its next use, and returns the code with which it was posted.
fn take<R: Wait + Clock>(station: &Station, rt: &R, task: &mut Task, ecb: u32) -> u32
    requires block { IsOwn station.now ecb task.old }
    requires ready { CanHandOver station.now task.old.number task.old }
    requires left { 3 ≤ task.old.left }
    ensures took { Took ecb result task.old task.new }
    ensures ready { CanHandOver station.now task.old.number task.new }
{
    let code = station.wait_one(rt, task, ecb);
    let Ok(_) = station.clear(rt, task, ecb) else {
        unreachable!()
    };
    code
}

// Posts a block.
fn put<R: Wait>(station: &Station, rt: &R, task: &mut Task, ecb: u32, code: u32)
    requires block { ecb < 8 }
    requires code { code < code_limit }
    requires ready { CanHandOver station.now task.old.number task.old }
    requires left { 1 ≤ task.old.left }
    ensures put { Put ecb code task.old task.new }
    ensures ready { CanHandOver station.now task.old.number task.new }
{
    station.post(rt, task, ecb, code);
}

// Puts each item into the next slot, once that is free.
fn produce<R: Wait + Clock>(station: &Station, rt: &R, task: &mut Task, items: &[u32])
    requires new { IsNew station.now 0 task.old }
    requires codes { AllByRecursion (λ x. x < code_limit) items.now }
    requires left { 4 * length items.now ≤ task.old.left }
    ensures put { HasPut station.now items.now task.new }
{
    for i in 0..items.len() {
        let slot = (i % SLOTS) as u32;
        take(station, rt, task, SLOTS as u32 + slot);
        put(station, rt, task, slot, items[i]);
    }
}

// Posts that each slot is free; then takes `count` items, each from the next slot, and frees that slot again.
fn consume<R: Wait + Clock>(
    station: &Station,
    rt: &R,
    task: &mut Task,
    count: usize,
    taken: &mut Vec<u32>,
)
    requires new { IsNew station.now 1 task.old }
    requires left { 4 * count + 4 ≤ task.old.left }
    requires room { (taken.old.items ≡ []) × (count ≤ vec_capacity taken.old) }
    ensures count { length taken.new.items ≡ count }
    ensures took { HasTaken station.now taken.new.items task.new }
{
    for slot in 0..SLOTS as u32 {
        put(station, rt, task, SLOTS as u32 + slot, FREE);
    }
    for i in 0..count {
        let slot = (i % SLOTS) as u32;
        taken.push_reserved(take(station, rt, task, slot));
        put(station, rt, task, SLOTS as u32 + slot, FREE);
    }
}

// The work of the two tasks.
#[derive(Drop)]
struct Handing<'a> {
    items: &'a [u32],
}

impl Work for Handing<'_> {
    type Room = Vec<u32>;

    ghost can_start = { λ h b k room. CanStart b h.items.now k room };

    ghost has_done = { λ h b k old t new. HasDone b h.items.now k t new.items };

    fn work<R: Wait + Clock>(
        &self,
        station: &Station,
        rt: &R,
        task: &mut Task,
        taken: &mut Vec<u32>,
    ) {
        if task.number() == PRODUCER {
            produce(station, rt, task, self.items);
        } else {
            consume(station, rt, task, self.items.len(), taken);
        }
    }
}

// Makes the rooms: the producer's, which stays empty, and the consumer's, with room for all that it takes.
fn rooms_for(alloc: Global, count: usize) -> Result<Vec<Vec<u32>>, NoMemory>
    ensures { IfOk result (AreRooms count) }
{
    let mut rooms = Vec::with_capacity(alloc, 2)?;
    rooms.push_reserved(Vec::new(alloc));
    rooms.push_reserved(Vec::with_capacity(alloc, count)?);
    Ok(rooms)
}

/// Hands these items, each a number of 30 bits, over from one thread to another.
///
/// # Errors
///
/// `NoMemory` if memory runs out, before any task starts.
pub fn hand_over<R: Threads + Wait + Clock + Sync>(
    rt: &R,
    alloc: Global,
    items: &[u32],
) -> Result<HandedOver, NoMemory>
    requires few { length items.now ≤ items_limit }
    requires codes { AllByRecursion (λ x. x < code_limit) items.now }
    ensures taken { IfOk result (λ handed. handed.taken.items ≡ items.now) }
    ensures put { IfOk result (λ handed. (s : ℕ) → s < slots → posts s handed.history.coming ≡ part s items.now) }
    ensures took { IfOk result (λ handed. (s : ℕ) → s < slots → takes s (of 1 handed.history.coming) ≡ part s items.now) }
    ensures config { IfOk result (λ handed. handed.history.config ≡ slots_setup (length items.now)) }
    ensures legal { IfOk result (λ handed. Legal handed.history.config handed.history.coming) }
    ensures places { IfOk result (λ handed. All (λ e. e.place ≤ highest_place) handed.history.coming) }
{
    let count = items.len();
    let rooms = rooms_for(alloc, count)?;
    let config = configuration(alloc, count as u32)?;
    let (station, tasks) = Station::open(alloc, config)?;
    let work = Handing { items };
    let (tasks, mut rooms) = run_tasks(rt, alloc, &station, &work, tasks, rooms)?;
    let Some(taken) = rooms.pop() else {
        unreachable!()
    };
    let closed = station.close(tasks);
    Ok(HandedOver {
        taken,
        history: closed.history,
    })
}
