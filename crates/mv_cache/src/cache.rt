//! The writer and the readers. Clauses cite `specs/Setup.antt`, `specs/Whole.antt`, and definitions of mv_ordered and mv_guarded.

ghost use Rattle.std.specs.Prelude.{◌≡◌, ◌<◌, ◌≤◌, ◌+◌, ◌*◌, ◌∷◌, [], length, vec_capacity, IfOk, IfSome, All};
ghost use Rattle.std.specs.List.{AllByRecursion, Contains};
ghost use Rattle.mv_wait.specs.Prelude.{Legal, highest_place};
ghost use Rattle.mv_ordered.specs.Held.{held};
ghost use Rattle.mv_ordered.specs.WaitChain.{HasNoLatchDeadlock};
ghost use Rattle.mv_attach.specs.Rooms.{HasRoom};
ghost use Rattle.mv_guarded.specs.Guarded.{AllReleased};
ghost use Rattle.mv_cache.specs.Setup.{pairs_limit, reads_limit, cache_setup};
ghost use Rattle.mv_cache.specs.Whole.{IsSharing, IsWriting, IsReading, HasDone, WasRead, IsLonger, first_pair};

use mv_attach::{Work, run_tasks};
use mv_latchset::{LatchForm, Mode, Obtained, obtain, release_latch};
use mv_wait::{Config, History, NoMemory, Station, Task, ValidConfig};
use std::alloc::Global;
use std::sync::Wait;
use std::thread::Threads;
use std::time::Clock;

/// Two numbers that belong together.
#[derive(Clone, Copy, Debug, PartialEq, Eq)]
pub struct Pair {
    pub left: u32,
    pub right: u32,
}

/// The pair that the volumes have before the first write.
pub const FIRST: Pair = Pair { left: 0, right: 0 };

/// The writer is caller 0, and the readers are the callers after it.
const WRITER: u32 = 0;

/// How many readers there are.
const READERS: u32 = 3;

/// The latch, and the volumes that it guards: one has the left number, and one the right.
const LATCH: u32 = 0;

const LEFT: u32 = 0;

const RIGHT: u32 = 1;

/// The outcome of a run.
#[derive(Drop)]
pub struct Shared {
    /// What each task read, in order; the writer reads nothing.
    pub read: Vec<Vec<Pair>>,
    /// All events, as one legal history, with the configuration that it ran with.
    pub history: History,
}

// For each pair, and for each read, a task obtains the latch, which is two events, has two on the volumes, and releases it.
fn configuration(alloc: Global, pairs: u32, reads: u32) -> Result<ValidConfig, NoMemory>
    requires pairs { pairs ≤ pairs_limit }
    requires reads { reads ≤ reads_limit }
    ensures { IfOk result (λ config. config ≡ cache_setup pairs reads) }
{
    let config = Config {
        callers: READERS + 1,
        elements_per_caller: 1,
        volumes: 2,
        latches: 1,
        quota: 1,
        posted_quota: 0,
        budgets: vec![in alloc; 5 * pairs, 5 * reads, 5 * reads, 5 * reads]?,
        owners: Vec::new(alloc),
        exits: Vec::new(alloc),
    };
    Ok(ValidConfig::of(alloc, config)?)
}

// Writes the pair of this number, under the latch alone.
fn write_pair<R: Wait + Clock>(
    station: &Station,
    rt: &R,
    task: &mut Task,
    pairs: &[Pair],
    number: usize,
)
    requires number { number < length pairs.now }
    requires ready { IsWriting station.now pairs.now task.old }
    requires bare { held task.old.log ≡ [] }
    requires left { 5 ≤ task.old.left }
    ensures ready { IsWriting station.now pairs.now task.new }
    ensures bare { held task.new.log ≡ [] }
    ensures left { task.old.left ≤ task.new.left + 5 }
{
    let pair = pairs[number];
    // An obtain is refused only if its request is purged, and no task purges any.
    let form = LatchForm::Waiting;
    let mode = Mode::Exclusive;
    let Ok(got) = obtain(station, rt, task, LATCH, WRITER as u64, mode, form) else {
        return;
    };
    let Obtained::Granted(token) = got else {
        return;
    };
    station.write_volume(rt, task, LEFT, pair.left);
    station.write_volume(rt, task, RIGHT, pair.right);
    let _ = release_latch(station, rt, task, token, false);
}

// Reads the pair, under the latch shared.
fn read_pair<R: Wait + Clock>(station: &Station, rt: &R, task: &mut Task) -> Option<Pair>
    requires ready { IsReading station.now task.old }
    requires bare { held task.old.log ≡ [] }
    requires left { 5 ≤ task.old.left }
    ensures read { IfSome result (WasRead task.new.number task.new.log) }
    ensures ready { IsReading station.now task.new }
    ensures bare { held task.new.log ≡ [] }
    ensures longer { IsLonger task.old task.new }
    ensures left { task.old.left ≤ task.new.left + 5 }
{
    let reader = u64::from(task.number());
    let form = LatchForm::Waiting;
    let mode = Mode::Shared;
    let Ok(got) = obtain(station, rt, task, LATCH, reader, mode, form) else {
        return None;
    };
    let Obtained::Granted(token) = got else {
        return None;
    };
    let left = station.read_volume(task, LEFT);
    let right = station.read_volume(task, RIGHT);
    let _ = release_latch(station, rt, task, token, false);
    Some(Pair { left, right })
}

// The writer: each pair in turn.
fn write_all<R: Wait + Clock>(station: &Station, rt: &R, task: &mut Task, pairs: &[Pair])
    requires ready { IsWriting station.now pairs.now task.old }
    requires bare { held task.old.log ≡ [] }
    requires left { 5 * length pairs.now ≤ task.old.left }
    ensures ready { IsWriting station.now pairs.now task.new }
    ensures bare { held task.new.log ≡ [] }
{
    for number in 0..pairs.len() {
        write_pair(station, rt, task, pairs, number);
    }
}

// A reader: this many reads.
fn read_all<R: Wait + Clock>(
    station: &Station,
    rt: &R,
    task: &mut Task,
    reads: u32,
    room: &mut Vec<Pair>,
)
    requires ready { IsReading station.now task.old }
    requires bare { held task.old.log ≡ [] }
    requires left { 5 * reads ≤ task.old.left }
    requires room { (room.old.items ≡ []) × (reads ≤ vec_capacity room.old) }
    ensures ready { IsReading station.now task.new }
    ensures bare { held task.new.log ≡ [] }
    ensures number { task.new.number ≡ task.old.number }
    ensures read { AllByRecursion (WasRead task.new.number task.new.log) room.new.items }
{
    for made in 0..reads {
        if let Some(pair) = read_pair(station, rt, task) {
            room.push_reserved(pair);
        }
    }
}

// What the tasks do: the first of them writes these pairs, and the others read.
#[derive(Drop)]
struct Sharing<'a> {
    pairs: &'a [Pair],
    reads: u32,
}

impl Work for Sharing<'_> {
    type Room = Vec<Pair>;

    ghost can_start = { λ s b k room. IsSharing b s.pairs.now s.reads × HasRoom s.reads room };

    ghost has_done = { λ s b k old t new. HasDone s.pairs.now k t.log new.items };

    #[tactic(auto, using(mv_ordered::proofs::Calls::new_keeps_discipline))]
    fn work<R: Wait + Clock>(
        &self,
        station: &Station,
        rt: &R,
        task: &mut Task,
        room: &mut Vec<Pair>,
    ) {
        if task.number() == WRITER {
            write_all(station, rt, task, self.pairs);
        } else {
            read_all(station, rt, task, self.reads, room);
        }
    }
}

// An empty list for each task, with room for what it reads.
fn rooms_for(alloc: Global, reads: u32) -> Result<Vec<Vec<Pair>>, NoMemory>
    ensures count { IfOk result (λ rooms. length rooms.items ≡ 4) }
    ensures room { IfOk result (λ rooms. AllByRecursion (HasRoom reads) rooms.items) }
{
    let mut rooms = Vec::new(alloc);
    for made in 0..READERS + 1 {
        rooms.push(Vec::with_capacity(alloc, reads as usize)?)?;
    }
    Ok(rooms)
}

/// Has one task write these pairs, one after the other, while three others read `reads` times each, and returns what they read.
///
/// # Errors
///
/// `NoMemory` if memory runs out, before the tasks start.
pub fn share<R: Threads + Wait + Clock + Sync>(
    rt: &R,
    alloc: Global,
    pairs: &[Pair],
    reads: u32,
) -> Result<Shared, NoMemory>
    requires pairs { length pairs.now ≤ pairs_limit }
    requires reads { reads ≤ reads_limit }
    // No read is torn: what was read was written as a pair, or is the first one.
    ensures whole { IfOk result (λ shared. All (λ read. All (λ pair. Contains (first_pair ∷ pairs.now) pair)
        read.items) shared.read.items) }
    // At each moment a task that waits for the latch leads to one that can continue.
    ensures no_deadlock { IfOk result (λ shared. HasNoLatchDeadlock shared.history.config shared.history.coming) }
    // Each task has released the latch in the end.
    ensures released { IfOk result (λ shared. AllReleased shared.history.config shared.history.coming) }
    ensures config { IfOk result (λ shared. shared.history.config ≡ cache_setup (length pairs.now) reads) }
    ensures legal { IfOk result (λ shared. Legal shared.history.config shared.history.coming) }
    ensures places { IfOk result (λ shared. All (λ e. e.place ≤ highest_place) shared.history.coming) }
{
    let rooms = rooms_for(alloc, reads)?;
    let config = configuration(alloc, pairs.len() as u32, reads)?;
    let (station, tasks) = Station::open(alloc, config)?;
    let work = Sharing { pairs, reads };
    let (tasks, read) = run_tasks(rt, alloc, &station, &work, tasks, rooms)?;
    let closed = station.close(tasks);
    Ok(Shared {
        read,
        history: closed.history,
    })
}
