//! The workers, and the manager. Clauses cite `specs/Setup.antt`, `specs/Permits.antt`, and definitions of mv_guarded
//! and mv_ordered.

ghost use Rattle.std.specs.Prelude.{◌≡◌, ◌<◌, ◌≤◌, ◌+◌, ◌*◌, ◌∷◌, ◌++◌, [], true, false, not, IfOk, IfSome, MatchOption, All};
ghost use Rattle.mv_wait.specs.Prelude.{Legal, highest_place};
ghost use Rattle.mv_wait.specs.Prelude.mode.{Exclusive};
ghost use Rattle.mv_ordered.specs.Held.{held, without};
ghost use Rattle.mv_ordered.specs.WaitChain.{HasNoLatchDeadlock};
ghost use Rattle.mv_guarded.specs.Guarded.{HoldsLatch, AllReleased};
ghost use Rattle.mv_permits.specs.Setup.{permits, tries_limit, pool_setup};
ghost use Rattle.mv_permits.specs.Permits.{IsPool, IsPooled, HasDone, IsBounded, IsCounted, HaveWorked, has_permit, given_back, one};

use mv_attach::{Work, run_tasks};
use mv_latchset::{LatchForm, LatchToken, Mode, Obtained, obtain, release_latch};
use mv_wait::{Config, History, NoMemory, Station, Task, ValidConfig, WaitSlot};
use std::alloc::Global;
use std::sync::Wait;
use std::thread::Threads;
use std::time::Clock;

/// How many workers there are: worker w is caller w, and the manager comes after them.
const WORKERS: u32 = 3;

/// How many permits they share.
const PERMITS: u32 = 2;

/// The volume that counts the permits that are out, and the latch that guards it.
const OUT: u32 = 0;

const LATCH: u32 = 0;

/// The blocks by which the workers call the manager. Those by which it lets them go on come after them.
const CALLS: [u32; WORKERS as usize] = [0, 1, 2];

/// What a worker calls the manager for: it waits for a permit, has given one back, or leaves.
const WANTS: u32 = 0;

const GAVE: u32 = 1;

const LEAVES: u32 = 2;

/// The outcome of a pool.
#[derive(Drop)]
pub struct Shared {
    /// How many shifts each worker worked, and zero for the manager.
    pub shifts: Vec<u32>,
    /// All events, as one legal history, with the configuration that it ran with.
    pub history: History,
}

fn configuration(alloc: Global, tries: u32) -> Result<ValidConfig, NoMemory>
    requires tries { tries ≤ tries_limit }
    ensures { IfOk result (λ config. config ≡ pool_setup tries) }
{
    let worker = 14 * tries + 1;
    let config = Config {
        callers: WORKERS + 1,
        elements_per_caller: 1,
        volumes: 1,
        latches: 1,
        quota: 1,
        posted_quota: 0,
        budgets: vec![in alloc; worker, worker, worker, 27 * tries + 27]?,
        owners: vec![in alloc; 3, 3, 3, 0, 1, 2]?,
        exits: Vec::new(alloc),
    };
    Ok(ValidConfig::of(alloc, config)?)
}

// ---- permits

// Obtains the latch exclusively. It is refused only if the request is purged, and that no task purges is known only after the run.
fn take_latch<R: Wait + Clock>(station: &Station, rt: &R, task: &mut Task) -> Option<LatchToken>
    requires ready { IsPooled station.now task.old }
    requires bare { held task.old.log ≡ [] }
    requires left { 2 ≤ task.old.left }
    ensures holds { IfSome result (λ token. HoldsLatch 0 Exclusive task.new.number task.new.log) }
    ensures token { IfSome result (λ token. token.latch ≡ 0) }
    ensures has { MatchOption result (held task.new.log ≡ []) (λ token. held task.new.log ≡ (0, token.id) ∷ []) }
    ensures permit { has_permit task.new.log ≡ has_permit task.old.log }
    ensures given { given_back task.new.log ≡ given_back task.old.log }
    ensures left { task.old.left ≤ task.new.left + 2 }
    ensures ready { IsPooled station.now task.new }
    ensures number { task.new.number ≡ task.old.number }
{
    let requestor = u64::from(task.number());
    let form = LatchForm::Waiting;
    let mode = Mode::Exclusive;
    let Ok(got) = obtain(station, rt, task, LATCH, requestor, mode, form) else {
        return None;
    };
    let Obtained::Granted(token) = got else {
        return None;
    };
    Some(token)
}

// Releases it.
fn put_latch<R: Wait>(station: &Station, rt: &R, task: &mut Task, token: LatchToken)
    requires token { token.latch ≡ 0 }
    requires has { held task.old.log ≡ (0, token.id) ∷ [] }
    requires ready { IsPooled station.now task.old }
    requires left { 1 ≤ task.old.left }
    ensures bare { held task.new.log ≡ [] }
    ensures permit { has_permit task.new.log ≡ has_permit task.old.log }
    ensures given { given_back task.new.log ≡ given_back task.old.log }
    ensures left { task.old.left ≤ task.new.left + 1 }
    ensures ready { IsPooled station.now task.new }
    ensures number { task.new.number ≡ task.old.number }
{
    let _ = release_latch(station, rt, task, token, false);
}

// Counts one permit more, if one is free.
fn count_up<R: Wait>(station: &Station, rt: &R, task: &mut Task) -> bool
    requires holds { HoldsLatch 0 Exclusive task.old.number task.old.log }
    requires none { has_permit task.old.log ≡ false }
    requires ready { IsPooled station.now task.old }
    requires left { 2 ≤ task.old.left }
    ensures permit { has_permit task.new.log ≡ result }
    ensures given { given_back task.new.log ≡ given_back task.old.log }
    ensures has { held task.new.log ≡ held task.old.log }
    ensures left { task.old.left ≤ task.new.left + 2 }
    ensures ready { IsPooled station.now task.new }
    ensures number { task.new.number ≡ task.old.number }
{
    let out = station.read_volume(task, OUT);
    if out >= PERMITS {
        return false;
    }
    station.write_volume(rt, task, OUT, out + 1);
    true
}

// Counts one permit less. That one is out is known only after the run.
fn count_down<R: Wait>(station: &Station, rt: &R, task: &mut Task) -> bool
    requires holds { HoldsLatch 0 Exclusive task.old.number task.old.log }
    requires has { has_permit task.old.log ≡ true }
    requires ready { IsPooled station.now task.old }
    requires left { 2 ≤ task.old.left }
    ensures permit { has_permit task.new.log ≡ not result }
    ensures given { given_back task.new.log ≡ given_back task.old.log + one result }
    ensures has { held task.new.log ≡ held task.old.log }
    ensures left { task.old.left ≤ task.new.left + 2 }
    ensures ready { IsPooled station.now task.new }
    ensures number { task.new.number ≡ task.old.number }
{
    let out = station.read_volume(task, OUT);
    if out == 0 {
        return false;
    }
    station.write_volume(rt, task, OUT, out - 1);
    true
}

// Takes a permit, if one is free.
fn take_permit<R: Wait + Clock>(station: &Station, rt: &R, task: &mut Task) -> bool
    requires none { has_permit task.old.log ≡ false }
    requires ready { IsPooled station.now task.old }
    requires bare { held task.old.log ≡ [] }
    requires left { 5 ≤ task.old.left }
    ensures permit { has_permit task.new.log ≡ result }
    ensures given { given_back task.new.log ≡ given_back task.old.log }
    ensures bare { held task.new.log ≡ [] }
    ensures left { task.old.left ≤ task.new.left + 5 }
    ensures ready { IsPooled station.now task.new }
    ensures number { task.new.number ≡ task.old.number }
{
    let Some(token) = take_latch(station, rt, task) else {
        return false;
    };
    let got = count_up(station, rt, task);
    put_latch(station, rt, task, token);
    got
}

// Gives the permit back. Returns whether that was done.
fn give_permit<R: Wait + Clock>(station: &Station, rt: &R, task: &mut Task) -> bool
    requires has { has_permit task.old.log ≡ true }
    requires ready { IsPooled station.now task.old }
    requires bare { held task.old.log ≡ [] }
    requires left { 5 ≤ task.old.left }
    ensures permit { has_permit task.new.log ≡ not result }
    ensures given { given_back task.new.log ≡ given_back task.old.log + one result }
    ensures bare { held task.new.log ≡ [] }
    ensures left { task.old.left ≤ task.new.left + 5 }
    ensures ready { IsPooled station.now task.new }
    ensures number { task.new.number ≡ task.old.number }
{
    let Some(token) = take_latch(station, rt, task) else {
        return false;
    };
    let gave = count_down(station, rt, task);
    put_latch(station, rt, task, token);
    gave
}

// ---- calls

// Posts a block.
fn tell<R: Wait>(station: &Station, rt: &R, task: &mut Task, block: u32, code: u32)
    requires block { block < 6 }
    requires code { code < 3 }
    requires ready { IsPooled station.now task.old }
    requires left { 1 ≤ task.old.left }
    ensures permit { has_permit task.new.log ≡ has_permit task.old.log }
    ensures given { given_back task.new.log ≡ given_back task.old.log }
    ensures has { held task.new.log ≡ held task.old.log }
    ensures left { task.old.left ≤ task.new.left + 1 }
    ensures ready { IsPooled station.now task.new }
    ensures number { task.new.number ≡ task.old.number }
{
    station.post(rt, task, block, code);
}

// Waits until the manager lets this worker go on.
fn await_go<R: Wait + Clock>(station: &Station, rt: &R, task: &mut Task)
    requires worker { task.old.number < 3 }
    requires ready { IsPooled station.now task.old }
    requires bare { held task.old.log ≡ [] }
    requires left { 3 ≤ task.old.left }
    ensures permit { has_permit task.new.log ≡ has_permit task.old.log }
    ensures given { given_back task.new.log ≡ given_back task.old.log }
    ensures bare { held task.new.log ≡ [] }
    ensures left { task.old.left ≤ task.new.left + 3 }
    ensures ready { IsPooled station.now task.new }
    ensures number { task.new.number ≡ task.old.number }
{
    let block = WORKERS + task.number();
    station.wait_one(rt, task, block);
    let _ = station.clear(rt, task, block);
}

// Calls the manager, and waits for its answer.
fn call<R: Wait + Clock>(station: &Station, rt: &R, task: &mut Task, code: u32)
    requires worker { task.old.number < 3 }
    requires code { code < 3 }
    requires ready { IsPooled station.now task.old }
    requires bare { held task.old.log ≡ [] }
    requires left { 4 ≤ task.old.left }
    ensures permit { has_permit task.new.log ≡ has_permit task.old.log }
    ensures given { given_back task.new.log ≡ given_back task.old.log }
    ensures bare { held task.new.log ≡ [] }
    ensures left { task.old.left ≤ task.new.left + 4 }
    ensures ready { IsPooled station.now task.new }
    ensures number { task.new.number ≡ task.old.number }
{
    let worker = task.number();
    tell(station, rt, task, worker, code);
    await_go(station, rt, task);
}

// ---- a worker

// Tries once to work a shift, and waits if no permit is free. Returns whether it worked, or nothing if the permit was not given back.
fn try_shift<R: Wait + Clock>(station: &Station, rt: &R, task: &mut Task) -> Option<bool>
    requires worker { task.old.number < 3 }
    requires none { has_permit task.old.log ≡ false }
    requires ready { IsPooled station.now task.old }
    requires bare { held task.old.log ≡ [] }
    requires left { 14 ≤ task.old.left }
    ensures none { IfSome result (λ worked. has_permit task.new.log ≡ false) }
    ensures given { MatchOption result (given_back task.new.log ≡ given_back task.old.log)
        (λ worked. given_back task.new.log ≡ given_back task.old.log + one worked) }
    ensures bare { held task.new.log ≡ [] }
    ensures left { task.old.left ≤ task.new.left + 14 }
    ensures ready { IsPooled station.now task.new }
    ensures number { task.new.number ≡ task.old.number }
{
    if !take_permit(station, rt, task) {
        call(station, rt, task, WANTS);
        return Some(false);
    }
    // Here the worker works.
    if !give_permit(station, rt, task) {
        return None;
    }
    call(station, rt, task, GAVE);
    Some(true)
}

// Works `shifts` shifts by at most `tries` tries. Returns how many it worked.
fn work_shifts<R: Wait + Clock>(
    station: &Station,
    rt: &R,
    task: &mut Task,
    shifts: u32,
    tries: u32,
) -> u32
    requires worker { task.old.number < 3 }
    requires none { has_permit task.old.log ≡ false }
    requires ready { IsPooled station.now task.old }
    requires bare { held task.old.log ≡ [] }
    requires left { 14 * tries + 1 ≤ task.old.left }
    ensures given { given_back task.new.log ≡ given_back task.old.log + result }
    ensures bare { held task.new.log ≡ [] }
    ensures ready { IsPooled station.now task.new }
    ensures number { task.new.number ≡ task.old.number }
{
    let worker = task.number();
    let mut worked = 0;
    for tried in 0..tries {
        if worked < shifts {
            match try_shift(station, rt, task) {
                Some(true) => worked += 1,
                Some(false) => {}
                None => {
                    tell(station, rt, task, worker, LEAVES);
                    return worked;
                }
            }
        }
    }
    tell(station, rt, task, worker, LEAVES);
    worked
}

// ---- the manager

// The first worker that has called, and what for.
fn first_call(found: &[WaitSlot; WORKERS as usize]) -> Option<(u32, u32)>
    ensures { IfSome result (λ call. call.0 < 3) }
{
    match found {
        [WaitSlot::Complete(code), _, _] => Some((0, *code)),
        [_, WaitSlot::Complete(code), _] => Some((1, *code)),
        [_, _, WaitSlot::Complete(code)] => Some((2, *code)),
        _ => None,
    }
}

// Waits for the next call, and takes it.
fn next_call<R: Wait + Clock>(station: &Station, rt: &R, task: &mut Task) -> Option<(u32, u32)>
    requires ready { IsPooled station.now task.old }
    requires bare { held task.old.log ≡ [] }
    requires left { 7 ≤ task.old.left }
    ensures call { IfSome result (λ call. call.0 < 3) }
    ensures bare { held task.new.log ≡ [] }
    ensures left { task.old.left ≤ task.new.left + 7 }
    ensures ready { IsPooled station.now task.new }
    ensures number { task.new.number ≡ task.old.number }
{
    let mut found = [WaitSlot::Open; WORKERS as usize];
    // The blocks are the manager's, each is listed once, and none is extended, so the wait is not refused; the proof does not need that.
    if station.wait(rt, task, 1, &CALLS, &mut found).is_err() {
        return None;
    }
    let next = first_call(&found)?;
    let _ = station.clear(rt, task, next.0);
    Some(next)
}

// Lets a worker go on.
fn let_go<R: Wait>(station: &Station, rt: &R, task: &mut Task, worker: u32)
    requires worker { worker < 3 }
    requires ready { IsPooled station.now task.old }
    requires left { 1 ≤ task.old.left }
    ensures has { held task.new.log ≡ held task.old.log }
    ensures left { task.old.left ≤ task.new.left + 1 }
    ensures ready { IsPooled station.now task.new }
    ensures number { task.new.number ≡ task.old.number }
{
    tell(station, rt, task, WORKERS + worker, 0);
}

// Takes the first worker that waits for a permit off the list of those that do.
fn first_waiting(waiting: &mut [bool; WORKERS as usize]) -> Option<u32>
    ensures { IfSome result (λ worker. worker < 3) }
{
    for worker in 0..WORKERS {
        if waiting[worker as usize] {
            waiting[worker as usize] = false;
            return Some(worker);
        }
    }
    None
}

// Answers a call that a permit was given back: its worker goes on, and so does one that waits for a permit.
fn answer_gave<R: Wait>(
    station: &Station,
    rt: &R,
    task: &mut Task,
    waiting: &mut [bool; WORKERS as usize],
    worker: u32,
)
    requires worker { worker < 3 }
    requires ready { IsPooled station.now task.old }
    requires left { 2 ≤ task.old.left }
    ensures has { held task.new.log ≡ held task.old.log }
    ensures left { task.old.left ≤ task.new.left + 2 }
    ensures ready { IsPooled station.now task.new }
    ensures number { task.new.number ≡ task.old.number }
{
    let_go(station, rt, task, worker);
    if let Some(next) = first_waiting(waiting) {
        let_go(station, rt, task, next);
    }
}

// Answers a call for a permit: the worker tries again if one is free by now; otherwise it waits until one is given back.
fn answer_wants<R: Wait>(
    station: &Station,
    rt: &R,
    task: &mut Task,
    waiting: &mut [bool; WORKERS as usize],
    worker: u32,
)
    requires worker { worker < 3 }
    requires ready { IsPooled station.now task.old }
    requires left { 2 ≤ task.old.left }
    ensures has { held task.new.log ≡ held task.old.log }
    ensures left { task.old.left ≤ task.new.left + 2 }
    ensures ready { IsPooled station.now task.new }
    ensures number { task.new.number ≡ task.old.number }
{
    if is_free(station, task) {
        let_go(station, rt, task, worker);
    } else {
        waiting[worker as usize] = true;
    }
}

// Whether a permit is free at this moment.
fn is_free(station: &Station, task: &mut Task) -> bool
    requires ready { IsPooled station.now task.old }
    requires left { 1 ≤ task.old.left }
    ensures has { held task.new.log ≡ held task.old.log }
    ensures left { task.old.left ≤ task.new.left + 1 }
    ensures ready { IsPooled station.now task.new }
    ensures number { task.new.number ≡ task.old.number }
{
    station.read_volume(task, OUT) < PERMITS
}

// Answers calls, this many at most, until all workers have left.
fn manage<R: Wait + Clock>(station: &Station, rt: &R, task: &mut Task, calls: u32)
    requires ready { IsPooled station.now task.old }
    requires bare { held task.old.log ≡ [] }
    requires left { 9 * calls ≤ task.old.left }
    ensures bare { held task.new.log ≡ [] }
    ensures ready { IsPooled station.now task.new }
    ensures number { task.new.number ≡ task.old.number }
{
    let mut waiting = [false; WORKERS as usize];
    let mut staying = WORKERS;
    for made in 0..calls {
        let Some((worker, code)) = next_call(station, rt, task) else {
            return;
        };
        match code {
            WANTS => answer_wants(station, rt, task, &mut waiting, worker),
            GAVE => answer_gave(station, rt, task, &mut waiting, worker),
            _ => staying = staying.saturating_sub(1),
        }
        if staying == 0 {
            return;
        }
    }
}

// ---- all

// What the tasks do: each worker works its shifts, and the manager answers its calls.
#[derive(Drop)]
struct Pool {
    shifts: u32,
    tries: u32,
}

impl Work for Pool {
    type Room = u32;

    ghost can_start = { λ p b k room. IsPool b p.tries };

    ghost has_done = { λ p b k old t new. HasDone k t.log new };

    #[tactic(auto, using(mv_ordered::proofs::Calls::new_keeps_discipline))]
    fn work<R: Wait + Clock>(&self, station: &Station, rt: &R, task: &mut Task, shifts: &mut u32) {
        if task.number() < WORKERS {
            *shifts = work_shifts(station, rt, task, self.shifts, self.tries);
        } else {
            manage(station, rt, task, 3 * self.tries + 3);
        }
    }
}

/// Has three workers work `shifts` shifts each, each shift under one of two permits, by at most `tries` tries for a permit, and returns
/// how many shifts each of them worked, and all events.
///
/// # Errors
///
/// `NoMemory` if memory runs out, before the tasks start.
pub fn share<R: Threads + Wait + Clock + Sync>(
    rt: &R,
    alloc: Global,
    shifts: u32,
    tries: u32,
) -> Result<Shared, NoMemory>
    requires tries { tries ≤ tries_limit }
    // At no moment do more tasks have a permit than there are permits.
    ensures bounded { IfOk result (λ shared. IsBounded shared.history.coming) }
    // At each moment the volume has the number of the tasks with a permit.
    ensures counted { IfOk result (λ shared. IsCounted shared.history.config shared.history.coming) }
    // Each worker took a permit and gave it back once for each of its shifts.
    ensures worked { IfOk result (λ shared. HaveWorked shared.history.coming shared.shifts.items) }
    // At each moment a task that waits for the latch leads to one that can continue.
    ensures no_deadlock { IfOk result (λ shared. HasNoLatchDeadlock shared.history.config shared.history.coming) }
    // Each task has released the latch in the end.
    ensures released { IfOk result (λ shared. AllReleased shared.history.config shared.history.coming) }
    ensures config { IfOk result (λ shared. shared.history.config ≡ pool_setup tries) }
    ensures legal { IfOk result (λ shared. Legal shared.history.config shared.history.coming) }
    ensures places { IfOk result (λ shared. All (λ e. e.place ≤ highest_place) shared.history.coming) }
{
    let rooms = vec![in alloc; 0, 0, 0, 0]?;
    let config = configuration(alloc, tries)?;
    let (station, tasks) = Station::open(alloc, config)?;
    let pool = Pool { shifts, tries };
    let (tasks, shifts) = run_tasks(rt, alloc, &station, &pool, tasks, rooms)?;
    let closed = station.close(tasks);
    Ok(Shared {
        shifts,
        history: closed.history,
    })
}
