//! The philosophers. Clauses cite `specs/Setup.antt` and `specs/Dining.antt`, and definitions of mv_ordered and mv_guarded.

ghost use Rattle.std.specs.Prelude.{◌≡◌, ◌<◌, ◌≤◌, ◌+◌, ◌*◌, ◌++◌, ◌∷◌, [], IfOk, IfSome, MatchOption, All};
ghost use Rattle.mv_wait.specs.Prelude.{Legal, highest_place};
ghost use Rattle.mv_ordered.specs.Held.{held, without};
ghost use Rattle.mv_ordered.specs.WaitChain.{HasNoLatchDeadlock};
ghost use Rattle.mv_guarded.specs.Guarded.{AllReleased};
ghost use Rattle.mv_dining.specs.Setup.{meals_limit, dining_setup};
ghost use Rattle.mv_dining.specs.Dining.{AreLower, IsDining, IsTable, HasDined, NoForkIsShared};

use mv_attach::{Work, run_tasks};
use mv_latchset::{LatchForm, LatchToken, Mode, Obtained, obtain, release_latch};
use mv_wait::{Config, History, NoMemory, Station, Task, ValidConfig};
use std::alloc::Global;
use std::sync::Wait;
use std::thread::Threads;
use std::time::Clock;

/// How many philosophers there are, and forks, which are latches: philosopher k has fork k at its left.
const PHILOSOPHERS: u32 = 4;

// A meal is at most six events: each of two forks is obtained by at most two and released by one.
fn configuration(alloc: Global, meals: u32) -> Result<ValidConfig, NoMemory>
    requires meals { meals ≤ meals_limit }
    ensures { IfOk result (λ config. config ≡ dining_setup meals) }
{
    let config = Config {
        callers: PHILOSOPHERS,
        elements_per_caller: 1,
        volumes: 1,
        latches: PHILOSOPHERS,
        quota: 2,
        posted_quota: 0,
        budgets: vec![in alloc; 6 * meals, 6 * meals, 6 * meals, 6 * meals]?,
        owners: Vec::new(alloc),
        exits: Vec::new(alloc),
    };
    Ok(ValidConfig::of(alloc, config)?)
}

// Takes a fork that is above each fork that the philosopher has.
fn take_fork<R: Wait + Clock>(
    station: &Station,
    rt: &R,
    task: &mut Task,
    fork: u32,
) -> Option<LatchToken>
    requires fork { fork < 4 }
    requires above { AreLower fork (held task.old.log) }
    requires ready { IsDining station.now task.old }
    requires left { 2 ≤ task.old.left }
    ensures token { IfSome result (λ token. token.latch ≡ fork) }
    ensures has { MatchOption result (held task.new.log ≡ held task.old.log)
        (λ token. held task.new.log ≡ held task.old.log ++ (fork, token.id) ∷ []) }
    ensures left { task.old.left ≤ task.new.left + 2 }
    ensures ready { IsDining station.now task.new }
    ensures number { task.new.number ≡ task.old.number }
{
    let requestor = u64::from(task.number());
    let form = LatchForm::Waiting;
    let mode = Mode::Exclusive;
    let Ok(got) = obtain(station, rt, task, fork, requestor, mode, form) else {
        return None;
    };
    let Obtained::Granted(token) = got else {
        return None;
    };
    Some(token)
}

// Puts a fork back.
fn put_fork<R: Wait>(station: &Station, rt: &R, task: &mut Task, token: LatchToken)
    requires token { token.latch < 4 }
    requires ready { IsDining station.now task.old }
    requires left { 1 ≤ task.old.left }
    ensures has { held task.new.log ≡ without token.latch token.id (held task.old.log) }
    ensures left { task.old.left ≤ task.new.left + 1 }
    ensures ready { IsDining station.now task.new }
    ensures number { task.new.number ≡ task.old.number }
{
    let _ = release_latch(station, rt, task, token, false);
}

// Has a meal: takes both forks, the lower one first, and puts them back. An obtain is refused only if its request is purged, and no
// philosopher purges any.
fn eat<R: Wait + Clock>(station: &Station, rt: &R, task: &mut Task)
    requires ready { IsDining station.now task.old }
    requires left { 6 ≤ task.old.left }
    requires none { held task.old.log ≡ [] }
    ensures none { held task.new.log ≡ [] }
    ensures left { task.old.left ≤ task.new.left + 6 }
    ensures ready { IsDining station.now task.new }
    ensures number { task.new.number ≡ task.old.number }
{
    let left = task.number();
    let right = (left + 1) % PHILOSOPHERS;
    let low = left.min(right);
    let high = left.max(right);
    let Some(first) = take_fork(station, rt, task, low) else {
        return;
    };
    if let Some(second) = take_fork(station, rt, task, high) {
        put_fork(station, rt, task, second);
    }
    put_fork(station, rt, task, first);
}

// Has this many meals.
fn eat_all<R: Wait + Clock>(station: &Station, rt: &R, task: &mut Task, meals: u32)
    requires ready { IsDining station.now task.old }
    requires left { 6 * meals ≤ task.old.left }
    requires none { held task.old.log ≡ [] }
    ensures none { held task.new.log ≡ [] }
    ensures ready { IsDining station.now task.new }
    ensures number { task.new.number ≡ task.old.number }
{
    for had in 0..meals {
        eat(station, rt, task);
    }
}

// What each task does: it has this many meals.
#[derive(Drop)]
struct Dining(u32);

impl Work for Dining {
    type Room = ();

    ghost can_start = { λ d b k room. IsTable b d.0 };

    ghost has_done = { λ d b k old t new. HasDined t.log };

    fn work<R: Wait + Clock>(&self, station: &Station, rt: &R, task: &mut Task, _room: &mut ()) {
        eat_all(station, rt, task, self.0);
    }
}

/// Has four philosophers eat this many meals each, each on a thread of its own, and returns what happened.
///
/// # Errors
///
/// `NoMemory` if memory runs out, before the tasks start.
pub fn dine<R: Threads + Wait + Clock + Sync>(
    rt: &R,
    alloc: Global,
    meals: u32,
) -> Result<History, NoMemory>
    requires meals { meals ≤ meals_limit }
    // No fork has two holders at any moment.
    ensures apart { IfOk result (λ history. NoForkIsShared history.config history.coming) }
    // At each moment a philosopher that waits for a fork leads to one that can continue.
    ensures no_deadlock { IfOk result (λ history. HasNoLatchDeadlock history.config history.coming) }
    // Each philosopher has put its forks back in the end.
    ensures released { IfOk result (λ history. AllReleased history.config history.coming) }
    ensures config { IfOk result (λ history. history.config ≡ dining_setup meals) }
    ensures legal { IfOk result (λ history. Legal history.config history.coming) }
    ensures places { IfOk result (λ history. All (λ e. e.place ≤ highest_place) history.coming) }
{
    let rooms = vec![in alloc; (), (), (), ()]?;
    let config = configuration(alloc, meals)?;
    let (station, tasks) = Station::open(alloc, config)?;
    let (tasks, _rooms) = run_tasks(rt, alloc, &station, &Dining(meals), tasks, rooms)?;
    let closed = station.close(tasks);
    Ok(closed.history)
}
