//! Tests of boards, of waits and posts, of pauses, of latches, and of objects as one thread has them. They test the crates below,
//! and are here because a crate with tests is proved twice. A test stops if memory runs out: an early return that drops its tasks
//! would be most of its proof.

ghost use Rattle.std.specs.Prelude.{◌≡◌, ◌<◌, ◌≤◌, false, length};
ghost use Rattle.mv_config.specs.Setup.{owner_of};
ghost use Rattle.mv_calls.specs.Keeping.{kept_of};
ghost use Rattle.mv_calls.specs.Rest.{IsAtRest};
ghost use Rattle.mv_board.specs.Faces.{IsOf};

use mv_machine::{Config, Exit, Object, ValidConfig};
use mv_wait::{PostAnswer, Station, Task};
use std::alloc::Global;
use std::marker::Model;
use std::process::Abort;
use std::sync::Wait;
use std::time::Clock;
use std::{hint, thread};

mod boards;
mod latches;
mod objects;
mod pauses;
mod waits;

// How often two threads hand over to each other and back. `bench/run` times them beside their twins.
const ROUNDS: u32 = 10_000;

// The numbers of the wait bit and of the completion bit in a block's word.
const WAIT_BIT: u32 = 31;

const COMPLETION_BIT: u32 = 30;

const COMPLETE: u32 = 1 << COMPLETION_BIT;

// The code of each post and release.
const CODE: u32 = 7;

// Takes longer than a task spins and yields before it parks.
fn linger() {
    for _ in 0..20_000u32 {
        hint::spin_loop();
    }
}

// A configuration of tasks with this posted quota and these budgets, two elements each, eight latches, blocks of these owners,
// and these exits.
fn setup(
    rt: &impl Abort,
    alloc: Global,
    posted_quota: u32,
    budgets: Vec<u32>,
    owners: Vec<u32>,
    exits: Vec<Exit>,
) -> ValidConfig
    requires { length budgets.items ≤ 16 }
    ensures { result.callers ≡ length budgets.items }
{
    let config = Config {
        callers: budgets.len() as u32,
        elements_per_caller: 2,
        volumes: 1,
        latches: 8,
        quota: 8,
        posted_quota,
        budgets,
        owners,
        exits,
    };
    config.check(alloc).expect(rt, "a configuration")
}

// A new station of such a configuration for two tasks, and these tasks.
fn open(
    rt: &impl Abort,
    alloc: Global,
    posted_quota: u32,
    first: u32,
    second: u32,
    owners: Vec<u32>,
    exits: Vec<Exit>,
) -> (Station, Task, Task)
    ensures callers { result.0.config.callers ≡ 2 }
    ensures first { IsOf result.0 result.1 × (result.1.number ≡ 0) × IsAtRest result.1.log }
    ensures second { IsOf result.0 result.2 × (result.2.number ≡ 1) × IsAtRest result.2.log }
{
    let budgets = vec![in alloc; first, second].expect(rt, "room for two budgets");
    let config = setup(rt, alloc, posted_quota, budgets, owners, exits);
    let (station, mut tasks) = Station::open(alloc, config).expect(rt, "memory for a station");
    let second = station.take_last(&mut tasks);
    let first = station.take_last(&mut tasks);
    (station, first, second)
}

// Drops a station and its tasks. A test that dropped them itself would take many times as long to prove.
fn end(_station: Station, _first: Task, _second: Task) {}

// A task at rest, with its station: what each call requires.
#[derive(Drop)]
struct Worker<'a> {
    station: &'a Station,
    task: Task,
}

impl<'a> Model for Worker<'a> {
    ghost use Rattle.std.specs.Prelude.{ℕ};
    ghost use Rattle.mv_board.specs.Faces.{BoardFace, IsOf};
    ghost use Rattle.mv_calls.specs.Rest.{IsAtRest};

    ghost Value = { BoardFace × ℕ };

    ghost view = { λ w. (w.station.now, w.task.number) };

    ghost invariant = { λ w. IsOf w.station.now w.task × IsAtRest w.task.log };
}

// Stops the test if there is no such block.
fn assert_is_block(station: &Station, rt: &impl Abort, ecb: u32)
    ensures { ecb < length station.now.config.owners }
{
    assert!(rt; station.config().has_ecb(ecb));
}

// Stops the test if the task cannot wait for this block and clear it.
fn assert_may_wait(station: &Station, rt: &impl Abort, task: &Task, ecb: u32)
    requires { IsOf station.now task.now }
    ensures exists { ecb < length station.now.config.owners }
    ensures own { owner_of station.now.config ecb ≡ task.now.number }
    ensures plain { (kept_of task.now.number task.now.log).extended ecb ≡ false }
    ensures left { 3 ≤ task.now.left }
{
    assert_is_block(station, rt, ecb);
    assert!(rt; station.config().ecb_owner(ecb) == task.number());
    assert!(rt; !task.extended(ecb));
    assert!(rt; task.left() >= 3);
}

impl<'a> Worker<'a> {
    fn new(station: &'a Station, task: Task) -> Worker<'a>
        requires task { IsOf station.now task }
        requires rest { IsAtRest task.log }
        ensures { result ≡ (station.now, task.number) }
    {
        Worker { station, task }
    }

    // How many entries the worker's task has.
    fn entries(&self) -> usize {
        self.task.log().len()
    }

    // Gives the worker's task back.
    fn back(self) -> Task
        ensures { IsOf self.entry.0 result × (result.number ≡ self.entry.1) }
    {
        let Worker { station: _, task } = self;
        task
    }

    // Posts a block.
    #[tactic(auto, using(mv_wait::proofs::Compose::served))]
    fn post<R: Abort + Wait>(&mut self, rt: &R, ecb: u32) -> PostAnswer
        ensures { self.new ≡ self.old }
    {
        let station = self.station;
        assert_is_block(station, rt, ecb);
        assert!(rt; station.config().reach(ecb) <= self.task.left());
        station.post(rt, &mut self.task, ecb, CODE)
    }

    // Whether this bit of a block's word is set.
    fn has_bit(&mut self, rt: &impl Abort, ecb: u32, bit: u32) -> bool
        requires { bit < 64 }
    {
        let station = self.station;
        assert_is_block(station, rt, ecb);
        (station.look(&mut self.task, Object::Ecb(ecb)) >> bit) % 2 == 1
    }

    // Looks at a block until this bit of its word is set.
    fn await_bit<R: Abort + Wait>(&mut self, rt: &R, ecb: u32, bit: u32)
        requires { bit < 64 }
    {
        for _ in rt.forever() {
            if self.has_bit(rt, ecb, bit) {
                return;
            }
            thread::yield_now();
        }
    }

    // Waits for a block of the task's own until it is posted with this code, and clears it.
    #[tactic(auto, using(mv_wait::proofs::Compose::served))]
    fn await_post<R: Abort + Wait + Clock>(&mut self, rt: &R, ecb: u32, code: u32)
        ensures { self.new ≡ self.old }
    {
        let station = self.station;
        assert_may_wait(station, rt, &self.task, ecb);
        let found = station.wait_one(rt, &mut self.task, ecb);
        let cleared = station.clear(rt, &mut self.task, ecb);
        assert!(rt; found == code && cleared == Ok(COMPLETE | code));
    }
}
