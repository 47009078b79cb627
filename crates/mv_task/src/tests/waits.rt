//! What no clause says: how long a chain of exits may be, two threads that hand over to each other, and which tasks a post wakes;
//! and what `bench/run` times. Tables of calls with their answers are scripts, in mv_program.

ghost use Rattle.std.specs.Prelude.{◌≡◌, ◌<◌, ◌≤◌, ◌^◌, length};
ghost use Rattle.std.specs.List.{AllByRecursion};
ghost use Rattle.mv_calls.specs.Rest.{IsAtRest};
ghost use Rattle.mv_board.specs.Faces.{IsOf};

use super::{CODE, COMPLETE, ROUNDS, WAIT_BIT, Worker, assert_is_block, end, linger, open, setup};
use mv_machine::{Exit, replay};
use mv_wait::{PostAnswer, Station, Task, WaitSlot};
use std::alloc::{AllocError, Global};
use std::process::Abort;
use std::sync::Wait;
use std::thread::{Threads, join};
use std::time::Clock;

// ---- one task

// The exits of a chain of blocks, each of which posts the next.
fn chain(alloc: Global, exits: u32) -> Result<Vec<Exit>, AllocError>
    requires { exits ≤ 1000 }
{
    let mut list = Vec::new(alloc);
    for i in 0..exits {
        list.push(Exit {
            source: i,
            targets: vec![in alloc; i + 1]?,
        })?;
    }
    Ok(list)
}

// A new station of such a chain, whose blocks are the first task's.
fn open_chain(rt: &impl Abort, alloc: Global, exits: u32) -> (Station, Task, Task)
    requires { exits ≤ 1000 }
    ensures { IsOf result.0 result.1 × IsAtRest result.1.log }
{
    let owners = vec![in alloc; 0u32; exits as usize + 1].expect(rt, "room for owners");
    let exits = chain(alloc, exits).expect(rt, "room for exits");
    open(rt, alloc, 0, 4000, 0, owners, exits)
}

// Extends a block of the task's own with an exit.
#[tactic(auto, using(mv_wait::proofs::Compose::served))]
fn extend<R: Abort + Wait>(rt: &R, worker: &mut Worker<'_>, ecb: u32, exit: u32) {
    let station = worker.station;
    assert_is_block(station, rt, ecb);
    assert!(rt; worker.task.left() > 0);
    assert!(rt; station.extend(rt, &mut worker.task, ecb, exit).is_ok());
}

// Posts a chain of a thousand exits, by its first block.
fn post_chain<R: Abort + Wait>(rt: &R, worker: &mut Worker<'_>) {
    for i in 0..1000u32 {
        extend(rt, worker, i, i + 1);
    }
    assert!(rt; worker.post(rt, 0) == PostAnswer::Woke);
    // An extend of each block but the last, and the posts of all blocks.
    assert!(rt; worker.entries() == 2001);
}

#[test]
fn a_chain_of_a_thousand_exits_is_posted(rt: HostRuntime) {
    let (station, task, other) = open_chain(&rt, rt.alloc(), 1000);
    let mut worker = Worker::new(&station, task);
    post_chain(&rt, &mut worker);
    let task = worker.back();
    end(station, task, other);
}

// ---- two threads

// Posts the other task's block and waits for its own, `times` times.
fn hand_over<R: Abort + Wait + Clock>(
    rt: &R,
    worker: &mut Worker<'_>,
    own: u32,
    other: u32,
    times: u32,
) {
    for _ in 0..times {
        worker.post(rt, other);
        worker.await_post(rt, own, CODE);
    }
}

// Waits first, and is the last to post.
fn hand_back<R: Abort + Wait + Clock>(
    rt: &R,
    worker: &mut Worker<'_>,
    own: u32,
    other: u32,
    times: u32,
) {
    for _ in 0..times {
        worker.await_post(rt, own, CODE);
        worker.post(rt, other);
    }
}

// A new station of two tasks with these budgets, and one block for each task.
fn open_two(rt: &impl Abort, alloc: Global, first: u32, second: u32) -> (Station, Task, Task)
    ensures first { IsOf result.0 result.1 × IsAtRest result.1.log }
    ensures second { IsOf result.0 result.2 × IsAtRest result.2.log }
{
    let owners = vec![in alloc; 0, 1].expect(rt, "room for two owners");
    open(rt, alloc, 0, first, second, owners, Vec::new(alloc))
}

#[test]
fn two_threads_post_in_turn(rt: HostRuntime) {
    let (station, first, second) = open_two(&rt, rt.alloc(), 4 * ROUNDS, 4 * ROUNDS);
    let mut first = Worker::new(&station, first);
    let mut second = Worker::new(&station, second);
    join(
        &rt,
        || hand_over(&rt, &mut first, 0, 1, ROUNDS),
        || hand_back(&rt, &mut second, 1, 0, ROUNDS),
    );
    assert!(rt; first.entries() == 4 * ROUNDS as usize);
    assert!(rt; second.entries() == 4 * ROUNDS as usize);
    let (first, second) = (first.back(), second.back());
    end(station, first, second);
}

// ---- two threads and an exit

// Clears block 0, which is the task's own, and returns the word that it had.
#[tactic(auto, using(mv_wait::proofs::Compose::served))]
fn clear_own<R: Abort + Wait>(rt: &R, worker: &mut Worker<'_>) -> u32
    ensures { worker.new ≡ worker.old }
{
    let station = worker.station;
    assert_is_block(station, rt, 0);
    assert!(rt; worker.task.left() > 0);
    let Ok(word) = station.clear(rt, &mut worker.task, 0) else {
        panic!(rt; "the block is another's")
    };
    word
}

// Posts its own block 0, whose exit posts block 1, once the other task has parked for that one; then waits for block 2.
fn post_by_exit<R: Abort + Wait + Clock>(rt: &R, worker: &mut Worker<'_>, times: u32) {
    for _ in 0..times {
        extend(rt, worker, 0, 1);
        worker.await_bit(rt, 1, WAIT_BIT);
        linger();
        worker.post(rt, 0);
        clear_own(rt, worker);
        worker.await_post(rt, 2, CODE);
    }
}

// A new station of two tasks and three blocks; the exit of the first block posts the second.
fn open_exit(rt: &impl Abort, alloc: Global) -> (Station, Task, Task)
    ensures first { IsOf result.0 result.1 × IsAtRest result.1.log }
    ensures second { IsOf result.0 result.2 × IsAtRest result.2.log }
{
    let exit = Exit {
        source: 0,
        targets: vec![in alloc; 1].expect(rt, "room for a target"),
    };
    let exits = vec![in alloc; exit].expect(rt, "room for an exit");
    let owners = vec![in alloc; 0, 1, 0].expect(rt, "room for owners");
    open(rt, alloc, 0, 700, 400, owners, exits)
}

#[test]
fn a_post_wakes_whom_its_exit_posts(rt: HostRuntime) {
    let (station, first, second) = open_exit(&rt, rt.alloc());
    let mut first = Worker::new(&station, first);
    let mut second = Worker::new(&station, second);
    join(
        &rt,
        || post_by_exit(&rt, &mut first, 100),
        || hand_back(&rt, &mut second, 1, 2, 100),
    );
    let (first, second) = (first.back(), second.back());
    end(station, first, second);
}

// ---- three threads on one block

// A new station of three tasks with this budget each, and one block, of the first task.
fn open_three(rt: &impl Abort, alloc: Global, budget: u32) -> (Station, Task, Task, Task)
    ensures callers { result.0.config.callers ≡ 3 }
    ensures first { IsOf result.0 result.1 × (result.1.number ≡ 0) × IsAtRest result.1.log }
    ensures second { IsOf result.0 result.2 × (result.2.number ≡ 1) × IsAtRest result.2.log }
    ensures third { IsOf result.0 result.3 × (result.3.number ≡ 2) × IsAtRest result.3.log }
{
    let budgets = vec![in alloc; budget, budget, budget].expect(rt, "room for three budgets");
    let owners = vec![in alloc; 0].expect(rt, "room for an owner");
    let config = setup(rt, alloc, 0, budgets, owners, Vec::new(alloc));
    let (station, mut tasks) = Station::open(alloc, config).expect(rt, "memory for a station");
    let third = station.take_last(&mut tasks);
    let second = station.take_last(&mut tasks);
    let first = station.take_last(&mut tasks);
    (station, first, second, third)
}

// Whether this is a word that the block may have while other tasks clear it and post it with the code.
fn is_zero_or_posted(word: u32) -> bool {
    word == 0 || word == COMPLETE | CODE
}

// What each of three threads does to one block.
#[derive(Clone, Copy)]
enum Deed {
    Clear,
    Post,
    Test,
}

// Tests the block, and returns its word.
#[tactic(auto, using(mv_wait::proofs::Compose::served))]
fn test_once(rt: &impl Abort, worker: &mut Worker<'_>) -> u32
    ensures { worker.new ≡ worker.old }
{
    let station = worker.station;
    assert_is_block(station, rt, 0);
    assert!(rt; worker.task.left() > 0);
    station.test_ecb(&mut worker.task, 0)
}

// Does one deed.
fn act<R: Abort + Wait>(rt: &R, worker: &mut Worker<'_>, deed: Deed)
    ensures { worker.new ≡ worker.old }
{
    match deed {
        Deed::Clear => assert!(rt; is_zero_or_posted(clear_own(rt, worker))),
        Deed::Post => assert!(rt; worker.post(rt, 0) != PostAnswer::Woke),
        Deed::Test => assert!(rt; is_zero_or_posted(test_once(rt, worker))),
    }
}

// Does a deed `times` times.
fn act_often<R: Abort + Wait>(station: &Station, rt: &R, task: Task, deed: Deed, times: u32) -> Task
    requires task { IsOf station.now task }
    requires rest { IsAtRest task.log }
    ensures { IsOf station.now result × (result.number ≡ task.number) }
{
    let mut worker = Worker::new(station, task);
    for _ in 0..times {
        act(rt, &mut worker, deed);
    }
    worker.back()
}

// Posts the block, while another thread tests it.
fn post_beside_tests<R: Abort + Wait + Threads + Sync>(
    station: &Station,
    rt: &R,
    poster: Task,
    tester: Task,
) -> (Task, Task)
    requires poster { IsOf station.now poster × IsAtRest poster.log }
    requires tester { IsOf station.now tester × IsAtRest tester.log }
    ensures poster { IsOf station.now result.0 × (result.0.number ≡ poster.number) }
    ensures tester { IsOf station.now result.1 × (result.1.number ≡ tester.number) }
{
    join(
        rt,
        || act_often(station, rt, poster, Deed::Post, 10_000),
        || act_often(station, rt, tester, Deed::Test, 10_000),
    )
}

// Ends a station whose three tasks are back, judges that its history is legal, and returns how many events it has.
fn judge(
    rt: &impl Abort,
    alloc: Global,
    station: Station,
    first: Task,
    second: Task,
    third: Task,
) -> usize
    requires callers { station.config.callers ≡ 3 }
    requires first { IsOf station first × (first.number ≡ 0) }
    requires second { IsOf station second × (second.number ≡ 1) }
    requires third { IsOf station third × (third.number ≡ 2) }
{
    let tasks = vec![in alloc; first, second, third].expect(rt, "room for three tasks");
    let history = station.close(tasks).history;
    let Ok(listed) = history.listed(alloc) else {
        panic!(rt; "no memory for a list of events")
    };
    assert!(rt; replay(alloc, &listed.config, &listed.journal).is_ok());
    listed.journal.len()
}

#[test]
fn one_clears_one_posts_and_one_tests(rt: HostRuntime) {
    let (station, owner, poster, tester) = open_three(&rt, rt.alloc(), 10_000);
    let (owner, (poster, tester)) = join(
        &rt,
        || act_often(&station, &rt, owner, Deed::Clear, 10_000),
        || post_beside_tests(&station, &rt, poster, tester),
    );
    assert!(rt; judge(&rt, rt.alloc(), station, owner, poster, tester) == 30_000);
}

// ---- a wait for many blocks

// The first blocks, `blocks` of them.
fn first_blocks(rt: &impl Abort, alloc: Global, station: &Station, blocks: u32) -> Vec<u32>
    ensures { AllByRecursion (λ e. e < length station.now.config.owners) result.items }
{
    let mut ecbs = Vec::new(alloc);
    for ecb in 0..blocks {
        assert_is_block(station, rt, ecb);
        let Ok(()) = ecbs.push(ecb) else {
            panic!(rt; "no memory for the blocks")
        };
    }
    ecbs
}

// Waits until all of these blocks are complete.
#[tactic(auto, using(mv_wait::proofs::Compose::served))]
fn wait_for<R: Abort + Wait + Clock>(
    station: &Station,
    rt: &R,
    task: &mut Task,
    ecbs: &[u32],
    out: &mut [WaitSlot],
)
    requires task { IsOf station.now task.old }
    requires rest { IsAtRest task.old.log }
    requires blocks { AllByRecursion (λ e. e < length station.now.config.owners) ecbs.now }
    ensures task { IsOf station.now task.new }
    ensures rest { IsAtRest task.new.log }
    ensures number { task.new.number ≡ task.old.number }
{
    assert!(rt; out.len() == ecbs.len() && ecbs.len() < 65_536);
    assert!(rt; task.left() as usize >= 2 * ecbs.len());
    let waited = station.wait(rt, task, ecbs.len() as u32, ecbs, out);
    assert!(rt; waited.is_ok());
}

// Waits until all of the first `blocks` blocks are complete.
fn wait_for_all<R: Abort + Wait + Clock>(
    rt: &R,
    alloc: Global,
    worker: &mut Worker<'_>,
    blocks: u32,
) {
    let station = worker.station;
    let ecbs = first_blocks(rt, alloc, station, blocks);
    let mut out = vec![in alloc; WaitSlot::Open; ecbs.len()].expect(rt, "room for slots");
    wait_for(station, rt, &mut worker.task, &ecbs, &mut out);
}

// Posts each of the first `blocks` blocks.
fn post_each<R: Abort + Wait>(rt: &R, worker: &mut Worker<'_>, blocks: u32) {
    for ecb in 0..blocks {
        worker.post(rt, ecb);
    }
}

// One task waits for all of this many blocks, and another posts them one by one.
fn wait_for_many<R: Abort + Wait + Clock + Threads + Sync>(rt: &R, alloc: Global, blocks: u32)
    requires { blocks < 2 ^ 16 }
{
    let owners = vec![in alloc; 0u32; blocks as usize].expect(rt, "room for owners");
    let (station, first, second) = open(rt, alloc, 0, 2 * blocks, blocks, owners, Vec::new(alloc));
    let mut first = Worker::new(&station, first);
    let mut second = Worker::new(&station, second);
    join(
        rt,
        || wait_for_all(rt, alloc, &mut first, blocks),
        || post_each(rt, &mut second, blocks),
    );
    let (first, second) = (first.back(), second.back());
    end(station, first, second);
}

// `bench/run` times these two tests: the second is expected to take twice as long as the first.
#[test]
fn a_wait_for_five_thousand_blocks(rt: HostRuntime) {
    wait_for_many(&rt, rt.alloc(), 5_000);
}

#[test]
fn a_wait_for_ten_thousand_blocks(rt: HostRuntime) {
    wait_for_many(&rt, rt.alloc(), 10_000);
}

// ---- many events

// `bench/run` times this test: 500,000 events of one task, without contention.
#[test]
fn posts_and_waits_of_one_thread(rt: HostRuntime) {
    let (station, task, other) = open_two(&rt, rt.alloc(), 500_000, 0);
    let mut worker = Worker::new(&station, task);
    hand_over(&rt, &mut worker, 0, 0, 125_000);
    assert!(rt; worker.entries() == 500_000);
    let task = worker.back();
    end(station, task, other);
}
