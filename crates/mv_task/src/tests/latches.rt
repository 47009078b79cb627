//! What no clause says: the key of a token, and two threads of which one waits for what the other holds; and the rounds that
//! `bench/run` times. Tables of calls with their answers are scripts, in mv_program.

ghost use Rattle.std.specs.Prelude.{◌≡◌, ◌≤◌, IfSome};
ghost use Rattle.mv_latch.specs.Request.{posted_ecb};
ghost use Rattle.mv_calls.specs.Rest.{IsAtRest};
ghost use Rattle.mv_board.specs.Faces.{IsOf};

use super::{CODE, COMPLETION_BIT, Worker, assert_is_block, end, open};
use mv_latch::{LatchForm, Mode};
use mv_latchset::{LatchToken, ObtainRefusal, Obtained, obtain, purge, release_latch};
use mv_machine::replay;
use mv_wait::{Station, Task};
use std::alloc::Global;
use std::process::Abort;
use std::sync::Wait;
use std::thread::{self, Threads, join};
use std::time::{Clock, Duration};

// A new station of two tasks with this posted quota and these budgets, and one block, of the second task.
fn open_two(
    rt: &impl Abort,
    alloc: Global,
    posted_quota: u32,
    first: u32,
    second: u32,
) -> (Station, Task, Task)
    ensures callers { result.0.config.callers ≡ 2 }
    ensures first { IsOf result.0 result.1 × (result.1.number ≡ 0) × IsAtRest result.1.log }
    ensures second { IsOf result.0 result.2 × (result.2.number ≡ 1) × IsAtRest result.2.log }
{
    let owners = vec![in alloc; 1].expect(rt, "room for an owner");
    open(
        rt,
        alloc,
        posted_quota,
        first,
        second,
        owners,
        Vec::new(alloc),
    )
}

// ---- the calls

// Makes an exclusive request for a latch, for this requestor.
#[tactic(auto, using(mv_wait::proofs::Compose::served, mv_latchset::proofs::Obtains::few_events))]
fn ask<R: Abort + Wait + Clock>(
    rt: &R,
    worker: &mut Worker<'_>,
    latch: u32,
    requestor: u64,
    form: LatchForm,
) -> Result<Obtained, ObtainRefusal>
    requires { IfSome (posted_ecb form) (λ e. e ≡ 0) }
    ensures { worker.new ≡ worker.old }
{
    let station = worker.station;
    assert_is_block(station, rt, 0);
    assert!(rt; worker.task.left() >= 2);
    let mode = Mode::Exclusive;
    obtain(station, rt, &mut worker.task, latch, requestor, mode, form)
}

// Takes a latch exclusively, for this requestor. If the request's grant is to be posted, the task waits for that post.
fn take<R: Abort + Wait + Clock>(
    rt: &R,
    worker: &mut Worker<'_>,
    latch: u32,
    requestor: u64,
    form: LatchForm,
) -> LatchToken
    requires { IfSome (posted_ecb form) (λ e. e ≡ 0) }
    ensures { worker.new ≡ worker.old }
{
    match ask(rt, worker, latch, requestor, form) {
        Ok(Obtained::Granted(token)) => token,
        Ok(Obtained::Pending(token)) => {
            worker.await_post(rt, 0, 0);
            token
        }
        Err(_) => panic!(rt; "refused"),
    }
}

// Gives a latch back.
#[tactic(auto, using(mv_wait::proofs::Compose::served))]
fn give_back<R: Abort + Wait>(rt: &R, worker: &mut Worker<'_>, token: LatchToken)
    ensures { worker.new ≡ worker.old }
{
    let station = worker.station;
    assert!(rt; station.config().has_latch(token.latch));
    assert!(rt; station.config().release_cost() <= worker.task.left());
    assert!(rt; release_latch(station, rt, &mut worker.task, token, false).is_ok());
}

// ---- one task

// Takes two latches, gives one of them back and takes a third: each token has the key of its request's record.
fn take_three<R: Abort + Wait + Clock>(rt: &R, worker: &mut Worker<'_>) {
    let first = take(rt, worker, 0, 1, LatchForm::Conditional);
    let second = take(rt, worker, 1, 1, LatchForm::Conditional);
    assert!(rt; (first.key, second.key) == (0, 1));
    give_back(rt, worker, first);
    // The record that was given back is used again, for a request of another number.
    let third = take(rt, worker, 2, 1, LatchForm::Conditional);
    assert!(rt; (third.id, third.key) == (3, 0));
    let task = &worker.task;
    let keys = [task.key(first.id), task.key(second.id), task.key(third.id)];
    assert!(rt; keys == [None, Some(1), Some(0)]);
}

#[test]
fn a_token_has_the_key_of_its_record(rt: HostRuntime) {
    let (station, task, other) = open_two(&rt, rt.alloc(), 0, 100, 0);
    let mut worker = Worker::new(&station, task);
    take_three(&rt, &mut worker);
    let task = worker.back();
    end(station, task, other);
}

// ---- two threads

// Purges requestor 9, and returns whether one of its requests was taken out.
#[tactic(auto, using(mv_wait::proofs::Compose::served))]
fn purge_once<R: Abort + Wait>(rt: &R, worker: &mut Worker<'_>) -> bool {
    let station = worker.station;
    assert!(rt; station.config().release_cost() <= worker.task.left());
    purge(station, rt, &mut worker.task, 9).removed == 1
}

// Purges requestor 9 until one of its requests was taken out, at most 200,000 times, and returns whether one was.
fn purge_often<R: Abort + Wait>(rt: &R, worker: &mut Worker<'_>) -> bool {
    for _ in 0..200_000u32 {
        if purge_once(rt, worker) {
            return true;
        }
        thread::yield_now();
    }
    false
}

// Waits until the block was seen complete, purges requestor 9, and then gives back the latch that it holds.
fn hold_until_a_purge<R: Abort + Wait>(rt: &R, worker: &mut Worker<'_>, held: LatchToken) {
    worker.await_bit(rt, 0, COMPLETION_BIT);
    assert!(rt; purge_often(rt, worker));
    give_back(rt, worker, held);
}

// Posts the block, and then waits for the latch, for which its request is purged.
fn obtain_behind_a_post<R: Abort + Wait + Clock>(rt: &R, worker: &mut Worker<'_>) {
    worker.post(rt, 0);
    let obtained = ask(rt, worker, 0, 9, LatchForm::Waiting);
    assert!(rt; obtained == Err(ObtainRefusal::Purged));
}

#[test]
fn a_request_is_purged_while_its_task_waits(rt: HostRuntime) {
    let (station, holder, waiter) = open_two(&rt, rt.alloc(), 0, 200_100, 100);
    let mut holder = Worker::new(&station, holder);
    let mut waiter = Worker::new(&station, waiter);
    let held = take(&rt, &mut holder, 0, 1, LatchForm::Conditional);
    join(
        &rt,
        || hold_until_a_purge(&rt, &mut holder, held),
        || obtain_behind_a_post(&rt, &mut waiter),
    );
    let (holder, waiter) = (holder.back(), waiter.back());
    end(station, holder, waiter);
}

// Waits for a post of the block, gives the other task the time to park, and then gives back the latch that it holds.
fn hold_until_the_other_parks<R: Abort + Wait + Clock>(
    rt: &R,
    worker: &mut Worker<'_>,
    held: LatchToken,
) {
    worker.await_post(rt, 0, CODE);
    thread::sleep(rt, Duration::from_millis(50));
    give_back(rt, worker, held);
}

// Posts the block, waits for the latch and gives it back.
fn take_after_a_post<R: Abort + Wait + Clock>(rt: &R, worker: &mut Worker<'_>) {
    worker.post(rt, 0);
    let token = take(rt, worker, 0, 9, LatchForm::Waiting);
    give_back(rt, worker, token);
}

#[test]
fn a_task_that_parked_for_a_latch_is_woken_at_its_grant(rt: HostRuntime) {
    let (station, waiter, holder) = open_two(&rt, rt.alloc(), 0, 100, 100);
    let mut holder = Worker::new(&station, holder);
    let mut waiter = Worker::new(&station, waiter);
    let held = take(&rt, &mut holder, 0, 1, LatchForm::Conditional);
    join(
        &rt,
        || hold_until_the_other_parks(&rt, &mut holder, held),
        || take_after_a_post(&rt, &mut waiter),
    );
    let (waiter, holder) = (waiter.back(), holder.back());
    end(station, waiter, holder);
}

// Takes latch 0 and gives it back, `times` times.
fn take_often<R: Abort + Wait + Clock>(
    station: &Station,
    rt: &R,
    task: Task,
    requestor: u64,
    form: LatchForm,
    times: u32,
) -> Task
    requires task { IsOf station.now task }
    requires rest { IsAtRest task.log }
    requires form { IfSome (posted_ecb form) (λ e. e ≡ 0) }
    ensures { IsOf station.now result × (result.number ≡ task.number) }
{
    let mut worker = Worker::new(station, task);
    for _ in 0..times {
        let token = take(rt, &mut worker, 0, requestor, form);
        give_back(rt, &mut worker, token);
    }
    worker.back()
}

// Tries to take latch 0, and gives it back if it was granted.
fn try_once<R: Abort + Wait + Clock>(rt: &R, worker: &mut Worker<'_>, requestor: u64)
    ensures { worker.new ≡ worker.old }
{
    match ask(rt, worker, 0, requestor, LatchForm::Conditional) {
        Ok(Obtained::Granted(token)) => give_back(rt, worker, token),
        Err(ObtainRefusal::NotNow(_)) => {}
        _ => panic!(rt; "neither granted nor refused"),
    }
}

// Tries to take latch 0 `times` times.
fn try_often<R: Abort + Wait + Clock>(
    station: &Station,
    rt: &R,
    task: Task,
    requestor: u64,
    times: u32,
) -> Task
    requires task { IsOf station.now task }
    requires rest { IsAtRest task.log }
    ensures { IsOf station.now result × (result.number ≡ task.number) }
{
    let mut worker = Worker::new(station, task);
    for _ in 0..times {
        try_once(rt, &mut worker, requestor);
    }
    worker.back()
}

// Ends a station whose two tasks are back, judges that its history is legal, and returns how many events it has.
fn judge(rt: &impl Abort, alloc: Global, station: Station, first: Task, second: Task) -> usize
    requires callers { station.config.callers ≡ 2 }
    requires first { IsOf station first × (first.number ≡ 0) }
    requires second { IsOf station second × (second.number ≡ 1) }
{
    let tasks = vec![in alloc; first, second].expect(rt, "room for two tasks");
    let history = station.close(tasks).history;
    let Ok(listed) = history.listed(alloc) else {
        panic!(rt; "no memory for a list of events")
    };
    assert!(rt; replay(alloc, &listed.config, &listed.journal).is_ok());
    listed.journal.len()
}

// Two threads try to take one latch.
#[test]
fn two_threads_contend_for_one_latch(rt: HostRuntime) {
    let (station, first, second) = open_two(&rt, rt.alloc(), 0, 2100, 2100);
    let (first, second) = join(
        &rt,
        || try_often(&station, &rt, first, 1, 1000),
        || try_often(&station, &rt, second, 2, 1000),
    );
    let entries = first.log().len() + second.log().len();
    assert!(rt; entries > 2000);
    assert!(rt; judge(&rt, rt.alloc(), station, first, second) == entries);
}

// Two threads take one latch `times` times each, the second one by requests of this form.
fn contend<R: Abort + Wait + Clock + Threads + Sync>(
    rt: &R,
    alloc: Global,
    form: LatchForm,
    times: u32,
) -> (Station, Task, Task)
    requires form { IfSome (posted_ecb form) (λ e. e ≡ 0) }
    requires times { times ≤ 10000 }
    ensures callers { result.0.config.callers ≡ 2 }
    ensures first { IsOf result.0 result.1 × (result.1.number ≡ 0) }
    ensures second { IsOf result.0 result.2 × (result.2.number ≡ 1) }
{
    let budget = 5 * times + 100;
    let (station, first, second) = open_two(rt, alloc, 1, budget, budget);
    let (first, second) = join(
        rt,
        || take_often(&station, rt, first, 1, LatchForm::Waiting, times),
        || take_often(&station, rt, second, 2, form, times),
    );
    (station, first, second)
}

#[test]
fn one_task_takes_a_latch_beside_one_that_is_posted_for_it(rt: HostRuntime) {
    let (station, first, second) = contend(&rt, rt.alloc(), LatchForm::Posted(0), 1000);
    judge(&rt, rt.alloc(), station, first, second);
}

// ---- what bench/run times

// Takes a free latch and gives it back, with two events each time.
#[test]
fn a_free_latch_is_taken_and_given_back(rt: HostRuntime) {
    let (station, task, other) = open_two(&rt, rt.alloc(), 0, 50_010, 0);
    let task = take_often(&station, &rt, task, 1, LatchForm::Waiting, 25_000);
    assert!(rt; task.log().len() == 50_000);
    end(station, task, other);
}

#[test]
fn two_threads_take_one_latch(rt: HostRuntime) {
    let (station, first, second) = contend(&rt, rt.alloc(), LatchForm::Waiting, 10_000);
    end(station, first, second);
}
