//! What no clause says: that each call can be polled if there is ample memory, that a future registers and does not yield, and
//! rows that were worked out by hand. A test stops if memory runs out: an early return that drops its tasks would be most of its
//! proof.

ghost use Rattle.std.specs.Prelude.{◌≡◌, ◌<◌, ◌≤◌, ◌*◌, true, false, length, MatchOption};
ghost use Rattle.std.specs.List.{AllByRecursion};
ghost use Rattle.mv_config.specs.Setup.{element_count};
ghost use Rattle.mv_calls.specs.Rest.{IsAtRest};
ghost use Rattle.mv_board.specs.Faces.{CallerFace, IsOf, AreFresh};
ghost use Rattle.mv_polled.specs.Obtaining.{IsObtainAt};
ghost use Rattle.mv_polled.specs.Pausing.{IsPauseAt};
ghost use Rattle.mv_polled.specs.Waiting.{IsWaitAt};

use futures::executor::block_on;
use futures::task::Source;
use futures::test::MockTask;
use mv_ecb::EcbOp;
use mv_element::{ElementOp, Token};
use mv_latch::Mode;
use mv_latchset::{LatchToken, Obtained, release_latch};
use mv_machine::{Config, Op};
use mv_pause::{Given, allocate, release};
use mv_polled::{ObtainCall, PauseCall, PauseFuture, Turn, WaitCall, WaitFuture, rung};
use mv_wait::{Station, Task, WaitSlot};
use std::alloc::{AllocGlobal, Global};
use std::process::Abort;
use std::random::RandomSource;
use std::sync::Wait;

// The key of the first task's element, which is element 0.
const ELEMENT: u64 = 4_294_967_296;

// A new station with eight tasks of one element each, blocks of these owners and one latch; and its tasks.
pub(crate) fn open(rt: &impl Abort, alloc: Global, owners: Vec<u32>) -> (Station, Vec<Task>)
    ensures blocks { length result.0.config.owners ≡ length owners.items }
    ensures elements { element_count result.0.config ≡ 8 }
    ensures latches { result.0.config.latches ≡ 1 }
    ensures callers { result.0.config.callers ≡ 8 }
    ensures tasks { AreFresh result.0 0 result.1.items × (length result.1.items ≡ 8) }
{
    let config = Config {
        callers: 8,
        elements_per_caller: 1,
        volumes: 1,
        latches: 1,
        quota: 1,
        posted_quota: 0,
        budgets: vec![in alloc; 100; 8].expect(rt, "room for budgets"),
        owners,
        exits: Vec::new(alloc),
    };
    let config = config.check(alloc).expect(rt, "a configuration");
    Station::open(alloc, config).expect(rt, "memory for a station")
}

// A new station that has blocks of these owners, its other tasks, its last task, and the one before that.
fn open_two(rt: &impl Abort, alloc: Global, owners: Vec<u32>) -> (Station, Vec<Task>, Task, Task)
    ensures blocks { length result.0.config.owners ≡ length owners.items }
    ensures elements { element_count result.0.config ≡ 8 }
    ensures latches { result.0.config.latches ≡ 1 }
    ensures first { IsOf result.0 result.2 × IsAtRest result.2.log }
    ensures second { IsOf result.0 result.3 × IsAtRest result.3.log }
{
    let (station, mut tasks) = open(rt, alloc, owners);
    let first = station.take_last(&mut tasks);
    let second = station.take_last(&mut tasks);
    (station, tasks, first, second)
}

// A new station without blocks, and its first and its last task.
fn open_first(rt: &impl Abort, alloc: Global) -> (Station, Task, Task)
    ensures elements { element_count result.0.config ≡ 8 }
    ensures first { IsOf result.0 result.1 × IsAtRest result.1.log }
    ensures second { IsOf result.0 result.2 × IsAtRest result.2.log }
{
    let (station, mut tasks) = open(rt, alloc, Vec::new(alloc));
    let last = station.take_last(&mut tasks);
    for _i in 0..6_u32 {
        let _other = station.take_last(&mut tasks);
    }
    let first = station.take_last(&mut tasks);
    (station, first, last)
}

// Drops a station and its tasks. A test that dropped them itself would take many times as long to prove.
fn end(_station: Station, _tasks: Vec<Task>, _first: Task, _second: Task) {}

// Each entry of a task has the operation in its row, and rings the key in it.
fn assert_made<R: Abort>(rt: &R, task: &Task, made: &[(Op, Option<u64>)]) {
    let log = task.log();
    assert!(rt; log.len() == made.len());
    for at in 0..made.len() {
        let entry = log.get(at).expect(rt, "an entry");
        assert!(rt; (entry.op, rung(&entry)) == made[at]);
    }
}

// ---- waits

// Posts a block, for a task at rest that is asserted to have the event for it.
#[tactic(auto, using(mv_wait::proofs::Compose::served))]
pub(crate) fn post<R: Abort + Wait>(station: &Station, rt: &R, task: &mut Task, ecb: u32, code: u32)
    requires task { IsOf station.now task.old }
    requires rest { IsAtRest task.old.log }
    requires block { ecb < length station.now.config.owners }
    requires code { code < 100 }
    ensures task { IsOf station.now task.new }
    ensures rest { IsAtRest task.new.log }
    ensures number { task.new.number ≡ task.old.number }
{
    assert!(rt; task.left() >= station.config().reach(ecb));
    station.post(rt, task, ecb, code);
}

// A wait that this task may poll.
pub(crate) fn a_wait(
    rt: &impl Abort,
    alloc: Global,
    station: &Station,
    task: &Task,
    count: u32,
    ecbs: &[u32],
) -> WaitCall
    requires rest { IsAtRest task.now.log }
    requires blocks { AllByRecursion (λ e. e < length station.now.config.owners) ecbs.now }
    requires left { 2 * length ecbs.now ≤ task.now.left }
    ensures count { length result.ecbs ≡ length ecbs.now }
    ensures stage { (t0 : CallerFace) × IsWaitAt station.now.config result t0 task.now }
{
    let _config = station.config();
    match WaitCall::new(alloc, count, ecbs) {
        Ok(call) => call,
        Err(_) => panic!(rt; "no memory for a wait"),
    }
}

// Polls a wait, and returns whether it is over.
pub(crate) fn is_over<R: Wait>(
    station: &Station,
    rt: &R,
    task: &mut Task,
    call: &mut WaitCall,
) -> bool
    requires task { IsOf station.now task.old }
    requires stage { (t0 : CallerFace) × IsWaitAt station.now.config call.old t0 task.old }
    ensures task { IsOf station.now task.new }
    ensures over { result ≡ true → IsAtRest task.new.log }
    ensures stage { result ≡ false → (t0 : CallerFace) × IsWaitAt station.now.config call.new t0 task.new }
{
    match call.poll(station, rt, task) {
        Turn::Ready(_) => true,
        Turn::Pending => false,
    }
}

// A wait for two of three blocks, of which one is posted before its first poll and one after it.
fn wait_for_two<R: Abort + Wait + AllocGlobal>(
    station: &Station,
    rt: &R,
    waiter: &mut Task,
    poster: &mut Task,
)
    requires waiter { IsOf station.now waiter.old }
    requires poster { IsOf station.now poster.old }
    requires rest { IsAtRest waiter.old.log × IsAtRest poster.old.log }
    requires blocks { length station.now.config.owners ≡ 3 }
{
    assert!(rt; waiter.left() >= 6);
    let mut call = a_wait(rt, rt.alloc(), station, waiter, 2, &[0, 1, 2]);
    post(station, rt, poster, 0, 5);
    assert!(rt; !is_over(station, rt, waiter, &mut call));
    assert!(rt; call.keys() == [1, 2].as_slice());
    assert!(rt; call.slots().is_empty() && waiter.log().len() == 3);
    post(station, rt, poster, 2, 7);
    assert!(rt; is_over(station, rt, waiter, &mut call));
    let found = [WaitSlot::Complete(5), WaitSlot::Open, WaitSlot::Complete(7)];
    assert!(rt; call.slots() == found.as_slice() && call.keys().is_empty());
}

// The entries that the two tasks made of this.
fn assert_waited<R: Abort>(rt: &R, waiter: &Task, poster: &Task) {
    let posts = [
        (Op::Ecb(EcbOp::Post(5)), Some(0)),
        (Op::Ecb(EcbOp::Post(7)), Some(2)),
    ];
    assert_made(rt, poster, &posts);
    let arm = (Op::Ecb(EcbOp::Arm), None);
    let settle = (Op::Ecb(EcbOp::Settle), None);
    assert_made(rt, waiter, &[arm, arm, arm, settle, settle, settle]);
}

#[test]
fn a_wait_for_two_of_three(rt: HostRuntime) {
    let owners = vec![in rt.alloc(); 7; 3].expect(&rt, "room for owners");
    let (station, tasks, mut waiter, mut poster) = open_two(&rt, rt.alloc(), owners);
    wait_for_two(&station, &rt, &mut waiter, &mut poster);
    assert_waited(&rt, &waiter, &poster);
    end(station, tasks, waiter, poster);
}

// ---- pauses

pub(crate) fn token(element: u32, generation: u32) -> Token
    ensures { result ≡ record { element = element; generation = generation } }
{
    Token {
        element,
        generation,
    }
}

// A pause that the first task, at rest, may poll: it has allocated its element.
#[tactic(auto, using(mv_wait::proofs::Compose::served))]
fn a_pause<R: Abort + Wait>(station: &Station, rt: &R, task: &mut Task) -> PauseCall
    requires task { IsOf station.now task.old }
    requires rest { IsAtRest task.old.log }
    requires elements { element_count station.now.config ≡ 8 }
    ensures task { IsOf station.now task.new }
    ensures stage { (t0 : CallerFace) × IsPauseAt station.now.config result t0 task.new }
{
    assert!(rt; task.left() > 0);
    assert!(rt; allocate(station, rt, task).is_ok());
    assert!(rt; task.left() >= 2);
    PauseCall::new(token(0, 0))
}

// Polls a pause, and returns what it was given once it is over.
pub(crate) fn given<R: Abort + Wait>(
    station: &Station,
    rt: &R,
    task: &mut Task,
    call: &mut PauseCall,
) -> Option<Given>
    requires task { IsOf station.now task.old }
    requires stage { (t0 : CallerFace) × IsPauseAt station.now.config call.old t0 task.old }
    ensures task { IsOf station.now task.new }
    ensures stage { MatchOption result ((t0 : CallerFace) × IsPauseAt station.now.config call.new t0 task.new)
        (λ _. IsAtRest task.new.log) }
{
    match call.poll(station, rt, task) {
        Turn::Ready(answer) => Some(answer.expect(rt, "it is refused")),
        Turn::Pending => None,
    }
}

// Releases a token with a code.
#[tactic(auto, using(mv_wait::proofs::Compose::served))]
pub(crate) fn release_to<R: Abort + Wait>(
    station: &Station,
    rt: &R,
    task: &mut Task,
    token: Token,
    code: u32,
)
    requires task { IsOf station.now task.old }
    requires rest { IsAtRest task.old.log }
    requires elements { element_count station.now.config ≡ 8 }
    ensures task { IsOf station.now task.new }
    ensures rest { IsAtRest task.new.log }
    ensures number { task.new.number ≡ task.old.number }
{
    assert!(rt; token.element < 8 && code < 10 && task.left() > 0);
    assert!(rt; release(station, rt, task, token, code).is_ok());
}

// A pause whose token is released after its first poll.
fn pause_for_nine<R: Abort + Wait>(station: &Station, rt: &R, first: &mut Task, second: &mut Task)
    requires first { IsOf station.now first.old }
    requires second { IsOf station.now second.old }
    requires rest { IsAtRest first.old.log × IsAtRest second.old.log }
    requires elements { element_count station.now.config ≡ 8 }
{
    let mut call = a_pause(station, rt, first);
    assert!(rt; given(station, rt, first, &mut call).is_none());
    assert!(rt; call.key() == ELEMENT);
    release_to(station, rt, second, token(0, 0), 9);
    let next = token(0, 1);
    assert!(rt; given(station, rt, first, &mut call) == Some(Given { code: 9, next }));
}

// The entries that the two tasks made of this.
fn assert_paused<R: Abort>(rt: &R, first: &Task, second: &Task) {
    let made = [
        (Op::Element(ElementOp::Open), None),
        (Op::Element(ElementOp::Pause(0)), None),
        (Op::Element(ElementOp::Resume(0)), None),
    ];
    assert_made(rt, first, &made);
    let woke = (Op::Element(ElementOp::Release(0, 9)), Some(ELEMENT));
    assert_made(rt, second, &[woke]);
}

#[test]
fn a_pause_goes_on_once_it_is_released(rt: HostRuntime) {
    let (station, mut first, mut second) = open_first(&rt, rt.alloc());
    pause_for_nine(&station, &rt, &mut first, &mut second);
    assert_paused(&rt, &first, &second);
    end(station, Vec::new(rt.alloc()), first, second);
}

// ---- obtains

// A request for the latch that this task may poll.
fn an_obtain(station: &Station, task: &Task) -> ObtainCall
    requires rest { IsAtRest task.now.log }
    requires left { 2 ≤ task.now.left }
    ensures { (t0 : CallerFace) × IsObtainAt station.now.config result t0 task.now }
{
    let _config = station.config();
    ObtainCall::new(0, 1 + u64::from(task.number()), Mode::Exclusive)
}

// Polls a request, and returns its token once it is granted.
fn granted<R: Abort + Wait>(
    station: &Station,
    rt: &R,
    task: &mut Task,
    call: &mut ObtainCall,
) -> Option<LatchToken>
    requires task { IsOf station.now task.old }
    requires stage { (t0 : CallerFace) × IsObtainAt station.now.config call.old t0 task.old }
    ensures task { IsOf station.now task.new }
    ensures stage { MatchOption result ((t0 : CallerFace) × IsObtainAt station.now.config call.new t0 task.new)
        (λ _. IsAtRest task.new.log) }
{
    match call.poll(station, rt, task) {
        Turn::Ready(Ok(Obtained::Granted(token))) => Some(token),
        Turn::Ready(_) => panic!(rt; "it is not granted"),
        Turn::Pending => None,
    }
}

// An obtain by one task while another holds the latch, which gives it back after two polls.
fn obtain_behind<R: Abort + Wait>(
    station: &Station,
    rt: &R,
    first: &mut Task,
    second: &mut Task,
    mut holding: ObtainCall,
    mut waiting: ObtainCall,
)
    requires first { IsOf station.now first.old }
    requires second { IsOf station.now second.old }
    requires latches { station.now.config.latches ≡ 1 }
    requires holding { (t0 : CallerFace) × IsObtainAt station.now.config holding t0 first.old }
    requires waiting { (t0 : CallerFace) × IsObtainAt station.now.config waiting t0 second.old }
{
    let Some(held) = granted(station, rt, first, &mut holding) else {
        panic!(rt; "the latch is not free")
    };
    assert!(rt; granted(station, rt, second, &mut waiting).is_none());
    assert!(rt; granted(station, rt, second, &mut waiting).is_none());
    assert!(rt; second.log().len() == 1);
    assert!(rt; held.latch == 0 && first.left() >= station.config().release_cost());
    assert!(rt; release_latch(station, rt, first, held, false).is_ok());
    assert!(rt; granted(station, rt, second, &mut waiting).is_some());
    assert!(rt; second.log().len() == 2);
}

#[test]
fn an_obtain_goes_on_once_it_is_granted(rt: HostRuntime) {
    let (station, tasks, mut first, mut second) = open_two(&rt, rt.alloc(), Vec::new(rt.alloc()));
    assert!(rt; first.left() >= 2 && second.left() >= 2);
    let holding = an_obtain(&station, &first);
    let waiting = an_obtain(&station, &second);
    obtain_behind(&station, &rt, &mut first, &mut second, holding, waiting);
    end(station, tasks, first, second);
}

// ---- futures

// Two tasks poll the future of a wait for block 0, one after the other. Another key wakes neither, and its own key wakes the
// second.
fn ring_a_wait<R>(station: &Station, rt: &R, waiter: &mut Task)
where
    R: Abort + Wait + RandomSource + AllocGlobal,
    requires waiter { IsOf station.now waiter.old }
    requires rest { IsAtRest waiter.old.log }
    requires one { length station.now.config.owners ≡ 1 }
{
    let first = MockTask::new(rt).expect(rt, "a task of the test's");
    let second = MockTask::new(rt).expect(rt, "another task of the test's");
    assert!(rt; waiter.left() >= 2);
    let call = a_wait(rt, rt.alloc(), station, waiter, 1, &[0]);
    let sources = [Source::new()];
    let mut future = WaitFuture::new(station, rt, waiter, call, &sources);
    assert!(rt; first.poll(&mut future).is_pending() && !first.is_woken());
    assert!(rt; second.poll(&mut future).is_pending());
    assert!(rt; future.call().keys() == [0].as_slice());
    future.ring(1);
    assert!(rt; !second.is_woken());
    future.ring(0);
    assert!(rt; second.is_woken());
}

#[test]
fn a_future_of_a_wait_registers_and_does_not_yield(rt: HostRuntime) {
    let owners = vec![in rt.alloc(); 7; 1].expect(&rt, "room for an owner");
    let (station, tasks, mut waiter, other) = open_two(&rt, rt.alloc(), owners);
    ring_a_wait(&station, &rt, &mut waiter);
    end(station, tasks, waiter, other);
}

// Polls the future of a pause, and rings another key, and then its own.
fn ring_a_pause<R>(station: &Station, rt: &R, first: &mut Task, call: PauseCall)
where
    R: Abort + Wait + RandomSource + AllocGlobal,
    requires first { IsOf station.now first.old }
    requires stage { (t0 : CallerFace) × IsPauseAt station.now.config call t0 first.old }
{
    let task = MockTask::new(rt).expect(rt, "a task of the test's");
    let source = Source::new();
    let mut future = PauseFuture::new(station, rt, first, call, &source);
    assert!(rt; task.poll(&mut future).is_pending() && !task.is_woken());
    assert!(rt; future.call().key() == ELEMENT);
    future.ring(0);
    assert!(rt; !task.is_woken());
    future.ring(ELEMENT);
    assert!(rt; task.is_woken());
}

#[test]
fn a_future_of_a_pause_registers_and_does_not_yield(rt: HostRuntime) {
    let (station, mut first, second) = open_first(&rt, rt.alloc());
    let call = a_pause(&station, &rt, &mut first);
    ring_a_pause(&station, &rt, &mut first, call);
    end(station, Vec::new(rt.alloc()), first, second);
}

// The future of a wait for block 0 is over at its first poll. An executor that needed a ring to poll it again would sleep for
// ever.
fn end_at_once<R>(station: &Station, rt: &R, waiter: &mut Task)
where
    R: Abort + Wait + RandomSource + AllocGlobal,
    requires waiter { IsOf station.now waiter.old }
    requires rest { IsAtRest waiter.old.log }
    requires one { length station.now.config.owners ≡ 1 }
{
    assert!(rt; waiter.left() >= 2);
    let call = a_wait(rt, rt.alloc(), station, waiter, 1, &[0]);
    let sources = [Source::new()];
    let future = WaitFuture::new(station, rt, waiter, call, &sources);
    let answer = block_on(rt, future);
    assert!(rt; matches!(answer, Ok(Ok(_))));
}

#[test]
fn a_block_that_was_posted_ends_a_wait_at_once(rt: HostRuntime) {
    let owners = vec![in rt.alloc(); 7; 1].expect(&rt, "room for an owner");
    let (station, tasks, mut waiter, mut poster) = open_two(&rt, rt.alloc(), owners);
    post(&station, &rt, &mut poster, 0, 5);
    end_at_once(&station, &rt, &mut waiter);
    end(station, tasks, waiter, poster);
}

// Polls the future of a wait for one of two blocks: it registers with both and does not yield, and is over once one is posted.
fn poll_one_of_two<R>(station: &Station, rt: &R, waiter: &mut Task, poster: &mut Task)
where
    R: Abort + Wait + RandomSource + AllocGlobal,
    requires waiter { IsOf station.now waiter.old }
    requires poster { IsOf station.now poster.old }
    requires rest { IsAtRest waiter.old.log × IsAtRest poster.old.log }
    requires two { length station.now.config.owners ≡ 2 }
{
    let task = MockTask::new(rt).expect(rt, "a task of the test's");
    assert!(rt; waiter.left() >= 4);
    let call = a_wait(rt, rt.alloc(), station, waiter, 1, &[0, 1]);
    let sources = [Source::new(), Source::new()];
    let mut future = WaitFuture::new(station, rt, waiter, call, &sources);
    assert!(rt; task.poll(&mut future).is_pending() && !task.is_woken());
    assert!(rt; future.call().keys() == [0, 1].as_slice());
    post(station, rt, poster, 1, 5);
    future.ring(1);
    assert!(rt; task.is_woken());
    assert!(rt; task.poll(&mut future).is_ready());
    let found = [WaitSlot::Open, WaitSlot::Complete(5)];
    assert!(rt; future.call().slots() == found.as_slice());
}

#[test]
fn a_future_of_a_wait_for_one_of_two_is_over_by_the_second(rt: HostRuntime) {
    let owners = vec![in rt.alloc(); 7; 2].expect(&rt, "room for owners");
    let (station, tasks, mut waiter, mut poster) = open_two(&rt, rt.alloc(), owners);
    poll_one_of_two(&station, &rt, &mut waiter, &mut poster);
    end(station, tasks, waiter, poster);
}

// Polls the future of a wait for two of three blocks, of which first the first and then the last is posted.
fn poll_two_of_three<R>(station: &Station, rt: &R, waiter: &mut Task, poster: &mut Task)
where
    R: Abort + Wait + RandomSource + AllocGlobal,
    requires waiter { IsOf station.now waiter.old }
    requires poster { IsOf station.now poster.old }
    requires rest { IsAtRest waiter.old.log × IsAtRest poster.old.log }
    requires three { length station.now.config.owners ≡ 3 }
{
    let task = MockTask::new(rt).expect(rt, "a task of the test's");
    assert!(rt; waiter.left() >= 6);
    let call = a_wait(rt, rt.alloc(), station, waiter, 2, &[0, 1, 2]);
    let sources = [Source::new(), Source::new(), Source::new()];
    let mut future = WaitFuture::new(station, rt, waiter, call, &sources);
    assert!(rt; task.poll(&mut future).is_pending());
    post(station, rt, poster, 0, 5);
    future.ring(0);
    assert!(rt; task.is_woken() && task.poll(&mut future).is_pending());
    assert!(rt; future.call().keys() == [1, 2].as_slice() && !task.is_woken());
    post(station, rt, poster, 2, 7);
    future.ring(2);
    assert!(rt; task.is_woken() && task.poll(&mut future).is_ready());
    let found = [WaitSlot::Complete(5), WaitSlot::Open, WaitSlot::Complete(7)];
    assert!(rt; future.call().slots() == found.as_slice());
}

#[test]
fn a_future_of_a_wait_for_two_of_three(rt: HostRuntime) {
    let owners = vec![in rt.alloc(); 7; 3].expect(&rt, "room for owners");
    let (station, tasks, mut waiter, mut poster) = open_two(&rt, rt.alloc(), owners);
    poll_two_of_three(&station, &rt, &mut waiter, &mut poster);
    assert_waited(&rt, &waiter, &poster);
    end(station, tasks, waiter, poster);
}
