//! What no clause says: two threads of which one wakes the other; and the hand-offs that `bench/run` times. There are also worked
//! rows of an exchange that is refused because of the state, which no script shows. Tables of calls with their answers are
//! scripts, in mv_program.

ghost use Rattle.std.specs.Prelude.{◌≡◌, ◌<◌};
ghost use Rattle.mv_element.specs.Table.{release_limit};
ghost use Rattle.mv_config.specs.Limits.{highest_generation};
ghost use Rattle.mv_config.specs.Setup.{element_count};
ghost use Rattle.mv_calls.specs.Rest.{IsAtRest};
ghost use Rattle.mv_board.specs.Faces.{IsOf};
ghost use Rattle.mv_pause.specs.Releasing.{HasNoPause};

use super::{CODE, ROUNDS, Worker, end, linger, open};
use mv_element::{ElementOp, Phase, Token};
use mv_machine::{Object, Op, WordState, unpack};
use mv_pause::{
    Given, ReleaseAnswer, ReleaseRefusal, TryReleaseRefusal, allocate, pause, release, transfer,
    try_release,
};
use mv_wait::{Station, Task};
use std::alloc::Global;
use std::process::Abort;
use std::sync::Wait;
use std::thread::{self, join};
use std::time::Clock;

// A new station of two tasks with this budget. Elements 0 and 1 are the first task's, 2 and 3 the second one's.
fn open_two(rt: &impl Abort, alloc: Global, budget: u32) -> (Station, Task, Task)
    ensures first { IsOf result.0 result.1 × IsAtRest result.1.log }
    ensures second { IsOf result.0 result.2 × IsAtRest result.2.log }
{
    open(
        rt,
        alloc,
        0,
        budget,
        budget,
        Vec::new(alloc),
        Vec::new(alloc),
    )
}

// A worker whose task has allocated its first element, which is this one.
#[tactic(auto, using(mv_wait::proofs::Compose::served))]
fn begin<'a, R: Abort + Wait>(
    station: &'a Station,
    rt: &R,
    mut task: Task,
    element: u32,
) -> Worker<'a>
    requires task { IsOf station.now task }
    requires rest { IsAtRest task.log }
{
    assert!(rt; task.left() > 0);
    assert!(rt; allocate(station, rt, &mut task) == Ok(token(element, 0)));
    Worker { station, task }
}

fn token(element: u32, generation: u32) -> Token
    ensures { (result.element ≡ element) × (result.generation ≡ generation) }
{
    Token {
        element,
        generation,
    }
}

// What a pause with this token is given.
fn given(element: u32, generation: u32) -> Given
    requires { generation < highest_generation }
{
    Given {
        code: CODE,
        next: token(element, generation + 1),
    }
}

// Stops the test if there is no such element.
fn assert_is_element(station: &Station, rt: &impl Abort, element: u32)
    ensures { element < element_count station.now.config }
{
    let config = station.config().config();
    assert!(rt; config.callers == 2 && config.elements_per_caller == 2 && element < 4);
}

// ---- a pause and a release

// Pauses with this token, and is given the code.
#[tactic(auto, using(mv_wait::proofs::Compose::served))]
fn take<R: Abort + Wait + Clock>(rt: &R, worker: &mut Worker<'_>, own: u32, generation: u32)
    requires { generation < highest_generation }
{
    let station = worker.station;
    assert_is_element(station, rt, own);
    assert!(rt; worker.task.left() >= 2);
    let paused = pause(station, rt, &mut worker.task, token(own, generation));
    assert!(rt; paused == Ok(given(own, generation)));
}

// Releases this token, and returns the answer.
#[tactic(auto, using(mv_wait::proofs::Compose::served))]
fn hand<R: Abort + Wait>(
    rt: &R,
    worker: &mut Worker<'_>,
    other: u32,
    generation: u32,
) -> Result<ReleaseAnswer, ReleaseRefusal> {
    let station = worker.station;
    assert_is_element(station, rt, other);
    assert!(rt; worker.task.left() > 0);
    release(
        station,
        rt,
        &mut worker.task,
        token(other, generation),
        CODE,
    )
}

// ---- exchanges

// Stops the test if this is not a word of the element, or a task pauses in it.
fn assert_has_no_pause(rt: &impl Abort, element: u32, word: u64)
    ensures { HasNoPause element word }
{
    let Some((_, WordState::Element(state))) = unpack(Object::Element(element), word) else {
        panic!(rt; "no word of an element")
    };
    if state.phase == Phase::Paused {
        panic!(rt; "a task pauses in it")
    }
}

// Releases a token by one exchange.
fn exchange(
    station: &Station,
    rt: &impl Abort,
    task: &mut Task,
    token: Token,
    expected: u64,
    code: u32,
) -> Result<ReleaseAnswer, TryReleaseRefusal>
    requires task { IsOf station.now task.old }
    requires rest { IsAtRest task.old.log }
    requires code { code < release_limit }
    ensures task { IsOf station.now task.new }
    ensures rest { IsAtRest task.new.log }
{
    assert_is_element(station, rt, token.element);
    assert_has_no_pause(rt, token.element, expected);
    assert!(rt; task.left() > 0);
    try_release(station, task, token, expected, code)
}

// A release of element 0 by one exchange, with a token of this generation, has this answer.
fn assert_exchange(
    rt: &impl Abort,
    worker: &mut Worker<'_>,
    generation: u32,
    expected: u64,
    code: u32,
    answer: Result<ReleaseAnswer, TryReleaseRefusal>,
)
    requires { code < release_limit }
{
    let station = worker.station;
    let token = token(0, generation);
    let found = exchange(station, rt, &mut worker.task, token, expected, code);
    assert!(rt; found == answer);
}

// What one place more adds to a word.
const PLACE: u64 = 35_184_372_088_832;

// Two states of an element of generation 0 in a word: reset, and prereleased with code 5.
const RESET: u64 = 16_777_216;

const PRERELEASED: u64 = 33_554_437;

// A release of element 0, and two that are refused because of the state in the expected word.
#[test]
fn an_exchange_is_refused_by_the_state_that_is_expected(rt: HostRuntime) {
    let (station, task, other) = open_two(&rt, rt.alloc(), 20);
    let mut worker = begin(&station, &rt, task, 0);
    let (early, already) = (Ok(ReleaseAnswer::Early), Err(TryReleaseRefusal::Already));
    let spent = Err(TryReleaseRefusal::Spent(0));
    assert_exchange(&rt, &mut worker, 0, PLACE + RESET, 5, early);
    assert_exchange(&rt, &mut worker, 0, 2 * PLACE + PRERELEASED, 6, already);
    assert_exchange(&rt, &mut worker, 1, 3 * PLACE + PRERELEASED, 6, spent);
    let task = worker.back();
    end(station, task, other);
}

// ---- two threads

// Whether a task pauses in an element.
fn is_paused<R: Abort>(rt: &R, worker: &mut Worker<'_>, element: u32) -> bool {
    let station = worker.station;
    assert_is_element(station, rt, element);
    let word = station.look(&mut worker.task, Object::Element(element));
    match unpack(Object::Element(element), word) {
        Some((_, WordState::Element(state))) => state.phase == Phase::Paused,
        _ => false,
    }
}

// Looks at an element until a task pauses in it, and then gives that task the time to park.
fn await_pause<R: Abort + Wait>(rt: &R, worker: &mut Worker<'_>, element: u32) {
    for _ in rt.forever() {
        if is_paused(rt, worker, element) {
            linger();
            return;
        }
        thread::yield_now();
    }
}

// Releases the pause of element 0, once its task has parked.
fn release_the_paused<R: Abort + Wait>(rt: &R, worker: &mut Worker<'_>) {
    await_pause(rt, worker, 0);
    assert!(rt; hand(rt, worker, 0, 0) == Ok(ReleaseAnswer::Woke));
}

#[test]
fn a_pause_that_parked_is_woken(rt: HostRuntime) {
    let (station, first, second) = open_two(&rt, rt.alloc(), 20);
    let mut first = begin(&station, &rt, first, 0);
    let mut second = begin(&station, &rt, second, 2);
    join(
        &rt,
        || take(&rt, &mut first, 0, 0),
        || release_the_paused(&rt, &mut second),
    );
    let (first, second) = (first.back(), second.back());
    end(station, first, second);
}

// A call that is made of a look and an exchange: releases a pause that is under way, and returns whether there was one.
fn release_paused(station: &Station, task: &mut Task, element: u32) -> bool
    requires task { IsOf station.now task.old }
    requires element { element < element_count station.now.config }
    requires left { 0 < task.old.left }
{
    let object = Object::Element(element);
    let word = station.look(task, object);
    let Some((_, WordState::Element(state))) = unpack(object, word) else {
        return false;
    };
    if state.phase != Phase::Paused {
        return false;
    }
    let op = Op::Element(ElementOp::Release(state.generation, CODE));
    match station.try_event(task, object, op, word) {
        Ok(_) => {
            // The exchange has woken no task: this call must wake the task whose pause it ends.
            station.wake(station.config().element_owner(element));
            true
        }
        Err(_) => false,
    }
}

// Releases the pause of element 0 by that call, once its task has parked.
fn release_by_exchange<R: Abort + Wait>(rt: &R, mut worker: Worker<'_>) -> Task {
    await_pause(rt, &mut worker, 0);
    let station = worker.station;
    let mut task = worker.back();
    assert_is_element(station, rt, 0);
    assert!(rt; task.left() > 0);
    assert!(rt; release_paused(station, &mut task, 0));
    task
}

#[test]
fn a_call_made_of_events_wakes_whom_it_releases(rt: HostRuntime) {
    let (station, first, second) = open_two(&rt, rt.alloc(), 20);
    let mut first = begin(&station, &rt, first, 0);
    let second = begin(&station, &rt, second, 2);
    let (_, second) = join(
        &rt,
        || take(&rt, &mut first, 0, 0),
        || release_by_exchange(&rt, second),
    );
    let first = first.back();
    end(station, first, second);
}

// Releases the other task's pause, and pauses, once with each generation.
fn hand_over<R: Abort + Wait + Clock>(rt: &R, worker: &mut Worker<'_>) {
    for generation in 0..ROUNDS {
        assert!(rt; hand(rt, worker, 2, generation).is_ok());
        take(rt, worker, 0, generation);
    }
}

// Pauses first, and is the last to release.
fn hand_back<R: Abort + Wait + Clock>(rt: &R, worker: &mut Worker<'_>) {
    for generation in 0..ROUNDS {
        take(rt, worker, 2, generation);
        assert!(rt; hand(rt, worker, 0, generation).is_ok());
    }
}

#[test]
fn two_threads_release_in_turn(rt: HostRuntime) {
    let (station, first, second) = open_two(&rt, rt.alloc(), 3 * ROUNDS + 1);
    let mut first = begin(&station, &rt, first, 0);
    let mut second = begin(&station, &rt, second, 2);
    join(
        &rt,
        || hand_over(&rt, &mut first),
        || hand_back(&rt, &mut second),
    );
    let (first, second) = (first.back(), second.back());
    end(station, first, second);
}

// ---- two threads that transfer

// Transfers to the other task's pause, once that task has parked, and is given the code by a transfer back.
#[tactic(auto, using(mv_wait::proofs::Compose::served))]
fn hand_and_take<R: Abort + Wait + Clock>(rt: &R, worker: &mut Worker<'_>, own: Token, other: Token)
    requires { own.generation < highest_generation }
{
    await_pause(rt, worker, other.element);
    let station = worker.station;
    assert_is_element(station, rt, own.element);
    assert_is_element(station, rt, other.element);
    assert!(rt; worker.task.left() >= 3);
    let answer = transfer(station, rt, &mut worker.task, Some(own), other, CODE);
    assert!(rt; answer == Ok(Some(given(own.element, own.generation))));
}

// How often each of two tasks transfers to the other.
const TRANSFERS: u32 = 500;

// Transfers first, and is the last to release.
fn transfer_over<R: Abort + Wait + Clock>(rt: &R, worker: &mut Worker<'_>) {
    for generation in 0..TRANSFERS {
        hand_and_take(rt, worker, token(0, generation), token(2, generation));
    }
    assert!(rt; hand(rt, worker, 2, TRANSFERS).is_ok());
}

// Pauses first, so its own generations are one ahead.
fn transfer_back<R: Abort + Wait + Clock>(rt: &R, worker: &mut Worker<'_>) {
    take(rt, worker, 2, 0);
    for generation in 0..TRANSFERS {
        hand_and_take(rt, worker, token(2, generation + 1), token(0, generation));
    }
}

#[test]
fn a_transfer_wakes_whom_it_releases(rt: HostRuntime) {
    let (station, first, second) = open_two(&rt, rt.alloc(), 3 * TRANSFERS + 4);
    let mut first = begin(&station, &rt, first, 0);
    let mut second = begin(&station, &rt, second, 2);
    join(
        &rt,
        || transfer_over(&rt, &mut first),
        || transfer_back(&rt, &mut second),
    );
    let (first, second) = (first.back(), second.back());
    end(station, first, second);
}
