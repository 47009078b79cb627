//! How far a task has got, and whether its next call waits: `specs/Standing.antt`.

ghost use Rattle.std.specs.Prelude.{◌≡◌, ◌<◌, length, count_by, drop};
ghost use Rattle.std.specs.List.{list_any};
ghost use Rattle.mv_latch.specs.Latch.{shared_front};
ghost use Rattle.mv_latch.specs.LatchSet.{list_of};
ghost use Rattle.mv_machine.specs.State.{IsOpenedWith, system_of};
ghost use Rattle.mv_pollscript.specs.SoFar.{IsRunSoFar};
ghost use Rattle.mv_pollscript.specs.Standing.{is_complete_in as complete_in, is_paused_in as paused_in, is_waiter as waiter, standing_in};
ghost use Rattle.mv_pollscript.specs.Standing.{stops_before as is_stop, waits_at as is_waiting_at, waits_in as is_waiting_in};
ghost use Rattle.mv_script.specs.Script.{script_data};

use crate::run::RunSoFar;
use mv_element::Phase;
use mv_latch::{LatchForm, Mode, Request};
use mv_machine::{Object, State, ValidConfig};
use mv_script::{Call, Script};

/// How far a task has got.
#[derive(Clone, Copy, Debug, PartialEq, Eq)]
pub enum Standing {
    /// It has made all of its calls.
    Finished,
    /// Its next call waits for what has not happened.
    Waits,
    /// Its next call is one that is not polled: a TRANSFER that pauses, an EVPOST or an EVNEXT.
    Stopped,
    /// It can make its next call, which waits for nothing.
    CanGoOn,
}

/// Returns whether the machine has this block, and it is complete.
pub(crate) fn is_complete_in(state: &State, ecb: u32) -> bool
    ensures { result ≡ complete_in (system_of state.now) ecb }
{
    state.has(Object::Ecb(ecb)) && state.ecb(ecb).is_complete()
}

// Whether the machine has this element, and a task pauses with it.
fn is_paused_in(state: &State, element: u32) -> bool
    ensures { result ≡ paused_in (system_of state.now) element }
{
    state.has(Object::Element(element)) && matches!(state.element(element).phase, Phase::Paused)
}

// Whether a request is one of this task that it waits for.
fn is_waiter(request: &Request, task: u32) -> bool
    ensures { result ≡ waiter task request.now }
{
    request.caller == task && matches!(request.form, LatchForm::Waiting)
}

// Whether any of these requests is one of this task that it waits for.
fn has_waiter(requests: &[Request], task: u32) -> bool
    ensures { result ≡ list_any (waiter task) requests.now }
{
    requests.iter().any(|request| is_waiter(request, task))
}

// Whether any of these requests after the shared ones at their front is one of this task that it waits for.
fn has_waiter_after_shared(requests: &[Request], task: u32) -> bool
    ensures { result ≡ list_any (waiter task) (drop (length (shared_front requests.now)) requests.now) }
{
    match requests {
        [] => false,
        [request, others @ ..] => match request.mode {
            Mode::Shared => has_waiter_after_shared(others, task),
            Mode::Exclusive => has_waiter(requests, task),
        },
    }
}

// Whether a task waits for a request of its own in this list.
fn waits_at(requests: &[Request], task: u32) -> bool
    ensures { result ≡ is_waiting_at task requests.now }
{
    match requests {
        [] => false,
        [request, others @ ..] => match request.mode {
            Mode::Shared => has_waiter_after_shared(others, task),
            Mode::Exclusive => has_waiter(others, task),
        },
    }
}

// Whether a latch has a request of this task that it waits for.
fn waits_for_latch(config: &ValidConfig, state: &State, task: u32, latch: u32) -> bool
    requires { IsOpenedWith config.now state.now }
    ensures { result ≡ is_waiting_at task (list_of (system_of state.now).latches.state latch) }
{
    config.has_latch(latch) && waits_at(state.requests(latch), task)
}

// How many of these blocks are complete.
fn complete_count(state: &State, ecbs: &[u32]) -> usize
    ensures { result ≡ count_by (complete_in (system_of state.now)) ecbs.now }
{
    ecbs.iter()
        .filter(|ecb| is_complete_in(state, **ecb))
        .count()
}

/// Returns whether this call of the task waits in this state of the machine.
pub(crate) fn waits_in(config: &ValidConfig, state: &State, task: u32, call: &Call) -> bool
    requires { IsOpenedWith config.now state.now }
    ensures { result ≡ is_waiting_in (system_of state.now) task call.now }
{
    match call {
        Call::Wait { count, ecbs } => complete_count(state, &ecbs.numbers) < *count as usize,
        Call::Pause(token) => is_paused_in(state, token.element),
        Call::Obtain { latch, .. } => waits_for_latch(config, state, task, *latch),
        _ => false,
    }
}

/// Returns whether a task stops before this call, which is not polled: a TRANSFER that pauses, an EVPOST or an EVNEXT.
pub(crate) fn stops_before(call: &Call) -> bool
    ensures { result ≡ is_stop call.now }
{
    matches!(
        call,
        Call::Transfer {
            current: Some(_),
            ..
        } | Call::PostEvent { .. }
            | Call::NextEvent(_)
    )
}

/// Returns how far a task has got, by the state that the run has left.
pub fn task_standing(script: &Script, run: &RunSoFar, task: u32) -> Standing
    requires run { IsRunSoFar (script_data script.now) run.now }
    requires task { task < length script.now.tasks.items }
    ensures { result ≡ standing_in (system_of run.now.state) script.now.tasks.items run.now.answers.items task }
{
    let calls = &script.tasks[task as usize].calls;
    let made = run.answers[task as usize].answers.len();
    if made >= calls.len() {
        return Standing::Finished;
    }
    let call = &calls[made];
    if waits_in(&run.config, &run.state, task, call) {
        Standing::Waits
    } else if stops_before(call) {
        Standing::Stopped
    } else {
        Standing::CanGoOn
    }
}
