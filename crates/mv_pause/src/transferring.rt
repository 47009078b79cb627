//! A release and a pause in one call. Clauses cite `Pauses.antt` of mv_calls, and `specs/Answers.antt` and
//! `specs/Transferring.antt`.

ghost use Rattle.std.specs.Prelude.{◌≡◌, ◌<◌, ◌≤◌, ◌+◌, None, IfOk, IfSome, MatchResult, option_map};
ghost use Rattle.mv_wait.specs.Prelude.{release_limit, element_count, highest_generation, IsOf, kept_of, transfer, transfer_refusal};
ghost use Rattle.mv_wait.specs.Prelude.{IsAtRest, transfer_events, IsServed, MayCall};
ghost use Rattle.mv_pause.specs.Answers.{transfer_answer, transfer_refused, IsLow, IsLowRefusal};
ghost use Rattle.mv_pause.specs.Transferring.{target_refused, IsPausedBy, IsGivenTo, IsTransferCause};

use crate::owning::is_others;
use crate::pausing::pause_own;
use crate::releasing::{ReleaseRefusal, release};
use mv_calls::{Given, ReleaseAnswer};
use mv_element::Token;
use mv_wait::{Station, Task};
use std::sync::Wait;
use std::time::Clock;
use thiserror::Error;

/// The reason for which a transfer was refused. Then no task was released, and the caller did not pause.
#[derive(Clone, Copy, Debug, PartialEq, Eq, Error)]
pub enum TransferRefusal {
    /// The current token is of another caller's element.
    #[error("the current token is of another caller's element")]
    NotOwner,
    /// The current token is spent, or its element is not in use; this is the element's generation.
    #[error("the current token is spent; its element's generation is {0}")]
    Spent(u32),
    /// The target is spent; this is the element's generation.
    #[error("the target is spent; its element's generation is {0}")]
    TargetSpent(u32),
    /// The target was released before.
    #[error("the target was released before")]
    TargetAlready,
}

/// Releases the target with a code of three bytes, and then pauses with the current token, if there is one (IEAVXFR).
///
/// The two tokens may be the same: then the pause is given the code at once. Any task may release the target; the current token
/// must be of an element of the task's own that is in use. The call makes at most one event without a current token and three
/// with one, which must be left. It wakes the task that pauses with the target. With a current token it parks as `pause` does,
/// otherwise it does not park.
///
/// # Errors
///
/// `NotOwner` or `Spent` if the current token is not one of an own element in use; then no event is made. `TargetSpent` or
/// `TargetAlready` if the release of the target is refused; that is the reply to the one event.
///
/// # Examples
///
/// From `crates/mv_task/src/tests/pauses.rt`, one of two tasks that hand over to and fro:
///
/// ```
/// let answer = transfer(station, rt, &mut worker.task, Some(own), other, CODE);
/// assert!(rt; answer == Ok(Some(given(own.element, own.generation))));
/// ```
pub fn transfer<R: Wait + Clock>(
    station: &Station,
    rt: &R,
    task: &mut Task,
    current: Option<Token>,
    target: Token,
    code: u32,
) -> Result<Option<Given>, TransferRefusal>
    requires task { MayCall station.now (transfer_events current) task.old }
    requires current { IfSome current (λ t. t.element < element_count station.now.config) }
    requires target { target.element < element_count station.now.config }
    requires code { code < release_limit }
    ensures served { IsServed (transfer_events current) (transfer station.now.config current target code)
        (λ a. a ≡ transfer_answer result) task.old task.new }
    ensures causes { MatchResult result
        (λ given. (transfer_refusal station.now.config current (kept_of task.old.number task.old.log) ≡ None)
        × IsGivenTo current given task.new.log)
        (λ why. IsTransferCause station.now.config current target code task.old why task.new) }
    ensures low { IsLow (transfer_answer result) × IfOk result (λ given. IfSome given (λ g. g.next.generation ≤ highest_generation)) }
{
    if let Some(refusal) = refuses_transfer(station, task, current) {
        return Err(refusal);
    }
    let answer = release(station, rt, task, target, code);
    if let Some(refusal) = refuses_target(answer) {
        return Err(refusal);
    }
    Ok(pause_current(station, rt, task, current))
}

// The reason for which a transfer is refused without an event, if there is one.
fn refuses_transfer(
    station: &Station,
    task: &Task,
    current: Option<Token>,
) -> Option<TransferRefusal>
    requires task { IsOf station.now task.now }
    requires current { IfSome current (λ t. t.element < element_count station.now.config) }
    ensures refusal { option_map transfer_refused result
        ≡ transfer_refusal station.now.config current (kept_of task.now.number task.now.log) }
    ensures low { IfSome result (λ why. IsLowRefusal (transfer_refused why)) }
{
    let Some(token) = current else {
        return None;
    };
    if is_others(station, task, token) {
        return Some(TransferRefusal::NotOwner);
    }
    let now = task.generation(token.element);
    if !task.in_use(token.element) || now != token.generation {
        return Some(TransferRefusal::Spent(now));
    }
    None
}

// The reason for which a transfer is refused after its release of the target had this answer, if there is one.
fn refuses_target(answer: Result<ReleaseAnswer, ReleaseRefusal>) -> Option<TransferRefusal>
    ensures { option_map transfer_refused result ≡ target_refused answer }
{
    match answer {
        Ok(_) => None,
        Err(ReleaseRefusal::Spent(now)) => Some(TransferRefusal::TargetSpent(now)),
        Err(ReleaseRefusal::Already) => Some(TransferRefusal::TargetAlready),
    }
}

// Pauses with the current token, if there is one. The pause is never refused.
fn pause_current<R: Wait + Clock>(
    station: &Station,
    rt: &R,
    task: &mut Task,
    current: Option<Token>,
) -> Option<Given>
    requires task { IsOf station.now task.old }
    requires rest { IsAtRest task.old.log }
    requires current { IfSome current (λ t. t.element < element_count station.now.config) }
    requires accepted { transfer_refusal station.now.config current (kept_of task.old.number task.old.log) ≡ None }
    requires left { transfer_events current ≤ task.old.left + 1 }
    ensures paused { IsPausedBy station.now.config current result task.old task.new }
    ensures given { IsGivenTo current result task.new.log }
    ensures rest { IsAtRest task.new.log }
    ensures low { IfSome result (λ g. g.next.generation ≤ highest_generation) }
{
    let Some(token) = current else {
        return None;
    };
    match pause_own(station, rt, task, token) {
        Ok(given) => Some(given),
        Err(_) => unreachable!(),
    }
}
