//! Pauses. Clauses cite `Pauses.antt` of mv_calls, and `specs/Answers.antt` and `specs/Pausing.antt`.

ghost use Rattle.std.specs.Prelude.{◌≡◌, ◌<◌, ◌≤◌, false, Ok, IfOk, MatchResult};
ghost use Rattle.std.specs.List.{Contains};
ghost use Rattle.mv_element.specs.declared.operation.ElementOp.TheVariants.{Pause};
ghost use Rattle.mv_element.specs.declared.operation.ElementReply.TheVariants.{Parked};
ghost use Rattle.mv_wait.specs.Prelude.{element_count, element_owner, highest_generation, CallerFace, IsOf, kept_of, gift_of, pause};
ghost use Rattle.mv_wait.specs.Prelude.{is_others_token, IsServed, MatchBegun, MayCall};
ghost use Rattle.mv_board.specs.declared.watch.Watch.TheVariants as watch;
ghost use Rattle.mv_pause.specs.Answers.{pause_answer, IsLow};
ghost use Rattle.mv_pause.specs.Pausing.{IsCurrent, IsGiven, IsPauseCause, IsPausedOwn, IsPauseMade, IsPausing, MayPause};
ghost use Rattle.mv_pause.specs.Replies.{HappenedOn};

use crate::owning::is_others;
use crate::replies::{FirstReply, Gift, beginning, gift_in};
use mv_board::Watch;
use mv_calls::Given;
use mv_element::{ElementOp, Token};
use mv_machine::{Object, Op};
use mv_wait::{Begun, Station, Task};
use std::sync::Wait;
use std::time::Clock;
use thiserror::Error;

/// The reason for which a pause was refused.
#[derive(Clone, Copy, Debug, PartialEq, Eq, Error)]
pub enum PauseRefusal {
    /// The element is another caller's.
    #[error("the element is another caller's")]
    NotOwner,
    /// The token is spent; this is the element's generation.
    #[error("the token is spent; the element's generation is {0}")]
    Spent(u32),
}

/// Pauses until the token is released, and returns the release code of three bytes and the token of the next pause (IEAVPSE).
///
/// The token must be of an element of the task's own. If the token was released before, the pause returns at once, with one
/// event. Otherwise the task parks, for ever if no task releases the token, and a second event ends the pause. Two events must be
/// left.
///
/// # Errors
///
/// `NotOwner` if the element is another caller's; then no event is made. `Spent` if the token is spent, which is the reply to the
/// one event. The last token that the task was given for an element in use is never refused.
///
/// # Examples
///
/// From `crates/mv_server/src/server.rt`, a worker that says that it is idle, and pauses until it is given work:
///
/// ```
/// station.post(rt, task, idle, token.generation);
/// // The last token that a task was given is not refused.
/// let Ok(given) = pause(station, rt, task, token) else {
///     unreachable!()
/// };
/// ```
pub fn pause<R: Wait + Clock>(
    station: &Station,
    rt: &R,
    task: &mut Task,
    token: Token,
) -> Result<Given, PauseRefusal>
    requires task { MayCall station.now 2 task.old }
    requires element { token.element < element_count station.now.config }
    ensures served { IsServed 2 (pause station.now.config token) (λ a. a ≡ pause_answer result) task.old task.new }
    ensures causes { MatchResult result
        (λ given. (is_others_token station.now.config (kept_of task.old.number task.old.log) token ≡ false)
        × IsGiven token given task.new.log)
        (λ why. IsPauseCause station.now.config token task.old why task.new) }
    ensures next { IfOk result (λ given. given.next.element ≡ token.element) }
    // A token of an own element that is in use with the token's generation is never refused.
    ensures current { is_others_token station.now.config (kept_of task.old.number task.old.log) token ≡ false
        → IsCurrent (kept_of task.old.number task.old.log) token → (given : Given) × (result ≡ Ok given) }
    ensures low { IsLow (pause_answer result) × IfOk result (λ given. given.next.generation ≤ highest_generation) }
{
    if is_others(station, task, token) {
        return Err(PauseRefusal::NotOwner);
    }
    pause_own(station, rt, task, token)
}

/// Begins a pause, for a call that does not park: makes its first event.
///
/// Returns the answer of the pause if it is over. If it waits, one more event must be left, and only `end_pause` ends the pause.
///
/// # Errors
///
/// An answer is an error in the cases in which `pause` returns that error.
///
/// # Examples
///
/// From `crates/mv_polled/src/pausing.rt`, the first poll of a pause:
///
/// ```
/// if let Begun::Over(answer) = begin_pause(station, rt, task, self.token) {
///     self.stage = Stage::Over;
///     return Turn::Ready(answer);
/// }
/// self.stage = Stage::Waits;
/// self.go_on(station, rt, task)
/// ```
pub fn begin_pause<R: Wait>(
    station: &Station,
    rt: &R,
    task: &mut Task,
    token: Token,
) -> Begun<Result<Given, PauseRefusal>, ()>
    requires task { IsOf station.now task.old }
    requires may { MayPause station.now.config token task.old }
    ensures begun { MatchBegun result
        (λ r. IsPauseMade station.now.config token task.old r task.new)
        (λ _. IsPausing station.now.config token task.old task.new) }
{
    if is_others(station, task, token) {
        return Begun::Over(Err(PauseRefusal::NotOwner));
    }
    begin_own(station, rt, task, token)
}

/// Ends a pause that `begin_pause` began, once its element was seen to be released. It makes one event.
///
/// # Examples
///
/// From `crates/mv_polled/src/pausing.rt`, a poll of a pause whose first event was made:
///
/// ```
/// if !station.peek(rt, task, Watch::Element(self.token.element)) {
///     return Turn::Pending;
/// }
/// self.stage = Stage::Over;
/// Turn::Ready(Ok(end_pause(station, rt, task, self.token)))
/// ```
#[inline(always)]
pub fn end_pause<R: Wait>(station: &Station, rt: &R, task: &mut Task, token: Token) -> Given
    requires task { IsOf station.now task.old }
    requires pausing { (t0 : CallerFace) × IsPausing station.now.config token t0 task.old }
    requires ready { Contains task.old.ready (watch.Element token.element) }
    ensures { (t0 : CallerFace) → IsPausing station.now.config token t0 task.old → IsPausedOwn token t0 (Ok result) task.new }
{
    let reply = station.event(
        rt,
        task,
        Object::Element(token.element),
        Op::Element(ElementOp::Resume(token.generation)),
    );
    with_token(token.element, gift_in(reply))
}

/// Pauses with a token of an own element. It is refused only if the token is spent.
#[inline(always)]
pub(crate) fn pause_own<R: Wait + Clock>(
    station: &Station,
    rt: &R,
    task: &mut Task,
    token: Token,
) -> Result<Given, PauseRefusal>
    requires task { MayCall station.now 2 task.old }
    requires element { token.element < element_count station.now.config }
    requires own { element_owner station.now.config token.element ≡ task.old.number }
    ensures { IsPausedOwn token task.old result task.new }
{
    if let Begun::Over(answer) = begin_own(station, rt, task, token) {
        return answer;
    }
    station.park_for(rt, task, Watch::Element(token.element));
    Ok(end_pause(station, rt, task, token))
}

// Makes the first event of a pause with a token of an own element.
#[inline(always)]
fn begin_own<R: Wait>(
    station: &Station,
    rt: &R,
    task: &mut Task,
    token: Token,
) -> Begun<Result<Given, PauseRefusal>, ()>
    requires task { MayCall station.now 2 task.old }
    requires own { element_owner station.now.config token.element ≡ task.old.number }
    requires element { token.element < element_count station.now.config }
    ensures { MatchBegun result
        (λ r. IsPausedOwn token task.old r task.new)
        (λ _. HappenedOn token task.old (Pause token.generation) Parked task.new) }
{
    let reply = station.event(
        rt,
        task,
        Object::Element(token.element),
        Op::Element(ElementOp::Pause(token.generation)),
    );
    match beginning(reply) {
        FirstReply::Given(gift) => Begun::Over(Ok(with_token(token.element, gift))),
        FirstReply::Spent(now) => Begun::Over(Err(PauseRefusal::Spent(now))),
        FirstReply::Parked => Begun::Waits(()),
    }
}

// What a pause with this element returns.
#[inline(always)]
fn with_token(element: u32, gift: Gift) -> Given
    ensures { result ≡ gift_of element gift.code gift.next }
{
    Given {
        code: gift.code,
        next: Token {
            element,
            generation: gift.next,
        },
    }
}
