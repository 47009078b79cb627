//! Releases. Clauses cite `Pauses.antt` of mv_calls, and `specs/Answers.antt` and `specs/Releasing.antt`.

ghost use Rattle.std.specs.Prelude.{◌≡◌, ◌<◌, IfOk, IfSome, Some};
ghost use Rattle.mv_element.specs.declared.operation.ElementOp.TheVariants as element_op;
ghost use Rattle.mv_wait.specs.Prelude.{release_limit, element_count, release, try_release, IsAtRest, IsServed, MayCall};
ghost use Rattle.mv_pause.specs.Answers.{release_answer, try_release_answer, IsLow};
ghost use Rattle.mv_pause.specs.Releasing.{HasNoPause, IsTried};
ghost use Rattle.mv_pause.specs.Replies.{HappenedOn, reply_to_release};
ghost use Rattle.mv_calls.specs.declared.outcomes.ReleaseAnswer.TheVariants.{Early};

use crate::owning::wake_owner;
use crate::replies::released;
use mv_calls::ReleaseAnswer;
use mv_element::{ElementOp, Token};
use mv_machine::{Object, Op};
use mv_wait::{Station, Task};
use std::sync::Wait;
use thiserror::Error;

/// The reason for which a release was refused.
#[derive(Clone, Copy, Debug, PartialEq, Eq, Error)]
pub enum ReleaseRefusal {
    /// The token is spent; this is the element's generation.
    #[error("the token is spent; the element's generation is {0}")]
    Spent(u32),
    /// The token was released before.
    #[error("the token was released before")]
    Already,
}

/// The reason for which a release by an exchange failed.
#[derive(Clone, Copy, Debug, PartialEq, Eq, Error)]
pub enum TryReleaseRefusal {
    /// The exchange found this word, and not the expected one. No event was made.
    #[error("the element's word is {0}, and not the one expected")]
    Moved(u64),
    /// The token is spent; this is the element's generation.
    #[error("the token is spent; the element's generation is {0}")]
    Spent(u32),
    /// The token was released before.
    #[error("the token was released before")]
    Already,
}

/// Releases the pause of a token with a code of three bytes, whether the pause has begun or is still to come (IEAVRLS).
///
/// Any task that has the token may do so. The call makes one event, which must be left. It does not park, and wakes the task that
/// pauses.
///
/// # Errors
///
/// `Spent` if the token is spent or its element is not allocated, `Already` if the token was released before. Each is the reply
/// to the one event, and the code is not kept.
///
/// # Examples
///
/// From `crates/mv_server/src/server.rt`, which gives an idle worker its work; `generation` is the code of the worker's post:
///
/// ```
/// let token = Token {
///     element: worker,
///     generation,
/// };
/// // Whether this token is still current depends on what the worker did, so no clause of the server excludes that the
/// // release is refused. Then the next idle worker gets the code; if there is none, no worker gets it, and the wait for
/// // its answer never ends.
/// if release(station, rt, task, token, code).is_ok() {
///     return;
/// }
/// ```
pub fn release<R: Wait>(
    station: &Station,
    rt: &R,
    task: &mut Task,
    token: Token,
    code: u32,
) -> Result<ReleaseAnswer, ReleaseRefusal>
    requires task { MayCall station.now 1 task.old }
    requires element { token.element < element_count station.now.config }
    requires code { code < release_limit }
    ensures served { IsServed 1 (release token code) (λ a. a ≡ release_answer result) task.old task.new }
    ensures causes { HappenedOn token task.old (element_op.Release token.generation code) (reply_to_release result) task.new }
    ensures low { IsLow (release_answer result) }
{
    let reply = station.event(
        rt,
        task,
        Object::Element(token.element),
        Op::Element(ElementOp::Release(token.generation, code)),
    );
    let answer = released(reply);
    wake_owner(station, answer, token.element);
    answer
}

/// Tries to release the pause of a token, by one exchange of the element's word.
///
/// In the expected word no task may pause; so the call wakes no task, and its answer is `Early` if it succeeds. It makes at most
/// one event, which must be left, and never waits.
///
/// # Errors
///
/// `Moved(w)` if the word was `w` and not `expected`; then no event is made. Otherwise those of `release`.
///
/// # Examples
///
/// From `crates/mv_runscript/src/trying.rt`, where `reset` is the word of an element that is neither paused nor released, and
/// has had `place` events:
///
/// ```
/// let reset = reset_at(token.generation, place);
/// match try_release(station, task, token, reset, code) {
///     Ok(ReleaseAnswer::Early) => Answer::Early,
///     Ok(ReleaseAnswer::Woke) => Answer::Woke,
///     Err(TryReleaseRefusal::Spent(generation)) => Answer::Spent(generation),
///     Err(TryReleaseRefusal::Already) => Answer::AlreadyReleased,
///     Err(TryReleaseRefusal::Moved(word)) => Answer::Moved(word),
/// }
/// ```
pub fn try_release(
    station: &Station,
    task: &mut Task,
    token: Token,
    expected: u64,
    code: u32,
) -> Result<ReleaseAnswer, TryReleaseRefusal>
    requires task { MayCall station.now 1 task.old }
    requires element { token.element < element_count station.now.config }
    requires unpaused { HasNoPause token.element expected }
    requires code { code < release_limit }
    ensures served { IfSome (try_release_answer result)
        (λ is. IsServed 1 (try_release token expected code) (λ a. a ≡ is) task.old task.new) }
    ensures causes { IsTried token expected code task.old result task.new }
    ensures early { IfOk result (λ a. a ≡ Early) }
    ensures rest { IsAtRest task.new.log }
    ensures low { IfSome (try_release_answer result) IsLow }
{
    let op = Op::Element(ElementOp::Release(token.generation, code));
    let tried = station.try_event(task, Object::Element(token.element), op, expected);
    match tried {
        Ok(reply) => tried_as(released(reply)),
        Err(moved) => Err(TryReleaseRefusal::Moved(moved.0)),
    }
}

// The answer of a release by an exchange that succeeded.
fn tried_as(
    answer: Result<ReleaseAnswer, ReleaseRefusal>,
) -> Result<ReleaseAnswer, TryReleaseRefusal>
    ensures { try_release_answer result ≡ Some (release_answer answer) }
{
    match answer {
        Ok(answer) => Ok(answer),
        Err(ReleaseRefusal::Spent(now)) => Err(TryReleaseRefusal::Spent(now)),
        Err(ReleaseRefusal::Already) => Err(TryReleaseRefusal::Already),
    }
}
