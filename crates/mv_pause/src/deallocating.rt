//! The end of an element's use. Clauses cite `Pauses.antt` of mv_calls, and `specs/Answers.antt` and `specs/Deallocating.antt`.

ghost use Rattle.std.specs.Prelude.{◌≡◌, ◌<◌, false, Ok, MatchResult};
ghost use Rattle.mv_element.specs.declared.operation.ElementOp.TheVariants as element_op;
ghost use Rattle.mv_element.specs.declared.operation.ElementReply.TheVariants as element_reply;
ghost use Rattle.mv_wait.specs.Prelude.{element_count, kept_of, deallocate, is_others_token, IsServed, MayCall};
ghost use Rattle.mv_pause.specs.Answers.{deallocate_answer, IsLow};
ghost use Rattle.mv_pause.specs.Deallocating.{IsDeallocateCause};
ghost use Rattle.mv_pause.specs.Pausing.{IsCurrent};
ghost use Rattle.mv_pause.specs.Replies.{HappenedOn};

use crate::owning::is_others;
use crate::replies::over;
use mv_element::{ElementOp, Token};
use mv_machine::{Object, Op};
use mv_wait::{Station, Task};
use std::sync::Wait;
use thiserror::Error;

/// The reason for which an element was not given back.
#[derive(Clone, Copy, Debug, PartialEq, Eq, Error)]
pub enum DeallocateRefusal {
    /// The element is another caller's.
    #[error("the element is another caller's")]
    NotOwner,
    /// The token is spent; this is the element's generation.
    #[error("the token is spent; the element's generation is {0}")]
    Spent(u32),
}

/// Gives an element of the task's own back (IEAVDPE), by the token of its next pause, which is spent then.
///
/// A code that was kept for that pause is lost. The call makes at most one event, which must be left. It does not park.
///
/// # Errors
///
/// `NotOwner` if the element is another caller's; then no event is made. `Spent` if the token is spent, which is the reply to the
/// one event.
///
/// # Examples
///
/// From `crates/mv_work/src/initiator.rt`, an initiator that is given no more jobs, by the token that its last pause returned:
///
/// ```
/// deallocate(self.station, rt, task, given.next)?;
/// ```
pub fn deallocate<R: Wait>(
    station: &Station,
    rt: &R,
    task: &mut Task,
    token: Token,
) -> Result<(), DeallocateRefusal>
    requires task { MayCall station.now 1 task.old }
    requires element { token.element < element_count station.now.config }
    ensures served { IsServed 1 (deallocate station.now.config token) (λ a. a ≡ deallocate_answer result) task.old task.new }
    ensures causes { MatchResult result
        (λ _. (is_others_token station.now.config (kept_of task.old.number task.old.log) token ≡ false)
        × HappenedOn token task.old (element_op.Close token.generation) element_reply.Closed task.new)
        (λ why. IsDeallocateCause station.now.config token task.old why task.new) }
    // A token of an own element that is in use with the token's generation is never refused.
    ensures current { is_others_token station.now.config (kept_of task.old.number task.old.log) token ≡ false
        → IsCurrent (kept_of task.old.number task.old.log) token → result ≡ Ok tt }
    ensures low { IsLow (deallocate_answer result) }
{
    if is_others(station, task, token) {
        return Err(DeallocateRefusal::NotOwner);
    }
    let reply = station.event(
        rt,
        task,
        Object::Element(token.element),
        Op::Element(ElementOp::Close(token.generation)),
    );
    match over(reply) {
        None => Ok(()),
        Some(now) => Err(DeallocateRefusal::Spent(now)),
    }
}
