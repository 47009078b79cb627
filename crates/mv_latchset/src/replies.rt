//! What a reply of the latch set says, if its operation is known. Clauses cite `specs/Says.antt` and `specs/Replies.antt`.

ghost use Rattle.std.specs.Prelude.{◌≡◌, true};
ghost use Rattle.mv_latch.specs.declared.operation.LatchReply.TheVariants as latch_reply;
ghost use Rattle.mv_machine.specs.declared.entry.Reply.TheVariants as reply_of;
ghost use Rattle.mv_board.specs.Faces.{is_settled_reply};
ghost use Rattle.mv_latchset.specs.Says.{SaysAsked, SaysStanding, SaysReleased, SaysPurged};
ghost use Rattle.mv_latchset.specs.Replies.{asked_reply, IsOfForm, HasStanding, HasGrant, release_reply, purge_reply};

use crate::releasing::ReleaseLatchRefusal;
use mv_calls::{Purged, Standing};
use mv_latch::{LatchForm, LatchReply};
use mv_machine::Reply;

/// The outcome of an Obtain.
#[derive(Clone, Copy, Debug, PartialEq, Eq)]
pub(crate) enum Asked {
    Granted(u32),
    NotNow(u32),
    /// The request is queued, and a block is posted when it is granted.
    Pending(u32),
    /// The request is queued, and its task has to wait.
    Queued(u32),
}

/// Returns the outcome of an Obtain in this form.
pub(crate) fn asked_in(form: LatchForm, reply: Reply) -> Asked
    requires { SaysAsked form reply }
    ensures reply { reply ≡ reply_of.Latch (asked_reply result) }
    ensures form { IsOfForm form result }
{
    match reply {
        Reply::Latch(LatchReply::Granted(id)) => Asked::Granted(id),
        Reply::Latch(LatchReply::NotNow(id)) => Asked::NotNow(id),
        Reply::Latch(LatchReply::Queued(id)) => queued(form, id),
        _ => unreachable!(),
    }
}

// The outcome of an Obtain in this form whose request was queued.
fn queued(form: LatchForm, id: u32) -> Asked
    requires { SaysAsked form (reply_of.Latch (latch_reply.Queued id)) }
    ensures reply { asked_reply result ≡ latch_reply.Queued id }
    ensures form { IsOfForm form result }
{
    match form {
        LatchForm::Posted(_) => Asked::Pending(id),
        LatchForm::Waiting => Asked::Queued(id),
        LatchForm::Conditional => unreachable!(),
    }
}

/// Returns the state of a request.
pub(crate) fn standing_in(reply: Reply) -> Standing
    requires { SaysStanding reply }
    ensures { HasStanding reply result }
{
    match reply {
        Reply::Latch(LatchReply::Granted(_)) => Standing::Granted,
        Reply::Latch(LatchReply::Waiting) => Standing::Waiting,
        Reply::Latch(LatchReply::Gone) => Standing::Gone,
        _ => unreachable!(),
    }
}

/// Returns whether a request that no longer waits is granted; otherwise it is gone.
pub(crate) fn granted_in(reply: Reply) -> bool
    requires { is_settled_reply reply ≡ true }
    ensures { HasGrant reply result }
{
    match reply {
        Reply::Latch(LatchReply::Granted(_)) => true,
        Reply::Latch(LatchReply::Gone) => false,
        _ => unreachable!(),
    }
}

/// Returns the outcome of a release: how many requests it granted, or why it was refused.
pub(crate) fn released_in(reply: Reply) -> Result<u32, ReleaseLatchRefusal>
    requires { SaysReleased reply }
    ensures { reply ≡ reply_of.Latch (release_reply result) }
{
    match reply {
        Reply::Latch(LatchReply::Released { granted }) => Ok(granted),
        Reply::Latch(LatchReply::Gone) => Err(ReleaseLatchRefusal::Gone),
        Reply::Latch(LatchReply::Waiting) => Err(ReleaseLatchRefusal::StillWaiting),
        _ => unreachable!(),
    }
}

/// Returns what a purge did.
pub(crate) fn purged_in(reply: Reply) -> Purged
    requires { SaysPurged reply }
    ensures { reply ≡ reply_of.Latch (purge_reply result) }
{
    match reply {
        Reply::Latch(LatchReply::Purged { removed, granted }) => Purged { removed, granted },
        _ => unreachable!(),
    }
}
