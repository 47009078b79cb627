//! What a reply says, if its kind is known. Clauses cite `specs/Replies.antt`.

ghost use Rattle.std.specs.Prelude.{◌≡◌};
ghost use Rattle.mv_element.specs.declared.operation.ElementReply.TheVariants as element_reply;
ghost use Rattle.mv_machine.specs.declared.entry.Reply.TheVariants as reply_of;
ghost use Rattle.mv_pause.specs.Replies.{SaysOpened, SaysGiven, SaysBegun, SaysReleased, SaysClosed, SaysState};
ghost use Rattle.mv_pause.specs.Replies.{reply_to_pause, reply_to_release, reply_to_close};

use crate::releasing::ReleaseRefusal;
use mv_calls::ReleaseAnswer;
use mv_element::{ElementReply, ElementState};
use mv_machine::Reply;

/// Returns the generation of an element that was opened.
pub(crate) fn opened(reply: Reply) -> u32
    requires { SaysOpened reply }
    ensures { reply ≡ reply_of.Element (element_reply.Opened result) }
{
    match reply {
        Reply::Element(ElementReply::Opened(generation)) => generation,
        _ => unreachable!(),
    }
}

/// A release code, and the generation of the next pause.
#[derive(Clone, Copy, Debug, PartialEq, Eq)]
pub(crate) struct Gift {
    pub code: u32,
    pub next: u32,
}

/// Returns what a pause was given.
#[inline(always)]
pub(crate) fn gift_in(reply: Reply) -> Gift
    requires { SaysGiven reply }
    ensures { reply ≡ reply_of.Element (element_reply.Given result.code result.next) }
{
    match reply {
        Reply::Element(ElementReply::Given { code, next }) => Gift { code, next },
        _ => unreachable!(),
    }
}

/// What the reply to the first event of a pause says.
#[derive(Clone, Copy, Debug, PartialEq, Eq)]
pub(crate) enum FirstReply {
    /// The task has to wait for a code.
    Parked,
    /// A code was kept for the pause.
    Given(Gift),
    /// The token is spent; this is the element's generation.
    Spent(u32),
}

/// Returns what the reply to the first event of a pause says.
#[inline(always)]
pub(crate) fn beginning(reply: Reply) -> FirstReply
    requires { SaysBegun reply }
    ensures { reply ≡ reply_of.Element (reply_to_pause result) }
{
    match reply {
        Reply::Element(ElementReply::Parked) => FirstReply::Parked,
        Reply::Element(ElementReply::Given { code, next }) => FirstReply::Given(Gift {
            code,
            next,
        }),
        Reply::Element(ElementReply::Spent(now)) => FirstReply::Spent(now),
        _ => unreachable!(),
    }
}

/// Returns the outcome of a release.
#[inline(always)]
pub(crate) fn released(reply: Reply) -> Result<ReleaseAnswer, ReleaseRefusal>
    requires { SaysReleased reply }
    ensures { reply ≡ reply_of.Element (reply_to_release result) }
{
    match reply {
        Reply::Element(ElementReply::Early) => Ok(ReleaseAnswer::Early),
        Reply::Element(ElementReply::Woke) => Ok(ReleaseAnswer::Woke),
        Reply::Element(ElementReply::Spent(now)) => Err(ReleaseRefusal::Spent(now)),
        Reply::Element(ElementReply::Already) => Err(ReleaseRefusal::Already),
        _ => unreachable!(),
    }
}

/// Returns the element's generation if the token with which it was to be closed is spent, otherwise `None`.
pub(crate) fn over(reply: Reply) -> Option<u32>
    requires { SaysClosed reply }
    ensures { reply ≡ reply_of.Element (reply_to_close result) }
{
    match reply {
        Reply::Element(ElementReply::Closed) => None,
        Reply::Element(ElementReply::Spent(now)) => Some(now),
        _ => unreachable!(),
    }
}

/// Returns the state of an element.
pub(crate) fn state(reply: Reply) -> ElementState
    requires { SaysState reply }
    ensures { reply ≡ reply_of.Element (element_reply.State result) }
{
    match reply {
        Reply::Element(ElementReply::State(state)) => state,
        _ => unreachable!(),
    }
}
