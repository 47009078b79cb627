//! What a reply says, if its kind is known. Clauses cite `specs/Says.antt`, `specs/Posted.antt`, `specs/Single.antt` and
//! `specs/Waiting.antt`.

ghost use Rattle.std.specs.Prelude.{◌≡◌, Some};
ghost use Rattle.mv_ecb.specs.declared.operation.EcbReply.TheVariants as ecb_reply;
ghost use Rattle.mv_machine.specs.declared.entry.Reply.TheVariants as reply_of;
ghost use Rattle.mv_machine.specs.declared.entry.VolumeReply.TheVariants as volume_reply;
ghost use Rattle.mv_wait.specs.Posted.{answer_in, exit_in};
ghost use Rattle.mv_wait.specs.Says.{SaysSettled, SaysWord, SaysValue, SaysPosted, SaysExtended};
ghost use Rattle.mv_wait.specs.Single.{extend_reply};
ghost use Rattle.mv_wait.specs.Waiting.{settle_reply};

use mv_calls::{PostAnswer, WaitSlot};
use mv_ecb::EcbReply;
use mv_machine::{Reply, VolumeReply};

/// Returns what the reply to a Settle found.
#[inline(always)]
pub(crate) fn slot(reply: Reply) -> WaitSlot
    requires { SaysSettled reply }
    ensures { reply ≡ reply_of.Ecb (settle_reply result) }
{
    match reply {
        Reply::Ecb(EcbReply::Complete(code)) => WaitSlot::Complete(code),
        Reply::Ecb(EcbReply::Open) => WaitSlot::Open,
        _ => unreachable!(),
    }
}

/// Returns the code with which a block was complete when it was to be extended; `None` if it was extended.
#[inline(always)]
pub(crate) fn taken(reply: Reply) -> Option<u32>
    requires { SaysExtended reply }
    ensures { reply ≡ reply_of.Ecb (extend_reply result) }
{
    match reply {
        Reply::Ecb(EcbReply::Armed) => None,
        Reply::Ecb(EcbReply::Complete(code)) => Some(code),
        _ => unreachable!(),
    }
}

/// Returns the fullword in a reply.
pub(crate) fn word(reply: Reply) -> u32
    requires { SaysWord reply }
    ensures { reply ≡ reply_of.Ecb (ecb_reply.Word result) }
{
    match reply {
        Reply::Ecb(EcbReply::Word(word)) => word,
        _ => unreachable!(),
    }
}

/// Returns the number of a volume in a reply.
pub(crate) fn value(reply: Reply) -> u32
    requires { SaysValue reply }
    ensures { reply ≡ reply_of.Volume (volume_reply.Value result) }
{
    match reply {
        Reply::Volume(VolumeReply::Value(number)) => number,
        _ => unreachable!(),
    }
}

/// Returns the outcome that the reply to a post gives, with the exit that it runs, or 0.
#[inline(always)]
pub(crate) fn posted(reply: Reply) -> (PostAnswer, u32)
    requires { SaysPosted reply }
    ensures answer { answer_in reply ≡ Some result.0 }
    ensures exit { exit_in reply ≡ result.1 }
{
    match reply {
        Reply::Ecb(EcbReply::Posted) => (PostAnswer::Posted, 0),
        Reply::Ecb(EcbReply::Already(code)) => (PostAnswer::Already(code), 0),
        Reply::Ecb(EcbReply::Woke(exit)) => (PostAnswer::Woke, exit),
        _ => unreachable!(),
    }
}
