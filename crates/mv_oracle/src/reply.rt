//! What the numbers of a reply mean: specs/Reply.

ghost use Rattle.std.specs.Prelude.{◌≡◌};
ghost use Rattle.mv_element.specs.Code.{keeps_code};
ghost use Rattle.mv_oracle.specs.Reply.{ecb_reply_of, phase_of, state_of, element_reply_of, volume_reply_of, latch_reply_of, reply_of};

use crate::answer::Answer;
use mv_ecb::EcbReply;
use mv_element::{ElementReply, ElementState, Phase};
use mv_latch::LatchReply;
use mv_machine::{Object, Reply, VolumeReply};

fn ecb_reply(answer: &Answer) -> Option<EcbReply>
    ensures { result ≡ ecb_reply_of answer.now }
{
    match answer.reply {
        0 => Some(EcbReply::Armed),
        1 => Some(EcbReply::Linked(answer.a)),
        2 => Some(EcbReply::Complete(answer.a)),
        3 => Some(EcbReply::Waiting),
        4 => Some(EcbReply::Open),
        5 => Some(EcbReply::Posted),
        6 => Some(EcbReply::Woke(answer.a)),
        7 => Some(EcbReply::Already(answer.a)),
        8 => Some(EcbReply::Word(answer.a)),
        _ => None,
    }
}

fn phase(number: u32) -> Option<Phase>
    ensures { result ≡ phase_of number }
{
    match number {
        0 => Some(Phase::Free),
        1 => Some(Phase::Reset),
        2 => Some(Phase::Prereleased),
        3 => Some(Phase::Paused),
        4 => Some(Phase::Released),
        _ => None,
    }
}

fn keeps_code(phase: Phase) -> bool
    ensures { result ≡ keeps_code phase }
{
    match phase {
        Phase::Prereleased | Phase::Released => true,
        Phase::Free | Phase::Reset | Phase::Paused => false,
    }
}

fn state(generation: u32, phase: Option<Phase>, code: u32) -> Option<ElementState>
    ensures { result ≡ state_of generation phase code }
{
    let phase = phase?;
    if keeps_code(phase) || code == 0 {
        Some(ElementState::in_phase(phase, generation, code))
    } else {
        None
    }
}

fn element_reply(answer: &Answer) -> Option<ElementReply>
    ensures { result ≡ element_reply_of answer.now }
{
    match answer.reply {
        0 => Some(ElementReply::Opened(answer.a)),
        1 => Some(ElementReply::InUse),
        2 => Some(ElementReply::Parked),
        3 => Some(ElementReply::Given {
            code: answer.a,
            next: answer.b,
        }),
        4 => Some(ElementReply::Spent(answer.a)),
        5 => Some(ElementReply::Busy),
        6 => Some(ElementReply::NotYet),
        7 => Some(ElementReply::Early),
        8 => Some(ElementReply::Woke),
        9 => Some(ElementReply::Already),
        10 => Some(ElementReply::Closed),
        11 => Some(ElementReply::State(state(answer.a, phase(answer.b), answer.c)?)),
        _ => None,
    }
}

fn volume_reply(answer: &Answer) -> Option<VolumeReply>
    ensures { result ≡ volume_reply_of answer.now }
{
    match answer.reply {
        0 => Some(VolumeReply::Value(answer.a)),
        1 => Some(VolumeReply::Stored),
        _ => None,
    }
}

fn latch_reply(answer: &Answer) -> Option<LatchReply>
    ensures { result ≡ latch_reply_of answer.now }
{
    match answer.reply {
        0 => Some(LatchReply::Granted(answer.a)),
        1 => Some(LatchReply::Queued(answer.a)),
        2 => Some(LatchReply::NotNow(answer.a)),
        3 => Some(LatchReply::Waiting),
        4 => Some(LatchReply::Gone),
        5 => Some(LatchReply::Released { granted: answer.a }),
        6 => Some(LatchReply::Purged {
            removed: answer.a,
            granted: answer.b,
        }),
        _ => None,
    }
}

/// Returns the reply of an object of this kind, or `None` if a number has no meaning.
pub(crate) fn reply(object: Object, answer: &Answer) -> Option<Reply>
    ensures { result ≡ reply_of object answer.now }
{
    match object {
        Object::Ecb(_) => Some(Reply::Ecb(ecb_reply(answer)?)),
        Object::Element(_) => Some(Reply::Element(element_reply(answer)?)),
        Object::Volume(_) => Some(Reply::Volume(volume_reply(answer)?)),
        Object::Latches => Some(Reply::Latch(latch_reply(answer)?)),
    }
}
