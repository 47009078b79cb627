//! The place of an event and its reply as a struct of C: specs/Answer.

ghost use Rattle.std.specs.Prelude.{◌≡◌};
ghost use Rattle.mv_oracle.specs.Answer.{answer_with, ecb_answer, element_answer, volume_answer, latch_answer, answer_of, phase_number};

use mv_ecb::EcbReply;
use mv_element::{ElementReply, Phase};
use mv_latch::LatchReply;
use mv_machine::{Reply, VolumeReply};

/// The place of an event, and its reply. Fields that the reply has no use for are 0.
#[repr(C)]
#[derive(Clone, Copy)]
pub struct Answer {
    /// How many events the object had before this one.
    pub place: u32,
    /// Of a block: 0 ARMED, 1 LINKED a, 2 COMPLETE a, 3 WAITING, 4 OPEN, 5 POSTED, 6 WOKE a, 7 ALREADY a, 8 WORD a. Of an element:
    /// 0 OPENED a, 1 IN USE, 2 PARKED, 3 GIVEN code a, next b, 4 SPENT a, 5 BUSY, 6 NOT YET, 7 EARLY, 8 WOKE, 9 ALREADY, 10 CLOSED,
    /// 11 STATE generation a, phase b (0 free, 1 reset, 2 prereleased, 3 paused, 4 released), code c. Of a volume: 0 VALUE a, 1 STORED.
    /// Of the latch set: 0 GRANTED a, 1 QUEUED a, 2 NOT NOW a, 3 WAITING, 4 GONE, 5 RELEASED a, 6 PURGED removed a, granted b.
    pub reply: u32,
    pub a: u32,
    pub b: u32,
    pub c: u32,
}

fn fields(place: u32, reply: u32, a: u32, b: u32, c: u32) -> Answer
    ensures { result ≡ answer_with place reply a b c }
{
    Answer {
        place,
        reply,
        a,
        b,
        c,
    }
}

fn ecb_reply(place: u32, reply: EcbReply) -> Answer
    ensures { result ≡ ecb_answer place reply }
{
    match reply {
        EcbReply::Armed => fields(place, 0, 0, 0, 0),
        EcbReply::Linked(x) => fields(place, 1, x, 0, 0),
        EcbReply::Complete(d) => fields(place, 2, d, 0, 0),
        EcbReply::Waiting => fields(place, 3, 0, 0, 0),
        EcbReply::Open => fields(place, 4, 0, 0, 0),
        EcbReply::Posted => fields(place, 5, 0, 0, 0),
        EcbReply::Woke(x) => fields(place, 6, x, 0, 0),
        EcbReply::Already(d) => fields(place, 7, d, 0, 0),
        EcbReply::Word(w) => fields(place, 8, w, 0, 0),
    }
}

fn phase_value(phase: Phase) -> u32
    ensures { result ≡ phase_number phase }
{
    match phase {
        Phase::Free => 0,
        Phase::Reset => 1,
        Phase::Prereleased => 2,
        Phase::Paused => 3,
        Phase::Released => 4,
    }
}

fn element_reply(place: u32, reply: ElementReply) -> Answer
    ensures { result ≡ element_answer place reply }
{
    match reply {
        ElementReply::Opened(g) => fields(place, 0, g, 0, 0),
        ElementReply::InUse => fields(place, 1, 0, 0, 0),
        ElementReply::Parked => fields(place, 2, 0, 0, 0),
        ElementReply::Given { code, next } => fields(place, 3, code, next, 0),
        ElementReply::Spent(g) => fields(place, 4, g, 0, 0),
        ElementReply::Busy => fields(place, 5, 0, 0, 0),
        ElementReply::NotYet => fields(place, 6, 0, 0, 0),
        ElementReply::Early => fields(place, 7, 0, 0, 0),
        ElementReply::Woke => fields(place, 8, 0, 0, 0),
        ElementReply::Already => fields(place, 9, 0, 0, 0),
        ElementReply::Closed => fields(place, 10, 0, 0, 0),
        ElementReply::State(s) => fields(place, 11, s.generation, phase_value(s.phase), s.code),
    }
}

fn volume_reply(place: u32, reply: VolumeReply) -> Answer
    ensures { result ≡ volume_answer place reply }
{
    match reply {
        VolumeReply::Value(n) => fields(place, 0, n, 0, 0),
        VolumeReply::Stored => fields(place, 1, 0, 0, 0),
    }
}

fn latch_reply(place: u32, reply: LatchReply) -> Answer
    ensures { result ≡ latch_answer place reply }
{
    match reply {
        LatchReply::Granted(id) => fields(place, 0, id, 0, 0),
        LatchReply::Queued(id) => fields(place, 1, id, 0, 0),
        LatchReply::NotNow(id) => fields(place, 2, id, 0, 0),
        LatchReply::Waiting => fields(place, 3, 0, 0, 0),
        LatchReply::Gone => fields(place, 4, 0, 0, 0),
        LatchReply::Released { granted } => fields(place, 5, granted, 0, 0),
        LatchReply::Purged { removed, granted } => fields(place, 6, removed, granted, 0),
    }
}

impl Answer {
    /// Returns the answer with this place and reply.
    pub(crate) fn of(place: u32, reply: Reply) -> Answer
        ensures { result ≡ answer_of place reply }
    {
        match reply {
            Reply::Ecb(reply) => ecb_reply(place, reply),
            Reply::Element(reply) => element_reply(place, reply),
            Reply::Volume(reply) => volume_reply(place, reply),
            Reply::Latch(reply) => latch_reply(place, reply),
        }
    }
}
