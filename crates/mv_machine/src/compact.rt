//! An entry in 40 bytes, by `specs/Compact.antt`: the kinds of its operation and of its reply, and the numbers that any of
//! these kinds have.

ghost use Rattle.std.specs.Prelude.{◌≡◌, ℕ};
ghost use Rattle.mv_machine.specs.Compact.{op_of, reply_of, entry_of};

use crate::entry::{Entry, Object, Op, Reply, VolumeOp, VolumeReply};
use mv_ecb::{EcbOp, EcbReply};
use mv_element::{ElementOp, ElementReply, ElementState, Phase};
use mv_latch::{LatchForm, LatchOp, LatchReply, Mode};

/// An operation without its numbers.
#[derive(Clone, Copy)]
pub(crate) enum OpKind {
    EcbArm,
    EcbExtend,
    EcbSettle,
    EcbClear,
    EcbPost,
    EcbTest,
    ElementOpen,
    ElementPause,
    ElementResume,
    ElementRelease,
    ElementClose,
    ElementTest,
    VolumeRead,
    VolumeWrite,
    LatchObtainConditional,
    LatchObtainWaiting,
    LatchObtainPosted,
    LatchConfirm,
    LatchRelease,
    LatchReleaseConditional,
    LatchPurge,
}

/// A reply without its numbers.
#[derive(Clone, Copy)]
pub(crate) enum ReplyKind {
    EcbArmed,
    EcbLinked,
    EcbComplete,
    EcbWaiting,
    EcbOpen,
    EcbPosted,
    EcbWoke,
    EcbAlready,
    EcbWord,
    ElementOpened,
    ElementInUse,
    ElementParked,
    ElementGiven,
    ElementSpent,
    ElementBusy,
    ElementNotYet,
    ElementEarly,
    ElementWoke,
    ElementAlready,
    ElementClosed,
    ElementState,
    VolumeValue,
    VolumeStored,
    LatchGranted,
    LatchQueued,
    LatchNotNow,
    LatchWaiting,
    LatchGone,
    LatchReleased,
    LatchPurged,
}

/// An operation as its kind and its numbers. A field that its kind does not use is 0, or the first value of its type.
#[derive(Clone, Copy)]
pub(crate) struct OpParts {
    pub kind: OpKind,
    pub mode: Mode,
    pub requestor: u64,
    pub first: u32,
    pub second: u32,
}

/// A reply as its kind and its numbers. A field that its kind does not use is 0, or the first value of its type.
#[derive(Clone, Copy)]
pub(crate) struct ReplyParts {
    pub kind: ReplyKind,
    pub phase: Phase,
    pub first: u32,
    pub second: u32,
}

/// An entry without its caller. The order of its fields leaves no gap between them.
#[derive(Clone, Copy)]
pub(crate) struct CompactEntry {
    pub requestor: u64,
    pub object: Object,
    pub place: u32,
    pub op_first: u32,
    pub op_second: u32,
    pub reply_first: u32,
    pub reply_second: u32,
    pub op: OpKind,
    pub mode: Mode,
    pub reply: ReplyKind,
    pub phase: Phase,
}

// Makes an operation of a kind with at most two numbers.
#[inline(always)]
fn op(kind: OpKind, first: u32, second: u32) -> OpParts
    ensures { result ≡ record { kind = kind; mode = Mode.Shared; requestor = 0; first = first; second = second } }
{
    OpParts {
        kind,
        mode: Mode::Shared,
        requestor: 0,
        first,
        second,
    }
}

#[inline(always)]
fn compact_ecb_op(ecb: EcbOp) -> OpParts
    ensures { op_of result ≡ Op.Ecb ecb }
{
    match ecb {
        EcbOp::Arm => op(OpKind::EcbArm, 0, 0),
        EcbOp::Extend(exit) => op(OpKind::EcbExtend, exit, 0),
        EcbOp::Settle => op(OpKind::EcbSettle, 0, 0),
        EcbOp::Clear => op(OpKind::EcbClear, 0, 0),
        EcbOp::Post(code) => op(OpKind::EcbPost, code, 0),
        EcbOp::Test => op(OpKind::EcbTest, 0, 0),
    }
}

#[inline(always)]
fn compact_element_op(element: ElementOp) -> OpParts
    ensures { op_of result ≡ Op.Element element }
{
    match element {
        ElementOp::Open => op(OpKind::ElementOpen, 0, 0),
        ElementOp::Pause(generation) => op(OpKind::ElementPause, generation, 0),
        ElementOp::Resume(generation) => op(OpKind::ElementResume, generation, 0),
        ElementOp::Release(generation, code) => op(OpKind::ElementRelease, generation, code),
        ElementOp::Close(generation) => op(OpKind::ElementClose, generation, 0),
        ElementOp::Test => op(OpKind::ElementTest, 0, 0),
    }
}

#[inline(always)]
fn compact_latch_op(latch: LatchOp) -> OpParts
    ensures { op_of result ≡ Op.Latch latch }
{
    match latch {
        LatchOp::Obtain {
            latch,
            requestor,
            mode,
            form,
        } => {
            let (kind, second) = match form {
                LatchForm::Conditional => (OpKind::LatchObtainConditional, 0),
                LatchForm::Waiting => (OpKind::LatchObtainWaiting, 0),
                LatchForm::Posted(ecb) => (OpKind::LatchObtainPosted, ecb),
            };
            OpParts {
                kind,
                mode,
                requestor,
                first: latch,
                second,
            }
        }
        LatchOp::Confirm { latch, id } => op(OpKind::LatchConfirm, latch, id),
        LatchOp::Release {
            latch,
            id,
            conditional: false,
        } => op(OpKind::LatchRelease, latch, id),
        LatchOp::Release {
            latch,
            id,
            conditional: true,
        } => op(OpKind::LatchReleaseConditional, latch, id),
        LatchOp::Purge { requestor } => OpParts {
            kind: OpKind::LatchPurge,
            mode: Mode::Shared,
            requestor,
            first: 0,
            second: 0,
        },
    }
}

#[inline(always)]
fn compact_op(whole: Op) -> OpParts
    ensures { op_of result ≡ whole }
{
    match whole {
        Op::Ecb(ecb) => compact_ecb_op(ecb),
        Op::Element(element) => compact_element_op(element),
        Op::Volume(VolumeOp::Read) => op(OpKind::VolumeRead, 0, 0),
        Op::Volume(VolumeOp::Write(number)) => op(OpKind::VolumeWrite, number, 0),
        Op::Latch(latch) => compact_latch_op(latch),
    }
}

impl OpParts {
    // Returns the operation that these parts encode.
    #[inline(always)]
    fn whole(self) -> Op
        ensures { result ≡ op_of self }
    {
        let OpParts {
            mode,
            requestor,
            first,
            second,
            ..
        } = self;
        match self.kind {
            OpKind::EcbArm => Op::Ecb(EcbOp::Arm),
            OpKind::EcbExtend => Op::Ecb(EcbOp::Extend(first)),
            OpKind::EcbSettle => Op::Ecb(EcbOp::Settle),
            OpKind::EcbClear => Op::Ecb(EcbOp::Clear),
            OpKind::EcbPost => Op::Ecb(EcbOp::Post(first)),
            OpKind::EcbTest => Op::Ecb(EcbOp::Test),
            OpKind::ElementOpen => Op::Element(ElementOp::Open),
            OpKind::ElementPause => Op::Element(ElementOp::Pause(first)),
            OpKind::ElementResume => Op::Element(ElementOp::Resume(first)),
            OpKind::ElementRelease => Op::Element(ElementOp::Release(first, second)),
            OpKind::ElementClose => Op::Element(ElementOp::Close(first)),
            OpKind::ElementTest => Op::Element(ElementOp::Test),
            OpKind::VolumeRead => Op::Volume(VolumeOp::Read),
            OpKind::VolumeWrite => Op::Volume(VolumeOp::Write(first)),
            OpKind::LatchObtainConditional => obtain(
                first,
                requestor,
                mode,
                LatchForm::Conditional,
            ),
            OpKind::LatchObtainWaiting => obtain(first, requestor, mode, LatchForm::Waiting),
            OpKind::LatchObtainPosted => obtain(first, requestor, mode, LatchForm::Posted(second)),
            OpKind::LatchConfirm => Op::Latch(LatchOp::Confirm {
                latch: first,
                id: second,
            }),
            OpKind::LatchRelease => release(first, second, false),
            OpKind::LatchReleaseConditional => release(first, second, true),
            OpKind::LatchPurge => Op::Latch(LatchOp::Purge { requestor }),
        }
    }
}

#[inline(always)]
fn obtain(latch: u32, requestor: u64, mode: Mode, form: LatchForm) -> Op
    ensures { result ≡ Op.Latch (LatchOp.Obtain latch requestor mode form) }
{
    Op::Latch(LatchOp::Obtain {
        latch,
        requestor,
        mode,
        form,
    })
}

#[inline(always)]
fn release(latch: u32, id: u32, conditional: bool) -> Op
    ensures { result ≡ Op.Latch (LatchOp.Release latch id conditional) }
{
    Op::Latch(LatchOp::Release {
        latch,
        id,
        conditional,
    })
}

// Makes a reply of a kind with at most two numbers.
#[inline(always)]
fn reply(kind: ReplyKind, first: u32, second: u32) -> ReplyParts
    ensures { result ≡ record { kind = kind; phase = Phase.Free; first = first; second = second } }
{
    ReplyParts {
        kind,
        phase: Phase::Free,
        first,
        second,
    }
}

#[inline(always)]
fn compact_ecb_reply(ecb: EcbReply) -> ReplyParts
    ensures { reply_of result ≡ Reply.Ecb ecb }
{
    match ecb {
        EcbReply::Armed => reply(ReplyKind::EcbArmed, 0, 0),
        EcbReply::Linked(exit) => reply(ReplyKind::EcbLinked, exit, 0),
        EcbReply::Complete(code) => reply(ReplyKind::EcbComplete, code, 0),
        EcbReply::Waiting => reply(ReplyKind::EcbWaiting, 0, 0),
        EcbReply::Open => reply(ReplyKind::EcbOpen, 0, 0),
        EcbReply::Posted => reply(ReplyKind::EcbPosted, 0, 0),
        EcbReply::Woke(exit) => reply(ReplyKind::EcbWoke, exit, 0),
        EcbReply::Already(code) => reply(ReplyKind::EcbAlready, code, 0),
        EcbReply::Word(word) => reply(ReplyKind::EcbWord, word, 0),
    }
}

#[inline(always)]
#[tactic(auto, using(mv_element::proofs::States::state_by_phase))]
fn compact_element_reply(element: ElementReply) -> ReplyParts
    ensures { reply_of result ≡ Reply.Element element }
{
    match element {
        ElementReply::Opened(generation) => reply(ReplyKind::ElementOpened, generation, 0),
        ElementReply::InUse => reply(ReplyKind::ElementInUse, 0, 0),
        ElementReply::Parked => reply(ReplyKind::ElementParked, 0, 0),
        ElementReply::Given { code, next } => reply(ReplyKind::ElementGiven, code, next),
        ElementReply::Spent(generation) => reply(ReplyKind::ElementSpent, generation, 0),
        ElementReply::Busy => reply(ReplyKind::ElementBusy, 0, 0),
        ElementReply::NotYet => reply(ReplyKind::ElementNotYet, 0, 0),
        ElementReply::Early => reply(ReplyKind::ElementEarly, 0, 0),
        ElementReply::Woke => reply(ReplyKind::ElementWoke, 0, 0),
        ElementReply::Already => reply(ReplyKind::ElementAlready, 0, 0),
        ElementReply::Closed => reply(ReplyKind::ElementClosed, 0, 0),
        ElementReply::State(state) => ReplyParts {
            kind: ReplyKind::ElementState,
            phase: state.phase,
            first: state.generation,
            second: state.code,
        },
    }
}

#[inline(always)]
fn compact_latch_reply(latch: LatchReply) -> ReplyParts
    ensures { reply_of result ≡ Reply.Latch latch }
{
    match latch {
        LatchReply::Granted(id) => reply(ReplyKind::LatchGranted, id, 0),
        LatchReply::Queued(id) => reply(ReplyKind::LatchQueued, id, 0),
        LatchReply::NotNow(id) => reply(ReplyKind::LatchNotNow, id, 0),
        LatchReply::Waiting => reply(ReplyKind::LatchWaiting, 0, 0),
        LatchReply::Gone => reply(ReplyKind::LatchGone, 0, 0),
        LatchReply::Released { granted } => reply(ReplyKind::LatchReleased, granted, 0),
        LatchReply::Purged { removed, granted } => reply(ReplyKind::LatchPurged, removed, granted),
    }
}

#[inline(always)]
fn compact_reply(whole: Reply) -> ReplyParts
    ensures { reply_of result ≡ whole }
{
    match whole {
        Reply::Ecb(ecb) => compact_ecb_reply(ecb),
        Reply::Element(element) => compact_element_reply(element),
        Reply::Volume(VolumeReply::Value(number)) => reply(ReplyKind::VolumeValue, number, 0),
        Reply::Volume(VolumeReply::Stored) => reply(ReplyKind::VolumeStored, 0, 0),
        Reply::Latch(latch) => compact_latch_reply(latch),
    }
}

impl ReplyParts {
    // Returns the reply that these parts encode.
    #[inline(always)]
    fn whole(self) -> Reply
        ensures { result ≡ reply_of self }
    {
        let ReplyParts {
            phase,
            first,
            second,
            ..
        } = self;
        match self.kind {
            ReplyKind::EcbArmed => Reply::Ecb(EcbReply::Armed),
            ReplyKind::EcbLinked => Reply::Ecb(EcbReply::Linked(first)),
            ReplyKind::EcbComplete => Reply::Ecb(EcbReply::Complete(first)),
            ReplyKind::EcbWaiting => Reply::Ecb(EcbReply::Waiting),
            ReplyKind::EcbOpen => Reply::Ecb(EcbReply::Open),
            ReplyKind::EcbPosted => Reply::Ecb(EcbReply::Posted),
            ReplyKind::EcbWoke => Reply::Ecb(EcbReply::Woke(first)),
            ReplyKind::EcbAlready => Reply::Ecb(EcbReply::Already(first)),
            ReplyKind::EcbWord => Reply::Ecb(EcbReply::Word(first)),
            ReplyKind::ElementOpened => Reply::Element(ElementReply::Opened(first)),
            ReplyKind::ElementInUse => Reply::Element(ElementReply::InUse),
            ReplyKind::ElementParked => Reply::Element(ElementReply::Parked),
            ReplyKind::ElementGiven => Reply::Element(ElementReply::Given {
                code: first,
                next: second,
            }),
            ReplyKind::ElementSpent => Reply::Element(ElementReply::Spent(first)),
            ReplyKind::ElementBusy => Reply::Element(ElementReply::Busy),
            ReplyKind::ElementNotYet => Reply::Element(ElementReply::NotYet),
            ReplyKind::ElementEarly => Reply::Element(ElementReply::Early),
            ReplyKind::ElementWoke => Reply::Element(ElementReply::Woke),
            ReplyKind::ElementAlready => Reply::Element(ElementReply::Already),
            ReplyKind::ElementClosed => Reply::Element(ElementReply::Closed),
            ReplyKind::ElementState => Reply::Element(ElementReply::State(ElementState::in_phase(
                phase, first, second,
            ))),
            ReplyKind::VolumeValue => Reply::Volume(VolumeReply::Value(first)),
            ReplyKind::VolumeStored => Reply::Volume(VolumeReply::Stored),
            ReplyKind::LatchGranted => Reply::Latch(LatchReply::Granted(first)),
            ReplyKind::LatchQueued => Reply::Latch(LatchReply::Queued(first)),
            ReplyKind::LatchNotNow => Reply::Latch(LatchReply::NotNow(first)),
            ReplyKind::LatchWaiting => Reply::Latch(LatchReply::Waiting),
            ReplyKind::LatchGone => Reply::Latch(LatchReply::Gone),
            ReplyKind::LatchReleased => Reply::Latch(LatchReply::Released { granted: first }),
            ReplyKind::LatchPurged => Reply::Latch(LatchReply::Purged {
                removed: first,
                granted: second,
            }),
        }
    }
}

impl CompactEntry {
    /// Returns the compact form of an entry, which leaves out its caller.
    #[inline(always)]
    pub(crate) fn of(object: Object, place: u32, op: Op, reply: Reply) -> CompactEntry
        ensures { (caller : ℕ) → entry_of caller result
            ≡ record { caller = caller; object = object; place = place; op = op; reply = reply } }
    {
        let op = compact_op(op);
        let reply = compact_reply(reply);
        CompactEntry {
            requestor: op.requestor,
            object,
            place,
            op_first: op.first,
            op_second: op.second,
            reply_first: reply.first,
            reply_second: reply.second,
            op: op.kind,
            mode: op.mode,
            reply: reply.kind,
            phase: reply.phase,
        }
    }

    /// Returns the whole entry, which is this caller's.
    #[inline(always)]
    pub(crate) fn entry(&self, caller: u32) -> Entry
        ensures { result ≡ entry_of caller self.now }
    {
        let op = OpParts {
            kind: self.op,
            mode: self.mode,
            requestor: self.requestor,
            first: self.op_first,
            second: self.op_second,
        };
        let reply = ReplyParts {
            kind: self.reply,
            phase: self.phase,
            first: self.reply_first,
            second: self.reply_second,
        };
        Entry {
            caller,
            object: self.object,
            place: self.place,
            op: op.whole(),
            reply: reply.whole(),
        }
    }
}
