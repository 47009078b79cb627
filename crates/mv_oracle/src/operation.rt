//! Operations as a struct of C: specs/Operation.

ghost use Rattle.std.specs.Prelude.{◌≡◌};
ghost use Rattle.mv_oracle.specs.Operation.{request_of, object_of, op_of, ecb_op_of, element_op_of, volume_op_of, latch_op_of};
ghost use Rattle.mv_oracle.specs.Operation.{mode_of, form_of, conditional_of, obtain_of, release_of};

use mv_ecb::EcbOp;
use mv_element::ElementOp;
use mv_latch::{LatchForm, LatchOp, Mode};
use mv_machine::{Object, Op, VolumeOp};

/// An operation of a caller on an object. Fields that the operation has no use for are ignored.
#[repr(C)]
#[derive(Clone, Copy)]
pub struct Operation {
    /// Counted from 0.
    pub caller: u32,
    /// 0 an event control block, 1 a pause element, 2 a volume, 3 the latch set.
    pub kind: u32,
    /// The number of the object, from 0. The latch set has none.
    pub object: u32,
    /// Of a block: 0 ARM, 1 EXTEND a, 2 SETTLE, 3 CLEAR, 4 POST a, 5 TEST. Of an element: 0 OPEN, 1 PAUSE a, 2 RESUME a, 3 RELEASE a b,
    /// 4 CLOSE a, 5 TEST. Of a volume: 0 READ, 1 WRITE a. Of the latch set: 0 OBTAIN, 1 CONFIRM, 2 RELEASE, 3 PURGE.
    pub operation: u32,
    /// Of the latch set: the latch.
    pub a: u32,
    /// Of the latch set: an OBTAIN has the mode, 0 shared or 1 exclusive; CONFIRM and RELEASE have the number of the request.
    pub b: u32,
    /// Of the latch set: an OBTAIN has the form, 0 conditional, 1 waiting or 2 posted; a RELEASE has 1 if it is conditional, and 0 if not.
    pub c: u32,
    /// Of the latch set: an OBTAIN of the posted form has the number of the event control block.
    pub d: u32,
    /// Of the latch set: an OBTAIN and a PURGE have the requestor.
    pub requestor: u64,
}

/// Returns the object that a kind and a number mean.
pub(crate) fn object(kind: u32, number: u32) -> Option<Object>
    ensures { result ≡ object_of kind number }
{
    match kind {
        0 => Some(Object::Ecb(number)),
        1 => Some(Object::Element(number)),
        2 => Some(Object::Volume(number)),
        3 => Some(Object::Latches),
        _ => None,
    }
}

fn ecb_op(operation: u32, a: u32) -> Option<EcbOp>
    ensures { result ≡ ecb_op_of operation a }
{
    match operation {
        0 => Some(EcbOp::Arm),
        1 => Some(EcbOp::Extend(a)),
        2 => Some(EcbOp::Settle),
        3 => Some(EcbOp::Clear),
        4 => Some(EcbOp::Post(a)),
        5 => Some(EcbOp::Test),
        _ => None,
    }
}

fn element_op(operation: u32, a: u32, b: u32) -> Option<ElementOp>
    ensures { result ≡ element_op_of operation a b }
{
    match operation {
        0 => Some(ElementOp::Open),
        1 => Some(ElementOp::Pause(a)),
        2 => Some(ElementOp::Resume(a)),
        3 => Some(ElementOp::Release(a, b)),
        4 => Some(ElementOp::Close(a)),
        5 => Some(ElementOp::Test),
        _ => None,
    }
}

fn volume_op(operation: u32, a: u32) -> Option<VolumeOp>
    ensures { result ≡ volume_op_of operation a }
{
    match operation {
        0 => Some(VolumeOp::Read),
        1 => Some(VolumeOp::Write(a)),
        _ => None,
    }
}

fn mode(number: u32) -> Option<Mode>
    ensures { result ≡ mode_of number }
{
    match number {
        0 => Some(Mode::Shared),
        1 => Some(Mode::Exclusive),
        _ => None,
    }
}

fn form(number: u32, ecb: u32) -> Option<LatchForm>
    ensures { result ≡ form_of number ecb }
{
    match number {
        0 => Some(LatchForm::Conditional),
        1 => Some(LatchForm::Waiting),
        2 => Some(LatchForm::Posted(ecb)),
        _ => None,
    }
}

fn conditional(number: u32) -> Option<bool>
    ensures { result ≡ conditional_of number }
{
    match number {
        0 => Some(false),
        1 => Some(true),
        _ => None,
    }
}

impl Operation {
    fn obtain(&self) -> Option<LatchOp>
        ensures { result ≡ obtain_of self.now.a self.now.requestor (mode_of self.now.b) (form_of self.now.c self.now.d) }
    {
        let mode = mode(self.b)?;
        let form = form(self.c, self.d)?;
        Some(LatchOp::Obtain {
            latch: self.a,
            requestor: self.requestor,
            mode,
            form,
        })
    }

    fn release(&self) -> Option<LatchOp>
        ensures { result ≡ release_of self.now.a self.now.b (conditional_of self.now.c) }
    {
        let conditional = conditional(self.c)?;
        Some(LatchOp::Release {
            latch: self.a,
            id: self.b,
            conditional,
        })
    }

    fn latch_op(&self) -> Option<LatchOp>
        ensures { result ≡ latch_op_of self.now }
    {
        match self.operation {
            0 => self.obtain(),
            1 => Some(LatchOp::Confirm {
                latch: self.a,
                id: self.b,
            }),
            2 => self.release(),
            3 => Some(LatchOp::Purge {
                requestor: self.requestor,
            }),
            _ => None,
        }
    }

    // The operation on an object of this kind.
    fn op_on(&self, object: Object) -> Option<Op>
        ensures { result ≡ op_of self.now object }
    {
        match object {
            Object::Ecb(_) => Some(Op::Ecb(ecb_op(self.operation, self.a)?)),
            Object::Element(_) => Some(Op::Element(element_op(self.operation, self.a, self.b)?)),
            Object::Volume(_) => Some(Op::Volume(volume_op(self.operation, self.a)?)),
            Object::Latches => Some(Op::Latch(self.latch_op()?)),
        }
    }

    /// Returns the object and the operation on it, or `None` if a number has no meaning.
    pub(crate) fn request(&self) -> Option<(Object, Op)>
        ensures { result ≡ request_of self.now }
    {
        let object = object(self.kind, self.object)?;
        let op = self.op_on(object)?;
        Some((object, op))
    }
}
