//! The ranges that the types of an entry's numbers give, by `EntryText.antt` of mv_operationtext. These functions change nothing and return
//! nothing: they are called for their clauses. `tell_history` goes through the logs once, which a compiler may leave out.

ghost use Rattle.std.specs.Prelude.{◌≤◌, All};
ghost use Rattle.mv_operationtext.specs.EcbText.{IsEcbReplyTyped};
ghost use Rattle.mv_operationtext.specs.ElementText.{IsElementOpTyped};
ghost use Rattle.mv_operationtext.specs.EntryText.{IsObjectTyped, IsOpTyped, IsReplyTyped, IsTyped};
ghost use Rattle.mv_operationtext.specs.LatchText.{IsFormTyped, IsLatchOpTyped, IsLatchReplyTyped};
ghost use Rattle.mv_operationtext.specs.Ranges.{highest_u32, highest_u64};
ghost use Rattle.mv_operationtext.specs.VolumeText.{IsVolumeOpTyped, IsVolumeReplyTyped};

use mv_ecb::EcbReply;
use mv_element::ElementOp;
use mv_latch::{LatchForm, LatchOp, LatchReply};
use mv_machine::{Entry, History, Log, Object, Op, Reply, VolumeOp, VolumeReply};

#[inline(always)]
fn tell_u32(_number: u32)
    ensures { _number ≤ highest_u32 }
{}

#[inline(always)]
fn tell_u64(_number: u64)
    ensures { _number ≤ highest_u64 }
{}

#[inline(always)]
fn tell_object(object: Object)
    ensures { IsObjectTyped object }
{
    match object {
        Object::Ecb(number) => tell_u32(number),
        Object::Element(number) => tell_u32(number),
        Object::Volume(number) => tell_u32(number),
        Object::Latches => {}
    }
}

#[inline(always)]
fn tell_element_op(op: ElementOp)
    ensures { IsElementOpTyped op }
{
    match op {
        ElementOp::Pause(generation) => tell_u32(generation),
        ElementOp::Resume(generation) => tell_u32(generation),
        ElementOp::Release(generation, _) => tell_u32(generation),
        ElementOp::Close(generation) => tell_u32(generation),
        ElementOp::Open | ElementOp::Test => {}
    }
}

#[inline(always)]
fn tell_volume_op(op: VolumeOp)
    ensures { IsVolumeOpTyped op }
{
    match op {
        VolumeOp::Read => {}
        VolumeOp::Write(number) => tell_u32(number),
    }
}

#[inline(always)]
fn tell_form(form: LatchForm)
    ensures { IsFormTyped form }
{
    match form {
        LatchForm::Conditional | LatchForm::Waiting => {}
        LatchForm::Posted(ecb) => tell_u32(ecb),
    }
}

#[inline(always)]
fn tell_latch_op(op: LatchOp)
    ensures { IsLatchOpTyped op }
{
    match op {
        LatchOp::Obtain {
            latch,
            requestor,
            form,
            ..
        } => {
            tell_u32(latch);
            tell_u64(requestor);
            tell_form(form);
        }
        LatchOp::Confirm { latch, id } => {
            tell_u32(latch);
            tell_u32(id);
        }
        LatchOp::Release { latch, id, .. } => {
            tell_u32(latch);
            tell_u32(id);
        }
        LatchOp::Purge { requestor } => tell_u64(requestor),
    }
}

#[inline(always)]
fn tell_op(op: Op)
    ensures { IsOpTyped op }
{
    match op {
        Op::Ecb(_) => {}
        Op::Element(op) => tell_element_op(op),
        Op::Volume(op) => tell_volume_op(op),
        Op::Latch(op) => tell_latch_op(op),
    }
}

#[inline(always)]
fn tell_ecb_reply(reply: EcbReply)
    ensures { IsEcbReplyTyped reply }
{
    match reply {
        EcbReply::Word(word) => tell_u32(word),
        _ => {}
    }
}

#[inline(always)]
fn tell_volume_reply(reply: VolumeReply)
    ensures { IsVolumeReplyTyped reply }
{
    match reply {
        VolumeReply::Value(number) => tell_u32(number),
        VolumeReply::Stored => {}
    }
}

#[inline(always)]
fn tell_latch_reply(reply: LatchReply)
    ensures { IsLatchReplyTyped reply }
{
    match reply {
        LatchReply::Granted(id) => tell_u32(id),
        LatchReply::Queued(id) => tell_u32(id),
        LatchReply::NotNow(id) => tell_u32(id),
        LatchReply::Waiting | LatchReply::Gone => {}
        LatchReply::Released { granted } => tell_u32(granted),
        LatchReply::Purged { removed, granted } => {
            tell_u32(removed);
            tell_u32(granted);
        }
    }
}

#[inline(always)]
fn tell_reply(reply: Reply)
    ensures { IsReplyTyped reply }
{
    match reply {
        Reply::Ecb(reply) => tell_ecb_reply(reply),
        Reply::Element(_) => {}
        Reply::Volume(reply) => tell_volume_reply(reply),
        Reply::Latch(reply) => tell_latch_reply(reply),
    }
}

/// Shows that each number of an entry fits its type.
#[inline(always)]
pub(crate) fn tell_entry(entry: &Entry)
    ensures { IsTyped entry.now }
{
    tell_u32(entry.caller);
    tell_object(entry.object);
    tell_op(entry.op);
    tell_reply(entry.reply);
}

#[inline(always)]
fn tell_log(log: &Log)
    ensures { All IsTyped log.now }
{
    for at in 0..log.len() {
        if let Some(entry) = log.get(at) {
            tell_entry(&entry);
        }
    }
}

/// Shows that the numbers of the entries that are still to come of a history fit their types.
#[inline(always)]
pub(crate) fn tell_history(history: &History)
    ensures { All IsTyped history.now.coming }
{
    let logs = history.logs();
    for log in logs {
        tell_log(log);
    }
}
