//! Operations on volumes and their replies as text, by `specs/VolumeText.antt`.

ghost use Rattle.std.specs.Prelude.{◌≡◌, ◌≤◌, ◌+◌, ◌++◌, vec_len, vec_capacity};
ghost use Rattle.mv_operationtext.specs.VolumeText.{volume_op_text, volume_reply_text, volume_op, volume_reply};
ghost use Rattle.mv_operationtext.specs.Reading.{seen};
ghost use Rattle.mv_operationtext.specs.Widths.{op_width, reply_width};

use crate::number::{after, u32_behind};
use crate::reserved::{put_number, put_word};
use mv_machine::{VolumeOp, VolumeReply};

#[inline(always)]
pub(crate) fn put_volume_op(out: &mut Vec<u8>, op: VolumeOp)
    requires room { vec_len out.old + op_width ≤ vec_capacity out.old }
    ensures text { out.new.items ≡ out.old.items ++ volume_op_text op }
    ensures within { vec_len out.new ≤ vec_len out.old + op_width }
    ensures capacity { vec_capacity out.new ≡ vec_capacity out.old }
{
    match op {
        VolumeOp::Read => put_word(out, b"READ"),
        VolumeOp::Write(number) => put_number(out, b"WRITE ", number),
    }
}

#[inline(always)]
pub(crate) fn put_volume_reply(out: &mut Vec<u8>, reply: VolumeReply)
    requires room { vec_len out.old + reply_width ≤ vec_capacity out.old }
    ensures text { out.new.items ≡ out.old.items ++ volume_reply_text reply }
    ensures within { vec_len out.new ≤ vec_len out.old + reply_width }
    ensures capacity { vec_capacity out.new ≡ vec_capacity out.old }
{
    match reply {
        VolumeReply::Value(number) => put_number(out, b"VALUE ", number),
        VolumeReply::Stored => put_word(out, b"STORED"),
    }
}

#[tactic(auto, unfolding(crate::specs::VolumeText::volume_op))]
pub(crate) fn read_volume_op(strict: bool, text: &[u8]) -> Option<(VolumeOp, &[u8])>
    ensures { seen result ≡ volume_op strict text.now }
{
    if let Some(rest) = after(text, b"READ") {
        return Some((VolumeOp::Read, rest));
    }
    if let Some((number, rest)) = u32_behind(strict, text, b"WRITE ") {
        return Some((VolumeOp::Write(number), rest));
    }
    None
}

#[tactic(auto, unfolding(crate::specs::VolumeText::volume_reply))]
pub(crate) fn read_volume_reply(strict: bool, text: &[u8]) -> Option<(VolumeReply, &[u8])>
    ensures { seen result ≡ volume_reply strict text.now }
{
    if let Some((number, rest)) = u32_behind(strict, text, b"VALUE ") {
        return Some((VolumeReply::Value(number), rest));
    }
    if let Some(rest) = after(text, b"STORED") {
        return Some((VolumeReply::Stored, rest));
    }
    None
}
