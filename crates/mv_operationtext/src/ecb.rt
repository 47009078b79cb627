//! Operations on event control blocks and their replies as text, by `specs/EcbText.antt`.

ghost use Rattle.std.specs.Prelude.{◌≡◌, ◌≤◌, ◌+◌, ◌++◌, vec_len, vec_capacity};
ghost use Rattle.mv_operationtext.specs.EcbText.{ecb_op_text, ecb_reply_text, ecb_op, ecb_reply};
ghost use Rattle.mv_operationtext.specs.Reading.{seen};
ghost use Rattle.mv_operationtext.specs.Widths.{op_width, reply_width};

use crate::number::{after, number_behind, u32_behind};
use crate::reserved::{put_number, put_word};
use mv_ecb::{EcbOp, EcbReply};

#[inline(always)]
pub(crate) fn put_ecb_op(out: &mut Vec<u8>, op: EcbOp)
    requires room { vec_len out.old + op_width ≤ vec_capacity out.old }
    ensures text { out.new.items ≡ out.old.items ++ ecb_op_text op }
    ensures within { vec_len out.new ≤ vec_len out.old + op_width }
    ensures capacity { vec_capacity out.new ≡ vec_capacity out.old }
{
    match op {
        EcbOp::Arm => put_word(out, b"ARM"),
        EcbOp::Extend(exit) => put_number(out, b"EXTEND ", exit),
        EcbOp::Settle => put_word(out, b"SETTLE"),
        EcbOp::Clear => put_word(out, b"CLEAR"),
        EcbOp::Post(code) => put_number(out, b"POST ", code),
        EcbOp::Test => put_word(out, b"TEST"),
    }
}

#[inline(always)]
pub(crate) fn put_ecb_reply(out: &mut Vec<u8>, reply: EcbReply)
    requires room { vec_len out.old + reply_width ≤ vec_capacity out.old }
    ensures text { out.new.items ≡ out.old.items ++ ecb_reply_text reply }
    ensures within { vec_len out.new ≤ vec_len out.old + reply_width }
    ensures capacity { vec_capacity out.new ≡ vec_capacity out.old }
{
    match reply {
        EcbReply::Armed => put_word(out, b"ARMED"),
        EcbReply::Linked(exit) => put_number(out, b"LINKED ", exit),
        EcbReply::Complete(code) => put_number(out, b"COMPLETE ", code),
        EcbReply::Waiting => put_word(out, b"WAITING"),
        EcbReply::Open => put_word(out, b"OPEN"),
        EcbReply::Posted => put_word(out, b"POSTED"),
        EcbReply::Woke(exit) => put_number(out, b"WOKE ", exit),
        EcbReply::Already(code) => put_number(out, b"ALREADY ", code),
        EcbReply::Word(word) => put_number(out, b"WORD ", word),
    }
}

/// The highest completion code, and the highest number of an exit: 30 bits.
const HIGHEST_CODE: u32 = 1_073_741_823;

#[inline(always)]
#[tactic(auto, unfolding(crate::specs::EcbText::ecb_op))]
pub(crate) fn read_ecb_op(strict: bool, text: &[u8]) -> Option<(EcbOp, &[u8])>
    ensures { seen result ≡ ecb_op strict text.now }
{
    if let Some(rest) = after(text, b"ARM") {
        return Some((EcbOp::Arm, rest));
    }
    if let Some((exit, rest)) = number_behind(strict, 1, HIGHEST_CODE, text, b"EXTEND ") {
        return Some((EcbOp::Extend(exit), rest));
    }
    if let Some(rest) = after(text, b"SETTLE") {
        return Some((EcbOp::Settle, rest));
    }
    if let Some(rest) = after(text, b"CLEAR") {
        return Some((EcbOp::Clear, rest));
    }
    if let Some((code, rest)) = number_behind(strict, 0, HIGHEST_CODE, text, b"POST ") {
        return Some((EcbOp::Post(code), rest));
    }
    if let Some(rest) = after(text, b"TEST") {
        return Some((EcbOp::Test, rest));
    }
    None
}

#[inline(always)]
#[tactic(auto, unfolding(crate::specs::EcbText::ecb_reply))]
pub(crate) fn read_ecb_reply(strict: bool, text: &[u8]) -> Option<(EcbReply, &[u8])>
    ensures { seen result ≡ ecb_reply strict text.now }
{
    if let Some(rest) = after(text, b"ARMED") {
        return Some((EcbReply::Armed, rest));
    }
    if let Some((exit, rest)) = number_behind(strict, 1, HIGHEST_CODE, text, b"LINKED ") {
        return Some((EcbReply::Linked(exit), rest));
    }
    if let Some((code, rest)) = number_behind(strict, 0, HIGHEST_CODE, text, b"COMPLETE ") {
        return Some((EcbReply::Complete(code), rest));
    }
    if let Some(rest) = after(text, b"WAITING") {
        return Some((EcbReply::Waiting, rest));
    }
    if let Some(rest) = after(text, b"OPEN") {
        return Some((EcbReply::Open, rest));
    }
    if let Some(rest) = after(text, b"POSTED") {
        return Some((EcbReply::Posted, rest));
    }
    if let Some((exit, rest)) = number_behind(strict, 0, HIGHEST_CODE, text, b"WOKE ") {
        return Some((EcbReply::Woke(exit), rest));
    }
    if let Some((code, rest)) = number_behind(strict, 0, HIGHEST_CODE, text, b"ALREADY ") {
        return Some((EcbReply::Already(code), rest));
    }
    if let Some((word, rest)) = u32_behind(strict, text, b"WORD ") {
        return Some((EcbReply::Word(word), rest));
    }
    None
}
