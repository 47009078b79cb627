//! Operations on the latch set and their replies as text, by `specs/LatchText.antt`.

ghost use Rattle.std.specs.Prelude.{◌≡◌, ◌≤◌, ◌+◌, ◌++◌, vec_len, vec_capacity};
ghost use Rattle.mv_operationtext.specs.LatchText.{mode_text, form_text, condition_text, latch_op_text, latch_reply_text, mode_read};
ghost use Rattle.mv_operationtext.specs.LatchText.{form_read, condition, obtain_rest, obtain, release, latch_op, latch_reply};
ghost use Rattle.mv_operationtext.specs.Reading.{seen};
ghost use Rattle.mv_operationtext.specs.Widths.{object_width, op_width, reply_width};

use crate::number::{after, any_u32, any_u64, pair_behind, u32_behind};
use crate::reserved::{put_number, put_pair, put_wide, put_word};
use mv_latch::{LatchForm, LatchOp, LatchReply, Mode};

#[inline(always)]
fn put_mode(out: &mut Vec<u8>, mode: Mode)
    requires room { vec_len out.old + 1 ≤ vec_capacity out.old }
    ensures text { out.new.items ≡ out.old.items ++ mode_text mode }
    ensures within { vec_len out.new ≤ vec_len out.old + 1 }
    ensures capacity { vec_capacity out.new ≡ vec_capacity out.old }
{
    match mode {
        Mode::Shared => put_word(out, b"S"),
        Mode::Exclusive => put_word(out, b"X"),
    }
}

#[inline(always)]
fn put_form(out: &mut Vec<u8>, form: LatchForm)
    requires room { vec_len out.old + object_width ≤ vec_capacity out.old }
    ensures text { out.new.items ≡ out.old.items ++ form_text form }
    ensures within { vec_len out.new ≤ vec_len out.old + object_width }
    ensures capacity { vec_capacity out.new ≡ vec_capacity out.old }
{
    match form {
        LatchForm::Conditional => put_word(out, b"C"),
        LatchForm::Waiting => put_word(out, b"W"),
        LatchForm::Posted(ecb) => put_number(out, b"P", ecb),
    }
}

#[inline(always)]
fn put_condition(out: &mut Vec<u8>, conditional: bool)
    requires room { vec_len out.old + 1 ≤ vec_capacity out.old }
    ensures text { out.new.items ≡ out.old.items ++ condition_text conditional }
    ensures within { vec_len out.new ≤ vec_len out.old + 1 }
    ensures capacity { vec_capacity out.new ≡ vec_capacity out.old }
{
    if conditional {
        put_word(out, b"C");
    } else {
        put_word(out, b"U");
    }
}

#[inline(always)]
fn put_obtain(out: &mut Vec<u8>, latch: u32, requestor: u64, mode: Mode, form: LatchForm)
    requires room { vec_len out.old + op_width ≤ vec_capacity out.old }
    ensures text { out.new.items ≡ out.old.items ++ latch_op_text (LatchOp.Obtain latch requestor mode form) }
    ensures within { vec_len out.new ≤ vec_len out.old + op_width }
    ensures capacity { vec_capacity out.new ≡ vec_capacity out.old }
{
    put_number(out, b"OBTAIN ", latch);
    put_wide(out, b" ", requestor);
    put_word(out, b" ");
    put_mode(out, mode);
    put_word(out, b" ");
    put_form(out, form);
}

#[inline(always)]
pub(crate) fn put_latch_op(out: &mut Vec<u8>, op: LatchOp)
    requires room { vec_len out.old + op_width ≤ vec_capacity out.old }
    ensures text { out.new.items ≡ out.old.items ++ latch_op_text op }
    ensures within { vec_len out.new ≤ vec_len out.old + op_width }
    ensures capacity { vec_capacity out.new ≡ vec_capacity out.old }
{
    match op {
        LatchOp::Obtain {
            latch,
            requestor,
            mode,
            form,
        } => put_obtain(out, latch, requestor, mode, form),
        LatchOp::Confirm { latch, id } => put_pair(out, b"CONFIRM ", latch, id),
        LatchOp::Release {
            latch,
            id,
            conditional,
        } => {
            put_pair(out, b"RELEASE ", latch, id);
            put_word(out, b" ");
            put_condition(out, conditional);
        }
        LatchOp::Purge { requestor } => put_wide(out, b"PURGE ", requestor),
    }
}

#[inline(always)]
pub(crate) fn put_latch_reply(out: &mut Vec<u8>, reply: LatchReply)
    requires room { vec_len out.old + reply_width ≤ vec_capacity out.old }
    ensures text { out.new.items ≡ out.old.items ++ latch_reply_text reply }
    ensures within { vec_len out.new ≤ vec_len out.old + reply_width }
    ensures capacity { vec_capacity out.new ≡ vec_capacity out.old }
{
    match reply {
        LatchReply::Granted(id) => put_number(out, b"GRANTED ", id),
        LatchReply::Queued(id) => put_number(out, b"QUEUED ", id),
        LatchReply::NotNow(id) => put_number(out, b"NOTNOW ", id),
        LatchReply::Waiting => put_word(out, b"WAITING"),
        LatchReply::Gone => put_word(out, b"GONE"),
        LatchReply::Released { granted } => put_number(out, b"RELEASED ", granted),
        LatchReply::Purged { removed, granted } => put_pair(out, b"PURGED ", removed, granted),
    }
}

#[tactic(auto, unfolding(crate::specs::LatchText::mode_read))]
fn read_mode(text: &[u8]) -> Option<(Mode, &[u8])>
    ensures { seen result ≡ mode_read text.now }
{
    if let Some(rest) = after(text, b"S") {
        return Some((Mode::Shared, rest));
    }
    if let Some(rest) = after(text, b"X") {
        return Some((Mode::Exclusive, rest));
    }
    None
}

#[tactic(auto, unfolding(crate::specs::LatchText::form_read))]
fn read_form(strict: bool, text: &[u8]) -> Option<(LatchForm, &[u8])>
    ensures { seen result ≡ form_read strict text.now }
{
    if let Some(rest) = after(text, b"C") {
        return Some((LatchForm::Conditional, rest));
    }
    if let Some(rest) = after(text, b"W") {
        return Some((LatchForm::Waiting, rest));
    }
    if let Some((ecb, rest)) = u32_behind(strict, text, b"P") {
        return Some((LatchForm::Posted(ecb), rest));
    }
    None
}

#[tactic(auto, unfolding(crate::specs::LatchText::condition))]
fn read_condition(text: &[u8]) -> Option<(bool, &[u8])>
    ensures { seen result ≡ condition text.now }
{
    if let Some(rest) = after(text, b"C") {
        return Some((true, rest));
    }
    if let Some(rest) = after(text, b"U") {
        return Some((false, rest));
    }
    None
}

// Reads the requestor, the mode and the form of an obtain.
#[tactic(auto, unfolding(crate::specs::LatchText::obtain_rest, crate::specs::Reading::parted_at, crate::specs::Reading::behind))]
fn read_obtain_rest(strict: bool, text: &[u8]) -> Option<((u64, (Mode, LatchForm)), &[u8])>
    ensures { seen result ≡ obtain_rest strict text.now }
{
    let (requestor, rest) = any_u64(strict, text)?;
    let (mode, rest) = read_mode(after(rest, b" ")?)?;
    let (form, rest) = read_form(strict, after(rest, b" ")?)?;
    Some(((requestor, (mode, form)), rest))
}

#[tactic(auto, unfolding(crate::specs::LatchText::obtain, crate::specs::Reading::parted_at, crate::specs::Reading::behind))]
fn read_obtain(strict: bool, text: &[u8]) -> Option<(LatchOp, &[u8])>
    ensures { seen result ≡ obtain strict text.now }
{
    let (latch, rest) = any_u32(strict, after(text, b"OBTAIN ")?)?;
    let ((requestor, (mode, form)), rest) = read_obtain_rest(strict, after(rest, b" ")?)?;
    let op = LatchOp::Obtain {
        latch,
        requestor,
        mode,
        form,
    };
    Some((op, rest))
}

#[tactic(auto, unfolding(crate::specs::LatchText::release, crate::specs::Reading::parted_at, crate::specs::Reading::behind))]
fn read_release(strict: bool, text: &[u8]) -> Option<(LatchOp, &[u8])>
    ensures { seen result ≡ release strict text.now }
{
    let (latch, rest) = any_u32(strict, after(text, b"RELEASE ")?)?;
    let (id, rest) = any_u32(strict, after(rest, b" ")?)?;
    let (conditional, rest) = read_condition(after(rest, b" ")?)?;
    let op = LatchOp::Release {
        latch,
        id,
        conditional,
    };
    Some((op, rest))
}

#[tactic(auto, unfolding(crate::specs::LatchText::latch_op, crate::specs::Reading::behind))]
pub(crate) fn read_latch_op(strict: bool, text: &[u8]) -> Option<(LatchOp, &[u8])>
    ensures { seen result ≡ latch_op strict text.now }
{
    if let Some(read) = read_obtain(strict, text) {
        return Some(read);
    }
    if let Some(((latch, id), rest)) = pair_behind(
        strict,
        (u32::MAX, u32::MAX),
        text,
        b"CONFIRM ",
    ) {
        return Some((LatchOp::Confirm { latch, id }, rest));
    }
    if let Some(read) = read_release(strict, text) {
        return Some(read);
    }
    let (requestor, rest) = any_u64(strict, after(text, b"PURGE ")?)?;
    Some((LatchOp::Purge { requestor }, rest))
}

#[tactic(auto, unfolding(crate::specs::LatchText::latch_reply))]
pub(crate) fn read_latch_reply(strict: bool, text: &[u8]) -> Option<(LatchReply, &[u8])>
    ensures { seen result ≡ latch_reply strict text.now }
{
    if let Some((id, rest)) = u32_behind(strict, text, b"GRANTED ") {
        return Some((LatchReply::Granted(id), rest));
    }
    if let Some((id, rest)) = u32_behind(strict, text, b"QUEUED ") {
        return Some((LatchReply::Queued(id), rest));
    }
    if let Some((id, rest)) = u32_behind(strict, text, b"NOTNOW ") {
        return Some((LatchReply::NotNow(id), rest));
    }
    if let Some(rest) = after(text, b"WAITING") {
        return Some((LatchReply::Waiting, rest));
    }
    if let Some(rest) = after(text, b"GONE") {
        return Some((LatchReply::Gone, rest));
    }
    if let Some((granted, rest)) = u32_behind(strict, text, b"RELEASED ") {
        return Some((LatchReply::Released { granted }, rest));
    }
    if let Some(((removed, granted), rest)) = pair_behind(
        strict,
        (u32::MAX, u32::MAX),
        text,
        b"PURGED ",
    ) {
        return Some((LatchReply::Purged { removed, granted }, rest));
    }
    None
}
