//! Entries as text, by `specs/EntryText.antt`.

ghost use Rattle.std.specs.Prelude.{◌≡◌, ◌≤◌, ◌+◌, ◌++◌, codes, decimal, vec_len, vec_capacity};
ghost use Rattle.mv_operationtext.specs.Words.{◌<+>◌};
ghost use Rattle.mv_operationtext.specs.EcbText.{ecb_op, ecb_reply};
ghost use Rattle.mv_operationtext.specs.ElementText.{element_op, element_reply};
ghost use Rattle.mv_operationtext.specs.VolumeText.{volume_op, volume_reply};
ghost use Rattle.mv_operationtext.specs.LatchText.{latch_op, latch_reply};
ghost use Rattle.mv_operationtext.specs.Reading.{seen, made};
ghost use Rattle.mv_operationtext.specs.Widths.{caller_width, entry_width, event_width, front_width, object_width, op_width, reply_width};
ghost use Rattle.mv_operationtext.specs.EntryText.{caller_text, caller_read, object_text, op_text, reply_text, entry_text, object_read};
ghost use Rattle.mv_operationtext.specs.EntryText.{deed, deed_on, entry_on, entry_read};

use crate::ecb::{put_ecb_op, put_ecb_reply, read_ecb_op, read_ecb_reply};
use crate::element::{put_element_op, put_element_reply, read_element_op, read_element_reply};
use crate::latch::{put_latch_op, put_latch_reply, read_latch_op, read_latch_reply};
use crate::number::{after, any_u32, number_u32, u32_behind};
use crate::reserved::{put_number, put_word};
use crate::version::Version;
use crate::volume::{put_volume_op, put_volume_reply, read_volume_op, read_volume_reply};
use mv_machine::{Entry, HIGHEST_PLACE, Object, Op, Reply};

#[inline(always)]
fn put_object(out: &mut Vec<u8>, object: Object)
    requires room { vec_len out.old + object_width ≤ vec_capacity out.old }
    ensures text { out.new.items ≡ out.old.items ++ object_text object }
    ensures within { vec_len out.new ≤ vec_len out.old + object_width }
    ensures capacity { vec_capacity out.new ≡ vec_capacity out.old }
{
    match object {
        Object::Ecb(n) => put_number(out, b"E", n),
        Object::Element(n) => put_number(out, b"P", n),
        Object::Volume(n) => put_number(out, b"V", n),
        Object::Latches => put_word(out, b"L"),
    }
}

#[inline(always)]
fn put_op(out: &mut Vec<u8>, op: Op)
    requires room { vec_len out.old + op_width ≤ vec_capacity out.old }
    ensures text { out.new.items ≡ out.old.items ++ op_text op }
    ensures within { vec_len out.new ≤ vec_len out.old + op_width }
    ensures capacity { vec_capacity out.new ≡ vec_capacity out.old }
{
    match op {
        Op::Ecb(op) => put_ecb_op(out, op),
        Op::Element(op) => put_element_op(out, op),
        Op::Volume(op) => put_volume_op(out, op),
        Op::Latch(op) => put_latch_op(out, op),
    }
}

#[inline(always)]
fn put_reply(out: &mut Vec<u8>, reply: Reply)
    requires room { vec_len out.old + reply_width ≤ vec_capacity out.old }
    ensures text { out.new.items ≡ out.old.items ++ reply_text reply }
    ensures within { vec_len out.new ≤ vec_len out.old + reply_width }
    ensures capacity { vec_capacity out.new ≡ vec_capacity out.old }
{
    match reply {
        Reply::Ecb(reply) => put_ecb_reply(out, reply),
        Reply::Element(reply) => put_element_reply(out, reply),
        Reply::Volume(reply) => put_volume_reply(out, reply),
        Reply::Latch(reply) => put_latch_reply(out, reply),
    }
}

// Appends a caller, and the number of its call if it is given.
#[inline(always)]
fn put_caller(out: &mut Vec<u8>, caller: u32, call: Option<u32>)
    requires room { vec_len out.old + caller_width ≤ vec_capacity out.old }
    ensures text { out.new.items ≡ out.old.items ++ caller_text caller call }
    ensures within { vec_len out.new ≤ vec_len out.old + caller_width }
    ensures capacity { vec_capacity out.new ≡ vec_capacity out.old }
{
    put_number(out, b"", caller);
    match call {
        Some(number) => put_number(out, b".", number),
        None => {}
    }
}

// Appends the first part of an entry's line: the caller, its call number if it is given, the object and the place.
#[inline(always)]
fn put_front(out: &mut Vec<u8>, call: Option<u32>, entry: &Entry)
    requires room { vec_len out.old + front_width ≤ vec_capacity out.old }
    ensures text { out.new.items
        ≡ out.old.items ++ (caller_text entry.now.caller call <+> object_text entry.now.object <+> decimal entry.now.place) }
    ensures within { vec_len out.new ≤ vec_len out.old + front_width }
    ensures capacity { vec_capacity out.new ≡ vec_capacity out.old }
{
    put_caller(out, entry.caller, call);
    put_word(out, b" ");
    put_object(out, entry.object);
    put_number(out, b" ", entry.place);
}

// Appends the second part of an entry's line: the operation and the reply.
#[inline(always)]
fn put_event(out: &mut Vec<u8>, entry: &Entry)
    requires room { vec_len out.old + event_width ≤ vec_capacity out.old }
    ensures text { out.new.items ≡ out.old.items ++ (op_text entry.now.op <+> codes "=" <+> reply_text entry.now.reply) }
    ensures within { vec_len out.new ≤ vec_len out.old + event_width }
    ensures capacity { vec_capacity out.new ≡ vec_capacity out.old }
{
    put_op(out, entry.op);
    put_word(out, b" = ");
    put_reply(out, entry.reply);
}

/// Appends an entry's line without its LF, with the number of its call if it is given.
#[inline(always)]
#[tactic(auto, unfolding(crate::specs::EntryText::entry_text))]
pub fn put_entry(out: &mut Vec<u8>, call: Option<u32>, entry: &Entry)
    requires room { vec_len out.old + entry_width ≤ vec_capacity out.old }
    ensures text { out.new.items ≡ out.old.items ++ entry_text call entry.now }
    ensures within { vec_len out.new ≤ vec_len out.old + entry_width }
    ensures capacity { vec_capacity out.new ≡ vec_capacity out.old }
{
    put_front(out, call, entry);
    put_word(out, b" ");
    put_event(out, entry);
}

#[tactic(auto, unfolding(crate::specs::EntryText::object_read))]
fn read_object(strict: bool, text: &[u8]) -> Option<(Object, &[u8])>
    ensures { seen result ≡ object_read strict text.now }
{
    if let Some((n, rest)) = u32_behind(strict, text, b"E") {
        return Some((Object::Ecb(n), rest));
    }
    if let Some((n, rest)) = u32_behind(strict, text, b"P") {
        return Some((Object::Element(n), rest));
    }
    if let Some((n, rest)) = u32_behind(strict, text, b"V") {
        return Some((Object::Volume(n), rest));
    }
    if let Some(rest) = after(text, b"L") {
        return Some((Object::Latches, rest));
    }
    None
}

// Reads an operation on an event control block, and its reply. Most entries of a run have these, so the functions that read
// them are inlined.
#[inline(always)]
#[tactic(auto, unfolding(crate::specs::Reading::parted_at, crate::specs::Reading::behind))]
fn read_ecb_deed(strict: bool, text: &[u8]) -> Option<((Op, Reply), &[u8])>
    ensures { seen result ≡ made (λ x. (Op.Ecb x.0, Reply.Ecb x.1)) (deed (ecb_op strict) (ecb_reply strict)) text.now }
{
    let (op, rest) = read_ecb_op(strict, text)?;
    let (reply, rest) = read_ecb_reply(strict, after(rest, b" = ")?)?;
    Some(((Op::Ecb(op), Reply::Ecb(reply)), rest))
}

// Reads an operation on a pause element, and its reply.
#[tactic(auto, unfolding(crate::specs::Reading::parted_at, crate::specs::Reading::behind))]
fn read_element_deed(strict: bool, text: &[u8]) -> Option<((Op, Reply), &[u8])>
    ensures { seen result ≡ made (λ x. (Op.Element x.0, Reply.Element x.1)) (deed (element_op strict) (element_reply strict)) text.now }
{
    let (op, rest) = read_element_op(strict, text)?;
    let (reply, rest) = read_element_reply(strict, after(rest, b" = ")?)?;
    Some(((Op::Element(op), Reply::Element(reply)), rest))
}

// Reads an operation on a volume, and its reply.
#[tactic(auto, unfolding(crate::specs::Reading::parted_at, crate::specs::Reading::behind))]
fn read_volume_deed(strict: bool, text: &[u8]) -> Option<((Op, Reply), &[u8])>
    ensures { seen result ≡ made (λ x. (Op.Volume x.0, Reply.Volume x.1)) (deed (volume_op strict) (volume_reply strict)) text.now }
{
    let (op, rest) = read_volume_op(strict, text)?;
    let (reply, rest) = read_volume_reply(strict, after(rest, b" = ")?)?;
    Some(((Op::Volume(op), Reply::Volume(reply)), rest))
}

// Reads an operation on the latch set, and its reply.
#[tactic(auto, unfolding(crate::specs::Reading::parted_at, crate::specs::Reading::behind))]
fn read_latch_deed(strict: bool, text: &[u8]) -> Option<((Op, Reply), &[u8])>
    ensures { seen result ≡ made (λ x. (Op.Latch x.0, Reply.Latch x.1)) (deed (latch_op strict) (latch_reply strict)) text.now }
{
    let (op, rest) = read_latch_op(strict, text)?;
    let (reply, rest) = read_latch_reply(strict, after(rest, b" = ")?)?;
    Some(((Op::Latch(op), Reply::Latch(reply)), rest))
}

// Reads an operation of the object's kind, and its reply. It is inlined, as all functions that read an entry are: an entry is
// large, and a call would move it once more.
#[inline(always)]
fn read_deed(strict: bool, object: Object, text: &[u8]) -> Option<((Op, Reply), &[u8])>
    ensures { seen result ≡ deed_on strict object text.now }
{
    match object {
        Object::Ecb(_) => read_ecb_deed(strict, text),
        Object::Element(_) => read_element_deed(strict, text),
        Object::Volume(_) => read_volume_deed(strict, text),
        Object::Latches => read_latch_deed(strict, text),
    }
}

// Reads a place, and the operation and the reply after it, as an entry of this caller on this object.
#[inline(always)]
#[tactic(auto, unfolding(crate::specs::Reading::parted_at, crate::specs::Reading::behind))]
fn read_entry_on(strict: bool, caller: u32, object: Object, text: &[u8]) -> Option<(Entry, &[u8])>
    ensures { seen result ≡ entry_on strict caller object text.now }
{
    let (place, rest) = number_u32(strict, 0, HIGHEST_PLACE, text)?;
    let ((op, reply), rest) = read_deed(strict, object, after(rest, b" ")?)?;
    let entry = Entry {
        caller,
        object,
        place,
        op,
        reply,
    };
    Some((entry, rest))
}

// Reads a caller, and in version 2 the number of its call.
#[tactic(auto, unfolding(crate::specs::EntryText::caller_read, crate::specs::Reading::parted_at))]
fn read_caller(strict: bool, version: Version, text: &[u8]) -> Option<((u32, Option<u32>), &[u8])>
    ensures { seen result ≡ caller_read strict version text.now }
{
    let (caller, rest) = any_u32(strict, text)?;
    match version {
        Version::One => Some(((caller, None), rest)),
        Version::Two => {
            let (call, rest) = u32_behind(strict, rest, b".")?;
            Some(((caller, Some(call)), rest))
        }
    }
}

/// Reads an entry from the front of a text, with the number of its call in version 2.
#[tactic(auto, unfolding(crate::specs::EntryText::entry_read, crate::specs::Reading::parted_at, crate::specs::Reading::behind))]
pub fn read_entry(
    strict: bool,
    version: Version,
    text: &[u8],
) -> Option<((Option<u32>, Entry), &[u8])>
    ensures { seen result ≡ entry_read strict version text.now }
{
    let ((caller, call), rest) = read_caller(strict, version, text)?;
    let (object, rest) = read_object(strict, after(rest, b" ")?)?;
    let (entry, rest) = read_entry_on(strict, caller, object, after(rest, b" ")?)?;
    Some(((call, entry), rest))
}
