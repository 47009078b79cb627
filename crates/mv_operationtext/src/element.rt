//! Operations on pause elements and their replies as text, by `specs/ElementText.antt`.

ghost use Rattle.std.specs.Prelude.{◌≡◌, ◌≤◌, ◌+◌, ◌++◌, vec_len, vec_capacity};
ghost use Rattle.mv_operationtext.specs.ElementText.{phase_text, element_op_text, element_reply_text, phase, highest_kept};
ghost use Rattle.mv_operationtext.specs.ElementText.{element_state, element_op, telling_reply, element_reply};
ghost use Rattle.mv_operationtext.specs.Reading.{seen};
ghost use Rattle.mv_operationtext.specs.Widths.{op_width, phase_width, reply_width};

use crate::number::{after, number_behind, number_u32, pair_behind, u32_behind};
use crate::reserved::{put_number, put_pair, put_word};
use mv_element::{ElementOp, ElementReply, ElementState, Phase};
use mv_machine::HIGHEST_GENERATION;

#[inline(always)]
fn put_phase(out: &mut Vec<u8>, phase: Phase)
    requires room { vec_len out.old + phase_width ≤ vec_capacity out.old }
    ensures text { out.new.items ≡ out.old.items ++ phase_text phase }
    ensures within { vec_len out.new ≤ vec_len out.old + phase_width }
    ensures capacity { vec_capacity out.new ≡ vec_capacity out.old }
{
    match phase {
        Phase::Free => put_word(out, b"FREE"),
        Phase::Reset => put_word(out, b"RESET"),
        Phase::Prereleased => put_word(out, b"PRERELEASED"),
        Phase::Paused => put_word(out, b"PAUSED"),
        Phase::Released => put_word(out, b"RELEASED"),
    }
}

#[inline(always)]
fn put_state(out: &mut Vec<u8>, state: ElementState)
    requires room { vec_len out.old + reply_width ≤ vec_capacity out.old }
    ensures text { out.new.items ≡ out.old.items ++ element_reply_text (ElementReply.State state) }
    ensures within { vec_len out.new ≤ vec_len out.old + reply_width }
    ensures capacity { vec_capacity out.new ≡ vec_capacity out.old }
{
    put_number(out, b"STATE ", state.generation);
    put_word(out, b" ");
    put_phase(out, state.phase);
    put_number(out, b" ", state.code);
}

#[inline(always)]
pub(crate) fn put_element_op(out: &mut Vec<u8>, op: ElementOp)
    requires room { vec_len out.old + op_width ≤ vec_capacity out.old }
    ensures text { out.new.items ≡ out.old.items ++ element_op_text op }
    ensures within { vec_len out.new ≤ vec_len out.old + op_width }
    ensures capacity { vec_capacity out.new ≡ vec_capacity out.old }
{
    match op {
        ElementOp::Open => put_word(out, b"OPEN"),
        ElementOp::Pause(generation) => put_number(out, b"PAUSE ", generation),
        ElementOp::Resume(generation) => put_number(out, b"RESUME ", generation),
        ElementOp::Release(generation, code) => put_pair(out, b"RELEASE ", generation, code),
        ElementOp::Close(generation) => put_number(out, b"CLOSE ", generation),
        ElementOp::Test => put_word(out, b"TEST"),
    }
}

#[inline(always)]
pub(crate) fn put_element_reply(out: &mut Vec<u8>, reply: ElementReply)
    requires room { vec_len out.old + reply_width ≤ vec_capacity out.old }
    ensures text { out.new.items ≡ out.old.items ++ element_reply_text reply }
    ensures within { vec_len out.new ≤ vec_len out.old + reply_width }
    ensures capacity { vec_capacity out.new ≡ vec_capacity out.old }
{
    match reply {
        ElementReply::Opened(generation) => put_number(out, b"OPENED ", generation),
        ElementReply::InUse => put_word(out, b"INUSE"),
        ElementReply::Parked => put_word(out, b"PARKED"),
        ElementReply::Given { code, next } => put_pair(out, b"GIVEN ", code, next),
        ElementReply::Spent(generation) => put_number(out, b"SPENT ", generation),
        ElementReply::Busy => put_word(out, b"BUSY"),
        ElementReply::NotYet => put_word(out, b"NOTYET"),
        ElementReply::Early => put_word(out, b"EARLY"),
        ElementReply::Woke => put_word(out, b"WOKE"),
        ElementReply::Already => put_word(out, b"ALREADY"),
        ElementReply::Closed => put_word(out, b"CLOSED"),
        ElementReply::State(state) => put_state(out, state),
    }
}

/// The highest release code: three bytes.
const HIGHEST_RELEASE_CODE: u32 = 16_777_215;

#[tactic(auto, unfolding(crate::specs::ElementText::element_op))]
pub(crate) fn read_element_op(strict: bool, text: &[u8]) -> Option<(ElementOp, &[u8])>
    ensures { seen result ≡ element_op strict text.now }
{
    if let Some(rest) = after(text, b"OPEN") {
        return Some((ElementOp::Open, rest));
    }
    if let Some((generation, rest)) = u32_behind(strict, text, b"PAUSE ") {
        return Some((ElementOp::Pause(generation), rest));
    }
    if let Some((generation, rest)) = u32_behind(strict, text, b"RESUME ") {
        return Some((ElementOp::Resume(generation), rest));
    }
    if let Some(((generation, code), rest)) = pair_behind(
        strict,
        (u32::MAX, HIGHEST_RELEASE_CODE),
        text,
        b"RELEASE ",
    ) {
        return Some((ElementOp::Release(generation, code), rest));
    }
    if let Some((generation, rest)) = u32_behind(strict, text, b"CLOSE ") {
        return Some((ElementOp::Close(generation), rest));
    }
    if let Some(rest) = after(text, b"TEST") {
        return Some((ElementOp::Test, rest));
    }
    None
}

#[tactic(auto, unfolding(crate::specs::ElementText::phase))]
fn read_phase(text: &[u8]) -> Option<(Phase, &[u8])>
    ensures { seen result ≡ phase text.now }
{
    if let Some(rest) = after(text, b"FREE") {
        return Some((Phase::Free, rest));
    }
    if let Some(rest) = after(text, b"RESET") {
        return Some((Phase::Reset, rest));
    }
    if let Some(rest) = after(text, b"PAUSED") {
        return Some((Phase::Paused, rest));
    }
    if let Some(rest) = after(text, b"RELEASED") {
        return Some((Phase::Released, rest));
    }
    if let Some(rest) = after(text, b"PRERELEASED") {
        return Some((Phase::Prereleased, rest));
    }
    None
}

// Returns the highest code of a state in this phase: 0 if the phase keeps no code.
fn highest_kept(phase: Phase) -> u32
    ensures { result ≡ highest_kept phase }
{
    match phase {
        Phase::Prereleased | Phase::Released => HIGHEST_RELEASE_CODE,
        _ => 0,
    }
}

#[tactic(auto, unfolding(crate::specs::ElementText::element_state, crate::specs::Reading::parted_at, crate::specs::Reading::behind))]
fn read_state(strict: bool, text: &[u8]) -> Option<(ElementState, &[u8])>
    ensures { seen result ≡ element_state strict text.now }
{
    let (generation, rest) = number_u32(strict, 0, HIGHEST_GENERATION, text)?;
    let (phase, rest) = read_phase(after(rest, b" ")?)?;
    let (code, rest) = number_behind(strict, 0, highest_kept(phase), rest, b" ")?;
    Some((ElementState::in_phase(phase, generation, code), rest))
}

// Reads a reply that has numbers.
#[tactic(auto, unfolding(crate::specs::ElementText::telling_reply, crate::specs::Reading::behind))]
fn read_telling_reply(strict: bool, text: &[u8]) -> Option<(ElementReply, &[u8])>
    ensures { seen result ≡ telling_reply strict text.now }
{
    if let Some((generation, rest)) = number_behind(
        strict,
        0,
        HIGHEST_GENERATION,
        text,
        b"OPENED ",
    ) {
        return Some((ElementReply::Opened(generation), rest));
    }
    if let Some(((code, next), rest)) = pair_behind(
        strict,
        (HIGHEST_RELEASE_CODE, HIGHEST_GENERATION),
        text,
        b"GIVEN ",
    ) {
        return Some((ElementReply::Given { code, next }, rest));
    }
    if let Some((generation, rest)) = number_behind(
        strict,
        0,
        HIGHEST_GENERATION,
        text,
        b"SPENT ",
    ) {
        return Some((ElementReply::Spent(generation), rest));
    }
    let (state, rest) = read_state(strict, after(text, b"STATE ")?)?;
    Some((ElementReply::State(state), rest))
}

#[tactic(auto, unfolding(crate::specs::ElementText::element_reply))]
pub(crate) fn read_element_reply(strict: bool, text: &[u8]) -> Option<(ElementReply, &[u8])>
    ensures { seen result ≡ element_reply strict text.now }
{
    if let Some(rest) = after(text, b"INUSE") {
        return Some((ElementReply::InUse, rest));
    }
    if let Some(rest) = after(text, b"PARKED") {
        return Some((ElementReply::Parked, rest));
    }
    if let Some(rest) = after(text, b"BUSY") {
        return Some((ElementReply::Busy, rest));
    }
    if let Some(rest) = after(text, b"NOTYET") {
        return Some((ElementReply::NotYet, rest));
    }
    if let Some(rest) = after(text, b"EARLY") {
        return Some((ElementReply::Early, rest));
    }
    if let Some(rest) = after(text, b"WOKE") {
        return Some((ElementReply::Woke, rest));
    }
    if let Some(rest) = after(text, b"ALREADY") {
        return Some((ElementReply::Already, rest));
    }
    if let Some(rest) = after(text, b"CLOSED") {
        return Some((ElementReply::Closed, rest));
    }
    read_telling_reply(strict, text)
}
