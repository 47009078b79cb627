//! What there was before an event: the object's state, and the last events on it (`specs/Before.antt`).

ghost use Rattle.std.specs.Prelude.{◌≡◌, ◌<◌, ◌≤◌, ◌^◌, ◌-◌, ◌++◌, All, length, slice_get, option_map, OnOk, IfOk, IfSome, MatchBool};
ghost use Rattle.std.specs.Borrow.{Bor};
ghost use Rattle.mv_calls.specs.Prelude.{Entry as AnyEntry, Legal, after, same_object as is_one_object, highest_place, IsOpenedWith};
ghost use Rattle.mv_calls.specs.Prelude.{system_of, place_of};
ghost use Rattle.mv_explain.specs.Before.{earlier_text, event_at, event_text, is_on as is_event_on, last_below as last_event_below};
ghost use Rattle.mv_explain.specs.Before.{look_answer_text, look_at, look_text, looked_text, object_text, seen_text, state_text};

use crate::latch_state::{latch_of, push_latch};
use crate::sentences::{AT, STATE};
use mv_ecb::EcbOp;
use mv_element::ElementOp;
use mv_entrytext::push_entry_line;
use mv_io::NoMemory;
use mv_line::push_number;
use mv_machine::{
    Entry, HIGHEST_PLACE, Object, Op, ReplayRefusal, Reply, State, ValidConfig, VolumeOp, replay,
};
use std::alloc::Global;

/// The most earlier events that are shown.
const MOST_SHOWN: u32 = 3;

// ---- the last events on an object

fn same_object(one: Object, other: Object) -> bool
    ensures { result ≡ is_one_object one other }
{
    match (one, other) {
        (Object::Ecb(a), Object::Ecb(b)) => a == b,
        (Object::Element(a), Object::Element(b)) => a == b,
        (Object::Volume(a), Object::Volume(b)) => a == b,
        (Object::Latches, Object::Latches) => true,
        _ => false,
    }
}

// Whether there is an event, and it is on this object.
fn is_on(entry: Option<&Entry>, object: Object) -> bool
    ensures { result ≡ is_event_on object (option_map (λ (e : Bor AnyEntry). e.now) entry.entry) }
{
    match entry {
        Some(entry) => same_object(entry.object, object),
        None => false,
    }
}

// The last of the first `below` events that is on this object, if there is one.
#[tactic(auto, using(crate::proofs::Earlier::step_false, crate::proofs::Earlier::step_true))]
fn last_below(entries: &[Entry], object: Object, below: usize) -> Option<usize>
    ensures place { result ≡ last_event_below entries.now object below }
    ensures within { IfSome result (λ at. at < below) }
{
    let mut end = below;
    'events: while end > 0 {
        if is_on(entries.get(end - 1), object) {
            return Some(end - 1);
        }
        end -= 1;
    }
    None
}

// Shows an event with the number of its line.
fn push_event(out: &mut Vec<u8>, number: u64, entry: &Entry) -> Result<(), NoMemory>
    ensures { OnOk result (out.new.items ≡ out.old.items ++ event_text number entry.now) }
{
    push_number(out, AT, number)?;
    out.extend_from_slice(b": ")?;
    push_entry_line(out, None, entry)
}

// Shows the event at this place, if there is one, with its line. The first event is on the line `first`.
fn push_event_at(
    out: &mut Vec<u8>,
    first: u32,
    entries: &[Entry],
    at: usize,
) -> Result<(), NoMemory>
    requires { length entries.now < 2 ^ 32 }
    ensures { OnOk result (out.new.items ≡ out.old.items ++ event_at first at (slice_get entries.now at)) }
{
    match entries.get(at) {
        Some(entry) => push_event(out, u64::from(first) + at as u64, entry),
        None => Ok(()),
    }
}

/// Shows the last of the first `below` events that are on this object: at most three, without `shown`, which the caller shows.
#[tactic(auto, using(crate::proofs::Earlier::earlier_end, crate::proofs::Earlier::earlier_step))]
pub(crate) fn push_earlier(
    out: &mut Vec<u8>,
    first: u32,
    entries: &[Entry],
    object: Object,
    below: usize,
    shown: u32,
) -> Result<(), NoMemory>
    requires few { length entries.now < 2 ^ 32 }
    requires shown { shown ≤ 3 }
    ensures { OnOk result (out.new.items ≡ out.old.items ++ earlier_text first entries.now object below (3 - shown)) }
{
    if shown >= MOST_SHOWN {
        return Ok(());
    }
    match last_below(entries, object, below) {
        None => Ok(()),
        Some(at) => {
            push_earlier(out, first, entries, object, at, shown + 1)?;
            push_event_at(out, first, entries, at)
        }
    }
}

// ---- the state of an object

// The machine after these events, which are legal.
fn state_after(alloc: Global, config: &ValidConfig, entries: &[Entry]) -> Result<State, NoMemory>
    requires places { All (λ e. e.place ≤ highest_place) entries.now }
    requires legal { Legal config.now entries.now }
    ensures after { IfOk result (λ s. system_of s ≡ after config.now entries.now) }
    ensures opened { IfOk result (λ s. IsOpenedWith config.now s) }
{
    match replay(alloc, config, entries) {
        Ok(state) => Ok(state),
        // out of memory: they were not replayed.
        Err(ReplayRefusal::NoMemory) => Err(NoMemory),
        // They are legal.
        Err(ReplayRefusal::Illegal(_)) => unreachable!(),
    }
}

// The operation that shows an object's state and leaves it as it is, if the object has one.
fn look(object: Object) -> Option<Op>
    ensures { result ≡ look_at object }
{
    match object {
        Object::Ecb(_) => Some(Op::Ecb(EcbOp::Test)),
        Object::Element(_) => Some(Op::Element(ElementOp::Test)),
        Object::Volume(_) => Some(Op::Volume(VolumeOp::Read)),
        Object::Latches => None,
    }
}

// Whether an object has had as many events as there are places.
fn is_full(state: &State, object: Object) -> bool
    ensures { MatchBool result (highest_place < place_of (system_of state.now) object)
        (place_of (system_of state.now) object ≤ highest_place) }
{
    state.has(object) && state.place(object) > HIGHEST_PLACE
}

// Shows what the machine answers to such a look.
#[tactic(auto, unfolding(crate::specs::Before::seen_text))]
fn push_seen(out: &mut Vec<u8>, entry: &Entry, op: Op, answer: (u32, Reply)) -> Result<(), NoMemory>
    ensures { OnOk result (out.new.items ≡ out.old.items ++ seen_text entry.now op answer) }
{
    let seen = Entry {
        caller: entry.caller,
        object: entry.object,
        place: answer.0,
        op,
        reply: answer.1,
    };
    out.extend_from_slice(STATE)?;
    push_entry_line(out, None, &seen)
}

// The same, if it answers.
#[tactic(auto, unfolding(crate::specs::Before::look_answer_text))]
fn push_look_answer(
    out: &mut Vec<u8>,
    entry: &Entry,
    op: Op,
    answer: Option<(u32, Reply)>,
) -> Result<(), NoMemory>
    ensures { OnOk result (out.new.items ≡ out.old.items ++ look_answer_text entry.now op answer) }
{
    match answer {
        Some(answer) => push_seen(out, entry, op, answer),
        None => Ok(()),
    }
}

// Shows what such a look at the object of an event shows.
fn push_look(
    out: &mut Vec<u8>,
    config: &ValidConfig,
    state: &mut State,
    entry: &Entry,
    op: Op,
) -> Result<(), NoMemory>
    requires { IsOpenedWith config.now state.old }
    ensures { OnOk result (out.new.items ≡ out.old.items ++ look_text config.now (system_of state.old) entry.now op) }
{
    if is_full(state, entry.object) {
        return Ok(());
    }
    let answer = state.step(config, entry.caller, entry.object, op);
    push_look_answer(out, entry, op, answer)
}

// The same, if the object has such an operation.
#[tactic(auto, unfolding(crate::specs::Before::looked_text))]
fn push_looked(
    out: &mut Vec<u8>,
    config: &ValidConfig,
    state: &mut State,
    entry: &Entry,
    op: Option<Op>,
) -> Result<(), NoMemory>
    requires { IsOpenedWith config.now state.old }
    ensures { OnOk result (out.new.items ≡ out.old.items ++ looked_text config.now (system_of state.old) entry.now op) }
{
    match op {
        Some(op) => push_look(out, config, state, entry, op),
        None => Ok(()),
    }
}

// Shows the state that the object of an event has.
#[tactic(auto, unfolding(crate::specs::Before::object_text))]
fn push_object(
    out: &mut Vec<u8>,
    config: &ValidConfig,
    state: &mut State,
    entry: &Entry,
) -> Result<(), NoMemory>
    requires { IsOpenedWith config.now state.old }
    ensures { OnOk result (out.new.items ≡ out.old.items ++ object_text config.now (system_of state.old) entry.now) }
{
    push_latch(out, config, state, latch_of(entry.op))?;
    push_looked(out, config, state, entry, look(entry.object))
}

/// Shows the state that the object of an event has after these events, which are legal.
#[tactic(auto, unfolding(crate::specs::Before::state_text))]
pub(crate) fn push_state(
    out: &mut Vec<u8>,
    alloc: Global,
    config: &ValidConfig,
    before: &[Entry],
    entry: &Entry,
) -> Result<(), NoMemory>
    requires places { All (λ e. e.place ≤ highest_place) before.now }
    requires legal { Legal config.now before.now }
    ensures { OnOk result (out.new.items ≡ out.old.items ++ state_text config.now before.now entry.now) }
{
    let mut state = state_after(alloc, config, before)?;
    push_object(out, config, &mut state, entry)
}
