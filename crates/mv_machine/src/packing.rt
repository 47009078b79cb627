//! The word of a shared object: its place and its state in 64 bits, by specs/Packing.antt.

ghost use Rattle.std.specs.Prelude.{◌≡◌, ◌<◌, ◌^◌, IfSome};
ghost use Rattle.mv_element.specs.Table.{release_limit};
ghost use Rattle.mv_config.specs.Limits.{place_limit};
ghost use Rattle.mv_machine.specs.Packing.{HasFields, HasOpFields, state_step, pack as pack_of, state_bits};
ghost use Rattle.mv_machine.specs.Packing.{phase_number as number_of, unpack as unpack_of, state_in as state_by_bits};
ghost use Rattle.mv_machine.specs.Packing.{element_in as element_by_fields};

use crate::entry::{Object, Op, Reply};
use crate::state::volume_apply;
use mv_ecb::{EcbWord, ecb_apply};
use mv_element::{ElementState, Phase, element_apply};

/// The state of an object that has a word. The latch set has none.
#[derive(Clone, Copy, Debug, PartialEq, Eq)]
pub enum WordState {
    /// A block, as its fullword: 32 bits.
    Ecb(EcbWord),
    /// An element's generation, phase and code: 18, 3 and 24 bits.
    Element(ElementState),
    /// A volume's number: 32 bits.
    Volume(u32),
}

/// Returns a word: the place in its 19 high bits, the state in its 45 low bits. So one exchange of a word changes both, and no
/// word that was changed comes back.
pub fn pack(place: u32, state: WordState) -> u64
    requires place { place < place_limit }
    requires fields { HasFields state }
    ensures { result ≡ pack_of place state }
{
    (u64::from(place) << 45) + bits_of(state)
}

// Returns the 45 bits of a state.
fn bits_of(state: WordState) -> u64
    requires { HasFields state }
    ensures { result ≡ state_bits state }
{
    match state {
        WordState::Ecb(word) => u64::from(word.word()),
        WordState::Element(state) => {
            (u64::from(state.generation) << 27)
                + (phase_number(state.phase) << 24)
                + u64::from(state.code)
        }
        WordState::Volume(number) => u64::from(number),
    }
}

fn phase_number(phase: Phase) -> u64
    ensures { result ≡ number_of phase }
{
    match phase {
        Phase::Free => 0,
        Phase::Reset => 1,
        Phase::Prereleased => 2,
        Phase::Paused => 3,
        Phase::Released => 4,
    }
}

/// Returns the place and the state that a word of an object represents, or `None` if its bits are not those of a state of the
/// object's kind. Only the object's kind matters.
pub fn unpack(object: Object, word: u64) -> Option<(u32, WordState)>
    ensures word { result ≡ unpack_of object word }
    ensures fields { IfSome result (λ r. HasFields r.1) }
{
    let state = state_in(object, word % (1 << 45))?;
    Some(((word >> 45) as u32, state))
}

// Returns the state of an object of this kind that these bits represent.
fn state_in(object: Object, bits: u64) -> Option<WordState>
    requires { bits < 2 ^ 45 }
    ensures { result ≡ state_by_bits object bits }
{
    match object {
        Object::Ecb(_) => match EcbWord::of(u32::try_from(bits).ok()?) {
            Some(word) => Some(WordState::Ecb(word)),
            None => None,
        },
        Object::Element(_) => match element_in(
            (bits >> 27) as u32,
            (bits >> 24) % 8,
            (bits % (1 << 24)) as u32,
        ) {
            Some(state) => Some(WordState::Element(state)),
            None => None,
        },
        Object::Volume(_) => match u32::try_from(bits) {
            Ok(number) => Some(WordState::Volume(number)),
            Err(_) => None,
        },
        Object::Latches => None,
    }
}

// Returns the element of this generation, in the phase of this number. A phase that keeps no code must have code 0.
fn element_in(generation: u32, phase: u64, code: u32) -> Option<ElementState>
    requires { code < release_limit }
    ensures { result ≡ element_by_fields generation phase code }
{
    match phase {
        0 if code == 0 => Some(ElementState::free(generation)),
        1 if code == 0 => Some(ElementState::reset(generation)),
        2 => Some(ElementState::prereleased(generation, code)),
        3 if code == 0 => Some(ElementState::paused(generation)),
        4 => Some(ElementState::released(generation, code)),
        _ => None,
    }
}

/// Makes one operation on the state of an object, and returns the state after it and the reply, or `None` if the operation is
/// of another kind of object. It does not check which caller may make the operation.
#[inline(always)]
pub fn state_apply(op: Op, state: WordState) -> Option<(WordState, Reply)>
    requires op { HasOpFields op }
    requires fields { HasFields state }
    ensures { result ≡ state_step op state }
{
    match (op, state) {
        (Op::Ecb(op), WordState::Ecb(word)) => {
            let (word, reply) = ecb_apply(op, word);
            Some((WordState::Ecb(word), Reply::Ecb(reply)))
        }
        (Op::Element(op), WordState::Element(state)) => {
            let (state, reply) = element_apply(op, state);
            Some((WordState::Element(state), Reply::Element(reply)))
        }
        (Op::Volume(op), WordState::Volume(number)) => {
            let (number, reply) = volume_apply(op, number);
            Some((WordState::Volume(number), Reply::Volume(reply)))
        }
        _ => None,
    }
}
