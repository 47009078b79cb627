//! The words of the table, and how an operation changes one: `specs/Words.antt` and `specs/Steps.antt`.

ghost use Rattle.std.specs.Prelude.{◌≡◌, ℕ, Some};
ghost use Rattle.mv_machine.specs.Prelude.{extra as extra_of, HasOpFields, unpack as unpack_of};
ghost use Rattle.mv_machine.specs.declared.packing.WordState.{WordState as AnyState};
ghost use Rattle.mv_board.specs.Steps.{is_ready as ready_in};
ghost use Rattle.mv_board.specs.Words.{word_number as number_of, changed, fits as fits_place};
ghost use Rattle.mv_board.specs.Words.{number_in as number_in_word, test_of as test_on};

use mv_ecb::EcbOp;
use mv_element::{ElementOp, Phase};
use mv_machine::{
    HIGHEST_PLACE, Object, Op, Reply, VolumeOp, WordState, pack, state_apply, unpack,
};

/// The number of the first word of an element, after those of the volumes.
const FIRST_ELEMENT: usize = 8;

/// The number of the word of the latch set's turn.
pub(crate) const TURN: usize = 264;

/// The number of words before those of the event control blocks.
pub(crate) const BEFORE_ECBS: usize = 265;

/// What one place more adds to a word.
pub(crate) const PLACE: u64 = 1 << 45;

/// Returns the number of an object's word.
pub(crate) fn word_number(object: Object) -> usize
    ensures { result ≡ number_of object }
{
    match object {
        Object::Volume(volume) => volume as usize,
        Object::Element(element) => FIRST_ELEMENT + element as usize,
        Object::Latches => TURN,
        Object::Ecb(ecb) => BEFORE_ECBS + ecb as usize,
    }
}

/// Returns the operation that reads an object and leaves its state as it is. It is not for the latch set, which has no word.
pub(crate) fn test_of(object: Object) -> Op
    ensures { result ≡ test_on object }
{
    match object {
        Object::Ecb(_) => Op::Ecb(EcbOp::Test),
        Object::Element(_) => Op::Element(ElementOp::Test),
        Object::Volume(_) | Object::Latches => Op::Volume(VolumeOp::Read),
    }
}

/// Returns the number in a volume's word.
pub(crate) fn number_in(word: u64) -> u32
    ensures { result ≡ number_in_word word }
{
    (word % (1 << 32)) as u32
}

// Whether a state can occur at this place: for an element, twice its generation plus `extra` of its phase is at most the place.
fn fits(place: u32, state: &WordState) -> bool
    ensures { result ≡ fits_place place state.now }
{
    match state {
        WordState::Element(state) => {
            2 * u64::from(state.generation) + extra(state.phase) <= u64::from(place)
        }
        WordState::Ecb(_) | WordState::Volume(_) => true,
    }
}

// The number of events that the present pause has had at least, by its phase.
fn extra(phase: Phase) -> u64
    ensures { result ≡ extra_of phase }
{
    match phase {
        Phase::Free => 0,
        Phase::Reset => 1,
        Phase::Prereleased | Phase::Paused => 2,
        Phase::Released => 3,
    }
}

/// Applies an operation to a word, and returns the place before, the word after, and the reply. Returns `None` if the object
/// cannot have this word before a further event.
#[inline(always)]
pub(crate) fn change(object: Object, op: Op, word: u64) -> Option<(u32, u64, Reply)>
    requires { HasOpFields op }
    ensures { result ≡ changed object op word }
{
    let (place, state) = unpack(object, word)?;
    if place > HIGHEST_PLACE || !fits(place, &state) {
        return None;
    }
    let (next, reply) = state_apply(op, state)?;
    Some((place, pack(place + 1, next), reply))
}

// Whether a state is what a watch of its object waits for: a complete block, or a released element.
#[inline(always)]
fn is_ready_state(state: &WordState) -> bool
    ensures { result ≡ ready_in state.now }
{
    match state {
        WordState::Ecb(word) => word.is_complete(),
        WordState::Element(state) => matches!(state.phase, Phase::Released),
        WordState::Volume(_) => false,
    }
}

/// Returns whether a word of an object is what a watch of it waits for.
#[inline(always)]
pub(crate) fn is_ready(object: Object, word: u64) -> bool
    ensures { (place : ℕ) (state : AnyState) → unpack_of object word ≡ Some (place, state) → result ≡ ready_in state }
{
    match unpack(object, word) {
        Some((_, state)) => is_ready_state(&state),
        None => false,
    }
}
