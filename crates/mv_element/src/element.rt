//! A pause element's state, and the token of one of its pauses: `specs/Element.antt` and `specs/Code.antt`.

ghost use Rattle.std.specs.Prelude.{◌≡◌};
ghost use Rattle.mv_element.specs.Code.{IsKeptCode};

/// The bound of generations, all of which are below it: they have 18 bits.
pub const GENERATION_LIMIT: u32 = 1 << 18;

/// The name of one pause: an element, and which of its pauses is meant.
///
/// A token serves one pause, as a pause element token does. The code that ends the pause comes with the token of the next one.
/// Any task that has the token may release the pause.
#[derive(Clone, Copy, Debug, PartialEq, Eq)]
pub struct Token {
    /// The element, counted from 0 over all callers: element e belongs to caller `e / elements_per_caller`.
    pub element: u32,
    /// How many pauses of the element are over before this one: at most 262,143.
    pub generation: u32,
}

/// The phase of an element. The phases are this project's own.
#[derive(Clone, Copy, Debug, PartialEq, Eq)]
pub enum Phase {
    /// The element is not allocated.
    Free,
    /// The element is allocated, and neither paused nor released.
    Reset,
    /// The element was released before its pause, and keeps the code for it.
    Prereleased,
    /// A task pauses.
    Paused,
    /// The pause was released, and its task has not continued yet.
    Released,
}

/// The state of an element. Its code is 0 unless the phase is Prereleased or Released; no other state can be made.
#[derive(Clone, Copy, Debug, PartialEq, Eq)]
pub struct ElementState {
    /// How many of the element's pauses are over: ended with a code, or closed.
    pub generation: u32,
    pub phase: Phase,
    /// The release code that is kept for the pause: three bytes.
    pub code: u32,
    pub ghost kept: { IsKeptCode phase code },
}

impl ElementState {
    ghost use Rattle.mv_element.specs.Element.{free, reset, prereleased, paused, released, in_phase};

    /// Returns the state of an element that is not allocated, after `generation` pauses.
    pub fn free(generation: u32) -> ElementState
        ensures { result ≡ free generation }
    {
        ElementState {
            generation,
            phase: Phase::Free,
            code: 0,
        }
    }

    /// Returns the state of an element that is allocated, and neither paused nor released.
    pub fn reset(generation: u32) -> ElementState
        ensures { result ≡ reset generation }
    {
        ElementState {
            generation,
            phase: Phase::Reset,
            code: 0,
        }
    }

    /// Returns the state of an element that was released with this code before its pause. In a run the code is below
    /// `RELEASE_LIMIT`.
    pub fn prereleased(generation: u32, code: u32) -> ElementState
        ensures { result ≡ prereleased generation code }
    {
        ElementState {
            generation,
            phase: Phase::Prereleased,
            code,
        }
    }

    /// Returns the state of an element that is paused, and not released yet.
    pub fn paused(generation: u32) -> ElementState
        ensures { result ≡ paused generation }
    {
        ElementState {
            generation,
            phase: Phase::Paused,
            code: 0,
        }
    }

    /// Returns the state of an element that is paused, and was released with this code, which its task has not taken yet.
    pub fn released(generation: u32, code: u32) -> ElementState
        ensures { result ≡ released generation code }
    {
        ElementState {
            generation,
            phase: Phase::Released,
            code,
        }
    }

    /// Returns the state of this phase. It has the code only if the phase keeps one.
    // Inlined for the readers of logs and of journals, which call it for each state that they decode.
    #[inline(always)]
    pub fn in_phase(phase: Phase, generation: u32, code: u32) -> ElementState
        ensures { result ≡ in_phase phase generation code }
    {
        match phase {
            Phase::Free => ElementState::free(generation),
            Phase::Reset => ElementState::reset(generation),
            Phase::Prereleased => ElementState::prereleased(generation, code),
            Phase::Paused => ElementState::paused(generation),
            Phase::Released => ElementState::released(generation, code),
        }
    }
}
