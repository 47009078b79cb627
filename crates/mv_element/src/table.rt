//! The operations on a pause element: `specs/Table.antt`.

ghost use Rattle.std.specs.Prelude.{◌≡◌, ◌<◌};
ghost use Rattle.mv_element.specs.Element.{generation_limit};
ghost use Rattle.mv_element.specs.Table.{IsElementOp, element_step, is_current as is_current_at};
ghost use Rattle.mv_element.specs.Table.{open_step, pause_step, resume_step, release_step, close_step, given_step};

use crate::element::{ElementState, Phase};
use crate::operation::{ElementOp, ElementReply};

/// Makes one operation on a pause element, and returns the new state and the reply.
///
/// It never waits: after Parked the task asks by Resume whether its pause was released. Within a run each generation is below
/// `GENERATION_LIMIT`. Pause, release, allocate and deallocate are those of *z/OS MVS Programming: Authorized Assembler Services
/// Guide*. That a release before its pause is kept for it, and what an operation does to an element in another phase, are this
/// project's own.
///
/// # Examples
///
/// From `crates/mv_machine/src/state.rt`, the event on an element of the machine:
///
/// ```
/// let old = self.elements[element as usize];
/// let (state, reply) = element_apply(op, old.state);
/// self.elements[element as usize] = ElementCell {
///     place: old.place + 1,
///     state,
/// };
/// Some((old.place, Reply::Element(reply)))
/// ```
#[inline(always)]
pub fn element_apply(op: ElementOp, state: ElementState) -> (ElementState, ElementReply)
    requires generation { state.generation < generation_limit }
    requires code { IsElementOp op }
    ensures { result ≡ element_step op state }
{
    match op {
        ElementOp::Open => open(state),
        ElementOp::Pause(generation) if is_current(state, generation) => pause(state),
        ElementOp::Resume(generation) if is_current(state, generation) => resume(state),
        ElementOp::Release(generation, code) if is_current(state, generation) => {
            release(state, code)
        }
        ElementOp::Close(generation) if is_current(state, generation) => close(state),
        ElementOp::Test => (state, ElementReply::State(state)),
        _ => (state, ElementReply::Spent(state.generation)),
    }
}

// Whether the element is allocated and has this generation.
fn is_current(state: ElementState, generation: u32) -> bool
    ensures { result ≡ is_current_at state.phase state.generation generation }
{
    state.phase != Phase::Free && state.generation == generation
}

fn open(state: ElementState) -> (ElementState, ElementReply)
    ensures { result ≡ open_step state.phase state }
{
    let generation = state.generation;
    match state.phase {
        Phase::Free => (
            ElementState::reset(generation),
            ElementReply::Opened(generation),
        ),
        _ => (state, ElementReply::InUse),
    }
}

fn pause(state: ElementState) -> (ElementState, ElementReply)
    requires { state.generation < generation_limit }
    ensures { result ≡ pause_step state.phase state }
{
    match state.phase {
        Phase::Reset => (ElementState::paused(state.generation), ElementReply::Parked),
        Phase::Prereleased => give(state),
        _ => (state, ElementReply::Busy),
    }
}

fn resume(state: ElementState) -> (ElementState, ElementReply)
    requires { state.generation < generation_limit }
    ensures { result ≡ resume_step state.phase state }
{
    match state.phase {
        Phase::Paused => (state, ElementReply::NotYet),
        Phase::Released => give(state),
        _ => (state, ElementReply::Busy),
    }
}

fn release(state: ElementState, code: u32) -> (ElementState, ElementReply)
    ensures { result ≡ release_step state.phase code state }
{
    let generation = state.generation;
    match state.phase {
        Phase::Reset => (
            ElementState::prereleased(generation, code),
            ElementReply::Early,
        ),
        Phase::Paused => (ElementState::released(generation, code), ElementReply::Woke),
        _ => (state, ElementReply::Already),
    }
}

fn close(state: ElementState) -> (ElementState, ElementReply)
    requires { state.generation < generation_limit }
    ensures { result ≡ close_step state.phase state }
{
    match state.phase {
        Phase::Reset | Phase::Prereleased => (
            ElementState::free(state.generation + 1),
            ElementReply::Closed,
        ),
        _ => (state, ElementReply::Busy),
    }
}

// Hands over the kept code, and begins the next generation.
fn give(state: ElementState) -> (ElementState, ElementReply)
    requires { state.generation < generation_limit }
    ensures { result ≡ given_step state }
{
    let code = state.code;
    let next = state.generation + 1;
    (
        ElementState::reset(next),
        ElementReply::Given { code, next },
    )
}
