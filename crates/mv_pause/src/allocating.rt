//! The beginning of an element's use. Clauses cite `Pauses.antt` of mv_calls, and `specs/Answers.antt`.

ghost use Rattle.std.specs.Prelude.{◌≡◌, ◌<◌, ◌≤◌, ◌-◌, ◌∷◌, [], ℕ, not, find, Some, None, IfOk, IfSome, MatchResult};
ghost use Rattle.std.specs.List.{range_with_len};
ghost use Rattle.mv_wait.specs.Prelude.{Setup, element_count, element_owner, highest_generation, IsOf, kept_of, allocate, lowest_free};
ghost use Rattle.mv_wait.specs.Prelude.{IsServed, MayCall};
ghost use Rattle.mv_pause.specs.Answers.{allocate_answer};

use crate::replies::opened;
use mv_element::{ElementOp, Token};
use mv_machine::{Object, Op};
use mv_wait::{Station, Task};
use std::sync::Wait;
use thiserror::Error;

/// The error of an allocate when all elements of the task are in use.
#[derive(Clone, Copy, Debug, PartialEq, Eq, Error)]
#[error("all elements of the task are in use")]
pub struct NoElement;

/// Takes the task's lowest element that is not in use, and returns the token of its next pause (IEAVAPE).
///
/// Give the token to the task that is to release that pause. It has the element's present generation, of 18 bits. The call makes
/// one event, which must be left. It does not park.
///
/// # Errors
///
/// `NoElement` if all of the task's own elements are in use; then no event is made.
///
/// # Examples
///
/// From `crates/mv_server/src/server.rt`, a worker that begins:
///
/// ```
/// // The task is new, so its element is free.
/// let Ok(mut token) = allocate(station, rt, task) else {
///     unreachable!()
/// };
/// ```
pub fn allocate<R: Wait>(station: &Station, rt: &R, task: &mut Task) -> Result<Token, NoElement>
    requires task { MayCall station.now 1 task.old }
    ensures served { IsServed 1 (allocate station.now.config) (λ a. a ≡ allocate_answer result) task.old task.new }
    ensures causes { MatchResult result
        (λ token. lowest_free station.now.config (kept_of task.old.number task.old.log) ≡ Some token.element)
        (λ _. (lowest_free station.now.config (kept_of task.old.number task.old.log) ≡ None) × (task.new ≡ task.old)) }
    ensures own { IfOk result (λ token. (token.element < element_count station.now.config)
        × (element_owner station.now.config token.element ≡ task.old.number)) }
    ensures low { IfOk result (λ token. token.generation ≤ highest_generation) }
{
    let Some(element) = lowest(station, task) else {
        return Err(NoElement);
    };
    let reply = station.event(
        rt,
        task,
        Object::Element(element),
        Op::Element(ElementOp::Open),
    );
    Ok(Token {
        element,
        generation: opened(reply),
    })
}

// The task's lowest element that is not in use.
fn lowest(station: &Station, task: &Task) -> Option<u32>
    requires { IsOf station.now task.now }
    ensures lowest { result ≡ lowest_free station.now.config (kept_of task.now.number task.now.log) }
    ensures own { IfSome result (λ n. (n < element_count station.now.config) × (element_owner station.now.config n ≡ task.now.number)) }
{
    let own = station.config().own_elements(task.number());
    lowest_between(task, own.start, own.end)
}

// The lowest of these elements that is not in use. All of them are the task's own.
fn lowest_between(task: &Task, first: u32, end: u32) -> Option<u32>
    requires own { (n : ℕ) → first ≤ n → n < end → (s : Setup) × (task.now.about ≡ s ∷ []) × (element_owner s n ≡ task.now.number) }
    ensures lowest { result ≡ find (λ n. not ((kept_of task.now.number task.now.log).in_use n)) (range_with_len first (end - first)) }
    ensures between { IfSome result (λ n. (first ≤ n) × (n < end)) }
{
    (first..end).find(|element| !task.in_use(*element))
}
