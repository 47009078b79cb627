//! The token of a latch request. Clauses cite `specs/Token.antt`.

ghost use Rattle.std.specs.Prelude.{◌≡◌, true};
ghost use Rattle.mv_latchset.specs.Token.{stands};

use mv_wait::Task;

/// A latch request of a task: its latch, and the number by which it is checked and released. Other tasks cannot use it: in their
/// calls it is the token of no request.
#[derive(Clone, Copy, Debug, PartialEq, Eq)]
pub struct LatchToken {
    pub latch: u32,
    /// The request's number, which no other request has.
    pub id: u32,
    /// The slab key under which the task keeps the request.
    pub key: usize,
}

/// Returns the token of a standing request.
pub(crate) fn token_of(task: &Task, latch: u32, id: u32) -> LatchToken
    requires { stands task.now id ≡ true }
    ensures latch { result.latch ≡ latch }
    ensures id { result.id ≡ id }
{
    let Some(key) = task.key(id) else {
        unreachable!()
    };
    LatchToken { latch, id, key }
}
