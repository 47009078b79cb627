//! The owner of an element. Clauses cite `Pauses.antt` of mv_calls.

ghost use Rattle.std.specs.Prelude.{◌≡◌, ◌<◌};
ghost use Rattle.mv_wait.specs.Prelude.{element_count, kept_of, is_others_token};

use crate::releasing::ReleaseRefusal;
use mv_calls::ReleaseAnswer;
use mv_element::Token;
use mv_wait::{Station, Task};

/// Returns whether a token is of another caller's element.
pub(crate) fn is_others(station: &Station, task: &Task, token: Token) -> bool
    ensures { result ≡ is_others_token station.now.config (kept_of task.now.number task.now.log) token }
{
    !station.config().owns_element(task.number(), token.element)
}

/// Wakes the owner of an element if a release with this answer found it paused.
pub(crate) fn wake_owner(
    station: &Station,
    answer: Result<ReleaseAnswer, ReleaseRefusal>,
    element: u32,
)
    requires { element < element_count station.now.config }
{
    if let Ok(ReleaseAnswer::Woke) = answer {
        station.wake(station.config().element_owner(element));
    }
}
