//! What a task does from one wait to the next. Clauses cite `specs/Waiting.antt`.
//!
//! ```text
//!   Ok(Wait(stage, need)) ── keep_stage ──> Ok(Some(need)), and the task waits at the stage
//!   Ok(Done) ─────────────── keep_stage ──> Ok(None)
//!   Err(Lost) ────────────── keep_stage ──> Err(Lost)
//! ```

ghost use Rattle.std.specs.Prelude.{◌≡◌};
ghost use Rattle.mv_work.specs.Waiting.{need_of, stage_then};

use crate::lost::Lost;
use crate::need::Need;

/// What a task does next: it waits at a stage for what it needs, or its program is done.
#[derive(Drop)]
pub(crate) enum Next<S> {
    Wait(S, Need),
    Done,
}

/// Keeps the stage at which a task waits next, and returns what it waits for there, or `None` if its program is done.
///
/// # Errors
///
/// `Lost` if the task is lost.
pub(crate) fn keep_stage<S: Copy>(
    stage: &mut Option<S>,
    next: Result<Next<S>, Lost>,
) -> Result<Option<Need>, Lost>
    ensures stage { stage.new ≡ stage_then stage.old next }
    ensures need { result ≡ need_of next }
{
    match next {
        Ok(Next::Wait(at, need)) => {
            *stage = Some(at);
            Ok(Some(need))
        }
        Ok(Next::Done) => Ok(None),
        Err(lost) => Err(lost),
    }
}
