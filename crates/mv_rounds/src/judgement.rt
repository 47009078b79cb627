//! The judgement of a round's history.

ghost use Rattle.std.specs.Prelude.{◌≡◌, ◌≤◌, All, IfOk};
ghost use Rattle.mv_wait.specs.Prelude.{Legal, highest_place};

use mv_wait::{History, Listed, NoMemory, ReplayRefusal, replay};
use std::alloc::Global;

/// Judges the history of a round, of which no entry has been read, and returns it as a list.
///
/// The history of a closed station is legal, so this fails only if memory runs out.
///
/// # Errors
///
/// `NoMemory` if memory runs out.
pub fn judge(alloc: Global, history: History) -> Result<Listed, NoMemory>
    requires legal { Legal history.config history.coming }
    requires places { All (λ e. e.place ≤ highest_place) history.coming }
    ensures config { IfOk result (λ listed. listed.config ≡ history.config) }
    ensures journal { IfOk result (λ listed. listed.journal.items ≡ history.coming) }
{
    let listed = history.listed(alloc)?;
    match replay(alloc, &listed.config, &listed.journal) {
        Ok(_) => Ok(listed),
        // out of memory: `replay` was.
        Err(ReplayRefusal::NoMemory) => Err(NoMemory),
        Err(ReplayRefusal::Illegal(_)) => unreachable!(),
    }
}
