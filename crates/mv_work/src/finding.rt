//! What a wait for the first of some blocks found. Clauses cite `specs/Parts.antt`.
//!
//! ```text
//!   Open  Open  Complete(code)  Complete(..) ── first_in ──> Found { position: 2, code }
//! ```

ghost use Rattle.std.specs.Prelude.{◌≡◌, ◌<◌, length, IfOk, MatchResult};
ghost use Rattle.mv_wait.specs.Prelude.{finished, wrong};
ghost use Rattle.mv_work.specs.Parts.{lowest_complete, pair_of};

use crate::lost::Lost;
use mv_wait::WaitSlot;

/// A block that was found complete.
#[derive(Clone, Copy)]
pub(crate) struct Found {
    /// Its position in the list, from 0.
    pub position: usize,
    pub code: u32,
}

/// The lowest position that was found complete, with its code.
pub(crate) fn first_in(slots: &[WaitSlot]) -> Result<Found, Lost>
    ensures found { MatchResult result (λ found. lowest_complete 0 slots.now ≡ finished (pair_of found))
        (λ _. lowest_complete 0 slots.now ≡ wrong) }
    ensures listed { IfOk result (λ found. found.position < length slots.now) }
{
    for position in 0..slots.len() {
        if let WaitSlot::Complete(code) = slots[position] {
            return Ok(Found { position, code });
        }
    }
    Err(Lost)
}
