//! The weight that a deck may have, and the events of a step (`specs/Weight.antt`).

ghost use Rattle.std.specs.Prelude.{◌≡◌, ◌≤◌};
ghost use Rattle.mv_deck.specs.Weight.{step_events as events_of_step};

use crate::Step;

/// The heaviest weight of a deck that is run.
pub(crate) const HEAVIEST: u64 = 524_287;

/// The most initiators that may run a deck.
pub const MOST_INITIATORS: u32 = 8;

/// Returns how many events a step makes at most.
pub fn step_events(step: &Step) -> u32
    ensures events { result ≡ events_of_step step.now }
    ensures few { result ≤ 2 }
{
    match step {
        Step::Use(_, _) | Step::Count(_, _) | Step::Scan(_) => 2,
        Step::Free(_) => 1,
        Step::Print(_) | Step::Abend(_) | Step::Return(_) => 0,
    }
}
