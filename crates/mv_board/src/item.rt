//! The content of the slot of the latch set, and what steps announce.

use mv_latch::LatchSet;
use mv_machine::Op;

/// The latch set, and the number of events that it has had.
#[derive(Drop)]
pub struct Lists {
    pub place: u32,
    pub latches: LatchSet,
}

/// What the slot of the turn holds, or what a step announces for the proof only.
#[derive(Drop)]
pub enum Item {
    Held(Lists),
    /// The holder of the turn has taken the lists out.
    Away,
    /// The operation that a step makes.
    Said(Op),
    /// The request for which the lists were taken and given back unchanged.
    Sought { latch: u32, id: u32 },
}
