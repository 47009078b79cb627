//! State under a latch: laws on what callers read and write while they hold one, and the lemmas by which programs use them.
//! `specs/Guarded.antt` has the words, and the page of the crate lists the lemmas.
#![tactic(auto)]

mod laws;

pub use laws::{
    exclusive_latches_have_one_holder, only_writers_know_their_volumes,
    released_latches_hold_up_no_caller, sections_see_one_number,
};
