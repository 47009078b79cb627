//! The spool on threads: a reader, a scheduler, initiators and a writer, each on a thread, run the jobs of a deck.
#![tactic(auto)]

mod meeting;
mod spool;
mod tasks;

pub use mv_work::SpoolRun;
pub use spool::run_deck;
