//! The spool on one thread: a reader, a scheduler, initiators and a writer, polled in an order that the caller chooses, run the jobs
//! of a deck.
#![tactic(auto)]

mod meeting;
mod order;
mod polled;
mod spool;

pub use mv_work::SpoolRun;
pub use order::{Order, RoundOrder};
pub use spool::run_polled;
