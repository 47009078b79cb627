//! Latch sets for one thread: lists of shared and exclusive requests, which are granted in the order of their arrival.
#![tactic(auto)]

mod latch_set;
pub mod laws;
mod lists;
mod operation;
mod queue;
mod request;
mod selection;

pub use latch_set::LatchSet;
pub use operation::{LatchOp, LatchReply, Wake};
pub use request::{LatchForm, Mode, Request};
