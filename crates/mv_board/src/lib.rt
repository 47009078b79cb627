//! A board of shared objects: words that tasks change by single exchanges, and a latch set that a turn (a spin lock) protects. At
//! every moment the callers' logs are the parts of one legal history.
#![tactic(auto)]

mod board;
mod caller;
mod closing;
mod item;
mod rule;
mod turn;
mod view;
mod watch;
mod words;

pub use board::Board;
pub use caller::{Caller, Moved};
pub use closing::{Closed, Closing};
pub use watch::Watch;
