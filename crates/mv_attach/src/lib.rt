//! Threads for the tasks of a station: each task works on a thread, in the room that its work needs, and all of them come back in
//! order, ready for `close`.
#![tactic(auto)]

mod blocks;
mod seat;
mod work;

pub use blocks::config_of_blocks;
pub use work::{Work, run_tasks};
