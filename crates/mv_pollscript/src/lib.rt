//! Scripts on one thread: each task makes its calls as far as it can, in rounds, until no task goes on; and what they have done by then.
#![tactic(auto)]

mod finding;
mod polls;
mod quiescence;
mod run;
mod sentences;
mod standing;
mod task;
mod text;

pub use quiescence::run_so_far;
pub use run::RunSoFar;
pub use standing::{Standing, task_standing};
pub use text::write_waits;
