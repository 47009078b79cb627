//! Configurations: which callers and objects a machine has, and what each caller may do; their limits, their check, and what is
//! computed from them once.
#![tactic(auto)]

mod checking;
mod config;
mod laws;
mod limits;
mod reaching;
mod valid;

pub use config::{CheckRefusal, Config, ConfigLimit, Exit};
pub use laws::refused_configurations_are_not_valid;
pub use limits::{HIGHEST_GENERATION, HIGHEST_PLACE};
pub use valid::ValidConfig;
