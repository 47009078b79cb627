//! A service that outlives the budgets of its stations: it works in rounds, each on a new station, and carries its own state and the
//! numbers of the volumes from one round to the next.
#![tactic(auto)]

mod judgement;
mod round;
mod service;
mod volumes;

pub use judgement::judge;
pub use round::{ClosedRound, Round};
pub use service::{Service, run_rounds};
pub use volumes::restore;

#[cfg(test)]
mod tests;
