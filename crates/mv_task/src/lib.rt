//! The ends of jobs and of tasks, which give back what these held, and the gate at which a test holds the tasks of a run.
#![tactic(auto)]

mod ending;
mod gate;
mod meeting;

pub use ending::{end_of_job, end_of_task};
pub use gate::{Gate, OpenGate, Point};
pub use meeting::MeetGate;

#[cfg(test)]
mod tests;
