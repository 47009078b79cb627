//! The judge of journals, the machine of one thread and the lines of journals, in structs of numbers: an oracle for tests of an
//! implementation of these services in another language.
#![tactic(auto)]

mod answer;
mod handle;
mod latch;
mod line;
mod machine;
mod operation;
mod oracle;
mod reply;
mod service;
mod status;
mod verdict;

pub use answer::Answer;
pub use handle::MachineHandle;
pub use latch::{LatchRequest, LatchWake};
pub use line::write_line;
pub use operation::Operation;
pub use oracle::Oracle;
pub use verdict::{Verdict, judge};
