//! How a command ends: the one line that it may write to its notes, and how much its streams have then.
#![tactic(auto)]

mod line;
mod note;

pub use line::{LONGEST_LINE, Line};
pub use note::{Note, tell};
