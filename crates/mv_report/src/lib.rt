//! The report on a deck that was run: the end and the lines of each job, how many jobs ended in each way, and the numbers in the
//! volumes.
#![tactic(auto)]

mod end_code;
mod laws;
mod lines;
mod outcome;
mod report;
mod summary;

pub use laws::{ends_go_by_accepted_codes, reports_tell_the_ends, sound_decks_have_reports};
pub use lines::{Lines, print_line, scan_line};
pub use outcome::{Outcome, outcome_of};
pub use report::write_report;
pub use summary::write_summary;
