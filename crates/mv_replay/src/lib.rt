//! The commands on journals: they judge whether the input is the text of a legal history, and write that history in version 2
//! of the text.
#![tactic(auto)]

mod command;
mod judging;
mod laws;
mod reading;
mod replaying;
mod reporting;
mod status;
mod text;

pub use command::JournalCommand;
pub use laws::{legal_lists_are_done, no_text_asks_for_two_endings};
pub use replaying::{convert_command, judge_journal, replay_command};
pub use status::ReplayStatus;
pub use text::{ReplayedJournal, judge_text};
