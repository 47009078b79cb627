//! The text of a journal: the configuration of a run and its entries as lines, written and read back, and the first fault of
//! any other text.
#![tactic(auto)]

mod fault;
mod head;
mod history_text;
mod laws;
mod line;
mod reader;
mod reading;
mod typed;
mod writing;

pub use fault::Kind;
pub use history_text::HistoryText;
pub use laws::{
    first_fault_is_lowest, legal_lists_have_texts, text_determines_journal,
    texts_state_their_journals, texts_without_fault_are_journals,
};
pub use mv_line::{TextFault, TextRefusal};
pub use mv_operationtext::Version;
pub use reader::{EntryReader, OpenJournal, open_journal};
pub use reading::{Journal, read_journal};
pub use writing::{JournalWriter, push_entry_line, write_journal, write_old_journal};
