//! The commands on journals. The definitions of specs/Course and specs/Outcome are by cases of these.

/// A command on a journal.
#[derive(Clone, Copy, Debug, PartialEq, Eq)]
pub enum JournalCommand {
    /// Judges the journal.
    Replay,
    /// Judges the journal, and writes it in version 2.
    Convert,
}
