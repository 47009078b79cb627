//! The endings of commands on journals, and their notes, by specs/Status. The definitions of specs/Outcome are by cases of
//! these.

ghost use Rattle.std.specs.Prelude.{◌≡◌};
ghost use Rattle.mv_replay.specs.Status.{note_of as note_by_status, of_read, of_text};
ghost use Rattle.mv_replay.specs.declared.status.ReplayStatus.TheVariants.{NoMemory as no_memory, Text as text};

use mv_ending::Note;
use mv_entrytext::{TextFault, TextRefusal};
use mv_io::{NoMemory, ReadRefusal};

/// How a command on a journal ended. Lines of the journal are counted from 1.
#[derive(Clone, Copy, Debug, PartialEq, Eq)]
pub enum ReplayStatus {
    /// The journal is legal, and the report was written.
    Done,
    /// The input has more bytes than the limit of journals.
    TooLong,
    /// The input could not be read.
    ReadFailed,
    /// The journal is legal, and the report could not be written.
    ReportFailed,
    /// Memory ran out.
    NoMemory,
    /// The entry on this line is the first that is not the machine's, or does not have its call number.
    Illegal(u32),
    /// The text has a fault. This is its first.
    Text(TextFault),
}

impl From<ReadRefusal> for ReplayStatus {
    ghost from_gives = { λ refusal status. status ≡ of_read refusal };

    fn from(refusal: ReadRefusal) -> Self {
        match refusal {
            ReadRefusal::Failed => ReplayStatus::ReadFailed,
            ReadRefusal::TooLong => ReplayStatus::TooLong,
            ReadRefusal::NoMemory => ReplayStatus::NoMemory,
        }
    }
}

impl From<TextFault> for ReplayStatus {
    ghost from_gives = { λ fault status. status ≡ text fault };

    fn from(fault: TextFault) -> Self {
        ReplayStatus::Text(fault)
    }
}

impl From<TextRefusal> for ReplayStatus {
    ghost from_gives = { λ refusal status. status ≡ of_text refusal };

    fn from(refusal: TextRefusal) -> Self {
        match refusal {
            TextRefusal::Fault(fault) => ReplayStatus::Text(fault),
            TextRefusal::NoMemory => ReplayStatus::NoMemory,
        }
    }
}

impl From<NoMemory> for ReplayStatus {
    ghost from_gives = { λ _ status. status ≡ no_memory };

    fn from(_: NoMemory) -> Self {
        ReplayStatus::NoMemory
    }
}

/// Returns the line that an ending writes on the notes, if it writes one.
pub(crate) fn note_of(status: ReplayStatus) -> Option<Note>
    ensures { result ≡ note_by_status status }
{
    match status {
        ReplayStatus::Done => None,
        ReplayStatus::TooLong => Some(Note::InputTooLong),
        ReplayStatus::ReadFailed => Some(Note::ReadFailed),
        ReplayStatus::ReportFailed => Some(Note::ReportFailed),
        ReplayStatus::NoMemory => Some(Note::NoMemory),
        ReplayStatus::Illegal(line) => Some(Note::Illegal { line }),
        ReplayStatus::Text(fault) => Some(Note::JournalFault {
            line: fault.line,
            kind: fault.kind,
        }),
    }
}
