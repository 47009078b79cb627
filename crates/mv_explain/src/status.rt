//! How an explanation ends: `specs/Status.antt`.

ghost use Rattle.std.specs.Prelude.{◌≡◌};
ghost use Rattle.mv_explain.specs.Status.{exit_status, note_of as note_by_status, of_read};
ghost use Rattle.mv_explain.specs.declared.status.ExplainStatus.TheVariants.{NoMemory as no_memory};

use mv_ending::Note;
use mv_io::{NoMemory, ReadRefusal};

/// How an explanation ended.
#[derive(Clone, Copy, Debug, PartialEq, Eq)]
pub enum ExplainStatus {
    /// It was written, whatever it says of the input.
    Done,
    /// The input has more bytes than the limit.
    TooLong,
    /// The input could not be read.
    ReadFailed,
    /// It could not be written whole: a prefix of it may have been.
    ReportFailed,
    /// The journal of a run could not be written whole: a prefix of it may have been.
    JournalFailed,
    /// Memory ran out before anything was written.
    NoMemory,
}

impl ExplainStatus {
    /// The exit status of the process: that of the other commands.
    pub fn exit(self) -> u8
        ensures { result ≡ exit_status self }
    {
        match self {
            ExplainStatus::Done => 0,
            ExplainStatus::TooLong => 4,
            ExplainStatus::ReadFailed => 5,
            ExplainStatus::ReportFailed => 6,
            ExplainStatus::JournalFailed => 7,
            ExplainStatus::NoMemory => 8,
        }
    }
}

impl From<ReadRefusal> for ExplainStatus {
    ghost from_gives = { λ refusal status. status ≡ of_read refusal };

    fn from(refusal: ReadRefusal) -> Self {
        match refusal {
            ReadRefusal::Failed => ExplainStatus::ReadFailed,
            ReadRefusal::TooLong => ExplainStatus::TooLong,
            ReadRefusal::NoMemory => ExplainStatus::NoMemory,
        }
    }
}

impl From<NoMemory> for ExplainStatus {
    ghost from_gives = { λ _ status. status ≡ no_memory };

    fn from(_: NoMemory) -> Self {
        ExplainStatus::NoMemory
    }
}

/// The note of a status.
pub(crate) fn note_of(status: ExplainStatus) -> Option<Note>
    ensures { result ≡ note_by_status status }
{
    match status {
        ExplainStatus::Done => None,
        ExplainStatus::TooLong => Some(Note::InputTooLong),
        ExplainStatus::ReadFailed => Some(Note::ReadFailed),
        ExplainStatus::ReportFailed => Some(Note::ReportFailed),
        ExplainStatus::JournalFailed => Some(Note::JournalFailed),
        ExplainStatus::NoMemory => Some(Note::NoMemory),
    }
}
