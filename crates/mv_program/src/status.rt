//! The endings of the program, by `specs/Status.antt`.

ghost use Rattle.std.specs.Prelude.{◌≡◌, Some};
ghost use Rattle.mv_program.specs.Status.{exit_status, note_of as note_by_status, of_read, replay_of};
ghost use Rattle.mv_program.specs.declared.status.Status.TheVariants.{NoMemory as no_memory};

use mv_deck::DeckFault;
use mv_ending::Note;
use mv_entrytext::TextFault;
use mv_io::{NoMemory, ReadRefusal};
use mv_replay::ReplayStatus;
use mv_script::ScriptFault;

/// How a run ended.
#[derive(Clone, Copy, Debug, PartialEq, Eq)]
pub enum Status {
    /// The whole output was written.
    Done,
    /// The words do not state a command.
    Words,
    /// The deck has a fault. This is its first.
    Deck(DeckFault),
    /// The input has more bytes than the command's limit.
    TooLong,
    /// The input could not be read.
    ReadFailed,
    /// The report could not be written whole. A prefix of it may have been written.
    ReportFailed,
    /// The journal could not be written whole. A prefix of it may have been written, after the whole report.
    JournalFailed,
    /// Memory ran out, before anything was written.
    NoMemory,
    /// The script has a fault. This is its first.
    Script(ScriptFault),
    /// The entry on this line of the journal is the first that is not the machine's, or does not have its call number.
    Illegal(u32),
    /// The text of the journal has a fault. This is its first.
    Text(TextFault),
}

impl Status {
    /// Returns the exit status of the process, which is 0 only for `Done`. docs/FORMATS.md lists them.
    pub fn exit(&self) -> u8
        ensures { result ≡ exit_status self.now }
    {
        match self {
            Status::Done => 0,
            Status::Words => 2,
            Status::Deck(_) => 3,
            Status::TooLong => 4,
            Status::ReadFailed => 5,
            Status::ReportFailed => 6,
            Status::JournalFailed => 7,
            Status::NoMemory => 8,
            Status::Script(_) => 9,
            Status::Illegal(_) => 10,
            Status::Text(_) => 11,
        }
    }
}

impl From<ReadRefusal> for Status {
    ghost from_gives = { λ refusal status. status ≡ of_read refusal };

    fn from(refusal: ReadRefusal) -> Self {
        match refusal {
            ReadRefusal::Failed => Status::ReadFailed,
            ReadRefusal::TooLong => Status::TooLong,
            ReadRefusal::NoMemory => Status::NoMemory,
        }
    }
}

impl From<NoMemory> for Status {
    ghost from_gives = { λ _ status. status ≡ no_memory };

    fn from(_: NoMemory) -> Self {
        Status::NoMemory
    }
}

/// The status of a run of a command on a journal.
impl From<ReplayStatus> for Status {
    ghost from_gives = { λ replay status. replay_of status ≡ Some replay };

    fn from(replay: ReplayStatus) -> Self {
        match replay {
            ReplayStatus::Done => Status::Done,
            ReplayStatus::TooLong => Status::TooLong,
            ReplayStatus::ReadFailed => Status::ReadFailed,
            ReplayStatus::ReportFailed => Status::ReportFailed,
            ReplayStatus::NoMemory => Status::NoMemory,
            ReplayStatus::Illegal(line) => Status::Illegal(line),
            ReplayStatus::Text(fault) => Status::Text(fault),
        }
    }
}

/// Returns the line of a status on the notes, if it has one.
pub(crate) fn note_of(status: Status) -> Option<Note>
    ensures { result ≡ note_by_status status }
{
    match status {
        Status::Done => None,
        Status::Words => Some(Note::Usage),
        Status::Deck(fault) => Some(Note::DeckFault {
            line: fault.line,
            kind: fault.kind,
        }),
        Status::TooLong => Some(Note::InputTooLong),
        Status::ReadFailed => Some(Note::ReadFailed),
        Status::ReportFailed => Some(Note::ReportFailed),
        Status::JournalFailed => Some(Note::JournalFailed),
        Status::NoMemory => Some(Note::NoMemory),
        Status::Script(fault) => Some(Note::ScriptFault {
            line: fault.line,
            kind: fault.kind,
        }),
        Status::Illegal(line) => Some(Note::Illegal { line }),
        Status::Text(fault) => Some(Note::JournalFault {
            line: fault.line,
            kind: fault.kind,
        }),
    }
}
