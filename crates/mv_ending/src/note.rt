//! The line that a command writes to its notes. Clauses cite `specs/Note.antt`.

ghost use Rattle.std.specs.Prelude.{◌≡◌, ◌≤◌, ◌⊎◌, length, None};
ghost use Rattle.mv_io.specs.Fault.{Rose};
ghost use Rattle.mv_io.specs.Sink.{Appends, AppendsFront};
ghost use Rattle.mv_ending.specs.Note.{fault_text, note_text, NotesAfter};

use crate::line::Line;
use mv_io::{Sink, write_all};

/// A line that a command may write to its notes. Lines of the input are counted from 1.
#[derive(Clone, Copy, Debug, PartialEq, Eq)]
pub enum Note {
    /// The arguments are not a command.
    Usage,
    /// The deck has this fault, of the kind of this number.
    DeckFault { line: u32, kind: u32 },
    /// The input has more bytes than the limit.
    InputTooLong,
    /// The input could not be read.
    ReadFailed,
    /// The report could not be written.
    ReportFailed,
    /// The journal could not be written.
    JournalFailed,
    /// Memory ran out.
    NoMemory,
    /// The entry on this line of the journal is the first that is not the machine's, or that has a wrong call number.
    Illegal { line: u32 },
    /// The journal's text has this fault, of the kind of this number.
    JournalFault { line: u32, kind: u32 },
    /// The script has this fault, of the kind of this number.
    ScriptFault { line: u32, kind: u32 },
}

// The line of a fault; `word` names the input.
#[tactic(auto, unfolding(crate::specs::Note::fault_text))]
fn fault_line(word: &[u8], line: u32, kind: u32) -> Line
    requires { length word.now ≤ 8 }
    ensures { result ≡ fault_text word.now line kind }
{
    let mut text = Line::new();
    text.push_text(word);
    text.push_text(b"LINE ");
    text.push_number(line);
    text.push_text(b" KIND ");
    text.push_number(kind);
    text.push_text(b"\n");
    text
}

fn illegal_line(line: u32) -> Line
    ensures { result ≡ note_text (Note.Illegal line) }
{
    let mut text = Line::new();
    text.push_text(b"ILLEGAL AT LINE ");
    text.push_number(line);
    text.push_text(b"\n");
    text
}

// Writes a line. Nothing reports a failure to write it.
fn write_line<N: Sink>(notes: &mut N, line: &[u8])
    ensures written { Appends (N.taken notes.old) (N.taken notes.new) line.now
        ⊎ (Rose (N.faults notes.old) (N.faults notes.new) × AppendsFront (N.taken notes.old) (N.taken notes.new) line.now) }
    ensures count { N.faults notes.old ≤ N.faults notes.new }
{
    let _told = write_all(notes, line);
}

/// Writes the line of a note, if there is one.
///
/// It waits as long as the notes' writes do, and takes no memory. A failure of the notes changes nothing else, and nothing
/// reports it.
pub fn tell<N: Sink>(notes: &mut N, note: Option<Note>)
    ensures written { NotesAfter note (N.faults notes.old) (N.faults notes.new) (N.taken notes.old) (N.taken notes.new) }
    ensures quiet { note ≡ None → notes.new ≡ notes.old }
    ensures count { N.faults notes.old ≤ N.faults notes.new }
{
    let Some(note) = note else { return };
    match note {
        Note::Usage => write_line(
            notes,
            b"USAGE: spool I, script, replay, convert, load N I, polled I S\n",
        ),
        Note::DeckFault { line, kind } => write_line(
            notes,
            fault_line(b"DECK ", line, kind).as_bytes(),
        ),
        Note::InputTooLong => write_line(notes, b"INPUT TOO LONG\n"),
        Note::ReadFailed => write_line(notes, b"READ FAILED\n"),
        Note::ReportFailed => write_line(notes, b"REPORT FAILED\n"),
        Note::JournalFailed => write_line(notes, b"JOURNAL FAILED\n"),
        Note::NoMemory => write_line(notes, b"NO MEMORY\n"),
        Note::Illegal { line } => write_line(notes, illegal_line(line).as_bytes()),
        Note::JournalFault { line, kind } => write_line(
            notes,
            fault_line(b"JOURNAL ", line, kind).as_bytes(),
        ),
        Note::ScriptFault { line, kind } => write_line(
            notes,
            fault_line(b"SCRIPT ", line, kind).as_bytes(),
        ),
    }
}
