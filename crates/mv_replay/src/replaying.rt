//! The commands on journals: what each reads, judges and writes. Clauses cite specs/Outcome and specs/Status.

ghost use Rattle.std.specs.Prelude.{◌≡◌, ◌≤◌};
ghost use Rattle.mv_io.specs.Fault.{Rose};
ghost use Rattle.mv_ending.specs.Note.{NotesAfter};
ghost use Rattle.mv_ending.specs.Written.{IfUnwritten};
ghost use Rattle.mv_replay.specs.Outcome.{InputOf, IsConversion, IsReplayReport, Owes, ReportAfter, extent_of, reports_of};
ghost use Rattle.mv_replay.specs.Status.{note_of};

use crate::command::JournalCommand;
use crate::reading::read_legal;
use crate::reporting::write_report;
use crate::status::{ReplayStatus, note_of as note_for};
use mv_ending::tell;
use mv_io::{Sink, Source};
use std::alloc::Global;

/// Judges the journal of the input, which has at most 67,108,864 bytes: it must be the text of a journal whose entries are
/// legal and, in version 2, have their call numbers. If it is, `Replay` appends to the report the line `LEGAL n EVENTS`, with
/// their number, and `Convert` appends the text in version 2, with the call numbers that the machine's rules give; a legal text
/// of that version is its own conversion. Every other ending writes its line on the notes, last of all. A failure of the notes
/// changes no status.
///
/// The input is read whole before it is judged, line by line. No list of its events is kept, and nothing is written before the
/// judgement is done; a conversion is made in memory meanwhile. The budgets of the configuration are not checked. The time is
/// linear in the text, except that each event on the latch set takes a small multiple of the number of requests in the set. It
/// waits as long as its streams do, and for nothing else.
///
/// # Errors
///
/// Returns a `ReplayStatus` other than `Done`. If the text is the cause, nothing was written.
///
/// # Examples
///
/// From `crates/mv_program/src/program.rt`, for the command `replay` or `convert`:
///
/// ```
/// Status::from(judge_journal(alloc, command, input, report, notes))
/// ```
pub fn judge_journal<D: Source, R: Sink, N: Sink>(
    alloc: Global,
    command: JournalCommand,
    input: &mut D,
    report: &mut R,
    notes: &mut N,
) -> ReplayStatus
    // Why a command ends as it does.
    ensures input { InputOf result (D.left input.old) (D.left input.new) }
    ensures read_failed { result ≡ ReplayStatus.ReadFailed → Rose (D.faults input.old) (D.faults input.new) }
    ensures report_failed { result ≡ ReplayStatus.ReportFailed → Rose (R.faults report.old) (R.faults report.new) }

    // The contents of the report after each ending. A report that is not written is as it was, whether or not its sink shows
    // its bytes.
    ensures report { ReportAfter (reports_of command) result (D.left input.old) (R.taken report.old) (R.taken report.new) }
    ensures unwritten { IfUnwritten (extent_of result) (report.new ≡ report.old) }

    // The notes after each ending.
    ensures notes { NotesAfter (note_of result) (N.faults notes.old) (N.faults notes.new) (N.taken notes.old) (N.taken notes.new) }
    ensures quiet { result ≡ ReplayStatus.Done → notes.new ≡ notes.old }

    // How a command has to end if its streams do not fail.
    ensures owed { Owes (Rose (D.faults input.old) (D.faults input.new)) (Rose (R.faults report.old) (R.faults report.new))
        (D.left input.old) result }

    // Counts of faults do not fall.
    ensures counts { (D.faults input.old ≤ D.faults input.new) × (R.faults report.old ≤ R.faults report.new)
        × (N.faults notes.old ≤ N.faults notes.new) }
{
    let status = judged(alloc, command, input, report);
    tell(notes, note_for(status));
    status
}

// Judges the journal of the input, and writes the report if it is legal. Nothing is written on the notes.
fn judged<D: Source, R: Sink>(
    alloc: Global,
    command: JournalCommand,
    input: &mut D,
    report: &mut R,
) -> ReplayStatus
    ensures input { InputOf result (D.left input.old) (D.left input.new) }
    ensures read_failed { result ≡ ReplayStatus.ReadFailed → Rose (D.faults input.old) (D.faults input.new) }
    ensures report_failed { result ≡ ReplayStatus.ReportFailed → Rose (R.faults report.old) (R.faults report.new) }
    ensures report { ReportAfter (reports_of command) result (D.left input.old) (R.taken report.old) (R.taken report.new) }
    ensures unwritten { IfUnwritten (extent_of result) (report.new ≡ report.old) }
    ensures owed { Owes (Rose (D.faults input.old) (D.faults input.new)) (Rose (R.faults report.old) (R.faults report.new))
        (D.left input.old) result }
    ensures counts { (D.faults input.old ≤ D.faults input.new) × (R.faults report.old ≤ R.faults report.new) }
{
    match read_legal(alloc, command, input) {
        Ok(legal) => write_report(command, legal, report),
        Err(status) => status,
    }
}

/// Runs the command `replay`: judges the journal of the input as `judge_journal` does, and reports `LEGAL n EVENTS` if it is
/// legal.
///
/// # Errors
///
/// Returns a `ReplayStatus` other than `Done`. If the text is the cause, nothing was written.
pub fn replay_command<D: Source, R: Sink, N: Sink>(
    alloc: Global,
    input: &mut D,
    report: &mut R,
    notes: &mut N,
) -> ReplayStatus
    ensures input { InputOf result (D.left input.old) (D.left input.new) }
    ensures read_failed { result ≡ ReplayStatus.ReadFailed → Rose (D.faults input.old) (D.faults input.new) }
    ensures report_failed { result ≡ ReplayStatus.ReportFailed → Rose (R.faults report.old) (R.faults report.new) }
    ensures report { ReportAfter IsReplayReport result (D.left input.old) (R.taken report.old) (R.taken report.new) }
    ensures unwritten { IfUnwritten (extent_of result) (report.new ≡ report.old) }
    ensures notes { NotesAfter (note_of result) (N.faults notes.old) (N.faults notes.new) (N.taken notes.old) (N.taken notes.new) }
    ensures quiet { result ≡ ReplayStatus.Done → notes.new ≡ notes.old }
    ensures owed { Owes (Rose (D.faults input.old) (D.faults input.new)) (Rose (R.faults report.old) (R.faults report.new))
        (D.left input.old) result }
    ensures counts { (D.faults input.old ≤ D.faults input.new) × (R.faults report.old ≤ R.faults report.new)
        × (N.faults notes.old ≤ N.faults notes.new) }
{
    judge_journal(alloc, JournalCommand::Replay, input, report, notes)
}

/// Runs the command `convert`: judges the journal of the input as `judge_journal` does, and reports its text in version 2 if it
/// is legal.
///
/// # Errors
///
/// Returns a `ReplayStatus` other than `Done`. If the text is the cause, nothing was written.
pub fn convert_command<D: Source, R: Sink, N: Sink>(
    alloc: Global,
    input: &mut D,
    report: &mut R,
    notes: &mut N,
) -> ReplayStatus
    ensures input { InputOf result (D.left input.old) (D.left input.new) }
    ensures read_failed { result ≡ ReplayStatus.ReadFailed → Rose (D.faults input.old) (D.faults input.new) }
    ensures report_failed { result ≡ ReplayStatus.ReportFailed → Rose (R.faults report.old) (R.faults report.new) }
    ensures report { ReportAfter IsConversion result (D.left input.old) (R.taken report.old) (R.taken report.new) }
    ensures unwritten { IfUnwritten (extent_of result) (report.new ≡ report.old) }
    ensures notes { NotesAfter (note_of result) (N.faults notes.old) (N.faults notes.new) (N.taken notes.old) (N.taken notes.new) }
    ensures quiet { result ≡ ReplayStatus.Done → notes.new ≡ notes.old }
    ensures owed { Owes (Rose (D.faults input.old) (D.faults input.new)) (Rose (R.faults report.old) (R.faults report.new))
        (D.left input.old) result }
    ensures counts { (D.faults input.old ≤ D.faults input.new) × (R.faults report.old ≤ R.faults report.new)
        × (N.faults notes.old ≤ N.faults notes.new) }
{
    judge_journal(alloc, JournalCommand::Convert, input, report, notes)
}
