//! The command: an input is read, and what is said of it is written. Clauses cite `specs/Outcome.antt` and `specs/Status.antt`.

ghost use Rattle.std.specs.Prelude.{◌≡◌, ◌≤◌, Err, IfOk, IfErr, IfSome};
ghost use Rattle.mv_io.specs.Fault.{Rose};
ghost use Rattle.mv_ending.specs.Note.{NotesAfter};
ghost use Rattle.mv_ending.specs.Written.{IfUnwritten, Nothing};
ghost use Rattle.mv_explain.specs.Explained.{IsExplained};
ghost use Rattle.mv_explain.specs.Outcome.{InputOf, Owes, ReportAfter, Writes, extent_of};
ghost use Rattle.mv_explain.specs.Status.{note_of as note_by_status};

use crate::naming::explanation_of;
use crate::status::{ExplainStatus, note_of};
use mv_ending::tell;
use mv_io::{Sink, Source, read_limited, write_all};
use std::alloc::Global;

/// The most bytes of an input: those of a journal.
const INPUT_LIMIT: usize = 67_108_864;

// What is said of the input, or why that is not known.
fn read_and_explain<D: Source>(alloc: Global, input: &mut D) -> Result<Vec<u8>, ExplainStatus>
    ensures explained { IfOk result (λ text. IfSome (D.left input.old) (λ bytes. IsExplained bytes text.items)) }
    ensures whole { IfOk result (λ _. InputOf ExplainStatus.Done (D.left input.old) (D.left input.new)) }
    ensures input { IfErr result (λ status. InputOf status (D.left input.old) (D.left input.new)) }
    ensures unwritten { IfErr result (λ status. extent_of status ≡ Nothing) }
    ensures read_failed { result ≡ Err ExplainStatus.ReadFailed → Rose (D.faults input.old) (D.faults input.new) }
    ensures count { D.faults input.old ≤ D.faults input.new }
{
    let bytes = read_limited(alloc, input, INPUT_LIMIT)?;
    match explanation_of(alloc, &bytes) {
        Ok(text) => Ok(text),
        // out of memory: the input was read, and there is no room for what is said of it.
        Err(_) => Err(ExplainStatus::NoMemory),
    }
}

// Writes a text as the report: how the command ends then.
fn write_out<R: Sink>(report: &mut R, text: &[u8]) -> ExplainStatus
    ensures written { Writes result (R.taken report.old) (R.taken report.new) text.now }
    ensures report_failed { result ≡ ExplainStatus.ReportFailed → Rose (R.faults report.old) (R.faults report.new) }
    ensures count { R.faults report.old ≤ R.faults report.new }
{
    match write_all(report, text) {
        Ok(()) => ExplainStatus::Done,
        Err(_) => ExplainStatus::ReportFailed,
    }
}

/// Explains the input, of at most 67,108,864 bytes: a deck, a script or a journal, by its first bytes that are no spaces or line ends.
///
/// For a fault the report gains its line, its kind, what the kind means and what was expected, and the line itself; the fault is the one
/// that `read_deck` (for one initiator), `read_script` or `read_journal` reports. For a journal that is not legal it gains the line of the
/// first event that is not the machine's, what the machine answers there, the state of the event's object before it and the last three
/// events on that object; or the right call number; as `replay_calls` and `replay` name them. For any other input it gains a summary. Any
/// other ending than `Done` has its line on the notes, last of all.
///
/// Time is linear in the text, but for the events on a latch set. It waits as long as its streams do, and for nothing else.
///
/// # Errors
///
/// Each `ExplainStatus` but `Done`. What was written before it stays.
///
/// # Examples
///
/// From `crates/mv_explain/src/main.rt`:
///
/// ```
/// Some(Command::Explain) => explain(rt.alloc(), &mut input, &mut report, &mut notes),
/// ```
pub fn explain<D: Source, R: Sink, N: Sink>(
    alloc: Global,
    input: &mut D,
    report: &mut R,
    notes: &mut N,
) -> ExplainStatus
    // Why it ends as it does.
    ensures input { InputOf result (D.left input.old) (D.left input.new) }
    ensures read_failed { result ≡ ExplainStatus.ReadFailed → Rose (D.faults input.old) (D.faults input.new) }
    ensures report_failed { result ≡ ExplainStatus.ReportFailed → Rose (R.faults report.old) (R.faults report.new) }

    // What each stream holds then.
    ensures report { ReportAfter result (D.left input.old) (R.taken report.old) (R.taken report.new) }
    ensures unwritten { IfUnwritten (extent_of result) (report.new ≡ report.old) }
    ensures notes { NotesAfter (note_by_status result) (N.faults notes.old) (N.faults notes.new) (N.taken notes.old) (N.taken notes.new) }
    ensures quiet { result ≡ ExplainStatus.Done → notes.new ≡ notes.old }

    // How it has to end, where its streams do not fail.
    ensures owed { Owes (Rose (D.faults input.old) (D.faults input.new)) (Rose (R.faults report.old) (R.faults report.new))
        (D.left input.old) result }

    // Counts of faults do not fall.
    ensures counts { (D.faults input.old ≤ D.faults input.new) × (R.faults report.old ≤ R.faults report.new)
        × (N.faults notes.old ≤ N.faults notes.new) }
{
    let text = match read_and_explain(alloc, input) {
        Ok(text) => text,
        Err(status) => {
            tell(notes, note_of(status));
            return status;
        }
    };
    let status = write_out(report, &text);
    tell(notes, note_of(status));
    status
}
