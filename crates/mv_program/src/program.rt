//! The top call, which does all that the program does. Clauses cite specs/Program and specs/Status.

ghost use Rattle.std.specs.Prelude.{◌≡◌, ◌≢◌, ◌≤◌, ◌↔◌, map, true, false, Some, None, IfSome, IsSomeAnd};
ghost use Rattle.std.specs.String.{string_bytes};
ghost use Rattle.mv_io.specs.Fault.{Rose};
ghost use Rattle.mv_ending.specs.Ending.{EndsAs};
ghost use Rattle.mv_ending.specs.Note.{NotesAfter};
ghost use Rattle.mv_ending.specs.Written.{IfUnwritten};
ghost use Rattle.mv_program.specs.Command.{command_of as command_by_words};
ghost use Rattle.mv_program.specs.Program.{Asks, InputOf, Told, extent_of, has_journal, input_told, reads_input};
ghost use Rattle.mv_program.specs.Status.{note_of as note_by_status, replay_of};
ghost use Rattle.mv_replay.specs.Outcome.{ReportAfter, reports_of};
ghost use Rattle.mv_replay.specs.Status.{note_of as replay_note};

use crate::command::{Command, command_of};
use crate::running::run;
use crate::status::{Status, note_of};
use mv_ending::tell;
use mv_io::{Sink, Source};
use mv_replay::{JournalCommand, judge_journal};
use mv_task::Gate;
use std::alloc::Global;
use std::sync::Wait;
use std::thread::Threads;
use std::time::Clock;

/// The runtime, the memory and the gate that a run of the program uses.
#[derive(Drop)]
pub struct Host<'a, X, G> {
    /// The runtime, which starts the threads.
    pub rt: &'a X,
    /// The allocator of all memory.
    pub alloc: Global,
    /// The gate that the tasks of a deck pass if each has its own thread.
    pub gate: &'a G,
}

// Judges the journal of the input, and writes the ending on the notes.
fn judge<D: Source, R: Sink, N: Sink>(
    alloc: Global,
    command: JournalCommand,
    input: &mut D,
    report: &mut R,
    notes: &mut N,
) -> Status
    ensures words { result ≢ Status.Words }
    ensures journal { result ≢ Status.JournalFailed }
    ensures input { InputOf (Some (Command.Journal command)) result (D.left input.old) (D.left input.new) }
    ensures report { IsSomeAnd (replay_of result) (λ s.
        ReportAfter (reports_of command) s (D.left input.old) (R.taken report.old) (R.taken report.new)) }
    ensures notes { IsSomeAnd (replay_of result) (λ s.
        NotesAfter (replay_note s) (N.faults notes.old) (N.faults notes.new) (N.taken notes.old) (N.taken notes.new)) }
    ensures quiet { result ≡ Status.Done → notes.new ≡ notes.old }
    ensures read_failed { result ≡ Status.ReadFailed → Rose (D.faults input.old) (D.faults input.new) }
    ensures report_failed { result ≡ Status.ReportFailed → Rose (R.faults report.old) (R.faults report.new) }
    ensures unwritten { IfUnwritten (extent_of result) (report.new ≡ report.old) }
    ensures counts { (D.faults input.old ≤ D.faults input.new) × (R.faults report.old ≤ R.faults report.new)
        × (N.faults notes.old ≤ N.faults notes.new) }
{
    Status::from(judge_journal(alloc, command, input, report, notes))
}

/// Runs a command: reads the input, writes the report, and then writes the journal if the command has one. It takes all memory
/// before it writes. If the run does not end well, its last act is to write on the notes how it ended.
///
/// The commands are `spool I` for I from 1 to 8, `load N I` for N from 1 to 2000, `polled I S` for S from 0 to 9999, `script`,
/// `replay` and `convert`. The words are those after the program's name; if they do not state a command, nothing is read and no
/// memory is taken. Of the input, at most one byte more than the command's limit is read; `load` reads nothing.
///
/// `spool` runs the deck of the input, and `load` a deck of N jobs, by I initiators and a reader, a scheduler and a writer,
/// each on its own thread. All these threads have ended before anything is written, and the tasks pass the gate at each point
/// of each job. `polled` runs the deck of the input as `spool` does, with all tasks on this thread, polled in the round order
/// of the seed S; it passes no gate. `script` runs the script of the input, each of its tasks on its own thread, and reports
/// the answers of their calls. The other commands start no thread.
///
/// # Errors
///
/// Returns a `Status` other than `Done`: the first cause that applies. What was written before the failure remains.
///
/// # Examples
///
/// From `crates/mv_program/src/main.rt`:
///
/// ```
/// let status = run_program(
///     &host,
///     &words,
///     &mut input,
///     &mut report,
///     &mut journal,
///     &mut notes,
/// );
/// ExitCode::from(status.exit())
/// ```
pub fn run_program<
    X: Threads + Wait + Clock + Sync,
    D: Source,
    R: Sink,
    K: Sink,
    N: Sink,
    G: Gate + Sync,
>(
    host: &Host<'_, X, G>,
    words: &[String],
    input: &mut D,
    report: &mut R,
    journal: &mut K,
    notes: &mut N,
) -> Status
    // Why a run ends as it does.
    ensures words { result ≡ Status.Words ↔ (command_by_words (map string_bytes words.now) ≡ None) }
    ensures input { InputOf (command_by_words (map string_bytes words.now)) result (D.left input.old) (D.left input.new) }
    ensures read_failed { result ≡ Status.ReadFailed → Rose (D.faults input.old) (D.faults input.new) }
    ensures report_failed { result ≡ Status.ReportFailed → Rose (R.faults report.old) (R.faults report.new) }
    ensures journal_failed { result ≡ Status.JournalFailed → Rose (K.faults journal.old) (K.faults journal.new) }

    // The contents of each stream after each ending.
    ensures told { Told (command_by_words (map string_bytes words.now)) result (D.left input.old)
        (R.taken report.old) (R.taken report.new) (K.taken journal.old) (K.taken journal.new) }
    ensures notes { NotesAfter (note_by_status result) (N.faults notes.old) (N.faults notes.new) (N.taken notes.old) (N.taken notes.new) }

    // Streams that are not used are as they were, whether or not they show their bytes.
    ensures unread { result ≡ Status.Words → input.new ≡ input.old }
    ensures no_input { IfSome (command_by_words (map string_bytes words.now)) (λ command.
        reads_input command ≡ false → input.new ≡ input.old) }
    ensures unwritten { IfUnwritten (extent_of result) ((report.new ≡ report.old) × (journal.new ≡ journal.old)) }
    ensures unbegun { result ≡ Status.ReportFailed → journal.new ≡ journal.old }
    ensures no_journal { IfSome (command_by_words (map string_bytes words.now)) (λ command.
        has_journal command ≡ false → journal.new ≡ journal.old) }
    ensures quiet { result ≡ Status.Done → notes.new ≡ notes.old }

    // How a run has to end: as its input calls for, or out of memory, unless a count of faults rose that excuses it.
    ensures owed { IfSome (command_by_words (map string_bytes words.now)) (λ command.
        (reads_input command ≡ true → ¬ Rose (D.faults input.old) (D.faults input.new))
        → IfSome (input_told command (D.left input.old)) (λ bytes. (wanted : Status) → Asks command bytes wanted
        → (wanted ≡ Status.Done
        → (¬ Rose (R.faults report.old) (R.faults report.new))
        × (has_journal command ≡ true → ¬ Rose (K.faults journal.old) (K.faults journal.new)))
        → EndsAs Status.NoMemory result wanted)) }

    // Counts of faults do not fall.
    ensures counts { (D.faults input.old ≤ D.faults input.new) × (R.faults report.old ≤ R.faults report.new)
        × (K.faults journal.old ≤ K.faults journal.new) × (N.faults notes.old ≤ N.faults notes.new) }
{
    let status = match command_of(words) {
        None => Status::Words,
        Some(Command::Journal(command)) => {
            return judge(host.alloc, command, input, report, notes);
        }
        Some(command) => run(host, command, input, report, journal),
    };
    tell(notes, note_of(status));
    status
}
