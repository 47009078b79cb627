//! `explain --run`: the script of the input is run as far as its tasks go on, and what they wait for is written. Clauses cite
//! `specs/Run.antt` and `specs/Status.antt`.

ghost use Rattle.std.specs.Prelude.{◌≡◌, ◌<◌, ◌≤◌, ◌-◌, ◌^◌, [], Err, Some, length, IfOk, IfErr, IfSome};
ghost use Rattle.mv_explain.specs.Run.{AreTextsOf, IsRunExplained, RunInputOf, WritesBoth};
ghost use Rattle.mv_explain.specs.Outcome.{extent_of};
ghost use Rattle.mv_explain.specs.Status.{note_of as note_by_status};
ghost use Rattle.mv_ending.specs.Note.{NotesAfter};
ghost use Rattle.mv_ending.specs.Written.{IfUnwritten, Nothing, WroteOf};
ghost use Rattle.mv_io.specs.Fault.{Rose};
ghost use Rattle.mv_script.specs.Script.{script_data};
ghost use Rattle.mv_script.specs.Sound.{IsSound};

use crate::status::{ExplainStatus, note_of};
use mv_diagnostics::push_script;
use mv_ending::tell;
use mv_entrytext::write_journal;
use mv_io::{NoMemory, Sink, Source, read_limited, write_all};
use mv_pollscript::{run_so_far, write_waits};
use mv_runscript::write_answer_lists;
use mv_script::{Script, read_script};
use std::alloc::Global;
use std::sync::Wait;
use std::time::Clock;

/// The most bytes of a script.
const SCRIPT_LIMIT: usize = 1_048_576;

// The texts of a run.
#[derive(Drop)]
struct Texts {
    // The answers so far, and what the tasks wait for.
    report: Vec<u8>,
    // The journal so far.
    journal: Vec<u8>,
}

// Runs a script, and returns the texts of what its tasks have done.
fn texts_of_run<X: Wait + Clock>(
    rt: &X,
    alloc: Global,
    script: &Script,
    seed: u32,
) -> Result<Texts, NoMemory>
    requires { IsSound (script_data script.now) }
    ensures { IfOk result (λ texts. AreTextsOf (script_data script.now) texts.report.items texts.journal.items) }
{
    let run = run_so_far(rt, alloc, script, seed)?;
    let mut report = write_answer_lists(alloc, &run.answers)?;
    let waits = write_waits(alloc, script, &run)?;
    report.extend_from_slice(&waits)?;
    let journal = write_journal(alloc, &run.config, &run.journal)?;
    Ok(Texts { report, journal })
}

// Runs the script of these bytes, or says what is wrong with it.
fn texts_of<X: Wait + Clock>(
    rt: &X,
    alloc: Global,
    bytes: &[u8],
    seed: u32,
) -> Result<Texts, NoMemory>
    requires { length bytes.now < 2 ^ 32 - 1 }
    ensures { IfOk result (λ texts. IsRunExplained bytes.now texts.report.items texts.journal.items) }
{
    match read_script(alloc, bytes) {
        Ok(script) => texts_of_run(rt, alloc, &script, seed),
        Err(refusal) => {
            let _fault = refusal.fault()?;
            let mut report = Vec::new(alloc);
            push_script(&mut report, alloc, bytes)?;
            Ok(Texts {
                report,
                journal: Vec::new(alloc),
            })
        }
    }
}

// The texts of the input's script, or why there are none.
fn read_and_run<X: Wait + Clock, D: Source>(
    rt: &X,
    alloc: Global,
    input: &mut D,
    seed: u32,
) -> Result<Texts, ExplainStatus>
    ensures explained { IfOk result (λ texts. IfSome (D.left input.old)
        (λ bytes. IsRunExplained bytes texts.report.items texts.journal.items)) }
    ensures whole { IfOk result (λ _. RunInputOf ExplainStatus.Done (D.left input.old) (D.left input.new)) }
    ensures input { IfErr result (λ status. RunInputOf status (D.left input.old) (D.left input.new)) }
    ensures unwritten { IfErr result (λ status. extent_of status ≡ Nothing) }
    ensures read_failed { result ≡ Err ExplainStatus.ReadFailed → Rose (D.faults input.old) (D.faults input.new) }
    ensures count { D.faults input.old ≤ D.faults input.new }
{
    let bytes = read_limited(alloc, input, SCRIPT_LIMIT)?;
    match texts_of(rt, alloc, &bytes, seed) {
        Ok(texts) => Ok(texts),
        // out of memory: the input was read, and there is no room for its run.
        Err(_) => Err(ExplainStatus::NoMemory),
    }
}

// Writes the report, and then the journal.
fn write_both<R: Sink, K: Sink>(report: &mut R, journal: &mut K, texts: &Texts) -> ExplainStatus
    ensures written { WritesBoth result (R.taken report.old) (R.taken report.new) (K.taken journal.old) (K.taken journal.new)
        texts.now.report.items texts.now.journal.items }
    ensures report_failed { result ≡ ExplainStatus.ReportFailed → Rose (R.faults report.old) (R.faults report.new) }
    ensures journal_failed { result ≡ ExplainStatus.JournalFailed → Rose (K.faults journal.old) (K.faults journal.new) }
    ensures counts { (R.faults report.old ≤ R.faults report.new) × (K.faults journal.old ≤ K.faults journal.new) }
{
    if write_all(report, &texts.report).is_err() {
        return ExplainStatus::ReportFailed;
    }
    if write_all(journal, &texts.journal).is_err() {
        return ExplainStatus::JournalFailed;
    }
    ExplainStatus::Done
}

/// Runs the script of the input, of at most 1,048,576 bytes, on this thread until no task can go on, as `run_so_far` of mv_pollscript does
/// with this seed.
///
/// The report gains the answers of the calls so far, and a line for each task that has calls left, of what it waits for; the journal gains
/// the journal so far. If the script has a fault, the report gains what `explain` says of it, and the journal nothing. Any other ending
/// than `Done` has its line on the notes, last of all. It waits as long as its streams do, and for nothing else.
///
/// # Errors
///
/// Each `ExplainStatus` but `Done`. What was written before it stays.
///
/// # Examples
///
/// From `crates/mv_explain/src/main.rt`:
///
/// ```
/// Some(Command::Run(seed)) => explain_run(
///     &rt,
///     rt.alloc(),
///     seed,
///     &mut input,
///     &mut report,
///     &mut journal,
///     &mut notes,
/// ),
/// ```
pub fn explain_run<X: Wait + Clock, D: Source, R: Sink, K: Sink, N: Sink>(
    rt: &X,
    alloc: Global,
    seed: u32,
    input: &mut D,
    report: &mut R,
    journal: &mut K,
    notes: &mut N,
) -> ExplainStatus
    // Why it ends as it does.
    ensures input { RunInputOf result (D.left input.old) (D.left input.new) }
    ensures read_failed { result ≡ ExplainStatus.ReadFailed → Rose (D.faults input.old) (D.faults input.new) }
    ensures report_failed { result ≡ ExplainStatus.ReportFailed → Rose (R.faults report.old) (R.faults report.new) }
    ensures journal_failed { result ≡ ExplainStatus.JournalFailed → Rose (K.faults journal.old) (K.faults journal.new) }

    // What each stream holds then.
    ensures written { WroteOf IsRunExplained (extent_of result) (D.left input.old) (R.taken report.old) (R.taken report.new)
        (K.taken journal.old) (K.taken journal.new) }
    ensures unwritten { IfUnwritten (extent_of result) ((report.new ≡ report.old) × (journal.new ≡ journal.old)) }
    ensures notes { NotesAfter (note_by_status result) (N.faults notes.old) (N.faults notes.new) (N.taken notes.old) (N.taken notes.new) }
    ensures quiet { result ≡ ExplainStatus.Done → notes.new ≡ notes.old }

    // Counts of faults do not fall.
    ensures counts { (D.faults input.old ≤ D.faults input.new) × (R.faults report.old ≤ R.faults report.new)
        × (K.faults journal.old ≤ K.faults journal.new) × (N.faults notes.old ≤ N.faults notes.new) }
{
    let texts = match read_and_run(rt, alloc, input, seed) {
        Ok(texts) => texts,
        Err(status) => {
            tell(notes, note_of(status));
            return status;
        }
    };
    let status = write_both(report, journal, &texts);
    tell(notes, note_of(status));
    status
}
