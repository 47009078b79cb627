//! A command that runs something: it reads its text, runs it, and writes both texts of the run. Clauses cite specs/Command,
//! specs/Program and specs/Texts.

ghost use Rattle.std.specs.Prelude.{[], ◌≡◌, ◌≢◌, ◌≤◌, length, true, false, Some, IfOk, IfErr, IfSome};
ghost use Rattle.mv_io.specs.Fault.{Rose};
ghost use Rattle.mv_ending.specs.Written.{IfUnwritten};
ghost use Rattle.mv_program.specs.Command.{IsRunnable};
ghost use Rattle.mv_program.specs.Program.{Asks, InputOf, IsRefused, IsUnread, TellsTexts, Told, Writes};
ghost use Rattle.mv_program.specs.Program.{extent_of, has_journal, reads_input};
ghost use Rattle.mv_program.specs.Texts.{deck_limit};

use crate::command::Command;
use crate::program::Host;
use crate::status::Status;
use crate::texts::{Texts, Way, texts_of, texts_of_load, texts_of_script};
use mv_io::{Sink, Source, read_limited, write_all};
use mv_task::Gate;
use std::alloc::Global;
use std::sync::Wait;
use std::thread::Threads;
use std::time::Clock;

/// The most bytes of a deck, and of a script.
const DECK_LIMIT: usize = 1_048_576;

// Reads the whole text of a command, or returns an empty one if the command reads nothing.
fn read_text<D: Source>(alloc: Global, command: Command, input: &mut D) -> Result<Vec<u8>, Status>
    ensures short { IfOk result (λ text. length text.items ≤ deck_limit) }
    ensures whole { reads_input command ≡ true → IfOk result (λ text. IfSome (D.left input.old)
        (λ bytes. (text.items ≡ bytes) × (D.left input.new ≡ Some []))) }
    ensures none { reads_input command ≡ false → IfOk result (λ text. text.items ≡ []) }
    ensures unread { reads_input command ≡ false → input.new ≡ input.old }
    ensures reads { IfErr result (λ _. reads_input command ≡ true) }
    ensures refused { IfErr result (λ status. IsUnread status (D.left input.old) (D.left input.new)) }
    ensures read_failed { IfErr result (λ status. status ≡ Status.ReadFailed → Rose (D.faults input.old) (D.faults input.new)) }
    ensures count { D.faults input.old ≤ D.faults input.new }
{
    if !command.reads_input() {
        return Ok(Vec::new(alloc));
    }
    let text = read_limited(alloc, input, DECK_LIMIT)?;
    Ok(text)
}

// Runs the text that a command read, and returns the texts of the run, or why there are none.
fn texts_told<X: Threads + Wait + Clock + Sync, G: Gate + Sync>(
    host: &Host<'_, X, G>,
    command: Command,
    text: &[u8],
) -> Result<Texts, Status>
    requires runs { has_journal command ≡ true }
    requires runnable { IsRunnable command }
    requires short { length text.now ≤ deck_limit }
    ensures told { IfOk result (λ texts. TellsTexts command text.now texts.report.items texts.journal) }
    ensures asked { IfOk result (λ _. Asks command text.now Status.Done) }
    ensures refused { IfErr result (λ status. IsRefused command text.now status) }
{
    let texts = match command {
        Command::Spool(initiators) => texts_of(host, text, initiators, Way::Threads)?,
        Command::Polled(initiators, seed) => texts_of(host, text, initiators, Way::Polled(seed))?,
        Command::Load(jobs, initiators) => texts_of_load(host, jobs, initiators)?,
        Command::Script => texts_of_script(host.rt, host.alloc, text)?,
        // A command on a journal runs nothing.
        Command::Journal(_) => unreachable!(),
    };
    Ok(texts)
}

// Writes the report, and then the journal. It takes no memory.
fn write_texts<R: Sink, K: Sink>(report: &mut R, journal: &mut K, texts: Texts) -> Status
    ensures written { Writes result (R.taken report.old) (R.taken report.new) (K.taken journal.old) (K.taken journal.new)
        texts.report.items texts.journal }
    ensures report_failed { result ≡ Status.ReportFailed → Rose (R.faults report.old) (R.faults report.new) }
    ensures journal_failed { result ≡ Status.JournalFailed → Rose (K.faults journal.old) (K.faults journal.new) }
    ensures no_journal { result ≡ Status.ReportFailed → journal.new ≡ journal.old }
    ensures report_count { R.faults report.old ≤ R.faults report.new }
    ensures journal_count { K.faults journal.old ≤ K.faults journal.new }
{
    let Texts {
        report: made,
        journal: ready,
    } = texts;
    if write_all(report, &made).is_err() {
        return Status::ReportFailed;
    }
    if ready.write(journal).is_err() {
        return Status::JournalFailed;
    }
    Status::Done
}

/// Runs a command, and writes its report and its journal. It does not check the numbers of the command again.
pub(crate) fn run<X: Threads + Wait + Clock + Sync, D: Source, R: Sink, K: Sink, G: Gate + Sync>(
    host: &Host<'_, X, G>,
    command: Command,
    input: &mut D,
    report: &mut R,
    journal: &mut K,
) -> Status
    requires runs { has_journal command ≡ true }
    requires runnable { IsRunnable command }
    ensures words { result ≢ Status.Words }
    ensures input { InputOf (Some command) result (D.left input.old) (D.left input.new) }
    ensures told { Told (Some command) result (D.left input.old)
        (R.taken report.old) (R.taken report.new) (K.taken journal.old) (K.taken journal.new) }
    ensures read_failed { result ≡ Status.ReadFailed → Rose (D.faults input.old) (D.faults input.new) }
    ensures report_failed { result ≡ Status.ReportFailed → Rose (R.faults report.old) (R.faults report.new) }
    ensures journal_failed { result ≡ Status.JournalFailed → Rose (K.faults journal.old) (K.faults journal.new) }
    ensures no_input { reads_input command ≡ false → input.new ≡ input.old }
    ensures unwritten { IfUnwritten (extent_of result) ((report.new ≡ report.old) × (journal.new ≡ journal.old)) }
    ensures no_journal { result ≡ Status.ReportFailed → journal.new ≡ journal.old }
    ensures counts { (D.faults input.old ≤ D.faults input.new) × (R.faults report.old ≤ R.faults report.new)
        × (K.faults journal.old ≤ K.faults journal.new) }
{
    let text = match read_text(host.alloc, command, input) {
        Ok(text) => text,
        Err(status) => return status,
    };
    match texts_told(host, command, &text) {
        Ok(texts) => write_texts(report, journal, texts),
        Err(status) => status,
    }
}
