//! The two texts of a run: the report, made in memory, and the journal, ready to be written. Clauses cite specs/Texts and
//! `Outcome.antt` of mv_report.

ghost use Rattle.std.specs.Prelude.{◌≡◌, ◌≤◌, length, None, IfOk, IfErr};
ghost use Rattle.mv_deck.specs.Prelude.{deck_data, deck_of, first_fault, load_jobs, load_text, IsSound, most_initiators};
ghost use Rattle.mv_report.specs.Outcome.{report};
ghost use Rattle.mv_report.specs.Summary.{load_summary};
ghost use Rattle.mv_work.specs.Recording.{IsRunOf};
ghost use Rattle.mv_program.specs.Command.{AreInitiators, AreJobs};
ghost use Rattle.mv_script.specs.Fault as scripts;
ghost use Rattle.mv_script.specs.Prelude.{script_data, script_of, IsSound as IsSoundScript};
ghost use Rattle.mv_program.specs.Program.{IsRefusedDeck, IsRefusedScript};
ghost use Rattle.mv_program.specs.Texts.{report_of, IsJournalOfRun, IsRunOfScript, deck_limit};

use crate::program::Host;
use crate::status::Status;
use mv_deck::{Deck, load_deck, read_deck};
use mv_entrytext::HistoryText;
use mv_io::NoMemory;
use mv_polledspool::{RoundOrder, run_polled};
use mv_report::{write_report, write_summary};
use mv_runscript::{run_script, write_answers};
use mv_script::{Script, read_script};
use mv_spool::{SpoolRun, run_deck};
use mv_task::Gate;
use std::alloc::Global;
use std::sync::Wait;
use std::thread::Threads;
use std::time::Clock;

/// The texts that a run writes.
#[derive(Drop)]
pub(crate) struct Texts {
    pub report: Vec<u8>,
    pub journal: HistoryText,
}

/// The threads on which the tasks of a deck run.
#[derive(Clone, Copy)]
pub(crate) enum Way {
    /// Each task on its own thread.
    Threads,
    /// All tasks on the calling thread, polled in the round order of this seed.
    Polled(u32),
}

// Runs the deck. Only tasks on threads pass the gate.
fn run_of<X: Threads + Wait + Clock + Sync, G: Gate + Sync>(
    host: &Host<'_, X, G>,
    deck: &Deck,
    initiators: u32,
    way: Way,
) -> Result<SpoolRun, NoMemory>
    requires some { 1 ≤ initiators }
    requires few { initiators ≤ most_initiators }
    requires sound { IsSound (deck_data deck.now) initiators }
    ensures { IfOk result (IsRunOf (deck_data deck.now) initiators) }
{
    match way {
        Way::Threads => run_deck(host.rt, host.alloc, deck, initiators, host.gate),
        Way::Polled(seed) => {
            let mut order = RoundOrder::new(seed);
            run_polled(host.rt, host.alloc, deck, initiators, &mut order)
        }
    }
}

// Runs this deck, and returns the texts of the run.
fn texts_of_deck<X: Threads + Wait + Clock + Sync, G: Gate + Sync>(
    host: &Host<'_, X, G>,
    deck: &Deck,
    initiators: u32,
    way: Way,
) -> Result<Texts, NoMemory>
    requires some { 1 ≤ initiators }
    requires few { initiators ≤ most_initiators }
    requires sound { IsSound (deck_data deck.now) initiators }
    ensures report { IfOk result (λ texts. texts.report.items ≡ report (deck_data deck.now)) }
    ensures journal { IfOk result (λ texts. IsJournalOfRun (deck_data deck.now) initiators texts.journal) }
{
    let run = run_of(host, deck, initiators, way)?;
    let report = write_report(host.alloc, deck, &run.ends, &run.lines, &run.volumes)?;
    let journal = HistoryText::open(host.alloc, run.history)?;
    Ok(Texts { report, journal })
}

/// Runs the deck of the input with this many initiators, and returns the texts of the run.
pub(crate) fn texts_of<X: Threads + Wait + Clock + Sync, G: Gate + Sync>(
    host: &Host<'_, X, G>,
    input: &[u8],
    initiators: u32,
    way: Way,
) -> Result<Texts, Status>
    requires short { length input.now ≤ deck_limit }
    requires initiators { (1 ≤ initiators) × (initiators ≤ most_initiators) }
    ensures sound { IfOk result (λ _. first_fault input.now initiators ≡ None) }
    ensures report { IfOk result (λ texts. texts.report.items ≡ report_of input.now) }
    ensures run { IfOk result (λ texts. IsJournalOfRun (deck_of input.now) initiators texts.journal) }
    ensures refused { IfErr result (λ status. IsRefusedDeck initiators input.now status) }
{
    let deck = match read_deck(host.alloc, input, initiators) {
        Ok(deck) => deck,
        Err(refusal) => return Err(Status::Deck(refusal.fault()?)),
    };
    let texts = texts_of_deck(host, &deck, initiators, way)?;
    Ok(texts)
}

// Returns the deck of a load.
fn deck_of_load(alloc: Global, jobs: u32, initiators: u32) -> Result<Deck, NoMemory>
    requires jobs { AreJobs jobs }
    requires initiators { AreInitiators initiators }
    ensures deck { IfOk result (λ deck. deck_data deck ≡ deck_of (load_text jobs)) }
{
    let text = load_deck(alloc, jobs)?;
    match read_deck(alloc, &text, initiators) {
        Ok(deck) => Ok(deck),
        Err(refusal) => match refusal.fault() {
            // A load has no fault.
            Ok(_) => unreachable!(),
            Err(no_memory) => Err(no_memory),
        },
    }
}

/// Runs a load of this many jobs with this many initiators, and returns its summary and the journal of the run.
pub(crate) fn texts_of_load<X: Threads + Wait + Clock + Sync, G: Gate + Sync>(
    host: &Host<'_, X, G>,
    jobs: u32,
    initiators: u32,
) -> Result<Texts, NoMemory>
    requires jobs { AreJobs jobs }
    requires initiators { AreInitiators initiators }
    ensures report { IfOk result (λ texts. texts.report.items ≡ load_summary jobs initiators) }
    ensures run { IfOk result (λ texts. IsJournalOfRun (load_jobs jobs) initiators texts.journal) }
{
    let deck = deck_of_load(host.alloc, jobs, initiators)?;
    let run = run_of(host, &deck, initiators, Way::Threads)?;
    let report = write_summary(host.alloc, jobs, initiators, &run.ends, &run.volumes)?;
    let journal = HistoryText::open(host.alloc, run.history)?;
    Ok(Texts { report, journal })
}

// Runs this script, and returns its answers and the journal of the run.
fn texts_of_run<X: Threads + Wait + Clock + Sync>(
    rt: &X,
    alloc: Global,
    script: &Script,
) -> Result<Texts, NoMemory>
    requires { IsSoundScript (script_data script.now) }
    ensures { IfOk result (λ texts. IsRunOfScript (script_data script.now) texts.report.items texts.journal) }
{
    let run = run_script(rt, alloc, script)?;
    let report = write_answers(alloc, &run)?;
    let journal = HistoryText::open(alloc, run.history)?;
    Ok(Texts { report, journal })
}

/// Runs the script of the input, and returns its answers and the journal of the run.
pub(crate) fn texts_of_script<X: Threads + Wait + Clock + Sync>(
    rt: &X,
    alloc: Global,
    input: &[u8],
) -> Result<Texts, Status>
    requires short { length input.now ≤ deck_limit }
    ensures sound { IfOk result (λ _. scripts.first_fault input.now ≡ None) }
    ensures run { IfOk result (λ texts. IsRunOfScript (script_of input.now) texts.report.items texts.journal) }
    ensures refused { IfErr result (λ status. IsRefusedScript input.now status) }
{
    let script = match read_script(alloc, input) {
        Ok(script) => script,
        Err(refusal) => return Err(Status::Script(refusal.fault()?)),
    };
    let texts = texts_of_run(rt, alloc, &script)?;
    Ok(texts)
}
