//! What is said of a journal: `specs/Journal.antt`.

ghost use Rattle.std.specs.Prelude.{◌≡◌, ℕ, ◌<◌, ◌≤◌, ◌-◌, ◌^◌, ◌++◌, List, All, length, count_by, slice_get, take, OnOk, IfOk};
ghost use Rattle.mv_calls.specs.Prelude.{setup_of, Legal, highest_place, IsFirstIllegal, opening};
ghost use Rattle.mv_entrytext.specs.Fault.{HasJournal, IsTextIn, TellsFirst, text_fault};
ghost use Rattle.mv_entrytext.specs.Journal.{first_line};
ghost use Rattle.mv_explain.specs.Journal.{IsJournalExplained, answer_text, counts_text, fault_of_journal_text, legal_text, machine_text};
ghost use Rattle.mv_explain.specs.Journal.{before_text, illegal_at, illegal_text, misnumbered_text, numbers_text, shared_text, verdict_text, waits_text};
ghost use Rattle.mv_explain.specs.Journal.{belongs_text, is_on_block, is_on_element, is_on_volume, is_on_latches};
ghost use Rattle.mv_explain.specs.Judged.{IsVerdict};

use crate::before::{push_earlier, push_state};
use crate::by_task::push_by_task;
use crate::judging::{Verdict, judge_journal};
use crate::sentences::{
    BELONGS_TO, DRAW_JOURNAL, HAS_NUMBER, ILLEGAL, JOURNAL_LINE, LEGAL_EVENTS, MACHINE,
    NOT_ADMITTED, OF_ITS_TASK, ON_BLOCKS, ON_ELEMENTS, ON_LATCHES, ON_VOLUMES,
};
use mv_diagnostics::{journal_sentence, push_fault, push_place};
use mv_entrytext::{Journal, TextFault, TextRefusal, push_entry_line, read_journal};
use mv_io::NoMemory;
use mv_line::push_number;
use mv_machine::{Config, Entry, Illegal, Object, Reply, ValidConfig};
use std::alloc::Global;

// Says what is wrong with the text of a journal.
fn push_journal_fault(out: &mut Vec<u8>, bytes: &[u8], fault: TextFault) -> Result<(), NoMemory>
    requires { length bytes.now < 2 ^ 32 - 1 }
    ensures { OnOk result (out.new.items ≡ out.old.items ++ fault_of_journal_text bytes.now fault) }
{
    push_fault(out, b"journal", bytes, fault, journal_sentence(fault.kind))
}

fn is_on_block(entry: &Entry) -> bool
    ensures { result ≡ is_on_block entry.now }
{
    matches!(entry.object, Object::Ecb(_))
}

fn is_on_element(entry: &Entry) -> bool
    ensures { result ≡ is_on_element entry.now }
{
    matches!(entry.object, Object::Element(_))
}

fn is_on_volume(entry: &Entry) -> bool
    ensures { result ≡ is_on_volume entry.now }
{
    matches!(entry.object, Object::Volume(_))
}

fn is_on_latches(entry: &Entry) -> bool
    ensures { result ≡ is_on_latches entry.now }
{
    matches!(entry.object, Object::Latches)
}

fn count_on_blocks(entries: &[Entry]) -> usize
    ensures { result ≡ count_by is_on_block entries.now }
{
    entries.iter().filter(|entry| is_on_block(entry)).count()
}

fn count_on_elements(entries: &[Entry]) -> usize
    ensures { result ≡ count_by is_on_element entries.now }
{
    entries.iter().filter(|entry| is_on_element(entry)).count()
}

fn count_on_volumes(entries: &[Entry]) -> usize
    ensures { result ≡ count_by is_on_volume entries.now }
{
    entries.iter().filter(|entry| is_on_volume(entry)).count()
}

fn count_on_latches(entries: &[Entry]) -> usize
    ensures { result ≡ count_by is_on_latches entries.now }
{
    entries.iter().filter(|entry| is_on_latches(entry)).count()
}

// Says how many events there are on blocks and elements.
#[tactic(auto, unfolding(crate::specs::Journal::waits_text))]
fn push_waits(out: &mut Vec<u8>, entries: &[Entry]) -> Result<(), NoMemory>
    ensures { OnOk result (out.new.items ≡ out.old.items ++ waits_text entries.now) }
{
    push_number(out, ON_BLOCKS, count_on_blocks(entries) as u64)?;
    push_number(out, ON_ELEMENTS, count_on_elements(entries) as u64)
}

// Says how many events there are on volumes and on the latch set.
#[tactic(auto, unfolding(crate::specs::Journal::shared_text))]
fn push_shared(out: &mut Vec<u8>, entries: &[Entry]) -> Result<(), NoMemory>
    ensures { OnOk result (out.new.items ≡ out.old.items ++ shared_text entries.now) }
{
    push_number(out, ON_VOLUMES, count_on_volumes(entries) as u64)?;
    push_number(out, ON_LATCHES, count_on_latches(entries) as u64)
}

// Says how many events there are on each sort of objects.
#[tactic(auto, unfolding(crate::specs::Journal::counts_text))]
fn push_counts(out: &mut Vec<u8>, entries: &[Entry]) -> Result<(), NoMemory>
    ensures { OnOk result (out.new.items ≡ out.old.items ++ counts_text entries.now) }
{
    push_waits(out, entries)?;
    push_shared(out, entries)?;
    out.push(b'\n')?;
    Ok(())
}

// Says that a journal is legal, and what is in it.
#[tactic(auto, unfolding(crate::specs::Journal::legal_text))]
fn push_legal(out: &mut Vec<u8>, config: &Config, entries: &[Entry]) -> Result<(), NoMemory>
    ensures { OnOk result (out.new.items ≡ out.old.items ++ legal_text (setup_of config.now) entries.now) }
{
    push_number(out, LEGAL_EVENTS, entries.len() as u64)?;
    out.push(b'\n')?;
    push_by_task(out, entries, 0, config.callers)?;
    push_counts(out, entries)?;
    out.extend_from_slice(DRAW_JOURNAL)?;
    Ok(())
}

// Shows an event as the machine makes it.
#[tactic(auto, unfolding(crate::specs::Journal::answer_text))]
fn push_answer(out: &mut Vec<u8>, entry: &Entry, answer: (u32, Reply)) -> Result<(), NoMemory>
    ensures { OnOk result (out.new.items ≡ out.old.items ++ answer_text entry.now answer) }
{
    let answered = Entry {
        caller: entry.caller,
        object: entry.object,
        place: answer.0,
        op: entry.op,
        reply: answer.1,
    };
    out.extend_from_slice(MACHINE)?;
    push_entry_line(out, None, &answered)
}

// Says what the machine answers in place of an event.
#[tactic(auto, unfolding(crate::specs::Journal::machine_text))]
fn push_machine(
    out: &mut Vec<u8>,
    entry: &Entry,
    machine: Option<(u32, Reply)>,
) -> Result<(), NoMemory>
    ensures { OnOk result (out.new.items ≡ out.old.items ++ machine_text entry.now machine) }
{
    match machine {
        None => {
            out.extend_from_slice(NOT_ADMITTED)?;
            Ok(())
        }
        Some(answer) => push_answer(out, entry, answer),
    }
}

// Says which event is the first that the machine does not make so.
#[tactic(auto, unfolding(crate::specs::Journal::illegal_text))]
fn push_illegal(
    out: &mut Vec<u8>,
    bytes: &[u8],
    line: u64,
    entry: &Entry,
    machine: Option<(u32, Reply)>,
) -> Result<(), NoMemory>
    requires { length bytes.now < 2 ^ 32 - 1 }
    ensures { OnOk result (out.new.items ≡ out.old.items ++ illegal_text bytes.now line entry.now machine) }
{
    push_number(out, JOURNAL_LINE, line)?;
    out.extend_from_slice(ILLEGAL)?;
    push_place(out, bytes, line)?;
    push_machine(out, entry, machine)
}

// Says to which call of its task an event belongs.
#[tactic(auto, unfolding(crate::specs::Journal::belongs_text))]
fn push_belongs(out: &mut Vec<u8>, machine: u32) -> Result<(), NoMemory>
    ensures { OnOk result (out.new.items ≡ out.old.items ++ belongs_text machine) }
{
    push_number(out, BELONGS_TO, u64::from(machine))?;
    out.extend_from_slice(OF_ITS_TASK)?;
    Ok(())
}

// Says which call number an event has, and which is right.
#[tactic(auto, unfolding(crate::specs::Journal::numbers_text))]
fn push_numbers(out: &mut Vec<u8>, kept: u32, machine: u32) -> Result<(), NoMemory>
    ensures { OnOk result (out.new.items ≡ out.old.items ++ numbers_text kept machine) }
{
    push_number(out, HAS_NUMBER, u64::from(kept))?;
    push_belongs(out, machine)
}

// Says which event is the first that has another call number.
#[tactic(auto, unfolding(crate::specs::Journal::misnumbered_text))]
fn push_misnumbered(
    out: &mut Vec<u8>,
    bytes: &[u8],
    line: u64,
    kept: u32,
    machine: u32,
) -> Result<(), NoMemory>
    requires { length bytes.now < 2 ^ 32 - 1 }
    ensures { OnOk result (out.new.items ≡ out.old.items ++ misnumbered_text bytes.now line kept machine) }
{
    push_number(out, JOURNAL_LINE, line)?;
    push_numbers(out, kept, machine)?;
    push_place(out, bytes, line)
}

// Says what there was before an event: the state of its object, and the last events on it.
#[tactic(auto, unfolding(crate::specs::Journal::before_text))]
fn push_before(
    out: &mut Vec<u8>,
    alloc: Global,
    config: &ValidConfig,
    first: u32,
    entries: &[Entry],
    index: usize,
    entry: &Entry,
) -> Result<(), NoMemory>
    requires index { index ≤ length entries.now }
    requires few { length entries.now < 2 ^ 32 }
    requires places { All (λ e. e.place ≤ highest_place) entries.now }
    requires legal { Legal config.now (take index entries.now) }
    ensures { OnOk result (out.new.items ≡ out.old.items ++ before_text config.now first entries.now index entry.now) }
{
    push_state(out, alloc, config, &entries[..index], entry)?;
    push_earlier(out, first, entries, entry.object, index, 0)
}

// Says which event is the first that the machine does not make so, and what there was before it.
fn push_illegal_at(
    out: &mut Vec<u8>,
    alloc: Global,
    bytes: &[u8],
    config: &ValidConfig,
    first: u32,
    entries: &[Entry],
    illegal: Illegal,
) -> Result<(), NoMemory>
    requires short { length bytes.now < 2 ^ 32 - 1 }
    requires few { length entries.now < 2 ^ 32 }
    requires places { All (λ e. e.place ≤ highest_place) entries.now }
    requires illegal { IsFirstIllegal config.now (opening config.now) entries.now illegal }
    ensures { OnOk result (out.new.items
        ≡ out.old.items ++ illegal_at bytes.now config.now first entries.now illegal (slice_get entries.now illegal.index)) }
{
    match entries.get(illegal.index) {
        Some(entry) => {
            let line = u64::from(first) + illegal.index as u64;
            push_illegal(out, bytes, line, entry, illegal.machine)?;
            push_before(out, alloc, config, first, entries, illegal.index, entry)
        }
        None => Ok(()),
    }
}

// Says what the events of a journal were found to be, of which the first is on this line.
fn push_verdict(
    out: &mut Vec<u8>,
    alloc: Global,
    bytes: &[u8],
    config: &ValidConfig,
    first: u32,
    entries: &[Entry],
    verdict: Verdict,
) -> Result<(), NoMemory>
    requires short { length bytes.now < 2 ^ 32 - 1 }
    requires few { length entries.now < 2 ^ 32 }
    requires places { All (λ e. e.place ≤ highest_place) entries.now }
    requires judged { (version : ℕ) × (ns : List ℕ) × IsVerdict version config.now entries.now ns verdict }
    ensures { OnOk result (out.new.items ≡ out.old.items ++ verdict_text bytes.now config.now first entries.now verdict) }
{
    match verdict {
        Verdict::Legal => push_legal(out, config.config(), entries),
        Verdict::Illegal(illegal) => {
            push_illegal_at(out, alloc, bytes, config, first, entries, illegal)
        }
        Verdict::Misnumbered {
            index,
            kept,
            machine,
        } => {
            if index >= entries.len() {
                return Ok(());
            }
            push_misnumbered(out, bytes, u64::from(first) + index as u64, kept, machine)
        }
    }
}

// What is said of a journal with this verdict.
fn text_of_verdict(
    alloc: Global,
    bytes: &[u8],
    journal: &Journal,
    verdict: Verdict,
) -> Result<Vec<u8>, NoMemory>
    requires short { length bytes.now < 2 ^ 32 - 1 }
    requires few { length journal.now.entries.items < 2 ^ 32 }
    requires journal { HasJournal journal.now.config journal.now.entries.items }
    requires judged { IsVerdict journal.now.version journal.now.config journal.now.entries.items journal.now.calls.items verdict }
    ensures { IfOk result (λ text. text.items
        ≡ verdict_text bytes.now journal.now.config journal.now.first_line journal.now.entries.items verdict) }
{
    let mut out = Vec::new(alloc);
    push_verdict(
        &mut out,
        alloc,
        bytes,
        &journal.config,
        journal.first_line,
        &journal.entries,
        verdict,
    )?;
    Ok(out)
}

// What is said of a journal that was read from these bytes.
fn judged_text(alloc: Global, bytes: &[u8], journal: &Journal) -> Result<Vec<u8>, NoMemory>
    requires short { length bytes.now < 2 ^ 32 - 1 }
    requires journal { HasJournal journal.now.config journal.now.entries.items }
    requires read { IsTextIn journal.now.version bytes.now journal.now.config journal.now.entries.items journal.now.calls.items }
    requires first { journal.now.first_line ≡ first_line journal.now.config }
    ensures { IfOk result (λ text. IsJournalExplained bytes.now text.items) }
{
    let verdict = judge_journal(alloc, journal)?;
    let text = text_of_verdict(alloc, bytes, journal, verdict)?;
    Ok(text)
}

// What is said of a text with this fault.
fn text_of_fault(alloc: Global, bytes: &[u8], fault: TextFault) -> Result<Vec<u8>, NoMemory>
    requires { length bytes.now < 2 ^ 32 - 1 }
    ensures { IfOk result (λ text. text.items ≡ fault_of_journal_text bytes.now fault) }
{
    let mut out = Vec::new(alloc);
    push_journal_fault(&mut out, bytes, fault)?;
    Ok(out)
}

// What is said of a text that was refused.
fn refused_text(alloc: Global, bytes: &[u8], refusal: TextRefusal) -> Result<Vec<u8>, NoMemory>
    requires short { length bytes.now < 2 ^ 32 - 1 }
    requires first { TellsFirst refusal (text_fault bytes.now) }
    ensures { IfOk result (λ text. IsJournalExplained bytes.now text.items) }
{
    let fault = refusal.fault()?;
    let text = text_of_fault(alloc, bytes, fault)?;
    Ok(text)
}

/// What is said of a journal.
pub(crate) fn journal_text(alloc: Global, bytes: &[u8]) -> Result<Vec<u8>, NoMemory>
    requires { length bytes.now < 2 ^ 32 - 1 }
    ensures { IfOk result (λ text. IsJournalExplained bytes.now text.items) }
{
    match read_journal(alloc, bytes) {
        Ok(journal) => judged_text(alloc, bytes, &journal),
        Err(refusal) => refused_text(alloc, bytes, refusal),
    }
}
