//! The lines of a run's jobs, made of what its initiators noted. Clauses cite `specs/Recording.antt`.
//!
//! ```text
//!   the records ── each job that ended ── each of its notes ──> the line of the step, in the job's place
//! ```

ghost use Rattle.std.specs.Prelude.{◌≡◌, ◌++◌, [], fold, length, map, replicate, set, Some, IfOk};
ghost use Rattle.mv_deck.specs.Deck.{deck_data, job_data};
ghost use Rattle.mv_plan.specs.Jobs.{job_at};
ghost use Rattle.mv_work.specs.Recording.{all_records, lines_of_note, lines_of_notes, lines_printed, lines_scanned};
ghost use Rattle.mv_work.specs.Recording.{lines_recorded, with_record};

use crate::records::{InitiatorRecord, Mark, Noted};
use mv_deck::{Deck, Job, Step, Text};
use mv_io::NoMemory;
use mv_report::{Lines, print_line, scan_line};
use std::alloc::Global;

// Adds the line of a PRINT, if the step is one.
fn push_printed(alloc: Global, texts: &mut Vec<Text>, step: &Step) -> Result<(), NoMemory>
    ensures { IfOk result (λ _. texts.new.items ≡ texts.old.items ++ lines_printed (Some step.now)) }
{
    if let Step::Print(text) = step {
        texts.push(print_line(alloc, text)?)?;
    }
    Ok(())
}

// Adds the line of a SCAN, if the step is one. The line says whether it read one number twice.
fn push_scanned(
    alloc: Global,
    texts: &mut Vec<Text>,
    steady: bool,
    step: &Step,
) -> Result<(), NoMemory>
    ensures { IfOk result (λ _. texts.new.items ≡ texts.old.items ++ lines_scanned steady (Some step.now)) }
{
    if let Step::Scan(volume) = step {
        texts.push(scan_line(alloc, *volume, steady)?)?;
    }
    Ok(())
}

// Adds the line of a note of these steps.
fn push_line(
    alloc: Global,
    texts: &mut Vec<Text>,
    steps: &[Step],
    note: Noted,
) -> Result<(), NoMemory>
    ensures { IfOk result (λ _. texts.new.items ≡ texts.old.items ++ lines_of_note steps.now note) }
{
    match note {
        Noted::Printed(place) => match steps.get(place) {
            Some(step) => push_printed(alloc, texts, step),
            None => Ok(()),
        },
        Noted::Scanned {
            step: place,
            first,
            second,
        } => match steps.get(place) {
            Some(step) => push_scanned(alloc, texts, first == second, step),
            None => Ok(()),
        },
    }
}

// The lines of the notes of these steps.
fn lines_of_notes(alloc: Global, steps: &[Step], notes: &[Noted]) -> Result<Lines, NoMemory>
    ensures { IfOk result (λ lines. lines ≡ lines_of_notes steps.now notes.now) }
{
    let mut texts = Vec::with_capacity(alloc, notes.len())?;
    for note in notes {
        push_line(alloc, &mut texts, steps, *note)?;
    }
    Ok(Lines { texts })
}

// Puts the lines of a job with these notes in the job's place.
fn put_lines(
    alloc: Global,
    jobs: &[Job],
    lines: &mut [Lines],
    job: u32,
    notes: &[Noted],
) -> Result<(), NoMemory>
    requires places { length lines.old ≡ length jobs.now }
    ensures places { length lines.new ≡ length lines.old }
    ensures lines { IfOk result (λ _. lines.new
        ≡ set lines.old job (lines_of_notes (job_at (map job_data jobs.now) job).steps notes.now)) }
{
    let place = job as usize;
    if place < lines.len() {
        lines[place] = lines_of_notes(alloc, &jobs[place].steps, notes)?;
    }
    Ok(())
}

// Puts the lines of each job that an initiator ran in the job's place.
fn put_all_lines(
    alloc: Global,
    jobs: &[Job],
    lines: &mut [Lines],
    brought: &InitiatorRecord,
) -> Result<(), NoMemory>
    requires places { length lines.old ≡ length jobs.now }
    ensures places { length lines.new ≡ length lines.old }
    ensures lines { IfOk result (λ _. lines.new ≡ fold (with_record (map job_data jobs.now)) lines.old brought.now.jobs) }
{
    let mut notes = Vec::new(alloc);
    for mark in &brought.marks {
        match mark {
            Mark::Step(noted) => notes.push(*noted)?,
            Mark::Ended { job, .. } => {
                put_lines(alloc, jobs, lines, *job, &notes)?;
                notes.clear();
            }
        }
    }
    Ok(())
}

// One list for each job, all empty: no line has been made yet.
fn no_lines(alloc: Global, jobs: usize) -> Result<Vec<Lines>, NoMemory>
    ensures { IfOk result (λ lines. lines.items ≡ replicate jobs []) }
{
    let mut lines = Vec::with_capacity(alloc, jobs)?;
    for _ in 0..jobs {
        lines.push(Lines {
            texts: Vec::new(alloc),
        })?;
    }
    Ok(lines)
}

/// The lines of each job of a deck, in the order of the deck, made of what the initiators noted: a job's are those of its PRINT and
/// SCAN steps that were noted, and a SCAN's line says whether it read one number twice. A job whose end was not noted has none.
/// Linear in the deck and in the notes.
///
/// # Errors
///
/// `NoMemory` if there is no room for the lines.
pub fn lines_recorded(
    alloc: Global,
    deck: &Deck,
    records: &[InitiatorRecord],
) -> Result<Vec<Lines>, NoMemory>
    ensures lines { IfOk result (λ lines. lines.items ≡ lines_recorded (deck_data deck.now) (all_records (map (λ r. r.jobs) records.now))) }
{
    let mut lines = no_lines(alloc, deck.jobs.len())?;
    for brought in records {
        put_all_lines(alloc, &deck.jobs, &mut lines, brought)?;
    }
    Ok(lines)
}
