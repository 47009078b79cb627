//! What a deck means, job by job: how each job ends, the lines that it writes, and what all jobs leave in the volumes.
//! `specs/Outcome.antt` defines it.

ghost use Rattle.std.specs.Prelude.{◌≡◌, ℕ, ◌+◌, ◌<◌, map, slice_index, IfOk};
ghost use Rattle.mv_deck.specs.Deck.{job_data, deck_data};
ghost use Rattle.mv_deck.specs.Operand.{volume_count};
ghost use Rattle.mv_report.specs.Outcome.{is_unaccepted, some_unaccepted, own_end, end_behind, ends, steps_with, lines_of_steps};
ghost use Rattle.mv_report.specs.Outcome.{lines, added_by, totals, held_of};

use crate::lines::{Lines, print_line, scan_line};
use mv_deck::{After, Deck, Job, NOT_RUN, Step, VOLUME_COUNT};
use mv_io::NoMemory;
use std::alloc::Global;

/// The outcome of a deck.
#[derive(Debug, Drop)]
pub struct Outcome {
    /// The end code of each job, in the order of the deck, as `write_report` takes them.
    pub ends: Vec<u32>,
    /// The lines of each job, in the order of the deck. A job that is not run has none.
    pub lines: Vec<Lines>,
    /// The number in each volume at the end.
    pub volumes: [u32; VOLUME_COUNT],
}

/// Returns the outcome of a deck, job by job.
///
/// Nothing is run: this is the outcome of every run of the deck. A volume whose total is above `u32::MAX` holds `u32::MAX`; no
/// deck that can be run has such a total. The time is linear in the deck and in what its jobs write.
///
/// # Errors
///
/// `NoMemory` if there is not enough memory for the ends and the lines.
///
/// # Examples
///
/// From `crates/mv_tests/src/tests/orders.rt`:
///
/// ```
/// let outcome = outcome_of(alloc, &deck).expect(rt, "memory for an outcome");
/// assert!(rt; outcome.ends.as_slice() == ENDS.as_slice());
/// ```
pub fn outcome_of(alloc: Global, deck: &Deck) -> Result<Outcome, NoMemory>
    ensures ends { IfOk result (λ outcome. outcome.ends.items ≡ ends (deck_data deck.now)) }
    ensures lines { IfOk result (λ outcome. outcome.lines.items ≡ lines (deck_data deck.now)) }
    ensures volumes { IfOk result (λ outcome. outcome.volumes ≡ map held_of (totals (deck_data deck.now))) }
{
    let ends = ends_of(alloc, deck)?;
    let mut lines = Vec::with_capacity(alloc, deck.jobs.len())?;
    let mut volumes = [0; VOLUME_COUNT];
    for (i, job) in deck.jobs.iter().enumerate() {
        let steps = steps_with(ends[i], &job.steps);
        lines.push(lines_of(alloc, steps)?)?;
        add_counts(&mut volumes, steps);
    }
    Ok(Outcome {
        ends,
        lines,
        volumes,
    })
}

// Whether the job that a part of an AFTER names ended above what the part accepts.
fn is_unaccepted(ends: &[u32], part: &After) -> bool
    ensures { result ≡ is_unaccepted ends.now part.now }
{
    match ends.get(part.job as usize) {
        Some(end) => *end > part.most,
        None => false,
    }
}

// Whether one of these parts refuses its job.
fn some_unaccepted(ends: &[u32], parts: &[After]) -> bool
    ensures { result ≡ some_unaccepted ends.now parts.now }
{
    parts.iter().any(|part| is_unaccepted(ends, part))
}

// The end that a job's steps give it, if it is run.
fn own_end(steps: &[Step]) -> u32
    ensures { result ≡ own_end steps.now }
{
    for step in steps {
        match step {
            Step::Abend(end) | Step::Return(end) => return *end,
            Step::Print(_) | Step::Use(_, _) | Step::Free(_) | Step::Count(_, _) | Step::Scan(_) =>
                {}
        }
    }
    0
}

// The end of a job that follows jobs with these ends.
fn end_behind(ends: &[u32], job: &Job) -> u32
    ensures { result ≡ end_behind ends.now (job_data job.now) }
{
    if some_unaccepted(ends, &job.after) {
        NOT_RUN
    } else {
        own_end(&job.steps)
    }
}

// The end of each job.
fn ends_of(alloc: Global, deck: &Deck) -> Result<Vec<u32>, NoMemory>
    ensures { IfOk result (λ codes. codes.items ≡ ends (deck_data deck.now)) }
{
    let mut codes = Vec::with_capacity(alloc, deck.jobs.len())?;
    for job in &deck.jobs {
        codes.push(end_behind(&codes, job))?;
    }
    Ok(codes)
}

// The steps that a job with this end executes.
fn steps_with(end: u32, steps: &[Step]) -> &[Step]
    ensures { result.now ≡ steps_with end steps.now }
{
    if end == NOT_RUN {
        return &steps[..0];
    }
    for (count, step) in steps.iter().enumerate() {
        match step {
            Step::Abend(_) | Step::Return(_) => return &steps[..count],
            Step::Print(_) | Step::Use(_, _) | Step::Free(_) | Step::Count(_, _) | Step::Scan(_) =>
                {}
        }
    }
    steps
}

// The lines that these steps write.
fn lines_of(alloc: Global, steps: &[Step]) -> Result<Lines, NoMemory>
    ensures { IfOk result (λ lines. lines ≡ lines_of_steps steps.now) }
{
    let mut texts = Vec::new(alloc);
    for step in steps {
        match step {
            Step::Print(text) => texts.push(print_line(alloc, text)?)?,
            Step::Scan(volume) => texts.push(scan_line(alloc, *volume, true)?)?,
            Step::Use(_, _)
            | Step::Free(_)
            | Step::Count(_, _)
            | Step::Abend(_)
            | Step::Return(_) => {}
        }
    }
    Ok(Lines { texts })
}

// Adds to each volume what these steps count in it. A volume stops at `u32::MAX`.
fn add_counts(volumes: &mut [u32; VOLUME_COUNT], steps: &[Step])
    ensures { (volume : ℕ) → volume < volume_count
        → slice_index volumes.new volume ≡ held_of (slice_index volumes.old volume + added_by volume steps.now) }
{
    for step in steps {
        match step {
            Step::Count(volume, amount) => {
                let volume = *volume as usize;
                if volume < VOLUME_COUNT {
                    volumes[volume] = volumes[volume].saturating_add(*amount);
                }
            }
            Step::Print(_)
            | Step::Use(_, _)
            | Step::Free(_)
            | Step::Scan(_)
            | Step::Abend(_)
            | Step::Return(_) => {}
        }
    }
}
