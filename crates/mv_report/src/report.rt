//! The report, written from its first line to its last. `specs/Report.antt` defines its bytes.

ghost use Rattle.std.specs.Prelude.{◌≡◌, ◌<◌, ◌≤◌, ◌++◌, length, All, count_by, OnOk, IfOk, vec_len};
ghost use Rattle.mv_deck.specs.Deck.{deck_data};
ghost use Rattle.mv_deck.specs.EndCode.{lowest_abend, not_run};
ghost use Rattle.mv_deck.specs.Operand.{volume_count};
ghost use Rattle.mv_report.specs.EndCode.{IsEndCode, is_ended, is_abended, is_not_run};
ghost use Rattle.mv_report.specs.Report.{digit, abend_text, outcome_text, lines_text, job_text, counts_text};
ghost use Rattle.mv_report.specs.Report.{volumes_text, closing_text, report_text};

use crate::end_code::{is_abended, is_ended, is_not_run};
use crate::lines::Lines;
use mv_deck::{Deck, HIGHEST_CODE, LOWEST_ABEND, NOT_RUN, Name, USER_CODES};
use mv_io::NoMemory;
use mv_line::push_number;
use std::alloc::Global;

const DIGITS: &[u8; 16] = b"0123456789ABCDEF";

fn digit(value: u32) -> u8
    requires { value < 16 }
    ensures { result ≡ digit value }
{
    DIGITS[value as usize]
}

fn push_abend(out: &mut Vec<u8>, end: u32) -> Result<(), NoMemory>
    requires lowest { lowest_abend ≤ end }
    requires highest { end < not_run }
    ensures { OnOk result (out.new.items ≡ out.old.items ++ abend_text end) }
{
    let system = (end - LOWEST_ABEND) / USER_CODES;
    let user = (end - LOWEST_ABEND) % USER_CODES;
    if system == 0 {
        out.extend_from_slice(&[
            b'U',
            digit(user / 1000),
            digit(user / 100 % 10),
            digit(user / 10 % 10),
            digit(user % 10),
        ])?;
    } else {
        out.extend_from_slice(&[
            b'S',
            digit(system / 256),
            digit(system / 16 % 16),
            digit(system % 16),
        ])?;
    }
    Ok(())
}

// Appends the words for a job's end.
fn push_outcome(out: &mut Vec<u8>, end: u32) -> Result<(), NoMemory>
    requires { IsEndCode end }
    ensures { OnOk result (out.new.items ≡ out.old.items ++ outcome_text end) }
{
    match end {
        0 => out.extend_from_slice(b"ENDED")?,
        1..=HIGHEST_CODE => push_number(out, b"ENDED RC ", u64::from(end))?,
        NOT_RUN => out.extend_from_slice(b"NOT RUN")?,
        _ => {
            out.extend_from_slice(b"ABENDED ")?;
            push_abend(out, end)?;
        }
    }
    Ok(())
}

fn push_lines(out: &mut Vec<u8>, end: u32, lines: &Lines) -> Result<(), NoMemory>
    ensures { OnOk result (out.new.items ≡ out.old.items ++ lines_text end lines.now) }
{
    if is_not_run(end) {
        return Ok(());
    }
    for text in &lines.texts {
        out.extend_from_slice(&text.bytes)?;
        out.push(b'\n')?;
    }
    Ok(())
}

fn push_job(out: &mut Vec<u8>, name: &Name, end: u32, lines: &Lines) -> Result<(), NoMemory>
    requires { IsEndCode end }
    ensures { OnOk result (out.new.items ≡ out.old.items ++ job_text name.now end lines.now) }
{
    out.extend_from_slice(b"JOB ")?;
    out.extend_from_slice(&name.bytes)?;
    out.push(b' ')?;
    push_outcome(out, end)?;
    out.push(b'\n')?;
    push_lines(out, end, lines)
}

fn count_ended(ends: &[u32]) -> usize
    ensures { result ≡ count_by is_ended ends.now }
{
    ends.iter().filter(|end| is_ended(**end)).count()
}

fn count_abended(ends: &[u32]) -> usize
    ensures { result ≡ count_by is_abended ends.now }
{
    ends.iter().filter(|end| is_abended(**end)).count()
}

fn count_not_run(ends: &[u32]) -> usize
    ensures { result ≡ count_by is_not_run ends.now }
{
    ends.iter().filter(|end| is_not_run(**end)).count()
}

fn push_counts(out: &mut Vec<u8>, jobs: usize, ends: &[u32]) -> Result<(), NoMemory>
    ensures { OnOk result (out.new.items ≡ out.old.items ++ counts_text jobs ends.now) }
{
    push_number(out, b"JOBS ", jobs as u64)?;
    push_number(out, b" ENDED ", count_ended(ends) as u64)?;
    push_number(out, b" ABENDED ", count_abended(ends) as u64)?;
    push_number(out, b" NOT RUN ", count_not_run(ends) as u64)?;
    out.push(b'\n')?;
    Ok(())
}

fn push_volumes(out: &mut Vec<u8>, volumes: &[u32]) -> Result<(), NoMemory>
    ensures { OnOk result (out.new.items ≡ out.old.items ++ volumes_text volumes.now) }
{
    out.extend_from_slice(b"VOLUMES")?;
    for volume in volumes {
        push_number(out, b" ", u64::from(*volume))?;
    }
    out.push(b'\n')?;
    Ok(())
}

/// Appends the last two lines: the counts of jobs and the volumes.
pub(crate) fn push_closing(
    out: &mut Vec<u8>,
    jobs: usize,
    ends: &[u32],
    volumes: &[u32],
) -> Result<(), NoMemory>
    ensures { OnOk result (out.new.items ≡ out.old.items ++ closing_text jobs ends.now volumes.now) }
{
    push_counts(out, jobs, ends)?;
    push_volumes(out, volumes)
}

/// Returns the report on a deck whose jobs have these ends and lines, and left these numbers in the eight volumes.
///
/// An end is an end code: 0 to 4095, the return code, if the job ended; `2^24 + 4096 * system + user` if it abended; `2^25` if it
/// was not run, in which case its lines are not printed. An abend is printed as the books write completion codes: a system code
/// in three hexadecimal digits, a user code in four decimal ones. The time is linear in what is written.
///
/// # Errors
///
/// `NoMemory` if there is not enough memory for the text.
pub fn write_report(
    alloc: Global,
    deck: &Deck,
    ends: &[u32],
    lines: &[Lines],
    volumes: &[u32],
) -> Result<Vec<u8>, NoMemory>
    requires one_end_per_job { length ends.now ≡ vec_len deck.now.jobs }
    requires one_lines_per_job { length lines.now ≡ vec_len deck.now.jobs }
    requires eight_volumes { length volumes.now ≡ volume_count }
    requires end_codes { All IsEndCode ends.now }
    ensures text { IfOk result (λ text.
        text.items ≡ report_text (deck_data deck.now) ends.now lines.now volumes.now) }
{
    let mut out = Vec::new(alloc);
    for (i, job) in deck.jobs.iter().enumerate() {
        push_job(&mut out, &job.name, ends[i], &lines[i])?;
    }
    push_closing(&mut out, deck.jobs.len(), ends, volumes)?;
    Ok(out)
}
