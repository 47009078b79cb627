//! The deck of a load, written line by line (`specs/Load.antt`).

ghost use Rattle.std.specs.Prelude.{◌≡◌, ◌<◌, ◌≤◌, ◌++◌, decimal, flat_map, OnOk, IfOk};
ghost use Rattle.mv_deck.specs.Load.{most_jobs, volume_of, counted_by, digit_of, four_digits as digits_of_four, load_name};
ghost use Rattle.mv_deck.specs.Load.{after_text, job_line, count_line, scan_lines, print_line, last_line, job_lines, ended};
ghost use Rattle.mv_deck.specs.Load.{load_text};

use crate::operand::VOLUME_COUNT;
use mv_io::NoMemory;
use mv_line::push_number;
use std::alloc::Global;

/// The most jobs of a load.
pub const MOST_JOBS: u32 = 2000;

/// Returns the text of a deck of `jobs` jobs, 1 to 2000. The same number gives the same text.
///
/// Job i, counted from 0, counts 1 + i mod 9 in volume i mod 8 under the latch of that number, and prints `WORK` and i. Every
/// fourth job scans its volume, every fifth waits for the job three before it, and every seventh abends. The text is below
/// 200,000 bytes, has no fault, and can be run by 1 to 8 initiators.
///
/// # Errors
///
/// `NoMemory` if there is not enough memory for the text.
///
/// # Examples
///
/// From `crates/mv_program/src/texts.rt`:
///
/// ```
/// let text = load_deck(alloc, jobs)?;
/// match read_deck(alloc, &text, initiators) {
///     Ok(deck) => Ok(deck),
///     Err(refusal) => match refusal.fault() {
///         // A load has no fault.
///         Ok(_) => unreachable!(),
///         Err(no_memory) => Err(no_memory),
///     },
/// }
/// ```
pub fn load_deck(alloc: Global, jobs: u32) -> Result<Vec<u8>, NoMemory>
    requires jobs { (1 ≤ jobs) × (jobs ≤ most_jobs) }
    ensures text { IfOk result (λ text. text.items ≡ load_text jobs) }
{
    let mut out = Vec::new(alloc);
    for job in 0..jobs {
        push_job(&mut out, job)?;
    }
    out.extend_from_slice(b"//\n")?;
    Ok(out)
}

fn push_job(out: &mut Vec<u8>, job: u32) -> Result<(), NoMemory>
    ensures { OnOk result (out.new.items ≡ out.old.items ++ flat_map ended (job_lines job)) }
{
    push_heading(out, job)?;
    push_line(out, b"// USE ", volume(job), b" X")?;
    push_count(out, job)?;
    push_scan(out, job)?;
    push_print(out, job)?;
    push_last(out, job)?;
    Ok(())
}

fn volume(job: u32) -> u32
    ensures { result ≡ volume_of job }
{
    job % VOLUME_COUNT as u32
}

fn counted(job: u32) -> u32
    ensures { result ≡ counted_by job }
{
    1 + job % 9
}

// Appends the line of the JOB statement.
fn push_heading(out: &mut Vec<u8>, job: u32) -> Result<(), NoMemory>
    ensures { OnOk result (out.new.items ≡ out.old.items ++ ended (job_line job)) }
{
    out.extend_from_slice(b"//")?;
    push_name(out, job)?;
    out.extend_from_slice(b" JOB")?;
    push_after(out, job)?;
    out.push(b'\n')?;
    Ok(())
}

fn push_after(out: &mut Vec<u8>, job: u32) -> Result<(), NoMemory>
    ensures { OnOk result (out.new.items ≡ out.old.items ++ after_text job) }
{
    if job % 5 == 3 {
        out.extend_from_slice(b" AFTER=")?;
        push_name(out, job - 3)?;
    }
    Ok(())
}

fn push_count(out: &mut Vec<u8>, job: u32) -> Result<(), NoMemory>
    ensures { OnOk result (out.new.items ≡ out.old.items ++ ended (count_line job)) }
{
    push_number(out, b"// COUNT ", u64::from(volume(job)))?;
    push_line(out, b" ", counted(job), b"")?;
    Ok(())
}

fn push_scan(out: &mut Vec<u8>, job: u32) -> Result<(), NoMemory>
    ensures { OnOk result (out.new.items ≡ out.old.items ++ flat_map ended (scan_lines job)) }
{
    if job % 4 == 1 {
        push_line(out, b"// SCAN ", volume(job), b"")?;
    }
    Ok(())
}

fn push_print(out: &mut Vec<u8>, job: u32) -> Result<(), NoMemory>
    ensures { OnOk result (out.new.items ≡ out.old.items ++ ended (print_line job)) }
{
    push_number(out, b"// PRINT WORK ", u64::from(job))?;
    out.push(b'\n')?;
    Ok(())
}

// Appends the line of the last statement.
fn push_last(out: &mut Vec<u8>, job: u32) -> Result<(), NoMemory>
    ensures { OnOk result (out.new.items ≡ out.old.items ++ ended (last_line job)) }
{
    push_end(out, job)?;
    out.push(b'\n')?;
    Ok(())
}

fn push_end(out: &mut Vec<u8>, job: u32) -> Result<(), NoMemory>
    ensures { OnOk result (out.new.items ≡ out.old.items ++ last_line job) }
{
    if job % 7 == 6 {
        out.extend_from_slice(b"// ABEND U")?;
        out.extend_from_slice(&four_digits(job))?;
        return Ok(());
    }
    push_number(out, b"// FREE ", u64::from(volume(job)))
}

// Appends a line: a label, a number, and what follows the number.
fn push_line(out: &mut Vec<u8>, label: &[u8], number: u32, behind: &[u8]) -> Result<(), NoMemory>
    ensures { OnOk result (out.new.items ≡ out.old.items ++ ended (label.now ++ decimal number ++ behind.now)) }
{
    push_number(out, label, u64::from(number))?;
    out.extend_from_slice(behind)?;
    out.push(b'\n')?;
    Ok(())
}

fn push_name(out: &mut Vec<u8>, job: u32) -> Result<(), NoMemory>
    ensures { OnOk result (out.new.items ≡ out.old.items ++ load_name job) }
{
    out.extend_from_slice(&[b'J', digit(job, 10_000)])?;
    out.extend_from_slice(&four_digits(job))?;
    Ok(())
}

fn four_digits(number: u32) -> [u8; 4]
    ensures { result ≡ digits_of_four number }
{
    [
        digit(number, 1000),
        digit(number, 100),
        digit(number, 10),
        digit(number, 1),
    ]
}

// The decimal digit of a number at a place of this weight: 1, 10, 100 and so on.
fn digit(number: u32, weight: u32) -> u8
    requires { 0 < weight }
    ensures { result ≡ digit_of weight number }
{
    b'0' + (number / weight % 10) as u8
}
