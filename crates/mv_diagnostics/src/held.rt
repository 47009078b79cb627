//! The latches that a job holds before a line of it that has a fault: `specs/Held.antt`.

ghost use Rattle.std.specs.Prelude.{◌≡◌, ◌<◌, ◌≤◌, ◌+◌, ◌-◌, ◌^◌, ◌++◌, length, map, OnOk};
ghost use Rattle.mv_deck.specs.Deck.{deck_of, job_data};
ghost use Rattle.mv_deck.specs.Fault.{first_fault};
ghost use Rattle.mv_deck.specs.Held.{held as held_by_steps, held_behind as held_after_step};
ghost use Rattle.mv_line.specs.Line.{lines_of};
ghost use Rattle.mv_diagnostics.specs.Held.{held_at_end, held_by, held_of_fault, held_text, holder_text, holds_text, last_text};
ghost use Rattle.mv_diagnostics.specs.Held.{latch_text, latches_text, lines_above, mode_text, name_text, or_none};

use crate::limits::CARD_LIMIT;
use crate::sentences::{EXCLUSIVE, HOLDS, HOLDS_NONE, JOB, SHARED};
use mv_deck::{DeckFault, Job, Kind, Step, VOLUME_COUNT, read_deck};
use mv_io::NoMemory;
use mv_latch::Mode;
use mv_line::{FaultKind, Lines, push_number};
use std::alloc::Global;

// The null statement, as a line.
const NULL_STATEMENT: &[u8] = b"//\n";

// Appends the lines of a text above the one of this number.
fn push_above(out: &mut Vec<u8>, bytes: &[u8], number: u64) -> Result<(), NoMemory>
    requires { length bytes.now < 2 ^ 32 - 1 }
    ensures { OnOk result (out.new.items ≡ out.old.items ++ lines_above number 1 (lines_of bytes.now)) }
{
    let mut lines = Lines::of(bytes);
    'lines: while let Some((here, line)) = lines.next() {
        if u64::from(here) >= number {
            return Ok(());
        }
        out.extend_from_slice(line)?;
        out.push(b'\n')?;
    }
    Ok(())
}

// The mode in which a latch is held after one more step, if it is held.
fn held_behind(latch: u32, mode: Option<Mode>, step: &Step) -> Option<Mode>
    ensures { result ≡ held_after_step latch mode step.now }
{
    match step {
        Step::Use(used, by) => if *used == latch { Some(*by) } else { mode },
        Step::Free(freed) => if *freed == latch { None } else { mode },
        Step::Print(_) | Step::Count(_, _) | Step::Scan(_) | Step::Abend(_) | Step::Return(_) =>
            mode,
    }
}

// The mode in which a job holds a latch after these steps, if it does.
#[tactic(auto, using(crate::proofs::HeldLatches::held_more))]
fn held(steps: &[Step], latch: u32) -> Option<Mode>
    ensures { result ≡ held_by_steps steps.now latch }
{
    let mut mode = None;
    for step in steps {
        mode = held_behind(latch, mode, step);
    }
    mode
}

fn push_mode(out: &mut Vec<u8>, mode: Mode) -> Result<(), NoMemory>
    ensures { OnOk result (out.new.items ≡ out.old.items ++ mode_text mode) }
{
    match mode {
        Mode::Shared => out.extend_from_slice(SHARED)?,
        Mode::Exclusive => out.extend_from_slice(EXCLUSIVE)?,
    }
    Ok(())
}

#[tactic(auto, unfolding(crate::specs::Held::name_text))]
fn push_name(out: &mut Vec<u8>, name: &[u8]) -> Result<(), NoMemory>
    ensures { OnOk result (out.new.items ≡ out.old.items ++ name_text name.now) }
{
    out.extend_from_slice(JOB)?;
    out.extend_from_slice(name)?;
    Ok(())
}

// Says that a job holds a latch in this mode.
#[tactic(auto, unfolding(crate::specs::Held::holds_text))]
fn push_holds(out: &mut Vec<u8>, name: &[u8], latch: u32, mode: Mode) -> Result<(), NoMemory>
    ensures { OnOk result (out.new.items ≡ out.old.items ++ holds_text name.now latch mode) }
{
    push_name(out, name)?;
    push_number(out, HOLDS, u64::from(latch))?;
    push_mode(out, mode)
}

// The same, if it does.
fn push_latch(
    out: &mut Vec<u8>,
    name: &[u8],
    latch: u32,
    mode: Option<Mode>,
) -> Result<(), NoMemory>
    ensures { OnOk result (out.new.items ≡ out.old.items ++ latch_text name.now latch mode) }
{
    match mode {
        Some(mode) => push_holds(out, name, latch, mode),
        None => Ok(()),
    }
}

// Says which latches a job holds after these steps, from this latch on.
#[tactic(auto, using(crate::proofs::HeldLatches::latches_end, crate::proofs::HeldLatches::latches_step))]
fn push_latches(out: &mut Vec<u8>, name: &[u8], steps: &[Step], from: u32) -> Result<(), NoMemory>
    requires { from ≤ 8 }
    ensures { OnOk result (out.new.items ≡ out.old.items ++ latches_text name.now steps.now from (8 - from)) }
{
    if from >= VOLUME_COUNT as u32 {
        return Ok(());
    }
    push_latch(out, name, from, held(steps, from))?;
    push_latches(out, name, steps, from + 1)
}

// Appends what is said of the latches that a job holds, or says that it holds none.
fn push_or_none(out: &mut Vec<u8>, name: &[u8], latches: &[u8]) -> Result<(), NoMemory>
    ensures { OnOk result (out.new.items ≡ out.old.items ++ or_none name.now latches.now) }
{
    if !latches.is_empty() {
        out.extend_from_slice(latches)?;
        return Ok(());
    }
    push_name(out, name)?;
    out.extend_from_slice(HOLDS_NONE)?;
    Ok(())
}

// Says which latches a job holds after its steps.
#[tactic(auto, unfolding(crate::specs::Held::holder_text))]
fn push_holder(out: &mut Vec<u8>, alloc: Global, job: &Job) -> Result<(), NoMemory>
    ensures { OnOk result (out.new.items ≡ out.old.items ++ holder_text (job_data job.now)) }
{
    let mut latches = Vec::new(alloc);
    push_latches(&mut latches, &job.name.bytes, &job.steps, 0)?;
    push_or_none(out, &job.name.bytes, &latches)
}

// Says so of the last of these jobs, if there is one.
fn push_last(out: &mut Vec<u8>, alloc: Global, jobs: &[Job]) -> Result<(), NoMemory>
    ensures { OnOk result (out.new.items ≡ out.old.items ++ last_text (map job_data jobs.now)) }
{
    match jobs.last() {
        Some(job) => push_holder(out, alloc, job),
        None => Ok(()),
    }
}

// Says so of the last job of a deck of at most `CARD_LIMIT` bytes, if it has no fault.
fn push_held_by(out: &mut Vec<u8>, alloc: Global, deck: &[u8]) -> Result<(), NoMemory>
    requires { length deck.now < 2 ^ 32 - 1 }
    ensures { OnOk result (out.new.items ≡ out.old.items ++ held_by (first_fault deck.now 1) (deck_of deck.now)) }
{
    match read_deck(alloc, deck, 1) {
        Ok(deck) => push_last(out, alloc, &deck.jobs),
        Err(refusal) => {
            refusal.fault()?;
            Ok(())
        }
    }
}

// Says which latches the last job of a deck holds at its end, if the deck has no fault.
#[tactic(auto, unfolding(crate::specs::Held::held_at_end))]
fn push_held_at_end(out: &mut Vec<u8>, alloc: Global, deck: &[u8]) -> Result<(), NoMemory>
    ensures { OnOk result (out.new.items ≡ out.old.items ++ held_at_end deck.now) }
{
    if deck.len() > CARD_LIMIT {
        return Ok(());
    }
    push_held_by(out, alloc, deck)
}

// Says which latches the job of this line holds before it.
#[tactic(auto, unfolding(crate::specs::Held::held_text, crate::specs::Held::deck_above))]
fn push_held(out: &mut Vec<u8>, alloc: Global, bytes: &[u8], number: u32) -> Result<(), NoMemory>
    requires { length bytes.now < 2 ^ 32 - 1 }
    ensures { OnOk result (out.new.items ≡ out.old.items ++ held_text bytes.now number) }
{
    let mut above = Vec::new(alloc);
    push_above(&mut above, bytes, u64::from(number))?;
    above.extend_from_slice(NULL_STATEMENT)?;
    push_held_at_end(out, alloc, &above)
}

/// Says which latches the job holds before the line of this fault, if the fault is about them.
pub(crate) fn push_held_of_fault(
    out: &mut Vec<u8>,
    alloc: Global,
    bytes: &[u8],
    fault: DeckFault,
) -> Result<(), NoMemory>
    requires { length bytes.now < 2 ^ 32 - 1 }
    ensures { OnOk result (out.new.items ≡ out.old.items ++ held_of_fault bytes.now fault) }
{
    if fault.kind == Kind::LatchOrder.number() || fault.kind == Kind::LatchNotHeld.number() {
        return push_held(out, alloc, bytes, fault.line);
    }
    Ok(())
}
