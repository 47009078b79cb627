//! Who waits for what: a line for each task that has calls left, and for a WAIT one for each block that is open (`specs/Text.antt`).

ghost use Rattle.std.specs.Prelude.{◌≡◌, ◌<◌, ◌+◌, ◌-◌, ◌++◌, ◌^◌, length, IfOk, OnOk};
ghost use Rattle.mv_machine.specs.State.{IsOpenedWith, system_of};
ghost use Rattle.mv_pollscript.specs.SoFar.{IsRunSoFar};
ghost use Rattle.mv_pollscript.specs.Text.{block_text, blocks_text, open_text, call_text, element_text, latch_text, first_text, holder_text, stopped_text, task_text};
ghost use Rattle.mv_pollscript.specs.Text.{tasks_text, waiter_text, waits_text, who_text};
ghost use Rattle.mv_script.specs.Script.{script_data};
ghost use Rattle.mv_script.specs.Sound.{IsSound};

use crate::finding::{Deed, Place, first_call};
use crate::run::RunSoFar;
use crate::sentences::{
    FOR_BLOCK, FOR_ELEMENT, FOR_LATCH, HOLDS, NOBODY_POSTS, NOBODY_RELEASES, NOT_MADE, STOPS, TASK,
    WAITS, WHICH_TASK, WOULD_POST, WOULD_RELEASE,
};
use crate::standing::{is_complete_in, stops_before, waits_in};
use mv_io::NoMemory;
use mv_latch::Request;
use mv_line::push_number;
use mv_machine::{State, ValidConfig};
use mv_script::{Call, Script};
use std::alloc::Global;

// Says that a task waits at this call, counted from 1.
#[tactic(auto, unfolding(crate::specs::Text::waiter_text))]
fn push_waiter(out: &mut Vec<u8>, at: Place) -> Result<(), NoMemory>
    ensures { OnOk result (out.new.items ≡ out.old.items ++ waiter_text at) }
{
    push_number(out, TASK, u64::from(at.task))?;
    push_number(out, WAITS, at.call)?;
    Ok(())
}

// Says which call would end a wait, or that none would.
#[tactic(auto, unfolding(crate::specs::Text::who_text))]
fn push_who(
    out: &mut Vec<u8>,
    who: Option<Place>,
    would: &[u8],
    nobody: &[u8],
) -> Result<(), NoMemory>
    ensures { OnOk result (out.new.items ≡ out.old.items ++ who_text who would.now nobody.now) }
{
    match who {
        Some(place) => {
            push_number(out, WHICH_TASK, u64::from(place.task))?;
            push_number(out, would, place.call)?;
            out.push(b'\n')?;
            Ok(())
        }
        None => {
            out.extend_from_slice(nobody)?;
            Ok(())
        }
    }
}

// Says that a task waits for a block, and who would post it.
#[tactic(auto, unfolding(crate::specs::Text::block_text))]
fn push_block(
    out: &mut Vec<u8>,
    script: &Script,
    run: &RunSoFar,
    at: Place,
    block: u32,
) -> Result<(), NoMemory>
    requires { length script.now.tasks.items < 2 ^ 32 }
    ensures { OnOk result (out.new.items
        ≡ out.old.items ++ block_text script.now.tasks.items run.now.answers.items at block) }
{
    push_waiter(out, at)?;
    push_number(out, FOR_BLOCK, u64::from(block))?;
    let who = first_call(&script.tasks, &run.answers, 0, Deed::Posts(block));
    push_who(out, who, WOULD_POST, NOBODY_POSTS)
}

// Says the same of a block if it is open.
#[tactic(auto, unfolding(crate::specs::Text::open_text))]
fn push_open(
    out: &mut Vec<u8>,
    script: &Script,
    run: &RunSoFar,
    at: Place,
    block: u32,
) -> Result<(), NoMemory>
    requires { length script.now.tasks.items < 2 ^ 32 }
    ensures { OnOk result (out.new.items ≡ out.old.items
        ++ open_text (system_of run.now.state) script.now.tasks.items run.now.answers.items at block) }
{
    if is_complete_in(&run.state, block) {
        Ok(())
    } else {
        push_block(out, script, run, at, block)
    }
}

// Says the same of each of these blocks that is open.
fn push_blocks(
    out: &mut Vec<u8>,
    script: &Script,
    run: &RunSoFar,
    at: Place,
    blocks: &[u32],
) -> Result<(), NoMemory>
    requires { length script.now.tasks.items < 2 ^ 32 }
    ensures { OnOk result (out.new.items ≡ out.old.items
        ++ blocks_text (system_of run.now.state) script.now.tasks.items run.now.answers.items at blocks.now) }
{
    match blocks {
        [] => Ok(()),
        [block, others @ ..] => {
            push_open(out, script, run, at, *block)?;
            push_blocks(out, script, run, at, others)
        }
    }
}

// Says that a task waits for a release, and who would make it.
#[tactic(auto, unfolding(crate::specs::Text::element_text))]
fn push_element(
    out: &mut Vec<u8>,
    script: &Script,
    run: &RunSoFar,
    at: Place,
    element: u32,
) -> Result<(), NoMemory>
    requires { length script.now.tasks.items < 2 ^ 32 }
    ensures { OnOk result (out.new.items
        ≡ out.old.items ++ element_text script.now.tasks.items run.now.answers.items at element) }
{
    push_waiter(out, at)?;
    push_number(out, FOR_ELEMENT, u64::from(element))?;
    let who = first_call(&script.tasks, &run.answers, 0, Deed::Releases(element));
    push_who(out, who, WOULD_RELEASE, NOBODY_RELEASES)
}

// Says who made the first of these requests, if there is one.
#[tactic(auto, unfolding(crate::specs::Text::first_text))]
fn push_first(out: &mut Vec<u8>, requests: &[Request]) -> Result<(), NoMemory>
    ensures { OnOk result (out.new.items ≡ out.old.items ++ first_text requests.now) }
{
    match requests {
        [] => out.push(b'\n')?,
        [first, ..] => {
            push_number(out, WHICH_TASK, u64::from(first.caller))?;
            out.extend_from_slice(HOLDS)?;
        }
    }
    Ok(())
}

// Says who holds a latch.
#[tactic(auto, unfolding(crate::specs::Text::holder_text))]
fn push_holder(
    out: &mut Vec<u8>,
    config: &ValidConfig,
    state: &State,
    latch: u32,
) -> Result<(), NoMemory>
    requires { IsOpenedWith config.now state.now }
    ensures { OnOk result (out.new.items ≡ out.old.items ++ holder_text config.now (system_of state.now) latch) }
{
    if !config.has_latch(latch) {
        out.push(b'\n')?;
        return Ok(());
    }
    push_first(out, state.requests(latch))
}

// Says that a task waits for a latch, and who holds it.
#[tactic(auto, unfolding(crate::specs::Text::latch_text))]
fn push_latch(out: &mut Vec<u8>, run: &RunSoFar, at: Place, latch: u32) -> Result<(), NoMemory>
    requires { IsOpenedWith run.now.config run.now.state }
    ensures { OnOk result (out.new.items ≡ out.old.items ++ latch_text run.now.config (system_of run.now.state) at latch) }
{
    push_waiter(out, at)?;
    push_number(out, FOR_LATCH, u64::from(latch))?;
    push_holder(out, &run.config, &run.state, latch)
}

// Says what this call of a task waits for.
#[tactic(auto, unfolding(crate::specs::Text::call_text))]
fn push_call(
    out: &mut Vec<u8>,
    script: &Script,
    run: &RunSoFar,
    at: Place,
    call: &Call,
) -> Result<(), NoMemory>
    requires few { length script.now.tasks.items < 2 ^ 32 }
    requires opened { IsOpenedWith run.now.config run.now.state }
    ensures { OnOk result (out.new.items ≡ out.old.items
        ++ call_text run.now.config (system_of run.now.state) script.now.tasks.items run.now.answers.items at call.now) }
{
    match call {
        Call::Wait { ecbs, .. } => push_blocks(out, script, run, at, &ecbs.numbers),
        Call::Pause(token) => push_element(out, script, run, at, token.element),
        Call::Obtain { latch, .. } => push_latch(out, run, at, *latch),
        _ => Ok(()),
    }
}

// Says that a task stops before this call.
#[tactic(auto, unfolding(crate::specs::Text::stopped_text))]
fn push_stopped(out: &mut Vec<u8>, at: Place) -> Result<(), NoMemory>
    ensures { OnOk result (out.new.items ≡ out.old.items ++ stopped_text at) }
{
    push_number(out, TASK, u64::from(at.task))?;
    push_number(out, STOPS, at.call)?;
    out.extend_from_slice(NOT_MADE)?;
    Ok(())
}

// Says what a task waits for, or where it stops; nothing of a task that has made all of its calls, or can go on.
fn push_task(out: &mut Vec<u8>, script: &Script, run: &RunSoFar, task: u32) -> Result<(), NoMemory>
    requires run { IsRunSoFar (script_data script.now) run.now }
    requires few { length script.now.tasks.items < 2 ^ 32 }
    requires task { task < length script.now.tasks.items }
    ensures { OnOk result (out.new.items ≡ out.old.items
        ++ task_text run.now.config (system_of run.now.state) script.now.tasks.items run.now.answers.items task) }
{
    let calls = &script.tasks[task as usize].calls;
    let made = run.answers[task as usize].answers.len();
    if made >= calls.len() {
        return Ok(());
    }
    let at = Place {
        task,
        call: made as u64 + 1,
    };
    let call = &calls[made];
    if waits_in(&run.config, &run.state, task, call) {
        push_call(out, script, run, at, call)
    } else if stops_before(call) {
        push_stopped(out, at)
    } else {
        Ok(())
    }
}

// Says this of each task from this one on.
#[tactic(auto, using(crate::proofs::Texts::tasks_end, crate::proofs::Texts::tasks_step))]
fn push_tasks(out: &mut Vec<u8>, script: &Script, run: &RunSoFar, from: u32) -> Result<(), NoMemory>
    requires run { IsRunSoFar (script_data script.now) run.now }
    requires few { length script.now.tasks.items < 2 ^ 32 }
    ensures { OnOk result (out.new.items ≡ out.old.items
        ++ tasks_text run.now.config (system_of run.now.state) script.now.tasks.items run.now.answers.items from
        (length script.now.tasks.items - from)) }
{
    if from as usize >= script.tasks.len() {
        return Ok(());
    }
    push_task(out, script, run, from)?;
    push_tasks(out, script, run, from + 1)
}

/// Returns a line for each task that has calls left, in the order of their numbers: what its next call waits for and which call that is
/// left would end this, or that the call is not made here. A WAIT has a line for each of its blocks that is open. A task that can go on
/// has no line; a run of `run_so_far` leaves none.
///
/// # Errors
///
/// `NoMemory` if memory runs out.
pub fn write_waits(alloc: Global, script: &Script, run: &RunSoFar) -> Result<Vec<u8>, NoMemory>
    requires sound { IsSound (script_data script.now) }
    requires run { IsRunSoFar (script_data script.now) run.now }
    ensures { IfOk result (λ text. text.items
        ≡ waits_text run.now.config (system_of run.now.state) script.now.tasks.items run.now.answers.items) }
{
    let mut out = Vec::new(alloc);
    push_tasks(&mut out, script, run, 0)?;
    Ok(out)
}
