//! What is said of a script: `specs/Script.antt`.

ghost use Rattle.std.specs.Prelude.{◌≡◌, ◌<◌, ◌-◌, ◌+◌, ◌^◌, ◌++◌, length, None, OnOk, IfOk};
ghost use Rattle.mv_script.specs.Fault.{first_fault};
ghost use Rattle.mv_script.specs.Script.{script_of};
ghost use Rattle.mv_diagnostics.specs.Script.{calls_text, found_text, script_text, tasks_text, fault_of_script_text};

use crate::limits::CARD_LIMIT;
use crate::quoting::push_fault;
use crate::sentences::{CALLS, GOOD_SCRIPT, LONG_SCRIPT, RUN_SCRIPT, TASK, script_sentence};
use mv_io::NoMemory;
use mv_line::push_number;
use mv_script::{CallList, Script, ScriptFault, read_script};
use std::alloc::Global;

// Says what is wrong with a script.
fn push_script_fault(out: &mut Vec<u8>, bytes: &[u8], fault: ScriptFault) -> Result<(), NoMemory>
    requires { length bytes.now < 2 ^ 32 - 1 }
    ensures { OnOk result (out.new.items ≡ out.old.items ++ fault_of_script_text bytes.now fault) }
{
    push_fault(out, b"script", bytes, fault, script_sentence(fault.kind))
}

// The first fault of a script, if it has one.
fn fault_of(alloc: Global, bytes: &[u8]) -> Result<Option<ScriptFault>, NoMemory>
    requires { length bytes.now < 2 ^ 32 - 1 }
    ensures { IfOk result (λ fault. fault ≡ first_fault bytes.now) }
{
    match read_script(alloc, bytes) {
        Ok(_) => Ok(None),
        Err(refusal) => Ok(Some(refusal.fault()?)),
    }
}

// A script without fault.
fn good_script(alloc: Global, bytes: &[u8]) -> Result<Script, NoMemory>
    requires short { length bytes.now < 2 ^ 32 - 1 }
    requires sound { first_fault bytes.now ≡ None }
    ensures { IfOk result (λ script. script.tasks.items ≡ (script_of bytes.now).tasks) }
{
    match read_script(alloc, bytes) {
        Ok(script) => Ok(script),
        Err(refusal) => match refusal.fault() {
            // The script has none.
            Ok(_) => unreachable!(),
            Err(no_memory) => Err(no_memory),
        },
    }
}

// Says how many calls each of these tasks makes, which are numbered from here on.
fn push_tasks(out: &mut Vec<u8>, tasks: &[CallList], from: u64) -> Result<(), NoMemory>
    requires { from + length tasks.now < 2 ^ 64 }
    ensures { OnOk result (out.new.items ≡ out.old.items ++ tasks_text tasks.now from) }
{
    match tasks {
        [] => Ok(()),
        [calls, others @ ..] => {
            push_number(out, TASK, from)?;
            push_number(out, CALLS, calls.calls.len() as u64)?;
            out.push(b'\n')?;
            push_tasks(out, others, from + 1)
        }
    }
}

// Says how many calls each task of a script makes.
#[tactic(auto, unfolding(crate::specs::Script::calls_text))]
fn push_calls(out: &mut Vec<u8>, tasks: &[CallList]) -> Result<(), NoMemory>
    ensures { OnOk result (out.new.items ≡ out.old.items ++ calls_text tasks.now) }
{
    out.extend_from_slice(GOOD_SCRIPT)?;
    push_tasks(out, tasks, 0)?;
    out.extend_from_slice(RUN_SCRIPT)?;
    Ok(())
}

// What is said of a script by its first fault.
#[tactic(auto, unfolding(crate::specs::Script::found_text))]
fn push_found(
    out: &mut Vec<u8>,
    alloc: Global,
    bytes: &[u8],
    fault: Option<ScriptFault>,
) -> Result<(), NoMemory>
    requires short { length bytes.now < 2 ^ 32 - 1 }
    requires first { fault ≡ first_fault bytes.now }
    ensures { OnOk result (out.new.items ≡ out.old.items ++ found_text bytes.now fault) }
{
    match fault {
        None => {
            let script = good_script(alloc, bytes)?;
            push_calls(out, &script.tasks)?;
            Ok(())
        }
        Some(fault) => push_script_fault(out, bytes, fault),
    }
}

/// What is said of a script.
#[tactic(auto, unfolding(crate::specs::Script::script_text))]
pub fn push_script(out: &mut Vec<u8>, alloc: Global, bytes: &[u8]) -> Result<(), NoMemory>
    requires { length bytes.now < 2 ^ 32 - 1 }
    ensures { OnOk result (out.new.items ≡ out.old.items ++ script_text bytes.now) }
{
    if bytes.len() > CARD_LIMIT {
        out.extend_from_slice(LONG_SCRIPT)?;
        return Ok(());
    }
    let fault = fault_of(alloc, bytes)?;
    push_found(out, alloc, bytes, fault)
}
