//! The requests of the latch that an event is about, before the event: `specs/LatchState.antt`.

ghost use Rattle.std.specs.Prelude.{◌≡◌, ◌++◌, length, OnOk};
ghost use Rattle.mv_calls.specs.Prelude.{list_of, IsOpenedWith, system_of};
ghost use Rattle.mv_explain.specs.LatchState.{latch_named, latch_of as latch_of_op, latch_text, mode_text, request_text};
ghost use Rattle.mv_explain.specs.LatchState.{requestor_text, requests_text, whose_text};

use crate::sentences::{AT_LATCH, EXCLUSIVE, OF_REQUESTOR, OF_TASK, REQUEST, SHARED};
use mv_io::NoMemory;
use mv_latch::{LatchOp, Mode, Request};
use mv_line::push_number;
use mv_machine::{Op, State, ValidConfig};

// The latch that an operation on the latch set names.
fn latch_named(op: LatchOp) -> Option<u32>
    ensures { result ≡ latch_named op }
{
    match op {
        LatchOp::Obtain { latch, .. }
        | LatchOp::Confirm { latch, .. }
        | LatchOp::Release { latch, .. } => Some(latch),
        LatchOp::Purge { .. } => None,
    }
}

/// The latch that an operation names, if it is one on the latch set.
pub(crate) fn latch_of(op: Op) -> Option<u32>
    ensures { result ≡ latch_of_op op }
{
    match op {
        Op::Latch(op) => latch_named(op),
        Op::Ecb(_) | Op::Element(_) | Op::Volume(_) => None,
    }
}

fn push_mode(out: &mut Vec<u8>, mode: Mode) -> Result<(), NoMemory>
    ensures { OnOk result (out.new.items ≡ out.old.items ++ mode_text mode) }
{
    match mode {
        Mode::Shared => out.extend_from_slice(SHARED)?,
        Mode::Exclusive => out.extend_from_slice(EXCLUSIVE)?,
    }
    Ok(())
}

// Says for which requestor a request is made.
#[tactic(auto, unfolding(crate::specs::LatchState::requestor_text))]
fn push_requestor(out: &mut Vec<u8>, requestor: u64) -> Result<(), NoMemory>
    ensures { OnOk result (out.new.items ≡ out.old.items ++ requestor_text requestor) }
{
    push_number(out, OF_REQUESTOR, requestor)
}

// Says which task makes a request, and for which requestor.
#[tactic(auto, unfolding(crate::specs::LatchState::whose_text))]
fn push_whose(out: &mut Vec<u8>, caller: u32, requestor: u64) -> Result<(), NoMemory>
    ensures { OnOk result (out.new.items ≡ out.old.items ++ whose_text caller requestor) }
{
    push_number(out, OF_TASK, u64::from(caller))?;
    push_requestor(out, requestor)
}

// Shows a request at a latch.
#[tactic(auto, unfolding(crate::specs::LatchState::request_text))]
fn push_request(out: &mut Vec<u8>, latch: u32, request: &Request) -> Result<(), NoMemory>
    ensures { OnOk result (out.new.items ≡ out.old.items ++ request_text latch request.now) }
{
    push_number(out, AT_LATCH, u64::from(latch))?;
    push_number(out, REQUEST, u64::from(request.id))?;
    push_whose(out, request.caller, request.requestor)?;
    push_mode(out, request.mode)
}

// Shows each of these requests at a latch.
fn push_requests(out: &mut Vec<u8>, latch: u32, requests: &[Request]) -> Result<(), NoMemory>
    ensures { OnOk result (out.new.items ≡ out.old.items ++ requests_text latch requests.now) }
{
    match requests {
        [] => Ok(()),
        [request, others @ ..] => {
            push_request(out, latch, request)?;
            push_requests(out, latch, others)
        }
    }
}

/// Shows the requests of a latch, if the latch exists.
pub(crate) fn push_latch(
    out: &mut Vec<u8>,
    config: &ValidConfig,
    state: &State,
    latch: Option<u32>,
) -> Result<(), NoMemory>
    requires { IsOpenedWith config.now state.now }
    ensures { OnOk result (out.new.items ≡ out.old.items ++ latch_text config.now (system_of state.now) latch) }
{
    let Some(latch) = latch else {
        return Ok(());
    };
    if latch >= config.config().latches {
        return Ok(());
    }
    push_requests(out, latch, state.requests(latch))
}
