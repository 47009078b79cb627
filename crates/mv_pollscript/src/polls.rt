//! The polls of a script's calls: each returns the answer of its call once it has one (`specs/Polls.antt`).

ghost use Rattle.std.specs.Prelude.{◌≡◌, OnOk};
ghost use Rattle.mv_board.specs.Faces.{CallerFace, IsOf, IsSame};
ghost use Rattle.mv_calls.specs.Services as service;
ghost use Rattle.mv_polled.specs.Pausing.{IsPauseAt};
ghost use Rattle.mv_polled.specs.Waiting.{IsWaitAt};
ghost use Rattle.mv_pollscript.specs.Polls.{IfAnswered, IfSettled};
ghost use Rattle.mv_runscript.specs.Served.{MakesService};

use mv_io::NoMemory;
use mv_polled::{PauseCall, Turn, WaitCall};
use mv_runscript::{paused, waited};
use mv_script::{Answer, Slots};
use mv_wait::{Station, Task};
use std::alloc::Global;
use std::sync::Wait;

/// Polls a wait, and returns the answer of its WAIT once it has one. It takes memory for what the blocks were found to be.
///
/// # Errors
///
/// `NoMemory` if memory runs out. The wait may be over then.
pub(crate) fn poll_wait<R: Wait>(
    rt: &R,
    alloc: Global,
    station: &Station,
    task: &mut Task,
    call: &mut WaitCall,
) -> Result<Option<Answer>, NoMemory>
    requires task { IsOf station.now task.old }
    requires stage { (t : CallerFace) × IsWaitAt station.now.config call.old t task.old }
    ensures call { (call.new.count ≡ call.old.count) × (call.new.ecbs ≡ call.old.ecbs) }
    ensures turn { (t : CallerFace) → IsWaitAt station.now.config call.old t task.old → IfAnswered result
        (λ a. MakesService station.now.config (service.Wait call.old.count call.old.ecbs) a t task.new)
        (IsWaitAt station.now.config call.new t task.new) }
{
    match call.poll(station, rt, task) {
        Turn::Pending => Ok(None),
        Turn::Ready(outcome) => {
            let mut slots = Vec::new(alloc);
            slots.extend_from_slice(call.slots())?;
            Ok(Some(waited(outcome, Slots { slots })))
        }
    }
}

/// Polls a pause, and returns the answer of its PAUSE once it has one.
pub(crate) fn poll_pause<R: Wait>(
    station: &Station,
    rt: &R,
    task: &mut Task,
    call: &mut PauseCall,
) -> Option<Answer>
    requires task { IsOf station.now task.old }
    requires stage { (t : CallerFace) × IsPauseAt station.now.config call.old t task.old }
    ensures call { call.new.token ≡ call.old.token }
    ensures turn { (t : CallerFace) → IsPauseAt station.now.config call.old t task.old → IfSettled result
        (λ a. MakesService station.now.config (service.Pause call.old.token) a t task.new)
        (IsPauseAt station.now.config call.new t task.new) }
{
    match call.poll(station, rt, task) {
        Turn::Pending => None,
        Turn::Ready(outcome) => Some(paused(outcome)),
    }
}
