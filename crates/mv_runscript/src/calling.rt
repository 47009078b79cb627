//! One call of a script, of any kind (`specs/Making.antt`).

ghost use Rattle.std.specs.Prelude.{◌≡◌, ◌<◌, ◌≤◌, ◌+◌, true, length, count_by, vec_capacity, [], ◌∷◌};
ghost use Rattle.mv_wait.specs.Prelude.{IsSoundTable, MayCall};
ghost use Rattle.mv_script.specs.Costs.{cost};
ghost use Rattle.mv_script.specs.Fault.{obtain_meant};
ghost use Rattle.mv_script.specs.Script.{is_obtain};
ghost use Rattle.mv_script.specs.Sound.{IfThere};
ghost use Rattle.mv_runscript.specs.Making.{MakesCall, AreOfLatches, HaveSlots, IsForScripts, is_wait, token_in, AreGoodIn};

use crate::answered::obtained;
use crate::serving::{serve, wait_in};
use mv_calls::ValidTable;
use mv_latchset::{LatchToken, ObtainRefusal, Obtained, obtain};
use mv_script::{Answer, Call, Slots};
use mv_wait::{Station, Task};
use std::sync::Wait;
use std::time::Clock;

/// Returns the token of the request that an OBTAIN got, if it got one.
pub fn request_in(outcome: Result<Obtained, ObtainRefusal>) -> Option<LatchToken>
    ensures { result ≡ token_in outcome }
{
    match outcome {
        Ok(Obtained::Granted(token)) => Some(token),
        Ok(Obtained::Pending(token)) => Some(token),
        Err(_) => None,
    }
}

/// Makes a call of a task whose OBTAINs got these requests, and returns its answer.
///
/// A WAIT takes one of the rooms. An OBTAIN appends the request that it got, or `None`, to `requests`. The call parks and wakes
/// as its service does, and takes no memory.
pub fn make_call<R: Wait + Clock>(
    station: &Station,
    rt: &R,
    task: &mut Task,
    table: &Option<ValidTable>,
    call: &Call,
    requests: &mut Vec<Option<LatchToken>>,
    rooms: &mut Vec<Slots>,
) -> Answer
    requires config { IsForScripts station.now.config }
    requires table { IfThere (IsSoundTable station.now.config) table.now }
    requires task { MayCall station.now (cost station.now.config call.now) task.old }
    requires numbers { AreGoodIn station.now.config table.now call.now }
    requires obtain { IfThere (λ k. (1 ≤ k) × (k ≤ length requests.old.items)) (obtain_meant call.now) }
    requires requests { AreOfLatches requests.old.items }
    requires room { is_obtain call.now ≡ true → length requests.old.items < vec_capacity requests.old }
    requires slots { HaveSlots rooms.old.items }
    requires rooms { count_by is_wait (call.now ∷ []) ≤ length rooms.old.items }
    ensures makes { MakesCall station.now.config table.now call.now result requests.old.items requests.new.items task.old task.new }
    ensures requests { AreOfLatches requests.new.items }
    ensures count { length requests.new.items ≡ length requests.old.items + count_by is_obtain (call.now ∷ []) }
    ensures capacity { vec_capacity requests.new ≡ vec_capacity requests.old }
    ensures slots { HaveSlots rooms.new.items }
    ensures rooms { length rooms.old.items ≤ length rooms.new.items + count_by is_wait (call.now ∷ []) }
{
    match call {
        Call::Wait { count, ecbs } => {
            let Some(room) = rooms.pop() else {
                unreachable!()
            };
            wait_in(station, rt, task, *count, &ecbs.numbers, room)
        }
        Call::Obtain {
            latch,
            requestor,
            mode,
            form,
        } => {
            let outcome = obtain(station, rt, task, *latch, *requestor, *mode, *form);
            requests.push_reserved(request_in(outcome));
            obtained(outcome)
        }
        _ => serve(station, rt, task, table, call, requests),
    }
}
