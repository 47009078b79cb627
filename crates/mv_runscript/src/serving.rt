//! The calls that leave the requests of the task unchanged: each makes one service, and has that service's answer
//! (`specs/Making.antt`, `specs/Served.antt`).

ghost use Rattle.std.specs.Prelude.{◌≡◌, ◌<◌, ◌≤◌, ◌+◌, ◌*◌, false, length, Option};
ghost use Rattle.std.specs.List.{AllByRecursion};
ghost use Rattle.mv_wait.specs.Prelude.{code_limit, release_cost, Table, IsSoundTable, MayCall};
ghost use Rattle.mv_calls.specs.Services as service;
ghost use Rattle.mv_scriptline.specs.declared.call.Call.TheVariants as call;
ghost use Rattle.mv_script.specs.Prelude.{cost, obtain_meant, event_count, position_count, is_obtain, IfThere, named_table};
ghost use Rattle.mv_runscript.specs.Making.{MakesCall, AreOfLatches, IsForScripts, is_wait, AreGoodIn};
ghost use Rattle.mv_runscript.specs.Served.{MakesService};

use crate::answered::{
    allocated, cleared, deallocated, entered, extended, freed, handed_out, paused, posted, purged,
    released, standing, transferred, waited,
};
use crate::trying::{try_post, try_release_token};
use mv_calls::ValidTable;
use mv_events::{next_event, post_event};
use mv_latchset::{LatchToken, check_latch, purge, release_latch};
use mv_pause::{allocate, deallocate, pause, release, test_element, transfer};
use mv_script::{Answer, Call, Slots};
use mv_task::end_of_task;
use mv_wait::{Station, Task};
use std::sync::Wait;
use std::time::Clock;

/// Makes a WAIT, with room for what it finds, and returns its answer.
pub(crate) fn wait_in<R: Wait + Clock>(
    station: &Station,
    rt: &R,
    task: &mut Task,
    count: u32,
    ecbs: &[u32],
    room: Slots,
) -> Answer
    requires task { MayCall station.now (2 * length ecbs.now) task.old }
    requires blocks { AllByRecursion (λ e. e < length station.now.config.owners) ecbs.now }
    requires room { length ecbs.now ≤ length room }
    ensures { MakesService station.now.config (service.Wait count ecbs.now) result task.old task.new }
{
    let Slots { mut slots } = room;
    slots.truncate(ecbs.len());
    let outcome = station.wait(rt, task, count, ecbs, &mut slots);
    waited(outcome, Slots { slots })
}

/// Makes a call other than WAIT and OBTAIN, of a task whose OBTAINs got these requests, and returns its answer.
pub(crate) fn serve<R: Wait + Clock>(
    station: &Station,
    rt: &R,
    task: &mut Task,
    table: &Option<ValidTable>,
    call: &Call,
    requests: &[Option<LatchToken>],
) -> Answer
    requires config { IsForScripts station.now.config }
    requires table { IfThere (IsSoundTable station.now.config) table.now }
    requires task { MayCall station.now (cost station.now.config call.now) task.old }
    requires numbers { AreGoodIn station.now.config table.now call.now }
    requires obtain { IfThere (λ k. (1 ≤ k) × (k ≤ length requests.now)) (obtain_meant call.now) }
    requires requests { AreOfLatches requests.now }
    requires other { (is_wait call.now ≡ false) × (is_obtain call.now ≡ false) }
    ensures { MakesCall station.now.config table.now call.now result requests.now requests.now task.old task.new }
{
    match call {
        Call::Wait { .. } | Call::Obtain { .. } => unreachable!(),
        Call::Post { ecb, code } => posted(station.post(rt, task, *ecb, *code)),
        Call::TryPost { ecb, place, code } => try_post(station, task, *ecb, *place, *code),
        Call::Clear(ecb) => cleared(station.clear(rt, task, *ecb)),
        Call::Extend { ecb, exit } => extended(station.extend(rt, task, *ecb, *exit)),
        Call::Test(ecb) => Answer::Word(station.test_ecb(task, *ecb)),
        Call::Read(volume) => Answer::Value(station.read_volume(task, *volume)),
        Call::Write { volume, number } => {
            station.write_volume(rt, task, *volume, *number);
            Answer::Done
        }
        Call::Alloc => allocated(allocate(station, rt, task)),
        Call::Pause(token) => paused(pause(station, rt, task, *token)),
        Call::Release { token, code } => released(release(station, rt, task, *token, *code)),
        Call::TryRelease { token, place, code } => {
            try_release_token(station, task, *token, *place, *code)
        }
        Call::Transfer {
            current,
            target,
            code,
        } => transferred(transfer(station, rt, task, *current, *target, *code)),
        Call::Dealloc(token) => deallocated(deallocate(station, rt, task, *token)),
        Call::TestElement(element) => Answer::State(test_element(station, task, *element)),
        Call::Check(obtain) => check(station, rt, task, requests, *obtain),
        Call::Free {
            obtain,
            conditional,
        } => free(station, rt, task, requests, *obtain, *conditional),
        Call::Purge(requestor) => purged(purge(station, rt, task, *requestor)),
        Call::EndTask {
            requestor,
            mother,
            code,
        } => purged(end_of_task(station, rt, task, *requestor, *mother, *code)),
        Call::PostEvent { index, code } => event_posted(station, rt, task, table, *index, *code),
        Call::NextEvent(position) => event_taken(station, rt, task, table, *position),
    }
}

/// Makes an EVPOST of an event of the script's table.
fn event_posted<R: Wait + Clock>(
    station: &Station,
    rt: &R,
    task: &mut Task,
    table: &Option<ValidTable>,
    index: u32,
    code: u32,
) -> Answer
    requires table { IfThere (IsSoundTable station.now.config) table.now }
    requires task { MayCall station.now (6 + release_cost station.now.config) task.old }
    requires index { index < event_count table.now }
    requires code { code < code_limit }
    ensures { MakesService station.now.config (service.PostEvent (named_table table.now) index code) result task.old task.new }
{
    match table {
        Some(table) => entered(post_event(station, rt, task, table, index, code)),
        None => unreachable!(),
    }
}

/// Makes an EVNEXT of a position of the script's table.
fn event_taken<R: Wait + Clock>(
    station: &Station,
    rt: &R,
    task: &mut Task,
    table: &Option<ValidTable>,
    position: u32,
) -> Answer
    requires table { IfThere (IsSoundTable station.now.config) table.now }
    requires task { MayCall station.now 3 task.old }
    requires position { position < position_count table.now }
    ensures { MakesService station.now.config (service.NextEvent (named_table table.now) position) result task.old task.new }
{
    match table {
        Some(table) => handed_out(next_event(station, rt, task, table, position)),
        None => unreachable!(),
    }
}

/// Makes a CHECK of the request that this OBTAIN of the task got, if it got one.
fn check<R: Wait>(
    station: &Station,
    rt: &R,
    task: &mut Task,
    requests: &[Option<LatchToken>],
    obtain: u32,
) -> Answer
    requires config { IsForScripts station.now.config }
    requires task { MayCall station.now 1 task.old }
    requires obtain { (1 ≤ obtain) × (obtain ≤ length requests.now) }
    requires requests { AreOfLatches requests.now }
    ensures { (table : Option Table) → MakesCall station.now.config table (call.Check obtain) result
        requests.now requests.now task.old task.new }
{
    match requests[obtain as usize - 1] {
        Some(token) => standing(check_latch(station, rt, task, token)),
        None => Answer::NoToken,
    }
}

/// Makes a FREE of the request that this OBTAIN of the task got, if it got one.
fn free<R: Wait>(
    station: &Station,
    rt: &R,
    task: &mut Task,
    requests: &[Option<LatchToken>],
    obtain: u32,
    conditional: bool,
) -> Answer
    requires config { IsForScripts station.now.config }
    requires task { MayCall station.now (release_cost station.now.config) task.old }
    requires obtain { (1 ≤ obtain) × (obtain ≤ length requests.now) }
    requires requests { AreOfLatches requests.now }
    ensures { (table : Option Table) → MakesCall station.now.config table (call.Free obtain conditional) result
        requests.now requests.now task.old task.new }
{
    match requests[obtain as usize - 1] {
        Some(token) => freed(release_latch(station, rt, task, token, conditional)),
        None => Answer::NoToken,
    }
}
