//! What others did to a table, which no script shows, since a script keeps all other calls from its table; and the example of
//! the head of mv_events. Scripts test what tables hand out, and the posts and next events of tasks that wait for each other.

ghost use Rattle.std.specs.Prelude.{◌≡◌, ◌<◌, length};
ghost use Rattle.mv_ecb.specs.Table.{code_limit};
ghost use Rattle.mv_board.specs.Faces.{IsFresh, IsOf};
ghost use Rattle.mv_calls.specs.Rest.{IsAtRest};
ghost use Rattle.mv_calls.specs.Table.{IsSoundTable};

use mv_events::{
    Event, EventAnswer, NextRefusal, PostEventRefusal, Table, TableRefusal, ValidTable, next_event,
    post_event,
};
use mv_machine::Config;
use mv_wait::{Station, Task};
use std::alloc::Global;
use std::process::Abort;
use std::sync::Wait;
use std::time::Clock;

// A table of three events, with a slot for each, of task 0.
const TABLE: Table = Table {
    owner: 0,
    latch: 0,
    volume: 0,
    events: 0,
    slots: 3,
    size: 3,
};

// The completion bit of a block's word.
const COMPLETE: u32 = 1 << 30;

// A new station with one latch, one volume and six blocks, and its one task.
fn open(rt: &impl Abort, alloc: Global) -> (Station, Task)
    ensures task { IsFresh result.0 0 result.1 }
    ensures volumes { result.0.config.volumes ≡ 1 }
    ensures blocks { length result.0.config.owners ≡ 6 }
{
    let config = Config {
        callers: 1,
        elements_per_caller: 1,
        volumes: 1,
        latches: 1,
        quota: 1,
        posted_quota: 0,
        budgets: vec![in alloc; 100].expect(rt, "room for a budget"),
        owners: vec![in alloc; 0; 6].expect(rt, "room for owners"),
        exits: Vec::new(alloc),
    };
    let config = config.check(alloc).expect(rt, "a configuration");
    let (station, mut tasks) = Station::open(alloc, config).expect(rt, "memory for a station");
    let task = station.take_last(&mut tasks);
    (station, task)
}

// Drops a station and its task. A test that dropped them itself would take many times as long to prove.
fn end(_station: Station, _task: Task) {}

// The table, checked against a station's configuration.
fn checked(station: &Station, rt: &impl Abort) -> ValidTable
    ensures { IsSoundTable station.now.config result }
{
    match TABLE.check(station.config()) {
        Ok(table) => table,
        Err(_) => panic!(rt; "refused"),
    }
}

// ---- the calls, of a task at rest that is asserted to have the events for them

#[tactic(auto, using(mv_wait::proofs::Compose::served))]
fn post<R: Abort + Wait + Clock>(
    station: &Station,
    rt: &R,
    task: &mut Task,
    table: &ValidTable,
    index: u32,
    code: u32,
) -> Result<EventAnswer, PostEventRefusal>
    requires task { IsOf station.now task.old }
    requires rest { IsAtRest task.old.log }
    requires table { IsSoundTable station.now.config table.now }
    requires code { code < code_limit }
    ensures task { IsOf station.now task.new }
    ensures rest { IsAtRest task.new.log }
{
    assert!(rt; index < table.table().size);
    let most = 6 + u64::from(station.config().release_cost());
    assert!(rt; most <= u64::from(task.left()));
    post_event(station, rt, task, table, index, code)
}

#[tactic(auto, using(mv_wait::proofs::Compose::served))]
fn next<R: Abort + Wait + Clock>(
    station: &Station,
    rt: &R,
    task: &mut Task,
    table: &ValidTable,
    position: u32,
) -> Result<Event, NextRefusal>
    requires task { IsOf station.now task.old }
    requires rest { IsAtRest task.old.log }
    requires table { IsSoundTable station.now.config table.now }
    ensures task { IsOf station.now task.new }
    ensures rest { IsAtRest task.new.log }
{
    assert!(rt; task.left() >= 3);
    next_event(station, rt, task, table, position)
}

// ---- one task

// An event that was posted with this code.
fn complete(index: u32, code: u32) -> Event {
    Event {
        index,
        word: COMPLETE | code,
    }
}

// Posts two events, and one of them again, and takes both in the order in which they completed.
#[tactic(auto, using(mv_wait::proofs::Compose::served))]
fn take_in_order<R: Abort + Wait + Clock>(
    station: &Station,
    rt: &R,
    task: &mut Task,
    table: &ValidTable,
)
    requires task { IsOf station.now task.old }
    requires rest { IsAtRest task.old.log }
    requires table { IsSoundTable station.now.config table.now }
    requires size { table.now.size ≡ 3 }
{
    let cost = u64::from(station.config().release_cost());
    assert!(rt; 3 * (6 + cost) + 6 <= u64::from(task.left()));
    assert!(rt; post_event(station, rt, task, table, 2, 7) == Ok(EventAnswer::Entered(0)));
    assert!(rt; post_event(station, rt, task, table, 0, 9) == Ok(EventAnswer::Entered(1)));
    assert!(rt; post_event(station, rt, task, table, 2, 8) == Ok(EventAnswer::Already(7)));
    assert!(rt; next_event(station, rt, task, table, 0) == Ok(complete(2, 7)));
    assert!(rt; next_event(station, rt, task, table, 1) == Ok(complete(0, 9)));
}

#[test]
fn events_are_taken_in_the_order_of_completion(rt: HostRuntime) {
    let (station, mut task) = open(&rt, rt.alloc());
    let table = checked(&station, &rt);
    assert!(rt; table.table().size == 3);
    take_in_order(&station, &rt, &mut task, &table);
    end(station, task);
}

// Writes the table's volume, and posts a slot with a code that is not an event's index.
#[tactic(auto, using(mv_wait::proofs::Compose::served))]
fn break_a_table<R: Abort + Wait + Clock>(station: &Station, rt: &R, task: &mut Task)
    requires task { IsOf station.now task.old }
    requires rest { IsAtRest task.old.log }
    requires volumes { station.now.config.volumes ≡ 1 }
    requires blocks { length station.now.config.owners ≡ 6 }
{
    let table = checked(station, rt);
    assert!(rt; task.left() > 0);
    station.write_volume(rt, task, 0, 3);
    let posted = post(station, rt, task, &table, 1, 5);
    assert!(rt; posted == Err(PostEventRefusal::Broken(3)));
    assert!(rt; station.config().reach(3) <= task.left());
    station.post(rt, task, 3, 40);
    let next = next(station, rt, task, &table, 0);
    assert!(rt; next == Err(NextRefusal::Strange(40)));
}

#[test]
fn what_others_did_to_the_table_is_told(rt: HostRuntime) {
    let (station, mut task) = open(&rt, rt.alloc());
    break_a_table(&station, &rt, &mut task);
    end(station, task);
}

// A TABLE statement can name only volumes that the configuration of its script has, so no script shows this refusal.
#[test]
fn a_table_of_no_volume_is_refused(rt: HostRuntime) {
    let (station, task) = open(&rt, rt.alloc());
    let mut other = TABLE;
    other.volume = 1;
    let checked = other.check(station.config());
    assert!(rt; matches!(checked, Err(TableRefusal::BadVolume)));
    end(station, task);
}

// ---- texts

#[test]
fn a_refusal_has_a_text(rt: HostRuntime) {
    let text = format!(in rt.alloc(); "{}", NextRefusal::Strange(40)).expect(
        &rt,
        "room for a text",
    );
    assert!(rt; text.as_str() == "the slot was posted with 40, which is not an event of the table");
}
