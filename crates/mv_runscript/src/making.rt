//! All calls of a task, one after the other, on its thread. Clauses cite `specs/Making.antt` and `specs/Rooms.antt`.

ghost use Rattle.std.specs.Prelude.{[], slice_index_or};
ghost use Rattle.mv_wait.specs.Prelude.{IsSoundTable, MayCall};
ghost use Rattle.mv_script.specs.Costs.{costs_of};
ghost use Rattle.mv_script.specs.Sound.{IfThere, IsSound};
ghost use Rattle.mv_runscript.specs.Making.{IsForScripts, AreSoundIn, MakesCalls};
ghost use Rattle.mv_runscript.specs.Rooms.{HasRoom, HasMade, script_with};

use crate::calling::make_call;
use crate::room::Room;
use mv_attach::Work;
use mv_calls::ValidTable;
use mv_script::{Call, CallList};
use mv_wait::{Station, Task};
use std::sync::Wait;
use std::time::Clock;

/// The work of the tasks of a script: each makes the calls of its list.
#[derive(Drop)]
pub(crate) struct Making<'a> {
    pub table: &'a Option<ValidTable>,
    pub tasks: &'a [CallList],
}

impl Work for Making<'_> {
    type Room = Room;

    ghost can_start = { λ m b k room. IsSound (script_with b.config m.table.now m.tasks.now)
        × HasRoom (slice_index_or m.tasks.now k []) room };

    ghost has_done = { λ m b k old t new. HasMade b m.table.now (slice_index_or m.tasks.now k []) k new t };

    fn work<R: Wait + Clock>(&self, station: &Station, rt: &R, task: &mut Task, room: &mut Room) {
        let list = &self.tasks[task.number() as usize];
        make_all(station, rt, task, self.table, &list.calls, room);
    }
}

// Makes these calls in order, and keeps the answer of each.
fn make_all<R: Wait + Clock>(
    station: &Station,
    rt: &R,
    task: &mut Task,
    table: &Option<ValidTable>,
    calls: &[Call],
    room: &mut Room,
)
    requires config { IsForScripts station.now.config }
    requires table { IfThere (IsSoundTable station.now.config) table.now }
    requires sound { AreSoundIn station.now.config table.now [] calls.now }
    requires task { MayCall station.now (costs_of station.now.config calls.now) task.old }
    requires room { HasRoom calls.now room.old }
    ensures { MakesCalls station.now.config table.now calls.now room.new.answers.items [] room.new.requests.items task.old task.new }
{
    for call in calls {
        let answer = make_call(
            station,
            rt,
            task,
            table,
            call,
            &mut room.requests,
            &mut room.slots,
        );
        room.answers.push_reserved(answer);
    }
}
