//! The run of a script. Clauses cite `specs/RunOf.antt` and `specs/Rooms.antt`.

ghost use Rattle.std.specs.Prelude.{◌≡◌, ◌≤◌, [], length, map, vec_capacity, IfOk};
ghost use Rattle.mv_config.specs.Check.{IsValid};
ghost use Rattle.mv_script.specs.Script.{script_data};
ghost use Rattle.mv_script.specs.Sound.{IsSound};
ghost use Rattle.mv_runscript.specs.Rooms.{script_with};
ghost use Rattle.mv_runscript.specs.RunOf.{IsScriptRunOf};

use crate::making::Making;
use crate::room::{Room, rooms_for};
use mv_attach::run_tasks;
use mv_calls::ValidTable;
use mv_io::NoMemory;
use mv_machine::{History, ValidConfig};
use mv_script::{AnswerList, CallList, Script, copy_config};
use mv_wait::Station;
use std::alloc::Global;
use std::sync::Wait;
use std::thread::Threads;
use std::time::Clock;

/// What a run of a script leaves: the history of its tasks' events, and the answer of each of their calls.
#[derive(Drop)]
pub struct ScriptRun {
    /// All events, in an order in which they may have happened, with the configuration of the script.
    pub history: History,
    /// For each task a list with the answer of each of its calls.
    pub answers: Vec<AnswerList>,
}

/// Runs a script, each of its tasks on a thread, and returns the history and the answers.
///
/// All memory that the tasks use is taken before the first of them starts. The call may never return: nothing promises that
/// another task ends a wait.
///
/// # Errors
///
/// `NoMemory` if memory runs out, before any task starts.
pub fn run_script<R: Threads + Wait + Clock + Sync>(
    rt: &R,
    alloc: Global,
    script: &Script,
) -> Result<ScriptRun, NoMemory>
    requires { IsSound (script_data script.now) }
    ensures { IfOk result (IsScriptRunOf (script_data script.now)) }
{
    let config = copy_config(alloc, &script.config)?;
    run_station(rt, alloc, config, &script.table, &script.tasks)
}

// Opens a station of this configuration, has its tasks make their calls, and closes it.
fn run_station<R: Threads + Wait + Clock + Sync>(
    rt: &R,
    alloc: Global,
    config: ValidConfig,
    table: &Option<ValidTable>,
    tasks: &[CallList],
) -> Result<ScriptRun, NoMemory>
    requires sound { IsSound (script_with config table.now tasks.now) }
    requires valid { IsValid config }
    ensures { IfOk result (IsScriptRunOf (script_with config table.now tasks.now)) }
{
    let lists = Vec::with_capacity(alloc, tasks.len())?;
    let rooms = rooms_for(alloc, tasks)?;
    let (station, new) = Station::open(alloc, config)?;
    let making = Making { table, tasks };
    let (ended, rooms) = run_tasks(rt, alloc, &station, &making, new, rooms)?;
    let closed = station.close(ended);
    Ok(ScriptRun {
        history: closed.history,
        answers: lists_of(rooms, lists),
    })
}

// The answers of each task, put into `room`.
fn lists_of(rooms: Vec<Room>, room: Vec<AnswerList>) -> Vec<AnswerList>
    requires { (room.items ≡ []) × (length rooms.items ≤ vec_capacity room) }
    ensures { result.items ≡ map (λ room. room.answers.items) rooms.items }
{
    let mut lists = room;
    for room in rooms {
        let Room { answers, .. } = room;
        lists.push_reserved(AnswerList { answers });
    }
    lists
}
