//! One run of a script on this thread, until no task goes on. Clauses cite `specs/SoFar.antt` and `specs/Task.antt`.

ghost use Rattle.std.specs.Prelude.{◌≡◌, length, map, IfOk};
ghost use Rattle.std.specs.List.{AllByRecursion};
ghost use Rattle.mv_config.specs.Check.{IsValid};
ghost use Rattle.mv_pollscript.specs.SoFar.{IsRunSoFar};
ghost use Rattle.mv_pollscript.specs.Task.{AreTasksAt, IsNewTask};
ghost use Rattle.mv_runscript.specs.Rooms.{script_with};
ghost use Rattle.mv_script.specs.Script.{script_data};
ghost use Rattle.mv_script.specs.Sound.{IsSound};

use crate::task::ScriptTask;
use mv_calls::ValidTable;
use mv_io::NoMemory;
use mv_machine::{Entry, Listed, State, ValidConfig};
use mv_script::{AnswerList, CallList, Script, copy_config};
use mv_wait::{Station, Task};
use std::alloc::Global;
use std::sync::Wait;
use std::time::Clock;

/// What the tasks of a script have done: the events, the state that these leave, and the answers of the calls that have one.
#[derive(Drop)]
pub struct RunSoFar {
    /// The configuration of the script.
    pub config: ValidConfig,
    /// All events, in an order in which they may have happened.
    pub journal: Vec<Entry>,
    /// The state of each object after the last event.
    pub state: State,
    /// For each task a list with the answers of its calls so far.
    pub answers: Vec<AnswerList>,
}

/// Runs a script on this thread once, in the order that `run_so_far` describes, until no task goes on.
///
/// # Errors
///
/// `NoMemory` if memory runs out; then nothing is said of what was done.
pub(crate) fn run_once<R: Wait + Clock>(
    rt: &R,
    alloc: Global,
    script: &Script,
    seed: u32,
) -> Result<RunSoFar, NoMemory>
    requires { IsSound (script_data script.now) }
    ensures { IfOk result (IsRunSoFar (script_data script.now)) }
{
    let config = copy_config(alloc, &script.config)?;
    run_station(rt, alloc, config, &script.table, &script.tasks, seed)
}

// Opens a station of this configuration, polls its tasks until none goes on, and closes it.
fn run_station<R: Wait + Clock>(
    rt: &R,
    alloc: Global,
    config: ValidConfig,
    table: &Option<ValidTable>,
    lists: &[CallList],
    seed: u32,
) -> Result<RunSoFar, NoMemory>
    requires sound { IsSound (script_with config table.now lists.now) }
    requires valid { IsValid config }
    ensures { IfOk result (IsRunSoFar (script_with config table.now lists.now)) }
{
    let (station, new) = Station::open(alloc, config)?;
    let tasks = all_new(alloc, new)?;
    let polled = poll_all(rt, alloc, &station, table, lists, seed, tasks)?;
    let (back, answers) = parted(alloc, polled)?;
    let closed = station.close(back);
    let Listed {
        config,
        journal,
        state,
    } = closed.history.listed(alloc)?;
    Ok(RunSoFar {
        config,
        journal,
        state,
        answers,
    })
}

// Makes a task that has made no call of each of these.
fn all_new(alloc: Global, tasks: Vec<Task>) -> Result<Vec<ScriptTask>, NoMemory>
    ensures new { IfOk result (λ ps. AllByRecursion IsNewTask ps.items) }
    ensures tasks { IfOk result (λ ps. map (λ p. p.task) ps.items ≡ tasks.items) }
{
    let mut all = Vec::with_capacity(alloc, tasks.len())?;
    for task in tasks {
        let one = ScriptTask::new(alloc, task);
        all.push_reserved(one);
    }
    Ok(all)
}

// Polls the tasks in rounds until none of them goes on.
fn poll_all<R: Wait + Clock>(
    rt: &R,
    alloc: Global,
    station: &Station,
    table: &Option<ValidTable>,
    lists: &[CallList],
    seed: u32,
    mut tasks: Vec<ScriptTask>,
) -> Result<Vec<ScriptTask>, NoMemory>
    requires sound { IsSound (script_with station.now.config table.now lists.now) }
    requires count { length tasks.items ≡ length lists.now }
    requires tasks { AreTasksAt station.now table.now lists.now tasks.items }
    ensures count { IfOk result (λ polled. length polled.items ≡ length lists.now) }
    ensures tasks { IfOk result (λ polled. AreTasksAt station.now table.now lists.now polled.items) }
{
    let count = tasks.len();
    let mut place = seed as usize % count;
    // How many polls in a row found no task that goes on.
    let mut quiet = 0;
    for _ in rt.forever() {
        if quiet >= count {
            break;
        }
        let list = &lists[place];
        if tasks[place].poll(rt, alloc, station, table, &list.calls)? {
            quiet = 0;
        } else {
            quiet += 1;
        }
        place = (place + 1) % count;
    }
    Ok(tasks)
}

// Splits the polled tasks into tasks and answers.
fn parted(alloc: Global, polled: Vec<ScriptTask>) -> Result<(Vec<Task>, Vec<AnswerList>), NoMemory>
    ensures tasks { IfOk result (λ r. r.0.items ≡ map (λ p. p.task) polled.items) }
    ensures answers { IfOk result (λ r. r.1.items ≡ map (λ p. p.answers.items) polled.items) }
{
    let mut tasks = Vec::with_capacity(alloc, polled.len())?;
    let mut lists = Vec::with_capacity(alloc, polled.len())?;
    for one in polled {
        let ScriptTask { task, answers, .. } = one;
        tasks.push_reserved(task);
        lists.push_reserved(AnswerList { answers });
    }
    Ok((tasks, lists))
}
