//! Runs of a script after which no task can go on. Clauses cite `specs/SoFar.antt` and `specs/Standing.antt`.

ghost use Rattle.std.specs.Prelude.{◌≡◌, ◌<◌, ◌↔◌, length, IfOk, IsTrue};
ghost use Rattle.mv_machine.specs.State.{system_of};
ghost use Rattle.mv_pollscript.specs.SoFar.{IsQuiescent, IsRunSoFar};
ghost use Rattle.mv_pollscript.specs.Standing.{can_go_on as may_go_on, standing_in};
ghost use Rattle.mv_script.specs.Script.{script_data};
ghost use Rattle.mv_script.specs.Sound.{IsSound};

use crate::run::{RunSoFar, run_once};
use crate::standing::{Standing, task_standing};
use mv_io::NoMemory;
use mv_script::Script;
use std::alloc::Global;
use std::sync::Wait;
use std::time::Clock;

/// Runs a script on this thread until no task can go on, and returns the events and the answers.
///
/// The first poll is that of task `seed mod n` of the n tasks, and each later one that of the next task; after the last task comes task 0.
/// A task that is polled makes its calls until one waits for what has not happened. It stops for good before a TRANSFER that pauses, an
/// EVPOST or an EVNEXT, since these are not polled. After n polls in a row by which no task got further the run ends. Each task is then
/// checked in the state that the run left: if one can go on, the script is run again from its beginning, with the next seed.
///
/// # Errors
///
/// `NoMemory` if memory runs out; then nothing is said of what was done.
pub fn run_so_far<R: Wait + Clock>(
    rt: &R,
    alloc: Global,
    script: &Script,
    mut seed: u32,
) -> Result<RunSoFar, NoMemory>
    requires { IsSound (script_data script.now) }
    ensures so_far { IfOk result (IsRunSoFar (script_data script.now)) }
    ensures quiescent { IfOk result (IsQuiescent (script_data script.now)) }
{
    for _ in rt.forever() {
        let run = run_once(rt, alloc, script, seed)?;
        if is_quiescent(script, &run) {
            return Ok(run);
        }
        seed = seed.wrapping_add(1);
    }
    unreachable!()
}

// Returns whether no task can go on in the state that the run left.
fn is_quiescent(script: &Script, run: &RunSoFar) -> bool
    requires sound { IsSound (script_data script.now) }
    requires run { IsRunSoFar (script_data script.now) run.now }
    ensures { IsTrue result ↔ IsQuiescent (script_data script.now) run.now }
{
    for task in 0..script.tasks.len() as u32 {
        if can_go_on(script, run, task) {
            return false;
        }
    }
    true
}

// Returns whether a task can go on in the state that the run left.
fn can_go_on(script: &Script, run: &RunSoFar, task: u32) -> bool
    requires run { IsRunSoFar (script_data script.now) run.now }
    requires task { task < length script.now.tasks.items }
    ensures { result ≡ may_go_on (standing_in (system_of run.now.state) script.now.tasks.items run.now.answers.items task) }
{
    matches!(task_standing(script, run, task), Standing::CanGoOn)
}
