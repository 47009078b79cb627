//! How many events of a journal each task made: `specs/ByTask.antt`.

ghost use Rattle.std.specs.Prelude.{◌≡◌, ◌-◌, ◌++◌, ◌==◌, count_by, OnOk};
ghost use Rattle.mv_explain.specs.ByTask.{by_task_text, one_task_text};

use crate::sentences::{BY_TASK, MADE};
use mv_io::NoMemory;
use mv_line::push_number;
use mv_machine::Entry;

fn count_of(entries: &[Entry], task: u32) -> usize
    ensures { result ≡ count_by (λ e. e.caller == task) entries.now }
{
    entries.iter().filter(|entry| entry.caller == task).count()
}

// Says how many events a task made.
#[tactic(auto, unfolding(crate::specs::ByTask::one_task_text))]
fn push_task(out: &mut Vec<u8>, entries: &[Entry], task: u32) -> Result<(), NoMemory>
    ensures { OnOk result (out.new.items ≡ out.old.items ++ one_task_text entries.now task) }
{
    push_number(out, BY_TASK, u64::from(task))?;
    push_number(out, MADE, count_of(entries, task) as u64)?;
    out.push(b'\n')?;
    Ok(())
}

/// Says how many events each task made, from this one on, of `tasks` in all.
#[tactic(auto, using(crate::proofs::TaskCounts::by_task_end, crate::proofs::TaskCounts::by_task_step))]
pub(crate) fn push_by_task(
    out: &mut Vec<u8>,
    entries: &[Entry],
    from: u32,
    tasks: u32,
) -> Result<(), NoMemory>
    ensures { OnOk result (out.new.items ≡ out.old.items ++ by_task_text entries.now from (tasks - from)) }
{
    if from >= tasks {
        return Ok(());
    }
    push_task(out, entries, from)?;
    push_by_task(out, entries, from + 1, tasks)
}
