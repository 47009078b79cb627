//! Whether a journal is legal, and which of its events is the first that is not: `specs/Judged.antt`.

ghost use Rattle.std.specs.Prelude.{◌≡◌, ℕ, ◌<◌, ◌≤◌, ◌^◌, List, All, length, IfOk};
ghost use Rattle.mv_entrytext.specs.Fault.{HasJournal, IsTextIn};
ghost use Rattle.mv_config.specs.Limits.{highest_place};
ghost use Rattle.mv_explain.specs.Judged.{IsVerdict};

use mv_calls::{CallsRefusal, replay_calls};
use mv_entrytext::Journal;
use mv_io::NoMemory;
use mv_machine::{Entry, Illegal, ReplayRefusal, ValidConfig, replay};
use std::alloc::Global;

/// What the events of a journal were found to be. Events are counted from 0.
#[derive(Clone, Copy, Debug, PartialEq, Eq)]
pub enum Verdict {
    /// They are legal, and in version 2 have their call numbers.
    Legal,
    /// This is the first that the machine does not make so.
    Illegal(Illegal),
    /// The machine makes each up to this one so, and this is the first that has another call number.
    Misnumbered {
        index: usize,
        /// The number that it has.
        kept: u32,
        /// The number of its task's call that it belongs to.
        machine: u32,
    },
}

// Judges the events of a journal of this version, as `replay_calls` does, and in version 1 as `replay` does.
fn judge(
    alloc: Global,
    version: u32,
    config: &ValidConfig,
    entries: &[Entry],
    calls: &[u32],
) -> Result<Verdict, NoMemory>
    requires few { length entries.now < 2 ^ 32 }
    requires places { All (λ e. e.place ≤ highest_place) entries.now }
    requires numbers { version ≡ 2 → length calls.now ≡ length entries.now }
    ensures { IfOk result (λ verdict. IsVerdict version config.now entries.now calls.now verdict) }
{
    if version != 2 {
        return match replay(alloc, config, entries) {
            Ok(_) => Ok(Verdict::Legal),
            Err(ReplayRefusal::Illegal(illegal)) => Ok(Verdict::Illegal(illegal)),
            // out of memory: they were not judged.
            Err(ReplayRefusal::NoMemory) => Err(NoMemory),
        };
    }
    match replay_calls(alloc, config, entries, calls) {
        Ok(_) => Ok(Verdict::Legal),
        Err(CallsRefusal::Illegal(illegal)) => Ok(Verdict::Illegal(illegal)),
        Err(
            CallsRefusal::Number {
                index,
                kept,
                machine,
            },
        ) => Ok(Verdict::Misnumbered {
            index,
            kept,
            machine,
        }),
        // out of memory: they were not judged.
        Err(CallsRefusal::NoMemory) => Err(NoMemory),
    }
}

/// Judges a journal that was read from some bytes.
pub(crate) fn judge_journal(alloc: Global, journal: &Journal) -> Result<Verdict, NoMemory>
    requires journal { HasJournal journal.now.config journal.now.entries.items }
    requires read { (bytes : List ℕ)
        × IsTextIn journal.now.version bytes journal.now.config journal.now.entries.items journal.now.calls.items }
    ensures { IfOk result (λ verdict.
        IsVerdict journal.now.version journal.now.config journal.now.entries.items journal.now.calls.items verdict) }
{
    judge(
        alloc,
        journal.version,
        &journal.config,
        &journal.entries,
        &journal.calls,
    )
}
