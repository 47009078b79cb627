//! The judgement of a text that is in memory already. Its clauses cite specs/Judgement and specs/Outcome.

ghost use Rattle.std.specs.Prelude.{◌≤◌, length, IfOk, IfErr};
ghost use Rattle.mv_machine.specs.State.{system_of, wakes_of, IsOpenedWith};
ghost use Rattle.mv_replay.specs.Judgement.{journal_limit, IsReplayed};
ghost use Rattle.mv_replay.specs.Outcome.{IsAsked};

use crate::command::JournalCommand;
use crate::judging::judge;
use crate::reading::JOURNAL_LIMIT;
use crate::status::ReplayStatus;
use mv_machine::{State, ValidConfig};
use std::alloc::Global;

/// A legal journal, replayed.
#[derive(Drop)]
pub struct ReplayedJournal {
    /// The number of its entries.
    pub count: u32,
    pub config: ValidConfig,
    /// The machine after its entries, which can make the next step.
    pub state: State,
}

/// Judges a text of at most 67,108,864 bytes that is in memory, and returns the machine after its entries: if it is the text of a
/// journal, its entries are legal, and in version 2 they have their call numbers.
///
/// It makes no copy of the text, and keeps no list of the entries. It takes the time of `judge_journal`.
///
/// # Errors
///
/// `TooLong`, `Text` or `Illegal` if that is what the text is, and `NoMemory`.
///
/// # Examples
///
/// The verdict for a C caller. From `crates/mv_oracle/src/verdict.rt`:
///
/// ```
/// match judge_text(alloc, journal) {
///     Ok(replayed) => Verdict::legal(replayed.count),
///     Err(status) => Verdict::refused(status),
/// }
/// ```
pub fn judge_text(alloc: Global, bytes: &[u8]) -> Result<ReplayedJournal, ReplayStatus>
    ensures short { IfOk result (λ _. length bytes.now ≤ journal_limit) }
    ensures replayed { IfOk result (λ j. IsReplayed bytes.now j.count j.config (system_of j.state) (wakes_of j.state)) }
    ensures opened { IfOk result (λ j. IsOpenedWith j.config j.state) }
    ensures refused { IfErr result (λ status. IsAsked bytes.now status) }
{
    if bytes.len() > JOURNAL_LIMIT {
        return Err(ReplayStatus::TooLong);
    }
    let judged = judge(alloc, JournalCommand::Replay, bytes)?;
    Ok(ReplayedJournal {
        count: judged.count,
        config: judged.config,
        state: judged.judge.state(),
    })
}
