//! The judgement of a list of entries with call numbers. `specs/CallsReplay.antt` says why a list is refused.

ghost use Rattle.std.specs.Prelude.{◌≡◌, ◌≢◌, ◌<◌, ◌≤◌, ◌^◌, [], All, length, IfOk, OnOk, IfErr, MatchOption};
ghost use Rattle.mv_machine.specs.Prelude.{Legal, after, highest_place, TakePosts, IsOrderly, system_of, wakes_of, IsOpenedWith};
ghost use Rattle.mv_machine.specs.Prelude.{last_wakes};
ghost use Rattle.mv_calls.specs.CallsReplay.{IsReplayed, IsIllegalRefused, IsCallsRefused};
ghost use Rattle.mv_calls.specs.Judge.{HasJudged};
ghost use Rattle.mv_calls.specs.Numbers.{calls as calls_of};

use crate::judge::Judge;
use mv_io::NoMemory;
use mv_machine::{Entry, Illegal, ReplayRefusal, State, ValidConfig, replay};
use std::alloc::Global;
use thiserror::Error;

/// Why a list of entries with call numbers was not replayed to its end.
#[derive(Clone, Copy, Debug, PartialEq, Eq, Error)]
pub enum CallsRefusal {
    /// The list is not legal. The entries before this one have their call numbers.
    #[error("{0}")]
    Illegal(Illegal),
    /// This entry is the first that does not have its call number.
    #[error("entry {index} has the call number {kept}, and not {machine}")]
    Number {
        /// The entry's index, counted from 0.
        index: usize,
        /// The call number that the entry has.
        kept: u32,
        /// The number of its caller's call that the entry belongs to.
        machine: u32,
    },
    /// There was not enough memory; the list was not judged.
    #[error("there is not enough memory for the machine")]
    NoMemory,
}

impl From<NoMemory> for CallsRefusal {
    ghost use Rattle.mv_calls.specs.declared.calls_replaying.CallsRefusal.TheVariants as refusal;

    ghost from_gives = { λ _ r. r ≡ refusal.NoMemory };

    fn from(_: NoMemory) -> CallsRefusal {
        CallsRefusal::NoMemory
    }
}

impl From<ReplayRefusal> for CallsRefusal {
    ghost use Rattle.mv_calls.specs.CallsReplay.{of_replay};

    ghost from_gives = { λ refusal r. r ≡ of_replay refusal };

    fn from(refusal: ReplayRefusal) -> CallsRefusal {
        match refusal {
            ReplayRefusal::Illegal(illegal) => CallsRefusal::Illegal(illegal),
            ReplayRefusal::NoMemory => CallsRefusal::NoMemory,
        }
    }
}

// Returns the refusal of a list that is known not to be legal.
fn refuse(alloc: Global, config: &ValidConfig, entries: &[Entry]) -> CallsRefusal
    requires places { All (λ e. e.place ≤ highest_place) entries.now }
    requires illegal { ¬ Legal config.now entries.now }
    ensures { IsIllegalRefused config.now entries.now result }
{
    match replay(alloc, config, entries) {
        Ok(_) => unreachable!(),
        Err(refusal) => CallsRefusal::from(refusal),
    }
}

// Judges the entries from the first one on, as long as each is the machine's and has its call number. Returns the refusal of
// the first that is not so.
fn first_refusal(
    alloc: Global,
    config: &ValidConfig,
    judge: &mut Judge,
    entries: &[Entry],
    calls: &[u32],
) -> Option<CallsRefusal>
    requires opened { HasJudged config.now [] judge.old }
    requires few { length entries.now < 2 ^ 32 }
    requires places { All (λ e. e.place ≤ highest_place) entries.now }
    requires numbers { length calls.now ≡ length entries.now }
    ensures { MatchOption result (IsReplayed config.now entries.now calls.now judge.new)
        (λ r. IsCallsRefused config.now entries.now calls.now r) }
{
    for (index, entry) in entries.iter().enumerate() {
        match judge.next(config, entry) {
            Some(machine) => {
                if machine != calls[index] {
                    return Some(CallsRefusal::Number {
                        index,
                        kept: calls[index],
                        machine,
                    });
                }
            }
            None => return Some(refuse(alloc, config, &entries[..=index])),
        }
    }
    None
}

/// Replays a list of entries with their call numbers, one number for each entry in the same order. Returns the state after the
/// list if the list is legal and each entry has its call number. It does not check the budgets. It takes time linear in the
/// list.
///
/// # Errors
///
/// Returns the first entry that is not the machine's (`Illegal`) or has another number (`Number`); an entry that is both is
/// `Illegal`. Returns `NoMemory` if there is not enough memory to judge the list.
///
/// # Examples
///
/// From `crates/mv_program/src/tests/refused_lists.rt`, a list with a call number that is not its call's:
///
/// ```
/// let judged = replay_calls(alloc, &config, &entries, &[0, 7]);
/// ```
#[tactic(auto, using(crate::proofs::call_numbers::Refused::refused_is_wrong))]
pub fn replay_calls(
    alloc: Global,
    config: &ValidConfig,
    entries: &[Entry],
    calls: &[u32],
) -> Result<State, CallsRefusal>
    requires few { length entries.now < 2 ^ 32 }
    requires places { All (λ e. e.place ≤ highest_place) entries.now }
    requires numbers { length calls.now ≡ length entries.now }
    ensures legal { OnOk result (Legal config.now entries.now) }
    ensures numbers { OnOk result (calls.now ≡ calls_of config.now entries.now) }
    ensures after { IfOk result (λ s. system_of s ≡ after config.now entries.now) }
    ensures wakes { IfOk result (λ s. wakes_of s ≡ last_wakes config.now entries.now) }
    ensures opened { IfOk result (λ s. IsOpenedWith config.now s) }
    ensures orderly { OnOk result (IsOrderly config.now entries.now) }
    ensures posts { OnOk result (TakePosts entries.now) }
    ensures refused { IfErr result (λ r. IsCallsRefused config.now entries.now calls.now r) }
    ensures not_both { IfErr result (λ r. r ≢ CallsRefusal.NoMemory
        → Legal config.now entries.now → calls.now ≡ calls_of config.now entries.now → ⊥) }
{
    let mut judge = Judge::open(alloc, config)?;
    match first_refusal(alloc, config, &mut judge, entries, calls) {
        Some(refusal) => Err(refusal),
        None => Ok(judge.state()),
    }
}
