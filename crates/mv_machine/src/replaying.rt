//! The judgement of a list of entries: whether it is legal, and otherwise its first illegal entry, by specs/Legal.antt and
//! specs/Replay.antt.

ghost use Rattle.std.specs.Prelude.{◌≡◌, ◌≢◌, ◌<◌, ◌≤◌, ◌↔◌, IsTrue, MatchOption, OnOk, IfOk, IfErr, All, Some};
ghost use Rattle.mv_machine.specs.declared.entry.Object.{Object as AnyObject};
ghost use Rattle.mv_machine.specs.Legal.{Legal, LegalFrom, after, after_from};
ghost use Rattle.mv_config.specs.Limits.{highest_place, place_limit};
ghost use Rattle.mv_machine.specs.OnePost.{TakePosts};
ghost use Rattle.mv_machine.specs.Orderly.{IsOrderly};
ghost use Rattle.mv_machine.specs.Replay.{IsFirstIllegal, IsRefused};
ghost use Rattle.mv_machine.specs.State.{system_of, wakes_of, IsOpenedWith};
ghost use Rattle.mv_machine.specs.System.{place_of};
ghost use Rattle.mv_machine.specs.Told.{last_wakes, last_wakes_from};

use crate::entry::{Entry, Reply};
use crate::state::State;
use mv_config::ValidConfig;
use mv_io::NoMemory;
use std::alloc::Global;
use thiserror::Error;

/// The first entry that is not the one that the machine makes.
#[derive(Clone, Copy, Debug, PartialEq, Eq, Error)]
#[error("entry {index} is not the machine's next")]
pub struct Illegal {
    /// The entry's index, counted from 0.
    pub index: usize,
    /// The place and the reply of the entry.
    pub kept: (u32, Reply),
    /// The place and the reply that the machine gives, or `None` if it does not admit the operation.
    pub machine: Option<(u32, Reply)>,
}

/// Why a list of entries was not replayed to its end.
#[derive(Clone, Copy, Debug, PartialEq, Eq, Error)]
pub enum ReplayRefusal {
    /// The list is not legal.
    #[error("{0}")]
    Illegal(Illegal),
    /// There was no memory for the opening state; the list was not judged.
    #[error("there is not enough memory for the machine")]
    NoMemory,
}

impl From<NoMemory> for ReplayRefusal {
    ghost use Rattle.mv_machine.specs.declared.replaying.ReplayRefusal.TheVariants as refusal;

    ghost from_gives = { λ _ r. r ≡ refusal.NoMemory };

    fn from(_: NoMemory) -> ReplayRefusal {
        ReplayRefusal::NoMemory
    }
}

/// Steps the machine through a list of entries, from the opening state on. Returns the state after the list if the list is
/// legal.
///
/// It does not check the budgets. The places are at most 524,286, as in every run. It takes the time of one step of the machine
/// for each entry, and no memory but that of the opening state.
///
/// # Errors
///
/// Returns the first entry that is not the machine's if the list is not legal, or `NoMemory` if there is no memory for the
/// opening state.
///
/// # Examples
///
/// From `crates/mv_handover/src/main.rt`:
///
/// ```
/// let listed = history.listed(rt.alloc())?;
/// let legal = replay(rt.alloc(), &listed.config, &listed.journal).is_ok();
/// ```
pub fn replay(
    alloc: Global,
    config: &ValidConfig,
    entries: &[Entry],
) -> Result<State, ReplayRefusal>
    requires places { All (λ e. e.place ≤ highest_place) entries.now }
    ensures legal { OnOk result (Legal config.now entries.now) }
    ensures after { IfOk result (λ s. system_of s ≡ after config.now entries.now) }
    ensures wakes { IfOk result (λ s. wakes_of s ≡ last_wakes config.now entries.now) }
    ensures opened { IfOk result (λ s. IsOpenedWith config.now s) }
    ensures refused { IfErr result (λ r. IsRefused config.now entries.now r) }
    ensures not_legal { IfErr result (λ r. r ≢ ReplayRefusal.NoMemory → ¬ Legal config.now entries.now) }
    ensures orderly { OnOk result (IsOrderly config.now entries.now) }
    ensures posts { OnOk result (TakePosts entries.now) }
{
    let mut state = State::opening(alloc, config)?;
    match first_illegal(&mut state, config, entries) {
        Some(illegal) => Err(ReplayRefusal::Illegal(illegal)),
        None => Ok(state),
    }
}

// Steps through the entries as long as they are the machine's. No contract gives the state after an illegal entry.
fn first_illegal(state: &mut State, config: &ValidConfig, entries: &[Entry]) -> Option<Illegal>
    requires opened { IsOpenedWith config.now state.old }
    requires places { All (λ e. e.place ≤ highest_place) entries.now }
    requires at_most { (o : AnyObject) → place_of (system_of state.old) o < place_limit }
    ensures legal { MatchOption result (LegalFrom config.now (system_of state.old) entries.now)
        (λ i. IsFirstIllegal config.now (system_of state.old) entries.now i) }
    ensures after { MatchOption result (system_of state.new ≡ after_from (system_of state.old) entries.now) (λ _. Unit {0}) }
    ensures wakes { MatchOption result (wakes_of state.new ≡ last_wakes_from (system_of state.old) (wakes_of state.old) entries.now)
        (λ _. Unit {0}) }
    ensures opened { MatchOption result (IsOpenedWith config.now state.new) (λ _. Unit {0}) }
{
    for (i, e) in entries.iter().enumerate() {
        let machine = state.advance(config, e.caller, e.object, e.op);
        if !is_answer(machine, e.place, e.reply) {
            return Some(Illegal {
                index: i,
                kept: (e.place, e.reply),
                machine,
            });
        }
    }
    None
}

// Returns whether the machine's answer is this place and this reply.
fn is_answer(machine: Option<(u32, Reply)>, place: u32, reply: Reply) -> bool
    ensures { IsTrue result ↔ (machine ≡ Some (place, reply)) }
{
    match machine {
        Some((p, r)) => p == place && r.is_same(reply),
        None => false,
    }
}
