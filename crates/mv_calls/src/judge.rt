//! The judge, which judges and numbers a list of entries, one entry at a time. `specs/Judge.antt` says what has been judged so
//! far.

ghost use Rattle.std.specs.Prelude.{◌≡◌, ◌<◌, ◌≤◌, ◌-◌, ◌^◌, ◌↔◌, List, [], Some, length, IfOk, IsTrue};
ghost use Rattle.std.specs.Prelude.{MatchBool, MatchOption};
ghost use Rattle.mv_machine.specs.Prelude.{highest_place, Setup as AnySetup, after, system_of, wakes_of, IsOpenedWith, place_of, last_wakes};
ghost use Rattle.mv_machine.specs.declared.entry.Entry.{Entry as AnyEntry};
ghost use Rattle.mv_calls.specs.Judge.{HasJudged, IsJudgedNext, IsUnfitNext};

use crate::counters::CallCounters;
use mv_io::NoMemory;
use mv_machine::{Entry, HIGHEST_PLACE, Object, Reply, State, ValidConfig};
use std::alloc::Global;

/// A judge after a legal list of entries: the machine in its state after the list, and the counters of the callers. It keeps
/// none of the entries.
#[derive(Drop)]
pub struct Judge {
    state: State,
    counters: CallCounters,
}

// Returns whether an object has had as many events as the places of entries count.
fn is_full(state: &State, object: Object) -> bool
    ensures { MatchBool result (highest_place < place_of (system_of state.now) object)
        (place_of (system_of state.now) object ≤ highest_place) }
{
    state.has(object) && state.place(object) > HIGHEST_PLACE
}

// Returns whether the machine's answer is the place and the reply of the entry.
fn is_answer(machine: Option<(u32, Reply)>, entry: &Entry) -> bool
    ensures { IsTrue result ↔ (machine ≡ Some (entry.now.place, entry.now.reply)) }
{
    match machine {
        Some((place, reply)) => place == entry.place && reply.is_same(entry.reply),
        None => false,
    }
}

impl Judge {
    /// Opens a judge before the first entry. All memory is taken here.
    ///
    /// # Errors
    ///
    /// Returns `NoMemory` if there is not enough memory for the state and the counters.
    pub fn open(alloc: Global, config: &ValidConfig) -> Result<Judge, NoMemory>
        ensures { IfOk result (λ j. HasJudged config.now [] j) }
    {
        let state = State::opening(alloc, config)?;
        let counters = CallCounters::open(alloc, config)?;
        Ok(Judge { state, counters })
    }

    /// Judges one more entry after a legal list of fewer than 2^32 - 1 entries. Returns the number of its caller's call that
    /// the entry belongs to, or `None` if the entry is not the machine's next one.
    ///
    /// It does not check the budgets. It takes the time of one step of the machine. After it has returned `None`, no contract
    /// says what it returns.
    ///
    /// # Examples
    ///
    /// From `crates/mv_calls/src/numbering.rt`:
    ///
    /// ```
    /// match judge.next(config, entry) {
    ///     Some(number) => numbers.push(number)?,
    ///     None => unreachable!(),
    /// }
    /// ```
    pub fn next(&mut self, config: &ValidConfig, entry: &Entry) -> Option<u32>
        requires judged { (es : List AnyEntry) × HasJudged config.now es self.old × (length es < 2 ^ 32 - 1) }
        requires place { entry.now.place ≤ highest_place }
        ensures { (es : List AnyEntry) → HasJudged config.now es self.old → MatchOption result
            (IsUnfitNext config.now es entry.now)
            (λ n. IsJudgedNext config.now es entry.now n self.new) }
    {
        // `step` needs a place that an entry can have, and a full object's place is above all of these.
        if is_full(&self.state, entry.object) {
            return None;
        }
        let machine = self
            .state
            .step(config, entry.caller, entry.object, entry.op);
        if !is_answer(machine, entry) {
            return None;
        }
        let number = self.counters.count(config, entry, self.state.wakes());
        Some(number)
    }

    /// Returns the machine in its state after the list.
    pub fn state(self) -> State
        ensures after { (c : AnySetup) (es : List AnyEntry) → HasJudged c es self → system_of result ≡ after c es }
        ensures wakes { (c : AnySetup) (es : List AnyEntry) → HasJudged c es self → wakes_of result ≡ last_wakes c es }
        ensures opened { (c : AnySetup) (es : List AnyEntry) → HasJudged c es self → IsOpenedWith c result }
    {
        self.state
    }
}
