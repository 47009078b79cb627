//! The one history whose parts are the callers' logs, by specs/Merge.antt, specs/History.antt and specs/Room.antt.

ghost use Rattle.std.specs.Prelude.{◌≡◌, [], ◌++◌, All, length, IfOk, MatchOption, None};
ghost use Rattle.std.specs.List.{AllByRecursion};
ghost use Rattle.mv_machine.specs.History.{IsGiven, StandsIn};
ghost use Rattle.mv_machine.specs.Legal.{Legal, after};
ghost use Rattle.mv_machine.specs.Merge.{pick, merged as merged_logs, AreOneHistory};
ghost use Rattle.mv_machine.specs.Parts.{parts};
ghost use Rattle.mv_machine.specs.Room.{IsRoomFor, IsPicked, lefts};
ghost use Rattle.mv_machine.specs.State.{Exists, IsOpenedWith, system_of, wakes_of};
ghost use Rattle.mv_machine.specs.System.{place_of};
ghost use Rattle.mv_machine.specs.Told.{last_wakes};

use crate::entry::Entry;
use crate::log::Log;
use crate::state::State;
use mv_config::ValidConfig;
use mv_io::NoMemory;
use std::alloc::Global;
use std::marker::Model;

/// The memory of one history: `History::new` takes it, and so allocates none.
#[derive(Drop)]
pub struct MergeRoom {
    // The machine before the first entry.
    state: State,
    // For each log, how many of its entries were given: 0.
    merged: Vec<usize>,
}

impl MergeRoom {
    /// Allocates the room for the history of a run of this configuration.
    ///
    /// # Errors
    ///
    /// Returns `NoMemory` if there is not enough memory for that.
    pub fn new(alloc: Global, config: &ValidConfig) -> Result<MergeRoom, NoMemory>
        ensures { IfOk result (λ r. IsRoomFor config.now r) }
    {
        let state = State::opening(alloc, config)?;
        let merged = vec![in alloc; 0; config.config().callers as usize]?;
        Ok(MergeRoom { state, merged })
    }
}

// The next pick of a merge: an entry, its caller, and how many of the caller's entries are merged after it.
#[derive(Clone, Copy)]
struct Picked {
    caller: usize,
    merged: usize,
    entry: Entry,
}

// Returns the next entry of the lowest-numbered caller whose next entry has its object's next place.
fn ready(logs: &[Log], merged: &[usize], state: &State) -> Option<Picked>
    requires merged { length merged.now ≡ length logs.now }
    requires objects { AllByRecursion (λ log. AllByRecursion (λ e. Exists state.now e.object) log) logs.now }
    ensures { MatchOption result (pick (place_of (system_of state.now)) (lefts merged.now logs.now) ≡ None)
        (λ p. IsPicked (place_of (system_of state.now)) merged.now logs.now p) }
{
    for (caller, log) in logs.iter().enumerate() {
        let from = merged[caller];
        if let Some((object, place)) = log.subject(from) {
            if state.place(object) == place {
                let Some(entry) = log.get(from) else {
                    unreachable!()
                };
                return Some(Picked {
                    caller,
                    merged: from + 1,
                    entry,
                });
            }
        }
    }
    None
}

/// The one history of some callers, kept as their logs: it gives the entries in their order, each once, and takes the machine
/// through them. Each time, the lowest-numbered caller whose next entry has its object's next place gives that entry. It needs
/// no memory; an entry costs at most one look at each log.
#[derive(Drop)]
pub struct History {
    config: ValidConfig,
    logs: Vec<Log>,
    // The machine after the entries that were given: it has the place of each object's next entry.
    state: State,
    // For each log, how many of its entries were given.
    merged: Vec<usize>,
}

impl Model for History {
    ghost use Rattle.mv_machine.specs.History.{HistoryFace};
    ghost use Rattle.mv_machine.specs.Room.{history_of, IsHistory};

    ghost Value = { HistoryFace };

    ghost view = { history_of };

    ghost invariant = { IsHistory };
}

/// A history as a list.
#[derive(Drop)]
pub struct Listed {
    /// The configuration of the history.
    pub config: ValidConfig,
    pub journal: Vec<Entry>,
    /// The state of each object after the last entry.
    pub state: State,
}

impl History {
    /// Makes the history of which these logs are the callers' parts, in the order of the callers' numbers. No entry of it is
    /// given yet.
    pub fn new(config: ValidConfig, logs: Vec<Log>, room: MergeRoom) -> History
        requires history { AreOneHistory config logs.items }
        requires room { IsRoomFor config room }
        ensures config { result.config ≡ config }
        ensures past { result.past ≡ [] }
        ensures coming { result.coming ≡ merged_logs logs.items }
        ensures legal { Legal config result.coming }
        ensures parts { parts config.callers result.coming ≡ logs.items }
    {
        let MergeRoom { state, merged } = room;
        History {
            config,
            logs,
            state,
            merged,
        }
    }

    /// Returns the configuration of the history.
    pub fn config(&self) -> &ValidConfig
        ensures { result.now ≡ self.now.config }
    {
        &self.config
    }

    /// Returns the callers' logs, in the order of the callers' numbers: they hold the entries that were given and those to
    /// come.
    pub fn logs(&self) -> &[Log]
        ensures logs { parts self.now.config.callers (self.now.past ++ self.now.coming) ≡ result.now }
        ensures coming { All (StandsIn result.now) self.now.coming }
    {
        &self.logs
    }

    /// Returns the machine after the last entry that was given, with the wakes of the last event on the latch set.
    pub fn state(&self) -> &State
        ensures state { system_of result.now ≡ after self.now.config self.now.past }
        ensures wakes { wakes_of result.now ≡ last_wakes self.now.config self.now.past }
        ensures opened { IsOpenedWith self.now.config result.now }
    {
        &self.state
    }

    /// Gives the next entry, and makes its step on the machine. Returns `None` after the last entry.
    pub fn next(&mut self) -> Option<Entry>
        ensures { MatchOption result ((self.old.coming ≡ []) × (self.new ≡ self.old)) (λ e. IsGiven self.old e self.new) }
    {
        let picked = ready(&self.logs, &self.merged, &self.state)?;
        let entry = picked.entry;
        self.merged[picked.caller] = picked.merged;
        self.state
            .step(&self.config, entry.caller, entry.object, entry.op);
        Some(entry)
    }

    /// Returns the entries that are still to come as a list, with the state after the last one.
    ///
    /// # Errors
    ///
    /// Returns `NoMemory` if there is not enough memory for the list; the history is then dropped.
    pub fn listed(self, alloc: Global) -> Result<Listed, NoMemory>
        ensures config { IfOk result (λ listed. listed.config ≡ self.config) }
        ensures journal { IfOk result (λ listed. listed.journal.items ≡ self.coming) }
        ensures state { IfOk result (λ listed. system_of listed.state ≡ after self.config (self.past ++ self.coming)) }
        ensures wakes { IfOk result (λ listed. wakes_of listed.state ≡ last_wakes self.config (self.past ++ self.coming)) }
        ensures opened { IfOk result (λ listed. IsOpenedWith self.config listed.state) }
    {
        let mut history = self;
        let mut journal = Vec::new(alloc);
        while let Some(entry) = history.next() {
            journal.push(entry)?;
        }
        let History { config, state, .. } = history;
        Ok(Listed {
            config,
            journal,
            state,
        })
    }
}
