//! A service that works in rounds, and the rounds. Clauses cite `specs/Round.antt`.

ghost use Rattle.std.specs.Prelude.{◌≡◌, ◌<◌, ℕ, true, false, IfOk, OnOk};
ghost use Rattle.mv_wait.specs.Prelude.{Setup};
ghost use Rattle.mv_rounds.specs.Round.{CanRun, IsRound};

use crate::round::{ClosedRound, Round, run_round};
use mv_attach::Work;
use mv_wait::NoMemory;
use std::alloc::Global;
use std::sync::Wait;
use std::thread::Threads;
use std::time::Clock;

/// A service that works in rounds. The value is what is carried from one round to the next: the caller's own state, and the numbers of
/// the volumes, if the next round needs them.
pub trait Service {
    /// What the tasks of a round do.
    type Tasks: Work + Sync + Drop;

    // what holds between two rounds, of the service before its first round and of the service now
    ghost holds_between: { Self → Self → Type 0 };

    // what holds during a round with this configuration and this work, of the service before its first round and of the service now
    ghost holds_during: { Self → Self → Setup → Self.Tasks → Type 0 };

    // what holds when no round is to come
    ghost has_ended: { Self → Type 0 };

    // at most how many rounds are still to come
    ghost rounds_left: { Self → ℕ };

    /// Returns whether no round is to come.
    fn is_over(&self) -> bool
        ensures over { result ≡ true → has_ended self.now }
        ensures goes_on { result ≡ false → 0 < rounds_left self.now };

    /// Begins a round: returns the configuration of its station, the work of its tasks, and a room for each.
    ///
    /// # Errors
    ///
    /// `NoMemory` if memory runs out.
    fn begin(&mut self, alloc: Global) -> Result<Round<Self::Tasks>, NoMemory>
        requires between { (first : _) × holds_between first self.old }
        requires more { 0 < rounds_left self.old }
        ensures can_run { IfOk result (λ round. CanRun Self.Tasks.can_start round.config round.work round.rooms.items) }
        ensures during { IfOk result (λ round. (first : _) → holds_between first self.old
            → holds_during first self.new round.config round.work) }
        ensures left { OnOk result (rounds_left self.new ≡ rounds_left self.old) };

    /// Ends a round: keeps what is carried over to the next one.
    ///
    /// # Errors
    ///
    /// `NoMemory` if memory runs out.
    fn end(&mut self, round: ClosedRound<<Self::Tasks as Work>::Room>) -> Result<(), NoMemory>
        requires round { (first : _) × (work : _) × holds_during first self.old round.history.config work
            × IsRound Self.Tasks.can_start Self.Tasks.has_done round.history.config work round.rooms.items round.volumes
            round.history.journal.items }
        requires more { 0 < rounds_left self.old }
        ensures between { OnOk result ((first : _) (work : _) → holds_during first self.old round.history.config work
            → IsRound Self.Tasks.can_start Self.Tasks.has_done round.history.config work round.rooms.items round.volumes
            round.history.journal.items → holds_between first self.new) }
        ensures fewer { OnOk result (rounds_left self.new < rounds_left self.old) };
}

/// Runs round after round of a service, until none is to come.
///
/// Each round has a station that is opened for it and closed, and its history is judged before the next round begins. What holds between
/// two rounds holds after the last one.
///
/// # Errors
///
/// `NoMemory` if memory runs out in a round; no further round begins.
///
/// # Examples
///
/// From `crates/mv_server/src/rounds.rt`, whose service has the requests that are left and the answers so far:
///
/// ```
/// let mut service = Requests {
///     all: requests,
///     rest: requests,
///     round,
///     answers: Vec::new(alloc),
/// };
/// run_rounds(rt, alloc, &mut service)?;
/// Ok(service.answers)
/// ```
pub fn run_rounds<R: Threads + Wait + Clock + Sync, S: Service>(
    rt: &R,
    alloc: Global,
    service: &mut S,
) -> Result<(), NoMemory>
    requires { S.holds_between service.old service.old }
    ensures between { OnOk result (S.holds_between service.old service.new) }
    ensures ended { OnOk result (S.has_ended service.new) }
{
    while !service.is_over() {
        let Round {
            config,
            work,
            rooms,
        } = service.begin(alloc)?;
        let round = run_round(rt, alloc, config, &work, rooms)?;
        service.end(round)?;
    }
    Ok(())
}
