//! A service that outlives its stations. A station has a budget of events for its life, so requests without a limit are answered
//! in rounds, each on a new station. Clauses cite `specs/Pool.antt` and `specs/Rounds.antt`.

ghost use Rattle.std.specs.Prelude.{◌≡◌, ◌<◌, ◌≤◌, ◌++◌, [], length, map, IfOk, OnOk};
ghost use Rattle.std.specs.List.{AllByRecursion};
ghost use Rattle.mv_rounds.specs.Round.{IsRound};
ghost use Rattle.mv_server.specs.Pool.{requests_limit, weeks_limit, days_in};
ghost use Rattle.mv_server.specs.Rounds.{HasServed, IsServing};

use crate::server::{Pool, pool_config, rooms_for};
use mv_attach::Work;
use mv_rounds::{ClosedRound, Round, Service, run_rounds};
use mv_wait::NoMemory;
use std::alloc::Global;
use std::sync::Wait;
use std::thread::Threads;
use std::time::Clock;

// The service between two rounds.
#[derive(Drop)]
struct Requests<'a> {
    all: &'a [u32],
    // Those that are not answered yet.
    rest: &'a [u32],
    // How many are answered in a round.
    round: usize,
    // The answers so far. Nothing else remains of a round.
    answers: Vec<u32>,
}

impl<'a> Service for Requests<'a> {
    type Tasks = Pool<'a>;

    ghost holds_between = { λ first s. HasServed first.all.now s.all.now s.rest.now s.round s.answers.items };

    ghost holds_during = { λ first s config pool. HasServed first.all.now s.all.now s.rest.now s.round s.answers.items
        × IsServing config pool.requests.now s.rest.now };

    ghost has_ended = { λ s. s.rest.now ≡ [] };

    ghost rounds_left = { λ s. length s.rest.now };

    fn is_over(&self) -> bool {
        self.rest.is_empty()
    }

    fn begin(&mut self, alloc: Global) -> Result<Round<Pool<'a>>, NoMemory> {
        let (requests, _) = parted(self.rest, self.round);
        let config = pool_config(alloc, requests.len() as u32)?;
        let rooms = rooms_for(alloc, requests.len())?;
        Ok(Round {
            config,
            work: Pool { requests },
            rooms,
        })
    }

    // The clauses are the trait's, which the check does not derive here.
    fn end(&mut self, round: ClosedRound<Vec<u32>>) -> Result<(), NoMemory>
        requires round { (first : _) × (pool : _) × ⟦<Requests<'a> as Service>⟧.holds_during first self.old round.history.config pool
            × IsRound ⟦<Pool<'a> as Work>⟧.can_start ⟦<Pool<'a> as Work>⟧.has_done round.history.config pool round.rooms.items
            round.volumes round.history.journal.items }
        requires more { 0 < length self.old.rest.now }
        ensures between { OnOk result ((first : _) (pool : _)
            → ⟦<Requests<'a> as Service>⟧.holds_during first self.old round.history.config pool
            → IsRound ⟦<Pool<'a> as Work>⟧.can_start ⟦<Pool<'a> as Work>⟧.has_done round.history.config pool round.rooms.items
            round.volumes round.history.journal.items → ⟦<Requests<'a> as Service>⟧.holds_between first self.new) }
        ensures fewer { OnOk result (length self.new.rest.now < length self.old.rest.now) }
    {
        let mut rooms = round.rooms;
        // The server's room is the last one. It has an answer to each request of the round.
        let Some(answers) = rooms.pop() else {
            unreachable!()
        };
        self.answers.extend_from_slice(&answers)?;
        let rest = self.rest;
        let (_, later) = rest.split_at(answers.len());
        self.rest = later;
        Ok(())
    }
}

// Parts the requests that are left into those that a round answers, at least one, and those after them.
fn parted<'a>(rest: &'a [u32], round: usize) -> (&'a [u32], &'a [u32])
    requires left { 0 < length rest.now }
    requires some { 0 < round }
    ensures some { 0 < length result.0.now }
    ensures few { length result.0.now ≤ round }
    ensures whole { rest.now ≡ result.0.now ++ result.1.now }
{
    rest.split_at(round.min(rest.len()))
}

/// Answers each of these requests, however many there are, `round` of them in a round, 1 to 10,000.
///
/// Each round has a station that is opened for it and closed, and its history is judged before the next round begins.
///
/// # Errors
///
/// `NoMemory` if memory runs out in a round.
pub fn serve_in_rounds<R: Threads + Wait + Clock + Sync>(
    rt: &R,
    alloc: Global,
    requests: &[u32],
    round: usize,
) -> Result<Vec<u32>, NoMemory>
    requires some { 0 < round }
    requires few { round ≤ requests_limit }
    requires small { AllByRecursion (λ weeks. weeks < weeks_limit) requests.now }
    ensures { IfOk result (λ answers. answers.items ≡ map days_in requests.now) }
{
    let mut service = Requests {
        all: requests,
        rest: requests,
        round,
        answers: Vec::new(alloc),
    };
    run_rounds(rt, alloc, &mut service)?;
    Ok(service.answers)
}
