//! One round, on a station of its own. Clauses cite `specs/Round.antt`.

ghost use Rattle.std.specs.Prelude.{◌≡◌, IfOk};
ghost use Rattle.mv_rounds.specs.Round.{CanRun, IsRound};

use crate::judgement::judge;
use mv_attach::{Work, run_tasks};
use mv_wait::{Closed, Listed, NoMemory, Station, ValidConfig};
use std::alloc::Global;
use std::sync::Wait;
use std::thread::Threads;
use std::time::Clock;

/// What a round begins with.
#[derive(Drop)]
pub struct Round<W: Work + Drop> {
    /// The configuration of the round's station.
    pub config: ValidConfig,
    /// The work of its tasks.
    pub work: W,
    /// The room of each task, by its number.
    pub rooms: Vec<W::Room>,
}

/// What is left of a round.
#[derive(Drop)]
pub struct ClosedRound<S> {
    /// The room of each task, by its number.
    pub rooms: Vec<S>,
    /// The number that each volume had in the end.
    pub volumes: [u32; 8],
    /// All events of the round, as one legal history, which has been judged.
    pub history: Listed,
}

/// Opens a station, has its tasks do their work, each on a thread, closes the station and judges its history.
///
/// # Errors
///
/// `NoMemory` if memory runs out.
pub(crate) fn run_round<R: Threads + Wait + Clock + Sync, W: Work + Sync>(
    rt: &R,
    alloc: Global,
    config: ValidConfig,
    work: &W,
    rooms: Vec<W::Room>,
) -> Result<ClosedRound<W::Room>, NoMemory>
    requires { CanRun W.can_start config work.now rooms.items }
    ensures config { IfOk result (λ round. round.history.config ≡ config) }
    ensures round { IfOk result (λ round. IsRound W.can_start W.has_done round.history.config work.now round.rooms.items
        round.volumes round.history.journal.items) }
{
    let (station, tasks) = Station::open(alloc, config)?;
    let (tasks, rooms) = run_tasks(rt, alloc, &station, work, tasks, rooms)?;
    let Closed { history, volumes } = station.close(tasks);
    let history = judge(alloc, history)?;
    Ok(ClosedRound {
        rooms,
        volumes,
        history,
    })
}
