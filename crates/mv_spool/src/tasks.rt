//! The work of the tasks of a run, each on its thread, from wait to wait. Clauses cite `Works.antt` of mv_work.

ghost use Rattle.mv_deck.specs.Deck.{deck_data};
ghost use Rattle.mv_work.specs.Spool.{IsSpool, spool_of};
ghost use Rattle.mv_work.specs.Works.{IsNew, IsWorked};

use crate::meeting::meet;
use mv_attach::Work;
use mv_deck::Deck;
use mv_task::Gate;
use mv_wait::{Station, Task};
use mv_work::{Spool, SpoolWork};
use std::sync::Wait;
use std::time::Clock;

/// What the tasks of a run have in common. The room of each task is its work.
#[derive(Drop)]
pub(crate) struct SpoolTasks<'a, G> {
    pub deck: &'a Deck,
    pub initiators: u32,
    pub gate: &'a G,
}

impl<G: Gate + Sync> Work for SpoolTasks<'_, G> {
    type Room = SpoolWork;

    ghost can_start = { λ w b k work. IsSpool (spool_of b (deck_data w.deck.now) w.initiators)
        × IsNew (deck_data w.deck.now) w.initiators k work };

    ghost has_done = { λ w b k old t new. IsWorked (spool_of b (deck_data w.deck.now) w.initiators) k new t };

    fn work<R: Wait + Clock>(
        &self,
        station: &Station,
        rt: &R,
        task: &mut Task,
        room: &mut SpoolWork,
    ) {
        let spool = Spool::new(station, self.deck, self.initiators, self.gate);
        let mut next = room.begin(rt, &spool, task);
        for _ in rt.forever() {
            // A task that is lost makes no more events, like one that is done.
            let Ok(needed) = next else {
                return;
            };
            let Some(need) = needed else {
                return;
            };
            let Ok(got) = meet(station, rt, task, need) else {
                return;
            };
            next = room.go_on(rt, &spool, task, got);
        }
    }
}
