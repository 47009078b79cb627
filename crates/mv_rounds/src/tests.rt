//! A test that runs rounds, with a number that is carried over.

ghost use Rattle.std.specs.Prelude.{◌≡◌, ◌<◌, [], ◌∷◌, length, OnOk};
ghost use Rattle.mv_rounds.specs.Round.{IsRound};
ghost use Rattle.mv_attach.specs.Blocks.{blocks_setup};

use crate::{ClosedRound, Round, Service, restore, run_rounds};
use mv_attach::{Work, config_of_blocks};
use mv_wait::{NoMemory, Station, Task};
use std::alloc::Global;
use std::sync::Wait;
use std::time::Clock;

// The volume that has the number.
const NUMBER: u32 = 0;

// The work of a round of one task: it restores the number that the round before left, and adds one.
#[derive(Drop)]
struct Adding {
    number: u32,
}

impl Work for Adding {
    type Room = ();

    ghost can_start = { λ adding b k room. b.config ≡ blocks_setup (3 ∷ []) [] };

    ghost has_done = { λ adding b k old t new. Unit {0} };

    fn work<R: Wait + Clock>(&self, station: &Station, rt: &R, task: &mut Task, _room: &mut ()) {
        restore(station, rt, task, &[self.number]);
        let number = station.read_volume(task, NUMBER);
        station.write_volume(rt, task, NUMBER, number.wrapping_add(1));
    }
}

// A service that adds one in each round, in this many rounds.
#[derive(Drop)]
struct Counter {
    number: u32,
    rounds: u32,
}

impl Service for Counter {
    type Tasks = Adding;

    ghost holds_between = { λ first s. Unit {0} };

    ghost holds_during = { λ first s config adding. Unit {0} };

    ghost has_ended = { λ s. s.rounds ≡ 0 };

    ghost rounds_left = { λ s. s.rounds };

    fn is_over(&self) -> bool {
        self.rounds == 0
    }

    fn begin(&mut self, alloc: Global) -> Result<Round<Adding>, NoMemory> {
        // A restored number, a read and a write are an event each.
        let config = config_of_blocks(alloc, &[3], &[])?;
        let rooms = vec![in alloc; ()]?;
        Ok(Round {
            config,
            work: Adding {
                number: self.number,
            },
            rooms,
        })
    }

    // The clauses are the trait's, which the check does not derive here.
    fn end(&mut self, round: ClosedRound<()>) -> Result<(), NoMemory>
        requires round { (first : _) × (adding : _) × ⟦<Counter as Service>⟧.holds_during first self.old round.history.config adding
            × IsRound ⟦<Adding as Work>⟧.can_start ⟦<Adding as Work>⟧.has_done round.history.config adding round.rooms.items
            round.volumes round.history.journal.items }
        requires more { 0 < self.old.rounds }
        ensures between { OnOk result ((first : _) (adding : _)
            → ⟦<Counter as Service>⟧.holds_during first self.old round.history.config adding
            → IsRound ⟦<Adding as Work>⟧.can_start ⟦<Adding as Work>⟧.has_done round.history.config adding round.rooms.items
            round.volumes round.history.journal.items → ⟦<Counter as Service>⟧.holds_between first self.new) }
        ensures fewer { OnOk result (self.new.rounds < self.old.rounds) }
    {
        self.number = round.volumes[NUMBER as usize];
        self.rounds -= 1;
        Ok(())
    }
}

#[test]
fn a_number_is_carried_over(rt: HostRuntime) {
    let mut counter = Counter {
        number: 10,
        rounds: 3,
    };
    run_rounds(&rt, rt.alloc(), &mut counter).expect(&rt, "memory for three rounds");
    assert_eq!(rt; counter.number, 13);
}
