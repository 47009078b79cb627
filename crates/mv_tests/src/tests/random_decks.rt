//! Polled runs end, which no clause says: 200 random decks run in rounds. A round in which no task makes an event would be a
//! deadlock, so a run has at most one round for each event of the deck's weight, and one more.

ghost use Rattle.std.specs.Prelude.{◌≤◌, ◌<◌};

use super::orders::deck_of;
use mv_deck::{Deck, MOST_INITIATORS, step_events};
use mv_polledspool::{Order, RoundOrder, run_polled};
use std::alloc::Global;
use std::process::Abort;

// How many decks are run.
const DECKS: u32 = 200;

// The number of jobs of a deck is below this. They have the names A to H.
const JOBS: u8 = 9;

// A linear congruential generator, whose numbers are the same at each run.
#[derive(Drop)]
struct Dice {
    state: u32,
}

impl Dice {
    // A number below `sides`, which is 1 to 65,536.
    fn below(&mut self, sides: u32) -> u32
        requires { 1 ≤ sides }
        ensures { result < sides }
    {
        self.state = self
            .state
            .wrapping_mul(1_664_525)
            .wrapping_add(1_013_904_223);
        (self.state >> 16) % sides
    }
}

// Goes round the tasks, and counts the picks.
#[derive(Drop)]
struct CountedRounds {
    rounds: RoundOrder,
    picks: u64,
}

impl Order for CountedRounds {
    fn pick(&mut self, unfinished: u32) -> u32 {
        self.picks = self.picks.wrapping_add(1);
        self.rounds.pick(unfinished)
    }
}

fn add(rt: &impl Abort, text: &mut Vec<u8>, bytes: &[u8]) {
    text.extend_from_slice(bytes)
        .expect(rt, "memory for a deck");
}

// Adds a job of this number, which waits for some of the earlier ones and of each accepts the end 0, or ends of at most 4.
fn add_job(rt: &impl Abort, text: &mut Vec<u8>, dice: &mut Dice, number: u8)
    requires { number < 9 }
{
    add(rt, text, b"//");
    add(rt, text, &[b'A' + number]);
    add(rt, text, b" JOB");
    let mut before: &[u8] = b" AFTER=";
    for earlier in 0..number {
        if dice.below(3) == 0 {
            add(rt, text, before);
            add(rt, text, &[b'A' + earlier]);
            if dice.below(2) == 0 {
                add(rt, text, b":4");
            }
            before = b",";
        }
    }
    add(rt, text, b"\n");
}

// Adds steps that use some latches, in rising order, count or scan under each of them, and free some.
fn add_latches(rt: &impl Abort, text: &mut Vec<u8>, dice: &mut Dice) {
    for latch in b'0'..b'8' {
        let kind = dice.below(6);
        if kind < 3 {
            add(rt, text, b"// USE ");
            add(rt, text, &[latch]);
            add(rt, text, if kind == 0 { b" S\n" } else { b" X\n" });
            if kind == 1 {
                add(rt, text, b"// COUNT ");
                add(rt, text, &[latch]);
                add(rt, text, b" 7\n");
            } else {
                add(rt, text, b"// SCAN ");
                add(rt, text, &[latch]);
                add(rt, text, b"\n");
            }
            if dice.below(4) == 0 {
                add(rt, text, b"// FREE ");
                add(rt, text, &[latch]);
                add(rt, text, b"\n");
            }
        }
    }
}

// Adds the end of a job: by its last step, with a return code, or with an abend.
fn add_end(rt: &impl Abort, text: &mut Vec<u8>, dice: &mut Dice) {
    match dice.below(4) {
        0 => add(rt, text, b"// RETURN 4\n"),
        1 => add(rt, text, b"// ABEND U0012\n"),
        _ => add(rt, text, b"// PRINT DONE\n"),
    }
}

fn random_text(rt: &impl Abort, alloc: Global, dice: &mut Dice) -> Vec<u8> {
    let mut text = Vec::new(alloc);
    add(rt, &mut text, b"// DECK 2\n");
    let jobs = dice.below(u32::from(JOBS)) as u8;
    for number in 0..jobs {
        add_job(rt, &mut text, dice, number);
        add_latches(rt, &mut text, dice);
        add_end(rt, &mut text, dice);
    }
    add(rt, &mut text, b"//\n");
    text
}

// The weight of a deck for this many initiators, by the formula of docs/FORMATS.md.
fn weight_of(deck: &Deck, initiators: u32) -> u64 {
    let n = deck.jobs.len() as u64;
    let i = u64::from(initiators);
    let mut weight = n.wrapping_mul(8).wrapping_add(i.wrapping_mul(9));
    weight = weight.wrapping_add(n.wrapping_mul(i).wrapping_mul(9));
    for job in &deck.jobs {
        weight = weight.wrapping_add((job.after.len() as u64).wrapping_mul(2));
        for step in &job.steps {
            weight = weight.wrapping_add(i.wrapping_mul(u64::from(step_events(step))));
        }
    }
    weight
}

#[test]
fn random_decks_end_within_a_round_for_each_event(rt: HostRuntime) {
    let mut dice = Dice { state: 73 };
    for _ in 0..DECKS {
        let initiators = 1 + dice.below(MOST_INITIATORS);
        let text = random_text(&rt, rt.alloc(), &mut dice);
        assert!(rt; text.len() < 100_000);
        let deck = deck_of(&rt, rt.alloc(), &text, initiators);
        let mut order = CountedRounds {
            rounds: RoundOrder::new(dice.below(65_536)),
            picks: 0,
        };
        let run = run_polled(&rt, rt.alloc(), &deck, initiators, &mut order);
        assert!(rt; run.is_ok());
        let tasks = u64::from(initiators).wrapping_add(3);
        let most = weight_of(&deck, initiators)
            .wrapping_add(1)
            .wrapping_mul(tasks);
        assert!(rt; order.picks <= most);
    }
}
