//! What no clause says of polled runs: that a run ends, and that the order is asked before each poll. Expected values are worked
//! out by hand.

ghost use Rattle.std.specs.Prelude.{◌<◌, ◌≤◌, ◌^◌, ◌-◌, length};
ghost use Rattle.mv_deck.specs.Deck.{deck_data};
ghost use Rattle.mv_deck.specs.Sound.{IsSound};
ghost use Rattle.mv_deck.specs.Weight.{most_initiators};

use mv_deck::{Deck, read_deck};
use mv_polledspool::{Order, RoundOrder, run_polled};
use mv_report::outcome_of;
use std::alloc::Global;
use std::process::Abort;
use std::sync::Wait;

// The deck of a text.
pub(super) fn deck_of(rt: &impl Abort, alloc: Global, text: &[u8], initiators: u32) -> Deck
    requires short { length text.now < 2 ^ 32 - 1 }
    requires initiators { (1 ≤ initiators) × (initiators ≤ most_initiators) }
    ensures { IsSound (deck_data result) initiators }
{
    match read_deck(alloc, text, initiators) {
        Ok(deck) => deck,
        Err(_) => panic!(rt; "no deck"),
    }
}

// Picks the tasks from the last to the first, round by round, and counts the picks.
#[derive(Drop)]
struct Backwards {
    left: u32,
    picks: u32,
}

impl Order for Backwards {
    fn pick(&mut self, unfinished: u32) -> u32 {
        if self.left == 0 || self.left > unfinished {
            self.left = unfinished;
        }
        self.left -= 1;
        self.picks = self.picks.wrapping_add(1);
        self.left
    }
}

// The picks: writer, initiator, scheduler, reader, initiator.
#[test]
fn an_order_is_asked_before_each_poll(rt: HostRuntime) {
    let deck = deck_of(&rt, rt.alloc(), b"//\n", 1);
    let mut order = Backwards { left: 0, picks: 0 };
    let run = run_polled(&rt, rt.alloc(), &deck, 1, &mut order).expect(&rt, "memory for a run");
    assert!(rt; run.lines.is_empty() && order.picks == 5);
}

// One job without steps, and one initiator. The picks, round by round from the last task to the first:
//
// 1 to 4: the writer waits for the job's end; the initiator says that it is idle, and pauses; the scheduler waits for the job's
// entry; the reader enters the job and is finished.
// 5 to 7: the writer and the initiator still wait; the scheduler is polled once and gets two answers, that the job is entered and
// that the initiator is idle. It hands the job out, and waits until the initiator is idle again.
// 8 to 10: the writer still waits; the initiator ends the job, says that it is idle, and pauses; the scheduler dismisses it and
// is finished.
// 11 and 12: the writer has the job's end and is finished; so is the initiator, which was dismissed.
//
// If a poll stopped after its first answer, the scheduler would hand the job out only at pick 10, the job's end and the dismissal
// would come at picks 12 and 13, and the two last tasks would finish at picks 14 and 15.
#[test]
fn a_poll_goes_on_after_an_answer(rt: HostRuntime) {
    let deck = deck_of(&rt, rt.alloc(), b"//A JOB\n//\n", 1);
    let mut order = Backwards { left: 0, picks: 0 };
    let run = run_polled(&rt, rt.alloc(), &deck, 1, &mut order).expect(&rt, "memory for a run");
    assert!(rt; run.ends.as_slice() == [0].as_slice() && order.picks == 12);
}

// ADD abends while it holds latch 0, and NEXT counts under that latch; LAST accepts no end of ADD above 0; CODE returns 7.
const STEPS: &[u8] = b"// DECK 2
//ADD JOB
// USE 0 X
// COUNT 0 5
// ABEND U0012
//NEXT JOB
// USE 0 X
// COUNT 0 7
// SCAN 0
// FREE 0
//LAST JOB AFTER=ADD,NEXT
// PRINT DONE
//CODE JOB AFTER=NEXT
// RETURN 7
//
";

// The ends of these jobs.
const ENDS: [u32; 4] = [16_777_228, 0, 33_554_432, 7];

// Runs these jobs in this order, with the results that were worked out by hand.
fn assert_steps<R: Abort + Wait, O: Order>(rt: &R, alloc: Global, order: &mut O) {
    let deck = deck_of(rt, alloc, STEPS, 3);
    let run = run_polled(rt, alloc, &deck, 3, order).expect(rt, "memory for a run");
    assert!(rt; run.ends.as_slice() == ENDS.as_slice());
    assert!(rt; &run.volumes[..] == [12, 0, 0, 0, 0, 0, 0, 0].as_slice());
}

// What the deck means is computed to be the same.
fn assert_meaning(rt: &impl Abort, alloc: Global) {
    let deck = deck_of(rt, alloc, STEPS, 3);
    let outcome = outcome_of(alloc, &deck).expect(rt, "memory for an outcome");
    assert!(rt; outcome.ends.as_slice() == ENDS.as_slice());
}

#[test]
fn each_order_comes_to_the_same_report(rt: HostRuntime) {
    assert_meaning(&rt, rt.alloc());
    assert_steps(&rt, rt.alloc(), &mut RoundOrder::new(4_294_967_290));
    assert_steps(&rt, rt.alloc(), &mut Backwards { left: 0, picks: 0 });
}
