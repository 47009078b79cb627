//! Runs whose tasks are held at two points until both points are reached, so that two tasks are at their points at once.

use super::*;
use mv_task::MeetGate;
use std::sync::atomic::{AtomicU64, Ordering};

const PRINTS: &str = "\
//A JOB
// PRINT A
//B JOB
// PRINT B
//
";

const PRINTED: &str = "\
JOB A ENDED
| A
JOB B ENDED
| B
JOBS 2 ENDED 2 ABENDED 0 NOT RUN 0
VOLUMES 0 0 0 0 0 0 0 0
";

const COUNTS: &str = "\
//A JOB
// USE 0 X
// COUNT 0 5
// FREE 0
//B JOB
// USE 0 X
// COUNT 0 7
// FREE 0
//
";

const COUNTED: &str = "\
JOB A ENDED
JOB B ENDED
JOBS 2 ENDED 2 ABENDED 0 NOT RUN 0
VOLUMES 12 0 0 0 0 0 0 0
";

// Runs a deck while two points are held for a million rounds at most, and asserts that both are reached, that neither hold runs
// out, and that the report is this one. The journal is legal, and has each of these pieces.
fn assert_meets<X: Abort + AllocGlobal + Threads + Wait + Clock + Sync>(
    rt: &X,
    words: &str,
    deck: &str,
    points: (Point, Point),
    report: &str,
    pieces: &str,
) {
    let mut on = streams_over(rt, deck.as_bytes());
    assert_held(rt, words, &mut on, points, 1_000_000, true);
    assert_text(rt, on.report.bytes(), report, pieces);
    assert_pieces(rt, on.journal.bytes(), pieces);
    assert_legal(rt, on.journal.bytes());
}

// Runs a deck while two points are held, and asserts whether both are reached at once.
fn assert_held<X: Abort + AllocGlobal + Threads + Wait + Clock + Sync>(
    rt: &X,
    words: &str,
    on: &mut Streams,
    points: (Point, Point),
    rounds: u64,
    meet: bool,
) {
    let gate = MeetGate::new(points.0, points.1, rounds);
    let status = run_by(rt, words, on, &gate);
    assert_exit(rt, status, 0, words);
    assert!(rt; gate.met() == meet, "{points:?}");
}

fn assert_pieces<X: Abort>(rt: &X, journal: &[u8], pieces: &str) {
    for piece in pieces.lines() {
        assert!(rt; has(journal, piece), "{piece}");
    }
}

// Two jobs are begun side by side.
#[test]
fn two_initiators_meet(rt: HostRuntime) {
    let points = (Point::Started(0), Point::Started(1));
    assert_meets(&rt, "spool 2", PRINTS, points, PRINTED, "= PURGED");
}

// The reader is about to enter the second job while the scheduler is about to hand out the first.
#[test]
fn reader_and_scheduler_meet(rt: HostRuntime) {
    let points = (Point::Entered(1), Point::Dispatched(0));
    assert_meets(&rt, "spool 1", PRINTS, points, PRINTED, "= PURGED");
}

// The writer has the end of the first job while the second is begun.
#[test]
fn writer_and_initiator_meet(rt: HostRuntime) {
    let points = (Point::Written(0), Point::Started(1));
    assert_meets(&rt, "spool 1", PRINTS, points, PRINTED, "= PURGED");
}

// Of two jobs that count on one volume, the one that is held last writes last.
const SEVEN_FIRST: &str = "\
= PURGED
 V0 0 READ =
 V0 1 WRITE 7 = STORED
 V0 2 READ =
 V0 3 WRITE 12 = STORED
";

const FIVE_FIRST: &str = "\
= PURGED
 V0 0 READ =
 V0 1 WRITE 5 = STORED
 V0 2 READ =
 V0 3 WRITE 12 = STORED
";

#[test]
fn who_is_held_last_counts_last(rt: HostRuntime) {
    let points = (Point::Started(0), Point::Ended(1));
    assert_meets(&rt, "spool 2", COUNTS, points, COUNTED, SEVEN_FIRST);
    let points = (Point::Started(1), Point::Ended(0));
    assert_meets(&rt, "spool 2", COUNTS, points, COUNTED, FIVE_FIRST);
}

// Each first point is held until its hold has run out, since the second point comes only after it.
#[test]
fn each_point_comes_before_what_it_announces(rt: HostRuntime) {
    for points in [
        (Point::Entered(0), Point::Dispatched(0)),
        (Point::Dispatched(0), Point::Started(0)),
        (Point::Ended(0), Point::Written(0)),
    ] {
        let mut on = streams_over(&rt, PRINTS.as_bytes());
        assert_held(&rt, "spool 1", &mut on, points, 100_000, false);
    }
}

// A gate that counts the passes by the number of the task that reaches that point, and the passes by any other number.
#[derive(Drop)]
struct Numbers {
    own: AtomicU64,
    others: AtomicU64,
}

impl Gate for Numbers {
    fn pass<R: Wait>(&self, _rt: &R, who: u32, point: Point) {
        let number = match point {
            Point::Entered(_) => 0,
            Point::Dispatched(_) => 1,
            Point::Started(_) | Point::Ended(_) => 2,
            Point::Written(_) => 3,
        };
        let passed = if who == number {
            &self.own
        } else {
            &self.others
        };
        passed.fetch_add(1, Ordering::SeqCst);
    }
}

#[test]
fn each_task_passes_its_points_by_its_own_number(rt: HostRuntime) {
    let gate = Numbers {
        own: AtomicU64::new(0),
        others: AtomicU64::new(0),
    };
    let mut on = streams_over(&rt, PRINTS.as_bytes());
    let status = run_by(&rt, "spool 1", &mut on, &gate);
    assert_exit(&rt, status, 0, "spool 1");
    assert_count(&rt, gate.own.load(Ordering::SeqCst), 10, "its own");
    assert_count(&rt, gate.others.load(Ordering::SeqCst), 0, "others");
}
