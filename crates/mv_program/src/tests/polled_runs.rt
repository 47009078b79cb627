//! Decks whose tasks are polled: they have the same outcome as tasks on threads, and all runs from one seed are the same.

use super::*;
use mv_deck::load_deck;

// One initiator and no job, from seed 0. The picks are the reader, the initiator, the writer, the initiator, the scheduler, the
// initiator: the initiator reports that it is idle before the scheduler waits for that. The reader and the writer have no
// event.
const NO_JOB_JOURNAL: &str = "\
JOURNAL 2
CALLERS 4
ELEMENTS 1
VOLUMES 8
LATCHES 8
QUOTA 8 0
BUDGET 0
BUDGET 4
BUDGET 5
BUDGET 0
ECB 1
EVENTS
2.0 P2 0 OPEN = OPENED 0
2.1 E0 0 POST 0 = POSTED
1.0 E0 1 ARM = COMPLETE 0
1.0 E0 2 SETTLE = COMPLETE 0
1.1 E0 3 CLEAR = WORD 1073741824
2.2 P2 1 PAUSE 0 = PARKED
1.2 P2 2 RELEASE 0 0 = WOKE
2.2 P2 3 RESUME 0 = GIVEN 0 1
2.3 P2 4 CLOSE 1 = CLOSED
END 9
";

// One initiator and no job, from seed 1. The picks are the scheduler, the initiator, the writer, the scheduler, the initiator,
// the reader: the scheduler waits before the initiator reports that it is idle, so the arm gets the reply ARMED, and the post
// gets WOKE.
const NO_JOB_JOURNAL_OF_SEED_1: &str = "\
JOURNAL 2
CALLERS 4
ELEMENTS 1
VOLUMES 8
LATCHES 8
QUOTA 8 0
BUDGET 0
BUDGET 4
BUDGET 5
BUDGET 0
ECB 1
EVENTS
1.0 E0 0 ARM = ARMED
2.0 P2 0 OPEN = OPENED 0
2.1 E0 1 POST 0 = WOKE 0
1.0 E0 2 SETTLE = COMPLETE 0
1.1 E0 3 CLEAR = WORD 1073741824
2.2 P2 1 PAUSE 0 = PARKED
1.2 P2 2 RELEASE 0 0 = WOKE
2.2 P2 3 RESUME 0 = GIVEN 0 1
2.3 P2 4 CLOSE 1 = CLOSED
END 9
";

// Asserts rows of decks, polled from seed 5.
fn assert_polled<X: Abort + AllocGlobal + Threads + Wait + Clock + Sync>(rt: &X, table: &str) {
    let mut text = made(rt, String::from_str(rt.alloc(), table));
    for (on_threads, by_polls) in [
        ("| spool 1 |", "| polled 1 5 |"),
        ("| spool 2 |", "| polled 2 5 |"),
        ("| spool 8 |", "| polled 8 5 |"),
    ] {
        text = made(rt, text.replace(rt.alloc(), on_threads, by_polls));
    }
    assert_rows(rt, &text);
}

#[test]
fn decks_are_polled(rt: HostRuntime) {
    assert_run(
        &rt,
        "polled 2 0",
        PAYROLL,
        0,
        PAYROLL_REPORT,
        "= PURGED 0 0\n",
    );
    assert_polled(&rt, DECKS);
    assert_polled(&rt, FAULTY_DECKS);
}

// Asserts that the empty deck, polled from this seed, has the journal that the seed's order of tasks gives.
fn assert_no_job<X: Abort + AllocGlobal + Threads + Wait + Clock + Sync>(
    rt: &X,
    words: &str,
    journal: &str,
) {
    let mut on = streams_over(rt, b"//\n");
    assert_ends(rt, words, &mut on, 0, NO_JOB_REPORT, "");
    assert_text(rt, on.journal.bytes(), journal, words);
}

#[test]
fn a_seed_gives_the_order_of_the_tasks(rt: HostRuntime) {
    assert_no_job(&rt, "polled 1 0", NO_JOB_JOURNAL);
    assert_no_job(&rt, "polled 1 1", NO_JOB_JOURNAL_OF_SEED_1);
}

// Runs this deck by polls.
fn polled<X: Abort + AllocGlobal + Threads + Wait + Clock + Sync>(rt: &X, deck: &[u8]) -> Streams {
    let mut on = streams_over(rt, deck);
    let status = run(rt, "polled 4 7", &mut on);
    assert_exit(rt, status, 0, "polled 4 7");
    on
}

// Asserts that one more run of this deck writes the same report and the same journal.
fn assert_again<X: Abort + AllocGlobal + Threads + Wait + Clock + Sync>(
    rt: &X,
    deck: &[u8],
    first: &Streams,
) {
    let again = polled(rt, deck);
    assert_bytes(rt, again.report.bytes(), first.report.bytes(), "again");
    assert_bytes(rt, again.journal.bytes(), first.journal.bytes(), "again");
}

#[test]
fn each_run_from_a_seed_is_the_same(rt: HostRuntime) {
    let Ok(deck) = load_deck(rt.alloc(), 40) else {
        panic!(rt; "no memory for a deck")
    };
    let first = polled(&rt, &deck);
    for _ in 0..9 {
        assert_again(&rt, &deck, &first);
    }
    assert_journal(&rt, first.journal.bytes(), "\nEVENTS\n");
}
