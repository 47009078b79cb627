//! Journals that are cut, or are wrong about one event. `replay` and `convert` refuse each at the line of the fault.

use super::*;

// A task posts two of its three blocks, waits for two of the three, and then tests the third. The events are on the lines 12 to
// 20.
const WAIT: &str = "\
JOURNAL 2
CALLERS 1
ELEMENTS 4
VOLUMES 8
LATCHES 8
QUOTA 8 4
BUDGET 9
ECB 0
ECB 0
ECB 0
EVENTS
0.0 E0 0 POST 7 = POSTED
0.1 E2 0 POST 9 = POSTED
0.2 E0 1 ARM = COMPLETE 7
0.2 E1 0 ARM = ARMED
0.2 E2 1 ARM = COMPLETE 9
0.2 E0 2 SETTLE = COMPLETE 7
0.2 E1 1 SETTLE = OPEN
0.2 E2 2 SETTLE = COMPLETE 9
0.3 E1 2 TEST = WORD 0
END 9
";

// A task waits for a block that another task posts, and releases that task's pause.
pub(crate) const PAUSE: &str = "\
JOURNAL 2
CALLERS 4
ELEMENTS 1
VOLUMES 8
LATCHES 8
QUOTA 8 0
BUDGET 0
BUDGET 4
BUDGET 5
BUDGET 0
ECB 1
EVENTS
1.0 E0 0 ARM = ARMED
2.0 P2 0 OPEN = OPENED 0
2.1 E0 1 POST 0 = WOKE 0
1.0 E0 2 SETTLE = COMPLETE 0
1.1 E0 3 CLEAR = WORD 1073741824
2.2 P2 1 PAUSE 0 = PARKED
1.2 P2 2 RELEASE 0 0 = WOKE
2.2 P2 3 RESUME 0 = GIVEN 0 1
2.3 P2 4 CLOSE 1 = CLOSED
END 9
";

// Two posts by one caller.
const POSTS: &str = "\
JOURNAL 1
CALLERS 1
ELEMENTS 1
VOLUMES 8
LATCHES 8
QUOTA 8 0
BUDGET 2
ECB 0
ECB 0
EVENTS
0 E0 0 POST 0 = POSTED
0 E1 0 POST 16777228 = POSTED
END 2
";

const FORGED_POSTS: &str = "\
    | exit | note | event | forged |
    | 10 | ILLEGAL AT LINE 12 | POST 16777228 = POSTED | POST 16777228 = WOKE 0 |
    | 11 | JOURNAL LINE 13 KIND 2 | END 2 | END 02 |
";

// Forgeries of the second journal: its task opens its element in another call, or its pause is given another code.
const FORGED_PAUSE: &str = "\
    | exit | note | event | forged |
    | 10 | ILLEGAL AT LINE 14 | 2.0 P2 0 | 2.1 P2 0 |
    | 10 | ILLEGAL AT LINE 20 | GIVEN 0 1 | GIVEN 5 1 |
";

// The forgery of the pause alone, which is on this line in version 1 too.
const FORGED_GIFT: &str = "\
    | exit | note | event | forged |
    | 10 | ILLEGAL AT LINE 20 | GIVEN 0 1 | GIVEN 5 1 |
";

// Forgeries of each event of the first journal: its place is one higher, or its reply is another; and at the end a number with
// a leading zero.
const FORGERIES: &str = "\
    | exit | note | event | forged |
    | 10 | ILLEGAL AT LINE 12 | E0 0 POST 7 = POSTED | E0 1 POST 7 = POSTED |
    | 10 | ILLEGAL AT LINE 13 | E2 0 POST 9 = POSTED | E2 1 POST 9 = POSTED |
    | 10 | ILLEGAL AT LINE 14 | E0 1 ARM = COMPLETE 7 | E0 2 ARM = COMPLETE 7 |
    | 10 | ILLEGAL AT LINE 15 | E1 0 ARM = ARMED | E1 1 ARM = ARMED |
    | 10 | ILLEGAL AT LINE 16 | E2 1 ARM = COMPLETE 9 | E2 2 ARM = COMPLETE 9 |
    | 10 | ILLEGAL AT LINE 17 | E0 2 SETTLE = COMPLETE 7 | E0 3 SETTLE = COMPLETE 7 |
    | 10 | ILLEGAL AT LINE 18 | E1 1 SETTLE = OPEN | E1 2 SETTLE = OPEN |
    | 10 | ILLEGAL AT LINE 19 | E2 2 SETTLE = COMPLETE 9 | E2 3 SETTLE = COMPLETE 9 |
    | 10 | ILLEGAL AT LINE 20 | E1 2 TEST = WORD 0 | E1 3 TEST = WORD 0 |
    | 10 | ILLEGAL AT LINE 12 | E0 0 POST 7 = POSTED | E0 0 POST 7 = WORD 1 |
    | 10 | ILLEGAL AT LINE 13 | E2 0 POST 9 = POSTED | E2 0 POST 9 = WORD 1 |
    | 10 | ILLEGAL AT LINE 14 | E0 1 ARM = COMPLETE 7 | E0 1 ARM = WORD 1 |
    | 10 | ILLEGAL AT LINE 15 | E1 0 ARM = ARMED | E1 0 ARM = WORD 1 |
    | 10 | ILLEGAL AT LINE 16 | E2 1 ARM = COMPLETE 9 | E2 1 ARM = WORD 1 |
    | 10 | ILLEGAL AT LINE 17 | E0 2 SETTLE = COMPLETE 7 | E0 2 SETTLE = WORD 1 |
    | 10 | ILLEGAL AT LINE 18 | E1 1 SETTLE = OPEN | E1 1 SETTLE = WORD 1 |
    | 10 | ILLEGAL AT LINE 19 | E2 2 SETTLE = COMPLETE 9 | E2 2 SETTLE = WORD 1 |
    | 10 | ILLEGAL AT LINE 20 | E1 2 TEST = WORD 0 | E1 2 TEST = WORD 1 |
    | 11 | JOURNAL LINE 21 KIND 2 | END 9 | END 09 |
";

// Forgeries of the call number of each event of the first journal: it is one higher.
const MISNUMBERED: &str = "\
    | exit | note | event | forged |
    | 10 | ILLEGAL AT LINE 12 | 0.0 E0 0 | 0.1 E0 0 |
    | 10 | ILLEGAL AT LINE 13 | 0.1 E2 0 | 0.2 E2 0 |
    | 10 | ILLEGAL AT LINE 14 | 0.2 E0 1 | 0.3 E0 1 |
    | 10 | ILLEGAL AT LINE 15 | 0.2 E1 0 | 0.3 E1 0 |
    | 10 | ILLEGAL AT LINE 16 | 0.2 E2 1 | 0.3 E2 1 |
    | 10 | ILLEGAL AT LINE 17 | 0.2 E0 2 | 0.3 E0 2 |
    | 10 | ILLEGAL AT LINE 18 | 0.2 E1 1 | 0.3 E1 1 |
    | 10 | ILLEGAL AT LINE 19 | 0.2 E2 2 | 0.3 E2 2 |
    | 10 | ILLEGAL AT LINE 20 | 0.3 E1 2 | 0.4 E1 2 |
";

// Returns a journal in version 1, without call numbers.
pub(crate) fn unnumbered<X: Abort + AllocGlobal>(rt: &X, journal: &str) -> String {
    let mut text = made(rt, journal.replace(rt.alloc(), "JOURNAL 2", "JOURNAL 1"));
    for number in [".0 ", ".1 ", ".2 ", ".3 "] {
        text = made(rt, text.replace(rt.alloc(), number, " "));
    }
    text
}

// Asserts that both commands on journals end with this exit and this note.
fn assert_refused<X: Abort + AllocGlobal + Threads + Wait + Clock + Sync>(
    rt: &X,
    journal: &str,
    exit: u8,
    note: &str,
) {
    let note = made(rt, format!(in rt.alloc(); "{note}\n"));
    assert_run(rt, "replay", journal, exit, &note, "");
    assert_run(rt, "convert", journal, exit, &note, "");
}

// Asserts that the journal is refused with each of these forgeries of one event, while all other events stay.
pub(crate) fn assert_forged<X: Abort + AllocGlobal + Threads + Wait + Clock + Sync>(
    rt: &X,
    journal: &str,
    forgeries: &str,
) {
    for row in rows(rt, forgeries, "exit | note | event | forged") {
        assert_forgery(rt, journal, row);
    }
}

// Asserts that the journal is refused with this exit and this note if an event, or a part of one, is forged.
fn assert_forgery<X: Abort + AllocGlobal + Threads + Wait + Clock + Sync>(
    rt: &X,
    journal: &str,
    row: Row<'_>,
) {
    let event = row.field(rt, "event");
    let forged = row.field(rt, "forged");
    let text = made(
        rt,
        journal.replace(rt.alloc(), event.as_str(), forged.as_str()),
    );
    let exit = number_of(rt, &row.field(rt, "exit"));
    let note = row.field(rt, "note");
    assert_refused(rt, &text, exit, &note);
}

#[test]
fn journals_that_are_forged(rt: HostRuntime) {
    let old_wait = unnumbered(&rt, WAIT);
    let old_pause = unnumbered(&rt, PAUSE);
    for (journal, forgeries) in [
        (old_wait.as_str(), FORGERIES),
        (WAIT, FORGERIES),
        (WAIT, MISNUMBERED),
        (old_pause.as_str(), FORGED_GIFT),
        (PAUSE, FORGED_PAUSE),
        (POSTS, FORGED_POSTS),
    ] {
        assert_forged(&rt, journal, forgeries);
    }
    assert_run(&rt, "replay", POSTS, 0, "LEGAL 2 EVENTS\n", "");
}

// Asserts that both commands on a text that is cut before any of its bytes find the fault in the line of that byte.
fn assert_cut<X: Abort + AllocGlobal + Threads + Wait + Clock + Sync>(rt: &X, journal: &str) {
    for length in 0..journal.len() {
        let Some(front) = journal.get(..length) else {
            panic!(rt; "no front")
        };
        let line = front.matches("\n").count().saturating_add(1);
        let note = made(rt, format!(in rt.alloc(); "JOURNAL LINE {line} KIND 5"));
        assert_refused(rt, front, 11, &note);
    }
}

#[test]
fn a_journal_cut_at_each_length(rt: HostRuntime) {
    assert_cut(&rt, &unnumbered(&rt, PAUSE));
    assert_cut(&rt, PAUSE);
}

// Asserts that a journal of nine events is legal, and is converted to this one.
fn assert_converted<X: Abort + AllocGlobal + Threads + Wait + Clock + Sync>(
    rt: &X,
    journal: &str,
    converted: &str,
) {
    assert_run(rt, "replay", journal, 0, "LEGAL 9 EVENTS\n", "");
    assert_run(rt, "convert", journal, 0, converted, "");
}

#[test]
fn the_same_journal_in_both_versions(rt: HostRuntime) {
    for journal in [WAIT, PAUSE] {
        assert_converted(&rt, journal, journal);
        assert_converted(&rt, &unnumbered(&rt, journal), journal);
    }
}
