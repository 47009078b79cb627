//! Legal journals: each cell of the tables of blocks, elements and latches, and calls of several events; and events that the
//! machine does not admit. The replies were worked out by hand from the tables.

ghost use Rattle.std.specs.Prelude.{◌≤◌, IsTrue, All};
ghost use Rattle.mv_config.specs.Limits.{highest_place};
ghost use Rattle.mv_entrytext.specs.Fault.{HasJournal};

use super::forged_journals::{PAUSE, assert_forged, unnumbered};
use super::*;
use mv_calls::{number_calls, replay_calls};
use mv_entrytext::{Journal, read_journal, write_journal, write_old_journal};
use mv_io::NoMemory;
use mv_machine::{Entry, HIGHEST_PLACE, replay};

// Two callers, three blocks of callers 0, 0 and 1, and an exit from block 0 to block 1. The events begin on line 14: on block
// 0, each operation in each state; on element 1, each operation in each phase, and with a generation that is not the current
// one; on a volume; and on the latch, where a shared request does not pass an exclusive one, and a purge takes out granted and
// waiting requests.
const CELLS: &str = "\
JOURNAL 1
CALLERS 2
ELEMENTS 1
VOLUMES 1
LATCHES 1
QUOTA 2 1
BUDGET 60
BUDGET 60
ECB 0
ECB 0
ECB 1
EXIT 0 1
EVENTS
0 E0 0 TEST = WORD 0
0 E0 1 SETTLE = OPEN
0 E0 2 CLEAR = WORD 0
0 E0 3 ARM = ARMED
0 E0 4 ARM = WAITING
0 E0 5 EXTEND 1 = WAITING
1 E0 6 TEST = WORD 2147483648
0 E0 7 SETTLE = OPEN
0 E0 8 ARM = ARMED
0 E0 9 CLEAR = WORD 2147483648
0 E0 10 ARM = ARMED
1 E0 11 POST 5 = WOKE 0
1 E0 12 POST 6 = ALREADY 5
0 E0 13 ARM = COMPLETE 5
0 E0 14 EXTEND 1 = COMPLETE 5
0 E0 15 SETTLE = COMPLETE 5
1 E0 16 TEST = WORD 1073741829
0 E0 17 CLEAR = WORD 1073741829
0 E0 18 EXTEND 1 = ARMED
0 E0 19 ARM = LINKED 1
0 E0 20 EXTEND 1 = LINKED 1
0 E0 21 SETTLE = LINKED 1
1 E0 22 TEST = WORD 2147483649
0 E0 23 CLEAR = WORD 2147483649
0 E0 24 EXTEND 1 = ARMED
1 E0 25 POST 7 = WOKE 1
0 E0 26 CLEAR = WORD 1073741831
1 E0 27 POST 1073741823 = POSTED
0 E0 28 TEST = WORD 2147483647
0 P1 0 TEST = STATE 0 FREE 0
1 P1 1 PAUSE 0 = SPENT 0
1 P1 2 RESUME 0 = SPENT 0
0 P1 3 RELEASE 0 7 = SPENT 0
1 P1 4 CLOSE 0 = SPENT 0
1 P1 5 OPEN = OPENED 0
1 P1 6 OPEN = INUSE
0 P1 7 TEST = STATE 0 RESET 0
1 P1 8 PAUSE 1 = SPENT 0
1 P1 9 RESUME 0 = BUSY
1 P1 10 CLOSE 1 = SPENT 0
0 P1 11 RELEASE 0 16777215 = EARLY
0 P1 12 RELEASE 0 8 = ALREADY
1 P1 13 OPEN = INUSE
1 P1 14 RESUME 0 = BUSY
0 P1 15 TEST = STATE 0 PRERELEASED 16777215
1 P1 16 PAUSE 0 = GIVEN 16777215 1
1 P1 17 PAUSE 1 = PARKED
1 P1 18 OPEN = INUSE
1 P1 19 PAUSE 1 = BUSY
1 P1 20 RESUME 1 = NOTYET
1 P1 21 RESUME 0 = SPENT 1
1 P1 22 CLOSE 1 = BUSY
0 P1 23 TEST = STATE 1 PAUSED 0
0 P1 24 RELEASE 0 9 = SPENT 1
0 P1 25 RELEASE 1 9 = WOKE
0 P1 26 RELEASE 1 8 = ALREADY
1 P1 27 OPEN = INUSE
1 P1 28 PAUSE 1 = BUSY
1 P1 29 CLOSE 1 = BUSY
0 P1 30 TEST = STATE 1 RELEASED 9
1 P1 31 RESUME 1 = GIVEN 9 2
1 P1 32 CLOSE 2 = CLOSED
1 P1 33 OPEN = OPENED 3
0 P1 34 RELEASE 3 7 = EARLY
1 P1 35 CLOSE 3 = CLOSED
0 V0 0 READ = VALUE 0
1 V0 1 WRITE 3 = STORED
0 V0 2 READ = VALUE 3
0 L 0 OBTAIN 0 9 X W = GRANTED 0
1 L 1 OBTAIN 0 9 X C = NOTNOW 0
1 L 2 OBTAIN 0 9 X P2 = QUEUED 2
1 L 3 CONFIRM 0 2 = WAITING
1 L 4 CONFIRM 0 0 = GONE
0 L 5 RELEASE 0 0 U = RELEASED 1
0 L 6 OBTAIN 0 9 X W = QUEUED 6
1 L 7 PURGE 9 = PURGED 2 0
0 L 8 OBTAIN 0 1 S W = GRANTED 8
0 L 9 OBTAIN 0 2 S C = GRANTED 9
1 L 10 OBTAIN 0 3 X C = NOTNOW 8
1 L 11 OBTAIN 0 3 X W = QUEUED 11
1 L 12 OBTAIN 0 4 S W = QUEUED 12
1 L 13 RELEASE 0 12 C = WAITING
0 L 14 RELEASE 0 8 U = RELEASED 0
0 L 15 OBTAIN 0 5 S C = NOTNOW 11
0 L 16 RELEASE 0 9 C = RELEASED 1
0 L 17 RELEASE 0 9 U = GONE
1 L 18 CONFIRM 0 11 = GRANTED 11
1 L 19 CONFIRM 0 12 = WAITING
0 L 20 PURGE 3 = PURGED 1 1
1 L 21 CONFIRM 0 11 = GONE
1 L 22 CONFIRM 0 12 = GRANTED 12
END 91
";

// Events that the machine does not admit: by a caller that does not exist, on a block of another caller, with an exit that does
// not exist, on an element of another caller, on a volume that does not exist, a second request of the Posted form, on a latch
// that does not exist, a request that posts a block of another caller, and a third request.
const UNANSWERED: &str = "\
    | exit | note | event | forged |
    | 10 | ILLEGAL AT LINE 14 | 0 E0 0 TEST = WORD 0 | 2 E0 0 TEST = WORD 0 |
    | 10 | ILLEGAL AT LINE 17 | 0 E0 3 ARM = ARMED | 1 E0 3 ARM = ARMED |
    | 10 | ILLEGAL AT LINE 19 | 0 E0 5 EXTEND 1 = WAITING | 0 E0 5 EXTEND 2 = WAITING |
    | 10 | ILLEGAL AT LINE 48 | 1 P1 5 OPEN = OPENED 0 | 0 P1 5 OPEN = OPENED 0 |
    | 10 | ILLEGAL AT LINE 81 | 0 V0 2 READ = VALUE 3 | 0 V1 2 READ = VALUE 3 |
    | 10 | ILLEGAL AT LINE 85 | 1 L 3 CONFIRM 0 2 = WAITING | 1 L 3 OBTAIN 0 9 X P2 = QUEUED 3 |
    | 10 | ILLEGAL AT LINE 86 | 1 L 4 CONFIRM 0 0 = GONE | 1 L 4 CONFIRM 1 0 = GONE |
    | 10 | ILLEGAL AT LINE 88 | 0 L 6 OBTAIN 0 9 X W = QUEUED 6 | 0 L 6 OBTAIN 0 9 X P2 = QUEUED 6 |
    | 10 | ILLEGAL AT LINE 95 | 1 L 13 RELEASE 0 12 C = WAITING | 1 L 13 OBTAIN 0 4 S W = QUEUED 13 |
";

#[test]
fn each_cell_of_the_table(rt: HostRuntime) {
    assert_run(&rt, "replay", CELLS, 0, "LEGAL 91 EVENTS\n", "");
    assert_forged(&rt, CELLS, UNANSWERED);
}

// A post that starts an exit; a release and a pause after it, as a transfer makes them; and a pause after a release that was
// refused.
const CALLS: &str = "\
JOURNAL 2
CALLERS 2
ELEMENTS 1
VOLUMES 8
LATCHES 8
QUOTA 8 0
BUDGET 5
BUDGET 6
ECB 1
ECB 1
ECB 1
EXIT 0 1 2
EVENTS
1.0 E2 0 POST 3 = POSTED
1.1 E0 0 EXTEND 1 = ARMED
1.2 E0 1 POST 8 = WOKE 1
1.2 E1 0 POST 8 = POSTED
1.2 E2 1 POST 8 = ALREADY 3
1.3 E1 1 TEST = WORD 1073741832
0.0 P0 0 OPEN = OPENED 0
0.1 P0 1 RELEASE 0 3 = EARLY
0.1 P0 2 PAUSE 0 = GIVEN 3 1
0.2 P0 3 RELEASE 0 4 = SPENT 1
0.3 P0 4 PAUSE 1 = PARKED
END 11
";

// Exits, and no events.
const EXITS: &str = "\
JOURNAL 2
CALLERS 1
ELEMENTS 1
VOLUMES 1
LATCHES 1
QUOTA 16 5
BUDGET 524287
ECB 0
ECB 0
ECB 0
EXIT 0 2 1
EXIT 1 2
EVENTS
END 0
";

// No blocks, and no events.
const NO_EVENT: &str = "\
JOURNAL 1
CALLERS 1
ELEMENTS 1
VOLUMES 8
LATCHES 8
QUOTA 8 0
BUDGET 0
EVENTS
END 0
";

// Each operation and each reply, with numbers at the ends of their ranges. The machine does not admit the first event, whose
// caller does not exist.
const RANGES: &str = "\
JOURNAL 1
CALLERS 1
ELEMENTS 1
VOLUMES 1
LATCHES 1
QUOTA 1 0
BUDGET 524287
EVENTS
4294967295 E4294967295 524286 ARM = ARMED
0 E0 0 EXTEND 1 = LINKED 1
0 E0 0 EXTEND 1073741823 = LINKED 1073741823
0 E0 0 SETTLE = COMPLETE 1073741823
0 E0 0 CLEAR = WORD 4294967295
0 E0 0 POST 1073741823 = POSTED
0 E0 0 POST 0 = WOKE 1073741823
0 E0 0 POST 1 = ALREADY 1073741823
0 E0 0 TEST = WAITING
0 E0 0 TEST = OPEN
0 P4294967295 0 OPEN = OPENED 262143
0 P0 0 OPEN = INUSE
0 P0 0 PAUSE 4294967295 = PARKED
0 P0 0 PAUSE 0 = GIVEN 16777215 262143
0 P0 0 RESUME 4294967295 = NOTYET
0 P0 0 RESUME 1 = SPENT 262143
0 P0 0 RELEASE 4294967295 16777215 = EARLY
0 P0 0 RELEASE 0 1 = WOKE
0 P0 0 RELEASE 1 0 = ALREADY
0 P0 0 CLOSE 4294967295 = CLOSED
0 P0 0 CLOSE 0 = BUSY
0 P0 0 TEST = STATE 262143 FREE 0
0 P0 0 TEST = STATE 0 RESET 0
0 P0 0 TEST = STATE 1 PRERELEASED 16777215
0 P0 0 TEST = STATE 2 PAUSED 0
0 P0 0 TEST = STATE 3 RELEASED 0
0 V4294967295 0 READ = VALUE 4294967295
0 V0 0 WRITE 4294967295 = STORED
0 L 0 OBTAIN 4294967295 18446744073709551615 S C = GRANTED 4294967295
0 L 0 OBTAIN 0 0 X W = QUEUED 4294967295
0 L 0 OBTAIN 0 1 S P4294967295 = NOTNOW 4294967295
0 L 0 CONFIRM 4294967295 0 = WAITING
0 L 0 CONFIRM 0 4294967295 = GONE
0 L 0 RELEASE 0 4294967295 C = RELEASED 4294967295
0 L 0 RELEASE 4294967295 0 U = RELEASED 0
0 L 0 PURGE 18446744073709551615 = PURGED 4294967295 0
END 36
";

fn are_low(entries: &[Entry]) -> bool
    ensures { IsTrue result → All (λ e. e.place ≤ highest_place) entries.now }
{
    entries.iter().all(|e| e.place <= HIGHEST_PLACE)
}

// Asserts that the journal that was read is legal, and that its text in version 2 is this one.
fn assert_converted(rt: &impl Abort, alloc: Global, journal: &Journal, text: &[u8]) {
    assert!(rt; are_low(&journal.entries));
    assert!(rt; journal.entries.len() < 4_294_967_296);
    let Ok(_) = replay(alloc, &journal.config, &journal.entries) else {
        panic!(rt; "an illegal history")
    };
    let Ok(written) = write_journal(alloc, &journal.config, &journal.entries) else {
        panic!(rt; "no memory for a journal")
    };
    assert_bytes(rt, &written, text, "in version 2");
}

// Returns the text in version 1 of a journal that was read.
fn written_again(alloc: Global, journal: &Journal) -> Result<Vec<u8>, NoMemory>
    requires { HasJournal journal.now.config journal.now.entries.items }
{
    write_old_journal(alloc, &journal.config, &journal.entries)
}

// Asserts that a text is read, and that the same journal in version 1 is the text `old`.
fn assert_written_again(rt: &impl Abort, alloc: Global, text: &[u8], old: &[u8]) {
    assert!(rt; text.len() < 10_000);
    let Ok(journal) = read_journal(alloc, text) else {
        panic!(rt; "no journal")
    };
    let Ok(written) = written_again(alloc, &journal) else {
        panic!(rt; "no memory for a journal")
    };
    assert_bytes(rt, &written, old, "in version 1");
}

// Asserts that the call numbers that were read are those that mv_calls computes for a list of entries.
fn assert_numbered(rt: &impl Abort, alloc: Global, journal: &Journal) {
    assert!(rt; are_low(&journal.entries) && journal.entries.len() < 100);
    assert!(rt; journal.calls.len() == journal.entries.len());
    let judged = replay_calls(alloc, &journal.config, &journal.entries, &journal.calls);
    assert!(rt; judged.is_ok());
    let Ok(numbers) = number_calls(alloc, &journal.config, &journal.entries) else {
        panic!(rt; "no memory for numbers")
    };
    assert!(rt; numbers.as_slice() == journal.calls.as_slice());
}

// Asserts that a text of version 2 is read, and that its call numbers are right.
fn assert_calls_read(rt: &impl Abort, alloc: Global, text: &[u8]) {
    assert!(rt; text.len() < 1000);
    let Ok(journal) = read_journal(alloc, text) else {
        panic!(rt; "no journal")
    };
    assert_converted(rt, alloc, &journal, text);
    assert_numbered(rt, alloc, &journal);
}

#[test]
fn entries_of_one_call_have_one_number(rt: HostRuntime) {
    let old = unnumbered(&rt, CALLS);
    assert_run(&rt, "convert", &old, 0, CALLS, "");
    assert_calls_read(&rt, rt.alloc(), CALLS.as_bytes());
}

#[test]
fn exits_and_no_event(rt: HostRuntime) {
    let old = unnumbered(&rt, EXITS);
    assert_run(&rt, "convert", &old, 0, EXITS, "");
    for journal in [&old, NO_EVENT] {
        assert_run(&rt, "replay", journal, 0, "LEGAL 0 EVENTS\n", "");
    }
}

#[test]
fn entries_at_the_ends_of_their_ranges(rt: HostRuntime) {
    assert_run(&rt, "replay", RANGES, 10, "ILLEGAL AT LINE 9\n", "");
    let text = RANGES.as_bytes();
    assert_written_again(&rt, rt.alloc(), text, text);
}

#[test]
fn a_journal_of_version_2_is_written_in_version_1(rt: HostRuntime) {
    let old = unnumbered(&rt, PAUSE);
    assert_written_again(&rt, rt.alloc(), PAUSE.as_bytes(), old.as_bytes());
}
