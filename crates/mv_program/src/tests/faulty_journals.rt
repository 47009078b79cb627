//! Texts that are not journals, each with the line and the kind of its first fault, worked out by hand.

use super::*;

// The six lines of a head up to the quotas.
const COUNTS: &str = "JOURNAL 1\nCALLERS 1\nELEMENTS 1\nVOLUMES 1\nLATCHES 1\nQUOTA 1 0\n";

// A head of eight lines, the last of them `EVENTS`.
const HEAD: &str =
    "JOURNAL 1\nCALLERS 1\nELEMENTS 1\nVOLUMES 1\nLATCHES 1\nQUOTA 1 0\nBUDGET 5\nEVENTS\n";

// The same head in version 2.
const SECOND_HEAD: &str =
    "JOURNAL 2\nCALLERS 1\nELEMENTS 1\nVOLUMES 1\nLATCHES 1\nQUOTA 1 0\nBUDGET 5\nEVENTS\n";

const HEADS: &str = "\
    | line | kind | text |
    | 1 | 5 |  |
    | 1 | 5 | JOURNAL 1 |
    | 1 | 5 | CALLERS |
    | 2 | 5 | JOURNAL 1; |
    | 1 | 1 | ; |
    | 2 | 5 | JOURNAL 2; |
    | 1 | 1 | JOURNAL 3; |
    | 1 | 1 | JOURNAL 12; |
    | 1 | 1 | JOURNAL 01; |
    | 1 | 1 | journal 1; |
    | 1 | 1 | JOURNAL 1\r; |
    | 1 | 1 |  JOURNAL 1; |
    | 1 | 1 | JOURNAL 1 ; |
    | 1 | 1 | JOURNAL  1; |
    | 1 | 1 | JOURNAL\t1; |
    | 2 | 1 | JOURNAL 1;ELEMENTS 1; |
    | 3 | 1 | JOURNAL 1;CALLERS 1;CALLERS 1; |
    | 2 | 2 | JOURNAL 1;CALLERS 01; |
    | 2 | 2 | JOURNAL 1;CALLERS 00; |
    | 2 | 2 | JOURNAL 1;CALLERS 4294967296; |
    | 2 | 2 | JOURNAL 1;CALLERS 18446744073709551617; |
    | 2 | 2 | JOURNAL 1;\
        CALLERS 1111111111111111111111111111111111111111111111111111111111111111111111111111111111111111111111111111; |
    | 2 | 2 | JOURNAL 1;\
        CALLERS 0000000000000000000000000000000000000000000000000000000000000000000000000000000000000000000000000001; |
    | 2 | 1 | JOURNAL 1;CALLERS +1; |
    | 2 | 1 | JOURNAL 1;CALLERS -1; |
    | 2 | 1 | JOURNAL 1;CALLERS ; |
    | 2 | 1 | JOURNAL 1;CALLERS; |
    | 2 | 1 | JOURNAL 1;CALLERS 1a; |
    | 2 | 1 | JOURNAL 1;CALLERS 1 1; |
    | 2 | 1 | JOURNAL 1;CALLERS 01 ; |
    | 2 | 1 | JOURNAL 1;CALLERS  1; |
    | 2 | 1 | JOURNAL 1;;CALLERS 1; |
";

const LISTS: &str = "\
    | line | kind | text |
    | 7 | 3 | EVENTS; |
    | 7 | 5 | EVENTS |
    | 9 | 3 | BUDGET 5;BUDGET 5;EVENTS; |
    | 7 | 2 | BUDGET 05; |
    | 8 | 3 | BUDGET 524288;EVENTS; |
    | 7 | 2 | BUDGET 4294967296;EVENTS; |
    | 9 | 3 | BUDGET 5;ECB 1;EVENTS; |
    | 8 | 1 | ECB 0;BUDGET 5;EVENTS; |
    | 8 | 2 | BUDGET 5;ECB 00; |
    | 9 | 3 | BUDGET 5;EXIT 0 1;EVENTS; |
    | 11 | 3 | BUDGET 5;ECB 0;ECB 0;EXIT 1 1;EVENTS; |
    | 11 | 3 | BUDGET 5;ECB 0;ECB 0;EXIT 0 1 1 1 1 1 1 1 1 1;EVENTS; |
    | 8 | 1 | BUDGET 5;EXIT 0; |
    | 8 | 1 | BUDGET 5;EXIT 0 ; |
    | 8 | 1 | BUDGET 5;EXIT 0 1 ; |
    | 8 | 1 | BUDGET 5;EXIT  0 1; |
    | 8 | 2 | BUDGET 5;EXIT 0 01; |
    | 8 | 1 | BUDGET 5;EXIT 00 x; |
    | 11 | 1 | BUDGET 5;ECB 0;ECB 0;EXIT 0 1;ECB 0; |
    | 9 | 1 | BUDGET 5;EVENTS;BUDGET 5; |
";

const LIMITS: &str = "\
    | line | kind | text |
    | 7 | 3 | JOURNAL 1;CALLERS 0;ELEMENTS 1;VOLUMES 1;LATCHES 1;QUOTA 1 0;EVENTS;X |
    | 7 | 3 | JOURNAL 1;CALLERS 17;ELEMENTS 1;VOLUMES 1;LATCHES 1;QUOTA 1 0;EVENTS; |
    | 7 | 3 | JOURNAL 1;CALLERS 1;ELEMENTS 0;VOLUMES 1;LATCHES 1;QUOTA 1 0;EVENTS; |
    | 7 | 3 | JOURNAL 1;CALLERS 1;ELEMENTS 17;VOLUMES 1;LATCHES 1;QUOTA 1 0;EVENTS; |
    | 7 | 3 | JOURNAL 1;CALLERS 1;ELEMENTS 1;VOLUMES 9;LATCHES 1;QUOTA 1 0;EVENTS; |
    | 7 | 3 | JOURNAL 1;CALLERS 1;ELEMENTS 1;VOLUMES 1;LATCHES 9;QUOTA 1 0;EVENTS; |
    | 7 | 3 | JOURNAL 1;CALLERS 1;ELEMENTS 1;VOLUMES 1;LATCHES 1;QUOTA 17 0;EVENTS; |
    | 7 | 3 | JOURNAL 1;CALLERS 1;ELEMENTS 1;VOLUMES 1;LATCHES 1;QUOTA 1 2;EVENTS; |
";

#[test]
fn journals_with_a_fault_in_the_head(rt: HostRuntime) {
    for (front, table) in [("", HEADS), (COUNTS, LISTS), ("", LIMITS)] {
        assert_faults(&rt, &JOURNAL, front, table, "");
    }
}

const WORDS: &str = "\
    | line | kind | text |
    | 9 | 1 | ; |
    | 9 | 1 | 0 E0 0 arm = ARMED; |
    | 9 | 1 | 0 e0 0 ARM = ARMED; |
    | 9 | 1 | 0 X0 0 ARM = ARMED; |
    | 9 | 1 | 0 E 0 ARM = ARMED; |
    | 9 | 1 | 0 L0 0 PURGE 1 = GONE; |
    | 9 | 1 | 0  E0 0 ARM = ARMED; |
    | 9 | 1 |  0 E0 0 ARM = ARMED; |
    | 9 | 1 | 0 E0 0 ARM = ARMED ; |
    | 9 | 1 | 0 E0 0 ARM = ARMED\r; |
    | 9 | 1 | 0 E0 0 ARM =  ARMED; |
    | 9 | 1 | 0 E0 0 ARM =ARMED; |
    | 9 | 1 | 0 E0 0 ARM ARMED; |
    | 9 | 1 | 0 E0 0 ARM 1 = ARMED; |
    | 9 | 1 | 0 E0 0 POST = POSTED; |
    | 9 | 1 | 0 E0 ARM = ARMED; |
    | 9 | 1 | 0 E0 -0 ARM = ARMED; |
    | 9 | 1 | 0 E0 0 OPEN = OPENED 0; |
    | 9 | 1 | 0 E0 0 ARM = STORED; |
    | 9 | 1 | 0 P0 0 TEST = STATE 0 LOST 0; |
    | 9 | 1 | 0 P0 0 TEST = STATE 0 FREE; |
    | 9 | 1 | 0 L 0 OBTAIN 0 1 s W = GRANTED 0; |
    | 9 | 1 | 0 L 0 OBTAIN 0 1 S P = GRANTED 0; |
    | 9 | 1 | 0 L 0 OBTAIN 0 1 S P 0 = GRANTED 0; |
    | 9 | 1 | 0 L 0 RELEASE 0 0 X = GONE; |
    | 9 | 1 | 0 L 0 PURGE 1 = PURGED 0; |
    | 9 | 1 | 0 E0 0 ARM = ARMED\u{ff}; |
    | 9 | 1 | 00 E0 0 ARM = LOST; |
    | 9 | 1 | 0.0 E0 0 ARM = ARMED; |
    | 9 | 2 | 00 E0 0 ARM = ARMED;X; |
    | 9 | 5 | 00 E0 0 ARM = ARMED |
";

const NUMBERS: &str = "\
    | line | kind | text |
    | 9 | 2 | 00 E0 0 ARM = ARMED; |
    | 9 | 2 | 4294967296 E0 0 ARM = ARMED; |
    | 9 | 2 | 0 E00 0 ARM = ARMED; |
    | 9 | 2 | 0 V4294967296 0 READ = VALUE 0; |
    | 9 | 2 | 0 E0 00 ARM = ARMED; |
    | 9 | 2 | 0 E0 524287 ARM = ARMED; |
    | 9 | 2 | 0 E0 0 EXTEND 0 = ARMED; |
    | 9 | 2 | 0 E0 0 EXTEND 1073741824 = ARMED; |
    | 9 | 2 | 0 E0 0 POST 1073741824 = POSTED; |
    | 9 | 2 | 0 E0 0 POST 0 = WOKE 1073741824; |
    | 9 | 2 | 0 E0 0 POST 0 = WOKE 00; |
    | 9 | 2 | 0 E0 0 ARM = LINKED 0; |
    | 9 | 2 | 0 E0 0 ARM = COMPLETE 1073741824; |
    | 9 | 2 | 0 E0 0 CLEAR = WORD 4294967296; |
    | 9 | 2 | 0 P0 0 PAUSE 4294967296 = PARKED; |
    | 9 | 2 | 0 P0 0 RELEASE 0 16777216 = EARLY; |
    | 9 | 2 | 0 P0 0 OPEN = OPENED 262144; |
    | 9 | 2 | 0 P0 0 PAUSE 0 = GIVEN 16777216 1; |
    | 9 | 2 | 0 P0 0 PAUSE 0 = GIVEN 0 262144; |
    | 9 | 2 | 0 P0 0 PAUSE 0 = SPENT 262144; |
    | 9 | 2 | 0 P0 0 TEST = STATE 262144 FREE 0; |
    | 9 | 2 | 0 P0 0 TEST = STATE 0 FREE 1; |
    | 9 | 2 | 0 P0 0 TEST = STATE 0 PAUSED 1; |
    | 9 | 2 | 0 P0 0 TEST = STATE 0 RELEASED 16777216; |
    | 9 | 2 | 0 V0 0 WRITE 4294967296 = STORED; |
    | 9 | 2 | 0 L 0 PURGE 18446744073709551616 = PURGED 0 0; |
    | 9 | 2 | 0 L 0 OBTAIN 0 1 S P4294967296 = GRANTED 0; |
    | 9 | 2 | 0 L 0 CONFIRM 01 0 = GONE; |
    | 9 | 2 | 0 L 0 RELEASE 0 01 C = GONE; |
    | 9 | 2 | 0 L 0 PURGE 1 = PURGED 0 4294967296; |
";

const CALLS: &str = "\
    | line | kind | text |
    | 9 | 1 | 0 E0 0 ARM = ARMED; |
    | 9 | 1 | 0. E0 0 ARM = ARMED; |
    | 9 | 1 | .0 E0 0 ARM = ARMED; |
    | 9 | 1 | 0.0.0 E0 0 ARM = ARMED; |
    | 9 | 1 | 0 .0 E0 0 ARM = ARMED; |
    | 9 | 1 | 0.+0 E0 0 ARM = ARMED; |
    | 9 | 1 | 0,0 E0 0 ARM = ARMED; |
    | 9 | 2 | 0.00 E0 0 ARM = ARMED; |
    | 9 | 2 | 00.0 E0 0 ARM = ARMED; |
    | 9 | 2 | 0.4294967296 E0 0 ARM = ARMED; |
    | 9 | 1 | 0.00 E0 0 ARM = LOST; |
    | 9 | 5 | 0.0 E0 0 ARM = ARMED |
";

const ENDS: &str = "\
    | line | kind | text |
    | 9 | 5 |  |
    | 9 | 5 | END 0 |
    | 9 | 1 | END; |
    | 9 | 1 | END 0 0; |
    | 9 | 2 | END 00; |
    | 9 | 2 | END 4294967296; |
    | 9 | 4 | END 1; |
    | 10 | 4 | 0 E0 0 ARM = ARMED;END 0; |
    | 10 | 5 | 0 E0 0 ARM = ARMED; |
    | 10 | 1 | END 0;; |
    | 10 | 1 | END 0;END 0; |
    | 10 | 5 | END 0;X |
    | 9 | 4 | END 1;; |
";

#[test]
fn journals_with_a_fault_in_an_entry(rt: HostRuntime) {
    for (front, table) in [
        (HEAD, WORDS),
        (HEAD, NUMBERS),
        (SECOND_HEAD, CALLS),
        (HEAD, ENDS),
    ] {
        assert_faults(&rt, &JOURNAL, front, table, "");
    }
}

// One block more than the limit of 131,072. The fault is on the line of EVENTS.
const ONE_BLOCK_TOO_MANY: &str = "\
    | line | kind | text |
    | 131081 | 3 | EVENTS; |
";

#[test]
fn a_journal_with_a_block_too_many(rt: HostRuntime) {
    let blocks = made(&rt, "ECB 0\n".repeat(rt.alloc(), 131_073));
    let front = made(&rt, format!(in rt.alloc(); "{COUNTS}BUDGET 5\n{blocks}"));
    assert_faults(&rt, &JOURNAL, &front, ONE_BLOCK_TOO_MANY, "");
}
