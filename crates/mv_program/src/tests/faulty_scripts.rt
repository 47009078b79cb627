//! The first fault of each script, worked out by hand; line 0 and kind 0 if it has none. Each kind is here, and each two
//! kinds that can occur together in a line.

use super::*;

// How a text is cut into lines, and scripts without END.
const CUTS: &str = "\
    | line | kind | text |
    | 1 | 9 |  |
    | 3 | 9 | ;; |
    | 2 | 9 | \r |
    | 2 | 9 | SCRIPT 1 |
    | 4 | 9 | SCRIPT 1;TASK; ; |
    | 0 | 0 | SCRIPT 1;TASK;END |
    | 0 | 0 | ;SCRIPT  1 \r;\r;TASK\r;END\r;  ;\r |
    | 0 | 0 | SCRIPT 8;TASK;TASK;TASK;TASK;TASK;TASK;TASK;TASK;END |
    | 0 | 0 | SCRIPT 1;ECB 0;ECB 0;EXIT 0 1;EXIT 0 1 1 1 1;TASK;END |
";

// Lines before SCRIPT: none is allowed there, and a line that also names what does not exist has kind 4.
const BEFORE_THE_SCRIPT: &str = "\
    | line | kind | text |
    | 1 | 5 | TASK |
    | 1 | 5 | END |
    | 1 | 5 | ALLOC |
    | 1 | 5 | READ 0 |
    | 1 | 5 | WAIT 0 |
    | 1 | 5 | CHECK 0 |
    | 1 | 5 | EOT 1 - 0 |
    | 1 | 4 | ECB 0 |
    | 1 | 4 | EXIT 0 0 |
    | 1 | 4 | TEST 0 |
    | 1 | 4 | PAUSE 0.0 |
    | 1 | 4 | TESTP 0 |
    | 1 | 4 | READ 8 |
    | 1 | 4 | TABLE 0 0 0 0 0 1 |
";

// A second SCRIPT, and lines after the ones that they should precede.
const OUT_OF_ORDER: &str = "\
    | line | kind | text |
    | 2 | 5 | SCRIPT 1;SCRIPT 1 |
    | 5 | 5 | SCRIPT 1;ECB 0;ECB 0;EXIT 0 1;ECB 0 |
    | 3 | 5 | SCRIPT 1;TASK;ECB 0 |
    | 5 | 5 | SCRIPT 1;ECB 0;ECB 0;TASK;EXIT 0 1 |
    | 2 | 5 | SCRIPT 1;ALLOC |
    | 4 | 5 | SCRIPT 1;TASK;END;END |
    | 4 | 5 | SCRIPT 1;TASK;END;ALLOC |
    | 4 | 5 | SCRIPT 1;TASK;END;ECB 0 |
    | 4 | 5 | SCRIPT 1;TASK;END;SCRIPT 1 |
";

// The kinds of a line by its bytes, and counts, exits and OBTAINs.
const BYTES_AND_COUNTS: &str = "\
    | line | kind | text |
    | 1 | 1 | SCRIPT 1\r\r |
    | 1 | 1 | SCRIPT\t1 |
    | 1 | 1 | X\x7f |
    | 1 | 1 | \u{80} |
    | 1 | 2 |                                                                                   |
    | 2 | 9 |                                                                                 \r |
    | 3 | 6 | SCRIPT 1;TASK;TASK |
    | 3 | 6 | SCRIPT 2;TASK;END |
    | 2 | 6 | SCRIPT 1;END |
    | 3 | 7 | SCRIPT 1;ECB 0;EXIT 0 0 |
    | 4 | 7 | SCRIPT 1;ECB 0;ECB 0;EXIT 1 0 |
    | 5 | 7 | SCRIPT 1;ECB 0;ECB 0;ECB 0;EXIT 1 2 1 |
    | 3 | 8 | SCRIPT 1;TASK;CHECK 0 |
    | 3 | 8 | SCRIPT 1;TASK;FREE 0 U |
    | 5 | 8 | SCRIPT 2;TASK;OBTAIN 0 1 S COND;TASK;CHECK 1 |
    | 4 | 8 | SCRIPT 1;TASK;OBTAIN 8 1 S COND;FREE 2 U |
    | 0 | 0 | SCRIPT 1;TASK;OBTAIN 0 1 S COND;FREE 1 C;CHECK 1;END |
";

// Two kinds occur together in a line, and the lower one is the fault. In the last two rows a later line has a lower kind or
// not, and the fault is in the first line.
const MEETING: &str = "\
    | line | kind | text |
    | 1 | 1 | \t                                                                                 |
    | 1 | 1 | ALLOC\t |
    | 1 | 2 | XXXXXXXXXXXXXXXXXXXXXXXXXXXXXXXXXXXXXXXXXXXXXXXXXXXXXXXXXXXXXXXXXXXXXXXXXXXXXXXXX |
    | 2 | 4 | SCRIPT 1;SCRIPT 9 |
    | 3 | 4 | SCRIPT 1;TASK;ECB 1 |
    | 3 | 4 | SCRIPT 1;TASK;EXIT 0 1 |
    | 4 | 4 | SCRIPT 1;TASK;END;READ 8 |
    | 3 | 4 | SCRIPT 1;ECB 0;EXIT 0 0 1 |
    | 3 | 4 | SCRIPT 1;TASK;CHECK 00 |
    | 3 | 4 | SCRIPT 1;TASK;FREE 4294967296 C |
    | 4 | 5 | SCRIPT 1;TASK;END;TASK |
    | 4 | 5 | SCRIPT 1;ECB 0;TASK;EXIT 0 0 |
    | 2 | 5 | SCRIPT 1;CHECK 1 |
    | 4 | 5 | SCRIPT 1;TASK;END;FREE 1 U |
    | 2 | 4 | SCRIPT 1;ECB 1;\t |
    | 3 | 6 | SCRIPT 1;TASK;TASK;X |
";

#[test]
fn scripts_whose_lines_are_out_of_order(rt: HostRuntime) {
    for table in [
        CUTS,
        BEFORE_THE_SCRIPT,
        OUT_OF_ORDER,
        BYTES_AND_COUNTS,
        MEETING,
    ] {
        assert_faults(&rt, &SCRIPT, "", table, "");
    }
}

// Eighty spaces: a line that ends with them is ignored or too long.
const SPACES: &str =
    "                                                                                ";

// A line of eighty spaces is ignored. Lines that are too long: with no other kind in the second row and the last, and with each
// kind that can occur with it in the rows between them.
const TOO_LONG: &str = "\
    | line | kind | text |
    | 2 | 9 |  |
    | 1 | 2 |   |
    | 1 | 1 | \t |
    | 1 | 2 | X |
    | 1 | 2 | SCRIPT 9 |
    | 1 | 2 | TASK |
    | 2 | 2 | SCRIPT 1;END |
    | 3 | 2 | SCRIPT 1;ECB 0;EXIT 0 0 |
    | 3 | 2 | SCRIPT 1;TASK;CHECK 1 |
    | 3 | 2 | SCRIPT 1;TASK;END |
";

#[test]
fn scripts_whose_lines_are_too_long(rt: HostRuntime) {
    assert_faults(&rt, &SCRIPT, "", TOO_LONG, SPACES);
}

// A head of three lines.
const HEAD: &str = "SCRIPT 1\nECB 0\nTASK\n";

// Calls with the lowest and the highest of their numbers. The fault is in the line after them.
const GOOD_CALLS: &str = "\
    | line | kind | text |
    | 5 | 3 | WAIT 0 |
    | 5 | 3 | WAIT 99 0 0 0 0 0 0 0 0 |
    | 5 | 3 | POST  0  1073741823 |
    | 5 | 3 | TRYPOST 0 524286 0 |
    | 5 | 3 | EXTEND 0 4294967295 |
    | 5 | 3 | WRITE 7 4294967295 |
    | 5 | 3 | PAUSE 3.262142 |
    | 5 | 3 | RELEASE 0.0 16777215 |
    | 5 | 3 | TRANSFER - 0.0 0 |
    | 5 | 3 | OBTAIN 99 18446744073709551615 X ECB 0 |
    | 5 | 3 | EOT 0 - 0 |
    | 5 | 3 | EOT 0 0 1073741823 |
";

// Malformed lines; in the last rows a number is bad too.
const NO_FORMS: &str = "\
    | line | kind | text |
    | 4 | 3 |  ALLOC |
    | 4 | 3 | alloc |
    | 4 | 3 | ALLOC 0 |
    | 4 | 3 | TASK 0 |
    | 4 | 3 | END 0 |
    | 4 | 3 | WAIT |
    | 4 | 3 | WAIT X |
    | 4 | 3 | WAIT 9 0 0 0 0 0 0 0 0 0 |
    | 4 | 3 | POST 0 |
    | 4 | 3 | POST 0 1 2 |
    | 4 | 3 | POST 0 -1 |
    | 4 | 3 | TRYPOST 0 0 |
    | 4 | 3 | PAUSE 0 |
    | 4 | 3 | PAUSE 0. |
    | 4 | 3 | PAUSE .0 |
    | 4 | 3 | PAUSE 0.0.0 |
    | 4 | 3 | DEALLOC - |
    | 4 | 3 | TRANSFER 0.0 - 1 |
    | 4 | 3 | OBTAIN 0 1 S |
    | 4 | 3 | OBTAIN 0 1 s COND |
    | 4 | 3 | OBTAIN 0 1 S COND 0 |
    | 4 | 3 | OBTAIN 0 1 S ECB |
    | 4 | 3 | OBTAIN 0 1 S ECB 0 0 |
    | 4 | 3 | FREE 1 |
    | 4 | 3 | FREE 1 S |
    | 4 | 3 | EOT 1 - |
    | 4 | 3 | EOT - - 0 |
    | 4 | 3 | EVNEXT |
    | 4 | 3 | EVPOST 0 |
    | 4 | 3 | EVPOST 0 X |
    | 4 | 3 | TABLE 0 0 0 0 0 |
    | 4 | 3 | TABLE 0 0 0 0 0 1 1 |
    | 4 | 3 | TABLE 1 100 8 1 1 X |
    | 4 | 3 | POST 01 X |
    | 4 | 3 | WAIT 01 0 X |
    | 4 | 3 | WAIT X 1 |
    | 4 | 3 | EXIT 0 1 1 1 1 1 |
    | 4 | 3 | TRANSFER 4.0 0.0 X |
    | 4 | 3 | OBTAIN 100 1 Y COND |
";

// Numbers that have a leading zero, are out of their ranges, or name what does not exist.
const BAD_NUMBERS: &str = "\
    | line | kind | text |
    | 4 | 4 | SCRIPT 01 |
    | 4 | 4 | ECB 00 |
    | 4 | 4 | WAIT 100 |
    | 4 | 4 | WAIT 1 0 1 |
    | 4 | 4 | WAIT 1 00 |
    | 4 | 4 | POST 1 0 |
    | 4 | 4 | POST 0 1073741824 |
    | 4 | 4 | POST 0 00000000000000000000000000000 |
    | 4 | 4 | TRYPOST 0 524287 0 |
    | 4 | 4 | EXTEND 0 4294967296 |
    | 4 | 4 | READ 8 |
    | 4 | 4 | WRITE 0 4294967296 |
    | 4 | 4 | PAUSE 4.0 |
    | 4 | 4 | PAUSE 0.262143 |
    | 4 | 4 | PAUSE 00.0 |
    | 4 | 4 | RELEASE 0.0 16777216 |
    | 4 | 4 | TRANSFER 4.0 0.0 0 |
    | 4 | 4 | TESTP 4 |
    | 4 | 4 | OBTAIN 100 1 S COND |
    | 4 | 4 | OBTAIN 0 18446744073709551616 S COND |
    | 4 | 4 | OBTAIN 0 1 S ECB 1 |
    | 4 | 4 | PURGE 99999999999999999999999999 |
    | 4 | 4 | EOT 1 1 0 |
    | 4 | 4 | CHECK 4294967296 |
    | 4 | 4 | EVPOST 0 0 |
    | 4 | 4 | EVNEXT 0 |
    | 4 | 4 | TABLE 1 0 0 0 0 1 |
    | 4 | 4 | TABLE 0 100 0 0 0 1 |
    | 4 | 4 | TABLE 0 0 8 0 0 1 |
    | 4 | 4 | TABLE 0 0 0 1 0 1 |
    | 4 | 4 | TABLE 0 0 0 0 1 1 |
    | 4 | 4 | TABLE 0 0 0 0 0 100 |
";

// Lines that are not calls: malformed ones, and ones with a bad number.
const OTHER_LINES: &str = "\
    | line | kind | text |
    | 1 | 4 | SCRIPT 0 |
    | 1 | 4 | SCRIPT 9 |
    | 1 | 3 | SCRIPT |
    | 1 | 3 | SCRIPT 1 1 |
    | 1 | 3 | SCRIPT X |
    | 2 | 4 | SCRIPT 1;ECB 1 |
    | 2 | 3 | SCRIPT 1;ECB |
    | 3 | 3 | SCRIPT 1;ECB 0;EXIT 0 |
    | 3 | 3 | SCRIPT 1;ECB 0;EXIT 0 1 1 1 1 1 |
";

#[test]
fn scripts_with_calls_that_are_none(rt: HostRuntime) {
    for (front, table, behind) in [
        (HEAD, GOOD_CALLS, "\nX\nEND\n"),
        (HEAD, NO_FORMS, "\nEND\n"),
        (HEAD, BAD_NUMBERS, "\nEND\n"),
        ("", OTHER_LINES, ""),
    ] {
        assert_faults(&rt, &SCRIPT, front, table, behind);
    }
}

// As many blocks as the limit allows, and one more, which may also name a task that does not exist.
const MANY_BLOCKS: &str = "\
    | line | kind | text |
    | 0 | 0 | TASK;END |
    | 66 | 6 | ECB 0 |
    | 66 | 4 | ECB 1 |
    | 67 | 5 | TASK;ECB 0 |
";

// As many exits as the limit allows, and one more, which may also lead down.
const MANY_EXITS: &str = "\
    | line | kind | text |
    | 0 | 0 | TASK;END |
    | 20 | 6 | EXIT 0 1 |
    | 20 | 6 | EXIT 1 0 |
    | 20 | 4 | EXIT 0 2 |
    | 21 | 5 | TASK;EXIT 0 1 |
";

// As many calls as the limit allows, and one more, which may also name an OBTAIN that does not exist. The limit is for each
// task.
const MANY_CALLS: &str = "\
    | line | kind | text |
    | 0 | 0 | TASK;READ 0;END |
    | 131 | 6 | READ 0 |
    | 131 | 6 | CHECK 1 |
    | 131 | 4 | READ 8 |
    | 131 | 6 | END |
";

// Asserts the faults of scripts by a table, after a front and this many copies of a line.
fn assert_behind<X: Abort + AllocGlobal + Threads + Wait + Clock + Sync>(
    rt: &X,
    front: &str,
    line: &str,
    times: usize,
    table: &str,
) {
    let lines = made(rt, line.repeat(rt.alloc(), times));
    let all = made(rt, format!(in rt.alloc(); "{front}{lines}"));
    assert_faults(rt, &SCRIPT, &all, table, "");
}

#[test]
fn scripts_with_one_too_many(rt: HostRuntime) {
    for (front, line, times, table) in [
        ("SCRIPT 1\n", "ECB 0\n", 64, MANY_BLOCKS),
        ("SCRIPT 1\nECB 0\nECB 0\n", "EXIT 0 1\n", 16, MANY_EXITS),
        ("SCRIPT 2\nTASK\n", "READ 0\n", 128, MANY_CALLS),
    ] {
        assert_behind(&rt, front, line, times, table);
    }
}

// Exits from each of the blocks 7 to 15 to four times the next block. So block 16 reaches 1, block 15 reaches 5, and so on up
// to block 8 with 87,381 and block 7 with 349,525. The head has 27 lines.
const CHAIN: &str = "\
    SCRIPT 1\n\
    ECB 0\nECB 0\nECB 0\nECB 0\nECB 0\nECB 0\nECB 0\nECB 0\nECB 0\n\
    ECB 0\nECB 0\nECB 0\nECB 0\nECB 0\nECB 0\nECB 0\nECB 0\n\
    EXIT 7 8 8 8 8\nEXIT 8 9 9 9 9\nEXIT 9 10 10 10 10\n\
    EXIT 10 11 11 11 11\nEXIT 11 12 12 12 12\nEXIT 12 13 13 13 13\n\
    EXIT 13 14 14 14 14\nEXIT 14 15 15 15 15\nEXIT 15 16 16 16 16\n";

// The costs of calls: 349,525 and twice 87,381 are 524,287, and a PURGE costs more than that. If a call costs too much and has
// another fault, the other fault is the first.
const COSTS: &str = "\
    | line | kind | text |
    | 0 | 0 | TASK;POST 7 0;POST 8 0;POST 8 0;END |
    | 32 | 10 | TASK;POST 7 0;POST 8 0;POST 8 0;READ 0;END |
    | 0 | 0 | TASK;POST 7 0;POST 8 0;POST 8 0;WAIT 0;END |
    | 32 | 1 | TASK;POST 7 0;POST 8 0;POST 8 0;READ\t0;END |
    | 32 | 3 | TASK;POST 7 0;POST 8 0;POST 8 0;READ;END |
    | 32 | 4 | TASK;POST 7 0;POST 8 0;POST 8 0;READ 8;END |
    | 32 | 8 | TASK;POST 7 0;POST 8 0;POST 8 0;CHECK 1;END |
    | 32 | 6 | TASK;POST 7 0;POST 8 0;POST 8 0;TASK;END |
    | 33 | 10 | TABLE 0 0 0 0 3 3;TASK;POST 7 0;POST 8 0;POST 8 0;POST 0 0 |
    | 30 | 10 | TABLE 0 0 0 0 3 3;TASK;EVPOST 0 0 |
    | 29 | 10 | TASK;PURGE 1;END |
    | 30 | 10 | TASK;POST 7 0;EOT 1 - 0;END |
    | 30 | 5 | TASK;END;PURGE 1 |
";

// A call that costs too much, on a line that is too long.
const LONG_COSTS: &str = "\
    | line | kind | text |
    | 32 | 2 | TASK;POST 7 0;POST 8 0;POST 8 0;READ 0 |
";

// After three calls that cost all that is allowed, and 125 more that cost nothing, one more call is too many and costs too
// much.
const MANY_COSTS: &str = "\
    | line | kind | text |
    | 0 | 0 | END |
    | 157 | 6 | READ 0 |
    | 157 | 6 | WAIT 0 |
";

#[test]
fn scripts_whose_calls_cost_too_much(rt: HostRuntime) {
    assert_faults(&rt, &SCRIPT, CHAIN, COSTS, "");
    assert_faults(&rt, &SCRIPT, CHAIN, LONG_COSTS, SPACES);
    let posts = "TASK\nPOST 7 0\nPOST 8 0\nPOST 8 0\n";
    let front = made(&rt, format!(in rt.alloc(); "{CHAIN}{posts}"));
    assert_behind(&rt, &front, "WAIT 0\n", 125, MANY_COSTS);
}

// Four blocks of task 0, and one of task 1, in a head of six lines.
const BLOCKS: &str = "SCRIPT 2\nECB 0\nECB 0\nECB 0\nECB 0\nECB 1\n";

// Tables where none is allowed, and each refusal of a table except that of a volume that does not exist.
const TABLES: &str = "\
    | line | kind | text |
    | 7 | 12 | TABLE 0 0 0 0 2 0 |
    | 7 | 12 | TABLE 0 0 0 0 2 33 |
    | 7 | 12 | TABLE 0 0 0 0 2 3 |
    | 7 | 12 | TABLE 0 0 0 0 1 2 |
    | 7 | 12 | TABLE 1 0 0 0 2 2 |
    | 7 | 12 | TABLE 0 0 0 1 3 2 |
    | 7 | 12 | TABLE 0 8 0 0 2 2 |
    | 8 | 12 | EXIT 0 4;TABLE 0 0 0 0 2 2 |
    | 8 | 6 | TABLE 0 0 0 2 0 2;TABLE 0 0 0 0 2 2 |
    | 8 | 6 | TABLE 0 0 0 2 0 2;TABLE 0 0 0 0 2 0 |
    | 8 | 5 | TABLE 0 0 0 2 0 2;ECB 0 |
    | 8 | 5 | TABLE 0 0 0 2 0 2;EXIT 0 1 |
    | 8 | 5 | TASK;TABLE 0 0 0 0 2 0 |
    | 9 | 5 | TABLE 0 0 0 2 0 2;TASK;TABLE 0 0 0 2 0 2 |
";

// After a table with latch 3 and volume 4: calls on it, and calls that use its parts or others. If they have no fault, the
// fault is in the line after them.
const USES: &str = "\
    | line | kind | text |
    | 9 | 4 | EVPOST 2 0 |
    | 9 | 4 | EVPOST 0 1073741824 |
    | 9 | 4 | EVNEXT 100 |
    | 9 | 11 | WAIT 1 4 3 |
    | 9 | 11 | POST 0 1 |
    | 9 | 11 | TRYPOST 1 0 0 |
    | 9 | 11 | CLEAR 2 |
    | 9 | 11 | EXTEND 3 1 |
    | 9 | 11 | WRITE 4 0 |
    | 9 | 11 | OBTAIN 3 1 S COND |
    | 9 | 11 | OBTAIN 0 9223372036854775808 S COND |
    | 9 | 11 | OBTAIN 0 1 S ECB 3 |
    | 9 | 11 | PURGE 9223372036854775808 |
    | 9 | 11 | EOT 9223372036854775808 - 0 |
    | 9 | 11 | EOT 1 2 0 |
    | 11 | 3 | EVPOST 1 1073741823;EVNEXT 99;X |
    | 14 | 3 | WAIT 1 4;POST 4 0;TEST 0;READ 4;WRITE 3 0;X |
    | 13 | 3 | OBTAIN 2 9223372036854775807 X ECB 4;FREE 1 U;PURGE 9223372036854775807;EOT 0 4 0;X |
";

#[test]
fn scripts_with_a_table(rt: HostRuntime) {
    assert_faults(&rt, &SCRIPT, BLOCKS, TABLES, "\nTASK\nTASK\nEND\n");
    let front = made(
        &rt,
        format!(in rt.alloc(); "{BLOCKS}TABLE 0 3 4 0 2 2\nTASK\n"),
    );
    assert_faults(&rt, &SCRIPT, &front, USES, "\nTASK\nEND\n");
}
