//! Scripts of each service; scripts whose calls use what is another task's, what is over, or more than there is; and scripts
//! with a fault. Their answers were worked out by hand.

use super::*;

// Waits, posts and exits; volumes; pauses, releases and transfers; latches, and the end of a task.
const SERVICES: &str = "\
    | command | input \
      | exit | output \
      | journal |
    | script | SCRIPT 1;ECB 0;ECB 0;ECB 0;TASK;POST 0 7;POST 2 9;WAIT 2 0 1 2;TEST 1;END; \
      | 0 | 0 1 POSTED;0 2 POSTED;0 3 WAITED C7 O C9;0 4 WORD 0; \
      | 0.0 E0 0 POST 7 = POSTED;0.1 E2 0 POST 9 = POSTED;0.2 E0 1 ARM = COMPLETE 7;0.2 E1 0 ARM = ARMED;\
        0.2 E2 1 ARM = COMPLETE 9;0.2 E0 2 SETTLE = COMPLETE 7;0.2 E1 1 SETTLE = OPEN;0.2 E2 2 SETTLE = COMPLETE 9;\
        0.3 E1 2 TEST = WORD 0;END 9; |
    | script | SCRIPT 1;ECB 0;ECB 0;ECB 0;EXIT 0 1 2;TASK;POST 2 3;EXTEND 0 1;WAIT 1 0;POST 0 8;TEST 1;TEST 2;END; \
      | 0 | 0 1 POSTED;0 2 DONE;0 3 EXTENDED 0;0 4 WOKE;0 5 WORD 1073741832;0 6 WORD 1073741827; \
      | 0.0 E2 0 POST 3 = POSTED;0.1 E0 0 EXTEND 1 = ARMED;0.2 E0 1 POST 8 = WOKE 1;0.2 E1 0 POST 8 = POSTED;\
        0.2 E2 1 POST 8 = ALREADY 3;0.3 E1 1 TEST = WORD 1073741832;0.4 E2 2 TEST = WORD 1073741827;END 7; |
    | script | SCRIPT 1;ECB 0;TASK;TRYPOST 0 0 5;TRYPOST 0 0 6;END; \
      | 0 | 0 1 POSTED;0 2 MOVED 1 1073741829; \
      | 0.0 E0 0 POST 5 = POSTED;END 1; |
    | script | SCRIPT 1;TASK;ALLOC;RELEASE 0.0 5;RELEASE 0.0 6;PAUSE 0.0;END; \
      | 0 | 0 1 TOKEN 0.0;0 2 EARLY;0 3 ALREADY;0 4 GIVEN 5 0.1; \
      | END 4; |
    | script | SCRIPT 1;TASK;ALLOC;ALLOC;ALLOC;ALLOC;ALLOC;END; \
      | 0 | 0 1 TOKEN 0.0;0 2 TOKEN 1.0;0 3 TOKEN 2.0;0 4 TOKEN 3.0;0 5 NOELEMENT; \
      | END 4; |
    | script | SCRIPT 1;TASK;ALLOC;TRYRELEASE 0.0 1 5;TRYRELEASE 0.0 2 6;PAUSE 0.0;END; \
      | 0 | 0 1 TOKEN 0.0;0 2 EARLY;0 3 MOVED 2 33554437;0 4 GIVEN 5 0.1; \
      | END 3; |
    | script | SCRIPT 1;TASK;ALLOC;TRANSFER - 0.0 3;TRANSFER - 0.0 4;PAUSE 0.0;END; \
      | 0 | 0 1 TOKEN 0.0;0 2 DONE;0 3 TARGET ALREADY;0 4 GIVEN 3 0.1; \
      | END 4; |
    | script | SCRIPT 1;TASK;ALLOC;DEALLOC 0.0;TRANSFER 0.0 1.0 1;END; \
      | 0 | 0 1 TOKEN 0.0;0 2 DONE;0 3 SPENT 1; \
      | END 2; |
    | script | SCRIPT 1;TASK;OBTAIN 0 1 S COND;OBTAIN 0 2 X COND;FREE 1 U;END; \
      | 0 | 0 1 GRANTED;0 2 NOTNOW 0;0 3 RELEASED 0; \
      | END 3; |
    | script | SCRIPT 1;ECB 0;TASK;OBTAIN 0 1 X COND;OBTAIN 0 2 X ECB 0;TEST 0;FREE 1 C;TEST 0;CHECK 2;FREE 1 C;END; \
      | 0 | 0 1 GRANTED;0 2 PENDING;0 3 WORD 0;0 4 RELEASED 1;0 5 WORD 1073741824;0 6 GRANTED;0 7 GONE; \
      | END 8; |
    | script | SCRIPT 1;TASK;ALLOC;OBTAIN 0 5 X COND;EOT 5 - 0;TESTP 0;DEALLOC 0.0;END; \
      | 0 | 0 1 TOKEN 0.0;0 2 GRANTED;0 3 PURGED 1 0;0 4 STATE 1 FREE 0;0 5 SPENT 1; \
      | END 6; |
    | script | SCRIPT 1;ECB 0;TASK;WAIT 0 0;TEST 0;WRITE 0 4294967295;READ 0;END; \
      | 0 | 0 1 WAITED O;0 2 WORD 0;0 3 DONE;0 4 VALUE 4294967295; \
      | END 5; |
    | script | SCRIPT 1;ECB 0;ECB 0;TASK;OBTAIN 0 9 X COND;OBTAIN 0 9 S ECB 0;OBTAIN 0 5 X ECB 1;FREE 3 C;PURGE 9;TEST 0;\
        TEST 1;END; \
      | 0 | 0 1 GRANTED;0 2 PENDING;0 3 PENDING;0 4 WAITING;0 5 PURGED 2 1;0 6 WORD 1073741825;0 7 WORD 1073741824; \
      | 0.0 L 0 OBTAIN 0 9 X C = GRANTED 0;0.1 L 1 OBTAIN 0 9 S P0 = QUEUED 1;0.2 L 2 OBTAIN 0 5 X P1 = QUEUED 2;\
        0.3 L 3 RELEASE 0 2 C = WAITING;0.4 L 4 PURGE 9 = PURGED 2 1;0.4 E0 0 POST 1 = POSTED;0.4 E1 0 POST 0 = POSTED;\
        0.5 E0 1 TEST = WORD 1073741825;0.6 E1 1 TEST = WORD 1073741824;END 9; |
    | script | SCRIPT 1;ECB 0;ECB 0;ECB 0;TASK;OBTAIN 0 1 X COND;OBTAIN 0 2 S ECB 2;OBTAIN 0 3 S ECB 0;OBTAIN 0 4 S ECB 1;\
        FREE 1 C;END; \
      | 0 | 0 1 GRANTED;0 2 PENDING;0 3 PENDING;0 4 PENDING;0 5 RELEASED 3; \
      | 0.4 L 4 RELEASE 0 0 C = RELEASED 3;0.4 E2 0 POST 0 = POSTED;0.4 E0 0 POST 0 = POSTED;0.4 E1 0 POST 0 = POSTED;END 8; |
    | script | SCRIPT 1;TASK;ALLOC;ALLOC;DEALLOC 0.0;ALLOC;END; \
      | 0 | 0 1 TOKEN 0.0;0 2 TOKEN 1.0;0 3 DONE;0 4 TOKEN 0.1; \
      | END 4; |
    | script | SCRIPT 1;ECB 0;TASK;ALLOC;ALLOC;EOT 5 0 7;TEST 0;END; \
      | 0 | 0 1 TOKEN 0.0;0 2 TOKEN 1.0;0 3 PURGED 0 0;0 4 WORD 1073741831; \
      | END 7; |
    | script | SCRIPT 1;ECB 0;ECB 0;ECB 0;ECB 0;ECB 0;ECB 0;TABLE 0 0 0 0 3 3;TASK;EVPOST 2 7;EVPOST 0 9;EVPOST 2 1;EVNEXT 0;\
        EVNEXT 1;EVNEXT 3;END; \
      | 0 | 0 1 ENTERED 0;0 2 ENTERED 1;0 3 ALREADY 7;0 4 EVENT 2 1073741831;0 5 EVENT 0 1073741833;0 6 DRAINED; \
      | END 21; |
";

// Calls on blocks and elements of other tasks, and on blocks that are extended; and invalid lists of a wait. If there are two
// reasons to refuse a call, the answer is the first.
const OTHERS: &str = "\
    | command | input \
      | exit | output \
      | journal |
    | script | SCRIPT 2;ECB 0;ECB 1;TASK;WAIT 1 1;WAIT 1 0 1;WAIT 3 1 1;WAIT 0 1 0 1;CLEAR 1;EXTEND 1 1;OBTAIN 0 1 X ECB 1;\
        TASK;END; \
      | 0 | 0 1 NOTOWNER 0;0 2 NOTOWNER 1;0 3 TOOMANY;0 4 DOUBLED 2;0 5 NOTOWNER;0 6 NOTOWNER;0 7 NOTOWNER; \
      | END 0; |
    | script | SCRIPT 2;TASK;PAUSE 4.0;DEALLOC 4.0;TRANSFER 4.0 4.0 1;RELEASE 4.0 1;TASK;END; \
      | 0 | 0 1 NOTOWNER;0 2 NOTOWNER;0 3 NOTOWNER;0 4 SPENT 0; \
      | END 1; |
    | script | SCRIPT 1;ECB 0;ECB 0;ECB 0;EXIT 0 1;EXIT 1 2;TASK;EXTEND 0 1;EXTEND 0 1;EXTEND 0 2;WAIT 1 0;EXTEND 1 1;CLEAR 0;\
        POST 0 2;EXTEND 0 1;TEST 1;END; \
      | 0 | 0 1 DONE;0 2 EXTENDED;0 3 BADEXIT;0 4 EXTENDED 0;0 5 BADEXIT;0 6 WORD 2147483649;0 7 POSTED;0 8 COMPLETE 2;\
        0 9 WORD 0; \
      | END 5; |
    | script | SCRIPT 1;ECB 0;TASK;WAIT 0;WAIT 2 0;WAIT 1 0 0;END; \
      | 0 | 0 1 WAITED;0 2 TOOMANY;0 3 DOUBLED 1; \
      | END 0; |
    | script | SCRIPT 2;ECB 0;ECB 0;TABLE 0 0 0 0 1 1;TASK;TASK;EVNEXT 0;END; \
      | 0 | 1 1 NOTOWNER; \
      | END 0; |
";

// Tokens and codes at the ends of their ranges: a token that is over is SPENT, a code that reaches no pause is lost with its
// element, and the highest codes are valid.
const OVER: &str = "\
    | command | input \
      | exit | output \
      | journal |
    | script | SCRIPT 1;TASK;ALLOC;DEALLOC 0.0;ALLOC;PAUSE 0.0;RELEASE 0.0 1;TRANSFER 0.0 0.1 2;TRANSFER 0.1 0.1 16777215;\
        DEALLOC 0.1;END; \
      | 0 | 0 1 TOKEN 0.0;0 2 DONE;0 3 TOKEN 0.1;0 4 SPENT 1;0 5 SPENT 1;0 6 SPENT 1;0 7 GIVEN 16777215 0.2;0 8 SPENT 2; \
      | END 8; |
    | script | SCRIPT 1;ECB 0;TASK;POST 0 1073741823;CLEAR 0;TEST 0;END; \
      | 0 | 0 1 POSTED;0 2 WORD 2147483647;0 3 WORD 0; \
      | END 3; |
    | script | SCRIPT 1;TASK;ALLOC;RELEASE 0.0 16777215;PAUSE 0.0;PAUSE 0.0;ALLOC;RELEASE 1.0 4;DEALLOC 1.0;RELEASE 1.0 4;END; \
      | 0 | 0 1 TOKEN 0.0;0 2 EARLY;0 3 GIVEN 16777215 0.1;0 4 SPENT 1;0 5 TOKEN 1.0;0 6 EARLY;0 7 DONE;0 8 SPENT 1; \
      | END 8; |
    | script | SCRIPT 1;TASK;ALLOC;ALLOC;DEALLOC 1.0;TRANSFER 0.0 1.0 5;TESTP 0;TRANSFER 0.0 0.0 6;END; \
      | 0 | 0 1 TOKEN 0.0;0 2 TOKEN 1.0;0 3 DONE;0 4 TARGET SPENT 1;0 5 STATE 0 RESET 0;0 6 GIVEN 6 0.1; \
      | END 7; |
";

// Requests that are purged while they wait, and quotas that are used up.
const REQUESTS: &str = "\
    | command | input \
      | exit | output \
      | journal |
    | script | SCRIPT 1;ECB 0;TASK;OBTAIN 0 1 X COND;OBTAIN 0 9 S ECB 0;PURGE 9;TEST 0;CHECK 2;FREE 2 U;PURGE 1;END; \
      | 0 | 0 1 GRANTED;0 2 PENDING;0 3 PURGED 1 0;0 4 WORD 1073741825;0 5 GONE;0 6 GONE;0 7 PURGED 1 0; \
      | END 8; |
    | script | SCRIPT 1;TASK;OBTAIN 8 1 S WAIT;CHECK 1;FREE 1 U;OBTAIN 7 1 X WAIT;FREE 2 U;READ 7;END; \
      | 0 | 0 1 BADLATCH;0 2 NOTOKEN;0 3 NOTOKEN;0 4 GRANTED;0 5 RELEASED 0;0 6 VALUE 0; \
      | END 3; |
    | script | SCRIPT 1;TASK;OBTAIN 0 1 S COND;OBTAIN 0 1 S COND;OBTAIN 0 1 S COND;OBTAIN 0 1 S COND;OBTAIN 0 1 S COND;\
        OBTAIN 0 1 S COND;OBTAIN 0 1 S COND;OBTAIN 0 1 S COND;OBTAIN 0 1 S COND;OBTAIN 8 1 S COND;END; \
      | 0 | 0 1 GRANTED;0 2 GRANTED;0 3 GRANTED;0 4 GRANTED;0 5 GRANTED;0 6 GRANTED;0 7 GRANTED;0 8 GRANTED;0 9 QUOTA;\
        0 10 BADLATCH; \
      | END 8; |
    | script | SCRIPT 1;ECB 0;TASK;OBTAIN 0 1 X COND;OBTAIN 0 2 X ECB 0;OBTAIN 0 2 X ECB 0;OBTAIN 0 2 X ECB 0;\
        OBTAIN 0 2 X ECB 0;OBTAIN 0 2 X ECB 0;END; \
      | 0 | 0 1 GRANTED;0 2 PENDING;0 3 PENDING;0 4 PENDING;0 5 PENDING;0 6 QUOTA; \
      | END 5; |
    | script | SCRIPT 1;ECB 0;ECB 0;TABLE 0 7 7 0 1 1;TASK;OBTAIN 0 1 S COND;OBTAIN 0 1 S COND;OBTAIN 0 1 S COND;\
        OBTAIN 0 1 S COND;OBTAIN 0 1 S COND;OBTAIN 0 1 S COND;OBTAIN 0 1 S COND;OBTAIN 0 1 S COND;EVPOST 0 5;FREE 8 U;\
        EVPOST 0 5;EVNEXT 0;END; \
      | 0 | 0 1 GRANTED;0 2 GRANTED;0 3 GRANTED;0 4 GRANTED;0 5 GRANTED;0 6 GRANTED;0 7 GRANTED;0 8 GRANTED;0 9 QUOTA;\
        0 10 RELEASED 0;0 11 ENTERED 0;0 12 EVENT 0 1073741829; \
      | END 18; |
";

// Codes of posts and releases that are one too high, and other faults.
const FAULTS: &str = "\
    | command | input \
      | exit | output \
      | journal |
    | script | SCRIPT 1;ECB 0;TASK;POST 0 1073741824;END; \
      | 9 | SCRIPT LINE 4 KIND 4; \
      |  |
    | script | SCRIPT 1;ECB 0;TASK;RELEASE 0.0 16777216;END; \
      | 9 | SCRIPT LINE 4 KIND 4; \
      |  |
    | script |  \
      | 9 | SCRIPT LINE 1 KIND 9; \
      |  |
    | script | SCRIPT 1;TASK;CHECK 1;END; \
      | 9 | SCRIPT LINE 3 KIND 8; \
      |  |
    | script | SCRIPT 1;ECB 0;EXIT 0 0;TASK;END; \
      | 9 | SCRIPT LINE 3 KIND 7; \
      |  |
    | script | SCRIPT 1;ECB 0;ECB 0;ECB 0;ECB 0;ECB 0;ECB 0;TABLE 0 0 0 0 3 3;TASK;POST 0 1;END; \
      | 9 | SCRIPT LINE 10 KIND 11; \
      |  |
    | script | SCRIPT 1;ECB 0;ECB 0;ECB 0;ECB 0;ECB 0;ECB 0;TABLE 0 0 0 0 2 3;TASK;END; \
      | 9 | SCRIPT LINE 8 KIND 12; \
      |  |
";

#[test]
fn scripts_of_each_service(rt: HostRuntime) {
    assert_rows(&rt, SERVICES);
}

#[test]
fn scripts_that_ask_for_what_is_not_theirs(rt: HostRuntime) {
    assert_rows(&rt, OTHERS);
}

#[test]
fn scripts_with_tokens_that_are_over(rt: HostRuntime) {
    assert_rows(&rt, OVER);
}

#[test]
fn scripts_with_requests_that_wait_and_are_too_many(rt: HostRuntime) {
    assert_rows(&rt, REQUESTS);
}

#[test]
fn scripts_with_a_fault(rt: HostRuntime) {
    assert_rows(&rt, FAULTS);
}
