//! Journals, and what is said of them.

// One row for each kind, from 1 on; of a CR at a line's end; and one that is cut off in a line.
pub(crate) const FAULTS: &str = "\
    | input \
      | report |
    | JOURNAL 3; \
      | journal, line 1, kind 1: a line that is malformed, or not allowed at this place\\; fields have one space between and no CR, and an event is `caller.call object place operation = reply`, in version 1 without `.call`;  \
        \\| JOURNAL 3; |
    | JOURNAL 1\r; \
      | journal, line 1, kind 1: a line that is malformed, or not allowed at this place\\; fields have one space between and no CR, and an event is `caller.call object place operation = reply`, in version 1 without `.call`;  \
        \\| JOURNAL 1; |
    | JOURNAL 1;CALLERS 01; \
      | journal, line 2, kind 2: a number with a leading zero or beyond its range;  \
        \\| CALLERS 01; |
    | JOURNAL 1;CALLERS 0;ELEMENTS 1;VOLUMES 1;LATCHES 1;QUOTA 1 0;EVENTS; \
      | journal, line 7, kind 3: the lines above EVENTS state an invalid configuration\\; there are 1 to 16 callers with a BUDGET each, 1 to 16 elements, 1 to 8 volumes and latches, a quota of 1 to 16 and a second one no higher\\; an ECB names a caller, an EXIT 1 to 8 blocks above its source, and the budgets are at most 524287 in all;  \
        \\| EVENTS; |
    | JOURNAL 1;CALLERS 1;ELEMENTS 1;VOLUMES 1;LATCHES 1;QUOTA 1 0;BUDGET 5;EVENTS;END 1; \
      | journal, line 9, kind 4: END does not have the number of the events above it;  \
        \\| END 1; |
    | JOURNAL 1;CALLERS 1; \
      | journal, line 3, kind 5: the journal is cut off\\; this line does not end with LF, or the END line is missing; |
";

// Journals of a post or two: legal, in both versions; with another reply; with another place; with an operation that is not for this
// caller; and with another call number. Then illegal events after four, one, three and no events on their objects, the third on a latch
// that has requests.
pub(crate) const JUDGED: &str = "\
    | input \
      | report |
    | JOURNAL 1;CALLERS 1;ELEMENTS 1;VOLUMES 8;LATCHES 8;QUOTA 8 0;BUDGET 2;ECB 0;ECB 0;EVENTS;0 E0 0 POST 0 = POSTED;\
        0 E1 0 POST 16777228 = POSTED;END 2; \
      | a legal journal\\; events: 2;\
        task 0, events: 2;\
        on event control blocks 2, on pause elements 0, on volumes 0, on the latch set 0;\
        draw it: tools/picture FILE > FILE.svg; |
    | JOURNAL 2;CALLERS 1;ELEMENTS 1;VOLUMES 8;LATCHES 8;QUOTA 8 0;BUDGET 2;ECB 0;EVENTS;0.0 E0 0 POST 0 = POSTED;\
        0.1 V0 0 READ = VALUE 0;0.2 P0 0 OPEN = OPENED 0;0.3 L 0 PURGE 5 = PURGED 0 0;END 4; \
      | a legal journal\\; events: 4;\
        task 0, events: 4;\
        on event control blocks 1, on pause elements 1, on volumes 1, on the latch set 1;\
        draw it: tools/picture FILE > FILE.svg; |
    | JOURNAL 1;CALLERS 1;ELEMENTS 1;VOLUMES 8;LATCHES 8;QUOTA 8 0;BUDGET 2;ECB 0;ECB 0;EVENTS;0 E0 0 POST 0 = POSTED;\
        0 E1 0 POST 16777228 = WOKE 0;END 2; \
      | journal, line 12: the services do not do this here;  \
        \\| 0 E1 0 POST 16777228 = WOKE 0;\
        the machine answers: 0 E1 0 POST 16777228 = POSTED;\
        before it: 0 E1 0 TEST = WORD 0; |
    | JOURNAL 2;CALLERS 1;ELEMENTS 1;VOLUMES 8;LATCHES 8;QUOTA 8 0;BUDGET 2;ECB 0;EVENTS;0.0 E0 1 POST 7 = POSTED;END 1; \
      | journal, line 10: the services do not do this here;  \
        \\| 0.0 E0 1 POST 7 = POSTED;\
        the machine answers: 0 E0 0 POST 7 = POSTED;\
        before it: 0 E0 0 TEST = WORD 0; |
    | JOURNAL 2;CALLERS 2;ELEMENTS 1;VOLUMES 8;LATCHES 8;QUOTA 8 0;BUDGET 2;BUDGET 2;ECB 0;EVENTS;1.0 E0 0 ARM = ARMED;END 1; \
      | journal, line 11: the services do not do this here;  \
        \\| 1.0 E0 0 ARM = ARMED;\
        the machine does not admit this operation: there is no such task, object or exit, the object is another task's, or the task's requests for latches are at their quota;\
        before it: 1 E0 0 TEST = WORD 0; |
    | JOURNAL 2;CALLERS 1;ELEMENTS 1;VOLUMES 8;LATCHES 8;QUOTA 8 0;BUDGET 2;ECB 0;EVENTS;0.0 E0 0 POST 7 = POSTED;\
        0.0 E0 1 TEST = WORD 1073741831;END 2; \
      | journal, line 11: the event has call number 0, and belongs to call 1 of its task;  \
        \\| 0.0 E0 1 TEST = WORD 1073741831; |
    | JOURNAL 1;CALLERS 1;ELEMENTS 1;VOLUMES 8;LATCHES 8;QUOTA 8 0;BUDGET 9;ECB 0;EVENTS;0 E0 0 POST 7 = POSTED;\
        0 V0 0 READ = VALUE 0;0 E0 1 TEST = WORD 1073741831;0 E0 2 CLEAR = WORD 1073741831;0 E0 3 TEST = WORD 0;\
        0 E0 4 POST 5 = WOKE 0;END 6; \
      | journal, line 15: the services do not do this here;  \
        \\| 0 E0 4 POST 5 = WOKE 0;\
        the machine answers: 0 E0 4 POST 5 = POSTED;\
        before it: 0 E0 4 TEST = WORD 0;\
        earlier, line 12: 0 E0 1 TEST = WORD 1073741831;\
        earlier, line 13: 0 E0 2 CLEAR = WORD 1073741831;\
        earlier, line 14: 0 E0 3 TEST = WORD 0; |
    | JOURNAL 1;CALLERS 1;ELEMENTS 1;VOLUMES 8;LATCHES 8;QUOTA 8 0;BUDGET 9;EVENTS;0 P0 0 OPEN = OPENED 0;\
        0 L 0 PURGE 5 = PURGED 0 0;0 P0 1 CLOSE 0 = SPENT 1;END 3; \
      | journal, line 11: the services do not do this here;  \
        \\| 0 P0 1 CLOSE 0 = SPENT 1;\
        the machine answers: 0 P0 1 CLOSE 0 = CLOSED;\
        before it: 0 P0 1 TEST = STATE 0 RESET 0;\
        earlier, line 9: 0 P0 0 OPEN = OPENED 0; |
    | JOURNAL 1;CALLERS 2;ELEMENTS 1;VOLUMES 8;LATCHES 8;QUOTA 8 0;BUDGET 9;BUDGET 9;EVENTS;0 L 0 OBTAIN 2 5 X W = GRANTED 0;\
        1 L 1 OBTAIN 2 6 S W = QUEUED 1;0 L 2 OBTAIN 3 5 S W = GRANTED 2;1 L 3 CONFIRM 2 1 = GRANTED 1;END 4; \
      | journal, line 13: the services do not do this here;  \
        \\| 1 L 3 CONFIRM 2 1 = GRANTED 1;\
        the machine answers: 1 L 3 CONFIRM 2 1 = WAITING;\
        before it, latch 2: request 0 of task 0, requestor 5, X;\
        before it, latch 2: request 1 of task 1, requestor 6, S;\
        earlier, line 10: 0 L 0 OBTAIN 2 5 X W = GRANTED 0;\
        earlier, line 11: 1 L 1 OBTAIN 2 6 S W = QUEUED 1;\
        earlier, line 12: 0 L 2 OBTAIN 3 5 S W = GRANTED 2; |
    | JOURNAL 1;CALLERS 1;ELEMENTS 1;VOLUMES 8;LATCHES 8;QUOTA 8 0;BUDGET 9;EVENTS;0 L 0 PURGE 5 = PURGED 1 0;END 1; \
      | journal, line 9: the services do not do this here;  \
        \\| 0 L 0 PURGE 5 = PURGED 1 0;\
        the machine answers: 0 L 0 PURGE 5 = PURGED 0 0; |
";
