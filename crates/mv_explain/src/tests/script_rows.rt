//! Scripts, and what is said of them.

// One row for each kind, from 1 on, but 10.
pub(crate) const FAULTS: &str = "\
    | input \
      | report |
    | SCRIPT\t1; \
      | script, line 1, kind 1: a byte that is not printable ASCII\\; only the bytes 32 to 126 are allowed;  \
        column 7: byte 9, a tab; |
    | SCRIPT 1;TASK;READ                                                                            0;END; \
      | script, line 3, kind 2: the line has more than 80 bytes\\; shorten it;  \
        \\| READ                                                                            0; |
    | SCRIPT 1;TASK;read 0;END; \
      | script, line 3, kind 3: this is not a line of a script\\; expected SCRIPT, ECB, EXIT, TABLE, TASK, END or a call, in capitals, with its fields and no space in front;  \
        \\| read 0; |
    | SCRIPT 9; \
      | script, line 1, kind 4: a number with a leading zero, out of its range, or of a task, block, volume, element, event or position that this script does not have;  \
        \\| SCRIPT 9; |
    | SCRIPT 1;READ 0; \
      | script, line 2, kind 5: a line out of order\\; expected SCRIPT, then each ECB, each EXIT, a TABLE, each TASK followed by its calls, and END;  \
        \\| READ 0; |
    | SCRIPT 2;TASK;END; \
      | script, line 3, kind 6: more tasks than SCRIPT states, or fewer at END\\; or more than 128 calls in a task, 64 blocks, 16 exits or one table;  \
        \\| END; |
    | SCRIPT 1;ECB 0;ECB 0;EXIT 1 0; \
      | script, line 4, kind 7: each target of an EXIT must be above its source;  \
        \\| EXIT 1 0; |
    | SCRIPT 1;TASK;CHECK 1;END; \
      | script, line 3, kind 8: CHECK and FREE name an OBTAIN above them in the same task, counted from 1;  \
        \\| CHECK 1; |
    | SCRIPT 1;TASK; \
      | script, line 3, kind 9: the script ends here without END\\; add a last line END; |
    | SCRIPT 1;ECB 0;ECB 0;TABLE 0 0 0 0 1 1;TASK;WRITE 0 1;END; \
      | script, line 6, kind 11: this call names a block of the TABLE, its volume or its latch, or a requestor of 2^63 or more\\; beside EVPOST, EVNEXT and TEST no call may;  \
        \\| WRITE 0 1; |
    | SCRIPT 1;ECB 0;ECB 0;TABLE 0 0 0 0 0 1; \
      | script, line 4, kind 12: an invalid table\\; a table has 1 to 32 events and as many slots, in blocks of its owner that no EXIT names and that do not overlap, and a latch that exists;  \
        \\| TABLE 0 0 0 0 0 1; |
";

// A script without fault, one with an empty line in front, and one with a CR at each line's end.
pub(crate) const OTHERS: &str = "\
    | input \
      | report |
    | SCRIPT 2;ECB 0;TASK;WAIT 1 0;CLEAR 0;TASK;POST 0 3;END; \
      | a script without fault;\
        task 0, calls: 2;\
        task 1, calls: 1;\
        run it: tongsthyme script < FILE, or, if it waits for ever: tongsthyme explain --run 0 < FILE; |
    | ;SCRIPT 1;TASK;END; \
      | a script without fault;\
        task 0, calls: 0;\
        run it: tongsthyme script < FILE, or, if it waits for ever: tongsthyme explain --run 0 < FILE; |
    | SCRIPT 1\r;TASK\r;END\r; \
      | a script without fault;\
        task 0, calls: 0;\
        run it: tongsthyme script < FILE, or, if it waits for ever: tongsthyme explain --run 0 < FILE; |
";

pub(crate) const LONG: &str = "a script of more than 1048576 bytes, the most that is read\n";
