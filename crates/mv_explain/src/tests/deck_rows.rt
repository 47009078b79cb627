//! Decks, and what is said of them.

// One row for each kind, from 1 on, and for what a byte is, and a second one of kind 10; then a line that is too long to be shown whole.
pub(crate) const FAULTS: &str = "\
    | input \
      | report |
    | //A JOB;// PRINT \tX;//; \
      | deck, line 2, kind 1: a byte that is not printable ASCII\\; only the bytes 32 to 126 are allowed;  \
        column 10: byte 9, a tab; |
    | //A JOB;// PRINT \rX;//; \
      | deck, line 2, kind 1: a byte that is not printable ASCII\\; only the bytes 32 to 126 are allowed;  \
        column 10: byte 13, a CR that is not the last of its line; |
    | //*456789012345678901234567890123456789012345678901234567890123456789012345678901;//; \
      | deck, line 1, kind 2: the line has more than 80 bytes\\; shorten it;  \
        \\| //*456789012345678901234567890123456789012345678901234567890123456789012345678901; |
    | //A job;//; \
      | deck, line 1, kind 3: this is not a statement of a deck\\; expected // and then JOB (directly after // and a name), PRINT, USE, FREE, COUNT, SCAN or ABEND, in capitals and with their operands, or // with nothing after it\\; RETURN only after // DECK 2;  \
        \\| //A job; |
    | //9A JOB;//; \
      | deck, line 1, kind 4: an invalid name\\; a job's name has 1 to 8 of A to Z, 0 to 9, @, # and $, and does not begin with a digit;  \
        \\| //9A JOB; |
    | //A JOB;//A JOB;//; \
      | deck, line 2, kind 5: an earlier job has this name\\; give each job a different name;  \
        \\| //A JOB; |
    | //A JOB AFTER=B;//B JOB;//; \
      | deck, line 1, kind 6: AFTER names a job that is not above this line\\; a job can only wait for earlier ones;  \
        \\| //A JOB AFTER=B; |
    | //A JOB;//B JOB AFTER=A,A;//; \
      | deck, line 2, kind 7: AFTER names a job twice, or more than eight jobs;  \
        \\| //B JOB AFTER=A,A; |
    | //A JOB;// USE 8 S;//; \
      | deck, line 2, kind 8: an invalid number or code\\; latches and volumes are 0 to 7, an amount 1 to 9999, a return code 0 to 4095, the code of an ABEND U0000 to U4095 or S001 to SFFF, and no number has a leading zero;  \
        \\| // USE 8 S; |
    | //A JOB;// USE 2 X;// USE 1 X;//; \
      | deck, line 3, kind 9: USE of a latch that is not above every latch that the job holds\\; obtain latches in rising order, or FREE the higher ones first;  \
        \\| // USE 1 X;  \
        job A holds latch 2 X; |
    | //A JOB;// FREE 1;//; \
      | deck, line 2, kind 10: the job does not hold this latch as it must\\; FREE and SCAN need a USE of it before, and COUNT a USE with X;  \
        \\| // FREE 1;  \
        job A holds no latch; |
    | //A JOB;// USE 0 X;//B JOB AFTER=A;// USE 1 S;// USE 2 X;// FREE 2;// USE 4 X;// COUNT 1 5;//; \
      | deck, line 8, kind 10: the job does not hold this latch as it must\\; FREE and SCAN need a USE of it before, and COUNT a USE with X;  \
        \\| // COUNT 1 5;  \
        job B holds latch 1 S;  \
        job B holds latch 4 X; |
    | // PRINT X;//; \
      | deck, line 1, kind 11: a statement before the first JOB, or after the null statement // that ends the deck;  \
        \\| // PRINT X; |
    | //A JOB;// PRINT X; \
      | deck, line 3, kind 12: the deck ends here without its null statement\\; add a last line //; |
    | //A JOB;// ABEND U0012;// PRINT X;//; \
      | deck, line 3, kind 13: the job has ended by its ABEND or RETURN\\; only a JOB or // can follow;  \
        \\| // PRINT X; |
    | //A JOB;// DECK 2;//; \
      | deck, line 2, kind 15: // DECK 2 must be the first statement;  \
        \\| // DECK 2; |
    | //*45678901234567890123456789012345678901234567890123456789012345678901234567890123456789012345678901234567890;//; \
      | deck, line 1, kind 2: the line has more than 80 bytes\\; shorten it;  \
        \\| //*4567890123456789012345678901234567890123456789012345678901234567890123456789012345678901234567890; |
";

// Texts that are no decks, and decks without fault.
pub(crate) const OTHERS: &str = "\
    | input \
      | report |
    | PRINT X; \
      | this does not begin as a deck (//), a script (SCRIPT) or a journal (JOURNAL)\\; read as a deck:;\
        deck, line 1, kind 3: this is not a statement of a deck\\; expected // and then JOB (directly after // and a name), PRINT, USE, FREE, COUNT, SCAN or ABEND, in capitals and with their operands, or // with nothing after it\\; RETURN only after // DECK 2;  \
        \\| PRINT X; |
    | ;//A JOB;// PRINT X;//B JOB AFTER=A;//; \
      | a deck without fault\\; jobs: 2;\
        initiators 1: weight 45 of at most 524287, can run it;\
        initiators 2: weight 72 of at most 524287, can run it;\
        initiators 3: weight 99 of at most 524287, can run it;\
        initiators 4: weight 126 of at most 524287, can run it;\
        initiators 5: weight 153 of at most 524287, can run it;\
        initiators 6: weight 180 of at most 524287, can run it;\
        initiators 7: weight 207 of at most 524287, can run it;\
        initiators 8: weight 234 of at most 524287, can run it;\
        run it: tongsthyme spool I < FILE, for I initiators; |
";

// A deck of 6553 jobs without steps: with 6552 jobs its weight for eight initiators would be 524232.
pub(crate) const HEAVY: &str = "\
a deck without fault; jobs: 6553
initiators 1: weight 111410 of at most 524287, can run it
initiators 2: weight 170396 of at most 524287, can run it
initiators 3: weight 229382 of at most 524287, can run it
initiators 4: weight 288368 of at most 524287, can run it
initiators 5: weight 347354 of at most 524287, can run it
initiators 6: weight 406340 of at most 524287, can run it
initiators 7: weight 465326 of at most 524287, can run it
initiators 8: weight 524312 of at most 524287, too heavy from line 6553
run it: tongsthyme spool I < FILE, for I initiators
";

pub(crate) const BYTE_ORDER_MARK: &str = "\
this does not begin as a deck (//), a script (SCRIPT) or a journal (JOURNAL); read as a deck:
deck, line 1, kind 1: a byte that is not printable ASCII; only the bytes 32 to 126 are allowed
  column 1: byte 239, as the byte order mark begins that some editors write; save without it
";

pub(crate) const FOREIGN: &str = "\
deck, line 2, kind 1: a byte that is not printable ASCII; only the bytes 32 to 126 are allowed
  column 10: byte 233
";

pub(crate) const LONG: &str = "a deck of more than 1048576 bytes, the most that is read\n";
