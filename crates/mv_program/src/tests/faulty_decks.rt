//! The first fault of each deck, worked out by hand; line 0 and kind 0 if it has none.

use super::*;

// Hard lines: how a text is cut into lines, comments, and which of two faults is the first.
const LINES_AND_COMMENTS: &str = "\
    | line | kind | text |
    # no line, ignored lines alone
    | 1 | 12 |  |
    | 3 | 12 | ;; |
    | 2 | 12 | //A JOB |
    | 2 | 12 | //A JOB; |
    | 4 | 12 | //A JOB;;  |
    # the null statement
    | 0 | 0 | // |
    | 0 | 0 | //    |
    | 0 | 0 | //; |
    | 0 | 0 | //\r; |
    | 2 | 11 | //;//; |
    | 2 | 11 | //  ;// |
    | 1 | 3 |  //;// |
    | 1 | 3 | / /;// |
    # behind the null statement
    | 0 | 0 | //;  |
    | 0 | 0 | //;\r |
    | 0 | 0 | //;; ;; |
    | 2 | 3 | //;/ |
    | 2 | 3 | //;X |
    | 4 | 11 | //;; ;// |
    | 3 | 11 | //A JOB;//;//B JOB |
    | 2 | 11 | //;// PRINT X |
    | 2 | 4 | //;//9A JOB |
    | 2 | 8 | //;// ABEND U12 |
    | 4 | 11 | //A JOB;// ABEND U0001;//;// PRINT X |
    | 2 | 11 | //;// SCAN 0 |
    # 80 and 81 bytes, with and without CR
    | 0 | 0 | //A JOB;// PRINT 12345678901234567890123456789012345678901234567890123456789012345678901;// |
    | 0 | 0 | //A JOB;// PRINT 12345678901234567890123456789012345678901234567890123456789012345678901\r;// |
    | 2 | 2 | //A JOB;// PRINT 123456789012345678901234567890123456789012345678901234567890123456789012;// |
    | 2 | 2 | //A JOB;// PRINT 123456789012345678901234567890123456789012345678901234567890123456789012\r;// |
    | 2 | 1 | //A JOB;// PRINT 12345678901234567890123456789012345678901234567890123456789012345678901\r\r;// |
    | 0 | 0 | //A JOB;                                                                                ;// |
    | 2 | 2 | //A JOB;                                                                                 ;// |
    | 1 | 2 | XXXXXXXXXXXXXXXXXXXXXXXXXXXXXXXXXXXXXXXXXXXXXXXXXXXXXXXXXXXXXXXXXXXXXXXXXXXXXXXXX;// |
    # bytes that are not printable
    | 1 | 1 | //A\r JOB;// |
    | 2 | 1 | //A JOB;\r\r;// |
    | 2 | 1 | //A JOB;// PRINT \x1f;// |
    | 2 | 1 | //A JOB;// PRINT \x7f;// |
    | 2 | 1 | //A JOB;// PRINT \u{80};// |
    | 2 | 1 | //A JOB;//\tPRINT X;// |
    | 2 | 1 | //A JOB; \t ;// |
    | 0 | 0 | //A JOB;// PRINT ~;// |
    # forms that are none
    | 0 | 0 | //* NOTE;// |
    | 0 | 0 | //*;// |
    | 0 | 0 | //* JOB;// |
    | 1 | 3 | // * NOTE;// |
    | 1 | 3 | //A JOB X;// |
    | 1 | 6 | //A JOB AFTER=B;// |
    | 1 | 3 | //A;// |
    | 1 | 3 | //9A;// |
    | 1 | 3 | // JOB;// |
    | 1 | 3 | //JOB;// |
    | 1 | 3 | //PRINT X;// |
    | 1 | 3 | //A job;// |
    | 2 | 3 | //A JOB;// print X;// |
    | 2 | 3 | //A JOB;// PRINTX;// |
    | 2 | 3 | //A JOB;// ABEND;// |
    | 2 | 3 | //A JOB;// ABEND U0012 X;// |
    | 2 | 3 | //A JOB;/;// |
    # comments
    | 0 | 0 | //* 1;;//* 2;//;//* 3 |
    | 0 | 0 | //**;// |
    | 0 | 0 | //*A JOB;//A JOB;// |
    | 0 | 0 | //A JOB;// ABEND U0001;//* NOTE;// |
    | 1 | 1 | //* \x1f;// |
    | 0 | 0 | //*\r;// |
    | 1 | 1 | //*\r\r;// |
    | 0 | 0 | //*45678901234567890123456789012345678901234567890123456789012345678901234567890;// |
    | 1 | 2 | //*456789012345678901234567890123456789012345678901234567890123456789012345678901;// |
    | 1 | 3 |  //*;// |
    | 1 | 3 | /*;// |
    # two faults: the lower line, then the lower kind
    | 1 | 4 | //9A JOB;//B JOB X;// |
    | 3 | 3 | ;  ;//A JOB X;//\t |
    | 2 | 1 | //A JOB;//\x1f |
    | 1 | 1 | \x1fXXXXXXXXXXXXXXXXXXXXXXXXXXXXXXXXXXXXXXXXXXXXXXXXXXXXXXXXXXXXXXXXXXXXXXXXXXXXXXXXX;// |
    | 1 | 11 | // PRINT X;// PRINT Y |
";

// Hard lines: JOB and AFTER.
const JOBS_AND_THEIR_LISTS: &str = "\
    | line | kind | text |
    # AFTER: forms
    | 2 | 3 | //A JOB;//B JOB AFTER;// |
    | 2 | 3 | //A JOB;//B JOB AFTER= A;// |
    | 2 | 3 | //A JOB;//B JOB AFTER=A X;// |
    | 2 | 3 | //A JOB;//B JOB after=A;// |
    | 2 | 3 | //A JOB;//B JOB BEFORE=A;// |
    | 1 | 3 | //B JOB X;// |
    | 0 | 0 | //A JOB;//B  JOB  AFTER=A ;// |
    # AFTER: names, version 1
    | 2 | 4 | //A JOB;//B JOB AFTER=;// |
    | 2 | 4 | //A JOB;//B JOB AFTER=A,;// |
    | 2 | 4 | //A JOB;//B JOB AFTER=,A;// |
    | 3 | 4 | //A JOB;//C JOB;//B JOB AFTER=A,,C;// |
    | 2 | 4 | //A JOB;//B JOB AFTER=9A;// |
    | 2 | 4 | //A JOB;//B JOB AFTER=a;// |
    | 2 | 4 | //A JOB;//B JOB AFTER=A:4;// |
    | 2 | 4 | //A JOB;//B JOB AFTER=ABCDEFGHI;// |
    | 2 | 4 | //A JOB;//9B JOB AFTER=A;// |
    # AFTER: earlier jobs
    | 0 | 0 | //A JOB;//B JOB AFTER=A;// |
    | 2 | 6 | //A JOB;//B JOB AFTER=B;// |
    | 1 | 6 | //A JOB AFTER=A |
    | 2 | 6 | //A JOB;//B JOB AFTER=C;//C JOB;// |
    | 2 | 6 | //A JOB;//B JOB AFTER=A,C;//C JOB;// |
    | 0 | 0 | //A JOB;//B JOB;//C JOB AFTER=B,A;// |
    # AFTER: a name twice, and more than eight
    | 2 | 7 | //A JOB;//B JOB AFTER=A,A;// |
    | 3 | 7 | //A JOB;//B JOB;//C JOB AFTER=A,B,A;// |
    | 0 | 0 | //A JOB;//B JOB;//C JOB;//D JOB;//E JOB;//F JOB;//G JOB;//H JOB;//Z JOB AFTER=A,B,C,D,E,F,G,H;// |
    | 10 | 7 | //A JOB;//B JOB;//C JOB;//D JOB;//E JOB;//F JOB;//G JOB;//H JOB;//I JOB;//Z JOB AFTER=A,B,C,D,E,F,G,H,I;// |
    # lower kinds of one line go first
    | 2 | 7 | //A JOB;//Z JOB AFTER=A,A,A,A,A,A,A,A,A;// |
    | 2 | 6 | //A JOB;//Z JOB AFTER=A,B,A,A,A,A,A,A,A;// |
    | 2 | 4 | //A JOB;//Z JOB AFTER=A,b,A,A,A,A,A,A,A;// |
    | 2 | 5 | //A JOB;//A JOB AFTER=B;// |
    | 2 | 5 | //A JOB;//A JOB AFTER=A,A;// |
    | 2 | 4 | //A JOB;//A JOB AFTER=b;// |
    | 2 | 3 | //A JOB;//A JOB X;// |
    # names of earlier jobs
    | 3 | 5 | //A JOB;//B JOB;//A JOB;// |
    | 0 | 0 | //A JOB;//AA JOB;//A@ JOB;// |
    | 3 | 11 | //A JOB;//;//A JOB |
    | 3 | 11 | //A JOB;//;//B JOB AFTER=C |
    | 3 | 11 | //A JOB;//;//B JOB AFTER=A,A |
    | 3 | 4 | //A JOB;//;//B JOB AFTER=c |
    # names
    | 0 | 0 | //ABCDEFGH JOB;// |
    | 1 | 4 | //ABCDEFGHI JOB;// |
    | 1 | 4 | //9A JOB;// |
    | 0 | 0 | //@#$ JOB;// |
    | 0 | 0 | //A9@#$Z09 JOB;// |
    | 1 | 4 | //a JOB;// |
    | 1 | 4 | /// JOB;// |
    | 1 | 4 | //A-B JOB;// |
    | 0 | 0 | //JOB JOB;// |
    | 0 | 0 | //A  JOB;// |
    | 2 | 5 | //A JOB;//A JOB;// |
";

// Hard lines: PRINT and ABEND.
const TEXTS_AND_CODES: &str = "\
    | line | kind | text |
    # texts
    | 0 | 0 | //A JOB;// PRINT;// |
    | 0 | 0 | //A JOB;// PRINT ;// |
    | 0 | 0 | //A JOB;//   PRINT   X;// |
    # codes
    | 0 | 0 | //A JOB;// ABEND U0000;// |
    | 0 | 0 | //A JOB;// ABEND U4095;// |
    | 2 | 8 | //A JOB;// ABEND U4096;// |
    | 2 | 8 | //A JOB;// ABEND U9999;// |
    | 2 | 8 | //A JOB;// ABEND U12;// |
    | 2 | 8 | //A JOB;// ABEND U00012;// |
    | 2 | 8 | //A JOB;// ABEND U001A;// |
    | 2 | 8 | //A JOB;// ABEND 0012;// |
    | 2 | 8 | //A JOB;// ABEND u0012;// |
    | 2 | 8 | //A JOB;// ABEND U;// |
    | 2 | 8 | //A JOB;// ABEND S000;// |
    | 0 | 0 | //A JOB;// ABEND S001;// |
    | 0 | 0 | //A JOB;// ABEND SFFF;// |
    | 2 | 8 | //A JOB;// ABEND S0c4;// |
    | 2 | 8 | //A JOB;// ABEND S0G4;// |
    | 2 | 8 | //A JOB;// ABEND S0C;// |
    | 2 | 8 | //A JOB;// ABEND S00C4;// |
    # statements out of place
    | 1 | 11 | // PRINT X;// |
    | 1 | 11 | // ABEND U0012;// |
    | 1 | 8 | // ABEND U12;// |
    | 3 | 13 | //A JOB;// ABEND U0012;// PRINT X;// |
    | 3 | 13 | //A JOB;// ABEND U0012;// ABEND U0012;// |
    | 3 | 8 | //A JOB;// ABEND U0012;// ABEND U12;// |
    | 4 | 13 | //A JOB;// ABEND U0012;;// PRINT X;// |
    | 0 | 0 | //A JOB;// ABEND U0012;//B JOB;// PRINT X;// |
";

// Hard lines: USE, FREE, COUNT and SCAN.
const LATCHES_AND_AMOUNTS: &str = "\
    | line | kind | text |
    # USE, FREE, COUNT and SCAN: forms
    | 2 | 3 | //A JOB;// USE 0 Y;// |
    | 2 | 3 | //A JOB;// USE 0 s;// |
    | 2 | 3 | //A JOB;// USE 9 Y;// |
    | 2 | 3 | //A JOB;// USE S 0;// |
    | 2 | 3 | //A JOB;// USE 0;// |
    | 2 | 3 | //A JOB;// USE;// |
    | 2 | 3 | //A JOB;// USE 0 X X;// |
    | 2 | 3 | //A JOB;// USE 0 SX;// |
    | 2 | 3 | //A JOB;// use 0 S;// |
    | 2 | 3 | //A JOB;//USE 0 S;// |
    | 2 | 3 | //A JOB;// FREE;// |
    | 2 | 3 | //A JOB;// FREE 0 1;// |
    | 2 | 3 | //A JOB;// COUNT 0;// |
    | 2 | 3 | //A JOB;// COUNT 0 1 2;// |
    | 2 | 3 | //A JOB;// SCAN;// |
    | 2 | 3 | //A JOB;// SCAN 0 0;// |
    | 0 | 0 | //A JOB;//  USE  0  S ;// |
    # latches, volumes and amounts that are none
    | 2 | 8 | //A JOB;// USE 8 S;// |
    | 2 | 8 | //A JOB;// USE A S;// |
    | 2 | 8 | //A JOB;// USE 00 S;// |
    | 2 | 8 | //A JOB;// USE -1 S;// |
    | 0 | 0 | //A JOB;// USE 7 X;// |
    | 2 | 8 | //A JOB;// FREE 00;// |
    | 2 | 8 | //A JOB;// FREE 8;// |
    | 2 | 8 | //A JOB;// SCAN 8;// |
    | 2 | 8 | //A JOB;// COUNT 8 1;// |
    | 3 | 8 | //A JOB;// USE 0 X;// COUNT 0 0;// |
    | 3 | 8 | //A JOB;// USE 0 X;// COUNT 0 01;// |
    | 3 | 8 | //A JOB;// USE 0 X;// COUNT 0 10000;// |
    | 3 | 8 | //A JOB;// USE 0 X;// COUNT 0 +1;// |
    | 3 | 8 | //A JOB;// USE 0 X;// COUNT 0 1A;// |
    | 0 | 0 | //A JOB;// USE 0 X;// COUNT 0 1;// COUNT 0 9999;// |
    | 3 | 8 | //A JOB;// USE 0 X;// COUNT 0 99999999999999999999;// |
    # the order of latches
    | 0 | 0 | //A JOB;// USE 0 S;// |
    | 3 | 9 | //A JOB;// USE 3 X;// USE 1 S;// |
    | 0 | 0 | //A JOB;// USE 1 S;// USE 3 X;// |
    | 3 | 9 | //A JOB;// USE 3 S;// USE 3 S;// |
    | 0 | 0 | //A JOB;// USE 3 S;// FREE 3;// USE 3 X;// |
    | 0 | 0 | //A JOB;// USE 1 S;// USE 3 S;// FREE 3;// USE 2 S;// |
    | 5 | 9 | //A JOB;// USE 1 S;// USE 3 S;// FREE 1;// USE 2 S;// |
    | 0 | 0 | //A JOB;// USE 7 S;//B JOB;// USE 0 S;// |
    # latches that are needed
    | 2 | 10 | //A JOB;// FREE 0;// |
    | 4 | 10 | //A JOB;// USE 0 S;// FREE 0;// FREE 0;// |
    | 3 | 10 | //A JOB;// USE 0 S;// FREE 1;// |
    | 2 | 10 | //A JOB;// COUNT 0 1;// |
    | 3 | 10 | //A JOB;// USE 0 S;// COUNT 0 1;// |
    | 0 | 0 | //A JOB;// USE 0 X;// COUNT 0 1;// |
    | 3 | 10 | //A JOB;// USE 0 X;// COUNT 1 1;// |
    | 4 | 10 | //A JOB;// USE 0 X;// FREE 0;// COUNT 0 1;// |
    | 2 | 10 | //A JOB;// SCAN 0;// |
    | 0 | 0 | //A JOB;// USE 0 S;// SCAN 0;// |
    | 0 | 0 | //A JOB;// USE 0 X;// SCAN 0;// |
    | 4 | 10 | //A JOB;// USE 0 X;//B JOB;// FREE 0;// |
    # steps out of place
    | 1 | 11 | // USE 1 S;// |
    | 1 | 8 | // USE 9 S;// |
    | 1 | 11 | // FREE 0;// |
    | 1 | 11 | // COUNT 0 1;// |
    | 2 | 11 | //* NOTE;// SCAN 0;// |
    | 2 | 11 | //;// USE 0 S |
    | 3 | 13 | //A JOB;// ABEND U0001;// SCAN 0;// |
    | 3 | 8 | //A JOB;// ABEND U0001;// USE 9 S;// |
    | 4 | 13 | //A JOB;// USE 3 S;// ABEND U0001;// USE 1 S;// |
";

// Hard lines: DECK, RETURN and accepted codes.
const VERSION_2: &str = "\
    | line | kind | text |
    # version 2: DECK
    | 0 | 0 | // DECK 2;// |
    | 0 | 0 | //  DECK  2 \r;//A JOB;// |
    | 0 | 0 | //* NOTE;;// DECK 2;//A JOB;// RETURN 1;// |
    | 1 | 8 | // DECK 3;// |
    | 1 | 8 | // DECK 1;// |
    | 1 | 8 | // DECK 02;// |
    | 1 | 8 | // DECK TWO;// |
    | 1 | 3 | // DECK;// |
    | 1 | 3 | // DECK 2 2;// |
    | 1 | 3 | // deck 2;// |
    | 1 | 3 | //DECK 2;// |
    | 2 | 15 | //A JOB;// DECK 2;// |
    | 2 | 8 | //A JOB;// DECK 3;// |
    | 2 | 15 | // DECK 2;// DECK 2;// |
    | 3 | 11 | // DECK 2;//;// DECK 2 |
    | 2 | 11 | //;// DECK 2 |
    | 3 | 13 | //A JOB;// ABEND U0001;// DECK 2;// |
    | 2 | 11 | // DECK 2;// PRINT X;// |
    | 2 | 12 | // DECK 2 |
    # version 2: RETURN
    | 2 | 3 | //A JOB;// RETURN 1;// |
    | 1 | 3 | // RETURN 1;// |
    | 3 | 3 | //A JOB;// ABEND U0001;// RETURN 1;// |
    | 0 | 0 | // DECK 2;//A JOB;// RETURN 0;// |
    | 0 | 0 | // DECK 2;//A JOB;// RETURN 4095;// |
    | 3 | 8 | // DECK 2;//A JOB;// RETURN 4096 |
    | 3 | 8 | // DECK 2;//A JOB;// RETURN 04;// |
    | 3 | 8 | // DECK 2;//A JOB;// RETURN 00;// |
    | 3 | 8 | // DECK 2;//A JOB;// RETURN A;// |
    | 3 | 8 | // DECK 2;//A JOB;// RETURN -1;// |
    | 3 | 3 | // DECK 2;//A JOB;// RETURN;// |
    | 3 | 3 | // DECK 2;//A JOB;// RETURN 1 2;// |
    | 2 | 11 | // DECK 2;// RETURN 1;// |
    | 4 | 13 | // DECK 2;//A JOB;// RETURN 1;// PRINT X;// |
    | 4 | 13 | // DECK 2;//A JOB;// RETURN 1;// RETURN 1;// |
    | 4 | 13 | // DECK 2;//A JOB;// RETURN 1;// DECK 2;// |
    | 0 | 0 | // DECK 2;//A JOB;// RETURN 1;//B JOB;// PRINT X;// |
    # version 2: accepted codes
    | 0 | 0 | // DECK 2;//A JOB;//B JOB AFTER=A:4;// |
    | 0 | 0 | // DECK 2;//A JOB;//B JOB AFTER=A;// |
    | 0 | 0 | // DECK 2;//A JOB;//B JOB AFTER=A:0;// |
    | 0 | 0 | // DECK 2;//A JOB;//B JOB AFTER=A:4095;// |
    | 3 | 8 | // DECK 2;//A JOB;//B JOB AFTER=A:4096;// |
    | 3 | 8 | // DECK 2;//A JOB;//B JOB AFTER=A:1:2;// |
    | 3 | 8 | // DECK 2;//A JOB;//B JOB AFTER=A:;// |
    | 3 | 8 | // DECK 2;//A JOB;//B JOB AFTER=A:04;// |
    | 3 | 4 | // DECK 2;//A JOB;//B JOB AFTER=:4;// |
    | 3 | 4 | // DECK 2;//A JOB;//B JOB AFTER=:;// |
    | 3 | 4 | // DECK 2;//A JOB;//B JOB AFTER=A:4,;// |
    | 3 | 7 | // DECK 2;//A JOB;//B JOB AFTER=A:1,A:2;// |
    | 3 | 6 | // DECK 2;//A JOB;//B JOB AFTER=C:9999;// |
    | 4 | 8 | // DECK 2;//A JOB;//;//B JOB AFTER=A:9999 |
";

#[test]
fn decks_by_their_first_fault(rt: HostRuntime) {
    for table in [
        LINES_AND_COMMENTS,
        JOBS_AND_THEIR_LISTS,
        TEXTS_AND_CODES,
        LATCHES_AND_AMOUNTS,
        VERSION_2,
    ] {
        assert_faults(&rt, &DECK, "", table, "");
    }
}

// The steps of a heavy deck's last job, without the last one.
const STEPS: &str = "\
// USE 0 X
// FREE 0
// USE 0 X
// FREE 0
// USE 0 X
// FREE 0
// USE 0 X
// FREE 0
// USE 0 X
";

// Makes a deck of this many jobs, the last with these steps and one more.
fn heavy_deck(alloc: Global, jobs: u32, step: &str) -> Result<String, AllocError> {
    let mut text = String::new(alloc);
    for job in 0..jobs {
        text.push_str(&format!(in alloc; "//J{job:05} JOB\n")?)?;
    }
    format!(in alloc; "{text}{STEPS}{step}//\n")
}

// Asserts that a deck of 30,839 jobs runs to its end.
fn assert_runs<X: Abort + AllocGlobal + Threads + Wait + Clock + Sync>(rt: &X, deck: &str) {
    let mut on = streams_over(rt, deck.as_bytes());
    on.report = sink(rt, Intake::of(WIDE));
    on.journal = sink(rt, Intake::of(WIDEST));
    let status = run(rt, "spool 1", &mut on);
    assert_exit(rt, status, 0, "spool 1");
    let report = on.report.bytes();
    assert!(rt; report.starts_with(b"JOB J00000 ENDED\nJOB J00001 ENDED\n"));
    assert!(rt; report.ends_with(HEAVY_END.as_bytes()));
    assert_legal(rt, on.journal.bytes());
}

const HEAVY_END: &str = "\
JOB J30838 ENDED
JOBS 30839 ENDED 30839 ABENDED 0 NOT RUN 0
VOLUMES 0 0 0 0 0 0 0 0
";

// For one initiator, 30,839 jobs weigh 524,272; USE and FREE weigh 3, USE and COUNT 4. A deck of weight 524,287 is run, and
// above that the last step is at fault.
#[test]
fn the_heaviest_deck(rt: HostRuntime) {
    let deck = made(&rt, heavy_deck(rt.alloc(), 30_839, "// FREE 0\n"));
    assert_runs(&rt, &deck);
    let deck = made(&rt, heavy_deck(rt.alloc(), 30_839, "// COUNT 0 1\n"));
    assert_run(&rt, "spool 1", &deck, 3, "DECK LINE 30849 KIND 14\n", "");
}
