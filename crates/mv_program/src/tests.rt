//! Whole runs over memory: rows of decks, journals and words, and what remains of each input and output if a stream fails.
//! Expected values are worked out by hand. The tables are read by `tables.rt`.

use super::*;
use mv_io::{MemSink, MemSource, read_limited};
use std::alloc::{AllocError, Global};
use std::process::Abort;
use std::sync::Wait;
use std::thread::Threads;
use std::time::Clock;

mod failing_streams;
mod faulty_decks;
mod faulty_journals;
mod faulty_scripts;
mod forged_journals;
mod held_tasks;
mod journal_rows;
mod polled_runs;
mod refused_lists;
mod scheduled_scripts;
mod script_rows;
mod tables;

use tables::{Row, made, rows};

// One job ends, one abends, and one is not run, since it waited for the second to end well.
const PAYROLL: &str = "\
//PAYROLL JOB
// PRINT PAY RUN 7
// PRINT DONE
//BACKUP JOB
// PRINT COPYING
// ABEND U0012
//VERIFY JOB AFTER=BACKUP
// PRINT CHECKED
//
";

const PAYROLL_REPORT: &str = "\
JOB PAYROLL ENDED
| PAY RUN 7
| DONE
JOB BACKUP ABENDED U0012
| COPYING
JOB VERIFY NOT RUN
JOBS 3 ENDED 1 ABENDED 1 NOT RUN 1
VOLUMES 0 0 0 0 0 0 0 0
";

const NO_JOB_REPORT: &str = "\
JOBS 0 ENDED 0 ABENDED 0 NOT RUN 0
VOLUMES 0 0 0 0 0 0 0 0
";

// Jobs that wait for one another, that print, count and scan, abend and end with return codes; and a deck without jobs.
const DECKS: &str = "\
    | command | input \
      | exit | output \
      | journal |
    | spool 8 | //; \
      | 0 | JOBS 0 ENDED 0 ABENDED 0 NOT RUN 0;VOLUMES 0 0 0 0 0 0 0 0; \
      | CALLERS 11; |
    | spool 1 | //PAYROLL JOB;// PRINT PAY RUN 7;// PRINT DONE;//BACKUP JOB;// PRINT COPYING;// ABEND U0012;//; \
      | 0 | JOB PAYROLL ENDED;\\| PAY RUN 7;\\| DONE;JOB BACKUP ABENDED U0012;\\| COPYING;JOBS 2 ENDED 1 ABENDED 1 NOT RUN 0;\
        VOLUMES 0 0 0 0 0 0 0 0; \
      |  E3 1 POST 16777228 = WOKE 2; |
    | spool 1 | //A JOB;// USE 0 S;//; \
      | 0 | JOB A ENDED;JOBS 1 ENDED 1 ABENDED 0 NOT RUN 0;VOLUMES 0 0 0 0 0 0 0 0; \
      |  L 0 OBTAIN 0 1 S W = GRANTED 0; |
    | spool 1 | //ADD JOB;// USE 0 X;// COUNT 0 5;// ABEND S0C4;//NEXT JOB;// USE 0 X;// COUNT 0 7;// FREE 0;//; \
      | 0 | JOB ADD ABENDED S0C4;JOB NEXT ENDED;JOBS 2 ENDED 1 ABENDED 1 NOT RUN 0;VOLUMES 12 0 0 0 0 0 0 0; \
      |  = PURGED 1 0; |
    | spool 2 | //A JOB;// USE 1 X;// COUNT 1 9999;// SCAN 1;// FREE 1;//B JOB;// USE 1 S;// SCAN 1;//; \
      | 0 | JOB A ENDED;\\| SCAN 1 STEADY;JOB B ENDED;\\| SCAN 1 STEADY;JOBS 2 ENDED 2 ABENDED 0 NOT RUN 0;\
        VOLUMES 0 9999 0 0 0 0 0 0; \
      |  WRITE 9999 = STORED; |
    | spool 1 | // DECK 2;//A JOB;// ABEND U0000;//$Z9 JOB;// ABEND U4095;//B JOB;// RETURN 4095;//C JOB;// ABEND SFFF;//; \
      | 0 | JOB A ABENDED U0000;JOB $Z9 ABENDED U4095;JOB B ENDED RC 4095;JOB C ABENDED SFFF;\
        JOBS 4 ENDED 1 ABENDED 3 NOT RUN 0;VOLUMES 0 0 0 0 0 0 0 0; \
      | EVENTS; |
    | spool 1 | // DECK 2;//LOAD JOB;// PRINT ROWS 9;// RETURN 4;//REPORT JOB AFTER=LOAD:4;// PRINT OK;\
        //CLEAN JOB AFTER=LOAD,REPORT:8;// PRINT CLEANED;//; \
      | 0 | JOB LOAD ENDED RC 4;\\| ROWS 9;JOB REPORT ENDED;\\| OK;JOB CLEAN NOT RUN;JOBS 3 ENDED 2 ABENDED 0 NOT RUN 1;\
        VOLUMES 0 0 0 0 0 0 0 0; \
      |  POST 33554432 =  |
";

const FAULTY_DECKS: &str = "\
    | command | input | exit | output | journal |
    | spool 1 | //A JOB;// USE 3 X;// USE 1 S;//; | 3 | DECK LINE 3 KIND 9; |  |
    | spool 1 |  | 3 | DECK LINE 1 KIND 12; |  |
";

const LOADS: &str = "\
    | command | input \
      | exit | output \
      | journal |
    | load 1 1 | //; \
      | 0 | LOAD 1 1;JOBS 1 ENDED 1 ABENDED 0 NOT RUN 0;VOLUMES 1 0 0 0 0 0 0 0; \
      | EVENTS; |
    | load 7 2 | //; \
      | 0 | LOAD 7 2;JOBS 7 ENDED 6 ABENDED 1 NOT RUN 0;VOLUMES 1 2 3 4 5 6 7 0; \
      | EVENTS; |
    | load 40 3 | //; \
      | 0 | LOAD 40 3;JOBS 40 ENDED 34 ABENDED 5 NOT RUN 1;VOLUMES 31 27 23 19 15 20 25 24; \
      | EVENTS; |
    | load 2000 8 | //; \
      | 0 | LOAD 2000 8;JOBS 2000 ENDED 1658 ABENDED 285 NOT RUN 57;VOLUMES 1213 1223 1213 1214 1215 1205 1215 1210; \
      | EVENTS; |
";

// No word at all, and words that do not state a command.
const NO_COMMANDS: &str = "\
    | command |
    |  |
    | spool |
    | spool 1 1 |
    | spool 0 |
    | spool 9 |
    | spool 01 |
    | SPOOL 1 |
    | replay x |
    | REPLAY |
    | convert x |
    | CONVERT |
    | script x |
    | SCRIPT |
    | load |
    | load 1 |
    | load 0 1 |
    | load 2001 1 |
    | load 01 1 |
    | load 1 9 |
    | load 1 0 |
    | load 1 1 1 |
    | polled |
    | polled 1 |
    | polled 0 0 |
    | polled 9 0 |
    | polled 1 10000 |
    | polled 1 00 |
    | polled 1 -1 |
    | polled 1 0 0 |
    | POLLED 1 0 |
";

const USAGE: &str = "USAGE: spool I, script, replay, convert, load N I, polled I S\n";

// Streams over memory.
#[derive(Drop)]
struct Streams {
    input: MemSource,
    report: MemSink,
    journal: MemSink,
    notes: MemSink,
}

// Makes a source of this text, which gives at most `step` bytes a call, and fails at the call of this number. Here and below, a
// test stops if memory runs out. So a function that returns nothing returns only at its end, and its caller holds nothing that
// an early return would drop, which would be most of its proof.
fn source<X: Abort + AllocGlobal>(rt: &X, text: &[u8], step: usize, call: u64) -> MemSource {
    let Ok(source) = MemSource::new(rt.alloc(), text, step.max(1), &[call]) else {
        panic!(rt; "no memory for a source")
    };
    source
}

// How much a sink takes: bytes in all, and bytes a call; and the number of the call at which it fails, counted from 0.
#[derive(Clone, Copy)]
struct Intake {
    room: usize,
    step: usize,
    failing_call: u64,
}

impl Intake {
    // This many bytes, all in one call if need be; no call fails.
    fn of(room: usize) -> Intake {
        Intake {
            room,
            step: room,
            failing_call: u64::MAX,
        }
    }

    // The same, but at most this many bytes a call.
    fn by(self, step: usize) -> Intake {
        Intake { step, ..self }
    }

    // The same, but the call of this number fails.
    fn failing_at(self, failing_call: u64) -> Intake {
        Intake {
            failing_call,
            ..self
        }
    }
}

// Makes a sink that takes this much.
fn sink<X: Abort + AllocGlobal>(rt: &X, intake: Intake) -> MemSink {
    let fail = [intake.failing_call];
    let made = if intake.step < intake.room {
        MemSink::stepped(rt.alloc(), intake.room, intake.step.max(1), &fail)
    } else {
        MemSink::new(rt.alloc(), intake.room, &fail)
    };
    let Ok(sink) = made else {
        panic!(rt; "no memory for a sink")
    };
    sink
}

// Room for what these runs write: for a report or a note, for a journal, and for the longest journal that a run may write.
const SHORT: usize = 4096;

const WIDE: usize = 1 << 24;

const WIDEST: usize = 1 << 26;

// Makes streams over this input, of which no call fails.
fn streams_over<X: Abort + AllocGlobal>(rt: &X, input: &[u8]) -> Streams {
    Streams {
        input: source(rt, input, 1 << 20, u64::MAX),
        report: sink(rt, Intake::of(SHORT)),
        journal: sink(rt, Intake::of(WIDE)),
        notes: sink(rt, Intake::of(SHORT)),
    }
}

// Returns the words of a text, which spaces separate.
fn words_of(alloc: Global, text: &str) -> Result<Vec<String>, AllocError> {
    let mut words = Vec::new(alloc);
    for word in text.split_whitespace() {
        words.push(String::from_str(alloc, word)?)?;
    }
    Ok(words)
}

// Runs the command of the words in a text.
fn run_by<X: Abort + AllocGlobal + Threads + Wait + Clock + Sync, G: Gate + Sync>(
    rt: &X,
    text: &str,
    on: &mut Streams,
    gate: &G,
) -> Status {
    let Ok(words) = words_of(rt.alloc(), text) else {
        panic!(rt; "no memory for words")
    };
    let host = Host {
        rt,
        alloc: rt.alloc(),
        gate,
    };
    run_program(
        &host,
        &words,
        &mut on.input,
        &mut on.report,
        &mut on.journal,
        &mut on.notes,
    )
}

// Runs the command of the words in a text, with a gate that holds no task.
fn run<X: Abort + AllocGlobal + Threads + Wait + Clock + Sync>(
    rt: &X,
    text: &str,
    on: &mut Streams,
) -> Status {
    run_by(rt, text, on, &OpenGate)
}

// Asserts that the two byte strings are equal. The row says which run they are from, here and below.
fn assert_bytes<X: Abort>(rt: &X, bytes: &[u8], expected: &[u8], row: &str) {
    assert_eq!(rt; bytes, expected, "{row}");
}

fn assert_text<X: Abort>(rt: &X, text: &[u8], expected: &str, row: &str) {
    assert_bytes(rt, text, expected.as_bytes(), row);
}

fn assert_count<X: Abort>(rt: &X, count: u64, expected: u64, row: &str) {
    assert_eq!(rt; count, expected, "{row}");
}

fn assert_exit<X: Abort>(rt: &X, status: Status, exit: u8, row: &str) {
    assert_count(rt, status.exit() as u64, exit as u64, row);
}

// Runs a command, and asserts that it ends with this exit, this report and this note.
fn assert_ends<X: Abort + AllocGlobal + Threads + Wait + Clock + Sync>(
    rt: &X,
    words: &str,
    on: &mut Streams,
    exit: u8,
    report: &str,
    note: &str,
) {
    let status = run(rt, words, on);
    assert_exit(rt, status, exit, words);
    assert_text(rt, on.report.bytes(), report, words);
    assert_text(rt, on.notes.bytes(), note, words);
}

// Returns whether a text has this piece.
fn has(text: &[u8], piece: &str) -> bool {
    match std::str::from_utf8(text) {
        Ok(text) => text.contains(piece),
        Err(_) => false,
    }
}

// Asserts that the journal is a legal history, as `replay` judges it.
fn assert_legal<X: Abort + AllocGlobal + Threads + Wait + Clock + Sync>(rt: &X, journal: &[u8]) {
    let mut on = streams_over(rt, journal);
    let status = run(rt, "replay", &mut on);
    assert_exit(rt, status, 0, "replay");
    assert!(rt; on.report.bytes().starts_with(b"LEGAL "));
}

// Asserts that the journal has this piece, and is legal; or is empty if the piece is.
fn assert_journal<X: Abort + AllocGlobal + Threads + Wait + Clock + Sync>(
    rt: &X,
    journal: &[u8],
    piece: &str,
) {
    if piece.is_empty() {
        assert_text(rt, journal, "", "no journal");
    } else {
        assert!(rt; has(journal, piece), "{piece}");
        assert_legal(rt, journal);
    }
}

// Asserts that a run over this input ends with this exit, this report or note, and a journal with this piece. It has read its
// input to the end, or none of it if the command reads no input or there is no command.
fn assert_run<X: Abort + AllocGlobal + Threads + Wait + Clock + Sync>(
    rt: &X,
    words: &str,
    input: &str,
    exit: u8,
    told: &str,
    piece: &str,
) {
    let (report, note) = if exit == 0 { (told, "") } else { ("", told) };
    let reads = exit != 2 && !words.starts_with("load ");
    let mut on = streams_over(rt, input.as_bytes());
    assert_ends(rt, words, &mut on, exit, report, note);
    assert_left(rt, &mut on.input, if reads { "" } else { input });
    assert_journal(rt, on.journal.bytes(), piece);
}

// Asserts what is left of an input, which is short.
fn assert_left<X: Abort + AllocGlobal>(rt: &X, input: &mut MemSource, expected: &str) {
    let Ok(left) = read_limited(rt.alloc(), input, 1000) else {
        panic!(rt; "more is left, or it can't be read")
    };
    assert_text(rt, &left, expected, "what is left");
}

fn number_of<X: Abort>(rt: &X, text: &str) -> u8 {
    let Ok(number) = text.parse::<u8>() else {
        panic!(rt; "{text} is no number")
    };
    number
}

// Asserts each row of a table of runs. `output` is the report or, if the exit is not 0, the note; `journal` is a piece of the
// journal, and is empty if none is written.
fn assert_rows<X: Abort + AllocGlobal + Threads + Wait + Clock + Sync>(rt: &X, table: &str) {
    for row in rows(rt, table, "command | input | exit | output | journal") {
        assert_row(rt, row);
    }
}

fn assert_row<X: Abort + AllocGlobal + Threads + Wait + Clock + Sync>(rt: &X, row: Row<'_>) {
    let command = row.field(rt, "command");
    let input = row.field(rt, "input");
    let exit = number_of(rt, &row.field(rt, "exit"));
    let output = row.field(rt, "output");
    let journal = row.field(rt, "journal");
    assert_run(rt, &command, &input, exit, &output, &journal);
}

// A kind of text: the words of a command that reads it, its name in notes of faults, and the exit of a fault.
struct Format {
    words: &'static str,
    name: &'static str,
    exit: u8,
}

const DECK: Format = Format {
    words: "polled 1 0",
    name: "DECK",
    exit: 3,
};

const SCRIPT: Format = Format {
    words: "script",
    name: "SCRIPT",
    exit: 9,
};

const JOURNAL: Format = Format {
    words: "replay",
    name: "JOURNAL",
    exit: 11,
};

// Asserts the first fault of the text in a row, put between `front` and `behind`. The row has the fault's line and kind; kind 0
// means no fault.
fn assert_fault<X: Abort + AllocGlobal + Threads + Wait + Clock + Sync>(
    rt: &X,
    format: &Format,
    front: &str,
    row: Row<'_>,
    behind: &str,
) {
    let line = row.field(rt, "line");
    let kind = row.field(rt, "kind");
    let text = row.field(rt, "text");
    let text = made(rt, format!(in rt.alloc(); "{front}{text}{behind}"));
    if number_of(rt, &kind) == 0 {
        assert_no_fault(rt, format, &text, row.fields);
    } else {
        let name = format.name;
        let note = made(
            rt,
            format!(in rt.alloc(); "{name} LINE {line} KIND {kind}\n"),
        );
        assert_told(rt, format, &text, &note, row.fields);
    }
}

// Asserts that a text has no fault. This row made it.
fn assert_no_fault<X: Abort + AllocGlobal + Threads + Wait + Clock + Sync>(
    rt: &X,
    format: &Format,
    text: &str,
    row: &str,
) {
    let mut on = streams_over(rt, text.as_bytes());
    let status = run(rt, format.words, &mut on);
    assert_exit(rt, status, 0, row);
}

// Asserts that a text gives this note, and no report or journal. This row made it.
fn assert_told<X: Abort + AllocGlobal + Threads + Wait + Clock + Sync>(
    rt: &X,
    format: &Format,
    text: &str,
    note: &str,
    row: &str,
) {
    let mut on = streams_over(rt, text.as_bytes());
    let status = run(rt, format.words, &mut on);
    assert_exit(rt, status, format.exit, row);
    assert_text(rt, on.notes.bytes(), note, row);
    assert_text(rt, on.report.bytes(), "", row);
    assert_text(rt, on.journal.bytes(), "", row);
}

// Asserts the fault in each row of a table.
fn assert_faults<X: Abort + AllocGlobal + Threads + Wait + Clock + Sync>(
    rt: &X,
    format: &Format,
    front: &str,
    table: &str,
    behind: &str,
) {
    for row in rows(rt, table, "line | kind | text") {
        assert_fault(rt, format, front, row, behind);
    }
}

#[test]
fn decks(rt: HostRuntime) {
    assert_run(&rt, "spool 2", PAYROLL, 0, PAYROLL_REPORT, "= PURGED 0 0\n");
    assert_rows(&rt, DECKS);
}

// The journal has four events of the scheduler and four of the initiator, or five if its pause parked.
#[test]
fn no_job(rt: HostRuntime) {
    let mut on = streams_over(&rt, b"//\n");
    assert_ends(&rt, "spool 1", &mut on, 0, NO_JOB_REPORT, "");
    assert_short(&rt, on.journal.bytes());
}

fn assert_short<X: Abort>(rt: &X, journal: &[u8]) {
    assert!(rt; has(journal, "\nEND 8\n") || has(journal, "\nEND 9\n"));
}

#[test]
fn decks_with_a_fault(rt: HostRuntime) {
    assert_rows(&rt, FAULTY_DECKS);
}

#[test]
fn loads(rt: HostRuntime) {
    assert_rows(&rt, LOADS);
}

#[test]
fn words_that_are_no_command(rt: HostRuntime) {
    for row in rows(&rt, NO_COMMANDS, "command") {
        let command = row.field(&rt, "command");
        assert_run(&rt, &command, PAYROLL, 2, USAGE, "");
    }
}

// Asserts that a text is refused for its bytes, with this exit and this note.
fn assert_no_utf_8<X: Abort + AllocGlobal + Threads + Wait + Clock + Sync>(
    rt: &X,
    words: &str,
    text: &[u8],
    exit: u8,
    note: &str,
) {
    let mut on = streams_over(rt, text);
    assert_ends(rt, words, &mut on, exit, "", note);
}

// Bytes that are not UTF-8.
#[test]
fn texts_that_are_no_utf_8(rt: HostRuntime) {
    let script = b"\x80";
    assert_no_utf_8(&rt, "script", script, 9, "SCRIPT LINE 1 KIND 1\n");
    let journal = b"JOURNAL 1\n\xff\n";
    assert_no_utf_8(&rt, "replay", journal, 11, "JOURNAL LINE 2 KIND 1\n");
}

// Comments and the null statement, 1,048,576 bytes in all, and then the same with one more space.
#[test]
fn a_deck_at_the_limit_and_one_byte_more(rt: HostRuntime) {
    let comments = made(&rt, "//*\n".repeat(rt.alloc(), 262_142));
    let deck = made(&rt, format!(in rt.alloc(); "{comments}//**\n//\n"));
    assert_count(&rt, deck.len() as u64, 1_048_576, "the limit");
    assert_run(&rt, "spool 1", &deck, 0, NO_JOB_REPORT, "EVENTS");
    let deck = made(&rt, format!(in rt.alloc(); "{deck} "));
    assert_run(&rt, "spool 1", &deck, 4, "INPUT TOO LONG\n", "");
}
