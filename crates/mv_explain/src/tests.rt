//! Each kind of fault through the whole command, with its exact text; and what is said of texts without fault. A row of a table is
//! an input and the whole report on it. The tables are read by `tables.rt`.

use super::*;
use mv_io::{MemSink, MemSource};
use std::alloc::{AllocError, Global};
use std::process::Abort;

mod deck_rows;
mod journal_rows;
mod script_rows;
mod tables;

use tables::rows;

fn source<X: Abort + AllocGlobal>(rt: &X, bytes: &[u8], fail: &[u64]) -> MemSource {
    match MemSource::new(rt.alloc(), bytes, 4096, fail) {
        Ok(source) => source,
        Err(_) => panic!(rt; "no memory for a source"),
    }
}

fn sink<X: Abort + AllocGlobal>(rt: &X, room: usize) -> MemSink {
    match MemSink::new(rt.alloc(), room, &[]) {
        Ok(sink) => sink,
        Err(_) => panic!(rt; "no memory for a sink"),
    }
}

fn assert_text<X: Abort>(rt: &X, text: &[u8], expected: &str, row: &str) {
    assert_eq!(rt; text, expected.as_bytes(), "{row}");
}

fn assert_exit<X: Abort>(rt: &X, status: ExplainStatus, exit: u8, row: &str) {
    assert_eq!(rt; status.exit(), exit, "{row}");
}

// What is said of an input is this.
fn assert_explained<X: Abort + AllocGlobal>(rt: &X, bytes: &[u8], expected: &str) {
    let mut input = source(rt, bytes, &[]);
    let mut report = sink(rt, 10_000);
    let mut notes = sink(rt, 100);
    let status = explain(rt.alloc(), &mut input, &mut report, &mut notes);
    assert_text(rt, report.bytes(), expected, expected);
    assert_text(rt, notes.bytes(), "", expected);
    assert_exit(rt, status, 0, expected);
}

fn assert_rows<X: Abort + AllocGlobal>(rt: &X, table: &str) {
    for row in rows(rt, table, "input | report") {
        let input = row.field(rt, "input");
        let report = row.field(rt, "report");
        assert_explained(rt, input.as_bytes(), &report);
    }
}

#[test]
fn inputs_that_are_none(rt: HostRuntime) {
    assert_explained(&rt, b"", "the input is empty\n");
    assert_explained(&rt, b" \r\n\t\n", "the input is empty\n");
}

#[test]
fn decks(rt: HostRuntime) {
    assert_rows(&rt, deck_rows::FAULTS);
    assert_rows(&rt, deck_rows::OTHERS);
}

// A byte order mark, and a byte outside ASCII that begins none.
#[test]
fn decks_that_are_no_utf_8(rt: HostRuntime) {
    assert_explained(
        &rt,
        b"\xef\xbb\xbf//A JOB\n//\n",
        deck_rows::BYTE_ORDER_MARK,
    );
    assert_explained(&rt, b"//A JOB\n// PRINT \xe9\n//\n", deck_rows::FOREIGN);
}

#[test]
fn scripts(rt: HostRuntime) {
    assert_rows(&rt, script_rows::FAULTS);
    assert_rows(&rt, script_rows::OTHERS);
}

#[test]
fn journals(rt: HostRuntime) {
    assert_rows(&rt, journal_rows::FAULTS);
    assert_rows(&rt, journal_rows::JUDGED);
}

// A deck of this many jobs without steps.
fn deck_of_jobs(alloc: Global, count: u32) -> Result<String, AllocError> {
    let mut text = String::new(alloc);
    for number in 0..count {
        text.push_str(&format!(in alloc; "//J{number} JOB\n")?)?;
    }
    text.push_str("//\n")?;
    Ok(text)
}

// A deck that seven initiators can run, and eight cannot.
#[test]
fn a_deck_that_is_heavy(rt: HostRuntime) {
    let Ok(text) = deck_of_jobs(rt.alloc(), 6553) else {
        panic!(&rt; "no memory for a deck")
    };
    assert_explained(&rt, text.as_bytes(), deck_rows::HEAVY);
}

// A deck and a script of one byte more than the limit.
#[test]
fn long_texts(rt: HostRuntime) {
    for (word, expected) in [
        ("//*\n", deck_rows::LONG),
        ("SCRIPT 1\n", script_rows::LONG),
    ] {
        let Ok(text) = word.repeat(rt.alloc(), 262_145) else {
            panic!(&rt; "no memory for a text")
        };
        assert_explained(&rt, text.as_bytes(), expected);
    }
}

// A stream that fails, and the note of it.
fn assert_ends<X: Abort + AllocGlobal>(
    rt: &X,
    fail: &[u64],
    room: usize,
    exit: u8,
    report: &str,
    note: &str,
) {
    let mut input = source(rt, b"//\n", fail);
    let mut written = sink(rt, room);
    let mut notes = sink(rt, 100);
    let status = explain(rt.alloc(), &mut input, &mut written, &mut notes);
    assert_exit(rt, status, exit, note);
    assert_text(rt, written.bytes(), report, note);
    assert_text(rt, notes.bytes(), note, note);
}

#[test]
fn streams_that_fail(rt: HostRuntime) {
    assert_ends(&rt, &[0], 1000, 5, "", "READ FAILED\n");
    assert_ends(&rt, &[1], 1000, 5, "", "READ FAILED\n");
    assert_ends(&rt, &[], 0, 6, "", "REPORT FAILED\n");
    assert_ends(&rt, &[], 6, 6, "a deck", "REPORT FAILED\n");
}
