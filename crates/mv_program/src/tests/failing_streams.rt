//! Streams that fail at each of their calls, or take few bytes at a time, and input that ends too early. Each row says what
//! every sink holds in the end; the numbers of bytes and lines are counted by hand.

ghost use Rattle.std.specs.Prelude.{◌≤◌, IfOk};

use super::*;
use mv_io::{Partial, ReadRefusal, Sink, Source, StdSink, StdSource, write_all};
use std::io;
use std::io::{ErrorKind, Read, Write};

// Each byte takes one call, and one more call finds the end. After that no call is made.
#[test]
fn a_source_that_fails_at_each_of_its_calls(rt: HostRuntime) {
    for call in 0..139 {
        assert_read(&rt, call, 5, "", "READ FAILED\n");
    }
    assert_read(&rt, 139, 0, PAYROLL_REPORT, "");
}

// Asserts the outcome of a run whose deck is read from a source that fails at this call.
fn assert_read<X: Abort + AllocGlobal + Threads + Wait + Clock + Sync>(
    rt: &X,
    call: u64,
    exit: u8,
    report: &str,
    note: &str,
) {
    let mut on = Streams {
        input: source(rt, PAYROLL.as_bytes(), 1, call),
        report: sink(rt, Intake::of(SHORT)),
        journal: sink(rt, Intake::of(WIDE)),
        notes: sink(rt, Intake::of(SHORT)),
    };
    assert_ends(rt, "spool 2", &mut on, exit, report, note);
    assert!(rt; on.journal.bytes().is_empty() == (exit != 0));
}

// Runs the payroll deck into these two sinks, and asserts what they hold. The report's sink holds the first `length` bytes of
// the report. At exit 7 the journal's sink holds just `piece`, a prefix of the journal; otherwise it holds a legal journal with
// `piece`, or nothing if `piece` is empty.
fn assert_written<X: Abort + AllocGlobal + Threads + Wait + Clock + Sync>(
    rt: &X,
    report: Intake,
    journal: Intake,
    exit: u8,
    note: &str,
    length: usize,
    piece: &str,
) {
    let mut on = Streams {
        input: source(rt, PAYROLL.as_bytes(), 1 << 20, u64::MAX),
        report: sink(rt, report),
        journal: sink(rt, journal),
        notes: sink(rt, Intake::of(SHORT)),
    };
    let written = front_of(rt, PAYROLL_REPORT, length);
    assert_ends(rt, "spool 2", &mut on, exit, written, note);
    if exit == 7 {
        assert_text(rt, on.journal.bytes(), piece, note);
    } else {
        assert_journal(rt, on.journal.bytes(), piece);
    }
}

// Returns the first `length` bytes of a text, which has that many.
fn front_of<'a, X: Abort>(rt: &X, text: &'a str, length: usize) -> &'a str {
    let Some(front) = text.get(..length) else {
        panic!(rt; "no front of {length} bytes")
    };
    front
}

// The report has 150 bytes. A sink fails at once; or takes four bytes at a time and fails at its third call; or has too little
// room.
#[test]
fn report_sinks_that_fail(rt: HostRuntime) {
    let (whole, journal) = (Intake::of(150), Intake::of(WIDE));
    let note = "REPORT FAILED\n";
    assert_written(&rt, whole.failing_at(0), journal, 6, note, 0, "");
    assert_written(&rt, whole.by(4).failing_at(2), journal, 6, note, 8, "");
    for room in 0..150 {
        assert_written(&rt, Intake::of(room), journal, 6, note, room, "");
    }
}

#[test]
fn journal_sinks_that_fail(rt: HostRuntime) {
    let report = Intake::of(WIDE);
    let note = "JOURNAL FAILED\n";
    assert_written(&rt, report, Intake::of(10), 7, note, 150, "JOURNAL 2\n");
    let third_call = Intake::of(4096).by(4).failing_at(2);
    assert_written(&rt, report, third_call, 7, note, 150, "JOURNAL ");
}

// The report and the journal are whole if each call takes this many bytes, and the report's sink has just enough room.
#[test]
fn sinks_that_take_little_at_a_time(rt: HostRuntime) {
    for step in [1, 2, 149, 150] {
        let (report, journal) = (Intake::of(150).by(step), Intake::of(1 << 16).by(step));
        assert_written(&rt, report, journal, 0, "", 150, "= PURGED 0 0\n");
    }
}

// The notes can't be written whole, which changes no status.
#[test]
fn notes_that_fail_change_no_status(rt: HostRuntime) {
    assert_noted(&rt, Intake::of(0), "");
    assert_noted(&rt, Intake::of(4096).by(4).failing_at(2), "DECK LIN");
}

// Writes the note of an empty deck's fault to this sink, and asserts the prefix of it that the sink takes.
fn assert_noted<X: Abort + AllocGlobal + Threads + Wait + Clock + Sync>(
    rt: &X,
    notes: Intake,
    front: &str,
) {
    let mut on = Streams {
        input: source(rt, b"", 1, u64::MAX),
        report: sink(rt, Intake::of(SHORT)),
        journal: sink(rt, Intake::of(SHORT)),
        notes: sink(rt, notes),
    };
    assert_ends(rt, "spool 1", &mut on, 3, "", front);
    assert_journal(rt, on.journal.bytes(), "");
}

#[test]
fn decks_that_are_cut(rt: HostRuntime) {
    for (length, note) in [
        (0, "DECK LINE 1 KIND 12\n"),
        (89, "DECK LINE 6 KIND 8\n"),
        (115, "DECK LINE 7 KIND 6\n"),
        (135, "DECK LINE 9 KIND 12\n"),
        (136, "DECK LINE 9 KIND 3\n"),
    ] {
        let front = front_of(&rt, PAYROLL, length);
        assert_run(&rt, "spool 2", front, 3, note, "");
    }
    let front = front_of(&rt, PAYROLL, 137);
    assert_run(&rt, "spool 2", front, 0, PAYROLL_REPORT, "= PURGED 0 0\n");
}

// A reader and writer of std that passes two bytes a call, and fails at its second call.
#[derive(Drop)]
struct Worn {
    calls: u64,
}

impl Worn {
    fn pass(&mut self, room: usize) -> io::Result<usize>
        ensures { IfOk result (λ k. k ≤ room) }
    {
        self.calls = self.calls.saturating_add(1);
        if self.calls == 2 {
            return Err(ErrorKind::BrokenPipe.into());
        }
        Ok(room.min(2))
    }
}

impl Read for Worn {
    fn read(&mut self, buf: &mut [u8]) -> io::Result<usize> {
        let count = self.pass(buf.len())?;
        buf[..count].fill(b'x');
        Ok(count)
    }
}

impl Write for Worn {
    fn write(&mut self, buf: &[u8]) -> io::Result<usize> {
        self.pass(buf.len())
    }

    fn flush(&mut self) -> io::Result<()> {
        Ok(())
    }
}

// Each error of the reader or the writer is one fault, and later successes add none.
#[test]
fn a_failing_stream_of_std_counts_one_fault(rt: HostRuntime) {
    let mut source = StdSource::new(Worn { calls: 0 });
    let read = read_limited(rt.alloc(), &mut source, 9);
    assert!(rt; matches!(read, Err(ReadRefusal::Failed)));
    assert_count(&rt, source.faults(), 1, "a source");
    let mut sink = StdSink::new(Worn { calls: 0 });
    let written = write_all(&mut sink, b"tasks");
    assert!(rt; matches!(written, Err(Partial { taken: 2 })));
    assert_count(&rt, sink.faults(), 1, "a sink");
    assert!(rt; write_all(&mut sink, b"ks").is_ok());
    assert_count(&rt, sink.faults(), 1, "a sink");
}
