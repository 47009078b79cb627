//! The verdict on a text, as a struct of C: specs/Verdict says what each verdict means.

ghost use Rattle.std.specs.Prelude.{◌≡◌, Ok, Err};
ghost use Rattle.mv_oracle.specs.Verdict.{IsVerdictOn, verdict_of};

use mv_replay::{ReplayStatus, judge_text};
use std::alloc::Global;

/// The text is the journal of a legal history, in version 2 with the right call numbers.
const LEGAL: u32 = 0;

/// The text is a journal, and the entry on one of its lines is the first that is wrong: the machine does not make it, or it has another
/// call number.
const ILLEGAL: u32 = 1;

/// The text is not a journal.
const MALFORMED: u32 = 2;

/// The text has more than 67,108,864 bytes. It was not read.
const TOO_LONG: u32 = 3;

/// Memory ran out before the text was judged.
const OUT_OF_MEMORY: u32 = 4;

/// The verdict on a text. A field to which the status gives no meaning is 0.
#[repr(C)]
#[derive(Clone, Copy)]
pub struct Verdict {
    /// 0 legal, 1 illegal, 2 malformed, 3 too long, 4 out of memory.
    pub status: u32,
    /// Legal: the number of events in the history.
    pub events: u32,
    /// Illegal: the line of the first entry that is wrong, counted from 1. Malformed: the line of the first fault.
    pub line: u32,
    /// Malformed: the kind of the fault, as docs/FORMATS.md numbers the kinds of journals, 1 to 5.
    pub kind: u32,
}

impl Verdict {
    /// Returns the verdict on a legal journal with this number of entries.
    pub(crate) fn legal(events: u32) -> Verdict
        ensures { result ≡ verdict_of (Ok events) }
    {
        Verdict {
            status: LEGAL,
            events,
            line: 0,
            kind: 0,
        }
    }

    /// Returns the verdict on a text that is not a legal journal.
    pub(crate) fn refused(status: ReplayStatus) -> Verdict
        ensures { result ≡ verdict_of (Err status) }
    {
        let (status, line, kind) = match status {
            ReplayStatus::Illegal(line) => (ILLEGAL, line, 0),
            ReplayStatus::Text(fault) => (MALFORMED, fault.line, fault.kind),
            ReplayStatus::TooLong => (TOO_LONG, 0, 0),
            ReplayStatus::NoMemory
            // By its contract, the judge of a text in memory returns none of these as an error.
            | ReplayStatus::Done
            | ReplayStatus::ReadFailed
            | ReplayStatus::ReportFailed => (OUT_OF_MEMORY, 0, 0),
        };
        Verdict {
            status,
            events: 0,
            line,
            kind,
        }
    }
}

// Returns the verdict on a text.
fn verdict_on(alloc: Global, journal: &[u8]) -> Verdict
    ensures { IsVerdictOn journal.now result }
{
    match judge_text(alloc, journal) {
        Ok(replayed) => Verdict::legal(replayed.count),
        Err(status) => Verdict::refused(status),
    }
}

/// Judges the text of a journal, writes the verdict, and returns its status.
///
/// It keeps nothing of the text and frees all memory that it took. Calls on several threads at once are independent.
pub fn judge(alloc: Global, journal: &[u8], verdict: &mut Verdict) -> u32
    ensures status { result ≡ verdict.new.status }
    ensures verdict { IsVerdictOn journal.now verdict.new }
{
    *verdict = verdict_on(alloc, journal);
    verdict.status
}
