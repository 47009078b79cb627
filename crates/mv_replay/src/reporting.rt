//! The end of a command on a legal journal: it writes its report. Clauses cite specs/Course and specs/Outcome.

ghost use Rattle.std.specs.Prelude.{◌≡◌, ◌≤◌};
ghost use Rattle.mv_io.specs.Fault.{Rose};
ghost use Rattle.mv_replay.specs.Course.{report_text};
ghost use Rattle.mv_replay.specs.Outcome.{legal_text, Writes};

use crate::command::JournalCommand;
use crate::reading::LegalText;
use crate::status::ReplayStatus;
use mv_ending::Line;
use mv_io::{Sink, write_all};

// Makes the line with the number of events of a legal journal.
#[tactic(auto, unfolding(crate::specs::Outcome::legal_text))]
fn legal_line(count: u32) -> Line
    ensures { result ≡ legal_text count }
{
    let mut line = Line::new();
    line.push_text(b"LEGAL ");
    line.push_number(count);
    line.push_text(b" EVENTS\n");
    line
}

// Writes a text as the report, and returns how the command ends.
fn write_out<R: Sink>(report: &mut R, text: &[u8]) -> ReplayStatus
    ensures written { Writes result (R.taken report.old) (R.taken report.new) text.now }
    ensures report_failed { result ≡ ReplayStatus.ReportFailed → Rose (R.faults report.old) (R.faults report.new) }
    ensures count { R.faults report.old ≤ R.faults report.new }
{
    match write_all(report, text) {
        Ok(()) => ReplayStatus::Done,
        Err(_) => ReplayStatus::ReportFailed,
    }
}

/// Writes the report of a command on a legal journal, and returns how the command ends.
pub(crate) fn write_report<R: Sink>(
    command: JournalCommand,
    legal: LegalText,
    report: &mut R,
) -> ReplayStatus
    ensures written { Writes result (R.taken report.old) (R.taken report.new) (report_text command legal) }
    ensures report_failed { result ≡ ReplayStatus.ReportFailed → Rose (R.faults report.old) (R.faults report.new) }
    ensures count { R.faults report.old ≤ R.faults report.new }
{
    match command {
        JournalCommand::Replay => write_out(report, legal_line(legal.judged.count).as_bytes()),
        JournalCommand::Convert => write_out(report, &legal.conversion()),
    }
}
