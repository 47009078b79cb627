//! The beginning of a command: the input is read whole, and then judged. Clauses cite specs/Course and specs/Outcome.

ghost use Rattle.std.specs.Prelude.{◌≡◌, ◌≤◌, Err, IfOk, IfErr, IfSome};
ghost use Rattle.mv_io.specs.Fault.{Rose};
ghost use Rattle.mv_ending.specs.Written.{Nothing};
ghost use Rattle.mv_replay.specs.Course.{conversion_of, IsJudged};
ghost use Rattle.mv_replay.specs.Outcome.{InputOf, extent_of};

use crate::command::JournalCommand;
use crate::judging::{Judged, judge};
use crate::status::ReplayStatus;
use mv_io::{Source, read_limited};
use std::alloc::Global;

/// The most bytes of a journal.
pub(crate) const JOURNAL_LIMIT: usize = 67_108_864;

/// The text of a legal journal, and what was kept of it.
#[derive(Drop)]
pub(crate) struct LegalText {
    pub(crate) text: Vec<u8>,
    pub(crate) judged: Judged,
}

impl LegalText {
    /// Returns the conversion of the text, if the command makes one: the copy, or the text itself.
    pub(crate) fn conversion(self) -> Vec<u8>
        ensures { result.items ≡ conversion_of self }
    {
        let LegalText { text, judged } = self;
        let Judged { second, .. } = judged;
        match second {
            Some(second) => second,
            None => text,
        }
    }
}

/// Reads the input, and judges it. Returns the legal journal that it is, with its conversion if the command makes one, or how
/// the command ends without a report.
pub(crate) fn read_legal<D: Source>(
    alloc: Global,
    command: JournalCommand,
    input: &mut D,
) -> Result<LegalText, ReplayStatus>
    ensures judged { IfOk result (λ l. IsJudged command l.text.items l.judged) }
    ensures text { IfOk result (λ l. IfSome (D.left input.old) (λ bytes. l.text.items ≡ bytes)) }
    ensures whole { IfOk result (λ _. InputOf ReplayStatus.Done (D.left input.old) (D.left input.new)) }
    ensures input { IfErr result (λ status. InputOf status (D.left input.old) (D.left input.new)) }
    ensures unreported { IfErr result (λ status. extent_of status ≡ Nothing) }
    ensures read_failed { result ≡ Err ReplayStatus.ReadFailed → Rose (D.faults input.old) (D.faults input.new) }
    ensures count { D.faults input.old ≤ D.faults input.new }
{
    let text = read_limited(alloc, input, JOURNAL_LIMIT)?;
    let judged = judge(alloc, command, &text)?;
    Ok(LegalText { text, judged })
}
