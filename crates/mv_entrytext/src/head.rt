//! The head of a journal, read up to its last line, by `specs/Lines.antt`, `specs/Draft.antt` and `specs/Fault.antt`.

ghost use Rattle.std.specs.Prelude.{◌≡◌, ◌≢◌, ◌<◌, ◌-◌, ◌^◌, [], true, Some, length, OnOk, MatchResult};
ghost use Rattle.mv_line.specs.Fault.{TellsLowest};
ghost use Rattle.mv_line.specs.Line.{cut_off};
ghost use Rattle.mv_calls.specs.Prelude.{IsValid, setup_of};
ghost use Rattle.mv_entrytext.specs.Journal.{Events};
ghost use Rattle.mv_entrytext.specs.Lines.{AtEntries, blank, draft_with, line_read};
ghost use Rattle.mv_entrytext.specs.Fault.{TellsFirst, kind_number, kind_of_form, listed, text_fault};
ghost use Rattle.mv_entrytext.specs.Said.{said, stage_of};
ghost use Rattle.mv_entrytext.specs.Draft.{kind_of_config, draft_at, head_seen, IsAt};

use crate::fault::Kind;
use crate::line::{Line, Stage, read_line};
use mv_io::NoMemory;
use mv_line::{FaultKind, LineRefusal, Lines, TextRefusal, split_cut_off};
use mv_machine::{Config, ValidConfig};
use mv_operationtext::Version;
use std::alloc::Global;

// What the lines of the head have said so far, and which line comes next.
#[derive(Drop)]
struct HeadDraft {
    stage: Stage,
    version: Version,
    config: Config,
}

impl HeadDraft {
    fn new(alloc: Global) -> HeadDraft
        ensures { head_seen result ≡ blank }
    {
        HeadDraft {
            stage: Stage::Version,
            // The first line sets it.
            version: Version::One,
            config: Config {
                callers: 0,
                elements_per_caller: 0,
                volumes: 0,
                latches: 0,
                quota: 0,
                posted_quota: 0,
                budgets: Vec::new(alloc),
                owners: Vec::new(alloc),
                exits: Vec::new(alloc),
            },
        }
    }

    // Takes a line of the head. The last one, `EVENTS`, changes nothing.
    fn take(&mut self, line: Line) -> Result<(), NoMemory>
        ensures { OnOk result (said line ≢ Events → head_seen self.new ≡ draft_with (said line) (head_seen self.old)) }
    {
        match line {
            Line::Version(version) => {
                self.version = version;
                self.stage = Stage::Callers;
            }
            Line::Callers(n) => {
                self.config.callers = n;
                self.stage = Stage::Elements;
            }
            Line::Elements(n) => {
                self.config.elements_per_caller = n;
                self.stage = Stage::Volumes;
            }
            Line::Volumes(n) => {
                self.config.volumes = n;
                self.stage = Stage::Latches;
            }
            Line::Latches(n) => {
                self.config.latches = n;
                self.stage = Stage::Quota;
            }
            Line::Quota(quota, posted) => {
                self.config.quota = quota;
                self.config.posted_quota = posted;
                self.stage = Stage::Budgets;
            }
            Line::Budget(n) => {
                self.config.budgets.push(n)?;
                self.stage = Stage::Budgets;
            }
            Line::Owner(caller) => {
                self.config.owners.push(caller)?;
                self.stage = Stage::Owners;
            }
            Line::Exit(exit) => {
                self.config.exits.push(exit)?;
                self.stage = Stage::Exits;
            }
            Line::Events => {}
        }
        Ok(())
    }
}

// Reads a line as one that may come next, or returns whether its form or a number in it is at fault.
fn line_or_kind(alloc: Global, stage: Stage, text: &[u8]) -> Result<Line, LineRefusal<Kind>>
    ensures { MatchResult result
        (λ l. line_read true (stage_of stage) text.now ≡ Some (said l))
        (λ e. TellsLowest kind_number e (listed (kind_of_form (stage_of stage) text.now))) }
{
    if let Some(line) = read_line(alloc, true, stage, text)? {
        return Ok(line);
    }
    match read_line(alloc, false, stage, text)? {
        Some(_) => Err(LineRefusal::Has(Kind::BadNumber)),
        None => Err(LineRefusal::Has(Kind::NoForm)),
    }
}

// Returns the checked configuration of a head that has ended.
fn checked(alloc: Global, config: Config) -> Result<ValidConfig, LineRefusal<Kind>>
    ensures { MatchResult result
        (λ v. (v ≡ setup_of config) × IsValid (setup_of config))
        (λ e. TellsLowest kind_number e (listed (kind_of_config (setup_of config)))) }
{
    match config.refusal() {
        Some(_) => Err(LineRefusal::Has(Kind::BadConfig)),
        None => Ok(ValidConfig::of(alloc, config)?),
    }
}

/// A head that was read: its version, its configuration, the lines after it, and the bytes that are cut off after the last LF.
#[derive(Drop)]
pub(crate) struct Head<'a> {
    pub(crate) version: Version,
    pub(crate) config: ValidConfig,
    pub(crate) lines: Lines<'a>,
    pub(crate) cut: &'a [u8],
}

/// Reads the head of a journal, up to and including `EVENTS`.
pub(crate) fn read_head(alloc: Global, bytes: &[u8]) -> Result<Head<'_>, TextRefusal>
    requires { length bytes.now < 2 ^ 32 - 1 }
    ensures { MatchResult result
        (λ h. IsAt bytes.now h.lines (draft_at (AtEntries h.version) h.version h.config [] [])
        × (h.cut.now ≡ cut_off bytes.now))
        (λ e. TellsFirst e (text_fault bytes.now)) }
{
    let (ended, cut) = split_cut_off(bytes);
    let mut draft = HeadDraft::new(alloc);
    let mut lines = Lines::of(ended);
    'lines: while let Some((number, text)) = lines.next() {
        let line = match line_or_kind(alloc, draft.stage, text) {
            Ok(line) => line,
            Err(refusal) => return Err(refusal.at(number)),
        };
        if let Line::Events = line {
            let version = draft.version;
            return match checked(alloc, draft.config) {
                Ok(config) => Ok(Head {
                    version,
                    config,
                    lines,
                    cut,
                }),
                Err(refusal) => Err(refusal.at(number)),
            };
        }
        draft.take(line)?;
    }
    Err(TextRefusal::Fault(Kind::Cut.at(lines.number)))
}
