//! The judgement of a text, line by line. Clauses cite specs/Judgement and specs/Course.

ghost use Rattle.std.specs.Prelude.{◌≡◌, ◌≤◌, ◌<◌, ◌+◌, ◌-◌, ◌^◌, ◌∷◌, ◌++◌, [], ℕ, Bool, List, Some, length};
ghost use Rattle.std.specs.Prelude.{IfOk, OnOk, IsTrue, ◌↔◌, MatchResult};
ghost use Rattle.mv_calls.specs.Prelude.{Entry as AnyEntry, highest_place, Setup, calls as calls_of};
ghost use Rattle.mv_operationtext.specs.declared.version.Version.{Version as AnyVersion};
ghost use Rattle.mv_entrytext.specs.Fault.{AreCallsIn, HasJournal, IsTextIn};
ghost use Rattle.mv_entrytext.specs.Journal.{first_line};
ghost use Rattle.mv_operationtext.specs.Version.{number_of};
ghost use Rattle.mv_entrytext.specs.Lines.{with_call};
ghost use Rattle.mv_replay.specs.declared.command.JournalCommand.{JournalCommand as AnyCommand};
ghost use Rattle.mv_replay.specs.Course.{is_copied, IsCopied, IsCourse, IsJudged};
ghost use Rattle.mv_replay.specs.Judgement.{journal_limit, IsRefused};

use crate::command::JournalCommand;
use crate::status::ReplayStatus;
use mv_calls::Judge;
use mv_entrytext::{JournalWriter, OpenJournal, Version, open_journal};
use mv_io::NoMemory;
use mv_machine::{Entry, ValidConfig};
use std::alloc::Global;

/// What is kept of a legal text.
#[derive(Drop)]
pub(crate) struct Judged {
    /// The number of its entries.
    pub(crate) count: u32,
    /// Its conversion, if the command makes one and the text is not in version 2 already.
    pub(crate) second: Option<Vec<u8>>,
    /// Its configuration.
    pub(crate) config: ValidConfig,
    /// The judge after its last entry.
    pub(crate) judge: Judge,
}

// How far a text has been judged. It keeps none of the entries.
#[derive(Drop)]
struct Course {
    config: ValidConfig,
    judge: Judge,
    // The line of the first wrong entry. After it the judge is not used, and nothing is copied.
    wrong: Option<u32>,
    // The text in version 2 so far, if the command makes one.
    copy: Option<JournalWriter>,
}

// Returns whether the command makes a conversion that is not the text itself.
fn copies(command: JournalCommand, version: Version) -> bool
    ensures { result ≡ is_copied command version }
{
    match (command, version) {
        (JournalCommand::Convert, Version::One) => true,
        (JournalCommand::Convert, Version::Two) | (JournalCommand::Replay, _) => false,
    }
}

// Returns whether the number of a call is the one that the text has, if the text has one.
fn is_told(told: Option<u32>, number: u32) -> bool
    ensures { IsTrue result ↔ ((k : ℕ) → told ≡ Some k → k ≡ number) }
{
    match told {
        Some(call) => call == number,
        None => true,
    }
}

// Appends the line of an entry to the copy, if there is one.
fn copy_line(copy: &mut Option<JournalWriter>, number: u32, entry: &Entry) -> Result<(), NoMemory>
    ensures { (copied : Bool) (c : Setup) (es : List AnyEntry) → IsCopied copied c es copy.old
        → calls_of c (es ++ entry.now ∷ []) ≡ calls_of c es ++ number ∷ []
        → OnOk result (IsCopied copied c (es ++ entry.now ∷ []) copy.new) }
{
    match copy {
        Some(writer) => writer.push(Some(number), entry),
        None => Ok(()),
    }
}

impl Course {
    // Opens the judgement before the first entry.
    fn open(alloc: Global, copied: bool, config: ValidConfig) -> Result<Course, NoMemory>
        ensures config { IfOk result (λ x. x.config ≡ config) }
        ensures course { IfOk result (λ x. (v : AnyVersion) → IsCourse v copied config [] [] x.wrong x.judge x.copy) }
    {
        let copy = if copied {
            Some(JournalWriter::open(alloc, Version::Two, &config)?)
        } else {
            None
        };
        let judge = Judge::open(alloc, &config)?;
        Ok(Course {
            config,
            judge,
            wrong: None,
            copy,
        })
    }

    // Judges the entry of this line, with the number of its call if the text has one.
    fn take(&mut self, line: u32, told: Option<u32>, entry: &Entry) -> Result<(), NoMemory>
        requires place { entry.now.place ≤ highest_place }
        requires few { (v : AnyVersion) × (copied : Bool) × (es : List AnyEntry) × (ns : List ℕ)
            × IsCourse v copied self.old.config es ns self.old.wrong self.old.judge self.old.copy × (length es < 2 ^ 32 - 1) }
        ensures config { self.new.config ≡ self.old.config }
        ensures course { (v : AnyVersion) (copied : Bool) (es : List AnyEntry) (ns : List ℕ)
            → IsCourse v copied self.old.config es ns self.old.wrong self.old.judge self.old.copy
            → AreCallsIn v es ns → AreCallsIn v (es ++ entry.now ∷ []) (with_call told ns)
            → line ≡ first_line self.old.config + length es
            → OnOk result (IsCourse v copied self.old.config (es ++ entry.now ∷ []) (with_call told ns)
            self.new.wrong self.new.judge self.new.copy) }
    {
        if let Some(_) = self.wrong {
            return Ok(());
        }
        match self.judge.next(&self.config, entry) {
            Some(number) => {
                if is_told(told, number) {
                    return copy_line(&mut self.copy, number, entry);
                }
                self.wrong = Some(line);
                Ok(())
            }
            None => {
                self.wrong = Some(line);
                Ok(())
            }
        }
    }

    // Ends the judgement, after all `count` entries of the text.
    fn end(self, count: u32) -> Result<Judged, ReplayStatus>
        ensures { (command : AnyCommand) (v : AnyVersion) (bytes : List ℕ) (c : Setup) (es : List AnyEntry) (ns : List ℕ)
            → IsCourse v (is_copied command v) c es ns self.wrong self.judge self.copy → HasJournal c es
            → IsTextIn (number_of v) bytes c es ns → count ≡ length es → self.config ≡ c
            → MatchResult result (λ j. IsJudged command bytes j) (λ s. IsRefused bytes s) }
    {
        let Course {
            config,
            judge,
            wrong,
            copy,
        } = self;
        if let Some(line) = wrong {
            return Err(ReplayStatus::Illegal(line));
        }
        match copy {
            Some(writer) => {
                let text = writer.end(u64::from(count))?;
                Ok(Judged {
                    count,
                    second: Some(text),
                    config,
                    judge,
                })
            }
            None => Ok(Judged {
                count,
                second: None,
                config,
                judge,
            }),
        }
    }
}

/// Judges a text. Returns what is kept of it if it is legal, with its conversion if the command makes one, or how the command
/// ends. A fault of the text is returned rather than a wrong entry, wherever the two are.
pub(crate) fn judge(
    alloc: Global,
    command: JournalCommand,
    bytes: &[u8],
) -> Result<Judged, ReplayStatus>
    requires { length bytes.now ≤ journal_limit }
    ensures { MatchResult result (λ j. IsJudged command bytes.now j) (λ status. IsRefused bytes.now status) }
{
    let OpenJournal {
        version,
        config,
        entries: mut reader,
    } = open_journal(alloc, bytes)?;
    let mut course = Course::open(alloc, copies(command, version), config)?;
    'entries: loop {
        let line = reader.line();
        match reader.next()? {
            Some((call, entry)) => course.take(line, call, &entry)?,
            None => return course.end(reader.count()),
        }
    }
}
