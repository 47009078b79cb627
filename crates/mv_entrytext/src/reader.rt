//! The reader of journals: one pass over the bytes, an entry at a time. `specs/Reader.antt` says what it has read, by
//! `specs/Journal.antt`, `specs/Fault.antt` and `specs/Draft.antt`.

ghost use Rattle.std.specs.Prelude.{◌≡◌, ◌+◌, ◌<◌, ◌-◌, ◌^◌, [], true, Some, ℕ, List, length, IfOk, IfSome, MatchOption, MatchResult};
ghost use Rattle.mv_line.specs.Fault.{IsPassed};
ghost use Rattle.mv_calls.specs.Prelude.{Entry as AnyEntry, Setup};
ghost use Rattle.mv_operationtext.specs.declared.version.Version.{Version as AnyVersion};
ghost use Rattle.mv_operationtext.specs.EntryText.{entry_text};
ghost use Rattle.mv_entrytext.specs.Lines.{AtEntries, line_read};
ghost use Rattle.mv_entrytext.specs.Fault.{TellsFirst, kind_of_form, text_fault};
ghost use Rattle.mv_entrytext.specs.Journal.{EntryOf, first_line};
ghost use Rattle.mv_entrytext.specs.Said.{entry_said};
ghost use Rattle.mv_entrytext.specs.Reader.{left_in, IsReadTo, IsNextOf};

use crate::fault::Kind;
use crate::head::read_head;
use crate::line::{EntryLine, read_entry_line};
use mv_line::{FaultKind, Lines, TextFault, TextRefusal};
use mv_machine::{Entry, ValidConfig};
use mv_operationtext::{Version, read_entry};
use std::alloc::Global;

/// The reader of a journal's entries, which follow the head of its text. It keeps none of them.
#[derive(Drop)]
pub struct EntryReader<'a> {
    version: Version,
    lines: Lines<'a>,
    // The bytes that are cut off after the last LF.
    cut: &'a [u8],
    // The number of entries that were read.
    count: u32,
}

/// A journal whose head was read.
#[derive(Drop)]
pub struct OpenJournal<'a> {
    pub version: Version,
    pub config: ValidConfig,
    pub entries: EntryReader<'a>,
}

// Reads an entry at the front of the lines, and passes its line, if an LF follows the entry. The line ends where the entry
// ends, so no LF is searched for.
fn entry_in_front(version: Version, lines: &mut Lines<'_>) -> Option<(Option<u32>, Entry)>
    ensures { MatchOption result (lines.new ≡ lines.old)
        (λ x. IsPassed lines.old lines.old.number (entry_text x.0 x.1) lines.new
        × (line_read true (AtEntries version) (entry_text x.0 x.1) ≡ Some (EntryOf x.0 x.1))) }
{
    let (found, rest) = read_entry(true, version, lines.left)?;
    let [b'\n', left @ ..] = rest else {
        return None;
    };
    lines.pass(left);
    Some(found)
}

// Reads a line after the head, or returns whether its form or a number in it is at fault.
fn entry_line_or_kind(version: Version, text: &[u8]) -> Result<EntryLine, Kind>
    ensures { MatchResult result
        (λ l. line_read true (AtEntries version) text.now ≡ Some (entry_said l))
        (λ k. kind_of_form (AtEntries version) text.now ≡ Some k) }
{
    match read_entry_line(true, version, text) {
        Some(line) => Ok(line),
        None => match read_entry_line(false, version, text) {
            Some(_) => Err(Kind::BadNumber),
            None => Err(Kind::NoForm),
        },
    }
}

/// Reads the head of a journal, in either version of the text.
///
/// # Errors
///
/// Returns `Fault` if the head has a fault, which is the text's first. Returns `NoMemory` if there is not enough memory for the
/// head.
pub fn open_journal(alloc: Global, bytes: &[u8]) -> Result<OpenJournal<'_>, TextRefusal>
    requires short { length bytes.now < 2 ^ 32 - 1 }
    ensures { MatchResult result
        (λ j. IsReadTo j.version bytes.now j.config [] [] j.entries)
        (λ e. TellsFirst e (text_fault bytes.now)) }
{
    let head = read_head(alloc, bytes)?;
    Ok(OpenJournal {
        version: head.version,
        config: head.config,
        entries: EntryReader {
            version: head.version,
            lines: head.lines,
            cut: head.cut,
            count: 0,
        },
    })
}

impl EntryReader<'_> {
    /// Returns the number of the next line, counted from 1.
    pub fn line(&self) -> u32
        ensures { (v : AnyVersion) (bytes : List ℕ) (c : Setup) (es : List AnyEntry) (ns : List ℕ)
            → IsReadTo v bytes c es ns self.now → result ≡ first_line c + length es }
    {
        self.lines.number
    }

    /// Returns the number of entries that were read.
    pub fn count(&self) -> u32
        ensures { (v : AnyVersion) (bytes : List ℕ) (c : Setup) (es : List AnyEntry) (ns : List ℕ)
            → IsReadTo v bytes c es ns self.now → result ≡ length es }
    {
        self.count
    }

    /// Reads the next entry, with the number of its call in version 2. Returns `None` at the end of a text without fault. It
    /// does not check call numbers. It takes time linear in the line.
    ///
    /// # Errors
    ///
    /// Returns the first fault of the text, if the reader has come to it. The reader then stays before the line, as it does at
    /// the end.
    ///
    /// # Examples
    ///
    /// From `crates/mv_replay/src/judging.rt`, which takes each event and its call number:
    ///
    /// ```
    /// match reader.next()? {
    ///     Some((call, entry)) => course.take(line, call, &entry)?,
    ///     None => return course.end(reader.count()),
    /// }
    /// ```
    pub fn next(&mut self) -> Result<Option<(Option<u32>, Entry)>, TextFault>
        requires read { (v : AnyVersion) × (bytes : List ℕ) × (c : Setup) × (es : List AnyEntry) × (ns : List ℕ)
            × IsReadTo v bytes c es ns self.old }
        ensures read { (v : AnyVersion) (bytes : List ℕ) (c : Setup) (es : List AnyEntry) (ns : List ℕ)
            → IsReadTo v bytes c es ns self.old → MatchResult result
            (λ found. IsNextOf v bytes c es ns found self.new)
            (λ f. text_fault bytes ≡ Some f) }
        ensures shorter { IfOk result (λ found. IfSome found (λ _. left_in self.new < left_in self.old)) }
        // A call that returns no entry leaves the reader as it was.
        ensures stays { MatchResult result (λ found. MatchOption found (self.new ≡ self.old) (λ _. Unit {0})) (λ _. self.new ≡ self.old) }
    {
        if let Some(found) = entry_in_front(self.version, &mut self.lines) {
            self.count += 1;
            return Ok(Some(found));
        }
        self.next_line()
    }

    // Reads the next entry by its whole line, and finds the line's fault if it has one.
    fn next_line(&mut self) -> Result<Option<(Option<u32>, Entry)>, TextFault>
        requires read { (v : AnyVersion) × (bytes : List ℕ) × (c : Setup) × (es : List AnyEntry) × (ns : List ℕ)
            × IsReadTo v bytes c es ns self.old }
        ensures read { (v : AnyVersion) (bytes : List ℕ) (c : Setup) (es : List AnyEntry) (ns : List ℕ)
            → IsReadTo v bytes c es ns self.old → MatchResult result
            (λ found. IsNextOf v bytes c es ns found self.new)
            (λ f. text_fault bytes ≡ Some f) }
        ensures shorter { IfOk result (λ found. IfSome found (λ _. left_in self.new < left_in self.old)) }
        // A call that returns no entry leaves the reader as it was.
        ensures stays { MatchResult result (λ found. MatchOption found (self.new ≡ self.old) (λ _. Unit {0})) (λ _. self.new ≡ self.old) }
    {
        let mut lines = self.lines;
        let Some((number, text)) = lines.next() else {
            return Err(Kind::Cut.at(lines.number));
        };
        match entry_line_or_kind(self.version, text) {
            Ok(EntryLine::Entry(call, entry)) => {
                self.lines = lines;
                self.count += 1;
                Ok(Some((call, entry)))
            }
            Ok(EntryLine::End(count)) => {
                if count != self.count {
                    return Err(Kind::WrongCount.at(number));
                }
                if let Some((number, _)) = lines.next() {
                    return Err(Kind::NoForm.at(number));
                }
                if !self.cut.is_empty() {
                    return Err(Kind::Cut.at(lines.number));
                }
                Ok(None)
            }
            Err(kind) => Err(kind.at(number)),
        }
    }
}
