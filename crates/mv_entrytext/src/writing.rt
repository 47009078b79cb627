//! The lines of a journal, and its text made in memory, by `specs/Journal.antt`.

ghost use Rattle.std.specs.Prelude.{◌≡◌, ◌≤◌, ◌<◌, ◌+◌, ◌^◌, ◌++◌, ◌∷◌, [], List, length, All, map, OnOk, IfOk};
ghost use Rattle.std.specs.Prelude.{codes, decimal, vec_len, vec_capacity};
ghost use Rattle.std.specs.List.{flat_map};
ghost use Rattle.mv_calls.specs.Prelude.{setup_of, exit_of, Legal, highest_place, Setup};
ghost use Rattle.mv_operationtext.specs.declared.version.Version.{Version as AnyVersion};
ghost use Rattle.mv_operationtext.specs.EntryText.{IsInRange, IsTyped};
ghost use Rattle.mv_entrytext.specs.Journal.{JournalOf, Callers, Elements, Volumes, Latches, Quota, Budget, Owner, ExitTo};
ghost use Rattle.mv_entrytext.specs.Journal.{Line, EntryOf, End, line, counts_text, lists_text, head_text, text1, journal_text};
ghost use Rattle.mv_operationtext.specs.Widths.{line_width, number_width};
ghost use Rattle.mv_entrytext.specs.Writer.{IsWrittenTo};

use crate::typed::tell_entry;
use mv_calls::Judge;
use mv_io::NoMemory;
use mv_machine::{Config, Entry, Exit, ValidConfig};
use mv_operationtext::{
    LINE_WIDTH, Version, push_number, push_pair, push_word, put_entry, put_number, put_wide,
    put_word,
};
use std::alloc::Global;
use std::mem::replace;

// Takes the text so far out until a line is whole, so that its length stays in a register and is not stored for each byte.
#[inline(always)]
fn take_out(out: &mut Vec<u8>) -> Vec<u8>
    ensures text { result.items ≡ out.old.items }
    ensures len { vec_len result ≡ vec_len out.old }
    ensures capacity { vec_capacity result ≡ vec_capacity out.old }
{
    let alloc = *out.allocator();
    replace(out, Vec::new(alloc))
}

// Appends a line of a word and a number.
#[inline(always)]
fn push_line(out: &mut Vec<u8>, word: &[u8], number: u32) -> Result<(), NoMemory>
    requires short { length word.now + number_width < line_width }
    ensures { OnOk result (out.new.items ≡ out.old.items ++ ((word.now ++ decimal number) ++ codes "\n")) }
{
    out.reserve(LINE_WIDTH)?;
    let mut text = take_out(out);
    put_number(&mut text, word, number);
    put_word(&mut text, b"\n");
    *out = text;
    Ok(())
}

// Appends the first line.
#[tactic(auto, unfolding(crate::specs::Journal::line))]
fn push_version(out: &mut Vec<u8>, version: Version) -> Result<(), NoMemory>
    ensures { OnOk result (out.new.items ≡ out.old.items ++ line (JournalOf version)) }
{
    match version {
        Version::One => push_word(out, b"JOURNAL 1\n"),
        Version::Two => push_word(out, b"JOURNAL 2\n"),
    }
}

#[tactic(auto, unfolding(crate::specs::Journal::line))]
fn push_per_caller(out: &mut Vec<u8>, version: Version, config: &Config) -> Result<(), NoMemory>
    ensures { let c = setup_of config.now in OnOk result (out.new.items
        ≡ out.old.items ++ (line (JournalOf version) ++ line (Callers c.callers) ++ line (Elements c.elements_per_caller))) }
{
    push_version(out, version)?;
    push_line(out, b"CALLERS ", config.callers)?;
    push_line(out, b"ELEMENTS ", config.elements_per_caller)
}

#[tactic(auto, unfolding(crate::specs::Journal::line))]
fn push_shared(out: &mut Vec<u8>, config: &Config) -> Result<(), NoMemory>
    ensures { let c = setup_of config.now in OnOk result (out.new.items
        ≡ out.old.items ++ (line (Volumes c.volumes) ++ line (Latches c.latches))) }
{
    push_line(out, b"VOLUMES ", config.volumes)?;
    push_line(out, b"LATCHES ", config.latches)
}

#[tactic(auto, unfolding(crate::specs::Journal::line))]
fn push_quota(out: &mut Vec<u8>, config: &Config) -> Result<(), NoMemory>
    ensures { let c = setup_of config.now in OnOk result (out.new.items ≡ out.old.items ++ line (Quota c.quota c.posted_quota)) }
{
    push_pair(out, b"QUOTA ", config.quota, config.posted_quota)?;
    push_word(out, b"\n")
}

#[tactic(auto, unfolding(crate::specs::Journal::counts_text))]
fn push_counts(out: &mut Vec<u8>, version: Version, config: &Config) -> Result<(), NoMemory>
    ensures { OnOk result (out.new.items ≡ out.old.items ++ counts_text version (setup_of config.now)) }
{
    push_per_caller(out, version, config)?;
    push_shared(out, config)?;
    push_quota(out, config)
}

#[tactic(auto, unfolding(crate::specs::Journal::line))]
fn push_budget(out: &mut Vec<u8>, budget: u32) -> Result<(), NoMemory>
    ensures { OnOk result (out.new.items ≡ out.old.items ++ line (Budget budget)) }
{
    push_line(out, b"BUDGET ", budget)
}

fn push_budgets(out: &mut Vec<u8>, budgets: &[u32]) -> Result<(), NoMemory>
    ensures { OnOk result (out.new.items ≡ out.old.items ++ flat_map (λ n. line (Budget n)) budgets.now) }
{
    for budget in budgets {
        push_budget(out, *budget)?;
    }
    Ok(())
}

#[tactic(auto, unfolding(crate::specs::Journal::line))]
fn push_owner(out: &mut Vec<u8>, owner: u32) -> Result<(), NoMemory>
    ensures { OnOk result (out.new.items ≡ out.old.items ++ line (Owner owner)) }
{
    push_line(out, b"ECB ", owner)
}

fn push_owners(out: &mut Vec<u8>, owners: &[u32]) -> Result<(), NoMemory>
    ensures { OnOk result (out.new.items ≡ out.old.items ++ flat_map (λ n. line (Owner n)) owners.now) }
{
    for owner in owners {
        push_owner(out, *owner)?;
    }
    Ok(())
}

fn push_targets(out: &mut Vec<u8>, targets: &[u32]) -> Result<(), NoMemory>
    ensures { OnOk result (out.new.items ≡ out.old.items ++ flat_map (λ target. codes " " ++ decimal target) targets.now) }
{
    for target in targets {
        push_number(out, b" ", *target)?;
    }
    Ok(())
}

#[tactic(auto, unfolding(crate::specs::Journal::line))]
fn push_exit(out: &mut Vec<u8>, exit: &Exit) -> Result<(), NoMemory>
    ensures { OnOk result (out.new.items ≡ out.old.items ++ line (ExitTo (exit_of exit.now))) }
{
    push_number(out, b"EXIT ", exit.source)?;
    push_targets(out, &exit.targets)?;
    push_word(out, b"\n")
}

fn push_exits(out: &mut Vec<u8>, exits: &[Exit]) -> Result<(), NoMemory>
    ensures { OnOk result (out.new.items ≡ out.old.items ++ flat_map (λ x. line (ExitTo x)) (map exit_of exits.now)) }
{
    for exit in exits {
        push_exit(out, exit)?;
    }
    Ok(())
}

#[tactic(auto, unfolding(crate::specs::Journal::lists_text))]
fn push_lists(out: &mut Vec<u8>, config: &Config) -> Result<(), NoMemory>
    ensures { OnOk result (out.new.items ≡ out.old.items ++ lists_text (setup_of config.now)) }
{
    push_budgets(out, &config.budgets)?;
    push_owners(out, &config.owners)?;
    push_exits(out, &config.exits)
}

/// Appends the head of a text.
#[tactic(auto, unfolding(crate::specs::Journal::head_text, crate::specs::Journal::line))]
pub(crate) fn push_head(
    out: &mut Vec<u8>,
    version: Version,
    config: &Config,
) -> Result<(), NoMemory>
    ensures { OnOk result (out.new.items ≡ out.old.items ++ head_text version (setup_of config.now)) }
{
    push_counts(out, version, config)?;
    push_lists(out, config)?;
    push_word(out, b"EVENTS\n")
}

/// Appends the line of an entry, for which there is room. It is not inlined, so that the functions that it calls are inlined
/// only into it, and the text's length stays in a register.
#[inline(never)]
#[tactic(auto, unfolding(crate::specs::Journal::line))]
pub(crate) fn put_entry_line(out: &mut Vec<u8>, call: Option<u32>, entry: &Entry)
    requires room { vec_len out.old + line_width ≤ vec_capacity out.old }
    ensures text { out.new.items ≡ out.old.items ++ line (EntryOf call entry.now) }
    ensures capacity { vec_capacity out.new ≡ vec_capacity out.old }
{
    let mut text = take_out(out);
    put_entry(&mut text, call, entry);
    put_word(&mut text, b"\n");
    *out = text;
}

/// Appends the line that ends a text, for which there is room.
#[tactic(auto, unfolding(crate::specs::Journal::line))]
pub(crate) fn put_end_line(out: &mut Vec<u8>, count: u64)
    requires room { vec_len out.old + line_width ≤ vec_capacity out.old }
    ensures text { out.new.items ≡ out.old.items ++ line (End count) }
{
    put_wide(out, b"END ", count);
    put_word(out, b"\n");
}

/// Appends the line of an entry with its LF, and with the number of its call if it is given.
///
/// # Errors
///
/// Returns `NoMemory` if there is not enough memory for the line.
pub fn push_entry_line(out: &mut Vec<u8>, call: Option<u32>, entry: &Entry) -> Result<(), NoMemory>
    ensures text { OnOk result (out.new.items ≡ out.old.items ++ line (EntryOf call entry.now)) }
    ensures typed { OnOk result (IsTyped entry.now) }
{
    out.reserve(LINE_WIDTH)?;
    put_entry_line(out, call, entry);
    tell_entry(entry);
    Ok(())
}

/// A writer of the text of a journal, line by line, into one buffer that grows by doubling.
#[derive(Drop)]
pub struct JournalWriter {
    out: Vec<u8>,
}

impl JournalWriter {
    /// Opens a writer, with the head of a text in this version.
    ///
    /// # Errors
    ///
    /// Returns `NoMemory` if there is not enough memory for the head.
    pub fn open(
        alloc: Global,
        version: Version,
        config: &ValidConfig,
    ) -> Result<JournalWriter, NoMemory>
        ensures { IfOk result (λ w. IsWrittenTo version config.now [] w) }
    {
        let mut out = Vec::new(alloc);
        push_head(&mut out, version, config.config())?;
        Ok(JournalWriter { out })
    }

    /// Appends the line of an entry, with the number of its call if it is to have one. It also shows that each number of the
    /// entry fits its type. It takes the memory from the allocator that `open` was given.
    ///
    /// # Errors
    ///
    /// Returns `NoMemory` if there is not enough memory for the line.
    pub fn push(&mut self, call: Option<u32>, entry: &Entry) -> Result<(), NoMemory>
        ensures text { (v : AnyVersion) (c : Setup) (lines : List Line) → IsWrittenTo v c lines self.old
            → OnOk result (IsWrittenTo v c (lines ++ EntryOf call entry.now ∷ []) self.new) }
        ensures typed { OnOk result (IsTyped entry.now) }
    {
        push_entry_line(&mut self.out, call, entry)
    }

    /// Appends the line that ends the text, with this number, and returns the text. It takes the memory from the allocator that
    /// `open` was given.
    ///
    /// # Errors
    ///
    /// Returns `NoMemory` if there is not enough memory for that line.
    pub fn end(self, count: u64) -> Result<Vec<u8>, NoMemory>
        ensures { (v : AnyVersion) (c : Setup) (lines : List Line) → IsWrittenTo v c lines self
            → IfOk result (λ text. text.items ≡ head_text v c ++ flat_map line lines ++ line (End count)) }
    {
        let mut out = self.out;
        out.reserve(LINE_WIDTH)?;
        put_end_line(&mut out, count);
        Ok(out)
    }
}

/// Returns the journal of a configuration and entries in version 1 of the text, without call numbers. It is for any entries
/// whose operations and replies are of their objects' kinds, with numbers in the ranges of `docs/FORMATS.md`.
///
/// # Errors
///
/// Returns `NoMemory` if there is not enough memory for the text.
pub fn write_old_journal(
    alloc: Global,
    config: &ValidConfig,
    entries: &[Entry],
) -> Result<Vec<u8>, NoMemory>
    requires in_range { All IsInRange entries.now }
    ensures text { IfOk result (λ text. text.items ≡ text1 config.now entries.now) }
    ensures typed { OnOk result (All IsTyped entries.now) }
{
    let mut writer = JournalWriter::open(alloc, Version::One, config)?;
    for entry in entries {
        writer.push(None, entry)?;
    }
    let text = writer.end(entries.len() as u64)?;
    Ok(text)
}

/// Returns the journal of a configuration and a legal list of entries in version 2 of the text, with the call numbers that the
/// machine's rules give. It makes one pass, in time linear in the length. For a history, which is not a list, use
/// `HistoryText`.
///
/// # Errors
///
/// Returns `NoMemory` if there is not enough memory for the text, or for the machine's state and the call counters.
pub fn write_journal(
    alloc: Global,
    config: &ValidConfig,
    entries: &[Entry],
) -> Result<Vec<u8>, NoMemory>
    requires legal { Legal config.now entries.now }
    requires few { length entries.now < 2 ^ 32 }
    requires places { All (λ e. e.place ≤ highest_place) entries.now }
    ensures text { IfOk result (λ text. text.items ≡ journal_text config.now entries.now) }
    ensures typed { OnOk result (All IsTyped entries.now) }
{
    let mut judge = Judge::open(alloc, config)?;
    let mut writer = JournalWriter::open(alloc, Version::Two, config)?;
    for entry in entries {
        let Some(call) = judge.next(config, entry) else {
            unreachable!()
        };
        writer.push(Some(call), entry)?;
    }
    let text = writer.end(entries.len() as u64)?;
    Ok(text)
}
