//! The lines of a journal, read one by one, by `specs/Lines.antt`. `specs/Said.antt` says how contracts see them.

ghost use Rattle.std.specs.Prelude.{◌≡◌, [], true, IfOk, option_map};
ghost use Rattle.mv_config.specs.Config.{exit_of};
ghost use Rattle.mv_line.specs.Part.{parts_at};
ghost use Rattle.mv_operationtext.specs.Reading.{whole, any_u32};
ghost use Rattle.mv_entrytext.specs.Lines.{AtVersion, AtBudgets, AtEntries, numbers, exit_from, exit_read, at_exits, at_owners};
ghost use Rattle.mv_entrytext.specs.Lines.{count_line, next_line, line_read};
ghost use Rattle.mv_entrytext.specs.Said.{said, entry_said, stage_of, line_seen, entry_line_seen};

use mv_io::NoMemory;
use mv_line::split_part;
use mv_machine::{Entry, Exit};
use mv_operationtext::{Version, after, any_u32, pair_behind, read_entry, u32_behind};
use std::alloc::Global;

/// A line of the head, as it was read.
#[derive(Drop)]
pub(crate) enum Line {
    Version(Version),
    Callers(u32),
    Elements(u32),
    Volumes(u32),
    Latches(u32),
    Quota(u32, u32),
    Budget(u32),
    Owner(u32),
    Exit(Exit),
    Events,
}

/// A line after the head, as it was read.
#[derive(Clone, Copy)]
pub(crate) enum EntryLine {
    /// An entry, in version 2 with the number of its call.
    Entry(Option<u32>, Entry),
    End(u32),
}

/// The line of the head that comes next. At the three lists, a line of a later list or `EVENTS` may come next too.
#[derive(Clone, Copy)]
pub(crate) enum Stage {
    Version,
    Callers,
    Elements,
    Volumes,
    Latches,
    Quota,
    Budgets,
    Owners,
    Exits,
}

// Reads a text that is a number to its end.
fn whole_number(strict: bool, text: &[u8]) -> Option<u32>
    ensures { result ≡ whole (any_u32 strict) text.now }
{
    let (number, rest) = any_u32(strict, text)?;
    rest.is_empty().then_some(number)
}

// Reads the fields of a text, which are separated by single spaces, as numbers. Each field must be a number to its end.
fn read_numbers(alloc: Global, strict: bool, text: &[u8]) -> Result<Option<Vec<u32>>, NoMemory>
    ensures { IfOk result (λ o. option_map (λ v. v.items) o ≡ numbers strict (parts_at 32 text.now)) }
{
    let mut found = Vec::new(alloc);
    let mut left = Some(text);
    while let Some(fields) = left {
        let (field, behind) = split_part(fields, b' ');
        let Some(number) = whole_number(strict, field) else {
            return Ok(None);
        };
        found.push(number)?;
        left = behind;
    }
    Ok(Some(found))
}

// Makes an exit of numbers: a source and one or more targets.
fn exit_from(mut numbers: Vec<u32>) -> Option<Exit>
    ensures { option_map (λ x. (exit_of x, [])) result ≡ exit_from numbers.items }
{
    if numbers.len() < 2 {
        return None;
    }
    let source = numbers.remove(0);
    Some(Exit {
        source,
        targets: numbers,
    })
}

// Reads the numbers of an exit's line.
#[tactic(auto, unfolding(crate::specs::Lines::exit_read))]
fn read_exit(alloc: Global, strict: bool, text: &[u8]) -> Result<Option<Exit>, NoMemory>
    ensures { IfOk result (λ o. option_map (λ x. (exit_of x, [])) o ≡ exit_read strict text.now) }
{
    match read_numbers(alloc, strict, text)? {
        Some(numbers) => Ok(exit_from(numbers)),
        None => Ok(None),
    }
}

// Reads the first line.
#[tactic(auto, unfolding(crate::specs::Lines::count_line))]
fn read_version(text: &[u8]) -> Option<(Line, &[u8])>
    ensures { line_seen result ≡ count_line true AtVersion text.now }
{
    if let Some(rest) = after(text, b"JOURNAL 1") {
        return Some((Line::Version(Version::One), rest));
    }
    Some((Line::Version(Version::Two), after(text, b"JOURNAL 2")?))
}

// Reads a count of the head. Each count has its stage.
#[tactic(auto, unfolding(crate::specs::Lines::count_line))]
fn read_count(strict: bool, stage: Stage, text: &[u8]) -> Option<(Line, &[u8])>
    ensures { line_seen result ≡ count_line strict (stage_of stage) text.now }
{
    match stage {
        Stage::Version => read_version(text),
        Stage::Callers => {
            let (n, rest) = u32_behind(strict, text, b"CALLERS ")?;
            Some((Line::Callers(n), rest))
        }
        Stage::Elements => {
            let (n, rest) = u32_behind(strict, text, b"ELEMENTS ")?;
            Some((Line::Elements(n), rest))
        }
        Stage::Volumes => {
            let (n, rest) = u32_behind(strict, text, b"VOLUMES ")?;
            Some((Line::Volumes(n), rest))
        }
        Stage::Latches => {
            let (n, rest) = u32_behind(strict, text, b"LATCHES ")?;
            Some((Line::Latches(n), rest))
        }
        Stage::Quota => {
            let ((quota, posted), rest) = pair_behind(
                strict,
                (u32::MAX, u32::MAX),
                text,
                b"QUOTA ",
            )?;
            Some((Line::Quota(quota, posted), rest))
        }
        _ => None,
    }
}

// Reads an entry, or the end of the journal.
#[tactic(auto, unfolding(crate::specs::Lines::next_line))]
fn read_entry_or_end(strict: bool, version: Version, text: &[u8]) -> Option<(EntryLine, &[u8])>
    ensures { entry_line_seen result ≡ next_line strict (AtEntries version) text.now }
{
    if let Some((n, rest)) = u32_behind(strict, text, b"END ") {
        return Some((EntryLine::End(n), rest));
    }
    let ((call, entry), rest) = read_entry(strict, version, text)?;
    Some((EntryLine::Entry(call, entry), rest))
}

/// Reads a whole line after the head, without its LF.
pub(crate) fn read_entry_line(strict: bool, version: Version, text: &[u8]) -> Option<EntryLine>
    ensures { option_map entry_said result ≡ line_read strict (AtEntries version) text.now }
{
    match read_entry_or_end(strict, version, text)? {
        (line, []) => Some(line),
        _ => None,
    }
}

type Read<'a> = Result<Option<(Line, &'a [u8])>, NoMemory>;

// Reads an exit, or the end of the head.
#[tactic(auto, unfolding(mv_operationtext::specs::Reading::behind))]
fn read_at_exits(alloc: Global, strict: bool, text: &[u8]) -> Read<'_>
    ensures { IfOk result (λ o. line_seen o ≡ at_exits strict text.now) }
{
    if let Some(rest) = after(text, b"EVENTS") {
        return Ok(Some((Line::Events, rest)));
    }
    let Some(rest) = after(text, b"EXIT ") else {
        return Ok(None);
    };
    match read_exit(alloc, strict, rest)? {
        Some(exit) => Ok(Some((Line::Exit(exit), &[]))),
        None => Ok(None),
    }
}

// Reads an owner, or a line that may follow the owners.
fn read_at_owners(alloc: Global, strict: bool, text: &[u8]) -> Read<'_>
    ensures { IfOk result (λ o. line_seen o ≡ at_owners strict text.now) }
{
    if let Some((owner, rest)) = u32_behind(strict, text, b"ECB ") {
        return Ok(Some((Line::Owner(owner), rest)));
    }
    read_at_exits(alloc, strict, text)
}

// Reads a budget, or a line that may follow the budgets.
#[tactic(auto, unfolding(crate::specs::Lines::next_line))]
fn read_at_budgets(alloc: Global, strict: bool, text: &[u8]) -> Read<'_>
    ensures { IfOk result (λ o. line_seen o ≡ next_line strict AtBudgets text.now) }
{
    if let Some((budget, rest)) = u32_behind(strict, text, b"BUDGET ") {
        return Ok(Some((Line::Budget(budget), rest)));
    }
    read_at_owners(alloc, strict, text)
}

// Reads a line that may come next at this stage.
#[tactic(auto, unfolding(crate::specs::Lines::next_line))]
fn read_next(alloc: Global, strict: bool, stage: Stage, text: &[u8]) -> Read<'_>
    ensures { IfOk result (λ o. line_seen o ≡ next_line strict (stage_of stage) text.now) }
{
    match stage {
        Stage::Budgets => read_at_budgets(alloc, strict, text),
        Stage::Owners => read_at_owners(alloc, strict, text),
        Stage::Exits => read_at_exits(alloc, strict, text),
        _ => Ok(read_count(strict, stage, text)),
    }
}

/// Reads a whole line of the head, without its LF, as one that may come next at this stage.
pub(crate) fn read_line(
    alloc: Global,
    strict: bool,
    stage: Stage,
    text: &[u8],
) -> Result<Option<Line>, NoMemory>
    ensures { IfOk result (λ o. option_map said o ≡ line_read strict (stage_of stage) text.now) }
{
    match read_next(alloc, strict, stage, text)? {
        Some((line, [])) => Ok(Some(line)),
        _ => Ok(None),
    }
}
