//! The form of a line, which its words determine (`specs/Form.antt`, `specs/Statement.antt`).

ghost use Rattle.std.specs.Prelude.{◌≡◌, ◌-◌, ◌^◌, ◌<◌, Some, length, drop, map, option_map, IfOk};
ghost use Rattle.mv_deck.specs.Form.{stated, part_data, listed};
ghost use Rattle.mv_line.specs.Line.{lines_of, without_first_spaces as from_first_field};
ghost use Rattle.mv_line.specs.Field.{fields_of, two_of};
ghost use Rattle.mv_deck.specs.Statement.{form_of as form_by_words, job_of as named, operation_of as unnamed};
ghost use Rattle.mv_deck.specs.Statement.{use_of as used, return_of as returns_by, one_operand as of_one, part_of as cut, declared_by};
ghost use Rattle.mv_deck.specs.Statement.{version_of as version_by_lines};

use crate::line::{is_comment, split_colon};
use crate::operand::mode;
use mv_latch::Mode;
use mv_line::{
    Lines, is_word, one_field, shown, split_field, split_part, two_fields, without_first_spaces,
};
use std::alloc::{AllocError, Global};

/// The version of a deck, which says which forms its lines may have.
#[derive(Clone, Copy)]
pub(crate) enum Version {
    One,
    Two,
}

/// The statement of a line, with the bytes in the places of a name, a number, a text or a code.
#[derive(Clone, Copy)]
pub(crate) enum Form<'a> {
    Null,
    Deck(&'a [u8]),
    /// A name, and the list after `AFTER=`.
    Job(&'a [u8], Option<&'a [u8]>),
    Print(&'a [u8]),
    Use(&'a [u8], Mode),
    Free(&'a [u8]),
    Count(&'a [u8], &'a [u8]),
    Scan(&'a [u8]),
    Abend(&'a [u8]),
    Return(&'a [u8]),
}

/// A part of an AFTER list: a name, and an accepted code if there is one.
#[derive(Clone, Copy, Drop)]
pub(crate) struct Part<'a> {
    pub(crate) name: &'a [u8],
    pub(crate) most: Option<&'a [u8]>,
}

/// Returns the form of a text without spaces at its end, or `None` if its words fit no form of its version.
pub(crate) fn form_of(version: Version, text: &[u8]) -> Option<Form<'_>>
    ensures { option_map (stated version) result ≡ form_by_words version text.now }
{
    match text {
        [b'/', b'/'] => Some(Form::Null),
        [b'/', b'/', b' ', ..] => operation_of(version, &text[2..]),
        [b'/', b'/', rest @ ..] => job_of(rest),
        _ => None,
    }
}

// The form `NAME JOB` or `NAME JOB AFTER=list`.
fn job_of(rest: &[u8]) -> Option<Form<'_>>
    ensures { (v : Version) → option_map (stated v) result ≡ named v (fields_of rest.now) }
{
    let (name, behind) = split_field(rest);
    let (operation, behind) = split_field(behind);
    if name.is_empty() || !is_word(operation, b"JOB") {
        return None;
    }
    let (third, behind) = split_field(behind);
    if third.is_empty() {
        return Some(Form::Job(name, None));
    }
    let (fourth, _) = split_field(behind);
    if !fourth.is_empty() {
        return None;
    }
    let list = third.strip_prefix(b"AFTER=")?;
    Some(Form::Job(name, Some(list)))
}

// An operation and its operands, which follow it after one or more spaces.
fn operation_of(version: Version, rest: &[u8]) -> Option<Form<'_>>
    ensures { option_map (stated version) result ≡ unnamed version rest.now (fields_of rest.now) }
{
    let (operation, operands) = split_field(rest);
    if is_word(operation, b"PRINT") {
        return Some(Form::Print(printed(rest)));
    }
    if is_word(operation, b"USE") {
        return use_of(operands);
    }
    if is_word(operation, b"COUNT") {
        let (volume, amount) = two_fields(operands)?;
        return Some(Form::Count(volume, amount));
    }
    one_operand(version, operation, one_field(operands)?)
}

// An operation that has one operand.
fn one_operand<'a>(version: Version, operation: &[u8], operand: &'a [u8]) -> Option<Form<'a>>
    ensures { option_map (stated version) result ≡ of_one version operation.now (Some operand.now) }
{
    if is_word(operation, b"FREE") {
        return Some(Form::Free(operand));
    }
    if is_word(operation, b"SCAN") {
        return Some(Form::Scan(operand));
    }
    if is_word(operation, b"ABEND") {
        return Some(Form::Abend(operand));
    }
    if is_word(operation, b"RETURN") {
        return return_of(version, operand);
    }
    if is_word(operation, b"DECK") {
        return Some(Form::Deck(operand));
    }
    None
}

// A return code; only version 2 has the form RETURN.
fn return_of(version: Version, operand: &[u8]) -> Option<Form<'_>>
    ensures { option_map (stated version) result ≡ returns_by version (Some operand.now) }
{
    match version {
        Version::One => None,
        Version::Two => Some(Form::Return(operand)),
    }
}

// A latch and a mode.
fn use_of(operands: &[u8]) -> Option<Form<'_>>
    ensures { (v : Version) → option_map (stated v) result ≡ used (two_of (fields_of operands.now)) }
{
    let (latch, word) = two_fields(operands)?;
    Some(Form::Use(latch, mode(word)?))
}

// What follows PRINT and one space.
fn printed(rest: &[u8]) -> &[u8]
    ensures { result.now ≡ drop 6 (from_first_field rest.now) }
{
    let statement = without_first_spaces(rest);
    statement.get(6..).unwrap_or(&[])
}

/// Returns the version of a deck, by the first of its lines that is neither ignored nor a comment.
pub(crate) fn version_of(bytes: &[u8]) -> Version
    requires { length bytes.now < 2 ^ 32 - 1 }
    ensures { result ≡ version_by_lines (lines_of bytes.now) }
{
    let mut lines = Lines::of(bytes);
    'lines: while let Some((_, line)) = lines.next() {
        let text = shown(line);
        if !text.is_empty() && !is_comment(text) {
            return declared(form_of(Version::One, text));
        }
    }
    Version::One
}

// The version that a first statement declares.
fn declared(form: Option<Form>) -> Version
    ensures { (v : Version) → result ≡ declared_by (option_map (stated v) form.entry) }
{
    match form {
        Some(Form::Deck(b"2")) => Version::Two,
        _ => Version::One,
    }
}

/// Returns the parts of an AFTER list, none if there is no list.
pub(crate) fn parts_of<'a>(
    alloc: Global,
    version: Version,
    list: Option<&'a [u8]>,
) -> Result<Vec<Part<'a>>, AllocError>
    ensures { IfOk result (λ parts. map part_data parts.items ≡ listed version list.entry) }
{
    let mut parts = Vec::new(alloc);
    let mut rest = list;
    while let Some(text) = rest {
        let (part, behind) = split_part(text, b',');
        parts.push(part_of(version, part))?;
        rest = behind;
    }
    Ok(parts)
}

// A name, and in version 2 the accepted code after a colon.
fn part_of(version: Version, part: &[u8]) -> Part<'_>
    ensures { part_data result ≡ cut version part.now }
{
    match version {
        Version::One => Part {
            name: part,
            most: None,
        },
        Version::Two => {
            let (name, most) = split_colon(part);
            Part { name, most }
        }
    }
}
