//! The numbers, tokens and modes of a line, read from their words (`specs/Operand.antt`).

ghost use Rattle.std.specs.Prelude.{◌≡◌, ◌≤◌, ◌^◌};
ghost use Rattle.mv_scriptline.specs.Operand.{below as reads_below, number_of_tasks as reads_task_count, task as reads_task};
ghost use Rattle.mv_scriptline.specs.Operand.{ecb as reads_ecb, element as reads_element, volume as reads_volume};
ghost use Rattle.mv_scriptline.specs.Operand.{latch as reads_latch, count as reads_count, ecb_code as reads_ecb_code};
ghost use Rattle.mv_scriptline.specs.Operand.{table_size as reads_table_size, event as reads_event, event_position as reads_event_position};
ghost use Rattle.mv_scriptline.specs.Operand.{release_code as reads_release_code, place as reads_place};
ghost use Rattle.mv_scriptline.specs.Operand.{any_number as reads_any_number, requestor as reads_requestor, token as reads_token};
ghost use Rattle.mv_scriptline.specs.Operand.{or_hyphen, mode as reads_mode, conditional as reads_conditional};

use crate::limits::{
    ELEMENTS_PER_TASK, HIGHEST_COUNT, HIGHEST_LATCH, HIGHEST_POSITION, HIGHEST_SIZE, MOST_TASKS,
    VOLUMES,
};
use crate::words::{Misread, both};
use mv_calls::Table;
use mv_ecb::CODE_LIMIT;
use mv_element::{RELEASE_LIMIT, Token};
use mv_latch::Mode;
use mv_line::{first_place, is_digits, is_word, wide_number_within};
use mv_machine::{HIGHEST_GENERATION, HIGHEST_PLACE};
use std::marker::Model;

/// What the lines of a script may name so far: its tasks, 8 at most, its event control blocks, and its table of events, if it has
/// one. Its methods read what a line names of them.
#[derive(Clone, Copy)]
pub struct Sizes {
    pub tasks: u32,
    pub ecbs: u32,
    pub table: Option<Table>,
}

impl Model for Sizes {
    ghost use Rattle.std.specs.Prelude.{◌≤◌};
    ghost use Rattle.mv_scriptline.specs.Limits.{most_tasks};
    ghost use Rattle.mv_scriptline.specs.Sizes.{SizesFace};

    ghost Value = { SizesFace };

    ghost view = { λ z. record { tasks = z.tasks; ecbs = z.ecbs; table = z.table } };

    ghost inverse = { λ f. record { tasks = f.tasks; ecbs = f.ecbs; table = f.table } };

    ghost invariant = { λ z. z.tasks ≤ most_tasks };
}

impl Sizes {
    /// Reads a task of the script.
    pub(crate) fn task(self, word: &[u8]) -> Result<u32, Misread>
        ensures { result ≡ reads_task self word.now }
    {
        below(u64::from(self.tasks), word)
    }

    /// Reads an event control block of the script.
    pub(crate) fn ecb(self, word: &[u8]) -> Result<u32, Misread>
        ensures { result ≡ reads_ecb self word.now }
    {
        below(u64::from(self.ecbs), word)
    }

    /// Reads a pause element of the script.
    pub(crate) fn element(self, word: &[u8]) -> Result<u32, Misread>
        ensures { result ≡ reads_element self word.now }
    {
        below(u64::from(ELEMENTS_PER_TASK * self.tasks), word)
    }

    /// Reads an event of the script's table; there is none without a table.
    pub(crate) fn event(self, word: &[u8]) -> Result<u32, Misread>
        ensures { result ≡ reads_event self word.now }
    {
        let count = match self.table {
            Some(table) => table.size,
            None => 0,
        };
        below(u64::from(count), word)
    }

    /// Reads a position of the script's table, 0 to 99; there is none without a table.
    pub(crate) fn event_position(self, word: &[u8]) -> Result<u32, Misread>
        ensures { result ≡ reads_event_position self word.now }
    {
        let count = match self.table {
            Some(_) => HIGHEST_POSITION + 1,
            None => 0,
        };
        below(count, word)
    }

    /// Reads a token: an element and a generation, with a point between them.
    pub(crate) fn token(self, word: &[u8]) -> Result<Token, Misread>
        ensures { result ≡ reads_token self word.now }
    {
        let Some(point) = first_place(word, b'.') else {
            return Err(Misread::NoForm);
        };
        let (element, generation) = both(
            self.element(&word[..point]),
            below(u64::from(HIGHEST_GENERATION), &word[point + 1..]),
        )?;
        Ok(Token {
            element,
            generation,
        })
    }

    /// Reads a token, or a hyphen for no token.
    pub(crate) fn token_or_none(self, word: &[u8]) -> Result<Option<Token>, Misread>
        ensures { result ≡ or_hyphen (reads_token self) word.now }
    {
        if is_word(word, b"-") {
            return Ok(None);
        }
        Ok(Some(self.token(word)?))
    }

    /// Reads a block, or a hyphen for no block.
    pub(crate) fn ecb_or_none(self, word: &[u8]) -> Result<Option<u32>, Misread>
        ensures { result ≡ or_hyphen (reads_ecb self) word.now }
    {
        if is_word(word, b"-") {
            return Ok(None);
        }
        Ok(Some(self.ecb(word)?))
    }
}

/// Reads a requestor: eight bytes, as a number.
#[tactic(auto, using(crate::proofs::Operands::passed_wide))]
pub(crate) fn requestor(word: &[u8]) -> Result<u64, Misread>
    ensures { result ≡ reads_requestor word.now }
{
    if !is_digits(word) {
        return Err(Misread::NoForm);
    }
    match wide_number_within(0, u64::MAX, word) {
        Some(number) => Ok(number),
        None => Err(Misread::BadNumber),
    }
}

// Reads a number below the limit, which fits four bytes.
#[tactic(auto, using(crate::proofs::Operands::filtered_number))]
fn below(limit: u64, word: &[u8]) -> Result<u32, Misread>
    requires { limit ≤ 2 ^ 32 }
    ensures { result ≡ reads_below limit word.now }
{
    let number = requestor(word)?;
    if number < limit {
        Ok(number as u32)
    } else {
        Err(Misread::BadNumber)
    }
}

/// Reads the number of tasks of a script, 1 to 8.
#[tactic(auto, using(crate::proofs::Operands::counted_tasks))]
pub(crate) fn task_count(word: &[u8]) -> Result<u32, Misread>
    ensures { result ≡ reads_task_count word.now }
{
    let number = below(u64::from(MOST_TASKS) + 1, word)?;
    if number > 0 {
        Ok(number)
    } else {
        Err(Misread::BadNumber)
    }
}

/// Reads a volume.
pub(crate) fn volume(word: &[u8]) -> Result<u32, Misread>
    ensures { result ≡ reads_volume word.now }
{
    below(u64::from(VOLUMES), word)
}

/// Reads a latch, 0 to 99, which need not exist.
pub(crate) fn latch(word: &[u8]) -> Result<u32, Misread>
    ensures { result ≡ reads_latch word.now }
{
    below(HIGHEST_LATCH + 1, word)
}

/// Reads the number of events of a table, 0 to 99; not every one is allowed.
pub(crate) fn table_size(word: &[u8]) -> Result<u32, Misread>
    ensures { result ≡ reads_table_size word.now }
{
    below(HIGHEST_SIZE + 1, word)
}

/// Reads how many blocks of a WAIT must be complete, 0 to 99.
pub(crate) fn count(word: &[u8]) -> Result<u32, Misread>
    ensures { result ≡ reads_count word.now }
{
    below(HIGHEST_COUNT + 1, word)
}

/// Reads the completion code of a block, of 30 bits.
pub(crate) fn ecb_code(word: &[u8]) -> Result<u32, Misread>
    ensures { result ≡ reads_ecb_code word.now }
{
    below(u64::from(CODE_LIMIT), word)
}

/// Reads a release code, of 24 bits.
pub(crate) fn release_code(word: &[u8]) -> Result<u32, Misread>
    ensures { result ≡ reads_release_code word.now }
{
    below(u64::from(RELEASE_LIMIT), word)
}

/// Reads a place: how many events an object has had.
pub(crate) fn place(word: &[u8]) -> Result<u32, Misread>
    ensures { result ≡ reads_place word.now }
{
    below(u64::from(HIGHEST_PLACE) + 1, word)
}

/// Reads the number of an exit or of an OBTAIN, or the number for a volume, of 32 bits.
pub(crate) fn any_number(word: &[u8]) -> Result<u32, Misread>
    ensures { result ≡ reads_any_number word.now }
{
    below(1 << 32, word)
}

/// Reads a mode: `S` (shared) or `X` (exclusive).
pub(crate) fn mode(word: &[u8]) -> Result<Mode, Misread>
    ensures { result ≡ reads_mode word.now }
{
    if is_word(word, b"S") {
        return Ok(Mode::Shared);
    }
    if is_word(word, b"X") {
        return Ok(Mode::Exclusive);
    }
    Err(Misread::NoForm)
}

/// Reads whether a release is conditional: `C` (conditional) or `U` (unconditional).
pub(crate) fn conditional(word: &[u8]) -> Result<bool, Misread>
    ensures { result ≡ reads_conditional word.now }
{
    if is_word(word, b"C") {
        return Ok(true);
    }
    if is_word(word, b"U") {
        return Ok(false);
    }
    Err(Misread::NoForm)
}
