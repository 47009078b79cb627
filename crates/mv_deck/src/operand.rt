//! The valid names, numbers and codes of statements (`specs/Operand.antt`).

ghost use Rattle.std.specs.Prelude.{◌≡◌, ◌≤◌, IfSome, Some, None, if◌then◌else◌};
ghost use Rattle.std.specs.List.{list_all};
ghost use Rattle.mv_deck.specs.Operand.{highest_latch, is_name_start as starts_name, is_name_byte as stands_in_name};
ghost use Rattle.mv_deck.specs.Operand.{is_name as names_job, is_hex as shows_hex, hex_value as value_of_hex, latch_of, amount_of};
ghost use Rattle.mv_deck.specs.Operand.{code_of, mode_of, user_code_of, system_code_of, end_code_of};

use crate::end_code::{HIGHEST_CODE, LOWEST_ABEND, USER_CODES};
use mv_latch::Mode;
use mv_line::{digit, is_word, number_within};

/// The number of volumes. Each is guarded by the latch of its number.
pub const VOLUME_COUNT: usize = 8;

// The highest number of a latch, and of the volume that it guards.
const HIGHEST_LATCH: u32 = VOLUME_COUNT as u32 - 1;

// The highest amount of a COUNT.
const HIGHEST_AMOUNT: u32 = 9999;

/// The most jobs that one job may wait for.
pub const MOST_AFTER: usize = 8;

// The most bytes of a name.
const LONGEST_NAME: usize = 8;

fn is_name_start(byte: u8) -> bool
    ensures { result ≡ starts_name byte }
{
    matches!(byte, b'@'..=b'Z' | b'#'..=b'$')
}

fn is_name_byte(byte: u8) -> bool
    ensures { result ≡ stands_in_name byte }
{
    is_name_start(byte) || byte.is_ascii_digit()
}

fn are_name_bytes(bytes: &[u8]) -> bool
    ensures { result ≡ list_all stands_in_name bytes.now }
{
    bytes.iter().all(|b| is_name_byte(*b))
}

/// Returns whether a field is the name of a job: one to eight of `A` to `Z`, `0` to `9`, `@`, `#`, `$`, not beginning with a
/// digit.
pub(crate) fn is_name(field: &[u8]) -> bool
    ensures { result ≡ names_job field.now }
{
    match field {
        [] => false,
        [first, rest @ ..] => is_name_start(*first)
            && are_name_bytes(rest)
            && rest.len() < LONGEST_NAME,
    }
}

/// Returns the number of a latch or a volume, 0 to 7, or `None` if the text is not one.
pub(crate) fn latch(text: &[u8]) -> Option<u32>
    ensures number { result ≡ latch_of text.now }
    ensures bound { IfSome result (λ n. n ≤ highest_latch) }
{
    number_within(0, HIGHEST_LATCH, text)
}

/// Returns an amount, 1 to 9999, or `None` if the text is not one.
pub(crate) fn amount(text: &[u8]) -> Option<u32>
    ensures { result ≡ amount_of text.now }
{
    number_within(1, HIGHEST_AMOUNT, text)
}

/// Returns a return code or an accepted end code, 0 to 4095, or `None` if the text is not one.
pub(crate) fn code(text: &[u8]) -> Option<u32>
    ensures { result ≡ code_of text.now }
{
    number_within(0, HIGHEST_CODE, text)
}

/// Returns the mode of `S` (shared) or `X` (exclusive), or `None` if the text is neither.
pub(crate) fn mode(text: &[u8]) -> Option<Mode>
    ensures { result ≡ mode_of text.now }
{
    if is_word(text, b"S") {
        return Some(Mode::Shared);
    }
    if is_word(text, b"X") {
        return Some(Mode::Exclusive);
    }
    None
}

// The number that four digits show, if it is at most 4095.
fn user_code(digits: &[u8]) -> Option<u32>
    ensures { result ≡ user_code_of digits.now }
{
    let [a, b, c, d] = digits else { return None };
    let number = 1000 * digit(*a)? + 100 * digit(*b)? + 10 * digit(*c)? + digit(*d)?;
    (number <= HIGHEST_CODE).then_some(number)
}

// The value of a hexadecimal digit, 0 to 9 and A to F.
fn hex_digit(byte: u8) -> Option<u32>
    ensures { result ≡ (if shows_hex byte then Some (value_of_hex byte) else None) }
{
    match byte {
        b'0'..=b'9' => Some((byte - b'0') as u32),
        b'A'..=b'F' => Some((byte - b'A') as u32 + 10),
        _ => None,
    }
}

// The number that three hexadecimal digits show, if it is above 0.
fn system_code(digits: &[u8]) -> Option<u32>
    ensures { result ≡ system_code_of digits.now }
{
    let [a, b, c] = digits else { return None };
    let number = 256 * hex_digit(*a)? + 16 * hex_digit(*b)? + hex_digit(*c)?;
    (number > 0).then_some(number)
}

/// Returns the end code of an ABEND: of `U` and a user code, or of `S` and a system code. `None` if the text is neither.
pub(crate) fn end_code(code: &[u8]) -> Option<u32>
    ensures { result ≡ end_code_of code.now }
{
    match code {
        [b'U', digits @ ..] => Some(LOWEST_ABEND + user_code(digits)?),
        [b'S', digits @ ..] => Some(LOWEST_ABEND + USER_CODES * system_code(digits)?),
        _ => None,
    }
}
