//! Numbers in decimal digits (`specs/Number.antt`).

ghost use Rattle.std.specs.Prelude.{◌≡◌, ◌≤◌, ◌+◌, ◌-◌, ◌*◌, ◌++◌, true, decimal, IfSome, OnOk, SomeIff};
ghost use Rattle.std.specs.List.{list_all};
ghost use Rattle.mv_line.specs.Byte.{is_digit as shows_digit};
ghost use Rattle.mv_line.specs.Number.{is_digits as shows_digits, is_number as shows_number, number_of, within};

use itoa::Buffer;
use mv_io::NoMemory;

/// Returns the number that a text shows, if it is from `low` to `high`.
///
/// A text shows a number if it is one or more decimal digits, however many, without a zero before other digits.
pub fn number_within(low: u32, high: u32, text: &[u8]) -> Option<u32>
    ensures number { result ≡ within low high (number_of text.now) }
    ensures bound { IfSome result (λ n. n ≤ high) }
{
    let number = wide_number_within(u64::from(low), u64::from(high), text)?;
    Some(number as u32)
}

/// Returns the number that a text shows, if it is from `low` to `high`, as `number_within` does, but in eight bytes.
pub fn wide_number_within(low: u64, high: u64, text: &[u8]) -> Option<u64>
    ensures number { result ≡ within low high (number_of text.now) }
    ensures bound { IfSome result (λ n. n ≤ high) }
{
    if !is_number(text) {
        return None;
    }
    let mut value: u64 = 0;
    for byte in text {
        let Some(next) = with_digit(high, value, *byte) else {
            return None;
        };
        value = next;
    }
    (low <= value).then_some(value)
}

// The number with one more digit appended, if that is at most `high`.
fn with_digit(high: u64, value: u64, digit: u8) -> Option<u64>
    requires { shows_digit digit ≡ true }
    ensures { SomeIff result (10 * value + (digit - 48) ≤ high) (10 * value + (digit - 48)) }
{
    let next = value.checked_mul(10)?.checked_add(u64::from(digit - b'0'))?;
    (next <= high).then_some(next)
}

fn is_number(text: &[u8]) -> bool
    ensures { result ≡ shows_number text.now }
{
    match text {
        [] => false,
        [only] => only.is_ascii_digit(),
        [first, rest @ ..] => matches!(first, b'1'..=b'9') && are_digits(rest),
    }
}

/// Returns whether a text is one or more decimal digits.
pub fn is_digits(text: &[u8]) -> bool
    ensures { result ≡ shows_digits text.now }
{
    match text {
        [] => false,
        [_, ..] => are_digits(text),
    }
}

fn are_digits(text: &[u8]) -> bool
    ensures { result ≡ list_all shows_digit text.now }
{
    text.iter().all(|b| b.is_ascii_digit())
}

/// Appends a label and then a number in decimal.
///
/// # Errors
///
/// `NoMemory` if the vector cannot grow. It may have a part of this then.
pub fn push_number(out: &mut Vec<u8>, label: &[u8], number: u64) -> Result<(), NoMemory>
    ensures { OnOk result (out.new.items ≡ out.old.items ++ (label.now ++ decimal number)) }
{
    out.extend_from_slice(label)?;
    out.extend_from_slice(Buffer::new().format(number).as_bytes())?;
    Ok(())
}
