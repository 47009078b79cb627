//! Words and numbers in a text, by `specs/Reading.antt`.

ghost use Rattle.std.specs.Prelude.{◌≡◌, ◌≤◌, ◌<◌, ◌++◌, OnOk, IfSome, true};
ghost use Rattle.std.specs.Prelude.{nat_eq, option_map, Bool, Some, decimal, take, length};
ghost use Rattle.std.specs.List.{starts_with};
ghost use Rattle.mv_line.specs.Number.{is_number, number_of, value_behind, within};
ghost use Rattle.mv_operationtext.specs.Widths.{short_width};
ghost use Rattle.mv_operationtext.specs.Words.{◌<+>◌};
ghost use Rattle.mv_operationtext.specs.Reading.{seen, after, behind, digit_count, number as number_at, any_u32, any_u64, parted};

use crate::reserved::{NUMBER_WIDTH, put_digits};
use mv_io::NoMemory;
use mv_line::wide_number_within;

/// Appends a word and then a number of four bytes.
#[inline(always)]
pub fn push_number(out: &mut Vec<u8>, word: &[u8], number: u32) -> Result<(), NoMemory>
    ensures { OnOk result (out.new.items ≡ out.old.items ++ (word.now ++ decimal number)) }
{
    push_wide(out, word, u64::from(number))
}

/// Appends a word and then a number of eight bytes.
#[inline(always)]
pub(crate) fn push_wide(out: &mut Vec<u8>, word: &[u8], number: u64) -> Result<(), NoMemory>
    ensures { OnOk result (out.new.items ≡ out.old.items ++ (word.now ++ decimal number)) }
{
    push_word(out, word)?;
    push_digits(out, number)
}

/// Appends a word. Each caller's word is a constant, so if this is inlined the word is stored as a constant, without a call
/// that copies its bytes.
#[inline(always)]
pub fn push_word(out: &mut Vec<u8>, word: &[u8]) -> Result<(), NoMemory>
    ensures { OnOk result (out.new.items ≡ out.old.items ++ word.now) }
{
    out.extend_from_slice(word)?;
    Ok(())
}

// Appends a number, whose digits `put_digits` makes.
fn push_digits(out: &mut Vec<u8>, number: u64) -> Result<(), NoMemory>
    ensures { OnOk result (out.new.items ≡ out.old.items ++ decimal number) }
{
    out.reserve(NUMBER_WIDTH)?;
    put_digits(out, number);
    Ok(())
}

/// Appends a word and then two numbers, with one space between them.
#[inline(always)]
pub fn push_pair(out: &mut Vec<u8>, word: &[u8], first: u32, second: u32) -> Result<(), NoMemory>
    ensures { OnOk result (out.new.items ≡ out.old.items ++ (word.now ++ (decimal first <+> decimal second))) }
{
    push_number(out, word, first)?;
    push_number(out, b" ", second)
}

/// Returns the rest of a text after a word, if the text begins with the word. Each caller's word is a constant, so if this is
/// inlined the comparison is of a fixed number of bytes.
#[inline(always)]
#[tactic(auto, unfolding(crate::specs::Reading::after))]
pub fn after<'a>(text: &'a [u8], word: &[u8]) -> Option<&'a [u8]>
    ensures { option_map (λ rest. rest.now) result ≡ after word.now text.now }
{
    if begins_with(text, word) {
        Some(&text[word.len()..])
    } else {
        None
    }
}

// Returns whether a text begins with a word. Most words that are tried differ from the text in their first byte.
#[inline(always)]
fn begins_with(text: &[u8], word: &[u8]) -> bool
    ensures word { result ≡ starts_with nat_eq text.now word.now }
    ensures within { result ≡ true → length word.now ≤ length text.now }
{
    if text.len() < word.len() {
        return false;
    }
    let mut count = 0;
    while count < word.len() {
        if text[count] != word[count] {
            return false;
        }
        count += 1;
    }
    true
}

/// Reads a number of four bytes within these bounds.
#[inline(always)]
pub(crate) fn number_u32(strict: bool, low: u32, high: u32, text: &[u8]) -> Option<(u32, &[u8])>
    ensures { seen result ≡ number_at strict low high text.now }
{
    let (value, rest) = number(strict, u64::from(low), u64::from(high), text)?;
    Some((value as u32, rest))
}

/// Reads a number of four bytes.
#[inline(always)]
pub fn any_u32(strict: bool, text: &[u8]) -> Option<(u32, &[u8])>
    ensures { seen result ≡ any_u32 strict text.now }
{
    number_u32(strict, 0, u32::MAX, text)
}

/// Reads a number of eight bytes.
#[inline(always)]
pub(crate) fn any_u64(strict: bool, text: &[u8]) -> Option<(u64, &[u8])>
    ensures { seen result ≡ any_u64 strict text.now }
{
    number(strict, 0, u64::MAX, text)
}

/// Reads a word, and then a number of four bytes within these bounds.
#[inline(always)]
#[tactic(auto, unfolding(crate::specs::Reading::behind))]
pub(crate) fn number_behind<'a>(
    strict: bool,
    low: u32,
    high: u32,
    text: &'a [u8],
    word: &[u8],
) -> Option<(u32, &'a [u8])>
    ensures { seen result ≡ behind word.now (number_at strict low high) text.now }
{
    number_u32(strict, low, high, after(text, word)?)
}

/// Reads a word, and then a number of four bytes.
#[inline(always)]
pub fn u32_behind<'a>(strict: bool, text: &'a [u8], word: &[u8]) -> Option<(u32, &'a [u8])>
    ensures { seen result ≡ behind word.now (any_u32 strict) text.now }
{
    number_behind(strict, 0, u32::MAX, text, word)
}

/// Reads a word, and then two numbers of four bytes with one space between them, each at most its highest.
#[inline(always)]
#[tactic(auto, unfolding(crate::specs::Reading::behind))]
pub fn pair_behind<'a>(
    strict: bool,
    highest: (u32, u32),
    text: &'a [u8],
    word: &[u8],
) -> Option<((u32, u32), &'a [u8])>
    ensures { seen result
        ≡ behind word.now (parted (number_at strict 0 highest.0) (number_at strict 0 highest.1)) text.now }
{
    two_numbers(strict, highest, after(text, word)?)
}

// Reads two numbers of four bytes with one space between them, each at most its highest.
#[tactic(auto, unfolding(crate::specs::Reading::parted_at))]
fn two_numbers(strict: bool, highest: (u32, u32), text: &[u8]) -> Option<((u32, u32), &[u8])>
    ensures { seen result ≡ parted (number_at strict 0 highest.0) (number_at strict 0 highest.1) text.now }
{
    let (first, rest) = number_u32(strict, 0, highest.0, text)?;
    let (second, rest) = number_behind(strict, 0, highest.1, rest, b" ")?;
    Some(((first, second), rest))
}

/// Reads a number within these bounds, with no leading zero. If the digits are not such a number, a strict reader refuses them,
/// and any other takes them for 0. Only the part for such numbers is inlined, so that they stay in registers.
#[inline(always)]
fn number(strict: bool, low: u64, high: u64, text: &[u8]) -> Option<(u64, &[u8])>
    ensures read { seen result ≡ number_at strict low high text.now }
    ensures bound { IfSome result (λ x. x.0 ≤ high) }
{
    if let Some(found) = plain_number(low, high, text) {
        return Some(found);
    }
    any_number(strict, low, high, text)
}

// Reads a number within these bounds of fewer than `SHORT_WIDTH` digits, with no leading zero. All readers, strict or not, read
// it alike.
#[inline(always)]
#[tactic(auto, unfolding(crate::specs::Reading::number))]
fn plain_number(low: u64, high: u64, text: &[u8]) -> Option<(u64, &[u8])>
    ensures read { IfSome result (λ x. (strict : Bool) → number_at strict low high text.now ≡ Some (x.0, x.1.now)) }
    ensures bound { IfSome result (λ x. x.0 ≤ high) }
{
    let (count, value) = leading_digits(text);
    if count == 0 || count >= SHORT_WIDTH {
        return None;
    }
    let value = short_number_within(low, high, text, count, value)?;
    Some((value, &text[count..]))
}

// Reads a number however it is spelled.
#[inline(never)]
#[tactic(auto, unfolding(crate::specs::Reading::number))]
fn any_number(strict: bool, low: u64, high: u64, text: &[u8]) -> Option<(u64, &[u8])>
    ensures read { seen result ≡ number_at strict low high text.now }
    ensures bound { IfSome result (λ x. x.0 ≤ high) }
{
    let count = digit_count(text);
    if count == 0 {
        return None;
    }
    let rest = &text[count..];
    match wide_number_within(low, high, &text[..count]) {
        Some(value) => Some((value, rest)),
        None if strict => None,
        None => Some((0, rest)),
    }
}

// A number of fewer digits than this fits eight bytes.
const SHORT_WIDTH: usize = 18;

// Counts the digits that a text begins with, up to `SHORT_WIDTH`, and returns their number and their value, in one pass. If it
// returns `SHORT_WIDTH`, there may be more digits.
#[inline(always)]
fn leading_digits(text: &[u8]) -> (usize, u64)
    ensures within { result.0 ≤ length text.now }
    ensures value { result.1 ≡ value_behind 0 (take result.0 text.now) }
    ensures count { result.0 < short_width → result.0 ≡ digit_count text.now }
{
    let most = if text.len() < SHORT_WIDTH {
        text.len()
    } else {
        SHORT_WIDTH
    };
    let mut count = 0;
    let mut value = 0;
    while count < most && text[count].is_ascii_digit() {
        value = value * 10 + u64::from(text[count] - b'0');
        count += 1;
    }
    (count, value)
}

// Returns the value of the first `count` bytes, which are all digits that a text begins with, if they are a number without a
// leading zero and within these bounds.
#[inline(always)]
fn short_number_within(low: u64, high: u64, text: &[u8], count: usize, value: u64) -> Option<u64>
    requires count { count ≡ digit_count text.now }
    requires within { count ≤ length text.now }
    requires value { value ≡ value_behind 0 (take count text.now) }
    ensures number { result ≡ within low high (number_of (take (digit_count text.now) text.now)) }
    ensures bound { IfSome result (λ n. n ≤ high) }
{
    if !has_plain_digits(text, count) {
        return None;
    }
    (low <= value && value <= high).then_some(value)
}

// Returns whether the first `count` bytes, which are all digits that a text begins with, are one or more and have no leading
// zero.
#[inline(always)]
#[tactic(auto, using(crate::proofs::Leading::digits_show))]
fn has_plain_digits(text: &[u8], count: usize) -> bool
    requires count { count ≡ digit_count text.now }
    requires within { count ≤ length text.now }
    ensures { result ≡ is_number (take count text.now) }
{
    match count {
        0 => false,
        1 => true,
        _ => text[0] != b'0',
    }
}

// Returns how many digits a text begins with.
fn digit_count(text: &[u8]) -> usize
    ensures count { result ≡ digit_count text.now }
    ensures within { result ≤ length text.now }
{
    let mut count = 0;
    while count < text.len() && text[count].is_ascii_digit() {
        count += 1;
    }
    count
}
