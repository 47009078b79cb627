//! Words and numbers, appended where there is room for them, by `specs/Widths.antt`. None of these calls takes memory, so none
//! fails.

ghost use Rattle.std.specs.Prelude.{◌≡◌, ◌≤◌, ◌<◌, ◌+◌, ◌/◌, ◌%◌, [], ◌∷◌, ◌++◌, decimal, length, vec_len, vec_capacity};
ghost use Rattle.mv_operationtext.specs.Words.{◌<+>◌};
ghost use Rattle.mv_operationtext.specs.Widths.{number_width, long_number};

use itoa::Buffer;
use std::mem::replace;

/// The most digits of a number of eight bytes.
pub(crate) const NUMBER_WIDTH: usize = 20;

// The first number of more than eight digits.
const LONG_NUMBER: u64 = 100_000_000;

/// The most bytes of an entry's line with its LF.
pub const LINE_WIDTH: usize = 220;

/// Appends a word. Each caller's word is a constant, so if this is inlined the word is stored as a constant, several bytes at
/// once.
#[inline(always)]
pub fn put_word(out: &mut Vec<u8>, word: &[u8])
    requires room { vec_len out.old + length word.now ≤ vec_capacity out.old }
    ensures text { out.new.items ≡ out.old.items ++ word.now }
    ensures within { vec_len out.new ≡ vec_len out.old + length word.now }
    ensures capacity { vec_capacity out.new ≡ vec_capacity out.old }
{
    for byte in word {
        out.push_reserved(*byte);
    }
}

/// Appends a word and then a number of four bytes.
#[inline(always)]
pub fn put_number(out: &mut Vec<u8>, word: &[u8], number: u32)
    requires room { vec_len out.old + length word.now + number_width ≤ vec_capacity out.old }
    ensures text { out.new.items ≡ out.old.items ++ (word.now ++ decimal number) }
    ensures within { vec_len out.new ≤ vec_len out.old + length word.now + number_width }
    ensures capacity { vec_capacity out.new ≡ vec_capacity out.old }
{
    put_wide(out, word, u64::from(number));
}

/// Appends a word and then a number of eight bytes.
#[inline(always)]
pub fn put_wide(out: &mut Vec<u8>, word: &[u8], number: u64)
    requires room { vec_len out.old + length word.now + number_width ≤ vec_capacity out.old }
    ensures text { out.new.items ≡ out.old.items ++ (word.now ++ decimal number) }
    ensures within { vec_len out.new ≤ vec_len out.old + length word.now + number_width }
    ensures capacity { vec_capacity out.new ≡ vec_capacity out.old }
{
    put_word(out, word);
    put_digits(out, number);
}

/// Appends a word and then two numbers, with one space between them.
#[inline(always)]
pub(crate) fn put_pair(out: &mut Vec<u8>, word: &[u8], first: u32, second: u32)
    requires room { vec_len out.old + length word.now + number_width + 1 + number_width ≤ vec_capacity out.old }
    ensures text { out.new.items ≡ out.old.items ++ (word.now ++ (decimal first <+> decimal second)) }
    ensures within { vec_len out.new ≤ vec_len out.old + length word.now + number_width + 1 + number_width }
    ensures capacity { vec_capacity out.new ≡ vec_capacity out.old }
{
    put_number(out, word, first);
    put_number(out, b" ", second);
}

/// Appends a number. Nearly all numbers have up to eight digits, which are written two at a time.
#[inline(always)]
pub(crate) fn put_digits(out: &mut Vec<u8>, number: u64)
    requires room { vec_len out.old + number_width ≤ vec_capacity out.old }
    ensures text { out.new.items ≡ out.old.items ++ decimal number }
    ensures within { vec_len out.new ≤ vec_len out.old + number_width }
    ensures capacity { vec_capacity out.new ≡ vec_capacity out.old }
{
    if number < 10_000 {
        put_short(out, number);
    } else if number < LONG_NUMBER {
        put_short(out, number / 10_000);
        put_four(out, number % 10_000);
    } else {
        put_long(out, number);
    }
}

// Appends a number of more than eight digits. The text is handed over and back, so that its length stays in a register for all
// other numbers.
#[inline(always)]
fn put_long(out: &mut Vec<u8>, number: u64)
    requires long { long_number ≤ number }
    requires room { vec_len out.old + number_width ≤ vec_capacity out.old }
    ensures text { out.new.items ≡ out.old.items ++ decimal number }
    ensures within { vec_len out.new ≤ vec_len out.old + number_width }
    ensures capacity { vec_capacity out.new ≡ vec_capacity out.old }
{
    let alloc = *out.allocator();
    *out = with_digits(replace(out, Vec::new(alloc)), number);
}

// Appends a number of more than eight digits to a text that is handed over and returned.
#[cold]
#[inline(never)]
fn with_digits(out: Vec<u8>, number: u64) -> Vec<u8>
    requires long { long_number ≤ number }
    requires room { vec_len out + number_width ≤ vec_capacity out }
    ensures text { result.items ≡ out.items ++ decimal number }
    ensures within { vec_len result ≤ vec_len out + number_width }
    ensures capacity { vec_capacity result ≡ vec_capacity out }
{
    let mut out = out;
    if number < 1_000_000_000_000 {
        put_short(&mut out, number / LONG_NUMBER);
        put_four(&mut out, number / 10_000 % 10_000);
        put_four(&mut out, number % 10_000);
    } else {
        put_word(&mut out, Buffer::new().format(number).as_bytes());
    }
    out
}

// Appends a number of at most four digits.
#[inline(always)]
fn put_short(out: &mut Vec<u8>, number: u64)
    requires short { number < 10000 }
    requires room { vec_len out.old + 4 ≤ vec_capacity out.old }
    ensures text { out.new.items ≡ out.old.items ++ decimal number }
    ensures within { vec_len out.new ≤ vec_len out.old + 4 }
    ensures capacity { vec_capacity out.new ≡ vec_capacity out.old }
{
    if number < 10 {
        put_digit(out, number);
    } else if number < 100 {
        put_two(out, number);
    } else if number < 1000 {
        put_digit(out, number / 100);
        put_two(out, number % 100);
    } else {
        put_four(out, number);
    }
}

// Appends four digits.
#[inline(always)]
fn put_four(out: &mut Vec<u8>, number: u64)
    requires four { number < 10000 }
    requires room { vec_len out.old + 4 ≤ vec_capacity out.old }
    ensures text { out.new.items ≡ out.old.items
        ++ ((48 + number / 100 / 10) ∷ (48 + number / 100 % 10) ∷ (48 + number % 100 / 10) ∷ (48 + number % 100 % 10) ∷ []) }
    ensures within { vec_len out.new ≡ vec_len out.old + 4 }
    ensures capacity { vec_capacity out.new ≡ vec_capacity out.old }
{
    put_two(out, number / 100);
    put_two(out, number % 100);
}

// The two digits of each number below 100.
static PAIRS: [u8; 200] =
    *b"0001020304050607080910111213141516171819202122232425262728293031323334353637383940414243444546474849\
        5051525354555657585960616263646566676869707172737475767778798081828384858687888990919293949596979899";

// Appends two digits.
#[inline(always)]
fn put_two(out: &mut Vec<u8>, number: u64)
    requires pair { number < 100 }
    requires room { vec_len out.old + 2 ≤ vec_capacity out.old }
    ensures text { out.new.items ≡ out.old.items ++ ((48 + number / 10) ∷ (48 + number % 10) ∷ []) }
    ensures within { vec_len out.new ≡ vec_len out.old + 2 }
    ensures capacity { vec_capacity out.new ≡ vec_capacity out.old }
{
    let at = number as usize * 2;
    let (tens, ones) = (PAIRS[at], PAIRS[at + 1]);
    out.push_reserved(tens);
    out.push_reserved(ones);
}

// Appends a digit.
#[inline(always)]
fn put_digit(out: &mut Vec<u8>, digit: u64)
    requires digit { digit < 10 }
    requires room { vec_len out.old < vec_capacity out.old }
    ensures text { out.new.items ≡ out.old.items ++ ((48 + digit) ∷ []) }
    ensures within { vec_len out.new ≡ vec_len out.old + 1 }
    ensures capacity { vec_capacity out.new ≡ vec_capacity out.old }
{
    out.push_reserved(b'0' + digit as u8);
}
