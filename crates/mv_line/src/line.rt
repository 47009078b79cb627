//! The lines of a text, a pass over them, and which bytes of a line count (`specs/Line.antt`; `IsPassed` of `specs/Fault.antt`).

ghost use Rattle.std.specs.Prelude.{◌≡◌, ◌+◌, ◌-◌, ◌^◌, ◌<◌, [], ◌∷◌, length, MatchOption};
ghost use Rattle.mv_line.specs.Line.{lines_of, without_cr as text_without_cr, without_first_spaces as from_first_field};
ghost use Rattle.mv_line.specs.Line.{without_last_spaces as to_last_field, begins_with_space as begins_so};
ghost use Rattle.mv_line.specs.Line.{shown as what_counts, is_foreign as has_foreign, is_too_long as exceeds_card};
ghost use Rattle.mv_line.specs.Line.{ended_part, cut_off};

use crate::byte::{end_at, has_foreign_byte};

/// The longest line, in bytes, without one CR at its end: a card of the reader.
pub const LONGEST_LINE: usize = 80;

// The first line of a text and what follows it. The text is not empty.
fn split_line(text: &[u8]) -> (&[u8], &[u8])
    requires { 0 < length text.now }
    ensures lines { lines_of text.now ≡ result.0.now ∷ lines_of result.1.now }
    ensures shorter { length result.1.now < length text.now }
{
    let end = end_at(text, b'\n');
    if end == text.len() {
        return text.split_at(end);
    }
    (&text[..end], &text[end + 1..])
}

/// A pass over the lines of a text: what is left of the text, and the number of the next line, counted from 1.
#[derive(Clone, Copy)]
pub struct Lines<'a> {
    pub left: &'a [u8],
    pub number: u32,
    // The line after the last one has a number, too.
    pub ghost counted: { number + length left.now < 2 ^ 32 },
}

impl<'a> Lines<'a> {
    ghost use Rattle.mv_line.specs.Fault.{IsPassed};

    /// Returns a pass that begins with the first line of a text.
    pub fn of(text: &'a [u8]) -> Self
        requires { length text.now < 2 ^ 32 - 1 }
        ensures { (result.left.now ≡ text.now) × (result.number ≡ 1) }
    {
        Lines {
            left: text,
            number: 1,
        }
    }

    /// Passes the next line; `left` is what follows it.
    pub fn pass(&mut self, left: &'a [u8])
        requires { length left.now < length self.old.left.now }
        ensures { (self.new.left.now ≡ left.now) × (self.new.number ≡ self.old.number + 1) }
    {
        self.left = left;
        self.number += 1;
    }

    /// Returns the next line with its number, or `None` if no line is left. Its time is linear in the line.
    pub fn next(&mut self) -> Option<(u32, &'a [u8])>
        ensures { MatchOption result
            ((self.new ≡ self.old) × (lines_of self.old.left.now ≡ []))
            (λ l. IsPassed self.old l.0 l.1.now self.new) }
    {
        if self.left.is_empty() {
            return None;
        }
        let number = self.number;
        let (line, left) = split_line(self.left);
        self.pass(left);
        Some((number, line))
    }
}

/// Returns a text up to its last LF, and what follows that. Its time is linear in what follows.
pub fn split_cut_off(text: &[u8]) -> (&[u8], &[u8])
    ensures ended { result.0.now ≡ ended_part text.now }
    ensures cut { result.1.now ≡ cut_off text.now }
{
    let mut end = text.len();
    while end > 0 && text[end - 1] != b'\n' {
        end -= 1;
    }
    text.split_at(end)
}

/// Returns a line without one CR at its end. A second CR stays, and is not a printable byte.
pub fn without_cr(line: &[u8]) -> &[u8]
    ensures { result.now ≡ text_without_cr line.now }
{
    match line {
        [content @ .., b'\r'] => content,
        _ => line,
    }
}

/// Returns a text without the spaces at its end.
pub fn without_last_spaces(text: &[u8]) -> &[u8]
    ensures { result.now ≡ to_last_field text.now }
{
    let mut end = text.len();
    while end > 0 && text[end - 1] == b' ' {
        end -= 1;
    }
    &text[..end]
}

/// Returns a text without the spaces at its front.
pub fn without_first_spaces(text: &[u8]) -> &[u8]
    ensures { result.now ≡ from_first_field text.now }
{
    let mut start = 0;
    while start < text.len() && text[start] == b' ' {
        start += 1;
    }
    &text[start..]
}

/// Returns whether a text begins with a space.
pub fn begins_with_space(text: &[u8]) -> bool
    ensures { result ≡ begins_so text.now }
{
    matches!(text, [b' ', ..])
}

/// Returns the part of a line that counts: without one CR at its end, and then without the spaces at its end.
pub fn shown(line: &[u8]) -> &[u8]
    ensures { result.now ≡ what_counts line.now }
{
    without_last_spaces(without_cr(line))
}

/// Returns whether a line has a byte that is not printable ASCII. One CR at its end does not count.
pub fn is_foreign(line: &[u8]) -> bool
    ensures { result ≡ has_foreign line.now }
{
    has_foreign_byte(without_cr(line))
}

/// Returns whether a line is longer than a card, `LONGEST_LINE` bytes. One CR at its end does not count.
pub fn is_too_long(line: &[u8]) -> bool
    ensures { result ≡ exceeds_card line.now }
{
    without_cr(line).len() > LONGEST_LINE
}
