//! The fields of a text, which are separated by one or more spaces (`specs/Field.antt`).

ghost use Rattle.std.specs.Prelude.{◌≡◌, List, ℕ, option_map};
ghost use Rattle.std.specs.Borrow.{Bor};
ghost use Rattle.std.specs.Str.{bytes_eq};
ghost use Rattle.mv_line.specs.Field.{fields_of, behind_first_field, starts_fields, one_of, two_of};

use crate::byte::end_at;
use crate::line::without_first_spaces;

/// Returns the first field of a text, which is empty if there is none, and what follows it.
pub fn split_field(text: &[u8]) -> (&[u8], &[u8])
    ensures fields { fields_of text.now ≡ starts_fields result.0.now (fields_of result.1.now) }
    ensures behind { result.1.now ≡ behind_first_field text.now }
{
    let text = without_first_spaces(text);
    text.split_at(end_at(text, b' '))
}

/// Returns the field of a text that has exactly one, otherwise `None`.
pub fn one_field(text: &[u8]) -> Option<&[u8]>
    ensures { option_map (λ (f : Bor (List ℕ)). f.now) result ≡ one_of (fields_of text.now) }
{
    let (first, rest) = split_field(text);
    let (second, _) = split_field(rest);
    if first.is_empty() || !second.is_empty() {
        return None;
    }
    Some(first)
}

/// Returns the fields of a text that has exactly two, otherwise `None`.
pub fn two_fields(text: &[u8]) -> Option<(&[u8], &[u8])>
    ensures { option_map (λ (p : Bor (List ℕ) × Bor (List ℕ)). (p.0.now, p.1.now)) result ≡ two_of (fields_of text.now) }
{
    let (first, rest) = split_field(text);
    let second = one_field(rest)?;
    if first.is_empty() {
        return None;
    }
    Some((first, second))
}

/// Returns whether two words are equal.
pub fn is_word(word: &[u8], other: &[u8]) -> bool
    ensures { result ≡ bytes_eq word.now other.now }
{
    word == other
}
