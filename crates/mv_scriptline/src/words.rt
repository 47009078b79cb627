//! Reading the words of a line into values (`specs/Words.antt`).

ghost use Rattle.std.specs.Prelude.{◌≡◌, length, Some, None, MatchResult};
ghost use Rattle.mv_line.specs.Field.{fields_of, one_of, two_of};
ghost use Rattle.mv_scriptline.specs.declared.words.Misread.TheVariants.{NoForm};
ghost use Rattle.mv_scriptline.specs.Words.{both as both_of, worse as worse_of, worsened, three_of, none as nothing_behind};

use mv_line::{one_field, split_field, two_fields};

/// Why words could not be read as a value.
#[derive(Clone, Copy)]
pub enum Misread {
    /// The words fit no form.
    NoForm,
    /// A number has a leading zero, is out of its range, or names nothing.
    BadNumber,
}

/// Returns the worse of two reasons: that words fit no form, if one of them is that.
pub(crate) fn worse(why: Misread, other: Misread) -> Misread
    ensures { result ≡ worse_of why other }
{
    match why {
        Misread::NoForm => Misread::NoForm,
        Misread::BadNumber => other,
    }
}

/// Returns the worse of the reason so far, if there is one, and one more.
pub(crate) fn worsened(before: Option<Misread>, why: Misread) -> Misread
    ensures { result ≡ worsened before why }
{
    match before {
        None => why,
        Some(before) => worse(before, why),
    }
}

/// Returns both values if both were read, otherwise the worse reason.
pub(crate) fn both<A: Drop, B: Drop>(
    first: Result<A, Misread>,
    second: Result<B, Misread>,
) -> Result<(A, B), Misread>
    ensures { result ≡ both_of first second }
{
    match (first, second) {
        (Ok(a), Ok(b)) => Ok((a, b)),
        (Ok(_), Err(why)) => Err(why),
        (Err(why), Ok(_)) => Err(why),
        (Err(why), Err(other)) => Err(worse(why, other)),
    }
}

/// Checks that a text has no field.
pub(crate) fn no_field(text: &[u8]) -> Result<(), Misread>
    ensures { result ≡ nothing_behind tt (fields_of text.now) }
{
    let (word, _) = split_field(text);
    if word.is_empty() {
        Ok(())
    } else {
        Err(Misread::NoForm)
    }
}

/// Returns the word of a text that has exactly one.
pub(crate) fn one_word(text: &[u8]) -> Result<&[u8], Misread>
    ensures { MatchResult result (λ w. one_of (fields_of text.now) ≡ Some w.now)
        (λ e. (e ≡ NoForm) × (one_of (fields_of text.now) ≡ None)) }
{
    match one_field(text) {
        Some(word) => Ok(word),
        None => Err(Misread::NoForm),
    }
}

/// Returns the words of a text that has exactly two.
pub(crate) fn two_words(text: &[u8]) -> Result<(&[u8], &[u8]), Misread>
    ensures { MatchResult result (λ p. two_of (fields_of text.now) ≡ Some (p.0.now, p.1.now))
        (λ e. (e ≡ NoForm) × (two_of (fields_of text.now) ≡ None)) }
{
    match two_fields(text) {
        Some(words) => Ok(words),
        None => Err(Misread::NoForm),
    }
}

/// Returns the words of a text that has exactly three.
pub(crate) fn three_words(text: &[u8]) -> Result<(&[u8], (&[u8], &[u8])), Misread>
    ensures { MatchResult result (λ p. three_of (fields_of text.now) ≡ Some (p.0.now, (p.1.0.now, p.1.1.now)))
        (λ e. (e ≡ NoForm) × (three_of (fields_of text.now) ≡ None)) }
{
    let (first, rest) = split_field(text);
    let second_and_third = two_words(rest)?;
    if first.is_empty() {
        return Err(Misread::NoForm);
    }
    Ok((first, second_and_third))
}

/// Returns how many fields a text has.
pub(crate) fn field_count(text: &[u8]) -> usize
    ensures { result ≡ length (fields_of text.now) }
{
    let mut count = 0;
    let (mut word, mut rest) = split_field(text);
    while !word.is_empty() {
        count += 1;
        (word, rest) = split_field(rest);
    }
    count
}
