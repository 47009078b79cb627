//! Comments of a deck, and a part of a list that is split at its colon (`specs/Line.antt`).

ghost use Rattle.std.specs.Prelude.{◌≡◌, ℕ, List, option_map};
ghost use Rattle.std.specs.Borrow.{Bor};
ghost use Rattle.mv_deck.specs.Line.{is_comment as comments, before_colon, behind_colon};

use mv_line::first_place;

/// Returns whether a text is a comment.
pub(crate) fn is_comment(text: &[u8]) -> bool
    ensures { result ≡ comments text.now }
{
    text.starts_with(b"//*")
}

/// Splits a part of a list at its first colon, and returns what precedes it and what follows it.
pub(crate) fn split_colon(part: &[u8]) -> (&[u8], Option<&[u8]>)
    ensures front { result.0.now ≡ before_colon part.now }
    ensures back { option_map (λ (t : Bor (List ℕ)). t.now) result.1 ≡ behind_colon part.now }
{
    match first_place(part, b':') {
        Some(place) => (&part[..place], Some(&part[place + 1..])),
        None => (part, None),
    }
}
