//! The parts of a text between separator bytes (`specs/Part.antt`).

ghost use Rattle.std.specs.Prelude.{◌≡◌, ◌≤◌, ◌∷◌, length};
ghost use Rattle.mv_line.specs.Part.{parts_at, parts_left, left_of};

use crate::byte::first_place;

/// Returns the first part of a text, up to the first separator `byte`, and what follows that byte: `None` after the last part.
pub fn split_part(text: &[u8], byte: u8) -> (&[u8], Option<&[u8]>)
    ensures parts { parts_at byte text.now ≡ result.0.now ∷ parts_left byte result.1 }
    ensures shorter { left_of result.1 ≤ length text.now }
{
    match first_place(text, byte) {
        Some(place) => (&text[..place], Some(&text[place + 1..])),
        None => (text, None),
    }
}
