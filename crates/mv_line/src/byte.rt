//! Kinds of bytes, and the first place of a byte in a text (`specs/Byte.antt`).

ghost use Rattle.std.specs.Prelude.{◌≡◌, ◌==◌, ◌-◌, ◌≤◌, length, Some, None, if◌then◌else◌};
ghost use Rattle.std.specs.List.{position, position_or_len};
ghost use Rattle.mv_line.specs.Byte.{is_digit, has_foreign_byte as has_other_byte};

/// Returns the index at which a byte first occurs in a text, or `None` if it does not.
pub fn first_place(text: &[u8], byte: u8) -> Option<usize>
    ensures { result ≡ position (λ b. b == byte) text.now }
{
    text.iter().position(|b| *b == byte)
}

/// Returns the index at which a byte first occurs in a text, or the text's length if it does not.
pub fn end_at(text: &[u8], byte: u8) -> usize
    ensures place { result ≡ position_or_len (λ b. b == byte) text.now }
    ensures within { result ≤ length text.now }
{
    match first_place(text, byte) {
        Some(place) => place,
        None => text.len(),
    }
}

/// Returns whether a text has a byte that is not printable ASCII, 32 to 126.
pub fn has_foreign_byte(text: &[u8]) -> bool
    ensures { result ≡ has_other_byte text.now }
{
    text.iter().any(|b| !(32..=126).contains(b))
}

/// Returns the value of a decimal digit, or `None` if the byte is not one.
pub fn digit(byte: u8) -> Option<u32>
    ensures { result ≡ (if is_digit byte then Some (byte - 48) else None) }
{
    match byte {
        b'0'..=b'9' => Some((byte - b'0') as u32),
        _ => None,
    }
}
