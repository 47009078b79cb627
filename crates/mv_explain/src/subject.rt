//! What an input is, by its first line: `specs/Subject.antt`.

ghost use Rattle.std.specs.Prelude.{◌≡◌};
ghost use Rattle.std.specs.List.{position};
ghost use Rattle.mv_explain.specs.Subject.{is_visible, subject_from, subject_of as subject_by_bytes};

/// What an input is taken for.
#[derive(Clone, Copy, Debug, PartialEq, Eq)]
pub enum Subject {
    /// Nothing but spaces, line ends and other control characters.
    Nothing,
    /// It begins with `//`.
    Deck,
    /// It begins with `SCRIPT`.
    Script,
    /// It begins with `JOURNAL`.
    Journal,
    /// It begins with something else, and is read as a deck.
    Other,
}

// What a text is that begins with a visible byte.
fn subject_of_text(text: &[u8]) -> Subject
    ensures { result ≡ subject_from text.now }
{
    if text.starts_with(b"//") {
        Subject::Deck
    } else if text.starts_with(b"SCRIPT") {
        Subject::Script
    } else if text.starts_with(b"JOURNAL") {
        Subject::Journal
    } else {
        Subject::Other
    }
}

// Where the first visible byte is.
fn first_visible(bytes: &[u8]) -> Option<usize>
    ensures { result ≡ position is_visible bytes.now }
{
    bytes.iter().position(|b| *b > 32)
}

/// What an input is, by the first bytes that are no spaces or line ends.
pub(crate) fn subject_of(bytes: &[u8]) -> Subject
    ensures { result ≡ subject_by_bytes bytes.now }
{
    match first_visible(bytes) {
        Some(place) => subject_of_text(&bytes[place..]),
        None => Subject::Nothing,
    }
}
