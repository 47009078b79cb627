//! How much of a text is read: `specs/Limits.antt`.

/// The most bytes of a deck, and of a script, that a command reads.
pub(crate) const CARD_LIMIT: usize = 1_048_576;
