//! The words of a journal's entries: numbers, operations and their replies, and whole entries, written into reserved room and read
//! from the front of a text.
#![tactic(auto)]

mod ecb;
mod element;
mod entry;
mod latch;
mod number;
mod reserved;
mod version;
mod volume;

pub use entry::{put_entry, read_entry};
pub use number::{after, any_u32, pair_behind, push_number, push_pair, push_word, u32_behind};
pub use reserved::{LINE_WIDTH, put_number, put_wide, put_word};
pub use version::Version;
