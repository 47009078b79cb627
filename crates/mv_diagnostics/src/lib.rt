//! Diagnostics of texts: which fault a text has, in words, and the line that has it; and what is in a deck or a script without fault.
#![tactic(auto)]

mod decks;
mod held;
mod limits;
mod quoting;
mod scripts;
mod sentences;
mod weights;

pub use decks::push_deck;
pub use quoting::{push_fault, push_place};
pub use scripts::push_script;
pub use sentences::journal_sentence;
