//! Decks: the text that names the jobs of a run, read into values or refused with its first fault.
#![tactic(auto)]

mod deck;
mod end_code;
mod fault;
mod form;
mod held;
mod laws;
mod line;
mod load;
mod names;
mod operand;
mod parts;
mod reading;
mod weight;

pub use deck::{After, Deck, Job, Name, Step, Text};
pub use end_code::{HIGHEST_CODE, LOWEST_ABEND, NOT_RUN, USER_CODES};
pub use fault::Kind;
pub use laws::{decks_are_sound, first_fault_is_lowest, loads_can_be_run};
pub use load::{MOST_JOBS, load_deck};
pub use mv_line::{TextFault as DeckFault, TextRefusal as DeckRefusal};
pub use operand::{MOST_AFTER, VOLUME_COUNT};
pub use reading::read_deck;
pub use weight::{MOST_INITIATORS, step_events};
