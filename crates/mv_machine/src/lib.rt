//! The machine of one thread: the state of all objects of a configuration, the one step that an operation of a caller makes, and
//! laws of every legal history. It passes on the types of mv_config.
#![tactic(auto)]

mod admission;
mod compact;
mod entry;
mod latches;
mod laws;
mod log;
mod merging;
mod packing;
mod replaying;
mod state;

pub use entry::{Entry, Object, Op, Reply, VolumeOp, VolumeReply};
pub use latches::open_latches;
pub use laws::{
    generations_fit, histories_are_orderly, histories_are_their_parts, merging_keeps_a_history,
    others_keep_what_is_owned, places_count_entries, posts_complete_once,
    reached_states_have_words, requests_stand_by_their_callers_entries, words_are_packings,
    words_go_by_the_machine, words_stay_had,
};
pub use log::{Log, OpenLog};
pub use merging::{History, Listed, MergeRoom};
pub use mv_config::{
    CheckRefusal, Config, ConfigLimit, Exit, HIGHEST_GENERATION, HIGHEST_PLACE, ValidConfig,
};
pub use packing::{WordState, pack, state_apply, unpack};
pub use replaying::{Illegal, ReplayRefusal, replay};
pub use state::State;
