//! No history of the spool deadlocks: the laws of every history that can be continued to a run.
#![tactic(auto)]

mod laws;

pub use laws::{
    early_settles_doom_a_task, histories_extend_to_runs, no_history_deadlocks,
    prefixes_of_runs_have_no_doomed_task, runs_do_not_deadlock, sound_decks_have_runs,
};
