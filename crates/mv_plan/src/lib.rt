//! The tasks of the spool as programs of service calls, the laws of every run of them, and the configuration of a run.
#![tactic(auto)]

mod laws;
mod numbers;
mod spool_setup;

pub use laws::{
    no_task_goes_wrong, runs_count_alone, runs_hand_out_each_job, runs_keep_the_ends,
    runs_post_each_end, runs_purge_each_job, spool_setups_are_valid, tasks_stay_within_budgets,
};
pub use numbers::{
    FIRST_INITIATOR, READER, SCHEDULER, done, end_for_scheduler, end_for_writer, entered, idle,
    initiator, writer,
};
pub use spool_setup::spool_config;
