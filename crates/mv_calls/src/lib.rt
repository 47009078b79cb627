//! What each call of the services does, event by event, and what a task that keeps its own log knows of the machine by it,
//! whatever others do.
#![tactic(auto)]

mod call_laws;
mod calls_replaying;
mod counters;
mod counting;
mod judge;
mod keeping_laws;
mod latch_laws;
mod numbering;
mod outcomes;
mod section_laws;
mod table;

pub use call_laws::{
    calls_keep_to_their_events, codes_in_replies, generations_in_replies,
    last_event_is_the_machines, posts_reach, refused_tables_cannot_be_had,
};
pub use calls_replaying::{CallsRefusal, replay_calls};
pub use counters::CallCounters;
pub use judge::Judge;
pub use keeping_laws::{keeping_agrees, own_blocks_answer, own_elements_answer};
pub use latch_laws::{
    latches_answer, quotas_hold, requests_at_rest, requests_leave_by_purges, requests_stay,
    wakes_are_in_range,
};
pub use numbering::number_calls;
pub use outcomes::{Given, PostAnswer, Purged, ReleaseAnswer, Standing, WaitSlot};
pub use section_laws::{holders_exclude, sections_are_undisturbed};
pub use table::{TABLE_LIMIT, Table, TableRefusal, ValidTable};
