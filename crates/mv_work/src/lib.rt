//! What each task of the spool does from one wait to the next, for any runner, and what the initiators note of the jobs that they run.
#![tactic(auto)]

mod closing;
mod deciding;
mod finding;
mod initiator;
mod laws;
mod lost;
mod need;
mod next;
mod reader;
mod records;
mod reporting;
mod results;
mod running;
mod scheduler;
mod spool;
mod stage;
mod work;
mod writer;

pub use closing::{SpoolRun, spool_run};
pub use laws::{initiators_note_what_they_do, records_give_the_lines, runs_record_each_job};
pub use lost::Lost;
pub use need::{Blocks, Got, MOST_BLOCKS, Need};
pub use records::{InitiatorRecord, Noted};
pub use reporting::lines_recorded;
pub use results::{RunResults, results_of};
pub use spool::Spool;
pub use work::SpoolWork;
