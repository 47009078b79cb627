//! The weight of a deck.

ghost use Rattle.std.specs.Prelude.{◌≡◌, ◌<◌, ◌≤◌, ◌^◌, map, sum_by};
ghost use Rattle.mv_deck.specs.Deck.{deck_data, job_data};
ghost use Rattle.mv_deck.specs.Weight.{all_events as events_of_jobs, after_parts as parts_of_jobs, step_events as events_of_step};
ghost use Rattle.mv_deck.specs.Weight.{heaviest, most_initiators, weight};

use mv_deck::{Deck, Job, Step, step_events};

// Returns how many events these steps make at most.
#[tactic(auto, using(crate::proofs::Totals::steps_left))]
fn steps_events(steps: &[Step]) -> u32
    requires { sum_by events_of_step steps.now < 2 ^ 32 }
    ensures { result ≡ sum_by events_of_step steps.now }
{
    let mut events = 0;
    for step in steps {
        events += step_events(step);
    }
    events
}

// Returns how many events the steps of these jobs make at most.
#[tactic(auto, using(crate::proofs::Totals::events_left))]
fn all_events(jobs: &[Job]) -> u32
    requires { events_of_jobs (map job_data jobs.now) < 2 ^ 32 }
    ensures { result ≡ events_of_jobs (map job_data jobs.now) }
{
    let mut events = 0;
    for job in jobs {
        events += steps_events(&job.steps);
    }
    events
}

// Returns how many AFTER parts these jobs have.
#[tactic(auto, using(crate::proofs::Totals::parts_left))]
fn after_parts(jobs: &[Job]) -> u32
    requires { parts_of_jobs (map job_data jobs.now) < 2 ^ 32 }
    ensures { result ≡ parts_of_jobs (map job_data jobs.now) }
{
    let mut parts = 0;
    for job in jobs {
        parts += job.after.len() as u32;
    }
    parts
}

/// Returns the weight of a deck for this many initiators. One initiator can run the deck.
pub(crate) fn weight_of(deck: &Deck, initiators: u32) -> u64
    requires light { weight (deck_data deck.now) 1 ≤ heaviest }
    requires initiators { initiators ≤ most_initiators }
    ensures { result ≡ weight (deck_data deck.now) initiators }
{
    let jobs = deck.jobs.len() as u64;
    let parts = u64::from(after_parts(&deck.jobs));
    let events = u64::from(all_events(&deck.jobs));
    let initiators = u64::from(initiators);
    8 * jobs + 9 * initiators + 9 * jobs * initiators + 2 * parts + initiators * events
}
