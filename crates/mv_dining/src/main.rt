//! Four philosophers at a round table, with a fork between each two. A philosopher eats with both forks beside it, and takes the one with
//! the lower number first, so they never deadlock.
#![tactic(auto)]

mod dining;

pub use dining::dine;
use mv_wait::{Entry, LatchOp, Op, replay};
use std::io::{self, Print};

// How often each is to eat.
const MEALS: u32 = 5;

// How often a philosopher ate: each meal ends with two releases.
fn meals_of(journal: &[Entry], philosopher: u32) -> usize {
    let releases = journal.iter().filter(|entry| {
        entry.caller == philosopher && matches!(entry.op, Op::Latch(LatchOp::Release { .. }))
    });
    releases.count() / 2
}

fn main(rt: HostRuntime) -> io::Result<()> {
    let history = dine(&rt, rt.alloc(), MEALS)?;
    let listed = history.listed(rt.alloc())?;
    for philosopher in 0..4 {
        println!(rt; "{} MEALS", meals_of(&listed.journal, philosopher))?;
    }
    let legal = replay(rt.alloc(), &listed.config, &listed.journal).is_ok();
    println!(rt; "LEGAL {legal}")?;
    Ok(())
}
