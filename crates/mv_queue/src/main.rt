//! A bounded queue with two producers and two consumers: what comes out is what went in, in order, and at most three items are inside.
#![tactic(auto)]

mod queue;

use mv_wait::replay;
pub use queue::{Passed, pass};
use std::io::{self, Print};

// What each producer puts in, and how many items each consumer takes out.
const FIRST: [u32; 6] = [1, 2, 3, 4, 5, 6];

const SECOND: [u32; 6] = [10, 20, 30, 40, 50, 60];

const WANTED: u32 = 6;

// How often a task may try.
const TRIES: u32 = 40;

// The schedule decides which consumer takes an item, so only the numbers of items are printed.
fn tell_taken(rt: &impl Print, taken: &[Vec<u32>]) -> io::Result<()> {
    for items in taken {
        println!(rt; "{} TAKEN", items.len())?;
    }
    Ok(())
}

fn main(rt: HostRuntime) -> io::Result<()> {
    let Passed { taken, history } = pass(&rt, rt.alloc(), &FIRST, &SECOND, WANTED, TRIES)?;
    tell_taken(&rt, &taken)?;
    let listed = history.listed(rt.alloc())?;
    let legal = replay(rt.alloc(), &listed.config, &listed.journal).is_ok();
    println!(rt; "LEGAL {legal}")?;
    Ok(())
}
