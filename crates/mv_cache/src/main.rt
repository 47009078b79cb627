//! A pair of numbers in two volumes that tasks share under one latch: no reader sees half of one pair and half of
//! another.
#![tactic(auto)]

mod cache;

pub use cache::{Pair, Shared, share};
use mv_wait::replay;
use std::io::{self, Print};

// The pairs that are written, one after the other.
const PAIRS: [Pair; 4] = [
    Pair { left: 3, right: 4 },
    Pair { left: 5, right: 12 },
    Pair { left: 8, right: 15 },
    Pair { left: 7, right: 24 },
];

// How often each reader reads.
const READS: u32 = 5;

// The schedule decides which pairs a reader saw, so the output must not depend on it.
fn tell_read(rt: &impl Print, read: &[Vec<Pair>]) -> io::Result<()> {
    for pairs in read {
        let whole = pairs
            .iter()
            .all(|pair| *pair == cache::FIRST || PAIRS.contains(pair));
        println!(rt; "{} PAIRS, WHOLE {whole}", pairs.len())?;
    }
    Ok(())
}

fn main(rt: HostRuntime) -> io::Result<()> {
    let Shared { read, history } = share(&rt, rt.alloc(), &PAIRS, READS)?;
    tell_read(&rt, &read)?;
    let listed = history.listed(rt.alloc())?;
    let legal = replay(rt.alloc(), &listed.config, &listed.journal).is_ok();
    println!(rt; "LEGAL {legal}")?;
    Ok(())
}
