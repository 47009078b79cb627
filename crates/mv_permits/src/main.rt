//! A bounded pool: three workers share two permits, which a volume counts under a latch, and a manager wakes workers that wait for one.
#![tactic(auto)]

mod permits;

use mv_wait::replay;
pub use permits::{Shared, share};
use std::io::{self, Print};

// How many shifts each worker is to work, and how often it may try to take a permit.
const SHIFTS: u32 = 4;

const TRIES: u32 = 40;

fn tell_shifts(rt: &impl Print, shifts: &[u32]) -> io::Result<()> {
    for count in shifts {
        println!(rt; "{count} SHIFTS")?;
    }
    Ok(())
}

fn main(rt: HostRuntime) -> io::Result<()> {
    let Shared { shifts, history } = share(&rt, rt.alloc(), SHIFTS, TRIES)?;
    tell_shifts(&rt, &shifts)?;
    let listed = history.listed(rt.alloc())?;
    let legal = replay(rt.alloc(), &listed.config, &listed.journal).is_ok();
    println!(rt; "LEGAL {legal}")?;
    Ok(())
}
