//! A number that four tasks count up, each under a latch: no addition is lost.
#![tactic(auto)]

mod counter;

pub use counter::{Counted, count};
use std::io::{self, Print};

// How often each task adds one.
const TIMES: u32 = 25;

fn main(rt: HostRuntime) -> io::Result<()> {
    let Counted { number, .. } = count(&rt, rt.alloc(), TIMES)?;
    println!(rt; "{number}")?;
    Ok(())
}
