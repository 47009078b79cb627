//! A completion: one task waits for an event, another completes it with a code, and the wait returns that code.
#![tactic(auto)]

mod completion;

pub use completion::{Completed, complete};
use std::io;

fn main(rt: HostRuntime) -> io::Result<()> {
    let completed = complete(&rt, rt.alloc(), 12)?;
    println!(rt; "{}", completed.told)?;
    Ok(())
}
