//! A bounded hand-over: one task puts items into a few slots, another takes them out, and the items come out as they went in, in
//! the same order.
#![tactic(auto)]

mod handover;

pub use handover::{HandedOver, hand_over};
use mv_wait::replay;
use std::io::{self, Print};

// The items that are handed over.
const ITEMS: [u32; 10] = [3, 1, 4, 1, 5, 9, 2, 6, 5, 3];

fn tell_taken(rt: &impl Print, taken: &[u32]) -> io::Result<()> {
    for item in taken {
        println!(rt; "TAKEN {item}")?;
    }
    Ok(())
}

fn main(rt: HostRuntime) -> io::Result<()> {
    let HandedOver { taken, history } = hand_over(&rt, rt.alloc(), &ITEMS)?;
    tell_taken(&rt, &taken)?;
    let listed = history.listed(rt.alloc())?;
    let legal = replay(rt.alloc(), &listed.config, &listed.journal).is_ok();
    println!(rt; "{} EVENTS, LEGAL {legal}", listed.journal.len())?;
    Ok(())
}
