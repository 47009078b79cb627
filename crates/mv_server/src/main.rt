//! A server with a pool of workers: it hands each request to an idle worker, and the answer to each request has a block.
#![tactic(auto)]

mod rounds;
mod server;

use mv_wait::replay;
pub use rounds::serve_in_rounds;
pub use server::{Served, answer_to, serve_all};
use std::alloc::Global;
use std::io::{self, Print};
use std::sync::Wait;
use std::thread::Threads;
use std::time::Clock;

// The requests: how many days this many weeks have.
const REQUESTS: [u32; 8] = [2, 7, 1, 8, 28, 18, 28, 52];

// How many requests are answered in a round, by the service that works in rounds.
const ROUND: usize = 3;

fn tell_answers(rt: &impl Print, answers: &[u32]) -> io::Result<()> {
    for (request, answer) in REQUESTS.iter().zip(answers) {
        println!(rt; "REQUEST {request} ANSWER {answer}")?;
    }
    Ok(())
}

fn tell_rounds<R: Print + Threads + Wait + Clock + Sync>(rt: &R, alloc: Global) -> io::Result<()> {
    let answers = serve_in_rounds(rt, alloc, &REQUESTS, ROUND)?;
    println!(rt; "IN ROUNDS OF {ROUND} {answers:?}")?;
    Ok(())
}

fn main(rt: HostRuntime) -> io::Result<()> {
    let Served { answers, history } = serve_all(&rt, rt.alloc(), &REQUESTS)?;
    tell_answers(&rt, &answers)?;
    let listed = history.listed(rt.alloc())?;
    let legal = replay(rt.alloc(), &listed.config, &listed.journal).is_ok();
    println!(rt; "LEGAL {legal}")?;
    tell_rounds(&rt, rt.alloc())
}
