//! The program: `main` hands the standard streams to `run_program`, which does the rest over any streams.
#![tactic(auto)]

mod command;
mod laws;
mod program;
mod running;
mod status;
mod texts;

pub use laws::{decks_do_not_deadlock, runs_are_legal};
pub use mv_task::{Gate, OpenGate, Point};
pub use program::{Host, run_program};
pub use status::Status;

#[cfg(test)]
mod tests;

use mv_ending::{Note, tell};
use mv_io::{StdSink, StdSource};
use std::env;
use std::io::{self, ErrorKind};
use std::process::ExitCode;
use std::rt::Env;

// Returns the words after the program's name.
fn words_of<R: Env + AllocGlobal>(rt: &R) -> io::Result<Vec<String>> {
    let mut words = Vec::new(rt.alloc());
    for word in env::args(rt)?.skip(1) {
        words.push(word)?;
    }
    Ok(words)
}

fn main(rt: HostRuntime) -> ExitCode {
    let mut input = StdSource::new(rt.stdin());
    let mut report = StdSink::new(rt.stdout());
    let mut journal = StdSink::new(rt.stderr());
    let mut notes = StdSink::new(rt.stderr());
    let words = match words_of(&rt) {
        Ok(words) => words,
        Err(error) if error.kind() == ErrorKind::OutOfMemory => {
            tell(&mut notes, Some(Note::NoMemory));
            // out of memory: there was no room for the words.
            return ExitCode::from(Status::NoMemory.exit());
        }
        // Arguments that are not text do not state a command.
        Err(_) => Vec::new(rt.alloc()),
    };
    let host = Host {
        rt: &rt,
        alloc: rt.alloc(),
        gate: &OpenGate,
    };
    let status = run_program(
        &host,
        &words,
        &mut input,
        &mut report,
        &mut journal,
        &mut notes,
    );
    ExitCode::from(status.exit())
}
