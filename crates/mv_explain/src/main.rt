//! `tongsthyme explain`: what is wrong with the deck, script or journal on standard input, in words; or what is in it. With `--run` and a
//! seed the script is run as far as its tasks go on, and what they wait for is said.
#![tactic(auto)]

mod before;
mod by_task;
mod explaining;
mod journals;
mod judging;
mod latch_state;
mod laws;
mod naming;
mod running;
mod sentences;
mod status;
mod subject;

pub use explaining::explain;
pub use judging::Verdict;
pub use laws::an_input_has_one_explanation;
pub use running::explain_run;
pub use status::ExplainStatus;
pub use subject::Subject;

#[cfg(test)]
mod tests;

use mv_ending::{Note, tell};
use mv_io::{StdSink, StdSource};
use mv_line::number_within;
use std::process::ExitCode;
use std::rt::Env;
use std::{env, io};

/// The highest seed, as of a polled run.
const HIGHEST_SEED: u32 = 9999;

/// The exit status for words that are not a command: that of the other commands.
const USAGE: u8 = 2;

// What the words ask for.
enum Command {
    Explain,
    Run(u32),
}

// The words after the program's name.
fn words_of<R: Env + AllocGlobal>(rt: &R) -> io::Result<Vec<String>> {
    let mut words = Vec::new(rt.alloc());
    for word in env::args(rt)?.skip(1) {
        words.push(word)?;
    }
    Ok(words)
}

// The command that words state, if they state one.
fn command_of(words: &[String]) -> Option<Command> {
    match words {
        [] => Some(Command::Explain),
        [flag, seed] if flag.as_str() == "--run" => {
            Some(Command::Run(number_within(0, HIGHEST_SEED, seed.as_bytes())?))
        }
        _ => None,
    }
}

fn main(rt: HostRuntime) -> ExitCode {
    let mut input = StdSource::new(rt.stdin());
    let mut report = StdSink::new(rt.stdout());
    let mut journal = StdSink::new(rt.stderr());
    let mut notes = StdSink::new(rt.stderr());
    let command = match words_of(&rt) {
        Ok(words) => command_of(&words),
        // Words that are not text, or for which there is no room, state no command.
        Err(_) => None,
    };
    let status = match command {
        Some(Command::Explain) => explain(rt.alloc(), &mut input, &mut report, &mut notes),
        Some(Command::Run(seed)) => explain_run(
            &rt,
            rt.alloc(),
            seed,
            &mut input,
            &mut report,
            &mut journal,
            &mut notes,
        ),
        None => {
            tell(&mut notes, Some(Note::Usage));
            return ExitCode::from(USAGE);
        }
    };
    ExitCode::from(status.exit())
}
