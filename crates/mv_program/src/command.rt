//! The commands of the program, and the words of the command line that state them, by `specs/Command.antt`.

ghost use Rattle.std.specs.Prelude.{◌≡◌, [], ◌∷◌, map, IfSome};
ghost use Rattle.std.specs.String.{string_bytes};
ghost use Rattle.mv_program.specs.Command.{command_of as command_by_words, initiators_of as initiators_by_word, jobs_of};
ghost use Rattle.mv_program.specs.Command.{load_of as load_by_numbers, polled_of as polled_by_numbers, seed_of};
ghost use Rattle.mv_program.specs.Command.{IsRunnable, AreInitiators};
ghost use Rattle.mv_program.specs.Program.{reads_input};

use mv_deck::{MOST_INITIATORS, MOST_JOBS};
use mv_line::number_within;
use mv_replay::JournalCommand;

/// A command of the program.
#[derive(Clone, Copy)]
pub enum Command {
    /// Runs the deck of the input with this many initiators, 1 to 8.
    Spool(u32),
    /// Runs a load of this many jobs, 1 to 2000, with this many initiators, 1 to 8.
    Load(u32, u32),
    /// Runs the script of the input.
    Script,
    /// Runs this command on the journal of the input.
    Journal(JournalCommand),
    /// Runs the deck of the input with this many initiators, 1 to 8, on one thread, in the round order of this seed, 0 to 9999.
    Polled(u32, u32),
}

impl Command {
    /// Returns whether the command reads its input.
    pub(crate) fn reads_input(self) -> bool
        ensures { result ≡ reads_input self }
    {
        match self {
            Command::Load(_, _) => false,
            Command::Spool(_) | Command::Script | Command::Journal(_) | Command::Polled(_, _) =>
                true,
        }
    }
}

/// The highest seed of a polled run.
const HIGHEST_SEED: u32 = 9999;

// Returns the number of initiators that a word states, if it states one.
fn initiators_of(word: &[u8]) -> Option<u32>
    ensures number { result ≡ initiators_by_word word.now }
    ensures range { IfSome result AreInitiators }
{
    number_within(1, MOST_INITIATORS, word)
}

// Returns the load of these words, if they state a number of jobs and a number of initiators.
fn load_of(jobs: &[u8], initiators: &[u8]) -> Option<Command>
    ensures load { result ≡ load_by_numbers (jobs_of jobs.now) (initiators_by_word initiators.now) }
    ensures runnable { IfSome result IsRunnable }
{
    let jobs = number_within(1, MOST_JOBS, jobs)?;
    let initiators = initiators_of(initiators)?;
    Some(Command::Load(jobs, initiators))
}

// Returns the polled run of these words, if they state a number of initiators and a seed.
fn polled_of(initiators: &[u8], seed: &[u8]) -> Option<Command>
    ensures polled { result ≡ polled_by_numbers (initiators_by_word initiators.now) (seed_of seed.now) }
    ensures runnable { IfSome result IsRunnable }
{
    let initiators = initiators_of(initiators)?;
    let seed = number_within(0, HIGHEST_SEED, seed)?;
    Some(Command::Polled(initiators, seed))
}

// Returns the command that one word states, if it states one.
fn command_of_one(word: &str) -> Option<Command>
    ensures command { result ≡ command_by_words (word.now ∷ []) }
    ensures runnable { IfSome result IsRunnable }
{
    match word {
        "script" => Some(Command::Script),
        "replay" => Some(Command::Journal(JournalCommand::Replay)),
        "convert" => Some(Command::Journal(JournalCommand::Convert)),
        _ => None,
    }
}

// Returns the command that two words state, if they state one.
fn command_of_two(word: &str, second: &[u8]) -> Option<Command>
    ensures command { result ≡ command_by_words (word.now ∷ second.now ∷ []) }
    ensures runnable { IfSome result IsRunnable }
{
    match word {
        "spool" => Some(Command::Spool(initiators_of(second)?)),
        _ => None,
    }
}

// Returns the command that three words state, if they state one.
fn command_of_three(word: &str, second: &[u8], third: &[u8]) -> Option<Command>
    ensures command { result ≡ command_by_words (word.now ∷ second.now ∷ third.now ∷ []) }
    ensures runnable { IfSome result IsRunnable }
{
    match word {
        "load" => load_of(second, third),
        "polled" => polled_of(second, third),
        _ => None,
    }
}

/// Returns the command that the words state, if they state one.
pub(crate) fn command_of(words: &[String]) -> Option<Command>
    ensures command { result ≡ command_by_words (map string_bytes words.now) }
    ensures runnable { IfSome result IsRunnable }
{
    match words {
        [word] => command_of_one(word.as_str()),
        [word, second] => command_of_two(word.as_str(), second.as_bytes()),
        [word, second, third] => {
            command_of_three(word.as_str(), second.as_bytes(), third.as_bytes())
        }
        _ => None,
    }
}
