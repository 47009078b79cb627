//! The call numbers of a legal list: to which call of its caller each entry belongs. `specs/Numbers.antt` says what a number
//! is, and `specs/OneCall.antt` what it means that the entries of one call have one number.

ghost use Rattle.std.specs.Prelude.{◌≡◌, ◌<◌, ◌≤◌, ◌^◌, ℕ, List, All, length, IfOk};
ghost use Rattle.mv_calls.specs.Program.{Heard};
ghost use Rattle.mv_machine.specs.Prelude.{Legal, highest_place};
ghost use Rattle.mv_calls.specs.Numbers.{calls};
ghost use Rattle.mv_calls.specs.OneCall.{IsOneCall, HasOneNumber};

use crate::judge::Judge;
use mv_io::NoMemory;
use mv_machine::{Entry, ValidConfig};
use std::alloc::Global;

/// Returns for each entry of a legal list the number of its caller's call that the entry belongs to. A caller's calls are
/// numbered from 0, in the order in which it made them; a call that was refused without an event has no number. It makes one
/// pass, in time linear in the length. Calls are this project's own way to read a history.
///
/// # Errors
///
/// Returns `NoMemory` if there is not enough memory for the numbers, the state and the counters.
pub fn number_calls(
    alloc: Global,
    config: &ValidConfig,
    entries: &[Entry],
) -> Result<Vec<u32>, NoMemory>
    requires legal { Legal config.now entries.now }
    requires few { length entries.now < 2 ^ 32 }
    requires places { All (λ e. e.place ≤ highest_place) entries.now }
    ensures numbers { IfOk result (λ ns. ns.items ≡ calls config.now entries.now) }
    // All entries of one call have one number, if the call is not made of other calls (`IsSingle`).
    ensures one_number { IfOk result (λ ns. (k : ℕ) (old piece : List Heard)
        → IsOneCall config.now k entries.now old piece → HasOneNumber k entries.now ns.items old piece) }
{
    let mut judge = Judge::open(alloc, config)?;
    let mut numbers = Vec::new(alloc);
    for entry in entries {
        match judge.next(config, entry) {
            Some(number) => numbers.push(number)?,
            None => unreachable!(),
        }
    }
    Ok(numbers)
}
