//! The call counters of the callers of a legal list, which count entry by entry. `specs/Counters.antt` says what has been
//! counted so far.

ghost use Rattle.std.specs.Prelude.{◌≡◌, ◌<◌, ◌≤◌, ◌-◌, ◌^◌, [], List, All, length, vec_capacity, IfOk};
ghost use Rattle.mv_machine.specs.declared.entry.Entry.{Entry as AnyEntry};
ghost use Rattle.mv_calls.specs.Counters.{numbering_at, HasCounted, IsCountable, IsCountedNext};
ghost use Rattle.mv_calls.specs.Numbers.{unnumbered};

use crate::counting::{Counter, pending_room};
use mv_io::NoMemory;
use mv_latch::Wake;
use mv_machine::{Entry, ValidConfig};
use std::alloc::Global;

/// The counters of the calls of all callers, after a legal list of entries. Of the entries themselves they keep only what the
/// last one of each caller was, as far as the next may continue its call.
#[derive(Drop)]
pub struct CallCounters {
    counters: Vec<Counter>,
}

// Makes the counter of each caller before its first entry, with room for `room` pending blocks.
fn new_counters(alloc: Global, callers: u32, room: usize) -> Result<Vec<Counter>, NoMemory>
    ensures callers { IfOk result (λ xs. length xs.items ≡ callers) }
    ensures start { IfOk result (λ xs. numbering_at xs.items ≡ (λ _. unnumbered)) }
    ensures room { IfOk result (λ xs. All (λ x. room ≤ vec_capacity x.pending) xs.items) }
{
    let mut counters = Vec::new(alloc);
    for _ in 0..callers {
        counters.push(Counter::open(alloc, room)?)?;
    }
    Ok(counters)
}

impl CallCounters {
    /// Opens the counters before the first entry. All memory is taken here: for each caller its counter, of 40 bytes in a list
    /// that grows by doubling, and 4 bytes for each block that may be pending, of which there are 1 + callers × posted quota +
    /// 7 × exits.
    ///
    /// # Errors
    ///
    /// Returns `NoMemory` if there is not enough memory for the counters.
    pub fn open(alloc: Global, config: &ValidConfig) -> Result<CallCounters, NoMemory>
        ensures { IfOk result (λ x. HasCounted config.now [] x) }
    {
        let counters = new_counters(alloc, config.config().callers, pending_room(config))?;
        Ok(CallCounters { counters })
    }

    /// Counts one more entry of a legal list of fewer than 2^32 entries, and returns the number of its caller's call that it
    /// belongs to. The wakes are those that the machine shows after the entry. It takes no memory: `open` took the memory of
    /// the counters and of their blocks.
    ///
    /// # Examples
    ///
    /// From `crates/mv_entrytext/src/history_text.rt`:
    ///
    /// ```
    /// while let Some(entry) = history.next() {
    ///     make_room(journal, &mut piece)?;
    ///     let call = counters.count(history.config(), &entry, history.state().wakes());
    ///     put_entry_line(&mut piece, Some(call), &entry);
    ///     count += 1;
    /// }
    /// ```
    pub fn count(&mut self, config: &ValidConfig, entry: &Entry, wakes: &[Wake]) -> u32
        requires countable { (es : List AnyEntry) × IsCountable config.now es entry.now wakes.now self.old × (length es < 2 ^ 32 - 1) }
        ensures { (es : List AnyEntry) → IsCountable config.now es entry.now wakes.now self.old
            → IsCountedNext config.now es entry.now result self.new }
    {
        self.counters[entry.caller as usize].count(config, entry, wakes)
    }
}
