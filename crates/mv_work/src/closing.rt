//! The outcome of a run, made of what its board and its tasks left. Clauses cite `specs/Recording.antt`.
//!
//! ```text
//!   RunResults { closed, records, ends } ── the lines, made of the records ──> SpoolRun { history, records, ends, lines, volumes }
//! ```

ghost use Rattle.std.specs.Prelude.{◌≡◌, map, slice_index, IfOk};
ghost use Rattle.std.specs.List.{range_with_len};
ghost use Rattle.mv_deck.specs.Deck.{deck_data};
ghost use Rattle.mv_deck.specs.Operand.{volume_count};
ghost use Rattle.mv_deck.specs.Sound.{CanBeRun};
ghost use Rattle.mv_work.specs.Recording.{AreResults, IsRunOf};

use crate::records::InitiatorRecord;
use crate::reporting::lines_recorded;
use crate::results::RunResults;
use mv_deck::{Deck, VOLUME_COUNT};
use mv_io::NoMemory;
use mv_machine::History;
use mv_report::Lines;
use std::alloc::Global;

/// The outcome of a run of a deck. Ends and lines are in the order of the deck's jobs.
#[derive(Drop)]
pub struct SpoolRun {
    /// The events of the run, in order, with the configuration that it ran with.
    pub history: History,
    /// What each initiator noted of the jobs that it ran.
    pub records: Vec<InitiatorRecord>,
    /// The end code of each job, as `write_report` takes them.
    pub ends: Vec<u32>,
    /// The lines of each job.
    pub lines: Vec<Lines>,
    /// What each volume held at the end.
    pub volumes: Vec<u32>,
}

// The numbers of the volumes, as a list.
fn volumes_of(alloc: Global, held: &[u32; VOLUME_COUNT]) -> Result<Vec<u32>, NoMemory>
    ensures { IfOk result (λ volumes. volumes.items ≡ map (λ volume. slice_index held.now volume) (range_with_len 0 volume_count)) }
{
    let mut volumes = Vec::with_capacity(alloc, VOLUME_COUNT)?;
    for volume in 0..VOLUME_COUNT {
        volumes.push(held[volume])?;
    }
    Ok(volumes)
}

/// Returns the outcome of a run of this deck that left these results. The ends are those that the writer waited for, and the lines
/// are made of what the initiators noted. They are the deck's ends, lines and totals. Linear in the deck and in the notes.
///
/// # Errors
///
/// `NoMemory` if there is no room for lines and volumes. The results are dropped then.
pub fn spool_run(
    alloc: Global,
    deck: &Deck,
    initiators: u32,
    results: RunResults,
) -> Result<SpoolRun, NoMemory>
    requires runnable { CanBeRun (deck_data deck.now) initiators }
    requires results { AreResults (deck_data deck.now) initiators results }
    ensures history { IfOk result (λ run. run.history ≡ results.closed.history) }
    ensures records { IfOk result (λ run. run.records.items ≡ results.records.items) }
    ensures run { IfOk result (IsRunOf (deck_data deck.now) initiators) }
{
    let RunResults {
        closed,
        records,
        ends,
    } = results;
    let lines = lines_recorded(alloc, deck, &records)?;
    let volumes = volumes_of(alloc, &closed.volumes)?;
    Ok(SpoolRun {
        history: closed.history,
        records,
        ends,
        lines,
        volumes,
    })
}
