//! What each task has besides its seat: the room that its calls need, and their answers. Clauses cite `specs/Rooms.antt`.

ghost use Rattle.std.specs.Prelude.{◌≡◌, ◌<◌, ℕ, [], length, count_by, slice_index_or, IfOk};
ghost use Rattle.mv_runscript.specs.Making.{HaveSlots, is_wait as is_wait_call};
ghost use Rattle.mv_runscript.specs.Rooms.{HasRoom};

use mv_io::NoMemory;
use mv_latchset::LatchToken;
use mv_script::{Answer, Call, CallList, MOST_WAITED, Slots};
use mv_wait::WaitSlot;
use std::alloc::Global;

/// The answers of a task's calls so far, and the room for the others.
#[derive(Drop)]
pub(crate) struct Room {
    pub answers: Vec<Answer>,
    /// For each OBTAIN the request that it got, or `None`.
    pub requests: Vec<Option<LatchToken>>,
    /// The slots for each WAIT that is still to come.
    pub slots: Vec<Slots>,
}

/// Makes the room of each task.
///
/// # Errors
///
/// `NoMemory` if memory runs out.
pub(crate) fn rooms_for(alloc: Global, tasks: &[CallList]) -> Result<Vec<Room>, NoMemory>
    ensures count { IfOk result (λ rooms. length rooms.items ≡ length tasks.now) }
    ensures room { IfOk result (λ rooms. (k : ℕ) (d : _) → k < length rooms.items
        → HasRoom (slice_index_or tasks.now k []) (slice_index_or rooms.items k d)) }
{
    let mut rooms = Vec::with_capacity(alloc, tasks.len())?;
    for list in tasks {
        rooms.push_reserved(room_for(alloc, &list.calls)?);
    }
    Ok(rooms)
}

// Makes the room that these calls need.
fn room_for(alloc: Global, calls: &[Call]) -> Result<Room, NoMemory>
    ensures { IfOk result (λ room. HasRoom calls.now room) }
{
    Ok(Room {
        answers: Vec::with_capacity(alloc, calls.len())?,
        requests: Vec::with_capacity(alloc, calls.len())?,
        slots: slots_for(alloc, count_waits(calls))?,
    })
}

// Makes the slots for this many WAITs.
fn slots_for(alloc: Global, waits: usize) -> Result<Vec<Slots>, NoMemory>
    ensures count { IfOk result (λ rooms. length rooms.items ≡ waits) }
    ensures slots { IfOk result (λ rooms. HaveSlots rooms.items) }
{
    let mut rooms = Vec::new(alloc);
    for made in 0..waits {
        let slots = vec![in alloc; WaitSlot::Open; MOST_WAITED]?;
        rooms.push(Slots { slots })?;
    }
    Ok(rooms)
}

// How many of these calls are WAITs.
fn count_waits(calls: &[Call]) -> usize
    ensures { result ≡ count_by is_wait_call calls.now }
{
    calls.iter().filter(|call| is_wait(call)).count()
}

fn is_wait(call: &Call) -> bool
    ensures { result ≡ is_wait_call call.now }
{
    matches!(call, Call::Wait { .. })
}
