//! What each thread has: a task, and the room that its work needs.

ghost use Rattle.std.specs.Prelude.{◌≡◌, ◌<◌, ◌≤◌, ℕ, [], length, map, slice_index_or, vec_capacity, IfOk};
ghost use Rattle.mv_board.specs.Faces.{IsFresh, IsOf};

use crate::work::Work;
use mv_io::NoMemory;
use mv_wait::{Station, Task};
use std::alloc::Global;
use std::sync::Wait;
use std::thread::{self, Threads};
use std::time::Clock;

/// A task and its room.
#[derive(Drop)]
pub(crate) struct Seat<S> {
    pub task: Task,
    pub room: S,
}

/// Pairs each task with its room, in order.
///
/// # Errors
///
/// `NoMemory` if memory runs out. The tasks and the rooms are dropped then.
pub(crate) fn seated<S: Drop>(
    alloc: Global,
    tasks: Vec<Task>,
    rooms: Vec<S>,
) -> Result<Vec<Seat<S>>, NoMemory>
    requires { length rooms.items ≡ length tasks.items }
    ensures tasks { IfOk result (λ seats. map (λ seat. seat.task) seats.items ≡ tasks.items) }
    ensures rooms { IfOk result (λ seats. map (λ seat. seat.room) seats.items ≡ rooms.items) }
{
    let mut seats = Vec::with_capacity(alloc, tasks.len())?;
    let mut rooms = rooms.into_iter();
    for task in tasks {
        // There is a room for each task.
        let Some(room) = rooms.next() else {
            unreachable!()
        };
        seats.push_reserved(Seat { task, room });
    }
    Ok(seats)
}

/// Takes the tasks and the rooms out of these seats, in order, into two empty lists with room for them. It takes no memory.
pub(crate) fn parted<S: Drop>(
    seats: Vec<Seat<S>>,
    mut tasks: Vec<Task>,
    mut rooms: Vec<S>,
) -> (Vec<Task>, Vec<S>)
    requires tasks { (tasks.items ≡ []) × (length seats.items ≤ vec_capacity tasks) }
    requires rooms { (rooms.items ≡ []) × (length seats.items ≤ vec_capacity rooms) }
    ensures tasks { result.0.items ≡ map (λ seat. seat.task) seats.items }
    ensures rooms { result.1.items ≡ map (λ seat. seat.room) seats.items }
{
    for seat in seats {
        let Seat { task, room } = seat;
        tasks.push_reserved(task);
        rooms.push_reserved(room);
    }
    (tasks, rooms)
}

/// Has each task do its work, each on a thread, and returns when all have done it.
pub(crate) fn work_all<R: Threads + Wait + Clock + Sync, W: Work + Sync>(
    station: &Station,
    rt: &R,
    work: &W,
    seats: &mut [Seat<W::Room>],
)
    requires fresh { (k : ℕ) (d : _) → k < length seats.old → IsFresh station.now k (slice_index_or seats.old k d).task }
    requires exist { length seats.old ≤ station.now.config.callers }
    requires start { (k : ℕ) (d : _) → k < length seats.old → W.can_start work.now station.now k (slice_index_or seats.old k d).room }
    ensures count { length seats.new ≡ length seats.old }
    ensures task { (k : ℕ) (d : _) → k < length seats.old → IsOf station.now (slice_index_or seats.new k d).task
        × ((slice_index_or seats.new k d).task.number ≡ k) }
    ensures done { (k : ℕ) (d : _) → k < length seats.old → W.has_done work.now station.now k (slice_index_or seats.old k d).room
        (slice_index_or seats.new k d).task (slice_index_or seats.new k d).room }
{
    let job = move |number: usize, seat: &mut Seat<W::Room>|
        requires { IsFresh station.now number seat.now.task × (number < station.now.config.callers)
            × W.can_start work.now station.now number seat.now.room }
        ensures { IsOf station.entry.now seat.exit.now.task × (seat.exit.now.task.number ≡ number)
            × W.has_done work.entry.now station.entry.now number seat.entry.now.room seat.exit.now.task seat.exit.now.room }
    { work.work(station, rt, &mut seat.task, &mut seat.room) };
    let threads = seats.len().max(1);
    thread::for_each_mut(rt, seats, threads, &job);
}
