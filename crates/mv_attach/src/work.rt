//! What the tasks of a station do, and the threads on which they do it. Clauses cite `Faces.antt` of mv_board.

ghost use Rattle.std.specs.Prelude.{◌≡◌, ◌<◌, ℕ, length, slice_index_or, IfOk};
ghost use Rattle.mv_board.specs.Faces.{BoardFace, CallerFace, IsFresh, AreFresh, AreInOrder, IsOf};

use crate::seat::{parted, seated, work_all};
use mv_io::NoMemory;
use mv_wait::{Station, Task};
use std::alloc::Global;
use std::sync::Wait;
use std::thread::Threads;
use std::time::Clock;

/// The work of the tasks of a station, each by its number.
pub trait Work {
    /// What each task has besides its seat: the memory that its work fills, and what it returns.
    type Room: Send + Drop;

    // what the task of this number requires of its room and of the station before it starts
    ghost can_start: { Self → BoardFace → ℕ → Self.Room → Type 0 };

    // what the task of this number has done when it is back; the first room is the one before its work, the second the one after
    // it
    ghost has_done: { Self → BoardFace → ℕ → Self.Room → CallerFace → Self.Room → Type 0 };

    /// Does the work of the task with this number. The task has made no event yet.
    fn work<R: Wait + Clock>(
        &self,
        station: &Station,
        rt: &R,
        task: &mut Task,
        room: &mut Self::Room,
    )
        requires fresh { IsFresh station.now task.old.number task.old }
        requires exists { task.old.number < station.now.config.callers }
        requires start { can_start self.now station.now task.old.number room.old }
        ensures task { IsOf station.now task.new }
        ensures number { task.new.number ≡ task.old.number }
        ensures done { has_done self.now station.now task.old.number room.old task.new room.new };
}

/// Has all tasks of a station do their work, each on a thread, and returns them in order, with their rooms.
///
/// All memory is taken before the first of them starts. The call returns once all tasks have done their work.
///
/// # Errors
///
/// `NoMemory` if memory runs out, before any task starts.
///
/// # Examples
///
/// From `crates/mv_server/src/server.rt`, whose work lends its requests to all tasks, and fills a room for each:
///
/// ```
/// let (station, tasks) = Station::open(alloc, config)?;
/// let pool = Pool { requests };
/// let (tasks, mut rooms) = run_tasks(rt, alloc, &station, &pool, tasks, rooms)?;
/// // The server's room is the last one.
/// let Some(answers) = rooms.pop() else {
///     unreachable!()
/// };
/// let closed = station.close(tasks);
/// ```
pub fn run_tasks<R: Threads + Wait + Clock + Sync, W: Work + Sync>(
    rt: &R,
    alloc: Global,
    station: &Station,
    work: &W,
    tasks: Vec<Task>,
    rooms: Vec<W::Room>,
) -> Result<(Vec<Task>, Vec<W::Room>), NoMemory>
    requires fresh { AreFresh station.now 0 tasks.items }
    requires all { length tasks.items ≡ station.now.config.callers }
    requires rooms { length rooms.items ≡ length tasks.items }
    requires start { (k : ℕ) (s : _) → k < length rooms.items → W.can_start work.now station.now k (slice_index_or rooms.items k s) }
    ensures order { IfOk result (λ back. AreInOrder station.now 0 back.0.items) }
    ensures all { IfOk result (λ back. length back.0.items ≡ station.now.config.callers) }
    ensures rooms { IfOk result (λ back. length back.1.items ≡ length rooms.items) }
    ensures done { IfOk result (λ back. (k : ℕ) (s : _) (t : _) → k < length rooms.items
        → W.has_done work.now station.now k (slice_index_or rooms.items k s)
        (slice_index_or back.0.items k t) (slice_index_or back.1.items k s)) }
{
    let tasks_back = Vec::with_capacity(alloc, tasks.len())?;
    let rooms_back = Vec::with_capacity(alloc, rooms.len())?;
    let mut seats = seated(alloc, tasks, rooms)?;
    work_all(station, rt, work, &mut seats);
    Ok(parted(seats, tasks_back, rooms_back))
}
