//! The numbers in the volumes, which a round leaves to the next one. Clauses cite `specs/Restored.antt`.

ghost use Rattle.std.specs.Prelude.{◌≤◌, length};
ghost use Rattle.mv_wait.specs.Prelude.{MayCall};
ghost use Rattle.mv_rounds.specs.Restored.{HasRestored};

use mv_wait::{Station, Task};
use std::sync::Wait;

/// Writes these numbers into the volumes, from volume 0 on.
///
/// `close` of a station returns the numbers that its volumes have in the end (`Closed::volumes`). The next round has them from the start if
/// one of its tasks restores them before any task uses the volumes: a task that needs them waits until that one has posted a block. Each
/// number is one event.
pub fn restore<R: Wait>(station: &Station, rt: &R, task: &mut Task, numbers: &[u32])
    requires task { MayCall station.now (length numbers.now) task.old }
    requires volumes { length numbers.now ≤ station.now.config.volumes }
    ensures { HasRestored station.now numbers.now task.old task.new }
{
    // A valid configuration has few volumes, so their numbers fit.
    let _ = station.config().config();
    for volume in 0..numbers.len() {
        station.write_volume(rt, task, volume as u32, numbers[volume]);
    }
}
