//! A wait for one block. Clauses cite `Waits.antt` and `Exits.antt` of mv_calls, `specs/Run.antt` and `specs/OneBlock.antt`.

ghost use Rattle.std.specs.Prelude.{◌≡◌, ◌<◌, ◌∷◌, [], false, length, Ok};
ghost use Rattle.mv_calls.specs.declared.outcomes.WaitSlot.TheVariants.{Complete};
ghost use Rattle.mv_calls.specs.Prelude.{code_limit, owner_of, kept_of, StartsExit, wait};
ghost use Rattle.mv_wait.specs.OneBlock.{WaitedFor};
ghost use Rattle.mv_wait.specs.Run.{Serves, MayCall};

use crate::station::Station;
use crate::task::Task;
use mv_calls::WaitSlot;
use std::sync::Wait;
use std::time::Clock;

impl Station {
    /// Waits until this block is complete, and returns the code of 30 bits with which it is complete. This is `wait` for one
    /// block.
    ///
    /// The block must be the task's own, and if an exit starts from it, the task must not hold it extended; so the wait is never
    /// refused. It makes two events, which must be left. The task parks until the block is posted: not at all if the block is
    /// already complete, and for ever if no task posts it.
    ///
    /// # Examples
    ///
    /// From `crates/mv_handover/src/handover.rt`, which takes the code of a block and zeroes it for its next use:
    ///
    /// ```
    /// let code = station.wait_one(rt, task, ecb);
    /// let Ok(_) = station.clear(rt, task, ecb) else {
    ///     unreachable!()
    /// };
    /// code
    /// ```
    pub fn wait_one<R: Wait + Clock>(&self, rt: &R, task: &mut Task, ecb: u32) -> u32
        requires task { MayCall self.now 2 task.old }
        requires block { ecb < length self.now.config.owners }
        requires own { owner_of self.now.config ecb ≡ task.old.number }
        requires plain { StartsExit self.now.config ecb → (kept_of task.old.number task.old.log).extended ecb ≡ false }
        ensures served { Serves 2 (wait self.now.config 1 (ecb ∷ [])) (Ok (Complete result ∷ [])) task.old task.new }
        ensures waited { WaitedFor ecb result task.old task.new }
        ensures code { result < code_limit }
    {
        let mut found = [WaitSlot::Open];
        let Ok(()) = self.wait(rt, task, 1, &[ecb], &mut found) else {
            unreachable!()
        };
        match found[0] {
            WaitSlot::Complete(code) => code,
            WaitSlot::Open => unreachable!(),
        }
    }
}
