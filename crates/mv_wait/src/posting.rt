//! Posts, each with the posts of its exit. Clauses cite `Posts.antt` of mv_calls, and `specs/Run.antt`, `specs/Answers.antt`,
//! `specs/Posted.antt` and `specs/Task.antt`.

ghost use Rattle.std.specs.Prelude.{◌≡◌, ◌<◌, ◌≤◌, ◌++◌, ◌+◌, ◌∷◌, length, reverse, vec_len, vec_capacity};
ghost use Rattle.std.specs.List.{AllByRecursion};
ghost use Rattle.mv_calls.specs.Prelude.{code_limit, reach, total, post};
ghost use Rattle.mv_board.specs.Faces.{IsOf};
ghost use Rattle.mv_wait.specs.Posted.{PostedOne};
ghost use Rattle.mv_wait.specs.Run.{Serves, MayCall};
ghost use Rattle.mv_wait.specs.Task.{IsRecorded};

use crate::keep::Keep;
use crate::replies::posted;
use crate::station::Station;
use crate::task::Task;
use mv_board::Caller;
use mv_calls::PostAnswer;
use mv_ecb::EcbOp;
use mv_machine::{Object, Op};
use std::sync::Wait;

impl Station {
    /// Posts a block with a code of 30 bits. If that runs an exit, it posts the exit's targets with the same code, each with its
    /// own exits before the next.
    ///
    /// The call wakes the tasks that wait for the posted blocks. Any task may post any block. It makes at most as many events as
    /// `ValidConfig::reach` gives for the block; these must be left. It does not park, takes no memory and is never refused: the
    /// answer says whether the block took the code.
    ///
    /// # Examples
    ///
    /// From `crates/mv_events/src/entering.rt`, which enters an event if this post completed it:
    ///
    /// ```
    /// match station.post(rt, task, table.event_ecb(index), code) {
    ///     PostAnswer::Already(first) => Ok(EventAnswer::Already(first)),
    ///     PostAnswer::Posted | PostAnswer::Woke => count(station, rt, task, table, index),
    /// }
    /// ```
    pub fn post<R: Wait>(&self, rt: &R, task: &mut Task, ecb: u32, code: u32) -> PostAnswer
        requires task { MayCall self.now (reach self.now.config ecb) task.old }
        requires block { ecb < length self.now.config.owners }
        requires code { code < code_limit }
        ensures served { Serves (reach self.now.config ecb) (post self.now.config ecb code) result task.old task.new }
        ensures told { task.new.told ≡ task.old.told }
    {
        let answer = self.post_one(
            rt,
            &mut task.caller,
            &mut task.keep,
            &mut task.pending,
            ecb,
            code,
        );
        while let Some(next) = task.pending.pop() {
            self.post_one(
                rt,
                &mut task.caller,
                &mut task.keep,
                &mut task.pending,
                next,
                code,
            );
        }
        answer
    }

    // Posts one block, wakes its owner if the reply is Woke, and puts the targets of the exit that this runs after the pending
    // blocks, the first target last.
    #[inline(always)]
    fn post_one<R: Wait>(
        &self,
        rt: &R,
        caller: &mut Caller,
        keep: &mut Keep,
        pending: &mut Vec<u32>,
        ecb: u32,
        code: u32,
    ) -> PostAnswer
        requires task { IsOf self.now caller.old }
        requires recorded { IsRecorded caller.old keep.old }
        requires block { ecb < length self.now.config.owners }
        requires blocks { AllByRecursion (λ e. e < length self.now.config.owners) (reverse pending.old.items) }
        requires code { code < code_limit }
        requires left { total (reach self.now.config) (ecb ∷ reverse pending.old.items) ≤ caller.old.left }
        requires room { caller.old.left ≤ vec_capacity pending.old }
        ensures posted { PostedOne self.now.config code ecb caller.old pending.old.items result caller.new pending.new.items }
        ensures recorded { IsRecorded caller.new keep.new }
        ensures capacity { vec_capacity pending.new ≡ vec_capacity pending.old }
    {
        let op = Op::Ecb(EcbOp::Post(code));
        let reply = self.board.event(rt, caller, Object::Ecb(ecb), op);
        keep.follow(Object::Ecb(ecb), op, reply);
        let (answer, exit) = posted(reply);
        if answer == PostAnswer::Woke {
            self.wake(self.config().ecb_owner(ecb));
        }
        note(pending, self.board.config().targets(exit));
        answer
    }
}

// Puts these blocks after the pending ones, the first of them last.
#[inline(always)]
fn note(pending: &mut Vec<u32>, targets: &[u32])
    requires { vec_len pending.old + length targets.now ≤ vec_capacity pending.old }
    ensures noted { pending.new.items ≡ pending.old.items ++ reverse targets.now }
    ensures capacity { vec_capacity pending.new ≡ vec_capacity pending.old }
{
    let mut left = targets.len();
    while left > 0 {
        left -= 1;
        pending.push_reserved(targets[left]);
    }
}
