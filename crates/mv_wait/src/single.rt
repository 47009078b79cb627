//! The calls of one event. Clauses cite `Waits.antt` and `Posts.antt` of mv_calls, and `specs/Run.antt`, `specs/Answers.antt` and
//! `specs/Single.antt`.

ghost use Rattle.std.specs.Prelude.{◌≡◌, ◌<◌, ◌≤◌, length, option_map, MatchResult, None, true, false};
ghost use Rattle.mv_calls.specs.Prelude.{code_limit, exits_limit, kept_of, try_post, IsAtRest, clear, extend, extend_refusal};
ghost use Rattle.mv_calls.specs.Prelude.{is_others_block, test_ecb, read_volume, write_volume};
ghost use Rattle.mv_machine.specs.declared.entry.Object.TheVariants as object;
ghost use Rattle.mv_board.specs.Faces.{IsOf, Missed};
ghost use Rattle.mv_wait.specs.Answers.{clear_answer, extend_answer, extend_refused};
ghost use Rattle.mv_wait.specs.Run.{Serves, MayCall};
ghost use Rattle.mv_wait.specs.Single.{IsExtendCause, HasNoWaitBit};

use crate::replies::{posted, taken, value, word};
use crate::station::Station;
use crate::task::Task;
use mv_board::Moved;
use mv_calls::PostAnswer;
use mv_ecb::EcbOp;
use mv_machine::{Object, Op, VolumeOp};
use std::sync::Wait;
use thiserror::Error;

/// The error of a call on a block or an element that is another caller's.
#[derive(Clone, Copy, Debug, PartialEq, Eq, Error)]
#[error("the block or element is another caller's")]
pub struct NotOwner;

/// Why a block was not extended.
#[derive(Clone, Copy, Debug, PartialEq, Eq, Error)]
pub enum ExtendRefusal {
    /// The block is another caller's.
    #[error("the block is another caller's")]
    NotOwner,
    /// No exit of that number starts from the block.
    #[error("no exit of that number starts from the block")]
    BadExit,
    /// The block is extended.
    #[error("the block is extended")]
    Extended,
    /// The block is complete, with this code.
    #[error("the block is complete, with code {0}")]
    Complete(u32),
}

impl Station {
    /// Zeroes a block of the task's own for its next use, extended or not, and returns the fullword that it had.
    ///
    /// If the block was complete, that fullword is the completion bit, 2^30, plus the code. The call makes one event, which must
    /// be left, and does not park.
    ///
    /// # Errors
    ///
    /// `NotOwner` if the block is another caller's; then no event is made.
    ///
    /// # Examples
    ///
    /// From `crates/mv_server/src/server.rt`, before a worker is given work:
    ///
    /// ```
    /// // The block is cleared first, because the worker may be idle again before the release returns.
    /// let Ok(_) = station.clear(rt, task, worker) else {
    ///     unreachable!()
    /// };
    /// ```
    pub fn clear<R: Wait>(&self, rt: &R, task: &mut Task, ecb: u32) -> Result<u32, NotOwner>
        requires task { MayCall self.now 1 task.old }
        requires block { ecb < length self.now.config.owners }
        ensures served { Serves 1 (clear self.now.config ecb) (clear_answer result) task.old task.new }
        ensures causes { MatchResult result
            (λ _. is_others_block self.now.config (kept_of task.old.number task.old.log) ecb ≡ false)
            (λ _. (is_others_block self.now.config (kept_of task.old.number task.old.log) ecb ≡ true) × (task.new ≡ task.old)) }
    {
        if self.is_others_block(task, ecb) {
            return Err(NotOwner);
        }
        let reply = self.event(rt, task, Object::Ecb(ecb), Op::Ecb(EcbOp::Clear));
        Ok(word(reply))
    }

    /// Makes the next post of a block of the task's own run this exit.
    ///
    /// Exits are numbered from 1 in the configuration, and the exit must start from the block. The extension holds for one post,
    /// and until the block is cleared. The call makes at most one event, which must be left, and does not park.
    ///
    /// # Errors
    ///
    /// The first refusal that applies, in the order of `ExtendRefusal`. Only `Complete` makes an event: it is the reply to that
    /// event.
    ///
    /// # Examples
    ///
    /// From `crates/mv_work/src/scheduler.rt`, where the exit of a job's block posts the blocks of the jobs that wait for that
    /// job:
    ///
    /// ```
    /// let done = self.done(job);
    /// self.station.extend(rt, task, done, job + 1)?;
    /// ```
    pub fn extend<R: Wait>(
        &self,
        rt: &R,
        task: &mut Task,
        ecb: u32,
        exit: u32,
    ) -> Result<(), ExtendRefusal>
        requires task { MayCall self.now 1 task.old }
        requires block { ecb < length self.now.config.owners }
        ensures served { Serves 1 (extend self.now.config ecb exit) (extend_answer result) task.old task.new }
        ensures causes { MatchResult result
            (λ _. extend_refusal self.now.config ecb exit (kept_of task.old.number task.old.log) ≡ None)
            (λ why. IsExtendCause self.now.config ecb exit task.old why task.new) }
    {
        if let Some(refusal) = self.refuses_extend(task, ecb, exit) {
            return Err(refusal);
        }
        let reply = self.event(rt, task, Object::Ecb(ecb), Op::Ecb(EcbOp::Extend(exit)));
        match taken(reply) {
            None => Ok(()),
            Some(code) => Err(ExtendRefusal::Complete(code)),
        }
    }

    // The reason for which a block is not to be extended, if there is one.
    fn refuses_extend(&self, task: &Task, ecb: u32, exit: u32) -> Option<ExtendRefusal>
        requires task { IsOf self.now task.now }
        requires block { ecb < length self.now.config.owners }
        ensures refusal { option_map extend_refused result
            ≡ extend_refusal self.now.config ecb exit (kept_of task.now.number task.now.log) }
        ensures few { result ≡ None → exit ≤ exits_limit }
    {
        if self.is_others_block(task, ecb) {
            return Some(ExtendRefusal::NotOwner);
        }
        if !self.board.config().is_exit_of(exit, ecb) {
            return Some(ExtendRefusal::BadExit);
        }
        if task.extended(ecb) {
            return Some(ExtendRefusal::Extended);
        }
        None
    }

    // Whether a block is another caller's.
    fn is_others_block(&self, task: &Task, ecb: u32) -> bool
        requires { ecb < length self.now.config.owners }
        ensures { result ≡ is_others_block self.now.config (kept_of task.now.number task.now.log) ecb }
    {
        !self.board.config().owns_ecb(task.number(), ecb)
    }

    /// Tries to post a block with a code of 30 bits, by one exchange of its word.
    ///
    /// The expected word, place and state in 64 bits as `look` and `Moved` give it, must have no wait bit; so the post runs no
    /// exit and wakes no task. The call makes at most one event, which must be left, and never waits.
    ///
    /// # Errors
    ///
    /// `Moved(w)` if the word was `w` and not `expected`; then no event is made.
    ///
    /// # Examples
    ///
    /// From `crates/mv_runscript/src/trying.rt`, where `zero` is the word of a block that is zero and has had `place` events:
    ///
    /// ```
    /// let zero = zero_at(place);
    /// match station.try_post(task, ecb, zero, code) {
    ///     Ok(outcome) => posted(outcome),
    ///     Err(Moved(word)) => Answer::Moved(word),
    /// }
    /// ```
    pub fn try_post(
        &self,
        task: &mut Task,
        ecb: u32,
        expected: u64,
        code: u32,
    ) -> Result<PostAnswer, Moved>
        requires task { MayCall self.now 1 task.old }
        requires block { ecb < length self.now.config.owners }
        requires code { code < code_limit }
        requires unwaited { HasNoWaitBit expected }
        ensures answer { MatchResult result
            (λ answer. Serves 1 (try_post ecb expected code) answer task.old task.new)
            (λ moved. Missed task.old (object.Ecb ecb) expected moved task.new) }
        ensures rest { IsAtRest task.new.log }
    {
        let reply = self.try_event(task, Object::Ecb(ecb), Op::Ecb(EcbOp::Post(code)), expected)?;
        Ok(posted(reply).0)
    }

    /// Returns the fullword of a block of any caller: wait bit 2^31, completion bit 2^30, and the code or the exit below.
    ///
    /// The call makes one event, which must be left, and never waits.
    ///
    /// # Examples
    ///
    /// From `crates/mv_events/src/handing_out.rt`, which returns the word of a complete block:
    ///
    /// ```
    /// let word = station.test_ecb(task, table.event_ecb(index));
    /// Ok(Event { index, word })
    /// ```
    pub fn test_ecb(&self, task: &mut Task, ecb: u32) -> u32
        requires task { MayCall self.now 1 task.old }
        requires block { ecb < length self.now.config.owners }
        ensures served { Serves 1 (test_ecb ecb) result task.old task.new }
    {
        let reply = self.test(task, Object::Ecb(ecb));
        word(reply)
    }

    /// Returns the number of 32 bits in a volume. Any task may read it.
    ///
    /// The call makes one event, which must be left, and never waits.
    ///
    /// # Examples
    ///
    /// From `crates/mv_permits/src/permits.rt`, under a latch that the task holds:
    ///
    /// ```
    /// let out = station.read_volume(task, OUT);
    /// if out >= PERMITS {
    ///     return false;
    /// }
    /// station.write_volume(rt, task, OUT, out + 1);
    /// true
    /// ```
    pub fn read_volume(&self, task: &mut Task, volume: u32) -> u32
        requires task { MayCall self.now 1 task.old }
        requires volume { volume < self.now.config.volumes }
        ensures served { Serves 1 (read_volume volume) result task.old task.new }
    {
        let reply = self.test(task, Object::Volume(volume));
        value(reply)
    }

    /// Writes a number of 32 bits to a volume. Any task may write it.
    ///
    /// A read and a write are two events, between which other tasks may write; use a latch to keep them out. The call makes one
    /// event, which must be left, and does not park.
    ///
    /// # Examples
    ///
    /// From `crates/mv_cache/src/cache.rt`, a pair of numbers under a latch that the task holds exclusively:
    ///
    /// ```
    /// station.write_volume(rt, task, LEFT, pair.left);
    /// station.write_volume(rt, task, RIGHT, pair.right);
    /// let _ = release_latch(station, rt, task, token, false);
    /// ```
    pub fn write_volume<R: Wait>(&self, rt: &R, task: &mut Task, volume: u32, number: u32)
        requires task { MayCall self.now 1 task.old }
        requires volume { volume < self.now.config.volumes }
        ensures served { Serves 1 (write_volume volume number) tt task.old task.new }
    {
        self.event(
            rt,
            task,
            Object::Volume(volume),
            Op::Volume(VolumeOp::Write(number)),
        );
    }
}
