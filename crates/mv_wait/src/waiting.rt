//! Waits for events. Clauses cite `Waits.antt` of mv_calls, and `specs/Run.antt`, `specs/Answers.antt`, `specs/Waiting.antt` and
//! `specs/Ready.antt`.

ghost use Rattle.std.specs.Prelude.{◌≡◌, ◌<◌, ◌≤◌, ◌*◌, ◌^◌, ◌==◌, not, [], ◌∷◌, true, length, take, option_map, Some, None};
ghost use Rattle.std.specs.Prelude.{IfOk, IfErr, IfSome, MatchResult};
ghost use Rattle.std.specs.List.{AllByRecursion};
ghost use Rattle.mv_calls.specs.Prelude.{owner_of, kept_of, IsAtRest, wait, wait_refusal, complete_count, doubled_at, refused_at};
ghost use Rattle.mv_calls.specs.Prelude.{AreDistinct, Doubled, NotOwnerAt};
ghost use Rattle.mv_board.specs.Faces.{IsOf};
ghost use Rattle.mv_wait.specs.Answers.{wait_answer, wait_refused};
ghost use Rattle.mv_wait.specs.Begun.{IfOver, MatchBegun};
ghost use Rattle.mv_wait.specs.Ready.{has_ready, ready_count, AreReadyBut};
ghost use Rattle.mv_wait.specs.Run.{Went, Serves, MayCall};
ghost use Rattle.mv_wait.specs.Waiting.{IsArmed, IsArmedFor, ArePlain, AreOwn, AreOwnUpTo, ArmsAll, SettlesEnough, IsBlockSettled};
ghost use Rattle.mv_wait.specs.Waiting.{IsComplete, NamesSource, HasLowCode};

use crate::backoff::Backoff;
use crate::begun::Begun;
use crate::replies::slot;
use crate::station::Station;
use crate::task::Task;
use mv_board::{Caller, Watch};
use mv_calls::WaitSlot;
use mv_ecb::EcbOp;
use mv_machine::{Object, Op, ValidConfig};
use std::sync::Wait;
use std::time::Clock;
use thiserror::Error;

/// The reason for which a wait was refused. Positions count from 0.
#[derive(Clone, Copy, Debug, PartialEq, Eq, Error)]
pub enum WaitRefusal {
    /// The list is shorter than the count.
    #[error("the list is shorter than the count")]
    TooMany,
    /// The block at this position is also earlier in the list.
    #[error("the block at position {0} is also earlier in the list")]
    Doubled(u32),
    /// The block at this position is another caller's.
    #[error("the block at position {0} is another caller's")]
    NotOwner(u32),
    /// The block at this position is extended.
    #[error("the block at position {0} is extended")]
    Extended(u32),
}

impl Station {
    /// Waits until at least `count` of these blocks are complete, and reports in `out`, for each block, whether it is complete
    /// and with which code of 30 bits.
    ///
    /// `out` has a slot for each block. The wait makes two events a block, which must be left. It parks until enough blocks are
    /// complete: not at all if they already are, and for ever if no task posts them. With a count of 0 it does not wait, and only
    /// reports.
    ///
    /// A block is ready once the wait has seen it complete; the wait does not look at it again. Each time it looks, it stops as
    /// soon as it has found one more open block than may stay open (the length of the list less `count`), since then the wait is
    /// not over. So a wait for all of its blocks looks once at each block, and once more for each time that it looked and the wait
    /// was not over.
    ///
    /// # Errors
    ///
    /// The first refusal that applies, in the order of `WaitRefusal`. Then no event is made, and `out` is unchanged.
    ///
    /// # Examples
    ///
    /// From `crates/mv_server/src/server.rt`, a server that waits until any of its workers is idle:
    ///
    /// ```
    /// let mut found = [WaitSlot::Open; WORKERS as usize];
    /// // All of these blocks are the server's, and none is extended.
    /// let Ok(()) = station.wait(rt, task, 1, &IDLE, &mut found) else {
    ///     unreachable!()
    /// };
    /// ```
    #[inline(always)]
    pub fn wait<R: Wait + Clock>(
        &self,
        rt: &R,
        task: &mut Task,
        count: u32,
        ecbs: &[u32],
        out: &mut [WaitSlot],
    ) -> Result<(), WaitRefusal>
        requires task { MayCall self.now (2 * length ecbs.now) task.old }
        requires blocks { AllByRecursion (λ e. e < length self.now.config.owners) ecbs.now }
        requires out { length out.old ≡ length ecbs.now }
        ensures served { Serves (2 * length ecbs.now) (wait self.now.config count ecbs.now)
            (wait_answer result out.new) task.old task.new }
        ensures causes { MatchResult result
            (λ _. wait_refusal self.now.config count ecbs.now (kept_of task.old.number task.old.log) ≡ None)
            (λ why. (wait_refusal self.now.config count ecbs.now (kept_of task.old.number task.old.log) ≡ Some (wait_refused why))
            × (task.new ≡ task.old) × (out.new ≡ out.old)) }
        ensures exit { IfErr result (NamesSource self.now.config ecbs.now) }
        ensures enough { IfOk result (λ _. count ≤ complete_count out.new) }
        ensures codes { IfOk result (λ _. AllByRecursion HasLowCode out.new) }
    {
        if let Begun::Over(refusal) = self.begin_wait(rt, task, count, ecbs) {
            return Err(refusal);
        }
        self.await_complete(
            rt,
            &mut task.caller,
            &mut task.places,
            &task.backoff,
            count,
            ecbs,
        );
        self.end_wait(rt, task, count, ecbs, out);
        Ok(())
    }

    /// Begins a wait, for a call that does not park: arms each block, unless the wait is refused.
    ///
    /// The call makes one event a block, and as many more must be left for `end_wait`, which is the only call that ends such a
    /// wait.
    ///
    /// # Errors
    ///
    /// The wait is over only if it is refused, in the cases in which `wait` is. Then no event is made.
    ///
    /// # Examples
    ///
    /// From `crates/mv_polled/src/waiting.rt`, the first poll of a wait:
    ///
    /// ```
    /// if let Begun::Over(refusal) = station.begin_wait(rt, task, self.count, &self.ecbs) {
    ///     self.refuse();
    ///     return Turn::Ready(Err(refusal));
    /// }
    /// self.stage = Stage::Waits;
    /// self.go_on(station, rt, task)
    /// ```
    #[inline(always)]
    pub fn begin_wait<R: Wait>(
        &self,
        rt: &R,
        task: &mut Task,
        count: u32,
        ecbs: &[u32],
    ) -> Begun<WaitRefusal, ()>
        requires task { MayCall self.now (2 * length ecbs.now) task.old }
        requires blocks { AllByRecursion (λ e. e < length self.now.config.owners) ecbs.now }
        ensures begun { MatchBegun result
            (λ why. (wait_refusal self.now.config count ecbs.now (kept_of task.old.number task.old.log) ≡ Some (wait_refused why))
            × (task.new ≡ task.old))
            (λ _. IsArmed self.now.config count ecbs.now task.old task.new) }
        ensures exit { IfOver result (NamesSource self.now.config ecbs.now) }
    {
        if let Some(refusal) = self.refuses_wait(task, count, ecbs) {
            return Begun::Over(refusal);
        }
        self.arm_all(rt, task, ecbs);
        Begun::Waits(())
    }

    /// Ends a wait that `begin_wait` began, once at least `count` of its blocks are ready: settles each block.
    ///
    /// `out` has a slot for each block. It makes one event a block, which must be left.
    ///
    /// # Examples
    ///
    /// From `crates/mv_polled/src/waiting.rt`, a later poll; `keys` has an element for each block that is not complete:
    ///
    /// ```
    /// if self.ecbs.len() - self.keys.len() < self.count as usize {
    ///     return Turn::Pending;
    /// }
    /// self.keys.clear();
    /// station.end_wait(rt, task, self.count, &self.ecbs, &mut self.found);
    /// ```
    #[inline(always)]
    pub fn end_wait<R: Wait>(
        &self,
        rt: &R,
        task: &mut Task,
        count: u32,
        ecbs: &[u32],
        out: &mut [WaitSlot],
    )
        requires task { IsOf self.now task.old }
        requires waits { IsArmedFor ecbs.now task.old.log }
        requires own { AreOwn self.now.config task.old.number ecbs.now }
        requires plain { ArePlain task.old ecbs.now }
        requires distinct { AreDistinct ecbs.now }
        requires ready { count ≤ ready_count task.old.ready ecbs.now }
        requires out { length out.old ≡ length ecbs.now }
        requires left { length ecbs.now ≤ task.old.left }
        ensures settled { SettlesEnough count ecbs.now out.new task.old task.new }
        ensures codes { AllByRecursion HasLowCode out.new }
        ensures rest { IsAtRest task.new.log }
        ensures size { length out.new ≡ length out.old }
    {
        for i in 0..ecbs.len() {
            out[i] = self.settle(rt, task, ecbs[i]);
        }
    }

    // The reason for which a wait is refused, if there is one.
    #[inline(always)]
    fn refuses_wait(&self, task: &mut Task, count: u32, ecbs: &[u32]) -> Option<WaitRefusal>
        requires task { IsOf self.now task.old }
        requires blocks { AllByRecursion (λ e. e < length self.now.config.owners) ecbs.now }
        requires few { 2 * length ecbs.now ≤ task.old.left }
        ensures refusal { option_map wait_refused result
            ≡ wait_refusal self.now.config count ecbs.now (kept_of task.old.number task.old.log) }
        ensures exit { IfSome result (NamesSource self.now.config ecbs.now) }
        ensures same { task.new ≡ task.old }
    {
        let number = task.number();
        if ecbs.len() < count as usize {
            return Some(WaitRefusal::TooMany);
        }
        if let Some(p) = doubled(&mut task.places, ecbs) {
            return Some(WaitRefusal::Doubled(p));
        }
        if let Some(p) = not_owned(self.board.config(), number, ecbs) {
            return Some(WaitRefusal::NotOwner(p));
        }
        if let Some(p) = task.first_extended(ecbs) {
            return Some(WaitRefusal::Extended(p));
        }
        None
    }

    // Arms each block.
    #[inline(always)]
    fn arm_all<R: Wait>(&self, rt: &R, task: &mut Task, ecbs: &[u32])
        requires task { MayCall self.now (length ecbs.now) task.old }
        requires own { AreOwn self.now.config task.old.number ecbs.now }
        requires plain { ArePlain task.old ecbs.now }
        requires distinct { AreDistinct ecbs.now }
        ensures armed { ArmsAll ecbs.now task.old task.new }
        ensures waits { IsArmedFor ecbs.now task.new.log }
        ensures plain { ArePlain task.new ecbs.now }
    {
        for ecb in ecbs {
            self.event(rt, task, Object::Ecb(*ecb), Op::Ecb(EcbOp::Arm));
        }
    }

    // Parks until `count` of the blocks are complete. The first places of `places` have the blocks that are not ready yet. If one
    // more of these is open than may stay open, the wait is not over, whatever the others are.
    #[inline(always)]
    fn await_complete<R: Wait + Clock>(
        &self,
        rt: &R,
        caller: &mut Caller,
        places: &mut [u32],
        backoff: &Backoff,
        count: u32,
        ecbs: &[u32],
    )
        requires task { IsOf self.now caller.old }
        requires own { AreOwn self.now.config caller.old.number ecbs.now }
        requires distinct { AreDistinct ecbs.now }
        requires count { count ≤ length ecbs.now }
        requires places { length places.old ≡ length self.now.config.owners }
        ensures went { Went [] caller.old caller.new }
        ensures ready { count ≤ ready_count caller.new.ready ecbs.now }
        ensures places { length places.new ≡ length places.old }
    {
        let spare = ecbs.len() - count as usize;
        let mut unready = ecbs.len();
        put_first(places, ecbs);
        backoff.reset();
        for _ in rt.forever() {
            unready = self.look_at_unready(rt, caller, places, unready, spare, ecbs);
            if unready <= spare {
                return;
            }
            backoff.snooze(rt);
        }
    }

    // Looks at the blocks that are not ready, which are the first `unready` ones of `places`, until one more than `spare`
    // are found open, or at most `spare` are left. A block that is complete is replaced by the last of them. Returns how many are
    // left.
    #[inline(always)]
    fn look_at_unready<R: Wait>(
        &self,
        rt: &R,
        caller: &mut Caller,
        places: &mut [u32],
        mut unready: usize,
        spare: usize,
        ecbs: &[u32],
    ) -> usize
        requires task { IsOf self.now caller.old }
        requires size { unready ≤ length places.old }
        requires own { AreOwnUpTo self.now.config caller.old.number places.old unready }
        requires ready { AreReadyBut places.old unready caller.old.ready ecbs.now }
        ensures went { Went [] caller.old caller.new }
        ensures places { length places.new ≡ length places.old }
        ensures size { result ≤ unready }
        ensures own { AreOwnUpTo self.now.config caller.new.number places.new result }
        ensures ready { AreReadyBut places.new result caller.new.ready ecbs.now }
    {
        let mut open = 0;
        while open <= spare && spare < unready {
            if self.board.peek(rt, caller, Watch::Ecb(places[open])) {
                unready -= 1;
                places[open] = places[unready];
            } else {
                open += 1;
            }
        }
        unready
    }

    // Settles one block.
    #[inline(always)]
    fn settle<R: Wait>(&self, rt: &R, task: &mut Task, ecb: u32) -> WaitSlot
        requires task { IsOf self.now task.old }
        requires own { AreOwn self.now.config task.old.number (ecb ∷ []) }
        requires plain { ArePlain task.old (ecb ∷ []) }
        requires left { 0 < task.old.left }
        ensures settled { IsBlockSettled ecb task.old result task.new }
        ensures code { HasLowCode result }
        ensures complete { has_ready task.old.ready ecb ≡ true → IsComplete result }
    {
        let reply = self.event(rt, task, Object::Ecb(ecb), Op::Ecb(EcbOp::Settle));
        slot(reply)
    }
}

// The first position whose block is also earlier in the list. `places` has a place for each block, which may be left from earlier
// calls: it counts only if the list has that block at that place.
#[inline(always)]
fn doubled(places: &mut [u32], ecbs: &[u32]) -> Option<u32>
    requires few { length ecbs.now < 2 ^ 32 }
    requires blocks { AllByRecursion (λ e. e < length places.old) ecbs.now }
    ensures first { option_map (λ p. Doubled p) result ≡ doubled_at [] 0 ecbs.now }
    ensures size { length places.new ≡ length places.old }
{
    for p in 0..ecbs.len() {
        let ecb = ecbs[p];
        let place = places[ecb as usize] as usize;
        if place < p && ecbs[place] == ecb {
            return Some(p as u32);
        }
        places[ecb as usize] = p as u32;
    }
    None
}

// Puts these blocks first.
#[inline(always)]
fn put_first(places: &mut [u32], ecbs: &[u32])
    requires size { length ecbs.now ≤ length places.old }
    ensures size { length places.new ≡ length places.old }
    ensures first { take (length ecbs.now) places.new ≡ ecbs.now }
{
    for p in 0..ecbs.len() {
        places[p] = ecbs[p];
    }
}

// The first position whose block is another caller's.
#[inline(always)]
fn not_owned(config: &ValidConfig, caller: u32, ecbs: &[u32]) -> Option<u32>
    requires few { length ecbs.now < 2 ^ 32 }
    requires blocks { AllByRecursion (λ e. e < length config.now.owners) ecbs.now }
    ensures { option_map (λ p. NotOwnerAt p) result ≡ refused_at NotOwnerAt (λ e. not (owner_of config.now e == caller)) 0 ecbs.now }
{
    for p in 0..ecbs.len() {
        if !config.owns_ecb(caller, ecbs[p]) {
            return Some(p as u32);
        }
    }
    None
}
