//! A task: a caller, and what it keeps of its entries. Clauses cite `specs/Task.antt`, `specs/Keep.antt`, `Faces.antt` of
//! mv_board, and `Keeping.antt` of mv_calls.

ghost use Rattle.std.specs.Prelude.{◌≡◌, ◌<◌, ◌≤◌};
ghost use Rattle.std.specs.List.{AllByRecursion};
ghost use Rattle.mv_calls.specs.Prelude.{events_limit, highest_generation, Setup};
ghost use Rattle.mv_board.specs.Faces.{last_of};

use crate::backoff::Backoff;
use crate::keep::{Keep, OwnElement, key_of, posting_count};
use mv_board::Caller;
use mv_latch::Wake;
use mv_machine::OpenLog;
use std::marker::Model;

/// One task of a station.
///
/// One thread owns it at a time, and no other task's call changes anything in it. None of its methods makes an event or waits.
#[derive(Drop)]
pub struct Task {
    pub(crate) caller: Caller,
    pub(crate) keep: Keep,
    pub(crate) backoff: Backoff,
    // The blocks that a call has still to post, the next one last.
    pub(crate) pending: Vec<u32>,
    // A place for each block, where a wait notes the block's position in its list.
    pub(crate) places: Vec<u32>,
}

impl Model for Task {
    ghost use Rattle.mv_board.specs.Faces.{CallerFace};
    ghost use Rattle.mv_wait.specs.Task.{IsTask};

    ghost Value = { CallerFace };

    ghost view = { λ t. t.caller };

    ghost invariant = { IsTask };
}

impl Task {
    /// Returns the task's number, which is counted from 0 and below the configuration's `callers`.
    ///
    /// # Examples
    ///
    /// From `crates/mv_dining/src/dining.rt`, a philosopher's two forks:
    ///
    /// ```
    /// let left = task.number();
    /// let right = (left + 1) % PHILOSOPHERS;
    /// let low = left.min(right);
    /// let high = left.max(right);
    /// ```
    pub fn number(&self) -> u32
        ensures number { result ≡ self.now.number }
        ensures exists { AllByRecursion (λ (s : Setup). result < s.callers) self.now.about }
    {
        self.caller.number()
    }

    /// Returns how many events the task may still make: its budget less its entries. All tasks together may make at most 524,287
    /// (`EVENTS_LIMIT`).
    ///
    /// # Examples
    ///
    /// From `crates/mv_tests/src/tests/polls.rt`, which asserts that the events of a wait are left:
    ///
    /// ```
    /// assert!(rt; waiter.left() >= 6);
    /// let mut call = a_wait(rt, rt.alloc(), station, waiter, 2, &[0, 1, 2]);
    /// ```
    pub fn left(&self) -> u32
        ensures left { result ≡ self.now.left }
        ensures few { result ≤ events_limit }
    {
        self.caller.left()
    }

    /// Returns the task's entries so far, in order.
    ///
    /// # Examples
    ///
    /// From `crates/mv_tests/src/tests/polls.rt`, which compares each entry with an expected one:
    ///
    /// ```
    /// let log = task.log();
    /// assert!(rt; log.len() == made.len());
    /// for at in 0..made.len() {
    ///     let entry = log.get(at).expect(rt, "an entry");
    ///     assert!(rt; (entry.op, rung(&entry)) == made[at]);
    /// }
    /// ```
    pub fn log(&self) -> &OpenLog
        ensures { result.now.entries ≡ self.now.log }
    {
        self.caller.log()
    }

    /// Returns the wakes of the task's last event on the latch set, in order; none before the first such event.
    ///
    /// # Examples
    ///
    /// From `crates/mv_latchset/src/waking.rt`, which wakes the tasks after a release of a latch:
    ///
    /// ```
    /// let count = task.wakes().len();
    /// for i in 0..count {
    ///     let wake = wake_at(task, i);
    ///     post_wake(station, rt, task, wake);
    /// }
    /// ```
    pub fn wakes(&self) -> &[Wake]
        ensures wakes { result.now ≡ self.now.wakes }
        ensures last { result.now ≡ last_of self.now.told }
    {
        self.caller.wakes()
    }

    // Returns the task's caller, which the board takes back at its end.
    pub(crate) fn into_caller(self) -> Caller
        ensures { result ≡ self }
    {
        let Task { caller, .. } = self;
        caller
    }
}

impl Task {
    ghost use Rattle.std.specs.Prelude.{◌<◌, ◌∷◌, [], ◌==◌, length, filter, is_some};
    ghost use Rattle.std.specs.List.{list_any};
    ghost use Rattle.mv_calls.specs.Prelude.{is_posting, standing, Setup, element_owner, kept_of};

    /// Returns whether the task holds a block extended: from an `extend` that returned `Ok` until its `clear`. The block must be
    /// one of the configuration's.
    ///
    /// # Examples
    ///
    /// From `crates/mv_task/src/tests.rt`, which asserts that the task may wait for a block:
    ///
    /// ```
    /// assert!(rt; station.config().ecb_owner(ecb) == task.number());
    /// assert!(rt; !task.extended(ecb));
    /// assert!(rt; task.left() >= 3);
    /// ```
    pub fn extended(&self, ecb: u32) -> bool
        requires { (s : Setup) × (self.now.about ≡ s ∷ []) × (ecb < length s.owners) }
        ensures { result ≡ (kept_of self.now.number self.now.log).extended ecb }
    {
        self.keep.extended[ecb as usize]
    }

    /// Returns whether an element of the task is in use: from its `allocate` until it is deallocated. The element must be the
    /// task's own.
    ///
    /// # Examples
    ///
    /// From `crates/mv_task/src/ending.rt`, which gives back an element if it is in use:
    ///
    /// ```
    /// if !task.in_use(element) {
    ///     return;
    /// }
    /// ```
    pub fn in_use(&self, element: u32) -> bool
        requires { (s : Setup) × (self.now.about ≡ s ∷ []) × (element_owner s element ≡ self.now.number) }
        ensures { result ≡ (kept_of self.now.number self.now.log).in_use element }
    {
        self.element(element).in_use
    }

    /// Returns the generation, of 18 bits, of an element of the task, in use or not. The token of its next pause has this
    /// generation. The element must be the task's own.
    ///
    /// # Examples
    ///
    /// From `crates/mv_task/src/ending.rt`, the token of the next pause of an element:
    ///
    /// ```
    /// let token = Token {
    ///     element,
    ///     generation: task.generation(element),
    /// };
    /// ```
    pub fn generation(&self, element: u32) -> u32
        requires { (s : Setup) × (self.now.about ≡ s ∷ []) × (element_owner s element ≡ self.now.number) }
        ensures kept { result ≡ (kept_of self.now.number self.now.log).generation element }
        ensures low { result ≤ highest_generation }
    {
        self.element(element).generation
    }

    /// Returns how many standing latch requests the task has, granted or waiting, by its own log: at most the configuration's
    /// `quota`.
    ///
    /// A request that another task purged still counts until this task learns of that.
    ///
    /// # Examples
    ///
    /// From `crates/mv_latchset/src/obtaining.rt`, which refuses a request that is over the quota:
    ///
    /// ```
    /// if task.standing() >= config.quota {
    ///     return true;
    /// }
    /// ```
    pub fn standing(&self) -> u32
        ensures count { result ≡ length (kept_of self.now.number self.now.log).requests }
        ensures kept { (kept_of self.now.number self.now.log).requests ≡ standing self.now.log }
    {
        self.keep.requests.len() as u32
    }

    /// Returns how many of the standing requests have the Posted form: at most the configuration's `posted_quota`.
    ///
    /// # Examples
    ///
    /// From `crates/mv_latchset/src/obtaining.rt`, which refuses a request of the Posted form that is over the quota:
    ///
    /// ```
    /// LatchForm::Posted(_) => task.standing_posted() >= config.posted_quota,
    /// ```
    pub fn standing_posted(&self) -> u32
        ensures { result ≡ length (filter is_posting (kept_of self.now.number self.now.log).requests) }
    {
        posting_count(&self.keep.requests)
    }

    /// Returns the slab key of the task's standing request of this number, if there is one.
    ///
    /// # Examples
    ///
    /// From `crates/mv_task/src/tests/latches.rt`, after the first of three requests was released:
    ///
    /// ```
    /// let keys = [task.key(first.id), task.key(second.id), task.key(third.id)];
    /// assert!(rt; keys == [None, Some(1), Some(0)]);
    /// ```
    pub fn key(&self, id: u32) -> Option<usize>
        ensures { is_some result ≡ list_any (λ t. t.request.id == id) (kept_of self.now.number self.now.log).requests }
    {
        key_of(&self.keep.requests, id)
    }
}

impl Task {
    ghost use Rattle.std.specs.Prelude.{◌^◌, ◌∷◌, [], true, length, option_map, slice_index, IfSome};
    ghost use Rattle.mv_calls.specs.Prelude.{Setup, element_owner, kept_of, ExtendedAt, refused_at};
    ghost use Rattle.mv_wait.specs.Keep.{IsKeptAs};

    // The first position in this list whose block the task holds extended.
    #[inline(always)]
    pub(crate) fn first_extended(&self, ecbs: &[u32]) -> Option<u32>
        requires few { length ecbs.now < 2 ^ 32 }
        requires blocks { (s : Setup) × (self.now.about ≡ s ∷ []) × AllByRecursion (λ e. e < length s.owners) ecbs.now }
        ensures first { option_map (λ p. ExtendedAt p) result
            ≡ refused_at ExtendedAt (kept_of self.now.number self.now.log).extended 0 ecbs.now }
        ensures held { IfSome result (λ p. (kept_of self.now.number self.now.log).extended (slice_index ecbs.now p) ≡ true) }
    {
        for p in 0..ecbs.len() {
            if self.extended(ecbs[p]) {
                return Some(p as u32);
            }
        }
        None
    }

    // What the task keeps of an element of its own.
    fn element(&self, element: u32) -> OwnElement
        requires { (s : Setup) × (self.now.about ≡ s ∷ []) × (element_owner s element ≡ self.now.number) }
        ensures kept { IsKeptAs (kept_of self.now.number self.now.log) element result }
        ensures low { result.generation ≤ highest_generation }
    {
        self.keep.elements[(element - self.keep.first) as usize]
    }
}
