//! A latch set and its operations. Clauses cite `specs/LatchSet.antt` and `specs/Latch.antt`; `specs/Inside.antt` has the
//! invariant and what contracts see of a set.

ghost use Rattle.std.specs.Prelude.{◌≡◌, ◌<◌, ◌≤◌, ◌*◌, ◌+◌, ◌^◌, ◌↔◌, ◌++◌, map, length, vec_len, vec_capacity};
ghost use Rattle.std.specs.Prelude.{IsTrue, IsSome, IfSome, OnSome, IfNone, IfOk};
ghost use Rattle.std.specs.List.{flat_map};
ghost use Rattle.mv_latch.specs.Request.{of_caller, of_requestor};
ghost use Rattle.mv_latch.specs.Latch.{obtain_step, confirm_reply, release_step, purged, granted_by_purge};
ghost use Rattle.mv_latch.specs.Selection.{selects};
ghost use Rattle.mv_latch.specs.LatchSet.{opened, at_latch, list_of, count_in, IsNewId, is_within_quotas, latch_admitted};
ghost use Rattle.mv_latch.specs.LatchSet.{latch_step, wakes as wakes_of};

use crate::lists::{count_in_all, remove_from_all, wake_all_waiting};
use crate::operation::{LatchOp, LatchReply, Wake};
use crate::queue::{confirm, obtain, release};
use crate::request::{LatchForm, Request};
use crate::selection::Selection;
use std::alloc::{AllocError, Global};
use std::marker::Model;

/// A set of latches: a list of requests for each latch, and the quotas of the callers.
///
/// Contracts see all of these as `LatchLists`. A new set is what ISGLCRT makes.
#[derive(Drop)]
pub struct LatchSet {
    lists: Vec<Vec<Request>>,
    callers: u32,
    quota: u32,
    posted: u32,
}

impl Model for LatchSet {
    ghost use Rattle.mv_latch.specs.LatchSet.{LatchLists};

    ghost Value = { LatchLists };

    ghost use Rattle.mv_latch.specs.Inside.{view_of, IsLatchSet};

    ghost view = { view_of };

    ghost invariant = { IsLatchSet };
}

impl LatchSet {
    /// Makes a set of latches without a request.
    ///
    /// Latches and callers are numbered from 0. A caller has at most `quota` requests in all lists together, at most `posted` of
    /// them in the Posted form. All memory is taken here: each list has room for `callers * quota` requests, so no later call can
    /// run out of it.
    ///
    /// # Errors
    ///
    /// `AllocError` if there is no room for `latches * callers * quota` requests.
    pub fn new(
        alloc: Global,
        latches: u32,
        callers: u32,
        quota: u32,
        posted: u32,
    ) -> Result<LatchSet, AllocError>
        requires { callers * quota < 2 ^ 32 }
        ensures { IfOk result (λ s. s ≡ opened latches callers quota posted) }
    {
        let room = callers as usize * quota as usize;
        let mut lists = Vec::with_capacity(alloc, latches as usize)?;
        for _ in 0..latches {
            lists.push(Vec::with_capacity(alloc, room)?)?;
        }
        Ok(LatchSet {
            lists,
            callers,
            quota,
            posted,
        })
    }

    /// Returns the requests of a latch, in the order of their arrival.
    ///
    /// Those that hold the latch come first: only the first request if it is exclusive, otherwise the longest prefix of shared
    /// ones. That order is this project's own.
    pub fn requests(&self, latch: u32) -> &[Request]
        requires { latch < length self.now.lists }
        ensures { result.now ≡ list_of self.now.lists latch }
    {
        &self.lists[latch as usize]
    }

    /// Returns the state of a caller's request of this number, as the operation Confirm does: Granted, Waiting, or Gone. Nothing
    /// changes.
    pub fn confirm(&self, caller: u32, latch: u32, id: u32) -> LatchReply
        requires { latch < length self.now.lists }
        ensures { result ≡ confirm_reply caller id (list_of self.now.lists latch) }
    {
        confirm(self.requests(latch), caller, id)
    }

    // Obtains a latch for a caller that is within its quotas.
    #[inline(always)]
    fn obtain(&mut self, latch: u32, request: Request) -> LatchReply
        requires latch { latch < length self.old.lists }
        requires caller { request.caller < self.old.callers }
        requires quota { count_in (of_caller request.caller) self.old.lists < self.old.quota }
        requires new_id { IsNewId request.id self.old.lists }
        ensures lists { self.new ≡ record self.old {
          lists = (at_latch self.old.lists latch (obtain_step request (list_of self.old.lists latch))).0;
        } }
        ensures reply { result ≡ (obtain_step request (list_of self.old.lists latch)).1 }
    {
        let list = &mut self.lists[latch as usize];
        obtain(list, request)
    }

    // Releases a request, and appends its wakes to `wakes`.
    #[inline(always)]
    fn release(
        &mut self,
        latch: u32,
        caller: u32,
        id: u32,
        conditional: bool,
        wakes: &mut Vec<Wake>,
    ) -> LatchReply
        requires latch { latch < length self.old.lists }
        requires room { vec_len wakes.old + self.old.callers * self.old.quota ≤ vec_capacity wakes.old }
        ensures lists { self.new ≡ record self.old {
          lists = (at_latch self.old.lists latch (release_step caller id conditional (list_of self.old.lists latch))).0;
        } }
        ensures reply { result ≡ (release_step caller id conditional (list_of self.old.lists latch)).1 }
        ensures wakes { wakes.new.items ≡ wakes.old.items ++ wakes_of caller (LatchOp.Release latch id conditional) self.old.lists }
        ensures capacity { vec_capacity wakes.new ≡ vec_capacity wakes.old }
    {
        let list = &mut self.lists[latch as usize];
        release(list, caller, id, conditional, wakes)
    }

    // Purges a requestor, and appends the wakes to `wakes`.
    fn purge(&mut self, requestor: u64, wakes: &mut Vec<Wake>) -> LatchReply
        requires { vec_len wakes.old + self.old.callers * self.old.quota ≤ vec_capacity wakes.old }
        ensures lists { self.new ≡ record self.old { lists = map (purged requestor) self.old.lists } }
        ensures reply { result ≡ LatchReply.Purged (count_in (of_requestor requestor) self.old.lists)
            (length (flat_map (granted_by_purge requestor) self.old.lists)) }
        ensures wakes { wakes.new.items ≡ wakes.old.items ++ wakes_of 0 (LatchOp.Purge requestor) self.old.lists }
        ensures capacity { vec_capacity wakes.new ≡ vec_capacity wakes.old }
    {
        let removed = count_in_all(&self.lists, Selection::Of { requestor });
        wake_all_waiting(&self.lists, requestor, wakes);
        let granted = remove_from_all(&mut self.lists, requestor, wakes);
        LatchReply::Purged {
            removed: removed as u32,
            granted,
        }
    }

    // How many requests are selected.
    fn count(&self, selection: Selection) -> usize
        ensures { result ≡ count_in (selects selection) self.now.lists }
    {
        count_in_all(&self.lists, selection)
    }

    // Whether the quotas allow a caller one more request of this form.
    fn is_within_quotas(&self, caller: u32, form: LatchForm) -> bool
        ensures { result ≡ is_within_quotas caller form self.now }
    {
        if self.count(Selection::By { caller }) >= self.quota as usize {
            return false;
        }
        match form {
            LatchForm::Posted(_) => {
                self.count(Selection::PostedBy { caller }) < self.posted as usize
            }
            LatchForm::Conditional | LatchForm::Waiting => true,
        }
    }

    // Whether a caller's operation is admitted: its latch exists, and an obtain is within the quotas.
    fn admits(&self, caller: u32, op: LatchOp) -> bool
        ensures { result ≡ latch_admitted caller op self.now }
    {
        match op {
            LatchOp::Obtain { latch, form, .. } => {
                (latch as usize) < self.lists.len() && self.is_within_quotas(caller, form)
            }
            LatchOp::Confirm { latch, .. } | LatchOp::Release { latch, .. } => {
                (latch as usize) < self.lists.len()
            }
            LatchOp::Purge { .. } => true,
        }
    }

    // Makes an admitted operation, and appends its wakes to `wakes`.
    #[inline(always)]
    fn step(&mut self, caller: u32, id: u32, op: LatchOp, wakes: &mut Vec<Wake>) -> LatchReply
        requires caller { caller < self.old.callers }
        requires new_id { IsNewId id self.old.lists }
        requires admitted { IsTrue (latch_admitted caller op self.old) }
        requires room { vec_len wakes.old + self.old.callers * self.old.quota ≤ vec_capacity wakes.old }
        ensures lists { self.new ≡ record self.old { lists = (latch_step caller id op self.old.lists).0 } }
        ensures reply { result ≡ (latch_step caller id op self.old.lists).1 }
        ensures wakes { wakes.new.items ≡ wakes.old.items ++ wakes_of caller op self.old.lists }
        ensures capacity { vec_capacity wakes.new ≡ vec_capacity wakes.old }
    {
        match op {
            LatchOp::Obtain {
                latch,
                requestor,
                mode,
                form,
            } => self.obtain(
                latch,
                Request {
                    id,
                    caller,
                    requestor,
                    mode,
                    form,
                },
            ),
            LatchOp::Confirm { latch, id } => self.confirm(caller, latch, id),
            LatchOp::Release {
                latch,
                id,
                conditional,
            } => self.release(latch, caller, id, conditional, wakes),
            LatchOp::Purge { requestor } => self.purge(requestor, wakes),
        }
    }

    /// Makes one operation of a caller, returns its reply, and lists in `wakes` the callers to notify of what it did.
    ///
    /// Returns `None`, and changes nothing, if the operation is not admitted: its latch does not exist, or an obtain's caller has
    /// used up its quota of requests, or of requests in the Posted form. A new request gets the number `id`. The call never waits
    /// and takes no memory: the caller gives `wakes` room for `callers * quota` entries. A purge goes over all lists, any other
    /// operation over one. The operations are modelled on the latch services ISGLOBT, ISGLREL and ISGLPRG of *z/OS MVS
    /// Programming: Authorized Assembler Services Guide*.
    ///
    /// # Examples
    ///
    /// From `crates/mv_task/src/tests/objects.rt`, which compares the reply and the wakes with expected ones:
    ///
    /// ```
    /// let found = self.set.apply(caller, self.next, op, &mut self.wakes);
    /// self.next += 1;
    /// assert!(rt; found == Some(reply));
    /// assert!(rt; self.wakes.as_slice() == wakes);
    /// ```
    pub fn apply(
        &mut self,
        caller: u32,
        id: u32,
        op: LatchOp,
        wakes: &mut Vec<Wake>,
    ) -> Option<LatchReply>
        requires caller { caller < self.old.callers }
        requires new_id { IsNewId id self.old.lists }
        requires room { self.old.callers * self.old.quota ≤ vec_capacity wakes.old }

        ensures admitted { IsSome result ↔ IsTrue (latch_admitted caller op self.old) }
        ensures step { IfSome result (λ reply. (self.new.lists, reply) ≡ latch_step caller id op self.old.lists) }
        ensures wakes { OnSome result (wakes.new.items ≡ wakes_of caller op self.old.lists) }

        // An operation that is not admitted changes nothing.
        ensures kept { IfNone result (self.new ≡ self.old) }
        ensures wakes_kept { IfNone result (wakes.new.items ≡ wakes.old.items) }

        // The quotas, and the capacity of `wakes`, do not change.
        ensures quotas { self.new ≡ record self.old { lists = self.new.lists } }
        ensures capacity { vec_capacity wakes.new ≡ vec_capacity wakes.old }
    {
        if !self.admits(caller, op) {
            return None;
        }
        Some(self.apply_admitted(caller, id, op, wakes))
    }

    /// Makes one operation of a caller as `apply` does, for a caller that knows that it is admitted: it counts no quotas.
    #[inline(always)]
    pub fn apply_admitted(
        &mut self,
        caller: u32,
        id: u32,
        op: LatchOp,
        wakes: &mut Vec<Wake>,
    ) -> LatchReply
        requires caller { caller < self.old.callers }
        requires new_id { IsNewId id self.old.lists }
        requires room { self.old.callers * self.old.quota ≤ vec_capacity wakes.old }
        requires admitted { IsTrue (latch_admitted caller op self.old) }

        ensures step { (self.new.lists, result) ≡ latch_step caller id op self.old.lists }
        ensures wakes { wakes.new.items ≡ wakes_of caller op self.old.lists }

        // The quotas, and the capacity of `wakes`, do not change.
        ensures quotas { self.new ≡ record self.old { lists = self.new.lists } }
        ensures capacity { vec_capacity wakes.new ≡ vec_capacity wakes.old }
    {
        wakes.clear();
        self.step(caller, id, op, wakes)
    }
}
