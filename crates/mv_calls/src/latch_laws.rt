//! What a task knows by its own log of its latch requests and of the wakes that it is shown, whatever others do: laws by the
//! machine's specs/Waking.antt, specs/Leaving.antt and specs/Replies.antt, and by specs/Behind.antt and specs/Rest.antt.
ghost use Rattle.std.specs.Prelude.{◌≡◌, ◌↔◌, ◌⊎◌, ◌≤◌, ◌++◌, ◌∷◌, ℕ, true, Bool, List, []};
ghost use Rattle.std.specs.List.{Contains};
ghost use Rattle.mv_machine.specs.Prelude.{LatchOp, Wake, Request, granted, count_in, list_of, wakes, of_caller, posted_of};
ghost use Rattle.mv_machine.specs.Prelude.{StandingRequest, standing, NoneTakesOut, WasPurged, HasNoEarlyConfirm, Legal, after};
ghost use Rattle.mv_machine.specs.Prelude.{of, IsGranted, IsGone, IsPossible, OnLatch, IsLatchReply, CountsWakes, Setup, IsFair};
ghost use Rattle.mv_machine.specs.Prelude.{AreFairWakes};
ghost use Rattle.mv_latch.specs.declared.operation.LatchOp.TheVariants.{Confirm, Release};
ghost use Rattle.mv_latch.specs.declared.operation.LatchReply.TheVariants.{Granted, Gone, Released};
ghost use Rattle.mv_latch.specs.declared.request.LatchForm.TheVariants.{Waiting};
ghost use Rattle.mv_machine.specs.declared.entry.Op.TheVariants as op_on;
ghost use Rattle.mv_machine.specs.declared.entry.Reply.TheVariants as reply_of;
ghost use Rattle.mv_calls.specs.Prelude.{Entry, Latches, IsEvent, IsAtRest, open_waits};

/// Shows the ranges of the wakes of an event after a legal list, and so of the wakes that a caller is shown. Each wake is for a
/// caller and has code 0 or 1, and its block, if it has one, exists and is that caller's. At most as many wakes post a block as
/// the quotas allow. If the cost of a release did not saturate, the sum of the reaches of their blocks is below it.
pub fn wakes_are_in_range()
    ensures wakes { (c : Setup) (es : List Entry) (k : ℕ) (op : LatchOp) → Legal c es
        → AreFairWakes c (wakes k op (after c es).latches.state) }
    ensures heard { (c : Setup) (k : ℕ) (log : List Entry) (e : Entry) (op : LatchOp) (shown : List (List Wake)) (ws : List Wake)
        → IsPossible c k (log ++ e ∷ []) (shown ++ ws ∷ []) → e.object ≡ Latches → e.op ≡ op_on.Latch op → AreFairWakes c ws }
{}

/// Shows that after a legal list each caller has at most its quota of requests in the lists, and at most its quota of requests
/// of the Posted form; and that each request is a caller's, and names only a block that exists and is that caller's, if it
/// names one.
pub fn quotas_hold()
    ensures all { (c : Setup) (es : List Entry) (k : ℕ) → Legal c es → count_in (of_caller k) (after c es).latches.state ≤ c.quota }
    ensures posted { (c : Setup) (es : List Entry) (k : ℕ) → Legal c es
        → count_in (posted_of k) (after c es).latches.state ≤ c.posted_quota }
    ensures requests { (c : Setup) (es : List Entry) (latch : ℕ) (q : Request) → Legal c es
        → Contains (list_of (after c es).latches.state latch) q → IsFair c q }
{}

/// Shows that a request that is standing by its caller's entries is in its latch's list, unless another caller purged its
/// requestor meanwhile. A confirm or a release finds the request gone exactly if another caller did.
pub fn requests_leave_by_purges()
    ensures listed { (c : Setup) (k : ℕ) (t : StandingRequest) (es : List Entry) → Legal c es → Contains (standing (of k es)) t
        → Contains (list_of (after c es).latches.state t.latch) t.request ⊎ WasPurged k t es }
    ensures gone { (c : Setup) (k : ℕ) (t : StandingRequest) (es : List Entry) → Legal c es → Contains (standing (of k es)) t
        → (IsGone k t.latch t.request.id (after c es) ↔ WasPurged k t es) }
    ensures confirm { (c : Setup) (es : List Entry) (e : Entry) (t : StandingRequest)
        → IsEvent c es e Latches (op_on.Latch (Confirm t.latch t.request.id)) → Contains (standing (of e.caller es)) t
        → ((e.reply ≡ reply_of.Latch Gone) ↔ WasPurged e.caller t es) }
    ensures release { (c : Setup) (es : List Entry) (e : Entry) (t : StandingRequest) (conditional : Bool)
        → IsEvent c es e Latches (op_on.Latch (Release t.latch t.request.id conditional)) → Contains (standing (of e.caller es)) t
        → ((e.reply ≡ reply_of.Latch Gone) ↔ WasPurged e.caller t es) }
{}

/// Shows the replies of the latch set: each operation has its own. A confirm of a granted request gets Granted, and of a
/// request that is gone Gone; a release of a granted request gets Released. A release that releases has as many wakes as its
/// reply says, and any other release has none.
pub fn latches_answer()
    ensures replies { (c : Setup) (es : List Entry) (e : Entry) (op : LatchOp) → IsEvent c es e Latches (op_on.Latch op)
        → OnLatch (IsLatchReply (after c es).latches.place op) e.reply }
    ensures release_wakes { (c : Setup) (es : List Entry) (e : Entry) (latch id : ℕ) (conditional : Bool)
        → IsEvent c es e Latches (op_on.Latch (Release latch id conditional))
        → OnLatch (CountsWakes (wakes e.caller (Release latch id conditional) (after c es).latches.state)) e.reply }
    ensures confirm_granted { (c : Setup) (es : List Entry) (e : Entry) (latch id : ℕ)
        → IsEvent c es e Latches (op_on.Latch (Confirm latch id)) → IsGranted e.caller latch id (after c es)
        → e.reply ≡ reply_of.Latch (Granted id) }
    ensures confirm_gone { (c : Setup) (es : List Entry) (e : Entry) (latch id : ℕ)
        → IsEvent c es e Latches (op_on.Latch (Confirm latch id)) → IsGone e.caller latch id (after c es)
        → e.reply ≡ reply_of.Latch Gone }
    ensures release_granted { (c : Setup) (es : List Entry) (e : Entry) (latch id : ℕ) (conditional : Bool)
        → IsEvent c es e Latches (op_on.Latch (Release latch id conditional)) → IsGranted e.caller latch id (after c es)
        → (n : ℕ) × (e.reply ≡ reply_of.Latch (Released n)) }
{}

/// Shows that a standing request of the Waiting form, if it is in the lists and its caller did not confirm it too soon, is
/// granted or has its wait open. So if the caller is at rest, the request is granted or was purged.
pub fn requests_at_rest()
    ensures queued { (c : Setup) (k : ℕ) (t : StandingRequest) (es : List Entry) → t.request.form ≡ Waiting → Legal c es
        → Contains (standing (of k es)) t → HasNoEarlyConfirm t (of k es)
        → Contains (list_of (after c es).latches.state t.latch) t.request
        → ((open_waits (of k es)).queued t.latch t.request.id ≡ true)
        ⊎ Contains (granted (list_of (after c es).latches.state t.latch)) t.request }
    ensures at_rest { (c : Setup) (k : ℕ) (t : StandingRequest) (es : List Entry) → t.request.form ≡ Waiting → Legal c es
        → Contains (standing (of k es)) t → HasNoEarlyConfirm t (of k es) → IsAtRest (of k es)
        → IsGranted k t.latch t.request.id (after c es) ⊎ WasPurged k t es }
    // So a confirm of the request by a caller at rest does not come too soon.
    ensures confirm { (c : Setup) (es : List Entry) (e : Entry) (t : StandingRequest) → t.request.form ≡ Waiting
        → IsEvent c es e Latches (op_on.Latch (Confirm t.latch t.request.id)) → Contains (standing (of e.caller es)) t
        → HasNoEarlyConfirm t (of e.caller es) → IsAtRest (of e.caller es)
        → (e.reply ≡ reply_of.Latch (Granted t.request.id)) ⊎ (e.reply ≡ reply_of.Latch Gone) }
{}

/// Shows that a request stays in its latch's list until its caller releases it or its requestor is purged. A request that was
/// granted, and is standing by its caller's entries, is still granted, unless another caller purged its requestor meanwhile.
pub fn requests_stay()
    ensures listed { (c : Setup) (xs ys : List Entry) (t : StandingRequest) → Legal c (xs ++ ys) → NoneTakesOut t ys
        → Contains (list_of (after c xs).latches.state t.latch) t.request
        → Contains (list_of (after c (xs ++ ys)).latches.state t.latch) t.request }
    ensures held { (c : Setup) (xs ys : List Entry) (k : ℕ) (t : StandingRequest) → Legal c (xs ++ ys)
        → Contains (standing (of k (xs ++ ys))) t → IsGranted k t.latch t.request.id (after c xs)
        → IsGranted k t.latch t.request.id (after c (xs ++ ys)) ⊎ WasPurged k t (xs ++ ys) }
{}
