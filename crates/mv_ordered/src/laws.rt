//! Deadlock freedom by lock order, for any program. `specs/LatchOrder.antt` defines the discipline of each caller, and
//! `specs/WaitChain.antt` which caller waits for which.

ghost use Rattle.std.specs.Prelude.{◌≡◌, ◌⊎◌, ◌<◌, ◌++◌, ℕ, Bool, true, false, List, []};
ghost use Rattle.mv_calls.specs.Prelude.{Entry, Object, Op, standing, allowed, Legal, of, Setup};
ghost use Rattle.mv_ordered.specs.WaitChain.{IsOrdered, KeepsLockDiscipline, WaitsAt, HoldsAt, LeadsTo, CanContinue, IsNextEvent};
ghost use Rattle.mv_ordered.specs.WaitChain.{LeadsToHolder, HasNoLatchDeadlock, SomeoneContinues};

/// Shows that callers never deadlock at latches, if each caller of a legal history obtains latches in rising order, and waits
/// for nothing else while it has a request at a latch.
pub fn latches_in_rising_order_do_not_deadlock()
    // By the order of obtains only: a caller that waits at a latch leads to a holder that waits at no latch.
    ensures holder { (c : Setup) (es xs ys : List Entry) (k latch : ℕ) → es ≡ xs ++ ys → IsOrdered c es → WaitsAt c xs k latch
        → LeadsToHolder c xs k }
    ensures continues { (c : Setup) (es : List Entry) → KeepsLockDiscipline c es → HasNoLatchDeadlock c es }
    // Each caller that holds a latch can continue, or waits at a higher latch.
    ensures holders { (c : Setup) (es : List Entry) (k latch : ℕ) → KeepsLockDiscipline c es → HoldsAt c es k latch
        → CanContinue c es k ⊎ ((high : ℕ) × (latch < high) × WaitsAt c es k high) }
    // No caller waits for itself, not even through others.
    ensures no_ring { (c : Setup) (es : List Entry) (k : ℕ) (path : List ℕ) → IsOrdered c es → ¬ LeadsTo c es k path k }
    ensures rises { (c : Setup) (es : List Entry) (k low high : ℕ) → IsOrdered c es → HoldsAt c es k low → WaitsAt c es k high
        → low < high }
    // A caller that can continue can make any event that its log allows, and its confirm of a request that it waits for is not
    // too early.
    ensures next { (c : Setup) (es : List Entry) (k : ℕ) (o : Object) (op : Op) → Legal c es → CanContinue c es k
        → allowed c k (of k es) o op ≡ true → (e : Entry) × IsNextEvent c es k o op e }
{}

/// Shows that the unfinished callers never all wait at latches: if one of them does, an unfinished caller can continue. Any
/// caller without standing requests may count as finished.
pub fn unfinished_callers_do_not_all_wait()
    ensures someone { (c : Setup) (es xs ys : List Entry) (finished : ℕ → Bool) (k latch : ℕ) → es ≡ xs ++ ys → KeepsLockDiscipline c es
        → ((j : ℕ) → j < c.callers → finished j ≡ true → standing (of j xs) ≡ []) → WaitsAt c xs k latch
        → SomeoneContinues c xs finished }
    // So if every unfinished caller waits at a latch, all callers have finished.
    ensures all { (c : Setup) (es xs ys : List Entry) (finished : ℕ → Bool) → es ≡ xs ++ ys → IsOrdered c es
        → ((j : ℕ) → j < c.callers → finished j ≡ true → standing (of j xs) ≡ [])
        → ((j : ℕ) → j < c.callers → finished j ≡ false → (latch : ℕ) × WaitsAt c xs j latch)
        → (j : ℕ) → j < c.callers → finished j ≡ true }
{}
