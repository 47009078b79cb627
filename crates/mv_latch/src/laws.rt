//! Laws of the definitions in `specs/Latch.antt` and `specs/LatchSet.antt`. A law has no body: call it for its clauses.

ghost use Rattle.std.specs.Prelude.{◌≡◌, ◌≢◌, ℕ, ◌∷◌, [], ◌++◌, List, true, false, not, length};
ghost use Rattle.std.specs.List.{Contains, list_any};
ghost use Rattle.mv_latch.specs.declared.request.Request.{Request};
ghost use Rattle.mv_latch.specs.declared.operation.LatchOp.{LatchOp};
ghost use Rattle.mv_latch.specs.declared.operation.LatchOp.TheVariants.{Purge};
ghost use Rattle.mv_latch.specs.Request.{shared_request, of_requestor};
ghost use Rattle.mv_latch.specs.Latch.{granted, waiting, grants};
ghost use Rattle.mv_latch.specs.LatchSet.{list_of, count_in, latch_step, IsNewId};

/// Shows that the granted requests of a list come first, in the order of their arrival, and that the waiting ones follow.
pub fn granted_come_first()
    ensures { (list : List Request) → granted list ++ waiting list ≡ list }
{}

/// Shows that an exclusive granted request is the only granted one.
pub fn exclusive_stands_alone()
    ensures { (list : List Request) → list_any (λ q. not (shared_request q)) (granted list) ≡ true → length (granted list) ≡ 1 }
{}

/// Shows that a new request is granted at once exactly if it holds the latch when it is appended to the list.
///
/// If it is not granted, the same requests hold the latch as before.
pub fn arrival_grants()
    ensures granted { (list : List Request) (request : Request) → grants list request ≡ true
        → granted (list ++ request ∷ []) ≡ list ++ request ∷ [] }
    ensures queued { (list : List Request) (request : Request) → grants list request ≡ false
        → granted (list ++ request ∷ []) ≡ granted list }
{}

/// Shows that a granted request stays granted until it is taken out.
pub fn granted_stay()
    ensures { (caller id latch : ℕ) (op : LatchOp) (before : List (List Request)) (request : Request) →
        let after = (latch_step caller id op before).0 in
        Contains (granted (list_of before latch)) request → Contains (list_of after latch) request
        → Contains (granted (list_of after latch)) request }
{}

/// Shows that an operation adds no request number except its own.
///
/// A caller that counts its request numbers up therefore always has a new one.
pub fn other_ids_stay_new()
    ensures { (caller id other : ℕ) (op : LatchOp) (lists : List (List Request)) → id ≢ other → IsNewId other lists
        → IsNewId other (latch_step caller id op lists).0 }
{}

/// Shows that after a purge of a requestor no list has a request of it.
pub fn purged_hold_nothing()
    ensures { (caller id requestor : ℕ) (lists : List (List Request))
        → count_in (of_requestor requestor) (latch_step caller id (Purge requestor) lists).0 ≡ 0 }
{}
