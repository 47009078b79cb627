//! Laws of whole histories: generations, places, parts, words, owners and requests, by specs/Elements.antt, OnePost.antt,
//! Parts.antt, Merge.antt, Packing.antt, Owned.antt, Kept.antt and Orderly.antt. A law has no body: call it for its clauses.

ghost use Rattle.std.specs.Prelude.{◌≡◌, ◌↔◌, ◌⊎◌, ◌<◌, ◌≤◌, ◌++◌, ◌∷◌, ◌+◌, ◌^◌, ℕ, true, false, List, [], length, filter, Some};
ghost use Rattle.std.specs.Prelude.{option_map, option_and_then, IfSome, IsSome};
ghost use Rattle.std.specs.List.{All, Contains};
ghost use Rattle.mv_machine.specs.Prelude.{Complete, Free, Prereleased, Released, Request, granted, count_in, list_of, IsNewId, has_id};
ghost use Rattle.mv_machine.specs.Prelude.{of_caller, posted_of, Entry, Object, Ecb, Element, Latches, Op, WordState, IsValid};
ghost use Rattle.mv_machine.specs.Prelude.{FitsItsPlace, StandingRequest, standing, allowed, is_posting, RisesFrom, NoneTakesOut, Legal};
ghost use Rattle.mv_machine.specs.Prelude.{SameAt, same_object, after, of, «at», CountsFrom, events_limit, highest_place};
ghost use Rattle.mv_machine.specs.Prelude.{highest_generation, merged, merge_from, start, entry_count, TakePosts, IsOrderly, owner_at};
ghost use Rattle.mv_machine.specs.Prelude.{is_owners, is_clear, HasNo, IsGranted, IsGone, HasFields, IsStateOf, HasOpFields, pack};
ghost use Rattle.mv_machine.specs.Prelude.{unpack, state_at, word_at, state_after, reply_in, parts, KeepsBudgets, Had, Setup, owner_of};
ghost use Rattle.mv_machine.specs.Prelude.{element_owner, System, place_of, admitted, reply_to, moved, told};

/// Shows that after every legal list an element's place is at least twice its generation plus the extra of its phase. So within
/// the events that the budgets of a run may allow, no object's place is above 524,287, no entry's place is above 524,286, and
/// no generation is above 262,143.
pub fn generations_fit()
    ensures fits { (c : Setup) (es : List Entry) (n : ℕ) → Legal c es → FitsItsPlace ((after c es).element n) }
    ensures places { (c : Setup) (es : List Entry) (o : Object) → Legal c es → length es ≤ events_limit
        → place_of (after c es) o ≤ events_limit }
    ensures entries { (c : Setup) (es : List Entry) → Legal c es → length es ≤ events_limit → All (λ e. e.place ≤ highest_place) es }
    ensures generations { (c : Setup) (es : List Entry) (n : ℕ) → Legal c es → length es ≤ events_limit
        → ((after c es).element n).state.generation ≤ highest_generation }
{}

/// Shows that the entries on one object have the places 0, 1, 2 and so on, and that the object's place after the list is the
/// number of these entries.
pub fn places_count_entries()
    ensures places { (c : Setup) (es : List Entry) (o : Object) → Legal c es → CountsFrom 0 («at» o es) }
    ensures after { (c : Setup) (es : List Entry) (o : Object) → Legal c es → place_of (after c es) o ≡ length («at» o es) }
{}

/// Shows that what a history says of an object depends only on its entries on that object, and what it says of a caller only on
/// these and on that caller's entries. So two lists that agree in them are one history.
pub fn histories_are_their_parts()
    ensures legal { (c : Setup) (es : List Entry) → Legal c es ↔ ((o : Object) → Legal c («at» o es)) }
    ensures after { (c : Setup) (es : List Entry) (o : Object) → Legal c es → SameAt o (after c es) (after c («at» o es)) }
    ensures told { (c : Setup) (es : List Entry) (k : ℕ) → told c k es ≡ told c k («at» Latches es) }
    ensures same_legal { (c : Setup) (es fs : List Entry) → ((o : Object) → «at» o es ≡ «at» o fs) → Legal c es → Legal c fs }
    ensures same_after { (c : Setup) (es fs : List Entry) → ((o : Object) → «at» o es ≡ «at» o fs) → Legal c es → after c es ≡ after c fs }
    ensures same_told { (c : Setup) (es fs : List Entry) (k : ℕ) → «at» Latches es ≡ «at» Latches fs → told c k es ≡ told c k fs }
    ensures same_had { (c : Setup) (es fs : List Entry) (k n w : ℕ) (o : Object) → «at» o es ≡ «at» o fs → of k es ≡ of k fs
        → Had c es k n o w → Had c fs k n o w }
{}

/// Shows that every legal history is orderly. A code that a pause is given was released once, before the pause, and no pause is
/// given a code twice. Each later operation on a generation that has ended gets the reply Spent. The granted requests of a
/// latch are a prefix of its list, in which the numbers rise; a granted exclusive request is the only granted one; and a
/// granted request stays granted until it is taken out. A purged requestor has no request in any list until one of its own
/// requests is granted or queued.
pub fn histories_are_orderly()
    ensures orderly { (c : Setup) (es : List Entry) → Legal c es → IsOrderly c es }
{}

/// Shows that between two clears of an event control block, before its first clear and after its last, at most one post is
/// taken: no task waited, or it woke a task or began an exit. Every other post in this stretch comes after it and gets its code
/// as the reply.
pub fn posts_complete_once()
    ensures posts { (c : Setup) (es : List Entry) → Legal c es → TakePosts es }
{}

/// Shows that a word that an object has now was had, and that further entries do not change what was had.
pub fn words_stay_had()
    ensures now { (c : Setup) (es : List Entry) (k : ℕ) (o : Object) → Legal c es → length es ≤ events_limit
        → IsSome (state_at (after c es) o)
        → Had c es k (length (of k es)) o (word_at (after c es) o) }
    ensures longer { (c : Setup) (es : List Entry) (e : Entry) (k n w : ℕ) (o : Object) → Legal c (es ++ e ∷ [])
        → Had c es k n o w → Had c (es ++ e ∷ []) k n o w }
{}

/// Shows that the merge of the callers' parts of a legal list is legal, and is the same history: it has the same part of each
/// caller and of each object, each caller was shown the same wakes, the same words were had, and it ends in the same state. The
/// merge never gets stuck: `n` picks give `n` entries, if the list has at least `n`.
pub fn merging_keeps_a_history()
    ensures legal { (c : Setup) (es : List Entry) → Legal c es → Legal c (merged (parts c.callers es)) }
    ensures callers { (c : Setup) (es : List Entry) (k : ℕ) → Legal c es → of k (merged (parts c.callers es)) ≡ of k es }
    ensures objects { (c : Setup) (es : List Entry) (o : Object) → Legal c es → «at» o (merged (parts c.callers es)) ≡ «at» o es }
    ensures told { (c : Setup) (es : List Entry) (k : ℕ) → Legal c es → told c k (merged (parts c.callers es)) ≡ told c k es }
    ensures had { (c : Setup) (es : List Entry) (k n w : ℕ) (o : Object) → Legal c es → Had c es k n o w
        → Had c (merged (parts c.callers es)) k n o w }
    ensures after { (c : Setup) (es : List Entry) → Legal c es → after c (merged (parts c.callers es)) ≡ after c es }
    ensures each_pick { (c : Setup) (es : List Entry) (n : ℕ) → Legal c es → n ≤ length es
        → length (merge_from n start (parts c.callers es)) ≡ n }
    ensures total { (c : Setup) (es : List Entry) → Legal c es → entry_count (parts c.callers es) ≡ length es }
{}

/// Shows that what a task waits for stays until the task's own next operation on it. Only a granted request may go earlier, by
/// any caller's purge of its requestor, and is then gone for good. The premises on blocks and elements concern only the owner's
/// own entries.
pub fn others_keep_what_is_owned()
    // Only the owner of an object makes the operations that are reserved for its owner.
    ensures owners { (c : Setup) (xs ys : List Entry) (e : Entry) → Legal c (xs ++ e ∷ ys) → is_owners e.op ≡ true
        → owner_at c e.object ≡ Some e.caller }
    // A complete block stays complete with its code until its owner clears it.
    ensures complete { (c : Setup) (xs ys : List Entry) (n code : ℕ) → Legal c (xs ++ ys) → HasNo is_clear (Ecb n) (of (owner_of c n) ys)
        → ((after c xs).ecb n).state ≡ Complete code → ((after c (xs ++ ys)).ecb n).state ≡ Complete code }
    // Only its owner's operations change an element's generation, and whether it is free.
    ensures generation { (c : Setup) (xs ys : List Entry) (n : ℕ) → Legal c (xs ++ ys)
        → HasNo is_owners (Element n) (of (element_owner c n) ys)
        → ((after c (xs ++ ys)).element n).state.generation ≡ ((after c xs).element n).state.generation }
    ensures free { (c : Setup) (xs ys : List Entry) (n : ℕ) → Legal c (xs ++ ys) → HasNo is_owners (Element n) (of (element_owner c n) ys)
        → (((after c xs).element n).state.phase ≡ Free) ↔ (((after c (xs ++ ys)).element n).state.phase ≡ Free) }
    // A released element keeps its code until its owner's operation.
    ensures released { (c : Setup) (xs ys : List Entry) (n : ℕ) → Legal c (xs ++ ys)
        → HasNo is_owners (Element n) (of (element_owner c n) ys)
        → ((after c xs).element n).state.phase ≡ Released → ((after c (xs ++ ys)).element n).state ≡ ((after c xs).element n).state }
    // A release that comes before its pause is kept for the pause.
    ensures prereleased { (c : Setup) (xs ys : List Entry) (n : ℕ) → Legal c (xs ++ ys)
        → HasNo is_owners (Element n) (of (element_owner c n) ys)
        → ((after c xs).element n).state.phase ≡ Prereleased → ((after c (xs ++ ys)).element n).state ≡ ((after c xs).element n).state }
    // A granted request stays granted as long as no entry is its caller's release of it or a purge of its requestor.
    ensures held { (c : Setup) (xs ys : List Entry) (t : StandingRequest) → Legal c (xs ++ ys) → NoneTakesOut t ys
        → Contains (granted (list_of (after c xs).latches.state t.latch)) t.request
        → Contains (granted (list_of (after c (xs ++ ys)).latches.state t.latch)) t.request }
    // A request that was granted is later either still granted or gone. It never waits again.
    ensures granted { (c : Setup) (xs ys : List Entry) (k latch id : ℕ) → Legal c (xs ++ ys)
        → IsGranted k latch id (after c xs) → IsGranted k latch id (after c (xs ++ ys)) ⊎ IsGone k latch id (after c (xs ++ ys)) }
    // A request that is gone stays gone, since later requests have higher numbers.
    ensures gone { (c : Setup) (xs ys : List Entry) (k latch id : ℕ) → Legal c (xs ++ ys) → id < place_of (after c xs) Latches
        → IsGone k latch id (after c xs) → IsGone k latch id (after c (xs ++ ys)) }
{}

/// Shows that each request in the lists is a standing one by its own caller's entries, and that each has its own number, above
/// the numbers of all earlier ones. So a caller that keeps its quotas by its own entries keeps them in the lists.
pub fn requests_stand_by_their_callers_entries()
    ensures stands { (c : Setup) (es : List Entry) (latch : ℕ) (q : Request) → Legal c es
        → Contains (list_of (after c es).latches.state latch) q
        → Contains (standing (of q.caller es)) (record { latch = latch; request = q }) }
    ensures count { (c : Setup) (es : List Entry) (k : ℕ) → Legal c es
        → count_in (of_caller k) (after c es).latches.state ≤ length (standing (of k es)) }
    ensures posted_count { (c : Setup) (es : List Entry) (k : ℕ) → Legal c es
        → count_in (posted_of k) (after c es).latches.state ≤ length (filter is_posting (standing (of k es))) }
    ensures rise { (c : Setup) (es : List Entry) (latch : ℕ) → Legal c es → RisesFrom 0 (list_of (after c es).latches.state latch) }
    ensures differ { (c : Setup) (es : List Entry) (id : ℕ) → Legal c es → count_in (has_id id) (after c es).latches.state ≤ 1 }
    ensures earlier { (c : Setup) (es : List Entry) (latch : ℕ) (q : Request) → Legal c es
        → Contains (list_of (after c es).latches.state latch) q → q.id < (after c es).latches.place }
    ensures new { (c : Setup) (es : List Entry) (id : ℕ) → Legal c es → (after c es).latches.place ≤ id
        → IsNewId id (after c es).latches.state }
    ensures admits { (c : Setup) (es : List Entry) (k : ℕ) (o : Object) (op : Op) → Legal c es → allowed c k (of k es) o op ≡ true
        → admitted c (after c es) k o op ≡ true }
{}

/// Shows that within the events that the budgets of a run may allow, places fit 19 bits and generations fit 18: the word of
/// each object has 64 bits and represents the object's place and state.
pub fn reached_states_have_words()
    ensures budgets { (c : Setup) (es : List Entry) → IsValid c → Legal c es → KeepsBudgets c es → length es ≤ events_limit }
    ensures word { (c : Setup) (es : List Entry) (o : Object) → Legal c es → length es ≤ events_limit → word_at (after c es) o < 2 ^ 64 }
    ensures unpacks { (c : Setup) (es : List Entry) (o : Object) → Legal c es → length es ≤ events_limit
        → unpack o (word_at (after c es) o) ≡ option_map (λ s. (place_of (after c es) o, s)) (state_at (after c es) o) }
    ensures fields { (c : Setup) (es : List Entry) (o : Object) → Legal c es → length es ≤ events_limit
        → IfSome (state_at (after c es) o) (λ s. HasFields s) }
{}

/// Shows that an admitted operation on an object that has a word changes its state, and gets the reply, as `state_step` says
/// from this state only. The object's place rises by one. The words of all other objects stay.
pub fn words_go_by_the_machine()
    ensures fields { (c : Setup) (m : System) (k : ℕ) (o : Object) (op : Op) → admitted c m k o op ≡ true → HasOpFields op }
    ensures reply { (c : Setup) (m : System) (k : ℕ) (o : Object) (op : Op) → admitted c m k o op ≡ true → IsSome (state_at m o)
        → reply_to m k o op ≡ option_and_then (reply_in op) (state_at m o) }
    ensures state { (c : Setup) (m : System) (k : ℕ) (o : Object) (op : Op) → admitted c m k o op ≡ true
        → state_at (moved m k o op) o ≡ option_and_then (state_after op) (state_at m o) }
    ensures place { (c : Setup) (m : System) (k : ℕ) (o : Object) (op : Op) → admitted c m k o op ≡ true
        → place_of (moved m k o op) o ≡ place_of m o + 1 }
    ensures others { (m : System) (k : ℕ) (o q : Object) (op : Op) → same_object o q ≡ false → SameAt q (moved m k o op) m }
{}

/// Shows that a word that represents a place and a state is their packing, and no other word represents them; and that the
/// packing of a state of the object's kind, whose numbers fit their bits, represents that state.
pub fn words_are_packings()
    ensures unpacks { (o : Object) (place : ℕ) (s : WordState) → IsStateOf o s → unpack o (pack place s) ≡ Some (place, s) }
    ensures packs { (o : Object) (w place : ℕ) (s : WordState) → unpack o w ≡ Some (place, s) → pack place s ≡ w }
{}
