//! Critical sections: laws by specs/Sections.antt, for callers that share something under a latch.

ghost use Rattle.std.specs.Prelude.{◌≡◌, ◌≢◌, ◌++◌, ◌∷◌, ℕ, Bool, List, [], false};
ghost use Rattle.std.specs.List.{AllByRecursion};
ghost use Rattle.mv_latch.specs.declared.request.Mode.TheVariants.{Exclusive, Shared};
ghost use Rattle.mv_machine.specs.Prelude.{StandingRequest, WasPurged, takes_out, Legal, after, IsGranted, Setup};
ghost use Rattle.mv_calls.specs.Prelude.{Entry, Object, Volume, Op};
ghost use Rattle.mv_calls.specs.Sections.{IsHolder, IsSection, IsGuarded, AreOwn, is_write, tells_grant};

/// Shows mutual exclusion. A caller whose own entries show a granted request holds the latch, unless another caller purged the
/// request, and holds it throughout its section (`holds`). If two callers hold one latch at one moment, one of them
/// exclusively, they are one caller, with one request (`one`). While a caller holds a latch exclusively, no other caller's
/// entry shows a grant of it (`alone`). A request that no other caller's entry takes out was not purged (`kept`).
pub fn holders_exclude()
    ensures holds { (c : Setup) (k : ℕ) (t : StandingRequest) (before inside : List Entry) → Legal c (before ++ inside)
        → IsSection k t before inside → IsGranted k t.latch t.request.id (after c (before ++ inside)) }
    ensures one { (c : Setup) (j k : ℕ) (t u : StandingRequest) (es : List Entry) → Legal c es → IsHolder j t es → IsHolder k u es
        → t.latch ≡ u.latch → t.request.mode ≡ Exclusive → (j ≡ k) × (t.request ≡ u.request) }
    ensures alone { (c : Setup) (k : ℕ) (t : StandingRequest) (before inside : List Entry) (e : Entry) (id : ℕ)
        → Legal c (before ++ inside ++ e ∷ []) → IsSection k t before inside → t.request.mode ≡ Exclusive → e.caller ≢ k
        → tells_grant t.latch id e.op e.reply ≡ false }
    ensures kept { (k : ℕ) (t : StandingRequest) (es : List Entry)
        → AllByRecursion (λ e. e.caller ≢ k → takes_out t e.caller e.object e.op ≡ false) es → ¬ WasPurged k t es }
{}

/// Shows that no other caller disturbs what a latch guards in a section of it. Let each event of some kind on an object be made
/// by a caller that holds the latch exclusively. Then the caller of a section makes all such events that fall into the section,
/// and there are none if it shares the latch (`own`). So the events of one section on such an object are consecutive, and a
/// volume that is written only under exclusive grants is the same throughout a section under a shared one (`volume`).
pub fn sections_are_undisturbed()
    ensures own { (c : Setup) (k : ℕ) (t : StandingRequest) (kind : Op → Bool) (o : Object) (before inside : List Entry)
        → Legal c (before ++ inside) → IsSection k t before inside → IsGuarded kind t.latch o (before ++ inside)
        → AreOwn kind o k t inside }
    ensures volume { (c : Setup) (k : ℕ) (t : StandingRequest) (n : ℕ) (before inside : List Entry)
        → Legal c (before ++ inside) → IsSection k t before inside → t.request.mode ≡ Shared
        → IsGuarded is_write t.latch (Volume n) (before ++ inside)
        → ((after c (before ++ inside)).volume n).state ≡ ((after c before).volume n).state }
{}
