//! Laws of the first fault of a text, and of the deck that a text without fault states. Clauses cite `specs/Fault.antt`,
//! `Deck.antt`, `Sound.antt`, `Weight.antt` and `Load.antt`.

ghost use Rattle.std.specs.Prelude.{◌≡◌, ◌<◌, ◌≤◌, ℕ, List, length, None, MatchOption};
ghost use Rattle.mv_line.specs.declared.fault.TextFault.{TextFault as DeckFault};
ghost use Rattle.mv_line.specs.Fault.{IsNoLater};
ghost use Rattle.mv_deck.specs.Deck.{deck_of};
ghost use Rattle.mv_deck.specs.Fault.{HasFault, first_fault};
ghost use Rattle.mv_deck.specs.Load.{most_jobs, load_text, load_jobs};
ghost use Rattle.mv_deck.specs.Sound.{IsSound};
ghost use Rattle.mv_deck.specs.Weight.{most_initiators, weight};

/// Shows that the first fault is one that the text has, and that no other comes before it by line and then by kind.
///
/// There is no first fault only if the text has no fault.
pub fn first_fault_is_lowest()
    ensures { (bytes : List ℕ) (initiators : ℕ) → MatchOption (first_fault bytes initiators)
        ((f : DeckFault) → ¬ HasFault bytes initiators f)
        (λ f. HasFault bytes initiators f × ((g : DeckFault) → HasFault bytes initiators g → IsNoLater f g)) }
{}

/// Shows that the deck of a text without fault can be run.
///
/// Names and numbers are valid, each job waits only for earlier ones, latches are used in rising order and held when they are
/// needed, no step follows an end, and the weight is within its limit.
pub fn decks_are_sound()
    ensures { (bytes : List ℕ) (initiators : ℕ) → first_fault bytes initiators ≡ None → IsSound (deck_of bytes) initiators }
{}

/// Shows that a load of 1 to 2000 jobs states the jobs of its rule, has no fault, and can be run by 1 to 8 initiators.
///
/// Its text is below 200,000 bytes, and its weight below 300,000.
pub fn loads_can_be_run()
    ensures jobs { (n : ℕ) → 1 ≤ n → n ≤ most_jobs → deck_of (load_text n) ≡ load_jobs n }
    ensures count { (n : ℕ) → length (load_jobs n) ≡ n }
    ensures fault { (n initiators : ℕ) → 1 ≤ n → n ≤ most_jobs → initiators ≤ most_initiators
        → first_fault (load_text n) initiators ≡ None }
    ensures sound { (n initiators : ℕ) → 1 ≤ n → n ≤ most_jobs → initiators ≤ most_initiators → IsSound (deck_of (load_text n)) initiators }
    ensures weight { (n initiators : ℕ) → n ≤ most_jobs → initiators ≤ most_initiators → weight (load_jobs n) initiators < 300000 }
    ensures bytes { (n : ℕ) → n ≤ most_jobs → length (load_text n) < 200000 }
{}
