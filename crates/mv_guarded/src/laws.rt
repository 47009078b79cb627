//! What callers know of state that they guard by a latch.

ghost use Rattle.std.specs.Prelude.{◌≡◌, ◌<◌, ◌++◌, ℕ, List};
ghost use Rattle.mv_wait.specs.Prelude.{Mode, Entry, Volume, StandingRequest, Legal, of, Setup, HasGrant, IsHolder, IsGuarded, is_write};
ghost use Rattle.mv_ordered.specs.WaitChain.{HoldsAt, KeepsLockDiscipline};
ghost use Rattle.mv_guarded.specs.Guarded.{HoldsLatch, GuardsVolume, AreInside, HasRead, IsOnlyWriter, IsUnwritten, value, value_from, AreAlone};
ghost use Rattle.mv_guarded.specs.Guarded.{AllReleased, UnfinishedContinue};

/// In a history in which every caller guards a volume by a latch, a caller that was granted a latch holds it, and the volume is written
/// only under its latch. Throughout a section of the latch, in either mode, no other caller writes the volume. What a caller read there the
/// volume still has, until that caller writes it or releases the latch.
pub fn sections_see_one_number()
    // By its own log a caller was granted a request that still stands: so it holds that latch.
    ensures grant { (c : Setup) (es before later : List Entry) (latch n k : ℕ) (t : StandingRequest) → GuardsVolume c es latch n
        → es ≡ before ++ later → HasGrant t (of k before) → IsHolder k t before }
    ensures written { (c : Setup) (es : List Entry) (latch n : ℕ) → GuardsVolume c es latch n → IsGuarded is_write latch (Volume n) es }
    // From a moment at which caller k holds the latch until it releases it, no other caller writes the volume.
    ensures undisturbed { (c : Setup) (es start inside later : List Entry) (latch n k : ℕ) (asked : Mode) → GuardsVolume c es latch n
        → es ≡ start ++ (inside ++ later) → HoldsLatch latch asked k (of k start) → AreInside latch (of k inside)
        → IsOnlyWriter k n inside }
    // So the volume has the same number until caller k writes it or releases the latch.
    ensures stays { (c : Setup) (es start inside later : List Entry) (latch n k : ℕ) (asked : Mode) → GuardsVolume c es latch n
        → es ≡ start ++ (inside ++ later) → HoldsLatch latch asked k (of k start) → AreInside latch (of k inside)
        → IsUnwritten n (of k inside) → value c (start ++ inside) n ≡ value c start n }
    ensures read { (c : Setup) (es before later : List Entry) (latch n k x : ℕ) → GuardsVolume c es latch n → es ≡ before ++ later
        → HasRead latch n k x (of k before) → value c before n ≡ x }
{}

/// A volume with one writer has what that caller wrote last, or zero.
pub fn only_writers_know_their_volumes()
    ensures { (c : Setup) (es : List Entry) (w n : ℕ) → Legal c es → IsOnlyWriter w n es → value c es n ≡ value_from n 0 (of w es) }
{}

/// If every obtain is exclusive, no latch has two holders at any moment.
pub fn exclusive_latches_have_one_holder()
    ensures { (c : Setup) (es before later : List Entry) (latch j k : ℕ) → Legal c es
        → ((m : ℕ) → m < c.callers → AreAlone (of m es)) → es ≡ before ++ later → HoldsAt c before j latch → HoldsAt c before k latch
        → j ≡ k }
{}

/// If each caller keeps the lock discipline and has released its latches in the end, no caller is held up by one that has made its last
/// entry: while a caller waits at a latch, one whose last entry is still to come can continue.
pub fn released_latches_hold_up_no_caller()
    ensures { (c : Setup) (es : List Entry) → KeepsLockDiscipline c es → AllReleased c es → UnfinishedContinue c es }
{}
