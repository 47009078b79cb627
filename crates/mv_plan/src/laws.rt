//! Laws of every history that follows the plan of the spool, and of every run (`specs/SpoolRun.antt`). The module of specs/ that
//! is named like a law defines its words: `HandingOut.antt` for `runs_hand_out_each_job`.
ghost use Rattle.std.specs.Prelude.{◌≡◌, ◌<◌, ◌≤◌, ◌+◌, ℕ, List};
ghost use Rattle.mv_calls.specs.Prelude.{Entry, IsValid, Done, Wrong, left_in};
ghost use Rattle.mv_report.specs.Outcome.{ends};
ghost use Rattle.mv_plan.specs.PostingEnds.{EndsArePosted};
ghost use Rattle.mv_plan.specs.CountingAlone.{AreCountedAlone};
ghost use Rattle.mv_plan.specs.Purging.{ArePurged};
ghost use Rattle.mv_plan.specs.HandingOut.{AreHandedOut};
ghost use Rattle.mv_deck.specs.Prelude.{JobData, IsSound, most_initiators};
ghost use Rattle.mv_plan.specs.SpoolRun.{Follows, IsRun};
ghost use Rattle.mv_plan.specs.SpoolSetup.{spool_setup, writer};
ghost use Rattle.mv_plan.specs.SpoolTasks.{task_program};
ghost use Rattle.mv_plan.specs.StayingWithin.{IsWithinBudgets};

/// Shows that the configuration of a deck which one to eight initiators can run is valid.
pub fn spool_setups_are_valid()
    ensures { (deck : List JobData) (initiators : ℕ)
        → 1 ≤ initiators → initiators ≤ most_initiators → IsSound deck initiators → IsValid (spool_setup deck initiators) }
{}

/// Shows that no task gets a reply that its program does not foresee.
pub fn no_task_goes_wrong()
    ensures { (deck : List JobData) (initiators : ℕ) (es : List Entry) (k : ℕ)
        → 1 ≤ initiators → IsSound deck initiators → Follows deck initiators es → k < initiators + 3
        → left_in (spool_setup deck initiators) (task_program deck initiators) k es ≡ Wrong → ⊥ }
{}

/// Shows that no task makes more events than its budget, and that one is left whenever its program has one more.
pub fn tasks_stay_within_budgets()
    ensures { (deck : List JobData) (initiators : ℕ) (es : List Entry)
        → 1 ≤ initiators → IsSound deck initiators → Follows deck initiators es → IsWithinBudgets deck initiators es }
{}

/// Shows that a run hands out each job once, to the initiator that gets its code, and in the end closes each initiator.
pub fn runs_hand_out_each_job()
    ensures { (deck : List JobData) (initiators : ℕ) (es : List Entry)
        → 1 ≤ initiators → IsSound deck initiators → IsRun deck initiators es → AreHandedOut deck initiators es }
{}

/// Shows that a run posts each job's end once to the scheduler and once to the writer.
pub fn runs_post_each_end()
    ensures { (deck : List JobData) (initiators : ℕ) (es : List Entry)
        → 1 ≤ initiators → IsSound deck initiators → IsRun deck initiators es → EndsArePosted deck es }
{}

/// Shows that in a run the writer keeps the ends that the deck means.
pub fn runs_keep_the_ends()
    ensures { (deck : List JobData) (initiators : ℕ) (es : List Entry)
        → 1 ≤ initiators → IsSound deck initiators → IsRun deck initiators es
        → left_in (spool_setup deck initiators) (task_program deck initiators) (writer initiators) es ≡ Done (ends deck) }
{}

/// Shows that in a run no other task uses a volume during a COUNT, that a SCAN reads one number twice, and that the volumes end
/// with the deck's totals.
pub fn runs_count_alone()
    ensures { (deck : List JobData) (initiators : ℕ) (es : List Entry)
        → 1 ≤ initiators → IsSound deck initiators → IsRun deck initiators es → AreCountedAlone deck initiators es }
{}

/// Shows that a run purges each job's requests once, and that no request is left.
pub fn runs_purge_each_job()
    ensures { (deck : List JobData) (initiators : ℕ) (es : List Entry)
        → 1 ≤ initiators → IsSound deck initiators → IsRun deck initiators es → ArePurged deck initiators es }
{}
