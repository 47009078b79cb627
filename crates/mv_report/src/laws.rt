//! Laws of the definitions in `specs/Outcome.antt` and `specs/Report.antt`, in the words of those who write and read decks.

ghost use Rattle.std.specs.Prelude.{◌≡◌, ℕ, ◌<◌, ◌≤◌, ◌+◌, ◌⊎◌, List, ◌∷◌, ◌++◌, length, map, slice_index, count_by, All};
ghost use Rattle.mv_deck.specs.Deck.{JobData};
ghost use Rattle.mv_deck.specs.Sound.{IsSound};
ghost use Rattle.mv_report.specs.EndCode.{IsEndCode, is_ended, is_abended, is_not_run, system_code, user_code};
ghost use Rattle.mv_report.specs.Outcome.{ends, end_behind, totals, held_of};
ghost use Rattle.mv_report.specs.Report.{outcome_text};

/// Shows that the end of a job that waits only for earlier jobs follows from the ends of the whole deck.
///
/// The job is not run exactly if some part of its AFTER names a job whose end is above the code that the part accepts.
pub fn ends_go_by_accepted_codes()
    ensures { (before behind : List JobData) (job : JobData) → All (λ part. part.job < length before) job.after
        → slice_index (ends (before ++ job ∷ behind)) (length before) ≡ end_behind (ends (before ++ job ∷ behind)) job }
{}

/// Shows that a deck that can be run has ends that `write_report` takes, and that each volume can hold its total.
///
/// The deck's weight bounds how often its jobs count.
pub fn sound_decks_have_reports()
    ensures ends { (deck : List JobData) (initiators : ℕ) → IsSound deck initiators → All IsEndCode (ends deck) }
    ensures volumes { (deck : List JobData) (initiators : ℕ) → 1 ≤ initiators → IsSound deck initiators
        → map held_of (totals deck) ≡ totals deck }
{}

/// Shows that a job's line determines the job's end, and that the counts of a report count each job once.
///
/// Abends with both a system code and a user code are left out, since their user code is not printed.
pub fn reports_tell_the_ends()
    ensures apart { (a b : ℕ) → IsEndCode a → IsEndCode b
        → (system_code a ≡ 0) ⊎ (user_code a ≡ 0) → (system_code b ≡ 0) ⊎ (user_code b ≡ 0)
        → outcome_text a ≡ outcome_text b → a ≡ b }
    ensures counts { (ends : List ℕ) → count_by is_ended ends + count_by is_abended ends + count_by is_not_run ends ≡ length ends }
{}
