//! No history of the spool's plan deadlocks, and each can be continued to a run: which histories these are, and how long they get.
//! The clauses cite `specs/Progress.antt`.
ghost use Rattle.std.specs.Prelude.{◌≡◌, ◌≤◌, ◌++◌, ◌∷◌, [], ℕ, List, ◌⊎◌, ◌↔◌};
ghost use Rattle.mv_machine.specs.declared.entry.Entry.{Entry};
ghost use Rattle.mv_deck.specs.Deck.{JobData};
ghost use Rattle.mv_deck.specs.Sound.{IsSound};
ghost use Rattle.mv_plan.specs.SpoolRun.{Follows, IsRun};
ghost use Rattle.mv_progress.specs.Progress.{HasNoDoomedTask, HasNextEvent, CannotDeadlock, ExtendsToARun};
ghost use Rattle.mv_progress.specs.Progress.{IsNoEarlySettle, HasNoEarlySettle};

/// Deadlock freedom: as long as no task is doomed, all tasks are done or one can make its next event. Whichever event a scheduler
/// takes next, it dooms no task unless it is an early settle.
pub fn no_history_deadlocks()
    ensures next { (deck : List JobData) (initiators : ℕ) (es : List Entry)
        → 1 ≤ initiators → IsSound deck initiators → HasNoDoomedTask deck initiators es
        → IsRun deck initiators es ⊎ HasNextEvent deck initiators es }
    ensures any { (deck : List JobData) (initiators : ℕ) (es : List Entry) (e : Entry)
        → 1 ≤ initiators → IsSound deck initiators → HasNoDoomedTask deck initiators es
        → Follows deck initiators (es ++ e ∷ []) → IsNoEarlySettle deck e → HasNoDoomedTask deck initiators (es ++ e ∷ []) }
{}

/// Termination under weak scheduling: no such history is longer than the deck's weight, and each can be continued to a run. So a
/// scheduler that takes some event as long as there is one ends in a run.
pub fn histories_extend_to_runs()
    ensures { (deck : List JobData) (initiators : ℕ) (es : List Entry)
        → 1 ≤ initiators → IsSound deck initiators → HasNoDoomedTask deck initiators es → ExtendsToARun deck initiators es }
{}

/// No prefix of a run has a doomed task: so the histories without a doomed task are exactly the prefixes of runs.
pub fn prefixes_of_runs_have_no_doomed_task()
    ensures { (deck : List JobData) (initiators : ℕ) (es rest : List Entry)
        → 1 ≤ initiators → IsSound deck initiators → IsRun deck initiators (es ++ rest) → HasNoDoomedTask deck initiators es }
{}

/// No run deadlocks, whatever the schedule: at each moment all tasks are done or one of them can make its next event, and no task is
/// doomed. `run_deck` of mv_spool and `run_polled` of mv_polledspool return the history of a run (their clauses `run`), and the journal
/// of a deck's run tells one. That a thread runs, that a wake arrives and that a call returns is not said.
pub fn runs_do_not_deadlock()
    ensures { (deck : List JobData) (initiators : ℕ) (es before later : List Entry) → 1 ≤ initiators → IsSound deck initiators
        → IsRun deck initiators es → es ≡ before ++ later → CannotDeadlock deck initiators before }
{}

/// A history that follows the plan has a doomed task exactly if it has an early settle, which a journal shows.
pub fn early_settles_doom_a_task()
    ensures { (deck : List JobData) (initiators : ℕ) (es : List Entry)
        → 1 ≤ initiators → IsSound deck initiators → Follows deck initiators es
        → (HasNoDoomedTask deck initiators es ↔ HasNoEarlySettle deck es) }
{}

/// Each deck that its initiators can run has a run.
pub fn sound_decks_have_runs()
    ensures { (deck : List JobData) (initiators : ℕ)
        → 1 ≤ initiators → IsSound deck initiators → (es : List Entry) × IsRun deck initiators es }
{}
