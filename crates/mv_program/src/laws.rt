//! Laws of runs: that `replay` takes their journals, and that no run of a deck deadlocks. Clauses cite specs/Texts,
//! specs/Program and mv_progress.

ghost use Rattle.std.specs.Prelude.{◌≡◌, ◌≤◌, ◌++◌, ℕ, List, length, None};
ghost use Rattle.mv_deck.specs.Deck.{JobData, deck_of};
ghost use Rattle.mv_deck.specs.Fault.{first_fault};
ghost use Rattle.mv_deck.specs.Load.{most_jobs, load_jobs};
ghost use Rattle.mv_deck.specs.Weight.{most_initiators};
ghost use Rattle.mv_calls.specs.Prelude.{Entry, Setup};
ghost use Rattle.mv_progress.specs.Progress.{CannotDeadlock};
ghost use Rattle.mv_replay.specs.Judgement.{journal_limit, IsLegalJournal};
ghost use Rattle.mv_script.specs.Script.{ScriptData};
ghost use Rattle.mv_program.specs.Program.{TellsRun, TellsLoad};
ghost use Rattle.mv_program.specs.Texts.{TellsHistory, IsJournalOfRun, IsRunOfScript};

/// Shows that the journal of a run, of a deck or of a script, is legal as a replay judges it, and has as many entries as the
/// run has events; and that it is within the limit of a replay's input, so a replay takes it.
pub fn runs_are_legal()
    ensures deck { (deck : List JobData) (initiators : ℕ) (text : List ℕ) → (run : IsJournalOfRun deck initiators text)
        → IsLegalJournal text (length run.events) }
    ensures script { (script : ScriptData) (answers text : List ℕ) → (run : IsRunOfScript script answers text)
        → IsLegalJournal text (length run.events) }
    ensures within { (text : List ℕ) (setup : Setup) (events : List Entry) → TellsHistory text setup events
        → length text ≤ journal_limit }
{}

/// Shows that the run in the journal of a deck does not deadlock, whatever the schedule: at each moment of its history all
/// tasks are done or one of them can make its next event, and no task is doomed. The law does not say that a thread runs, that
/// a wake arrives, or that a call returns.
pub fn decks_do_not_deadlock()
    // For `spool` and `polled`.
    ensures deck { (n : ℕ) (input report journal : List ℕ) (before later : List Entry) → 1 ≤ n → first_fault input n ≡ None
        → (told : TellsRun n input report journal) → told.run.events ≡ before ++ later → CannotDeadlock (deck_of input) n before }
    ensures load { (jobs n : ℕ) (report journal : List ℕ) (before later : List Entry) → 1 ≤ jobs → jobs ≤ most_jobs → 1 ≤ n
        → n ≤ most_initiators → (told : TellsLoad jobs n report journal) → told.run.events ≡ before ++ later
        → CannotDeadlock (load_jobs jobs) n before }
{}
