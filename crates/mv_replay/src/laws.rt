//! Laws of the texts of journals, whoever judges them. Clauses cite specs/Judgement and specs/Outcome.

ghost use Rattle.std.specs.Prelude.{◌≡◌, ◌≤◌, ℕ, List, length};
ghost use Rattle.mv_calls.specs.Prelude.{Entry, Legal, events_limit, Setup};
ghost use Rattle.mv_entrytext.specs.Fault.{HasJournal};
ghost use Rattle.mv_entrytext.specs.Journal.{text1, journal_text};
ghost use Rattle.mv_replay.specs.Judgement.{journal_limit, IsLegalJournal};
ghost use Rattle.mv_replay.specs.Outcome.{IsConversion, IsFound, Asks};
ghost use Rattle.mv_replay.specs.declared.status.ReplayStatus.{ReplayStatus};

/// Shows that no text calls for two endings. A text with a fault is neither a legal journal nor one with an illegal entry, no
/// text is both of these, and a text determines the number of its entries, the line of its first illegal entry, and its first
/// fault. So no input calls for two endings, whatever its length.
pub fn no_text_asks_for_two_endings()
    ensures count { (bytes : List ℕ) (m n : ℕ) → IsLegalJournal bytes m → IsLegalJournal bytes n → m ≡ n }
    ensures found { (bytes : List ℕ) (s t : ReplayStatus) → IsFound bytes s → IsFound bytes t → s ≡ t }
    ensures asked { (bytes : List ℕ) (s t : ReplayStatus) → Asks bytes s → Asks bytes t → s ≡ t }
{}

/// Shows that if a legal list has texts, those of both versions are legal journals, and both are converted to that of version
/// 2; and that both are within the limit if the list has at most as many events as a run may have. So a replay and a conversion
/// of either text end well, if it is within the limit, no stream fails and there is enough memory.
pub fn legal_lists_are_done()
    ensures first { (c : Setup) (es : List Entry) → HasJournal c es → Legal c es → IsLegalJournal (text1 c es) (length es) }
    ensures second { (c : Setup) (es : List Entry) → HasJournal c es → Legal c es → IsLegalJournal (journal_text c es) (length es) }
    ensures converted { (c : Setup) (es : List Entry) → HasJournal c es → Legal c es
        → IsConversion (text1 c es) (journal_text c es) × IsConversion (journal_text c es) (journal_text c es) }
    ensures within { (c : Setup) (es : List Entry) → HasJournal c es → length es ≤ events_limit
        → (length (text1 c es) ≤ journal_limit) × (length (journal_text c es) ≤ journal_limit) }
{}
