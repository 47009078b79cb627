//! Laws of the texts of journals, whoever writes or reads them, by `specs/Journal.antt` and `specs/Fault.antt`.

ghost use Rattle.std.specs.Prelude.{◌≡◌, ◌≤◌, ◌↔◌, ℕ, List, All, None, MatchOption, length};
ghost use Rattle.mv_line.specs.declared.fault.TextFault.{TextFault};
ghost use Rattle.mv_calls.specs.Prelude.{Entry, IsValid, Legal, calls as calls_of, Setup, highest_place};
ghost use Rattle.mv_operationtext.specs.declared.version.Version.{Version as AnyVersion};
ghost use Rattle.mv_operationtext.specs.Ranges.{highest_u32};
ghost use Rattle.mv_operationtext.specs.EntryText.{IsInRange, IsTyped};
ghost use Rattle.mv_entrytext.specs.Fault.{HasFault, IsNoLater, journal_of, text_fault};
ghost use Rattle.mv_entrytext.specs.Fault.{HasJournal, StatesJournal, AreCallsIn, AreCallNumbers};
ghost use Rattle.mv_entrytext.specs.Journal.{text_of};

/// Shows that a text determines its version, its configuration, its entries and their call numbers: they are what is read from
/// it.
pub fn text_determines_journal()
    ensures one { (v w : AnyVersion) (c d : Setup) (es fs : List Entry) (ns ms : List ℕ)
        → HasJournal c es → AreCallsIn v es ns → HasJournal d fs → AreCallsIn w fs ms
        → text_of v c es ns ≡ text_of w d fs ms → (v ≡ w) × (c ≡ d) × (es ≡ fs) × (ns ≡ ms) }
    ensures read_back { (v : AnyVersion) (c : Setup) (es : List Entry) (ns : List ℕ) → HasJournal c es → AreCallsIn v es ns
        → ((journal_of (text_of v c es ns)).version ≡ v) × ((journal_of (text_of v c es ns)).setup ≡ c)
        × ((journal_of (text_of v c es ns)).entries ≡ es) × ((journal_of (text_of v c es ns)).calls ≡ ns) }
{}

/// Shows that the entries of a legal list, whose places are as the budgets of a run allow, are in the ranges of the text. So,
/// if their numbers fit their types, they have a text in version 1 and, with their call numbers, a text in version 2.
pub fn legal_lists_have_texts()
    ensures in_range { (c : Setup) (es : List Entry) → Legal c es → All (λ e. e.place ≤ highest_place) es → All IsInRange es }
    ensures text { (c : Setup) (es : List Entry) → IsValid c → Legal c es → All (λ e. e.place ≤ highest_place) es
        → All IsTyped es → length es ≤ highest_u32 → HasJournal c es }
    ensures calls { (c : Setup) (es : List Entry) → length es ≤ highest_u32 → AreCallNumbers es (calls_of c es) }
{}

/// Shows that a text has no fault exactly if it is the text, in one of the versions, of a configuration, of entries and of call
/// numbers that have a text.
pub fn texts_without_fault_are_journals()
    ensures { (bytes : List ℕ) → (text_fault bytes ≡ None)
        ↔ ((v : AnyVersion) × (c : Setup) × (es : List Entry) × (ns : List ℕ)
        × HasJournal c es × AreCallsIn v es ns × (bytes ≡ text_of v c es ns)) }
{}

/// Shows that a text states a journal exactly if it is the text of it.
pub fn texts_state_their_journals()
    ensures { (bytes : List ℕ) (v : AnyVersion) (c : Setup) (es : List Entry) (ns : List ℕ)
        → StatesJournal bytes v c es ns ↔ (HasJournal c es × AreCallsIn v es ns × (bytes ≡ text_of v c es ns)) }
{}

/// Shows that the first fault is one that the text has, and that no other fault comes before it, by line and then by the order
/// of kinds 5, 1, 2, 3, 4. There is no first fault only if the text has no fault.
pub fn first_fault_is_lowest()
    ensures { (bytes : List ℕ) → MatchOption (text_fault bytes)
        ((f : TextFault) → ¬ HasFault bytes f)
        (λ f. HasFault bytes f × ((g : TextFault) → HasFault bytes g → IsNoLater f g)) }
{}
