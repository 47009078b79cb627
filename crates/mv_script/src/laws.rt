//! Laws of the first fault of a text and of the script that a text without fault states; of costs; of the answers to tries and to
//! calls on a table of events; and of the text of answers. Clauses cite `specs/Fault.antt`, `Script.antt`, `Sound.antt`,
//! `Costs.antt`, `Run.antt`, `Events.antt` and `AnswerText.antt`.

ghost use Rattle.std.specs.Prelude.{◌≡◌, ◌≤◌, ℕ, List, [], Some, None, MatchOption, length, slice_get, slice_index_or};
ghost use Rattle.mv_line.specs.declared.fault.TextFault.{TextFault as ScriptFault};
ghost use Rattle.mv_line.specs.Fault.{IsNoLater};
ghost use Rattle.mv_wait.specs.Prelude.{Token, Entry, Setup, Table, Kept, most_events};
ghost use Rattle.mv_script.specs.Prelude.{Answer, Call, AreInRange, answers_text, Asked, cost, service_of, EventsAreHandedOut, HasFault};
ghost use Rattle.mv_script.specs.Prelude.{first_fault, IsScriptRun, answer_at, script_answers, unless_moved, ScriptData, script_of};
ghost use Rattle.mv_script.specs.Prelude.{IsSound, Moves, calls_at};
ghost use Rattle.mv_script.specs.declared.answer.Answer.TheVariants.{Posted, Early};
ghost use Rattle.mv_scriptline.specs.declared.call.Call.TheVariants.{TryPost, TryRelease};

/// Shows that the first fault is one that the text has, and that no other comes before it by line and then by kind.
///
/// There is no first fault only if the text has no fault.
pub fn first_fault_is_lowest()
    ensures { (bytes : List ℕ) → MatchOption (first_fault bytes)
        ((f : ScriptFault) → ¬ HasFault bytes f)
        (λ f. HasFault bytes f × ((g : ScriptFault) → HasFault bytes g → IsNoLater f g)) }
{}

/// Shows that the script of a text without fault can be run.
///
/// Its numbers are valid, each CHECK and FREE names an earlier OBTAIN, the targets of its exits are above their sources, its
/// configuration is that of a script, and its budgets are the costs of its calls and within the limit of a run.
pub fn scripts_are_sound()
    ensures { (bytes : List ℕ) → first_fault bytes ≡ None → IsSound (script_of bytes) }
{}

/// Shows that a call needs no more events than it costs, whatever its task keeps, whichever requests its OBTAINs got, and
/// whichever table it names.
pub fn costs_suffice()
    ensures { (c : Setup) (kept : Kept) (t : Table) (asked : ℕ → Asked) (d : Call) → most_events c kept (service_of t asked d) ≤ cost c d }
{}

/// Shows that in a run of a sound script a TRYPOST posts its block, and a TRYRELEASE keeps its code for a pause to come, unless
/// the try read another word than it expected; then the answer is that word.
pub fn tries_are_done_or_moved()
    ensures posts { (script : ScriptData) (moves : Moves) (es : List Entry) (k i ecb place code : ℕ)
        → IsSound script → IsScriptRun script moves es → slice_get (calls_at script k) i ≡ Some (TryPost ecb place code)
        → answer_at (script_answers script moves es) k i ≡ Some (unless_moved (moves k i) Posted) }
    ensures releases { (script : ScriptData) (moves : Moves) (es : List Entry) (k i : ℕ) (token : Token) (place code : ℕ)
        → IsSound script → IsScriptRun script moves es → slice_get (calls_at script k) i ≡ Some (TryRelease token place code)
        → answer_at (script_answers script moves es) k i ≡ Some (unless_moved (moves k i) Early) }
{}

/// Shows that in a run of a sound script with a table, the table's events are handed out once each, in the order of their
/// completion.
///
/// If a post of an event returns a position, it completed the event at that position; the next event at a position is the
/// completion there, with its code. No post of an event is purged.
pub fn events_are_handed_out()
    ensures { (script : ScriptData) (moves : Moves) (es : List Entry) → IsSound script → IsScriptRun script moves es
        → EventsAreHandedOut script (script_answers script moves es) es }
{}

/// Shows that a text of answers determines the answers.
///
/// If two lists of answers have the same text, each task has the same answers in both, call by call. A task without calls has no
/// line, so the lists themselves are equal if they have equally many tasks.
pub fn text_determines_answers()
    ensures each { (xs ys : List (List Answer)) → AreInRange xs → AreInRange ys → answers_text xs ≡ answers_text ys
        → (k : ℕ) → slice_index_or xs k [] ≡ slice_index_or ys k [] }
    ensures one { (xs ys : List (List Answer)) → AreInRange xs → AreInRange ys → length xs ≡ length ys
        → answers_text xs ≡ answers_text ys → xs ≡ ys }
{}
