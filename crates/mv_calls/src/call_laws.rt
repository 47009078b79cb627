//! Laws of a log's last event, of how many events calls may need, and of which tables are refused: by specs/Behind.antt,
//! specs/Exits.antt, specs/Table.antt, and the machine's specs/Replies.antt.
ghost use Rattle.std.specs.Prelude.{◌≡◌, ◌<◌, ◌≤◌, ◌+◌, ◌++◌, ◌∷◌, ℕ, suc, true, not, List, [], length, is_some};
ghost use Rattle.mv_machine.specs.Prelude.{EcbOp, ecb_step, ElementOp, element_step, LatchOp, Wake, latch_step, volume_step, told};
ghost use Rattle.mv_machine.specs.Prelude.{IsValid, IsNext, Legal, after, events_limit, highest_generation, is_exit_of, targets_of, System};
ghost use Rattle.mv_machine.specs.Prelude.{IsPossible, reach, total, IsOfKind, HasPlaceAsNumber, NamesUpTo, NamesLowCode, Setup};
ghost use Rattle.mv_machine.specs.declared.entry.Op.TheVariants as op_on;
ghost use Rattle.mv_machine.specs.declared.entry.Reply.TheVariants as reply_of;
ghost use Rattle.mv_calls.specs.Prelude.{Entry, Ecb, Element, Volume, Latches, VolumeOp, IsBehind, Kept, told_by, HaveTheirWakes, post};
ghost use Rattle.mv_calls.specs.Prelude.{Heard, Says, entries};
ghost use Rattle.mv_calls.specs.declared.table.Table.{Table};
ghost use Rattle.mv_calls.specs.Table.{table_refusal, can_have};
ghost use Rattle.mv_calls.specs.Exits.{NamesOwnExit, NameOwnExits, HaveFairWakes};
ghost use Rattle.mv_calls.specs.Services.{Service, program, most_events, HasItsTable};

/// Shows that the last entry of a possible log was the machine's next one, after a legal history of which the log before it is
/// the caller's part. So its reply is of its operation's kind, and is what the table gives for the object's state; and the
/// request of an obtain that was granted or queued has the entry's place as its number.
pub fn last_event_is_the_machines()
    ensures behind { (c : Setup) (k : ℕ) (log : List Entry) (e : Entry) (shown : List (List Wake))
        → IsPossible c k (log ++ e ∷ []) shown → IsBehind c k log e shown }
    ensures before { (c : Setup) (k : ℕ) (log : List Entry) (e : Entry) (shown : List (List Wake)) → (b : IsBehind c k log e shown)
        → IsPossible c k log (told c k b.before) }
    ensures kind { (c : Setup) (s : System) (e : Entry) → IsNext c s e → IsOfKind e.op e.reply }
    ensures number { (c : Setup) (s : System) (e : Entry) → IsNext c s e → HasPlaceAsNumber e.place e.op e.reply }
    ensures ecb { (c : Setup) (s : System) (e : Entry) (n : ℕ) (op : EcbOp) → IsNext c s e → e.object ≡ Ecb n → e.op ≡ op_on.Ecb op
        → e.reply ≡ reply_of.Ecb (ecb_step op (s.ecb n).state).1 }
    ensures element { (c : Setup) (s : System) (e : Entry) (n : ℕ) (op : ElementOp) → IsNext c s e → e.object ≡ Element n
        → e.op ≡ op_on.Element op → e.reply ≡ reply_of.Element (element_step op (s.element n).state).1 }
    ensures volume { (c : Setup) (s : System) (e : Entry) (n : ℕ) (op : VolumeOp) → IsNext c s e → e.object ≡ Volume n
        → e.op ≡ op_on.Volume op → e.reply ≡ reply_of.Volume (volume_step op (s.volume n).state).1 }
    ensures latch { (c : Setup) (s : System) (e : Entry) (op : LatchOp) → IsNext c s e → e.object ≡ Latches → e.op ≡ op_on.Latch op
        → e.reply ≡ reply_of.Latch (latch_step e.caller s.latches.place op s.latches.state).1 }
{}

/// Shows that a generation in a reply fits 18 bits, within the events that the budgets of a run may allow.
pub fn generations_in_replies()
    ensures entries { (c : Setup) (xs ys : List Entry) (e : Entry) → Legal c (xs ++ e ∷ ys) → length (xs ++ e ∷ ys) ≤ events_limit
        → NamesUpTo highest_generation e.reply }
    ensures possible { (c : Setup) (k : ℕ) (log : List Entry) (e : Entry) (shown : List (List Wake)) → IsValid c
        → IsPossible c k (log ++ e ∷ []) shown → NamesUpTo highest_generation e.reply }
{}

/// Shows that a code in a block's reply fits 30 bits.
pub fn codes_in_replies()
    ensures entries { (c : Setup) (xs ys : List Entry) (e : Entry) → Legal c (xs ++ e ∷ ys) → NamesLowCode e.reply }
    ensures possible { (c : Setup) (k : ℕ) (log : List Entry) (e : Entry) (shown : List (List Wake))
        → IsPossible c k (log ++ e ∷ []) shown → NamesLowCode e.reply }
{}

/// Shows that an exit that a block's reply names is one of the block's exits. So a post, with the posts of its exits, makes at
/// most as many events as its block's reach, if the reach did not saturate; and the targets of an exit together reach less than
/// its block.
pub fn posts_reach()
    ensures exits { (c : Setup) (es : List Entry) (e : Entry) → Legal c es → IsNext c (after c es) e
        → NamesOwnExit c e.object e.reply }
    ensures heard { (c : Setup) (k : ℕ) (log : List Entry) (hs : List Heard) (shown : List (List Wake))
        → IsPossible c k (log ++ entries hs) shown → NameOwnExits c hs }
    ensures post { (c : Setup) (code e : ℕ) (kept : Kept) (hs : List Heard) → reach c e ≤ events_limit → NameOwnExits c hs
        → Says (post c e code kept) hs → length hs ≤ reach c e }
    ensures targets { (c : Setup) (e x : ℕ) → IsValid c → e < length c.owners → is_exit_of c (suc x) e ≡ true → reach c e ≤ events_limit
        → total (reach c) (targets_of c (suc x)) + 1 ≤ reach c e }
{}

/// Shows that each call makes at most as many events as its row of the table says (`most_events`), if that is below 524,288 and
/// a table of events that the call names was checked: on events whose replies name own exits and whose wakes are fair (`few`),
/// and so in a possible log with the wakes that its caller was shown (`possible`).
pub fn calls_keep_to_their_events()
    ensures few { (c : Setup) (kept : Kept) (s : Service) (hs : List Heard) → HasItsTable c s → most_events c kept s ≤ events_limit
        → NameOwnExits c hs → HaveFairWakes c hs → Says (program c s kept) hs → length hs ≤ most_events c kept s }
    ensures possible { (c : Setup) (k : ℕ) (kept : Kept) (s : Service) (log : List Entry) (shown : List (List Wake)) (hs : List Heard)
        → IsPossible c k (log ++ entries hs) (shown ++ told_by hs) → HaveTheirWakes hs → HasItsTable c s
        → most_events c kept s ≤ events_limit → Says (program c s kept) hs → length hs ≤ most_events c kept s }
{}

/// Shows that a table is refused exactly if it does not pass the test `can_have`.
pub fn refused_tables_cannot_be_had()
    ensures { (c : Setup) (t : Table) → is_some (table_refusal c t) ≡ not (can_have c t) }
{}
