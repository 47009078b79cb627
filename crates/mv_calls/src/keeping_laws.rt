//! What a task keeps of its own log, and what it knows by that of its blocks and its elements, whatever others do: laws by
//! specs/Keeping.antt, specs/Rest.antt and specs/Known.antt.
ghost use Rattle.std.specs.Prelude.{◌≡◌, ℕ, true, false, List};
ghost use Rattle.mv_ecb.specs.declared.operation.EcbOp.TheVariants as ecb_op;
ghost use Rattle.mv_ecb.specs.Word.{Waiting};
ghost use Rattle.mv_element.specs.declared.operation.ElementOp.TheVariants as element_op;
ghost use Rattle.mv_element.specs.declared.operation.ElementReply.TheVariants.{Opened, Closed};
ghost use Rattle.mv_machine.specs.Prelude.{standing, Legal, after, of, OnElement, OnEcb, Setup, owner_of, element_owner};
ghost use Rattle.mv_machine.specs.declared.entry.Op.TheVariants as op_on;
ghost use Rattle.mv_calls.specs.Prelude.{Entry, Ecb, Element, IsEvent, kept_of, IsAtRest, open_waits};
ghost use Rattle.mv_calls.specs.Known.{BlockAgrees, ElementAgrees, IsExtendedOrComplete, IsPlain, IsPauseReply, IsResumeReply};
ghost use Rattle.mv_calls.specs.Known.{IsNotBusy, IsArmReply, IsSettleReply, IsUnpaused};

/// Shows that what a caller keeps of its own entries agrees with the machine, whatever others did.
pub fn keeping_agrees()
    ensures caller { (k : ℕ) (log : List Entry) → (kept_of k log).caller ≡ k }
    ensures requests { (k : ℕ) (es : List Entry) → (kept_of k (of k es)).requests ≡ standing (of k es) }
    // A block waits only if its owner has it armed, and has an exit only if its owner holds it extended; the exit then starts
    // from the block.
    ensures block { (c : Setup) (n k : ℕ) → owner_of c n ≡ k → (es : List Entry) → Legal c es
        → BlockAgrees c n ((after c es).ecb n).state ((open_waits (of k es)).armed n) ((kept_of k (of k es)).extended n) }
    ensures extended { (c : Setup) (es : List Entry) (n : ℕ) → Legal c es
        → (kept_of (owner_of c n) (of (owner_of c n) es)).extended n ≡ true
        → IsExtendedOrComplete c n ((after c es).ecb n).state }
    ensures plain { (c : Setup) (es : List Entry) (n : ℕ) → Legal c es → (open_waits (of (owner_of c n) es)).armed n ≡ false
        → (kept_of (owner_of c n) (of (owner_of c n) es)).extended n ≡ false → IsPlain ((after c es).ecb n).state }
    // So a block whose owner is at rest does not wait.
    ensures at_rest { (c : Setup) (es : List Entry) (n : ℕ) → Legal c es → IsAtRest (of (owner_of c n) es)
        → ((after c es).ecb n).state ≡ Waiting → ⊥ }
    // An element is free exactly if its owner does not have it in use, has the kept generation, and is paused or released
    // exactly if its owner's pause parked and was given no code since.
    ensures element { (c : Setup) (n k : ℕ) → element_owner c n ≡ k → (es : List Entry) → Legal c es
        → ElementAgrees ((after c es).element n).state ((kept_of k (of k es)).in_use n) ((open_waits (of k es)).parked n)
        ((kept_of k (of k es)).generation n) }
    // So an element that is in use, and whose owner is at rest, is neither paused nor released.
    ensures element_at_rest { (c : Setup) (es : List Entry) (n : ℕ) → Legal c es → IsAtRest (of (element_owner c n) es)
        → (kept_of (element_owner c n) (of (element_owner c n) es)).in_use n ≡ true → IsUnpaused ((after c es).element n).state.phase }
{}

/// Shows which replies an owner gets from its block. If the owner neither has the block armed nor holds it extended, its arm or
/// extend arms the block or finds it complete. If the owner does not hold the block extended, its settle finds it open or
/// complete.
pub fn own_blocks_answer()
    ensures arm { (c : Setup) (es : List Entry) (e : Entry) (n : ℕ) → IsEvent c es e (Ecb n) (op_on.Ecb ecb_op.Arm)
        → (open_waits (of e.caller es)).armed n ≡ false → (kept_of e.caller (of e.caller es)).extended n ≡ false
        → OnEcb IsArmReply e.reply }
    ensures extend { (c : Setup) (es : List Entry) (e : Entry) (n exit : ℕ) → IsEvent c es e (Ecb n) (op_on.Ecb (ecb_op.Extend exit))
        → (open_waits (of e.caller es)).armed n ≡ false → (kept_of e.caller (of e.caller es)).extended n ≡ false
        → OnEcb IsArmReply e.reply }
    ensures settle { (c : Setup) (es : List Entry) (e : Entry) (n : ℕ) → IsEvent c es e (Ecb n) (op_on.Ecb ecb_op.Settle)
        → (kept_of e.caller (of e.caller es)).extended n ≡ false → OnEcb IsSettleReply e.reply }
{}

/// Shows which replies an owner gets from its element, by its own entries. An element that is not in use opens with the kept
/// generation. If no pause of the owner is parked, a pause or a close of the kept generation of an element in use is not
/// refused; if one is, a resume of the kept generation is not refused.
pub fn own_elements_answer()
    ensures opening { (c : Setup) (es : List Entry) (e : Entry) (n : ℕ) → IsEvent c es e (Element n) (op_on.Element element_op.Open)
        → (kept_of e.caller (of e.caller es)).in_use n ≡ false
        → OnElement (λ r. r ≡ Opened ((kept_of e.caller (of e.caller es)).generation n)) e.reply }
    ensures pause { (c : Setup) (es : List Entry) (e : Entry) (n g : ℕ) → IsEvent c es e (Element n) (op_on.Element (element_op.Pause g))
        → (kept_of e.caller (of e.caller es)).in_use n ≡ true → (kept_of e.caller (of e.caller es)).generation n ≡ g
        → (open_waits (of e.caller es)).parked n ≡ false → OnElement (IsPauseReply g) e.reply }
    ensures resume { (c : Setup) (es : List Entry) (e : Entry) (n g : ℕ) → IsEvent c es e (Element n) (op_on.Element (element_op.Resume g))
        → (kept_of e.caller (of e.caller es)).generation n ≡ g → (open_waits (of e.caller es)).parked n ≡ true
        → OnElement (IsResumeReply g) e.reply }
    ensures close { (c : Setup) (es : List Entry) (e : Entry) (n g : ℕ) → IsEvent c es e (Element n) (op_on.Element (element_op.Close g))
        → (kept_of e.caller (of e.caller es)).in_use n ≡ true → (kept_of e.caller (of e.caller es)).generation n ≡ g
        → (open_waits (of e.caller es)).parked n ≡ false → OnElement (λ r. r ≡ Closed) e.reply }
    // With any generation, the reply is not Busy: to a pause or a close if no pause of the owner parked, to a resume if one
    // did.
    ensures pause_not_busy { (c : Setup) (es : List Entry) (e : Entry) (n g : ℕ)
        → IsEvent c es e (Element n) (op_on.Element (element_op.Pause g)) → (open_waits (of e.caller es)).parked n ≡ false
        → OnElement IsNotBusy e.reply }
    ensures close_not_busy { (c : Setup) (es : List Entry) (e : Entry) (n g : ℕ)
        → IsEvent c es e (Element n) (op_on.Element (element_op.Close g)) → (open_waits (of e.caller es)).parked n ≡ false
        → OnElement IsNotBusy e.reply }
    ensures resume_not_busy { (c : Setup) (es : List Entry) (e : Entry) (n g : ℕ)
        → IsEvent c es e (Element n) (op_on.Element (element_op.Resume g)) → (open_waits (of e.caller es)).parked n ≡ true
        → OnElement IsNotBusy e.reply }
{}
