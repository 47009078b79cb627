//! Laws of the table in `specs/Table.antt`. A law has no body: call it for its clause.

ghost use Rattle.std.specs.Prelude.{◌≡◌, ◌≢◌, ℕ};
ghost use Rattle.mv_ecb.specs.declared.operation.EcbOp.{EcbOp};
ghost use Rattle.mv_ecb.specs.Word.{Complete};
ghost use Rattle.mv_ecb.specs.Table.{ecb_step};

/// Shows that a complete block keeps its code under every operation except Clear.
pub fn complete_keeps_its_code()
    ensures { (op : EcbOp) (code : ℕ) → op ≢ EcbOp.Clear → (ecb_step op (Complete code)).0 ≡ Complete code }
{}
