//! Laws of the table in `specs/Table.antt`. A law has no body: call it for its clauses.

ghost use Rattle.std.specs.Prelude.{◌≡◌, ◌≤◌, ◌+◌, true, false};
ghost use Rattle.mv_element.specs.declared.operation.ElementOp.{ElementOp};
ghost use Rattle.mv_element.specs.declared.element.ElementState.{ElementState};
ghost use Rattle.mv_element.specs.Table.{element_step, ends_generation};

/// Shows that an element's generation rises by one with each reply Given or Closed, and that nothing else changes it.
pub fn generation_rises_as_it_ends()
    ensures never_falls { (op : ElementOp) (s : ElementState) → s.generation ≤ (element_step op s).0.generation }
    ensures rises { (op : ElementOp) (s : ElementState) → ends_generation (element_step op s).1 ≡ true
        → (element_step op s).0.generation ≡ s.generation + 1 }
    ensures stays { (op : ElementOp) (s : ElementState) → ends_generation (element_step op s).1 ≡ false
        → (element_step op s).0.generation ≡ s.generation }
{}
