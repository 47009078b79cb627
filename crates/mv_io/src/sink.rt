//! The trait of sinks. Its clauses cite specs/Sink and specs/Fault.

ghost use Rattle.std.specs.Prelude.{◌≤◌, ℕ, List, length, IfOk};
ghost use Rattle.std.specs.declared.option.Option.{Option};
ghost use Rattle.mv_io.specs.Fault.{HasWriteCause};
ghost use Rattle.mv_io.specs.Sink.{Writes};

use crate::Failed;

/// A sink of bytes. `write_all` writes a whole text to one.
pub trait Sink {
    /// The bytes taken so far, if the sink reports them.
    ghost taken: { Self → Option (List ℕ) };

    /// How often the sink has failed. The count never falls, and stops at 2^64 - 1.
    ghost faults: { Self → ℕ };

    /// Takes bytes from the front of `piece`, and returns how many: maybe fewer than it has.
    ///
    /// If it takes none of a piece that has bytes, it has counted a fault.
    ///
    /// # Errors
    ///
    /// `Failed` if the sink failed. Then it took no byte of the piece.
    fn write(&mut self, piece: &[u8]) -> Result<usize, Failed>
        ensures bound { IfOk result (λ k. k ≤ length piece.now) }
        ensures bytes { Writes (taken self.old) (taken self.new) result piece.now }
        ensures faults { HasWriteCause (faults self.old) (faults self.new) result piece.now };
}
