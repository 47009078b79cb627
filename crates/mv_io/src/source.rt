//! The trait of sources. Its clauses cite specs/Source and specs/Fault.

ghost use Rattle.std.specs.Prelude.{◌≤◌, ℕ, List, length, IfOk};
ghost use Rattle.std.specs.declared.option.Option.{Option};
ghost use Rattle.mv_io.specs.Fault.{HasCause};
ghost use Rattle.mv_io.specs.Source.{Reads};

use crate::Failed;

/// A source of bytes. `read_limited` reads a whole input from one.
pub trait Source {
    /// The bytes that are left, if the source reports them.
    ghost left: { Self → Option (List ℕ) };

    /// How often the source has failed. The count never falls, and stops at 2^64 - 1.
    ghost faults: { Self → ℕ };

    /// Moves bytes into the front of `buf`, and returns how many: maybe fewer than are left.
    ///
    /// If it moves none into a buffer that has room, the input has ended.
    ///
    /// # Errors
    ///
    /// `Failed` if the source failed. Then no byte was taken off it, and the content of the buffer is unspecified.
    fn read(&mut self, buf: &mut [u8]) -> Result<usize, Failed>
        ensures bound { IfOk result (λ k. k ≤ length buf.new) }
        ensures bytes { Reads (left self.old) (left self.new) result buf.new }
        ensures faults { HasCause (faults self.old) (faults self.new) result };
}
