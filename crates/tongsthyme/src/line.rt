//! The line of an event in a journal. Its clauses cite specs/Line of mv_oracle.

ghost use Rattle.std.specs.Prelude.{◌≡◌, ◌≢◌};
ghost use Rattle.mv_oracle.specs.Line.{IsLine, IsNextOf, entry_of};

use mv_oracle::{Answer, Operation, write_line};
use std::alloc::Global;

/// Writes the line of an event in a journal of version 1. See `write_line`.
///
/// ```c
/// uint32_t tongsthyme_line(const struct tongsthyme_operation *operation, const struct tongsthyme_answer *answer,
///                          uint8_t *text, size_t room, size_t *length);
/// ```
#[unsafe(no_mangle)]
pub extern "C" fn tongsthyme_line(
    alloc: Global,
    operation: &Operation,
    answer: &Answer,
    text: &mut [u8],
    count: &mut usize,
) -> u32
    ensures line { IsLine (entry_of operation.now answer.now) result text.old text.new count.new }
    ensures next { IsNextOf operation.now answer.now }
    ensures unwritten { result ≢ 0 → (text.new ≡ text.old) × (count.new ≡ count.old) }
{
    write_line(alloc, operation, answer, text, count)
}
