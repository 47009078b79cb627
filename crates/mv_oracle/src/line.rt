//! The line of an event in a journal, from the numbers of an operation and of its answer: specs/Line.

ghost use Rattle.std.specs.Prelude.{◌≡◌, ◌≢◌, ◌<◌, ◌++◌, length, drop, MatchBool};
ghost use Rattle.mv_oracle.specs.Line.{IsLine, IsNextOf, entry_of};

use crate::answer::Answer;
use crate::operation::Operation;
use crate::reply::reply;
use crate::status::{DONE, NO_MEMORY, NO_ROOM, NO_SUCH_OPERATION};
use mv_entrytext::push_entry_line;
use mv_machine::Entry;
use std::alloc::Global;

// Returns the entry of an operation and its answer, or `None` if a number has no meaning.
fn entry(operation: &Operation, answer: &Answer) -> Option<Entry>
    ensures { result ≡ entry_of operation.now answer.now }
{
    let (object, op) = operation.request()?;
    let reply = reply(object, answer)?;
    Some(Entry {
        caller: operation.caller,
        object,
        place: answer.place,
        op,
        reply,
    })
}

// Copies a line to the front of the room, and writes its length. Returns whether there was room for it; if not, nothing changed.
fn copy_line(line: &[u8], text: &mut [u8], count: &mut usize) -> bool
    ensures { MatchBool result
        ((count.new ≡ length line.now) × (text.new ≡ line.now ++ drop (length line.now) text.old))
        ((length text.old < length line.now) × (text.new ≡ text.old) × (count.new ≡ count.old)) }
{
    if line.len() > text.len() {
        return false;
    }
    text[..line.len()].copy_from_slice(line);
    *count = line.len();
    true
}

/// Writes the line of an event in a journal of version 1, with its LF, to the front of a room of bytes, and its length. The operation and
/// its answer are those of a step, or of an event of another implementation.
///
/// Returns 0 if the line was written, 3 if a number has no meaning, 6 if the room is too small, and 7 if memory ran out. Unless the line
/// was written, the room and the length are as they were.
pub fn write_line(
    alloc: Global,
    operation: &Operation,
    answer: &Answer,
    text: &mut [u8],
    count: &mut usize,
) -> u32
    ensures line { IsLine (entry_of operation.now answer.now) result text.old text.new count.new }
    ensures next { IsNextOf operation.now answer.now }
    ensures unwritten { result ≢ 0 → (text.new ≡ text.old) × (count.new ≡ count.old) }
{
    let Some(entry) = entry(operation, answer) else {
        return NO_SUCH_OPERATION;
    };
    let mut line = Vec::new(alloc);
    if push_entry_line(&mut line, None, &entry).is_err() {
        return NO_MEMORY;
    }
    if copy_line(&line, text, count) {
        DONE
    } else {
        NO_ROOM
    }
}
