//! A short line in a fixed buffer, made without an allocator.

ghost use Rattle.std.specs.Prelude.{◌≡◌, ◌+◌, ◌≤◌, ◌++◌, [], length, decimal};

use arrayvec::ArrayVec;
use itoa::Buffer;
use std::marker::Model;

/// The most bytes of a line. The longest is that of a journal's fault: 20 bytes of words and LF, and two numbers of ten digits.
pub const LONGEST_LINE: usize = 48;

/// A line under construction, of at most `LONGEST_LINE` bytes.
#[derive(Drop)]
pub struct Line {
    bytes: ArrayVec<u8, LONGEST_LINE>,
}

impl Model for Line {
    ghost use Rattle.std.specs.Prelude.{List, ℕ};

    ghost Value = { List ℕ };

    ghost view = { λ l. l.bytes.items };

    ghost invariant = { λ _. Unit {0} };
}

impl Line {
    /// Makes an empty line.
    pub fn new() -> Line
        ensures { result ≡ [] }
    {
        Line {
            bytes: ArrayVec::new(),
        }
    }

    /// Appends a text, for which there is room.
    pub fn push_text(&mut self, text: &[u8])
        requires { length self.old + length text.now ≤ LONGEST_LINE }
        ensures text { self.new ≡ self.old ++ text.now }
        ensures len { length self.new ≡ length self.old + length text.now }
    {
        let _fits = self.bytes.try_extend_from_slice(text);
    }

    /// Appends a number in decimal, at most ten digits.
    pub fn push_number(&mut self, number: u32)
        requires { length self.old + 10 ≤ LONGEST_LINE }
        ensures text { self.new ≡ self.old ++ decimal number }
        ensures len { length self.new ≤ length self.old + 10 }
    {
        self.push_text(Buffer::new().format(number).as_bytes());
    }

    /// Returns the bytes of the line.
    pub fn as_bytes(&self) -> &[u8]
        ensures { result.now ≡ self.now }
    {
        &self.bytes
    }
}
