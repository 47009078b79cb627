//! A reader of texts by lines: one pass over the bytes, for any rules of lines (`specs/Fault.antt`).

ghost use Rattle.std.specs.Prelude.{◌≡◌, ◌<◌, ◌-◌, ◌^◌, [], length, fold, None, Some, option_map, MatchResult, if◌then◌else◌};
ghost use Rattle.mv_line.specs.Fault.{LineRules, TellsLowest, TellsFirst, first_fault};
ghost use Rattle.mv_line.specs.Line.{lines_of};

use crate::fault::{FaultKind, LineRefusal, TextRefusal};
use crate::line::Lines;

/// Takes the lines of a text one by one, and keeps what it needs of them. `read_lines` gives it the lines of a whole text.
pub trait LineReader<'a> {
    /// The kinds of fault of its lines.
    type Kind: FaultKind;

    /// What the rules depend on and no line changes.
    ghost Setting: { Type 0 } = { Unit {0} };

    /// What the lines so far have stated, in the words of the rules.
    ghost Said: { Type 0 };

    /// The rules of its lines.
    ghost rules: { Self.Setting → LineRules Self.Said };

    /// The reader has taken lines that stated this.
    ghost HasTaken: { Self.Setting → Self.Said → Self → Type 0 };

    /// Takes the next line.
    ///
    /// # Errors
    ///
    /// The lowest kind of the line's faults, or `NoMemory`, which may be returned before all kinds are checked.
    fn take_line(&mut self, line: &'a [u8]) -> Result<(), LineRefusal<Self::Kind>>
        requires { (setting : Self.Setting) × (said : Self.Said) × Self.HasTaken setting said self.old }
        ensures { (setting : Self.Setting) (said : Self.Said) → Self.HasTaken setting said self.old → MatchResult result
            (λ _. ((Self.rules setting).kinds_of said line.now ≡ [])
            × Self.HasTaken setting ((Self.rules setting).with_line said line.now) self.new)
            (λ e. TellsLowest Self.Kind.number_of e ((Self.rules setting).kinds_of said line.now)) };

    /// Returns the kind of fault of a text that ends here, or `None` if the text is complete.
    fn kind_at_end(&self) -> Option<Self::Kind>
        ensures { (setting : Self.Setting) (said : Self.Said) → Self.HasTaken setting said self.now
            → option_map Self.Kind.number_of result
            ≡ (if (Self.rules setting).is_whole said then None else Some (Self.rules setting).cut_short) };
}

/// Reads a text by lines, to its end or to its first fault.
///
/// Lines are counted from 1 in a `u32`, and the line after the last has a number, too; so the text has fewer than 2^32 - 1 bytes.
/// The time is linear in the bytes, apart from the reader's own.
///
/// # Errors
///
/// `Fault`, the first fault of the text, if it has one. `NoMemory` if the reader runs out of memory, which may happen before a
/// fault is reached.
pub fn read_lines<'a, R: LineReader<'a>>(reader: &mut R, bytes: &'a [u8]) -> Result<(), TextRefusal>
    requires short { length bytes.now < 2 ^ 32 - 1 }
    requires behind { (setting : R.Setting) × (said : R.Said) × R.HasTaken setting said reader.old }
    ensures { (setting : R.Setting) (said : R.Said) → R.HasTaken setting said reader.old → MatchResult result
        (λ _. (first_fault (R.rules setting) said (lines_of bytes.now) ≡ None)
        × R.HasTaken setting (fold (R.rules setting).with_line said (lines_of bytes.now)) reader.new)
        (λ e. TellsFirst e (first_fault (R.rules setting) said (lines_of bytes.now))) }
{
    let mut lines = Lines::of(bytes);
    'lines: while let Some((number, line)) = lines.next() {
        if let Err(refusal) = reader.take_line(line) {
            return Err(refusal.at(number));
        }
    }
    match reader.kind_at_end() {
        Some(kind) => Err(TextRefusal::Fault(kind.at(lines.number))),
        None => Ok(()),
    }
}
