//! The faults of a text, and why a text or a line was refused (`specs/Fault.antt`).

ghost use Rattle.std.specs.Prelude.{◌≡◌, ℕ, MatchResult};
ghost use Rattle.mv_line.specs.Fault.{fault_at, refusal_at};
ghost use Rattle.mv_line.specs.declared.fault.LineRefusal.TheVariants as of_line;
ghost use Rattle.mv_line.specs.declared.fault.TextRefusal.TheVariants as of_text;

use mv_io::NoMemory;
use std::alloc::{AllocError, AllocFailed};
use thiserror::Error;

/// A fault of a text: the number of a line, counted from 1, and the number of the kind of fault that it has.
///
/// Ignored lines are counted too. The kinds are this project's own, and each text format has its own kinds.
#[derive(Clone, Copy, Debug, PartialEq, Eq, Error)]
#[error("line {line} has a fault of kind {kind}")]
pub struct TextFault {
    pub line: u32,
    /// The number of the kind, as `FaultKind::number` returns it.
    pub kind: u32,
}

/// Why a text was not read.
#[derive(Clone, Copy, Debug, PartialEq, Eq, Error)]
pub enum TextRefusal {
    /// The first fault of the text: that of the lowest line, and there the first of the kinds that the rules of its lines list.
    #[error("{0}")]
    Fault(TextFault),
    /// There was not enough memory for what the text states. The text may have a fault or none.
    #[error("there is not enough memory for the text")]
    NoMemory,
}

impl TextRefusal {
    /// Returns the fault, if the text was refused for one.
    ///
    /// # Errors
    ///
    /// `NoMemory` if the text was refused because memory ran out, so that `refusal.fault()?` passes that on.
    pub fn fault(self) -> Result<TextFault, NoMemory>
        ensures { MatchResult result (λ fault. self ≡ of_text.Fault fault) (λ _. self ≡ of_text.NoMemory) }
    {
        match self {
            TextRefusal::Fault(fault) => Ok(fault),
            // out of memory: the text was refused for that.
            TextRefusal::NoMemory => Err(NoMemory),
        }
    }
}

impl From<NoMemory> for TextRefusal {
    ghost from_gives = { λ _ e. e ≡ of_text.NoMemory };

    fn from(_: NoMemory) -> Self {
        TextRefusal::NoMemory
    }
}

impl From<AllocError> for TextRefusal {
    ghost from_gives = { λ _ e. e ≡ of_text.NoMemory };

    fn from(_: AllocError) -> Self {
        TextRefusal::NoMemory
    }
}

impl<T: Drop> From<AllocFailed<T>> for TextRefusal {
    ghost from_gives = { λ _ e. e ≡ of_text.NoMemory };

    fn from(_: AllocFailed<T>) -> Self {
        TextRefusal::NoMemory
    }
}

/// The kinds of fault that a line of one text format can have.
pub trait FaultKind: Copy {
    /// The number of a kind, in contracts.
    ghost number_of: { Self → ℕ };

    /// Returns the number of the kind, as `TextFault` has it.
    fn number(self) -> u32
        ensures { result ≡ number_of self };

    /// Returns the fault of this kind in the line of this number.
    fn at(self, line: u32) -> TextFault
        ensures { result ≡ fault_at line (number_of self) }
    {
        TextFault {
            line,
            kind: self.number(),
        }
    }
}

/// Why a line was refused.
#[derive(Clone, Copy)]
pub enum LineRefusal<K> {
    /// The line has a fault; this is the lowest of its kinds.
    Has(K),
    NoMemory,
}

impl<K: FaultKind> LineRefusal<K> {
    /// Returns the refusal of a text that is refused at the line of this number.
    pub fn at(self, line: u32) -> TextRefusal
        ensures { result ≡ refusal_at K.number_of line self }
    {
        match self {
            LineRefusal::Has(kind) => TextRefusal::Fault(kind.at(line)),
            // out of memory: the line was refused for that.
            LineRefusal::NoMemory => TextRefusal::NoMemory,
        }
    }
}

impl<K> From<NoMemory> for LineRefusal<K> {
    ghost from_gives = { λ _ e. e ≡ of_line.NoMemory };

    fn from(_: NoMemory) -> Self {
        LineRefusal::NoMemory
    }
}

impl<K> From<AllocError> for LineRefusal<K> {
    ghost from_gives = { λ _ e. e ≡ of_line.NoMemory };

    fn from(_: AllocError) -> Self {
        LineRefusal::NoMemory
    }
}

impl<K, T: Drop> From<AllocFailed<T>> for LineRefusal<K> {
    ghost from_gives = { λ _ e. e ≡ of_line.NoMemory };

    fn from(_: AllocFailed<T>) -> Self {
        LineRefusal::NoMemory
    }
}
