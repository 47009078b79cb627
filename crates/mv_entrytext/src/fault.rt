//! The kinds of fault of journals. `specs/Fault.antt` says which fault of a text is the first, and `specs/Draft.antt` what the
//! reader reports of it.

ghost use Rattle.mv_entrytext.specs.Fault.{kind_number};

use mv_line::FaultKind;

/// A kind of fault that a line of a journal can have. The variants are in the order of their numbers.
#[derive(Clone, Copy, Debug, PartialEq, Eq)]
pub enum Kind {
    /// The line has no form that is allowed there.
    NoForm,
    /// A number has a leading zero or is out of its range.
    BadNumber,
    /// The line is `EVENTS`, and the configuration before it is refused.
    BadConfig,
    /// The line is `END`, and its count is not the number of entries.
    WrongCount,
    /// The text ends within this line, or without an `END`.
    Cut,
}

impl FaultKind for Kind {
    ghost number_of = { kind_number };

    fn number(self) -> u32 {
        match self {
            Kind::NoForm => 1,
            Kind::BadNumber => 2,
            Kind::BadConfig => 3,
            Kind::WrongCount => 4,
            Kind::Cut => 5,
        }
    }
}
