//! The kinds of fault of scripts: `specs/Kind.antt`.

ghost use Rattle.std.specs.Prelude.{◌≡◌};
ghost use Rattle.mv_scriptline.specs.Kind.{kind_number};
ghost use Rattle.mv_scriptline.specs.Misread.{misread_refusal};

use crate::words::Misread;
use mv_line::{FaultKind, LineRefusal};

/// The kinds of fault that a line of a script can have, lowest first.
#[derive(Clone, Copy, Debug, PartialEq, Eq)]
pub enum Kind {
    /// The line has a byte outside 32 to 126.
    ForeignByte,
    /// The line has more than 80 bytes.
    TooLong,
    /// The words of the line fit no form.
    NoForm,
    /// A number has a leading zero, is out of its range, or names no block, task, volume, element or event.
    BadNumber,
    /// The line is out of the order SCRIPT, ECB, EXIT, TABLE, tasks, END, or follows END.
    OutOfOrder,
    /// There are more tasks, calls, blocks, exits or tables than allowed, or END follows fewer TASK lines than stated.
    Miscounted,
    /// An EXIT has a target that is not above its source.
    LeadsDown,
    /// A CHECK or a FREE has a number of no earlier OBTAIN of the task.
    NoObtain,
    /// The script has no END. The line of the fault is one more than the number of lines.
    NoEnd,
    /// The costs of the calls up to here are above 524,287.
    TooCostly,
    /// In a script with a table, a call other than EVPOST and EVNEXT names one of its blocks (except in TEST), writes its volume,
    /// obtains its latch, or names a requestor of 2^63 or more.
    UsesTable,
    /// A TABLE states a table that `Table::check` refuses.
    BadTable,
}

impl FaultKind for Kind {
    ghost number_of = { kind_number };

    fn number(self) -> u32 {
        match self {
            Kind::ForeignByte => 1,
            Kind::TooLong => 2,
            Kind::NoForm => 3,
            Kind::BadNumber => 4,
            Kind::OutOfOrder => 5,
            Kind::Miscounted => 6,
            Kind::LeadsDown => 7,
            Kind::NoObtain => 8,
            Kind::NoEnd => 9,
            Kind::TooCostly => 10,
            Kind::UsesTable => 11,
            Kind::BadTable => 12,
        }
    }
}

impl From<Misread> for LineRefusal<Kind> {
    ghost from_gives = { λ why e. e ≡ misread_refusal why };

    fn from(why: Misread) -> Self {
        match why {
            Misread::NoForm => LineRefusal::Has(Kind::NoForm),
            Misread::BadNumber => LineRefusal::Has(Kind::BadNumber),
        }
    }
}
