//! The kinds of fault of decks: `specs/Fault.antt`.

ghost use Rattle.mv_deck.specs.Fault.{kind_number};

use mv_line::FaultKind;

/// The kinds of fault that a line of a deck can have, lowest first.
#[derive(Clone, Copy, Debug, PartialEq, Eq)]
pub enum Kind {
    /// The line has a byte outside 32 to 126.
    ForeignByte,
    /// The line has more than 80 bytes.
    TooLong,
    /// The words of the line fit no form of the deck's version.
    NoForm,
    /// A name is not the name of a job.
    BadName,
    /// A JOB has the name of an earlier job.
    RepeatedName,
    /// An AFTER names a job that is not an earlier one.
    UnknownAfter,
    /// An AFTER has a name twice, or more than eight names.
    CrowdedAfter,
    /// A number, an amount or a code is invalid, or a DECK has another word than 2.
    BadNumber,
    /// A USE is of a latch that is not above every latch that the job holds.
    LatchOrder,
    /// A FREE is of a latch that is not held, a COUNT of a volume whose latch is not held exclusively, or a SCAN of one whose
    /// latch is not held.
    LatchNotHeld,
    /// A statement comes before the first JOB and is neither JOB, null nor DECK, or it comes after the null statement.
    Misplaced,
    /// The deck has no null statement. The line of the fault is one more than the number of lines.
    NoNull,
    /// A statement comes after ABEND or RETURN and is neither JOB nor null.
    BehindEnd,
    /// The weight of the deck up to here is above 524,287.
    TooHeavy,
    /// A DECK is not the first statement.
    LateDeck,
}

impl FaultKind for Kind {
    ghost number_of = { kind_number };

    fn number(self) -> u32 {
        match self {
            Kind::ForeignByte => 1,
            Kind::TooLong => 2,
            Kind::NoForm => 3,
            Kind::BadName => 4,
            Kind::RepeatedName => 5,
            Kind::UnknownAfter => 6,
            Kind::CrowdedAfter => 7,
            Kind::BadNumber => 8,
            Kind::LatchOrder => 9,
            Kind::LatchNotHeld => 10,
            Kind::Misplaced => 11,
            Kind::NoNull => 12,
            Kind::BehindEnd => 13,
            Kind::TooHeavy => 14,
            Kind::LateDeck => 15,
        }
    }
}
