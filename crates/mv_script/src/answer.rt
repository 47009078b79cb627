//! The answers to the calls of a script.

use mv_element::{ElementState, Token};
use mv_wait::WaitSlot;
use std::marker::Model;

/// The answer to one call: what the service returned or why it refused, or that a try read another word than it expected.
#[derive(Debug, Drop)]
pub enum Answer {
    /// A WAIT is over; these are its blocks as it found them.
    Waited(Slots),
    /// A WAIT was refused: its count is above the number of its blocks.
    TooMany,
    /// A WAIT was refused: the block at this position of its list, counted from 0, is earlier in the list, too.
    Doubled(u32),
    /// A WAIT was refused: the block at this position of its list, counted from 0, has another owner.
    NotOwnerAt(u32),
    /// A WAIT was refused: the block at this position of its list, counted from 0, is extended.
    ExtendedAt(u32),
    /// The block was posted, and no task waited on it.
    Posted,
    /// A post ended a wait, or a release ended a pause.
    Woke,
    /// The block had been complete before the post, with this code.
    AlreadyPosted(u32),
    /// A try read this word of its object, which is not the word that it expected.
    Moved(u64),
    /// The fullword of a block; for a CLEAR, the word before it.
    Word(u32),
    /// The block, the element or the table has another owner.
    NotOwner,
    /// The call is done and returns nothing.
    Done,
    /// An EXTEND was refused: no exit of this number starts from the block.
    BadExit,
    /// An EXTEND was refused: the block is extended.
    Extended,
    /// An EXTEND was refused: the block is complete with this code.
    Complete(u32),
    /// The number in a volume.
    Value(u32),
    /// The token of the element that was allocated.
    Token(Token),
    /// An ALLOC was refused: all elements of the task are in use.
    NoElement,
    /// A pause is over: the code that it was given, and the token of the next pause.
    Given { code: u32, next: Token },
    /// The token is not the current one of its element; this is the element's generation.
    Spent(u32),
    /// The release came before its pause, and its code is kept.
    Early,
    /// The pause had been released before.
    AlreadyReleased,
    /// The token of a TRANSFER's target is not the current one of its element; this is the element's generation.
    TargetSpent(u32),
    /// The pause of a TRANSFER's target had been released before.
    TargetAlready,
    /// The state of an element.
    State(ElementState),
    /// The request holds its latch.
    Granted,
    /// The request is queued, and its block will be posted.
    Pending,
    /// An OBTAIN was refused: there is no such latch.
    BadLatch,
    /// The task has used up its quota of latch requests.
    Quota,
    /// An OBTAIN was refused: the request of this number blocks it.
    NotNow(u32),
    /// The request of an OBTAIN was purged while it waited.
    Purged,
    /// The request waits; a FREE did not change that.
    Waiting,
    /// The request is no longer there.
    Gone,
    /// The OBTAIN that the call names got no request.
    NoToken,
    /// An event was posted, and is the one at this position of the table.
    Entered(u32),
    /// The event at a position of the table: its index, and the word of its block.
    Event { index: u32, word: u32 },
    /// The table has no such position.
    Drained,
    /// A release granted this many requests.
    Released(u32),
    /// A purge took out `removed` requests, and this granted `granted` others.
    PurgedCounts { removed: u32, granted: u32 },
}

/// The answers of one task's calls, in order.
#[derive(Debug, Drop)]
pub struct AnswerList {
    pub answers: Vec<Answer>,
}

impl Model for AnswerList {
    ghost use Rattle.std.specs.Prelude.{List};
    ghost use Rattle.mv_script.specs.declared.answer.Answer.{Answer};

    ghost Value = { List Answer };

    ghost view = { λ l. l.answers.items };
}

/// The blocks of a wait as it found them.
#[derive(Debug, Drop)]
pub struct Slots {
    pub slots: Vec<WaitSlot>,
}

impl Model for Slots {
    ghost use Rattle.std.specs.Prelude.{List};
    ghost use Rattle.mv_calls.specs.declared.outcomes.WaitSlot.{WaitSlot};

    ghost Value = { List WaitSlot };

    ghost view = { λ s. s.slots.items };
}
