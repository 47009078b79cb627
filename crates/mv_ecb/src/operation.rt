//! The operations on an event control block, and their replies.

/// The bound of completion codes and of the numbers of exits, all of which are below it: a completion code has the 30 low bits of
/// the fullword, as *z/OS MVS Programming: Assembler Services Reference* describes POST.
pub const CODE_LIMIT: u32 = 1 << 30;

/// An operation on an event control block. WAIT is Arm, and Settle once the event is complete; POST is Post. Extend and the exit
/// that it names are this project's own.
#[derive(Clone, Copy, Debug, PartialEq, Eq)]
pub enum EcbOp {
    /// Begins a wait on this block: sets the wait bit if the word is zero.
    Arm,
    /// Begins a wait as Arm does, and stores the number of the exit that a later post is to run: from 1 to 2^30 - 1.
    Extend(u32),
    /// Ends a wait on this block: clears the wait bit that Arm set, if the event is not complete.
    Settle,
    /// Zeroes the word for its next use.
    Clear,
    /// Completes the event with this code, below 2^30. A block that is complete keeps its first code.
    Post(u32),
    /// Reads the word.
    Test,
}

/// The reply to an operation. No reply is a failure: if the block is not in the state that the operation hoped for, the reply
/// says which state it is in, and the block stays as it is.
#[derive(Clone, Copy, Debug, PartialEq, Eq)]
pub enum EcbReply {
    /// The operation set the wait bit.
    Armed,
    /// The block waits, and has this exit.
    Linked(u32),
    /// The block is complete with this code.
    Complete(u32),
    /// The block waits already, and has no exit.
    Waiting,
    /// The event is not complete, and the block had no exit: the word is now zero.
    Open,
    /// The post completed a block on which no task waited.
    Posted,
    /// The post ended a wait. This is the block's exit, or 0 if it has none.
    Woke(u32),
    /// The block was complete before the post, with this code.
    Already(u32),
    /// The word before the operation.
    Word(u32),
}
