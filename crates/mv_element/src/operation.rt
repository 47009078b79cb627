//! The operations on a pause element, and their replies.

ghost use Rattle.std.specs.Prelude.{◌≡◌, ◌↔◌, IsTrue};

use crate::element::ElementState;

/// The bound of release codes, all of which are below it: they have three bytes, as those of IEAVRLS.
pub const RELEASE_LIMIT: u32 = 1 << 24;

/// An operation on a pause element. The first number is a generation, which may be any; the second is a release code, below
/// `RELEASE_LIMIT`.
///
/// The services are those of *z/OS MVS Programming: Authorized Assembler Services Reference*. Generations in place of tokens, and
/// Resume, are this project's own.
#[derive(Clone, Copy, Debug, PartialEq, Eq)]
pub enum ElementOp {
    /// Allocates a free element (IEAVAPE).
    Open,
    /// Begins a pause, or takes the code that was kept for it (IEAVPSE).
    Pause(u32),
    /// Asks for a paused task whether the pause was released, and takes its code.
    Resume(u32),
    /// Releases the pause with a code, or keeps the code for the pause if it has not begun (IEAVRLS).
    Release(u32, u32),
    /// Gives the element back (IEAVDPE).
    Close(u32),
    /// Reads the state.
    Test,
}

/// The reply to an operation. Spent, Busy, NotYet, InUse, Already and State change nothing.
#[derive(Clone, Copy, Debug, PartialEq, Eq)]
pub enum ElementReply {
    /// The element is now allocated, and has this generation.
    Opened(u32),
    /// The element is not free.
    InUse,
    /// The pause began, and waits for its release.
    Parked,
    /// The pause is over. It was released with this code, and the next pause has the generation `next`.
    Given { code: u32, next: u32 },
    /// The operation names another generation than the element's, or the element is free. This is the element's generation.
    Spent(u32),
    /// The element's phase does not allow the operation.
    Busy,
    /// The pause has not been released.
    NotYet,
    /// The release came before its pause, and its code is kept.
    Early,
    /// The release ended a pause.
    Woke,
    /// The pause had been released before.
    Already,
    /// The element is free again.
    Closed,
    /// The element's state.
    State(ElementState),
}

impl ElementReply {
    /// Returns whether two replies are the same, as `==` does. Its contract says more than that of `==`.
    pub fn is_same(self, other: ElementReply) -> bool
        ensures { IsTrue result ↔ (self ≡ other) }
    {
        self == other
    }
}
