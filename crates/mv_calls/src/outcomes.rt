//! Outcomes of calls. The programs of `specs/` return these values, and so do the functions of the crates that make the calls.

use mv_element::Token;

/// The outcome of a post.
#[derive(Clone, Copy, Debug, PartialEq, Eq)]
pub enum PostAnswer {
    /// The block was posted, and no task waited for it.
    Posted,
    /// The block was posted, and its waiting task was woken or its exit was run.
    Woke,
    /// The block was complete before with this code, which it keeps; the new code is dropped.
    Already(u32),
}

/// What a wait found of one of its blocks.
#[derive(Clone, Copy, Debug, Default, PartialEq, Eq)]
pub enum WaitSlot {
    /// The block is complete with this code.
    Complete(u32),
    /// The block is not complete.
    #[default]
    Open,
}

/// What a pause returns: the code with which it was released, and the token of the next pause.
#[derive(Clone, Copy, Debug, PartialEq, Eq)]
pub struct Given {
    /// The release code, of three bytes.
    pub code: u32,
    pub next: Token,
}

/// The outcome of a release.
#[derive(Clone, Copy, Debug, PartialEq, Eq)]
pub enum ReleaseAnswer {
    /// The release came before its pause, which will be given the code at once.
    Early,
    /// A task paused with the token, and was woken.
    Woke,
}

/// The state of a request for a latch.
#[derive(Clone, Copy, Debug, PartialEq, Eq)]
pub enum Standing {
    /// The request holds its latch.
    Granted,
    /// The request is queued.
    Waiting,
    /// The latch has no such request of this task: it was released or purged, or was never made.
    Gone,
}

/// What a purge did.
#[derive(Clone, Copy, Debug, PartialEq, Eq)]
pub struct Purged {
    /// The number of requests that it took out.
    pub removed: u32,
    /// The number of other requests that this granted.
    pub granted: u32,
}
