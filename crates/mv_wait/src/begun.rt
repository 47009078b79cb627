//! What the first half of a call returns. Clauses of such calls cite `specs/Begun.antt`.

/// The state of a call after its first half: `begin_wait` of `Station`, `begin_pause` of mv_pause, `begin_obtain` of mv_latchset.
///
/// A call that parks has two halves, one before it parks and one after. A call that does not park makes the first half, and makes
/// the second once what it waits for was seen to have happened.
#[derive(Clone, Copy, Debug, PartialEq, Eq)]
pub enum Begun<T, W> {
    /// The call is over, with this answer.
    Over(T),
    /// The call waits. Only its second half ends it, and is given this.
    Waits(W),
}
