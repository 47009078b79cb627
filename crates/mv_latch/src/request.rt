//! One request for a latch: its mode, its form and its requestor. `specs/Request.antt` defines predicates on it.

/// The mode in which a requestor holds a latch, as for ISGLOBT.
#[derive(Clone, Copy, Debug, PartialEq, Eq)]
pub enum Mode {
    /// The holder shares the latch with other shared holders.
    Shared,
    /// The holder is the only one.
    Exclusive,
}

/// What happens to a request that is not granted at once, as the obtain service ISGLOBT offers it.
#[derive(Clone, Copy, Debug, PartialEq, Eq)]
pub enum LatchForm {
    /// The request is dropped, and its number is not used.
    Conditional,
    /// The request is queued, and its task is woken when the request is granted, or when it is purged while it waits.
    Waiting,
    /// The request is queued, and the ECB of this number is posted with 0 when the request is granted, or with 1 when it is
    /// purged while it waits.
    Posted(u32),
}

/// One request in a latch's list.
#[derive(Clone, Copy, Debug, PartialEq, Eq)]
pub struct Request {
    /// The request's number, which no other request in the lists has.
    pub id: u32,
    /// The caller that made it.
    pub caller: u32,
    /// The eight bytes by which a purge names it.
    pub requestor: u64,
    /// The mode in which it holds the latch once it is granted.
    pub mode: Mode,
    /// What happens if it is not granted at once.
    pub form: LatchForm,
}
