//! The operations on a latch set, their replies, and their wakes (`specs/Request.antt`).

ghost use Rattle.std.specs.Prelude.{◌≡◌};

use crate::request::{LatchForm, Mode, Request};

/// An operation on a latch set.
///
/// Latches are numbered from 0, and an `id` is the request number that the obtain's reply gave. The services are those of *z/OS
/// MVS Programming: Authorized Assembler Services Reference*.
#[derive(Clone, Copy, Debug, PartialEq, Eq)]
pub enum LatchOp {
    /// Requests a latch, as ISGLOBT does. A requestor that holds the latch already gets no preference, and may wait for itself.
    Obtain {
        latch: u32,
        requestor: u64,
        mode: Mode,
        form: LatchForm,
    },
    /// Asks for the state of the caller's own request. This project's own.
    Confirm {
        latch: u32,
        id: u32,
    },
    /// Takes the caller's own request out, as ISGLREL does. If it is conditional, a waiting request stays in the list.
    Release {
        latch: u32,
        id: u32,
        conditional: bool,
    },
    /// Takes all requests of a requestor out of all latches, as ISGLPRG does, whichever callers made them.
    Purge {
        requestor: u64,
    },
}

/// The reply to a `LatchOp`.
#[derive(Clone, Copy, Debug, PartialEq, Eq)]
pub enum LatchReply {
    /// The request of this number holds the latch.
    Granted(u32),
    /// The request of this number was queued.
    Queued(u32),
    /// Nothing was queued, because the request of this number blocks the new one: the first of the list, or for a shared request
    /// the first exclusive one.
    NotNow(u32),
    /// The request is in the list, and not granted.
    Waiting,
    /// The latch has no such request of this caller: it was released, purged, or never made.
    Gone,
    /// The request was taken out, and this granted `granted` others.
    Released { granted: u32 },
    /// `removed` requests were taken out, and this granted `granted` others.
    Purged { removed: u32, granted: u32 },
}

/// A wake: a caller to notify that its request was granted, or purged while it waited.
#[derive(Clone, Copy, Debug, PartialEq, Eq)]
pub struct Wake {
    /// The caller that made the request.
    pub caller: u32,
    /// The request's number.
    pub id: u32,
    /// The ECB that is to be posted with the code, if the request has the Posted form; otherwise the caller's task is to be
    /// woken.
    pub ecb: Option<u32>,
    /// 0 if the request was granted, 1 if it was purged while it waited.
    pub code: u32,
}

impl Wake {
    ghost use Rattle.mv_latch.specs.Request.{wake_of};

    /// Returns the wake for a request, with this code.
    pub(crate) fn of(request: &Request, code: u32) -> Wake
        ensures { result ≡ wake_of code request.now }
    {
        let ecb = match request.form {
            LatchForm::Posted(ecb) => Some(ecb),
            LatchForm::Conditional | LatchForm::Waiting => None,
        };
        Wake {
            caller: request.caller,
            id: request.id,
            ecb,
            code,
        }
    }
}
