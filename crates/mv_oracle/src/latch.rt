//! Requests and wakes of the latch set as structs of C: specs/Latch.

ghost use Rattle.std.specs.Prelude.{◌≡◌};
ghost use Rattle.mv_oracle.specs.Latch.{latch_wake, latch_request};

use mv_latch::{LatchForm, Mode, Request, Wake};

/// A task that has to be woken, or a block that has to be posted, after an operation on the latch set.
#[repr(C)]
#[derive(Clone, Copy)]
pub struct LatchWake {
    /// The caller that made the request.
    pub caller: u32,
    /// The number of the request.
    pub request: u32,
    /// 0 if the request was granted, 1 if it was purged while it waited.
    pub code: u32,
    /// 1 if the request is of the posted form: its event control block is posted with the code. Otherwise 0: the task is woken.
    pub posts: u32,
    /// The event control block, if one is posted.
    pub ecb: u32,
}

/// A request in the list of a latch.
#[repr(C)]
#[derive(Clone, Copy)]
pub struct LatchRequest {
    pub requestor: u64,
    /// The number of the request.
    pub request: u32,
    /// The caller that made the request.
    pub caller: u32,
    /// 0 shared, 1 exclusive.
    pub mode: u32,
    /// 0 conditional, 1 waiting, 2 posted.
    pub form: u32,
    /// The event control block of the posted form.
    pub ecb: u32,
}

impl LatchWake {
    pub(crate) fn of(wake: &Wake) -> LatchWake
        ensures { result ≡ latch_wake wake.now }
    {
        let (posts, ecb) = match wake.ecb {
            Some(ecb) => (1, ecb),
            None => (0, 0),
        };
        LatchWake {
            caller: wake.caller,
            request: wake.id,
            code: wake.code,
            posts,
            ecb,
        }
    }
}

impl LatchRequest {
    pub(crate) fn of(request: &Request) -> LatchRequest
        ensures { result ≡ latch_request request.now }
    {
        let mode = match request.mode {
            Mode::Shared => 0,
            Mode::Exclusive => 1,
        };
        let (form, ecb) = match request.form {
            LatchForm::Conditional => (0, 0),
            LatchForm::Waiting => (1, 0),
            LatchForm::Posted(ecb) => (2, ecb),
        };
        LatchRequest {
            requestor: request.requestor,
            request: request.id,
            caller: request.caller,
            mode,
            form,
            ecb,
        }
    }
}
