//! A choice among the requests of a list: `specs/Selection.antt`.

ghost use Rattle.std.specs.Prelude.{◌≡◌};

use crate::request::{LatchForm, Request};

/// Says which requests of a list are selected.
#[derive(Clone, Copy)]
pub(crate) enum Selection {
    /// The caller's request of this number.
    Own { caller: u32, id: u32 },
    /// All requests of a requestor.
    Of { requestor: u64 },
    /// All requests of a caller.
    By { caller: u32 },
    /// All requests of a caller in the Posted form.
    PostedBy { caller: u32 },
}

impl Selection {
    ghost use Rattle.mv_latch.specs.Selection.{selects};

    pub(crate) fn selects(self, request: &Request) -> bool
        ensures { result ≡ selects self request.now }
    {
        match self {
            Selection::Own { caller, id } => request.id == id && request.caller == caller,
            Selection::Of { requestor } => request.requestor == requestor,
            Selection::By { caller } => request.caller == caller,
            Selection::PostedBy { caller } => {
                request.caller == caller && matches!(request.form, LatchForm::Posted(_))
            }
        }
    }
}
