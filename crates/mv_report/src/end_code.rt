//! The three ways to end, by the end code. `specs/EndCode.antt` defines them.

ghost use Rattle.std.specs.Prelude.{◌≡◌};
ghost use Rattle.mv_report.specs.EndCode.{is_ended, is_not_run, is_abended};

use mv_deck::{HIGHEST_CODE, NOT_RUN};

pub(crate) fn is_ended(end: u32) -> bool
    ensures { result ≡ is_ended end }
{
    end <= HIGHEST_CODE
}

pub(crate) fn is_not_run(end: u32) -> bool
    ensures { result ≡ is_not_run end }
{
    end == NOT_RUN
}

pub(crate) fn is_abended(end: u32) -> bool
    ensures { result ≡ is_abended end }
{
    !(is_ended(end) || is_not_run(end))
}
