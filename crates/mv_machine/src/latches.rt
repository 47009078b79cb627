//! The latch set of a configuration, as `LatchSet.antt` of mv_latch opens it.

ghost use Rattle.std.specs.Prelude.{◌≡◌, IfOk};
ghost use Rattle.mv_latch.specs.LatchSet.{opened};

use mv_config::ValidConfig;
use mv_io::NoMemory;
use mv_latch::LatchSet;
use std::alloc::Global;

/// Returns a latch set with a configuration's latches and quotas, and without requests.
///
/// # Errors
///
/// Returns `NoMemory` if there is no memory for the requests that the quotas allow.
pub fn open_latches(alloc: Global, config: &ValidConfig) -> Result<LatchSet, NoMemory>
    ensures { IfOk result (λ s. s ≡ opened config.now.latches config.now.callers config.now.quota config.now.posted_quota) }
{
    let given = config.config();
    let latches = LatchSet::new(
        alloc,
        given.latches,
        given.callers,
        given.quota,
        given.posted_quota,
    )?;
    Ok(latches)
}
