//! A configuration of tasks that wait for event control blocks and post them. Clauses cite `specs/Blocks.antt`, and `Limits.antt`
//! of mv_machine.

ghost use Rattle.std.specs.Prelude.{◌≡◌, ◌<◌, ◌≤◌, length, sum, IfOk};
ghost use Rattle.std.specs.List.{AllByRecursion};
ghost use Rattle.mv_config.specs.Limits.{callers_limit, ecbs_limit, events_limit};
ghost use Rattle.mv_attach.specs.Blocks.{blocks_setup};

use mv_io::NoMemory;
use mv_machine::{Config, ValidConfig};
use std::alloc::Global;

/// Makes a configuration with a caller for each of these budgets and a block for each of these owners.
///
/// Of all else it has the least that is allowed: one element a caller, one volume, one latch, one latch request a caller at a
/// time, none of the Posted form, and no exits. Its limits are those of `Config`.
///
/// # Errors
///
/// `NoMemory` if memory runs out.
///
/// # Examples
///
/// From `crates/mv_completion/src/completion.rt`, a waiter with two events, a poster with one, and a block of the waiter's:
///
/// ```
/// let config = config_of_blocks(alloc, &[2, 1], &[WAITER])?;
/// let (station, tasks) = Station::open(alloc, config)?;
/// ```
pub fn config_of_blocks(
    alloc: Global,
    budgets: &[u32],
    owners: &[u32],
) -> Result<ValidConfig, NoMemory>
    requires some { 0 < length budgets.now }
    requires callers { length budgets.now ≤ callers_limit }
    requires events { sum budgets.now ≤ events_limit }
    requires ecbs { length owners.now ≤ ecbs_limit }
    requires owners { AllByRecursion (λ owner. owner < length budgets.now) owners.now }
    ensures { IfOk result (λ config. config ≡ blocks_setup budgets.now owners.now) }
{
    let config = Config {
        callers: budgets.len() as u32,
        elements_per_caller: 1,
        volumes: 1,
        latches: 1,
        quota: 1,
        posted_quota: 0,
        budgets: budgets.to_vec(alloc)?,
        owners: owners.to_vec(alloc)?,
        exits: Vec::new(alloc),
    };
    Ok(ValidConfig::of(alloc, config)?)
}
