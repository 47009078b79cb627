//! The configuration of a script (`specs/Costs.antt`).

ghost use Rattle.std.specs.Prelude.{◌≡◌, map, replicate, IfOk};
ghost use Rattle.mv_wait.specs.Prelude.{IsValid, exit_of};
ghost use Rattle.mv_script.specs.Costs.{script_setup};

use mv_io::NoMemory;
use mv_machine::{Config, Exit, ValidConfig};
use mv_scriptline::{ELEMENTS_PER_TASK, LATCHES, POSTED_QUOTA, QUOTA, VOLUMES};
use std::alloc::{AllocError, Global};

/// Returns the configuration of a script with this many tasks, and with these blocks, exits and budgets.
pub(crate) fn with_budgets(
    alloc: Global,
    tasks: u32,
    owners: Vec<u32>,
    exits: Vec<Exit>,
    budgets: Vec<u32>,
) -> Result<ValidConfig, NoMemory>
    requires valid { IsValid (script_setup tasks owners.items (map exit_of exits.items) budgets.items) }
    ensures { IfOk result (λ c. c ≡ script_setup tasks owners.items (map exit_of exits.items) budgets.items) }
{
    let config = Config {
        callers: tasks,
        elements_per_caller: ELEMENTS_PER_TASK,
        volumes: VOLUMES,
        latches: LATCHES,
        quota: QUOTA,
        posted_quota: POSTED_QUOTA,
        budgets,
        owners,
        exits,
    };
    Ok(ValidConfig::of(alloc, config)?)
}

/// Returns the configuration of a script with these blocks and exits in which all budgets are 0. It is enough to compute costs.
pub(crate) fn unbudgeted(
    alloc: Global,
    tasks: u32,
    owners: &[u32],
    exits: &[Exit],
) -> Result<ValidConfig, NoMemory>
    requires valid { IsValid (script_setup tasks owners.now (map exit_of exits.now) (replicate tasks 0)) }
    ensures { IfOk result (λ c. c ≡ script_setup tasks owners.now (map exit_of exits.now) (replicate tasks 0)) }
{
    let mut budgets = Vec::new(alloc);
    budgets.resize(tasks as usize, 0)?;
    let owners = Vec::from_slice(alloc, owners)?;
    with_budgets(alloc, tasks, owners, copied(alloc, exits)?, budgets)
}

// Copies exits.
fn copied(alloc: Global, exits: &[Exit]) -> Result<Vec<Exit>, AllocError>
    ensures { IfOk result (λ copies. map exit_of copies.items ≡ map exit_of exits.now) }
{
    let mut copies = Vec::new(alloc);
    for exit in exits {
        copies.push(Exit {
            source: exit.source,
            targets: Vec::from_slice(alloc, &exit.targets)?,
        })?;
    }
    Ok(copies)
}

/// Copies a configuration.
///
/// # Errors
///
/// `NoMemory` if there is not enough memory for the copy.
pub fn copy_config(alloc: Global, config: &ValidConfig) -> Result<ValidConfig, NoMemory>
    ensures same { IfOk result (λ copy. copy ≡ config.now) }
    ensures valid { IsValid config.now }
{
    let given = config.config();
    let copy = Config {
        callers: given.callers,
        elements_per_caller: given.elements_per_caller,
        volumes: given.volumes,
        latches: given.latches,
        quota: given.quota,
        posted_quota: given.posted_quota,
        budgets: Vec::from_slice(alloc, &given.budgets)?,
        owners: Vec::from_slice(alloc, &given.owners)?,
        exits: copied(alloc, &given.exits)?,
    };
    Ok(ValidConfig::of(alloc, copy)?)
}
