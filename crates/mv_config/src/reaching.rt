//! How many posts one post can lead to through exits, by specs/Reach.antt and specs/Chains.antt.

ghost use Rattle.std.specs.Prelude.{◌≡◌, ◌<◌, ◌≤◌, ◌^◌, ◌*◌, length, map, IfOk, slice_index};
ghost use Rattle.std.specs.List.{AllByRecursion};
ghost use Rattle.mv_config.specs.Chains.{AreChains, AreReaches, HasFewGoodTargets};
ghost use Rattle.mv_config.specs.Check.{IsValid};
ghost use Rattle.mv_config.specs.Config.{exit_of, setup_of};
ghost use Rattle.mv_config.specs.Limits.{highest_reach, targets_limit};
ghost use Rattle.mv_config.specs.Reach.{exits_of, greatest, release_cost, total as total_of};

use crate::config::{Config, Exit};
use crate::limits::HIGHEST_REACH;
use std::alloc::{AllocError, Global};

// The exits of each block as a chain, from the last to the first. Exits are counted from 1, and 0 ends a chain.
#[derive(Drop)]
struct Chains {
    // For each block, its last exit.
    last: Vec<u32>,
    // For each exit, the exit before it with the same source.
    before: Vec<u32>,
}

fn chains_of(alloc: Global, ecbs: usize, exits: &[Exit]) -> Result<Chains, AllocError>
    requires good { AllByRecursion (HasFewGoodTargets ecbs) (map exit_of exits.now) }
    requires few { length exits.now < 2 ^ 31 }
    ensures { IfOk result (λ c. AreChains ecbs (map exit_of exits.now) (length exits.now) c.last.items c.before.items) }
{
    let mut last = vec![in alloc; 0; ecbs]?;
    let mut before = Vec::new(alloc);
    for (i, exit) in exits.iter().enumerate() {
        let source = exit.source as usize;
        before.push(last[source])?;
        last[source] = i as u32 + 1;
    }
    Ok(Chains { last, before })
}

// Returns the sum of the reaches of some blocks.
fn total(targets: &[u32], reaches: &[u32]) -> u32
    requires few { length targets.now ≤ targets_limit }
    requires good { AllByRecursion (λ t. t < length reaches.now) targets.now }
    requires cut { AllByRecursion (λ r. r ≤ highest_reach) reaches.now }
    ensures value { result ≡ total_of (λ t. slice_index reaches.now t) targets.now }
    ensures fits { result ≤ targets_limit * highest_reach }
{
    let mut sum = 0;
    for target in targets {
        sum += reaches[*target as usize];
    }
    sum
}

// Returns the greatest sum of reaches that an exit of a block leads to.
fn greatest_total(exits: &[Exit], chains: &Chains, ecb: usize, reaches: &[u32]) -> u32
    requires good { AllByRecursion (HasFewGoodTargets (length reaches.now)) (map exit_of exits.now) }
    requires chains { AreChains (length reaches.now) (map exit_of exits.now)
        (length exits.now) chains.now.last.items chains.now.before.items }
    requires ecb { ecb < length reaches.now }
    requires cut { AllByRecursion (λ r. r ≤ highest_reach) reaches.now }
    ensures value { result ≡ greatest (map (λ x. total_of (λ t. slice_index reaches.now t) x.targets)
        (exits_of ecb (map exit_of exits.now))) }
    ensures fits { result ≤ targets_limit * highest_reach }
{
    let mut best: u32 = 0;
    let mut at = chains.last[ecb];
    while at > 0 {
        let exit = &exits[at as usize - 1];
        best = best.max(total(&exit.targets, reaches));
        at = chains.before[at as usize - 1];
    }
    best
}

/// Computes the reach of each block, from the last block to the first: exits lead to higher blocks.
pub(crate) fn reaches_of(alloc: Global, config: &Config) -> Result<Vec<u32>, AllocError>
    requires { IsValid (setup_of config.now) }
    ensures { IfOk result (λ v. AreReaches (setup_of config.now) v.items) }
{
    let ecbs = config.owners.len();
    let chains = chains_of(alloc, ecbs, &config.exits)?;
    let mut reaches = vec![in alloc; 0; ecbs]?;
    let mut ecb = ecbs;
    while ecb > 0 {
        ecb -= 1;
        let most = greatest_total(&config.exits, &chains, ecb, &reaches);
        reaches[ecb] = (1 + most).min(HIGHEST_REACH);
    }
    Ok(reaches)
}

/// Returns the most events that a release of a latch makes.
pub(crate) fn release_cost_of(config: &Config, reaches: &[u32]) -> u32
    requires valid { IsValid (setup_of config.now) }
    requires reaches { AreReaches (setup_of config.now) reaches.now }
    ensures { result ≡ release_cost (setup_of config.now) }
{
    let mut most: u32 = 0;
    for reach in reaches {
        most = most.max(*reach);
    }
    (1 + config.callers * config.posted_quota * most).min(HIGHEST_REACH)
}
