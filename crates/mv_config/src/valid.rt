//! A configuration that was checked, with what is computed from it once, by specs/Valid.antt, specs/Reach.antt and
//! specs/Setup.antt.

ghost use Rattle.std.specs.Prelude.{◌≡◌, ◌<◌, ◌≤◌, ◌+◌, ◌*◌, ◌==◌, ℕ, nat_lt, length, IfOk, IsTrue};
ghost use Rattle.std.specs.List.{list_any};
ghost use Rattle.mv_config.specs.Config.{exit_of};
ghost use Rattle.mv_config.specs.Limits.{exits_limit};
ghost use Rattle.mv_config.specs.Reach.{reach, release_cost};
ghost use Rattle.mv_config.specs.Setup.{Setup, owner_of, element_owner, element_count, is_exit_of, targets_of, is_on, is_on_exit};

use crate::config::{Config, Exit};
use crate::reaching::{reaches_of, release_cost_of};
use std::alloc::{AllocError, Global};
use std::marker::Model;
use std::ops::Range;

/// A configuration that no rule refuses: `Config::check` and `ValidConfig::of` make it. It does not change.
#[derive(Drop)]
pub struct ValidConfig {
    config: Config,
    // The reach of each event control block.
    reaches: Vec<u32>,
    release_cost: u32,
}

impl Model for ValidConfig {
    ghost use Rattle.mv_config.specs.Setup.{Setup};
    ghost use Rattle.mv_config.specs.Config.{setup_of};
    ghost use Rattle.mv_config.specs.Valid.{IsChecked};

    ghost Value = { Setup };

    ghost view = { λ a. setup_of a.config };

    ghost invariant = { λ a. IsChecked (setup_of a.config) a.reaches.items a.release_cost };
}

impl ValidConfig {
    ghost use Rattle.mv_config.specs.Config.{setup_of};
    ghost use Rattle.mv_config.specs.Check.{IsValid};

    /// Makes the checked form of a configuration that no rule refuses. It computes once how many posts one post leads to, in
    /// time linear in the blocks and the exits. If a caller does not know that no rule refuses the configuration,
    /// `Config::check` finds out.
    ///
    /// # Errors
    ///
    /// Returns `AllocError` if there is no memory for what it computes; the configuration is then dropped.
    pub fn of(alloc: Global, config: Config) -> Result<ValidConfig, AllocError>
        requires { IsValid (setup_of config) }
        ensures { IfOk result (λ v. v ≡ setup_of config) }
    {
        let reaches = reaches_of(alloc, &config)?;
        let release_cost = release_cost_of(&config, &reaches);
        Ok(ValidConfig {
            config,
            reaches,
            release_cost,
        })
    }

    /// Returns the configuration as it was given.
    pub fn config(&self) -> &Config
        ensures given { setup_of result.now ≡ self.now }
        ensures valid { IsValid self.now }
    {
        &self.config
    }

    /// Returns the most posts that one post of an event control block leads to, itself included: 1 to 524,288, where 524,288
    /// means that many or more. A post starts at most one exit, so only the exit that leads to the most posts counts. A post of
    /// the block makes at most this many events.
    pub fn reach(&self, ecb: u32) -> u32
        requires { ecb < length self.now.owners }
        ensures { result ≡ reach self.now ecb }
    {
        self.reaches[ecb as usize]
    }

    /// Returns the most events that one release of a latch makes, with the posts of the requests that it grants: 1 to 524,288,
    /// where 524,288 means that many or more.
    pub fn release_cost(&self) -> u32
        ensures { result ≡ release_cost self.now }
    {
        self.release_cost
    }

    /// Returns the most wakes of one event on the latch set: one for each request that the quotas allow.
    pub fn most_wakes(&self) -> usize
        ensures { result ≡ self.now.callers * self.now.quota }
    {
        self.config.callers as usize * self.config.quota as usize
    }

    /// Returns whether the configuration has this caller.
    pub fn has_caller(&self, caller: u32) -> bool
        ensures { result ≡ nat_lt caller self.now.callers }
    {
        caller < self.config.callers
    }

    /// Returns whether the configuration has this event control block.
    pub fn has_ecb(&self, ecb: u32) -> bool
        ensures there { result ≡ nat_lt ecb (length self.now.owners) }
    {
        (ecb as usize) < self.config.owners.len()
    }

    /// Returns the number of elements.
    pub fn elements(&self) -> u32
        ensures { result ≡ element_count self.now }
    {
        self.config.callers * self.config.elements_per_caller
    }

    /// Returns whether the configuration has this element.
    pub fn has_element(&self, element: u32) -> bool
        ensures { result ≡ nat_lt element (element_count self.now) }
    {
        element < self.elements()
    }

    /// Returns whether the configuration has this volume.
    pub fn has_volume(&self, volume: u32) -> bool
        ensures there { result ≡ nat_lt volume self.now.volumes }
    {
        volume < self.config.volumes
    }

    /// Returns whether the configuration has this latch.
    pub fn has_latch(&self, latch: u32) -> bool
        ensures there { result ≡ nat_lt latch self.now.latches }
    {
        latch < self.config.latches
    }

    /// Returns the caller that waits on an event control block: its owner.
    pub fn ecb_owner(&self, ecb: u32) -> u32
        requires exists { ecb < length self.now.owners }
        ensures owner { result ≡ owner_of self.now ecb }
        ensures caller { result < self.now.callers }
    {
        self.config.owners[ecb as usize]
    }

    /// Returns whether this caller owns an event control block.
    pub fn owns_ecb(&self, caller: u32, ecb: u32) -> bool
        requires exists { ecb < length self.now.owners }
        ensures owned { result ≡ (owner_of self.now ecb == caller) }
    {
        self.ecb_owner(ecb) == caller
    }

    /// Returns the caller that owns an element. For a number that no element has, the result is not the number of a caller.
    pub fn element_owner(&self, element: u32) -> u32
        ensures owner { result ≡ element_owner self.now element }
    {
        element / self.config.elements_per_caller
    }

    /// Returns the elements that a caller owns, by their numbers: it may open, pause and close them.
    #[tactic(auto, using(crate::proofs::OwnElements::is_own))]
    pub fn own_elements(&self, caller: u32) -> Range<u32>
        requires caller { caller < self.now.callers }
        ensures elements { result ≡ record {
          start = caller * self.now.elements_per_caller;
          end = caller * self.now.elements_per_caller + self.now.elements_per_caller;
        } }
        ensures own { (n : ℕ) → result.start ≤ n → n < result.end → (n < element_count self.now) × (element_owner self.now n ≡ caller) }
    {
        let count = self.config.elements_per_caller;
        let first = caller * count;
        first..first + count
    }

    /// Returns whether this caller owns an element.
    pub fn owns_element(&self, caller: u32, element: u32) -> bool
        ensures owned { result ≡ (element_owner self.now element == caller) }
    {
        self.element_owner(element) == caller
    }

    /// Returns whether an event control block is the source or a target of any exit.
    pub fn is_on_exit(&self, ecb: u32) -> bool
        ensures on { result ≡ is_on_exit self.now ecb }
    {
        is_on_any(&self.config.exits, ecb)
    }

    /// Returns whether there is an exit of this number, counted from 1, and it starts from this block.
    pub fn is_exit_of(&self, exit: u32, ecb: u32) -> bool
        ensures starts { result ≡ is_exit_of self.now exit ecb }
        ensures few { IsTrue result → exit ≤ exits_limit }
    {
        if exit == 0 {
            return false;
        }
        match self.config.exits.get(exit as usize - 1) {
            Some(found) => found.source == ecb,
            None => false,
        }
    }

    /// Returns the blocks that an exit posts, in their order. Exits are counted from 1; a number that no exit has gives no
    /// blocks.
    #[tactic(auto, using(crate::proofs::Targets::targets_found, crate::proofs::Targets::targets_missing))]
    pub fn targets(&self, exit: u32) -> &[u32]
        ensures targets { result.now ≡ targets_of self.now exit }
    {
        if exit == 0 {
            return &[];
        }
        match self.config.exits.get(exit as usize - 1) {
            Some(found) => &found.targets,
            None => &[],
        }
    }
}

// Returns whether a block is the source or a target of one of these exits.
fn is_on_any(exits: &[Exit], ecb: u32) -> bool
    ensures { result ≡ list_any (λ x. is_on (exit_of x) ecb) exits.now }
{
    exits.iter().any(|exit| exit.source == ecb || has_target(&exit.targets, ecb))
}

// Returns whether a block is one of these targets.
fn has_target(targets: &[u32], ecb: u32) -> bool
    ensures { result ≡ list_any (λ target. target == ecb) targets.now }
{
    targets.iter().any(|target| *target == ecb)
}
