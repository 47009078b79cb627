//! The check of a configuration by specs/Check.antt: its limits, owners, exits and budgets, in this order.

ghost use Rattle.std.specs.List.{list_all, list_any};
ghost use Rattle.std.specs.Prelude.{◌≡◌, ◌≢◌, ◌≤◌, ◌||◌, nat_le, sum, vec_len, OnOk, IfOk, IfErr, IsErrOf, Some};
ghost use Rattle.mv_config.specs.Config.{setup_of, exit_of};
ghost use Rattle.mv_config.specs.Check.{refusal_of, first_limit, first_bad_owner, first_bad_exit, bad_budget};
ghost use Rattle.mv_config.specs.Check.{is_bad_exit as is_bad_exit_at, is_within, IsValid};
ghost use Rattle.mv_config.specs.Limits.{callers_limit, ecbs_limit, exits_limit, targets_limit};

use crate::config::{CheckRefusal, Config, ConfigLimit, Exit};
use crate::limits::{
    CALLERS_LIMIT, ECBS_LIMIT, ELEMENTS_LIMIT, EVENTS_LIMIT, EXITS_LIMIT, LATCHES_LIMIT,
    REQUESTS_LIMIT, TARGETS_LIMIT, VOLUMES_LIMIT,
};
use crate::valid::ValidConfig;
use std::alloc::Global;

impl Config {
    // Returns the first limit that the configuration does not keep.
    fn first_limit(&self) -> Option<ConfigLimit>
        ensures { result ≡ first_limit (setup_of self.now) }
    {
        if self.callers < 1 || self.callers > CALLERS_LIMIT {
            return Some(ConfigLimit::Callers);
        }
        if self.elements_per_caller < 1 || self.elements_per_caller > ELEMENTS_LIMIT {
            return Some(ConfigLimit::Elements);
        }
        if self.volumes < 1 || self.volumes > VOLUMES_LIMIT {
            return Some(ConfigLimit::Volumes);
        }
        if self.latches < 1 || self.latches > LATCHES_LIMIT {
            return Some(ConfigLimit::Latches);
        }
        if self.quota < 1 || self.quota > REQUESTS_LIMIT {
            return Some(ConfigLimit::Quota);
        }
        if self.posted_quota > self.quota {
            return Some(ConfigLimit::Posted);
        }
        if self.budgets.len() != self.callers as usize {
            return Some(ConfigLimit::Budgets);
        }
        if self.owners.len() > ECBS_LIMIT {
            return Some(ConfigLimit::Ecbs);
        }
        if self.exits.len() > EXITS_LIMIT {
            return Some(ConfigLimit::Exits);
        }
        if !has_few_targets(&self.exits) {
            return Some(ConfigLimit::Targets);
        }
        None
    }

    // Returns the first event control block whose owner is not a caller.
    fn first_bad_owner(&self) -> Option<u32>
        requires { vec_len self.now.owners ≤ ecbs_limit }
        ensures { result ≡ first_bad_owner (setup_of self.now) }
    {
        let mut ecb: u32 = 0;
        for owner in &self.owners {
            if *owner >= self.callers {
                return Some(ecb);
            }
            ecb += 1;
        }
        None
    }

    // Returns the number, counted from 1, of the first exit whose source or a target is not a block, or with a target that is
    // not above the source.
    fn first_bad_exit(&self) -> Option<u32>
        requires { vec_len self.now.exits ≤ exits_limit }
        ensures { result ≡ first_bad_exit (setup_of self.now) }
    {
        let mut number = 1;
        for exit in &self.exits {
            if is_bad_exit(exit, self.owners.len()) {
                return Some(number);
            }
            number += 1;
        }
        None
    }

    // Returns the sum of the budgets.
    pub(crate) fn budget_sum(&self) -> u64
        requires { vec_len self.now.budgets ≤ callers_limit }
        ensures { result ≡ sum self.now.budgets.items }
    {
        let mut sum: u64 = 0;
        for budget in &self.budgets {
            sum += u64::from(*budget);
        }
        sum
    }

    // Returns the sum of the budgets if it is above the limit.
    fn bad_budget(&self) -> Option<u64>
        requires { vec_len self.now.budgets ≤ callers_limit }
        ensures { result ≡ bad_budget (setup_of self.now) }
    {
        let sum = self.budget_sum();
        if sum > EVENTS_LIMIT {
            return Some(sum);
        }
        None
    }

    /// Returns the first rule that refuses the configuration, in the order of `CheckRefusal`, if there is one. It takes no
    /// memory.
    pub fn refusal(&self) -> Option<CheckRefusal>
        ensures { result ≡ refusal_of (setup_of self.now) }
    {
        if let Some(limit) = self.first_limit() {
            return Some(CheckRefusal::Limit(limit));
        }
        if let Some(ecb) = self.first_bad_owner() {
            return Some(CheckRefusal::BadOwner(ecb));
        }
        if let Some(exit) = self.first_bad_exit() {
            return Some(CheckRefusal::BadExit(exit));
        }
        if let Some(sum) = self.bad_budget() {
            return Some(CheckRefusal::Budget(sum));
        }
        None
    }

    /// Checks this configuration, and returns it with what is computed from it once: how many posts one post leads to. Takes
    /// time linear in the blocks and the exits.
    ///
    /// # Errors
    ///
    /// Returns the first refusal that holds, in the order of `CheckRefusal`; the configuration is then dropped. It returns
    /// `NoMemory` only if no rule refuses the configuration.
    ///
    /// # Examples
    ///
    /// From `crates/mv_tests/src/tests/polls.rt`:
    ///
    /// ```
    /// let config = config.check(alloc).expect(rt, "a configuration");
    /// Station::open(alloc, config).expect(rt, "memory for a station")
    /// ```
    pub fn check(self, alloc: Global) -> Result<ValidConfig, CheckRefusal>
        ensures ok { IfOk result (λ v. v ≡ setup_of self) }
        ensures valid { OnOk result (IsValid (setup_of self)) }
        ensures refused { IfErr result (λ r. r ≢ CheckRefusal.NoMemory → refusal_of (setup_of self) ≡ Some r) }
        ensures no_memory { IsErrOf result CheckRefusal.NoMemory → IsValid (setup_of self) }
    {
        match self.refusal() {
            Some(refusal) => Err(refusal),
            None => Ok(ValidConfig::of(alloc, self)?),
        }
    }
}

// Returns whether each exit has 1 to 8 targets.
fn has_few_targets(exits: &[Exit]) -> bool
    ensures { result ≡ list_all (λ x. is_within 1 targets_limit (vec_len x.targets)) exits.now }
{
    exits.iter().all(|exit| exit.targets.len() >= 1 && exit.targets.len() <= TARGETS_LIMIT)
}

// Returns whether an exit's source is not a block, or one of its targets is not a block or not above the source.
fn is_bad_exit(exit: &Exit, ecbs: usize) -> bool
    ensures { result ≡ is_bad_exit_at ecbs (exit_of exit.now) }
{
    exit.source as usize >= ecbs || has_bad_target(&exit.targets, exit.source, ecbs)
}

fn has_bad_target(targets: &[u32], source: u32, ecbs: usize) -> bool
    ensures { result ≡ list_any (λ target. nat_le ecbs target || nat_le target source) targets.now }
{
    targets
        .iter()
        .any(|target| *target as usize >= ecbs || *target <= source)
}
