//! A configuration as it is given, and the reasons to refuse it. Contracts see it as the setup of specs/Setup.antt, by
//! specs/Config.antt.

use std::alloc::AllocError;
use thiserror::Error;

/// An exit. A post of its source, while the owner holds the source extended with this exit, also posts its targets, in this
/// order and with the same code. Exits are this project's own.
#[derive(Debug, Drop)]
pub struct Exit {
    /// The event control block that the exit starts from.
    pub source: u32,
    /// The blocks that the exit posts: 1 to 8, with numbers above the source, of any owners. A block may be listed twice.
    pub targets: Vec<u32>,
}

/// A configuration as it was given: which callers and objects there are, and what each caller may do. Callers, elements,
/// volumes, latches and event control blocks are numbered from 0, exits from 1. `check` turns it into one that a machine can
/// open.
#[derive(Debug, Drop)]
pub struct Config {
    /// The number of callers, which are independent tasks: 1 to 16.
    pub callers: u32,
    /// The number of pause elements that each caller has: 1 to 16. Element e belongs to caller `e / elements_per_caller`.
    pub elements_per_caller: u32,
    /// The number of volumes, which are shared numbers: 1 to 8.
    pub volumes: u32,
    /// The number of latches in the one latch set: 1 to 8.
    pub latches: u32,
    /// The most latch requests that a caller may have at once: 1 to 16.
    pub quota: u32,
    /// The most of these requests that may be of the Posted form: at most the quota.
    pub posted_quota: u32,
    /// The number of events that each caller may make, one number for each caller: at most 524,287 in all.
    pub budgets: Vec<u32>,
    /// For each event control block, the one caller that waits on it and clears it: at most 131,072 blocks.
    pub owners: Vec<u32>,
    /// The exits, numbered from 1: at most 32,768.
    pub exits: Vec<Exit>,
}

/// A limit of a configuration. The variants are in the order in which they are checked.
#[derive(Clone, Copy, Debug, PartialEq, Eq, Error)]
pub enum ConfigLimit {
    /// There are 1 to 16 callers.
    #[error("there are 1 to 16 callers")]
    Callers,
    /// Each caller has 1 to 16 elements.
    #[error("a caller has 1 to 16 pause elements")]
    Elements,
    /// There are 1 to 8 volumes.
    #[error("there are 1 to 8 volumes")]
    Volumes,
    /// There are 1 to 8 latches.
    #[error("there are 1 to 8 latches")]
    Latches,
    /// The quota of latch requests is 1 to 16.
    #[error("the quota of latch requests is 1 to 16")]
    Quota,
    /// The quota of requests of the Posted form is at most the quota of all requests.
    #[error("the quota of requests of the Posted form is no higher than that of all")]
    Posted,
    /// There is a budget for each caller.
    #[error("each caller has a budget")]
    Budgets,
    /// There are at most 131,072 event control blocks.
    #[error("there are at most 131,072 event control blocks")]
    Ecbs,
    /// There are at most 32,768 exits.
    #[error("there are at most 32,768 exits")]
    Exits,
    /// Each exit has 1 to 8 targets.
    #[error("an exit has 1 to 8 targets")]
    Targets,
}

/// Why a configuration is refused: the first of these reasons that applies.
#[derive(Clone, Copy, Debug, PartialEq, Eq, Error)]
pub enum CheckRefusal {
    /// The configuration does not keep a limit. This is the first such limit.
    #[error("the configuration is beyond a limit: {0}")]
    Limit(ConfigLimit),
    /// The owner of an event control block is not a caller. This is the first such block.
    #[error("the owner of block {0} is not a caller")]
    BadOwner(u32),
    /// An exit's source is not a block, or one of its targets is not a block or not above the source. This is the number of the
    /// first such exit, counted from 1.
    #[error("exit {0} has a source or a target that it can't have")]
    BadExit(u32),
    /// The sum of the budgets is above 524,287. This is the sum.
    #[error("the sum of the budgets is {0} events, above 524,287")]
    Budget(u64),
    /// There is not enough memory. Nothing else is wrong with the configuration.
    #[error("there is not enough memory for the configuration")]
    NoMemory,
}

impl From<AllocError> for CheckRefusal {
    ghost use Rattle.std.specs.Prelude.{◌≡◌};
    ghost use Rattle.mv_config.specs.declared.config.CheckRefusal.TheVariants as refusal;

    ghost from_gives = { λ _ r. r ≡ refusal.NoMemory };

    fn from(_: AllocError) -> CheckRefusal {
        CheckRefusal::NoMemory
    }
}
