//! The limits of a run, by name. Clauses have them from specs/Limits.antt.

/// The most events that a run may have.
pub(crate) const EVENTS_LIMIT: u64 = 524_287;

/// The highest place of an entry: places count from 0, and the budgets allow one event more.
pub const HIGHEST_PLACE: u32 = 524_286;

/// The highest generation that an element reaches within the events of a run: it has 18 bits.
pub const HIGHEST_GENERATION: u32 = 262_143;

/// The most callers of a configuration.
pub(crate) const CALLERS_LIMIT: u32 = 16;

/// The most elements of each caller.
pub(crate) const ELEMENTS_LIMIT: u32 = 16;

/// The most volumes of a configuration.
pub(crate) const VOLUMES_LIMIT: u32 = 8;

/// The most latches of a configuration.
pub(crate) const LATCHES_LIMIT: u32 = 8;

/// The most latch requests that a caller may have at once.
pub(crate) const REQUESTS_LIMIT: u32 = 16;

/// The most event control blocks of a configuration.
pub(crate) const ECBS_LIMIT: usize = 131_072;

/// The most exits of a configuration.
pub(crate) const EXITS_LIMIT: usize = 32_768;

/// The most blocks that an exit may post.
pub(crate) const TARGETS_LIMIT: usize = 8;

/// The bound at which counts of posts saturate: it represents itself and all higher counts.
pub(crate) const HIGHEST_REACH: u32 = 524_288;
