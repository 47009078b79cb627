//! The limits of a script (`specs/Limits.antt`).

/// The most tasks of a script.
pub(crate) const MOST_TASKS: u32 = 8;

/// The most event control blocks of a script.
pub const MOST_ECBS: usize = 64;

/// The most exits of a script.
pub const MOST_EXITS: usize = 16;

/// The most targets of an exit.
pub(crate) const MOST_TARGETS: usize = 4;

/// The most calls of a task.
pub const MOST_CALLS: usize = 128;

/// The most blocks of one WAIT.
pub const MOST_WAITED: usize = 8;

/// The highest count of a WAIT.
pub(crate) const HIGHEST_COUNT: u64 = 99;

/// The highest number of a latch.
pub(crate) const HIGHEST_LATCH: u64 = 99;

/// The highest size of a table that a TABLE may state.
pub(crate) const HIGHEST_SIZE: u64 = 99;

/// The highest position that an EVNEXT may name.
pub(crate) const HIGHEST_POSITION: u64 = 99;

/// The number of elements of each task.
pub const ELEMENTS_PER_TASK: u32 = 4;

/// The number of volumes.
pub const VOLUMES: u32 = 8;

/// The number of latches.
pub const LATCHES: u32 = 8;

/// The most latch requests that a task may have at once.
pub const QUOTA: u32 = 8;

/// How many of these may be of the Posted form.
pub const POSTED_QUOTA: u32 = 4;

/// The most events of a run.
pub const EVENTS_LIMIT: u32 = 524_287;
