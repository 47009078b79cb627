//! The statuses of the calls on a machine and of the writer of lines: `specs/Stepping.antt`, `Reading.antt` and `Line.antt` say when each
//! is returned.

/// The operation was made, what was looked for is there, or the line was written.
pub(crate) const DONE: u32 = 0;

/// The operation is not admitted. Nothing changed.
pub(crate) const NOT_ADMITTED: u32 = 1;

/// The object has had 524,287 events, and its next one would have no place. Nothing changed.
pub(crate) const FULL: u32 = 2;

/// A number of the operation, or of an answer that was passed in, has no meaning. Nothing changed.
pub(crate) const NO_SUCH_OPERATION: u32 = 3;

/// The handle holds no machine.
pub(crate) const NO_MACHINE: u32 = 4;

/// What was looked for is not there.
pub(crate) const ABSENT: u32 = 5;

/// The room is too small for the line. Nothing was written.
pub(crate) const NO_ROOM: u32 = 6;

/// Memory ran out. Nothing was written.
pub(crate) const NO_MEMORY: u32 = 7;
