//! End codes: the end of a job, as a number. Clauses use the names of `specs/EndCode.antt` for them.

/// The highest return code, and the highest user code and system code of an abend.
pub const HIGHEST_CODE: u32 = 4095;

/// The number of user codes, by which the system code of an abend is multiplied in an end code.
pub const USER_CODES: u32 = 4096;

/// The lowest end code of an abend, that of an abend with system code 0 and user code 0.
pub const LOWEST_ABEND: u32 = 1 << 24;

/// The end code of a job that was not run, above those of all abends.
pub const NOT_RUN: u32 = 1 << 25;
