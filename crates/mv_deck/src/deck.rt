//! The values that a deck states.

use mv_latch::Mode;
use std::marker::Model;

/// The text of a PRINT: 0 to 71 bytes of printable ASCII, 32 to 126.
#[derive(Debug, Drop)]
pub struct Text {
    pub bytes: Vec<u8>,
}

impl Model for Text {
    ghost use Rattle.std.specs.Prelude.{List, ℕ};

    ghost Value = { List ℕ };

    ghost view = { λ t. t.bytes.items };
}

/// The name of a job, as z/OS MVS JCL Reference defines it: 1 to 8 of `A` to `Z`, `0` to `9`, `@`, `#` and `$`, not beginning
/// with a digit.
#[derive(Debug, Drop)]
pub struct Name {
    pub bytes: Vec<u8>,
}

impl Model for Name {
    ghost use Rattle.std.specs.Prelude.{List, ℕ};

    ghost Value = { List ℕ };

    ghost view = { λ n. n.bytes.items };
}

/// One step of a job. Latches and volumes are numbered from 0 to 7. The steps are this project's own.
#[derive(Debug, Drop)]
pub enum Step {
    /// Writes a line of output (PRINT).
    Print(Text),
    /// Obtains this latch, which is above each latch that the job holds (USE). The job waits if other holders are in the way.
    Use(u32, Mode),
    /// Releases this latch, which the job holds (FREE).
    Free(u32),
    /// Adds an amount, 1 to 9999, to this volume (COUNT). The job holds the latch of the same number exclusively.
    Count(u32, u32),
    /// Reads this volume twice, and writes a line that says whether both reads returned the same number (SCAN). The job holds the
    /// latch of the same number.
    Scan(u32),
    /// Ends the job with this end code (ABEND), `2^24 + 4096 * system + user`. A text gives either the system code (1 to 4095) or
    /// the user code (0 to 4095); the other is 0.
    Abend(u32),
    /// Ends the job with this return code, 0 to 4095 (RETURN).
    Return(u32),
}

/// A job that another job waits for, and the highest end code of it that the other job accepts.
#[derive(Clone, Copy, Debug, PartialEq, Eq)]
pub struct After {
    /// The place of the job in the deck, counted from 0.
    pub job: u32,
    /// The highest accepted end code, 0 to 4095; 0 if the text gives none.
    pub most: u32,
}

/// A job, whose name no other job of its deck has.
#[derive(Debug, Drop)]
pub struct Job {
    pub name: Name,
    /// The earlier jobs that it waits for, at most eight, in the order of the text.
    pub after: Vec<After>,
    /// The steps, in the order of the text. Only the last may be an ABEND or a RETURN.
    pub steps: Vec<Step>,
}

/// The jobs of a deck, in the order of the text. A deck may have none.
#[derive(Debug, Drop)]
pub struct Deck {
    pub jobs: Vec<Job>,
}
