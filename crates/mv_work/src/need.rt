//! What a task waits for, and the answer that it is resumed with. `specs/Needs.antt` says which call each need is.
//!
//! ```text
//!   Blocks ──> Slots      Block ──> Code      Pause ──> Given      Latch ──> Granted
//! ```

use arrayvec::ArrayVec;
use mv_element::Token;
use mv_latch::Mode;
use mv_latchset::LatchToken;
use mv_pause::Given;
use mv_wait::WaitSlot;

/// How many blocks a task waits for at once, at most.
pub const MOST_BLOCKS: usize = 8;

/// Blocks to wait for, until `count` of them are complete.
#[derive(Drop)]
pub struct Blocks {
    pub count: u32,
    pub ecbs: ArrayVec<u32, MOST_BLOCKS>,
}

/// What a task waits for. Its wait is not refused in any run.
#[derive(Drop)]
pub enum Need {
    /// Some of these blocks are complete.
    Blocks(Blocks),
    /// This block of the task's own is complete. No exit starts from it.
    Block(u32),
    /// A release of this token, whose pause begins.
    Pause(Token),
    /// This latch for this requestor, in this mode.
    Latch(u32, u64, Mode),
}

/// The answer to a wait, with which the task is resumed.
#[derive(Drop)]
pub enum Got {
    /// How the blocks were found, in their order.
    Slots(ArrayVec<WaitSlot, MOST_BLOCKS>),
    /// The code of the block.
    Code(u32),
    /// The code that the release gave, and the token of the next pause.
    Given(Given),
    /// The request that was granted.
    Granted(LatchToken),
}
