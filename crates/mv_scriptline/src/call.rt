//! The calls of a script, as its lines state them.

use crate::numbers::Numbers;
use mv_element::Token;
use mv_latch::{LatchForm, Mode};
use std::marker::Model;

/// One call of a task. Blocks, elements, volumes and latches are named by their numbers, from 0.
#[derive(Debug, Drop)]
pub enum Call {
    /// Waits until `count` of the blocks are complete: at most eight blocks, and a count of at most 99.
    Wait {
        count: u32,
        ecbs: Numbers,
    },
    /// Posts a block with a code below 2^30, as every code of a block is.
    Post {
        ecb: u32,
        code: u32,
    },
    /// Posts a block, if its word is zero and it has had `place` events.
    TryPost {
        ecb: u32,
        place: u32,
        code: u32,
    },
    /// Clears a block.
    Clear(u32),
    /// Lets a post of the block start the exit of this number. Exits are counted from 1, and there may be none of this number.
    Extend {
        ecb: u32,
        exit: u32,
    },
    /// Reads the fullword of a block.
    Test(u32),
    /// Reads a volume.
    Read(u32),
    /// Sets a volume to a number.
    Write {
        volume: u32,
        number: u32,
    },
    /// Allocates the task's lowest element that is not in use.
    Alloc,
    /// Pauses until the token is released.
    Pause(Token),
    /// Releases a token with a code below 2^24, as every release code is.
    Release {
        token: Token,
        code: u32,
    },
    /// Releases a token as `Release` does, if the element is allocated with the token's generation, is neither paused nor
    /// released, and has had `place` events.
    TryRelease {
        token: Token,
        place: u32,
        code: u32,
    },
    /// Releases the target, and then pauses with the current token, if there is one.
    Transfer {
        current: Option<Token>,
        target: Token,
        code: u32,
    },
    /// Deallocates the element of a token.
    Dealloc(Token),
    /// Reads the state of an element.
    TestElement(u32),
    /// Requests a latch, 0 to 99; only the first eight exist.
    Obtain {
        latch: u32,
        requestor: u64,
        mode: Mode,
        form: LatchForm,
    },
    /// Asks for the state of the request of an OBTAIN, by the number of that among the task's OBTAINs, counted from 1.
    Check(u32),
    /// Releases the request of an OBTAIN, named as in `Check`; if it is conditional, only a granted request.
    Free {
        obtain: u32,
        conditional: bool,
    },
    /// Purges a requestor: takes its requests out of all latches.
    Purge(u64),
    /// Closes the task's elements, purges the requestor, and posts the block of its mother with the code, if there is one.
    EndTask {
        requestor: u64,
        mother: Option<u32>,
        code: u32,
    },
    /// Posts an event of the script's table, named by its index, under the table's latch.
    PostEvent {
        index: u32,
        code: u32,
    },
    /// Waits for the event at a position of the table, 0 to 99; the table may not have all of these.
    NextEvent(u32),
}

/// The calls of one task, in order. There are at most 128.
#[derive(Debug, Drop)]
pub struct CallList {
    pub calls: Vec<Call>,
}

impl Model for CallList {
    ghost use Rattle.std.specs.Prelude.{List};
    ghost use Rattle.mv_scriptline.specs.declared.call.Call.{Call};

    ghost Value = { List Call };

    ghost view = { λ l. l.calls.items };
}
