//! The fullword of an event control block (`specs/Word.antt`), and the operations on it (`specs/Table.antt`).

ghost use Rattle.std.specs.Prelude.{◌≡◌, ◌<◌, ◌↔◌, IsSome, IfSome};
ghost use Rattle.mv_ecb.specs.Word.{IsEcbWord, Zero, is_complete as is_complete_state, word_of, state_of};
ghost use Rattle.mv_ecb.specs.Table.{IsEcbOp, code_limit, ecb_step, wait_step, standing_reply};

use crate::operation::{EcbOp, EcbReply};
use std::marker::Model;

/// The fullword of an event control block: the wait bit, the completion bit, and 30 bits of value.
///
/// Bit 0 of the books, the wait bit, is the highest bit here. The value is a code if the block is complete, and the number of an
/// exit, counted from 1, if it waits with one.
#[derive(Clone, Copy, Debug, PartialEq, Eq)]
pub struct EcbWord {
    bits: u32,
}

impl Model for EcbWord {
    ghost use Rattle.mv_ecb.specs.Word.{EcbState, IsEcbWord, word_of, state_of};

    ghost Value = { EcbState };

    ghost view = { λ w. state_of w.bits };

    ghost inverse = { λ s. record { bits = word_of s } };

    ghost invariant = { λ w. IsEcbWord w.bits };
}

const WAIT_BIT: u32 = 0x8000_0000;

const COMPLETION_BIT: u32 = 0x4000_0000;

const VALUE_BITS: u32 = 0x3fff_ffff;

impl EcbWord {
    /// Returns the word of a block that was neither waited on nor posted, as the books ask for it before the first use. The
    /// operation Clear makes it again for the next use.
    pub fn zero() -> EcbWord
        ensures { result ≡ Zero }
    {
        EcbWord { bits: 0 }
    }

    /// Returns the block that has this fullword, or `None` if no block has: both bits are set, or neither is and the word is not
    /// zero.
    pub fn of(word: u32) -> Option<EcbWord>
        ensures valid { IsSome result ↔ IsEcbWord word }
        ensures state { IfSome result (λ w. w ≡ state_of word) }
        ensures word { IfSome result (λ w. word_of w ≡ word) }
    {
        match word >> 30 {
            0 if word != 0 => None,
            3 => None,
            _ => Some(EcbWord { bits: word }),
        }
    }

    /// Returns whether the event is complete, so that a WAIT on it does not wait.
    pub fn is_complete(self) -> bool
        ensures { result ≡ is_complete_state self }
    {
        self.bits >> 30 == 1
    }

    /// Returns the fullword: wait bit 2^31, completion bit 2^30, value below. `of` takes it back.
    pub fn word(self) -> u32
        ensures { result ≡ word_of self }
    {
        self.bits
    }
}

/// Makes one operation on an event control block, and returns the new word and the reply.
///
/// A code is below 2^30, and an exit from 1 to 2^30 - 1. It never waits: Arm sets the wait bit, and the task that waits looks
/// again until the block is complete. WAIT, POST and the fullword are those of *z/OS MVS Programming: Assembler Services Guide*.
/// Exits, and that a second post keeps the first code, are this project's own.
///
/// # Examples
///
/// From `crates/mv_task/src/tests/objects.rt`:
///
/// ```
/// let (left, replied) = ecb_apply(op, block);
/// assert!(rt; left.word() == later && replied == reply);
/// ```
pub fn ecb_apply(op: EcbOp, word: EcbWord) -> (EcbWord, EcbReply)
    requires { IsEcbOp op }
    ensures { result ≡ ecb_step op word }
{
    match op {
        EcbOp::Arm => begin_wait(word, 0),
        EcbOp::Extend(exit) => begin_wait(word, exit),
        EcbOp::Settle => end_wait(word),
        EcbOp::Clear => (EcbWord::zero(), EcbReply::Word(word.bits)),
        EcbOp::Post(code) => post(word, code),
        EcbOp::Test => (word, EcbReply::Word(word.bits)),
    }
}

// Arm if the exit is 0, otherwise Extend.
fn begin_wait(word: EcbWord, exit: u32) -> (EcbWord, EcbReply)
    requires { exit < code_limit }
    ensures { result ≡ wait_step exit word }
{
    if word.bits == 0 {
        let waiting = EcbWord {
            bits: WAIT_BIT | exit,
        };
        return (waiting, EcbReply::Armed);
    }
    (word, standing(word, EcbReply::Waiting))
}

fn end_wait(word: EcbWord) -> (EcbWord, EcbReply)
    ensures { result ≡ ecb_step EcbOp.Settle word }
{
    if word.bits == 0 || word.bits == WAIT_BIT {
        return (EcbWord::zero(), EcbReply::Open);
    }
    (word, standing(word, EcbReply::Open))
}

fn post(word: EcbWord, code: u32) -> (EcbWord, EcbReply)
    requires { code < code_limit }
    ensures { result ≡ ecb_step (EcbOp.Post code) word }
{
    let value = word.bits & VALUE_BITS;
    if word.is_complete() {
        return (word, EcbReply::Already(value));
    }
    let complete = EcbWord {
        bits: COMPLETION_BIT | code,
    };
    if word.bits == 0 {
        return (complete, EcbReply::Posted);
    }
    (complete, EcbReply::Woke(value))
}

// The reply of a block that keeps its word: its code, its exit, or `neither` if it has neither.
fn standing(word: EcbWord, neither: EcbReply) -> EcbReply
    ensures { result ≡ standing_reply neither word }
{
    let value = word.bits & VALUE_BITS;
    match word.bits >> 30 {
        1 => EcbReply::Complete(value),
        2 if value != 0 => EcbReply::Linked(value),
        _ => neither,
    }
}
