//! The counter of one caller, which numbers the caller's entries. `specs/Numbers.antt` says what a number is, and
//! `specs/Counters.antt` how contracts see a counter.

ghost use Rattle.std.specs.Prelude.{◌≡◌, ◌++◌, ◌<◌, ◌≤◌, ◌+◌, ◌-◌, ◌^◌, length, reverse, vec_len, vec_capacity, IfOk};
ghost use Rattle.mv_calls.specs.Counters.{numbering_of, pending_room};
ghost use Rattle.mv_machine.specs.Waking.{blocks_of};
ghost use Rattle.mv_calls.specs.Numbers.{unnumbered, asked, kept_pending, numbered};
ghost use Rattle.mv_calls.specs.Numbers.{last_of, continues as continues_of};

use mv_ecb::{EcbOp, EcbReply};
use mv_element::{ElementOp, ElementReply};
use mv_io::NoMemory;
use mv_latch::{LatchForm, LatchOp, LatchReply, Wake};
use mv_machine::{Entry, Object, Op, Reply, ValidConfig};
use std::alloc::Global;

// What the last entry of a caller was, as far as the next may continue its call: a wait may go on to arm, a transfer to pause,
// an obtain to confirm.
#[derive(Clone, Copy)]
pub(crate) enum Last {
    Armed,
    Accepted,
    Queued,
    Other,
}

// The state of a caller's numbering: the number of the group of its last entry, the blocks whose posts may still follow in that
// group, as a stack with the next one on top, and what its last entry was.
#[derive(Drop)]
pub(crate) struct Counter {
    group: u32,
    pending: Vec<u32>,
    last: Option<Last>,
}

// Returns what an entry leaves to the next: an arm, an accepted release of an element, a queued request for which its task
// waits, or nothing.
fn last_of(entry: &Entry) -> Last
    ensures { result ≡ last_of entry.now.op entry.now.reply }
{
    match (entry.op, entry.reply) {
        (Op::Ecb(EcbOp::Arm), _) => Last::Armed,
        (Op::Element(ElementOp::Release(_, _)), Reply::Element(ElementReply::Early)) =>
            Last::Accepted,
        (Op::Element(ElementOp::Release(_, _)), Reply::Element(ElementReply::Woke)) =>
            Last::Accepted,
        (
            Op::Latch(
                LatchOp::Obtain {
                    form: LatchForm::Waiting,
                    ..
                },
            ),
            Reply::Latch(LatchReply::Queued(_)),
        ) => Last::Queued,
        _ => Last::Other,
    }
}

// Pushes blocks on the stack, so that the first of them is on top.
fn push_blocks(stack: &mut Vec<u32>, blocks: &[u32])
    requires room { vec_len stack.old + length blocks.now ≤ vec_capacity stack.old }
    ensures blocks { reverse stack.new.items ≡ blocks.now ++ reverse stack.old.items }
    ensures capacity { vec_capacity stack.new ≡ vec_capacity stack.old }
{
    let mut at = blocks.len();
    while at > 0 {
        at -= 1;
        stack.push_reserved(blocks[at]);
    }
}

// Pushes the blocks of wakes on the stack, so that the first of them is on top.
fn push_wakes(stack: &mut Vec<u32>, wakes: &[Wake])
    requires room { vec_len stack.old + length (blocks_of wakes.now) ≤ vec_capacity stack.old }
    ensures blocks { reverse stack.new.items ≡ blocks_of wakes.now ++ reverse stack.old.items }
    ensures capacity { vec_capacity stack.new ≡ vec_capacity stack.old }
{
    let mut at = wakes.len();
    while at > 0 {
        at -= 1;
        if let Some(ecb) = wakes[at].ecb {
            stack.push_reserved(ecb);
        }
    }
}

// Returns the most blocks that may be pending of a caller: those of the wakes of one event, seven for each exit, and one more
// (`pending_room`).
pub(crate) fn pending_room(config: &ValidConfig) -> usize
    ensures { result ≡ pending_room config.now }
{
    let given = config.config();
    1 + given.callers as usize * given.posted_quota as usize + 7 * given.exits.len()
}

impl Counter {
    // Makes a counter before the first entry, with room for `room` pending blocks.
    pub(crate) fn open(alloc: Global, room: usize) -> Result<Counter, NoMemory>
        ensures start { IfOk result (λ x. numbering_of x ≡ unnumbered) }
        ensures room { IfOk result (λ x. room ≤ vec_capacity x.pending) }
    {
        Ok(Counter {
            group: 0,
            pending: Vec::with_capacity(alloc, room)?,
            last: None,
        })
    }

    // Returns whether an entry continues the group.
    fn continues(&self, object: Object, op: Op) -> bool
        ensures { result ≡ continues_of (numbering_of self.now) object op }
    {
        match (object, op) {
            (Object::Ecb(_), Op::Ecb(EcbOp::Settle)) => true,
            (Object::Ecb(_), Op::Ecb(EcbOp::Arm)) => match self.last {
                Some(Last::Armed) => true,
                _ => false,
            },
            (Object::Ecb(ecb), Op::Ecb(EcbOp::Post(_))) => match self.pending.last() {
                Some(first) => ecb == *first,
                None => false,
            },
            (Object::Element(_), Op::Element(ElementOp::Resume(_))) => true,
            (Object::Element(_), Op::Element(ElementOp::Pause(_))) => match self.last {
                Some(Last::Accepted) => true,
                _ => false,
            },
            (Object::Latches, Op::Latch(LatchOp::Confirm { .. })) => match self.last {
                Some(Last::Queued) => true,
                _ => false,
            },
            _ => false,
        }
    }

    // Takes the first pending block off if the entry is its post, and otherwise all pending blocks.
    fn keep(&mut self, object: Object, op: Op)
        ensures pending { reverse self.new.pending.items ≡ kept_pending (reverse self.old.pending.items) object op }
        ensures capacity { vec_capacity self.new.pending ≡ vec_capacity self.old.pending }
        ensures group { self.new.group ≡ self.old.group }
        ensures last { self.new.last ≡ self.old.last }
    {
        if let (Object::Ecb(ecb), Op::Ecb(EcbOp::Post(_))) = (object, op) {
            if let Some(first) = self.pending.pop() {
                if first == ecb {
                    return;
                }
            }
        }
        self.pending.clear();
    }

    // Pushes the blocks that an entry asks to be posted.
    fn ask(&mut self, config: &ValidConfig, entry: &Entry, wakes: &[Wake])
        requires room { vec_len self.old.pending + length (asked config.now entry.now.object entry.now.op entry.now.reply wakes.now)
            ≤ vec_capacity self.old.pending }
        ensures pending { reverse self.new.pending.items
            ≡ asked config.now entry.now.object entry.now.op entry.now.reply wakes.now ++ reverse self.old.pending.items }
        ensures capacity { vec_capacity self.new.pending ≡ vec_capacity self.old.pending }
        ensures group { self.new.group ≡ self.old.group }
        ensures last { self.new.last ≡ self.old.last }
    {
        match (entry.object, entry.op) {
            (Object::Ecb(_), Op::Ecb(EcbOp::Post(_))) => match entry.reply {
                Reply::Ecb(EcbReply::Woke(exit)) => push_blocks(
                    &mut self.pending,
                    config.targets(exit),
                ),
                _ => {}
            },
            (Object::Latches, Op::Latch(LatchOp::Release { .. })) => match entry.reply {
                Reply::Latch(LatchReply::Released { .. }) => push_wakes(&mut self.pending, wakes),
                _ => {}
            },
            (Object::Latches, Op::Latch(LatchOp::Purge { .. })) => push_wakes(
                &mut self.pending,
                wakes,
            ),
            _ => {}
        }
    }

    // Counts one more entry of the caller, with its wakes, and returns the entry's number.
    pub(crate) fn count(&mut self, config: &ValidConfig, entry: &Entry, wakes: &[Wake]) -> u32
        requires low { self.old.group < 2 ^ 32 - 1 }
        requires room { length (numbered config.now (numbering_of self.old) entry.now wakes.now).pending
            ≤ vec_capacity self.old.pending }
        ensures number { result ≡ (numbered config.now (numbering_of self.old) entry.now wakes.now).group }
        ensures after { numbering_of self.new ≡ numbered config.now (numbering_of self.old) entry.now wakes.now }
        ensures capacity { vec_capacity self.new.pending ≡ vec_capacity self.old.pending }
    {
        let continued = self.continues(entry.object, entry.op);
        if self.last.is_some() && !continued {
            self.group += 1;
        }
        self.keep(entry.object, entry.op);
        self.ask(config, entry, wakes);
        self.last = Some(last_of(entry));
        self.group
    }
}
