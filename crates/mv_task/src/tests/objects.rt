//! Objects as one thread has them: worked rows of a block and of a latch set, by the call that changes each.

ghost use Rattle.std.specs.Prelude.{◌≡◌, ℕ, ◌*◌, ◌≤◌, vec_capacity};
ghost use Rattle.mv_ecb.specs.Table.{IsEcbOp};
ghost use Rattle.mv_latch.specs.LatchSet.{IsNewId};

use mv_ecb::{EcbOp, EcbReply, EcbWord, ecb_apply};
use mv_latch::{LatchForm, LatchOp, LatchReply, LatchSet, Mode, Wake};
use std::alloc::Global;
use std::process::Abort;

// ---- a block

// An operation on a block with this word leaves the word `later` and has this reply.
fn assert_applied(rt: &impl Abort, op: EcbOp, word: u32, later: u32, reply: EcbReply)
    requires { IsEcbOp op }
{
    let Some(block) = EcbWord::of(word) else {
        panic!(rt; "no word of a block")
    };
    let (left, replied) = ecb_apply(op, block);
    assert!(rt; left.word() == later && replied == reply);
}

// A wait on a new block, and two posts, of which the second finds the code of the first.
#[test]
fn an_armed_block_is_posted_twice(rt: HostRuntime) {
    let (armed, posted) = (2_147_483_648, 2_147_483_647);
    assert_applied(&rt, EcbOp::Arm, 0, armed, EcbReply::Armed);
    let highest = EcbOp::Post(1_073_741_823);
    assert_applied(&rt, highest, armed, posted, EcbReply::Woke(0));
    let already = EcbReply::Already(1_073_741_823);
    assert_applied(&rt, EcbOp::Post(0), posted, posted, already);
}

// ---- a latch set

// A set of one latch whose requests are numbered from 0, in the order of all calls.
#[derive(Drop)]
struct Desk {
    set: LatchSet,
    callers: u32,
    wakes: Vec<Wake>,
    next: u32,
    ghost counted: { set.callers ≡ callers },
    ghost numbered: { (id : ℕ) → next ≤ id → IsNewId id set.lists },
    ghost room: { set.callers * set.quota ≤ vec_capacity wakes },
}

impl Desk {
    // A new set for this many callers, each with up to four requests.
    fn open(rt: &impl Abort, alloc: Global, callers: u32) -> Desk
        requires { callers ≤ 16 }
    {
        let set = LatchSet::new(alloc, 1, callers, 4, 0).expect(rt, "memory for a latch set");
        let room = callers as usize * 4;
        let wakes = Vec::with_capacity(alloc, room).expect(rt, "room for wakes");
        Desk {
            set,
            callers,
            wakes,
            next: 0,
        }
    }

    // An operation of this caller has this reply and these wakes.
    fn assert_answer(
        &mut self,
        rt: &impl Abort,
        caller: u32,
        op: LatchOp,
        reply: LatchReply,
        wakes: &[Wake],
    ) {
        assert!(rt; caller < self.callers && self.next < u32::MAX);
        let found = self.set.apply(caller, self.next, op, &mut self.wakes);
        self.next += 1;
        assert!(rt; found == Some(reply));
        assert!(rt; self.wakes.as_slice() == wakes);
    }
}

// An obtain of the Waiting form.
fn ask(requestor: u64, mode: Mode) -> LatchOp {
    LatchOp::Obtain {
        latch: 0,
        requestor,
        mode,
        form: LatchForm::Waiting,
    }
}

fn confirm(id: u32) -> LatchOp {
    LatchOp::Confirm { latch: 0, id }
}

fn release(id: u32) -> LatchOp {
    LatchOp::Release {
        latch: 0,
        id,
        conditional: false,
    }
}

// The wake of a caller that has no block to post.
fn woken(caller: u32, id: u32, code: u32) -> Wake {
    Wake {
        caller,
        id,
        ecb: None,
        code,
    }
}

#[test]
fn a_shared_request_does_not_pass_an_exclusive_one(rt: HostRuntime) {
    let mut desk = Desk::open(&rt, rt.alloc(), 4);
    desk.assert_answer(&rt, 0, ask(1, Mode::Shared), LatchReply::Granted(0), &[]);
    desk.assert_answer(&rt, 1, ask(2, Mode::Shared), LatchReply::Granted(1), &[]);
    desk.assert_answer(&rt, 2, ask(3, Mode::Exclusive), LatchReply::Queued(2), &[]);
    desk.assert_answer(&rt, 3, ask(4, Mode::Shared), LatchReply::Queued(3), &[]);
    let released = LatchReply::Released { granted: 0 };
    desk.assert_answer(&rt, 0, release(0), released, &[]);
    let released = LatchReply::Released { granted: 1 };
    desk.assert_answer(&rt, 1, release(1), released, &[woken(2, 2, 0)]);
    desk.assert_answer(&rt, 3, confirm(3), LatchReply::Waiting, &[]);
}

#[test]
fn a_purge_takes_out_granted_and_waiting_requests(rt: HostRuntime) {
    let mut desk = Desk::open(&rt, rt.alloc(), 3);
    desk.assert_answer(&rt, 0, ask(9, Mode::Exclusive), LatchReply::Granted(0), &[]);
    desk.assert_answer(&rt, 1, ask(9, Mode::Shared), LatchReply::Queued(1), &[]);
    desk.assert_answer(&rt, 2, ask(5, Mode::Exclusive), LatchReply::Queued(2), &[]);
    let purge = LatchOp::Purge { requestor: 9 };
    let purged = LatchReply::Purged {
        removed: 2,
        granted: 1,
    };
    desk.assert_answer(&rt, 0, purge, purged, &[woken(1, 1, 1), woken(2, 2, 0)]);
    desk.assert_answer(&rt, 1, confirm(1), LatchReply::Gone, &[]);
}
