//! The calls on the latch set: a turn (a spin lock) lends its lists to one caller at a time. Clauses cite `specs/Turn.antt`,
//! `specs/Faces.antt` and `specs/View.antt`.

ghost use Rattle.std.specs.Prelude.{◌≡◌, ◌<◌, ◌∷◌, [], true};
ghost use Rattle.std.specs.List.{Contains};
ghost use Rattle.mv_machine.specs.Prelude.{allowed, IsPossible, is_settled as is_settled_reply};
ghost use Rattle.mv_board.specs.Faces.{IsOf, Happened, IsAsListed, MayWatch, PeekedIn};
ghost use Rattle.mv_board.specs.Turn.{named_by, MeetsLists};
ghost use Rattle.mv_board.specs.View.{own, with_turn};
ghost use Rattle.mv_board.specs.declared.item.Item.TheVariants.{Away};
ghost use Rattle.mv_board.specs.declared.watch.Watch.TheVariants as watch;

use crate::board::Board;
use crate::caller::Caller;
use crate::item::{Item, Lists};
use crate::rule::{Give, Return, Take};
use crate::view::View;
use crate::words::TURN;
use atomic_table::Seat;
use crossbeam_utils::Backoff;
use mv_latch::{LatchOp, LatchReply};
use mv_machine::{Object, Op, Reply};
use std::sync::Wait;

impl Board {
    // Takes the turn, trying again while another caller holds it, and then takes the lists out of their slot.
    fn take<R: Wait>(&self, rt: &R, seat: &mut Seat<Item, View>) -> Lists
        requires board { seat.old.table_id ≡ self.now.table }
        requires empty { seat.old.me.1 ≡ [] }
        requires alone { seat.old.me.0.parts ≡ own seat.old.me.0 ∷ [] }
        ensures same { seat.new.table_id ≡ seat.old.table_id }
        ensures took { seat.new.me ≡ (with_turn (named_by result ∷ []) seat.old.me.0, (0, Away) ∷ []) }
        ensures meets { MeetsLists seat.old.me.0 result }
    {
        let shared = &self.table.shared;
        let backoff = Backoff::new();
        for _ in rt.forever() {
            if shared.compare_exchange::<Take>(seat, TURN, 0, 1) == 0 {
                let Item::Held(lists) = shared.exchange(seat, 0, Item::Away) else {
                    unreachable!()
                };
                return lists;
            }
            self.await_turn(rt, &backoff);
        }
        unreachable!()
    }

    // Spins until the turn was seen free. It only reads the word, so the cache line stays with the caller that holds the turn.
    fn await_turn<R: Wait>(&self, rt: &R, backoff: &Backoff) {
        for _ in rt.forever() {
            backoff.snooze();
            if self.table.shared.peek(TURN) == 0 {
                return;
            }
        }
    }

    // Makes one event on the latch set, and returns its reply. It spins while another caller has the lists.
    #[inline(always)]
    pub(crate) fn latch_event<R: Wait>(
        &self,
        rt: &R,
        caller: &mut Caller,
        op: LatchOp,
    ) -> LatchReply
        requires board { IsOf self.now caller.old }
        requires left { 0 < caller.old.left }
        requires admitted { allowed self.now.config caller.old.number caller.old.log Object.Latches (Op.Latch op) ≡ true }
        ensures event { Happened caller.old Object.Latches (Op.Latch op) (Reply.Latch result) caller.new }
        ensures possible { IsPossible self.now.config caller.new.number caller.new.log caller.new.told }
        ensures listed { IsAsListed caller.old Object.Latches (Op.Latch op) (Reply.Latch result) }
    {
        let Lists { place, mut latches } = self.take(rt, &mut caller.seat);
        let number = caller.events.caller;
        let reply = latches.apply_admitted(number, place, op, &mut caller.events.wakes);
        let lists = Lists {
            place: place + 1,
            latches,
        };
        let shared = &self.table.shared;
        shared.exchange(&mut caller.seat, 0, Item::Held(lists));
        shared.compare_exchange_with::<Give>(
            &mut caller.seat,
            TURN,
            1,
            0,
            &Item::Said(Op::Latch(op)),
        );
        caller
            .events
            .append(Object::Latches, place, Op::Latch(op), Reply::Latch(reply));
        reply
    }

    // Returns whether a request of the caller no longer waits. It spins while another caller has the lists, and gives the turn
    // back without an event.
    pub(crate) fn peek_latch<R: Wait>(
        &self,
        rt: &R,
        caller: &mut Caller,
        latch: u32,
        id: u32,
    ) -> bool
        requires board { IsOf self.now caller.old }
        requires own { MayWatch self.now.config caller.old (watch.Latch latch id) }
        ensures look { PeekedIn caller.old latch id result caller.new }
        ensures stays { Contains caller.old.ready (watch.Latch latch id) → result ≡ true }
    {
        let lists = self.take(rt, &mut caller.seat);
        let reply = lists.latches.confirm(caller.events.caller, latch, id);
        let shared = &self.table.shared;
        shared.exchange(&mut caller.seat, 0, Item::Held(lists));
        shared.compare_exchange_with::<Return>(
            &mut caller.seat,
            TURN,
            1,
            0,
            &Item::Sought { latch, id },
        );
        is_settled(reply)
    }
}

// Whether this reply to a Confirm says that the request no longer waits.
fn is_settled(reply: LatchReply) -> bool
    ensures { result ≡ is_settled_reply reply }
{
    matches!(reply, LatchReply::Granted(_) | LatchReply::Gone)
}
