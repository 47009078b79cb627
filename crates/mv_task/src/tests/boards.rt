//! Calls of two callers on one board, by one thread and by two, and the history that a board leaves.

ghost use Rattle.std.specs.Prelude.{◌≡◌, ◌+◌, ◌<◌, [], ◌∷◌, true, length};
ghost use Rattle.mv_machine.specs.System.{ecb_admitted};
ghost use Rattle.mv_board.specs.Faces.{AreFresh, IsFresh, IsOf};

use mv_board::{Board, Caller, Moved, Watch};
use mv_ecb::{EcbOp, EcbReply};
use mv_machine::{Config, Entry, Object, Op, Reply, ValidConfig};
use std::alloc::Global;
use std::marker::Model;
use std::process::Abort;
use std::sync::Wait;
use std::thread::join;

// ---- a board of two callers

// A configuration of two callers with these budgets, and one event control block, of caller 0.
fn setup(rt: &impl Abort, alloc: Global, budgets: [u32; 2]) -> ValidConfig
    ensures callers { result.callers ≡ 2 }
    ensures block { result.owners ≡ 0 ∷ [] }
{
    let config = Config {
        callers: 2,
        elements_per_caller: 1,
        volumes: 1,
        latches: 1,
        quota: 1,
        posted_quota: 0,
        budgets: Vec::from_slice(alloc, &budgets).expect(rt, "room for budgets"),
        owners: vec![in alloc; 0].expect(rt, "room for an owner"),
        exits: Vec::new(alloc),
    };
    config.check(alloc).expect(rt, "a configuration")
}

// The last of these new callers, which has this number.
fn last(board: &Board, callers: &mut Vec<Caller>, number: u32) -> Caller
    requires count { length callers.old.items ≡ number + 1 }
    requires fresh { AreFresh board.now 0 callers.old.items }
    ensures caller { IsFresh board.now number result }
    ensures others { AreFresh board.now 0 callers.new.items }
    ensures fewer { length callers.new.items ≡ number }
{
    let Some(caller) = callers.pop() else {
        unreachable!()
    };
    caller
}

// A new board of such a configuration, and its callers.
fn open(rt: &impl Abort, alloc: Global, budgets: [u32; 2]) -> (Board, Caller, Caller)
    ensures callers { result.0.config.callers ≡ 2 }
    ensures block { result.0.config.owners ≡ 0 ∷ [] }
    ensures first { IsOf result.0 result.1 × (result.1.number ≡ 0) }
    ensures second { IsOf result.0 result.2 × (result.2.number ≡ 1) }
{
    let config = setup(rt, alloc, budgets);
    let (board, mut callers) = Board::open(alloc, config).expect(rt, "memory for a board");
    let second = last(&board, &mut callers, 1);
    let first = last(&board, &mut callers, 0);
    (board, first, second)
}

// The journal of a board at its end, when its callers are back.
fn close(rt: &impl Abort, alloc: Global, board: Board, first: Caller, second: Caller) -> Vec<Entry>
    requires two { board.config.callers ≡ 2 }
    requires first { IsOf board first × (first.number ≡ 0) }
    requires second { IsOf board second × (second.number ≡ 1) }
{
    let callers = vec![in alloc; first, second].expect(rt, "room for two callers");
    let history = board.close(callers).history;
    let listed = history
        .listed(alloc)
        .expect(rt, "memory for a list of events");
    listed.journal
}

// Drops a board and its callers. A test that dropped them itself would take many times as long to prove.
fn end(_board: Board, _first: Caller, _second: Caller) {}

// ---- a caller with its board

const BLOCK: Object = Object::Ecb(0);

// A caller with its board, which has the one block.
#[derive(Drop)]
struct Seat<'a> {
    board: &'a Board,
    caller: Caller,
}

impl<'a> Model for Seat<'a> {
    ghost use Rattle.std.specs.Prelude.{◌≡◌, ℕ, ◌<◌, [], ◌∷◌};
    ghost use Rattle.mv_board.specs.Faces.{BoardFace, IsOf};

    ghost Value = { BoardFace × ℕ };

    ghost view = { λ s. (s.board.now, s.caller.number) };

    ghost invariant = { λ s. IsOf s.board.now s.caller × (s.caller.number < s.board.now.config.callers)
        × (s.board.now.config.owners ≡ 0 ∷ []) };
}

impl<'a> Seat<'a> {
    fn new(board: &'a Board, caller: Caller) -> Seat<'a>
        requires board { IsOf board.now caller }
        requires number { caller.number < board.now.config.callers }
        requires block { board.now.config.owners ≡ 0 ∷ [] }
        ensures { result ≡ (board.now, caller.number) }
    {
        Seat { board, caller }
    }

    // Gives the seat's caller back.
    fn back(self) -> Caller
        ensures { IsOf self.entry.0 result × (result.number ≡ self.entry.1) }
    {
        let Seat { board: _, caller } = self;
        caller
    }

    // Makes an event on the block, and returns its reply.
    fn make<R: Abort + Wait>(&mut self, rt: &R, op: EcbOp) -> Reply
        requires admitted { ecb_admitted self.old.0.config self.old.1 0 op ≡ true }
        ensures { self.new ≡ self.old }
    {
        let board = self.board;
        assert!(rt; self.caller.left() > 0);
        board.event(rt, &mut self.caller, BLOCK, Op::Ecb(op))
    }

    // Tries an event on the block by one exchange of the expected word.
    fn exchange(&mut self, rt: &impl Abort, op: EcbOp, expected: u64) -> Result<Reply, Moved>
        requires admitted { ecb_admitted self.old.0.config self.old.1 0 op ≡ true }
        ensures { self.new ≡ self.old }
    {
        let board = self.board;
        assert!(rt; self.caller.left() > 0);
        board.try_event(&mut self.caller, BLOCK, Op::Ecb(op), expected)
    }

    // The word of the block.
    fn look(&mut self) -> u64
        ensures { self.new ≡ self.old }
    {
        let board = self.board;
        board.look(&mut self.caller, BLOCK)
    }

    // Whether the block, which is the caller's own, is complete.
    fn peek<R: Wait>(&mut self, rt: &R) -> bool
        requires own { self.old.1 ≡ 0 }
        ensures { self.new ≡ self.old }
    {
        let board = self.board;
        board.peek(rt, &mut self.caller, Watch::Ecb(0))
    }
}

// ---- each call once

// Two words of the block: zero at place 1, and complete with code 5 at place 2.
const ZERO_LATER: u64 = 35_184_372_088_832;

const COMPLETE_LATER: u64 = 70_369_817_919_493;

// Makes a post and then the owner's arm, which finds the block complete; then an exchange that expects a word which the block
// never had, a look and a peek.
fn post_and_arm<R: Abort + Wait>(rt: &R, owner: &mut Seat<'_>, poster: &mut Seat<'_>)
    requires owner { owner.old.1 ≡ 0 }
    requires arm { ecb_admitted owner.old.0.config owner.old.1 0 EcbOp.Arm ≡ true }
    requires settle { ecb_admitted owner.old.0.config owner.old.1 0 EcbOp.Settle ≡ true }
    ensures owner { owner.new ≡ owner.old }
    ensures poster { poster.new ≡ poster.old }
{
    let posted = poster.make(rt, EcbOp::Post(5));
    assert!(rt; posted == Reply::Ecb(EcbReply::Posted));
    let armed = owner.make(rt, EcbOp::Arm);
    assert!(rt; armed == Reply::Ecb(EcbReply::Complete(5)));
    let moved = owner.exchange(rt, EcbOp::Settle, ZERO_LATER);
    assert!(rt; moved == Err(Moved(COMPLETE_LATER)));
    assert!(rt; owner.look() == COMPLETE_LATER && owner.peek(rt));
}

fn entry(caller: u32, place: u32, op: EcbOp, reply: EcbReply) -> Entry {
    Entry {
        caller,
        object: BLOCK,
        place,
        op: Op::Ecb(op),
        reply: Reply::Ecb(reply),
    }
}

// The journal has two entries, of the post and of the arm.
fn assert_posted_and_armed(rt: &impl Abort, journal: &[Entry]) {
    let expected = [
        entry(1, 0, EcbOp::Post(5), EcbReply::Posted),
        entry(0, 1, EcbOp::Arm, EcbReply::Complete(5)),
    ];
    assert!(rt; journal == expected.as_slice());
}

#[test]
fn a_post_its_looks_and_its_journal(rt: HostRuntime) {
    let (board, first, second) = open(&rt, rt.alloc(), [3, 3]);
    let mut owner = Seat::new(&board, first);
    let mut poster = Seat::new(&board, second);
    post_and_arm(&rt, &mut owner, &mut poster);
    let (first, second) = (owner.back(), poster.back());
    let journal = close(&rt, rt.alloc(), board, first, second);
    assert_posted_and_armed(&rt, &journal);
}

// ---- threads on one word

// Makes this many tests of the block, which no task has posted.
fn repeat<R: Abort + Wait>(rt: &R, board: &Board, caller: Caller, events: u32) -> Caller
    requires board { IsOf board.now caller × (caller.number < board.now.config.callers) }
    requires block { board.now.config.owners ≡ 0 ∷ [] }
    ensures { IsOf board.now result × (result.number ≡ caller.number) }
{
    let mut seat = Seat::new(board, caller);
    for _ in 0..events {
        let reply = seat.make(rt, EcbOp::Test);
        assert!(rt; reply == Reply::Ecb(EcbReply::Word(0)));
    }
    seat.back()
}

// The entries are at the places from 0 on, in their order, and each of two callers has `each` of them.
fn assert_in_order(rt: &impl Abort, journal: &[Entry], each: usize) {
    for (place, entry) in journal.iter().enumerate() {
        assert!(rt; entry.object == BLOCK && entry.place as usize == place);
    }
    let of_first = journal.iter().filter(|entry| entry.caller == 0).count();
    let of_second = journal.iter().filter(|entry| entry.caller == 1).count();
    assert!(rt; of_first == each && of_second == each);
}

#[test]
fn the_events_of_two_threads_have_each_place_once(rt: HostRuntime) {
    let (board, first, second) = open(&rt, rt.alloc(), [1000, 1000]);
    let (first, second) = join(
        &rt,
        || repeat(&rt, &board, first, 1000),
        || repeat(&rt, &board, second, 1000),
    );
    let journal = close(&rt, rt.alloc(), board, first, second);
    assert!(rt; journal.len() == 2000);
    assert_in_order(&rt, &journal, 1000);
}

// ---- what bench/run times

// Makes this many tests, each of which is in the caller's log.
fn log_tests<R: Abort + Wait>(rt: &R, board: &Board, caller: Caller, events: u32) -> Caller
    requires board { IsOf board.now caller × (caller.number < board.now.config.callers) }
    requires block { board.now.config.owners ≡ 0 ∷ [] }
{
    let caller = repeat(rt, board, caller, events);
    assert!(rt; caller.log().len() == events as usize);
    caller
}

#[test]
fn events_of_one_thread(rt: HostRuntime) {
    let (board, first, second) = open(&rt, rt.alloc(), [250_000, 0]);
    let first = log_tests(&rt, &board, first, 250_000);
    end(board, first, second);
}

#[test]
fn events_of_two_threads_on_one_word(rt: HostRuntime) {
    let (board, first, second) = open(&rt, rt.alloc(), [125_000, 125_000]);
    let (first, second) = join(
        &rt,
        || log_tests(&rt, &board, first, 125_000),
        || log_tests(&rt, &board, second, 125_000),
    );
    end(board, first, second);
}
