//! The board: how it is opened, and its calls on objects. Clauses cite `specs/Faces.antt`; those of its steps also
//! `specs/Steps.antt`, `specs/View.antt` and `specs/Words.antt`. What contracts see of a board is in `specs/Board.antt`, and the
//! invariant of its table in `specs/Rule.antt`.

ghost use Rattle.std.specs.Prelude.{◌≡◌, ◌<◌, ◌≤◌, ◌∷◌, [], true, length, vec_capacity, IfOk, MatchResult, Some};
ghost use Rattle.std.specs.List.{Contains};
ghost use Rattle.mv_machine.specs.Prelude.{IsValid, allowed, IsPossible, owner_at, IsRoomFor, opening};
ghost use Rattle.mv_board.specs.Faces.{IsOf, IsFresh, AreFresh, Happened, Found, Exchanged, Missed, IsAsListed, MayWatch, PeekedAt, Peeks};
ghost use Rattle.mv_board.specs.declared.watch.Watch.{Watch as AnyWatch};
ghost use Rattle.mv_board.specs.Rule.{IsLists};
ghost use Rattle.mv_board.specs.Steps.{MadeAfterLooks, Meets, watch_of};
ghost use Rattle.mv_board.specs.Words.{HasWord, test_of as test_on, word_count};
ghost use Rattle.mv_board.specs.View.{fresh_view, first_view, met, own};

use crate::caller::{Caller, Events, Moved};
use crate::item::{Item, Lists};
use crate::rule::{Addition, Exchange, Look, OneHistory, Peek, Seats};
use crate::view::View;
use crate::watch::Watch;
use crate::words::{BEFORE_ECBS, PLACE, change, is_ready, test_of, word_number};
use atomic_table::{Seat, Table};
use crossbeam_utils::Backoff;
use mv_ecb::EcbOp;
use mv_element::ElementOp;
use mv_io::NoMemory;
use mv_machine::{Log, MergeRoom, Object, Op, OpenLog, Reply, ValidConfig, open_latches};
use std::alloc::Global;
use std::marker::Model;
use std::sync::Wait;

/// The shared objects of a configuration.
///
/// Threads share a board by reference, and each makes its calls with a `Caller`. No call here parks or wakes a task: a call that
/// has to wait tries again. To write tasks, use the `Station` of mv_wait, which parks and wakes them.
#[derive(Drop)]
pub struct Board {
    pub(crate) config: ValidConfig,
    pub(crate) table: Table<Item, View, ValidConfig, OneHistory, Global>,
    // Room for the history and for the callers' logs, which `close` uses.
    pub(crate) room: MergeRoom,
    pub(crate) logs: Vec<Log>,
}

impl Model for Board {
    ghost use Rattle.mv_board.specs.Board.{board_of, IsOpen};
    ghost use Rattle.mv_board.specs.Faces.{BoardFace};

    ghost Value = { BoardFace };

    ghost view = { board_of };

    ghost invariant = { IsOpen };
}

impl Board {
    /// Opens a board with all objects at place 0, and returns it with its callers in the order of their numbers.
    ///
    /// All memory that later calls use is taken here.
    ///
    /// # Errors
    ///
    /// `NoMemory` if memory runs out. The configuration is dropped then.
    ///
    /// # Examples
    ///
    /// From `crates/mv_task/src/tests/boards.rt`, a board and its two callers:
    ///
    /// ```
    /// let (board, mut callers) = Board::open(alloc, config).expect(rt, "memory for a board");
    /// let second = last(&board, &mut callers, 1);
    /// let first = last(&board, &mut callers, 0);
    /// ```
    pub fn open(alloc: Global, config: ValidConfig) -> Result<(Board, Vec<Caller>), NoMemory>
        ensures config { IfOk result (λ r. r.0.config ≡ config) }
        ensures callers { IfOk result (λ r. AreFresh r.0 0 r.1.items) }
        ensures count { IfOk result (λ r. length r.1.items ≡ config.callers) }
    {
        let (table, first) = table_of(alloc, &config)?;
        let callers = seats(alloc, &config, &table, first)?;
        let (room, logs) = rooms_of(alloc, &config)?;
        let board = Board {
            config,
            table,
            room,
            logs,
        };
        Ok((board, callers))
    }

    /// Returns the configuration with which the board was opened.
    pub fn config(&self) -> &ValidConfig
        ensures { result.now ≡ self.now.config }
    {
        &self.config
    }

    /// Loads an object's word, which is the object's place times 2^45 plus its state in the 45 bits below, as `unpack` reads it.
    ///
    /// This is not an event, and other callers may change the word at once. The call does not wait. The latch set has no word.
    pub fn look(&self, caller: &mut Caller, object: Object) -> u64
        requires board { IsOf self.now caller.old }
        requires word { HasWord self.now.config object }
        ensures found { Found caller.old object result caller.new }
        ensures ready { caller.new.ready ≡ caller.old.ready }
    {
        self.table
            .shared
            .load::<Look>(&mut caller.seat, word_number(object))
    }

    /// Returns whether what a caller waits for has happened: its own block is complete, its own element is released, or its own
    /// request is granted or gone.
    ///
    /// This is not an event. If the answer is `true`, it stays so whatever other callers do, until an event of this caller takes
    /// the watch off its list: one on that block or element, or one on the latch set other than Obtain. At a block or an element
    /// the call does not wait; for a request it spins while another caller has the lists.
    #[inline(always)]
    pub fn peek<R: Wait>(&self, rt: &R, caller: &mut Caller, watch: Watch) -> bool
        requires board { IsOf self.now caller.old }
        requires own { MayWatch self.now.config caller.old watch }
        ensures look { Peeks caller.old watch result caller.new }
        ensures stays { Contains caller.old.ready watch → result ≡ true }
    {
        match watch {
            Watch::Ecb(ecb) => self.peek_word(caller, Object::Ecb(ecb)),
            Watch::Element(element) => self.peek_word(caller, Object::Element(element)),
            Watch::Latch { latch, id } => self.peek_latch(rt, caller, latch, id),
        }
    }

    // Whether the state of the caller's own block or element is what a watch of it waits for.
    #[inline(always)]
    fn peek_word(&self, caller: &mut Caller, object: Object) -> bool
        requires board { IsOf self.now caller.old }
        requires word { HasWord self.now.config object }
        requires own { owner_at self.now.config object ≡ Some caller.old.number }
        ensures look { (w : AnyWatch) → watch_of object ≡ Some w → PeekedAt caller.old object w result caller.new }
        ensures stays { (w : AnyWatch) → watch_of object ≡ Some w → Contains caller.old.ready w → result ≡ true }
    {
        let word = self
            .table
            .shared
            .load::<Peek>(&mut caller.seat, word_number(object));
        is_ready(object, word)
    }

    /// Makes the event that reads an object and changes nothing except its place: Test of an event control block or an element,
    /// Read of a volume.
    ///
    /// The event is one addition, which cannot fail, and the call does not wait. The latch set has no word. The caller must have an event
    /// left.
    pub fn test(&self, caller: &mut Caller, object: Object) -> Reply
        requires board { IsOf self.now caller.old }
        requires word { HasWord self.now.config object }
        requires left { 0 < caller.old.left }
        ensures event { Happened caller.old object (test_on object) result caller.new }
        ensures met { caller.new.met ≡ caller.old.met }
        ensures possible { IsPossible self.now.config caller.new.number caller.new.log caller.new.told }
    {
        let op = test_of(object);
        let word = self
            .table
            .shared
            .fetch_add::<Addition>(&mut caller.seat, word_number(object), PLACE);
        let Some((place, _, reply)) = change(object, op, word) else {
            unreachable!()
        };
        caller.events.append(object, place, op, reply);
        reply
    }

    /// Tries one exchange of an object's word: an event if the word is the expected one, otherwise only a look at the word.
    ///
    /// The call does not wait. Words are as `look` returns them. The latch set has no word. The caller must have an event left,
    /// and the operation must be one that `event` would take.
    ///
    /// # Errors
    ///
    /// `Moved(w)` if the word was `w` and not `expected`.
    ///
    /// # Examples
    ///
    /// From `crates/mv_task/src/tests/boards.rt`:
    ///
    /// ```
    /// board.try_event(&mut self.caller, BLOCK, Op::Ecb(op), expected)
    /// ```
    pub fn try_event(
        &self,
        caller: &mut Caller,
        object: Object,
        op: Op,
        expected: u64,
    ) -> Result<Reply, Moved>
        requires board { IsOf self.now caller.old }
        requires word { HasWord self.now.config object }
        requires left { 0 < caller.old.left }
        requires admitted { allowed self.now.config caller.old.number caller.old.log object op ≡ true }
        ensures answer { MatchResult result
            (λ reply. Exchanged caller.old object op expected reply caller.new)
            (λ moved. Missed caller.old object expected moved caller.new) }
        ensures possible { IfOk result (λ _. IsPossible self.now.config caller.new.number caller.new.log caller.new.told) }
        ensures listed { IfOk result (λ reply. IsAsListed caller.old object op reply) }
    {
        let shared = &self.table.shared;
        let word = word_number(object);
        let Some((place, next, reply)) = change(object, op, expected) else {
            return Err(Moved(shared.load::<Look>(&mut caller.seat, word)));
        };
        let found = shared.compare_exchange_with::<Exchange>(
            &mut caller.seat,
            word,
            expected,
            next,
            &Item::Said(op),
        );
        if found != expected {
            return Err(Moved(found));
        }
        caller.events.append(object, place, op, reply);
        Ok(reply)
    }

    /// Makes one event on an object, and returns its reply.
    ///
    /// On an object with a word the call retries as long as other callers change the word first; on the latch set it spins while
    /// another caller has the lists. The caller must have an event left.
    ///
    /// Whether the operation is admitted depends only on the configuration and on the caller's own log, so no other caller can
    /// take the permission away.
    #[inline(always)]
    pub fn event<R: Wait>(&self, rt: &R, caller: &mut Caller, object: Object, op: Op) -> Reply
        requires board { IsOf self.now caller.old }
        requires left { 0 < caller.old.left }
        requires admitted { allowed self.now.config caller.old.number caller.old.log object op ≡ true }
        ensures event { Happened caller.old object op result caller.new }
        ensures possible { IsPossible self.now.config caller.new.number caller.new.log caller.new.told }
        ensures listed { IsAsListed caller.old object op result }
    {
        match (object, op) {
            (Object::Latches, Op::Latch(op)) => Reply::Latch(self.latch_event(rt, caller, op)),
            _ => self.word_event(rt, caller, object, op),
        }
    }

    // Makes one event on an object that has a word, and returns its reply.
    #[inline(always)]
    fn word_event<R: Wait>(&self, rt: &R, caller: &mut Caller, object: Object, op: Op) -> Reply
        requires board { IsOf self.now caller.old }
        requires word { HasWord self.now.config object }
        requires left { 0 < caller.old.left }
        requires admitted { allowed self.now.config caller.old.number caller.old.log object op ≡ true }
        ensures event { Happened caller.old object op result caller.new }
        ensures possible { IsPossible self.now.config caller.new.number caller.new.log caller.new.told }
        ensures listed { IsAsListed caller.old object op result }
    {
        let far = self.is_far(caller.events.caller, object, op);
        let (place, reply) = self.exchange(rt, &mut caller.seat, object, op, far);
        caller.events.append(object, place, op, reply);
        reply
    }

    // Whether an operation signals another caller, whose processor then has the cache line of the object's word.
    #[inline(always)]
    fn is_far(&self, caller: u32, object: Object, op: Op) -> bool
        requires { HasWord self.now.config object }
    {
        match (object, op) {
            (Object::Ecb(ecb), Op::Ecb(EcbOp::Post(_))) => !self.config.owns_ecb(caller, ecb),
            (Object::Element(element), Op::Element(ElementOp::Release(..))) => {
                !self.config.owns_element(caller, element)
            }
            _ => false,
        }
    }

    // Loads an object's word for an event on it. If another processor has the word's cache line, an exchange that changes nothing
    // takes the line at once; a load would share it, and the event would then have to take it.
    #[inline(always)]
    fn first_look(&self, seat: &mut Seat<Item, View>, object: Object, far: bool) -> u64
        requires board { seat.old.table_id ≡ self.now.table }
        requires word { HasWord self.now.config object }
        requires alone { seat.old.me.0.parts ≡ own seat.old.me.0 ∷ [] }
        ensures same { (seat.new.table_id ≡ seat.old.table_id) × (seat.new.me.1 ≡ seat.old.me.1) }
        ensures looked { (seat.new.me.0 ≡ met object result seat.old.me.0) × Meets seat.old.me.0 object result }
    {
        let shared = &self.table.shared;
        let word = word_number(object);
        if far {
            return shared.compare_exchange::<Look>(seat, word, 0, 0);
        }
        shared.load::<Look>(seat, word)
    }

    // Makes one event of a seat on an object's word, and returns its place and its reply. `far` says whether another processor has
    // the word's cache line.
    #[inline(always)]
    fn exchange<R: Wait>(
        &self,
        rt: &R,
        seat: &mut Seat<Item, View>,
        object: Object,
        op: Op,
        far: bool,
    ) -> (u32, Reply)
        requires board { seat.old.table_id ≡ self.now.table }
        requires about { seat.old.me.0.about ≡ self.now.config ∷ [] }
        requires word { HasWord self.now.config object }
        requires alone { seat.old.me.0.parts ≡ own seat.old.me.0 ∷ [] }
        requires left { 0 < (own seat.old.me.0).left }
        requires admitted { allowed self.now.config (own seat.old.me.0).caller (own seat.old.me.0).log object op ≡ true }
        ensures same { (seat.new.table_id ≡ seat.old.table_id) × (seat.new.me.1 ≡ seat.old.me.1) }
        ensures event { MadeAfterLooks seat.old.me.0 object op result.0 result.1 seat.new.me.0 }
    {
        let shared = &self.table.shared;
        let word = word_number(object);
        let backoff = Backoff::new();
        let mut seen = self.first_look(seat, object, far);
        for _ in rt.forever() {
            let Some((place, next, reply)) = change(object, op, seen) else {
                unreachable!()
            };
            let found = shared.compare_exchange_with::<Exchange>(
                seat,
                word,
                seen,
                next,
                &Item::Said(op),
            );
            if found == seen {
                return (place, reply);
            }
            seen = found;
            backoff.snooze();
        }
        unreachable!()
    }
}

// Makes the table of a configuration's objects, all at place 0, and its first seat.
fn table_of(
    alloc: Global,
    config: &ValidConfig,
) -> Result<
    (
        Table<Item, View, ValidConfig, OneHistory, Global>,
        Seat<Item, View>,
    ),
    NoMemory,
>
    ensures key { IfOk result (λ r. r.0.shared.key ≡ config.now) }
    ensures words { IfOk result (λ r. r.0.shared.table_id.words ≡ word_count config.now) }
    ensures slots { IfOk result (λ r. r.0.shared.table_id.slots ≡ 1) }
    ensures first { IfOk result (λ r. (r.1.table_id ≡ r.0.shared.table_id) × (r.1.me ≡ (first_view config.now, []))) }
{
    let words = vec![in alloc; 0u64; BEFORE_ECBS + config.config().owners.len()]?;
    let slots = vec![in alloc; Item::Held(lists_of(alloc, config)?)]?;
    let Ok(table) = Table::new(alloc, &words, slots, config) else {
        // out of memory: a table is refused for no other reason.
        return Err(NoMemory);
    };
    Ok(table)
}

// Makes the callers of a new table, in order. The first of them gets the seat `first`.
fn seats(
    alloc: Global,
    config: &ValidConfig,
    table: &Table<Item, View, ValidConfig, OneHistory, Global>,
    mut first: Seat<Item, View>,
) -> Result<Vec<Caller>, NoMemory>
    requires key { table.now.shared.key ≡ config.now }
    requires words { table.now.shared.table_id.words ≡ word_count config.now }
    requires table { first.table_id ≡ table.now.shared.table_id }
    requires first { first.me ≡ (first_view config.now, []) }
    ensures callers { IfOk result (λ fs. AreFresh record { table = table.now.shared.table_id; config = config.now } 0 fs.items) }
    ensures count { IfOk result (λ fs. length fs.items ≡ config.now.callers) }
{
    let count = config.config().callers;
    let mut callers = Vec::with_capacity(alloc, count as usize)?;
    for number in 1..count {
        let seat = table.shared.split_seat::<Seats>(&mut first);
        callers.push_reserved(seated(alloc, config, number, seat)?);
    }
    callers.insert(0, seated(alloc, config, 0, first)?)?;
    Ok(callers)
}

// Makes the room that `close` uses: for the history of a configuration, and for its callers' logs.
fn rooms_of(alloc: Global, config: &ValidConfig) -> Result<(MergeRoom, Vec<Log>), NoMemory>
    ensures valid { IsValid config.now }
    ensures room { IfOk result (λ r. IsRoomFor config.now r.0) }
    ensures none { IfOk result (λ r. r.1.items ≡ []) }
    ensures logs { IfOk result (λ r. config.now.callers ≤ vec_capacity r.1) }
{
    let logs = Vec::with_capacity(alloc, config.config().callers as usize)?;
    let room = MergeRoom::new(alloc, config)?;
    Ok((room, logs))
}

// Makes the empty lists of a configuration's latch set.
fn lists_of(alloc: Global, config: &ValidConfig) -> Result<Lists, NoMemory>
    ensures { IfOk result (λ l. IsLists config.now (opening config.now).latches l) }
{
    Ok(Lists {
        place: 0,
        latches: open_latches(alloc, config)?,
    })
}

// Makes a caller with this seat, and with room for all its entries and wakes.
fn seated(
    alloc: Global,
    config: &ValidConfig,
    number: u32,
    seat: Seat<Item, View>,
) -> Result<Caller, NoMemory>
    requires number { number < config.now.callers }
    requires seat { seat.me ≡ (fresh_view config.now number seat.me.0.made, []) }
    ensures { IfOk result (λ f. IsFresh record { table = seat.table_id; config = config.now } number f) }
{
    let left = config.config().budgets[number as usize];
    let events = Events {
        caller: number,
        left,
        log: OpenLog::with_room(alloc, number, left as usize)?,
        wakes: Vec::with_capacity(alloc, config.most_wakes())?,
    };
    Ok(Caller { events, seat })
}
