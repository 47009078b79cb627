//! The station: a board, and a waker for each task. Clauses cite `specs/Station.antt`, `specs/Run.antt`, and `Faces.antt` of
//! mv_board.

ghost use Rattle.std.specs.Prelude.{◌≡◌, ◌<◌, ◌≤◌, ◌+◌, [], ◌++◌, ◌∷◌, true, length, map, vec_len, vec_capacity, IfOk, MatchResult};
ghost use Rattle.std.specs.List.{Contains};
ghost use Rattle.mv_calls.specs.Prelude.{allowed, events_limit, highest_generation, IsPossible, NamesUpTo};
ghost use Rattle.mv_board.specs.Faces.{IsOf, IsFresh, AreFresh, Happened, Found, Exchanged, Missed, IsAsListed, MayWatch, Peeks};
ghost use Rattle.mv_board.specs.Words.{HasWord, test_of};
ghost use Rattle.mv_wait.specs.Run.{Went};

use crate::backoff::{Backoff, Waker};
use crate::keep::Keep;
use crate::task::Task;
use mv_board::{Board, Caller, Closed, Moved, Watch};
use mv_io::NoMemory;
use mv_machine::{Config, Object, Op, Reply, ValidConfig};
use std::alloc::Global;
use std::marker::Model;
use std::sync::Wait;
use std::time::Clock;

/// The shared objects of a configuration, for tasks that wait.
///
/// Threads share a station by reference, and each acts by a `Task`. Each call must be given a task that this station made, and
/// objects of its configuration.
#[derive(Drop)]
pub struct Station {
    pub(crate) board: Board,
    // The waker of each task, by its number.
    pub(crate) wakers: Vec<Waker>,
}

impl Model for Station {
    ghost use Rattle.mv_board.specs.Faces.{BoardFace};
    ghost use Rattle.mv_wait.specs.Station.{IsStation};

    ghost Value = { BoardFace };

    ghost view = { λ s. s.board };

    ghost invariant = { IsStation };
}

impl Station {
    /// Opens a station with all objects at place 0, and returns it with its tasks in the order of their numbers.
    ///
    /// All memory that later calls use is taken here.
    ///
    /// # Errors
    ///
    /// `NoMemory` if memory runs out. The configuration is dropped then.
    ///
    /// # Examples
    ///
    /// From `crates/mv_completion/src/completion.rt`, a station of two tasks and one block:
    ///
    /// ```
    /// // A wait is two events, and a post is one. The block is the waiter's.
    /// let config = config_of_blocks(alloc, &[2, 1], &[WAITER])?;
    /// let (station, tasks) = Station::open(alloc, config)?;
    /// ```
    pub fn open(alloc: Global, config: ValidConfig) -> Result<(Station, Vec<Task>), NoMemory>
        ensures config { IfOk result (λ r. r.0.config ≡ config) }
        ensures tasks { IfOk result (λ r. AreFresh r.0 0 r.1.items) }
        ensures count { IfOk result (λ r. length r.1.items ≡ config.callers) }
    {
        let (board, callers) = Board::open(alloc, config)?;
        let (tasks, wakers) = tasks_of(alloc, &board, callers)?;
        Ok((Station { board, wakers }, tasks))
    }

    /// Takes the last of the tasks that `open` returned, to move it to its thread. It makes no event, and does not wait.
    ///
    /// # Examples
    ///
    /// From `crates/mv_task/src/tests.rt`, the two tasks of a station:
    ///
    /// ```
    /// let (station, mut tasks) = Station::open(alloc, config).expect(rt, "memory for a station");
    /// let second = station.take_last(&mut tasks);
    /// let first = station.take_last(&mut tasks);
    /// ```
    pub fn take_last(&self, tasks: &mut Vec<Task>) -> Task
        requires some { 0 < length tasks.old.items }
        requires fresh { AreFresh self.now 0 tasks.old.items }
        ensures taken { tasks.old.items ≡ tasks.new.items ++ result ∷ [] }
        ensures task { IsFresh self.now (length tasks.new.items) result }
        ensures others { AreFresh self.now 0 tasks.new.items }
        ensures count { length tasks.new.items + 1 ≡ length tasks.old.items }
        ensures room { vec_capacity tasks.new ≡ vec_capacity tasks.old }
    {
        let Some(task) = tasks.pop() else {
            unreachable!()
        };
        task
    }

    /// Returns the configuration with which the station was opened. It makes no event, and does not wait.
    ///
    /// # Examples
    ///
    /// From `crates/mv_task/src/tests.rt`, which asserts that the events of a post are left:
    ///
    /// ```
    /// assert!(rt; station.config().reach(ecb) <= self.task.left());
    /// station.post(rt, &mut self.task, ecb, CODE)
    /// ```
    pub fn config(&self) -> &ValidConfig
        ensures { result.now ≡ self.now.config }
    {
        self.board.config()
    }

    /// Makes one event on an object, and returns its reply. The other calls are made of this one.
    ///
    /// The event must be left, and the operation must be one that the task's own log permits. It does not park; on the latch set
    /// it spins until it gets the turn.
    ///
    /// The call wakes no task, whatever its reply. A task that is parked until this event stays parked until the caller wakes it
    /// by `wake`: the owner of a block or element if the reply to Post or Release is Woke, and on the latch set the tasks that
    /// `Task::wakes` then names.
    ///
    /// # Examples
    ///
    /// From `crates/mv_pause/src/releasing.rt`, the release of a pause, which wakes the owner of the element if the reply is
    /// Woke:
    ///
    /// ```
    /// let reply = station.event(
    ///     rt,
    ///     task,
    ///     Object::Element(token.element),
    ///     Op::Element(ElementOp::Release(token.generation, code)),
    /// );
    /// let answer = released(reply);
    /// wake_owner(station, answer, token.element);
    /// answer
    /// ```
    #[inline(always)]
    pub fn event<R: Wait>(&self, rt: &R, task: &mut Task, object: Object, op: Op) -> Reply
        requires task { IsOf self.now task.old }
        requires left { 0 < task.old.left }
        requires admitted { task.old.number < self.now.config.callers
            → allowed self.now.config task.old.number task.old.log object op ≡ true }
        ensures event { Happened task.old object op result task.new }
        ensures possible { IsPossible self.now.config task.new.number task.new.log task.new.told }
        ensures listed { IsAsListed task.old object op result }
        ensures few { task.old.left ≤ events_limit }
        ensures low { NamesUpTo highest_generation result }
    {
        let reply = self.board.event(rt, &mut task.caller, object, op);
        task.keep.follow(object, op, reply);
        reply
    }

    /// Tries one exchange of the word of an object: a block, an element or a volume.
    ///
    /// An event must be left, and is used up only if the exchange succeeds. It never waits.
    ///
    /// The call wakes no task, whatever its reply. If that is Woke, the caller must wake the owner of the block or element by
    /// `wake`.
    ///
    /// # Errors
    ///
    /// `Moved(w)` if the word was `w` and not `expected`; then no event is made.
    ///
    /// # Examples
    ///
    /// From `crates/mv_task/src/tests/pauses.rt`, a release that is made only if its task pauses in `word`:
    ///
    /// ```
    /// match station.try_event(task, object, op, word) {
    ///     Ok(_) => {
    ///         // The exchange has woken no task: this call must wake the task whose pause it ends.
    ///         station.wake(station.config().element_owner(element));
    ///         true
    ///     }
    ///     Err(_) => false,
    /// }
    /// ```
    pub fn try_event(
        &self,
        task: &mut Task,
        object: Object,
        op: Op,
        expected: u64,
    ) -> Result<Reply, Moved>
        requires task { IsOf self.now task.old }
        requires word { HasWord self.now.config object }
        requires left { 0 < task.old.left }
        requires admitted { task.old.number < self.now.config.callers
            → allowed self.now.config task.old.number task.old.log object op ≡ true }
        ensures answer { MatchResult result
            (λ reply. Exchanged task.old object op expected reply task.new)
            (λ moved. Missed task.old object expected moved task.new) }
        ensures possible { IfOk result (λ _. IsPossible self.now.config task.new.number task.new.log task.new.told) }
        ensures listed { IfOk result (λ reply. IsAsListed task.old object op reply) }
        ensures low { IfOk result (λ reply. NamesUpTo highest_generation reply) }
    {
        let answer = self.board.try_event(&mut task.caller, object, op, expected);
        if let Ok(reply) = answer {
            task.keep.follow(object, op, reply);
        }
        answer
    }

    /// Makes the event that reads an object with a word: a block, an element or a volume.
    ///
    /// The event must be left. It never waits.
    ///
    /// # Examples
    ///
    /// From `crates/mv_pause/src/testing.rt`, which returns the state of an element:
    ///
    /// ```
    /// state(station.test(task, Object::Element(element)))
    /// ```
    pub fn test(&self, task: &mut Task, object: Object) -> Reply
        requires task { IsOf self.now task.old }
        requires word { HasWord self.now.config object }
        requires left { 0 < task.old.left }
        ensures event { Happened task.old object (test_of object) result task.new }
        ensures met { task.new.met ≡ task.old.met }
        ensures possible { IsPossible self.now.config task.new.number task.new.log task.new.told }
        ensures low { NamesUpTo highest_generation result }
    {
        self.board.test(&mut task.caller, object)
    }

    /// Loads an object's word: its place and its state in 64 bits. It makes no event, and never waits.
    ///
    /// # Examples
    ///
    /// From `crates/mv_task/src/tests/pauses.rt`, which reads the state of an element:
    ///
    /// ```
    /// let word = station.look(task, object);
    /// let Some((_, WordState::Element(state))) = unpack(object, word) else {
    ///     return false;
    /// };
    /// ```
    pub fn look(&self, task: &mut Task, object: Object) -> u64
        requires task { IsOf self.now task.old }
        requires word { HasWord self.now.config object }
        ensures found { Found task.old object result task.new }
        ensures ready { task.new.ready ≡ task.old.ready }
    {
        self.board.look(&mut task.caller, object)
    }

    /// Returns whether what a task waits for has happened: its own block is complete, its own element is released, or a request
    /// that it made is granted or gone.
    ///
    /// The call makes no event, and does not park. If the answer is `true`, it stays so until the task's own event on the object.
    ///
    /// # Examples
    ///
    /// From `crates/mv_polled/src/pausing.rt`, a poll of a pause:
    ///
    /// ```
    /// if !station.peek(rt, task, Watch::Element(self.token.element)) {
    ///     return Turn::Pending;
    /// }
    /// ```
    pub fn peek<R: Wait>(&self, rt: &R, task: &mut Task, watch: Watch) -> bool
        requires task { IsOf self.now task.old }
        requires own { MayWatch self.now.config task.old watch }
        ensures look { Peeks task.old watch result task.new }
        ensures stays { Contains task.old.ready watch → result ≡ true }
    {
        self.board.peek(rt, &mut task.caller, watch)
    }

    /// Parks until what the task waits for has happened, as `peek` says.
    ///
    /// The call makes no event. It may never return: nothing promises that another task ends the wait.
    ///
    /// # Examples
    ///
    /// From `crates/mv_pause/src/pausing.rt`, the second half of a pause:
    ///
    /// ```
    /// station.park_for(rt, task, Watch::Element(token.element));
    /// Ok(end_pause(station, rt, task, token))
    /// ```
    pub fn park_for<R: Wait + Clock>(&self, rt: &R, task: &mut Task, watch: Watch)
        requires task { IsOf self.now task.old }
        requires own { MayWatch self.now.config task.old watch }
        ensures went { Went [] task.old task.new }
        ensures ready { Contains task.new.ready watch }
    {
        if let Watch::Latch { .. } = watch {
            return self.park_for_latch(rt, task, watch);
        }
        task.backoff.reset();
        for _ in rt.forever() {
            if self.peek(rt, task, watch) {
                return;
            }
            task.backoff.snooze(rt);
        }
    }

    // Parks until a request is granted or gone. A look at the latch set takes the turn from the task that is to release the
    // latch, so there is one look after each wake, and not one after each step of the backoff.
    fn park_for_latch<R: Wait + Clock>(&self, rt: &R, task: &mut Task, watch: Watch)
        requires task { IsOf self.now task.old }
        requires own { MayWatch self.now.config task.old watch }
        ensures went { Went [] task.old task.new }
        ensures ready { Contains task.new.ready watch }
    {
        for _ in rt.forever() {
            task.backoff.listen();
            if self.peek(rt, task, watch) {
                return;
            }
            task.backoff.await_wake(rt);
        }
    }

    /// Wakes the task of this number if it is parked. The task then looks again, and parks again if its wait is not over.
    ///
    /// The call makes no event, and never waits. The service calls wake tasks themselves; use `wake` only in a call that you make
    /// of events.
    ///
    /// # Examples
    ///
    /// From `crates/mv_task/src/tests/pauses.rt`, after an exchange that ended a pause:
    ///
    /// ```
    /// // The exchange has woken no task: this call must wake the task whose pause it ends.
    /// station.wake(station.config().element_owner(element));
    /// ```
    pub fn wake(&self, caller: u32)
        requires { caller < self.now.config.callers }
    {
        self.wakers[caller as usize].wake();
    }
}

impl Station {
    ghost use Rattle.std.specs.List.{AllByRecursion};
    ghost use Rattle.mv_calls.specs.Prelude.{Legal, after, merged as merged_logs, KeepsBudgets};
    ghost use Rattle.mv_board.specs.Faces.{AreInOrder, IsIn, AreHeld};

    /// Ends the station: takes back all its tasks, in the order of their numbers, and makes one legal history of their logs.
    ///
    /// The call takes no memory, never fails, and does not wait: the tasks' threads must have ended.
    ///
    /// # Examples
    ///
    /// From `crates/mv_dining/src/dining.rt`:
    ///
    /// ```
    /// let (tasks, _rooms) = run_tasks(rt, alloc, &station, &Dining(meals), tasks, rooms)?;
    /// let closed = station.close(tasks);
    /// Ok(closed.history)
    /// ```
    pub fn close(self, tasks: Vec<Task>) -> Closed
        requires order { AreInOrder self 0 tasks.items }
        requires all { length tasks.items ≡ self.config.callers }
        ensures config { result.history.config ≡ self.config }
        ensures whole { result.history.past ≡ [] }
        ensures legal { Legal self.config result.history.coming }
        ensures budgets { KeepsBudgets self.config result.history.coming }
        ensures few { length result.history.coming ≤ events_limit }
        ensures merged { result.history.coming ≡ merged_logs (map (λ k. k.log) tasks.items) }
        ensures callers { AllByRecursion (IsIn self.config result.history.coming) tasks.items }
        ensures volumes { AreHeld self.config (after self.config result.history.coming) result.volumes }
    {
        let Station { board, .. } = self;
        let mut closing = board.closing();
        for task in tasks {
            closing.take_back(task.into_caller());
        }
        closing.done()
    }
}

// Makes a task for each of these callers, in order, and its waker.
fn tasks_of(
    alloc: Global,
    board: &Board,
    callers: Vec<Caller>,
) -> Result<(Vec<Task>, Vec<Waker>), NoMemory>
    requires { AreFresh board.now 0 callers.items }
    ensures tasks { IfOk result (λ r. r.0.items ≡ callers.items) }
    ensures wakers { IfOk result (λ r. vec_len r.1 ≡ length callers.items) }
{
    let mut tasks = Vec::with_capacity(alloc, callers.len())?;
    let mut wakers = Vec::with_capacity(alloc, callers.len())?;
    for caller in callers {
        let (task, waker) = opened(alloc, board.config(), caller)?;
        wakers.push_reserved(waker);
        tasks.push_reserved(task);
    }
    Ok((tasks, wakers))
}

// Makes a task of this caller, and its waker.
fn opened(alloc: Global, config: &ValidConfig, caller: Caller) -> Result<(Task, Waker), NoMemory>
    requires about { caller.about ≡ config.now ∷ [] }
    requires new { caller.log ≡ [] }
    ensures { IfOk result (λ r. r.0 ≡ caller) }
{
    let (backoff, waker) = Backoff::open(alloc)?;
    let task = task_of(alloc, config, caller, backoff)?;
    Ok((task, waker))
}

// Makes a task of this caller, with empty tables that have room for all that it may keep and post.
fn task_of(
    alloc: Global,
    config: &ValidConfig,
    caller: Caller,
    backoff: Backoff,
) -> Result<Task, NoMemory>
    requires about { caller.about ≡ config.now ∷ [] }
    requires new { caller.log ≡ [] }
    ensures { IfOk result (λ t. t ≡ caller) }
{
    let left = caller.left() as usize;
    let keep = Keep::empty(alloc, config, caller.number())?;
    let (pending, places) = rooms_of(alloc, config.config(), left)?;
    Ok(Task {
        caller,
        keep,
        backoff,
        pending,
        places,
    })
}

// Makes room for `left` blocks that are still to be posted, and a place for each block.
fn rooms_of(alloc: Global, config: &Config, left: usize) -> Result<(Vec<u32>, Vec<u32>), NoMemory>
    ensures idle { IfOk result (λ r. r.0.items ≡ []) }
    ensures room { IfOk result (λ r. left ≤ vec_capacity r.0) }
    ensures places { IfOk result (λ r. vec_len r.1 ≡ length config.now.owners.items) }
{
    let pending = Vec::with_capacity(alloc, left)?;
    let places = vec![in alloc; 0; config.owners.len()]?;
    Ok((pending, places))
}
