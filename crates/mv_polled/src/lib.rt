//! Waits, pauses and obtains that are polled and never park, as calls and as futures.
//!
//! Each poll makes the events of its call as far as it can, and returns the answer, or `Pending`: then the task is to be polled
//! again once what it waits for may have happened. So one thread can run as many tasks as a station has, in an order that the
//! program chooses.
//!
//! # When to use it
//!
//! - Tasks share a thread, because the machine makes none or because each run is to be the same: `WaitCall`, `PauseCall` and
//!   `ObtainCall`, polled by a loop of the program.
//! - Tasks are futures: `WaitFuture` and `PauseFuture`, for an executor of `futures`. A waker is kept in the future, so the
//!   program hands the key of each event to `ring` of the futures.
//!
//! Use another crate:
//!
//! - if each task has a thread: `wait` of mv_wait, `pause` of mv_pause and `obtain` of mv_latchset, which park
//! - for calls that never wait, such as a post or a release: those of mv_wait, mv_pause and mv_latchset, unchanged
//! - to run a deck on one thread: `run_polled` of mv_polledspool
//!
//! # Examples
//!
//! A wait for two of three blocks. It is polled once after a post of block 0, and once more after a post of block 2. `a_wait`
//! makes it by `WaitCall::new`, `is_over` polls it, and `post` posts a block. From `crates/mv_tests/src/tests/polls.rt`:
//!
//! ```
//! let mut call = a_wait(rt, rt.alloc(), station, waiter, 2, &[0, 1, 2]);
//! post(station, rt, poster, 0, 5);
//! assert!(rt; !is_over(station, rt, waiter, &mut call));
//! assert!(rt; call.keys() == [1, 2].as_slice());
//! assert!(rt; call.slots().is_empty() && waiter.log().len() == 3);
//! post(station, rt, poster, 2, 7);
//! assert!(rt; is_over(station, rt, waiter, &mut call));
//! let found = [WaitSlot::Complete(5), WaitSlot::Open, WaitSlot::Complete(7)];
//! assert!(rt; call.slots() == found.as_slice() && call.keys().is_empty());
//! ```
//!
//! The future of a wait for any of two blocks:
//!
//! ```
//! let call = a_wait(rt, rt.alloc(), station, waiter, 1, &[0, 1]);
//! let sources = [Source::new(), Source::new()];
//! let mut future = WaitFuture::new(station, rt, waiter, call, &sources);
//! assert!(rt; task.poll(&mut future).is_pending() && !task.is_woken());
//! assert!(rt; future.call().keys() == [0, 1].as_slice());
//! post(station, rt, poster, 1, 5);
//! future.ring(1);
//! assert!(rt; task.is_woken());
//! assert!(rt; task.poll(&mut future).is_ready());
//! let found = [WaitSlot::Open, WaitSlot::Complete(5)];
//! assert!(rt; future.call().slots() == found.as_slice());
//! ```
//!
//! A loop that polls a task only if an event has rung the key of what the task waits for, or the task has itself made an event
//! since its last poll. `go_on` polls the call of the task. From `crates/mv_tests/src/tests/rings.rt`:
//!
//! ```
//! let number = (runner.task.number() & 7) as usize;
//! if !woken[number] {
//!     return runner;
//! }
//! let from = runner.task.log().len();
//! let runner = go_on(station, rt, runner);
//! woken[number] = runner.task.log().len() > from;
//! hear(woken, runner.task.log(), from);
//! runner
//! ```
//!
//! # Costs
//!
//! - Events: as many as the call that parks makes, in the first and the last poll. A poll between them makes none. They must be
//!   left to the task, which makes no other event between two polls of one call.
//! - Memory: `WaitCall::new` and `WaitCall::with_room` take it. No poll takes any, except that a future's poll takes memory for a
//!   waker; if there is none, it asks for another poll.
//! - What parks: nothing. A poll of an `ObtainCall` spins until it gets the turn at the lists of the latch set, and then
//!   yields.
//! - System calls: a poll makes none, except those yields.
//! - Time: a poll of a wait looks at each of its blocks once.
//!
//! # What cannot happen
//!
//! After each point is the clause, or the law on histories, that excludes it.
//!
//! - A poll answers otherwise, or by other events, than the call that parks: clause `turn` of each `poll` (`IsWaited`,
//!   `IsPaused`, `IsObtained`).
//! - A poll is `Pending` although its looks found what it waits for: the same (`IsLeftWaiting`, `IsLeftPausing`,
//!   `IsLeftObtaining`).
//! - A later poll continues another call: clause `call` of each `poll`.
//! - A future is `Pending` without being registered with the source of each block that is not complete, or of the element,
//!   unless it asks for another poll: its clause `registered`.
//! - A ring wakes a task that waits for another key: clause `wakers` of `WaitFuture::ring`, `waker` of `PauseFuture::ring`.
//!
//! It can happen that a task is never polled again: no clause says that an executor rings each key. A release of a latch and a
//! purge ring none, so poll an `ObtainCall` again after each event on the latch set.
//!
//! # Errors
//!
//! - `NoMemory`: of `WaitCall::new` and `WaitCall::with_room`.
//! - An answer is an error in the cases in which the call that parks returns that error: `WaitRefusal` of mv_wait,
//!   `PauseRefusal` of mv_pause, `ObtainRefusal` of mv_latchset.
#![tactic(auto)]

mod keys;
mod obtaining;
mod pause_future;
mod pausing;
mod turn;
mod wait_future;
mod waiting;

pub use keys::{key, rung};
pub use obtaining::ObtainCall;
pub use pause_future::PauseFuture;
pub use pausing::PauseCall;
pub use turn::{Stage, Turn};
pub use wait_future::WaitFuture;
pub use waiting::WaitCall;
