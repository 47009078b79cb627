//! Pauses, and the releases that end them, for tasks on several threads, after the pause elements of z/OS.
//!
//! A task pauses with a *token* until another task releases that token with a code of three bytes. The pause returns the code,
//! and the token of the next pause; the old token is spent. A release may come before its pause: the element keeps the code
//! until then. A token names an *element* of the task that pauses, and the generation of its next pause.
//!
//! # When to use it
//!
//! - A task hands work to another one that is parked, or about to park, as with `Parker` and `Unparker`: `pause` and `release`.
//!   Unlike an unpark, a release carries a code, and is refused if it comes twice or for a pause that is over.
//! - Two tasks take turns: `transfer`, which releases the other task and pauses in one call.
//! - A release is to be made only if nothing changed since a look: `try_release`.
//!
//! Use another crate:
//!
//! - to wait for any of several tasks, or for more than one: mv_wait. A task pauses with one token at a time.
//! - if more than one task is to learn of the same event, or a task that did not get a token: mv_wait
//! - if the task is to be polled: `PauseCall` and `PauseFuture` of mv_polled
//!
//! # Examples
//!
//! A worker of a pool, whose element is used for all its pauses. It posts that it is idle, with the generation of its next
//! pause, from which the server makes the token; then it pauses until it is given a request or the stop. From
//! `crates/mv_server/src/server.rt`:
//!
//! ```
//! // The task is new, so its element is free.
//! let Ok(mut token) = allocate(station, rt, task) else {
//!     unreachable!()
//! };
//! for round in 0..count + 1 {
//!     station.post(rt, task, idle, token.generation);
//!     // The last token that a task was given is not refused.
//!     let Ok(given) = pause(station, rt, task, token) else {
//!         unreachable!()
//!     };
//!     if given.code == STOP || given.code > count {
//!         return;
//!     }
//!     let request = given.code - 1;
//!     let answer = answer_to(requests[request as usize]);
//!     station.post(rt, task, WORKERS + request, answer);
//!     token = given.next;
//! }
//! ```
//!
//! The server clears the block of an idle worker, and releases the token that this worker pauses with:
//!
//! ```
//! // The block is cleared first, because the worker may be idle again before the release returns.
//! let Ok(_) = station.clear(rt, task, worker) else {
//!     unreachable!()
//! };
//! let token = Token {
//!     element: worker,
//!     generation,
//! };
//! // Whether this token is still current depends on what the worker did, so no clause of the server excludes that the
//! // release is refused. Then the next idle worker gets the code; if there is none, no worker gets it, and the wait for
//! // its answer never ends.
//! if release(station, rt, task, token, code).is_ok() {
//!     return;
//! }
//! ```
//!
//! # Costs
//!
//! - Events: an `allocate`, a `deallocate`, a release or a test is one event; a pause is two, or one if its code came early; a
//!   transfer with a current token is at most three, without one it is one. They must be left to the task.
//! - Memory: none. `Station::open` of mv_wait has taken it.
//! - What parks: `pause`, and `transfer` with a current token, if the token was not released yet. They spin first, then yield
//!   the processor, and then park. No other call waits for an action of another task.
//! - System calls: a release or a transfer makes one to wake a task that is parked; a task that waits makes them as in mv_wait.
//! - Time: each event is an exchange of one word. `allocate` looks at each element of the task, of which there are at most 16.
//!
//! # What cannot happen
//!
//! After each point is the clause, or the law on histories, that excludes it.
//!
//! - A pause returns without a code, or with one that was not given to its token: clause `causes` of `pause` (`IsGiven`).
//! - A token is accepted by two pauses, or a code reaches two pauses: law `histories_are_orderly` of mv_machine, of the history
//!   that clause `legal` of `Station::close` is about.
//! - A second release replaces the code of the first, or a release of a spent token is kept: clause `causes` of `release`, with
//!   the table of mv_element.
//! - The last token that a task was given, of an element in use, is refused: clause `current` of `pause` and `deallocate`.
//! - A refused `transfer` has released a task, or has paused: clause `causes` of `transfer`.
//! - `try_release` is made although the word was another one: clause `causes` of `try_release`.
//! - A call makes an event that is not of its program: clause `served` of each call.
//!
//! It can happen that a pause never returns: no clause says that another task releases its token.
//!
//! # Errors
//!
//! - `NoElement`, `NotOwner`, and `Spent` of the current token of a transfer are decided by the configuration and by what the
//!   task itself did before; then no event is made.
//! - `Spent` otherwise, `Already`, `TargetSpent` and `TargetAlready` are replies to the one event that the call makes. `Spent`
//!   and `TargetSpent` have the element's generation.
//! - `Moved`: the word was not the expected one, and no event was made.
#![tactic(auto)]

mod allocating;
mod deallocating;
mod owning;
mod pausing;
mod releasing;
mod replies;
mod testing;
mod transferring;

pub use allocating::{NoElement, allocate};
pub use deallocating::{DeallocateRefusal, deallocate};
pub use mv_calls::{Given, ReleaseAnswer};
pub use mv_element::{ElementState, Phase, Token};
pub use pausing::{PauseRefusal, begin_pause, end_pause, pause};
pub use releasing::{ReleaseRefusal, TryReleaseRefusal, release, try_release};
pub use testing::test_element;
pub use transferring::{TransferRefusal, transfer};
