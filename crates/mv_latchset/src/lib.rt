//! Latches: readers-writer locks with a queue, for tasks on several threads, after the latch services of z/OS.
//!
//! A task obtains a latch, shared or exclusive, for a *requestor*: a number of eight bytes that names the piece of work. If
//! other requests block it, the request is refused, waits, or is queued while the task goes on, as its form says. Requests are
//! granted in the order in which they came. A purge takes out all requests of one requestor, whichever tasks made them.
//!
//! # When to use it
//!
//! - Several tasks change what they share, such as two volumes that belong together: `obtain` and `release_latch`, as with
//!   `RwLock`. There is no guard: a latch is given back by `release_latch` only, or by a purge.
//! - A task is to go on while its request is queued, or to wait for the grant together with other events: the Posted form,
//!   which posts a block of the task at the grant.
//! - Work may be ended before it has given its latches back: `purge` of its requestor.
//!
//! Use another crate:
//!
//! - to wait for an event: mv_wait; to hand work to one task: mv_pause
//! - for an obtain that is polled: `ObtainCall` of mv_polled
//! - to prove what a latch guards: mv_guarded; that tasks do not deadlock at latches: mv_ordered
//!
//! # Examples
//!
//! A reader of two numbers that a writer changes under the latch. Its requestor is its own number. From
//! `crates/mv_cache/src/cache.rt`:
//!
//! ```
//! let reader = u64::from(task.number());
//! let form = LatchForm::Waiting;
//! let mode = Mode::Shared;
//! let Ok(got) = obtain(station, rt, task, LATCH, reader, mode, form) else {
//!     return None;
//! };
//! let Obtained::Granted(token) = got else {
//!     return None;
//! };
//! let left = station.read_volume(task, LEFT);
//! let right = station.read_volume(task, RIGHT);
//! let _ = release_latch(station, rt, task, token, false);
//! Some(Pair { left, right })
//! ```
//!
//! # Costs
//!
//! - Events: an obtain is one event, in the Waiting form two if it has to wait; a check is one. A release or a purge makes one,
//!   and those of the posts of the requests that it grants or takes out, at most `ValidConfig::release_cost` together: 1 if the
//!   configuration's `posted_quota` is 0. They must be left to the task.
//! - Memory: none. `Station::open` of mv_wait has taken it.
//! - What parks: `obtain` in the Waiting form, until its request is granted or purged. It parks, after it has spun and yielded,
//!   and looks at its request once after each wake.
//! - The turn: one task at a time has the lists of all latches of a station, for one event. A call spins until it gets this
//!   turn, and then yields. No task waits for anything else while it has the turn.
//! - System calls: a release or a purge makes one for each parked task that it wakes; a task that waits makes them as in
//!   mv_wait.
//! - Time: an event goes through the list of one latch, a purge through all lists: at most `callers` times `quota` requests.
//!
//! # What cannot happen
//!
//! After each point is the clause, or the law on histories, that excludes it.
//!
//! - Two tasks hold a latch, one of them exclusively: law `holders_exclude` of mv_calls, of the history that clause `legal` of
//!   `Station::close` is about.
//! - What a latch guards changes under a task that holds it: law `sections_are_undisturbed` of mv_calls, if all tasks change it
//!   only under the latch and no holder is purged.
//! - A request is granted before one that came earlier and blocks it: law `histories_are_orderly` of mv_machine.
//! - An obtain of the Waiting form returns before its grant: clause `causes` of `obtain` (`IsObtainedBy`, `IsRefusedBy`).
//! - A release costs more events than `ValidConfig::release_cost`: clause `served` of `release_latch` and `purge`.
//! - Tasks that obtain latches in rising order of their numbers, and wait for nothing else while they hold one, deadlock at
//!   latches: law `latches_in_rising_order_do_not_deadlock` of mv_ordered.
//!
//! It can happen that an obtain never returns: if the holder never releases, or tasks obtain latches in different orders.
//!
//! # Errors
//!
//! - `BadLatch`, `NotOwner` and `Quota` are decided by the configuration and by what the task itself did before; then no event
//!   is made.
//! - `NotNow`, of the Conditional form, has the number of a request that is in the way. `Purged` says that the request was
//!   taken out while it waited. Both are replies to events.
//! - `Gone` and `StillWaiting`, of `release_latch`, are replies to its one event; nothing is released or posted.
#![tactic(auto)]

mod checking;
mod obtaining;
mod purging;
mod releasing;
mod replies;
mod token;
mod waking;

pub use checking::check_latch;
pub use mv_calls::{Purged, Standing};
pub use mv_latch::{LatchForm, LatchForm as Form, Mode};
pub use obtaining::{ObtainRefusal, Obtained, begin_obtain, end_obtain, obtain};
pub use purging::purge;
pub use releasing::{ReleaseLatchRefusal, release_latch};
pub use token::LatchToken;
