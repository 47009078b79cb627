//! Requests for latches. Clauses cite `LatchCalls.antt` and `Services.antt` of mv_calls, `Run.antt` of mv_wait, and
//! `specs/Answers.antt` and `specs/Obtaining.antt`.

ghost use Rattle.std.specs.Prelude.{◌≡◌, ◌<◌, ℕ, not, length, option_map, None, IfSome, IfOk, MatchResult};
ghost use Rattle.std.specs.List.{Contains};
ghost use Rattle.mv_latch.specs.declared.operation.LatchOp.TheVariants.{Obtain, Confirm};
ghost use Rattle.mv_latch.specs.declared.request.LatchForm.TheVariants.{Waiting};
ghost use Rattle.mv_wait.specs.Prelude.{Mode, posted_ecb, keeps_quotas, standing, posts_own_ecb, CallerFace, IsOf, kept_of, obtain};
ghost use Rattle.mv_wait.specs.Prelude.{obtain_refusal, obtain_events, IsServed, MatchBegun, MayCall};
ghost use Rattle.mv_board.specs.declared.watch.Watch.TheVariants as watch;
ghost use Rattle.mv_latchset.specs.Answers.{obtain_answer, obtain_refused};
ghost use Rattle.mv_latchset.specs.Obtaining.{IsAnswered, IsObtainedBy, IsRefusedBy, IsOfLatch, settled_reply};
ghost use Rattle.mv_latchset.specs.Polling.{IsObtaining, IsObtainMade};

use crate::replies::{Asked, asked_in, granted_in};
use crate::token::{LatchToken, token_of};
use mv_board::Watch;
use mv_latch::{LatchForm, LatchOp, Mode};
use mv_machine::{Object, Op};
use mv_wait::{Begun, Station, Task};
use std::sync::Wait;
use std::time::Clock;
use thiserror::Error;

/// The outcome of an obtain that was not refused.
#[derive(Clone, Copy, Debug, PartialEq, Eq)]
pub enum Obtained {
    /// The request holds its latch.
    Granted(LatchToken),
    /// The request is queued. Its block is posted with 0 when it is granted, or with 1 if it is purged while it waits.
    Pending(LatchToken),
}

/// The reason for which an obtain was refused.
#[derive(Clone, Copy, Debug, PartialEq, Eq, Error)]
pub enum ObtainRefusal {
    /// There is no such latch.
    #[error("there is no such latch")]
    BadLatch,
    /// The block that is to be posted is another caller's.
    #[error("the block to be posted is another caller's")]
    NotOwner,
    /// The task has as many standing requests as its quotas allow, of all forms together or of the Posted form.
    #[error("the task has as many requests as its quotas allow")]
    Quota,
    /// The request of this number blocks the new one, and nothing was queued.
    #[error("request {0} is in the way")]
    NotNow(u32),
    /// The request was queued, and a purge took it out before it was granted.
    #[error("the request was purged")]
    Purged,
}

/// Requests a latch for a requestor of eight bytes, shared or exclusive, as ISGLOBT does.
///
/// The request is granted at once if no request blocks it. Otherwise it depends on the form. The Conditional form is refused. The
/// Waiting form parks until the request is granted, or a purge takes it out; for ever if neither happens. The Posted form returns
/// at once, and the block, which must be the task's own, is posted with 0 when the request is granted, or with 1 if it is purged
/// while it waits.
///
/// The call makes at most one event, in the Waiting form at most two, which must be left. One caller at a time has the lists of
/// all latches, so each form spins until it gets its turn.
///
/// # Errors
///
/// The first refusal that applies, in the order of `ObtainRefusal`. `BadLatch`, `NotOwner` and `Quota` make no event; `NotNow`
/// and `Purged` are replies to events.
///
/// # Examples
///
/// From `crates/mv_dining/src/dining.rt`, a philosopher who takes a fork:
///
/// ```
/// let requestor = u64::from(task.number());
/// let form = LatchForm::Waiting;
/// let mode = Mode::Exclusive;
/// let Ok(got) = obtain(station, rt, task, fork, requestor, mode, form) else {
///     return None;
/// };
/// let Obtained::Granted(token) = got else {
///     return None;
/// };
/// Some(token)
/// ```
pub fn obtain<R: Wait + Clock>(
    station: &Station,
    rt: &R,
    task: &mut Task,
    latch: u32,
    requestor: u64,
    mode: Mode,
    form: LatchForm,
) -> Result<Obtained, ObtainRefusal>
    requires task { MayCall station.now (obtain_events form) task.old }
    requires block { IfSome (posted_ecb form) (λ e. e < length station.now.config.owners) }
    ensures served { IsServed (obtain_events form) (obtain station.now.config latch requestor mode form)
        (λ a. a ≡ obtain_answer result) task.old task.new }
    ensures causes { MatchResult result
        (λ got. (obtain_refusal station.now.config latch requestor mode form (kept_of task.old.number task.old.log) ≡ None)
        × IsObtainedBy (Obtain latch requestor mode form) latch form task.old got task.new)
        (λ why. IsRefusedBy station.now.config latch requestor mode form task.old why task.new) }
    ensures latch { IfOk result (IsOfLatch latch) }
{
    match begin_obtain(station, rt, task, latch, requestor, mode, form) {
        Begun::Over(answer) => answer,
        Begun::Waits(id) => {
            station.park_for(rt, task, Watch::Latch { latch, id });
            end_obtain(station, rt, task, latch, id)
        }
    }
}

/// Begins an obtain, for a call that does not park: makes its first event, unless it is refused without one.
///
/// Returns the answer of the obtain if it is over. If it waits, the request of this number is queued, one more event must be left,
/// and only `end_obtain` ends the obtain.
///
/// # Errors
///
/// An answer is an error in the cases in which `obtain` returns that error, except `Purged`, which `end_obtain` returns.
///
/// # Examples
///
/// From `crates/mv_polled/src/obtaining.rt`, the first poll of an obtain:
///
/// ```
/// match begin_obtain(
///     station,
///     rt,
///     task,
///     self.latch,
///     self.requestor,
///     self.mode,
///     LatchForm::Waiting,
/// ) {
///     Begun::Over(answer) => {
///         self.stage = Stage::Over;
///         Turn::Ready(answer)
///     }
///     Begun::Waits(id) => {
///         self.stage = Stage::Waits;
///         self.id = id;
///         self.go_on(station, rt, task)
///     }
/// }
/// ```
pub fn begin_obtain<R: Wait>(
    station: &Station,
    rt: &R,
    task: &mut Task,
    latch: u32,
    requestor: u64,
    mode: Mode,
    form: LatchForm,
) -> Begun<Result<Obtained, ObtainRefusal>, u32>
    requires task { MayCall station.now (obtain_events form) task.old }
    requires block { IfSome (posted_ecb form) (λ e. e < length station.now.config.owners) }
    ensures begun { MatchBegun result
        (λ r. IsObtainMade station.now.config latch requestor mode form task.old r task.new)
        (λ id. (form ≡ Waiting) × IsObtaining station.now.config latch requestor mode id task.old task.new) }
    ensures returned { task.new.returned ≡ task.old.returned }
{
    if let Some(refusal) = refuses(station, task, latch, form) {
        return Begun::Over(Err(refusal));
    }
    let reply = station.event(
        rt,
        task,
        Object::Latches,
        Op::Latch(LatchOp::Obtain {
            latch,
            requestor,
            mode,
            form,
        }),
    );
    match asked_in(form, reply) {
        Asked::Granted(id) => Begun::Over(Ok(Obtained::Granted(token_of(task, latch, id)))),
        Asked::NotNow(id) => Begun::Over(Err(ObtainRefusal::NotNow(id))),
        Asked::Pending(id) => Begun::Over(Ok(Obtained::Pending(token_of(task, latch, id)))),
        Asked::Queued(id) => Begun::Waits(id),
    }
}

/// Ends an obtain whose request `begin_obtain` queued, once the request was seen to be granted or gone. It makes one event.
///
/// # Errors
///
/// `Purged` if the request is gone.
///
/// # Examples
///
/// From `crates/mv_polled/src/obtaining.rt`, a later poll:
///
/// ```
/// if !station.peek(rt, task, watch) {
///     return Turn::Pending;
/// }
/// self.stage = Stage::Over;
/// Turn::Ready(end_obtain(station, rt, task, self.latch, self.id))
/// ```
pub fn end_obtain<R: Wait>(
    station: &Station,
    rt: &R,
    task: &mut Task,
    latch: u32,
    id: u32,
) -> Result<Obtained, ObtainRefusal>
    requires task { IsOf station.now task.old }
    requires waiting { (requestor : ℕ) × (mode : Mode) × (t0 : CallerFace)
        × IsObtaining station.now.config latch requestor mode id t0 task.old }
    requires ready { Contains task.old.ready (watch.Latch latch id) }
    ensures { (requestor : ℕ) (mode : Mode) (t0 : CallerFace) → IsObtaining station.now.config latch requestor mode id t0 task.old
        → IsObtainMade station.now.config latch requestor mode Waiting t0 result task.new }
{
    if confirm(station, rt, task, latch, id) {
        Ok(Obtained::Granted(token_of(task, latch, id)))
    } else {
        Err(ObtainRefusal::Purged)
    }
}

// Makes the Confirm of a request that no longer waits, and returns whether the request is granted.
fn confirm<R: Wait>(station: &Station, rt: &R, task: &mut Task, latch: u32, id: u32) -> bool
    requires task { IsOf station.now task.old }
    requires latch { latch < station.now.config.latches }
    requires ready { Contains task.old.ready (watch.Latch latch id) }
    requires left { 0 < task.old.left }
    ensures { IsAnswered (Confirm latch id) (settled_reply id result) task.old task.new }
{
    let reply = station.event(
        rt,
        task,
        Object::Latches,
        Op::Latch(LatchOp::Confirm { latch, id }),
    );
    granted_in(reply)
}

// The reason for which a request is refused before it is made, if there is one.
fn refuses(station: &Station, task: &Task, latch: u32, form: LatchForm) -> Option<ObtainRefusal>
    requires task { IsOf station.now task.now }
    requires block { IfSome (posted_ecb form) (λ e. e < length station.now.config.owners) }
    ensures refusal { (requestor : ℕ) (mode : Mode) → option_map obtain_refused result
        ≡ obtain_refusal station.now.config latch requestor mode form (kept_of task.now.number task.now.log) }
    ensures kept { result ≡ None → (kept_of task.now.number task.now.log).requests ≡ standing task.now.log }
{
    if !station.config().has_latch(latch) {
        return Some(ObtainRefusal::BadLatch);
    }
    if posts_others_block(station, task, form) {
        return Some(ObtainRefusal::NotOwner);
    }
    if is_over_quota(station, task, form) {
        return Some(ObtainRefusal::Quota);
    }
    None
}

// Whether the form has a block to post that is another caller's.
fn posts_others_block(station: &Station, task: &Task, form: LatchForm) -> bool
    requires { IfSome (posted_ecb form) (λ e. e < length station.now.config.owners) }
    ensures { (latch requestor : ℕ) (mode : Mode) → result
        ≡ not (posts_own_ecb station.now.config task.now.number (Obtain latch requestor mode form)) }
{
    match form {
        LatchForm::Posted(ecb) => !station.config().owns_ecb(task.number(), ecb),
        LatchForm::Conditional | LatchForm::Waiting => false,
    }
}

// Whether the quotas allow no more standing requests, of all forms together or of the Posted form.
fn is_over_quota(station: &Station, task: &Task, form: LatchForm) -> bool
    ensures quotas { result ≡ not (keeps_quotas station.now.config (kept_of task.now.number task.now.log).requests form) }
    ensures kept { (kept_of task.now.number task.now.log).requests ≡ standing task.now.log }
{
    let config = station.config().config();
    if task.standing() >= config.quota {
        return true;
    }
    match form {
        LatchForm::Posted(_) => task.standing_posted() >= config.posted_quota,
        LatchForm::Conditional | LatchForm::Waiting => false,
    }
}
