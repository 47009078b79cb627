//! Polled waits. Clauses cite `specs/Waiting.antt`.

ghost use Rattle.std.specs.Prelude.{◌≡◌, ℕ, false, ◌<◌, ◌≤◌, [], ◌∷◌, ◌++◌, if◌then◌else◌, map, length, vec_capacity, vec_len};
ghost use Rattle.std.specs.Prelude.{IfOk, IsSome, ◌⊎◌, ⊤};
ghost use Rattle.futures.specs.Task.{Hears, IsArmed, Keeps};
ghost use Rattle.mv_wait.specs.Prelude.{CallerFace, IsOf, IsSame, AreDistinct, Went, AreOwn, ready_count};
ghost use Rattle.mv_board.specs.declared.watch.Watch.TheVariants as watch;
ghost use Rattle.mv_polled.specs.Futures.{NeedsBlock};
ghost use Rattle.mv_polled.specs.Keys.{key_of};
ghost use Rattle.mv_polled.specs.Turn.{MatchTurn, Waits, Over};
ghost use Rattle.mv_polled.specs.Waiting.{new_wait, unready, AreFoundOpen, StaysReady, IsWaitAt, IsWaiting, IsWaited, IsLeftWaiting};
ghost use Rattle.mv_polled.specs.Wakers.{no_wakers, HearsAll, HaveWakers, AreRung};

use crate::keys::{key, ring_one};
use crate::turn::{Stage, Turn};
use futures::task::{Context, Poll, Source, Waker};
use mv_board::Watch;
use mv_io::NoMemory;
use mv_wait::{Begun, Station, Task, WaitRefusal, WaitSlot};
use std::alloc::Global;
use std::marker::Model;
use std::sync::Wait;

/// A polled wait until at least `count` of some blocks are complete, as `Station::wait` makes it.
#[derive(Drop)]
pub struct WaitCall {
    // The number of blocks for which there is room.
    room: usize,
    count: u32,
    ecbs: Vec<u32>,
    stage: Stage,
    // The keys of the blocks that the last poll found not complete.
    keys: Vec<u64>,
    // A slot for each block, which contracts see once the wait is over.
    found: Vec<WaitSlot>,
    // A place for each block, where a future leaves a waker.
    wakers: Vec<Option<Waker>>,
}

impl Model for WaitCall {
    ghost use Rattle.mv_polled.specs.Waiting.{WaitFace};
    ghost use Rattle.mv_polled.specs.WaitCall.{wait_face, IsWaitCall};

    ghost Value = { WaitFace };

    ghost view = { wait_face };

    ghost invariant = { IsWaitCall };
}

impl WaitCall {
    /// Makes a wait that was not polled, and takes all memory that its polls use.
    ///
    /// # Errors
    ///
    /// `NoMemory` if memory runs out.
    ///
    /// # Examples
    ///
    /// From `crates/mv_tests/src/tests/polls.rt`:
    ///
    /// ```
    /// match WaitCall::new(alloc, count, ecbs) {
    ///     Ok(call) => call,
    ///     Err(_) => panic!(rt; "no memory for a wait"),
    /// }
    /// ```
    pub fn new(alloc: Global, count: u32, ecbs: &[u32]) -> Result<WaitCall, NoMemory>
        ensures { IfOk result (λ call. call ≡ new_wait (length ecbs.now) count ecbs.now) }
    {
        let mut call = WaitCall::with_room(alloc, ecbs.len())?;
        call.renew(count, ecbs);
        Ok(call)
    }

    /// Makes a wait for no block, with room for `room` blocks.
    ///
    /// # Errors
    ///
    /// `NoMemory` if memory runs out.
    ///
    /// # Examples
    ///
    /// From `crates/mv_polledspool/src/meeting.rt`, which makes room for each later wait of a task:
    ///
    /// ```
    /// Ok(Meeting {
    ///     wait: WaitCall::with_room(alloc, MOST_BLOCKS)?,
    ///     call: Call::Nothing,
    /// })
    /// ```
    pub fn with_room(alloc: Global, room: usize) -> Result<WaitCall, NoMemory>
        ensures { IfOk result (λ call. call ≡ new_wait room 0 []) }
    {
        Ok(WaitCall {
            room,
            count: 0,
            ecbs: Vec::with_capacity(alloc, room)?,
            stage: Stage::New,
            keys: Vec::with_capacity(alloc, room)?,
            found: Vec::with_capacity(alloc, room)?,
            wakers: Vec::with_capacity(alloc, room)?,
        })
    }

    /// Makes a new wait in the room of this one, whatever its stage is. It takes no memory.
    ///
    /// # Examples
    ///
    /// From `crates/mv_polledspool/src/meeting.rt`:
    ///
    /// ```
    /// self.wait.renew(blocks.count, &blocks.ecbs);
    /// self.call = Call::Wait;
    /// ```
    pub fn renew(&mut self, count: u32, ecbs: &[u32])
        requires { length ecbs.now ≤ self.old.room }
        ensures { self.new ≡ new_wait self.old.room count ecbs.now }
    {
        self.count = count;
        self.stage = Stage::New;
        self.keys.clear();
        put_blocks(&mut self.ecbs, ecbs);
        put_slots(&mut self.found, ecbs.len());
        put_places(&mut self.wakers, ecbs);
    }

    /// Advances the wait as far as it can: arms each block at the first poll, and settles each once enough are complete.
    ///
    /// The call makes events and loads, and never parks.
    ///
    /// The first poll requires of the task what `Station::wait` does: that it is at rest, and that two events a block are left. A
    /// later poll requires the same task, with its log as the last poll left it. After an answer the task is at rest, and the
    /// call must not be polled again.
    ///
    /// # Errors
    ///
    /// An answer is an error in the cases in which `Station::wait` returns that error.
    ///
    /// # Examples
    ///
    /// From `crates/mv_tests/src/tests/polls.rt`, which returns whether the wait is over:
    ///
    /// ```
    /// match call.poll(station, rt, task) {
    ///     Turn::Ready(_) => true,
    ///     Turn::Pending => false,
    /// }
    /// ```
    pub fn poll<R: Wait>(
        &mut self,
        station: &Station,
        rt: &R,
        task: &mut Task,
    ) -> Turn<Result<(), WaitRefusal>>
        requires task { IsOf station.now task.old }
        requires stage { (t0 : CallerFace) × IsWaitAt station.now.config self.old t0 task.old }
        ensures task { IsSame task.old task.new }
        ensures call { (self.new.count ≡ self.old.count) × (self.new.ecbs ≡ self.old.ecbs) × (self.new.room ≡ self.old.room) }
        ensures wakers { self.new.wakers ≡ self.old.wakers }
        ensures turn { (t0 : CallerFace) → IsWaitAt station.now.config self.old t0 task.old → MatchTurn result
            (λ r. IsWaited station.now.config self.new r t0 task.new)
            (IsLeftWaiting station.now.config self.new t0 task.old task.new) }
    {
        match self.stage {
            Stage::New => {
                if let Begun::Over(refusal) = station.begin_wait(rt, task, self.count, &self.ecbs) {
                    self.refuse();
                    return Turn::Ready(Err(refusal));
                }
                self.stage = Stage::Waits;
                self.go_on(station, rt, task)
            }
            Stage::Waits => self.go_on(station, rt, task),
            Stage::Over => unreachable!(),
        }
    }

    // Ends a wait that its first poll refused.
    fn refuse(&mut self)
        ensures { self.new ≡ record self.old { stage = Over; keys = []; slots = [] } }
    {
        self.stage = Stage::Over;
        self.keys.clear();
        self.found.clear();
    }

    // Looks at each block, and settles each once enough are complete.
    pub(crate) fn go_on<R: Wait>(
        &mut self,
        station: &Station,
        rt: &R,
        task: &mut Task,
    ) -> Turn<Result<(), WaitRefusal>>
        requires task { IsOf station.now task.old }
        requires stage { self.old.stage ≡ Waits }
        requires waiting { (t0 : CallerFace) × IsWaiting station.now.config self.old.count self.old.ecbs t0 task.old }
        ensures task { IsSame task.old task.new }
        ensures call { (self.new.count ≡ self.old.count) × (self.new.ecbs ≡ self.old.ecbs) × (self.new.room ≡ self.old.room) }
        ensures wakers { self.new.wakers ≡ self.old.wakers }
        ensures stays { MatchTurn result (λ _. ⊤) (StaysReady task.old task.new) }
        ensures turn { (t0 : CallerFace) → IsWaiting station.now.config self.old.count self.old.ecbs t0 task.old → MatchTurn result
            (λ r. IsWaited station.now.config self.new r t0 task.new)
            (IsLeftWaiting station.now.config self.new t0 task.old task.new) }
    {
        look_at(station, rt, task, &self.ecbs, &mut self.keys);
        if self.ecbs.len() - self.keys.len() < self.count as usize {
            return Turn::Pending;
        }
        self.keys.clear();
        station.end_wait(rt, task, self.count, &self.ecbs, &mut self.found);
        self.stage = Stage::Over;
        Turn::Ready(Ok(()))
    }

    /// Returns the keys of the blocks that the last poll found not complete, in the order of the list; none before the first poll
    /// and after an answer.
    ///
    /// # Examples
    ///
    /// From `crates/mv_tests/src/tests/polls.rt`, a wait for two of three blocks that was polled after a post of the first:
    ///
    /// ```
    /// assert!(rt; !is_over(station, rt, waiter, &mut call));
    /// assert!(rt; call.keys() == [1, 2].as_slice());
    /// ```
    pub fn keys(&self) -> &[u64]
        ensures { result.now ≡ self.now.keys }
    {
        &self.keys
    }

    /// Returns what was found of each block, once the wait is over; nothing before that, and after a refusal.
    ///
    /// # Examples
    ///
    /// From `crates/mv_tests/src/tests/polls.rt`, the same wait after a post of the third block:
    ///
    /// ```
    /// assert!(rt; is_over(station, rt, waiter, &mut call));
    /// let found = [WaitSlot::Complete(5), WaitSlot::Open, WaitSlot::Complete(7)];
    /// assert!(rt; call.slots() == found.as_slice() && call.keys().is_empty());
    /// ```
    pub fn slots(&self) -> &[WaitSlot]
        ensures { result.now ≡ self.now.slots }
    {
        match self.stage {
            Stage::Over => &self.found,
            Stage::New | Stage::Waits => &[],
        }
    }
}

// Looks at each block, and puts the keys of those that are not complete into `keys`.
fn look_at<R: Wait>(station: &Station, rt: &R, task: &mut Task, ecbs: &[u32], keys: &mut Vec<u64>)
    requires task { IsOf station.now task.old }
    requires own { AreOwn station.now.config task.old.number ecbs.now }
    requires distinct { AreDistinct ecbs.now }
    requires room { length ecbs.now ≤ vec_capacity keys.old }
    ensures went { Went [] task.old task.new }
    ensures stays { StaysReady task.old task.new }
    ensures found { AreFoundOpen ecbs.now task.old task.new }
    ensures keys { keys.new.items ≡ map (λ e. key_of (watch.Ecb e)) (unready task.new.ready ecbs.now) }
    ensures room { vec_capacity keys.new ≡ vec_capacity keys.old }
{
    keys.clear();
    for ecb in ecbs {
        let watch = Watch::Ecb(*ecb);
        let is_ready = station.peek(rt, task, watch);
        put_down(keys, watch, is_ready);
    }
}

// Appends the key of what is not ready.
fn put_down(keys: &mut Vec<u64>, watch: Watch, is_ready: bool)
    requires room { length keys.old.items < vec_capacity keys.old }
    ensures keys { keys.new.items ≡ keys.old.items ++ (if is_ready then [] else key_of watch ∷ []) }
    ensures room { vec_capacity keys.new ≡ vec_capacity keys.old }
{
    if !is_ready {
        keys.push_reserved(key(watch));
    }
}

// Puts these blocks into the list in place of the old ones, without memory.
fn put_blocks(blocks: &mut Vec<u32>, ecbs: &[u32])
    requires { length ecbs.now ≤ vec_capacity blocks.old }
    ensures items { blocks.new.items ≡ ecbs.now }
    ensures room { vec_capacity blocks.new ≡ vec_capacity blocks.old }
{
    blocks.clear();
    for ecb in ecbs {
        blocks.push_reserved(*ecb);
    }
}

// Puts this many open slots into the list in place of the old ones, without memory.
fn put_slots(slots: &mut Vec<WaitSlot>, count: usize)
    requires { count ≤ vec_capacity slots.old }
    ensures size { length slots.new.items ≡ count }
    ensures room { vec_capacity slots.new ≡ vec_capacity slots.old }
{
    slots.clear();
    for _i in 0..count {
        slots.push_reserved(WaitSlot::Open);
    }
}

// Puts an empty place for the waker of each block into the list in place of the old ones, without memory.
fn put_places(wakers: &mut Vec<Option<Waker>>, ecbs: &[u32])
    requires { length ecbs.now ≤ vec_capacity wakers.old }
    ensures size { vec_len wakers.new ≡ length ecbs.now }
    ensures items { wakers.new.items ≡ no_wakers ecbs.now }
    ensures room { vec_capacity wakers.new ≡ vec_capacity wakers.old }
{
    wakers.clear();
    for _ecb in ecbs {
        wakers.push_reserved(None);
    }
}

impl WaitCall {
    // Looks at each block, and registers the polled task with the source of each that is not complete.
    pub(crate) fn register<R: Wait>(
        &mut self,
        station: &Station,
        rt: &R,
        task: &mut Task,
        sources: &[Source],
        cx: &mut Context<'_>,
    )
        requires task { IsOf station.now task.old }
        requires own { AreOwn station.now.config task.old.number self.old.ecbs }
        requires distinct { AreDistinct self.old.ecbs }
        requires sources { length sources.now ≡ length self.old.ecbs }
        ensures same { self.new ≡ record self.old { wakers = self.new.wakers } }
        ensures left { HaveWakers (length self.old.ecbs) task.new.ready self.old.ecbs self.new.wakers cx.new }
        ensures went { Went [] task.old task.new }
        ensures stays { StaysReady task.old task.new }
        ensures heard { (s : ℕ) → NeedsBlock task.new.ready self.old.ecbs sources.now s → Hears cx.new s }
        ensures armed { ready_count task.new.ready self.old.ecbs < length self.old.ecbs → IsArmed cx.new }
        ensures kept { Keeps cx.old cx.new }
    {
        register_all(station, rt, task, &self.ecbs, sources, &mut self.wakers, cx);
    }

    // Wakes the task that is registered with the source of this key.
    pub(crate) fn ring(&mut self, rung: u64)
        ensures same { self.new ≡ record self.old { wakers = self.new.wakers } }
        ensures rung { AreRung rung self.old.ecbs self.old.wakers self.new.wakers }
    {
        drop_wakers(&self.ecbs, &mut self.wakers, rung);
    }
}

// Drops the waker of each block with this key.
fn drop_wakers(ecbs: &[u32], wakers: &mut [Option<Waker>], rung: u64)
    requires { length wakers.old ≡ length ecbs.now }
    ensures { AreRung rung ecbs.now wakers.old wakers.new }
{
    for i in 0..ecbs.len() {
        ring_one(&mut wakers[i], key(Watch::Ecb(ecbs[i])), rung);
    }
}

// Looks at each block, and registers with the source of each that is not complete. There are a source and a place for a waker for
// each.
fn register_all<R: Wait>(
    station: &Station,
    rt: &R,
    task: &mut Task,
    ecbs: &[u32],
    sources: &[Source],
    wakers: &mut [Option<Waker>],
    cx: &mut Context<'_>,
)
    requires task { IsOf station.now task.old }
    requires own { AreOwn station.now.config task.old.number ecbs.now }
    requires distinct { AreDistinct ecbs.now }
    requires sources { length sources.now ≡ length ecbs.now }
    requires wakers { length wakers.old ≡ length ecbs.now }
    ensures left { HaveWakers (length ecbs.now) task.new.ready ecbs.now wakers.new cx.new }
    ensures size { length wakers.new ≡ length ecbs.now }
    ensures went { Went [] task.old task.new }
    ensures stays { StaysReady task.old task.new }
    ensures heard { (s : ℕ) → NeedsBlock task.new.ready ecbs.now sources.now s → Hears cx.new s }
    ensures armed { ready_count task.new.ready ecbs.now < length ecbs.now → IsArmed cx.new }
    ensures kept { Keeps cx.old cx.new }
{
    for i in 0..ecbs.len() {
        let is_ready = station.peek(rt, task, Watch::Ecb(ecbs[i]));
        // A source has no size, so the slice is not indexed.
        let Some(source) = sources.get(i) else {
            unreachable!()
        };
        listen(source, &mut wakers[i], is_ready, cx);
    }
}

// Registers with a source and leaves the waker in the slot, unless what the source stands for is ready. If there is no memory for
// a waker, asks for another poll.
fn listen(source: &Source, slot: &mut Option<Waker>, is_ready: bool, cx: &mut Context<'_>)
    ensures left { is_ready ≡ false → IsSome slot.new ⊎ HearsAll cx.new }
    ensures heard { is_ready ≡ false → Hears cx.new source.now.id }
    ensures armed { is_ready ≡ false → IsArmed cx.new }
    ensures kept { Keeps cx.old cx.new }
{
    if !is_ready {
        let _registered: Poll<()> = cx.register(source, slot);
        if slot.is_none() {
            let _asked: Poll<()> = cx.yield_now();
        }
    }
}
