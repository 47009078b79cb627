//! How a task waits between two looks, and how another task wakes it.

use crossbeam_utils::sync::{Parker, Unparker};
use mv_io::NoMemory;
use std::alloc::Global;
use std::cell::Cell;
use std::sync::atomic::{AtomicU64, Ordering};
use std::sync::{Arc, Wait};
use std::time::{Clock, Instant};
use std::{hint, thread};

// The steps of a wait that spin: 2,047 rounds in all, which take about as long as a park and its wake.
const SPINS: u32 = 131;

// Each step spins twice as many rounds as the one before, up to 2 to this power.
const LONGEST_SPIN: u32 = 4;

// The steps of a wait that yield the processor, after those that spin. They take about twice as long, if no other program
// runs.
const YIELDS: u32 = 60;

// The first step that parks; all later steps park too.
const PARKS: u32 = SPINS + YIELDS;

// After a wait that spun in vain, this many waits do not spin.
const UNSPUN_WAITS: u32 = 63;

// A yield that takes more nanoseconds than this gave the processor to another program for a whole time slice.
const LONGEST_YIELD: u32 = 1_000_000;

// After a long yield, this many waits do not yield, and park at once. Parking in all of them costs about as much as one time
// slice.
const UNYIELDED_WAITS: u32 = 1_023;

/// The backoff of a task that waits: it spins, then yields its processor, then parks.
///
/// The `Backoff` of crossbeam_utils, which the board uses, never parks.
///
/// Spinning is best if the other task runs on another processor and hands over soon. If both tasks share a processor, the other
/// one runs only when this one gives it up, and a yield costs a small part of a park and its wake. If other programs share the
/// processor too, a yield gives them a whole time slice, but the scheduler favours a task that is woken from a park. So a task
/// spins as long as spinning ends its waits, and yields as long as its yields are short; otherwise it tries each of them again
/// only now and then.
#[derive(Drop)]
pub(crate) struct Backoff {
    parker: Parker,
    // 1 if the task was woken since it last listened, otherwise 0.
    woken: Arc<AtomicU64, Global>,
    // How many steps this wait has taken, at most `PARKS`.
    step: Cell<u32>,
    // How many of the next waits do not spin.
    unspun: Cell<u32>,
    // How many of the next waits do not yield.
    unyielded: Cell<u32>,
}

/// What wakes one task: the other end of its `Backoff`.
#[derive(Drop)]
pub(crate) struct Waker {
    unparker: Unparker,
    woken: Arc<AtomicU64, Global>,
}

impl Waker {
    /// Wakes the task, if it is parked or waits for a wake. What the task is woken for must have been done before.
    pub(crate) fn wake(&self) {
        self.woken.store(1, Ordering::SeqCst);
        self.unparker.unpark();
    }
}

impl Backoff {
    /// Makes the backoff of a new task, and its waker. All memory of both is taken here.
    ///
    /// # Errors
    ///
    /// `NoMemory` if memory runs out.
    pub(crate) fn open(alloc: Global) -> Result<(Backoff, Waker), NoMemory> {
        let parker = Parker::new(alloc)?;
        let unparker = parker.unparker().clone()?;
        let woken = Arc::new(alloc, AtomicU64::new(0))?;
        let waker = Waker {
            unparker,
            woken: Arc::try_clone(&woken)?,
        };
        let backoff = Backoff {
            parker,
            woken,
            step: Cell::new(0),
            unspun: Cell::new(0),
            unyielded: Cell::new(0),
        };
        Ok((backoff, waker))
    }

    /// Begins a wait.
    pub(crate) fn reset(&self) {
        self.step.set(0);
    }

    /// Makes one step of a wait, after a look that did not end it: spins, yields or parks.
    pub(crate) fn snooze<R: Wait + Clock>(&self, rt: &R) {
        let step = self.step.get();
        if step < SPINS && counted_down(&self.unspun) {
            for _ in 0..1u32 << step.min(LONGEST_SPIN) {
                hint::spin_loop();
            }
            let next = step.saturating_add(1);
            self.step.set(next);
            if next == SPINS {
                self.unspun.set(UNSPUN_WAITS);
            }
        } else if step < PARKS && counted_down(&self.unyielded) {
            self.step.set(step.max(SPINS).saturating_add(1));
            if is_yield_long(rt) {
                self.unyielded.set(UNYIELDED_WAITS);
                self.step.set(PARKS);
            }
        } else {
            self.step.set(PARKS);
            self.parker.park(rt);
        }
    }

    /// Forgets earlier wakes. A look after this call sees whatever any of them announced.
    pub(crate) fn listen(&self) {
        self.woken.store(0, Ordering::SeqCst);
    }

    /// Waits until the task is woken; returns at once if it was woken since it last listened.
    pub(crate) fn await_wake<R: Wait + Clock>(&self, rt: &R) {
        self.reset();
        for _ in rt.forever() {
            if self.woken.load(Ordering::SeqCst) == 1 {
                return;
            }
            self.snooze(rt);
        }
    }
}

// Whether none of these waits is left. If one is left, takes it off.
fn counted_down(waits: &Cell<u32>) -> bool {
    let left = waits.get();
    waits.set(left.saturating_sub(1));
    left == 0
}

// Yields the processor, and returns whether that took longer than `LONGEST_YIELD`. If the clock cannot be read, it did not.
fn is_yield_long<C: Clock>(clock: &C) -> bool {
    let before = Instant::now(clock);
    thread::yield_now();
    let Ok(before) = before else { return false };
    match before.elapsed(clock) {
        Ok(elapsed) => elapsed.as_secs() > 0 || elapsed.subsec_nanos() > LONGEST_YIELD,
        Err(_) => false,
    }
}
