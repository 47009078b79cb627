//! A gate at which two points wait for each other.

use crate::gate::{Gate, Point};
use std::sync::Wait;
use std::sync::atomic::{AtomicBool, Ordering};
use std::thread;

/// A gate that holds a task at one of two points until another task has reached the other point, or for `rounds` rounds, in each
/// of which it yields. A test of tasks on threads shows by it that two things happen at once.
#[derive(Drop)]
pub struct MeetGate {
    first: Point,
    second: Point,
    rounds: u64,
    first_reached: AtomicBool,
    second_reached: AtomicBool,
    ran_out: AtomicBool,
}

impl MeetGate {
    /// Makes a gate for two different points, at which a task is held for at most `rounds` rounds. It takes no memory.
    pub fn new(first: Point, second: Point, rounds: u64) -> MeetGate {
        MeetGate {
            first,
            second,
            rounds,
            first_reached: AtomicBool::new(false),
            second_reached: AtomicBool::new(false),
            ran_out: AtomicBool::new(false),
        }
    }

    /// Returns whether both points were reached, and no task was held there for all rounds.
    pub fn met(&self) -> bool {
        self.first_reached.load(Ordering::SeqCst)
            && self.second_reached.load(Ordering::SeqCst)
            && !self.ran_out.load(Ordering::SeqCst)
    }

    // Marks a point as reached, and waits for the other.
    fn meet(&self, own: &AtomicBool, other: &AtomicBool) {
        own.store(true, Ordering::SeqCst);
        for _ in 0..self.rounds {
            if other.load(Ordering::SeqCst) {
                return;
            }
            thread::yield_now();
        }
        if !other.load(Ordering::SeqCst) {
            self.ran_out.store(true, Ordering::SeqCst);
        }
    }
}

impl Gate for MeetGate {
    fn pass<R: Wait>(&self, _rt: &R, _who: u32, point: Point) {
        if point == self.first {
            self.meet(&self.first_reached, &self.second_reached);
        } else if point == self.second {
            self.meet(&self.second_reached, &self.first_reached);
        }
    }
}
