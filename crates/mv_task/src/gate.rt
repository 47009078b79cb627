//! The points at which a run can be held.

use std::sync::Wait;

/// A moment in the life of a job, with the job's number.
#[derive(Clone, Copy, Debug, PartialEq, Eq)]
pub enum Point {
    /// The reader is about to post the job.
    Entered(u32),
    /// The scheduler is about to release the job to an initiator.
    Dispatched(u32),
    /// An initiator is about to do the job's first step.
    Started(u32),
    /// An initiator is about to end the job.
    Ended(u32),
    /// The writer has waited for the job's end.
    Written(u32),
}

/// A hook that each task of a run calls at each point. A test holds tasks by it; it promises nothing.
pub trait Gate {
    /// Is called when the task of number `who` is at this point. It makes no event. It may wait, and may never return.
    fn pass<R: Wait>(&self, rt: &R, who: u32, point: Point);
}

/// A gate that holds no task.
#[derive(Clone, Copy, Debug, PartialEq, Eq)]
pub struct OpenGate;

impl Gate for OpenGate {
    fn pass<R: Wait>(&self, _rt: &R, _who: u32, _point: Point) {}
}
