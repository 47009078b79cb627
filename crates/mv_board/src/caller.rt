//! A caller: its events, and its seat at the table (`specs/Caller.antt`). Clauses cite `specs/Faces.antt`.

ghost use Rattle.std.specs.Prelude.{◌≡◌, ◌<◌, ◌≤◌, ◌-◌};
ghost use Rattle.std.specs.List.{AllByRecursion};
ghost use Rattle.mv_machine.specs.Prelude.{events_limit, with_entry, Setup};
ghost use Rattle.mv_board.specs.Faces.{last_of};

use crate::item::Item;
use crate::view::View;
use atomic_table::Seat;
use mv_latch::Wake;
use mv_machine::{Object, Op, OpenLog, Reply};
use std::marker::Model;
use thiserror::Error;

/// The word that a failed exchange found in place of the expected one: a place times 2^45 plus a state in the 45 bits below.
#[derive(Clone, Copy, Debug, PartialEq, Eq, Error)]
#[error("the word was {0}")]
pub struct Moved(pub u64);

/// The events of one caller: those that it made, and the number that it may still make.
#[derive(Drop)]
pub(crate) struct Events {
    pub caller: u32,
    pub left: u32,
    pub log: OpenLog,
    /// The wakes of the caller's last event on the latch set.
    pub wakes: Vec<Wake>,
}

impl Events {
    /// Appends an event to the log, and takes one from those that are left. It takes no memory.
    #[inline(always)]
    pub(crate) fn append(&mut self, object: Object, place: u32, op: Op, reply: Reply)
        requires left { 0 < self.old.left }
        requires room { 0 < self.old.log.room }
        requires whose { self.old.log.caller ≡ self.old.caller }
        ensures same { self.new ≡ record self.old { left = self.old.left - 1; log = self.new.log } }
        ensures logged { self.new.log ≡ with_entry self.old.log
            record { caller = self.old.caller; object = object; place = place; op = op; reply = reply } }
    {
        self.left -= 1;
        self.log.push(object, place, op, reply);
    }
}

/// The seat of one caller at a board.
///
/// No other caller's call changes anything in it. One thread owns it at a time, and `Board::close` takes it back.
#[derive(Drop)]
pub struct Caller {
    pub(crate) events: Events,
    pub(crate) seat: Seat<Item, View>,
}

impl Model for Caller {
    ghost use Rattle.mv_board.specs.Faces.{CallerFace};
    ghost use Rattle.mv_board.specs.Caller.{face_of, IsSeated};

    ghost Value = { CallerFace };

    ghost view = { face_of };

    ghost invariant = { IsSeated };
}

impl Caller {
    /// Returns the caller's number, which is counted from 0 and below the number of the configuration's callers.
    pub fn number(&self) -> u32
        ensures number { result ≡ self.now.number }
        ensures exists { AllByRecursion (λ (c : Setup). result < c.callers) self.now.about }
    {
        self.events.caller
    }

    /// Returns how many events the caller may still make.
    ///
    /// The log has room for all of them, and all callers together may make at most 524,287 (`EVENTS_LIMIT`).
    pub fn left(&self) -> u32
        ensures left { result ≡ self.now.left }
        ensures room { result ≤ self.now.room }
        ensures few { result ≤ events_limit }
    {
        self.events.left
    }

    /// Returns the caller's entries so far, in order. They are its part of the history, whatever other callers do.
    pub fn log(&self) -> &OpenLog
        ensures { result.now.entries ≡ self.now.log }
    {
        &self.events.log
    }

    /// Returns the wakes of the caller's last event on the latch set, in order; none before the first such event.
    ///
    /// A wake names a block to post or a task to wake. The event does neither: its caller must do it.
    pub fn wakes(&self) -> &[Wake]
        ensures wakes { result.now ≡ self.now.wakes }
        ensures last { result.now ≡ last_of self.now.told }
    {
        &self.events.wakes
    }
}
