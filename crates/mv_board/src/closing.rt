//! How a board ends: its callers come back one by one, and their logs become one history. Clauses cite `specs/Closing.antt` and
//! `specs/Faces.antt`.

ghost use Rattle.std.specs.Prelude.{◌≡◌, ◌≤◌, ◌++◌, ◌∷◌, [], length, map};
ghost use Rattle.std.specs.List.{AllByRecursion};
ghost use Rattle.mv_machine.specs.Prelude.{Legal, after, events_limit, merged as merged_logs, KeepsBudgets};
ghost use Rattle.mv_board.specs.Faces.{IsOf, AreInOrder, IsPartIn, IsIn, part_of, log_of, AreHeld};

use crate::board::Board;
use crate::caller::Caller;
use crate::item::Item;
use crate::rule::{OneHistory, Seats};
use crate::view::View;
use crate::words::number_in;
use atomic_table::{Seat, Table};
use mv_machine::{History, Log, MergeRoom, ValidConfig};
use std::alloc::Global;
use std::marker::Model;

/// What remains of a board after its end.
#[derive(Drop)]
pub struct Closed {
    /// All entries as one legal history, with the board's configuration. No entry has been read from it yet.
    pub history: History,
    /// The number in each volume after this history, by the number of the volume. There are 8; a configuration may have fewer.
    pub volumes: [u32; 8],
}

impl Board {
    /// Ends the board: takes its callers back, and makes one history of their logs.
    ///
    /// The call takes no memory and never fails. The history is the merge of the logs. At each step, of the callers whose next
    /// entry has the next place of its object, the one with the lowest number gives its next entry. Each caller's part of the
    /// history is that caller's log, and its told list is what the history shows it. Each word that it read was the object's
    /// between the caller's events on that object before and after.
    pub fn close(self, callers: Vec<Caller>) -> Closed
        requires order { AreInOrder self 0 callers.items }
        requires all { length callers.items ≡ self.config.callers }
        ensures config { result.history.config ≡ self.config }
        ensures whole { result.history.past ≡ [] }
        ensures legal { Legal self.config result.history.coming }
        ensures budgets { KeepsBudgets self.config result.history.coming }
        ensures few { length result.history.coming ≤ events_limit }
        ensures merged { result.history.coming ≡ merged_logs (map (λ f. f.log) callers.items) }
        ensures callers { AllByRecursion (IsIn self.config result.history.coming) callers.items }
        ensures volumes { AreHeld self.config (after self.config result.history.coming) result.volumes }
    {
        let mut closing = self.closing();
        for caller in callers {
            closing.take_back(caller);
        }
        closing.done()
    }

    /// Begins the end of the board. Use it instead of `close` if each caller comes back from a task of its own: give them back
    /// one by one.
    pub fn closing(self) -> Closing
        ensures board { result.board ≡ self }
        ensures none { result.back ≡ [] }
    {
        let Board {
            config,
            table,
            room,
            logs,
        } = self;
        Closing {
            config,
            table,
            room,
            logs,
            seat: None,
        }
    }
}

/// A board that ends. Its callers come back in the order of their numbers.
#[derive(Drop)]
pub struct Closing {
    pub(crate) config: ValidConfig,
    pub(crate) table: Table<Item, View, ValidConfig, OneHistory, Global>,
    pub(crate) room: MergeRoom,
    pub(crate) logs: Vec<Log>,
    // The joined seats of the callers that came back.
    pub(crate) seat: Option<Seat<Item, View>>,
}

impl Model for Closing {
    ghost use Rattle.mv_board.specs.Closing.{closing_of, IsClosing};
    ghost use Rattle.mv_board.specs.Faces.{ClosingFace};

    ghost Value = { ClosingFace };

    ghost view = { closing_of };

    ghost invariant = { IsClosing };
}

impl Closing {
    /// Takes the next caller back: the one whose number is the count of those that came before. It takes no memory.
    pub fn take_back(&mut self, caller: Caller)
        requires board { IsOf self.old.board caller }
        requires next { caller.number ≡ length self.old.back }
        ensures board { self.new.board ≡ self.old.board }
        ensures back { self.new.back ≡ self.old.back ++ part_of caller ∷ [] }
    {
        let Caller {
            events,
            seat: other,
        } = caller;
        let seat = match self.seat.take() {
            None => other,
            Some(mut seat) => {
                self.table.shared.join_seat::<Seats>(&mut seat, other);
                seat
            }
        };
        self.seat = Some(seat);
        self.logs.push_reserved(events.log.close());
    }

    /// Makes one history of the logs of all callers, as `Board::close` describes. It takes no memory and never fails.
    pub fn done(self) -> Closed
        requires all { length self.back ≡ self.board.config.callers }
        ensures config { result.history.config ≡ self.board.config }
        ensures whole { result.history.past ≡ [] }
        ensures legal { Legal self.board.config result.history.coming }
        ensures budgets { KeepsBudgets self.board.config result.history.coming }
        ensures few { length result.history.coming ≤ events_limit }
        ensures merged { result.history.coming ≡ merged_logs (map log_of self.back) }
        ensures callers { AllByRecursion (IsPartIn self.board.config result.history.coming) self.back }
        ensures volumes { AreHeld self.board.config (after self.board.config result.history.coming) result.volumes }
    {
        let Closing {
            config,
            table,
            room,
            logs,
            seat,
        } = self;
        let Some(seat) = seat else { unreachable!() };
        let mut closed = table.close_with(seat);
        let _lists = closed.take(0);
        let mut volumes = [0; 8];
        for volume in 0..8 {
            volumes[volume] = number_in(closed.word(volume));
        }
        closed.free();
        Closed {
            history: History::new(config, logs, room),
            volumes,
        }
    }
}
