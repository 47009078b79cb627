//! The rule of the table, `specs/Rule.antt`, and the kinds of its steps, `specs/Steps.antt` and `specs/Turn.antt`.

use crate::item::Item;
use crate::view::View;
use atomic_table::{Join, Play, Split, TableRule};
use mv_machine::ValidConfig;

/// The invariant of the table: the merge of the logs is a legal history, and the words and the lists are what it leads to.
pub struct OneHistory;

impl TableRule<Item, View, ValidConfig> for OneHistory {
    ghost use Rattle.mv_board.specs.Rule.{Ruled};
    ghost use Rattle.mv_board.specs.View.{first_view};

    ghost holds = { Ruled };

    ghost first = { first_view };
}

/// A load of a word.
pub(crate) struct Look;

impl Play<Item, View> for Look {
    ghost use Rattle.mv_board.specs.Steps.{Looked};

    ghost then = { Looked };
}

/// An exchange of a word.
pub(crate) struct Exchange;

impl Play<Item, View> for Exchange {
    ghost use Rattle.mv_board.specs.Steps.{Tried};

    ghost then = { Tried };
}

/// An addition to a word.
pub(crate) struct Addition;

impl Play<Item, View> for Addition {
    ghost use Rattle.mv_board.specs.Steps.{Tested};

    ghost then = { Tested };
}

/// A split of a seat into two, or a join of two seats.
pub(crate) struct Seats;

impl Split<View> for Seats {
    ghost use Rattle.mv_board.specs.View.{cut_left, cut_right};

    ghost left = { cut_left };

    ghost right = { cut_right };
}

impl Join<View> for Seats {
    ghost use Rattle.mv_board.specs.View.{joined, spent_view};

    ghost both = { joined };

    ghost spent = { spent_view };
}

/// A load of a word that lists the object's watch if its state is ready.
pub(crate) struct Peek;

impl Play<Item, View> for Peek {
    ghost use Rattle.mv_board.specs.Steps.{Peeked};

    ghost then = { Peeked };
}

/// An exchange that takes the turn of the latch set.
pub(crate) struct Take;

impl Play<Item, View> for Take {
    ghost use Rattle.mv_board.specs.Turn.{Took};

    ghost then = { Took };
}

/// An exchange that gives the turn back with an event.
pub(crate) struct Give;

impl Play<Item, View> for Give {
    ghost use Rattle.mv_board.specs.Turn.{Gave};

    ghost then = { Gave };
}

/// An exchange that gives the turn back without an event.
pub(crate) struct Return;

impl Play<Item, View> for Return {
    ghost use Rattle.mv_board.specs.Turn.{Returned};

    ghost then = { Returned };
}
