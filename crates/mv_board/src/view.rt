//! What a seat knows, for the proofs only: no value of these types is ever made. Clauses see a linked list as a list.

use crate::watch::Watch;
use mv_latch::{Request, Wake};
use mv_machine::{Entry, Object, ValidConfig};
use std::collections::LinkedList;

/// A word that a caller read at an object without an event, and the length of its log then (`after`).
pub struct Sight {
    pub object: Object,
    pub word: u64,
    pub after: u32,
}

/// A caller's part of the history: its log and what it was shown, the events that are left to it, and the words that it read.
pub struct Part {
    pub caller: u32,
    pub left: u32,
    pub log: LinkedList<Entry>,
    pub told: LinkedList<LinkedList<Wake>>,
    pub sights: LinkedList<Sight>,
}

/// The lists of the latch set and their place, as the view of the turn's holder names them.
pub struct Named {
    pub place: u32,
    pub lists: LinkedList<LinkedList<Request>>,
}

/// What a seat knows: the parts of the callers whose seats were joined in it, its own caller's first, and the fields below.
pub struct View {
    pub parts: LinkedList<Part>,
    /// In the one view that counts the callers, the number of callers made so far; 0 in all others.
    pub made: u32,
    /// The lists that the seat has taken: one element while it holds the turn, otherwise none.
    pub turn: LinkedList<Named>,
    /// The lists that the caller gave back without an event, in order.
    pub returned: LinkedList<LinkedList<LinkedList<Request>>>,
    /// The watches that were seen ready, and that no event of the caller has taken off since.
    pub ready: LinkedList<Watch>,
    /// The configuration: one element, and none in the view of a seat that gave everything away.
    pub about: LinkedList<ValidConfig>,
}
