//! The entry of a history: which caller made which operation on which object, at which place, and what the reply was.

ghost use Rattle.std.specs.Prelude.{◌≡◌, ◌↔◌, IsTrue};

use mv_ecb::{EcbOp, EcbReply};
use mv_element::{ElementOp, ElementReply};
use mv_latch::{LatchOp, LatchReply};

/// An object of the machine, by its number. There is only one latch set.
#[derive(Clone, Copy, Debug, PartialEq, Eq)]
pub enum Object {
    /// An event control block.
    Ecb(u32),
    /// A pause element.
    Element(u32),
    /// A volume: one shared number.
    Volume(u32),
    /// The latch set, with all its latches.
    Latches,
}

/// An operation on a volume, which is one shared number of 32 bits. Volumes are this project's own, and are not disks.
#[derive(Clone, Copy, Debug, PartialEq, Eq)]
pub enum VolumeOp {
    /// Reads the volume's number.
    Read,
    /// Replaces the volume's number by this one.
    Write(u32),
}

/// The reply to an operation on a volume.
#[derive(Clone, Copy, Debug, PartialEq, Eq)]
pub enum VolumeReply {
    /// The volume's number.
    Value(u32),
    /// The number is written.
    Stored,
}

/// An operation on an object. Each kind of object has its own operations; an operation of another kind of object is not
/// admitted.
#[derive(Clone, Copy, Debug, PartialEq, Eq)]
pub enum Op {
    Ecb(EcbOp),
    Element(ElementOp),
    Volume(VolumeOp),
    Latch(LatchOp),
}

/// The reply of an object, by the table of its kind.
#[derive(Clone, Copy, Debug, PartialEq, Eq)]
pub enum Reply {
    Ecb(EcbReply),
    Element(ElementReply),
    Volume(VolumeReply),
    Latch(LatchReply),
}

impl Reply {
    /// Returns whether two replies are the same. It is `==`, whose contracts say less.
    pub fn is_same(self, other: Reply) -> bool
        ensures { IsTrue result ↔ (self ≡ other) }
    {
        match (self, other) {
            (Reply::Ecb(a), Reply::Ecb(b)) => a == b,
            (Reply::Element(a), Reply::Element(b)) => a.is_same(b),
            (Reply::Volume(a), Reply::Volume(b)) => a == b,
            (Reply::Latch(a), Reply::Latch(b)) => a == b,
            _ => false,
        }
    }
}

/// One event: which caller made which operation on which object, and what the reply was. A list of entries is legal if each
/// entry in turn is the one that the machine makes; `replay` judges it.
#[derive(Clone, Copy, Debug, PartialEq, Eq)]
pub struct Entry {
    /// The caller that made the event, numbered from 0.
    pub caller: u32,
    pub object: Object,
    /// The number of events that the object had before this one.
    pub place: u32,
    pub op: Op,
    pub reply: Reply,
}
