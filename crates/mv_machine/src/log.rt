//! The log of a caller: its entries, in 40 bytes each. Clauses cite `specs/Log.antt`.

ghost use Rattle.std.specs.Prelude.{◌≡◌, ◌<◌, ◌+◌, ◌^◌, [], length, map, slice_get, option_map, IfOk, IfSome};
ghost use Rattle.mv_machine.specs.Compact.{entry_of};
ghost use Rattle.mv_machine.specs.Log.{subject_of, with_entry};

use crate::compact::CompactEntry;
use crate::entry::{Entry, Object, Op, Reply};
use mv_io::NoMemory;
use std::alloc::Global;
use std::marker::Model;

/// The entries of one caller, in the order in which it made them. Contracts see a log as a list.
#[derive(Drop)]
pub struct Log {
    caller: u32,
    compact: Vec<CompactEntry>,
}

impl Model for Log {
    ghost use Rattle.std.specs.Prelude.{List};
    ghost use Rattle.mv_machine.specs.declared.entry.Entry.{Entry};
    ghost use Rattle.mv_machine.specs.Log.{entries_of};

    ghost Value = { List Entry };

    ghost view = { entries_of };
}

impl Log {
    /// Returns the number of entries.
    #[inline]
    pub fn len(&self) -> usize
        ensures { result ≡ length self.now }
    {
        self.compact.len()
    }

    /// Returns the object and the place of the entry at this index, counted from 0, if there is one.
    #[inline]
    pub fn subject(&self, at: usize) -> Option<(Object, u32)>
        ensures subject { result ≡ option_map subject_of (slice_get self.now at) }
        ensures next { IfSome result (λ _. at + 1 < 2 ^ 64) }
    {
        let compact = self.compact.get(at)?;
        Some((compact.object, compact.place))
    }

    /// Returns the entry at this index, counted from 0, if there is one.
    #[inline]
    pub fn get(&self, at: usize) -> Option<Entry>
        ensures { result ≡ slice_get self.now at }
    {
        entry_at(&self.compact, self.caller, at)
    }
}

/// The log of a caller that may make more entries, with room for them.
#[derive(Drop)]
pub struct OpenLog {
    caller: u32,
    compact: Vec<CompactEntry>,
}

impl Model for OpenLog {
    ghost use Rattle.mv_machine.specs.Log.{OpenLogFace, open_log_of};

    ghost Value = { OpenLogFace };

    ghost view = { open_log_of };
}

impl OpenLog {
    /// Returns an empty log of this caller, with room for `room` entries.
    ///
    /// # Errors
    ///
    /// Returns `NoMemory` if there is not enough memory for that.
    pub fn with_room(alloc: Global, caller: u32, room: usize) -> Result<OpenLog, NoMemory>
        ensures empty { IfOk result (λ l. (l.caller ≡ caller) × (l.entries ≡ [])) }
        ensures room { IfOk result (λ l. l.room ≡ room) }
    {
        Ok(OpenLog {
            caller,
            compact: Vec::with_capacity(alloc, room)?,
        })
    }

    /// Appends one more entry of the caller, for which there is room.
    #[inline(always)]
    pub fn push(&mut self, object: Object, place: u32, op: Op, reply: Reply)
        requires room { 0 < self.old.room }
        ensures { self.new ≡ with_entry self.old
            record { caller = self.old.caller; object = object; place = place; op = op; reply = reply } }
    {
        self.compact
            .push_reserved(CompactEntry::of(object, place, op, reply));
    }

    /// Returns the number of entries.
    pub fn len(&self) -> usize
        ensures { result ≡ length self.now.entries }
    {
        self.compact.len()
    }

    /// Returns the entry at this index, counted from 0, if there is one.
    pub fn get(&self, at: usize) -> Option<Entry>
        ensures { result ≡ slice_get self.now.entries at }
    {
        entry_at(&self.compact, self.caller, at)
    }

    /// Closes the log, which gets no more entries.
    pub fn close(self) -> Log
        ensures { result ≡ self.entries }
    {
        Log {
            caller: self.caller,
            compact: self.compact,
        }
    }
}

// Returns the entry of this caller at this index.
#[inline]
fn entry_at(compact: &[CompactEntry], caller: u32, at: usize) -> Option<Entry>
    ensures { result ≡ slice_get (map (entry_of caller) compact.now) at }
{
    let found = compact.get(at)?;
    Some(found.entry(caller))
}
