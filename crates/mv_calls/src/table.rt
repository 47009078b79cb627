//! Tables of events, by specs/Table.antt: which blocks, latch and volume make up a table, and its check against a
//! configuration.

ghost use Rattle.std.specs.Prelude.{◌≡◌, ◌+◌, ◌≤◌, ◌==◌, ◌++◌, ◌⊎◌, not, length, find, IfOk, IfErr, OnOk, Some, None};
ghost use Rattle.std.specs.List.{range_with_len};
ghost use Rattle.mv_machine.specs.Prelude.{ecbs_limit, owner_of, is_on_exit};
ghost use Rattle.mv_calls.specs.Table.{table_refusal, IsTableOf, IsSoundTable, is_bad_range, first_of_others, first_with_exit};
ghost use Rattle.mv_calls.specs.Table.{blocks_of_table};

use mv_machine::ValidConfig;
use std::marker::Model;
use thiserror::Error;

/// A table of events: blocks that complete once, and are handed out in the order in which they completed. It is modelled on the
/// EVENTS service of the books; that it is made of blocks, a latch and a volume is this project's own.
#[derive(Clone, Copy, Debug, PartialEq, Eq)]
pub struct Table {
    /// The caller that owns all blocks of the table, and takes the events.
    pub owner: u32,
    /// The latch under which posts of events are made.
    pub latch: u32,
    /// The volume that counts the complete events.
    pub volume: u32,
    /// The block of event 0. The blocks of the other events follow it.
    pub events: u32,
    /// The block of slot 0. The blocks of the other slots follow it. Slot k is posted with the index of the k-th event to
    /// complete, counted from 0.
    pub slots: u32,
    /// The number of events, and of slots: 1 to 32.
    pub size: u32,
}

/// Why a table is refused: the first of these reasons that applies.
#[derive(Clone, Copy, Debug, PartialEq, Eq, Error)]
pub enum TableRefusal {
    /// The size is not 1 to 32.
    #[error("a table has 1 to 32 events")]
    BadSize,
    /// The events or the slots go past the last block, or have a block in common.
    #[error("the events or the slots go past the last block, or overlap")]
    BadRange,
    /// A block of the table is not the owner's. This is the lowest such block.
    #[error("block {0} is not the table's owner's")]
    NotOwner(u32),
    /// The latch does not exist.
    #[error("there is no such latch")]
    BadLatch,
    /// The volume does not exist.
    #[error("there is no such volume")]
    BadVolume,
    /// A block of the table is the source or a target of an exit. This is the lowest such block.
    #[error("block {0} is the source or a target of an exit")]
    HasExit(u32),
}

/// The most events of a table.
pub const TABLE_LIMIT: u32 = 32;

/// A table that was checked against a configuration, by `Table::check`. It does not change.
#[derive(Debug, Drop)]
pub struct ValidTable {
    table: Table,
}

impl Model for ValidTable {
    ghost use Rattle.mv_calls.specs.declared.table.Table.{Table};
    ghost use Rattle.mv_calls.specs.Table.{IsSmallTable};

    ghost Value = { Table };

    ghost view = { λ a. a.table };

    ghost invariant = { λ a. IsSmallTable a.table };
}

impl ValidTable {
    ghost use Rattle.std.specs.Prelude.{◌<◌};
    ghost use Rattle.mv_calls.specs.Table.{event_block, slot_block, table_limit};

    /// Returns the table that was checked.
    pub fn table(&self) -> &Table
        ensures table { result.now ≡ self.now }
        ensures few { self.now.size ≤ table_limit }
    {
        &self.table
    }

    /// Returns the block of an event, by the event's index.
    pub fn event_ecb(&self, index: u32) -> u32
        requires { index < self.now.size }
        ensures block { result ≡ event_block self.now index }
    {
        self.table.events + index
    }

    /// Returns the block of a slot, by the slot's position.
    pub fn slot_ecb(&self, position: u32) -> u32
        requires { position < self.now.size }
        ensures block { result ≡ slot_block self.now position }
    {
        self.table.slots + position
    }
}

impl Table {
    /// Checks a table against a configuration: its size, its blocks and their owner, its latch and its volume, and that no exit
    /// starts from its blocks or leads to them. It takes no memory; it goes through the exits once for each block.
    ///
    /// # Errors
    ///
    /// Returns the first refusal that applies, in the order of `TableRefusal`.
    ///
    /// # Examples
    ///
    /// From `crates/mv_tests/src/tests/event_tables.rt`:
    ///
    /// ```
    /// match TABLE.check(station.config()) {
    ///     Ok(table) => table,
    ///     Err(_) => panic!(rt; "refused"),
    /// }
    /// ```
    pub fn check(self, config: &ValidConfig) -> Result<ValidTable, TableRefusal>
        ensures ok { IfOk result (λ v. v ≡ self) }
        ensures checked { OnOk result (IsTableOf config.now self) }
        ensures sound { OnOk result (IsSoundTable config.now self) }
        ensures refused { IfErr result (λ r. table_refusal config.now self ≡ Some r) }
    {
        match self.refusal(config) {
            Some(refusal) => Err(refusal),
            None => Ok(ValidTable { table: self }),
        }
    }

    // Returns why the table is refused, if it is.
    fn refusal(&self, config: &ValidConfig) -> Option<TableRefusal>
        ensures refusal { result ≡ table_refusal config.now self.now }
        ensures few { result ≡ None → length config.now.owners ≤ ecbs_limit }
    {
        if self.size < 1 || self.size > TABLE_LIMIT {
            return Some(TableRefusal::BadSize);
        }
        if self.has_bad_range(config) {
            return Some(TableRefusal::BadRange);
        }
        if let Some(ecb) = self.first_of_others(config) {
            return Some(TableRefusal::NotOwner(ecb));
        }
        if !config.has_latch(self.latch) {
            return Some(TableRefusal::BadLatch);
        }
        if !config.has_volume(self.volume) {
            return Some(TableRefusal::BadVolume);
        }
        if let Some(ecb) = self.first_with_exit(config) {
            return Some(TableRefusal::HasExit(ecb));
        }
        None
    }

    // Returns whether the events or the slots go past the last block, or have a block in common.
    #[tactic(auto, using(crate::proofs::Tables::few_blocks))]
    fn has_bad_range(&self, config: &ValidConfig) -> bool
        ensures bad { result ≡ is_bad_range config.now self.now }
        ensures few { length config.now.owners ≤ ecbs_limit }
    {
        let count = config.config().owners.len() as u64;
        let events = u64::from(self.events);
        let slots = u64::from(self.slots);
        let size = u64::from(self.size);
        count < events + size
            || count < slots + size
            || (events < slots + size && slots < events + size)
    }

    // Returns the lowest block of the table that is not its owner's.
    fn first_of_others(&self, config: &ValidConfig) -> Option<u32>
        requires events { self.now.events + self.now.size ≤ length config.now.owners }
        requires slots { self.now.slots + self.now.size ≤ length config.now.owners }
        requires few { length config.now.owners ≤ ecbs_limit }
        ensures { result ≡ first_of_others config.now self.now }
    {
        let (low, high) = self.ranges();
        match other_in(config, self.owner, low, self.size) {
            Some(ecb) => Some(ecb),
            None => other_in(config, self.owner, high, self.size),
        }
    }

    // Returns the lowest block of the table that is on an exit.
    fn first_with_exit(&self, config: &ValidConfig) -> Option<u32>
        requires events { self.now.events + self.now.size ≤ length config.now.owners }
        requires slots { self.now.slots + self.now.size ≤ length config.now.owners }
        requires few { length config.now.owners ≤ ecbs_limit }
        ensures { result ≡ first_with_exit config.now self.now }
    {
        let (low, high) = self.ranges();
        match with_exit_in(config, low, self.size) {
            Some(ecb) => Some(ecb),
            None => with_exit_in(config, high, self.size),
        }
    }

    // Returns the first blocks of the table's two ranges, the lower one first.
    fn ranges(&self) -> (u32, u32)
        ensures rising { blocks_of_table self.now ≡ range_with_len result.0 self.now.size ++ range_with_len result.1 self.now.size }
        ensures which { ((result.0 ≡ self.now.events) × (result.1 ≡ self.now.slots))
            ⊎ ((result.0 ≡ self.now.slots) × (result.1 ≡ self.now.events)) }
    {
        if self.events < self.slots {
            (self.events, self.slots)
        } else {
            (self.slots, self.events)
        }
    }
}

// Returns the lowest block of a range that is not this caller's.
fn other_in(config: &ValidConfig, owner: u32, first: u32, size: u32) -> Option<u32>
    requires exist { first + size ≤ length config.now.owners }
    requires few { length config.now.owners ≤ ecbs_limit }
    ensures { result ≡ find (λ e. not (owner_of config.now e == owner)) (range_with_len first size) }
{
    (first..first + size).find(|ecb| !config.owns_ecb(owner, *ecb))
}

// Returns the lowest block of a range that is on an exit.
fn with_exit_in(config: &ValidConfig, first: u32, size: u32) -> Option<u32>
    requires { first + size ≤ ecbs_limit }
    ensures { result ≡ find (is_on_exit config.now) (range_with_len first size) }
{
    (first..first + size).find(|ecb| config.is_on_exit(*ecb))
}
