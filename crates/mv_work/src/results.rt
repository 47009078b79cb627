//! The results of a finished run: its history, and what its tasks bring back. Clauses cite `specs/Works.antt`.
//!
//! ```text
//!   the works of      reader   scheduler   initiator 0 .. i - 1   writer
//!   bring back           -         -           records             ends
//! ```

ghost use Rattle.std.specs.Prelude.{◌≡◌, ◌<◌, ◌≤◌, ◌+◌, ◌-◌, ◌++◌, [], length, map, slice_index_or, take, vec_capacity};
ghost use Rattle.mv_work.specs.Works.{IsWriter, ends_in, records, records_in};

use crate::initiator::Initiator;
use crate::records::InitiatorRecord;
use crate::work::{Role, SpoolWork};
use mv_board::Closed;

/// The results of a finished run.
#[derive(Drop)]
pub struct RunResults {
    /// What its board held when it was closed.
    pub closed: Closed,
    /// What each initiator noted.
    pub records: Vec<InitiatorRecord>,
    /// The ends of the jobs that the writer found, in their order.
    pub ends: Vec<u32>,
}

/// The results of a run whose board was closed so, with what the initiators and the writer bring back. The works are those of all
/// tasks, in the order of their numbers. The records are put into `room`.
pub fn results_of(closed: Closed, works: Vec<SpoolWork>, room: Vec<InitiatorRecord>) -> RunResults
    requires some { 0 < length works.items }
    requires writer { (d : _) → IsWriter (slice_index_or works.items (length works.items - 1) d).role }
    requires room { (room.items ≡ []) × (length works.items ≤ vec_capacity room) }
    ensures closed { result.closed ≡ closed }
    ensures records { map (λ r. r.jobs) result.records.items ≡ records (take (length works.items - 1) works.items) }
    ensures ends { (d : _) → result.ends.items ≡ ends_in (slice_index_or works.items (length works.items - 1) d).role }
{
    let mut works = works;
    let Some(last) = works.pop() else {
        unreachable!()
    };
    let ends = ends_of(last);
    let records = records_of(works, room);
    RunResults {
        closed,
        records,
        ends,
    }
}

// The ends that the writer found.
fn ends_of(work: SpoolWork) -> Vec<u32>
    requires { IsWriter work.role }
    ensures { result.items ≡ ends_in work.role }
{
    let SpoolWork { role } = work;
    let Role::Writer { ends, .. } = role else {
        unreachable!()
    };
    ends
}

// What the initiators among these works noted.
fn records_of(works: Vec<SpoolWork>, room: Vec<InitiatorRecord>) -> Vec<InitiatorRecord>
    requires { (room.items ≡ []) × (length works.items ≤ vec_capacity room) }
    ensures { map (λ r. r.jobs) result.items ≡ records works.items }
{
    let mut records = room;
    for work in works {
        push_noted(work, &mut records);
    }
    records
}

// Appends what a work noted, if it is an initiator's.
fn push_noted(work: SpoolWork, records: &mut Vec<InitiatorRecord>)
    requires { length records.old.items < vec_capacity records.old }
    ensures records { map (λ r. r.jobs) records.new.items ≡ map (λ r. r.jobs) records.old.items ++ records_in work.role }
    ensures count { length records.new.items ≤ length records.old.items + 1 }
    ensures room { vec_capacity records.new ≡ vec_capacity records.old }
{
    let SpoolWork { role } = work;
    if let Role::Initiator { me, .. } = role {
        let Initiator { noted, .. } = me;
        records.push_reserved(noted);
    }
}
