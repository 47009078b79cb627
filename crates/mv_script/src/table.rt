//! The calls of a script that use what its table reserves (`specs/Table.antt`).

ghost use Rattle.std.specs.Prelude.{◌≡◌};
ghost use Rattle.std.specs.List.{list_any};
ghost use Rattle.mv_eventlaws.specs.Completions.{is_in_range};
ghost use Rattle.mv_eventlaws.specs.Served.{is_block as is_table_block};
ghost use Rattle.mv_script.specs.Table.{uses as uses_what_is, uses_any as uses_any_of, is_block_if_any, posts_block};
ghost use Rattle.mv_script.specs.Table.{is_event_requestor as is_by_event};

use mv_calls::Table;
use mv_latch::LatchForm;
use mv_scriptline::Call;

/// Returns whether a call other than EVPOST and EVNEXT uses what the table reserves, if there is a table.
pub(crate) fn uses_any(table: Option<Table>, call: &Call) -> bool
    ensures { result ≡ uses_any_of table call.now }
{
    match table {
        Some(table) => uses(table, call),
        None => false,
    }
}

// Whether a call uses what this table reserves.
fn uses(table: Table, call: &Call) -> bool
    ensures { result ≡ uses_what_is table call.now }
{
    match call {
        Call::Wait { ecbs, .. } => has_any(table, &ecbs.numbers),
        Call::Post { ecb, .. } | Call::TryPost { ecb, .. } => is_block(table, *ecb),
        Call::Clear(ecb) | Call::Extend { ecb, .. } => is_block(table, *ecb),
        Call::Write { volume, .. } => *volume == table.volume,
        Call::Obtain {
            latch,
            requestor,
            form,
            ..
        } => { *latch == table.latch || is_event_requestor(*requestor) || posts(table, *form) }
        Call::Purge(requestor) => is_event_requestor(*requestor),
        Call::EndTask {
            requestor,
            mother,
            ..
        } => is_event_requestor(*requestor) || is_any_block(table, *mother),
        Call::Test(_) | Call::Read(_) | Call::Alloc | Call::Pause(_) | Call::Release { .. } =>
            false,
        Call::TryRelease { .. } | Call::Transfer { .. } | Call::Dealloc(_) => false,
        Call::TestElement(_) | Call::Check(_) | Call::Free { .. } => false,
        Call::PostEvent { .. } | Call::NextEvent(_) => false,
    }
}

// Whether a block is one of the table's.
fn is_block(table: Table, ecb: u32) -> bool
    ensures { result ≡ is_table_block table ecb }
{
    is_in(table.events, table.size, ecb) || is_in(table.slots, table.size, ecb)
}

// Whether a block is one of the `size` blocks from the first on.
fn is_in(first: u32, size: u32, ecb: u32) -> bool
    ensures { result ≡ is_in_range first size ecb }
{
    first <= ecb && u64::from(ecb) < u64::from(first) + u64::from(size)
}

// Whether one of these blocks is the table's.
fn has_any(table: Table, ecbs: &[u32]) -> bool
    ensures { result ≡ list_any (is_table_block table) ecbs.now }
{
    ecbs.iter().any(|ecb| is_block(table, *ecb))
}

// Whether there is a block, and it is the table's.
fn is_any_block(table: Table, ecb: Option<u32>) -> bool
    ensures { result ≡ is_block_if_any table ecb }
{
    match ecb {
        Some(ecb) => is_block(table, ecb),
        None => false,
    }
}

// Whether a request posts one of the table's blocks.
fn posts(table: Table, form: LatchForm) -> bool
    ensures { result ≡ posts_block table form }
{
    match form {
        LatchForm::Posted(ecb) => is_block(table, ecb),
        LatchForm::Conditional | LatchForm::Waiting => false,
    }
}

// Whether a requestor is one of those by which posts of events request the table's latch.
fn is_event_requestor(requestor: u64) -> bool
    ensures { result ≡ is_by_event requestor }
{
    requestor >= 1 << 63
}
