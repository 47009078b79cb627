//! All lists of a latch set together: `specs/LatchSet.antt`, and in memory `specs/Queues.antt`.

ghost use Rattle.std.specs.Prelude.{◌≡◌, ◌+◌, ◌<◌, ◌≤◌, ◌^◌, ◌++◌, length, map, vec_len, vec_capacity};
ghost use Rattle.std.specs.List.{flat_map, AllByRecursion};
ghost use Rattle.mv_latch.specs.Request.{wake_of};
ghost use Rattle.mv_latch.specs.Latch.{purged, waiting_of, granted_by_purge, HasDistinctIds};
ghost use Rattle.mv_latch.specs.LatchSet.{count_in, request_count};
ghost use Rattle.mv_latch.specs.Queues.{items_of, capacities};
ghost use Rattle.mv_latch.specs.Selection.{selects};

use crate::operation::Wake;
use crate::queue::{count, remove, wake_waiting};
use crate::request::Request;
use crate::selection::Selection;

/// Returns how many requests in all lists are selected.
pub(crate) fn count_in_all(lists: &[Vec<Request>], selection: Selection) -> usize
    requires { count_in (selects selection) (items_of lists.now) < 2 ^ 64 }
    ensures { result ≡ count_in (selects selection) (items_of lists.now) }
{
    let mut total = 0;
    for list in lists {
        total += count(list, selection);
    }
    total
}

/// Appends a wake with code 1 for each waiting request of a requestor, in the order of latches and of each list.
pub(crate) fn wake_all_waiting(lists: &[Vec<Request>], requestor: u64, wakes: &mut Vec<Wake>)
    requires { vec_len wakes.old + length (flat_map (waiting_of requestor) (items_of lists.now)) ≤ vec_capacity wakes.old }
    ensures items { wakes.new.items ≡ wakes.old.items ++ map (wake_of 1) (flat_map (waiting_of requestor) (items_of lists.now)) }
    ensures capacity { vec_capacity wakes.new ≡ vec_capacity wakes.old }
{
    for list in lists {
        wake_waiting(list, requestor, wakes);
    }
}

/// Takes the requests of a requestor out of all lists, appends a wake with code 0 for each request that this grants, and returns
/// how many these are.
pub(crate) fn remove_from_all(
    lists: &mut [Vec<Request>],
    requestor: u64,
    wakes: &mut Vec<Wake>,
) -> u32
    requires distinct { AllByRecursion HasDistinctIds (items_of lists.old) }
    requires fits { request_count (items_of lists.old) < 2 ^ 32 }
    requires room { vec_len wakes.old + length (flat_map (granted_by_purge requestor) (items_of lists.old)) ≤ vec_capacity wakes.old }
    ensures items { items_of lists.new ≡ map (purged requestor) (items_of lists.old) }
    ensures count { result ≡ length (flat_map (granted_by_purge requestor) (items_of lists.old)) }
    ensures wakes { wakes.new.items ≡ wakes.old.items ++ map (wake_of 0) (flat_map (granted_by_purge requestor) (items_of lists.old)) }
    ensures capacities { capacities lists.new ≡ capacities lists.old }
    ensures wakes_capacity { vec_capacity wakes.new ≡ vec_capacity wakes.old }
{
    let mut granted = 0;
    for i in 0..lists.len() {
        let list = &mut lists[i];
        granted += remove(list, Selection::Of { requestor }, wakes);
    }
    granted
}
