//! The list of requests of one latch: `specs/Latch.antt`.

ghost use Rattle.std.specs.Prelude.{◌≡◌, ◌+◌, ◌<◌, ◌≤◌, ◌^◌, ◌++◌, not, length, map, filter, take, drop, vec_len, vec_capacity};
ghost use Rattle.std.specs.List.{list_all, list_any};
ghost use Rattle.mv_latch.specs.Request.{shared_request, is_own, wake_of};
ghost use Rattle.mv_latch.specs.Latch.{shared_front, granted as granted_of, waiting as waiting_in, grants, first_id};
ghost use Rattle.mv_latch.specs.Latch.{blocker as blocker_of, obtain_step, confirm_reply, release_step, left_without};
ghost use Rattle.mv_latch.specs.Latch.{newly_granted, granted_wakes, waiting_of, HasDistinctIds};
ghost use Rattle.mv_latch.specs.Selection.{selects};

use crate::operation::{LatchReply, Wake};
use crate::request::{LatchForm, Mode, Request};
use crate::selection::Selection;

// Whether all requests of a list are shared.
fn all_shared(list: &[Request]) -> bool
    ensures { result ≡ list_all shared_request list.now }
{
    list.iter().all(|request| request.mode == Mode::Shared)
}

// Whether a new request is granted at once when it is appended.
fn is_granted_at_end(list: &[Request], request: Request) -> bool
    ensures { result ≡ grants list.now request }
{
    list.is_empty() || (request.mode == Mode::Shared && all_shared(list))
}

// The number of the first exclusive request, or 0 if there is none.
fn first_exclusive(list: &[Request]) -> u32
    ensures { result ≡ first_id (filter (λ q. not (shared_request q)) list.now) }
{
    for request in list {
        if request.mode == Mode::Exclusive {
            return request.id;
        }
    }
    0
}

// The number of the request that blocks a new one, or 0 if there is none.
fn blocker(list: &[Request], request: Request) -> u32
    ensures { result ≡ blocker_of request list.now }
{
    if request.mode == Mode::Shared {
        return first_exclusive(list);
    }
    match list.first() {
        Some(first) => first.id,
        None => 0,
    }
}

/// Obtains the latch at a list that has room for one more request.
pub(crate) fn obtain(list: &mut Vec<Request>, request: Request) -> LatchReply
    requires { vec_len list.old < vec_capacity list.old }
    ensures step { (list.new.items, result) ≡ obtain_step request list.old.items }
    ensures capacity { vec_capacity list.new ≡ vec_capacity list.old }
{
    if is_granted_at_end(list, request) {
        list.push_reserved(request);
        return LatchReply::Granted(request.id);
    }
    if request.form == LatchForm::Conditional {
        return LatchReply::NotNow(blocker(list, request));
    }
    list.push_reserved(request);
    LatchReply::Queued(request.id)
}

// The length of the longest prefix of shared requests.
fn shared_len(list: &[Request]) -> usize
    ensures within { result ≤ length list.now }
    ensures front { take result list.now ≡ shared_front list.now }
{
    for (i, request) in list.iter().enumerate() {
        if request.mode == Mode::Exclusive {
            return i;
        }
    }
    list.len()
}

// How many requests hold the latch.
fn granted_len(list: &[Request]) -> usize
    ensures within { result ≤ length list.now }
    ensures front { take result list.now ≡ granted_of list.now }
{
    match list.first() {
        Some(first) if first.mode == Mode::Exclusive => 1,
        _ => shared_len(list),
    }
}

// The requests that hold the latch.
fn granted(list: &[Request]) -> &[Request]
    ensures { result.now ≡ granted_of list.now }
{
    &list[..granted_len(list)]
}

// The requests that hold the latch, without the first `first`.
fn granted_behind(list: &[Request], first: usize) -> &[Request]
    requires { first ≤ length (granted_of list.now) }
    ensures { result.now ≡ drop first (granted_of list.now) }
{
    &granted(list)[first..]
}

// The requests after those that hold the latch.
fn waiting(list: &[Request]) -> &[Request]
    ensures { result.now ≡ waiting_in list.now }
{
    &list[granted_len(list)..]
}

// Whether a list has the request of this caller and number.
fn has_own(list: &[Request], caller: u32, id: u32) -> bool
    ensures { result ≡ list_any (is_own caller id) list.now }
{
    list.iter()
        .any(|request| request.id == id && request.caller == caller)
}

/// Returns whether the caller's request is granted, waits, or is gone.
pub(crate) fn confirm(list: &[Request], caller: u32, id: u32) -> LatchReply
    ensures { result ≡ confirm_reply caller id list.now }
{
    if has_own(granted(list), caller, id) {
        return LatchReply::Granted(id);
    }
    if has_own(list, caller, id) {
        return LatchReply::Waiting;
    }
    LatchReply::Gone
}

/// Returns how many requests are selected.
pub(crate) fn count(requests: &[Request], selection: Selection) -> usize
    ensures value { result ≡ length (filter (selects selection) requests.now) }
    ensures within { result ≤ length requests.now }
{
    requests
        .iter()
        .filter(|request| selection.selects(request))
        .count()
}

// How many of the requests that hold the latch are not selected.
fn granted_left(list: &[Request], selection: Selection) -> usize
    ensures { result ≡ length (left_without (selects selection) (granted_of list.now)) }
{
    let held = granted(list);
    held.len() - count(held, selection)
}

// Takes the selected requests out, and keeps the others in their order.
fn take_out(list: &mut Vec<Request>, selection: Selection)
    ensures items { list.new.items ≡ left_without (selects selection) list.old.items }
    ensures capacity { vec_capacity list.new ≡ vec_capacity list.old }
{
    list.retain(|request| !selection.selects(request));
}

// Appends a wake with this code for each request.
fn wake_each(requests: &[Request], code: u32, wakes: &mut Vec<Wake>)
    requires { vec_len wakes.old + length requests.now ≤ vec_capacity wakes.old }
    ensures items { wakes.new.items ≡ wakes.old.items ++ map (wake_of code) requests.now }
    ensures capacity { vec_capacity wakes.new ≡ vec_capacity wakes.old }
{
    for request in requests {
        wakes.push_reserved(Wake::of(request, code));
    }
}

/// Appends a wake with code 1 for each waiting request of a requestor.
pub(crate) fn wake_waiting(list: &[Request], requestor: u64, wakes: &mut Vec<Wake>)
    requires { vec_len wakes.old + length (waiting_of requestor list.now) ≤ vec_capacity wakes.old }
    ensures items { wakes.new.items ≡ wakes.old.items ++ map (wake_of 1) (waiting_of requestor list.now) }
    ensures capacity { vec_capacity wakes.new ≡ vec_capacity wakes.old }
{
    for request in waiting(list) {
        if request.requestor == requestor {
            wakes.push_reserved(Wake::of(request, 1));
        }
    }
}

/// Takes the selected requests out, appends a wake with code 0 for each request that this grants, and returns how many these are.
pub(crate) fn remove(list: &mut Vec<Request>, selection: Selection, wakes: &mut Vec<Wake>) -> u32
    requires distinct { HasDistinctIds list.old.items }
    requires fits { vec_len list.old < 2 ^ 32 }
    requires room { vec_len wakes.old + length (newly_granted list.old.items (left_without (selects selection) list.old.items))
        ≤ vec_capacity wakes.old }
    ensures items { list.new.items ≡ left_without (selects selection) list.old.items }
    ensures count { result ≡ length (newly_granted list.old.items list.new.items) }
    ensures wakes { wakes.new.items ≡ wakes.old.items ++ granted_wakes list.old.items list.new.items }
    ensures capacity { vec_capacity list.new ≡ vec_capacity list.old }
    ensures wakes_capacity { vec_capacity wakes.new ≡ vec_capacity wakes.old }
{
    // A purge calls this for each latch, and most latches have no request.
    if list.is_empty() {
        return 0;
    }
    let kept = granted_left(list, selection);
    take_out(list, selection);
    let newly = granted_behind(list, kept);
    wake_each(newly, 0, wakes);
    newly.len() as u32
}

/// Releases a caller's request at a list, and appends the wakes for the requests that this grants.
pub(crate) fn release(
    list: &mut Vec<Request>,
    caller: u32,
    id: u32,
    conditional: bool,
    wakes: &mut Vec<Wake>,
) -> LatchReply
    requires distinct { HasDistinctIds list.old.items }
    requires fits { vec_len list.old < 2 ^ 32 }
    requires room { vec_len wakes.old + vec_len list.old ≤ vec_capacity wakes.old }
    ensures step { (list.new.items, result) ≡ release_step caller id conditional list.old.items }
    ensures wakes { wakes.new.items ≡ wakes.old.items ++ granted_wakes list.old.items list.new.items }
    ensures capacity { vec_capacity list.new ≡ vec_capacity list.old }
    ensures wakes_capacity { vec_capacity wakes.new ≡ vec_capacity wakes.old }
{
    if !has_own(list, caller, id) {
        return LatchReply::Gone;
    }
    if conditional && !has_own(granted(list), caller, id) {
        return LatchReply::Waiting;
    }
    let granted = remove(list, Selection::Own { caller, id }, wakes);
    LatchReply::Released { granted }
}
