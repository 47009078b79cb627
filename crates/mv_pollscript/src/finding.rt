//! Which call that is left would end a wait: `specs/Finding.antt`.

ghost use Rattle.std.specs.Prelude.{◌≡◌, ◌<◌, ◌≤◌, ◌+◌, ◌^◌, drop, length};
ghost use Rattle.std.specs.List.{position};
ghost use Rattle.mv_pollscript.specs.Finding.{does as does_deed, first_call as first_call_of, place_in as place_among};

use mv_latch::LatchForm;
use mv_script::{AnswerList, Call, CallList};

/// What another task does to end a wait.
#[derive(Clone, Copy, Debug, PartialEq, Eq)]
pub(crate) enum Deed {
    /// It posts this block.
    Posts(u32),
    /// It releases this element.
    Releases(u32),
}

/// A call of a task, counted from 1.
#[derive(Clone, Copy, Debug, PartialEq, Eq)]
pub(crate) struct Place {
    pub task: u32,
    pub call: u64,
}

// Whether a call posts this block, by its number.
fn posts(call: &Call, block: u32) -> bool
    ensures { result ≡ does_deed (Deed.Posts block) call.now }
{
    match call {
        Call::Post { ecb, .. } | Call::TryPost { ecb, .. } => *ecb == block,
        Call::EndTask {
            mother: Some(ecb),
            ..
        } => *ecb == block,
        Call::Obtain {
            form: LatchForm::Posted(ecb),
            ..
        } => *ecb == block,
        _ => false,
    }
}

// Whether a call releases a token of this element.
fn releases(call: &Call, element: u32) -> bool
    ensures { result ≡ does_deed (Deed.Releases element) call.now }
{
    match call {
        Call::Release { token, .. } | Call::TryRelease { token, .. } => token.element == element,
        Call::Transfer { target, .. } => target.element == element,
        _ => false,
    }
}

fn does(call: &Call, deed: Deed) -> bool
    ensures { result ≡ does_deed deed call.now }
{
    match deed {
        Deed::Posts(block) => posts(call, block),
        Deed::Releases(element) => releases(call, element),
    }
}

// How many of these calls are before the first that does this.
fn first_in(calls: &[Call], deed: Deed) -> Option<usize>
    ensures { result ≡ position (does_deed deed) calls.now }
{
    calls.iter().position(|call| does(call, deed))
}

// The number of the first of these calls after `made` of them that does this, counted from 1.
fn place_in(calls: &[Call], made: usize, deed: Deed) -> Option<u64>
    ensures { result ≡ place_among deed calls.now made }
{
    if made >= calls.len() {
        return None;
    }
    match first_in(&calls[made..], deed) {
        Some(ahead) => Some(made as u64 + ahead as u64 + 1),
        None => None,
    }
}

/// Returns the first call that does this among those without an answer, task by task. `task` is the number of the first of these
/// tasks.
pub(crate) fn first_call(
    lists: &[CallList],
    answers: &[AnswerList],
    task: u32,
    deed: Deed,
) -> Option<Place>
    requires { task + length lists.now < 2 ^ 32 }
    ensures { result ≡ first_call_of deed task lists.now answers.now }
{
    match lists {
        [] => None,
        [list, lists @ ..] => match answers {
            [] => None,
            [own, answers @ ..] => match place_in(&list.calls, own.answers.len(), deed) {
                Some(call) => Some(Place { task, call }),
                None => first_call(lists, answers, task + 1, deed),
            },
        },
    }
}
