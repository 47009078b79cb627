//! The answers of calls, made of those of the services (`Answered.antt` of mv_script).

ghost use Rattle.std.specs.Prelude.{◌≡◌};
ghost use Rattle.mv_latchset.specs.Answers.{obtain_answer, freed_answer};
ghost use Rattle.mv_pause.specs.Answers.{allocate_answer, pause_answer, release_answer, transfer_answer, deallocate_answer};
ghost use Rattle.mv_wait.specs.Answers.{clear_answer, extend_answer, wait_answer};
ghost use Rattle.mv_script.specs.declared.answer.Answer.TheVariants as answer;
ghost use Rattle.mv_script.specs.Answered.{done_or, given as given_as, given_if_paused, reached, obtained as obtained_told};
ghost use Rattle.mv_script.specs.Answered.{posted as posted_as, purged as purged_as, standing as standing_of};
ghost use Rattle.mv_script.specs.Answered.{entered as entered_as, found};
ghost use Rattle.mv_events.specs.Answers.{entering_answer, next_answer};

use mv_element::Token;
use mv_events::{Event, EventAnswer, NextRefusal, PostEventRefusal};
use mv_latchset::{ObtainRefusal, Obtained, Purged, ReleaseLatchRefusal, Standing};
use mv_pause::{
    DeallocateRefusal, Given, NoElement, PauseRefusal, ReleaseAnswer, ReleaseRefusal,
    TransferRefusal,
};
use mv_script::{Answer, Slots};
use mv_wait::{ExtendRefusal, NotOwner, PostAnswer, WaitRefusal};

/// Returns the answer of a WAIT, with what its slots say.
pub fn waited(outcome: Result<(), WaitRefusal>, slots: Slots) -> Answer
    ensures { result ≡ done_or answer.Waited (wait_answer outcome slots) }
{
    match outcome {
        Ok(()) => Answer::Waited(slots),
        Err(WaitRefusal::TooMany) => Answer::TooMany,
        Err(WaitRefusal::Doubled(position)) => Answer::Doubled(position),
        Err(WaitRefusal::NotOwner(position)) => Answer::NotOwnerAt(position),
        Err(WaitRefusal::Extended(position)) => Answer::ExtendedAt(position),
    }
}

/// Returns the answer of a POST or a TRYPOST.
pub(crate) fn posted(outcome: PostAnswer) -> Answer
    ensures { result ≡ posted_as outcome }
{
    match outcome {
        PostAnswer::Posted => Answer::Posted,
        PostAnswer::Woke => Answer::Woke,
        PostAnswer::Already(code) => Answer::AlreadyPosted(code),
    }
}

/// Returns the answer of a CLEAR.
pub(crate) fn cleared(outcome: Result<u32, NotOwner>) -> Answer
    ensures { result ≡ done_or (λ word. answer.Word word) (clear_answer outcome) }
{
    match outcome {
        Ok(word) => Answer::Word(word),
        Err(_) => Answer::NotOwner,
    }
}

/// Returns the answer of an EXTEND.
pub(crate) fn extended(outcome: Result<(), ExtendRefusal>) -> Answer
    ensures { result ≡ done_or (λ nothing. answer.Done) (extend_answer outcome) }
{
    match outcome {
        Ok(()) => Answer::Done,
        Err(ExtendRefusal::NotOwner) => Answer::NotOwner,
        Err(ExtendRefusal::BadExit) => Answer::BadExit,
        Err(ExtendRefusal::Extended) => Answer::Extended,
        Err(ExtendRefusal::Complete(code)) => Answer::Complete(code),
    }
}

/// Returns the answer of an ALLOC.
pub(crate) fn allocated(outcome: Result<Token, NoElement>) -> Answer
    ensures { result ≡ done_or (λ token. answer.Token token) (allocate_answer outcome) }
{
    match outcome {
        Ok(token) => Answer::Token(token),
        Err(_) => Answer::NoElement,
    }
}

/// Returns the answer of a PAUSE.
pub fn paused(outcome: Result<Given, PauseRefusal>) -> Answer
    ensures { result ≡ done_or given_as (pause_answer outcome) }
{
    match outcome {
        Ok(gift) => given(gift),
        Err(PauseRefusal::NotOwner) => Answer::NotOwner,
        Err(PauseRefusal::Spent(generation)) => Answer::Spent(generation),
    }
}

// The answer of a call that has paused.
fn given(gift: Given) -> Answer
    ensures { result ≡ answer.Given gift.code gift.next }
{
    Answer::Given {
        code: gift.code,
        next: gift.next,
    }
}

/// Returns the answer of a RELEASE.
pub(crate) fn released(outcome: Result<ReleaseAnswer, ReleaseRefusal>) -> Answer
    ensures { result ≡ done_or reached (release_answer outcome) }
{
    match outcome {
        Ok(ReleaseAnswer::Early) => Answer::Early,
        Ok(ReleaseAnswer::Woke) => Answer::Woke,
        Err(ReleaseRefusal::Spent(generation)) => Answer::Spent(generation),
        Err(ReleaseRefusal::Already) => Answer::AlreadyReleased,
    }
}

/// Returns the answer of a TRANSFER.
pub(crate) fn transferred(outcome: Result<Option<Given>, TransferRefusal>) -> Answer
    ensures { result ≡ done_or given_if_paused (transfer_answer outcome) }
{
    match outcome {
        Ok(Some(gift)) => given(gift),
        Ok(None) => Answer::Done,
        Err(TransferRefusal::NotOwner) => Answer::NotOwner,
        Err(TransferRefusal::Spent(generation)) => Answer::Spent(generation),
        Err(TransferRefusal::TargetSpent(generation)) => Answer::TargetSpent(generation),
        Err(TransferRefusal::TargetAlready) => Answer::TargetAlready,
    }
}

/// Returns the answer of a DEALLOC.
pub(crate) fn deallocated(outcome: Result<(), DeallocateRefusal>) -> Answer
    ensures { result ≡ done_or (λ nothing. answer.Done) (deallocate_answer outcome) }
{
    match outcome {
        Ok(()) => Answer::Done,
        Err(DeallocateRefusal::NotOwner) => Answer::NotOwner,
        Err(DeallocateRefusal::Spent(generation)) => Answer::Spent(generation),
    }
}

/// Returns the answer of an OBTAIN, which does not show the request's number.
pub fn obtained(outcome: Result<Obtained, ObtainRefusal>) -> Answer
    ensures { result ≡ done_or obtained_told (obtain_answer outcome) }
{
    match outcome {
        Ok(Obtained::Granted(_)) => Answer::Granted,
        Ok(Obtained::Pending(_)) => Answer::Pending,
        Err(ObtainRefusal::BadLatch) => Answer::BadLatch,
        Err(ObtainRefusal::NotOwner) => Answer::NotOwner,
        Err(ObtainRefusal::Quota) => Answer::Quota,
        Err(ObtainRefusal::NotNow(id)) => Answer::NotNow(id),
        Err(ObtainRefusal::Purged) => Answer::Purged,
    }
}

/// Returns the answer of a CHECK.
pub(crate) fn standing(outcome: Standing) -> Answer
    ensures { result ≡ standing_of outcome }
{
    match outcome {
        Standing::Granted => Answer::Granted,
        Standing::Waiting => Answer::Waiting,
        Standing::Gone => Answer::Gone,
    }
}

/// Returns the answer of a FREE.
pub(crate) fn freed(outcome: Result<u32, ReleaseLatchRefusal>) -> Answer
    ensures { result ≡ done_or (λ granted. answer.Released granted) (freed_answer outcome) }
{
    match outcome {
        Ok(granted) => Answer::Released(granted),
        Err(ReleaseLatchRefusal::Gone) => Answer::Gone,
        Err(ReleaseLatchRefusal::StillWaiting) => Answer::Waiting,
    }
}

/// Returns the answer of an EVPOST. Only EVPOST and EVNEXT change a script's table, so no EVPOST is purged or finds the volume
/// broken.
pub(crate) fn entered(outcome: Result<EventAnswer, PostEventRefusal>) -> Answer
    ensures { result ≡ done_or entered_as (entering_answer outcome) }
{
    match outcome {
        Ok(EventAnswer::Entered(position)) => Answer::Entered(position),
        Ok(EventAnswer::Already(code)) => Answer::AlreadyPosted(code),
        Err(PostEventRefusal::Quota) => Answer::Quota,
        Err(PostEventRefusal::Purged | PostEventRefusal::Broken(_)) => Answer::Purged,
    }
}

/// Returns the answer of an EVNEXT. Each code in a slot of a script's table is an index, so the last case does not occur.
pub(crate) fn handed_out(outcome: Result<Event, NextRefusal>) -> Answer
    ensures { result ≡ done_or found (next_answer outcome) }
{
    match outcome {
        Ok(Event { index, word }) => Answer::Event { index, word },
        Err(NextRefusal::NotOwner) => Answer::NotOwner,
        Err(NextRefusal::Drained) => Answer::Drained,
        Err(NextRefusal::Strange(_)) => Answer::Purged,
    }
}

/// Returns the answer of a PURGE, or of the end of a task.
pub(crate) fn purged(outcome: Purged) -> Answer
    ensures { result ≡ purged_as outcome }
{
    Answer::PurgedCounts {
        removed: outcome.removed,
        granted: outcome.granted,
    }
}
