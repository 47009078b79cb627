//! Tries: a post and a release by one exchange, which succeeds if the object has the expected word (`specs/Making.antt`).

ghost use Rattle.std.specs.Prelude.{◌≡◌, ◌<◌, ◌≤◌, length, List, Option};
ghost use Rattle.mv_wait.specs.Prelude.{code_limit, release_limit, highest_place, highest_generation, element_count, Table, MayCall};
ghost use Rattle.mv_latchset.specs.declared.token.LatchToken.{LatchToken};
ghost use Rattle.mv_scriptline.specs.declared.call.Call.TheVariants as call;
ghost use Rattle.mv_script.specs.Costs as expected;
ghost use Rattle.mv_runscript.specs.Making.{MakesCall};

use crate::answered::posted;
use mv_board::Moved;
use mv_ecb::EcbWord;
use mv_element::{ElementState, Token};
use mv_machine::{WordState, pack};
use mv_pause::{ReleaseAnswer, TryReleaseRefusal, try_release};
use mv_script::Answer;
use mv_wait::{Station, Task};

/// Makes a TRYPOST: it posts the block if that is zero and has had `place` events.
pub(crate) fn try_post(
    station: &Station,
    task: &mut Task,
    ecb: u32,
    place: u32,
    code: u32,
) -> Answer
    requires task { MayCall station.now 1 task.old }
    requires block { ecb < length station.now.config.owners }
    requires place { place ≤ highest_place }
    requires code { code < code_limit }
    ensures { (table : Option Table) (tokens : List (Option LatchToken)) → MakesCall station.now.config table
        (call.TryPost ecb place code) result
        tokens tokens task.old task.new }
{
    let zero = zero_at(place);
    match station.try_post(task, ecb, zero, code) {
        Ok(outcome) => posted(outcome),
        Err(Moved(word)) => Answer::Moved(word),
    }
}

/// Makes a TRYRELEASE: it releases the token if its element is allocated with the token's generation, is neither paused nor
/// released, and has had `place` events.
pub(crate) fn try_release_token(
    station: &Station,
    task: &mut Task,
    token: Token,
    place: u32,
    code: u32,
) -> Answer
    requires task { MayCall station.now 1 task.old }
    requires element { token.element < element_count station.now.config }
    requires generation { token.generation < highest_generation }
    requires place { place ≤ highest_place }
    requires code { code < release_limit }
    ensures { (table : Option Table) (tokens : List (Option LatchToken)) → MakesCall station.now.config table
        (call.TryRelease token place code) result
        tokens tokens task.old task.new }
{
    let reset = reset_at(token.generation, place);
    match try_release(station, task, token, reset, code) {
        Ok(ReleaseAnswer::Early) => Answer::Early,
        Ok(ReleaseAnswer::Woke) => Answer::Woke,
        Err(TryReleaseRefusal::Spent(generation)) => Answer::Spent(generation),
        Err(TryReleaseRefusal::Already) => Answer::AlreadyReleased,
        Err(TryReleaseRefusal::Moved(word)) => Answer::Moved(word),
    }
}

// The word of a block that is zero and has had `place` events.
fn zero_at(place: u32) -> u64
    requires { place ≤ highest_place }
    ensures { result ≡ expected.zero_at place }
{
    pack(place, WordState::Ecb(EcbWord::zero()))
}

// The word of an element that is allocated with this generation, is neither paused nor released, and has had `place` events.
fn reset_at(generation: u32, place: u32) -> u64
    requires generation { generation < highest_generation }
    requires place { place ≤ highest_place }
    ensures { result ≡ expected.reset_at generation place }
{
    pack(place, WordState::Element(ElementState::reset(generation)))
}
