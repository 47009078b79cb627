//! What a machine does: it is opened, makes operations, and shows its objects. The clauses cite specs/Stepping, specs/Reading and the
//! judgement of mv_replay.

ghost use Rattle.std.specs.Prelude.{◌≡◌, ◌≢◌, ◌≤◌, ◌<◌, length, MatchBool, IfOk, IfErr};
ghost use Rattle.mv_machine.specs.Prelude.{highest_place, system_of, wakes_of, answer, place_of};
ghost use Rattle.mv_replay.specs.Judgement.{journal_limit, IsReplayed};
ghost use Rattle.mv_replay.specs.Outcome.{IsAsked};
ghost use Rattle.mv_oracle.specs.Machine.{machine_of, after_operation};
ghost use Rattle.mv_oracle.specs.Operation.{object_of, request_of};
ghost use Rattle.mv_oracle.specs.Reading.{IsFound, object_at, wake_at, request_at};
ghost use Rattle.mv_oracle.specs.Stepping.{IsStepped};

use crate::answer::Answer;
use crate::latch::{LatchRequest, LatchWake};
use crate::operation::{Operation, object};
use crate::oracle::Oracle;
use crate::status::{ABSENT, DONE, FULL, NO_SUCH_OPERATION, NOT_ADMITTED};
use mv_ecb::EcbReply;
use mv_element::ElementReply;
use mv_machine::{HIGHEST_PLACE, Object, Op, Reply, VolumeReply};
use mv_replay::{ReplayStatus, ReplayedJournal, judge_text};
use std::alloc::Global;

impl Oracle {
    /// Returns the machine after the entries of a legal journal, and their number.
    ///
    /// # Errors
    ///
    /// As `judge_text`.
    pub(crate) fn open(alloc: Global, journal: &[u8]) -> Result<(Oracle, u32), ReplayStatus>
        ensures short { IfOk result (λ _. length journal.now ≤ journal_limit) }
        ensures replayed { IfOk result (λ x. IsReplayed journal.now x.1 x.0.config (system_of x.0.state) (wakes_of x.0.state)) }
        ensures refused { IfErr result (λ status. IsAsked journal.now status) }
    {
        let ReplayedJournal {
            count,
            config,
            state,
        } = judge_text(alloc, journal)?;
        Ok((Oracle { config, state }, count))
    }

    // Whether an object has had as many events as places count.
    fn is_full(&self, object: Object) -> bool
        ensures { MatchBool result (highest_place < place_of (system_of self.now.state) object)
            (place_of (system_of self.now.state) object ≤ highest_place) }
    {
        self.state.has(object) && self.state.place(object) > HIGHEST_PLACE
    }

    // Makes an operation of a caller on an object, and returns its place and the reply. Returns `None` and changes nothing if the
    // operation is not admitted.
    fn step(&mut self, caller: u32, object: Object, op: Op) -> Option<(u32, Reply)>
        requires place { place_of (system_of self.old.state) object ≤ highest_place }
        ensures config { self.new.config ≡ self.old.config }
        ensures answer { result ≡ answer self.old.config (system_of self.old.state) caller object op }
        ensures after { machine_of self.new ≡ after_operation self.old.config (machine_of self.old) caller object op }
    {
        self.state.step(&self.config, caller, object, op)
    }

    /// Makes an operation, writes the answer if it was made, and returns the status.
    pub(crate) fn serve(&mut self, operation: &Operation, answer: &mut Answer) -> u32
        ensures config { self.new.config ≡ self.old.config }
        ensures stepped { IsStepped self.old.config (machine_of self.old) operation.now.caller (request_of operation.now) result
            answer.new (λ m. machine_of self.new ≡ m) }
        ensures unwritten { result ≢ 0 → answer.new ≡ answer.old }
    {
        let Some((object, op)) = operation.request() else {
            return NO_SUCH_OPERATION;
        };
        if self.is_full(object) {
            return FULL;
        }
        match self.step(operation.caller, object, op) {
            Some((place, reply)) => {
                *answer = Answer::of(place, reply);
                DONE
            }
            None => NOT_ADMITTED,
        }
    }

    // The place and the state of the object with these numbers.
    fn object(&self, kind: u32, number: u32) -> Option<Answer>
        ensures { result ≡ object_at self.now.config (system_of self.now.state) (object_of kind number) }
    {
        let object = object(kind, number)?;
        if !self.state.has(object) {
            return None;
        }
        let place = self.state.place(object);
        match object {
            Object::Ecb(ecb) => {
                let word = self.state.ecb(ecb).word();
                Some(Answer::of(place, Reply::Ecb(EcbReply::Word(word))))
            }
            Object::Element(element) => {
                let state = self.state.element(element);
                Some(Answer::of(place, Reply::Element(ElementReply::State(state))))
            }
            Object::Volume(volume) => {
                let value = self.state.volume(volume);
                Some(Answer::of(place, Reply::Volume(VolumeReply::Value(value))))
            }
            Object::Latches => None,
        }
    }

    // The wake of this index among those of the last operation on the latch set.
    fn wake(&self, index: u32) -> Option<LatchWake>
        ensures { result ≡ wake_at (wakes_of self.now.state) index }
    {
        let wake = self.state.wakes().get(index as usize)?;
        Some(LatchWake::of(wake))
    }

    // The request of this index in the list of a latch, in order of arrival.
    fn request(&self, latch: u32, index: u32) -> Option<LatchRequest>
        ensures { result ≡ request_at self.now.config (system_of self.now.state) latch index }
    {
        if !self.config.has_latch(latch) {
            return None;
        }
        let request = self.state.requests(latch).get(index as usize)?;
        Some(LatchRequest::of(request))
    }

    /// Writes the place and the state of an object, if it is there, and returns the status.
    pub(crate) fn show_object(&self, kind: u32, number: u32, answer: &mut Answer) -> u32
        ensures found { IsFound (object_at self.now.config (system_of self.now.state) (object_of kind number)) result answer.new }
        ensures unwritten { result ≢ 0 → answer.new ≡ answer.old }
    {
        match self.object(kind, number) {
            Some(state) => {
                *answer = state;
                DONE
            }
            None => ABSENT,
        }
    }

    /// Writes a wake of the last operation on the latch set, if it is there, and returns the status.
    pub(crate) fn show_wake(&self, index: u32, wake: &mut LatchWake) -> u32
        ensures found { IsFound (wake_at (wakes_of self.now.state) index) result wake.new }
        ensures unwritten { result ≢ 0 → wake.new ≡ wake.old }
    {
        match self.wake(index) {
            Some(found) => {
                *wake = found;
                DONE
            }
            None => ABSENT,
        }
    }

    /// Writes a request of a latch, if it is there, and returns the status.
    pub(crate) fn show_request(&self, latch: u32, index: u32, request: &mut LatchRequest) -> u32
        ensures found { IsFound (request_at self.now.config (system_of self.now.state) latch index) result request.new }
        ensures unwritten { result ≢ 0 → request.new ≡ request.old }
    {
        match self.request(latch, index) {
            Some(found) => {
                *request = found;
                DONE
            }
            None => ABSENT,
        }
    }
}
