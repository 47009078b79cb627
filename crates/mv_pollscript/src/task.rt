//! A task of a script between two polls. Clauses cite `specs/Task.antt`.

ghost use Rattle.std.specs.Prelude.{◌≡◌, ℕ, ◌≤◌, ◌+◌, false, [], ◌∷◌, ◌++◌, length, count_by, OnOk, IfOk};
ghost use Rattle.mv_wait.specs.Prelude.{IsSoundTable, MayCall};
ghost use Rattle.mv_pollscript.specs.Task.{IsStageFor, IsTaskAt};
ghost use Rattle.mv_pollscript.specs.declared.task.Stage.TheVariants as stage;
ghost use Rattle.mv_runscript.specs.Making.{AreGoodIn, AreOfLatches, AreSoundIn, IsForScripts, MakesCall, is_wait};
ghost use Rattle.mv_script.specs.Costs.{cost};
ghost use Rattle.mv_script.specs.Fault.{obtain_meant};
ghost use Rattle.mv_script.specs.Script.{is_obtain};
ghost use Rattle.mv_script.specs.Sound.{IfThere};
ghost use Rattle.mv_script.specs.declared.answer.Answer.{Answer as AnswerValue};

use crate::polls::{poll_pause, poll_wait};
use mv_calls::ValidTable;
use mv_io::NoMemory;
use mv_latch::LatchForm;
use mv_latchset::LatchToken;
use mv_polled::{ObtainCall, PauseCall, Turn, WaitCall};
use mv_runscript::{make_call, obtained, request_in};
use mv_script::{Answer, Call};
use mv_wait::{Station, Task};
use std::alloc::Global;
use std::sync::Wait;
use std::time::Clock;

/// What a task does between two polls.
#[derive(Drop)]
pub(crate) enum Stage {
    /// It has not begun its next call.
    Between,
    /// It is in a WAIT.
    Waits(WaitCall),
    /// It is in a PAUSE.
    Pauses(PauseCall),
    /// It is in an OBTAIN of the Waiting form.
    Obtains(ObtainCall),
    /// Its next call is one that is not polled: a TRANSFER that pauses, an EVPOST or an EVNEXT.
    Halted,
    /// It has made all of its calls.
    Finished,
}

/// A task of a script, with the answers of its calls so far.
#[derive(Drop)]
pub(crate) struct ScriptTask {
    pub task: Task,
    pub answers: Vec<Answer>,
    /// For each OBTAIN the request that it got, or `None`.
    pub requests: Vec<Option<LatchToken>>,
    pub stage: Stage,
}

// Returns the stage in which a task makes this call, or `None` if the call does not wait.
fn stage_for(alloc: Global, call: &Call) -> Result<Option<Stage>, NoMemory>
    ensures { IfOk result (λ stage. IsStageFor stage call.now) }
{
    match call {
        Call::Wait { count, ecbs } => {
            let wait = WaitCall::new(alloc, *count, &ecbs.numbers)?;
            Ok(Some(Stage::Waits(wait)))
        }
        Call::Pause(token) => Ok(Some(Stage::Pauses(PauseCall::new(*token)))),
        Call::Obtain {
            latch,
            requestor,
            mode,
            form: LatchForm::Waiting,
        } => Ok(Some(Stage::Obtains(ObtainCall::new(*latch, *requestor, *mode)))),
        Call::Transfer {
            current: Some(_),
            ..
        }
        | Call::PostEvent { .. }
        | Call::NextEvent(_) => Ok(Some(Stage::Halted)),
        _ => Ok(None),
    }
}

impl ScriptTask {
    /// Makes a task that has made no call. It takes no memory.
    pub(crate) fn new(alloc: Global, task: Task) -> ScriptTask
        ensures task { result.task ≡ task }
        ensures answers { result.answers.items ≡ [] }
        ensures requests { result.requests.items ≡ [] }
        ensures stage { result.stage ≡ stage.Between }
    {
        ScriptTask {
            task,
            answers: Vec::new(alloc),
            requests: Vec::new(alloc),
            stage: Stage::Between,
        }
    }

    /// Makes the calls of the task as far as it can: until it waits for what has not happened, or goes no further. Returns whether
    /// it got further than before.
    ///
    /// # Errors
    ///
    /// `NoMemory` if memory runs out.
    pub(crate) fn poll<R: Wait + Clock>(
        &mut self,
        rt: &R,
        alloc: Global,
        station: &Station,
        table: &Option<ValidTable>,
        calls: &[Call],
    ) -> Result<bool, NoMemory>
        requires config { IsForScripts station.now.config }
        requires table { IfThere (IsSoundTable station.now.config) table.now }
        requires sound { AreSoundIn station.now.config table.now [] calls.now }
        requires task { (k : ℕ) × IsTaskAt station.now table.now calls.now k self.old }
        ensures task { OnOk result ((k : ℕ) → IsTaskAt station.now table.now calls.now k self.old
            → IsTaskAt station.now table.now calls.now k self.new) }
    {
        let mut further = false;
        for _ in rt.forever() {
            if !self.step(rt, alloc, station, table, calls)? {
                break;
            }
            further = true;
        }
        Ok(further)
    }

    // Begins the next call, or polls the one that waits. Returns whether the task got further.
    fn step<R: Wait + Clock>(
        &mut self,
        rt: &R,
        alloc: Global,
        station: &Station,
        table: &Option<ValidTable>,
        calls: &[Call],
    ) -> Result<bool, NoMemory>
        requires config { IsForScripts station.now.config }
        requires table { IfThere (IsSoundTable station.now.config) table.now }
        requires sound { AreSoundIn station.now.config table.now [] calls.now }
        requires task { (k : ℕ) × IsTaskAt station.now table.now calls.now k self.old }
        ensures task { OnOk result ((k : ℕ) → IsTaskAt station.now table.now calls.now k self.old
            → IsTaskAt station.now table.now calls.now k self.new) }
    {
        match &mut self.stage {
            Stage::Between => self.next_call(rt, alloc, station, table, calls),
            Stage::Waits(call) => {
                let Some(answer) = poll_wait(rt, alloc, station, &mut self.task, call)? else {
                    return Ok(false);
                };
                self.end_call(answer)
            }
            Stage::Pauses(call) => {
                let Some(answer) = poll_pause(station, rt, &mut self.task, call) else {
                    return Ok(false);
                };
                self.end_call(answer)
            }
            Stage::Obtains(call) => {
                let Turn::Ready(outcome) = call.poll(station, rt, &mut self.task) else {
                    return Ok(false);
                };
                self.requests.push(request_in(outcome))?;
                self.end_call(obtained(outcome))
            }
            Stage::Halted | Stage::Finished => Ok(false),
        }
    }

    // Keeps the answer of a call that is over. Returns true.
    fn end_call(&mut self, answer: Answer) -> Result<bool, NoMemory>
        ensures task { OnOk result (self.new.task ≡ self.old.task) }
        ensures requests { OnOk result (self.new.requests.items ≡ self.old.requests.items) }
        ensures answers { OnOk result (self.new.answers.items ≡ self.old.answers.items ++ answer ∷ []) }
        ensures stage { OnOk result (self.new.stage ≡ stage.Between) }
    {
        self.answers.push(answer)?;
        self.stage = Stage::Between;
        Ok(true)
    }

    // Makes the next call if it does not wait, and otherwise begins it. Returns whether there was one.
    fn next_call<R: Wait + Clock>(
        &mut self,
        rt: &R,
        alloc: Global,
        station: &Station,
        table: &Option<ValidTable>,
        calls: &[Call],
    ) -> Result<bool, NoMemory>
        requires config { IsForScripts station.now.config }
        requires table { IfThere (IsSoundTable station.now.config) table.now }
        requires sound { AreSoundIn station.now.config table.now [] calls.now }
        requires task { (k : ℕ) × IsTaskAt station.now table.now calls.now k self.old }
        requires between { self.old.stage ≡ stage.Between }
        ensures task { OnOk result ((k : ℕ) → IsTaskAt station.now table.now calls.now k self.old
            → IsTaskAt station.now table.now calls.now k self.new) }
    {
        if self.answers.len() == calls.len() {
            self.stage = Stage::Finished;
            return Ok(false);
        }
        let call = &calls[self.answers.len()];
        match stage_for(alloc, call)? {
            Some(stage) => {
                self.stage = stage;
                Ok(true)
            }
            None => self.make(rt, alloc, station, table, call),
        }
    }

    // Makes a call that does not wait. Returns true.
    fn make<R: Wait + Clock>(
        &mut self,
        rt: &R,
        alloc: Global,
        station: &Station,
        table: &Option<ValidTable>,
        call: &Call,
    ) -> Result<bool, NoMemory>
        requires config { IsForScripts station.now.config }
        requires table { IfThere (IsSoundTable station.now.config) table.now }
        requires task { MayCall station.now (cost station.now.config call.now) self.old.task }
        requires numbers { AreGoodIn station.now.config table.now call.now }
        requires obtain { IfThere (λ k. (1 ≤ k) × (k ≤ length self.old.requests.items)) (obtain_meant call.now) }
        requires requests { AreOfLatches self.old.requests.items }
        requires other { is_wait call.now ≡ false }
        ensures makes { OnOk result ((answer : AnswerValue) × (self.new.answers.items ≡ self.old.answers.items ++ answer ∷ [])
            × MakesCall station.now.config table.now call.now answer self.old.requests.items self.new.requests.items
            self.old.task self.new.task) }
        ensures requests { OnOk result (AreOfLatches self.new.requests.items) }
        ensures count { OnOk result (length self.new.requests.items
            ≡ length self.old.requests.items + count_by is_obtain (call.now ∷ [])) }
        ensures stage { OnOk result (self.new.stage ≡ stage.Between) }
    {
        self.requests.reserve(1)?;
        let mut rooms = Vec::new(alloc);
        let answer = make_call(
            station,
            rt,
            &mut self.task,
            table,
            call,
            &mut self.requests,
            &mut rooms,
        );
        self.end_call(answer)
    }
}
