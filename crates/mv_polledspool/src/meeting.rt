//! The polled call of what a task waits for. Clauses cite `specs/Meeting.antt`.

ghost use Rattle.std.specs.Prelude.{◌≡◌, ◌≤◌, ℕ, length, IfOk};
ghost use Rattle.mv_wait.specs.Prelude.{CallerFace, IsOf, IsSame, Token as TokenValue, Mode as ModeValue};
ghost use Rattle.mv_polled.specs.Obtaining.{IsObtainAt};
ghost use Rattle.mv_polled.specs.Pausing.{IsPauseAt};
ghost use Rattle.mv_polled.specs.Waiting.{IsWaitAt};
ghost use Rattle.mv_polledspool.specs.Meeting.{HasRoom, IsMeeting, IsTakenUp, IsWaitFor, IsBlockFor, IsPauseFor, IsObtainFor, MatchPolled};
ghost use Rattle.mv_work.specs.Meeting.{IsMet};
ghost use Rattle.mv_work.specs.Needs.{most_blocks};
ghost use Rattle.mv_work.specs.declared.need.Blocks.{Blocks as BlocksValue};
ghost use Rattle.mv_work.specs.declared.need.Need.{Need as NeedValue};
ghost use Rattle.mv_work.specs.declared.need.Need.TheVariants as need;

use arrayvec::ArrayVec;
use mv_io::NoMemory;
use mv_latchset::Obtained;
use mv_polled::{ObtainCall, PauseCall, Turn, WaitCall};
use mv_wait::{Station, Task, WaitSlot};
use mv_work::{Got, Lost, MOST_BLOCKS, Need};
use std::alloc::Global;
use std::sync::Wait;

/// The call that is polled.
#[derive(Drop)]
pub(crate) enum Call {
    Nothing,
    /// A wait for several blocks, in the room of the meeting.
    Wait,
    /// A wait for one block, in the room of the meeting.
    Block,
    Pause(PauseCall),
    Obtain(ObtainCall),
}

/// The call of what a task waits for, with the room of each wait that the task may need.
#[derive(Drop)]
pub(crate) struct Meeting {
    pub wait: WaitCall,
    pub call: Call,
}

impl Meeting {
    /// Makes a meeting without a call, and takes all memory that its later calls use.
    ///
    /// # Errors
    ///
    /// `NoMemory` if memory runs out.
    pub(crate) fn new(alloc: Global) -> Result<Meeting, NoMemory>
        ensures { IfOk result HasRoom }
    {
        Ok(Meeting {
            wait: WaitCall::with_room(alloc, MOST_BLOCKS)?,
            call: Call::Nothing,
        })
    }

    /// Takes up the call for this need, without a poll. It takes no memory.
    pub(crate) fn take_up(&mut self, need: Need)
        requires room { HasRoom self.old }
        ensures room { HasRoom self.new }
        ensures taken { IsTakenUp need self.new }
    {
        match need {
            Need::Blocks(blocks) => {
                self.wait.renew(blocks.count, &blocks.ecbs);
                self.call = Call::Wait;
            }
            Need::Block(ecb) => {
                self.wait.renew(1, &[ecb]);
                self.call = Call::Block;
            }
            Need::Pause(token) => self.call = Call::Pause(PauseCall::new(token)),
            Need::Latch(latch, requestor, mode) => {
                self.call = Call::Obtain(ObtainCall::new(latch, requestor, mode));
            }
        }
    }

    /// Polls the call, and returns its answer once it has one.
    ///
    /// # Errors
    ///
    /// `Lost` if the call was refused or has an answer that the task does not foresee.
    pub(crate) fn poll<R: Wait>(
        &mut self,
        station: &Station,
        rt: &R,
        task: &mut Task,
    ) -> Result<Turn<Got>, Lost>
        requires task { IsOf station.now task.old }
        requires room { HasRoom self.old }
        requires meeting { (n : NeedValue) × (t : CallerFace) × IsMeeting station.now.config n self.old t task.old }
        ensures room { HasRoom self.new }
        ensures same { IsSame task.old task.new }
        ensures turn { (n : NeedValue) (t : CallerFace) → IsMeeting station.now.config n self.old t task.old → MatchPolled result
            (λ r. IsMet station.now.config n t r task.new) (IsMeeting station.now.config n self.new t task.new) }
    {
        match &mut self.call {
            Call::Wait => await_blocks(station, rt, task, &mut self.wait),
            Call::Block => await_block(station, rt, task, &mut self.wait),
            Call::Pause(call) => await_release(station, rt, task, call),
            Call::Obtain(call) => await_grant(station, rt, task, call),
            Call::Nothing => unreachable!(),
        }
    }
}

// Polls a wait for several blocks.
fn await_blocks<R: Wait>(
    station: &Station,
    rt: &R,
    task: &mut Task,
    call: &mut WaitCall,
) -> Result<Turn<Got>, Lost>
    requires task { IsOf station.now task.old }
    requires stage { (t : CallerFace) × IsWaitAt station.now.config call.old t task.old }
    requires few { length call.old.ecbs ≤ most_blocks }
    ensures room { call.new.room ≡ call.old.room }
    ensures same { IsSame task.old task.new }
    ensures turn { (b : BlocksValue) (t : CallerFace) → IsWaitFor station.now.config b call.old t task.old → MatchPolled result
        (λ r. IsMet station.now.config (need.Blocks b) t r task.new) (IsWaitFor station.now.config b call.new t task.new) }
{
    match call.poll(station, rt, task) {
        Turn::Pending => Ok(Turn::Pending),
        Turn::Ready(waited) => {
            waited?;
            let Ok(found) = ArrayVec::try_from(call.slots()) else {
                unreachable!()
            };
            Ok(Turn::Ready(Got::Slots(found)))
        }
    }
}

// Polls a wait for one block.
fn await_block<R: Wait>(
    station: &Station,
    rt: &R,
    task: &mut Task,
    call: &mut WaitCall,
) -> Result<Turn<Got>, Lost>
    requires task { IsOf station.now task.old }
    requires stage { (e : ℕ) × (t : CallerFace) × IsBlockFor station.now.config e call.old t task.old }
    ensures room { call.new.room ≡ call.old.room }
    ensures same { IsSame task.old task.new }
    ensures turn { (e : ℕ) (t : CallerFace) → IsBlockFor station.now.config e call.old t task.old → MatchPolled result
        (λ r. IsMet station.now.config (need.Block e) t r task.new) (IsBlockFor station.now.config e call.new t task.new) }
{
    match call.poll(station, rt, task) {
        Turn::Pending => Ok(Turn::Pending),
        Turn::Ready(waited) => {
            waited?;
            match call.slots()[0] {
                WaitSlot::Complete(code) => Ok(Turn::Ready(Got::Code(code))),
                WaitSlot::Open => unreachable!(),
            }
        }
    }
}

// Polls a pause.
fn await_release<R: Wait>(
    station: &Station,
    rt: &R,
    task: &mut Task,
    call: &mut PauseCall,
) -> Result<Turn<Got>, Lost>
    requires task { IsOf station.now task.old }
    requires stage { (t : CallerFace) × IsPauseAt station.now.config call.old t task.old }
    ensures same { IsSame task.old task.new }
    ensures turn { (token : TokenValue) (t : CallerFace) → IsPauseFor station.now.config token call.old t task.old → MatchPolled result
        (λ r. IsMet station.now.config (need.Pause token) t r task.new) (IsPauseFor station.now.config token call.new t task.new) }
{
    match call.poll(station, rt, task) {
        Turn::Pending => Ok(Turn::Pending),
        Turn::Ready(paused) => Ok(Turn::Ready(Got::Given(paused?))),
    }
}

// Polls an obtain.
fn await_grant<R: Wait>(
    station: &Station,
    rt: &R,
    task: &mut Task,
    call: &mut ObtainCall,
) -> Result<Turn<Got>, Lost>
    requires task { IsOf station.now task.old }
    requires stage { (t : CallerFace) × IsObtainAt station.now.config call.old t task.old }
    ensures same { IsSame task.old task.new }
    ensures turn { (latch requestor : ℕ) (mode : ModeValue) (t : CallerFace)
        → IsObtainFor station.now.config latch requestor mode call.old t task.old → MatchPolled result
        (λ r. IsMet station.now.config (need.Latch latch requestor mode) t r task.new)
        (IsObtainFor station.now.config latch requestor mode call.new t task.new) }
{
    match call.poll(station, rt, task) {
        Turn::Pending => Ok(Turn::Pending),
        Turn::Ready(obtained) => match obtained? {
            Obtained::Granted(token) => Ok(Turn::Ready(Got::Granted(token))),
            Obtained::Pending(_) => Err(Lost),
        },
    }
}
