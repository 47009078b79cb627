//! The calls on a machine. Its clauses cite specs/Verdict, specs/Stepping and specs/Reading.

ghost use Rattle.std.specs.Prelude.{◌≡◌, ◌≢◌, ◌≤◌, [], length, IfOk, IfErr};
ghost use Rattle.mv_config.specs.Setup.{Setup};
ghost use Rattle.mv_replay.specs.Judgement.{journal_limit, IsReplayed};
ghost use Rattle.mv_replay.specs.Outcome.{IsAsked};
ghost use Rattle.mv_oracle.specs.Machine.{Holds, Machine, machine_of};
ghost use Rattle.mv_oracle.specs.Operation.{object_of, request_of};
ghost use Rattle.mv_oracle.specs.Reading.{IsFound, object_at, wake_at, request_at};
ghost use Rattle.mv_oracle.specs.Stepping.{IsStepped};
ghost use Rattle.mv_oracle.specs.Verdict.{IsVerdictOn};

use crate::answer::Answer;
use crate::handle::MachineHandle;
use crate::latch::{LatchRequest, LatchWake};
use crate::operation::Operation;
use crate::oracle::Oracle;
use crate::status::NO_MACHINE;
use crate::verdict::Verdict;
use mv_replay::ReplayStatus;
use std::alloc::Global;

// Returns the machine after the entries of a journal, on the heap, and their number.
fn open_machine(alloc: Global, journal: &[u8]) -> Result<(Box<Oracle>, u32), ReplayStatus>
    ensures short { IfOk result (λ _. length journal.now ≤ journal_limit) }
    ensures replayed { IfOk result (λ x.
        IsReplayed journal.now x.1 x.0.value.config (machine_of x.0.value).system (machine_of x.0.value).wakes) }
    ensures refused { IfErr result (λ status. IsAsked journal.now status) }
{
    let (oracle, events) = Oracle::open(alloc, journal)?;
    match Box::new(alloc, oracle) {
        Ok(machine) => Ok((machine, events)),
        // out of memory: the box of the machine
        Err(_) => Err(ReplayStatus::NoMemory),
    }
}

impl MachineHandle {
    /// Judges a journal, writes the verdict and returns its status, as `judge`. If the journal is legal, the handle then holds the machine
    /// after its entries, and the machine that it held is freed; a journal without entries opens a new machine. Otherwise the handle
    /// keeps what it holds.
    pub fn open(&mut self, alloc: Global, journal: &[u8], verdict: &mut Verdict) -> u32
        ensures status { result ≡ verdict.new.status }
        ensures verdict { IsVerdictOn journal.now verdict.new }
        ensures opened { result ≡ 0 → (c : Setup) × (m : Machine)
            × IsReplayed journal.now verdict.new.events c m.system m.wakes × Holds self.new.held c m }
        ensures kept { result ≢ 0 → self.new.held ≡ self.old.held }
    {
        match open_machine(alloc, journal) {
            Ok((machine, events)) => {
                self.put(alloc, machine);
                *verdict = Verdict::legal(events);
                verdict.status
            }
            Err(status) => {
                *verdict = Verdict::refused(status);
                verdict.status
            }
        }
    }

    /// Makes an operation. Returns 0 and writes the answer if it was made, 1 if it is not admitted, 2 if the object has had 524,287 events,
    /// 3 if a number of the operation has no meaning, and 4 if the handle holds no machine. Unless the operation was made, the answer is as
    /// it was. It takes no memory.
    pub fn step(&mut self, alloc: Global, operation: &Operation, answer: &mut Answer) -> u32
        ensures stepped { (c : Setup) (m : Machine) → Holds self.old.held c m
            → IsStepped c m operation.now.caller (request_of operation.now) result answer.new (λ n. Holds self.new.held c n) }
        ensures none { self.old.held ≡ [] → (result ≡ 4) × (self.new.held ≡ []) }
        ensures unwritten { result ≢ 0 → answer.new ≡ answer.old }
    {
        let Some(mut machine) = self.take(alloc) else {
            return NO_MACHINE;
        };
        let status = machine.serve(operation, answer);
        self.put(alloc, machine);
        status
    }

    /// Shows the place and the state of an event control block, an element or a volume, as the answer of a TEST or of a READ, and changes
    /// nothing. Returns 0 and writes the answer if there is such an object, otherwise 5, and 4 if the handle holds no machine.
    pub fn object(&mut self, alloc: Global, kind: u32, number: u32, answer: &mut Answer) -> u32
        ensures found { (c : Setup) (m : Machine) → Holds self.old.held c m
            → IsFound (object_at c m.system (object_of kind number)) result answer.new }
        ensures same { self.new.held ≡ self.old.held }
        ensures none { self.old.held ≡ [] → result ≡ 4 }
        ensures unwritten { result ≢ 0 → answer.new ≡ answer.old }
    {
        let Some(machine) = self.take(alloc) else {
            return NO_MACHINE;
        };
        let status = machine.show_object(kind, number, answer);
        self.put(alloc, machine);
        status
    }

    /// Shows a wake of the last operation on the latch set, by its index. Returns 0 and writes the wake if there is one, otherwise 5, and
    /// 4 if the handle holds no machine.
    pub fn wake(&mut self, alloc: Global, index: u32, wake: &mut LatchWake) -> u32
        ensures found { (c : Setup) (m : Machine) → Holds self.old.held c m → IsFound (wake_at m.wakes index) result wake.new }
        ensures same { self.new.held ≡ self.old.held }
        ensures none { self.old.held ≡ [] → result ≡ 4 }
        ensures unwritten { result ≢ 0 → wake.new ≡ wake.old }
    {
        let Some(machine) = self.take(alloc) else {
            return NO_MACHINE;
        };
        let status = machine.show_wake(index, wake);
        self.put(alloc, machine);
        status
    }

    /// Shows a request in the list of a latch, by its index in order of arrival. Returns 0 and writes the request if there is one,
    /// otherwise 5, and 4 if the handle holds no machine.
    pub fn request(
        &mut self,
        alloc: Global,
        latch: u32,
        index: u32,
        request: &mut LatchRequest,
    ) -> u32
        ensures found { (c : Setup) (m : Machine) → Holds self.old.held c m
            → IsFound (request_at c m.system latch index) result request.new }
        ensures same { self.new.held ≡ self.old.held }
        ensures none { self.old.held ≡ [] → result ≡ 4 }
        ensures unwritten { result ≢ 0 → request.new ≡ request.old }
    {
        let Some(machine) = self.take(alloc) else {
            return NO_MACHINE;
        };
        let status = machine.show_request(latch, index, request);
        self.put(alloc, machine);
        status
    }

    /// Frees the machine, if the handle holds one.
    pub fn close(&mut self, alloc: Global)
        ensures { self.new.held ≡ [] }
    {
        drop(self.take(alloc));
    }
}
