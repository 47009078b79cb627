//! The machine, one operation at a time. Its clauses cite specs/Verdict, specs/Stepping and specs/Reading of mv_oracle.

ghost use Rattle.std.specs.Prelude.{◌≡◌, ◌≢◌, []};
ghost use Rattle.mv_config.specs.Setup.{Setup};
ghost use Rattle.mv_replay.specs.Judgement.{IsReplayed};
ghost use Rattle.mv_oracle.specs.Machine.{Holds, Machine};
ghost use Rattle.mv_oracle.specs.Operation.{object_of, request_of};
ghost use Rattle.mv_oracle.specs.Reading.{IsFound, object_at, wake_at, request_at};
ghost use Rattle.mv_oracle.specs.Stepping.{IsStepped};
ghost use Rattle.mv_oracle.specs.Verdict.{IsVerdictOn};

use mv_oracle::{Answer, LatchRequest, LatchWake, MachineHandle, Operation, Verdict};
use std::alloc::Global;

/// Judges a journal, and opens the machine after its entries if it is legal. See `MachineHandle::open`.
///
/// ```c
/// uint32_t tongsthyme_machine_open(const uint8_t *journal, size_t length, struct tongsthyme_machine *machine,
///                                  struct tongsthyme_verdict *verdict);
/// ```
#[unsafe(no_mangle)]
pub extern "C" fn tongsthyme_machine_open(
    alloc: Global,
    journal: &[u8],
    machine: &mut MachineHandle,
    verdict: &mut Verdict,
) -> u32
    ensures status { result ≡ verdict.new.status }
    ensures verdict { IsVerdictOn journal.now verdict.new }
    ensures opened { result ≡ 0 → (c : Setup) × (m : Machine)
        × IsReplayed journal.now verdict.new.events c m.system m.wakes × Holds machine.new.held c m }
    ensures kept { result ≢ 0 → machine.new.held ≡ machine.old.held }
{
    machine.open(alloc, journal, verdict)
}

/// Makes an operation. See `MachineHandle::step`.
///
/// ```c
/// uint32_t tongsthyme_machine_step(struct tongsthyme_machine *machine, const struct tongsthyme_operation *operation,
///                                  struct tongsthyme_answer *answer);
/// ```
#[unsafe(no_mangle)]
pub extern "C" fn tongsthyme_machine_step(
    alloc: Global,
    machine: &mut MachineHandle,
    operation: &Operation,
    answer: &mut Answer,
) -> u32
    ensures stepped { (c : Setup) (m : Machine) → Holds machine.old.held c m
        → IsStepped c m operation.now.caller (request_of operation.now) result answer.new (λ n. Holds machine.new.held c n) }
    ensures none { machine.old.held ≡ [] → (result ≡ 4) × (machine.new.held ≡ []) }
    ensures unwritten { result ≢ 0 → answer.new ≡ answer.old }
{
    machine.step(alloc, operation, answer)
}

/// Shows the place and the state of an object. See `MachineHandle::object`.
///
/// ```c
/// uint32_t tongsthyme_machine_object(struct tongsthyme_machine *machine, uint32_t kind, uint32_t number,
///                                    struct tongsthyme_answer *answer);
/// ```
#[unsafe(no_mangle)]
pub extern "C" fn tongsthyme_machine_object(
    alloc: Global,
    machine: &mut MachineHandle,
    kind: u32,
    number: u32,
    answer: &mut Answer,
) -> u32
    ensures found { (c : Setup) (m : Machine) → Holds machine.old.held c m
        → IsFound (object_at c m.system (object_of kind number)) result answer.new }
    ensures same { machine.new.held ≡ machine.old.held }
    ensures none { machine.old.held ≡ [] → result ≡ 4 }
    ensures unwritten { result ≢ 0 → answer.new ≡ answer.old }
{
    machine.object(alloc, kind, number, answer)
}

/// Shows a wake of the last operation on the latch set. See `MachineHandle::wake`.
///
/// ```c
/// uint32_t tongsthyme_machine_wake(struct tongsthyme_machine *machine, uint32_t index, struct tongsthyme_wake *wake);
/// ```
#[unsafe(no_mangle)]
pub extern "C" fn tongsthyme_machine_wake(
    alloc: Global,
    machine: &mut MachineHandle,
    index: u32,
    wake: &mut LatchWake,
) -> u32
    ensures found { (c : Setup) (m : Machine) → Holds machine.old.held c m → IsFound (wake_at m.wakes index) result wake.new }
    ensures same { machine.new.held ≡ machine.old.held }
    ensures none { machine.old.held ≡ [] → result ≡ 4 }
    ensures unwritten { result ≢ 0 → wake.new ≡ wake.old }
{
    machine.wake(alloc, index, wake)
}

/// Shows a request in the list of a latch. See `MachineHandle::request`.
///
/// ```c
/// uint32_t tongsthyme_machine_request(struct tongsthyme_machine *machine, uint32_t latch, uint32_t index,
///                                     struct tongsthyme_request *request);
/// ```
#[unsafe(no_mangle)]
pub extern "C" fn tongsthyme_machine_request(
    alloc: Global,
    machine: &mut MachineHandle,
    latch: u32,
    index: u32,
    request: &mut LatchRequest,
) -> u32
    ensures found { (c : Setup) (m : Machine) → Holds machine.old.held c m
        → IsFound (request_at c m.system latch index) result request.new }
    ensures same { machine.new.held ≡ machine.old.held }
    ensures none { machine.old.held ≡ [] → result ≡ 4 }
    ensures unwritten { result ≢ 0 → request.new ≡ request.old }
{
    machine.request(alloc, latch, index, request)
}

/// Frees the machine, if there is one. See `MachineHandle::close`.
///
/// ```c
/// void tongsthyme_machine_close(struct tongsthyme_machine *machine);
/// ```
#[unsafe(no_mangle)]
pub extern "C" fn tongsthyme_machine_close(alloc: Global, machine: &mut MachineHandle)
    ensures { machine.new.held ≡ [] }
{
    machine.close(alloc)
}
