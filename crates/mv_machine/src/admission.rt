//! Which caller may make which operation on which object, by specs/System.antt. The matches name each operation, so a new
//! operation must be added here.

ghost use Rattle.std.specs.Prelude.{◌≡◌, ◌<◌, length};
ghost use Rattle.mv_machine.specs.System.{ecb_admitted, element_admitted};
ghost use Rattle.mv_machine.specs.System.{posts_own_ecb as posts_own_ecb_of, names_own_ecb as names_own_ecb_of};

use mv_config::ValidConfig;
use mv_ecb::{CODE_LIMIT, EcbOp};
use mv_element::{ElementOp, RELEASE_LIMIT};
use mv_latch::{LatchForm, LatchOp};

/// Returns whether a caller may make this operation on an event control block that exists.
pub(crate) fn admits_ecb(config: &ValidConfig, caller: u32, ecb: u32, op: EcbOp) -> bool
    requires { ecb < length config.now.owners }
    ensures { result ≡ ecb_admitted config.now caller ecb op }
{
    let owns = config.owns_ecb(caller, ecb);
    match op {
        EcbOp::Arm | EcbOp::Settle | EcbOp::Clear => owns,
        EcbOp::Extend(exit) => owns && exit < CODE_LIMIT && config.is_exit_of(exit, ecb),
        EcbOp::Post(code) => code < CODE_LIMIT,
        EcbOp::Test => true,
    }
}

/// Returns whether a caller may make this operation on an element.
pub(crate) fn admits_element(config: &ValidConfig, caller: u32, element: u32, op: ElementOp) -> bool
    ensures { result ≡ element_admitted config.now caller element op }
{
    let owns = config.owns_element(caller, element);
    match op {
        ElementOp::Open | ElementOp::Pause(_) | ElementOp::Resume(_) | ElementOp::Close(_) => owns,
        ElementOp::Release(_, code) => code < RELEASE_LIMIT,
        ElementOp::Test => true,
    }
}

/// Returns whether the block that an obtain of the Posted form names exists and is the caller's. True of every other operation
/// and form.
pub(crate) fn posts_own_ecb(config: &ValidConfig, caller: u32, op: LatchOp) -> bool
    ensures { result ≡ posts_own_ecb_of config.now caller op }
{
    match op {
        LatchOp::Obtain { form, .. } => names_own_ecb(config, caller, form),
        LatchOp::Confirm { .. } | LatchOp::Release { .. } | LatchOp::Purge { .. } => true,
    }
}

fn names_own_ecb(config: &ValidConfig, caller: u32, form: LatchForm) -> bool
    ensures { result ≡ names_own_ecb_of config.now caller form }
{
    match form {
        LatchForm::Conditional | LatchForm::Waiting => true,
        LatchForm::Posted(ecb) => config.has_ecb(ecb) && config.owns_ecb(caller, ecb),
    }
}
