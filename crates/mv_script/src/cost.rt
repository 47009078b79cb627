//! The costs of calls (`specs/Costs.antt`).

ghost use Rattle.std.specs.Prelude.{◌≡◌, ◌<◌, ◌≤◌, length, Option};
ghost use Rattle.mv_wait.specs.Prelude.{Table, mother_events, highest_reach};
ghost use Rattle.mv_script.specs.Costs.{cost as cost_of};
ghost use Rattle.mv_scriptline.specs.Limits.{elements_per_task};
ghost use Rattle.mv_script.specs.Sound.{HasGoodNumbers, IfThere};

use mv_latch::LatchForm;
use mv_machine::ValidConfig;
use mv_scriptline::{Call, ELEMENTS_PER_TASK};

/// Returns how many events a call may need in a configuration with these blocks and exits.
pub(crate) fn cost(config: &ValidConfig, call: &Call) -> u32
    requires elements { config.now.elements_per_caller ≡ elements_per_task }
    requires numbers { (table : Option Table)
        × HasGoodNumbers (record { tasks = config.now.callers; ecbs = length config.now.owners; table = table }) call.now }
    ensures { result ≡ cost_of config.now call.now }
{
    match call {
        Call::Wait { ecbs, .. } => 2 * ecbs.numbers.len() as u32,
        Call::Post { ecb, .. } => config.reach(*ecb),
        Call::TryPost { .. } | Call::Clear(_) | Call::Extend { .. } | Call::Test(_) => 1,
        Call::Read(_) | Call::Write { .. } => 1,
        Call::Alloc | Call::Dealloc(_) | Call::TestElement(_) => 1,
        Call::Release { .. } | Call::TryRelease { .. } => 1,
        Call::Pause(_) => 2,
        Call::Transfer { current, .. } => match current {
            Some(_) => 3,
            None => 1,
        },
        Call::Obtain { form, .. } => match form {
            LatchForm::Waiting => 2,
            LatchForm::Conditional | LatchForm::Posted(_) => 1,
        },
        Call::Check(_) => 1,
        Call::Free { .. } | Call::Purge(_) => config.release_cost(),
        Call::EndTask { mother, .. } => {
            ELEMENTS_PER_TASK + config.release_cost() + mother_cost(config, *mother)
        }
        Call::PostEvent { .. } => 6 + config.release_cost(),
        Call::NextEvent(_) => 3,
    }
}

// How many events the post of a mother's block may need; 0 if there is none.
fn mother_cost(config: &ValidConfig, mother: Option<u32>) -> u32
    requires { IfThere (λ e. e < length config.now.owners) mother }
    ensures cost { result ≡ mother_events config.now mother }
    ensures bound { result ≤ highest_reach }
{
    match mother {
        Some(ecb) => config.reach(ecb),
        None => 0,
    }
}
