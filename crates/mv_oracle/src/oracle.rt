//! A machine and its configuration.

ghost use Rattle.mv_machine.specs.State.{IsOpenedWith};

use mv_machine::{State, ValidConfig};

/// The machine of a configuration.
#[derive(Drop)]
pub struct Oracle {
    pub(crate) config: ValidConfig,
    pub(crate) state: State,
    ghost opened: { IsOpenedWith config state },
}
