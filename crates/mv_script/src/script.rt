//! A script: the configuration in which its calls are made, the calls of each task, and the table of events.

use mv_calls::ValidTable;
use mv_machine::ValidConfig;
use mv_scriptline::CallList;

/// A script that was read.
#[derive(Drop)]
pub struct Script {
    /// The configuration. Its callers are the tasks, and the budget of each is what its calls may cost.
    pub config: ValidConfig,
    /// The calls of each task; there are 1 to 8 tasks.
    pub tasks: Vec<CallList>,
    /// The table of events that its calls name, if it has one.
    pub table: Option<ValidTable>,
}
