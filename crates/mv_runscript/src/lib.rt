//! Runs of scripts: each task makes its calls in order on a thread, and the answer of each call is kept.
#![tactic(auto)]

mod answered;
mod calling;
mod making;
mod room;
mod run;
mod serving;
mod text;
mod trying;

pub use answered::{obtained, paused, waited};
pub use calling::{make_call, request_in};
pub use run::{ScriptRun, run_script};
pub use text::{write_answer_lists, write_answers};
