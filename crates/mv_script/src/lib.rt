//! Scripts: texts that state the calls of up to eight tasks, read into values or refused with their first fault; and the runs of
//! a script, with the answers to its calls.
#![tactic(auto)]

mod answer;
mod configuration;
mod cost;
mod laws;
mod reading;
mod script;
mod table;

pub use answer::{Answer, AnswerList, Slots};
pub use configuration::copy_config;
pub use laws::{
    costs_suffice, events_are_handed_out, first_fault_is_lowest, scripts_are_sound,
    text_determines_answers, tries_are_done_or_moved,
};
pub use mv_line::{TextFault as ScriptFault, TextRefusal as ScriptRefusal};
pub use mv_scriptline::{Call, CallList, Kind, MOST_WAITED, Numbers};
pub use reading::read_script;
pub use script::Script;
