//! The lines of scripts: what one line states, by its words, and the kinds of fault that a line can have.
#![tactic(auto)]

mod call;
mod calls;
mod fault;
mod limits;
mod numbers;
mod operand;
mod statement;
mod words;

pub use call::{Call, CallList};
pub use fault::Kind;
pub use limits::{
    ELEMENTS_PER_TASK, EVENTS_LIMIT, LATCHES, MOST_CALLS, MOST_ECBS, MOST_EXITS, MOST_WAITED,
    POSTED_QUOTA, QUOTA, VOLUMES,
};
pub use numbers::Numbers;
pub use operand::Sizes;
pub use statement::Statement;
pub use words::Misread;
