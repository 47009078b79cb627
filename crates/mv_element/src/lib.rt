//! Pause elements for one thread: an element's state, the operations, and what each operation does to it.
#![tactic(auto)]

mod element;
mod laws;
mod operation;
mod table;

pub use element::{ElementState, GENERATION_LIMIT, Phase, Token};
pub use laws::generation_rises_as_it_ends;
pub use operation::{ElementOp, ElementReply, RELEASE_LIMIT};
pub use table::element_apply;
