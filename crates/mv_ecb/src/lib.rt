//! Event control blocks for one thread: the fullword, the operations, and what each operation does to it.
#![tactic(auto)]

mod laws;
mod operation;
mod word;

pub use laws::complete_keeps_its_code;
pub use operation::{CODE_LIMIT, EcbOp, EcbReply};
pub use word::{EcbWord, ecb_apply};
