//! The judge of journals, the machine and the lines of journals for programs in other languages: the calls of mv_oracle with a C ABI.
#![tactic(auto)]

mod judging;
mod line;
mod machine;
